// What each kind of source tells: definitions over its bytes, or over the graph below it (specs/), and the proofs
// that each keeps the laws of a graph (proofs/). The code that answers by them is in the crates above.
#![tactic(auto)]

pub mod fields;

// Which of a table's two columns stand; of a table with a fault, none.
#[derive(Clone, Copy, PartialEq, Eq, Debug, Default)]
pub struct Columns {
    pub words: bool,
    pub initials: bool,
}

// A rule applies to a state with every bit of `on` and no bit of `off`, and leads to the state that has the bits of
// `set` set and those of `clear` cleared.
#[derive(Clone, Copy, PartialEq, Eq, Debug, Default)]
pub struct Rule {
    pub on: u16,
    pub off: u16,
    pub set: u16,
    pub clear: u16,
}
