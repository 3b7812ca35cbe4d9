// Records of inspections: what one says, how its bytes are laid out, and why bytes or records are refused.
#![tactic(auto)]

pub mod refusal;
pub mod verdict;

use graph::State;
use patterns::kind::Kind;
use patterns::proposition::Proposition;
use verdict::Verdict;

// What a record says besides its lasso. `p` is 0 where the pattern speaks of Q alone, and `depth` 0 is left out: no Option,
// since callers make headings, and the rule of a valid record is about those zeros.
#[derive(Clone, Copy, PartialEq, Eq, Debug)]
pub struct Heading {
    pub kind: Kind,
    pub verdict: Verdict,
    pub p: Proposition,
    pub q: Proposition,
    pub depth: u16,
}

// A record to be written. The stem and the loop are those of a lasso that breaks the pattern: both are empty
// unless the verdict is broken.
#[derive(Clone, Copy)]
pub struct Record<'a> {
    pub heading: Heading,
    pub stem: &'a [State],
    pub cycle: &'a [State],
}

// A record that was read: how many states stem and loop have. The states are at the fronts of two lists. Lengths
// and no slices, since the project shows a lasso by two lists that the caller lends and both lengths.
#[derive(Clone, Copy, PartialEq, Eq, Debug)]
pub struct Found {
    pub heading: Heading,
    pub stem: usize,
    pub cycle: usize,
}
