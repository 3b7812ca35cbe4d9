// Control graphs: what a source of one tells, and the faults that a source can have.
#![tactic(auto)]

pub mod fault;
pub mod fields;
pub mod source;

// The number of a state.
pub type State = u16;

// What the sensors read in a state, a bit for each. The width of a word stands here, and as `word_bits` in the specs.
pub type Word = u16;

pub const WORD_BITS: u8 = 16;
