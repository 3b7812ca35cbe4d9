// The pattern eventual.
ghost use Rattle.watches.specs.Rules.{KeepsEventual};
ghost use Rattle.watches.specs.Tables.{eventual_row};
ghost use Rattle.patterns.specs.Words.{test};
ghost use Rattle.watches.specs.declared.Tint.TheVariants.{Sore};
ghost use Rattle.watches.proofs.Laws.{eventual_law};
ghost use Rattle.std.proofs.Common.{rules};

use crate::proposition::Proposition;
use crate::watch::{Pattern, Tint, Told};
use graph::Word;

// Q holds at some place.
#[derive(Clone, Copy, PartialEq, Eq, Debug)]
pub struct Eventual {
    pub q: Proposition,
}

impl Pattern for Eventual {
    const COUNT: u8 = 1;

    ghost count = { 1 };

    ghost keeps = { λ x. KeepsEventual (test x.q) };

    ghost step = { λ x m word. eventual_row (test x.q word) };

    ghost tint = { λ x m word. Sore };

    ghost few = { Prim.search rules };

    ghost lawful = { λ x. eventual_law (test x.q) };

    fn marks() -> u8 {
        Self::COUNT
    }

    fn step(&self, mark: u8, word: Word) -> Told {
        match mark {
            _ if self.q.holds(word) => Told::Kept,
            _ => Told::Mark(0),
        }
    }

    fn tint(&self, _mark: u8, _word: Word) -> Tint {
        Tint::Sore
    }
}
