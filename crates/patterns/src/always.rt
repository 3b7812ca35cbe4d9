// The pattern always.
ghost use Rattle.watches.specs.Rules.{KeepsAlways};
ghost use Rattle.watches.specs.Tables.{always_row};
ghost use Rattle.patterns.specs.Words.{test};
ghost use Rattle.watches.specs.declared.Tint.TheVariants.{Calm};
ghost use Rattle.watches.proofs.Laws.{always_law};
ghost use Rattle.std.proofs.Common.{rules};

use crate::proposition::Proposition;
use crate::watch::{Pattern, Tint, Told};
use graph::Word;

// Q holds at every place.
#[derive(Clone, Copy, PartialEq, Eq, Debug)]
pub struct Always {
    pub q: Proposition,
}

impl Pattern for Always {
    const COUNT: u8 = 1;

    ghost count = { 1 };

    ghost keeps = { λ x. KeepsAlways (test x.q) };

    ghost step = { λ x m word. always_row (test x.q word) };

    ghost tint = { λ x m word. Calm };

    ghost few = { Prim.search rules };

    ghost lawful = { λ x. always_law (test x.q) };

    fn marks() -> u8 {
        Self::COUNT
    }

    fn step(&self, mark: u8, word: Word) -> Told {
        match mark {
            _ if self.q.holds(word) => Told::Mark(0),
            _ => Told::Broken,
        }
    }

    fn tint(&self, _mark: u8, _word: Word) -> Tint {
        Tint::Calm
    }
}
