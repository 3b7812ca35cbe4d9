// The pattern until.
ghost use Rattle.watches.specs.Rules.{KeepsUntil};
ghost use Rattle.watches.specs.Tables.{until_row};
ghost use Rattle.patterns.specs.Words.{test};
ghost use Rattle.watches.specs.declared.Tint.TheVariants.{Sore};
ghost use Rattle.watches.proofs.Laws.{until_law};
ghost use Rattle.std.proofs.Common.{rules};

use crate::proposition::Proposition;
use crate::watch::{Pattern, Tint, Told};
use graph::Word;

// Q holds at some place, and P at each place before it.
#[derive(Clone, Copy, PartialEq, Eq, Debug)]
pub struct Until {
    pub p: Proposition,
    pub q: Proposition,
}

impl Pattern for Until {
    const COUNT: u8 = 1;

    ghost count = { 1 };

    ghost keeps = { λ x. KeepsUntil (test x.p) (test x.q) };

    ghost step = { λ x m word. until_row (test x.p word) (test x.q word) };

    ghost tint = { λ x m word. Sore };

    ghost few = { Prim.search rules };

    ghost lawful = { λ x. until_law (test x.p) (test x.q) };

    fn marks() -> u8 {
        Self::COUNT
    }

    fn step(&self, mark: u8, word: Word) -> Told {
        match mark {
            _ if self.q.holds(word) => Told::Kept,
            _ if self.p.holds(word) => Told::Mark(0),
            _ => Told::Broken,
        }
    }

    fn tint(&self, _mark: u8, _word: Word) -> Tint {
        Tint::Sore
    }
}
