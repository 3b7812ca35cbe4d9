// The pattern conditional stable.
ghost use Rattle.std.specs.Prelude.{◌==◌};
ghost use Rattle.watches.specs.Rules.{KeepsConditionalStable};
ghost use Rattle.watches.specs.Tables.{conditional_stable_row, conditional_stable_tint};
ghost use Rattle.patterns.specs.Words.{test};
ghost use Rattle.watches.proofs.Laws.{conditional_stable_law};
ghost use Rattle.std.proofs.Common.{rules};

use crate::proposition::Proposition;
use crate::watch::{Pattern, Tint, Told};
use graph::Word;

// Each place with P has a place, there or later, from which on Q holds.
#[derive(Clone, Copy, PartialEq, Eq, Debug)]
pub struct ConditionalStable {
    pub p: Proposition,
    pub q: Proposition,
}

impl Pattern for ConditionalStable {
    const COUNT: u8 = 2;

    ghost count = { 2 };

    ghost keeps = { λ x. KeepsConditionalStable (test x.p) (test x.q) };

    ghost step = { λ x m word. conditional_stable_row (m == 1) (test x.p word) };

    ghost tint = { λ x m word. conditional_stable_tint (m == 1) (test x.q word) };

    ghost few = { Prim.search rules };

    ghost lawful = { λ x. conditional_stable_law (test x.p) (test x.q) };

    fn marks() -> u8 {
        Self::COUNT
    }

    fn step(&self, mark: u8, word: Word) -> Told {
        match mark {
            1 => Told::Mark(1),
            _ if self.p.holds(word) => Told::Mark(1),
            _ => Told::Mark(0),
        }
    }

    fn tint(&self, mark: u8, word: Word) -> Tint {
        match mark {
            1 if !self.q.holds(word) => Tint::Sore,
            _ => Tint::Calm,
        }
    }
}
