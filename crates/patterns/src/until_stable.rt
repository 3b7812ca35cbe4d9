// The pattern until stable.
ghost use Rattle.std.specs.Prelude.{◌==◌};
ghost use Rattle.watches.specs.Rules.{KeepsUntilStable};
ghost use Rattle.watches.specs.Tables.{until_stable_row, until_stable_tint};
ghost use Rattle.patterns.specs.Words.{test};
ghost use Rattle.watches.proofs.Laws.{until_stable_law};
ghost use Rattle.std.proofs.Common.{rules};

use crate::proposition::Proposition;
use crate::watch::{Pattern, Tint, Told};
use graph::Word;

// From some place on Q holds, and P at each place before it.
#[derive(Clone, Copy, PartialEq, Eq, Debug)]
pub struct UntilStable {
    pub p: Proposition,
    pub q: Proposition,
}

impl Pattern for UntilStable {
    const COUNT: u8 = 2;

    ghost count = { 2 };

    ghost keeps = { λ x. KeepsUntilStable (test x.p) (test x.q) };

    ghost step = { λ x m word. until_stable_row (m == 1) (test x.p word) (test x.q word) };

    ghost tint = { λ x m word. until_stable_tint (m == 1) (test x.q word) };

    ghost few = { Prim.search rules };

    ghost lawful = { λ x. until_stable_law (test x.p) (test x.q) };

    fn marks() -> u8 {
        Self::COUNT
    }

    fn step(&self, mark: u8, word: Word) -> Told {
        match mark {
            1 if self.q.holds(word) => Told::Mark(1),
            1 => Told::Broken,
            _ if self.p.holds(word) => Told::Mark(0),
            _ if self.q.holds(word) => Told::Mark(1),
            _ => Told::Broken,
        }
    }

    fn tint(&self, mark: u8, word: Word) -> Tint {
        match mark {
            1 => Tint::Calm,
            _ if self.q.holds(word) => Tint::Calm,
            _ => Tint::Sore,
        }
    }
}
