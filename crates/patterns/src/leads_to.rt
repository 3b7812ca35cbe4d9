// The pattern leads-to.
ghost use Rattle.std.specs.Prelude.{◌==◌};
ghost use Rattle.watches.specs.Rules.{KeepsLeadsTo};
ghost use Rattle.watches.specs.Tables.{leads_to_row, leads_to_tint};
ghost use Rattle.patterns.specs.Words.{test};
ghost use Rattle.watches.proofs.Laws.{leads_to_law};
ghost use Rattle.std.proofs.Common.{rules};

use crate::proposition::Proposition;
use crate::watch::{Pattern, Tint, Told};
use graph::Word;

// Each place with P has Q there or later.
#[derive(Clone, Copy, PartialEq, Eq, Debug)]
pub struct LeadsTo {
    pub p: Proposition,
    pub q: Proposition,
}

impl Pattern for LeadsTo {
    const COUNT: u8 = 2;

    ghost count = { 2 };

    ghost keeps = { λ x. KeepsLeadsTo (test x.p) (test x.q) };

    ghost step = { λ x m word. leads_to_row (m == 1) (test x.p word) (test x.q word) };

    ghost tint = { λ x m word. leads_to_tint (m == 1) };

    ghost few = { Prim.search rules };

    ghost lawful = { λ x. leads_to_law (test x.p) (test x.q) };

    fn marks() -> u8 {
        Self::COUNT
    }

    fn step(&self, mark: u8, word: Word) -> Told {
        match mark {
            1 if self.q.holds(word) => Told::Mark(0),
            1 => Told::Mark(1),
            _ if self.p.holds(word) && !self.q.holds(word) => Told::Mark(1),
            _ => Told::Mark(0),
        }
    }

    fn tint(&self, mark: u8, _word: Word) -> Tint {
        match mark {
            1 => Tint::Sore,
            _ => Tint::Relief,
        }
    }
}
