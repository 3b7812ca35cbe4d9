// A pattern that borrows its proposition: a type with a lifetime can be a pattern too.
ghost use Rattle.watches.specs.Rules.{KeepsAlways};
ghost use Rattle.watches.specs.Tables.{always_row};
ghost use Rattle.patterns.specs.Words.{test};
ghost use Rattle.watches.specs.declared.Tint.TheVariants.{Calm};
ghost use Rattle.watches.proofs.Laws.{always_law};
ghost use Rattle.std.specs.Prelude.{◌≡◌};
ghost use Rattle.std.proofs.Common.{rules};

use graph::Word;
use patterns::proposition::Proposition;
use patterns::watch::{Pattern, Tint, Told};

// Q, which is lent, holds at every place.
#[derive(Clone, Copy)]
pub struct Lent<'a> {
    pub q: &'a Proposition,
}

impl Pattern for Lent<'_> {
    const COUNT: u8 = 1;

    ghost count = { 1 };

    ghost keeps = { λ x. KeepsAlways (test x.q.now) };

    ghost step = { λ x m word. always_row (test x.q.now word) };

    ghost tint = { λ x m word. Calm };

    ghost few = { Prim.search rules };

    ghost lawful = { λ x. always_law (test x.q.now) };

    // At a type with a lifetime a function that takes no argument says its trait's clause again.
    fn marks() -> u8
        ensures { result ≡ 1 }
    {
        Self::COUNT
    }

    fn step(&self, mark: u8, word: Word) -> Told {
        match mark {
            _ if self.q.holds(word) => Told::Mark(0),
            _ => Told::Broken,
        }
    }

    fn tint(&self, _mark: u8, _word: Word) -> Tint {
        Tint::Calm
    }
}
