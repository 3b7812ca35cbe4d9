// The six patterns as one type, for a pattern that is picked at run time.
ghost use Rattle.std.specs.Prelude.{◌≡◌};
ghost use Rattle.patterns.specs.Chosen.{chosen, kind_chosen, AnyKeeps, any_step, any_tint};
ghost use Rattle.std.proofs.Common.{arith, rules};
ghost use Rattle.patterns.specs.Words.{test};
ghost use Rattle.patterns.specs.declared.any.AnyPattern.TheVariants.{Always, Eventual, Until, UntilStable, LeadsTo, ConditionalStable};
ghost use Rattle.watches.proofs.Laws.{relax, always_law, eventual_law, until_law, until_stable_law, leads_to_law, conditional_stable_law};

use crate::always::Always;
use crate::conditional_stable::ConditionalStable;
use crate::eventual::Eventual;
use crate::kind::Kind;
use crate::leads_to::LeadsTo;
use crate::proposition::Proposition;
use crate::until::Until;
use crate::until_stable::UntilStable;
use crate::watch::{Pattern, Tint, Told};
use graph::Word;

#[derive(Clone, Copy, PartialEq, Eq, Debug)]
pub enum AnyPattern {
    Always(Always),
    Eventual(Eventual),
    Until(Until),
    UntilStable(UntilStable),
    LeadsTo(LeadsTo),
    ConditionalStable(ConditionalStable),
}

impl AnyPattern {
    // The pattern of that kind. `p` is left out where the kind speaks of Q alone.
    pub fn new(kind: Kind, p: Proposition, q: Proposition) -> AnyPattern
        ensures { result ≡ chosen kind p q }
    {
        match kind {
            Kind::Always => AnyPattern::Always(Always { q }),
            Kind::Eventual => AnyPattern::Eventual(Eventual { q }),
            Kind::Until => AnyPattern::Until(Until { p, q }),
            Kind::UntilStable => AnyPattern::UntilStable(UntilStable { p, q }),
            Kind::LeadsTo => AnyPattern::LeadsTo(LeadsTo { p, q }),
            Kind::ConditionalStable => AnyPattern::ConditionalStable(ConditionalStable { p, q }),
        }
    }

    pub fn kind(self) -> Kind
        ensures { result ≡ kind_chosen self }
    {
        match self {
            AnyPattern::Always(_) => Kind::Always,
            AnyPattern::Eventual(_) => Kind::Eventual,
            AnyPattern::Until(_) => Kind::Until,
            AnyPattern::UntilStable(_) => Kind::UntilStable,
            AnyPattern::LeadsTo(_) => Kind::LeadsTo,
            AnyPattern::ConditionalStable(_) => Kind::ConditionalStable,
        }
    }
}

impl Pattern for AnyPattern {
    const COUNT: u8 = 2;

    ghost count = { 2 };

    ghost keeps = { AnyKeeps };

    ghost step = { any_step };

    ghost tint = { any_tint };

    ghost few = { Prim.search rules };

    ghost lawful = { elim [
      | Always x ↦ relax (omega arith) (always_law (test x.q))
      | Eventual x ↦ relax (omega arith) (eventual_law (test x.q))
      | Until x ↦ relax (omega arith) (until_law (test x.p) (test x.q))
      | UntilStable x ↦ until_stable_law (test x.p) (test x.q)
      | LeadsTo x ↦ leads_to_law (test x.p) (test x.q)
      | ConditionalStable x ↦ conditional_stable_law (test x.p) (test x.q)
    ] };

    fn marks() -> u8 {
        Self::COUNT
    }

    // Two matches: a trait with a constant makes no `dyn`, so that nothing stands for the six but this enum. Inlined, since a
    // search asks at each arrow, and its loops then know the pattern.
    #[inline(always)]
    fn step(&self, mark: u8, word: Word) -> Told {
        match self {
            AnyPattern::Always(x) => x.step(mark, word),
            AnyPattern::Eventual(x) => x.step(mark, word),
            AnyPattern::Until(x) => x.step(mark, word),
            AnyPattern::UntilStable(x) => x.step(mark, word),
            AnyPattern::LeadsTo(x) => x.step(mark, word),
            AnyPattern::ConditionalStable(x) => x.step(mark, word),
        }
    }

    #[inline(always)]
    fn tint(&self, mark: u8, word: Word) -> Tint {
        match self {
            AnyPattern::Always(x) => x.tint(mark, word),
            AnyPattern::Eventual(x) => x.tint(mark, word),
            AnyPattern::Until(x) => x.tint(mark, word),
            AnyPattern::UntilStable(x) => x.tint(mark, word),
            AnyPattern::LeadsTo(x) => x.tint(mark, word),
            AnyPattern::ConditionalStable(x) => x.tint(mark, word),
        }
    }
}
