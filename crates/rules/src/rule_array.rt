// Rules in fixed memory: a list of rules never allocates, and is `Copy`, which an `ArrayVec` is not.
ghost use Rattle.std.specs.Prelude.{◌≡◌, ◌<◌, ◌≤◌, [], ◌∷◌, ◌++◌, length};
ghost use Rattle.rules.specs.declared.rule_array.TheConstants.{MOST};

use meanings::Rule;

// The most rules that a list has.
pub(super) const MOST: usize = 64;

#[derive(Clone, Copy)]
pub(super) struct RuleArray {
    count: usize,
    rules: [Rule; MOST],
    ghost few: { count ≤ MOST },
}

impl RuleArray {
    ghost use Rattle.rules.specs.RuleArray.{used};

    pub(super) fn new() -> RuleArray
        ensures { used result ≡ [] }
    {
        RuleArray {
            count: 0,
            rules: [Rule::default(); MOST],
        }
    }

    pub(super) fn push(&mut self, rule: Rule)
        requires { length (used self.old) < MOST }
        ensures { used self.new ≡ used self.old ++ rule ∷ [] }
    {
        self.rules[self.count] = rule;
        self.count += 1;
    }

    pub(super) fn as_slice(&self) -> &[Rule]
        ensures used { result.now ≡ used self.now }
        ensures few { length result.now ≤ MOST }
    {
        &self.rules[..self.count]
    }
}
