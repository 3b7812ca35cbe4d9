// Patterns and verdicts in words.
ghost use Rattle.std.specs.Prelude.{◌≡◌, if◌then◌else◌, codes};
ghost use Rattle.explain.specs.Words.{kind_words, verdict_words};

use patterns::kind::Kind;
use records::verdict::Verdict;

pub(crate) fn kind_words(kind: Kind) -> &'static str
    ensures { result.now ≡ kind_words kind }
{
    match kind {
        Kind::Always => "always: Q holds at every place",
        Kind::Eventual => "eventual: Q holds at some place",
        Kind::Until => "until: Q holds at some place, and P at each place before it",
        Kind::UntilStable =>
            "until stable: from some place on Q holds, and P holds at each place before it",
        Kind::LeadsTo => "leads to: each place with P has Q there or later",
        Kind::ConditionalStable =>
            "conditional stable: each place with P has a place, there or later, from which on Q holds",
    }
}

pub(crate) fn verdict_words(verdict: Verdict) -> &'static str
    ensures { result.now ≡ verdict_words verdict }
{
    match verdict {
        Verdict::Open => "open: not decided yet",
        Verdict::Kept => "kept: no path of the graph breaks the pattern",
        Verdict::Broken =>
            "broken: the path that goes through the stem and then round the loop for ever breaks the pattern",
    }
}

// A bool, since it is one answer to one question and picks a text, no step.
pub(crate) fn sameness(same: bool) -> &'static str
    ensures { result.now ≡ (if same then codes "the same" else codes "not the same") }
{
    if same { "the same" } else { "not the same" }
}
