// A watch over a lasso of words, which tells whether the lasso breaks the path rule.
#![tactic(auto)]

ghost use Rattle.std.specs.Prelude.{◌≡◌, ◌<◌, ◌↔◌, IsTrue, length, Some, codes};
ghost use Rattle.graph.specs.Lassos.{lasso};
ghost use Rattle.patterns.specs.Chosen.{AnyKeeps};
ghost use Rattle.patterns.specs.Watch.{Breaks, onward};
ghost use Rattle.judging.specs.Walks.{tint_at, fresh, met, along, turned, round, rejected};
ghost use Rattle.judging.specs.Judged.{Judged, KeepsJudged};

use graph::Word;
use patterns::any::AnyPattern;
use patterns::watch::{Pattern, Tint, Told};
use std::error::Error;
use std::fmt;

// The refusal of a lasso whose loop has no word.
#[derive(Clone, Copy, PartialEq, Eq, Debug)]
pub struct EmptyLoop;

// By hand: a derived `Display` states no output.
impl fmt::Display for EmptyLoop {
    ghost output = { λ _. Some (codes "the loop has no word") };

    fn fmt<W: fmt::Write>(&self, f: &mut fmt::Formatter<W>) -> fmt::Result {
        f.write_str("the loop has no word")
    }
}

impl Error for EmptyLoop {}

// What the watch says to the next word: it has stopped at kept or broken, or goes on from its mark. Here and below the
// pattern and the word are asked for apart, as callers have them.
pub fn onward<P: Pattern>(pattern: &P, told: Told, word: Word) -> Told
    ensures { result ≡ onward (P.Pattern.step pattern.now) told word }
{
    match told {
        Told::Kept => Told::Kept,
        Told::Broken => Told::Broken,
        Told::Mark(mark) => pattern.step(mark, word),
    }
}

// The tint of a place by what the watch says there. A watch that has stopped is calm.
pub fn tint_at<P: Pattern>(pattern: &P, told: Told, word: Word) -> Tint
    ensures { result ≡ tint_at (P.Pattern.tint pattern.now) told word }
{
    match told {
        Told::Kept | Told::Broken => Tint::Calm,
        Told::Mark(mark) => pattern.tint(mark, word),
    }
}

// What a watch has met on its way: what it said last, and whether a place was sore and one relief. A walk is copied at each
// step, so that the pattern is no part of it and is lent to each.
#[derive(Clone, Copy)]
struct Walk {
    told: Told,
    sore: bool,
    relief: bool,
}

impl Walk {
    // Nothing met yet.
    fn fresh(told: Told) -> Walk
        ensures { result ≡ fresh told }
    {
        Walk {
            told,
            sore: false,
            relief: false,
        }
    }

    fn meet<P: Pattern>(self, pattern: &P, word: Word) -> Walk
        ensures { result ≡ met (P.Pattern.step pattern.now) (P.Pattern.tint pattern.now) self word }
    {
        let told = onward(pattern, self.told, word);
        match tint_at(pattern, told, word) {
            Tint::Calm => Walk { told, ..self },
            Tint::Sore => Walk {
                told,
                sore: true,
                ..self
            },
            Tint::Relief => Walk {
                told,
                relief: true,
                ..self
            },
        }
    }

    fn along<P: Pattern>(self, pattern: &P, words: &[Word]) -> Walk
        ensures { result ≡ along (P.Pattern.step pattern.now) (P.Pattern.tint pattern.now) self words.now }
    {
        let mut walk = self;
        for word in words {
            walk = walk.meet(pattern, *word);
        }
        walk
    }

    fn turned<P: Pattern>(self, pattern: &P, cycle: &[Word], turns: u8) -> Walk
        ensures { result ≡ turned (P.Pattern.step pattern.now) (P.Pattern.tint pattern.now) self cycle.now turns }
    {
        let mut walk = self;
        for _ in 0..turns {
            walk = walk.along(pattern, cycle);
        }
        walk
    }

    // There are at most four marks: after four turns of the loop the marks at its start go round in one to four turns,
    // so that twelve turns more are whole rounds and show all that ever comes.
    fn round<P: Pattern>(pattern: &P, stem: &[Word], cycle: &[Word]) -> Walk
        ensures { result ≡ round (P.Pattern.step pattern.now) (P.Pattern.tint pattern.now) stem.now cycle.now }
    {
        let settled = Walk::fresh(Told::Mark(0))
            .along(pattern, stem)
            .turned(pattern, cycle, 4);
        Walk::fresh(settled.told).turned(pattern, cycle, 12)
    }

    // Whether the watch rejects what it walked, if it were to meet the last stretch again and again.
    fn is_rejected(self) -> bool
        ensures { result ≡ rejected self }
    {
        match self.told {
            Told::Kept => false,
            Told::Broken => true,
            Told::Mark(_) => self.sore && !self.relief,
        }
    }
}

fn is_broken<P: Pattern>(pattern: &P, stem: &[Word], cycle: &[Word]) -> bool
    ensures { 0 < length cycle.now → IsTrue result ↔ Breaks (P.Pattern.keeps pattern.now) (lasso stem.now cycle.now) }
{
    Walk::round(pattern, stem, cycle).is_rejected()
}

// Whether the lasso breaks the path rule. Callers have a lasso as two lists, its stem and its loop.
pub fn judge<P: Pattern>(pattern: &P, stem: &[Word], cycle: &[Word]) -> Result<bool, EmptyLoop>
    ensures { Judged (P.Pattern.keeps pattern.now) stem.now cycle.now result }
{
    if cycle.is_empty() {
        return Err(EmptyLoop);
    }
    Ok(is_broken(pattern, stem, cycle))
}

// Whether the lasso keeps the path rule. For the six patterns each lasso keeps it or breaks it.
pub fn keeps(pattern: &AnyPattern, stem: &[Word], cycle: &[Word]) -> Result<bool, EmptyLoop>
    ensures { KeepsJudged (AnyKeeps pattern.now) stem.now cycle.now result }
{
    Ok(!judge(pattern, stem, cycle)?)
}
