// The text that `watch` reads: a line each for the pattern, P where it has one, Q, the stem and the loop.
use graph::Word;
use patterns::any::AnyPattern;
use patterns::kind::Kind;
use patterns::proposition::Proposition;
use std::alloc::{AllocError, Global};
use std::str;
use std::str::SplitWhitespace;
use thiserror::Error;

#[derive(Drop)]
pub struct Input {
    pub pattern: AnyPattern,
    pub stem: Vec<Word>,
    pub cycle: Vec<Word>,
}

// What a line should have been.
#[derive(Clone, Copy, PartialEq, Eq, Debug, Error)]
pub enum Expected {
    #[error("pattern NAME, a name of the six")]
    Pattern,
    #[error("P on HHHH off HHHH")]
    First,
    #[error("Q on HHHH off HHHH")]
    Second,
    #[error("stem, then words HHHH")]
    Stem,
    #[error("loop, then at least one word HHHH")]
    Loop,
    #[error("nothing more")]
    End,
}

#[derive(Clone, Copy, PartialEq, Eq, Debug, Error)]
pub enum Refusal {
    #[error("line {0}: expected {1}")]
    Line(u8, Expected),
    #[error("out of memory")]
    Memory(#[from(alloc)] AllocError),
}

// The lines that are left, and how many were asked for: a line that is missing has its number too, and no words.
#[derive(Drop)]
struct Lines<'a> {
    rest: str::Lines<'a>,
    asked: u8,
}

impl<'a> Lines<'a> {
    fn new(text: &'a str) -> Lines<'a> {
        Lines {
            rest: text.lines(),
            asked: 0,
        }
    }

    fn next(&mut self) -> Option<&'a str> {
        self.asked = self.asked.saturating_add(1);
        self.rest.next()
    }

    // What the words of the next line say.
    fn expect<T: Drop, F: FnOnce(SplitWhitespace<'a>) -> Result<Option<T>, AllocError>>(
        &mut self,
        expected: Expected,
        parse: F,
    ) -> Result<T, Refusal>
        requires { F.IsAlwaysCallable parse }
    {
        let line = self.next().unwrap_or("");
        parse(line.split_whitespace())?.ok_or(Refusal::Line(self.asked, expected))
    }

    fn end(&mut self) -> Result<(), Refusal> {
        match self.next() {
            None => Ok(()),
            Some(_) => Err(Refusal::Line(self.asked, Expected::End)),
        }
    }
}

fn kind(mut words: SplitWhitespace) -> Option<Kind> {
    match (words.next(), words.next(), words.next()) {
        (Some("pattern"), Some(name), None) => name.parse().ok(),
        _ => None,
    }
}

// A word as four hexadecimal digits.
fn hex(text: &str) -> Option<Word> {
    // The library's reader takes a sign too.
    if text.len() != 4 || !text.bytes().all(|byte| byte.is_ascii_hexdigit()) {
        return None;
    }
    Word::from_str_radix(text, 16).ok()
}

fn proposition(name: &str, mut words: SplitWhitespace) -> Option<Proposition> {
    if words.next() != Some(name) {
        return None;
    }
    match (
        words.next(),
        words.next(),
        words.next(),
        words.next(),
        words.next(),
    ) {
        (Some("on"), Some(on), Some("off"), Some(off), None) => Some(Proposition {
            on: hex(on)?,
            off: hex(off)?,
        }),
        _ => None,
    }
}

fn list(
    alloc: Global,
    name: &str,
    mut words: SplitWhitespace,
) -> Result<Option<Vec<Word>>, AllocError> {
    if words.next() != Some(name) {
        return Ok(None);
    }
    words.map(hex).collect(alloc)
}

pub(crate) fn parse(alloc: Global, text: &str) -> Result<Input, Refusal> {
    let mut lines = Lines::new(text);
    let kind = lines.expect(Expected::Pattern, |words| Ok(kind(words)))?;
    let p = if kind.has_first() {
        lines.expect(Expected::First, |words| Ok(proposition("P", words)))?
    } else {
        Proposition::default()
    };
    let q = lines.expect(Expected::Second, |words| Ok(proposition("Q", words)))?;
    let stem = lines.expect(Expected::Stem, |words| list(alloc, "stem", words))?;
    let cycle = lines.expect(Expected::Loop, |words| {
        Ok(list(alloc, "loop", words)?.filter(|list| !list.is_empty()))
    })?;
    lines.end()?;
    Ok(Input {
        pattern: AnyPattern::new(kind, p, q),
        stem,
        cycle,
    })
}
