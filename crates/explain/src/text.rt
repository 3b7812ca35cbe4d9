// A record as a text for people.
ghost use Rattle.std.specs.Prelude.{◌≡◌, ◌<◌, ◌++◌, IfOk, OnOk, string_bytes};
ghost use Rattle.records.specs.Round.{of_record};
ghost use Rattle.explain.specs.Text.{has_bit, bit_line, bit_lines, note, proposition_lines, p_lines, spaced, states_line, lasso_lines, numbered_line, kind_line, verdict_line, depth_line, explanation};

use crate::words::{kind_words, verdict_words};
use graph::{State, WORD_BITS, Word};
use patterns::kind::Kind;
use patterns::proposition::Proposition;
use records::verdict::Verdict;
use records::{Heading, Record};
use std::alloc::{AllocError, Global};

const PREFACE: &str =
    "This record tells how a control graph was inspected for one pattern.\nA path starts in an initial state and follows arrows for ever. The pattern is asked of the places of every path.\nThe state at each place shows a word of 16 bits, bit 0 the lowest.\n";

// Rust has no test of one bit.
fn has_bit(word: Word, bit: u8) -> bool
    requires { bit < 16 }
    ensures { result ≡ has_bit word bit }
{
    (word >> bit) % 2 == 1
}

// Adds a line where the mask has the bit.
fn bit_line(text: &mut String, mask: Word, bit: u8, value: u8) -> Result<(), AllocError>
    requires { bit < 16 }
    ensures { OnOk result (string_bytes text.new ≡ string_bytes text.old ++ bit_line mask bit value) }
{
    if has_bit(mask, bit) {
        writeln!(text, "  bit {bit} is {value}")?;
    }
    Ok(())
}

fn bit_lines(alloc: Global, p: Proposition) -> Result<String, AllocError>
    ensures { IfOk result (λ s. string_bytes s ≡ bit_lines p 16) }
{
    let mut text = String::new(alloc);
    for bit in 0..WORD_BITS {
        bit_line(&mut text, p.on, bit, 1)?;
        bit_line(&mut text, p.off, bit, 0)?;
    }
    Ok(text)
}

fn note(p: Proposition) -> &'static str
    ensures { result.now ≡ note p }
{
    if p == Proposition::default() {
        "  no bit is asked for: it holds everywhere\n"
    } else if p.on & p.off == 0 {
        ""
    } else {
        "  a bit is asked to be both 1 and 0: it holds nowhere\n"
    }
}

fn proposition_lines(alloc: Global, name: &str, p: Proposition) -> Result<String, AllocError>
    ensures { IfOk result (λ s. string_bytes s ≡ proposition_lines name.now p) }
{
    let bits = bit_lines(alloc, p)?;
    let note = note(p);
    format!(in alloc; "{name} holds in a state in whose word\n{bits}{note}")
}

fn p_lines(alloc: Global, h: Heading) -> Result<String, AllocError>
    ensures { IfOk result (λ s. string_bytes s ≡ p_lines h) }
{
    if h.kind.has_first() {
        proposition_lines(alloc, "P", h.p)
    } else {
        Ok(String::new(alloc))
    }
}

fn spaced(alloc: Global, states: &[State]) -> Result<String, AllocError>
    ensures { IfOk result (λ s. string_bytes s ≡ spaced states.now) }
{
    let mut text = String::new(alloc);
    for state in states {
        write!(text, " {state}")?;
    }
    Ok(text)
}

fn states_line(alloc: Global, name: &str, states: &[State]) -> Result<String, AllocError>
    ensures { IfOk result (λ s. string_bytes s ≡ states_line name.now states.now) }
{
    let count = states.len();
    let numbers = spaced(alloc, states)?;
    format!(in alloc; "{name}, length {count}:{numbers}\n")
}

fn lasso_lines(alloc: Global, filing: Record<'_>) -> Result<String, AllocError>
    ensures { IfOk result (λ s. string_bytes s ≡ lasso_lines (of_record filing.entry)) }
{
    if filing.heading.verdict.is_broken() {
        let stem = states_line(alloc, "Stem", filing.stem)?;
        let cycle = states_line(alloc, "Loop", filing.cycle)?;
        format!(in alloc; "{stem}{cycle}")
    } else {
        Ok(String::new(alloc))
    }
}

fn numbered_line(alloc: Global, name: &str, number: u8, words: &str) -> Result<String, AllocError>
    ensures { IfOk result (λ s. string_bytes s ≡ numbered_line name.now number words.now) }
{
    format!(in alloc; "{name} {number}, {words}.\n")
}

fn kind_line(alloc: Global, kind: Kind) -> Result<String, AllocError>
    ensures { IfOk result (λ s. string_bytes s ≡ kind_line kind) }
{
    numbered_line(alloc, "Pattern", kind.into(), kind_words(kind))
}

fn verdict_line(alloc: Global, verdict: Verdict) -> Result<String, AllocError>
    ensures { IfOk result (λ s. string_bytes s ≡ verdict_line verdict) }
{
    numbered_line(alloc, "Verdict", verdict.into(), verdict_words(verdict))
}

fn depth_line(alloc: Global, depth: u16) -> Result<String, AllocError>
    ensures { IfOk result (λ s. string_bytes s ≡ depth_line depth) }
{
    format!(in alloc;
        "Depth {depth}: so many arrows the inspection followed from the initial states, step by step.\n"
    )
}

// All that a record says, for a person who knows none of its codes.
pub fn explain(alloc: Global, filing: Record<'_>) -> Result<String, AllocError>
    ensures { IfOk result (λ s. string_bytes s ≡ explanation (of_record filing.entry)) }
{
    let h = filing.heading;
    let kind = kind_line(alloc, h.kind)?;
    let p = p_lines(alloc, h)?;
    let q = proposition_lines(alloc, "Q", h.q)?;
    let verdict = verdict_line(alloc, h.verdict)?;
    let depth = depth_line(alloc, h.depth)?;
    let lasso = lasso_lines(alloc, filing)?;
    format!(in alloc; "{PREFACE}{kind}{p}{q}{verdict}{depth}{lasso}")
}
