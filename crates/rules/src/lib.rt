// A rule list: a graph whose states are numbers, told by the rules that lead from one to the next.
#![tactic(auto)]

ghost use Rattle.std.specs.Prelude.{◌≡◌, ◌^◌, ◌<◌, ◌≤◌, true, length, Some, IfOk, MatchResult};
ghost use Rattle.std.specs.Option.{option_copied};
ghost use Rattle.std.specs.Result.{result_ok, result_err};
ghost use Rattle.meanings.specs.Fields.{reach};
ghost use Rattle.meanings.specs.RuleList.{header_fault, list_fault, rule_list};
ghost use Rattle.rules.specs.declared.rule_array.TheConstants.{MOST};
ghost use Rattle.rules.specs.RuleArray.{used};
ghost use Rattle.rules.specs.Told.{told, told_sound, holding};
ghost use Rattle.rules.specs.Rests.{after_header, StartRead, HeaderRead, ListRead};

use crate::leads::Rules;
use crate::rest::Rest;
use crate::rule_array::MOST;
use graph::fault::{Cause, Fault};
use graph::fields::pair_at;
use graph::source::Source;
use graph::{State, Word};
use meanings::fields::{reach_to, test};

mod leads;
mod rest;
mod rule_array;

#[derive(Clone, Copy)]
struct Header<'a> {
    bits: u8,
    count: usize,
    start: State,
    body: &'a [u8],
    ghost some: { 1 ≤ bits },
    ghost low: { bits ≤ 10 },
    ghost few: { count ≤ MOST },
    ghost inside: { start < 2 ^ bits },
}

// The initial value, 0 if the map leaves it out, and the bytes behind the header. The one place where the
// map is taken apart, for its only bit.
fn read_start(map: u8, bytes: &[u8]) -> Result<(State, &[u8]), Fault>
    requires { 3 ≤ length bytes.now }
    ensures fault { result_err result ≡ reach bytes.now (after_header map) }
    ensures read { IfOk result (λ p. StartRead map bytes.now p.0 p.1.now) }
{
    if map & 1 != 1 {
        return Ok((0, &bytes[3..]));
    }
    reach_to(bytes, 5)?;
    Ok((pair_at(bytes, 3), &bytes[5..]))
}

fn read_header(bytes: &[u8]) -> Result<Header<'_>, Fault>
    ensures { MatchResult result (λ h. HeaderRead bytes.now h.bits h.count h.start h.body.now) (λ f. header_fault bytes.now ≡ Some f) }
{
    reach_to(bytes, 1)?;
    let map = bytes[0];
    test(map < 2, Cause::MapBit, 0)?;
    reach_to(bytes, 2)?;
    let bits = bytes[1];
    test((1..=10).contains(&bits), Cause::Range, 1)?;
    reach_to(bytes, 3)?;
    let count = usize::from(bytes[2]);
    test(count <= MOST, Cause::Range, 2)?;
    let (start, body) = read_start(map, bytes)?;
    test(start < 1u16 << bits, Cause::Range, 3)?;
    Ok(Header {
        bits,
        count,
        start,
        body,
    })
}

// The rules, once the whole layout has been tested.
fn read_list(bytes: &[u8]) -> Result<Rules, Fault>
    ensures { MatchResult result (λ x. ListRead bytes.now x.bits x.start (used x.rules)) (λ f. list_fault bytes.now ≡ Some f) }
{
    let header = read_header(bytes)?;
    let mut rest = Rest {
        bits: header.bits,
        len: bytes.len(),
        left: header.body,
    };
    let rules = rest.rules(header.count)?;
    rest.end()?;
    Ok(Rules {
        bits: header.bits,
        start: header.start,
        rules,
    })
}

// The rules as they were read, or the fault.
#[derive(Clone, Copy)]
pub struct RuleList {
    read: Result<Rules, Fault>,
}

impl RuleList {
    // The source of these bytes, whatever they are: a list with a fault is a source too.
    pub fn new(bytes: &[u8]) -> RuleList
        ensures { told result.read ≡ rule_list bytes.now }
    {
        RuleList {
            read: read_list(bytes),
        }
    }

    // The rules, if the list has no fault.
    fn rules(&self) -> Option<&Rules>
        ensures { option_copied result ≡ result_ok self.now.read }
    {
        self.read.as_ref().ok()
    }

    // The rules, if `s` is a state of theirs.
    fn holding(&self, s: State) -> Option<&Rules>
        ensures { option_copied result ≡ holding s self.now.read }
    {
        let rules = self.rules()?;
        (s < rules.states()).then_some(rules)
    }
}

impl Source for RuleList {
    ghost meaning = { λ t. told t.read };

    fn check(&self) -> Result<(), Fault> {
        match &self.read {
            Ok(_) => Ok(()),
            Err(fault) => Err(*fault),
        }
    }

    fn states(&self) -> u16 {
        self.rules().map_or(0, |rules| rules.states())
    }

    fn width(&self) -> u16 {
        self.rules().map_or(0, |rules| rules.count().max(1))
    }

    fn initial(&self, s: State) -> bool {
        self.rules().is_some_and(|rules| s == rules.start)
    }

    // A state's word is its number.
    fn word(&self, s: State) -> Word {
        self.holding(s).map_or(0, |_| s)
    }

    fn degree(&self, s: State) -> u16 {
        self.holding(s).map_or(0, |rules| rules.degree(s))
    }

    fn arrow(&self, s: State, j: u16) -> Option<State> {
        self.holding(s)?.arrow(s, j)
    }

    ghost sound = { λ t. told_sound t.read };
}
