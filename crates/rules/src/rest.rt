// What is left of the bytes of a rule list, as its rules are taken off the front.
ghost use Rattle.std.specs.Prelude.{◌≡◌, ◌<◌, ◌≤◌, true, length, IfOk, MatchOption};
ghost use Rattle.std.specs.Result.{result_err};
ghost use Rattle.meanings.specs.RuleList.{masks_size, rule_ok, all_ok, rule_fault, rules_fault, rest_fault};
ghost use Rattle.rules.specs.Rests.{has_bit, mask_size, MaskRead, MasksRead};

use crate::rule_array::{MOST, RuleArray};
use graph::fault::{Cause, Fault};
use meanings::Rule;
use meanings::fields::test;

// The mask at the front, 0 if the map does not have its bit, and what comes behind it. The one place where a rule's map is
// taken apart. No set of flags: each bit is asked once, and says whether a field comes next.
fn read_mask(map: u8, bit: u8, bytes: &[u8]) -> Option<(u16, &[u8])>
    ensures { MatchOption result (length bytes.now < mask_size (has_bit map bit))
        (λ p. MaskRead (has_bit map bit) bytes.now p.0 p.1.now) }
{
    if map & bit != bit {
        return Some((0, bytes));
    }
    match bytes {
        [high, low, rest @ ..] => Some((u16::from_be_bytes([*high, *low]), rest)),
        _ => None,
    }
}

fn read_masks(map: u8, bytes: &[u8]) -> Option<(Rule, &[u8])>
    ensures { MatchOption result (length bytes.now < masks_size map) (λ p. MasksRead map bytes.now p.0 p.1.now) }
{
    let (on, rest) = read_mask(map, 1, bytes)?;
    let (off, rest) = read_mask(map, 2, rest)?;
    let (set, rest) = read_mask(map, 4, rest)?;
    let (clear, rest) = read_mask(map, 8, rest)?;
    let rule = Rule {
        on,
        off,
        set,
        clear,
    };
    Some((rule, rest))
}

// What is left of `len` bytes; the states of the list have `bits` bits.
#[derive(Drop)]
pub(super) struct Rest<'a> {
    pub(super) bits: u8,
    // Not that of `left`: a fault's place counts from the front of all bytes.
    pub(super) len: usize,
    pub(super) left: &'a [u8],
    ghost low: { bits ≤ 10 },
    ghost within: { length left.now ≤ len },
}

impl<'a> Rest<'a> {
    ghost use Rattle.rules.specs.RuleArray.{used};
    ghost use Rattle.rules.specs.Rests.{RuleRead, RulesRead};

    // Every mask lies below bit `bits`, and no bit is both set and cleared.
    fn fits(&self, rule: &Rule) -> bool
        ensures { result ≡ rule_ok self.now.bits rule.now }
    {
        let end = 1u16 << self.bits;
        rule.on < end
            && rule.off < end
            && rule.set < end
            && rule.clear < end
            && rule.set & rule.clear == 0
    }

    fn rule(&mut self) -> Result<Rule, Fault>
        ensures fault { result_err result ≡ rule_fault self.old.bits self.old.len self.old.left.now }
        ensures read { IfOk result (λ rule. RuleRead self.old.left.now rule self.new.left.now) }
        ensures fits { IfOk result (λ rule. rule_ok self.old.bits rule ≡ true) }
        ensures same { (self.new.bits ≡ self.old.bits) × (self.new.len ≡ self.old.len) }
    {
        let short = Fault::new(Cause::Short, self.len);
        let [map, masks @ ..] = self.left else {
            return Err(short);
        };
        let at = self.len - self.left.len();
        test(*map < 16, Cause::MapBit, at)?;
        let (rule, left) = read_masks(*map, masks).ok_or(short)?;
        test(self.fits(&rule), Cause::Mask, at)?;
        self.left = left;
        Ok(rule)
    }

    // The next `count` rules.
    pub(super) fn rules(&mut self, count: usize) -> Result<RuleArray, Fault>
        requires { count ≤ MOST }
        ensures fault { result_err result ≡ rules_fault self.old.bits self.old.len self.old.left.now count }
        ensures read { IfOk result (λ rules. RulesRead self.old.left.now count (used rules) self.new.left.now) }
        ensures fit { IfOk result (λ rules. all_ok self.old.bits (used rules) ≡ true) }
        ensures same { self.new.len ≡ self.old.len }
    {
        let mut rules = RuleArray::new();
        // The proof counts by `_i`.
        for _i in 0..count {
            rules.push(self.rule()?);
        }
        Ok(rules)
    }

    // Nothing is left over.
    pub(super) fn end(&self) -> Result<(), Fault>
        ensures { result_err result ≡ rest_fault self.now.len self.now.left.now }
    {
        let left = self.left.len();
        test(left == 0, Cause::LeftOver, self.len - left)
    }
}
