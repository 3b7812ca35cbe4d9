// Why bytes are not read, or a record is not written.
ghost use Rattle.std.specs.Prelude.{◌≡◌, true, Some, OnOk};
ghost use Rattle.std.specs.Result.{result_err};
ghost use Rattle.graph.specs.Tests.{error_unless};
ghost use Rattle.records.specs.declared.refusal.Refusal.TheVariants.{Value};
ghost use Rattle.records.specs.Numbers.{refusal_number, refusal_words, refusal_text};

use crate::verdict::UnknownVerdict;
use graph::fields::error_unless;
use patterns::kind::UnknownKind;
use std::error::Error;
use std::fmt;

// The discriminant is the number by which the refusal is filed.
#[derive(Clone, Copy, PartialEq, Eq, Debug)]
pub enum Refusal {
    ListShort = 28,
    Ends = 31,
    Map = 32,
    Value = 33,
    LeftOver = 34,
    OutputShort = 35,
}

impl Refusal {
    // The refusal as a person reads it.
    pub fn words(self) -> &'static str
        ensures { result.now ≡ refusal_words self }
    {
        match self {
            Refusal::ListShort => "a list is too short",
            Refusal::Ends => "the record ends inside a field",
            Refusal::Map => "a map bit that must not be set, or one that must be and is not",
            Refusal::Value => "a value outside its range, or in a field that does not stand",
            Refusal::LeftOver => "bytes left over",
            Refusal::OutputShort => "the output is too short",
        }
    }

    // Refuses unless the test holds.
    pub fn unless(self, ok: bool) -> Result<(), Refusal>
        ensures refused { result_err result ≡ error_unless ok self }
        ensures passed { OnOk result (ok ≡ true) }
    {
        error_unless(ok, self)
    }
}

impl From<Refusal> for u8 {
    ghost from_gives = { λ refusal n. n ≡ refusal_number refusal };

    fn from(refusal: Refusal) -> u8 {
        refusal as u8
    }
}

// No pattern has the number: a value outside its range. By hand, as the next: clauses name the refusal, and a derived `From`
// has no contract.
impl From<UnknownKind> for Refusal {
    ghost from_gives = { λ _ refusal. refusal ≡ Value };

    fn from(_number: UnknownKind) -> Refusal {
        Refusal::Value
    }
}

// No verdict has it.
impl From<UnknownVerdict> for Refusal {
    ghost from_gives = { λ _ refusal. refusal ≡ Value };

    fn from(_number: UnknownVerdict) -> Refusal {
        Refusal::Value
    }
}

// By hand: a derived `Display` states no output.
impl fmt::Display for Refusal {
    ghost output = { λ x. Some (refusal_text x) };

    fn fmt<W: fmt::Write>(&self, f: &mut fmt::Formatter<W>) -> fmt::Result {
        let number = u8::from(*self);
        let words = self.words();
        write!(f, "{number}: {words}")
    }
}

impl Error for Refusal {}
