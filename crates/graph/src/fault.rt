// What is wrong with a source.
ghost use Rattle.std.specs.Prelude.{◌≡◌, Some};
ghost use Rattle.graph.specs.Faults.{cause_number, cause_words, fault_at, fault_text, raised};

use std::fmt;

// The rule that a source breaks.
#[derive(Clone, Copy, PartialEq, Eq, Debug)]
pub enum Cause {
    Short = 1,
    MapBit = 2,
    Range = 3,
    RowEnd = 4,
    Target = 5,
    LeftOver = 6,
    Mask = 7,
}

impl Cause {
    // The cause as a person reads it.
    pub fn words(self) -> &'static str
        ensures { result.now ≡ cause_words self }
    {
        match self {
            Cause::Short => "the bytes end inside a field",
            Cause::MapBit => "a map bit without a field",
            Cause::Range => "a value outside its range",
            Cause::RowEnd => "a row end out of order",
            Cause::Target => "a target that is not a state",
            Cause::LeftOver => "bytes left over",
            Cause::Mask => "a rule's mask out of range, or a bit both set and cleared",
        }
    }
}

// The number by which the cause is filed.
impl From<Cause> for u8 {
    ghost from_gives = { λ cause n. n ≡ cause_number cause };

    fn from(cause: Cause) -> u8 {
        cause as u8
    }
}

// By hand, as the next: a derived `Display` states no output.
impl fmt::Display for Cause {
    ghost output = { λ c. Some (cause_words c) };

    fn fmt<W: fmt::Write>(&self, f: &mut fmt::Formatter<W>) -> fmt::Result {
        f.write_str(self.words())
    }
}

// The rule that is broken, the offset of the first byte of the value at fault, and how many layers the
// fault has passed on its way up.
#[derive(Clone, Copy, PartialEq, Eq, Debug)]
pub struct Fault {
    pub cause: Cause,
    pub place: usize,
    pub height: u8,
}

impl Fault {
    // The fault where it arises has passed no layer.
    pub fn new(cause: Cause, place: usize) -> Fault
        ensures { result ≡ fault_at cause place }
    {
        Fault {
            cause,
            place,
            height: 0,
        }
    }

    // The fault as the layer above passes it on: one higher, and never above 255.
    pub fn raise(self) -> Fault
        ensures { result ≡ raised self }
    {
        Fault {
            height: self.height.saturating_add(1),
            ..self
        }
    }
}

impl fmt::Display for Fault {
    ghost output = { λ f. Some (fault_text f) };

    fn fmt<W: fmt::Write>(&self, f: &mut fmt::Formatter<W>) -> fmt::Result {
        let number = u8::from(self.cause);
        let place = self.place;
        let height = self.height;
        write!(f, "{number} at {place} height {height}")
    }
}
