// What an inspection found out.
ghost use Rattle.std.specs.Prelude.{◌≡◌};
ghost use Rattle.std.specs.Result.{result_ok};
ghost use Rattle.records.specs.Numbers.{verdict_number, verdict_of, is_broken};

use thiserror::Error;

// The discriminant is the number by which the verdict is filed.
#[derive(Clone, Copy, PartialEq, Eq, Debug)]
pub enum Verdict {
    Open = 0,
    Kept = 1,
    Broken = 2,
}

// A number that no verdict has.
#[derive(Clone, Copy, PartialEq, Eq, Debug, Error)]
#[error("no verdict has this number")]
pub struct UnknownVerdict;

impl Verdict {
    pub fn is_broken(self) -> bool
        ensures { result ≡ is_broken self }
    {
        matches!(self, Verdict::Broken)
    }
}

impl From<Verdict> for u8 {
    ghost from_gives = { λ verdict n. n ≡ verdict_number verdict };

    fn from(verdict: Verdict) -> u8 {
        verdict as u8
    }
}

impl TryFrom<u8> for Verdict {
    type Error = UnknownVerdict;

    ghost try_from_gives = { λ n r. result_ok r ≡ verdict_of n };

    // Spelled out, as `Kind` is.
    fn try_from(n: u8) -> Result<Verdict, UnknownVerdict> {
        match n {
            0 => Ok(Verdict::Open),
            1 => Ok(Verdict::Kept),
            2 => Ok(Verdict::Broken),
            _ => Err(UnknownVerdict),
        }
    }
}
