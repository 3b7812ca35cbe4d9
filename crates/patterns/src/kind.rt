// The six patterns by their numbers and their names.
ghost use Rattle.std.specs.Prelude.{◌≡◌, Some};
ghost use Rattle.std.specs.Result.{result_ok};
ghost use Rattle.patterns.specs.Kinds.{kind_number, kind_of, kind_name, has_first, NamesKind};

use std::fmt;
use std::str::FromStr;
use thiserror::Error;

// The discriminant is the number by which the pattern is filed.
#[derive(Clone, Copy, PartialEq, Eq, Debug)]
pub enum Kind {
    Always = 1,
    Eventual = 2,
    Until = 3,
    UntilStable = 4,
    LeadsTo = 5,
    ConditionalStable = 6,
}

// A number or a name that no pattern has.
#[derive(Clone, Copy, PartialEq, Eq, Debug, Error)]
#[error("no pattern has that number or name")]
pub struct UnknownKind;

impl Kind {
    pub fn name(self) -> &'static str
        ensures { result.now ≡ kind_name self }
    {
        match self {
            Kind::Always => "always",
            Kind::Eventual => "eventual",
            Kind::Until => "until",
            Kind::UntilStable => "until-stable",
            Kind::LeadsTo => "leads-to",
            Kind::ConditionalStable => "conditional-stable",
        }
    }

    // Whether the pattern speaks of the first proposition, P, and not of Q alone.
    pub fn has_first(self) -> bool
        ensures { result ≡ has_first self }
    {
        !matches!(self, Kind::Always | Kind::Eventual)
    }
}

impl From<Kind> for u8 {
    ghost from_gives = { λ kind n. n ≡ kind_number kind };

    fn from(kind: Kind) -> u8 {
        kind as u8
    }
}

impl TryFrom<u8> for Kind {
    type Error = UnknownKind;

    ghost try_from_gives = { λ n r. result_ok r ≡ kind_of n };

    // Spelled out, as every enum with numbers does: a search through the cases is no plainer, and the gate refuses an `impl`
    // written by a macro of our own.
    fn try_from(n: u8) -> Result<Kind, UnknownKind> {
        match n {
            1 => Ok(Kind::Always),
            2 => Ok(Kind::Eventual),
            3 => Ok(Kind::Until),
            4 => Ok(Kind::UntilStable),
            5 => Ok(Kind::LeadsTo),
            6 => Ok(Kind::ConditionalStable),
            _ => Err(UnknownKind),
        }
    }
}

impl FromStr for Kind {
    type Err = UnknownKind;

    ghost from_str_gives = { NamesKind };

    // Spelled out, as the numbers are: a search through the six by `name` is no plainer.
    fn from_str(name: &str) -> Result<Kind, UnknownKind> {
        match name {
            "always" => Ok(Kind::Always),
            "eventual" => Ok(Kind::Eventual),
            "until" => Ok(Kind::Until),
            "until-stable" => Ok(Kind::UntilStable),
            "leads-to" => Ok(Kind::LeadsTo),
            "conditional-stable" => Ok(Kind::ConditionalStable),
            _ => Err(UnknownKind),
        }
    }
}

// By hand: a derived `Display` states no output.
impl fmt::Display for Kind {
    ghost output = { λ kind. Some (kind_name kind) };

    fn fmt<W: fmt::Write>(&self, f: &mut fmt::Formatter<W>) -> fmt::Result {
        f.write_str(self.name())
    }
}
