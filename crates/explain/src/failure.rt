// Why a record is not told.
ghost use Rattle.std.specs.Prelude.{◌≡◌, Some};
ghost use Rattle.records.specs.Numbers.{refusal_text};
ghost use Rattle.explain.specs.declared.failure.Failure.TheVariants.{Refused, Memory};

use records::refusal::Refusal;
use std::alloc::AllocError;
use thiserror::Error;

#[derive(Clone, Copy, PartialEq, Eq, Debug, Error)]
pub enum Failure {
    #[error(transparent)]
    Refused(Refusal),
    #[error(transparent)]
    Memory(AllocError),
}

// By hand, as the next: clauses name these errors, and a derived `From` has no contract.
impl From<Refusal> for Failure {
    ghost from_gives = { λ refusal failure. failure ≡ Refused refusal };

    fn from(refusal: Refusal) -> Failure {
        Failure::Refused(refusal)
    }
}

impl From<AllocError> for Failure {
    ghost from_gives = { λ error failure. failure ≡ Memory error };

    fn from(error: AllocError) -> Failure {
        Failure::Memory(error)
    }
}
