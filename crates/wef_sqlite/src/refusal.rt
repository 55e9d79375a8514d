//! Why the database refuses what it is asked.

ghost use Rattle.std.specs.Prelude.{◌≡◌};
ghost use Rattle.wef_sqlite.specs.Refusals.{refusal_of};
ghost use Rattle.wef_sqlite.specs.declared.refusal.Refusal.TheVariants.{NoMemory};

use sqlite::{Error, ErrorCode};
use std::alloc::AllocError;

/// Why the database refuses a call.
#[derive(Clone, Copy, Debug, PartialEq, Eq)]
pub enum Refusal {
    /// Memory was wanting.
    NoMemory,

    /// The database failed, isn't there, or holds what is none of ours.
    Failed,
}

impl From<AllocError> for Refusal {
    ghost from_gives = { λ _ refusal. refusal ≡ NoMemory };

    fn from(_error: AllocError) -> Refusal {
        Refusal::NoMemory
    }
}

impl From<Error> for Refusal {
    ghost from_gives = { λ error refusal. refusal ≡ refusal_of error };

    fn from(error: Error) -> Refusal {
        match error {
            Error::SqliteFailure(ErrorCode::OutOfMemory) => Refusal::NoMemory,
            _ => Refusal::Failed,
        }
    }
}
