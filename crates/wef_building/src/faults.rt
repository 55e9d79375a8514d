//! Why a source refuses a call.

use std::alloc::AllocError;
use thiserror::Error;
use wef_source_log::LogFault;

/// Why a source refuses a call. What it remembers is as before after each refusal.
#[derive(Clone, Copy, Debug, PartialEq, Eq, Error)]
pub enum SourceFault {
    #[error("no memory")]
    NoMemory,
    /// The store failed, or a row in it isn't of its form. After a write or a start the rows may
    /// have its changes or not; the next call finds which.
    #[error("the store failed")]
    Failed,
    /// A channel has all numbers, or the source was started as often as it can be.
    #[error("no numbers are left")]
    Full,
    #[error("the event is too long")]
    TooLong,
    #[error("nobody asked for it")]
    NotAsked,
    #[error("no such subscription")]
    UnknownSubscription,
    #[error("the subscription has expired")]
    Expired,
    #[error("no message numbers are left")]
    Spent,
}

impl From<AllocError> for SourceFault {
    ghost use Rattle.std.specs.Prelude.{◌≡◌};
    ghost use Rattle.wef_building.specs.declared.faults.SourceFault.TheVariants.{NoMemory};

    ghost from_gives = { λ _ e. e ≡ NoMemory };

    fn from(_error: AllocError) -> SourceFault {
        SourceFault::NoMemory
    }
}

impl From<LogFault> for SourceFault {
    ghost use Rattle.std.specs.Prelude.{◌≡◌};
    ghost use Rattle.wef_building.specs.Faults.{source_fault};

    ghost from_gives = { λ fault e. e ≡ source_fault fault };

    fn from(fault: LogFault) -> SourceFault {
        match fault {
            LogFault::NoMemory => SourceFault::NoMemory,
            LogFault::Failed => SourceFault::Failed,
            LogFault::Full => SourceFault::Full,
            LogFault::TooLong => SourceFault::TooLong,
        }
    }
}
