//! Why the collector refuses a call.

use std::alloc::AllocError;
use thiserror::Error;
use wef_keeper::StoreFault;

/// Why the collector refuses a call. Its rows are as before after each refusal but `Failed`.
#[derive(Clone, Copy, Debug, PartialEq, Eq, Error)]
pub enum CollectorFault {
    #[error("no memory")]
    NoMemory,
    #[error("no such subscription")]
    NoSubscription,
    #[error("the subscription is there already")]
    Exists,
    #[error("the subscription has ended")]
    Ended,
    #[error("the batch is not well-formed")]
    NotWellFormed,
    #[error("no request waits for this answer")]
    NotAsked,
    #[error("there are too many subscriptions")]
    TooMany,
    /// After a commit there is doubt, which the next call ends.
    #[error("the store failed")]
    Failed,
    #[error("the boot number is the greatest")]
    Full,
}

impl From<AllocError> for CollectorFault {
    ghost use Rattle.std.specs.Prelude.{◌≡◌};
    ghost use Rattle.wef_collector_rows.specs.declared.faults.CollectorFault.TheVariants.{NoMemory};

    ghost from_gives = { λ _ e. e ≡ NoMemory };

    fn from(_error: AllocError) -> CollectorFault {
        CollectorFault::NoMemory
    }
}

impl From<StoreFault> for CollectorFault {
    ghost use Rattle.std.specs.Prelude.{◌≡◌};
    ghost use Rattle.wef_collector_rows.specs.Faults.{collector_fault};

    ghost from_gives = { λ fault e. e ≡ collector_fault fault };

    fn from(fault: StoreFault) -> CollectorFault {
        match fault {
            StoreFault::NoMemory => CollectorFault::NoMemory,
            StoreFault::Failed => CollectorFault::Failed,
        }
    }
}
