//! Why the log refuses a call.

use thiserror::Error;
use wef_keeper::StoreFault;

/// Why the log refuses a call. Its rows are as before after each refusal but `Failed`.
#[derive(Clone, Copy, Debug, PartialEq, Eq, Error)]
pub enum LogFault {
    #[error("no memory")]
    NoMemory,
    /// The store failed, or a row in it isn't of its form. After a write or a start the rows may
    /// have its changes or not; the next call finds which.
    #[error("the store failed")]
    Failed,
    /// A channel has all numbers, or the source was started as often as it can be.
    #[error("no numbers are left")]
    Full,
    #[error("the event is too long")]
    TooLong,
}

impl From<StoreFault> for LogFault {
    ghost use Rattle.std.specs.Prelude.{◌≡◌};
    ghost use Rattle.wef_source_log.specs.Faults.{log_fault};

    ghost from_gives = { λ fault e. e ≡ log_fault fault };

    fn from(fault: StoreFault) -> LogFault {
        match fault {
            StoreFault::NoMemory => LogFault::NoMemory,
            StoreFault::Failed => LogFault::Failed,
        }
    }
}
