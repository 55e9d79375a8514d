//! The endings that tell of refusals.

use crate::ending::Ending;
use wef_collector::CollectorFault;
use wef_keeper::KeeperFault;
use wef_source::SourceFault;
use wef_source_log::LogFault;

/// Of a call whose refusals are the store's, or the start's: one that names no subscription.
impl From<CollectorFault> for Ending {
    ghost use Rattle.std.specs.Prelude.{◌≡◌};
    ghost use Rattle.wef_commands.specs.Refusals.{store_ending};

    ghost from_gives = { λ fault e. e ≡ store_ending fault };

    fn from(fault: CollectorFault) -> Ending {
        match fault {
            CollectorFault::NoMemory => Ending::NoMemory,
            CollectorFault::Full => Ending::Full,
            _ => Ending::StoreFailed,
        }
    }
}

/// Of the log as it is started. Why an event isn't written has its line besides.
impl From<LogFault> for Ending {
    ghost use Rattle.std.specs.Prelude.{◌≡◌};
    ghost use Rattle.wef_commands.specs.Refusals.{log_ending};

    ghost from_gives = { λ fault e. e ≡ log_ending fault };

    fn from(fault: LogFault) -> Ending {
        match fault {
            LogFault::NoMemory => Ending::NoMemory,
            LogFault::Full => Ending::Full,
            LogFault::Failed => Ending::StoreFailed,
            LogFault::TooLong => Ending::StoreFailed,
        }
    }
}

impl From<SourceFault> for Ending {
    ghost use Rattle.std.specs.Prelude.{◌≡◌};
    ghost use Rattle.wef_commands.specs.Refusals.{source_ending};

    ghost from_gives = { λ fault e. e ≡ source_ending fault };

    fn from(fault: SourceFault) -> Ending {
        match fault {
            SourceFault::NoMemory => Ending::NoMemory,
            SourceFault::Full => Ending::Full,
            SourceFault::Spent => Ending::Spent,
            _ => Ending::StoreFailed,
        }
    }
}

/// Of a store that isn't opened.
impl From<KeeperFault> for Ending {
    ghost use Rattle.std.specs.Prelude.{◌≡◌};
    ghost use Rattle.wef_commands.specs.Refusals.{keeper_ending};

    ghost from_gives = { λ fault e. e ≡ keeper_ending fault };

    fn from(fault: KeeperFault) -> Ending {
        match fault {
            KeeperFault::NoMemory => Ending::NoMemory,
            _ => Ending::StoreFailed,
        }
    }
}
