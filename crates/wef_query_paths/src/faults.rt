//! Why a text says no path.

use std::alloc::AllocError;
use thiserror::Error;

/// Why a text says no path. A place is a byte of the text: that of the first token that no path goes on
/// with, or the text's length where it ends too early.
#[derive(Clone, Copy, Debug, PartialEq, Eq, Error)]
pub enum PathFault {
    #[error("no memory")]
    NoMemory,
    /// No path goes on so.
    #[error("not a path at {at}")]
    BadPath { at: usize },
    /// There stands what XPath 1.0 has and paths of event queries lack.
    #[error("not supported at {at}")]
    Unsupported { at: usize },
    /// There a 33rd bracket would be open.
    #[error("too many brackets at {at}")]
    TooDeep { at: usize },
}

impl From<AllocError> for PathFault {
    ghost use Rattle.std.specs.Prelude.{◌≡◌};
    ghost use Rattle.wef_query_paths.specs.declared.faults.PathFault.TheVariants.{NoMemory};

    ghost from_gives = { λ _ e. e ≡ NoMemory };

    fn from(_error: AllocError) -> PathFault {
        PathFault::NoMemory
    }
}

/// What is wrong with a text, its place aside.
#[derive(Clone, Copy)]
pub enum FaultKind {
    Bad,
    Unsupported,
    Deep,
}

/// Where reading a text stopped.
#[derive(Clone, Copy)]
pub struct Stop {
    pub kind: FaultKind,
    /// How many characters are left from there on.
    pub left: usize,
}

/// Why reading a text ended without a path.
#[derive(Clone, Copy)]
pub enum Failure {
    NoMemory,
    Stopped(Stop),
}
