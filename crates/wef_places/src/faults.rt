//! Why a line isn't done.

use std::alloc::AllocError;
use thiserror::Error;

/// Why a line isn't done. The world isn't used again.
#[derive(Clone, Copy, Debug, PartialEq, Eq, Error)]
pub enum WorldFault {
    #[error("no memory")]
    NoMemory,
}

impl From<AllocError> for WorldFault {
    ghost use Rattle.std.specs.Prelude.{◌≡◌};
    ghost use Rattle.wef_places.specs.declared.faults.WorldFault.TheVariants.{NoMemory};

    ghost from_gives = { λ _ e. e ≡ NoMemory };

    fn from(_error: AllocError) -> WorldFault {
        WorldFault::NoMemory
    }
}
