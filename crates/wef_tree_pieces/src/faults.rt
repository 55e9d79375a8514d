//! Why a part of a text couldn't be read.

use std::alloc::AllocError;

/// Why a part of a text couldn't be read.
#[derive(Clone, Copy)]
pub enum Halt {
    NoMemory,
    /// The part isn't there, or not as it has to be.
    Bad,
}

impl From<AllocError> for Halt {
    ghost use Rattle.std.specs.Prelude.{◌≡◌};
    ghost use Rattle.wef_tree_pieces.specs.declared.faults.Halt.TheVariants.{NoMemory};

    ghost from_gives = { λ _ e. e ≡ NoMemory };

    fn from(_error: AllocError) -> Halt {
        Halt::NoMemory
    }
}
