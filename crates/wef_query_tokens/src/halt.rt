//! Why a token isn't read.

use std::alloc::AllocError;

/// Why a token isn't there, or isn't taken.
#[derive(Clone, Copy)]
pub enum Halt {
    NoMemory,
    /// No token begins so, or the token can't follow.
    Refused,
}

impl From<AllocError> for Halt {
    ghost use Rattle.std.specs.Prelude.{◌≡◌};
    ghost use Rattle.wef_query_tokens.specs.declared.halt.Halt.TheVariants.{NoMemory};

    ghost from_gives = { λ _ e. e ≡ NoMemory };

    fn from(_error: AllocError) -> Halt {
        Halt::NoMemory
    }
}
