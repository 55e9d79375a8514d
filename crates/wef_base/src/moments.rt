//! Moments in time.

ghost use Rattle.std.specs.Prelude.{◌≡◌, ◌≤◌, nat_le, Option, Some, None, if◌then◌else◌};

use std::marker::Model;

/// The greatest moment: the last millisecond of the year 9999.
pub const LAST_MOMENT: u64 = 253_402_300_799_999;

/// A moment, in milliseconds since the beginning of 1970 in UTC without leap seconds, as POSIX
/// counts seconds. Contracts see the number.
#[derive(Clone, Copy, Debug, PartialEq, Eq, PartialOrd, Ord)]
pub struct Moment {
    milliseconds: u64,
}

impl Model for Moment {
    ghost use Rattle.std.specs.Prelude.{ℕ, ◌≤◌};
    ghost use Rattle.wef_base.specs.declared.moments.TheConstants.{LAST_MOMENT};

    ghost Value = { ℕ };

    ghost view = { λ moment. moment.milliseconds };

    ghost invariant = { λ moment. moment.milliseconds ≤ LAST_MOMENT };

    ghost inverse = { λ milliseconds. record { milliseconds = milliseconds } };
}

impl Moment {
    /// The beginning of 1970.
    pub fn first() -> Moment
        ensures { result ≡ 0 }
    {
        Moment { milliseconds: 0 }
    }

    /// The moment so many milliseconds after the beginning of 1970. None behind the greatest moment.
    pub fn of(milliseconds: u64) -> Option<Moment>
        ensures { result ≡ (if nat_le milliseconds LAST_MOMENT then Some milliseconds else None) }
    {
        if milliseconds <= LAST_MOMENT {
            Some(Moment { milliseconds })
        } else {
            None
        }
    }

    /// The milliseconds since the beginning of 1970.
    pub fn milliseconds(self) -> u64
        ensures value { result ≡ self }
        ensures bound { result ≤ LAST_MOMENT }
    {
        self.milliseconds
    }
}
