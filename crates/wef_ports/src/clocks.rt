//! Clocks: one that stands still, and that of the system.

ghost use Rattle.std.specs.Prelude.{◌≡◌, ℕ, Option, is_some, IfSome, min, refl};
ghost use Rattle.std.specs.declared.option.Option.TheVariants.{None, Some};

use std::time::{SystemTime, UNIX_EPOCH};
use wef_base::Moment;
use wef_base::moments::LAST_MOMENT;

/// What tells the time.
pub trait Clock {
    /// The moment that it gives, where the clock tells it.
    ghost told: { Self → Option ℕ };

    /// The present moment.
    fn now(&mut self) -> Moment
        ensures moment { IfSome (told self.old) (λ moment. result ≡ moment) }
        ensures stays { told self.new ≡ told self.old };

    // It tells its moment always or never.
    ghost tells: { (a b : Self) → is_some (told a) ≡ is_some (told b) };
}

/// A clock that stands still.
#[derive(Clone, Copy, Debug)]
pub struct FixedClock {
    moment: Moment,
}

impl FixedClock {
    /// A clock that always gives this moment.
    pub fn at(now: Moment) -> FixedClock
        ensures { result.moment ≡ now }
    {
        FixedClock { moment: now }
    }
}

impl Clock for FixedClock {
    ghost told = { λ c. Some c.moment };

    ghost tells = { λ a b. refl };

    fn now(&mut self) -> Moment {
        self.moment
    }
}

/// The clock of the system. It tells nothing.
#[derive(Clone, Copy)]
pub struct SystemClock {
    rt: HostRuntime,
    last: Moment,
}

impl SystemClock {
    /// The clock of this process.
    pub fn new(rt: HostRuntime) -> SystemClock {
        SystemClock {
            rt,
            last: Moment::first(),
        }
    }
}

impl Clock for SystemClock {
    ghost told = { λ _. None };

    ghost tells = { λ a b. refl };

    /// A time before 1970 counts as the first moment, and one behind the greatest moment as that.
    /// Where the clock can't be read it is the moment that was given last, at first the first one.
    fn now(&mut self) -> Moment {
        if let Ok(time) = SystemTime::now(&self.rt) {
            self.last = moment_of(time);
        }
        self.last
    }
}

/// The moment of a time of the system, or the nearest one.
fn moment_of(time: SystemTime) -> Moment {
    match time.duration_since(UNIX_EPOCH) {
        Ok(since) => within(since.as_millis()),
        Err(_) => Moment::first(),
    }
}

/// The moment so many milliseconds after the beginning of 1970, or the greatest one.
fn within(milliseconds: u128) -> Moment
    ensures { result ≡ min milliseconds LAST_MOMENT }
{
    let milliseconds = u64::try_from(milliseconds).unwrap_or(LAST_MOMENT);
    Moment::of(milliseconds.min(LAST_MOMENT)).unwrap_or(Moment::first())
}
