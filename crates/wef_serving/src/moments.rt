//! The moments at which an end answers.

ghost use Rattle.std.specs.Prelude.{◌≡◌};
ghost use Rattle.wef_serving.specs.Serving.{IsMoment};

use wef_base::Moment;
use wef_ports::Clock;

/// The present moment of a clock.
pub fn present<C: Clock>(clock: &mut C) -> Moment
    ensures moment { IsMoment (C.told clock.old) result }
    ensures stays { C.told clock.new ≡ C.told clock.old }
{
    let now = clock.now();
    // that no moment is behind the greatest is known where its number is read
    now.milliseconds();
    now
}
