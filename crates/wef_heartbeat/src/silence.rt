//! When a source is to be heard of again, and which source is silent.

ghost use Rattle.std.specs.Prelude.{◌≡◌};
ghost use Rattle.wef_heartbeat.specs.Silence as spec;

use wef_base::moments::Moment;

/// Whether a source is heard of.
#[derive(Clone, Copy, Debug, PartialEq, Eq)]
pub enum Status {
    /// It was heard within the last two intervals.
    Active,
    /// Two intervals are over since it was heard last.
    Inactive,
    /// It wasn't heard yet.
    Never,
}

/// Whether a heartbeat is due: an interval, in milliseconds, is over since a source last sent. It takes no memory.
pub fn due(last_sent: Moment, interval: u64, now: Moment) -> bool
    ensures { result ≡ spec.due last_sent interval now }
{
    u128::from(now.milliseconds()) >= u128::from(last_sent.milliseconds()) + u128::from(interval)
}

impl Status {
    /// Whether a source is heard of that was heard last at a moment, if it was at all, and has to send at least once in
    /// an interval, in milliseconds: a heartbeat that is lost doesn't make it silent, two in turn do. It takes no memory.
    pub fn of(heard: Option<Moment>, interval: u64, now: Moment) -> Status
        ensures { result ≡ spec.status_of heard interval now }
    {
        match heard {
            Some(heard) if is_silent(heard, interval, now) => Status::Inactive,
            Some(_) => Status::Active,
            None => Status::Never,
        }
    }
}

fn is_silent(heard: Moment, interval: u64, now: Moment) -> bool
    ensures { result ≡ spec.is_silent heard interval now }
{
    u128::from(now.milliseconds()) >= u128::from(heard.milliseconds()) + 2 * u128::from(interval)
}
