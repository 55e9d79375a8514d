//! Dates and times of day, counted from 1970.

ghost use Rattle.std.specs.Prelude.{◌≡◌, ◌≤◌, ◌↔◌, IfSome, IsSome, pos};
ghost use Rattle.jiff_core.specs.Calendar.{IsDate};
ghost use Rattle.jiff_core.specs.Date.{IsYmd};
ghost use Rattle.jiff_core.specs.DateTime.{civil_nanos};
ghost use Rattle.jiff_core.specs.Time.{IsHms, IsTime};
ghost use Rattle.jiff_core.specs.Timestamp.{IsDurationNanos};
ghost use Rattle.wef_times.specs.Instants.{nanos_to};

use jiff::civil::{self, DateTime};

/// The nanoseconds from the beginning of 1970 to a date and time, where the calendar has the one and a
/// clock the other.
pub(crate) fn nanos_to(
    year: u64,
    month: u64,
    day: u64,
    hour: u64,
    minute: u64,
    second: u64,
) -> Option<i128>
    requires year { year ≤ 9999 }
    requires month { month ≤ 99 }
    requires day { day ≤ 99 }
    requires hour { hour ≤ 99 }
    requires minute { minute ≤ 99 }
    requires second { second ≤ 99 }
    ensures value { result ≡ nanos_to year month day hour minute second }
    ensures bound { IfSome result IsDurationNanos }
{
    if year == 0 {
        return None;
    }
    let date_and_time = civil(year, month, day, hour, minute, second)?;
    Some(nanos_from(date_and_time))
}

fn civil(year: u64, month: u64, day: u64, hour: u64, minute: u64, second: u64) -> Option<DateTime>
    requires year { year ≤ 9999 }
    requires month { month ≤ 99 }
    requires day { day ≤ 99 }
    requires hour { hour ≤ 99 }
    requires minute { minute ≤ 99 }
    requires second { second ≤ 99 }
    ensures some { IsSome result ↔ (IsDate (pos year) (pos month) (pos day) × IsTime (pos hour) (pos minute) (pos second) (pos 0)) }
    ensures value { IfSome result (λ at. IsYmd (pos year) (pos month) (pos day) at.date × IsHms (pos hour) (pos minute) (pos second) (pos 0) at.time) }
{
    DateTime::new(
        year as i16,
        month as i8,
        day as i8,
        hour as i8,
        minute as i8,
        second as i8,
        0,
    )
    .ok()
}

fn nanos_from(date_and_time: DateTime) -> i128
    ensures value { result ≡ civil_nanos date_and_time }
    ensures bound { IsDurationNanos result }
{
    date_and_time
        .duration_since(civil::datetime(1970, 1, 1, 0, 0, 0, 0))
        .as_nanos()
}
