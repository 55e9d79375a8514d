//! Instants as texts (XML Schema part 2, 3.2.7).

ghost use Rattle.std.specs.Prelude.{◌≡◌, codes, drop, IfSome, neg_ℤ, pos, take, true};
ghost use Rattle.std.specs.Option.{option_map};
ghost use Rattle.jiff_core.specs.Timestamp.{IsDurationNanos};
ghost use Rattle.wef_times.specs.Forms.{HasField, field, has_form};
ghost use Rattle.wef_times.specs.Instants.{date_and_time_in, instant_at, instant_in, instant_of, offset_of, zone_in};
ghost use Rattle.wef_times.specs.Reading.{Reads};

use crate::calendar::nanos_to;
use crate::digits::{behind_fraction, fraction_in};
use crate::forms::{field, has_form};
use wef_base::{Text, ValueFault};

/// Reads an instant of the years 0001 to 9999, in nanoseconds since the beginning of 1970 in UTC
/// without leap seconds; negative before it. Without a zone it is one of UTC, and spaces at both ends
/// don't count. `NotAMoment` where the text has another form, or says a date that doesn't exist.
#[tactic(auto, unfolding(crate::specs::Instants::instant_in))]
pub fn read_instant(text: &Text) -> Result<i128, ValueFault>
    ensures { Reads result (instant_in text.now) }
{
    let text = text.trimmed()?;
    instant_at(text.as_str().as_bytes()).ok_or(ValueFault::NotAMoment)
}

/// The instant that a text without spaces at its ends is, in nanoseconds since the beginning of 1970,
/// as `read_instant` reads it; none where it is no instant. It takes no memory.
#[tactic(auto, unfolding(crate::specs::Instants::instant_at))]
pub fn instant_at(text: &[u8]) -> Option<i128>
    ensures { result ≡ instant_at text.now }
{
    let (front, rest) = split(text, 19);
    instant_of(
        date_and_time_in(front),
        fraction_in(9, rest),
        zone_in(behind_fraction(rest)),
    )
}

/// The first bytes, so many where there are as many, and the rest.
fn split(text: &[u8], at: usize) -> (&[u8], &[u8])
    ensures front { result.0.now ≡ take at text.now }
    ensures rest { result.1.now ≡ drop at text.now }
{
    text.split_at(at.min(text.len()))
}

fn instant_of(begin: Option<i128>, nanos: Option<u64>, ahead: Option<i128>) -> Option<i128>
    requires begin { IfSome begin IsDurationNanos }
    requires ahead { IfSome ahead IsDurationNanos }
    ensures { result ≡ instant_of begin nanos ahead }
{
    Some(begin? + i128::from(nanos?) - ahead?)
}

fn date_and_time_in(text: &[u8]) -> Option<i128>
    ensures value { result ≡ date_and_time_in text.now }
    ensures bound { IfSome result IsDurationNanos }
{
    if has_form("0000-00-00T00:00:00", text) {
        date_and_time_of(text)
    } else {
        None
    }
}

fn date_and_time_of(text: &[u8]) -> Option<i128>
    requires { has_form (codes "0000-00-00T00:00:00") text.now ≡ true }
    ensures value { result ≡ date_and_time_in text.now }
    ensures bound { IfSome result IsDurationNanos }
{
    nanos_to(
        field(0, 4, text),
        field(5, 2, text),
        field(8, 2, text),
        field(11, 2, text),
        field(14, 2, text),
        field(17, 2, text),
    )
}

/// How many nanoseconds the clocks of a zone are ahead of UTC.
fn zone_in(text: &[u8]) -> Option<i128>
    ensures value { result ≡ zone_in text.now }
    ensures bound { IfSome result IsDurationNanos }
{
    if has_form("", text) || has_form("Z", text) {
        return Some(0);
    }
    if has_form("+00:00", text) {
        return ahead(offset_in(text));
    }
    if has_form("-00:00", text) {
        return behind(offset_in(text));
    }
    None
}

fn ahead(offset: Option<u64>) -> Option<i128>
    ensures value { result ≡ option_map (λ n. pos n) offset }
    ensures bound { IfSome result IsDurationNanos }
{
    Some(i128::from(offset?))
}

fn behind(offset: Option<u64>) -> Option<i128>
    ensures value { result ≡ option_map (λ n. neg_ℤ (pos n)) offset }
    ensures bound { IfSome result IsDurationNanos }
{
    Some(-i128::from(offset?))
}

/// The nanoseconds of an offset, without its sign.
fn offset_in(text: &[u8]) -> Option<u64>
    requires hours { HasField 1 2 text.now }
    requires minutes { HasField 4 2 text.now }
    ensures { result ≡ offset_of (field 1 2 text.now) (field 4 2 text.now) }
{
    offset_of(field(1, 2, text), field(4, 2, text))
}

fn offset_of(hours: u64, minutes: u64) -> Option<u64>
    ensures { result ≡ offset_of hours minutes }
{
    if hours <= 23 && minutes <= 59 {
        Some((hours * 3600 + minutes * 60) * 1_000_000_000)
    } else {
        None
    }
}
