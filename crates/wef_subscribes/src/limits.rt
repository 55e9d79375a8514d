//! The limits of a delivery.

ghost use Rattle.std.specs.Prelude.{◌≡◌, ◌≤◌, option_copied, IfOk};
ghost use Rattle.wef_subscribes.specs.Limits.{count_in, duration_near, heartbeats_in, nearest, number_near};
ghost use Rattle.wef_subscribes.specs.Steps.{Reads};
ghost use Rattle.wef_elements.specs.Texts.{said_in, text_inside};
ghost use Rattle.wef_times.specs.Durations.{duration_in};

use crate::faults::{BodyFault, Part};
use std::alloc::AllocError;
use wef_base::numbers::read_number;
use wef_base::{Element, ValueFault};
use wef_elements::text_inside;
use wef_times::read_duration;

/// A count of elements or bytes: the usual one where it isn't there, and else the nearest within
/// bounds.
pub(crate) fn count_in(
    part: Part,
    usual: u32,
    least: u32,
    greatest: u32,
    element: Option<&Element>,
) -> Result<u32, BodyFault>
    requires { least ≤ greatest }
    ensures { Reads result (count_in part usual least greatest (option_copied element.entry)) }
{
    let Some(element) = element else {
        return Ok(usual);
    };
    number_near(least, greatest, element)?.ok_or(BodyFault::BadBody(part))
}

/// The nearest to the number that an element says. None where it says no number.
fn number_near(least: u32, greatest: u32, element: &Element) -> Result<Option<u32>, AllocError>
    requires { least ≤ greatest }
    ensures { IfOk result (λ number. number ≡ number_near least greatest (said_in element.now)) }
{
    match read_number(&text_inside(element)?) {
        Ok(number) => Ok(Some(nearest_count(least, greatest, number))),
        Err(ValueFault::TooLarge) => Ok(Some(greatest)),
        Err(ValueFault::NoMemory) => Err(AllocError),
        Err(_) => Ok(None),
    }
}

fn nearest_count(least: u32, greatest: u32, number: u64) -> u32
    requires { least ≤ greatest }
    ensures { result ≡ nearest least greatest number }
{
    nearest(u64::from(least), u64::from(greatest), number) as u32
}

/// The nearest number from the least to the greatest.
fn nearest(least: u64, greatest: u64, number: u64) -> u64
    ensures { result ≡ nearest least greatest number }
{
    number.min(greatest).max(least)
}

/// How long a source may be silent, in milliseconds: 15 minutes where it isn't said, and else the
/// nearest from 1 ms to a day.
pub(crate) fn heartbeats_in(element: Option<&Element>) -> Result<u64, BodyFault>
    ensures { Reads result (heartbeats_in (option_copied element.entry)) }
{
    let Some(element) = element else {
        return Ok(900_000);
    };
    duration_near(1, 86_400_000, element)?.ok_or(BodyFault::BadBody(Part::Heartbeats))
}

/// The nearest to the duration that an element says. None where it says no duration.
fn duration_near(least: u64, greatest: u64, element: &Element) -> Result<Option<u64>, AllocError>
    ensures { IfOk result (λ ms. ms ≡ duration_near least greatest (duration_in (text_inside element.now))) }
{
    match read_duration(&text_inside(element)?) {
        Ok(ms) => Ok(Some(nearest(least, greatest, ms))),
        Err(ValueFault::TooLarge) => Ok(Some(greatest)),
        Err(ValueFault::NoMemory) => Err(AllocError),
        Err(_) => Ok(None),
    }
}
