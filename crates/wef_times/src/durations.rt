//! Durations as texts (XML Schema part 2, 3.2.6).

ghost use Rattle.std.specs.Prelude.{◌≡◌, ◌+◌, ◌*◌, ◌++◌, ◌<◌, ◌≤◌, ◌∷◌, [], IfOk, OnOk};
ghost use Rattle.std.specs.declared.result.Result.TheVariants.{Ok};
ghost use Rattle.std.specs.Option.{option_map};
ghost use Rattle.wef_base.specs.Numbers.{value_from};
ghost use Rattle.wef_times.specs.Durations.{behind_part, capped, days_in, duration_in, duration_text, has_part, hours_in, is_seconds_sign, milliseconds_in, minutes_in, part_in, seconds_in, three_digits, time_in, within_limit};
ghost use Rattle.wef_times.specs.Reading.{Reads};

use crate::digits::{
    begins_with, behind_digits, behind_first, behind_fraction, fraction_in, has_digit,
    leading_digits, value_up_to,
};
use std::alloc::{AllocError, Global};
use wef_base::{Text, ValueFault};

/// The greatest duration, in milliseconds: 100,000 days.
pub const LIMIT: u64 = 8_640_000_000_000;

/// Reads a duration of days, hours, minutes and seconds, in milliseconds. Spaces at both ends don't
/// count. `NotADuration` where the text has another form, `TooLarge` above `LIMIT`.
#[tactic(auto, unfolding(crate::specs::Durations::duration_in))]
pub fn read_duration(text: &Text) -> Result<u64, ValueFault>
    ensures { Reads result (duration_in text.now) }
{
    let text = text.trimmed()?;
    within_limit(milliseconds_in(text.as_str().as_bytes()))
}

fn within_limit(ms: Option<u64>) -> Result<u64, ValueFault>
    ensures { result ≡ within_limit ms }
{
    match ms {
        Some(ms) if ms <= LIMIT => Ok(ms),
        Some(_) => Err(ValueFault::TooLarge),
        None => Err(ValueFault::NotADuration),
    }
}

// Each of these gives milliseconds, or `LIMIT + 1` where there are more.

fn milliseconds_in(text: &[u8]) -> Option<u64>
    ensures { result ≡ option_map capped (milliseconds_in text.now) }
{
    match text {
        [b'P', rest @ ..] => days_in(rest),
        _ => None,
    }
}

fn days_in(text: &[u8]) -> Option<u64>
    ensures { result ≡ option_map capped (days_in text.now) }
{
    if text.is_empty() {
        return None;
    }
    with_part(text, b'D', 86_400_000, time_in(behind_part(b'D', text)))
}

fn time_in(text: &[u8]) -> Option<u64>
    ensures { result ≡ option_map capped (time_in text.now) }
{
    match text {
        [] => Some(0),
        [b'T', rest @ ..] => hours_in(rest),
        _ => None,
    }
}

fn hours_in(text: &[u8]) -> Option<u64>
    ensures { result ≡ option_map capped (hours_in text.now) }
{
    if text.is_empty() {
        return None;
    }
    with_part(text, b'H', 3_600_000, minutes_in(behind_part(b'H', text)))
}

fn minutes_in(text: &[u8]) -> Option<u64>
    ensures { result ≡ option_map capped (minutes_in text.now) }
{
    with_part(text, b'M', 60_000, seconds_in(behind_part(b'M', text)))
}

fn seconds_in(text: &[u8]) -> Option<u64>
    ensures { result ≡ option_map capped (seconds_in text.now) }
{
    if text.is_empty() {
        return Some(0);
    }
    let rest = behind_digits(text);
    if !has_digit(text) || !is_seconds_sign(behind_fraction(rest)) {
        return None;
    }
    with_seconds(leading_digits(text), fraction_in(3, rest))
}

fn with_seconds(digits: &[u8], thousandths: Option<u64>) -> Option<u64>
    ensures { result ≡ option_map (λ ms. capped (value_from 0 digits.now * 1000 + ms)) thousandths }
{
    Some(sum(capped_value(digits), 1000, thousandths?))
}

/// Whether the letter S is all.
fn is_seconds_sign(text: &[u8]) -> bool
    ensures { result ≡ is_seconds_sign text.now }
{
    begins_with(b'S', text) && text.len() == 1
}

/// The milliseconds of the part that a text begins with, of a unit of `size` milliseconds, and of
/// what stands behind it.
fn with_part(text: &[u8], unit: u8, size: u64, rest: Option<u64>) -> Option<u64>
    requires { 1 ≤ size }
    ensures { result ≡ option_map (λ ms. capped (part_in unit text.now * size + ms)) rest }
{
    Some(sum(part_in(unit, text), size, rest?))
}

/// How many of a unit a text begins with; 0 where it begins with no such part.
fn part_in(unit: u8, text: &[u8]) -> u64
    ensures { result ≡ capped (part_in unit text.now) }
{
    if has_part(unit, text) {
        capped_value(leading_digits(text))
    } else {
        0
    }
}

/// What stands behind the part of a unit that a text begins with, if it begins with one.
fn behind_part(unit: u8, text: &[u8]) -> &[u8]
    ensures { result.now ≡ behind_part unit text.now }
{
    if has_part(unit, text) {
        behind_first(behind_digits(text))
    } else {
        text
    }
}

/// Whether a text begins with digits and the letter of their unit.
fn has_part(unit: u8, text: &[u8]) -> bool
    ensures { result ≡ has_part unit text.now }
{
    has_digit(text) && begins_with(unit, behind_digits(text))
}

fn capped_value(digits: &[u8]) -> u64
    ensures { result ≡ capped (value_from 0 digits.now) }
{
    value_up_to(LIMIT + 1, digits)
}

fn sum(count: u64, size: u64, more: u64) -> u64
    ensures { result ≡ capped (count * size + more) }
{
    count
        .saturating_mul(size)
        .saturating_add(more)
        .min(LIMIT + 1)
}

/// A duration in milliseconds as a text: seconds with three decimals.
#[tactic(auto, using(crate::proofs::DurationTexts::reads_back))]
pub fn write_duration(alloc: Global, ms: u64) -> Result<Text, AllocError>
    ensures value { IfOk result (λ text. text ≡ duration_text ms) }
    ensures reads_back { ms ≤ LIMIT → IfOk result (λ text. duration_in text ≡ Ok ms) }
{
    duration_text(alloc, ms)
}

#[tactic(auto, unfolding(crate::specs::Durations::duration_text))]
fn duration_text(alloc: Global, ms: u64) -> Result<Text, AllocError>
    ensures { IfOk result (λ text. text ≡ duration_text ms) }
{
    let mut text = Text::from_str(alloc, "PT")?;
    text.push_number(ms / 1000)?;
    text.push_str(".")?;
    push_three_digits(&mut text, ms % 1000)?;
    text.push_str("S")?;
    Ok(text)
}

fn push_three_digits(text: &mut Text, number: u64) -> Result<(), AllocError>
    requires { number < 1000 }
    ensures ok { OnOk result (text.new ≡ text.old ++ three_digits number) }
{
    push_digit(text, number / 100)?;
    push_digit(text, number / 10 % 10)?;
    push_digit(text, number % 10)
}

fn push_digit(text: &mut Text, digit: u64) -> Result<(), AllocError>
    requires { digit < 10 }
    ensures ok { OnOk result (text.new ≡ text.old ++ (48 + digit) ∷ []) }
{
    text.push(char::from(b'0' + digit as u8))
}
