//! Numbers in decimal digits.

ghost use Rattle.std.specs.Prelude.{◌≡◌, ◌<◌, ◌≤◌, true, IfSome};
ghost use Rattle.std.specs.List.{list_all};
ghost use Rattle.wef_base.specs.Names.{trimmed};
ghost use Rattle.wef_base.specs.Numbers.{is_digit, is_numeral, has_leading_zero, number_within, plain_number, ReadsNumber};

use crate::names::ValueFault;
use crate::text::Text;

/// The greatest number of a record, and of every count that is kept: 2^63 - 1.
pub const MAX: u64 = 9_223_372_036_854_775_807;

/// Reads decimal digits between optional spaces. `NotANumber` where there is anything else,
/// `TooLarge` above `MAX`.
pub fn read_number(text: &Text) -> Result<u64, ValueFault>
    ensures { ReadsNumber MAX (trimmed text.now) result }
{
    let digits = text.trimmed()?;
    let digits = digits.as_str().as_bytes();
    if !is_numeral_text(digits) {
        return Err(ValueFault::NotANumber);
    }
    value_within(digits, MAX).ok_or(ValueFault::TooLarge)
}

/// The number of digits without a leading zero, at most a limit. None for anything else.
#[tactic(auto, unfolding(crate::specs::Numbers::plain_number))]
pub fn read_plain_number(word: &[u8], limit: u64) -> Option<u64>
    requires { limit ≤ MAX }
    ensures value { result ≡ plain_number limit word.now }
    ensures within { IfSome result (λ n. n ≤ limit) }
{
    if !is_numeral_text(word) || leads_with_zero(word) {
        return None;
    }
    value_within(word, limit)
}

/// Whether a word is one digit or more, and nothing else.
pub fn is_numeral_text(word: &[u8]) -> bool
    ensures { result ≡ is_numeral word.now }
{
    word.len() > 0 && all_digits(word)
}

fn all_digits(word: &[u8]) -> bool
    ensures { result ≡ list_all is_digit word.now }
{
    word.iter().all(|&b| b >= 48 && b <= 57)
}

fn leads_with_zero(word: &[u8]) -> bool
    ensures { result ≡ has_leading_zero word.now }
{
    match word {
        [first, _, ..] => *first == b'0',
        _ => false,
    }
}

/// The number that digits write, at most a limit. None above it.
pub fn value_within(digits: &[u8], limit: u64) -> Option<u64>
    requires digits { is_numeral digits.now ≡ true }
    requires small { limit ≤ MAX }
    ensures value { result ≡ number_within limit digits.now }
    ensures within { IfSome result (λ n. n ≤ limit) }
{
    let mut value = 0u128;
    for &digit in digits {
        value = value * 10 + u128::from(digit - 48);
        if value > u128::from(limit) {
            return None;
        }
    }
    Some(value as u64)
}
