//! Digits in front of a text, and decimals behind a point.

ghost use Rattle.std.specs.Prelude.{◌≡◌, ◌≤◌, drop, length, min, true};
ghost use Rattle.std.specs.List.{list_all};
ghost use Rattle.wef_base.specs.Numbers.{is_digit, value_from};
ghost use Rattle.wef_times.specs.Digits.{begins_with, behind_digits, behind_fraction, decimals_in, fraction_in, has_digit, leading_digits, scaled};

/// The number that digits write, or the limit where it is above that.
pub(crate) fn value_up_to(limit: u64, digits: &[u8]) -> u64
    ensures { result ≡ min (value_from 0 digits.now) limit }
{
    let mut value = 0u128;
    for &digit in digits {
        value = (value * 10 + u128::from(digit.saturating_sub(b'0'))).min(u128::from(limit));
    }
    value as u64
}

/// The digits that a text begins with.
pub(crate) fn leading_digits(text: &[u8]) -> &[u8]
    ensures digits { result.now ≡ leading_digits text.now }
    ensures each { list_all is_digit result.now ≡ true }
{
    &text[..text.len() - behind_digits(text).len()]
}

/// What stands behind the digits that a text begins with.
pub(crate) fn behind_digits(text: &[u8]) -> &[u8]
    ensures rest { result.now ≡ behind_digits text.now }
    ensures within { length result.now ≤ length text.now }
{
    let mut rest = text;
    while let Some((first, more)) = rest.split_first() {
        if !is_digit(*first) {
            return rest;
        }
        rest = more;
    }
    rest
}

/// Whether a text begins with a digit.
pub(crate) fn has_digit(text: &[u8]) -> bool
    ensures { result ≡ has_digit text.now }
{
    match text {
        [first, ..] => is_digit(*first),
        [] => false,
    }
}

/// Whether a text begins with a character.
pub(crate) fn begins_with(character: u8, text: &[u8]) -> bool
    ensures { result ≡ begins_with character text.now }
{
    match text {
        [first, ..] => *first == character,
        [] => false,
    }
}

/// Whether a character is a digit of ASCII.
pub(crate) fn is_digit(character: u8) -> bool
    ensures { result ≡ is_digit character }
{
    b'0' <= character && character <= b'9'
}

/// A text without its first character.
pub(crate) fn behind_first(text: &[u8]) -> &[u8]
    ensures { result.now ≡ drop 1 text.now }
{
    match text {
        [_, rest @ ..] => rest,
        [] => text,
    }
}

/// The fraction in front of a text, in units of the last of so many places: a point and decimals.
/// 0 where there is no point, none where behind it there is no decimal, or more than the places.
pub(crate) fn fraction_in(places: u32, text: &[u8]) -> Option<u64>
    requires { places ≤ 9 }
    ensures { result ≡ fraction_in places text.now }
{
    if begins_with(b'.', text) {
        decimals_in(places, leading_digits(behind_first(text)))
    } else {
        Some(0)
    }
}

fn decimals_in(places: u32, decimals: &[u8]) -> Option<u64>
    requires places { places ≤ 9 }
    requires digits { list_all is_digit decimals.now ≡ true }
    ensures { result ≡ decimals_in places decimals.now }
{
    let count = decimals.len();
    if count > 0 && count <= places as usize {
        Some(scaled(places, decimals))
    } else {
        None
    }
}

fn scaled(places: u32, decimals: &[u8]) -> u64
    requires places { places ≤ 9 }
    requires digits { list_all is_digit decimals.now ≡ true }
    requires within { length decimals.now ≤ places }
    ensures { result ≡ scaled places decimals.now }
{
    value_up_to(999_999_999, decimals) * 10u64.pow(places - decimals.len() as u32)
}

/// What stands behind the fraction.
pub(crate) fn behind_fraction(text: &[u8]) -> &[u8]
    ensures { result.now ≡ behind_fraction text.now }
{
    if begins_with(b'.', text) {
        behind_digits(behind_first(text))
    } else {
        text
    }
}
