//! References to characters.

ghost use Rattle.std.specs.Option.{option_map};
ghost use Rattle.std.specs.Prelude.{◌≡◌};
ghost use Rattle.wef_tree_pieces.specs.References.{base_of, digit, number_at, number_tail, numbered, one_more, reference_at};

use wef_base::is_xml_char;
use wef_xml::fronts::strip;

/// The character of a reference, whose text begins behind the `&`, and what is left.
#[tactic(auto, unfolding(crate::specs::References::reference_at))]
pub fn reference_at(text: &[char]) -> Option<(char, &[char])>
    ensures { option_map (λ read. (read.0, read.1.now)) result ≡ reference_at text.now }
{
    if let Some(rest) = strip(b"amp;", text) {
        return Some(('&', rest));
    }
    if let Some(rest) = strip(b"lt;", text) {
        return Some(('<', rest));
    }
    if let Some(rest) = strip(b"gt;", text) {
        return Some(('>', rest));
    }
    if let Some(rest) = strip(b"quot;", text) {
        return Some(('"', rest));
    }
    if let Some(rest) = strip(b"apos;", text) {
        return Some(('\'', rest));
    }
    if let Some(rest) = strip(b"#x", text) {
        return numbered(true, rest);
    }
    numbered(false, strip(b"#", text)?)
}

/// The character of a number, whose text begins with its first digit.
fn numbered(hex: bool, text: &[char]) -> Option<(char, &[char])>
    ensures { option_map (λ read. (read.0, read.1.now)) result ≡ numbered hex text.now }
{
    let (number, rest) = number_at(hex, text)?;
    let character = char::from_u32(number)?;
    if is_xml_char(character) {
        Some((character, rest))
    } else {
        None
    }
}

fn number_at(hex: bool, text: &[char]) -> Option<(u32, &[char])>
    ensures { option_map (λ read. (read.0, read.1.now)) result ≡ number_at hex text.now }
{
    let [character, rest @ ..] = text else {
        return None;
    };
    number_tail(hex, digit(hex, *character)?, rest)
}

/// The number that a begun number, more digits and `;` make.
fn number_tail(hex: bool, begun: u32, text: &[char]) -> Option<(u32, &[char])>
    ensures { option_map (λ read. (read.0, read.1.now)) result ≡ number_tail hex begun text.now }
{
    let mut number = begun;
    let mut rest = text;
    while let [character, more @ ..] = rest {
        if *character == ';' {
            return Some((number, more));
        }
        number = one_more(hex, number, digit(hex, *character)?)?;
        rest = more;
    }
    None
}

/// A number with one more digit, none past the last character of Unicode.
fn one_more(hex: bool, number: u32, digit: u32) -> Option<u32>
    ensures { result ≡ one_more hex number digit }
{
    let more = number.checked_mul(base_of(hex))?.checked_add(digit)?;
    if more <= 0x10FFFF { Some(more) } else { None }
}

fn base_of(hex: bool) -> u32
    ensures { result ≡ base_of hex }
{
    if hex { 16 } else { 10 }
}

fn digit(hex: bool, character: char) -> Option<u32>
    ensures { result ≡ digit hex character }
{
    let code = u32::from(character);
    match code {
        0x30..=0x39 => Some(code - 48),
        0x41..=0x46 if hex => Some(code - 55),
        0x61..=0x66 if hex => Some(code - 87),
        _ => None,
    }
}
