//! Bytes of UTF-16 as characters (RFC 2781).

ghost use Rattle.std.specs.Prelude.{◌≡◌, ◌<◌, true, false, IsTrue, MatchOption, length};
ghost use Rattle.wef_xml.specs.Decodes.{BeginsWith, Decodes, HasUnit};
ghost use Rattle.wef_xml.specs.Decoding.{is_high, is_low, order_of, pair_of, unit, without_mark};
ghost use Rattle.wef_base.specs.declared.tree.Charset.TheVariants.{Utf16};

use crate::TreeFault;
use std::alloc::Global;

/// Which byte of a unit comes first: the greater one or the lesser one.
#[derive(Clone, Copy, PartialEq, Eq)]
pub enum ByteOrder {
    BigEndian,
    LittleEndian,
}

/// The characters of bytes, a byte order mark aside. A fault is at a unit that is out of its pair, or
/// at a byte that is left over; behind the first unit of a pair it is at that unit.
pub fn decode_utf16(alloc: Global, bytes: &[u8]) -> Result<Vec<char>, TreeFault>
    ensures { Decodes Utf16 bytes.now result }
{
    let (order, mut rest) = behind_mark(bytes);
    let mut characters = Vec::new(alloc);
    while !rest.is_empty() {
        let Some((character, behind)) = first_character(order, rest) else {
            return Err(TreeFault::BadCharset {
                at: bytes.len() - rest.len(),
            });
        };
        if characters.push(character).is_err() {
            return Err(TreeFault::NoMemory);
        }
        rest = behind;
    }
    Ok(characters)
}

/// The order that a byte order mark says, and the bytes behind the mark.
pub fn behind_mark(bytes: &[u8]) -> (ByteOrder, &[u8])
    ensures order { result.0 ≡ order_of bytes.now }
    ensures rest { result.1.now ≡ without_mark Utf16 bytes.now }
{
    match bytes {
        [0xFE, 0xFF, rest @ ..] => (ByteOrder::BigEndian, rest),
        [0xFF, 0xFE, rest @ ..] => (ByteOrder::LittleEndian, rest),
        _ => (ByteOrder::LittleEndian, bytes),
    }
}

/// The first character, and the bytes behind it.
fn first_character(order: ByteOrder, bytes: &[u8]) -> Option<(char, &[u8])>
    requires { 0 < length bytes.now }
    ensures { BeginsWith order bytes.now result }
{
    let (first, rest) = first_unit(order, bytes)?;
    if !is_high(first) {
        return Some((single(first)?, rest));
    }
    let (second, behind) = first_unit(order, rest)?;
    if !is_low(second) {
        return None;
    }
    Some((pair(first, second)?, behind))
}

/// The first unit, and the bytes behind it.
fn first_unit(order: ByteOrder, bytes: &[u8]) -> Option<(u16, &[u8])>
    ensures { HasUnit order bytes.now result }
{
    match bytes {
        [first, second, rest @ ..] => Some((unit(order, *first, *second), rest)),
        _ => None,
    }
}

/// The unit of two bytes.
fn unit(order: ByteOrder, first: u8, second: u8) -> u16
    ensures { result ≡ unit order first second }
{
    match order {
        ByteOrder::BigEndian => u16::from(first) * 256 + u16::from(second),
        ByteOrder::LittleEndian => u16::from(second) * 256 + u16::from(first),
    }
}

/// Whether a unit is the first of a pair.
fn is_high(unit: u16) -> bool
    ensures { result ≡ is_high unit }
{
    (0xD800..=0xDBFF).contains(&unit)
}

/// Whether a unit is the second of a pair.
fn is_low(unit: u16) -> bool
    ensures { result ≡ is_low unit }
{
    (0xDC00..=0xDFFF).contains(&unit)
}

/// The character of a unit that stands alone.
fn single(unit: u16) -> Option<char>
    requires { is_high unit ≡ false }
    ensures { MatchOption result (is_low unit ≡ true) (λ c. (c ≡ unit) × (is_low unit ≡ false)) }
{
    char::from_u32(u32::from(unit))
}

/// The character of a pair of units.
fn pair(high: u16, low: u16) -> Option<char>
    requires high { IsTrue (is_high high) }
    requires low { IsTrue (is_low low) }
    ensures { result ≡ Some (pair_of high low) }
{
    char::from_u32(0x10000 + u32::from(high - 0xD800) * 1024 + u32::from(low - 0xDC00))
}
