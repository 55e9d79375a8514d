//! Texts in UTF-16.

use std::alloc::{AllocError, Global};
use wef_base::{Bytes, Text};

/// The order of the two bytes of a unit.
#[derive(Clone, Copy)]
pub enum Order {
    Little,
    Big,
}

/// A document in UTF-16, little-endian with a byte order mark.
pub fn in_utf16(alloc: Global, document: &Bytes) -> Result<Bytes, AllocError> {
    let text = str::from_utf8(document.as_slice()).unwrap_or("no UTF-8");
    units(alloc, Order::Little, "\u{FEFF}", text)
}

/// The units of bytes in UTF-16, little-endian, as a character each.
pub fn from_utf16(alloc: Global, bytes: &[u8]) -> Result<Text, AllocError> {
    let mut text = Text::new(alloc);
    for pair in bytes.chunks(2) {
        text.push(unit_of(pair))?;
    }
    Ok(text)
}

fn unit_of(pair: &[u8]) -> char {
    match pair {
        [low, high] => char::from_u32(u32::from(u16::from_le_bytes([*low, *high]))).unwrap_or('?'),
        _ => '?',
    }
}

/// A mark and a text in UTF-16.
pub fn units(alloc: Global, order: Order, mark: &str, text: &str) -> Result<Bytes, AllocError> {
    let mut bytes = Bytes::new(alloc);
    push_units(&mut bytes, order, mark)?;
    push_units(&mut bytes, order, text)?;
    Ok(bytes)
}

fn push_units(bytes: &mut Bytes, order: Order, text: &str) -> Result<(), AllocError> {
    for character in text.chars() {
        push_character(bytes, order, u32::from(character))?;
    }
    Ok(())
}

/// Appends a character. U+E000 stands for a high surrogate alone, and U+E001 for a low one.
fn push_character(bytes: &mut Bytes, order: Order, code: u32) -> Result<(), AllocError> {
    match code {
        0xE000 => push_unit(bytes, order, 0xD800),
        0xE001 => push_unit(bytes, order, 0xDC00),
        _ if code < 0x1_0000 => push_unit(bytes, order, code),
        _ => {
            let rest = code.saturating_sub(0x1_0000);
            push_unit(bytes, order, 0xD800_u32.saturating_add(rest / 1024))?;
            push_unit(bytes, order, 0xDC00_u32.saturating_add(rest % 1024))
        }
    }
}

fn push_unit(bytes: &mut Bytes, order: Order, unit: u32) -> Result<(), AllocError> {
    let (high, low) = ((unit / 256 % 256) as u8, (unit % 256) as u8);
    let pair = match order {
        Order::Little => [low, high],
        Order::Big => [high, low],
    };
    bytes.extend(&pair)
}
