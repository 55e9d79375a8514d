//! The escapes of Rust's literals.

use std::alloc::{AllocError, Global};
use wef_base::{Bytes, Text};

/// What a line spells. A backslash that begins no escape is left out.
pub fn unescaped(alloc: Global, line: &str) -> Result<Bytes, AllocError> {
    let mut bytes = Bytes::new(alloc);
    let mut is_escape = false;
    for part in line.split('\\') {
        let mut rest = part;
        if is_escape {
            rest = push_escape(&mut bytes, part)?;
        }
        bytes.extend(rest.as_bytes())?;
        is_escape = true;
    }
    Ok(bytes)
}

/// Appends what the front of a text stands for behind a backslash, and gives what follows.
fn push_escape<'a>(bytes: &mut Bytes, text: &'a str) -> Result<&'a str, AllocError> {
    if let Some((code, rest)) = text.strip_prefix("u{").and_then(|it| it.split_once('}')) {
        push_scalar(bytes, code)?;
        return Ok(rest);
    }
    if let Some((code, rest)) = text.strip_prefix('x').and_then(|it| it.split_at_checked(2)) {
        bytes.push(u8::from_str_radix(code, 16).unwrap_or(b'?'))?;
        return Ok(rest);
    }
    for (letter, byte) in [('n', b'\n'), ('r', b'\r'), ('t', b'\t'), ('0', b'\0')] {
        if let Some(rest) = text.strip_prefix(letter) {
            bytes.push(byte)?;
            return Ok(rest);
        }
    }
    Ok(text)
}

fn push_scalar(bytes: &mut Bytes, code: &str) -> Result<(), AllocError> {
    let scalar = u32::from_str_radix(code, 16)
        .ok()
        .and_then(|it| char::from_u32(it));
    bytes.extend(scalar.unwrap_or('?').encode_utf8(&mut [0; 4]).as_bytes())
}

/// A text as ASCII, with escapes for what isn't printed.
pub fn escaped(text: &Text) -> Result<Text, AllocError> {
    let mut shown = Text::new(text.alloc());
    for character in text.as_str().chars() {
        if (' '..='~').contains(&character) {
            shown.push(character)?;
        } else {
            for part in character.escape_default() {
                shown.push(part)?;
            }
        }
    }
    Ok(shown)
}
