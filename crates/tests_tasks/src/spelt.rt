//! Lines that spell bytes with the escapes of Rust's literals, and are answered in the same escapes.

use crate::escapes::{escaped, unescaped};
use std::alloc::AllocError;
use wef_base::{Charset, Text};

/// Appends what is printed for the bytes that a line spells, in a charset.
pub fn push_of_bytes(
    shown: &mut Text,
    line: &str,
    charset: Charset,
    push: fn(&mut Text, Charset, &[u8]) -> Result<(), AllocError>,
) -> Result<(), AllocError>
    requires { IsAlwaysCallable push }
{
    let alloc = shown.alloc();
    let mut answer = Text::new(alloc);
    push(&mut answer, charset, unescaped(alloc, line)?.as_slice())?;
    shown.push_str(escaped(&answer)?.as_str())
}

/// Appends what is printed for the text that a line spells, or `no UTF-8`.
pub fn push_of_text(
    shown: &mut Text,
    line: &str,
    push: fn(&mut Text, &Text) -> Result<(), AllocError>,
) -> Result<(), AllocError>
    requires { IsAlwaysCallable push }
{
    let alloc = shown.alloc();
    let bytes = unescaped(alloc, line)?;
    let Ok(text) = str::from_utf8(bytes.as_slice()) else {
        return shown.push_str("no UTF-8");
    };
    let mut answer = Text::new(alloc);
    push(&mut answer, &Text::from_str(alloc, text)?)?;
    shown.push_str(escaped(&answer)?.as_str())
}
