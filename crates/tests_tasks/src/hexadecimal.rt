//! Bytes that aren't shown as a text.

use std::alloc::AllocError;
use wef_base::Text;

/// Appends bytes, as two hexadecimal digits each.
pub fn push_hexadecimal(shown: &mut Text, bytes: &[u8]) -> Result<(), AllocError> {
    for &byte in bytes {
        for digit in [byte / 16, byte % 16] {
            shown.push(char::from_digit(u32::from(digit), 16).unwrap_or('?'))?;
        }
    }
    Ok(())
}
