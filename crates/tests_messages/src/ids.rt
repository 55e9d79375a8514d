//! Ids, written out as their texts and values.

use std::alloc::AllocError;
use wef_base::{Text, read_number};
use wef_envelope::{MessageId, id_text, read_id};

/// The value of a text in hexadecimal.
pub(crate) fn push_id(shown: &mut Text, line: &str) -> Result<(), AllocError> {
    let text = Text::from_str(shown.alloc(), line)?;
    push_number(shown, read_id(&text)?.value)
}

/// An id, as its text and its value.
pub(crate) fn push_both(shown: &mut Text, id: &MessageId) -> Result<(), AllocError> {
    shown.push_str(id.text.as_str())?;
    shown.push_str(" (")?;
    push_number(shown, id.value)?;
    shown.push_str(")")
}

fn push_number(shown: &mut Text, value: Option<u128>) -> Result<(), AllocError> {
    let Some(number) = value else {
        return shown.push_str("no value");
    };
    let mut rest = number;
    for _ in 0..32 {
        let digit = (rest >> 124) as u32;
        shown.push(char::from_digit(digit, 16).unwrap_or('?'))?;
        rest <<= 4;
    }
    Ok(())
}

/// The text of the id of a boot number and a number.
pub(crate) fn push_value(shown: &mut Text, line: &str) -> Result<(), AllocError> {
    let Some((boot, sequence)) = line.split_once(' ') else {
        return shown.push_str("no row");
    };
    let boot = number(shown, boot)?;
    let sequence = number(shown, sequence)?;
    let text = id_text(shown.alloc(), MessageId::of(boot, sequence))?;
    shown.push_str(text.as_str())
}

fn number(shown: &Text, word: &str) -> Result<u64, AllocError> {
    Ok(read_number(&Text::from_str(shown.alloc(), word)?).unwrap_or(0))
}
