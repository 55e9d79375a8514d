//! An event at its greatest length, for which a line would be too long.

use crate::repeats::repeated;
use std::alloc::AllocError;
use wef_base::Text;
use wef_event::{EventFault, read_event};

/// Appends the length of the text of the event that is read in a text with repeated pieces.
pub(crate) fn push_length(shown: &mut Text, line: &str) -> Result<(), AllocError> {
    let text = repeated(shown.alloc(), line, '|')?;
    match read_event(&text) {
        Ok(event) => shown.push_number(event.text.len() as u64),
        Err(EventFault::TooLong) => shown.push_str("too long"),
        Err(_) => shown.push_str("no event"),
    }
}
