//! Documents in UTF-16.

use crate::subscriptions::{BY_SOURCE, push_bytes};
use std::alloc::AllocError;
use tests_tasks::deliveries::edited_from;
use tests_tasks::utf16::{Order, units};
use wef_base::Text;

/// What the first document says with edits, in UTF-16 with the low byte first.
pub(crate) fn push_little(shown: &mut Text, edits: &str) -> Result<(), AllocError> {
    push_marked(shown, Order::Little, edits)
}

/// What it says with the high byte first.
pub(crate) fn push_big(shown: &mut Text, edits: &str) -> Result<(), AllocError> {
    push_marked(shown, Order::Big, edits)
}

/// What the document says in UTF-16, behind its byte order mark.
fn push_marked(shown: &mut Text, order: Order, edits: &str) -> Result<(), AllocError> {
    let alloc = shown.alloc();
    let document = edited_from(alloc, BY_SOURCE, edits)?;
    let text = str::from_utf8(document.as_slice()).unwrap_or("no UTF-8");
    let bytes = units(alloc, order, "\u{FEFF}", text)?;
    push_bytes(shown, bytes.as_slice())
}
