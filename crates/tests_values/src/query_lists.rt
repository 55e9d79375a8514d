//! Lists of queries as documents.

use std::alloc::AllocError;
use wef_base::{Charset, Element, Text};
use wef_query::{QueryFault, QueryItem, QueryList, read_query, write_query};
use wef_tree::{TreeFault, read_tree};

/// The items of a document's list of queries, each as `GROUP+CHANNEL TEXT`, a Select, or
/// `GROUP-CHANNEL TEXT`, a Suppress; and those of the list that is read from what is written for it.
pub(crate) fn push_document(shown: &mut Text, row: &str) -> Result<(), AllocError> {
    match read_tree(shown.alloc(), row.as_bytes(), Charset::Utf8) {
        Ok(root) => push_read(shown, &root),
        Err(TreeFault::NoMemory) => Err(AllocError),
        Err(_) => shown.push_str("no document"),
    }
}

fn push_read(shown: &mut Text, root: &Element) -> Result<(), AllocError> {
    match read_query(root) {
        Ok(list) => push_both(shown, &list),
        Err(fault) => push_fault(shown, fault),
    }
}

fn push_both(shown: &mut Text, list: &QueryList) -> Result<(), AllocError> {
    shown.push_str("read")?;
    push_items(shown, list.items.as_slice())?;
    shown.push_str("; written")?;
    push_again(shown, &write_query(shown.alloc(), list)?)
}

fn push_again(shown: &mut Text, written: &Element) -> Result<(), AllocError> {
    match read_query(written) {
        Ok(list) => push_items(shown, list.items.as_slice()),
        Err(fault) => push_fault(shown, fault),
    }
}

fn push_items(shown: &mut Text, items: &[QueryItem]) -> Result<(), AllocError> {
    for item in items {
        push_item(shown, item)?;
    }
    Ok(())
}

fn push_item(shown: &mut Text, item: &QueryItem) -> Result<(), AllocError> {
    shown.push_str(" ")?;
    shown.push_number(item.group)?;
    shown.push_str(if item.suppress { "-" } else { "+" })?;
    shown.push_str(item.channel.as_text().as_str())?;
    shown.push_str(" ")?;
    shown.push_str(item.text.as_str())
}

/// What is wrong with a list of queries, by the name of its fault.
pub(crate) fn push_fault(shown: &mut Text, fault: QueryFault) -> Result<(), AllocError> {
    match fault {
        QueryFault::NoMemory => Err(AllocError),
        QueryFault::BadQuery { item, at } => push_place(shown, "BadQuery", item, at),
        QueryFault::Unsupported { item, at } => push_place(shown, "Unsupported", item, at),
        QueryFault::TooDeepQuery { item, at } => push_place(shown, "TooDeepQuery", item, at),
    }
}

/// What is wrong at a byte of an item's text; which item it is, if it isn't the first.
fn push_place(shown: &mut Text, kind: &str, item: usize, at: usize) -> Result<(), AllocError> {
    shown.push_str(kind)?;
    shown.push_str(" at ")?;
    shown.push_number(at as u64)?;
    if item > 0 {
        shown.push_str(" of item ")?;
        shown.push_number(item as u64)?;
    }
    Ok(())
}
