//! Queries that are asked of a document.

use crate::query_lists::push_fault;
use std::alloc::Global;
use wef_base::{ChannelName, Charset, Element, List, Namespace, Text, ValueFault};
use wef_elements::{with_attributes, with_elements, with_value};
use wef_query::{QueryList, channels, read_query, selected};
use wef_tree::{TreeFault, read_tree};

/// The event of which most rows ask.
const EVENT: &str =
    "<Event><System><Provider Name='X'/><EventID>4624</EventID><Level>2</Level><Keywords>0x8020000000000000</Keywords><TimeCreated SystemTime='2024-05-01T10:00:00.1234567Z'/><EventRecordID>7</EventRecordID><Channel>Security</Channel></System><EventData><Data Name='a'>b</Data><Data Name='n'>12</Data></EventData></Event>";

/// Whether a Select of this text selects the event.
pub(crate) fn push_event(shown: &mut Text, text: &str) -> Result<(), ValueFault> {
    let root = root_of(shown.alloc(), EVENT)?;
    push_asked(shown, text, &root)
}

/// Whether the text of `DOCUMENT ? TEXT` selects the document.
pub(crate) fn push_path(shown: &mut Text, row: &str) -> Result<(), ValueFault> {
    let (document, text) = row.split_once(" ? ").ok_or(ValueFault::BadName)?;
    let root = root_of(shown.alloc(), document)?;
    push_asked(shown, text, &root)
}

/// The channels of a QueryList, and whether it selects the event.
pub(crate) fn push_list(shown: &mut Text, document: &str) -> Result<(), ValueFault> {
    let alloc = shown.alloc();
    let root = root_of(alloc, EVENT)?;
    match read_query(&root_of(alloc, document)?) {
        Ok(list) => push_channels(shown, &list, &root),
        Err(fault) => Ok(push_fault(shown, fault)?),
    }
}

fn push_channels(shown: &mut Text, list: &QueryList, root: &Element) -> Result<(), ValueFault> {
    shown.push_str("channels")?;
    for name in channels(shown.alloc(), list)?.as_slice() {
        shown.push_str(" ")?;
        shown.push_str(name.as_text().as_str())?;
    }
    shown.push_str(", ")?;
    push_answer(shown, list, root)?;
    let copy = list.clone(shown.alloc())?;
    shown.push_str(", copied ")?;
    push_answer(shown, &copy, root)
}

fn push_asked(shown: &mut Text, text: &str, root: &Element) -> Result<(), ValueFault> {
    let asking = asking(shown.alloc(), text)?;
    match read_query(&asking) {
        Ok(list) => push_answer(shown, &list, root),
        Err(fault) => Ok(push_fault(shown, fault)?),
    }
}

fn push_answer(shown: &mut Text, list: &QueryList, root: &Element) -> Result<(), ValueFault> {
    let channel = security(shown.alloc())?;
    Ok(shown.push_str(if selected(list, &channel, root) {
        "yes"
    } else {
        "no"
    })?)
}

/// The QueryList of one Select of this text on the channel of the rows.
fn asking(alloc: Global, text: &str) -> Result<Element, ValueFault> {
    let mut attributes = List::new(alloc);
    let channel = security(alloc)?.as_text().clone()?;
    attributes.push(with_value(alloc, no_space(alloc)?, "Path", channel)?)?;
    let text = Text::from_str(alloc, text)?;
    let select = with_attributes(no_space(alloc)?, "Select", attributes, text)?;
    around(alloc, "QueryList", around(alloc, "Query", select)?)
}

/// An element of one child.
fn around(alloc: Global, name: &str, child: Element) -> Result<Element, ValueFault> {
    let mut children = List::new(alloc);
    children.push(child)?;
    Ok(with_elements(no_space(alloc)?, name, children)?)
}

fn security(alloc: Global) -> Result<ChannelName, ValueFault> {
    ChannelName::read(&Text::from_str(alloc, "Security")?)
}

fn no_space(alloc: Global) -> Result<Namespace, ValueFault> {
    Ok(Namespace::new(Text::new(alloc))?)
}

fn root_of(alloc: Global, document: &str) -> Result<Element, ValueFault> {
    match read_tree(alloc, document.as_bytes(), Charset::Utf8) {
        Ok(root) => Ok(root),
        Err(TreeFault::NoMemory) => Err(ValueFault::NoMemory),
        Err(_) => Err(ValueFault::BadName),
    }
}
