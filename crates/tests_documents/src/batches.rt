//! Batches and bookmarks as documents. In a document `$` is the declaration of the prefixes `w` and
//! `u`.

ghost use Rattle.std.specs.Prelude.{IfOk, IfSome};
ghost use Rattle.wef_xml.specs.Good.{IsGoodTree};
ghost use Rattle.wef_batch.specs.Numbers.{AreNumbered, IsNumbered};
ghost use Rattle.wef_batch.specs.Reading.{AreGoodTrees};

use crate::trees::push_element;
use std::alloc::{AllocError, Global};
use wef_base::numbers::MAX;
use wef_base::{ChannelName, Charset, Element, List, Text};
use wef_batch::{Batch, BatchFault, Item, cost, read_batch, write_batch};
use wef_bookmark::{Bookmark, BookmarkFault};
use wef_event::read_event;
use wef_tree::read_tree;

const DECLARATIONS: &str =
    " xmlns:w=\"http://schemas.dmtf.org/wbem/wsman/1/wsman.xsd\" xmlns:u=\"urn:wef:profile\"";

/// The bookmark of a document, and the tree that is written for it.
pub(crate) fn push_bookmark(shown: &mut Text, row: &Text) -> Result<(), AllocError> {
    let Some(root) = document(shown.alloc(), row.as_str())? else {
        return shown.push_str("no document");
    };
    match Bookmark::from_node(&root) {
        Ok(bookmark) => push_read(shown, &bookmark),
        Err(BookmarkFault::NoMemory) => Err(AllocError),
        Err(BookmarkFault::BadBookmark) => shown.push_str("BadBookmark"),
    }
}

fn push_read(shown: &mut Text, bookmark: &Bookmark) -> Result<(), AllocError> {
    push_numbers(shown, bookmark)?;
    shown.push_str(" written ")?;
    push_element(shown, &bookmark.to_node()?)
}

fn push_numbers(shown: &mut Text, bookmark: &Bookmark) -> Result<(), AllocError> {
    shown.push_str("[")?;
    for (channel, number) in bookmark.numbers() {
        shown.push_str(" ")?;
        shown.push_str(channel.as_text().as_str())?;
        shown.push_str(" ")?;
        shown.push_number(*number)?;
    }
    shown.push_str(" ]")
}

/// The batch of `HEADER|ELEMENT|ELEMENT`, a header Bookmark, which may be left out, and one or two
/// elements of a body.
pub(crate) fn push_batch(shown: &mut Text, row: &Text) -> Result<(), AllocError> {
    let alloc = shown.alloc();
    let mut parts = row.as_str().split('|');
    let header = document(alloc, parts.next().unwrap_or(""))?;
    let first = document(alloc, parts.next().unwrap_or(""))?;
    let second = document(alloc, parts.next().unwrap_or(""))?;
    let body = body_of(alloc, first, second)?;
    push_answer(shown, header.as_ref(), body.as_slice())
}

fn body_of(
    alloc: Global,
    first: Option<Element>,
    second: Option<Element>,
) -> Result<List<Element>, AllocError>
    requires first { IfSome first (λ e. IsGoodTree e) }
    requires second { IfSome second (λ e. IsGoodTree e) }
    ensures { IfOk result (λ body. AreGoodTrees body) }
{
    let mut body = List::new(alloc);
    let Some(first) = first else {
        return Ok(body);
    };
    body.push(first)?;
    let Some(second) = second else {
        return Ok(body);
    };
    body.push(second)?;
    Ok(body)
}

fn push_answer(
    shown: &mut Text,
    header: Option<&Element>,
    body: &[Element],
) -> Result<(), AllocError>
    requires { AreGoodTrees body.now }
{
    match read_batch(shown.alloc(), header, false, false, body) {
        Ok(batch) => push_items(shown, &batch),
        Err(BatchFault::NoMemory) => Err(AllocError),
        Err(BatchFault::BadHead) => shown.push_str("BadHead"),
        Err(BatchFault::BadBatch { item }) => {
            shown.push_str("BadBatch ")?;
            shown.push_number(item as u64)
        }
    }
}

fn push_items(shown: &mut Text, batch: &Batch) -> Result<(), AllocError> {
    for item in batch.items.as_slice() {
        push_item(shown, item)?;
        shown.push_str(" costs ")?;
        shown.push_number(cost(item))?;
        shown.push_str("; ")?;
    }
    shown.push_str("to ")?;
    push_numbers(shown, &batch.to)
}

fn push_item(shown: &mut Text, item: &Item) -> Result<(), AllocError> {
    match item {
        Item::Event(event) => push_range(shown, "event ", &event.channel, event.number, None),
        Item::Dropped {
            channel,
            first,
            last,
        } => push_range(shown, "dropped ", channel, *first, Some(*last)),
        Item::Loose { count } => {
            shown.push_str("loose ")?;
            shown.push_number(*count)
        }
    }
}

fn push_range(
    shown: &mut Text,
    kind: &str,
    channel: &ChannelName,
    first: u64,
    last: Option<u64>,
) -> Result<(), AllocError> {
    shown.push_str(kind)?;
    shown.push_str(channel.as_text().as_str())?;
    shown.push_str(" ")?;
    shown.push_number(first)?;
    if let Some(last) = last {
        shown.push_str("-")?;
        shown.push_number(last)?;
    }
    Ok(())
}

/// What an item costs, and the tree that is written for the batch that has it alone: of an event by
/// its document, of `dropped CHANNEL FIRST LAST` or of `loose COUNT`.
pub(crate) fn push_written_item(shown: &mut Text, row: &Text) -> Result<(), AllocError> {
    let alloc = shown.alloc();
    let words = row.as_str();
    if let Some(words) = words.strip_prefix("dropped ") {
        return push_dropped(shown, alloc, words);
    }
    if let Some(count) = words.strip_prefix("loose ") {
        let count = count.parse::<u64>().unwrap_or(0);
        return push_alone(shown, Item::Loose { count });
    }
    match read_event(row) {
        Ok(event) => push_alone(shown, Item::Event(event)),
        Err(_) => shown.push_str("no event"),
    }
}

fn push_dropped(shown: &mut Text, alloc: Global, words: &str) -> Result<(), AllocError> {
    let Some((name, range)) = words.split_once(' ') else {
        return shown.push_str("no item");
    };
    let Some((first, last)) = range.split_once(' ') else {
        return shown.push_str("no item");
    };
    let Ok(channel) = ChannelName::read(&Text::from_str(alloc, name)?) else {
        return shown.push_str("no item");
    };
    let first = first.parse::<u64>().unwrap_or(0).min(MAX);
    let last = last.parse::<u64>().unwrap_or(0).min(MAX);
    push_alone(
        shown,
        Item::Dropped {
            channel,
            first,
            last,
        },
    )
}

fn push_alone(shown: &mut Text, item: Item) -> Result<(), AllocError>
    requires { IsNumbered item }
{
    let alloc = shown.alloc();
    shown.push_str("costs ")?;
    shown.push_number(cost(&item))?;
    shown.push_str(" as ")?;
    let mut items = List::new(alloc);
    items.push(item)?;
    push_tree(
        shown,
        &Batch {
            items,
            to: Bookmark::new(alloc),
            ack_wanted: false,
        },
    )
}

fn push_tree(shown: &mut Text, batch: &Batch) -> Result<(), AllocError>
    requires { AreNumbered batch.now.items }
{
    for element in write_batch(shown.alloc(), batch)?.as_slice() {
        push_element(shown, element)?;
    }
    Ok(())
}

/// The tree of a document, if it is one.
fn document(alloc: Global, row: &str) -> Result<Option<Element>, AllocError>
    ensures { IfOk result (λ found. IfSome found (λ e. IsGoodTree e)) }
{
    let text = expanded(alloc, row)?;
    match read_tree(alloc, text.as_str().as_bytes(), Charset::Utf8) {
        Ok(root) => Ok(Some(root)),
        Err(_) => Ok(None),
    }
}

fn expanded(alloc: Global, row: &str) -> Result<Text, AllocError> {
    let mut text = Text::new(alloc);
    for character in row.chars() {
        if character == '$' {
            text.push_str(DECLARATIONS)?;
        } else {
            text.push(character)?;
        }
    }
    Ok(text)
}
