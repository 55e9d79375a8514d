//! Batches, read from the elements of a message.

ghost use Rattle.std.specs.List.{list_any};
ghost use Rattle.std.specs.Option.{option_map};
ghost use Rattle.std.specs.Prelude.{◌≡◌, [], true, option_copied, IfOk, if◌then◌else◌};
ghost use Rattle.wef_base.specs.Names.{channel_name};
ghost use Rattle.wef_batch.specs.Reading.{AreGoodTrees, AreToldNodes, AreToldTrees, IsToldNode, Opens, Reads, ReadsTo, Takes, batch_of, event_at, gone_at, gone_in, is_events, is_range, item_of, items_from, only_events, range_by, range_in, range_said, read_to, with_item, with_node};
ghost use Rattle.wef_elements.specs.Children.{element_of, is_words};
ghost use Rattle.wef_elements.specs.Values.{number_said};
ghost use Rattle.wef_event.specs.Events.{event_in, event_of, event_or_none};
ghost use Rattle.wef_xml.specs.Good.{AreGoodNodes, IsGoodElement, IsGoodNode, IsGoodTree};
ghost use Rattle.wef_xml.specs.Told.{IsTold};

use crate::items::{Batch, Item};
use std::alloc::{AllocError, Global};
use thiserror::Error;
use wef_base::{ChannelName, Element, List, Node, Text};
use wef_bookmark::{Bookmark, BookmarkFault};
use wef_elements::{
    element_at, element_of, has_words, is_management, is_words, number_said, profile_value,
    text_inside,
};
use wef_event::{Event, EventFault, event_of_node, read_event};

/// Why elements say no batch.
#[derive(Clone, Copy, Debug, PartialEq, Eq, Error)]
pub enum BatchFault {
    #[error("no memory")]
    NoMemory,
    /// The first item that isn't good, by how many stand before it.
    #[error("the item {item} isn't good")]
    BadBatch { item: usize },
    /// There isn't one element Events, or the header Bookmark isn't good.
    #[error("no batch")]
    BadHead,
}

impl From<AllocError> for BatchFault {
    ghost use Rattle.std.specs.Prelude.{◌≡◌};
    ghost use Rattle.wef_batch.specs.declared.reading.BatchFault.TheVariants.{NoMemory};

    ghost from_gives = { λ _ e. e ≡ NoMemory };

    fn from(_error: AllocError) -> BatchFault {
        BatchFault::NoMemory
    }
}

/// Reads the batch of a message: `header` is its header Bookmark, if it has one, and `ack_wanted` says
/// that the source wants to be told. An event as text is read as `read_event` reads it, so it takes no
/// more than its bytes and an event's limit; `told`: the namespaces in the elements are told apart by
/// their digests, so that an event as elements takes no longer.
pub fn read_batch(
    alloc: Global,
    header: Option<&Element>,
    ack_wanted: bool,
    told: bool,
    body: &[Element],
) -> Result<Batch, BatchFault>
    requires good { AreGoodTrees body.now }
    requires told { AreToldTrees told body.now }
    ensures { Reads result (batch_of (option_copied header.entry) ack_wanted body.now) }
{
    let Some(events) = only_events(body) else {
        return Err(BatchFault::BadHead);
    };
    let to = read_to(alloc, header)?;
    let items = items_in(alloc, told, events.children.as_slice())?;
    Ok(Batch {
        items,
        to,
        ack_wanted,
    })
}

/// The element that holds the items, where it is the only one.
fn only_events(body: &[Element]) -> Option<&Element>
    ensures { option_copied result ≡ only_events body.now }
{
    let mut rest = body;
    while let Some((element, more)) = rest.split_first() {
        rest = more;
        if is_events(element) {
            return unless_repeated(element, more);
        }
    }
    None
}

fn unless_repeated<'a>(element: &'a Element, more: &[Element]) -> Option<&'a Element>
    ensures { option_copied result ≡ (if list_any is_events more.now then None else Some element.now) }
{
    if has_events(more) {
        None
    } else {
        Some(element)
    }
}

fn has_events(elements: &[Element]) -> bool
    ensures { result ≡ list_any is_events elements.now }
{
    elements.iter().any(|element| is_events(element))
}

fn is_events(element: &Element) -> bool
    ensures { result ≡ is_events element.now }
{
    is_management("Events", element)
}

/// How far a batch reads, by its header; nothing where it has none.
fn read_to(alloc: Global, header: Option<&Element>) -> Result<Bookmark, BatchFault>
    ensures { ReadsTo result (read_to (option_copied header.entry)) }
{
    let Some(header) = header else {
        return Ok(Bookmark::new(alloc));
    };
    match Bookmark::from_node(header) {
        Ok(bookmark) => Ok(bookmark),
        Err(BookmarkFault::NoMemory) => Err(BatchFault::NoMemory),
        Err(BookmarkFault::BadBookmark) => Err(BatchFault::BadHead),
    }
}

fn items_in(alloc: Global, told: bool, nodes: &[Node]) -> Result<List<Item>, BatchFault>
    requires good { AreGoodNodes nodes.now 63 }
    requires told { AreToldNodes told nodes.now }
    ensures { Reads result (items_from [] nodes.now) }
{
    let mut items = List::new(alloc);
    for node in nodes {
        push_node(&mut items, told, node)?;
    }
    Ok(items)
}

fn push_node(items: &mut List<Item>, told: bool, node: &Node) -> Result<(), BatchFault>
    requires good { IsGoodNode node.now 63 }
    requires told { IsToldNode told node.now }
    ensures { Takes result (with_node items.old (element_of node.now) (is_words node.now)) items.new }
{
    match element_of(node) {
        Some(element) => push_item(items, item_of(told, element)?),
        None if is_words(node) => Err(BatchFault::BadBatch { item: items.len() }),
        None => Ok(()),
    }
}

fn push_item(items: &mut List<Item>, item: Option<Item>) -> Result<(), BatchFault>
    ensures { Takes result (with_item items.old item) items.new }
{
    let Some(item) = item else {
        return Err(BatchFault::BadBatch { item: items.len() });
    };
    Ok(items.push(item)?)
}

/// The item that an element says.
#[tactic(auto, unfolding(crate::specs::Reading::item_of))]
fn item_of(told: bool, element: &Element) -> Result<Option<Item>, AllocError>
    requires good { IsGoodElement element.now 63 }
    requires told { IsTold told element.now }
    ensures { IfOk result (λ found. found ≡ item_of element.now) }
{
    if is_management("Event", element) {
        return as_item(event_at(told, element)?);
    }
    if is_management("DroppedEvents", element) {
        return gone_at(element);
    }
    Ok(None)
}

fn as_item(event: Option<Event>) -> Result<Option<Item>, AllocError>
    ensures { IfOk result (λ found. found ≡ option_map (λ e. Item.Event e) event) }
{
    match event {
        Some(event) => Ok(Some(Item::Event(event))),
        None => Ok(None),
    }
}

/// The event of an element: its text says it, or its one element is it.
#[tactic(auto, unfolding(crate::specs::Reading::event_at))]
fn event_at(told: bool, element: &Element) -> Result<Option<Event>, AllocError>
    requires good { IsGoodElement element.now 63 }
    requires told { IsTold told element.now }
    ensures { IfOk result (λ found. found ≡ event_at element.now) }
{
    let nodes = element.children.as_slice();
    let Some(root) = element_at(nodes, 0) else {
        return event_of_text(&text_inside(element)?);
    };
    if element_at(nodes, 1).is_some() {
        return Ok(None);
    }
    if has_words(nodes) {
        return Ok(None);
    }
    event_of_root(told, root)
}

fn event_of_text(text: &Text) -> Result<Option<Event>, AllocError>
    ensures { IfOk result (λ found. found ≡ event_in text.now) }
{
    unless_refused(read_event(text))
}

fn event_of_root(told: bool, root: &Element) -> Result<Option<Event>, AllocError>
    requires good { IsGoodTree root.now }
    requires told { IsTold told root.now }
    ensures { IfOk result (λ found. found ≡ event_or_none (event_of true root.now)) }
{
    unless_refused(event_of_node(told, root))
}

/// The event, where reading gave one.
fn unless_refused(answer: Result<Event, EventFault>) -> Result<Option<Event>, AllocError>
    ensures { Opens answer result }
{
    match answer {
        Ok(event) => Ok(Some(event)),
        Err(EventFault::NoMemory) => Err(AllocError),
        Err(_) => Ok(None),
    }
}

/// What an element says is gone.
#[tactic(auto, unfolding(crate::specs::Reading::gone_at))]
fn gone_at(element: &Element) -> Result<Option<Item>, AllocError>
    ensures { IfOk result (λ found. found ≡ gone_at element.now) }
{
    match number_said(&text_inside(element)?)? {
        Some(count) => gone_in(element, count),
        None => Ok(None),
    }
}

fn gone_in(element: &Element, count: u64) -> Result<Option<Item>, AllocError>
    ensures { IfOk result (λ found. found ≡ gone_in element.now count) }
{
    let attributes = element.attributes.as_slice();
    let first = profile_value("First", attributes);
    let last = profile_value("Last", attributes);
    match profile_value("Channel", attributes) {
        Some(channel) => range_said(channel, first, last, count),
        None => Ok(loose(first.is_some() || last.is_some(), count)),
    }
}

fn loose(marked: bool, count: u64) -> Option<Item>
    ensures { result ≡ (if marked then None else Some (Item.Loose count)) }
{
    if marked {
        None
    } else {
        Some(Item::Loose { count })
    }
}

fn range_said(
    channel: &Text,
    first: Option<&Text>,
    last: Option<&Text>,
    count: u64,
) -> Result<Option<Item>, AllocError>
    ensures { IfOk result (λ found. found ≡ range_said channel.now (option_copied first.entry) (option_copied last.entry) count) }
{
    let Some(first) = first else {
        return Ok(None);
    };
    let Some(last) = last else {
        return Ok(None);
    };
    range_by(channel, first, last, count)
}

fn range_by(
    channel: &Text,
    first: &Text,
    last: &Text,
    count: u64,
) -> Result<Option<Item>, AllocError>
    ensures { IfOk result (λ found. found ≡ range_by (channel_name channel.now) (number_said first.now) (number_said last.now) count) }
{
    let Some(first) = number_said(first)? else {
        return Ok(None);
    };
    let Some(last) = number_said(last)? else {
        return Ok(None);
    };
    range_in(channel, first, last, count)
}

fn range_in(channel: &Text, first: u64, last: u64, count: u64) -> Result<Option<Item>, AllocError>
    ensures { IfOk result (λ found. found ≡ range_in (channel_name channel.now) first last count) }
{
    if !is_range(first, last, count) {
        return Ok(None);
    }
    match ChannelName::named(channel)? {
        Some(channel) => Ok(Some(Item::Dropped {
            channel,
            first,
            last,
        })),
        None => Ok(None),
    }
}

fn is_range(first: u64, last: u64, count: u64) -> bool
    ensures { result ≡ is_range first last count }
{
    1 <= first && first <= last && count == last - first + 1
}
