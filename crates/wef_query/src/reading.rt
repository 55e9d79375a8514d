//! Lists of queries, read from trees.

ghost use Rattle.std.specs.List.{flat_map};
ghost use Rattle.std.specs.Prelude.{◌≡◌, [], ◌++◌, option_copied, IfOk, OnOk};
ghost use Rattle.std.specs.Str.{IsUtf8};
ghost use Rattle.wef_base.specs.Names.{trimmed};
ghost use Rattle.wef_elements.specs.Children.{elements_in};
ghost use Rattle.wef_query.specs.Reading.{Reads, Takes, channel_by, channel_of, characters_of, fault_in, item_of, items_from, items_in, path_said, queries_from, query_in, text_of, with_item, with_path, with_query};
ghost use Rattle.wef_query_paths.specs.Stops.{path_or_fault};

use crate::{QueryItem, QueryList};
use std::alloc::{AllocError, Global};
use thiserror::Error;
use wef_base::{Attribute, ChannelName, Element, List, Node, Text};
use wef_elements::{element_at, element_of};
use wef_query_paths::{PathFault, Shared, read_path};

/// Why an element says no list of queries.
#[derive(Clone, Copy, Debug, PartialEq, Eq, Error)]
pub enum QueryFault {
    #[error("no memory")]
    NoMemory,
    /// It isn't one by its elements, its channels or its texts: behind so many items, at a byte of the
    /// next one's text, or at 0 where the text isn't to blame.
    #[error("the query {item} isn't good at {at}")]
    BadQuery { item: usize, at: usize },
    /// There the next item's text has what XPath 1.0 has and paths of event queries lack.
    #[error("the query {item} isn't supported at {at}")]
    Unsupported { item: usize, at: usize },
    /// There a 33rd bracket would be open in the next item's text.
    #[error("the query {item} has too many brackets at {at}")]
    TooDeepQuery { item: usize, at: usize },
}

impl From<AllocError> for QueryFault {
    ghost use Rattle.std.specs.Prelude.{◌≡◌};
    ghost use Rattle.wef_query.specs.declared.reading.QueryFault.TheVariants.{NoMemory};

    ghost from_gives = { λ _ e. e ≡ NoMemory };

    fn from(_error: AllocError) -> QueryFault {
        QueryFault::NoMemory
    }
}

/// Reads the list of queries of an element QueryList (Windows' query schema). Names are local names,
/// whatever the namespace.
#[tactic(auto, unfolding(crate::specs::Reading::query_in))]
pub fn read_query(node: &Element) -> Result<QueryList, QueryFault>
    ensures { Reads result (query_in node.now) }
{
    if node.name.as_str() != "QueryList" {
        return Err(QueryFault::BadQuery { item: 0, at: 0 });
    }
    let items = items_in(node)?;
    Ok(QueryList { items })
}

/// The items of a QueryList, which holds one element or more.
fn items_in(list: &Element) -> Result<List<QueryItem>, QueryFault>
    ensures { Reads result (items_in (elements_in list.now.children)) }
{
    let nodes = list.children.as_slice();
    if element_at(nodes, 0).is_none() {
        return Err(QueryFault::BadQuery { item: 0, at: 0 });
    }
    groups_in(list.name.alloc(), nodes)
}

/// The items of the elements of a QueryList, each of which is a group.
fn groups_in(alloc: Global, nodes: &[Node]) -> Result<List<QueryItem>, QueryFault>
    ensures { Reads result (queries_from 0 [] (elements_in nodes.now)) }
{
    let mut items = List::new(alloc);
    let mut group = 0;
    for node in nodes {
        if let Some(query) = element_of(node) {
            push_query(&mut items, group, query)?;
            group += 1;
        }
    }
    Ok(items)
}

/// Appends the items of a Query, which holds one element or more.
fn push_query(items: &mut List<QueryItem>, group: u64, query: &Element) -> Result<(), QueryFault>
    ensures { Takes result (with_query group items.old query.now) items.new }
{
    let nodes = query.children.as_slice();
    if query.name.as_str() != "Query" || element_at(nodes, 0).is_none() {
        return Err(QueryFault::BadQuery {
            item: items.len(),
            at: 0,
        });
    }
    let around = channel_of(query)?;
    push_items(items, group, around.as_ref(), nodes)
}

fn push_items(
    items: &mut List<QueryItem>,
    group: u64,
    around: Option<&ChannelName>,
    nodes: &[Node],
) -> Result<(), QueryFault>
    ensures { Takes result (items_from group (option_copied around.entry) items.old (elements_in nodes.now)) items.new }
{
    for node in nodes {
        if let Some(element) = element_of(node) {
            push_item(items, group, around, element)?;
        }
    }
    Ok(())
}

fn push_item(
    items: &mut List<QueryItem>,
    group: u64,
    around: Option<&ChannelName>,
    element: &Element,
) -> Result<(), QueryFault>
    ensures { Takes result (with_item group (option_copied around.entry) items.old element.now) items.new }
{
    let item = item_of(items.len(), group, around, element)?;
    Ok(items.push(item)?)
}

/// The item that an element of a Query says, behind so many others.
fn item_of(
    before: usize,
    group: u64,
    around: Option<&ChannelName>,
    element: &Element,
) -> Result<QueryItem, QueryFault>
    ensures { Reads result (item_of before group (option_copied around.entry) element.now) }
{
    let suppress = element.name.as_str() == "Suppress";
    if !suppress && element.name.as_str() != "Select" {
        return Err(QueryFault::BadQuery {
            item: before,
            at: 0,
        });
    }
    let Some(channel) = channel_by(path_said(element.attributes.as_slice()), around)? else {
        return Err(QueryFault::BadQuery {
            item: before,
            at: 0,
        });
    };
    with_path(before, group, suppress, channel, text_of(element)?)
}

/// The item of a channel and a text, where the text says a path.
fn with_path(
    before: usize,
    group: u64,
    suppress: bool,
    channel: ChannelName,
    text: Text,
) -> Result<QueryItem, QueryFault>
    requires { trimmed text ≡ text }
    ensures { Reads result (with_path before group suppress channel text (path_or_fault text)) }
{
    match read_path(&text) {
        Ok(path) => Ok(QueryItem {
            group,
            suppress,
            channel,
            path: Shared::new(text.alloc(), path)?,
            text,
        }),
        Err(fault) => Err(fault_in(before, fault)),
    }
}

/// What is wrong with an item's text, behind so many items.
fn fault_in(before: usize, fault: PathFault) -> QueryFault
    ensures { result ≡ fault_in before fault }
{
    match fault {
        PathFault::NoMemory => QueryFault::NoMemory,
        PathFault::BadPath { at } => QueryFault::BadQuery { item: before, at },
        PathFault::Unsupported { at } => QueryFault::Unsupported { item: before, at },
        PathFault::TooDeep { at } => QueryFault::TooDeepQuery { item: before, at },
    }
}

/// The channel that the attribute Path of an element names.
fn channel_of(element: &Element) -> Result<Option<ChannelName>, AllocError>
    ensures { IfOk result (λ found. found ≡ channel_of element.now) }
{
    match path_said(element.attributes.as_slice()) {
        Some(path) => ChannelName::named(path),
        None => Ok(None),
    }
}

/// The channel of an item that says this one, in a Query of that one.
fn channel_by(
    own: Option<&Text>,
    around: Option<&ChannelName>,
) -> Result<Option<ChannelName>, AllocError>
    ensures { IfOk result (λ found. found ≡ channel_by (option_copied own.entry) (option_copied around.entry)) }
{
    if let Some(own) = own {
        return ChannelName::named(own);
    }
    match around {
        Some(channel) => Ok(Some(channel.clone()?)),
        None => Ok(None),
    }
}

/// The value of the first attribute Path.
fn path_said(attributes: &[Attribute]) -> Option<&Text>
    ensures { option_copied result ≡ path_said attributes.now }
{
    for attribute in attributes {
        if attribute.name.as_str() == "Path" {
            return Some(&attribute.value);
        }
    }
    None
}

/// The characters in an element, but not those of elements in it, without the spaces at both ends.
fn text_of(element: &Element) -> Result<Text, AllocError>
    ensures value { IfOk result (λ text. text ≡ text_of element.now) }
    ensures trimmed { IfOk result (λ text. trimmed text ≡ text) }
{
    let characters = characters_in(element)?;
    text_is_in_utf8(&characters);
    characters.trimmed()
}

/// A text is in UTF-8, since its bytes are those of a `str`.
fn text_is_in_utf8(text: &Text)
    ensures { IsUtf8 text.now }
{
    text.as_str();
}

fn characters_in(element: &Element) -> Result<Text, AllocError>
    ensures { IfOk result (λ text. text ≡ flat_map characters_of element.now.children) }
{
    let mut text = Text::new(element.name.alloc());
    for node in element.children.as_slice() {
        push_characters(&mut text, node)?;
    }
    Ok(text)
}

fn push_characters(text: &mut Text, node: &Node) -> Result<(), AllocError>
    ensures { OnOk result (text.new ≡ text.old ++ characters_of node.now) }
{
    match node {
        Node::Chars(characters) => text.push_str(characters.as_str()),
        Node::Element(_) => Ok(()),
    }
}
