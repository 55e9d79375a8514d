//! Bookmarks as trees.

ghost use Rattle.std.specs.Prelude.{◌≡◌, ◌≤◌, ◌∷◌, [], codes, option_copied, slice_get, IfOk, IfSome};
ghost use Rattle.wef_base.specs.declared.numbers.TheConstants.{MAX};
ghost use Rattle.wef_elements.specs.Children.{with_elements};
ghost use Rattle.wef_elements.specs.Spaces.{management};
ghost use Rattle.wef_bookmark.specs.Nodes.{Reads, Takes, WrittenIsGood, WrittenIsRead, bookmark_element, bookmark_in, channel_of, earliest, entry_element, header_of, in_header, in_list, is_entry, is_header, is_list, list_element, lists_in, marked, number_of, of_text, raised_entry, raised_node, raised_nodes};

use crate::marking::{Bookmark, BookmarkFault};
use std::alloc::{AllocError, Global};
use std::collections::BTreeMap;
use wef_base::{Attribute, ChannelName, Element, List, Node, Text};
use wef_elements::{
    digits, element_of, has_words, is_management, management, number_said, said_in, value_of,
    with_attributes, with_elements, with_text, with_value,
};
use wef_xml::spaces::no_space;

/// What a header says that has no list: nothing was read yet.
pub const EARLIEST: &str = "http://schemas.dmtf.org/wbem/wsman/1/wsman/bookmark/earliest";

impl Bookmark {
    /// Reads the bookmark of a header Bookmark (WS-Management) or of a BookmarkList. A channel that is
    /// given twice has the greater number.
    pub fn from_node(node: &Element) -> Result<Bookmark, BookmarkFault>
        ensures { Reads result (bookmark_in node.now) }
    {
        if is_header(node) {
            return in_header(node);
        }
        if is_list(node) {
            return in_list(node);
        }
        Err(BookmarkFault::BadBookmark)
    }

    /// The header Bookmark of WS-Management: a BookmarkList with the channels in the order of the names'
    /// bytes, or, where there is none, the text that says so.
    pub fn to_node(&self) -> Result<Element, AllocError>
        ensures { IfOk result (λ node. node ≡ bookmark_element self.now) }
    {
        let alloc = self.alloc();
        let entries = self.numbers();
        if entries.is_empty() {
            return empty_header(alloc);
        }
        full_header(alloc, entries)
    }
}

/// What is written for a bookmark is read as it, and is a good tree. For that its channels' names must
/// be UTF-8.
pub fn written_is_read_again()
    ensures says { WrittenIsRead }
    ensures good { WrittenIsGood }
{}

fn is_header(node: &Element) -> bool
    ensures { result ≡ is_header node.now }
{
    is_management("Bookmark", node)
}

fn is_list(node: &Element) -> bool
    ensures { result ≡ is_list node.now }
{
    node.name.as_str() == "BookmarkList"
}

fn is_entry(node: &Element) -> bool
    ensures { result ≡ is_entry node.now }
{
    node.name.as_str() == "Bookmark"
}

fn in_header(node: &Element) -> Result<Bookmark, BookmarkFault>
    ensures { Reads result (in_header node.now) }
{
    let nodes = node.children.as_slice();
    let Some(list) = list_at(nodes, 0) else {
        return of_text(&said_in(node)?);
    };
    if list_at(nodes, 1).is_some() {
        return Err(BookmarkFault::BadBookmark);
    }
    if has_words(nodes) {
        return Err(BookmarkFault::BadBookmark);
    }
    in_list(list)
}

/// The list at a place among the lists of nodes, the first at 0.
fn list_at(nodes: &[Node], place: usize) -> Option<&Element>
    ensures { option_copied result ≡ slice_get (lists_in nodes.now) place }
{
    let mut left = place;
    for node in nodes {
        match as_list(node) {
            Some(list) if left == 0 => return Some(list),
            Some(_) => left -= 1,
            None => {}
        }
    }
    None
}

/// The list that a node is.
fn as_list(node: &Node) -> Option<&Element>
    ensures { option_copied result ≡ slice_get (lists_in (node.now ∷ [])) 0 }
{
    let element = element_of(node)?;
    if is_list(element) {
        Some(element)
    } else {
        None
    }
}

#[tactic(auto, unfolding(crate::specs::Nodes::earliest, crate::specs::Nodes::of_text))]
fn of_text(text: &Text) -> Result<Bookmark, BookmarkFault>
    ensures { Reads result (of_text text.now) }
{
    if text.as_str() == EARLIEST {
        Ok(Bookmark::new(text.alloc()))
    } else {
        Err(BookmarkFault::BadBookmark)
    }
}

fn in_list(list: &Element) -> Result<Bookmark, BookmarkFault>
    ensures { Reads result (in_list list.now) }
{
    let mut bookmark = Bookmark::new(list.name.alloc());
    raise_nodes(&mut bookmark, list.children.as_slice())?;
    Ok(bookmark)
}

fn raise_nodes(bookmark: &mut Bookmark, nodes: &[Node]) -> Result<(), BookmarkFault>
    ensures { Takes result (raised_nodes bookmark.old nodes.now) bookmark.new }
{
    for node in nodes {
        raise_node(bookmark, node)?;
    }
    Ok(())
}

fn raise_node(bookmark: &mut Bookmark, node: &Node) -> Result<(), BookmarkFault>
    ensures { Takes result (raised_node bookmark.old node.now) bookmark.new }
{
    match node {
        Node::Element(element) => raise_entry(bookmark, element),
        Node::Chars(_) => Ok(()),
    }
}

fn raise_entry(bookmark: &mut Bookmark, element: &Element) -> Result<(), BookmarkFault>
    ensures { Takes result (raised_entry bookmark.old element.now) bookmark.new }
{
    if !is_entry(element) {
        return Ok(());
    }
    let Some(channel) = channel_of(element)? else {
        return Err(BookmarkFault::BadBookmark);
    };
    let Some(number) = number_of(element)? else {
        return Err(BookmarkFault::BadBookmark);
    };
    bookmark.raise(&channel, number)
}

fn channel_of(element: &Element) -> Result<Option<ChannelName>, AllocError>
    ensures { IfOk result (λ found. found ≡ channel_of element.now) }
{
    match value_of("", "Channel", element.attributes.as_slice()) {
        Some(text) => ChannelName::named(text),
        None => Ok(None),
    }
}

fn number_of(element: &Element) -> Result<Option<u64>, AllocError>
    ensures value { IfOk result (λ found. found ≡ number_of element.now) }
    ensures bound { IfOk result (λ found. IfSome found (λ n. n ≤ MAX)) }
{
    match value_of("", "RecordId", element.attributes.as_slice()) {
        Some(text) => number_said(text),
        None => Ok(None),
    }
}

fn empty_header(alloc: Global) -> Result<Element, AllocError>
    ensures { IfOk result (λ node. node ≡ header_of []) }
{
    with_text(management(alloc)?, "Bookmark", earliest(alloc)?)
}

#[tactic(auto, unfolding(crate::specs::Nodes::earliest))]
fn earliest(alloc: Global) -> Result<Text, AllocError>
    ensures { IfOk result (λ text. text ≡ earliest) }
{
    Text::from_str(alloc, EARLIEST)
}

fn full_header(alloc: Global, entries: &BTreeMap<ChannelName, u64>) -> Result<Element, AllocError>
    ensures { IfOk result (λ node. node ≡ with_elements management (codes "Bookmark") (list_element entries.now.entries ∷ [])) }
{
    let mut lists = List::new(alloc);
    lists.push(list_of(alloc, entries)?)?;
    with_elements(management(alloc)?, "Bookmark", lists)
}

fn list_of(alloc: Global, entries: &BTreeMap<ChannelName, u64>) -> Result<Element, AllocError>
    ensures { IfOk result (λ node. node ≡ list_element entries.now.entries) }
{
    let mut elements = List::new(alloc);
    for (channel, number) in entries {
        elements.push(entry_of(alloc, channel, *number)?)?;
    }
    with_elements(no_space(alloc)?, "BookmarkList", elements)
}

fn entry_of(alloc: Global, channel: &ChannelName, number: u64) -> Result<Element, AllocError>
    ensures { IfOk result (λ node. node ≡ entry_element (channel.now, number)) }
{
    let mut attributes = List::new(alloc);
    attributes.push(marked(alloc, "Channel", channel.as_text().clone()?)?)?;
    attributes.push(marked(alloc, "RecordId", digits(alloc, number)?)?)?;
    with_attributes(no_space(alloc)?, "Bookmark", attributes, Text::new(alloc))
}

/// An attribute without a namespace.
fn marked(alloc: Global, name: &str, value: Text) -> Result<Attribute, AllocError>
    ensures { IfOk result (λ a. a ≡ marked name.now value) }
{
    with_value(alloc, no_space(alloc)?, name, value)
}
