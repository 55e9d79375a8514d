//! Finding where an event says its channel and its number. Namespaces don't matter, and of several
//! children of one name the first counts.

ghost use Rattle.std.specs.Prelude.{◌≡◌, option_copied, IfOk};
ghost use Rattle.wef_base.specs.Names.{trimmed};
ghost use Rattle.wef_event.specs.Paths.{channel_in, field_in, first_child, if_named, named, number_in, number_of_digits, unless_zero};

use std::alloc::AllocError;
use wef_base::numbers::read_number;
use wef_base::{ChannelName, Element, Node, Text, ValueFault};
use wef_elements::text_inside;

/// The channel of an event, where its field is a channel's name.
#[tactic(auto, unfolding(crate::specs::Paths::channel_in))]
pub(crate) fn channel_in(root: &Element) -> Result<Option<ChannelName>, AllocError>
    ensures { IfOk result (λ found. found ≡ channel_in root.now) }
{
    match field_in("Channel", root) {
        Some(field) => ChannelName::named(&text_inside(field)?),
        None => Ok(None),
    }
}

/// The number of an event, where its field is one, with spaces round it or not.
#[tactic(auto, unfolding(crate::specs::Paths::number_in))]
pub(crate) fn number_in(root: &Element) -> Result<Option<u64>, AllocError>
    ensures { IfOk result (λ found. found ≡ number_in root.now) }
{
    match field_in("EventRecordID", root) {
        Some(field) => number_of(&text_inside(field)?),
        None => Ok(None),
    }
}

fn number_of(text: &Text) -> Result<Option<u64>, AllocError>
    ensures { IfOk result (λ found. found ≡ number_of_digits (trimmed text.now)) }
{
    match read_number(text) {
        Ok(number) => Ok(unless_zero(number)),
        Err(ValueFault::NoMemory) => Err(AllocError),
        Err(_) => Ok(None),
    }
}

fn unless_zero(number: u64) -> Option<u64>
    ensures { result ≡ unless_zero number }
{
    if number > 0 { Some(number) } else { None }
}

/// The field of a name: the first child System of the root has it as its first child of this name.
fn field_in<'a>(name: &str, root: &'a Element) -> Option<&'a Element>
    ensures { option_copied result ≡ field_in name.now root.now }
{
    first_child(name, first_child("System", root)?)
}

/// The first child of a name.
pub(crate) fn first_child<'a>(name: &str, parent: &'a Element) -> Option<&'a Element>
    ensures { option_copied result ≡ first_child name.now parent.now.children }
{
    for child in parent.children.as_slice() {
        if let Some(found) = named(name, child) {
            return Some(found);
        }
    }
    None
}

/// The element that a node is, where it has this name.
pub(crate) fn named<'a>(name: &str, node: &'a Node) -> Option<&'a Element>
    ensures { option_copied result ≡ named name.now node.now }
{
    match node {
        Node::Element(element) => if_named(name, element),
        Node::Chars(_) => None,
    }
}

fn if_named<'a>(name: &str, element: &'a Element) -> Option<&'a Element>
    ensures { option_copied result ≡ if_named name.now element.now }
{
    if element.name.as_str() == name {
        Some(element)
    } else {
        None
    }
}
