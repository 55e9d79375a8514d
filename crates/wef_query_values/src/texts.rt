//! The text of a place, held against another.

ghost use Rattle.std.specs.Prelude.{◌≡◌, option_copied};
ghost use Rattle.wef_base.specs.Names.{same};
ghost use Rattle.wef_elements.specs.Texts.{text_in, text_inside};
ghost use Rattle.wef_query_values.specs.Places.{plain, text_at};
ghost use Rattle.wef_query_values.specs.Stripped.{behind};

use crate::spots::Spot;
use wef_base::{Element, Node, Text};

/// Whether the text of a place is this one, byte for byte.
#[tactic(auto, using(crate::proofs::Stripped::same_behind))]
pub(crate) fn says(spot: Spot, text: &Text) -> bool
    ensures { result ≡ same (text_at (plain spot.entry)) text.now }
{
    match strip_spot(spot, text.as_str().as_bytes()) {
        Some(rest) => rest.is_empty(),
        None => false,
    }
}

/// What stands in bytes behind the text of a place; none where they don't begin with it.
fn strip_spot<'b>(spot: Spot, bytes: &'b [u8]) -> Option<&'b [u8]>
    ensures { option_copied result ≡ behind (text_at (plain spot.entry)) bytes.now }
{
    match spot {
        Spot::Whole(root) => strip_element(root, bytes),
        Spot::Part(element) => strip_element(element, bytes),
        Spot::Field(value) => strip_bytes(value.as_str().as_bytes(), bytes),
    }
}

/// The same of all text inside an element. It goes as deep as the element does.
#[cycle(stripping)]
fn strip_element<'b>(element: &Element, bytes: &'b [u8]) -> Option<&'b [u8]>
    ensures { option_copied result ≡ behind (text_inside element.now) bytes.now }
{
    let mut rest = bytes;
    for child in element.children.as_slice() {
        let Some(more) = strip_node(child, rest) else {
            return None;
        };
        rest = more;
    }
    Some(rest)
}

#[cycle(stripping)]
fn strip_node<'b>(node: &Node, bytes: &'b [u8]) -> Option<&'b [u8]>
    ensures { option_copied result ≡ behind (text_in node.now) bytes.now }
{
    match node {
        Node::Element(element) => strip_element(element, bytes),
        Node::Chars(text) => strip_bytes(text.as_str().as_bytes(), bytes),
    }
}

fn strip_bytes<'b>(front: &[u8], bytes: &'b [u8]) -> Option<&'b [u8]>
    ensures { option_copied result ≡ behind front.now bytes.now }
{
    bytes.strip_prefix(front)
}
