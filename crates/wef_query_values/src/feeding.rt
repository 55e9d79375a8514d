//! The text of a place, byte by byte.

ghost use Rattle.std.specs.List.{fold};
ghost use Rattle.std.specs.Prelude.{◌≡◌, ℕ};
ghost use Rattle.wef_elements.specs.Texts.{text_in, text_inside};
ghost use Rattle.wef_query_values.specs.Places.{plain, text_at};

use crate::spots::Spot;
use wef_base::{Element, Node};

/// A reader that takes a text byte by byte.
pub(crate) trait Feed {
    /// What a byte makes of what the reader has.
    ghost step: { Self → ℕ → Self };

    fn feed(&mut self, byte: u8)
        ensures { self.new ≡ step self.old byte };
}

/// Feeds a reader the text of a place.
pub(crate) fn feed_spot<F: Feed>(reader: &mut F, spot: Spot)
    ensures { reader.new ≡ fold F.step reader.old (text_at (plain spot.entry)) }
{
    match spot {
        Spot::Whole(root) => feed_element(reader, root),
        Spot::Part(element) => feed_element(reader, element),
        Spot::Field(value) => feed_bytes(reader, value.as_str().as_bytes()),
    }
}

/// Feeds a reader all text inside an element. It goes as deep as the element does.
#[cycle(feeding)]
fn feed_element<F: Feed>(reader: &mut F, element: &Element)
    ensures { reader.new ≡ fold F.step reader.old (text_inside element.now) }
{
    for child in element.children.as_slice() {
        feed_node(reader, child);
    }
}

#[cycle(feeding)]
fn feed_node<F: Feed>(reader: &mut F, node: &Node)
    ensures { reader.new ≡ fold F.step reader.old (text_in node.now) }
{
    match node {
        Node::Element(element) => feed_element(reader, element),
        Node::Chars(text) => feed_bytes(reader, text.as_str().as_bytes()),
    }
}

/// Feeds a reader bytes.
pub(crate) fn feed_bytes<F: Feed>(reader: &mut F, bytes: &[u8])
    ensures { reader.new ≡ fold F.step reader.old bytes.now }
{
    for &byte in bytes {
        reader.feed(byte);
    }
}
