//! The text of an element.

ghost use Rattle.std.specs.Prelude.{◌≡◌, ◌++◌, IfOk, OnOk};
ghost use Rattle.wef_elements.specs.Texts.{said_in, text_in, text_inside};

use std::alloc::AllocError;
use wef_base::{Element, Node, Text};

/// What an element says: all text inside it, without the spaces at both ends.
pub fn said_in(element: &Element) -> Result<Text, AllocError>
    ensures { IfOk result (λ text. text ≡ said_in element.now) }
{
    text_inside(element)?.trimmed()
}

/// All text inside an element, also that of elements inside it.
pub fn text_inside(element: &Element) -> Result<Text, AllocError>
    ensures { IfOk result (λ text. text ≡ text_inside element.now) }
{
    let mut text = Text::new(element.name.alloc());
    push_inside(&mut text, element)?;
    Ok(text)
}

/// Appends all text inside a node, also that of elements inside it.
#[cycle(joining)]
fn push_node(text: &mut Text, node: &Node) -> Result<(), AllocError>
    ensures { OnOk result (text.new ≡ text.old ++ text_in node.now) }
{
    match node {
        Node::Chars(characters) => text.push_str(characters.as_str()),
        Node::Element(element) => push_inside(text, element),
    }
}

/// Appends all text inside an element.
#[cycle(joining)]
fn push_inside(text: &mut Text, element: &Element) -> Result<(), AllocError>
    ensures { OnOk result (text.new ≡ text.old ++ text_inside element.now) }
{
    for child in element.children.as_slice() {
        push_node(text, child)?;
    }
    Ok(())
}
