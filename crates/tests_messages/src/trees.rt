//! Trees, written out with the prefixes of written messages and no declarations.

use crate::documents::push_prefix;
use std::alloc::AllocError;
use wef_base::{Attribute, Element, Node, Text};

#[cycle(showing)]
pub(crate) fn push_element(shown: &mut Text, element: &Element) -> Result<(), AllocError> {
    shown.push_str("<")?;
    push_name(shown, element)?;
    push_attributes(shown, element.attributes.as_slice())?;
    if element.children.is_empty() {
        return shown.push_str("/>");
    }
    shown.push_str(">")?;
    for child in element.children.as_slice() {
        push_node(shown, child)?;
    }
    shown.push_str("</")?;
    push_name(shown, element)?;
    shown.push_str(">")
}

#[cycle(showing)]
fn push_node(shown: &mut Text, node: &Node) -> Result<(), AllocError> {
    match node {
        Node::Element(element) => push_element(shown, element),
        Node::Chars(text) => shown.push_str(text.as_str()),
    }
}

fn push_name(shown: &mut Text, element: &Element) -> Result<(), AllocError> {
    push_prefix(shown, element.space.as_text().as_str())?;
    shown.push_str(element.name.as_str())
}

fn push_attributes(shown: &mut Text, attributes: &[Attribute]) -> Result<(), AllocError> {
    for attribute in attributes {
        shown.push_str(" ")?;
        push_prefix(shown, attribute.space.as_text().as_str())?;
        shown.push_str(attribute.name.as_str())?;
        shown.push_str("=\"")?;
        shown.push_str(attribute.value.as_str())?;
        shown.push_str("\"")?;
    }
    Ok(())
}
