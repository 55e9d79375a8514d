//! The elements among nodes, by their qualified names.

ghost use Rattle.std.specs.Prelude.{◌≡◌, ◌++◌, ◌∷◌, [], option_copied, slice_get, IfOk, OnOk};
ghost use Rattle.std.specs.List.{list_all};
ghost use Rattle.wef_base.specs.Names.{is_space};
ghost use Rattle.wef_elements.specs.Children.{as_nodes, element_of, elements_in, first_called, has_words, is_called, is_words, with_attributes, with_elements, with_text};
ghost use Rattle.wef_elements.specs.Texts.{only_text};

use std::alloc::{AllocError, Global};
use wef_base::{Attribute, Element, List, Namespace, Node, Text};

/// The element that a node is.
pub fn element_of(node: &Node) -> Option<&Element>
    ensures { option_copied result ≡ element_of node.now }
{
    match node {
        Node::Element(element) => Some(element),
        Node::Chars(_) => None,
    }
}

/// The element at a place among the elements of nodes, the first at 0.
pub fn element_at(nodes: &[Node], place: usize) -> Option<&Element>
    ensures { option_copied result ≡ slice_get (elements_in nodes.now) place }
{
    let mut left = place;
    for node in nodes {
        if let Some(element) = element_of(node) {
            if left == 0 {
                return Some(element);
            }
            left -= 1;
        }
    }
    None
}

/// The first element of a namespace and a local name.
pub fn first_called<'a>(space: &str, name: &str, nodes: &'a [Node]) -> Option<&'a Element>
    ensures { option_copied result ≡ first_called space.now name.now nodes.now }
{
    for node in nodes {
        if let Some(element) = element_of(node) {
            if is_called(space, name, element) {
                return Some(element);
            }
        }
    }
    None
}

/// Whether an element has this namespace and this local name.
pub fn is_called(space: &str, name: &str, element: &Element) -> bool
    ensures { result ≡ is_called space.now name.now element.now }
{
    name == element.name.as_str() && space == element.space.as_text().as_str()
}

/// Whether there is a text among nodes that isn't spaces alone.
pub fn has_words(nodes: &[Node]) -> bool
    ensures { result ≡ has_words nodes.now }
{
    nodes.iter().any(|node| is_words(node))
}

/// Whether a node is a text that isn't spaces alone.
pub fn is_words(node: &Node) -> bool
    ensures { result ≡ is_words node.now }
{
    match node {
        Node::Element(_) => false,
        Node::Chars(text) => !are_spaces(text.as_str().as_bytes()),
    }
}

fn are_spaces(text: &[u8]) -> bool
    ensures { result ≡ list_all is_space text.now }
{
    text.iter().all(|byte| is_space(*byte))
}

fn is_space(byte: u8) -> bool
    ensures { result ≡ is_space byte }
{
    byte == b' ' || byte == b'\t' || byte == b'\n' || byte == b'\r'
}

/// Copies of the elements among nodes, which share their texts.
pub fn copy_elements(alloc: Global, nodes: &[Node]) -> Result<List<Element>, AllocError>
    ensures { IfOk result (λ copies. copies ≡ elements_in nodes.now) }
{
    let mut copies = List::new(alloc);
    for node in nodes {
        push_element(&mut copies, node)?;
    }
    Ok(copies)
}

fn push_element(copies: &mut List<Element>, node: &Node) -> Result<(), AllocError>
    ensures { OnOk result (copies.new ≡ copies.old ++ elements_in (node.now ∷ [])) }
{
    if let Some(element) = element_of(node) {
        copies.push(element.clone()?)?;
    }
    Ok(())
}

/// An element without attributes that has a text.
pub fn with_text(space: Namespace, name: &str, text: Text) -> Result<Element, AllocError>
    ensures { IfOk result (λ e. e ≡ with_text space name.now text) }
{
    let attributes = List::new(text.alloc());
    with_attributes(space, name, attributes, text)
}

/// An element that has attributes and a text.
pub fn with_attributes(
    space: Namespace,
    name: &str,
    attributes: List<Attribute>,
    text: Text,
) -> Result<Element, AllocError>
    ensures { IfOk result (λ e. e ≡ with_attributes space name.now attributes text) }
{
    let name = Text::from_str(text.alloc(), name)?;
    Ok(Element {
        space,
        name,
        attributes,
        children: only_text(text)?,
    })
}

/// A text as the children of an element.
fn only_text(text: Text) -> Result<List<Node>, AllocError>
    ensures { IfOk result (λ nodes. nodes ≡ only_text text) }
{
    let mut nodes = List::new(text.alloc());
    if !text.is_empty() {
        nodes.push(Node::Chars(text))?;
    }
    Ok(nodes)
}

/// An element without attributes that has elements.
pub fn with_elements(
    space: Namespace,
    name: &str,
    elements: List<Element>,
) -> Result<Element, AllocError>
    ensures { IfOk result (λ e. e ≡ with_elements space name.now elements) }
{
    let alloc = space.as_text().alloc();
    let name = Text::from_str(alloc, name)?;
    Ok(Element {
        space,
        name,
        attributes: List::new(alloc),
        children: as_nodes(alloc, elements)?,
    })
}

/// Elements as nodes.
fn as_nodes(alloc: Global, elements: List<Element>) -> Result<List<Node>, AllocError>
    ensures { IfOk result (λ nodes. nodes ≡ as_nodes elements) }
{
    let mut nodes = List::new(alloc);
    for element in elements.into_vec() {
        nodes.push(Node::Element(element))?;
    }
    Ok(nodes)
}
