//! Trees, written out as `{namespace}name[attribute=value](child 'text')`, whose parts are left out
//! where they are empty.

ghost use Rattle.wef_xml.specs.Good.{IsGoodTree};

use std::alloc::{AllocError, Global};
use tests_tasks::hexadecimal::push_hexadecimal;
use wef_base::{Attribute, Charset, Element, List, Namespace, Node, Text, is_xml_text};
use wef_tree::{TreeFault, read_tree, write_tree};

/// Whether a text has the characters of XML alone.
pub(crate) fn push_judgement(shown: &mut Text, text: &Text) -> Result<(), AllocError> {
    shown.push_str(if is_xml_text(text)? {
        "characters of XML"
    } else {
        "another character"
    })
}

/// What reading answers, written out.
pub(crate) fn push_reading(
    shown: &mut Text,
    charset: Charset,
    bytes: &[u8],
) -> Result<(), AllocError> {
    match read_tree(shown.alloc(), bytes, charset) {
        Ok(root) => push_element(shown, &root),
        Err(fault) => push_fault(shown, fault),
    }
}

/// The one text of a document's tree, and its bytes in hexadecimal where that is in UTF-16.
pub(crate) fn push_written(
    shown: &mut Text,
    charset: Charset,
    bytes: &[u8],
) -> Result<(), AllocError> {
    match read_tree(shown.alloc(), bytes, Charset::Utf8) {
        Ok(root) => push_text(shown, charset, &root),
        Err(fault) => push_fault(shown, fault),
    }
}

fn push_text(shown: &mut Text, charset: Charset, root: &Element) -> Result<(), AllocError>
    requires { IsGoodTree root.now }
{
    match write_tree(shown.alloc(), root, charset) {
        Err(fault) => push_fault(shown, fault),
        Ok(bytes) => match str::from_utf8(bytes.as_slice()) {
            Ok(text) => shown.push_str(text),
            Err(_) => push_hexadecimal(shown, bytes.as_slice()),
        },
    }
}

/// Whether each front of a document but the whole has a fault, none behind its end.
pub(crate) fn push_cuts(
    shown: &mut Text,
    charset: Charset,
    bytes: &[u8],
) -> Result<(), AllocError> {
    for cut in 0..bytes.len() {
        if !is_faulty(shown.alloc(), charset, &bytes[..cut]) {
            shown.push_str("no fault when cut at ")?;
            return shown.push_number(cut as u64);
        }
    }
    shown.push_str("each front has a fault, and the whole is ")?;
    push_reading(shown, charset, bytes)
}

fn is_faulty(alloc: Global, charset: Charset, bytes: &[u8]) -> bool {
    match read_tree(alloc, bytes, charset) {
        Ok(_) | Err(TreeFault::NoMemory) => false,
        Err(
            TreeFault::BadCharset { at }
            | TreeFault::BadXml { at }
            | TreeFault::TooDeep { at }
            | TreeFault::Refused { at },
        ) => at <= bytes.len(),
    }
}

fn push_fault(shown: &mut Text, fault: TreeFault) -> Result<(), AllocError> {
    let (kind, at) = match fault {
        TreeFault::NoMemory => return shown.push_str("NoMemory"),
        TreeFault::BadCharset { at } => ("BadCharset ", at),
        TreeFault::BadXml { at } => ("BadXml ", at),
        TreeFault::TooDeep { at } => ("TooDeep ", at),
        TreeFault::Refused { at } => ("Refused ", at),
    };
    shown.push_str(kind)?;
    shown.push_number(at as u64)
}

#[cycle(showing)]
pub(crate) fn push_element(shown: &mut Text, element: &Element) -> Result<(), AllocError> {
    push_name(shown, &element.space, &element.name)?;
    push_attributes(shown, &element.attributes)?;
    if element.children.is_empty() {
        return Ok(());
    }
    let mut before = '(';
    for child in element.children.as_slice() {
        shown.push(before)?;
        push_node(shown, child)?;
        before = ' ';
    }
    shown.push(')')
}

#[cycle(showing)]
fn push_node(shown: &mut Text, node: &Node) -> Result<(), AllocError> {
    match node {
        Node::Element(element) => push_element(shown, element),
        Node::Chars(text) => push_quoted(shown, text),
    }
}

fn push_quoted(shown: &mut Text, text: &Text) -> Result<(), AllocError> {
    shown.push('\'')?;
    shown.push_str(text.as_str())?;
    shown.push('\'')
}

fn push_attributes(shown: &mut Text, attributes: &List<Attribute>) -> Result<(), AllocError> {
    if attributes.is_empty() {
        return Ok(());
    }
    let mut before = '[';
    for attribute in attributes.as_slice() {
        shown.push(before)?;
        push_attribute(shown, attribute)?;
        before = ' ';
    }
    shown.push(']')
}

fn push_attribute(shown: &mut Text, attribute: &Attribute) -> Result<(), AllocError> {
    push_name(shown, &attribute.space, &attribute.name)?;
    shown.push('=')?;
    shown.push_str(attribute.value.as_str())
}

fn push_name(shown: &mut Text, space: &Namespace, name: &Text) -> Result<(), AllocError> {
    let space = space.as_text();
    if !space.is_empty() {
        shown.push('{')?;
        shown.push_str(space.as_str())?;
        shown.push('}')?;
    }
    shown.push_str(name.as_str())
}
