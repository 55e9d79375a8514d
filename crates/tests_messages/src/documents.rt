//! Documents with short names for namespaces.

use std::alloc::{AllocError, Global};
use wef_base::{Charset, Element, Text};
use wef_tree::read_tree;
use wef_xml::messages::{
    ADDRESSING, ENUMERATION, EVENTING, MACHINE, MANAGEMENT, PROFILE, SOAP, SUBSCRIPTION, WINDOWS,
};

/// The prefixes of written messages.
const PREFIXES: &[char] = &['s', 'a', 'e', 'n', 'w', 'p', 'm', 'i', 'u'];

/// The namespace of a prefix.
fn space_of(prefix: char) -> &'static str {
    match prefix {
        's' => SOAP,
        'a' => ADDRESSING,
        'e' => EVENTING,
        'n' => ENUMERATION,
        'w' => MANAGEMENT,
        'p' => WINDOWS,
        'm' => SUBSCRIPTION,
        'i' => MACHINE,
        'u' => PROFILE,
        _ => "",
    }
}

/// The prefix of a namespace, with its colon; none for another.
pub(crate) fn push_prefix(shown: &mut Text, space: &str) -> Result<(), AllocError> {
    if space == "http://www.w3.org/XML/1998/namespace" {
        return shown.push_str("xml:");
    }
    for &prefix in PREFIXES {
        if space == space_of(prefix) {
            shown.push(prefix)?;
            return shown.push_str(":");
        }
    }
    Ok(())
}

/// The tree of a document, if it is one.
pub(crate) fn read_document(alloc: Global, line: &str) -> Result<Option<Element>, AllocError> {
    let document = expanded(alloc, line)?;
    match read_tree(alloc, document.as_str().as_bytes(), Charset::Utf8) {
        Ok(root) => Ok(Some(root)),
        Err(_) => Ok(None),
    }
}

/// The tree of an envelope with these headers.
pub(crate) fn read_headers(alloc: Global, headers: &str) -> Result<Option<Element>, AllocError> {
    let mut line = Text::from_str(alloc, "<s:Envelope $*><s:Header>")?;
    line.push_str(headers)?;
    line.push_str("</s:Header><s:Body><x/></s:Body></s:Envelope>")?;
    read_document(alloc, line.as_str())
}

fn expanded(alloc: Global, line: &str) -> Result<Text, AllocError> {
    let mut document = Text::new(alloc);
    let mut waits = false;
    for character in line.chars() {
        waits = push_next(&mut document, waits, character)?;
    }
    Ok(document)
}

/// Appends what a character stands for, and tells whether it waits for the next; `waits`: the one
/// before it does.
fn push_next(document: &mut Text, waits: bool, character: char) -> Result<bool, AllocError> {
    if !waits && character == '$' {
        return Ok(true);
    }
    if !waits {
        document.push(character)?;
    } else if character == '*' {
        push_declarations(document)?;
    } else {
        document.push_str(space_of(character))?;
    }
    Ok(false)
}

fn push_declarations(document: &mut Text) -> Result<(), AllocError> {
    for &prefix in PREFIXES {
        document.push_str(" xmlns:")?;
        document.push(prefix)?;
        document.push_str("=\"")?;
        document.push_str(space_of(prefix))?;
        document.push_str("\"")?;
    }
    Ok(())
}
