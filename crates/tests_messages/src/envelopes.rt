//! Envelopes, written out as what they have.

use crate::documents::{read_document, read_headers};
use crate::ids::push_both;
use crate::trees::push_element;
use std::alloc::AllocError;
use wef_base::{Element, Text};
use wef_envelope::{Envelope, EnvelopeFault, MessageId, from_node, id_in, to_node};

/// What a document says.
pub(crate) fn push_document(shown: &mut Text, line: &str) -> Result<(), AllocError> {
    let root = read_document(shown.alloc(), line)?;
    push_envelope(shown, root)
}

/// What an envelope with these headers says.
pub(crate) fn push_headers(shown: &mut Text, line: &str) -> Result<(), AllocError> {
    let root = read_headers(shown.alloc(), line)?;
    push_envelope(shown, root)
}

fn push_envelope(shown: &mut Text, root: Option<Element>) -> Result<(), AllocError> {
    let Some(root) = root else {
        return shown.push_str("no document");
    };
    match from_node(&root) {
        Ok(envelope) => push_parts(shown, &envelope),
        Err(fault) => push_fault(shown, &fault),
    }
}

fn push_fault(shown: &mut Text, fault: &EnvelopeFault) -> Result<(), AllocError> {
    match fault {
        EnvelopeFault::NoMemory => Err(AllocError),
        EnvelopeFault::NotSoap => shown.push_str("NotSoap"),
        EnvelopeFault::MustUnderstand { name } => push_refusal(shown, "MustUnderstand ", name),
        EnvelopeFault::HeaderRequired { name } => push_refusal(shown, "HeaderRequired ", name),
        EnvelopeFault::RepeatedHeader { name } => push_refusal(shown, "RepeatedHeader ", name),
    }
}

fn push_refusal(shown: &mut Text, word: &str, name: &Text) -> Result<(), AllocError> {
    shown.push_str(word)?;
    shown.push_str(name.as_str())
}

fn push_parts(shown: &mut Text, envelope: &Envelope) -> Result<(), AllocError> {
    push_text(shown, "to", envelope.to.as_ref())?;
    push_text(shown, "resource", envelope.resource.as_ref())?;
    push_text(shown, "reply to", envelope.reply_to.as_ref())?;
    push_text(shown, "action", Some(&envelope.action))?;
    push_some_id(shown, "id", Some(&envelope.id))?;
    push_some_id(shown, "relates", envelope.relates.as_ref())?;
    push_text(shown, "machine", envelope.machine.as_ref())?;
    push_text(shown, "size", envelope.max_size.as_ref())?;
    push_text(shown, "identifier", envelope.identifier.as_ref())?;
    push_rest(shown, envelope)
}

fn push_rest(shown: &mut Text, envelope: &Envelope) -> Result<(), AllocError> {
    if let Some(bookmark) = &envelope.bookmark {
        shown.push_str("bookmark ")?;
        push_element(shown, bookmark)?;
        shown.push_str("; ")?;
    }
    if envelope.ack_wanted {
        shown.push_str("ack; ")?;
    }
    shown.push_str("body")?;
    for element in envelope.body.as_slice() {
        shown.push_str(" ")?;
        push_element(shown, element)?;
    }
    Ok(())
}

fn push_text(shown: &mut Text, word: &str, text: Option<&Text>) -> Result<(), AllocError> {
    if let Some(text) = text {
        shown.push_str(word)?;
        shown.push_str(" ")?;
        shown.push_str(text.as_str())?;
        shown.push_str("; ")?;
    }
    Ok(())
}

fn push_some_id(shown: &mut Text, word: &str, id: Option<&MessageId>) -> Result<(), AllocError> {
    if let Some(id) = id {
        shown.push_str(word)?;
        shown.push_str(" ")?;
        push_both(shown, id)?;
        shown.push_str("; ")?;
    }
    Ok(())
}

/// The tree that is written for an envelope with these headers.
pub(crate) fn push_written(shown: &mut Text, line: &str) -> Result<(), AllocError> {
    let Some(root) = read_headers(shown.alloc(), line)? else {
        return shown.push_str("no document");
    };
    match from_node(&root) {
        Ok(envelope) => push_element(shown, &to_node(&envelope)?),
        Err(fault) => push_fault(shown, &fault),
    }
}

/// The id that an answer to an envelope with these headers relates to.
pub(crate) fn push_answered(shown: &mut Text, line: &str) -> Result<(), AllocError> {
    let Some(root) = read_headers(shown.alloc(), line)? else {
        return shown.push_str("no document");
    };
    match id_in(&root)? {
        Some(id) => push_both(shown, &id),
        None => shown.push_str("none"),
    }
}
