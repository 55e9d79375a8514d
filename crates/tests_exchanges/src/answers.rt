//! Answers to requests, written out.

use crate::replies::push_utf16;
use crate::requests::Request;
use crate::ways::Shown;
use std::alloc::AllocError;
use tests_tasks::hexadecimal::push_hexadecimal;
use wef_base::{Bytes, Charset, Element, Moment, Text};
use wef_bodies::read_offers;
use wef_envelope::actions::{ACK, ENUMERATE_RESPONSE};
use wef_envelope::{Envelope, MessageId, from_node, read_fault};
use wef_front::Answer;
use wef_tree::read_tree;

/// What is shown of the answer to a request.
pub(crate) fn push_shown(
    shown: &mut Text,
    way: Shown,
    request: &Request,
    answer: &Answer,
) -> Result<(), AllocError> {
    match way {
        Shown::Said => push_said(shown, request.charset, answer),
        Shown::SaidBehind => {
            push_utf8(shown, &request.body)?;
            shown.push_str("\n    ")?;
            push_said(shown, request.charset, answer)
        }
        Shown::Whole => push_whole(shown, request.charset, answer),
        Shown::Bytes => push_hexadecimal(shown, answer.body.as_slice()),
    }
}

/// An answer as its status and its text, which is escaped where it comes in UTF-16.
pub(crate) fn push_whole(
    shown: &mut Text,
    charset: Charset,
    answer: &Answer,
) -> Result<(), AllocError> {
    shown.push_number(u64::from(answer.status))?;
    shown.push_str(" ")?;
    match charset {
        Charset::Utf8 => push_utf8(shown, &answer.body),
        Charset::Utf16 => push_utf16(shown, answer.body.as_slice()),
    }
}

/// Appends bytes as they are, where they are a text.
pub(crate) fn push_utf8(shown: &mut Text, bytes: &Bytes) -> Result<(), AllocError> {
    shown.push_str(str::from_utf8(bytes.as_slice()).unwrap_or("no UTF-8"))
}

/// An answer, as its status and what its envelope says.
fn push_said(shown: &mut Text, charset: Charset, answer: &Answer) -> Result<(), AllocError> {
    shown.push_number(u64::from(answer.status))?;
    if answer.body.is_empty() {
        return shown.push_str(" nothing");
    }
    shown.push_str(" ")?;
    match read_tree(shown.alloc(), answer.body.as_slice(), charset) {
        Ok(root) => push_reply(shown, &root),
        Err(_) => shown.push_str("no document"),
    }
}

fn push_reply(shown: &mut Text, root: &Element) -> Result<(), AllocError> {
    match from_node(root) {
        Ok(envelope) => push_envelope(shown, &envelope),
        Err(_) => shown.push_str("no envelope"),
    }
}

fn push_envelope(shown: &mut Text, envelope: &Envelope) -> Result<(), AllocError> {
    push_content(shown, envelope)?;
    shown.push_str(" ")?;
    push_number(shown, &envelope.id)?;
    match &envelope.relates {
        Some(id) => {
            shown.push_str(" to \"")?;
            shown.push_str(id.text.as_str())?;
            shown.push_str("\"")
        }
        None => shown.push_str(" to none"),
    }
}

fn push_content(shown: &mut Text, envelope: &Envelope) -> Result<(), AllocError> {
    match envelope.body.as_slice() {
        elements if envelope.action.as_str() == ENUMERATE_RESPONSE => push_offers(shown, elements),
        [element, ..] => push_fault(shown, element),
        _ if envelope.action.as_str() == ACK => shown.push_str("Ack"),
        _ => shown.push_str("another action"),
    }
}

/// Offers, as the addresses that batches for them go to.
fn push_offers(shown: &mut Text, body: &[Element]) -> Result<(), AllocError> {
    let Ok(offers) = read_offers(shown.alloc(), body, Moment::first()) else {
        return shown.push_str("no good offers");
    };
    if offers.is_empty() {
        return shown.push_str("no offers");
    }
    shown.push_str("offers")?;
    for offer in offers.as_slice() {
        shown.push_str(" ")?;
        shown.push_str(offer.subscribe.notify_to.as_str())?;
    }
    Ok(())
}

fn push_fault(shown: &mut Text, element: &Element) -> Result<(), AllocError> {
    match read_fault(element) {
        Ok(fault) => shown.push_str(fault.name.as_str()),
        Err(_) => shown.push_str("no fault"),
    }
}

/// The number of an id that the collector drew, or its text where it is another's.
fn push_number(shown: &mut Text, id: &MessageId) -> Result<(), AllocError> {
    let text = id.text.as_str();
    shown.push_str(
        text.strip_prefix("uuid:00000000-0000-0001-0000-00000000")
            .unwrap_or(text),
    )
}
