//! A source over a link, and what comes of a response.

use crate::numbered::{list_of, push_numbered};
use crate::replies::push_escaped;
use crate::responses::response_of;
use std::alloc::{AllocError, Global};
use tests_collectors::collectors::{base, host};
use tests_collectors::sources::{push_next, written};
use wef_base::{List, Moment, Text};
use wef_connections::MemLink;
use wef_forwarding::{Exchange, FrontFault, ask_once, forward_once};
use wef_keeper::MemKeeper;
use wef_source::SourceEnd;

/// The response to an ask: the offer, without a name for its batches.
const OFFERED: &str =
    "whole 200 offers <a:ReferenceProperties><e:Identifier>base</e:Identifier></a:ReferenceProperties>";

/// Where the response of a line comes back to, and what is told.
#[derive(Clone, Copy)]
pub(crate) enum Way {
    /// To the ask.
    Ask,
    /// To the first batch of a source that has a session.
    Forwarded,
    /// To a batch of one that has asked once more.
    Asking,
    /// To the first batch, where one call of the link fails, for each call.
    Broken,
    /// To the first batch, with all that is sent, and where.
    Sent,
}

/// What a task has a source send, where it does.
pub(crate) fn way_of(task: &str) -> Option<Way> {
    match task {
        "ask" => Some(Way::Ask),
        "forwarded" => Some(Way::Forwarded),
        "asking" => Some(Way::Asking),
        "forward broken" => Some(Way::Broken),
        "forward sent" => Some(Way::Sent),
        _ => None,
    }
}

/// What comes of the response of a line, and what the source sends then.
pub(crate) fn push_forwarded(shown: &mut Text, way: Way, line: &str) -> Result<(), AllocError> {
    match way {
        Way::Broken => push_broken(shown, line),
        _ => push_over(shown, way, line, 0),
    }
}

/// The same where one call of the link fails, for the first calls of all.
fn push_broken(shown: &mut Text, line: &str) -> Result<(), AllocError> {
    for call in 1..10 {
        push_numbered(shown, call)?;
        push_over(shown, Way::Broken, line, call)?;
    }
    Ok(())
}

/// The same over a link of which the call of a number fails.
fn push_over(shown: &mut Text, way: Way, line: &str, call: u64) -> Result<(), AllocError> {
    let mut link = link_of(shown.alloc(), way, line, call)?;
    push_over_link(shown, &mut link, way)
}

fn push_over_link(shown: &mut Text, link: &mut MemLink, way: Way) -> Result<(), AllocError> {
    let mut source = written(shown.alloc())?;
    push_exchanged(shown, link, &mut source, way)
}

/// A link that brings the offer, but to an ask, and then the response of a line.
fn link_of(alloc: Global, way: Way, line: &str, call: u64) -> Result<MemLink, AllocError> {
    let mut replies = List::new(alloc);
    match way {
        Way::Ask => {}
        _ => replies.push(response_of(alloc, OFFERED)?)?,
    }
    replies.push(response_of(alloc, line)?)?;
    Ok(MemLink::of(alloc, replies, list_of(alloc, call)?))
}

fn push_exchanged(
    shown: &mut Text,
    link: &mut MemLink,
    source: &mut SourceEnd<MemKeeper>,
    way: Way,
) -> Result<(), AllocError> {
    match way {
        Way::Ask => {
            push_ask(shown, link, source)?;
            push_next(shown, source)
        }
        Way::Forwarded => {
            push_ask(&mut Text::new(shown.alloc()), link, source)?;
            push_batch(shown, link, source)
        }
        Way::Asking => {
            push_ask(&mut Text::new(shown.alloc()), link, source)?;
            let _asked = source.ask();
            push_batch(shown, link, source)
        }
        Way::Broken => {
            push_both(shown, link, source)?;
            shown.push_str("; connections ")?;
            shown.push_number(link.addresses().len() as u64)
        }
        Way::Sent => {
            push_both(shown, link, source)?;
            push_connections(shown, link)
        }
    }
}

/// Asks and forwards a batch, and says what comes of both.
fn push_both(
    shown: &mut Text,
    link: &mut MemLink,
    source: &mut SourceEnd<MemKeeper>,
) -> Result<(), AllocError> {
    push_ask(shown, link, source)?;
    shown.push_str(", ")?;
    push_batch(shown, link, source)
}

/// Asks, and says what comes of it.
fn push_ask(
    shown: &mut Text,
    link: &mut MemLink,
    source: &mut SourceEnd<MemKeeper>,
) -> Result<(), AllocError> {
    let host = host(shown.alloc())?;
    match ask_once(shown.alloc(), link, source, &host, Moment::first()) {
        Ok(Some(count)) => {
            shown.push_str("adopted ")?;
            shown.push_number(count)
        }
        Ok(None) => shown.push_str("adopted nothing"),
        Err(fault) => push_fault(shown, fault),
    }
}

/// Forwards a batch, and says what comes of it and what the source sends then.
fn push_batch(
    shown: &mut Text,
    link: &mut MemLink,
    source: &mut SourceEnd<MemKeeper>,
) -> Result<(), AllocError> {
    let sub = base(shown.alloc())?;
    match forward_once(shown.alloc(), link, source, &sub, Moment::first()) {
        Ok(exchange) => push_exchange(shown, exchange)?,
        Err(fault) => push_fault(shown, fault)?,
    }
    push_next(shown, source)
}

fn push_exchange(shown: &mut Text, exchange: Exchange) -> Result<(), AllocError> {
    match exchange {
        Exchange::Nothing => shown.push_str("nothing"),
        Exchange::Acked(count) => {
            shown.push_str("acked ")?;
            shown.push_number(u64::from(count))
        }
        Exchange::Heard => shown.push_str("heard"),
        Exchange::Refused => shown.push_str("refused"),
        Exchange::Lost => shown.push_str("lost"),
    }
}

fn push_fault(shown: &mut Text, fault: FrontFault) -> Result<(), AllocError> {
    let told = format!(in shown.alloc(); "{fault}")?;
    shown.push_str(told.as_str())
}

/// What is sent in the connections, behind the addresses.
fn push_connections(shown: &mut Text, link: &MemLink) -> Result<(), AllocError> {
    for address in link.addresses() {
        shown.push_str("\n    to ")?;
        shown.push_str(address.as_str())?;
    }
    for sent in link.sent() {
        shown.push_str("\n    ")?;
        push_escaped(shown, sent.as_slice())?;
    }
    Ok(())
}
