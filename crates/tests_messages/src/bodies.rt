//! Bodies, written out as what they say.

use crate::documents::read_document;
use crate::trees::push_element;
use std::alloc::{AllocError, Global};
use wef_base::{Moment, Text};
use wef_bodies::{Body, BodyFault, read_body, write_body};
use wef_bookmark::Bookmark;
use wef_envelope::actions::{
    ENUMERATE, ENUMERATE_RESPONSE, GET_STATUS, GET_STATUS_RESPONSE, RENEW, RENEW_RESPONSE,
    SUBSCRIBE, SUBSCRIBE_RESPONSE, SUBSCRIPTION_END, UNSUBSCRIBE, UNSUBSCRIBE_RESPONSE,
};
use wef_envelope::{Envelope, from_node};
use wef_eventing::{EndStatus, Offer, Subscribe};
use wef_query::QueryItem;

/// What stands for `@` and a letter in the body of a message.
const PIECES: &[(char, &str)] = &[
    ('s', "<e:Subscribe>"),
    ('S', "</e:Subscribe>"),
    (
        'd',
        "<e:Delivery Mode=\"http://schemas.dmtf.org/wbem/wsman/1/wsman/Events\">",
    ),
    ('D', "</e:Delivery>"),
    (
        'n',
        "<e:NotifyTo><a:Address>http://h/wsman/subscriptions/u/s</a:Address></e:NotifyTo>",
    ),
    (
        'g',
        "<w:Filter Dialect=\"http://schemas.microsoft.com/win/2004/08/events/eventquery\">",
    ),
    ('G', "</w:Filter>"),
    (
        'q',
        "<QueryList><Query Path=\"application\"><Select>*</Select></Query></QueryList>",
    ),
    (
        'm',
        "<e:SubscriptionManager><a:Address>http://schemas.xmlsoap.org/ws/2004/08/addressing/role/anonymous</a:Address><a:ReferenceProperties><e:Identifier>uuid:1</e:Identifier></a:ReferenceProperties></e:SubscriptionManager>",
    ),
    ('r', "<n:EnumerateResponse><w:Items>"),
    ('R', "</w:Items></n:EnumerateResponse>"),
    (
        'h',
        "<s:Header><a:Action>http://schemas.xmlsoap.org/ws/2004/08/eventing/Subscribe</a:Action><a:MessageID>M</a:MessageID></s:Header>",
    ),
];

/// What the body of a message says at the beginning of the year 2000: `ACTION BODY`.
pub(crate) fn push_body(shown: &mut Text, line: &str) -> Result<(), AllocError> {
    push_line(shown, false, line)
}

/// The body that is written for what such a message says.
pub(crate) fn push_again(shown: &mut Text, line: &str) -> Result<(), AllocError> {
    push_line(shown, true, line)
}

/// What a body says, or else its elements as they are written.
fn push_line(shown: &mut Text, written: bool, line: &str) -> Result<(), AllocError> {
    let Some((action, body)) = line.split_once(' ') else {
        return shown.push_str("no message");
    };
    let document = document_of(shown.alloc(), action_of(action), body)?;
    let Some(root) = read_document(shown.alloc(), document.as_str())? else {
        return shown.push_str("no document");
    };
    match &from_node(&root) {
        Ok(envelope) => push_read(shown, written, envelope),
        Err(_) => shown.push_str("no envelope"),
    }
}

/// The action of a name.
fn action_of(name: &str) -> &str {
    match name {
        "Enumerate" => ENUMERATE,
        "EnumerateResponse" => ENUMERATE_RESPONSE,
        "Subscribe" => SUBSCRIBE,
        "SubscribeResponse" => SUBSCRIBE_RESPONSE,
        "Renew" => RENEW,
        "RenewResponse" => RENEW_RESPONSE,
        "GetStatus" => GET_STATUS,
        "GetStatusResponse" => GET_STATUS_RESPONSE,
        "Unsubscribe" => UNSUBSCRIBE,
        "UnsubscribeResponse" => UNSUBSCRIBE_RESPONSE,
        "SubscriptionEnd" => SUBSCRIPTION_END,
        _ => name,
    }
}

fn document_of(alloc: Global, action: &str, body: &str) -> Result<Text, AllocError> {
    let mut document = Text::from_str(alloc, "<s:Envelope $*><s:Header><a:Action>")?;
    document.push_str(action)?;
    document.push_str("</a:Action><a:MessageID>M</a:MessageID></s:Header><s:Body>")?;
    let mut waits = false;
    for character in body.chars() {
        waits = push_next(&mut document, waits, character)?;
    }
    document.push_str("</s:Body></s:Envelope>")?;
    Ok(document)
}

/// Appends what a character stands for, and tells whether it waits for the next; `waits`: the one
/// before it does.
fn push_next(document: &mut Text, waits: bool, character: char) -> Result<bool, AllocError> {
    if !waits && character == '@' {
        return Ok(true);
    }
    if waits {
        document.push_str(piece_of(character))?;
    } else {
        document.push(character)?;
    }
    Ok(false)
}

fn piece_of(letter: char) -> &'static str {
    for &(named, piece) in PIECES {
        if named == letter {
            return piece;
        }
    }
    ""
}

fn push_read(shown: &mut Text, written: bool, envelope: &Envelope) -> Result<(), AllocError> {
    let Some(now) = Moment::of(946_684_800_000) else {
        return shown.push_str("no moment");
    };
    match &read_body(envelope, now) {
        Ok(body) if written => push_elements(shown, body),
        Ok(body) => push_said(shown, body),
        Err(fault) => push_fault(shown, *fault),
    }
}

fn push_elements(shown: &mut Text, body: &Body) -> Result<(), AllocError> {
    let elements = write_body(shown.alloc(), body)?;
    shown.push_str("<s:Body>")?;
    for element in elements.as_slice() {
        push_element(shown, element)?;
    }
    shown.push_str("</s:Body>")
}

fn push_fault(shown: &mut Text, fault: BodyFault) -> Result<(), AllocError> {
    match fault {
        BodyFault::NoMemory => Err(AllocError),
        BodyFault::BadMode => shown.push_str("BadMode"),
        BodyFault::BadFilter => shown.push_str("BadFilter"),
        BodyFault::BadExpires => shown.push_str("BadExpires"),
        BodyFault::BadBody(part) => {
            let mut name = String::new(shown.alloc());
            write!(name, "BadBody {part}")?;
            shown.push_str(name.as_str())
        }
    }
}

fn push_said(shown: &mut Text, body: &Body) -> Result<(), AllocError> {
    match body {
        Body::Enumerate => shown.push_str("enumerate"),
        Body::Offers(offers) => push_offers(shown, offers.as_slice()),
        Body::Subscribe(wish) => push_wish(shown, wish),
        Body::Subscribed {
            identifier,
            expires,
        } => push_subscribed(shown, identifier, *expires),
        Body::Renew { expires } => push_number(shown, "renew; expires ", *expires),
        Body::Renewed { expires } => push_number(shown, "renewed; expires ", *expires),
        Body::GetStatus => shown.push_str("get status"),
        Body::StatusIs { expires } => push_number(shown, "status; expires ", *expires),
        Body::Unsubscribe => shown.push_str("unsubscribe"),
        Body::Unsubscribed => shown.push_str("unsubscribed"),
        Body::Ended { identifier, status } => push_end(shown, identifier, *status),
    }
}

fn push_subscribed(shown: &mut Text, identifier: &Text, expires: u64) -> Result<(), AllocError> {
    shown.push_str("subscribed ")?;
    shown.push_str(identifier.as_str())?;
    push_number(shown, "; expires ", expires)
}

fn push_end(shown: &mut Text, identifier: &Text, status: EndStatus) -> Result<(), AllocError> {
    shown.push_str("ended ")?;
    shown.push_str(identifier.as_str())?;
    shown.push_str(match status {
        EndStatus::DeliveryFailure => "; delivery failure",
        EndStatus::SourceShuttingDown => "; source shutting down",
        EndStatus::SourceCanceling => "; source canceling",
    })
}

fn push_offers(shown: &mut Text, offers: &[Offer]) -> Result<(), AllocError> {
    shown.push_str("offers")?;
    for offer in offers {
        shown.push_str(" version ")?;
        shown.push_str(offer.version.as_str())?;
        shown.push_str(", ")?;
        push_wish(shown, &offer.subscribe)?;
    }
    Ok(())
}

fn push_wish(shown: &mut Text, wish: &Subscribe) -> Result<(), AllocError> {
    shown.push_str("to ")?;
    shown.push_str(wish.notify_to.as_str())?;
    push_text(shown, "; end ", wish.end_to.as_ref())?;
    push_text(shown, "; identifier ", wish.identifier.as_ref())?;
    push_limits(shown, wish)?;
    push_bookmark(shown, &wish.from)?;
    for item in wish.query.items.as_slice() {
        push_item(shown, item)?;
    }
    Ok(())
}

fn push_text(shown: &mut Text, word: &str, text: Option<&Text>) -> Result<(), AllocError> {
    if let Some(text) = text {
        shown.push_str(word)?;
        shown.push_str(text.as_str())?;
    }
    Ok(())
}

fn push_limits(shown: &mut Text, wish: &Subscribe) -> Result<(), AllocError> {
    push_number(shown, "; items ", u64::from(wish.max_items))?;
    push_number(shown, "; bytes ", u64::from(wish.max_bytes))?;
    push_number(shown, "; beat ", wish.heartbeat)?;
    if let Some(ms) = wish.expires {
        push_number(shown, "; expires ", ms)?;
    }
    Ok(())
}

fn push_number(shown: &mut Text, word: &str, number: u64) -> Result<(), AllocError> {
    shown.push_str(word)?;
    shown.push_number(number)
}

fn push_bookmark(shown: &mut Text, from: &Bookmark) -> Result<(), AllocError> {
    for (channel, number) in from.numbers() {
        shown.push_str("; from ")?;
        shown.push_str(channel.as_text().as_str())?;
        push_number(shown, " ", *number)?;
    }
    Ok(())
}

fn push_item(shown: &mut Text, item: &QueryItem) -> Result<(), AllocError> {
    shown.push_str(if item.suppress { "; not " } else { "; of " })?;
    shown.push_str(item.channel.as_text().as_str())?;
    shown.push_str(" ")?;
    shown.push_str(item.text.as_str())
}
