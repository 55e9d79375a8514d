//! A source that answers collectors which subscribe at it.

ghost use Rattle.std.specs.List.{AllByRecursion};
ghost use Rattle.wef_source.specs.Serving.{NoteCanBeSent};

use crate::answers::{push_utf8, push_whole};
use std::alloc::{AllocError, Global};
use tests_collectors::sources::written;
use tests_tasks::deliveries::edited_from;
use tests_tasks::escapes::unescaped;
use tests_tasks::utf16::in_utf16;
use wef_base::{Bytes, Charset, Element, Moment, Text};
use wef_bodies::{Body, read_body};
use wef_envelope::{Envelope, from_node, read_fault};
use wef_front::{Answer, source_answer, write_end};
use wef_keeper::MemKeeper;
use wef_source::{EndNote, SourceEnd};
use wef_tree::read_tree;

/// A collector's wish for the events of the subscription `link`, for a minute.
const SUBSCRIBE: &str =
    "<s:Envelope xmlns:s=\"http://www.w3.org/2003/05/soap-envelope\" xmlns:a=\"http://schemas.xmlsoap.org/ws/2004/08/addressing\" xmlns:e=\"http://schemas.xmlsoap.org/ws/2004/08/eventing\" xmlns:w=\"http://schemas.dmtf.org/wbem/wsman/1/wsman.xsd\"><s:Header><a:To>http://pc1:5985/wsman</a:To><w:ResourceURI>http://schemas.microsoft.com/wbem/wsman/1/windows/EventLog</w:ResourceURI><a:ReplyTo><a:Address>http://schemas.xmlsoap.org/ws/2004/08/addressing/role/anonymous</a:Address></a:ReplyTo><a:Action>http://schemas.xmlsoap.org/ws/2004/08/eventing/Subscribe</a:Action><a:MessageID>uuid:0A0B0C0D-0000-0000-0000-000000000001</a:MessageID></s:Header><s:Body><e:Subscribe><e:EndTo><a:Address>http://collector:5985/wsman/subscriptions/link/pc1</a:Address></e:EndTo><e:Delivery Mode=\"http://schemas.dmtf.org/wbem/wsman/1/wsman/Events\"><e:NotifyTo><a:Address>http://collector:5985/wsman/subscriptions/link/pc1</a:Address></e:NotifyTo></e:Delivery><e:Expires>PT60S</e:Expires><w:Filter Dialect=\"http://schemas.microsoft.com/win/2004/08/events/eventquery\"><QueryList><Query Path=\"application\"><Select>*</Select></Query></QueryList></w:Filter></e:Subscribe></s:Body></s:Envelope>";

/// Whether what the answers say is shown, or all of them.
#[derive(Clone, Copy)]
pub(crate) enum Way {
    Said,
    Whole,
}

/// How a task shows what a source answers, where it asks one.
pub(crate) fn way_of(task: &str) -> Option<Way> {
    match task {
        "managed" => Some(Way::Said),
        "managed whole" => Some(Way::Whole),
        _ => None,
    }
}

/// What a source of boot 1 answers to steps, one after the other, with ` then ` between them. Each is
/// `AT REQUEST EDITS`, where REQUEST is `subscribe`, or `renew` for a minute and a half, `status` or
/// `unsubscribe` of the session that is named by the source's first id; and `AT wide EDITS` a `status` in
/// UTF-16. `AT document TEXT` is a request as it stands. `AT spend LEFT` leaves so many ids at most, and `AT shut all` ends what collectors began.
pub(crate) fn push_managed(shown: &mut Text, way: Way, line: &str) -> Result<(), AllocError> {
    let mut source = written(shown.alloc())?;
    push_steps(shown, &mut source, way, line)
}

fn push_steps(
    shown: &mut Text,
    source: &mut SourceEnd<MemKeeper>,
    way: Way,
    line: &str,
) -> Result<(), AllocError> {
    let mut is_first = true;
    for step in line.split(" then ") {
        if !is_first {
            shown.push_str("\n    ")?;
        }
        push_step(shown, source, way, step)?;
        is_first = false;
    }
    Ok(())
}

fn push_step(
    shown: &mut Text,
    source: &mut SourceEnd<MemKeeper>,
    way: Way,
    step: &str,
) -> Result<(), AllocError> {
    let (at, rest) = step.split_once(' ').unwrap_or((step, ""));
    let (kind, said) = rest.split_once(' ').unwrap_or((rest, ""));
    let now = Moment::of(at.parse().unwrap_or(0)).unwrap_or(Moment::first());
    match kind {
        "spend" => push_spent(shown, source, said),
        "shut" => push_shut(shown, source),
        "wide" => {
            let body = in_utf16(shown.alloc(), &request_of(shown.alloc(), "status", said)?)?;
            push_answer(shown, source, way, Charset::Utf16, &body, now)
        }
        _ => {
            let body = request_of(shown.alloc(), kind, said)?;
            push_answer(shown, source, way, Charset::Utf8, &body, now)
        }
    }
}

/// Leaves at most so many ids, and shows how many are left.
fn push_spent(
    shown: &mut Text,
    source: &mut SourceEnd<MemKeeper>,
    left: &str,
) -> Result<(), AllocError> {
    source.spend_ids(left.parse().unwrap_or(0));
    shown.push_number(source.ids_left())
}

/// The request of a kind, with edits.
pub fn request_of(alloc: Global, kind: &str, edits: &str) -> Result<Bytes, AllocError> {
    if kind == "document" {
        return unescaped(alloc, edits);
    }
    let document = document_of(alloc, kind)?;
    edited_from(alloc, document.as_str(), edits)
}

fn document_of(alloc: Global, kind: &str) -> Result<Text, AllocError> {
    match kind {
        "subscribe" => Text::from_str(alloc, SUBSCRIBE),
        "renew" => managing(alloc, "Renew", "<e:Expires>PT90S</e:Expires>"),
        "status" => managing(alloc, "GetStatus", ""),
        _ => managing(alloc, "Unsubscribe", ""),
    }
}

/// A message about the session that is named by the first id of a source of boot 1.
fn managing(alloc: Global, name: &str, content: &str) -> Result<Text, AllocError> {
    let mut document = Text::from_str(
        alloc,
        "<s:Envelope xmlns:s=\"http://www.w3.org/2003/05/soap-envelope\" xmlns:a=\"http://schemas.xmlsoap.org/ws/2004/08/addressing\" xmlns:e=\"http://schemas.xmlsoap.org/ws/2004/08/eventing\"><s:Header><a:Action>http://schemas.xmlsoap.org/ws/2004/08/eventing/",
    )?;
    document.push_str(name)?;
    document.push_str(
        "</a:Action><a:MessageID>uuid:0A0B0C0D-0000-0000-0000-000000000002</a:MessageID><e:Identifier>uuid:00000000-0000-0001-0000-000000000001</e:Identifier></s:Header><s:Body><e:",
    )?;
    document.push_str(name)?;
    document.push_str(">")?;
    document.push_str(content)?;
    document.push_str("</e:")?;
    document.push_str(name)?;
    document.push_str("></s:Body></s:Envelope>")?;
    Ok(document)
}

fn push_answer(
    shown: &mut Text,
    source: &mut SourceEnd<MemKeeper>,
    way: Way,
    charset: Charset,
    body: &Bytes,
    now: Moment,
) -> Result<(), AllocError> {
    let answer = source_answer(shown.alloc(), source, charset, body, now)?;
    match way {
        Way::Said => push_said(shown, charset, &answer),
        Way::Whole => push_whole(shown, charset, &answer),
    }
}

/// An answer, as its status and what its envelope says.
fn push_said(shown: &mut Text, charset: Charset, answer: &Answer) -> Result<(), AllocError> {
    shown.push_number(u64::from(answer.status))?;
    shown.push_str(" ")?;
    match read_tree(shown.alloc(), answer.body.as_slice(), charset) {
        Ok(root) => push_reply(shown, &root),
        Err(_) => shown.push_str("no document"),
    }
}

fn push_reply(shown: &mut Text, root: &Element) -> Result<(), AllocError> {
    match from_node(root) {
        Ok(envelope) => push_envelope(shown, &envelope),
        Err(_) => shown.push_str("no envelope"),
    }
}

fn push_envelope(shown: &mut Text, envelope: &Envelope) -> Result<(), AllocError> {
    push_content(shown, envelope)?;
    shown.push_str(" ")?;
    shown.push_str(envelope.id.text.as_str())?;
    match &envelope.relates {
        Some(id) => {
            shown.push_str(" to ")?;
            shown.push_str(id.text.as_str())
        }
        None => shown.push_str(" to none"),
    }
}

fn push_content(shown: &mut Text, envelope: &Envelope) -> Result<(), AllocError> {
    match &read_body(envelope, Moment::first()) {
        Ok(body) => push_body(shown, body),
        Err(_) => push_fault(shown, envelope.body.as_slice()),
    }
}

fn push_body(shown: &mut Text, body: &Body) -> Result<(), AllocError> {
    match body {
        Body::Subscribed {
            identifier,
            expires,
        } => {
            shown.push_str("begun ")?;
            shown.push_str(identifier.as_str())?;
            push_time(shown, " for ", *expires)
        }
        Body::Renewed { expires } => push_time(shown, "renewed for ", *expires),
        Body::StatusIs { expires } => push_time(shown, "left ", *expires),
        Body::Unsubscribed => shown.push_str("ended"),
        _ => shown.push_str("another body"),
    }
}

fn push_time(shown: &mut Text, front: &str, milliseconds: u64) -> Result<(), AllocError> {
    shown.push_str(front)?;
    shown.push_number(milliseconds)
}

fn push_fault(shown: &mut Text, body: &[Element]) -> Result<(), AllocError> {
    let [element, ..] = body else {
        return shown.push_str("nothing");
    };
    match read_fault(element) {
        Ok(fault) => shown.push_str(fault.name.as_str()),
        Err(_) => shown.push_str("no fault"),
    }
}

/// The messages of a source that ends the sessions which collectors began.
fn push_shut(shown: &mut Text, source: &mut SourceEnd<MemKeeper>) -> Result<(), AllocError> {
    match source.shut() {
        Ok(notes) => push_ends(shown, notes.as_slice()),
        Err(_) => shown.push_str("spent"),
    }
}

fn push_ends(shown: &mut Text, notes: &[EndNote]) -> Result<(), AllocError>
    requires { AllByRecursion NoteCanBeSent notes.now }
{
    shown.push_number(notes.len() as u64)?;
    for note in notes {
        shown.push_str("\n    ")?;
        push_utf8(shown, &write_end(shown.alloc(), note)?)?;
    }
    Ok(())
}
