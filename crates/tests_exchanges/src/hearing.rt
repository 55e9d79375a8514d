//! A source that hears replies.

ghost use Rattle.std.specs.Prelude.{IfOk};
ghost use Rattle.wef_xml.specs.Good.{IsXmlText};

use crate::answers::{push_utf8, push_whole};
use crate::asking::answered;
use crate::envelopes::{ACKNOWLEDGEMENT, OFFERS};
use std::alloc::{AllocError, Global};
use tests_collectors::collectors::{base, host};
use tests_collectors::sources::{push_next, written};
use tests_tasks::deliveries::edited_from;
use wef_base::{Bytes, Charset, Moment, Text};
use wef_front::{Hears, read_reply, source_hears, write_enumerate};
use wef_ids::MessageId;
use wef_keeper::MemKeeper;
use wef_source::{Reply, SourceEnd};

/// What a source hears, and when. Each line has edits of it.
#[derive(Clone, Copy)]
pub(crate) enum Way {
    /// An acknowledgement that it waits for.
    Reply,
    /// An offer that it asked for.
    Offered,
    /// The same, which comes twice.
    Twice,
    /// An offer that it didn't ask for.
    Unasked,
    /// What a collector answers to its Enumerate, whatever the line says.
    Asked,
}

/// What a task has a source hear, where it does.
pub(crate) fn way_of(task: &str) -> Option<Way> {
    match task {
        "reply" => Some(Way::Reply),
        "offered" => Some(Way::Offered),
        "offered twice" => Some(Way::Twice),
        "unasked" => Some(Way::Unasked),
        "asked" => Some(Way::Asked),
        _ => None,
    }
}

/// What a source makes of what it hears, and what it has to send then.
pub(crate) fn push_heard(shown: &mut Text, way: Way, edits: &str) -> Result<(), AllocError> {
    let mut source = written(shown.alloc())?;
    push_heard_by(shown, &mut source, way, edits)
}

fn push_heard_by(
    shown: &mut Text,
    source: &mut SourceEnd<MemKeeper>,
    way: Way,
    edits: &str,
) -> Result<(), AllocError> {
    match way {
        Way::Reply => {
            send(source)?;
            push_made(shown, source, ACKNOWLEDGEMENT, edits)
        }
        Way::Offered => {
            ask(source)?;
            push_made(shown, source, OFFERS, edits)
        }
        Way::Twice => {
            ask(source)?;
            push_made(shown, source, OFFERS, edits)?;
            shown.push_str(" then ")?;
            push_made(shown, source, OFFERS, edits)
        }
        Way::Unasked => push_made(shown, source, OFFERS, edits),
        Way::Asked => push_exchanged(shown, source),
    }
}

/// Asks a collector for subscriptions, under the next id of the source.
#[tactic(auto, using(wef_ids::proofs::PlainIds::id_text_good))]
fn ask(source: &mut SourceEnd<MemKeeper>) -> Result<MessageId, AllocError>
    ensures { IfOk result (λ id. IsXmlText id.text) }
{
    match source.ask() {
        Ok(id) => Ok(id),
        Err(_) => Err(AllocError),
    }
}

/// Has the source ask, take an offer, and send its event under its second id.
fn send(source: &mut SourceEnd<MemKeeper>) -> Result<(), AllocError> {
    let alloc = ask(source)?.text.alloc();
    heard(alloc, source, &edited_from(alloc, OFFERS, "as it is")?)?;
    match source.poll(&base(alloc)?, Moment::first()) {
        Ok(_) => Ok(()),
        Err(_) => Err(AllocError),
    }
}

/// The Enumerate of a source, the whole answer of a collector, and what the source makes of that.
fn push_exchanged(shown: &mut Text, source: &mut SourceEnd<MemKeeper>) -> Result<(), AllocError> {
    let wish = wish(source)?;
    push_utf8(shown, &wish)?;
    shown.push_str("\n    ")?;
    let answer = answered(shown.alloc(), wish.as_slice())?;
    push_whole(shown, Charset::Utf8, &answer)?;
    shown.push_str("\n    ")?;
    push_hears(shown, source, &answer.body)
}

/// The bytes in which a source asks for its subscriptions, under its next id.
fn wish(source: &mut SourceEnd<MemKeeper>) -> Result<Bytes, AllocError> {
    let id = ask(source)?;
    let alloc = id.text.alloc();
    write_enumerate(alloc, &host(alloc)?, source.name(), &id)
}

/// What a document with edits tells, what the source makes of it, and what it has to send then.
fn push_made(
    shown: &mut Text,
    source: &mut SourceEnd<MemKeeper>,
    document: &str,
    edits: &str,
) -> Result<(), AllocError> {
    let body = edited_from(shown.alloc(), document, edits)?;
    push_read(shown, &body)?;
    push_hears(shown, source, &body)
}

/// What a reply tells: how it answers, and which message.
fn push_read(shown: &mut Text, body: &Bytes) -> Result<(), AllocError> {
    match read_reply(shown.alloc(), body.as_slice())? {
        Some((relates, reply)) => push_told(shown, &relates, &reply),
        None => shown.push_str("nothing; "),
    }
}

fn push_told(shown: &mut Text, relates: &MessageId, reply: &Reply) -> Result<(), AllocError> {
    shown.push_str(match reply {
        Reply::Ack => "Ack",
        Reply::Fault(name) => name.as_str(),
    })?;
    shown.push_str(" to \"")?;
    shown.push_str(relates.text.as_str())?;
    shown.push_str("\"; ")
}

/// What the source makes of a reply, and what it has to send then.
fn push_hears(
    shown: &mut Text,
    source: &mut SourceEnd<MemKeeper>,
    body: &Bytes,
) -> Result<(), AllocError> {
    match heard(shown.alloc(), source, body)? {
        Hears::Adopted(count) => {
            shown.push_str("adopted ")?;
            shown.push_number(count)?;
        }
        Hears::Moved => shown.push_str("moved")?,
        Hears::Refused => shown.push_str("refused")?,
        Hears::NotAsked => shown.push_str("not asked")?,
        Hears::Unreadable => shown.push_str("unreadable")?,
    }
    push_next(shown, source)
}

/// Has the source hear a reply.
fn heard(
    alloc: Global,
    source: &mut SourceEnd<MemKeeper>,
    body: &Bytes,
) -> Result<Hears, AllocError> {
    source_hears(alloc, source, body, Moment::first())
}
