//! What a collector asks of sources by itself, call by call, and what it makes of their answers.

ghost use Rattle.std.specs.Prelude.{◌≡◌, ◌≤◌, Some, IfOk, IfSome};
ghost use Rattle.wef_collector.specs.Asking.{CanBeRequested};
ghost use Rattle.wef_collector.specs.Responses.{CanBeTaken};
ghost use Rattle.wef_documents.specs.Kept.{read_kept};
ghost use Rattle.wef_documents.specs.Written.{document_text};
ghost use Rattle.wef_times.specs.declared.durations.TheConstants.{LIMIT};
ghost use Rattle.wef_xml.specs.Good.{IsXmlText};

use crate::leases::{cut, cut_number, moment};
use crate::pairs::{document, source, subscription};
use std::alloc::{AllocError, Global};
use tests_collectors::collectors::host;
use wef_base::Text;
use wef_bodies::Body;
use wef_collector::{Answered, Collector, CollectorFault, Request, Response};
use wef_documents::read_document;
use wef_eventing::Subscription;
use wef_ids::{FaultName, MessageId, id_text};
use wef_keeper::MemKeeper;
use wef_requests::write_request;
use wef_times::durations::LIMIT;

/// Appends what a new collector of boot 1 answers to steps, one after the other.
pub(crate) fn push_asked(shown: &mut Text, line: &str) -> Result<(), AllocError> {
    let alloc = shown.alloc();
    match Collector::start(alloc, MemKeeper::new(alloc)) {
        Ok(mut collector) => push_steps(shown, &mut collector, line),
        Err(_) => Err(AllocError),
    }
}

fn push_steps(
    shown: &mut Text,
    collector: &mut Collector<MemKeeper>,
    line: &str,
) -> Result<(), AllocError> {
    let mut is_first = true;
    for step in line.split("; ") {
        if !is_first {
            shown.push_str("; ")?;
        }
        push_step(shown, collector, step)?;
        is_first = false;
    }
    Ok(())
}

fn push_step(
    shown: &mut Text,
    collector: &mut Collector<MemKeeper>,
    step: &str,
) -> Result<(), AllocError> {
    let (call, rest) = cut(step);
    match call {
        "live" => push_added(shown, collector, rest),
        "end" => push_ended(shown, collector, rest),
        "ask" => push_request(shown, collector, cut_number(rest).0),
        "bytes" => push_bytes(shown, collector, cut_number(rest).0),
        "gone" => push_gone(shown, collector, rest),
        "forget" => push_forgotten(shown, collector),
        "release" => push_done(shown, collector.release()),
        "fail" => push_armed(shown, collector, rest == "after"),
        _ => push_response(shown, collector, call, rest),
    }
}

/// What is said of a call that gives nothing.
fn push_done(shown: &mut Text, done: Result<(), CollectorFault>) -> Result<(), AllocError> {
    match done {
        Ok(()) => shown.push_str("done"),
        Err(fault) => push_fault(shown, fault),
    }
}

fn push_fault(shown: &mut Text, fault: CollectorFault) -> Result<(), AllocError> {
    match fault {
        CollectorFault::NoMemory => Err(AllocError),
        CollectorFault::NotAsked => shown.push_str("not asked"),
        CollectorFault::NoSubscription => shown.push_str("unknown"),
        CollectorFault::Failed => shown.push_str("failed"),
        _ => shown.push_str("another fault"),
    }
}

/// Adds the subscription of `NAME SECONDS SOURCES`, which the collector begins.
fn push_added(
    shown: &mut Text,
    collector: &mut Collector<MemKeeper>,
    line: &str,
) -> Result<(), AllocError> {
    let (name, rest) = cut(line);
    let (seconds, sources) = cut(rest);
    let text = document(shown.alloc(), name, "CollectorInitiated", seconds, sources)?;
    let subscription = read_subscription(&text)?;
    push_done(shown, collector.add(&subscription))
}

/// The subscription of a document.
fn read_subscription(text: &Text) -> Result<Subscription, AllocError>
    ensures { IfOk result (λ subscription. read_kept subscription.name (document_text subscription) ≡ Some subscription) }
{
    match read_document(text.alloc(), text.as_str().as_bytes()) {
        Ok(subscription) => Ok(subscription),
        Err(_) => Err(AllocError),
    }
}

fn push_ended(
    shown: &mut Text,
    collector: &mut Collector<MemKeeper>,
    name: &str,
) -> Result<(), AllocError> {
    let sub = subscription(shown.alloc(), name)?;
    push_done(shown, collector.end(&sub))
}

/// The next request at a moment, and the number of its id.
fn push_request(
    shown: &mut Text,
    collector: &mut Collector<MemKeeper>,
    at: u64,
) -> Result<(), AllocError> {
    let host = host(shown.alloc())?;
    match collector.next_request(&host, moment(at)) {
        Ok(Some(request)) => push_asking(shown, &request),
        Ok(None) => shown.push_str("nothing"),
        Err(fault) => push_fault(shown, fault),
    }
}

fn push_asking(shown: &mut Text, request: &Request) -> Result<(), AllocError> {
    shown.push_str(verb_of(&request.body))?;
    shown.push_str(" ")?;
    if let Some(identifier) = &request.identifier {
        shown.push_str(identifier.as_str())?;
        shown.push_str(" of ")?;
    }
    shown.push_str(request.sub.as_text().as_str())?;
    shown.push_str(" at ")?;
    shown.push_str(request.source.name.as_text().as_str())?;
    shown.push_str(" as ")?;
    shown.push_number(number_of(&request.id))
}

fn verb_of(body: &Body) -> &'static str {
    match body {
        Body::Subscribe(_) => "subscribe",
        Body::Renew { .. } => "renew",
        Body::Unsubscribe => "unsubscribe",
        _ => "another",
    }
}

/// The number of an id that a collector of boot 1 draws.
fn number_of(id: &MessageId) -> u64 {
    let value = id.value.unwrap_or(0) % MessageId::of(1, 0);
    u64::try_from(value).unwrap_or(0)
}

/// The bytes of the next request, in UTF-8.
fn push_bytes(
    shown: &mut Text,
    collector: &mut Collector<MemKeeper>,
    at: u64,
) -> Result<(), AllocError> {
    let host = host(shown.alloc())?;
    match collector.next_request(&host, moment(at)) {
        Ok(Some(request)) => push_written(shown, &request),
        Ok(None) => shown.push_str("nothing"),
        Err(fault) => push_fault(shown, fault),
    }
}

fn push_written(shown: &mut Text, request: &Request) -> Result<(), AllocError>
    requires { CanBeRequested request.now }
{
    let bytes = write_request(shown.alloc(), request)?;
    match std::str::from_utf8(bytes.as_slice()) {
        Ok(text) => shown.push_str(text),
        Err(_) => Err(AllocError),
    }
}

/// What is said of the end of the session `NAME SOURCE IDENTIFIER`, which the source tells.
fn push_gone(
    shown: &mut Text,
    collector: &mut Collector<MemKeeper>,
    line: &str,
) -> Result<(), AllocError> {
    let alloc = shown.alloc();
    let (name, rest) = cut(line);
    let (at, identifier) = cut(rest);
    let (sub, source) = (subscription(alloc, name)?, source(alloc, at)?);
    let identifier = Text::from_str(alloc, identifier)?;
    push_done(shown, collector.source_ended(&sub, &source, &identifier))
}

fn push_forgotten(
    shown: &mut Text,
    collector: &mut Collector<MemKeeper>,
) -> Result<(), AllocError> {
    collector.forget();
    shown.push_str("done")
}

/// The next commit fails, and is kept or not.
fn push_armed(
    shown: &mut Text,
    collector: &mut Collector<MemKeeper>,
    is_kept: bool,
) -> Result<(), AllocError> {
    collector.fail_next(is_kept);
    shown.push_str("armed")
}

/// What is made of the answer to the request whose id has a number: `subscribed NUMBER AT EXPIRES IDENTIFIER`,
/// `renewed NUMBER AT EXPIRES`, `unsubscribed NUMBER AT`, or any other word for a fault.
fn push_response(
    shown: &mut Text,
    collector: &mut Collector<MemKeeper>,
    call: &str,
    line: &str,
) -> Result<(), AllocError> {
    let alloc = shown.alloc();
    let (number, rest) = cut_number(line);
    let (at, rest) = cut_number(rest);
    let relates = MessageId::of_value(alloc, MessageId::of(1, number))?;
    let response = response(alloc, call, rest)?;
    match collector.on_response(&relates, &response, moment(at)) {
        Ok(Answered::Leased) => shown.push_str("leased"),
        Ok(Answered::Cleared) => shown.push_str("cleared"),
        Err(fault) => push_fault(shown, fault),
    }
}

fn response(alloc: Global, call: &str, line: &str) -> Result<Response, AllocError>
    ensures { IfOk result CanBeTaken }
{
    let (expires, rest) = cut_number(line);
    let expires = expires.min(LIMIT);
    match call {
        "subscribed" => Ok(Response::Subscribed {
            identifier: identifier(alloc, cut_number(rest).0)?,
            expires,
        }),
        "renewed" => Ok(Response::Renewed { expires }),
        "unsubscribed" => Ok(Response::Unsubscribed),
        _ => Ok(Response::Fault(FaultName::DestinationUnreachable)),
    }
}

/// The text of the id of this number that a source of boot 1 draws.
#[tactic(auto, using(wef_ids::proofs::PlainIds::id_text_good))]
fn identifier(alloc: Global, number: u64) -> Result<Text, AllocError>
    ensures { IfOk result IsXmlText }
{
    id_text(alloc, MessageId::of(1, number))
}
