//! The collector's next request to a source, sent over a link.

ghost use Rattle.std.specs.Prelude.{◌≡◌, ◌≤◌, option_copied, IfOk};
ghost use Rattle.wef_collector.specs.Asking.{CanBeRequested};
ghost use Rattle.wef_eventing.specs.Addresses.{IsHost};
ghost use Rattle.wef_requesting.specs.Requesting.{HearsBack, Outcomes, RequestsOnce, SendsRequest, broken_by, outcome_of, outcome_by, request_of, source_path};

use std::alloc::{AllocError, Global};
use thiserror::Error;
use wef_base::moments::Moment;
use wef_base::{Bytes, Text};
use wef_collector::{Collector, CollectorFault, Request};
use wef_connections::Link;
use wef_forwarding::FrontFault;
use wef_forwarding::exchanges::{Request as Message, exchange};
use wef_front::collector_hears;
use wef_front_collector::Hears;
use wef_keeper::Keeper;
use wef_requests::write_request;

/// What became of a request.
#[derive(Clone, Copy, Debug, PartialEq, Eq)]
pub enum Outcome {
    /// The source sends, or goes on to: there is a lease from now on.
    Leased,
    /// The source doesn't begin, or sends no more.
    Cleared,
    /// What came back is no answer that the collector waits for.
    Lost,
}

/// A request that was sent, and what became of it.
#[derive(Debug, Drop)]
pub struct Sent {
    pub request: Request,
    pub outcome: Outcome,
}

/// Why no request is sent, or nobody knows what became of it.
#[derive(Clone, Copy, Debug, PartialEq, Eq, Error)]
pub enum RequestFault {
    /// Memory was wanting: for the request, for its exchange, or for what came back.
    #[error("no memory")]
    NoMemory,
    /// The link couldn't connect, or failed while it sent or read.
    #[error("the link failed")]
    LinkFailed,
    /// The collector's store failed, as it looked for the request or as it took the answer.
    #[error("the store failed")]
    StoreFailed,
}

impl From<CollectorFault> for RequestFault {
    ghost use Rattle.wef_requesting.specs.Requesting.{refused_by};

    ghost from_gives = { λ refusal fault. fault ≡ refused_by refusal };

    /// Why the collector gives no request.
    fn from(refusal: CollectorFault) -> RequestFault {
        match refusal {
            CollectorFault::NoMemory => RequestFault::NoMemory,
            _ => RequestFault::StoreFailed,
        }
    }
}

/// Sends the next request that is due at a moment to the source that it goes to, in a connection of its
/// own, and has the collector hear what comes back. None where nothing is due. Events come to the host.
/// What comes back in a response with another status than 200, 400 and 500, or in none, is lost, and so is
/// what no request waits for; the request that was sent waits on then.
pub fn request_once<L: Link, K: Keeper>(
    alloc: Global,
    link: &mut L,
    collector: &mut Collector<K>,
    host: &Text,
    now: Moment,
) -> Result<Option<Sent>, RequestFault>
    requires { IsHost host.now }
    ensures requests { RequestsOnce host.now now
        (record { memory = collector.old.memory; store = K.store collector.old.keeper; link = L.told link.old })
        (record { memory = collector.new.memory; store = K.store collector.new.keeper; link = L.told link.new }) result }
    ensures later { (L.told link.old).faults ≤ (L.told link.new).faults }
{
    match collector.next_request(host, now) {
        Ok(Some(request)) => send(alloc, link, collector, request, now),
        Ok(None) => Ok(None),
        Err(fault) => Err(RequestFault::from(fault)),
    }
}

/// Sends a request, and gives it with what became of it.
fn send<L: Link, K: Keeper>(
    alloc: Global,
    link: &mut L,
    collector: &mut Collector<K>,
    request: Request,
    now: Moment,
) -> Result<Option<Sent>, RequestFault>
    requires { CanBeRequested request }
    ensures sent { SendsRequest request now
        (record { memory = collector.old.memory; store = K.store collector.old.keeper; link = L.told link.old })
        (record { memory = collector.new.memory; store = K.store collector.new.keeper; link = L.told link.new }) result }
    ensures later { (L.told link.old).faults ≤ (L.told link.new).faults }
{
    match ask(alloc, link, collector, &request, now) {
        Ok(outcome) => Ok(Some(Sent { request, outcome })),
        Err(fault) => Err(fault),
    }
}

/// Sends a request, and has the collector hear what comes back.
#[tactic(auto, using(crate::proofs::Sending::not_written, crate::proofs::Sending::heard_so, crate::proofs::Sending::broken_so))]
fn ask<L: Link, K: Keeper>(
    alloc: Global,
    link: &mut L,
    collector: &mut Collector<K>,
    request: &Request,
    now: Moment,
) -> Result<Outcome, RequestFault>
    requires { CanBeRequested request.now }
    ensures outcome { Outcomes request.now now
        (record { memory = collector.old.memory; store = K.store collector.old.keeper; link = L.told link.old })
        (record { memory = collector.new.memory; store = K.store collector.new.keeper; link = L.told link.new }) result }
    ensures later { (L.told link.old).faults ≤ (L.told link.new).faults }
{
    let Ok(message) = request_of(alloc, request) else {
        return Err(RequestFault::NoMemory);
    };
    match exchange(alloc, link, &message) {
        Ok(envelope) => hear(alloc, collector, envelope.as_ref(), now),
        Err(fault) => Err(broken_by(fault)),
    }
}

/// The message of HTTP that a request makes.
fn request_of(alloc: Global, request: &Request) -> Result<Message, AllocError>
    requires { CanBeRequested request.now }
    ensures { IfOk result (λ message. message ≡ request_of request.now) }
{
    let path = source_path(alloc)?;
    Ok(Message {
        host: request.source.address.clone()?,
        path,
        body: write_request(alloc, request)?,
    })
}

#[tactic(auto, unfolding(crate::specs::Requesting::source_path))]
fn source_path(alloc: Global) -> Result<Text, AllocError>
    ensures { IfOk result (λ path. path ≡ source_path) }
{
    Text::from_str(alloc, "/wsman")
}

/// Why nothing is known of what came back.
fn broken_by(fault: FrontFault) -> RequestFault
    ensures { result ≡ broken_by fault }
{
    match fault {
        FrontFault::NoMemory => RequestFault::NoMemory,
        FrontFault::LinkFailed | FrontFault::Source(_) => RequestFault::LinkFailed,
    }
}

/// Has the collector hear the envelope that came back, if one did.
#[tactic(auto, using(crate::proofs::Sending::none_heard, crate::proofs::Sending::some_heard, crate::proofs::Sending::unheard_so))]
fn hear<K: Keeper>(
    alloc: Global,
    collector: &mut Collector<K>,
    envelope: Option<&Bytes>,
    now: Moment,
) -> Result<Outcome, RequestFault>
    ensures { HearsBack (option_copied envelope.entry) now collector.old.memory collector.new.memory (K.store collector.old.keeper) (K.store collector.new.keeper) result }
{
    let Some(envelope) = envelope else {
        return Ok(Outcome::Lost);
    };
    match collector_hears(alloc, collector, envelope, now) {
        Ok(hears) => outcome_by(hears),
        Err(_) => Err(RequestFault::NoMemory),
    }
}

/// What became of a request, by what the collector made of the answer.
fn outcome_by(hears: Hears) -> Result<Outcome, RequestFault>
    ensures { result ≡ outcome_by hears }
{
    match hears {
        Hears::Leased => Ok(Outcome::Leased),
        Hears::Cleared => Ok(Outcome::Cleared),
        Hears::NotAsked => Ok(Outcome::Lost),
        Hears::Unreadable => Ok(Outcome::Lost),
        Hears::Failed => Err(RequestFault::StoreFailed),
    }
}
