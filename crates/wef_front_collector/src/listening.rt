//! What the collector makes of the bytes of an answer to a request that it sent.

ghost use Rattle.std.specs.Prelude.{◌≡◌, ◌⊎◌, Err, IfErr, IfOk, IfSome, Result};
ghost use Rattle.wef_batch.specs.Reading.{AreGoodTrees};
ghost use Rattle.wef_bodies.specs.Reading.{body_in};
ghost use Rattle.wef_collector.specs.Responses.{CanBeTaken};
ghost use Rattle.wef_collector_rows.specs.declared.faults.CollectorFault.TheVariants.{NoMemory};
ghost use Rattle.wef_envelope.specs.Envelopes.{said};
ghost use Rattle.wef_front_collector.specs.HeardResponses.{HearsAnswer, HearsResponse, IsHeard, IsUntaken, WantsMemory, hears_of, response_in, response_of, response_read, response_told, told_by, told_in};
ghost use Rattle.wef_xml.specs.Good.{IsGoodTree};

use std::alloc::{AllocError, Global};
use wef_base::moments::Moment;
use wef_base::{Bytes, Charset, Element};
use wef_bodies::{Body, BodyFault, read_body};
use wef_collector::{Answered, Collector, CollectorFault, Response};
use wef_envelope::{Envelope, EnvelopeFault, MessageId, from_node};
use wef_keeper::Keeper;
use wef_replies::fault_among;
use wef_tree::{TreeFault, read_tree};

/// What a collector made of an answer.
#[derive(Clone, Copy, Debug, PartialEq, Eq)]
pub enum Hears {
    /// The source sends, or goes on to: there is a lease from now on.
    Leased,
    /// The source doesn't begin, or sends no more: there is no lease, or none more than before.
    Cleared,
    /// No request waits for this answer.
    NotAsked,
    /// The store failed.
    Failed,
    /// It isn't an envelope that relates to a message, or no answer that a collector knows.
    Unreadable,
}

/// Hears the bytes of an answer, in UTF-8: the first fault in the Body, whatever the action is and whatever
/// else there is; or else by the action the answer to a Subscribe, a Renew or an Unsubscribe (WS-Eventing,
/// 3.1, 3.2 and 3.4). Where there is no memory the request waits on, and the lease stays.
pub fn collector_hears<K: Keeper>(
    alloc: Global,
    collector: &mut Collector<K>,
    body: &Bytes,
    now: Moment,
) -> Result<Hears, AllocError>
    ensures heard { IfOk result (λ hears. HearsResponse (response_told now body.now) hears now collector.old.memory collector.new.memory (K.store collector.old.keeper) (K.store collector.new.keeper)) }
    ensures wants_memory { IfErr result (λ _. (collector.new ≡ collector.old) ⊎ IsUntaken (response_told now body.now) now collector.old.memory collector.new.memory (K.store collector.old.keeper) (K.store collector.new.keeper)) }
{
    let Some((relates, response)) = read_response(alloc, body.as_slice(), now)? else {
        return Ok(Hears::Unreadable);
    };
    take(collector, &relates, &response, now)
}

/// Hands an answer to the collector.
#[tactic(auto, using(crate::proofs::ResponsesHeard::hears_so))]
fn take<K: Keeper>(
    collector: &mut Collector<K>,
    relates: &MessageId,
    response: &Response,
    now: Moment,
) -> Result<Hears, AllocError>
    requires { CanBeTaken response.now }
    ensures heard { IfOk result (λ hears. HearsAnswer hears relates.now response.now now collector.old.memory collector.new.memory (K.store collector.old.keeper) (K.store collector.new.keeper)) }
    ensures wants_memory { IfErr result (λ _. WantsMemory relates.now response.now now collector.old.memory collector.new.memory (K.store collector.old.keeper) (K.store collector.new.keeper)) }
{
    heard_of(collector.on_response(relates, response, now))
}

/// What is heard of how an answer was taken. Want of memory isn't heard.
fn heard_of(done: Result<Answered, CollectorFault>) -> Result<Hears, AllocError>
    ensures heard { IfOk result (λ _. IfErr done IsHeard) }
    ensures hears { IfOk result (λ hears. hears ≡ hears_of done) }
    ensures wants_memory { IfErr result (λ _. done ≡ Err NoMemory) }
{
    match done {
        Ok(Answered::Leased) => Ok(Hears::Leased),
        Ok(Answered::Cleared) => Ok(Hears::Cleared),
        Err(CollectorFault::NoMemory) => Err(AllocError),
        Err(CollectorFault::NotAsked) => Ok(Hears::NotAsked),
        Err(_) => Ok(Hears::Failed),
    }
}

/// Reads the bytes of an answer, in UTF-8: the message that it answers, by the header RelatesTo of
/// WS-Addressing, and how. None where they aren't those of an answer that a collector knows.
pub fn read_response(
    alloc: Global,
    bytes: &[u8],
    now: Moment,
) -> Result<Option<(MessageId, Response)>, AllocError>
    ensures told { IfOk result (λ found. found ≡ response_told now bytes.now) }
    ensures taken { IfOk result (λ found. IfSome found (λ told. CanBeTaken told.1)) }
{
    match read_tree(alloc, bytes, Charset::Utf8) {
        Ok(root) => told_by(&root, now),
        Err(TreeFault::NoMemory) => Err(AllocError),
        Err(_) => Ok(None),
    }
}

#[tactic(auto, using(wef_replies::proofs::ReadIsGood::body_is_good))]
fn told_by(root: &Element, now: Moment) -> Result<Option<(MessageId, Response)>, AllocError>
    requires { IsGoodTree root.now }
    ensures told { IfOk result (λ found. found ≡ told_by now (said root.now)) }
    ensures taken { IfOk result (λ found. IfSome found (λ told. CanBeTaken told.1)) }
{
    match &from_node(root) {
        Ok(envelope) => told_in(envelope, now),
        Err(EnvelopeFault::NoMemory) => Err(AllocError),
        Err(_) => Ok(None),
    }
}

fn told_in(envelope: &Envelope, now: Moment) -> Result<Option<(MessageId, Response)>, AllocError>
    requires { AreGoodTrees envelope.now.body }
    ensures told { IfOk result (λ found. found ≡ told_in envelope.now.relates (response_in now envelope.now)) }
    ensures taken { IfOk result (λ found. IfSome found (λ told. CanBeTaken told.1)) }
{
    let Some(relates) = &envelope.relates else {
        return Ok(None);
    };
    match response_in(envelope, now)? {
        Some(response) => Ok(Some((relates.clone()?, response))),
        None => Ok(None),
    }
}

/// The answer that an envelope is.
fn response_in(envelope: &Envelope, now: Moment) -> Result<Option<Response>, AllocError>
    requires { AreGoodTrees envelope.now.body }
    ensures response { IfOk result (λ found. found ≡ response_in now envelope.now) }
    ensures taken { IfOk result (λ found. IfSome found CanBeTaken) }
{
    if let Some(name) = fault_among(envelope.body.as_slice())? {
        return Ok(Some(Response::Fault(name)));
    }
    response_read(envelope, now)
}

/// The answer that its body is. None where the body isn't good.
#[tactic(auto, using(crate::proofs::ResponsesCanBeTaken::responses_can_be_taken))]
fn response_read(envelope: &Envelope, now: Moment) -> Result<Option<Response>, AllocError>
    requires { AreGoodTrees envelope.now.body }
    ensures response { IfOk result (λ found. found ≡ response_read (body_in now envelope.now)) }
    ensures taken { IfOk result (λ found. IfSome found CanBeTaken) }
{
    match &read_body(envelope, now) {
        Ok(body) => response_of(body),
        Err(BodyFault::NoMemory) => Err(AllocError),
        Err(_) => Ok(None),
    }
}

/// The answer that a body is, if it is one.
fn response_of(body: &Body) -> Result<Option<Response>, AllocError>
    requires { IfSome (response_of body.now) CanBeTaken }
    ensures response { IfOk result (λ found. found ≡ response_of body.now) }
    ensures taken { IfOk result (λ found. IfSome found CanBeTaken) }
{
    match body {
        Body::Subscribed {
            identifier,
            expires,
        } => Ok(Some(Response::Subscribed {
            identifier: identifier.clone()?,
            expires: *expires,
        })),
        Body::Renewed { expires } => Ok(Some(Response::Renewed { expires: *expires })),
        Body::Unsubscribed => Ok(Some(Response::Unsubscribed)),
        _ => Ok(None),
    }
}
