//! A session's next message, forwarded.

ghost use Rattle.std.specs.Prelude.{◌≡◌, ◌≤◌, false, IfOk};
ghost use Rattle.wef_forwarding.specs.Exchanges.{Replied, answer_to, request_of, request_of_beat, request_to};
ghost use Rattle.wef_forwarding.specs.Forwarding.{Ends, Forwards, IsAwaited, IsBeaten, IsDelivered, Settles, answered_in, count_of, outcome_of, refusal_of};
ghost use Rattle.wef_front_source.specs.HeardReplies.{told};
ghost use Rattle.wef_front_source.specs.Sending.{BeatCanBeWritten, CanBeWritten};
ghost use Rattle.wef_keeper.specs.Access.{OpensAndReads};
ghost use Rattle.wef_keeper.specs.Calls.{fails};
ghost use Rattle.wef_source.specs.Answers.{may_send};
ghost use Rattle.wef_building.specs.Faults.{source_store};
ghost use Rattle.wef_source.specs.Machine.{lost_in};
ghost use Rattle.wef_source.specs.Sessions.{session_of};
ghost use Rattle.wef_source_log.specs.Forms.{AreFormed};

use crate::addresses::{authority_of, path_of};
use crate::exchanges::{FrontFault, Request, exchange};
use std::alloc::{AllocError, Global};
use wef_base::moments::Moment;
use wef_base::{Bytes, SubId, Text};
use wef_connections::Link;
use wef_front::{read_reply, write_beat, write_delivery};
use wef_heartbeat::Heartbeat;
use wef_ids::MessageId;
use wef_keeper::Keeper;
use wef_source::{Delivery, Moved, Poll, Reply, SourceEnd};

/// What became of a session's next message.
#[derive(Clone, Copy, Debug, PartialEq, Eq)]
pub enum Exchange {
    /// There was nothing to send.
    Nothing,
    /// The batch is kept: so many items.
    Acked(u32),
    /// It was a heartbeat, and the collector heard it.
    Heard,
    /// It was refused.
    Refused,
    /// What came back is no answer to it.
    Lost,
}

/// Polls a session at a moment, sends what it has to send to where it goes, in a connection of its own,
/// and does what the reply says. Whoever replies otherwise than with an acknowledgement or a fault of
/// this very message, or in a response other than 200, 400 and 500, has lost it: the source sends a batch
/// again from where it was. The store is used by the poll alone.
#[tactic(auto, using(crate::proofs::Forwarded::refused_forwards, crate::proofs::Forwarded::refused_settles, crate::proofs::Forwarded::refused_reads))]
pub fn forward_once<L: Link, K: Keeper>(
    alloc: Global,
    link: &mut L,
    source: &mut SourceEnd<K>,
    sub: &SubId,
    now: Moment,
) -> Result<Exchange, FrontFault>
    ensures forwards { Forwards (K.store source.new.keeper).rows source.old.memory source.new.memory sub.now now (L.told link.old) (L.told link.new) result }
    ensures settled { Settles source.new.memory sub.now result }
    ensures later { (L.told link.old).faults ≤ (L.told link.new).faults }
    ensures reads { OpensAndReads AreFormed (fails source_store (refusal_of result)) (K.store source.old.keeper) (K.store source.new.keeper) }
    ensures untouched { may_send now (session_of source.old.memory.sessions sub.now) ≡ false → source.new.keeper ≡ source.old.keeper }
    ensures name { source.new.name ≡ source.old.name }
{
    source.sessions_are_kept();
    match source.poll(sub, now) {
        Ok(Poll::Send(delivery)) => deliver(alloc, link, source, sub, &delivery),
        Ok(Poll::Beat(beat)) => tell_beat(alloc, link, source, sub, &beat),
        Ok(Poll::Nothing) => Ok(Exchange::Nothing),
        Err(refusal) => Err(FrontFault::from(refusal)),
    }
}

/// Sends a delivery of the session of a name, and does what comes back.
fn deliver<L: Link, K: Keeper>(
    alloc: Global,
    link: &mut L,
    source: &mut SourceEnd<K>,
    sub: &SubId,
    delivery: &Delivery,
) -> Result<Exchange, FrontFault>
    requires written { CanBeWritten delivery.now }
    requires awaited { IsAwaited source.old.memory delivery.now.id }
    ensures exchanged { IsDelivered delivery.now sub.now (L.told link.old) (L.told link.new) source.old.memory source.new.memory result }
    ensures later { (L.told link.old).faults ≤ (L.told link.new).faults }
    ensures keeper { source.new.keeper ≡ source.old.keeper }
    ensures name { source.new.name ≡ source.old.name }
{
    let answer = reply_to_delivery(alloc, link, delivery);
    let acked = Exchange::Acked(count_of(delivery));
    settle(source, sub, &delivery.id, acked, answer)
}

/// Sends a heartbeat of the session of a name, and does what comes back.
fn tell_beat<L: Link, K: Keeper>(
    alloc: Global,
    link: &mut L,
    source: &mut SourceEnd<K>,
    sub: &SubId,
    beat: &Heartbeat,
) -> Result<Exchange, FrontFault>
    requires written { BeatCanBeWritten beat.now }
    requires awaited { IsAwaited source.old.memory beat.now.id }
    ensures exchanged { IsBeaten beat.now sub.now (L.told link.old) (L.told link.new) source.old.memory source.new.memory result }
    ensures later { (L.told link.old).faults ≤ (L.told link.new).faults }
    ensures keeper { source.new.keeper ≡ source.old.keeper }
    ensures name { source.new.name ≡ source.old.name }
{
    let answer = reply_to_beat(alloc, link, beat);
    settle(source, sub, &beat.id, Exchange::Heard, answer)
}

/// Sends a delivery, and gives the reply to it: none where what came back is no reply to it.
#[tactic(auto, using(crate::proofs::Exchanging::not_begun))]
fn reply_to_delivery<L: Link>(
    alloc: Global,
    link: &mut L,
    delivery: &Delivery,
) -> Result<Option<Reply>, FrontFault>
    requires { CanBeWritten delivery.now }
    ensures replied { Replied (request_of delivery.now) delivery.now.id result (L.told link.old) (L.told link.new) }
    ensures later { (L.told link.old).faults ≤ (L.told link.new).faults }
{
    match request_of(alloc, delivery) {
        Ok(request) => reply_to(alloc, link, &delivery.id, &request),
        Err(_) => Err(FrontFault::NoMemory),
    }
}

/// Sends a heartbeat, and gives the reply to it: none where what came back is no reply to it.
#[tactic(auto, using(crate::proofs::Exchanging::not_begun))]
fn reply_to_beat<L: Link>(
    alloc: Global,
    link: &mut L,
    beat: &Heartbeat,
) -> Result<Option<Reply>, FrontFault>
    requires { BeatCanBeWritten beat.now }
    ensures replied { Replied (request_of_beat beat.now) beat.now.id result (L.told link.old) (L.told link.new) }
    ensures later { (L.told link.old).faults ≤ (L.told link.new).faults }
{
    match request_of_beat(alloc, beat) {
        Ok(request) => reply_to(alloc, link, &beat.id, &request),
        Err(_) => Err(FrontFault::NoMemory),
    }
}

/// Sends a message of an id in a request, and gives the reply to it: none where what came back is no reply to it.
#[tactic(auto, using(crate::proofs::Requested::replied, crate::proofs::Exchanging::unheard))]
fn reply_to<L: Link>(
    alloc: Global,
    link: &mut L,
    id: &MessageId,
    request: &Request,
) -> Result<Option<Reply>, FrontFault>
    ensures replied { Replied request.now id.now result (L.told link.old) (L.told link.new) }
    ensures later { (L.told link.old).faults ≤ (L.told link.new).faults }
{
    match exchange(alloc, link, request) {
        Ok(Some(envelope)) => match answer_in(alloc, id, envelope.as_slice()) {
            Ok(answer) => Ok(answer),
            Err(_) => Err(FrontFault::NoMemory),
        },
        Ok(None) => Ok(None),
        Err(fault) => Err(fault),
    }
}

/// The request that a delivery makes.
fn request_of(alloc: Global, delivery: &Delivery) -> Result<Request, AllocError>
    requires { CanBeWritten delivery.now }
    ensures { IfOk result (λ request. request ≡ request_of delivery.now) }
{
    let body = write_delivery(alloc, delivery)?;
    request_to(&delivery.notify_to, body)
}

/// The request that a heartbeat makes.
fn request_of_beat(alloc: Global, beat: &Heartbeat) -> Result<Request, AllocError>
    requires { BeatCanBeWritten beat.now }
    ensures { IfOk result (λ request. request ≡ request_of_beat beat.now) }
{
    let body = write_beat(alloc, beat)?;
    request_to(&beat.notify_to, body)
}

/// The request that bytes make which go to an address.
fn request_to(address: &Text, body: Bytes) -> Result<Request, AllocError>
    ensures { IfOk result (λ request. request ≡ request_to address.now body) }
{
    Ok(Request {
        host: authority_of(address)?,
        path: path_of(address)?,
        body,
    })
}

/// The reply to a message, where an envelope is one.
fn answer_in(alloc: Global, id: &MessageId, envelope: &[u8]) -> Result<Option<Reply>, AllocError>
    ensures { IfOk result (λ answer. answer ≡ answer_to id.now (told envelope.now)) }
{
    Ok(answer_to(id, read_reply(alloc, envelope)?))
}

/// The reply to a message, where that is what was told.
fn answer_to(id: &MessageId, told: Option<(MessageId, Reply)>) -> Option<Reply>
    ensures { result ≡ answer_to id.now told }
{
    match told {
        Some((relates, reply)) => {
            if relates.agrees(id) {
                Some(reply)
            } else {
                None
            }
        }
        None => None,
    }
}

/// Does what became of a message of the session of a name, and answers this where it was acknowledged.
fn settle<K: Keeper>(
    source: &mut SourceEnd<K>,
    sub: &SubId,
    id: &MessageId,
    acked: Exchange,
    answer: Result<Option<Reply>, FrontFault>,
) -> Result<Exchange, FrontFault>
    requires { IsAwaited source.old.memory id.now }
    ensures ends { Ends id.now acked sub.now answer source.old.memory source.new.memory result }
    ensures keeper { source.new.keeper ≡ source.old.keeper }
    ensures name { source.new.name ≡ source.old.name }
{
    match answer {
        Ok(reply) => Ok(take(source, sub, id, acked, reply)),
        Err(fault) => {
            lose(source, sub);
            Err(fault)
        }
    }
}

/// Does what a reply to a message says, or gives it up where there is none.
#[tactic(auto, using(crate::proofs::Taking::replied, crate::proofs::Taking::moved_is, crate::proofs::Taking::refused_is, crate::proofs::Taking::not_refused))]
fn take<K: Keeper>(
    source: &mut SourceEnd<K>,
    sub: &SubId,
    id: &MessageId,
    acked: Exchange,
    answer: Option<Reply>,
) -> Exchange
    requires { IsAwaited source.old.memory id.now }
    ensures outcome { result ≡ outcome_of acked answer }
    ensures memory { source.new.memory ≡ answered_in source.old.memory sub.now id.now.value answer }
    ensures keeper { source.new.keeper ≡ source.old.keeper }
    ensures name { source.new.name ≡ source.old.name }
{
    let Some(reply) = answer else {
        lose(source, sub);
        return Exchange::Lost;
    };
    match source.on_reply(id, &reply) {
        Ok(Moved::Moved) => acked,
        Ok(Moved::Refused) => Exchange::Refused,
        Err(_) => unreachable!(),
    }
}

/// Lets the session of a name wait for nothing any more. There is no harm where none has the name.
fn lose<K: Keeper>(source: &mut SourceEnd<K>, sub: &SubId)
    ensures memory { source.new.memory ≡ lost_in source.old.memory sub.now }
    ensures keeper { source.new.keeper ≡ source.old.keeper }
    ensures name { source.new.name ≡ source.old.name }
{
    let _lost = source.on_lost(sub);
}

/// How many items a delivery has. None has more than a session may send, which is a `u32`.
fn count_of(delivery: &Delivery) -> u32
    ensures { result ≡ count_of delivery.now }
{
    u32::try_from(delivery.batch.items.len()).unwrap_or(u32::MAX)
}
