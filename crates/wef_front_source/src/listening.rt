//! What a source makes of the bytes of a reply.

ghost use Rattle.std.specs.Prelude.{◌≡◌, Some, IfOk, IfSome, OnErr};
ghost use Rattle.std.specs.Result.{result_ok};
ghost use Rattle.wef_batch.specs.Reading.{AreGoodTrees};
ghost use Rattle.wef_bodies.specs.Offers.{offers_in};
ghost use Rattle.wef_envelope.specs.Envelopes.{said};
ghost use Rattle.wef_eventing.specs.Sending.{AreServable};
ghost use Rattle.wef_front_source.specs.HeardReplies.{HearsOffers, HearsReply, HearsTold, offers_told, offers_told_by, offers_told_in, related, reply_in, told, told_by, told_in};
ghost use Rattle.wef_xml.specs.Good.{IsGoodTree};

use std::alloc::{AllocError, Global};
use wef_base::moments::Moment;
use wef_base::{Bytes, Charset, Element, List};
use wef_bodies::{BodyFault, read_offers};
use wef_envelope::actions::{ACK, ENUMERATE_RESPONSE};
use wef_envelope::{Envelope, EnvelopeFault, MessageId, from_node};
use wef_eventing::Offer;
use wef_keeper::Keeper;
use wef_replies::fault_among;
use wef_source::{Moved, Reply, SourceEnd, SourceFault};
use wef_tree::{TreeFault, read_tree};

/// What a source made of a reply.
#[derive(Clone, Copy, Debug, PartialEq, Eq)]
pub enum Hears {
    /// The offers are the sessions from now on; so many there are.
    Adopted(u64),
    /// The session goes on behind the batch.
    Moved,
    /// The batch was refused.
    Refused,
    /// Nothing waits for this reply.
    NotAsked,
    /// It isn't an envelope that relates to a message, or no reply that a source knows.
    Unreadable,
}

/// Hears the bytes of a reply, in UTF-8: an acknowledgement by its action, a fault, or the offers that
/// answer an Enumerate (WS-Enumeration, 3.1). What is no acknowledgement and holds a fault is one,
/// whatever its action and whatever else it holds. Where there is no memory to read it all is as before.
pub fn source_hears<K: Keeper>(
    alloc: Global,
    source: &mut SourceEnd<K>,
    body: &Bytes,
    now: Moment,
) -> Result<Hears, AllocError>
    ensures heard { IfOk result (λ hears. HearsTold (told body.now) (offers_told now body.now) hears now source.old.memory source.new.memory) }
    ensures wants_memory { OnErr result (source.new.memory ≡ source.old.memory) }
    ensures keeper { source.new.keeper ≡ source.old.keeper }
    ensures name { source.new.name ≡ source.old.name }
{
    match read_tree(alloc, body.as_slice(), Charset::Utf8) {
        Ok(root) => hear_tree(source, &root, now),
        Err(TreeFault::NoMemory) => Err(AllocError),
        Err(_) => Ok(Hears::Unreadable),
    }
}

#[tactic(auto, using(wef_replies::proofs::ReadIsGood::body_is_good))]
fn hear_tree<K: Keeper>(
    source: &mut SourceEnd<K>,
    root: &Element,
    now: Moment,
) -> Result<Hears, AllocError>
    requires { IsGoodTree root.now }
    ensures heard { IfOk result (λ hears. HearsTold (told_by (said root.now)) (offers_told_by now (said root.now)) hears now source.old.memory source.new.memory) }
    ensures wants_memory { OnErr result (source.new.memory ≡ source.old.memory) }
    ensures keeper { source.new.keeper ≡ source.old.keeper }
    ensures name { source.new.name ≡ source.old.name }
{
    match &from_node(root) {
        Ok(envelope) => hear_envelope(source, envelope, now),
        Err(EnvelopeFault::NoMemory) => Err(AllocError),
        Err(_) => Ok(Hears::Unreadable),
    }
}

/// Hears an envelope: the reply that it is, or else the offers in it.
fn hear_envelope<K: Keeper>(
    source: &mut SourceEnd<K>,
    envelope: &Envelope,
    now: Moment,
) -> Result<Hears, AllocError>
    requires { AreGoodTrees envelope.now.body }
    ensures heard { IfOk result (λ hears. HearsTold (told_in envelope.now.relates (reply_in envelope.now)) (offers_told_in now envelope.now) hears now source.old.memory source.new.memory) }
    ensures wants_memory { OnErr result (source.new.memory ≡ source.old.memory) }
    ensures keeper { source.new.keeper ≡ source.old.keeper }
    ensures name { source.new.name ≡ source.old.name }
{
    if let Some((relates, reply)) = told_in(envelope)? {
        return hear_reply(source, &relates, &reply);
    }
    match offers_in(envelope, now)? {
        Some((relates, offers)) => adopt(source, &relates, &offers, now),
        None => Ok(Hears::Unreadable),
    }
}

/// The offers of an envelope that answers an Enumerate, and the message that it relates to.
fn offers_in(
    envelope: &Envelope,
    now: Moment,
) -> Result<Option<(MessageId, List<Offer>)>, AllocError>
    requires { AreGoodTrees envelope.now.body }
    ensures found { IfOk result (λ found. found ≡ offers_told_in now envelope.now) }
    ensures servable { IfOk result (λ found. IfSome found (λ offered. AreServable offered.1)) }
{
    if envelope.action.as_str() != ENUMERATE_RESPONSE {
        return Ok(None);
    }
    match &envelope.relates {
        Some(relates) => offers_for(relates, envelope, now),
        None => Ok(None),
    }
}

/// The offers of its Body, as the answer to a message. None where they aren't good.
#[tactic(auto, using(crate::proofs::OffersCanBeServed::offers_can_be_served))]
fn offers_for(
    relates: &MessageId,
    envelope: &Envelope,
    now: Moment,
) -> Result<Option<(MessageId, List<Offer>)>, AllocError>
    requires { AreGoodTrees envelope.now.body }
    ensures found { IfOk result (λ found. found ≡ related (Some relates.now) (result_ok (offers_in now envelope.now.body))) }
    ensures servable { IfOk result (λ found. IfSome found (λ offered. AreServable offered.1)) }
{
    match read_offers(envelope.action.alloc(), envelope.body.as_slice(), now) {
        Ok(offers) => Ok(Some((relates.clone()?, offers))),
        Err(BodyFault::NoMemory) => Err(AllocError),
        Err(_) => Ok(None),
    }
}

/// Hands offers to the source.
fn adopt<K: Keeper>(
    source: &mut SourceEnd<K>,
    relates: &MessageId,
    offers: &List<Offer>,
    now: Moment,
) -> Result<Hears, AllocError>
    requires { AreServable offers.now }
    ensures heard { IfOk result (λ hears. HearsOffers hears relates.now offers.now now source.old.memory source.new.memory) }
    ensures wants_memory { OnErr result (source.new.memory ≡ source.old.memory) }
    ensures keeper { source.new.keeper ≡ source.old.keeper }
    ensures name { source.new.name ≡ source.old.name }
{
    match source.adopt(relates, offers, now) {
        Ok(count) => Ok(Hears::Adopted(count)),
        Err(SourceFault::NoMemory) => Err(AllocError),
        Err(_) => Ok(Hears::NotAsked),
    }
}

/// Reads the bytes of a reply, in UTF-8: the message that it answers, by the header RelatesTo of
/// WS-Addressing, and how. The action Ack of WS-Management acknowledges it; with any other, the first
/// element of the Body that is a Fault of SOAP 1.2 (5.4) refuses it. Bytes that say no envelope, relate
/// to nothing or have no such element tell nothing.
pub fn read_reply(alloc: Global, bytes: &[u8]) -> Result<Option<(MessageId, Reply)>, AllocError>
    ensures { IfOk result (λ found. found ≡ told bytes.now) }
{
    match read_tree(alloc, bytes, Charset::Utf8) {
        Ok(root) => told_in_tree(&root),
        Err(TreeFault::NoMemory) => Err(AllocError),
        Err(_) => Ok(None),
    }
}

fn told_in_tree(root: &Element) -> Result<Option<(MessageId, Reply)>, AllocError>
    ensures { IfOk result (λ found. found ≡ told_by (said root.now)) }
{
    match &from_node(root) {
        Ok(envelope) => told_in(envelope),
        Err(EnvelopeFault::NoMemory) => Err(AllocError),
        Err(_) => Ok(None),
    }
}

fn told_in(envelope: &Envelope) -> Result<Option<(MessageId, Reply)>, AllocError>
    ensures { IfOk result (λ found. found ≡ told_in envelope.now.relates (reply_in envelope.now)) }
{
    let Some(relates) = &envelope.relates else {
        return Ok(None);
    };
    match reply_in(envelope)? {
        Some(reply) => Ok(Some((relates.clone()?, reply))),
        None => Ok(None),
    }
}

/// The reply that an envelope is.
fn reply_in(envelope: &Envelope) -> Result<Option<Reply>, AllocError>
    ensures { IfOk result (λ reply. reply ≡ reply_in envelope.now) }
{
    if envelope.action.as_str() == ACK {
        return Ok(Some(Reply::Ack));
    }
    match fault_among(envelope.body.as_slice())? {
        Some(name) => Ok(Some(Reply::Fault(name))),
        None => Ok(None),
    }
}

/// Hands a reply to the source.
fn hear_reply<K: Keeper>(
    source: &mut SourceEnd<K>,
    relates: &MessageId,
    reply: &Reply,
) -> Result<Hears, AllocError>
    ensures heard { IfOk result (λ hears. HearsReply hears relates.now reply.now source.old.memory source.new.memory) }
    ensures wants_memory { OnErr result (source.new.memory ≡ source.old.memory) }
    ensures keeper { source.new.keeper ≡ source.old.keeper }
    ensures name { source.new.name ≡ source.old.name }
{
    match source.on_reply(relates, reply) {
        Ok(Moved::Moved) => Ok(Hears::Moved),
        Ok(Moved::Refused) => Ok(Hears::Refused),
        Err(_) => Ok(Hears::NotAsked),
    }
}
