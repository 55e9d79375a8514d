//! What a message asks of a source.

ghost use Rattle.std.specs.Prelude.{◌≡◌, true, option_copied, IfOk};
ghost use Rattle.wef_batch.specs.Reading.{AreGoodTrees};
ghost use Rattle.wef_bodies.specs.Reading.{body_in};
ghost use Rattle.wef_envelope.specs.Envelopes.{said};
ghost use Rattle.wef_envelope.specs.Faults.{is_known};
ghost use Rattle.wef_front_source.specs.Heard.{CanRenew, Hears, IsOfBody, IsSound, IsSoundAsk, IsSoundWant, asked_at, asked_by, asked_of, body_refused, heard_in, is_managing, manage_asked, part_refused, unheard, wanted_in, wish_asked};
ghost use Rattle.wef_subscribes.specs.Subscribes.{subscribe_in};
ghost use Rattle.wef_xml.specs.Good.{IsGoodTree};

use std::alloc::{AllocError, Global};
use wef_base::{Charset, Element, Moment, Text};
use wef_bodies::{Body, BodyFault, Part, read_body};
use wef_envelope::actions::{GET_STATUS, RENEW, SUBSCRIBE, UNSUBSCRIBE};
use wef_envelope::{Envelope, FaultName, MessageId, from_node, id_in};
use wef_eventing::Subscribe;
use wef_replies::{envelope_refused, is_nameless, tree_refused};
use wef_subscribes::subscribes::subscribe_in;
use wef_tree::read_tree;

/// What a collector wants of a session that it began.
#[derive(Debug, Drop)]
pub enum Wants {
    /// The session is to stand for so long from then on, in milliseconds.
    Renew { expires: u64 },
    GetStatus,
    Unsubscribe,
    /// It can't be read, and this is answered where the session is there.
    Unread(FaultName),
}

/// What a message asks.
#[derive(Debug, Drop)]
pub enum Asked {
    /// Nothing that is remembered decides how it is answered.
    Refused(FaultName),
    /// A collector wants to be sent events.
    Begin(Subscribe),
    /// A collector wants something of the session that it names so.
    Manage { identifier: Text, wants: Wants },
}

/// What a message asks, and the id that the answer relates to.
#[derive(Debug, Drop)]
pub struct Heard {
    pub relates: Option<MessageId>,
    pub asked: Asked,
}

/// Reads what a message asks at a moment. A document that is no tree says no id.
pub fn hear(alloc: Global, charset: Charset, body: &[u8], now: Moment) -> Result<Heard, AllocError>
    ensures heard { IfOk result (λ heard. Hears now charset body.now heard) }
    ensures sound { IfOk result IsSound }
{
    match read_tree(alloc, body, charset) {
        Ok(root) => heard_in(&root, now),
        Err(fault) => Ok(unheard(tree_refused(&fault)?)),
    }
}

fn unheard(name: FaultName) -> Heard
    ensures { result ≡ unheard name }
{
    Heard {
        relates: None,
        asked: Asked::Refused(name),
    }
}

#[tactic(auto, using(wef_replies::proofs::ReadIsGood::id_is_text))]
fn heard_in(root: &Element, now: Moment) -> Result<Heard, AllocError>
    requires { IsGoodTree root.now }
    ensures heard { IfOk result (λ heard. heard ≡ heard_in now root.now) }
    ensures sound { IfOk result IsSound }
{
    let relates = id_in(root)?;
    let asked = asked_in(root, now)?;
    Ok(Heard { relates, asked })
}

#[tactic(auto, using(wef_replies::proofs::ReadIsGood::body_is_good, wef_replies::proofs::Refused::said_is))]
fn asked_in(root: &Element, now: Moment) -> Result<Asked, AllocError>
    requires { IsGoodTree root.now }
    ensures asked { IfOk result (λ asked. asked ≡ asked_of now (said root.now)) }
    ensures sound { IfOk result IsSoundAsk }
{
    match &from_node(root) {
        Ok(envelope) => asked_by(envelope, now),
        Err(fault) => Ok(Asked::Refused(envelope_refused(fault)?)),
    }
}

/// What an envelope asks, by its action.
fn asked_by(envelope: &Envelope, now: Moment) -> Result<Asked, AllocError>
    requires { AreGoodTrees envelope.now.body }
    ensures asked { IfOk result (λ asked. asked ≡ asked_by now envelope.now) }
    ensures sound { IfOk result IsSoundAsk }
{
    if is_nameless(envelope) {
        return Ok(Asked::Refused(FaultName::MessageInformationHeaderRequired));
    }
    asked_at(envelope, now)
}

fn asked_at(envelope: &Envelope, now: Moment) -> Result<Asked, AllocError>
    requires { AreGoodTrees envelope.now.body }
    ensures asked { IfOk result (λ asked. asked ≡ asked_at now envelope.now) }
    ensures sound { IfOk result IsSoundAsk }
{
    let action = envelope.action.as_str();
    if action == SUBSCRIBE {
        return wish_asked(envelope, now);
    }
    if is_managing(action) {
        return manage_asked(envelope.identifier.as_ref(), wanted_in(envelope, now)?);
    }
    Ok(Asked::Refused(FaultName::ActionNotSupported))
}

/// The wish that an envelope says.
#[tactic(auto, using(crate::proofs::BodiesRefused::read_is))]
fn wish_asked(envelope: &Envelope, now: Moment) -> Result<Asked, AllocError>
    requires { AreGoodTrees envelope.now.body }
    ensures asked { IfOk result (λ asked. asked ≡ wish_asked (subscribe_in now envelope.now.body)) }
    ensures sound { IfOk result IsSoundAsk }
{
    match subscribe_in(envelope.action.alloc(), envelope.body.as_slice(), now) {
        Ok(wish) => Ok(Asked::Begin(wish)),
        Err(fault) => Ok(Asked::Refused(body_refused(fault)?)),
    }
}

/// Whether an action is one of a message about a session.
fn is_managing(action: &str) -> bool
    ensures { result ≡ is_managing action.now }
{
    action == RENEW || action == GET_STATUS || action == UNSUBSCRIBE
}

/// What an envelope wants of the session that is named so.
fn manage_asked(identifier: Option<&Text>, wants: Wants) -> Result<Asked, AllocError>
    requires { IsSoundWant wants }
    ensures asked { IfOk result (λ asked. asked ≡ manage_asked (option_copied identifier.entry) wants) }
    ensures sound { IfOk result IsSoundAsk }
{
    match identifier {
        Some(identifier) => Ok(Asked::Manage {
            identifier: identifier.clone()?,
            wants,
        }),
        None => Ok(Asked::Refused(FaultName::DestinationUnreachable)),
    }
}

/// What an envelope wants of a session.
#[tactic(auto, using(crate::proofs::BodiesRefused::read_is))]
fn wanted_in(envelope: &Envelope, now: Moment) -> Result<Wants, AllocError>
    ensures wants { IfOk result (λ wants. wants ≡ wanted_in (body_in now envelope.now)) }
    ensures sound { IfOk result IsSoundWant }
{
    match read_body(envelope, now) {
        Ok(body) => Ok(wanted_by(&body)),
        Err(fault) => Ok(Wants::Unread(body_refused(fault)?)),
    }
}

/// What a body says that is wanted of a session.
fn wanted_by(body: &Body) -> Wants
    requires { CanRenew body.now }
    ensures wants { result ≡ wanted_in (Ok body.now) }
    ensures sound { IsSoundWant result }
{
    match body {
        Body::Renew { expires } => Wants::Renew { expires: *expires },
        Body::GetStatus => Wants::GetStatus,
        Body::Unsubscribe => Wants::Unsubscribe,
        _ => Wants::Unread(FaultName::InvalidMessage),
    }
}

/// The fault that answers a body that isn't of its form. Want of memory isn't answered.
fn body_refused(fault: BodyFault) -> Result<FaultName, AllocError>
    ensures name { IfOk result (λ name. name ≡ body_refused fault) }
    ensures told { IfOk result (λ _. IsOfBody fault) }
    ensures known { IfOk result (λ name. is_known name ≡ true) }
{
    match fault {
        BodyFault::NoMemory => Err(AllocError),
        BodyFault::BadBody(part) => Ok(part_refused(part)),
        BodyFault::BadMode => Ok(FaultName::DeliveryModeRequestedUnavailable),
        BodyFault::BadFilter => Ok(FaultName::FilteringRequestedUnavailable),
        BodyFault::BadExpires => Ok(FaultName::InvalidExpirationTime),
    }
}

/// The fault that answers a part of a body that isn't good.
fn part_refused(part: Part) -> FaultName
    ensures name { result ≡ part_refused part }
    ensures known { is_known result ≡ true }
{
    match part {
        Part::Bookmark => FaultName::InvalidBookmark,
        _ => FaultName::InvalidMessage,
    }
}
