//! What a message asks of the collector.

ghost use Rattle.std.specs.Option.{option_and_then};
ghost use Rattle.std.specs.Prelude.{◌≡◌, option_copied, IfOk};
ghost use Rattle.wef_base.specs.Names.{source_name, subscription_name};
ghost use Rattle.wef_batch.specs.Numbers.{AreNumbered};
ghost use Rattle.wef_batch.specs.Reading.{AreGoodTrees, AreToldTrees, Reads};
ghost use Rattle.wef_bodies.specs.Leases.{ended_in};
ghost use Rattle.wef_envelope.specs.Envelopes.{said};
ghost use Rattle.wef_front_collector.specs.Heard.{Hears, IsSound, IsSoundAsk, asked_by, asked_of, batch_in, delivery_asked, end_asked, enumerate_asked, events_asked, heard_in, heartbeat_asked, is_elsewhere, manager_asked, unheard};
ghost use Rattle.wef_xml.specs.Good.{IsGoodTree};
ghost use Rattle.wef_xml.specs.Told.{IsTold};

use std::alloc::{AllocError, Global};
use wef_base::{Charset, Element, SourceName, SubId, Text};
use wef_batch::{Batch, BatchFault, read_batch};
use wef_bodies::{BodyFault, has_enumerate, read_end};
use wef_envelope::actions::{ENUMERATE, EVENTS, HEARTBEAT, SUBSCRIPTION_END, SUBSCRIPTIONS};
use wef_envelope::{Envelope, FaultName, MessageId, from_node, id_in};
use wef_http_heads::Target;
use wef_replies::{envelope_refused, is_nameless, tree_refused};
use wef_tree::read_told_tree;

/// What a message asks.
#[derive(Debug, Drop)]
pub enum Asked {
    /// Nothing that is kept decides how it is answered.
    Refused(FaultName),
    /// A source wants its subscriptions.
    Enumerate(SourceName),
    /// A batch for a subscription that can't be read.
    Unread(SubId),
    /// A batch of a source for a subscription.
    Take {
        sub: SubId,
        source: SourceName,
        batch: Batch,
    },
    /// A source of a subscription is there, and has nothing to send; it may want to be told that it was heard.
    Heartbeat {
        sub: SubId,
        source: SourceName,
        ack_wanted: bool,
    },
    /// The end of a subscription that can't be read.
    UnreadEnd(SubId),
    /// A source has ended a subscription, which has an identifier there.
    Ended {
        sub: SubId,
        source: SourceName,
        identifier: Text,
    },
}

/// What a message asks, and the id that the answer relates to.
#[derive(Debug, Drop)]
pub struct Heard {
    pub relates: Option<MessageId>,
    pub asked: Asked,
}

/// Reads what a message asks at a target. A document that is no tree says no id.
pub fn hear(
    alloc: Global,
    target: &Target,
    charset: Charset,
    body: &[u8],
) -> Result<Heard, AllocError>
    ensures heard { IfOk result (λ heard. Hears target.now charset body.now heard) }
    ensures sound { IfOk result IsSound }
{
    match read_told_tree(alloc, body, charset) {
        Ok(tree) => heard_in(target, tree.is_told(), tree.root()),
        Err(fault) => Ok(unheard(tree_refused(&fault)?)),
    }
}

fn unheard(name: FaultName) -> Heard
    ensures { result ≡ unheard name }
{
    Heard {
        relates: None,
        asked: Asked::Refused(name),
    }
}

/// What the root of a message asks; `told`: the namespaces in it are told apart by their digests, as in
/// all that follows.
#[tactic(auto, using(wef_replies::proofs::ReadIsGood::id_is_text))]
fn heard_in(target: &Target, told: bool, root: &Element) -> Result<Heard, AllocError>
    requires good { IsGoodTree root.now }
    requires told { IsTold told root.now }
    ensures heard { IfOk result (λ heard. heard ≡ heard_in target.now root.now) }
    ensures sound { IfOk result IsSound }
{
    let relates = id_in(root)?;
    let asked = asked_in(target, told, root)?;
    Ok(Heard { relates, asked })
}

#[tactic(auto, using(wef_replies::proofs::ReadIsGood::body_is_good, wef_replies::proofs::Refused::said_is))]
fn asked_in(target: &Target, told: bool, root: &Element) -> Result<Asked, AllocError>
    requires good { IsGoodTree root.now }
    requires told { IsTold told root.now }
    ensures asked { IfOk result (λ asked. asked ≡ asked_of target.now (said root.now)) }
    ensures sound { IfOk result IsSoundAsk }
{
    match &from_node(root) {
        Ok(envelope) => asked_by(target, told, envelope),
        Err(fault) => Ok(Asked::Refused(envelope_refused(fault)?)),
    }
}

/// What an envelope asks at a target, by its action.
fn asked_by(target: &Target, told: bool, envelope: &Envelope) -> Result<Asked, AllocError>
    requires good { AreGoodTrees envelope.now.body }
    requires told { AreToldTrees told envelope.now.body }
    ensures asked { IfOk result (λ asked. asked ≡ asked_by target.now envelope.now) }
    ensures sound { IfOk result IsSoundAsk }
{
    if is_nameless(envelope) {
        return Ok(Asked::Refused(FaultName::MessageInformationHeaderRequired));
    }
    match target {
        Target::Manager => manager_asked(envelope),
        Target::Delivery { sub, source } => delivery_asked(sub, source, told, envelope),
        Target::Root => Ok(Asked::Refused(FaultName::ActionNotSupported)),
    }
}

/// What an envelope asks of the collector itself.
fn manager_asked(envelope: &Envelope) -> Result<Asked, AllocError>
    ensures asked { IfOk result (λ asked. asked ≡ manager_asked envelope.now) }
    ensures sound { IfOk result IsSoundAsk }
{
    if envelope.action.as_str() == ENUMERATE {
        return enumerate_asked(envelope);
    }
    Ok(Asked::Refused(FaultName::ActionNotSupported))
}

/// What an Enumerate asks: the subscriptions of the source that its MachineID names.
fn enumerate_asked(envelope: &Envelope) -> Result<Asked, AllocError>
    ensures asked { IfOk result (λ asked. asked ≡ enumerate_asked envelope.now) }
    ensures sound { IfOk result IsSoundAsk }
{
    if is_elsewhere(envelope.resource.as_ref()) {
        return Ok(Asked::Refused(FaultName::DestinationUnreachable));
    }
    if !has_enumerate(envelope.body.as_slice()) {
        return Ok(Asked::Refused(FaultName::InvalidMessage));
    }
    match machine_named(envelope.machine.as_ref())? {
        Some(source) => Ok(Asked::Enumerate(source)),
        None => Ok(Asked::Refused(FaultName::InvalidMessage)),
    }
}

/// Whether a resource is another than the subscriptions of a collector.
fn is_elsewhere(resource: Option<&Text>) -> bool
    ensures { result ≡ is_elsewhere (option_copied resource.entry) }
{
    match resource {
        Some(resource) => resource.as_str() != SUBSCRIPTIONS,
        None => false,
    }
}

/// The source that a MachineID names.
fn machine_named(machine: Option<&Text>) -> Result<Option<SourceName>, AllocError>
    ensures { IfOk result (λ source. source ≡ option_and_then source_name (option_copied machine.entry)) }
{
    match machine {
        Some(machine) => SourceName::named(machine),
        None => Ok(None),
    }
}

/// What an envelope asks where a source delivers for a subscription.
fn delivery_asked(
    sub: &Text,
    source: &Text,
    told: bool,
    envelope: &Envelope,
) -> Result<Asked, AllocError>
    requires good { AreGoodTrees envelope.now.body }
    requires told { AreToldTrees told envelope.now.body }
    ensures asked { IfOk result (λ asked. asked ≡ delivery_asked sub.now source.now envelope.now) }
    ensures sound { IfOk result IsSoundAsk }
{
    if envelope.action.as_str() == EVENTS {
        return events_asked(sub, source, told, envelope);
    }
    if envelope.action.as_str() == HEARTBEAT {
        return heartbeat_asked(sub, source, envelope.ack_wanted);
    }
    if envelope.action.as_str() == SUBSCRIPTION_END {
        return end_asked(sub, source, envelope);
    }
    Ok(Asked::Refused(FaultName::ActionNotSupported))
}

/// What a batch asks that came to the path of a subscription and a source.
fn events_asked(
    sub: &Text,
    source: &Text,
    told: bool,
    envelope: &Envelope,
) -> Result<Asked, AllocError>
    requires good { AreGoodTrees envelope.now.body }
    requires told { AreToldTrees told envelope.now.body }
    ensures asked { IfOk result (λ asked. asked ≡ events_asked (subscription_name sub.now) (source_name source.now) (batch_in envelope.now)) }
    ensures sound { IfOk result IsSoundAsk }
{
    let Some(sub) = SubId::named(sub)? else {
        return Ok(Asked::Refused(FaultName::DestinationUnreachable));
    };
    let Some(source) = SourceName::named(source)? else {
        return Ok(Asked::Unread(sub));
    };
    match batch_in(told, envelope) {
        Ok(batch) => Ok(Asked::Take { sub, source, batch }),
        Err(BatchFault::NoMemory) => Err(AllocError),
        Err(BatchFault::BadHead | BatchFault::BadBatch { .. }) => Ok(Asked::Unread(sub)),
    }
}

#[tactic(auto, using(wef_replies::proofs::Numbered::as_read))]
fn batch_in(told: bool, envelope: &Envelope) -> Result<Batch, BatchFault>
    requires good { AreGoodTrees envelope.now.body }
    requires told { AreToldTrees told envelope.now.body }
    ensures batch { Reads result (batch_in envelope.now) }
    ensures numbered { IfOk result (λ batch. AreNumbered batch.items) }
{
    let alloc = envelope.action.alloc();
    read_batch(
        alloc,
        envelope.bookmark.as_ref(),
        envelope.ack_wanted,
        told,
        envelope.body.as_slice(),
    )
}

/// What a heartbeat asks that came to the path of a subscription and a source, whatever its body says.
fn heartbeat_asked(sub: &Text, source: &Text, ack_wanted: bool) -> Result<Asked, AllocError>
    ensures asked { IfOk result (λ asked. asked ≡ heartbeat_asked (subscription_name sub.now) (source_name source.now) ack_wanted) }
    ensures sound { IfOk result IsSoundAsk }
{
    let Some(sub) = SubId::named(sub)? else {
        return Ok(Asked::Refused(FaultName::DestinationUnreachable));
    };
    let Some(source) = SourceName::named(source)? else {
        return Ok(Asked::Unread(sub));
    };
    Ok(Asked::Heartbeat {
        sub,
        source,
        ack_wanted,
    })
}

/// What the end of a subscription asks that came to the path of a subscription and a source.
fn end_asked(sub: &Text, source: &Text, envelope: &Envelope) -> Result<Asked, AllocError>
    ensures asked { IfOk result (λ asked. asked ≡ end_asked (subscription_name sub.now) (source_name source.now) (ended_in envelope.now.body)) }
    ensures sound { IfOk result IsSoundAsk }
{
    let Some(sub) = SubId::named(sub)? else {
        return Ok(Asked::Refused(FaultName::DestinationUnreachable));
    };
    let Some(source) = SourceName::named(source)? else {
        return Ok(Asked::UnreadEnd(sub));
    };
    match read_end(envelope.body.as_slice()) {
        Ok((identifier, _)) => Ok(Asked::Ended {
            sub,
            source,
            identifier,
        }),
        Err(BodyFault::NoMemory) => Err(AllocError),
        Err(_) => Ok(Asked::UnreadEnd(sub)),
    }
}
