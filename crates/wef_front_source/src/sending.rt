//! The bytes of what a source sends: its wish for subscriptions, its deliveries, and the ends of sessions.

ghost use Rattle.std.specs.List.{AllByRecursion};
ghost use Rattle.std.specs.Prelude.{◌≡◌, true, option_copied, Some, IfOk};
ghost use Rattle.std.specs.Str.{IsUtf8, is_utf8};
ghost use Rattle.wef_base.specs.Names.{channel_name, source_name};
ghost use Rattle.wef_base.specs.declared.tree.Charset.TheVariants.{Utf8};
ghost use Rattle.wef_batch.specs.Laws.{IsKept};
ghost use Rattle.wef_envelope.specs.Written.{written};
ghost use Rattle.wef_event.specs.Events.{HasTree};
ghost use Rattle.wef_eventing.specs.Addresses.{IsHost};
ghost use Rattle.wef_front_source.specs.Sending.{BeatCanBeWritten, CanBeWritten, beat_bytes, delivery_bytes, delivery_envelope, end_bytes, end_envelope, enumerate_bytes, enumerate_envelope, manager_address};
ghost use Rattle.wef_source.specs.Serving.{NoteCanBeSent};
ghost use Rattle.wef_xml.specs.Canonical.{canonical, encoded};
ghost use Rattle.wef_xml.specs.Good.{IsGoodTree, IsXmlText};

use std::alloc::{AllocError, Global};
use wef_base::{Bytes, ChannelName, Charset, SourceName, Text};
use wef_batch::{Item, write_batch};
use wef_bodies::{Body, write_body};
use wef_envelope::actions::{ANONYMOUS, ENUMERATE, EVENTS, SUBSCRIPTION_END, SUBSCRIPTIONS};
use wef_envelope::{Envelope, MessageId, to_node};
use wef_event::Event;
use wef_heartbeat::{Heartbeat, heartbeat_envelope};
use wef_http_heads::MANAGER_PATH;
use wef_source::{Delivery, EndNote};
use wef_subscribes::wishes::marked_names_are_kept;
use wef_tree::write_tree;

/// Writes a delivery in UTF-8, as the message Events of WS-Management (10.2.9). It is read again where its
/// texts are such as headers say, and its events those of their texts.
pub fn write_delivery(alloc: Global, delivery: &Delivery) -> Result<Bytes, AllocError>
    requires { CanBeWritten delivery.now }
    ensures { IfOk result (λ bytes. bytes ≡ delivery_bytes delivery.now) }
{
    items_are_kept(delivery.batch.items.as_slice());
    marked_names_are_kept(&delivery.batch.to);
    let envelope = envelope_of(alloc, delivery)?;
    write_envelope(alloc, &envelope)
}

/// Writes a heartbeat in UTF-8, as the message Heartbeat of WS-Management (10.2.9).
pub fn write_beat(alloc: Global, beat: &Heartbeat) -> Result<Bytes, AllocError>
    requires { BeatCanBeWritten beat.now }
    ensures { IfOk result (λ bytes. bytes ≡ beat_bytes beat.now) }
{
    let envelope = heartbeat_envelope(alloc, beat)?;
    write_envelope(alloc, &envelope)
}

/// Writes in UTF-8 the wish of a source for its subscriptions, as the message Enumerate
/// (WS-Enumeration, 3.1) to the collector at a host. The header MachineID names the source.
pub fn write_enumerate(
    alloc: Global,
    host: &Text,
    source: &SourceName,
    id: &MessageId,
) -> Result<Bytes, AllocError>
    requires host { IsHost host.now }
    requires id { IsXmlText id.now.text }
    ensures { IfOk result (λ bytes. bytes ≡ enumerate_bytes host.now source.now id.now) }
{
    let envelope = enumerate_envelope(alloc, host, source, id)?;
    write_envelope(alloc, &envelope)
}

/// Writes in UTF-8 what tells a collector that a session ended which it began, as the message
/// SubscriptionEnd (WS-Eventing, 3.5).
pub fn write_end(alloc: Global, note: &EndNote) -> Result<Bytes, AllocError>
    requires { NoteCanBeSent note.now }
    ensures { IfOk result (λ bytes. bytes ≡ end_bytes note.now) }
{
    let envelope = end_envelope(alloc, note)?;
    write_envelope(alloc, &envelope)
}

fn end_envelope(alloc: Global, note: &EndNote) -> Result<Envelope, AllocError>
    ensures { IfOk result (λ envelope. envelope ≡ end_envelope note.now) }
{
    let to = note.end_to.clone()?;
    let action = Text::from_str(alloc, SUBSCRIPTION_END)?;
    let ended = Body::Ended {
        identifier: note.identifier.clone()?,
        status: note.status,
    };
    let body = write_body(alloc, &ended)?;
    let mut envelope = Envelope::new(to, action, note.id.clone()?, body);
    envelope.reply_to = Some(Text::from_str(alloc, ANONYMOUS)?);
    Ok(envelope)
}

fn enumerate_envelope(
    alloc: Global,
    host: &Text,
    source: &SourceName,
    id: &MessageId,
) -> Result<Envelope, AllocError>
    ensures value { IfOk result (λ envelope. envelope ≡ enumerate_envelope host.now source.now id.now) }
    ensures name { IfOk result (λ _. IsUtf8 source.now × (source_name source.now ≡ Some source.now)) }
{
    let to = manager_address(alloc, host)?;
    let action = Text::from_str(alloc, ENUMERATE)?;
    let body = write_body(alloc, &Body::Enumerate)?;
    let mut envelope = Envelope::new(to, action, id.clone()?, body);
    envelope.resource = Some(Text::from_str(alloc, SUBSCRIPTIONS)?);
    envelope.reply_to = Some(Text::from_str(alloc, ANONYMOUS)?);
    envelope.machine = Some(name_of(source)?);
    Ok(envelope)
}

/// The text of a source's name.
fn name_of(source: &SourceName) -> Result<Text, AllocError>
    ensures value { IfOk result (λ text. text ≡ source.now) }
    ensures kept { IfOk result (λ _. IsUtf8 source.now × (source_name source.now ≡ Some source.now)) }
{
    let name = source.as_text();
    Text::from_str(name.alloc(), name.as_str())
}

#[tactic(auto, using(std::proofs::Common::append_assoc), unfolding(crate::specs::Sending::manager_address))]
fn manager_address(alloc: Global, host: &Text) -> Result<Text, AllocError>
    ensures { IfOk result (λ address. address ≡ manager_address host.now) }
{
    let mut address = Text::from_str(alloc, "http://")?;
    address.push_str(host.as_str())?;
    address.push_str(MANAGER_PATH)?;
    Ok(address)
}

fn write_envelope(alloc: Global, envelope: &Envelope) -> Result<Bytes, AllocError>
    requires { IsGoodTree (written envelope.now) }
    ensures { IfOk result (λ bytes. bytes ≡ encoded Utf8 (canonical (written envelope.now))) }
{
    let root = to_node(envelope)?;
    match write_tree(alloc, &root, Charset::Utf8) {
        Ok(bytes) => Ok(bytes),
        Err(_) => Err(AllocError),
    }
}

/// Events have trees, and names of channels read back as themselves, since their types keep it.
fn items_are_kept(items: &[Item])
    ensures { AllByRecursion IsKept items.now }
{
    for item in items {
        item_is_kept(item);
    }
}

fn item_is_kept(item: &Item)
    ensures { IsKept item.now }
{
    match item {
        Item::Event(event) => event_is_kept(event),
        Item::Dropped {
            channel,
            first: _,
            last: _,
        } => channel_is_kept(channel),
        Item::Loose { count: _ } => {}
    }
}

fn event_is_kept(event: &Event)
    ensures { HasTree event.now }
{
    let _text = &event.text;
}

fn channel_is_kept(channel: &ChannelName)
    ensures { (is_utf8 channel.now ≡ true) × (channel_name channel.now ≡ Some channel.now) }
{
    let _name = channel.as_text().as_str();
}

fn envelope_of(alloc: Global, delivery: &Delivery) -> Result<Envelope, AllocError>
    requires { CanBeWritten delivery.now }
    ensures { IfOk result (λ envelope. envelope ≡ delivery_envelope delivery.now) }
{
    let to = delivery.notify_to.clone()?;
    let action = Text::from_str(alloc, EVENTS)?;
    let body = write_batch(alloc, &delivery.batch)?;
    let mut envelope = Envelope::new(to, action, delivery.id.clone()?, body);
    envelope.reply_to = Some(Text::from_str(alloc, ANONYMOUS)?);
    envelope.identifier = copied(delivery.identifier.as_ref())?;
    envelope.bookmark = Some(delivery.batch.to.to_node()?);
    envelope.ack_wanted = delivery.batch.ack_wanted;
    Ok(envelope)
}

fn copied(text: Option<&Text>) -> Result<Option<Text>, AllocError>
    ensures { IfOk result (λ copy. copy ≡ option_copied text.entry) }
{
    match text {
        Some(text) => Ok(Some(text.clone()?)),
        None => Ok(None),
    }
}
