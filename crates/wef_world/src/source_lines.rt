//! The lines of sources.

ghost use Rattle.std.specs.List.{AllByRecursion};
ghost use Rattle.std.specs.Prelude.{◌≡◌, [], codes, map, IfOk, OnOk};
ghost use Rattle.wef_event.specs.Unnumbered.{new_event};
ghost use Rattle.wef_front.specs.Sent.{CanBeAsked};
ghost use Rattle.wef_front_source.specs.Sending.{BeatCanBeSent, CanBeSent};
ghost use Rattle.wef_safety.specs.Kept.{IsKept};
ghost use Rattle.wef_machine.specs.Leasing as leasing;
ghost use Rattle.wef_machine.specs.Printed as texts;
ghost use Rattle.wef_machine.specs.Sources as steps;
ghost use Rattle.wef_machine.specs.States as states;
ghost use Rattle.wef_machine.specs.declared.messages.Message.TheVariants.{Ask, Beat, Ended, Events};
ghost use Rattle.wef_places.specs.Polls as polls;
ghost use Rattle.wef_places.specs.Slots as slots;
ghost use Rattle.wef_world.specs.Asked as sends;
ghost use Rattle.wef_world.specs.Shut as told;

use crate::ends::Ends;
use std::alloc::{AllocError, Global};
use wef_base::{List, SourceName, SubId, Text};
use wef_deliveries::taking::subscription_named;
use wef_event::{Event, PlainEvent};
use wef_heartbeat::Heartbeat;
use wef_ids::MessageId;
use wef_lines::name_line;
use wef_messages::messages::{BeatBytes, Content, DeliveryBytes, NoteBytes, Sent, WishBytes};
use wef_places::WorldFault;
use wef_places::places::{Called, Used};
use wef_places::slots::{Capacity, Polled, Slot};
use wef_printing::printing::{fate_line, pair_line, sent_ask_line, sent_line, wrote_line};
use wef_source::{Delivery, EndNote, SourceFault};

/// What came of a poll of a source that runs.
#[derive(Clone, Copy)]
pub(crate) enum Polls {
    /// No session has the name.
    Unknown,
    /// The session's time is over.
    Expired,
    /// The session has nothing to send.
    Nothing,
    /// No message numbers are left.
    Spent,
    /// The batch of this number was sent.
    Sent(u64),
    /// The heartbeat of this number was sent.
    Beat(u64),
}

impl Ends {
    /// Declares a source.
    pub(crate) fn declare(
        &mut self,
        source: &SourceName,
        capacity: Capacity,
    ) -> Result<Text, WorldFault>
        ensures state { OnOk result (self.new ≡ states.with_slot self.old source.now (steps.declared_slot capacity)) }
        ensures printed { IfOk result (λ text. text ≡ []) }
    {
        let slot = Slot::new(self.alloc, source.clone()?, capacity);
        self.sources.put(source.clone()?, slot)?;
        Ok(Text::new(self.alloc))
    }

    /// Lets a source write an event that no log has numbered yet.
    pub(crate) fn write_plain(
        &mut self,
        source: &SourceName,
        event: &PlainEvent,
    ) -> Result<Text, WorldFault>
        requires kept { IsKept self.old }
        ensures state { OnOk result (self.new ≡ steps.write_step self.old source.now (new_event event.now)) }
        ensures printed { IfOk result (λ text. text ≡ steps.write_printed self.old source.now (new_event event.now)) }
    {
        match event.to_event() {
            Ok(event) => {
                let text = self.write(source, &event);
                drop(event);
                text
            }
            Err(_) => Err(WorldFault::NoMemory),
        }
    }

    /// Lets a source write an event.
    pub(crate) fn write(&mut self, source: &SourceName, event: &Event) -> Result<Text, WorldFault>
        requires kept { IsKept self.old }
        ensures state { OnOk result (self.new ≡ steps.write_step self.old source.now event.now) }
        ensures printed { IfOk result (λ text. text ≡ steps.write_printed self.old source.now event.now) }
    {
        let Some(slot) = self.sources.slot_mut(source) else {
            return Ok(Text::new(self.alloc));
        };
        let written = slot.write(self.alloc, event)?;
        self.written_line(source, event, written)
    }

    /// What is printed of a write.
    fn written_line(
        &self,
        source: &SourceName,
        event: &Event,
        written: Used<Called<u64, SourceFault>>,
    ) -> Result<Text, WorldFault>
        ensures { IfOk result (λ text. text ≡ slots.written_line source.now event.now written) }
    {
        let name = source.as_text();
        match written {
            Used::Closed(fate) => Ok(fate_line(self.alloc, fate, name.as_str())?),
            Used::Answered(Called::Done(number)) => {
                Ok(wrote_line(source, &event.channel, number)?)
            }
            Used::Answered(Called::Broken(fate)) => {
                Ok(fate_line(self.alloc, fate, name.as_str())?)
            }
            Used::Answered(Called::Refused(SourceFault::Full)) => {
                Ok(pair_line("full", name, event.channel.as_text())?)
            }
            Used::Answered(Called::Refused(SourceFault::TooLong)) => {
                Ok(pair_line("toolong", name, event.channel.as_text())?)
            }
            Used::Answered(Called::Refused(_)) => Ok(Text::new(self.alloc)),
        }
    }

    /// Lets a source ask for its subscriptions, and tells what came of it.
    pub(crate) fn ask(&mut self, source: &SourceName) -> Result<Text, WorldFault>
        requires kept { IsKept self.old }
        ensures state { OnOk result (self.new ≡ steps.ask_step self.old source.now) }
        ensures printed { IfOk result (λ text. text ≡ steps.ask_printed self.old source.now) }
    {
        let asked = self.let_ask(source)?;
        Ok(asked_line(self.alloc, source, asked)?)
    }

    /// Lets a source ask for its subscriptions, and answers the number of the ask, or none where no id was
    /// left for it. Nothing comes of it where no source has the name.
    pub(crate) fn let_ask(
        &mut self,
        source: &SourceName,
    ) -> Result<Option<Used<Option<u64>>>, WorldFault>
        requires kept { IsKept self.old }
        ensures state { OnOk result (self.new ≡ steps.ask_step self.old source.now) }
        ensures asked { IfOk result (λ asked. asked ≡ sends.ask_comes self.old source.now) }
    {
        let Some(slot) = self.sources.slot_mut(source) else {
            return Ok(None);
        };
        let asked = slot.ask(self.alloc)?;
        Ok(Some(self.send_asked(source, asked)?))
    }

    /// Sends an ask, where an id was left for it, and answers its number.
    fn send_asked(
        &mut self,
        source: &SourceName,
        asked: Used<Option<MessageId>>,
    ) -> Result<Used<Option<u64>>, AllocError>
        requires { polls.CanBeAskedAs source.now asked }
        ensures state { OnOk result (self.new ≡ polls.with_asked self.old source.now asked) }
        ensures asked { IfOk result (λ sent. sent ≡ sends.asked_number (states.next_number self.old) asked) }
    {
        match asked {
            Used::Closed(fate) => Ok(Used::Closed(fate)),
            Used::Answered(None) => Ok(Used::Answered(None)),
            Used::Answered(Some(id)) => Ok(Used::Answered(Some(self.send_ask(source, &id)?))),
        }
    }

    /// Lets a source send what its session of a subscription has to send, and tells what came of it.
    pub(crate) fn poll(&mut self, source: &SourceName, sub: &SubId) -> Result<Text, WorldFault>
        requires kept { IsKept self.old }
        ensures state { OnOk result (self.new ≡ steps.poll_step self.old source.now sub.now) }
        ensures printed { IfOk result (λ text. text ≡ steps.poll_printed self.old source.now sub.now) }
    {
        let polled = self.let_poll(source, sub)?;
        Ok(polled_line(self.alloc, source, sub, polled)?)
    }

    /// Lets a source send what its session of a subscription has to send. Nothing comes of it where no
    /// source has the name.
    pub(crate) fn let_poll(
        &mut self,
        source: &SourceName,
        sub: &SubId,
    ) -> Result<Option<Used<Polls>>, WorldFault>
        requires kept { IsKept self.old }
        ensures state { OnOk result (self.new ≡ steps.poll_step self.old source.now sub.now) }
        ensures polled { IfOk result (λ polled. polled ≡ sends.poll_comes self.old source.now sub.now) }
    {
        let now = self.moment;
        let Some(slot) = self.sources.slot_mut(source) else {
            return Ok(None);
        };
        let polled = slot.poll(self.alloc, sub, now)?;
        Ok(Some(self.send_polled(source, polled)?))
    }

    /// Sends what a session has to send, and answers what came of the poll.
    fn send_polled(
        &mut self,
        source: &SourceName,
        polled: Used<Polled>,
    ) -> Result<Used<Polls>, AllocError>
        requires { polls.CanBeSentAs polled }
        ensures state { OnOk result (self.new ≡ polls.with_polled self.old source.now polled) }
        ensures polled { IfOk result (λ sent. sent ≡ sends.polled_number (states.next_number self.old) polled) }
    {
        match polled {
            Used::Closed(fate) => Ok(Used::Closed(fate)),
            Used::Answered(Polled::Unknown) => Ok(Used::Answered(Polls::Unknown)),
            Used::Answered(Polled::Expired) => Ok(Used::Answered(Polls::Expired)),
            Used::Answered(Polled::Nothing) => Ok(Used::Answered(Polls::Nothing)),
            Used::Answered(Polled::Spent) => Ok(Used::Answered(Polls::Spent)),
            Used::Answered(Polled::Sent(delivery)) => {
                let number = self.send_delivery(source, &delivery)?;
                Ok(Used::Answered(Polls::Sent(number)))
            }
            Used::Answered(Polled::Beat(beat)) => {
                let number = self.send_beat(source, &beat)?;
                Ok(Used::Answered(Polls::Beat(number)))
            }
        }
    }

    /// Lets a source give up waiting for the answer to what a session sent.
    pub(crate) fn lose(&mut self, source: &SourceName, sub: &SubId) -> Result<Text, WorldFault>
        requires kept { IsKept self.old }
        ensures state { OnOk result (self.new ≡ steps.lost_step self.old source.now sub.now) }
        ensures printed { IfOk result (λ text. text ≡ steps.lost_printed self.old source.now sub.now) }
    {
        let Some(slot) = self.sources.slot_mut(source) else {
            return Ok(Text::new(self.alloc));
        };
        match slot.lose(self.alloc, sub)? {
            Used::Closed(fate) => Ok(fate_line(self.alloc, fate, source.as_text().as_str())?),
            Used::Answered(true) => Ok(Text::new(self.alloc)),
            Used::Answered(false) => Ok(pair_line("unknown", source.as_text(), sub.as_text())?),
        }
    }

    /// Lets a source end the sessions that collectors began.
    pub(crate) fn shut(&mut self, source: &SourceName) -> Result<Text, WorldFault>
        requires kept { IsKept self.old }
        ensures state { OnOk result (self.new ≡ leasing.shut_step self.old source.now) }
        ensures printed { IfOk result (λ text. text ≡ leasing.shut_printed self.old source.now) }
    {
        let Some(slot) = self.sources.slot_mut(source) else {
            return Ok(Text::new(self.alloc));
        };
        let shut = slot.shut(self.alloc)?;
        self.send_shut(source, shut)
    }

    /// Sends the notes of the ends of sessions, where ids were left for them, and tells what became of
    /// that.
    fn send_shut(
        &mut self,
        source: &SourceName,
        shut: Used<Option<List<EndNote>>>,
    ) -> Result<Text, WorldFault>
        requires { told.AreToldAs shut }
        ensures state { OnOk result (self.new ≡ told.with_shut self.old source.now shut) }
        ensures printed { IfOk result (λ text. text ≡ told.shut_line source.now (states.next_number self.old) shut) }
    {
        match shut {
            Used::Closed(fate) => Ok(fate_line(self.alloc, fate, source.as_text().as_str())?),
            Used::Answered(None) => Ok(name_line("spent", source.as_text())?),
            Used::Answered(Some(notes)) => Ok(self.send_notes(source, notes.as_slice())?),
        }
    }

    /// Sends notes of the ends of sessions, and tells of each.
    fn send_notes(&mut self, source: &SourceName, notes: &[EndNote]) -> Result<Text, AllocError>
        requires { AllByRecursion told.CanBeTold notes.now }
        ensures state { OnOk result (self.new ≡ states.with_messages self.old (map (Ended source.now) notes.now)) }
        ensures printed { IfOk result (λ text. text ≡ leasing.shut_lines source.now (states.next_number self.old) notes.now) }
    {
        if notes.is_empty() {
            return name_line("nothing", source.as_text());
        }
        self.send_each(source, notes)
    }

    fn send_each(&mut self, source: &SourceName, notes: &[EndNote]) -> Result<Text, AllocError>
        requires { AllByRecursion told.CanBeTold notes.now }
        ensures state { OnOk result (self.new ≡ states.with_messages self.old (map (Ended source.now) notes.now)) }
        ensures printed { IfOk result (λ text. text ≡ leasing.notes_text source.now (states.next_number self.old) notes.now) }
    {
        let mut text = Text::new(self.alloc);
        for note in notes {
            let number = self.send_note(source, note)?;
            let line = note_line(number, source, note)?;
            text.push_str(line.as_str())?;
        }
        Ok(text)
    }

    /// Sends an ask as its bytes, and answers its number.
    fn send_ask(&mut self, source: &SourceName, id: &MessageId) -> Result<u64, AllocError>
        requires { CanBeAsked (record { source = source.now; id = id.now }) }
        ensures state { OnOk result (self.new ≡ states.with_message self.old (Ask source.now id.now)) }
        ensures number { IfOk result (λ number. number ≡ states.next_number self.old) }
    {
        let content = Content::Ask(WishBytes::of(self.alloc, source, id)?);
        self.send(Sent::of(source.clone()?, content))
    }

    /// Sends a delivery as its bytes, and answers its number.
    fn send_delivery(&mut self, source: &SourceName, delivery: &Delivery) -> Result<u64, AllocError>
        requires { CanBeSent delivery.now }
        ensures state { OnOk result (self.new ≡ states.with_message self.old (Events source.now delivery.now)) }
        ensures number { IfOk result (λ number. number ≡ states.next_number self.old) }
    {
        let content = Content::Delivery(DeliveryBytes::of(self.alloc, delivery)?);
        self.send(Sent::of(source.clone()?, content))
    }

    /// Sends a heartbeat as its bytes, and answers its number.
    fn send_beat(&mut self, source: &SourceName, beat: &Heartbeat) -> Result<u64, AllocError>
        requires { BeatCanBeSent beat.now }
        ensures state { OnOk result (self.new ≡ states.with_message self.old (Beat source.now beat.now)) }
        ensures number { IfOk result (λ number. number ≡ states.next_number self.old) }
    {
        let content = Content::Beat(BeatBytes::of(self.alloc, beat)?);
        self.send(Sent::of(source.clone()?, content))
    }

    /// Sends a note of the end of a session as its bytes, and answers its number.
    fn send_note(&mut self, source: &SourceName, note: &EndNote) -> Result<u64, AllocError>
        requires { told.CanBeTold note.now }
        ensures state { OnOk result (self.new ≡ states.with_message self.old (Ended source.now note.now)) }
        ensures number { IfOk result (λ number. number ≡ states.next_number self.old) }
    {
        let content = Content::Ended(NoteBytes::of(self.alloc, note)?);
        self.send(Sent::of(source.clone()?, content))
    }

    /// Sends a message, and answers its number.
    pub(crate) fn send(&mut self, message: Sent) -> Result<u64, AllocError>
        ensures state { OnOk result (self.new ≡ states.with_message self.old message) }
        ensures number { IfOk result (λ number. number ≡ states.next_number self.old) }
    {
        self.messages.push(message)?;
        Ok(self.messages.len() as u64)
    }
}

/// What is printed of an ask, by what came of it.
fn asked_line(
    alloc: Global,
    source: &SourceName,
    asked: Option<Used<Option<u64>>>,
) -> Result<Text, AllocError>
    ensures { IfOk result (λ text. text ≡ sends.asked_line source.now asked) }
{
    match asked {
        None => Ok(Text::new(alloc)),
        Some(Used::Closed(fate)) => fate_line(alloc, fate, source.as_text().as_str()),
        Some(Used::Answered(None)) => name_line("spent", source.as_text()),
        Some(Used::Answered(Some(number))) => sent_ask_line(number, source),
    }
}

/// What is printed of a poll, by what came of it.
fn polled_line(
    alloc: Global,
    source: &SourceName,
    sub: &SubId,
    polled: Option<Used<Polls>>,
) -> Result<Text, AllocError>
    ensures { IfOk result (λ text. text ≡ sends.polled_line source.now sub.now polled) }
{
    let (name, named) = (source.as_text(), sub.as_text());
    match polled {
        None => Ok(Text::new(alloc)),
        Some(Used::Closed(fate)) => fate_line(alloc, fate, name.as_str()),
        Some(Used::Answered(Polls::Unknown)) => pair_line("unknown", name, named),
        Some(Used::Answered(Polls::Expired)) => pair_line("expired", name, named),
        Some(Used::Answered(Polls::Nothing)) => pair_line("nothing", name, named),
        Some(Used::Answered(Polls::Spent)) => name_line("spent", name),
        Some(Used::Answered(Polls::Sent(number))) => sent_line(number, "events", source, named),
        Some(Used::Answered(Polls::Beat(number))) => sent_line(number, "heartbeat", source, named),
    }
}

/// What is printed of a note that was sent.
fn note_line(number: u64, source: &SourceName, note: &EndNote) -> Result<Text, AllocError>
    ensures { IfOk result (λ text. text ≡ texts.sent_line number (codes "end") source.now (leasing.note_name note.now)) }
{
    let sub = subscription_named(&note.end_to)?;
    sent_line(number, "end", source, &sub)
}
