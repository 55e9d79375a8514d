//! A declared source.

ghost use Rattle.std.specs.Prelude.{◌≡◌, ◌≤◌, IfOk, OnOk};
ghost use Rattle.std.specs.declared.option.Option.TheVariants.{Some};
ghost use Rattle.wef_base.specs.declared.numbers.TheConstants.{MAX};
ghost use Rattle.wef_event.specs.Numbering.{numbered};
ghost use Rattle.wef_machine.specs.Turns.{lost_each};
ghost use Rattle.wef_source.specs.Machine.{lost_in};
ghost use Rattle.wef_places.specs.Recorded as records;

use crate::answers::Answers;
use crate::faults::WorldFault;
use crate::histories::Histories;
use crate::places::{Called, End, Placed, Used};
use std::alloc::Global;
use std::marker::Model;
use wef_base::{Bytes, Charset, List, Moment, SourceName, SubId};
use wef_event::Event;
use wef_front::{Answer, Hears};
use wef_heartbeat::Heartbeat;
use wef_ids::MessageId;
use wef_keeper::{MemKeeper, Plan, StoreFault};
use wef_machine::Armed;
use wef_source::{Delivery, EndNote, Memory, Poll, SourceEnd, SourceFault};

/// How many records of a channel a log keeps: from 1 to 1,000,000.
#[derive(Drop)]
pub struct Capacity {
    records: u64,
}

impl Model for Capacity {
    ghost use Rattle.std.specs.Prelude.{ℕ, ◌≤◌};

    ghost Value = { ℕ };

    ghost view = { λ c. c.records };

    ghost invariant = { λ c. (1 ≤ c.records) × (c.records ≤ 1000000) };
}

impl Capacity {
    /// The capacity of so many records.
    pub fn of(records: u64) -> Capacity
        requires least { 1 ≤ records }
        requires greatest { records ≤ 1000000 }
        ensures { result ≡ records }
    {
        Capacity { records }
    }

    /// The number of records.
    pub fn records(&self) -> u64
        ensures number { result ≡ self.now }
        ensures least { 1 ≤ result }
        ensures greatest { result ≤ 1000000 }
    {
        self.records
    }
}

/// What a source is started with, beside its store.
#[derive(Drop)]
pub struct Origin {
    name: SourceName,
    capacity: Capacity,
}

impl End for SourceEnd<MemKeeper> {
    ghost use Rattle.std.specs.Prelude.{refl};
    ghost use Rattle.wef_source.specs.Calls.{start_effect};
    ghost use Rattle.wef_building.specs.Faults.{source_store};
    ghost use Rattle.wef_source.specs.Machine.{start_of};
    ghost use Rattle.wef_source_log.specs.Answers.{next_boot};
    ghost use Rattle.wef_source_log.specs.Forms as forms;

    type Origin = Origin;

    type Memory = Memory;

    type Fault = SourceFault;

    ghost keeper = { λ end. end.keeper };

    ghost memory = { λ end. end.memory };

    ghost with_plan = { λ end plan. record end { keeper = record end.keeper { plan = plan } } };

    ghost of_store = { source_store };

    ghost AreFormed = { forms.AreFormed };

    ghost start_effect = { λ origin rows. start_effect rows origin.capacity };

    ghost start_memory = { λ _ rows. start_of (next_boot rows) };

    ghost plans_store = { λ _ _. refl };

    ghost plans_alone = { λ _ _. refl };

    fn plan_commit(&mut self, plan: Plan) {
        self.arrange(plan);
    }

    fn is_planned(&self) -> bool {
        self.is_armed()
    }

    fn into_store(self) -> MemKeeper {
        self.into_keeper()
    }

    fn start_over(
        alloc: Global,
        store: MemKeeper,
        origin: &Origin,
    ) -> Result<SourceEnd<MemKeeper>, (MemKeeper, SourceFault)> {
        match origin.name.clone() {
            Ok(name) => SourceEnd::start(alloc, store, name, origin.capacity.records()),
            Err(_) => {
                // What stands in the store is found, as by an opening.
                let mut store = store;
                store.crash();
                Err((store, SourceFault::NoMemory))
            }
        }
    }

    fn store_fault(fault: &SourceFault) -> Option<StoreFault> {
        match fault {
            SourceFault::NoMemory => Some(StoreFault::NoMemory),
            SourceFault::Failed => Some(StoreFault::Failed),
            _ => None,
        }
    }
}

/// A source as the world holds it: its name, how many records of a channel its log keeps, all that
/// it ever wrote, and its end, running or not.
#[derive(Drop)]
pub struct Slot {
    origin: Origin,
    histories: Histories,
    placed: Placed<SourceEnd<MemKeeper>>,
}

impl Model for Slot {
    ghost use Rattle.std.specs.Cmp.Lexicographic.{slice_cmp};
    ghost use Rattle.std.specs.Coded.{code_by, coded_ℕ, coded_list, coded×};
    ghost use Rattle.std.specs.FinMap as map;
    ghost use Rattle.std.specs.Ordering.{nat_cmp};
    ghost use Rattle.std.specs.Prelude.{ℕ, List, refl};
    ghost use Rattle.wef_machine.specs.Places.{Place};
    ghost use Rattle.wef_machine.specs.States.{Slot};
    ghost use Rattle.wef_places.specs.Codes.{coded_place};
    ghost use Rattle.wef_source.specs.Machine.{End};
    ghost use Rattle.wef_source.specs.contracts.memories.Memory as memory;
    ghost use Rattle.wef_source_log.specs.Histories.{Histories};

    ghost Value = { Slot };

    ghost coded = { code_by (ℕ × (Histories × Place End))
        (coded× coded_ℕ (coded× (map.code (coded_list coded_ℕ) (coded_list (coded_list coded_ℕ))) (coded_place memory.the_row.coded)))
        (λ s. (s.capacity, (s.histories, s.place))) (λ p. record { capacity = p.0; histories = p.1.0; place = p.1.1 }) (λ _. refl) };

    ghost use Rattle.wef_places.specs.Sourced.{source_of};

    ghost view = { λ s. record { capacity = s.origin.capacity; histories = s.histories; place = source_of s.placed } };
}

/// What a poll found.
#[derive(Drop)]
pub enum Polled {
    /// No session has the name.
    Unknown,
    /// The session's time is over.
    Expired,
    /// The session has nothing to send.
    Nothing,
    /// No message numbers are left.
    Spent,
    /// It sends a batch.
    Sent(Delivery),
    /// It has no item to send, and says that its source is there.
    Beat(Heartbeat),
}

impl Slot {
    ghost use Rattle.std.specs.Prelude.{◌≡◌, ◌≤◌, ◌+◌, length, IfOk, OnOk};
    ghost use Rattle.wef_base.specs.declared.numbers.TheConstants.{MAX};
    ghost use Rattle.wef_base.specs.declared.tree.Charset.TheVariants.{Utf8};
    ghost use Rattle.wef_front_source.specs.Heard as hearing;
    ghost use Rattle.wef_front_source.specs.HeardReplies.{offers_told, told};
    ghost use Rattle.wef_front_source.specs.Replies.{reply};
    ghost use Rattle.wef_front_source.specs.declared.hearing.Heard.{Heard};
    ghost use Rattle.wef_machine.specs.Places as places;
    ghost use Rattle.wef_machine.specs.Sources.{declared_slot, slot_opened};
    ghost use Rattle.wef_machine.specs.States.{slot_with};
    ghost use Rattle.wef_machine.specs.Turns.{lost_place, sessions_in};
    ghost use Rattle.wef_places.specs.Counted as counts;
    ghost use Rattle.wef_places.specs.Slots as slots;
    ghost use Rattle.wef_source.specs.Machine.{lost_in};
    ghost use Rattle.wef_source_log.specs.Forms.{AreFormed};
    ghost use Rattle.wef_source_log.specs.Histories.{history};

    /// A source that was just declared.
    pub fn new(alloc: Global, name: SourceName, capacity: Capacity) -> Slot
        ensures { result ≡ declared_slot capacity }
    {
        Slot {
            origin: Origin { name, capacity },
            histories: Histories::new(alloc),
            placed: Placed::new(alloc),
        }
    }

    /// All that it ever wrote.
    pub fn histories(&self) -> &Histories
        ensures { result.now ≡ self.now.histories }
    {
        &self.histories
    }

    /// Has the next commit fail, or not.
    pub fn arm(&mut self, armed: Option<Armed>)
        ensures { self.new ≡ slot_with self.old (record self.old.place { armed = armed }) }
    {
        self.placed.arm(armed);
    }

    /// Stops the source at once: its store alone is left.
    pub fn crash(&mut self, alloc: Global)
        ensures { self.new ≡ slot_with self.old (places.crashed self.old.place) }
    {
        self.placed.crash(alloc);
    }

    /// Writes an event into the log, and appends it to the history where the store keeps it.
    pub fn write(
        &mut self,
        alloc: Global,
        event: &Event,
    ) -> Result<Used<Called<u64, SourceFault>>, WorldFault>
        requires formed { AreFormed self.old.place.rows }
        requires ready { slots.IsReady (slot_opened self.old) }
        ensures slot { OnOk result (self.new ≡ slots.slot_wrote self.old event.now) }
        ensures written { IfOk result (slots.WritesAs self.old event.now) }
    {
        let fate = self.placed.open(alloc, &self.origin)?;
        let Some(source) = self.placed.running() else {
            return Ok(Used::Closed(fate));
        };
        let answer = source.write(event);
        let is_kept = self.placed.keeps();
        let called = self.placed.settle_call(alloc, answer)?;
        if is_recorded(&called, is_kept) {
            self.record(event)?;
        }
        Ok(Used::Answered(called))
    }

    /// Appends an event to its channel's history, as the next record.
    fn record(&mut self, event: &Event) -> Result<(), WorldFault>
        requires { length (history self.old.histories event.now.channel) + 1 ≤ MAX }
        ensures { OnOk result (self.new ≡ slots.recorded self.old event.now) }
    {
        let number = self.histories.count(&event.channel) + 1;
        let record = record_of(event, number)?;
        let appended = self.histories.append(&record.channel, &record.text);
        drop(record);
        Ok(appended?)
    }

    /// Draws the id of an ask. None where no id is left.
    pub fn ask(&mut self, alloc: Global) -> Result<Used<Option<MessageId>>, WorldFault>
        requires formed { AreFormed self.old.place.rows }
        ensures { IfOk result (slots.AsksAs self.old self.new) }
    {
        let fate = self.placed.open(alloc, &self.origin)?;
        let Some(source) = self.placed.running() else {
            return Ok(Used::Closed(fate));
        };
        match source.ask() {
            Ok(id) => Ok(Used::Answered(Some(id))),
            Err(SourceFault::Spent) => Ok(Used::Answered(None)),
            Err(_) => Err(WorldFault::NoMemory),
        }
    }

    /// What a session has to send, at a moment.
    pub fn poll(
        &mut self,
        alloc: Global,
        sub: &SubId,
        now: Moment,
    ) -> Result<Used<Polled>, WorldFault>
        requires formed { AreFormed self.old.place.rows }
        ensures { IfOk result (slots.PollsAs self.old self.new sub.now now) }
    {
        let fate = self.placed.open(alloc, &self.origin)?;
        let Some(source) = self.placed.running() else {
            return Ok(Used::Closed(fate));
        };
        match source.poll(sub, now) {
            Ok(Poll::Send(delivery)) => Ok(Used::Answered(Polled::Sent(delivery))),
            Ok(Poll::Beat(beat)) => Ok(Used::Answered(Polled::Beat(beat))),
            Ok(Poll::Nothing) => Ok(Used::Answered(Polled::Nothing)),
            Err(SourceFault::UnknownSubscription) => Ok(Used::Answered(Polled::Unknown)),
            Err(SourceFault::Expired) => Ok(Used::Answered(Polled::Expired)),
            Err(SourceFault::Spent) => Ok(Used::Answered(Polled::Spent)),
            Err(_) => Err(WorldFault::NoMemory),
        }
    }

    /// Gives up waiting for the answer to what a session sent. Answers whether the session is
    /// there.
    #[tactic(auto, using(crate::proofs::Opened::lost_refused))]
    pub fn lose(&mut self, alloc: Global, sub: &SubId) -> Result<Used<bool>, WorldFault>
        requires formed { AreFormed self.old.place.rows }
        ensures slot { OnOk result (self.new ≡ slots.slot_changed self.old (λ end. lost_in end sub.now)) }
        ensures answer { IfOk result (slots.LosesAs self.old sub.now) }
    {
        let fate = self.placed.open(alloc, &self.origin)?;
        let Some(source) = self.placed.running() else {
            return Ok(Used::Closed(fate));
        };
        Ok(Used::Answered(source.on_lost(sub).is_ok()))
    }

    /// Gives up waiting for all answers, where the source runs. It isn't opened for that.
    pub fn lose_all(&mut self, alloc: Global) -> Result<(), WorldFault>
        ensures { OnOk result (self.new ≡ slot_with self.old (lost_place self.old.place)) }
    {
        let names = self.session_names(alloc)?;
        if let Some(source) = self.placed.running() {
            lose_each(source, names.as_slice());
        }
        Ok(())
    }

    /// The names of the sessions of a source that runs, in the order of their bytes.
    pub fn session_names(&self, alloc: Global) -> Result<List<SubId>, WorldFault>
        ensures { IfOk result (λ names. names ≡ sessions_in self.now.place.memory) }
    {
        let Some(source) = self.placed.end() else {
            return Ok(List::new(alloc));
        };
        match source.sessions() {
            Ok(names) => Ok(names),
            Err(_) => Err(WorldFault::NoMemory),
        }
    }

    /// Ends the sessions that collectors began. None where fewer ids are left than there are ends to tell.
    pub fn shut(&mut self, alloc: Global) -> Result<Used<Option<List<EndNote>>>, WorldFault>
        requires formed { AreFormed self.old.place.rows }
        ensures shut { IfOk result (slots.ShutsAs self.old self.new) }
        ensures sent { IfOk result slots.CanAllBeSent }
    {
        let fate = self.placed.open(alloc, &self.origin)?;
        let Some(source) = self.placed.running() else {
            return Ok(Used::Closed(fate));
        };
        match source.shut() {
            Ok(notes) => Ok(Used::Answered(Some(notes))),
            Err(SourceFault::Spent) => Ok(Used::Answered(None)),
            Err(_) => Err(WorldFault::NoMemory),
        }
    }

    /// Gives the source the bytes of a request, at a moment, and answers what it answers.
    pub fn answer<A: Answers>(
        &mut self,
        alloc: Global,
        answers: &mut A,
        body: &Bytes,
        now: Moment,
    ) -> Result<Used<Answer>, WorldFault>
        requires formed { AreFormed self.old.place.rows }
        ensures slot { OnOk result ((heard : Heard) → hearing.Hears now Utf8 body.now heard → self.new ≡ slots.slot_changed self.old (λ end. (reply end heard Utf8 now).end)) }
        ensures answer { IfOk result (λ used. (heard : Heard) → hearing.Hears now Utf8 body.now heard → slots.AnswersAs self.old (λ end answer. answer ≡ (reply end heard Utf8 now).answer) used) }
        ensures calls { OnOk result (A.calls answers.new ≡ counts.counted (counts.once (counts.is_open (slot_opened self.old).place)) (A.calls answers.old)) }
    {
        let fate = self.placed.open(alloc, &self.origin)?;
        let Some(source) = self.placed.running() else {
            return Ok(Used::Closed(fate));
        };
        let answer = answers.source_answer(source, Charset::Utf8, body, now)?;
        Ok(Used::Answered(answer))
    }

    /// Gives the source the bytes of an answer, at a moment. Answers what it heard.
    pub fn hear<A: Answers>(
        &mut self,
        alloc: Global,
        answers: &mut A,
        body: &Bytes,
        now: Moment,
    ) -> Result<Used<Hears>, WorldFault>
        requires formed { AreFormed self.old.place.rows }
        ensures slot { OnOk result (self.new ≡ slots.slot_changed self.old (slots.after_told (told body.now) (offers_told now body.now) now)) }
        ensures answer { IfOk result (slots.HearsAs self.old (told body.now) (offers_told now body.now) now) }
        ensures calls { OnOk result (A.calls answers.new ≡ counts.counted (counts.once (counts.is_open (slot_opened self.old).place)) (A.calls answers.old)) }
    {
        let fate = self.placed.open(alloc, &self.origin)?;
        let Some(source) = self.placed.running() else {
            return Ok(Used::Closed(fate));
        };
        let hears = answers.source_hears(source, body, now)?;
        Ok(Used::Answered(hears))
    }
}

/// Has sessions of a source wait for no answer any longer.
fn lose_each(source: &mut SourceEnd<MemKeeper>, names: &[SubId])
    ensures memory { source.new.memory ≡ lost_each source.old.memory names.now }
    ensures keeper { source.new.keeper ≡ source.old.keeper }
    ensures name { source.new.name ≡ source.old.name }
{
    for name in names {
        lose_one(source, name);
    }
}

/// Has the session of a name wait for no answer any longer, where there is one.
#[tactic(auto, using(crate::proofs::Opened::lost_refused))]
fn lose_one(source: &mut SourceEnd<MemKeeper>, name: &SubId)
    ensures memory { source.new.memory ≡ lost_in source.old.memory name.now }
    ensures keeper { source.new.keeper ≡ source.old.keeper }
    ensures name { source.new.name ≡ source.old.name }
{
    let _ = source.on_lost(name);
}

/// Whether a write's record stands, by whether the changes of its commit are kept.
fn is_recorded(called: &Called<u64, SourceFault>, is_kept: bool) -> bool
    ensures { result ≡ records.is_recorded called.now is_kept }
{
    match called {
        Called::Done(_) => true,
        Called::Broken(_) => is_kept,
        Called::Refused(_) => false,
    }
}

/// An event that a log took as the record of a number.
fn record_of(event: &Event, number: u64) -> Result<Event, WorldFault>
    requires least { 1 ≤ number }
    requires greatest { number ≤ MAX }
    ensures record { IfOk result (λ made. numbered event.now number ≡ Some made) }
    ensures channel { IfOk result (λ made. made.channel ≡ event.now.channel) }
{
    match event.with_number(number) {
        Ok(record) => Ok(record),
        Err(_) => Err(WorldFault::NoMemory),
    }
}
