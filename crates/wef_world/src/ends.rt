//! The ends that a schedule moves.

ghost use Rattle.std.specs.Prelude.{◌≡◌, ◌+◌, min, true, [], ◌∷◌, codes, IfOk, OnOk};
ghost use Rattle.wef_base.specs.declared.moments.TheConstants.{LAST_MOMENT};
ghost use Rattle.wef_batch.specs.Numbers.{AreNumbered};
ghost use Rattle.wef_collector_rows.specs.Forms.{AreFormed};
ghost use Rattle.wef_eventing.specs.declared.subscriptions.SubKind.TheVariants.{ByCollector};
ghost use Rattle.wef_lines.specs.Printed.{name_line};
ghost use Rattle.wef_machine.specs.Collecting as collecting;
ghost use Rattle.wef_safety.specs.Kept.{IsHeld};
ghost use Rattle.wef_machine.specs.States as states;
ghost use Rattle.wef_machine.specs.States.{address_of};
ghost use Rattle.wef_machine.specs.Steps as steps;
ghost use Rattle.wef_places.specs.Collected as collected;
ghost use Rattle.wef_places.specs.Counted.{calls_after};
ghost use Rattle.wef_places.specs.Made as made;
ghost use Rattle.wef_replay.specs.Good.{allows, has_end, is_among};

use std::alloc::{AllocError, Global};
use std::collections::BTreeSet;
use std::marker::Model;
use wef_base::moments::LAST_MOMENT;
use wef_base::{Bytes, ChannelName, List, Moment, SourceName, SubId, Text};
use wef_batch::Batch;
use wef_collector::CollectorFault;
use wef_deliveries::taking::{outcome_word, take_batch};
use wef_eventing::{SourceAt, SubKind, Subscription};
use wef_lines::name_line;
use wef_machine::Armed;
use wef_messages::messages::Sent;
use wef_places::collecting::{self, Call, CollectorPlace};
use wef_places::places::{Called, Placed, Used};
use wef_places::slots::Capacity;
use wef_places::sources::Sources;
use wef_places::{Answers, WorldFault};
use wef_printing::printing::{batch_line, fate_line, held_text};
use wef_query::QueryList;
use wef_replay::{EndName, Line, is_line};

/// The collector's name in what is printed.
pub(crate) const COLLECTOR: &str = "collector";

/// A collector and sources, at a moment, and all messages that they ever sent each other.
#[derive(Drop)]
pub struct Ends {
    pub(crate) collector: CollectorPlace,
    /// The sources that `batch` lines named.
    pub(crate) foreign: BTreeSet<SourceName>,
    /// The sources that `source` lines declared.
    pub(crate) sources: Sources,
    /// A message's number is its place, counted from 1.
    pub(crate) messages: List<Sent>,
    pub(crate) moment: Moment,
    pub(crate) alloc: Global,
}

impl Model for Ends {
    ghost use Rattle.std.specs.Coded.{code_by, coded_ℕ, coded_list, coded×};
    ghost use Rattle.std.specs.FinMap as map;
    ghost use Rattle.std.specs.Prelude.{ℕ, List, refl};
    ghost use Rattle.wef_collector.specs.contracts.memories.Memory as memory;
    ghost use Rattle.wef_machine.specs.States.{Collector, Slots, State};
    ghost use Rattle.wef_machine.specs.contracts.messages.Message as message;
    ghost use Rattle.wef_machine.specs.declared.messages.Message.{Message};
    ghost use Rattle.wef_places.specs.Codes.{coded_place};
    ghost use Rattle.wef_places.specs.contracts.slots.Slot as slot;

    ghost Value = { State };

    ghost coded = { code_by ((Collector × List (List ℕ)) × (Slots × (List Message × ℕ)))
        (coded× (coded× (coded_place memory.the_row.coded) (coded_list (coded_list coded_ℕ)))
        (coded× (map.code (coded_list coded_ℕ) slot.the_row.coded) (coded× (coded_list message.the_row.coded) coded_ℕ)))
        (λ s. ((s.collector, s.foreign), (s.sources, (s.messages, s.moment))))
        (λ p. record { collector = p.0.0; foreign = p.0.1; sources = p.1.0; messages = p.1.1.0; moment = p.1.1.1 }) (λ _. refl) };

    ghost use Rattle.wef_places.specs.Collected.{collector_of};

    ghost view = { λ w. record { collector = collector_of w.collector; foreign = w.foreign.keys; sources = w.sources; messages = w.messages; moment = w.moment } };
}

impl Ends {
    /// Ends to which nothing has happened.
    pub fn new(alloc: Global) -> Ends
        ensures { result ≡ states.start }
    {
        Ends {
            collector: Placed::new(alloc),
            foreign: BTreeSet::new(alloc),
            sources: Sources::new(alloc),
            messages: List::new(alloc),
            moment: Moment::first(),
            alloc,
        }
    }

    /// The collector and the sources.
    pub fn into_places(self) -> (CollectorPlace, Sources)
        ensures collector { collected.collector_of result.0 ≡ self.collector }
        ensures sources { result.1 ≡ self.sources }
    {
        (self.collector, self.sources)
    }

    /// Whether a schedule may have the line next. It takes no memory.
    pub fn admits(&self, line: &Line) -> bool
        ensures { result ≡ steps.admits self.now line.now }
    {
        is_line(line) && self.allows(line)
    }

    /// Whether the line's source is one that the names so far allow.
    fn allows(&self, line: &Line) -> bool
        ensures { result ≡ allows (states.names_of self.now) line.now }
    {
        match line {
            Line::SubscribeAt { source, .. } => self.sources.has(source),
            Line::Batch { source, .. } => !self.sources.has(source),
            Line::Source { source, .. } => !self.sources.has(source) && !self.has_foreign(source),
            Line::Write { source, .. } => self.sources.has(source),
            Line::WriteXml { source, .. } => self.sources.has(source),
            Line::Ask { source } => self.sources.has(source),
            Line::Poll { source, .. } => self.sources.has(source),
            Line::Lost { source, .. } => self.sources.has(source),
            Line::Shut { source } => self.sources.has(source),
            Line::Crash { end } => self.has_end(end),
            Line::Fail { end, .. } => self.has_end(end),
            Line::Stop { end, .. } => self.has_end(end),
            _ => true,
        }
    }

    fn has_end(&self, end: &EndName) -> bool
        ensures { result ≡ has_end (states.names_of self.now) end.now }
    {
        match end {
            EndName::Collector => true,
            EndName::Source(source) => self.sources.has(source),
        }
    }

    fn has_foreign(&self, source: &SourceName) -> bool
        ensures { result ≡ is_among self.now.foreign source.now }
    {
        self.foreign.contains(source)
    }

    /// What a line shows of a message before it delivers it, where it asks for that.
    pub fn seen_by(&self, line: &Line) -> Result<Bytes, AllocError>
        ensures { IfOk result (λ text. text ≡ steps.seen_by line.now self.now) }
    {
        match line {
            Line::Deliver { number, seen } if *seen => self.seen(*number),
            _ => Ok(Bytes::new(self.alloc)),
        }
    }

    /// Does one line that the ends admit, and gives what it prints.
    pub fn run_line<A: Answers>(&mut self, answers: &mut A, line: &Line) -> Result<Text, WorldFault>
        requires admitted { steps.admits self.old line.now ≡ true }
        requires held { IsHeld self.old }
        ensures state { OnOk result (self.new ≡ steps.step line.now self.old) }
        ensures told { IfOk result (λ text. text ≡ steps.told_by line.now self.old) }
        ensures calls { OnOk result (A.calls answers.new ≡ calls_after line.now self.old (A.calls answers.old)) }
    {
        match line {
            Line::Subscribe {
                sub,
                items,
                bytes,
                beat,
                query,
            } => self.subscribe(sub, *items, *bytes, *beat, query),
            Line::SubscribeAt {
                sub,
                source,
                items,
                bytes,
                beat,
                expires,
                query,
            } => self.subscribe_at(sub, source, *items, *bytes, *beat, *expires, query),
            Line::End { sub } => self.end(sub),
            Line::Batch { sub, source, batch } => self.take(
                sub,
                source,
                &batch.to_batch(self.alloc)?,
            ),
            Line::Source { source, capacity } => self.declare(source, Capacity::of(*capacity)),
            Line::Write { source, event } => self.write_plain(source, event),
            Line::WriteXml { source, event } => self.write(source, event),
            Line::Ask { source } => self.ask(source),
            Line::Poll { source, sub } => self.poll(source, sub),
            Line::Deliver { number, seen: _ } => self.deliver(answers, *number),
            Line::Back { number } => self.deliver(answers, self.number_back(*number)),
            Line::Request => self.request(),
            Line::Forget => self.forget(),
            Line::Lost { source, sub } => self.lose(source, sub),
            Line::Shut { source } => self.shut(source),
            Line::Crash { end } => self.crash(end),
            Line::Fail { end, after } => self.arm(end, *after, false),
            Line::Stop { end, after } => self.arm(end, *after, true),
            Line::Calm => self.calm(),
            Line::Show => self.show(),
            Line::Print {
                sub,
                source,
                channel,
            } => self.print(sub, source, channel),
            Line::Status { sub } => self.status(sub),
            Line::Tick { milliseconds } => self.tick(*milliseconds),
            Line::Settle => self.settle(answers),
        }
    }

    fn subscribe(
        &mut self,
        sub: &SubId,
        items: u32,
        bytes: u32,
        beat: u64,
        query: &QueryList,
    ) -> Result<Text, WorldFault>
        requires formed { AreFormed self.old.collector.rows }
        requires back { made.ReadsBack (steps.subscription_of sub.now items bytes beat query.now) }
        ensures state { OnOk result (self.new ≡ collecting.at_collector self.old (λ memory. steps.subscribe_at (steps.subscription_of sub.now items bytes beat query.now))) }
        ensures printed { IfOk result (λ text. text ≡ collecting.print_at_collector self.old steps.closed_line (λ memory. steps.subscribe_text (steps.subscription_of sub.now items bytes beat query.now))) }
    {
        let subscription = subscription_of(self.alloc, sub, items, bytes, beat, query)?;
        let added = self.add(&subscription);
        drop(subscription);
        added
    }

    fn subscribe_at(
        &mut self,
        sub: &SubId,
        source: &SourceName,
        items: u32,
        bytes: u32,
        beat: u64,
        expires: u64,
        query: &QueryList,
    ) -> Result<Text, WorldFault>
        requires formed { AreFormed self.old.collector.rows }
        requires back { made.ReadsBack (steps.begun_subscription sub.now source.now items bytes beat expires query.now) }
        ensures state { OnOk result (self.new ≡ collecting.at_collector self.old (λ memory. steps.subscribe_at (steps.begun_subscription sub.now source.now items bytes beat expires query.now))) }
        ensures printed { IfOk result (λ text. text
            ≡ collecting.print_at_collector self.old steps.closed_line (λ memory. steps.subscribe_text (steps.begun_subscription sub.now source.now items bytes beat expires query.now))) }
    {
        let asked = subscription_of(self.alloc, sub, items, bytes, beat, query)?;
        let subscription = begun_at(self.alloc, asked, source, expires)?;
        let added = self.add(&subscription);
        drop(subscription);
        added
    }

    /// Gives the collector a subscription.
    fn add(&mut self, subscription: &Subscription) -> Result<Text, WorldFault>
        requires formed { AreFormed self.old.collector.rows }
        requires back { made.ReadsBack subscription.now }
        ensures state { OnOk result (self.new ≡ collecting.at_collector self.old (λ memory. steps.subscribe_at subscription.now)) }
        ensures printed { IfOk result (λ text. text ≡ collecting.print_at_collector self.old steps.closed_line (λ memory. steps.subscribe_text subscription.now)) }
    {
        let call = Call::Add(subscription);
        let added = collecting::make_call(&mut self.collector, self.alloc, call)?;
        Ok(added_line(self.alloc, subscription.name.as_text(), added)?)
    }

    fn end(&mut self, sub: &SubId) -> Result<Text, WorldFault>
        requires formed { AreFormed self.old.collector.rows }
        ensures state { OnOk result (self.new ≡ collecting.at_collector self.old (λ memory. steps.end_at sub.now)) }
        ensures printed { IfOk result (λ text. text ≡ collecting.print_at_collector self.old steps.closed_line (λ memory. steps.end_text sub.now)) }
    {
        let ended = collecting::make_call(&mut self.collector, self.alloc, Call::End(sub))?;
        Ok(ended_line(self.alloc, sub.as_text(), ended)?)
    }

    fn take(&mut self, sub: &SubId, source: &SourceName, batch: &Batch) -> Result<Text, WorldFault>
        requires formed { AreFormed self.old.collector.rows }
        requires numbered { AreNumbered batch.now.items }
        ensures state { OnOk result (self.new ≡ collecting.at_collector (states.with_foreign self.old source.now) (λ memory. steps.batch_at sub.now source.now batch.now)) }
        ensures printed { IfOk result (λ text. text
            ≡ collecting.print_at_collector (states.with_foreign self.old source.now) (steps.closed_batch sub.now source.now) (λ memory. steps.batch_line sub.now source.now batch.now)) }
    {
        self.note_foreign(source)?;
        let (alloc, now) = (self.alloc, self.moment);
        let taken = take_batch(&mut self.collector, alloc, sub, source, batch, now)?;
        let word = outcome_word(alloc, &taken, batch)?;
        Ok(batch_line(sub, source, word.as_str())?)
    }

    /// Keeps the name of a foreign source, unless it is there.
    fn note_foreign(&mut self, source: &SourceName) -> Result<(), AllocError>
        ensures { OnOk result (self.new ≡ states.with_foreign self.old source.now) }
    {
        self.foreign.insert(source.clone()?)?;
        Ok(())
    }

    fn show(&mut self) -> Result<Text, WorldFault>
        requires formed { AreFormed self.old.collector.rows }
        ensures state { OnOk result (self.new ≡ collecting.at_collector self.old (λ memory. steps.unchanged)) }
        ensures printed { IfOk result (λ text. text ≡ collecting.print_at_collector self.old steps.closed_line (λ memory. steps.show_text)) }
    {
        let fate = collecting::open(&mut self.collector, self.alloc)?;
        let Some(collector) = self.collector.running() else {
            return Ok(fate_line(self.alloc, fate, COLLECTOR)?);
        };
        match collector.report() {
            Ok(text) => Ok(text),
            Err(_) => Err(WorldFault::NoMemory),
        }
    }

    fn print(
        &mut self,
        sub: &SubId,
        source: &SourceName,
        channel: &ChannelName,
    ) -> Result<Text, WorldFault>
        requires formed { AreFormed self.old.collector.rows }
        ensures state { OnOk result (self.new ≡ collecting.at_collector self.old (λ memory. steps.unchanged)) }
        ensures printed { IfOk result (λ text. text ≡ collecting.print_at_collector self.old steps.closed_line (λ memory. steps.print_text sub.now source.now channel.now)) }
    {
        let fate = collecting::open(&mut self.collector, self.alloc)?;
        let Some(collector) = self.collector.running() else {
            return Ok(fate_line(self.alloc, fate, COLLECTOR)?);
        };
        match held_text(self.alloc, collector, sub, source, channel) {
            Ok(text) => Ok(text),
            Err(CollectorFault::NoSubscription) => Ok(name_line("unknown", sub.as_text())?),
            Err(_) => Err(WorldFault::NoMemory),
        }
    }

    fn status(&mut self, sub: &SubId) -> Result<Text, WorldFault>
        requires formed { AreFormed self.old.collector.rows }
        ensures state { OnOk result (self.new ≡ collecting.at_collector self.old (λ memory. steps.unchanged)) }
        ensures printed { IfOk result (λ text. text ≡ collecting.print_at_collector self.old steps.closed_line (λ memory. steps.status_text sub.now)) }
    {
        let (alloc, now) = (self.alloc, self.moment);
        let fate = collecting::open(&mut self.collector, alloc)?;
        let Some(collector) = self.collector.running() else {
            return Ok(fate_line(alloc, fate, COLLECTOR)?);
        };
        match collector.statuses(sub, now) {
            Ok(text) => Ok(text),
            Err(CollectorFault::NoSubscription) => Ok(name_line("unknown", sub.as_text())?),
            Err(_) => Err(WorldFault::NoMemory),
        }
    }

    fn crash(&mut self, end: &EndName) -> Result<Text, WorldFault>
        ensures state { OnOk result (self.new ≡ steps.crash_step self.old end.now) }
        ensures printed { IfOk result (λ text. text ≡ name_line (codes "crashed") (steps.end_name end.now)) }
    {
        match end {
            EndName::Collector => {
                self.collector.crash(self.alloc);
                let name = Text::from_str(self.alloc, COLLECTOR)?;
                Ok(name_line("crashed", &name)?)
            }
            EndName::Source(source) => {
                if let Some(slot) = self.sources.slot_mut(source) {
                    slot.crash(self.alloc);
                }
                Ok(name_line("crashed", source.as_text())?)
            }
        }
    }

    /// Has an end's next commit fail, with its changes kept or not; the end may be stopped in it.
    fn arm(&mut self, end: &EndName, after: bool, stops: bool) -> Result<Text, WorldFault>
        ensures state { OnOk result (self.new ≡ steps.arm_step self.old end.now (record { after = after; stops = stops })) }
        ensures printed { IfOk result (λ text. text ≡ []) }
    {
        let armed = Armed { after, stops };
        match end {
            EndName::Collector => self.collector.arm(Some(armed)),
            EndName::Source(source) => {
                if let Some(slot) = self.sources.slot_mut(source) {
                    slot.arm(Some(armed));
                }
            }
        }
        Ok(Text::new(self.alloc))
    }

    fn calm(&mut self) -> Result<Text, WorldFault>
        ensures state { self.new ≡ steps.calm_step self.old }
        ensures printed { IfOk result (λ text. text ≡ []) }
    {
        self.collector.arm(None);
        self.sources.calm();
        Ok(Text::new(self.alloc))
    }

    /// Moves the moment on, to the last one at most.
    fn tick(&mut self, milliseconds: u64) -> Result<Text, WorldFault>
        ensures state { self.new ≡ steps.tick_step self.old milliseconds }
        ensures printed { IfOk result (λ text. text ≡ []) }
    {
        self.moment = later(self.moment, milliseconds);
        Ok(Text::new(self.alloc))
    }
}

/// The moment so many milliseconds later, or the last one.
fn later(moment: Moment, milliseconds: u64) -> Moment
    ensures { result ≡ min (moment + milliseconds) LAST_MOMENT }
{
    let milliseconds = moment.milliseconds().saturating_add(milliseconds);
    Moment::of(milliseconds.min(LAST_MOMENT)).unwrap_or(moment)
}

/// A subscription that a line tells of.
fn subscription_of(
    alloc: Global,
    sub: &SubId,
    items: u32,
    bytes: u32,
    beat: u64,
    query: &QueryList,
) -> Result<Subscription, AllocError>
    ensures { IfOk result (λ subscription. subscription ≡ steps.subscription_of sub.now items bytes beat query.now) }
{
    Ok(Subscription {
        name: sub.clone()?,
        kind: SubKind::BySource,
        query: query.clone(alloc)?,
        max_items: items,
        max_bytes: bytes,
        heartbeat: beat,
        expires: 3_600_000,
        sources: List::new(alloc),
        version: 1,
    })
}

/// A subscription that the collector begins at a source, in place of one that sources ask for.
fn begun_at(
    alloc: Global,
    asked: Subscription,
    source: &SourceName,
    expires: u64,
) -> Result<Subscription, AllocError>
    ensures { IfOk result (λ begun. begun ≡ record asked { kind = ByCollector; expires = expires; sources = record { name = source.now; address = address_of source.now } ∷ [] }) }
{
    let mut sources = List::new(alloc);
    sources.push(source_at(source)?)?;
    let mut begun = asked;
    begun.kind = SubKind::ByCollector;
    begun.expires = expires;
    begun.sources = sources;
    Ok(begun)
}

/// A source, and where it is found.
fn source_at(source: &SourceName) -> Result<SourceAt, AllocError>
    ensures { IfOk result (λ at. at ≡ record { name = source.now; address = address_of source.now }) }
{
    let mut address = source.as_text().clone()?;
    address.push_str(":5985")?;
    Ok(SourceAt {
        name: source.clone()?,
        address,
    })
}

/// What is printed of a call that adds a subscription.
fn added_line(
    alloc: Global,
    name: &Text,
    added: Used<Called<(), CollectorFault>>,
) -> Result<Text, AllocError>
    ensures { IfOk result (λ text. text ≡ collected.added_text name.now added) }
{
    match added {
        Used::Closed(fate) => fate_line(alloc, fate, COLLECTOR),
        Used::Answered(Called::Done(())) => name_line("added", name),
        Used::Answered(Called::Broken(fate)) => fate_line(alloc, fate, COLLECTOR),
        Used::Answered(Called::Refused(CollectorFault::Exists)) => name_line("exists", name),
        Used::Answered(Called::Refused(CollectorFault::TooMany)) => {
            Text::from_str(alloc, "full\n")
        }
        Used::Answered(Called::Refused(_)) => Ok(Text::new(alloc)),
    }
}

/// What is printed of a call that ends a subscription.
fn ended_line(
    alloc: Global,
    name: &Text,
    ended: Used<Called<(), CollectorFault>>,
) -> Result<Text, AllocError>
    ensures { IfOk result (λ text. text ≡ collected.ended_text name.now ended) }
{
    match ended {
        Used::Closed(fate) => fate_line(alloc, fate, COLLECTOR),
        Used::Answered(Called::Done(())) => name_line("ended", name),
        Used::Answered(Called::Broken(fate)) => fate_line(alloc, fate, COLLECTOR),
        Used::Answered(Called::Refused(CollectorFault::NoSubscription)) => {
            name_line("unknown", name)
        }
        Used::Answered(Called::Refused(CollectorFault::Ended)) => name_line("already", name),
        Used::Answered(Called::Refused(_)) => Ok(Text::new(alloc)),
    }
}
