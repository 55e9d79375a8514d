//! The source end.

ghost use Rattle.std.specs.List.{AllByRecursion};
ghost use Rattle.std.specs.Prelude.{◌≡◌, ◌≤◌, IfOk, IfErr, OnOk, OnErr, MatchResult};
ghost use Rattle.wef_eventing.specs.Sending.{AreServable};
ghost use Rattle.wef_keeper.specs.Calls.{DoesWith, IsCall};
ghost use Rattle.wef_keeper.specs.Keeping as keeping;
ghost use Rattle.wef_keeper.specs.declared.keeping.Plan.TheVariants.{Done, Fails};
ghost use Rattle.wef_query.specs.Order.{IsInOrder};
ghost use Rattle.wef_building.specs.Refusals.{WantsMemory};
ghost use Rattle.wef_source.specs.Accounts.{PollAccount};
ghost use Rattle.wef_source.specs.Answers as answers;
ghost use Rattle.wef_source.specs.Calls.{JudgesStart, JudgesWrite, start_effect, write_effect};
ghost use Rattle.wef_building.specs.Faults.{source_answer, source_store};
ghost use Rattle.wef_source.specs.Machine as machine;
ghost use Rattle.wef_source.specs.Serving.{CanBeAccepted, NoteCanBeSent, HasKeptSessions, longest_lease};
ghost use Rattle.wef_source.specs.Sessions as the_sessions;
ghost use Rattle.wef_source_log.specs.Answers.{ExtendsHistory, next_boot, next_number};
ghost use Rattle.wef_source_log.specs.Forms.{AreFormed};

use crate::memories::Memory;
use crate::messages::{Accepted, EndNote, Moved, Poll, Reply};
use std::alloc::Global;
use std::marker::Model;
use wef_base::moments::Moment;
use wef_base::{List, SourceName, SubId, Text};
use wef_building::SourceFault;
use wef_event::Event;
use wef_eventing::{Offer, Subscribe};
use wef_ids::MessageId;
use wef_keeper::{Keeper, MemKeeper, Plan};
use wef_source_log::{Log, LogFault};

/// Writes events into its log, asks a collector for subscriptions, and sends it the events that they
/// ask for, batch by batch. The rows of its log outlive it; what it remembers doesn't.
#[derive(Drop)]
pub struct SourceEnd<K> {
    log: Log<K>,
    name: SourceName,
    memory: Memory,
}

impl<K> Model for SourceEnd<K> {
    ghost use Rattle.std.specs.Coded.{code_by, coded_ℕ, coded_list, coded×};
    ghost use Rattle.std.specs.Prelude.{ℕ, List, refl};
    ghost use Rattle.wef_source.specs.Machine.{End};
    ghost use Rattle.wef_source.specs.State.{SourceState};
    ghost use Rattle.wef_source.specs.contracts.memories.Memory as the_memory;

    ghost Value = { SourceState K };

    ghost coded = { code_by (K × (List ℕ × End)) (coded× K.code (coded× (coded_list coded_ℕ) the_memory.the_row.coded))
        (λ end. (end.keeper, (end.name, end.memory))) (λ p. record { keeper = p.0; name = p.1.0; memory = p.1.1 }) (λ _. refl) };

    ghost view = { λ end. record { keeper = end.log.keeper; name = end.name; memory = end.memory } };
}

impl<K: Keeper> SourceEnd<K> {
    /// Starts the source of a name over its store, once more: as `Log::start`. A refused start hands
    /// the store back.
    pub fn start(
        alloc: Global,
        keeper: K,
        name: SourceName,
        capacity: u64,
    ) -> Result<SourceEnd<K>, (K, SourceFault)>
        requires least { 1 ≤ capacity }
        requires greatest { capacity ≤ 1000000 }
        ensures call { MatchResult result
            (λ end. IsCall source_store AreFormed (λ found. start_effect found capacity) next_boot (Ok end.memory.boot) (K.store keeper) (K.store end.keeper))
            (λ refused. IsCall source_store AreFormed (λ found. start_effect found capacity) next_boot (Err refused.1) (K.store keeper) (K.store refused.0)) }
        ensures memory { IfOk result (λ end. end.memory ≡ machine.start_of end.memory.boot) }
        ensures name { IfOk result (λ end. end.name ≡ name) }
        ensures judged { MatchResult result
            (λ end. DoesWith source_store AreFormed (λ found. start_effect found capacity) next_boot (λ answer found after. JudgesStart answer found) (Ok end.memory.boot) (K.store keeper) (K.store end.keeper))
            (λ refused. DoesWith source_store AreFormed (λ found. start_effect found capacity) next_boot (λ answer found after. JudgesStart answer found) (Err refused.1) (K.store keeper) (K.store refused.0)) }
        ensures listed { IfErr result (λ refused. answers.RefusesStart refused.1) }
    {
        match Log::start(alloc, keeper, capacity) {
            Ok(log) => {
                let memory = Memory::new(alloc, log.boot());
                Ok(SourceEnd { log, name, memory })
            }
            Err((keeper, fault)) => Err((keeper, SourceFault::from(fault))),
        }
    }

    /// The boot number.
    pub fn boot(&self) -> u64
        ensures { result ≡ self.now.memory.boot }
    {
        self.memory.boot()
    }

    /// The source's name.
    pub fn name(&self) -> &SourceName
        ensures { result.now ≡ self.now.name }
    {
        &self.name
    }

    /// Writes an event as the next record of its channel, and answers its number.
    pub fn write(&mut self, event: &Event) -> Result<u64, SourceFault>
        ensures call { IsCall source_store AreFormed (λ found. write_effect found event.now) (λ found. next_number found event.now) result (K.store self.old.keeper) (K.store self.new.keeper) }
        ensures judged { DoesWith source_store AreFormed (λ found. write_effect found event.now) (λ found. next_number found event.now)
            (λ answer found after. JudgesWrite answer event.now.channel found × IfOk answer (ExtendsHistory found after event.now)) result (K.store self.old.keeper) (K.store self.new.keeper) }
        ensures listed { IfErr result answers.RefusesLog }
        ensures memory { self.new.memory ≡ self.old.memory }
        ensures name { self.new.name ≡ self.old.name }
    {
        handed(self.log.write(event))
    }

    /// Draws the id of an ask for subscriptions. An older ask isn't answered any more. Where there is
    /// no memory for the id's text it isn't drawn.
    pub fn ask(&mut self) -> Result<MessageId, SourceFault>
        ensures ok { IfOk result (answers.Asks self.old.memory self.new.memory) }
        ensures refusal { IfErr result (λ fault. answers.RefusesAsk fault self.old.memory) }
        ensures err { OnErr result (self.new.memory ≡ self.old.memory) }
        ensures keeper { self.new.keeper ≡ self.old.keeper }
        ensures name { self.new.name ≡ self.old.name }
    {
        self.memory.ask()
    }

    /// Draws the next id. Where there is no memory for its text it isn't drawn.
    pub fn draw(&mut self) -> Result<MessageId, SourceFault>
        ensures ok { IfOk result (answers.DrawsId self.old.memory self.new.memory) }
        ensures refusal { IfErr result (λ fault. answers.RefusesAsk fault self.old.memory) }
        ensures err { OnErr result (self.new.memory ≡ self.old.memory) }
        ensures keeper { self.new.keeper ≡ self.old.keeper }
        ensures name { self.new.name ≡ self.old.name }
    {
        self.memory.draw()
    }

    /// How many ids can still be drawn before the next start.
    pub fn ids_left(&self) -> u64
        ensures { result ≡ machine.ids_left self.now.memory }
    {
        self.memory.ids_left()
    }

    /// Takes the offers that answer the ask, at a moment: they give the sessions that the source asked for from now
    /// on, which begin where the offers say. A session that a collector began stays, unless an offer has its name.
    /// Of two offers of one name the later stands; one whose address leads to no subscription is passed over.
    /// Answers how many sessions the source asked for. The offers' batches have to go to addresses of HTTP, with
    /// identifiers that XML allows.
    pub fn adopt(
        &mut self,
        relates: &MessageId,
        offers: &List<Offer>,
        now: Moment,
    ) -> Result<u64, SourceFault>
        requires { AreServable offers.now }
        ensures ok { IfOk result (answers.Adopts self.old.memory self.new.memory relates.now offers.now now) }
        ensures refusal { IfErr result (λ fault. answers.RefusesAdopt fault self.old.memory relates.now) }
        ensures err { OnErr result (self.new.memory ≡ self.old.memory) }
        ensures keeper { self.new.keeper ≡ self.old.keeper }
        ensures name { self.new.name ≡ self.old.name }
    {
        self.memory.adopt(relates, offers, now)
    }

    /// Accepts a collector's wish at a moment: its session begins where the wish says, in place of one of its name.
    /// Answers the identifier by which the collector names the session, which is the text of an id that is drawn, and
    /// how long it stands.
    pub fn accept(&mut self, subscribe: &Subscribe, now: Moment) -> Result<Accepted, SourceFault>
        requires { CanBeAccepted subscribe.now }
        ensures ok { IfOk result (answers.Accepts self.old.memory self.new.memory subscribe.now now) }
        ensures refusal { IfErr result (λ fault. answers.RefusesAsk fault self.old.memory) }
        ensures err { OnErr result (self.new.memory ≡ self.old.memory) }
        ensures keeper { self.new.keeper ≡ self.old.keeper }
        ensures name { self.new.name ≡ self.old.name }
    {
        self.memory.accept(subscribe, now)
    }

    /// Has the session that a collector began and names so stand for so long from a moment on, in milliseconds, and
    /// answers this. It takes no memory.
    pub fn renew(
        &mut self,
        identifier: &Text,
        expires: u64,
        now: Moment,
    ) -> Result<u64, SourceFault>
        requires { expires ≤ longest_lease }
        ensures ok { IfOk result (answers.Renews self.old.memory self.new.memory identifier.now expires now) }
        ensures refusal { IfErr result (λ fault. answers.RefusesLeased fault self.old.memory.sessions identifier.now now) }
        ensures err { OnErr result (self.new.memory ≡ self.old.memory) }
        ensures keeper { self.new.keeper ≡ self.old.keeper }
        ensures name { self.new.name ≡ self.old.name }
    {
        self.memory.renew(identifier, expires, now)
    }

    /// How long the session stands from a moment on, in milliseconds, that a collector began and names so. It takes no
    /// memory.
    pub fn status(&self, identifier: &Text, now: Moment) -> Result<u64, SourceFault>
        ensures ok { IfOk result (answers.TellsLeft self.now.memory.sessions identifier.now now) }
        ensures refusal { IfErr result (λ fault. answers.RefusesLeased fault self.now.memory.sessions identifier.now now) }
    {
        self.memory.status(identifier, now)
    }

    /// Ends the session that a collector began and names so. It takes no memory.
    pub fn cancel(&mut self, identifier: &Text) -> Result<(), SourceFault>
        ensures ok { OnOk result (answers.Cancels self.old.memory self.new.memory identifier.now) }
        ensures refusal { IfErr result (λ fault. answers.RefusesCancel fault self.old.memory identifier.now) }
        ensures err { OnErr result (self.new.memory ≡ self.old.memory) }
        ensures keeper { self.new.keeper ≡ self.old.keeper }
        ensures name { self.new.name ≡ self.old.name }
    {
        self.memory.cancel(identifier)
    }

    /// Ends the sessions that collectors began. Answers what is to be sent to those that are told of it, in the order
    /// of the sessions' names.
    pub fn shut(&mut self) -> Result<List<EndNote>, SourceFault>
        ensures ok { IfOk result (answers.Shuts self.old.memory self.new.memory) }
        ensures told { IfOk result (λ notes. AllByRecursion NoteCanBeSent notes) }
        ensures refusal { IfErr result (λ fault. answers.RefusesShut fault self.old.memory) }
        ensures err { OnErr result (self.new.memory ≡ self.old.memory) }
        ensures keeper { self.new.keeper ≡ self.old.keeper }
        ensures name { self.new.name ≡ self.old.name }
    {
        self.memory.shut()
    }

    /// What a source remembers keeps this of its sessions.
    pub fn sessions_are_kept(&self)
        ensures { HasKeptSessions self.now.memory }
    {
        self.memory.sessions_are_kept();
    }

    /// The names of the sessions' subscriptions, in the order of their bytes.
    pub fn sessions(&self) -> Result<List<SubId>, SourceFault>
        ensures ok { IfOk result (λ names. names ≡ the_sessions.names_of self.now.memory.sessions) }
        ensures in_order { IfOk result IsInOrder }
        ensures refusal { IfErr result WantsMemory }
    {
        self.memory.sessions()
    }

    /// What a session has to send at a moment, where its time isn't over: a batch; a heartbeat that is due, where the
    /// batch would have no item; and nothing while an answer is outstanding. The store is used only where none is.
    pub fn poll(&mut self, sub: &SubId, now: Moment) -> Result<Poll, SourceFault>
        ensures account { PollAccount self.old.keeper self.new.keeper (K.store self.old.keeper) (K.store self.new.keeper) self.old.memory self.new.memory sub.now now result }
        ensures name { self.new.name ≡ self.old.name }
    {
        self.memory.poll(&mut self.log, sub, now)
    }

    /// Takes the answer to what a session sent. It takes no memory.
    pub fn on_reply(&mut self, relates: &MessageId, reply: &Reply) -> Result<Moved, SourceFault>
        ensures ok { IfOk result (answers.Answers self.old.memory self.new.memory relates.now reply.now) }
        ensures refusal { IfErr result (λ fault. answers.RefusesAnswer fault self.old.memory relates.now) }
        ensures err { OnErr result (self.new.memory ≡ self.old.memory) }
        ensures keeper { self.new.keeper ≡ self.old.keeper }
        ensures name { self.new.name ≡ self.old.name }
    {
        self.memory.on_reply(relates, reply)
    }

    /// Gives up waiting for the answer to what a session sent. It takes no memory.
    pub fn on_lost(&mut self, sub: &SubId) -> Result<(), SourceFault>
        ensures ok { OnOk result (answers.Loses self.old.memory self.new.memory sub.now) }
        ensures refusal { IfErr result (λ fault. answers.RefusesLost fault self.old.memory sub.now) }
        ensures err { OnErr result (self.new.memory ≡ self.old.memory) }
        ensures keeper { self.new.keeper ≡ self.old.keeper }
        ensures name { self.new.name ≡ self.old.name }
    {
        self.memory.on_lost(sub)
    }

    /// The store, as it stands. What is remembered is lost.
    pub fn into_keeper(self) -> K
        ensures { result ≡ self.keeper }
    {
        let SourceEnd {
            log,
            name: _,
            memory: _,
        } = self;
        log.into_keeper()
    }
}

impl SourceEnd<MemKeeper> {
    /// Spends ids until at most so many are left.
    pub fn spend_ids(&mut self, left: u64)
        ensures { self.new ≡ record self.old { memory = machine.with_ids_left left self.old.memory } }
    {
        self.memory.spend_ids(left);
    }

    /// Plans the next commit of the store.
    pub fn arrange(&mut self, plan: Plan)
        ensures { self.new ≡ record self.old { keeper = record self.old.keeper { plan = plan } } }
    {
        self.log.arrange(plan);
    }

    /// Arms the next commit of the store: it fails, and its changes are kept where `after` is true.
    pub fn fail_next(&mut self, after: bool)
        ensures { self.new ≡ record self.old { keeper = record self.old.keeper { plan = Fails after } } }
    {
        self.log.fail_next(after);
    }

    /// Disarms the next commit of the store.
    pub fn calm(&mut self)
        ensures { self.new ≡ record self.old { keeper = record self.old.keeper { plan = Done } } }
    {
        self.log.calm();
    }

    /// Whether the next commit of the store is armed.
    pub fn is_armed(&self) -> bool
        ensures { result ≡ keeping.is_armed self.now.keeper.plan }
    {
        self.log.is_armed()
    }
}

/// A log's answer, as the source's.
fn handed(answer: Result<u64, LogFault>) -> Result<u64, SourceFault>
    ensures answer { result ≡ source_answer answer }
    ensures listed { IfErr result answers.RefusesLog }
{
    Ok(answer?)
}
