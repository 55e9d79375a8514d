//! What a source remembers while it runs. It is lost where the source ends.

ghost use Rattle.std.specs.FinMap as map;
ghost use Rattle.std.specs.List.{AllByRecursion};
ghost use Rattle.std.specs.Prelude.{◌≡◌, ◌+◌, ◌≤◌, length, false, true, is_some, IfOk, IfErr, IfSome, OnOk, OnErr};
ghost use Rattle.wef_eventing.specs.Sending.{AreServable};
ghost use Rattle.wef_ids.specs.Ids.{ids_agree};
ghost use Rattle.wef_keeper.specs.Access as access;
ghost use Rattle.wef_keeper.specs.Calls.{fails};
ghost use Rattle.wef_query.specs.Order.{IsInOrder};
ghost use Rattle.wef_building.specs.Refusals.{WantsMemory};
ghost use Rattle.wef_source.specs.Accounts.{PollAccount, PreparedAccount};
ghost use Rattle.wef_source.specs.Answers as answers;
ghost use Rattle.wef_building.specs.Faults.{source_store};
ghost use Rattle.wef_building.specs.Judged.{JudgesBatch};
ghost use Rattle.wef_source.specs.Machine as machine;
ghost use Rattle.wef_source.specs.Prepared.{MayDraw, MayRefuseToPrepare, Prepares, RefusesToPrepare, awaiting, delivery_with};
ghost use Rattle.wef_source.specs.Serving.{CanBeAccepted, NoteCanBeSent, HasKeptSessions, longest_lease};
ghost use Rattle.wef_source.specs.Sessions as the_sessions;
ghost use Rattle.wef_source.specs.declared.sending.Outgoing.TheVariants as outgoing;
ghost use Rattle.wef_source_log.specs.Forms.{AreFormed};

use crate::accepting::begun;
use crate::adopting::{asked_for, put_session, sessions_of};
use crate::ending::push_note;
use crate::messages::{Accepted, EndNote, Moved, Poll, Reply};
use crate::sending::{Outgoing, beat_under, delivery_under};
use crate::serving::{
    Answer, answer_waiting, end_all_leased, end_leased, has_expired, is_due, left_of_lease,
    place_of_name, refuse_waiting, renew_leased, send, settle_named,
};
use std::alloc::{AllocError, Global};
use std::marker::Model;
use wef_base::moments::Moment;
use wef_base::{List, SubId, Text};
use wef_batch::Batch;
use wef_bookmark::Bookmark;
use wef_building::building::built;
use wef_building::{Outstanding, Session, SourceFault};
use wef_eventing::{Offer, Subscribe};
use wef_ids::{FaultName, MessageId};
use wef_keeper::Keeper;
use wef_source_log::Log;

/// What a source remembers: the ids that it drew, its ask, and its sessions.
#[derive(Drop)]
pub struct Memory {
    /// The boot number, with which its ids begin.
    boot: u64,
    /// How many ids were drawn since the start.
    drawn: u64,
    /// The value of the id of the last ask that wasn't answered.
    ask: Option<u128>,
    /// In the order of their names.
    sessions: Vec<Session>,
    alloc: Global,
}

impl Model for Memory {
    ghost use Rattle.std.specs.Coded.{code_by, coded_ℕ, coded_list, coded_option, coded×};
    ghost use Rattle.std.specs.Prelude.{ℕ, List, Option, refl};
    ghost use Rattle.wef_source.specs.Machine.{End};
    ghost use Rattle.wef_source.specs.Serving.{HasKeptSessions};
    ghost use Rattle.wef_building.specs.contracts.sessions.Session as session;
    ghost use Rattle.wef_building.specs.declared.sessions.Session.{Session};

    ghost Value = { End };

    ghost coded = { code_by (ℕ × (ℕ × (Option ℕ × List Session)))
        (coded× coded_ℕ (coded× coded_ℕ (coded× (coded_option coded_ℕ) (coded_list session.the_row.coded))))
        (λ e. (e.boot, (e.drawn, (e.ask, e.sessions)))) (λ p. record { boot = p.0; drawn = p.1.0; ask = p.1.1.0; sessions = p.1.1.1 }) (λ _. refl) };

    ghost view = { λ m. record { boot = m.boot; drawn = m.drawn; ask = m.ask; sessions = m.sessions.items } };

    ghost invariant = { λ m. HasKeptSessions (record { boot = m.boot; drawn = m.drawn; ask = m.ask; sessions = m.sessions.items }) };
}

impl Memory {
    /// What a source remembers that was just started. It takes no memory.
    pub fn new(alloc: Global, boot: u64) -> Memory
        ensures { result ≡ machine.start_of boot }
    {
        Memory {
            boot,
            drawn: 0,
            ask: None,
            sessions: Vec::new(alloc),
            alloc,
        }
    }

    /// The boot number.
    pub fn boot(&self) -> u64
        ensures { result ≡ self.now.boot }
    {
        self.boot
    }

    /// Draws the id of an ask for subscriptions. An older ask isn't answered any more. Where there is
    /// no memory for the id's text it isn't drawn.
    pub fn ask(&mut self) -> Result<MessageId, SourceFault>
        ensures ok { IfOk result (answers.Asks self.old self.new) }
        ensures refusal { IfErr result (λ fault. answers.RefusesAsk fault self.old) }
        ensures err { OnErr result (self.new ≡ self.old) }
    {
        let value = self.next_id()?;
        let id = MessageId::of_value(self.alloc, value)?;
        self.drawn += 1;
        self.ask = Some(value);
        Ok(id)
    }

    /// Draws the next id. Where there is no memory for its text it isn't drawn.
    pub fn draw(&mut self) -> Result<MessageId, SourceFault>
        ensures ok { IfOk result (answers.DrawsId self.old self.new) }
        ensures refusal { IfErr result (λ fault. answers.RefusesAsk fault self.old) }
        ensures err { OnErr result (self.new ≡ self.old) }
    {
        let value = self.next_id()?;
        let id = MessageId::of_value(self.alloc, value)?;
        self.drawn += 1;
        Ok(id)
    }

    /// How many ids can still be drawn before the next start.
    pub fn ids_left(&self) -> u64
        ensures { result ≡ machine.ids_left self.now }
    {
        u64::MAX - self.drawn
    }

    /// Spends ids until at most so many are left.
    pub fn spend_ids(&mut self, left: u64)
        ensures { self.new ≡ machine.with_ids_left left self.old }
    {
        self.drawn = self.drawn.max(u64::MAX - left);
    }

    /// Takes the offers that answer the ask, at a moment: they give the sessions that the source asked for from now
    /// on, which begin where the offers say. A session that a collector began stays, unless an offer has its name.
    /// Of two offers of one name the later stands; one whose address leads to no subscription is passed over.
    /// Answers how many sessions the source asked for. The offers' batches have to go to addresses of HTTP, with
    /// identifiers that XML allows.
    pub fn adopt(
        &mut self,
        relates: &MessageId,
        offers: &List<Offer>,
        now: Moment,
    ) -> Result<u64, SourceFault>
        requires { AreServable offers.now }
        ensures ok { IfOk result (answers.Adopts self.old self.new relates.now offers.now now) }
        ensures refusal { IfErr result (λ fault. answers.RefusesAdopt fault self.old relates.now) }
        ensures err { OnErr result (self.new ≡ self.old) }
    {
        if !agree(self.ask, relates.value) {
            return Err(SourceFault::NotAsked);
        }
        let sessions = sessions_of(self.alloc, self.sessions.as_slice(), offers, now)?;
        let count = asked_for(sessions.as_slice());
        self.sessions = sessions;
        self.ask = None;
        Ok(count)
    }

    /// Accepts a collector's wish at a moment: its session begins where the wish says, in place of one of its name.
    /// Answers the identifier by which the collector names the session, which is the text of an id that is drawn, and
    /// how long it stands.
    pub fn accept(&mut self, subscribe: &Subscribe, now: Moment) -> Result<Accepted, SourceFault>
        requires { CanBeAccepted subscribe.now }
        ensures ok { IfOk result (answers.Accepts self.old self.new subscribe.now now) }
        ensures refusal { IfErr result (λ fault. answers.RefusesAsk fault self.old) }
        ensures err { OnErr result (self.new ≡ self.old) }
    {
        let value = self.next_id()?;
        let (session, accepted) = begun(self.alloc, value, subscribe, now)?;
        put_session(&mut self.sessions, session)?;
        self.drawn += 1;
        Ok(accepted)
    }

    /// Has the session that a collector began and names so stand for so long from a moment on, in milliseconds, and
    /// answers this. It takes no memory.
    pub fn renew(
        &mut self,
        identifier: &Text,
        expires: u64,
        now: Moment,
    ) -> Result<u64, SourceFault>
        requires { expires ≤ longest_lease }
        ensures ok { IfOk result (answers.Renews self.old self.new identifier.now expires now) }
        ensures refusal { IfErr result (λ fault. answers.RefusesLeased fault self.old.sessions identifier.now now) }
        ensures err { OnErr result (self.new ≡ self.old) }
    {
        renew_leased(
            &mut self.sessions,
            identifier,
            now.milliseconds() + expires,
            now,
        )?;
        Ok(expires)
    }

    /// How long the session stands from a moment on, in milliseconds, that a collector began and names so. It takes no
    /// memory.
    pub fn status(&self, identifier: &Text, now: Moment) -> Result<u64, SourceFault>
        ensures ok { IfOk result (answers.TellsLeft self.now.sessions identifier.now now) }
        ensures refusal { IfErr result (λ fault. answers.RefusesLeased fault self.now.sessions identifier.now now) }
    {
        left_of_lease(self.sessions.as_slice(), identifier, now)
    }

    /// Ends the session that a collector began and names so. It takes no memory.
    pub fn cancel(&mut self, identifier: &Text) -> Result<(), SourceFault>
        ensures ok { OnOk result (answers.Cancels self.old self.new identifier.now) }
        ensures refusal { IfErr result (λ fault. answers.RefusesCancel fault self.old identifier.now) }
        ensures err { OnErr result (self.new ≡ self.old) }
    {
        if !end_leased(&mut self.sessions, identifier) {
            return Err(SourceFault::UnknownSubscription);
        }
        Ok(())
    }

    /// Ends the sessions that collectors began. Answers what is to be sent to those that are told of it, in the order
    /// of the sessions' names.
    pub fn shut(&mut self) -> Result<List<EndNote>, SourceFault>
        ensures ok { IfOk result (answers.Shuts self.old self.new) }
        ensures told { IfOk result (λ notes. AllByRecursion NoteCanBeSent notes) }
        ensures refusal { IfErr result (λ fault. answers.RefusesShut fault self.old) }
        ensures err { OnErr result (self.new ≡ self.old) }
    {
        let notes = self.end_notes()?;
        self.drawn += notes.len() as u64;
        end_all_leased(&mut self.sessions);
        Ok(notes)
    }

    /// What is remembered keeps this of its sessions.
    pub fn sessions_are_kept(&self)
        ensures { HasKeptSessions self.now }
    {
        let _sessions = self.sessions.as_slice();
    }

    /// The names of the sessions' subscriptions, in the order of their bytes.
    pub fn sessions(&self) -> Result<List<SubId>, SourceFault>
        ensures ok { IfOk result (λ names. names ≡ the_sessions.names_of self.now.sessions) }
        ensures in_order { IfOk result IsInOrder }
        ensures refusal { IfErr result WantsMemory }
    {
        Ok(names_of(self.alloc, self.sessions.as_slice())?)
    }

    /// What a session has to send at a moment, where its time isn't over: a batch; a heartbeat that is due, where the
    /// batch would have no item; and nothing while an answer is outstanding. The log is read only where none is.
    pub fn poll<K: Keeper>(
        &mut self,
        log: &mut Log<K>,
        sub: &SubId,
        now: Moment,
    ) -> Result<Poll, SourceFault>
        ensures { PollAccount log.old log.new (K.store log.old.keeper) (K.store log.new.keeper) self.old self.new sub.now now result }
    {
        let Some(place) = place_of_name(self.sessions.as_slice(), sub) else {
            return Err(SourceFault::UnknownSubscription);
        };
        if has_expired(&self.sessions[place], now) {
            return Err(SourceFault::Expired);
        }
        let Some((outgoing, outstanding)) = self.prepared(log, &self.sessions[place], now)? else {
            return Ok(Poll::Nothing);
        };
        self.drawn += 1;
        send(&mut self.sessions[place], outstanding, now);
        Ok(outgoing.into_poll())
    }

    /// Takes the answer to what a session sent. It takes no memory.
    pub fn on_reply(&mut self, relates: &MessageId, reply: &Reply) -> Result<Moved, SourceFault>
        ensures ok { IfOk result (answers.Answers self.old self.new relates.now reply.now) }
        ensures refusal { IfErr result (λ fault. answers.RefusesAnswer fault self.old relates.now) }
        ensures err { OnErr result (self.new ≡ self.old) }
    {
        let Some(id) = relates.value else {
            return Err(SourceFault::NotAsked);
        };
        match reply {
            Reply::Ack => self.take_ack(id),
            Reply::Fault(fault) => self.take_fault(id, fault),
        }
    }

    /// Gives up waiting for the answer to what a session sent. It takes no memory.
    pub fn on_lost(&mut self, sub: &SubId) -> Result<(), SourceFault>
        ensures ok { OnOk result (answers.Loses self.old self.new sub.now) }
        ensures refusal { IfErr result (λ fault. answers.RefusesLost fault self.old sub.now) }
        ensures err { OnErr result (self.new ≡ self.old) }
    {
        if !settle_named(&mut self.sessions, sub) {
            return Err(SourceFault::UnknownSubscription);
        }
        Ok(())
    }

    fn take_ack(&mut self, id: u128) -> Result<Moved, SourceFault>
        ensures there { OnOk result (is_some (the_sessions.waiting self.old.sessions id) ≡ true) }
        ensures ok { IfOk result (answers.AnswersId self.old self.new id Reply.Ack) }
        ensures refusal { IfErr result (answers.RefusesId self.old id) }
        ensures err { OnErr result (self.new ≡ self.old) }
    {
        if !answer_waiting(&mut self.sessions, id, Answer::Taken) {
            return Err(SourceFault::NotAsked);
        }
        Ok(Moved::Moved)
    }

    fn take_fault(&mut self, id: u128, fault: &FaultName) -> Result<Moved, SourceFault>
        ensures there { OnOk result (is_some (the_sessions.waiting self.old.sessions id) ≡ true) }
        ensures ok { IfOk result (answers.AnswersId self.old self.new id (Reply.Fault fault.now)) }
        ensures refusal { IfErr result (answers.RefusesId self.old id) }
        ensures err { OnErr result (self.new ≡ self.old) }
    {
        if !refuse_waiting(&mut self.sessions, id, fault) {
            return Err(SourceFault::NotAsked);
        }
        Ok(Moved::Refused)
    }

    /// What is sent to the collectors that are told of their sessions' ends. Nothing that is remembered changes yet.
    fn end_notes(&self) -> Result<List<EndNote>, SourceFault>
        ensures notes { IfOk result (λ notes. notes ≡ machine.end_notes self.now) }
        ensures bound { IfOk result (λ notes. self.now.drawn + length notes ≤ machine.most_drawn) }
        ensures refusal { IfErr result (λ fault. answers.RefusesShut fault self.now) }
    {
        let mut notes = List::new(self.alloc);
        let mut drawn = self.drawn;
        for session in self.sessions.as_slice() {
            push_note(
                self.alloc,
                self.boot,
                &mut drawn,
                &mut notes,
                &session.lease,
            )?;
        }
        Ok(notes)
    }

    /// What a session sends next at a moment, and what its answer will be awaited by. Nothing that is
    /// remembered changes yet.
    fn prepared<K: Keeper>(
        &self,
        log: &mut Log<K>,
        session: &Session,
        now: Moment,
    ) -> Result<Option<(Outgoing, Outstanding)>, SourceFault>
        ensures { PreparedAccount log.old log.new (K.store log.old.keeper) (K.store log.new.keeper) self.now session.now now result }
    {
        if session.outstanding.is_some() {
            return Ok(None);
        }
        log.open()?;
        self.prepared_ready(log, session, now)
    }

    /// What a session sends next that waits for no answer, from a log whose store is ready.
    fn prepared_ready<K: Keeper>(
        &self,
        log: &mut Log<K>,
        session: &Session,
        now: Moment,
    ) -> Result<Option<(Outgoing, Outstanding)>, SourceFault>
        requires idle { is_some session.now.outstanding ≡ false }
        requires ready { access.IsReady (K.store log.old.keeper) }
        ensures ok { IfSome (K.store log.new.keeper).rows (λ rows. IfOk result (Prepares rows self.now session.now now)) }
        ensures refusal { IfSome (K.store log.new.keeper).rows (λ rows. IfErr result (RefusesToPrepare rows self.now session.now now)) }
        ensures draws { IfOk result (MayDraw self.now session.now now) }
        ensures judged { IfSome (K.store log.new.keeper).rows (λ rows. OnOk result (JudgesBatch rows session.now)) }
        ensures listed { IfErr result (MayRefuseToPrepare self.now) }
        ensures reads { access.Reads AreFormed (fails source_store result) (K.store log.old.keeper) (K.store log.new.keeper) }
    {
        let batch = built(self.alloc, log, session)?;
        if !batch.items.is_empty() {
            let prepared = self.delivered(session, batch)?;
            return Ok(Some(prepared));
        }
        if !is_due(session, now) {
            return Ok(None);
        }
        let prepared = self.beaten(session)?;
        Ok(Some(prepared))
    }

    /// The delivery of a batch to a session, and what its answer will be awaited by.
    fn delivered(
        &self,
        session: &Session,
        batch: Batch,
    ) -> Result<(Outgoing, Outstanding), SourceFault>
        ensures sent { IfOk result (λ prepared. prepared.0 ≡ outgoing.Batch (delivery_with self.now session.now batch)) }
        ensures awaited { IfOk result (λ prepared. prepared.1 ≡ awaiting self.now batch.to) }
        ensures left { IfOk result (λ prepared. machine.is_spent self.now ≡ false) }
        ensures refusal { IfErr result (MayRefuseToPrepare self.now) }
        ensures unread { fails source_store result ≡ false }
    {
        let outstanding = self.awaited(batch.to.clone()?)?;
        let delivery = delivery_under(self.alloc, session, outstanding.id, batch)?;
        Ok((Outgoing::Batch(delivery), outstanding))
    }

    /// The heartbeat of a session, and what its answer will be awaited by: it reads no channel.
    fn beaten(&self, session: &Session) -> Result<(Outgoing, Outstanding), SourceFault>
        ensures sent { IfOk result (λ prepared. prepared.0 ≡ outgoing.Beat (machine.beat_of self.now session.now)) }
        ensures awaited { IfOk result (λ prepared. prepared.1 ≡ awaiting self.now map.empty) }
        ensures left { IfOk result (λ prepared. machine.is_spent self.now ≡ false) }
        ensures refusal { IfErr result (MayRefuseToPrepare self.now) }
        ensures unread { fails source_store result ≡ false }
    {
        let outstanding = self.awaited(Bookmark::new(self.alloc))?;
        let beat = beat_under(self.alloc, session, outstanding.id)?;
        Ok((Outgoing::Beat(beat), outstanding))
    }

    /// What the answer to the next message will be awaited by, which reads so far.
    fn awaited(&self, to: Bookmark) -> Result<Outstanding, SourceFault>
        ensures ok { IfOk result (λ outstanding. outstanding ≡ awaiting self.now to) }
        ensures left { IfOk result (λ outstanding. machine.is_spent self.now ≡ false) }
        ensures refusal { IfErr result (MayRefuseToPrepare self.now) }
        ensures unread { fails source_store result ≡ false }
    {
        let id = self.next_id()?;
        Ok(Outstanding { id, to })
    }

    /// The value of the next id. It isn't drawn yet.
    fn next_id(&self) -> Result<u128, SourceFault>
        ensures left { IfOk result (λ id. machine.is_spent self.now ≡ false) }
        ensures id { IfOk result (λ id. id ≡ machine.next_id self.now) }
        ensures spent { IfErr result (λ fault. answers.IsSpent fault self.now) }
    {
        if self.drawn == u64::MAX {
            return Err(SourceFault::Spent);
        }
        Ok(MessageId::of(self.boot, self.drawn + 1))
    }
}

/// Whether two values of ids are there, and the same.
fn agree(asked: Option<u128>, given: Option<u128>) -> bool
    ensures { result ≡ ids_agree asked given }
{
    match (asked, given) {
        (Some(asked), Some(given)) => asked == given,
        _ => false,
    }
}

fn names_of(alloc: Global, sessions: &[Session]) -> Result<List<SubId>, AllocError>
    ensures { IfOk result (λ names. names ≡ the_sessions.names_of sessions.now) }
{
    let mut names = List::new(alloc);
    for session in sessions {
        names.push(session.name.clone()?)?;
    }
    Ok(names)
}
