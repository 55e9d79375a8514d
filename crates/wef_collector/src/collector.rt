//! The collector.

ghost use Rattle.std.specs.Prelude.{◌≡◌, ◌≤◌, ◌++◌, true, take, Some, Ok, Err, IfOk, IfErr, IsErr, IfSome, OnOk, MatchResult};
ghost use Rattle.wef_batch.specs.Numbers.{AreNumbered};
ghost use Rattle.wef_collector.specs.Asking.{CanBeRequested, next_request};
ghost use Rattle.wef_collector.specs.Boots.{memory_begun};
ghost use Rattle.wef_collector.specs.Calls as calls;
ghost use Rattle.wef_collector.specs.Judged as judged;
ghost use Rattle.wef_collector.specs.Memories as memories;
ghost use Rattle.wef_collector.specs.Offers.{CanAllBeOffered, offers};
ghost use Rattle.wef_collector.specs.Responses.{CanBeTaken, answered_of, waiting_effect};
ghost use Rattle.wef_collector_reports.specs.Judged.{is_report_formed};
ghost use Rattle.wef_collector_reports.specs.Listing.{listed};
ghost use Rattle.wef_collector_reports.specs.Report.{heard_rows, report};
ghost use Rattle.wef_collector_rows.specs.Answers as answers;
ghost use Rattle.wef_collector_rows.specs.Bookmarks.{bookmark_of, bookmark_rows};
ghost use Rattle.wef_collector_rows.specs.Faults.{collector_store};
ghost use Rattle.wef_collector_rows.specs.Forms.{AreFormed};
ghost use Rattle.wef_collector_rows.specs.Held as held;
ghost use Rattle.wef_collector_rows.specs.Judged.{AreAllFormed, JudgesName};
ghost use Rattle.wef_collector_rows.specs.Standing as standings;
ghost use Rattle.wef_collector_rows.specs.declared.faults.CollectorFault.TheVariants.{NoMemory};
ghost use Rattle.wef_collector_rows.specs.declared.standings.Standing.TheVariants.{Live};
ghost use Rattle.wef_collector_statuses.specs.Statuses.{statuses};
ghost use Rattle.wef_documents.specs.Kept.{read_kept};
ghost use Rattle.wef_documents.specs.Written.{document_text};
ghost use Rattle.wef_eventing.specs.Addresses.{IsHost};
ghost use Rattle.wef_ids.specs.IdTexts.{id_of_value};
ghost use Rattle.wef_ids.specs.Ids.{next_id};
ghost use Rattle.wef_keeper.specs.Calls.{DoesWith, IsCall, Looks};
ghost use Rattle.wef_keeper.specs.Keeping.{is_armed};
ghost use Rattle.wef_keeper.specs.declared.keeping.Plan.TheVariants.{Done, Fails};

use crate::asking::Request;
use crate::calling::{Call, answer, raise_boot, respond};
use crate::memories::Memory;
use crate::reading::{
    bookmark_in, held_in, list_in, offers_in, report_in, request_in, state_in, statuses_in,
};
use crate::responses::{Answered, Response};
use std::alloc::Global;
use std::marker::Model;
use wef_base::moments::Moment;
use wef_base::{ChannelName, List, SourceName, SubId, Text};
use wef_batch::Batch;
use wef_bookmark::Bookmark;
use wef_collector_reports::listing::Listed;
use wef_collector_rows::faults::CollectorFault;
use wef_event::Event;
use wef_eventing::{Offer, Subscription};
use wef_ids::MessageId;
use wef_keeper::{Keeper, MemKeeper, Plan};

/// Keeps subscriptions, and for each subscription and source the events that were delivered,
/// together with a bookmark: how far the source was served in each channel.
///
/// All of it stands in a store of rows. Each call opens the store, reads, and
/// makes at most one commit.
#[derive(Drop)]
pub struct Collector<K> {
    keeper: K,
    memory: Memory,
    alloc: Global,
}

impl<K> Model for Collector<K> {
    ghost use Rattle.std.specs.Coded.{code_by, coded×};
    ghost use Rattle.std.specs.Prelude.{refl};
    ghost use Rattle.wef_collector.specs.State.{CollectorState};
    ghost use Rattle.wef_collector.specs.contracts.memories.Memory as the_memory;
    ghost use Rattle.wef_collector.specs.declared.memories.Memory as remembered;

    ghost Value = { CollectorState K };

    ghost coded = { code_by (K × remembered.Memory) (coded× K.code the_memory.the_row.coded)
        (λ c. (c.keeper, c.memory)) (λ p. record { keeper = p.0; memory = p.1 }) (λ _. refl) };

    ghost view = { λ c. record { keeper = c.keeper; memory = c.memory } };
}

impl<K: Keeper> Collector<K> {
    /// A collector over what a keeper keeps. It raises the boot number by one, and draws its ids with
    /// the raised one. Where that is refused the keeper is handed back.
    pub fn start(alloc: Global, keeper: K) -> Result<Collector<K>, (K, CollectorFault)>
        ensures ok { IfOk result (λ c. IsCall collector_store AreFormed calls.boot_effect memory_begun (Ok c.memory) (K.store keeper) (K.store c.keeper)) }
        ensures refusal { IfErr result (λ refused. IsCall collector_store AreFormed calls.boot_effect memory_begun (Err refused.1) (K.store keeper) (K.store refused.0)) }
        ensures judged { MatchResult result
            (λ c. DoesWith collector_store AreFormed calls.boot_effect memory_begun (λ answer found after. judged.JudgesStart answer found) (Ok c.memory) (K.store keeper) (K.store c.keeper))
            (λ refused. DoesWith collector_store AreFormed calls.boot_effect memory_begun (λ answer found after. judged.JudgesStart answer found) (Err refused.1) (K.store keeper) (K.store refused.0)) }
        ensures listed { IfErr result (λ refused. calls.OfStart refused.1) }
    {
        let mut keeper = keeper;
        match raise_boot(&mut keeper, alloc) {
            Ok(memory) => Ok(Collector {
                keeper,
                memory,
                alloc,
            }),
            Err(fault) => Err((keeper, fault)),
        }
    }

    /// Draws the id of a message that the collector sends. The store isn't asked. Where there is no
    /// memory for its text it isn't drawn.
    pub fn draw(&mut self) -> Result<MessageId, CollectorFault>
        ensures id { IfOk result (λ id. id ≡ id_of_value (next_id self.old.memory.ids)) }
        ensures drawn { OnOk result (self.new.memory ≡ memories.drawn_in 1 self.old.memory) }
        ensures refusal { IfErr result (λ fault. (fault ≡ NoMemory) × (self.new.memory ≡ self.old.memory)) }
        ensures keeper { self.new.keeper ≡ self.old.keeper }
    {
        let mut ids = self.memory.ids;
        let id = MessageId::of_value(self.alloc, ids.draw())?;
        self.memory.ids = ids;
        Ok(id)
    }

    /// The keeper, with all that is kept.
    pub fn into_keeper(self) -> K
        ensures { result ≡ self.keeper }
    {
        let Collector {
            keeper,
            memory: _,
            alloc: _,
        } = self;
        keeper
    }

    /// Adds a subscription, which has to be one that is read again from its document.
    pub fn add(&mut self, subscription: &Subscription) -> Result<(), CollectorFault>
        requires kept { read_kept subscription.now.name (document_text subscription.now) ≡ Some subscription.now }
        ensures call { IsCall collector_store AreFormed (λ rows. calls.add_effect rows subscription.now) (λ _. tt) result (K.store self.old.keeper) (K.store self.new.keeper) }
        ensures judged { DoesWith collector_store AreFormed (λ rows. calls.add_effect rows subscription.now) (λ _. tt) (λ answer found after. judged.JudgesAdd answer found subscription.now.name) result (K.store self.old.keeper) (K.store self.new.keeper) }
        ensures listed { IfErr result calls.OfAdd }
        ensures memory { self.new.memory ≡ self.old.memory }
        ensures live { OnOk result (IfSome (K.store self.new.keeper).rows (λ rows. standings.standing rows subscription.now.name ≡ Live subscription.now)) }
    {
        answer(&mut self.keeper, self.alloc, &Call::Add(subscription))
    }

    /// Ends a subscription. What was kept for it stays.
    pub fn end(&mut self, sub: &SubId) -> Result<(), CollectorFault>
        ensures call { IsCall collector_store AreFormed (λ rows. calls.end_effect rows sub.now) (λ _. tt) result (K.store self.old.keeper) (K.store self.new.keeper) }
        ensures judged { DoesWith collector_store AreFormed (λ rows. calls.end_effect rows sub.now) (λ _. tt) (λ answer found after. JudgesName answer found sub.now) result (K.store self.old.keeper) (K.store self.new.keeper) }
        ensures listed { IfErr result calls.OfEnd }
        ensures memory { self.new.memory ≡ self.old.memory }
    {
        answer(&mut self.keeper, self.alloc, &Call::End(sub))
    }

    /// Takes a batch of a source for a subscription: holds the events above the bookmark, keeps
    /// marks of what is gone, and moves the bookmark, all of it in one commit. A batch that comes
    /// again changes nothing but the moment at which the source was heard.
    pub fn take(
        &mut self,
        sub: &SubId,
        source: &SourceName,
        batch: &Batch,
        now: Moment,
    ) -> Result<(), CollectorFault>
        requires numbered { AreNumbered batch.now.items }
        ensures call { IsCall collector_store AreFormed (λ rows. calls.take_effect rows sub.now source.now batch.now now) (λ _. tt) result (K.store self.old.keeper) (K.store self.new.keeper) }
        ensures judged { DoesWith collector_store AreFormed (λ rows. calls.take_effect rows sub.now source.now batch.now now) (λ _. tt) (λ answer found after. judged.JudgesTake answer found sub.now source.now batch.now) result (K.store self.old.keeper) (K.store self.new.keeper) }
        ensures listed { IfErr result calls.OfTake }
        ensures memory { self.new.memory ≡ self.old.memory }
    {
        let call = Call::Take {
            sub,
            source,
            batch,
            now,
        };
        answer(&mut self.keeper, self.alloc, &call)
    }

    /// Takes a batch for a subscription that couldn't be read: it is refused as one that isn't
    /// well-formed, and no commit is made.
    pub fn take_unread(&mut self, sub: &SubId) -> Result<(), CollectorFault>
        ensures refused { IsErr result }
        ensures call { IsCall collector_store AreFormed (λ rows. calls.unread_effect rows sub.now) (λ _. tt) result (K.store self.old.keeper) (K.store self.new.keeper) }
        ensures judged { DoesWith collector_store AreFormed (λ rows. calls.unread_effect rows sub.now) (λ _. tt) (λ answer found after. JudgesName answer found sub.now) result (K.store self.old.keeper) (K.store self.new.keeper) }
        ensures listed { IfErr result calls.OfTake }
        ensures memory { self.new.memory ≡ self.old.memory }
    {
        answer(&mut self.keeper, self.alloc, &Call::TakeUnread(sub))
    }

    /// Hears a source of a live subscription at a moment, which has nothing to send: the moment at which it was
    /// heard rises, and nothing else changes. Where it was heard later, no commit is made.
    pub fn hear(
        &mut self,
        sub: &SubId,
        source: &SourceName,
        now: Moment,
    ) -> Result<(), CollectorFault>
        ensures call { IsCall collector_store AreFormed (λ rows. calls.hear_effect rows sub.now source.now now) (λ _. tt) result (K.store self.old.keeper) (K.store self.new.keeper) }
        ensures judged { DoesWith collector_store AreFormed (λ rows. calls.hear_effect rows sub.now source.now now) (λ _. tt) (λ answer found after. judged.JudgesHear answer found sub.now source.now) result (K.store self.old.keeper) (K.store self.new.keeper) }
        ensures listed { IfErr result calls.OfEnd }
        ensures memory { self.new.memory ≡ self.old.memory }
    {
        let call = Call::Hear { sub, source, now };
        answer(&mut self.keeper, self.alloc, &call)
    }

    /// The next request to a source of a subscription that the collector begins: the first for which
    /// none waits and something is due, by the bytes of the subscription's name and then of the
    /// source's. It waits for its answer from then on. A live subscription subscribes where the source
    /// has no lease or its time is over, and renews it where half of the time is over for which it
    /// stands; one that has ended unsubscribes where there is a lease. Events come to the host.
    pub fn next_request(
        &mut self,
        host: &Text,
        now: Moment,
    ) -> Result<Option<Request>, CollectorFault>
        ensures ok { IfSome (K.store self.new.keeper).rows (λ rows. IfOk result (λ asked. asked ≡ next_request rows self.old.memory.waiting self.old.memory.ids host.now now)) }
        ensures judged { IfSome (K.store self.new.keeper).rows (λ rows. OnOk result (judged.JudgesRequest rows self.old.memory.waiting now)) }
        ensures texts { IsHost host.now → IfOk result (λ asked. IfSome asked CanBeRequested) }
        ensures refusal { IfErr result answers.IsOfStore }
        ensures call { IsCall collector_store AreFormed calls.no_effect (λ rows. next_request rows self.old.memory.waiting self.old.memory.ids host.now now) result (K.store self.old.keeper) (K.store self.new.keeper) }
        ensures looks { Looks collector_store AreFormed result (K.store self.old.keeper) (K.store self.new.keeper) }
        ensures memory { self.new.memory ≡ memories.memory_asked result self.old.memory }
    {
        request_in(&mut self.keeper, self.alloc, &mut self.memory, host, now)
    }

    /// Takes what a source answers to a request that waits; of two requests under one id the first is
    /// meant, in the order in which they are asked. A lease is put or ended, and the request waits no
    /// longer, also where the store fails. `NotAsked` where none waits, or it is no answer to that.
    pub fn on_response(
        &mut self,
        relates: &MessageId,
        response: &Response,
        now: Moment,
    ) -> Result<Answered, CollectorFault>
        requires taken { CanBeTaken response.now }
        ensures call { IsCall collector_store AreFormed (λ rows. waiting_effect (memories.waiting_for self.old.memory relates.now.value) response.now now rows) (λ _. answered_of response.now) result (K.store self.old.keeper) (K.store self.new.keeper) }
        ensures judged { DoesWith collector_store AreFormed (λ rows. waiting_effect (memories.waiting_for self.old.memory relates.now.value) response.now now rows) (λ _. answered_of response.now)
            (λ answer found after. judged.JudgesResponse answer found (memories.waiting_for self.old.memory relates.now.value) response.now now) result (K.store self.old.keeper) (K.store self.new.keeper) }
        ensures listed { IfErr result calls.OfResponse }
        ensures memory { self.new.memory ≡ memories.memory_answered result relates.now.value self.old.memory }
    {
        let answered = respond(
            &mut self.keeper,
            self.alloc,
            self.memory.waiting_for(relates.value),
            response,
            now,
        );
        self.memory.answer(relates.value, &answered);
        answered
    }

    /// No request waits any more: no answer is taken that comes. It takes no memory.
    pub fn forget(&mut self)
        ensures memory { self.new.memory ≡ memories.forgotten self.old.memory }
        ensures keeper { self.new.keeper ≡ self.old.keeper }
    {
        self.memory.forget();
    }

    /// Ends all leases in one commit, and forgets the requests that wait.
    pub fn release(&mut self) -> Result<(), CollectorFault>
        ensures call { IsCall collector_store AreFormed calls.release_effect (λ _. tt) result (K.store self.old.keeper) (K.store self.new.keeper) }
        ensures judged { DoesWith collector_store AreFormed calls.release_effect (λ _. tt) (λ answer found after. judged.JudgesRelease answer found) result (K.store self.old.keeper) (K.store self.new.keeper) }
        ensures listed { IfErr result answers.IsOfStore }
        ensures memory { self.new.memory ≡ memories.memory_released result self.old.memory }
    {
        let done = answer(&mut self.keeper, self.alloc, &Call::Release);
        self.memory.release(&done);
        done
    }

    /// Ends the lease of a source that has ended the session which it names so; also of a subscription
    /// that has ended. Another lease stays.
    pub fn source_ended(
        &mut self,
        sub: &SubId,
        source: &SourceName,
        identifier: &Text,
    ) -> Result<(), CollectorFault>
        ensures call { IsCall collector_store AreFormed (λ rows. calls.source_ended_effect rows sub.now source.now identifier.now) (λ _. tt) result (K.store self.old.keeper) (K.store self.new.keeper) }
        ensures judged { DoesWith collector_store AreFormed (λ rows. calls.source_ended_effect rows sub.now source.now identifier.now) (λ _. tt) (λ answer found after. judged.JudgesSourceEnded answer found sub.now source.now) result (K.store self.old.keeper) (K.store self.new.keeper) }
        ensures listed { IfErr result calls.OfKnown }
        ensures memory { self.new.memory ≡ self.old.memory }
    {
        let call = Call::SourceEnded {
            sub,
            source,
            identifier,
        };
        answer(&mut self.keeper, self.alloc, &call)
    }

    /// Takes the end of a session for a subscription that couldn't be read: it is refused as one that
    /// isn't well-formed, and no commit is made.
    pub fn source_ended_unread(&mut self, sub: &SubId) -> Result<(), CollectorFault>
        ensures refused { IsErr result }
        ensures call { IsCall collector_store AreFormed (λ rows. calls.unread_end_effect rows sub.now) (λ _. tt) result (K.store self.old.keeper) (K.store self.new.keeper) }
        ensures judged { DoesWith collector_store AreFormed (λ rows. calls.unread_end_effect rows sub.now) (λ _. tt) (λ answer found after. JudgesName answer found sub.now) result (K.store self.old.keeper) (K.store self.new.keeper) }
        ensures listed { IfErr result calls.OfUnreadEnd }
        ensures memory { self.new.memory ≡ self.old.memory }
    {
        answer(&mut self.keeper, self.alloc, &Call::EndUnread(sub))
    }

    /// A live subscription.
    pub fn state(&mut self, sub: &SubId) -> Result<Subscription, CollectorFault>
        ensures ok { IfSome (K.store self.new.keeper).rows (λ rows. IfOk result (λ subscription. standings.standing rows sub.now ≡ Live subscription)) }
        ensures judged { IfSome (K.store self.new.keeper).rows (λ rows. JudgesName result rows sub.now) }
        ensures refusal { IfErr result (λ fault. answers.RefusesName fault (K.store self.new.keeper).rows sub.now) }
        ensures looks { Looks collector_store AreFormed result (K.store self.old.keeper) (K.store self.new.keeper) }
        ensures memory { self.new.memory ≡ self.old.memory }
    {
        state_in(&mut self.keeper, sub)
    }

    /// The first `max` events that are held of a source's channel with numbers above one, by number;
    /// also of a subscription that has ended. The rest are those above the page's last number.
    pub fn held_page(
        &mut self,
        sub: &SubId,
        source: &SourceName,
        channel: &ChannelName,
        after: u64,
        max: u32,
    ) -> Result<List<Event>, CollectorFault>
        requires { 1 ≤ max }
        ensures known { IfSome (K.store self.new.keeper).rows (λ rows. OnOk result (answers.is_known (standings.standing rows sub.now) ≡ true)) }
        ensures page { IfSome (K.store self.new.keeper).rows (λ rows. IfOk result (λ page. page ≡ take max (held.held_after rows sub.now source.now channel.now after))) }
        ensures rest { IfSome (K.store self.new.keeper).rows (λ rows. IfOk result (λ page. held.held_after rows sub.now source.now channel.now after
            ≡ page ++ held.held_after rows sub.now source.now channel.now (held.last_number after page))) }
        ensures judged { IfSome (K.store self.new.keeper).rows (λ rows. JudgesName result rows sub.now × OnOk result (AreAllFormed (take max (held.held_rows rows sub.now source.now channel.now after)))) }
        ensures refusal { IfErr result (λ fault. answers.RefusesUnknown fault (K.store self.new.keeper).rows sub.now) }
        ensures looks { Looks collector_store AreFormed result (K.store self.old.keeper) (K.store self.new.keeper) }
        ensures memory { self.new.memory ≡ self.old.memory }
    {
        held_in(&mut self.keeper, sub, source, channel, after, max)
    }

    /// All subscriptions, live or ended, in the order of their names.
    pub fn list(&mut self) -> Result<List<Listed>, CollectorFault>
        ensures ok { IfSome (K.store self.new.keeper).rows (λ rows. IfOk result (λ list. list ≡ listed rows)) }
        ensures judged { IfSome (K.store self.new.keeper).rows (λ rows. OnOk result (AreAllFormed (standings.subscription_rows rows))) }
        ensures refusal { IfErr result answers.IsOfStore }
        ensures looks { Looks collector_store AreFormed result (K.store self.old.keeper) (K.store self.new.keeper) }
        ensures memory { self.new.memory ≡ self.old.memory }
    {
        list_in(&mut self.keeper, self.alloc)
    }

    /// The offers to a source that asks: one for each live subscription that the sources begin, in
    /// the order of names. Each goes on from the bookmark that is kept for the source, and its
    /// batches come to the host.
    pub fn offers(
        &mut self,
        source: &SourceName,
        host: &Text,
    ) -> Result<List<Offer>, CollectorFault>
        ensures ok { IfSome (K.store self.new.keeper).rows (λ rows. IfOk result (λ list. list ≡ offers rows source.now host.now)) }
        ensures judged { IfSome (K.store self.new.keeper).rows (λ rows. OnOk result (judged.AreOffersJudged rows source.now)) }
        ensures texts { IsHost host.now → IfOk result CanAllBeOffered }
        ensures refusal { IfErr result answers.IsOfStore }
        ensures call { IsCall collector_store AreFormed calls.no_effect (λ rows. offers rows source.now host.now) result (K.store self.old.keeper) (K.store self.new.keeper) }
        ensures looks { Looks collector_store AreFormed result (K.store self.old.keeper) (K.store self.new.keeper) }
        ensures memory { self.new.memory ≡ self.old.memory }
    {
        offers_in(&mut self.keeper, self.alloc, source, host)
    }

    /// How far a source was served for a subscription; also for one that has ended.
    pub fn bookmark(&mut self, sub: &SubId, source: &SourceName) -> Result<Bookmark, CollectorFault>
        ensures known { IfSome (K.store self.new.keeper).rows (λ rows. OnOk result (answers.is_known (standings.standing rows sub.now) ≡ true)) }
        ensures ok { IfSome (K.store self.new.keeper).rows (λ rows. IfOk result (λ bookmark. bookmark ≡ bookmark_of rows sub.now source.now)) }
        ensures judged { IfSome (K.store self.new.keeper).rows (λ rows. JudgesName result rows sub.now × OnOk result (AreAllFormed (bookmark_rows rows sub.now source.now))) }
        ensures refusal { IfErr result (λ fault. answers.RefusesUnknown fault (K.store self.new.keeper).rows sub.now) }
        ensures looks { Looks collector_store AreFormed result (K.store self.old.keeper) (K.store self.new.keeper) }
        ensures memory { self.new.memory ≡ self.old.memory }
    {
        bookmark_in(&mut self.keeper, sub, source)
    }

    /// Which sources of a subscription are silent at a moment, also of one that has ended: for each source that was
    /// heard or is listed, in the order of names, a line `status U S active`, `inactive` or `never`. A source is
    /// inactive once two intervals of the subscription's heartbeat are over since it was heard last.
    pub fn statuses(&mut self, sub: &SubId, now: Moment) -> Result<Text, CollectorFault>
        ensures known { IfSome (K.store self.new.keeper).rows (λ rows. OnOk result (answers.is_known (standings.standing rows sub.now) ≡ true)) }
        ensures ok { IfSome (K.store self.new.keeper).rows (λ rows. IfOk result (λ text. text ≡ statuses rows sub.now now)) }
        ensures judged { IfSome (K.store self.new.keeper).rows (λ rows. JudgesName result rows sub.now × OnOk result (AreAllFormed (heard_rows rows sub.now))) }
        ensures refusal { IfErr result (λ fault. answers.RefusesUnknown fault (K.store self.new.keeper).rows sub.now) }
        ensures looks { Looks collector_store AreFormed result (K.store self.old.keeper) (K.store self.new.keeper) }
        ensures memory { self.new.memory ≡ self.old.memory }
    {
        statuses_in(&mut self.keeper, sub, now)
    }

    /// The report of all that is kept.
    pub fn report(&mut self) -> Result<Text, CollectorFault>
        ensures ok { IfSome (K.store self.new.keeper).rows (λ rows. IfOk result (λ text. text ≡ report rows)) }
        ensures judged { IfSome (K.store self.new.keeper).rows (λ rows. OnOk result (is_report_formed rows ≡ true)) }
        ensures refusal { IfErr result answers.IsOfStore }
        ensures looks { Looks collector_store AreFormed result (K.store self.old.keeper) (K.store self.new.keeper) }
        ensures memory { self.new.memory ≡ self.old.memory }
    {
        report_in(&mut self.keeper, self.alloc)
    }
}

impl Collector<MemKeeper> {
    /// Plans the keeper's next commit. An earlier plan is replaced.
    pub fn arrange(&mut self, plan: Plan)
        ensures { self.new ≡ record self.old { keeper = record self.old.keeper { plan = plan } } }
    {
        self.keeper.arrange(plan);
    }

    /// Arms the keeper's next commit: it fails, and its changes are kept where `after` is true.
    pub fn fail_next(&mut self, after: bool)
        ensures { self.new ≡ record self.old { keeper = record self.old.keeper { plan = Fails after } } }
    {
        self.keeper.fail_next(after);
    }

    /// Disarms the keeper's next commit.
    pub fn calm(&mut self)
        ensures { self.new ≡ record self.old { keeper = record self.old.keeper { plan = Done } } }
    {
        self.keeper.calm();
    }

    /// Whether the keeper's next commit is armed.
    pub fn is_armed(&self) -> bool
        ensures { result ≡ is_armed self.now.keeper.plan }
    {
        self.keeper.is_armed()
    }
}
