//! What the collector does with what a message asks, and what it says to that.

ghost use Rattle.std.specs.Prelude.{◌≡◌, false, List, Result, IfErr, IfOk};
ghost use Rattle.wef_batch.specs.Numbers.{AreNumbered};
ghost use Rattle.wef_collector.specs.Calls.{OfTake, hear_effect, no_effect, source_ended_effect, take_effect, unread_effect, unread_end_effect};
ghost use Rattle.wef_collector.specs.Offers.{CanAllBeOffered, offers};
ghost use Rattle.wef_collector_rows.specs.Answers.{IsOfStore};
ghost use Rattle.wef_collector_rows.specs.declared.faults.CollectorFault as fault;
ghost use Rattle.wef_eventing.specs.Addresses.{IsHost};
ghost use Rattle.wef_eventing.specs.declared.offers.Offer.{Offer as TheOffer};
ghost use Rattle.wef_front_collector.specs.Heard.{IsSoundAsk};
ghost use Rattle.wef_front_collector.specs.Judged.{Judges, JudgesBatch, JudgesEnd, JudgesHeartbeat, JudgesOffers, JudgesUnread, JudgesUnreadEnd};
ghost use Rattle.wef_front_collector.specs.Steps.{Calls, CallsFor, HasStepped, IsAnswered, IsFailure, IsFault, IsKnownSaid, Says, SaysOffers, Steps, fault_for, said_of, said_with};
ghost use Rattle.wef_front_collector.specs.declared.saying.Said.TheVariants.{Fault, Offers};

use crate::hearing::Asked;
use std::alloc::AllocError;
use wef_base::moments::Moment;
use wef_base::{List, SourceName, SubId, Text};
use wef_batch::Batch;
use wef_collector::{Collector, CollectorFault};
use wef_eventing::Offer;
use wef_ids::FaultName;
use wef_keeper::Keeper;

/// What the collector says to a message.
#[derive(Debug, Drop)]
pub enum Said {
    /// A batch was taken or a source was heard, and the source wants to be told.
    Ack,
    /// A batch was taken or a source was heard, or it was heard that a subscription has ended.
    Quiet,
    /// The subscriptions of a source.
    Offers(List<Offer>),
    Fault(FaultName),
}

/// Does what is asked, at a moment. Batches for what is offered come to the host.
pub fn say<K: Keeper>(
    collector: &mut Collector<K>,
    host: &Text,
    asked: &Asked,
    now: Moment,
) -> Result<Said, AllocError>
    requires host { IsHost host.now }
    requires sound { IsSoundAsk asked.now }
    ensures said { IfOk result (λ said. Steps host.now asked.now now said (K.store collector.old.keeper) (K.store collector.new.keeper)) }
    ensures judged { IfOk result (λ said. Judges host.now asked.now now said (K.store collector.old.keeper) (K.store collector.new.keeper)) }
    ensures wants_memory { IfErr result (λ _. HasStepped host.now asked.now now (K.store collector.old.keeper) (K.store collector.new.keeper)) }
    ensures known { IfOk result IsKnownSaid }
    ensures memory { collector.new.memory ≡ collector.old.memory }
{
    match asked {
        Asked::Refused(name) => Ok(Said::Fault(name.clone()?)),
        Asked::Enumerate(source) => offer(collector, source, host),
        Asked::Unread(sub) => take_unread(collector, sub),
        Asked::Take { sub, source, batch } => take(collector, sub, source, batch, now),
        Asked::Heartbeat {
            sub,
            source,
            ack_wanted,
        } => hear_source(collector, sub, source, *ack_wanted, now),
        Asked::UnreadEnd(sub) => source_ended_unread(collector, sub),
        Asked::Ended {
            sub,
            source,
            identifier,
        } => source_ended(collector, sub, source, identifier),
    }
}

/// Offers a source its subscriptions.
#[tactic(auto, using(crate::proofs::SaidOfCalls::offers_of))]
fn offer<K: Keeper>(
    collector: &mut Collector<K>,
    source: &SourceName,
    host: &Text,
) -> Result<Said, AllocError>
    requires { IsHost host.now }
    ensures said { IfOk result (λ said. SaysOffers host.now source.now said (K.store collector.old.keeper) (K.store collector.new.keeper)) }
    ensures judged { IfOk result (λ said. JudgesOffers host.now source.now said (K.store collector.old.keeper) (K.store collector.new.keeper)) }
    ensures wants_memory { IfErr result (λ _. (done : Result (List TheOffer) fault.CollectorFault) × CallsFor (λ rows. offers rows source.now host.now) no_effect done (K.store collector.old.keeper) (K.store collector.new.keeper) × IfErr done IsOfStore) }
    ensures known { IfOk result IsKnownSaid }
    ensures memory { collector.new.memory ≡ collector.old.memory }
{
    said_of_offers(collector.offers(source, host))
}

/// What is said of offers that were asked for. Want of memory isn't answered.
#[tactic(auto, using(crate::proofs::SaidOfCalls::offers_known, crate::proofs::SaidOfCalls::store_failed, crate::proofs::SaidOfCalls::store_taken))]
fn said_of_offers(done: Result<List<Offer>, CollectorFault>) -> Result<Said, AllocError>
    requires refusal { IfErr done IsOfStore }
    requires texts { IfOk done CanAllBeOffered }
    ensures answered { IfOk result (λ said. IfErr done IsFailure) }
    ensures said { IfOk result (λ said. said ≡ said_with Offers done) }
    ensures known { IfOk result IsKnownSaid }
{
    match done {
        Ok(offers) => Ok(Said::Offers(offers)),
        Err(fault) => said_of_fault(&fault),
    }
}

/// Takes a batch for a subscription that couldn't be read.
#[tactic(auto, using(crate::proofs::SaidOfCalls::unread_of, crate::proofs::SaidOfCalls::unread_judged))]
fn take_unread<K: Keeper>(collector: &mut Collector<K>, sub: &SubId) -> Result<Said, AllocError>
    ensures said { IfOk result (λ said. Says false (λ rows. unread_effect rows sub.now) said (K.store collector.old.keeper) (K.store collector.new.keeper) × IsFault said) }
    ensures judged { IfOk result (λ said. JudgesUnread sub.now said (K.store collector.old.keeper) (K.store collector.new.keeper)) }
    ensures wants_memory { IfErr result (λ _. (done : Result (Unit {0}) fault.CollectorFault) × Calls (λ rows. unread_effect rows sub.now) done (K.store collector.old.keeper) (K.store collector.new.keeper)) }
    ensures known { IfOk result IsKnownSaid }
    ensures memory { collector.new.memory ≡ collector.old.memory }
{
    said_of(false, collector.take_unread(sub))
}

/// Takes a batch of a source for a subscription.
#[tactic(auto, using(crate::proofs::SaidOfCalls::says_of, crate::proofs::SaidOfCalls::batch_judged))]
fn take<K: Keeper>(
    collector: &mut Collector<K>,
    sub: &SubId,
    source: &SourceName,
    batch: &Batch,
    now: Moment,
) -> Result<Said, AllocError>
    requires { AreNumbered batch.now.items }
    ensures said { IfOk result (λ said. Says batch.now.ack_wanted (λ rows. take_effect rows sub.now source.now batch.now now) said (K.store collector.old.keeper) (K.store collector.new.keeper)) }
    ensures judged { IfOk result (λ said. JudgesBatch sub.now source.now batch.now now said (K.store collector.old.keeper) (K.store collector.new.keeper)) }
    ensures wants_memory { IfErr result (λ _. (done : Result (Unit {0}) fault.CollectorFault) × Calls (λ rows. take_effect rows sub.now source.now batch.now now) done (K.store collector.old.keeper) (K.store collector.new.keeper)) }
    ensures known { IfOk result IsKnownSaid }
    ensures memory { collector.new.memory ≡ collector.old.memory }
{
    said_of(batch.ack_wanted, collector.take(sub, source, batch, now))
}

/// Hears a source of a subscription, which has nothing to send.
#[tactic(auto, using(crate::proofs::SaidOfCalls::says_of, crate::proofs::SaidOfCalls::heartbeat_judged, crate::proofs::SaidOfCalls::end_taken))]
fn hear_source<K: Keeper>(
    collector: &mut Collector<K>,
    sub: &SubId,
    source: &SourceName,
    ack_wanted: bool,
    now: Moment,
) -> Result<Said, AllocError>
    ensures said { IfOk result (λ said. Says ack_wanted (λ rows. hear_effect rows sub.now source.now now) said (K.store collector.old.keeper) (K.store collector.new.keeper)) }
    ensures judged { IfOk result (λ said. JudgesHeartbeat sub.now source.now ack_wanted now said (K.store collector.old.keeper) (K.store collector.new.keeper)) }
    ensures wants_memory { IfErr result (λ _. (done : Result (Unit {0}) fault.CollectorFault) × Calls (λ rows. hear_effect rows sub.now source.now now) done (K.store collector.old.keeper) (K.store collector.new.keeper)) }
    ensures known { IfOk result IsKnownSaid }
    ensures memory { collector.new.memory ≡ collector.old.memory }
{
    said_of(ack_wanted, collector.hear(sub, source, now))
}

/// Hears that a subscription has ended, where that couldn't be read.
#[tactic(auto, using(crate::proofs::SaidOfCalls::unread_of, crate::proofs::SaidOfCalls::unread_end_judged, crate::proofs::SaidOfCalls::unread_end_taken))]
fn source_ended_unread<K: Keeper>(
    collector: &mut Collector<K>,
    sub: &SubId,
) -> Result<Said, AllocError>
    ensures said { IfOk result (λ said. Says false (λ rows. unread_end_effect rows sub.now) said (K.store collector.old.keeper) (K.store collector.new.keeper) × IsFault said) }
    ensures judged { IfOk result (λ said. JudgesUnreadEnd sub.now said (K.store collector.old.keeper) (K.store collector.new.keeper)) }
    ensures wants_memory { IfErr result (λ _. (done : Result (Unit {0}) fault.CollectorFault) × Calls (λ rows. unread_end_effect rows sub.now) done (K.store collector.old.keeper) (K.store collector.new.keeper)) }
    ensures known { IfOk result IsKnownSaid }
    ensures memory { collector.new.memory ≡ collector.old.memory }
{
    said_of(false, collector.source_ended_unread(sub))
}

/// Hears that a source has ended a subscription.
#[tactic(auto, using(crate::proofs::SaidOfCalls::says_of, crate::proofs::SaidOfCalls::end_judged, crate::proofs::SaidOfCalls::known_taken))]
fn source_ended<K: Keeper>(
    collector: &mut Collector<K>,
    sub: &SubId,
    source: &SourceName,
    identifier: &Text,
) -> Result<Said, AllocError>
    ensures said { IfOk result (λ said. Says false (λ rows. source_ended_effect rows sub.now source.now identifier.now) said (K.store collector.old.keeper) (K.store collector.new.keeper)) }
    ensures judged { IfOk result (λ said. JudgesEnd sub.now source.now identifier.now said (K.store collector.old.keeper) (K.store collector.new.keeper)) }
    ensures wants_memory { IfErr result (λ _. (done : Result (Unit {0}) fault.CollectorFault) × Calls (λ rows. source_ended_effect rows sub.now source.now identifier.now) done (K.store collector.old.keeper) (K.store collector.new.keeper)) }
    ensures known { IfOk result IsKnownSaid }
    ensures memory { collector.new.memory ≡ collector.old.memory }
{
    said_of(false, collector.source_ended(sub, source, identifier))
}

/// What is said of how a batch was taken or an end was heard. Want of memory isn't answered.
fn said_of(ack: bool, done: Result<(), CollectorFault>) -> Result<Said, AllocError>
    requires { IfErr done OfTake }
    ensures answered { IfOk result (λ said. IfErr done IsAnswered) }
    ensures said { IfOk result (λ said. said ≡ said_of ack done) }
    ensures known { IfOk result IsKnownSaid }
{
    match done {
        Ok(()) if ack => Ok(Said::Ack),
        Ok(()) => Ok(Said::Quiet),
        Err(fault) => said_of_fault(&fault),
    }
}

/// What is said of a refusal. Want of memory isn't answered.
fn said_of_fault(fault: &CollectorFault) -> Result<Said, AllocError>
    requires { OfTake fault.now }
    ensures answered { IfOk result (λ said. IsAnswered fault.now) }
    ensures said { IfOk result (λ said. said ≡ Fault (fault_for fault.now)) }
    ensures known { IfOk result IsKnownSaid }
{
    match fault {
        CollectorFault::NoMemory => Err(AllocError),
        CollectorFault::NoSubscription | CollectorFault::Ended => {
            Ok(Said::Fault(FaultName::DestinationUnreachable))
        }
        CollectorFault::NotWellFormed => Ok(Said::Fault(FaultName::InvalidMessage)),
        _ => Ok(Said::Fault(FaultName::InternalError)),
    }
}
