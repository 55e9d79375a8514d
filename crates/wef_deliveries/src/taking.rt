//! What the collector makes of messages.

ghost use Rattle.std.specs.Prelude.{◌≡◌, ◌+◌, [], length, unwrap_or, IfOk, OnOk};
ghost use Rattle.wef_batch.specs.Numbers.{AreNumbered};
ghost use Rattle.wef_collector.specs.Memories.{drawn_in};
ghost use Rattle.wef_collector.specs.Offers.{offers};
ghost use Rattle.wef_collector_rows.specs.Forms.{AreFormed};
ghost use Rattle.wef_deliveries.specs.Answered as answered;
ghost use Rattle.wef_deliveries.specs.Outcomes as outcomes;
ghost use Rattle.wef_eventing.specs.Addresses.{source_in, subscription_in};
ghost use Rattle.wef_keeper.specs.Keeping.{raised};
ghost use Rattle.wef_machine.specs.Collecting as collecting;
ghost use Rattle.wef_machine.specs.Deliveries as steps;
ghost use Rattle.wef_machine.specs.States as states;
ghost use Rattle.wef_messages.specs.Bytes.{AreOffers, answered as answered_in};
ghost use Rattle.wef_messages.specs.Messages.{offers_message};
ghost use Rattle.wef_places.specs.Collected as collected;
ghost use Rattle.wef_places.specs.Collected.{collector_of};
ghost use Rattle.wef_places.specs.Counted as counts;
ghost use Rattle.wef_places.specs.Places as places;

use crate::taken::{Taken, Told, closed};
use std::alloc::{AllocError, Global};
use wef_base::{Bytes, Charset, Moment, SourceName, SubId, Text};
use wef_batch::Batch;
use wef_collector::{Answered, Collector, CollectorFault};
use wef_eventing::{source_in, subscription_in};
use wef_front::{Answer, Target, read_reply};
use wef_ids::{FaultName, MessageId};
use wef_keeper::{Keeper, MemKeeper};
use wef_machine::Fate;
use wef_messages::messages::{
    BeatBytes, Content, DeliveryBytes, NoteBytes, OffersBytes, ReplyBytes, ResponseBytes, Sent,
    WishBytes, host,
};
use wef_places::collecting::{self, Call, CollectorPlace};
use wef_places::places::{Called, Used};
use wef_places::{Answers, WorldFault};
use wef_printing::printing::{fate_word, fault_answer};
use wef_source::Reply;

/// What became of a batch that was given to the collector.
pub type TakenBatch = Used<Called<(), FaultName>>;

/// Lets the collector take the bytes of an ask of a source, at a moment.
pub fn take_ask<A: Answers>(
    alloc: Global,
    collector: &mut CollectorPlace,
    answers: &mut A,
    source: &SourceName,
    wish: &WishBytes,
    now: Moment,
) -> Result<Taken, WorldFault>
    requires formed { AreFormed (collector_of collector.old).rows }
    requires own { wish.now.source ≡ source.now }
    requires offered { answered.CanOffer (collecting.collector_opened (collector_of collector.old)).rows source.now }
    ensures collector { OnOk result (collector_of collector.new ≡ outcomes.asked_left (collector_of collector.old) source.now) }
    ensures taken { IfOk result (λ taken. taken ≡ outcomes.asked_of (collector_of collector.old) source.now wish.now.id) }
    ensures calls { OnOk result (A.calls answers.new ≡ counts.counted (counts.once (counts.is_open (collecting.collector_opened (collector_of collector.old)))) (A.calls answers.old)) }
{
    let fate = collecting::open(collector, alloc)?;
    let Some(running) = collector.running() else {
        return Ok(closed(alloc, fate)?);
    };
    let answer = answer_to_ask(alloc, running, answers, wish, now)?;
    let offered = offers_in(source, answer)?;
    Ok(Taken {
        word: Text::from_str(alloc, "offers")?,
        answer: Some(offered),
    })
}

/// What a collector that runs answers to the bytes of an ask, at a moment. It draws an id for the
/// answer, and one for each offer.
fn answer_to_ask<A: Answers>(
    alloc: Global,
    collector: &mut Collector<MemKeeper>,
    answers: &mut A,
    wish: &WishBytes,
    now: Moment,
) -> Result<Answer, WorldFault>
    requires { AreFormed collector.old.keeper.rows }
    ensures rows { OnOk result (collector.new.keeper.rows ≡ collector.old.keeper.rows) }
    ensures memory { OnOk result (collector.new.memory ≡ drawn_in (length (offers collector.old.keeper.rows wish.now.source states.host) + 1) collector.old.memory) }
    ensures answer { IfOk result (answered.HasOffered wish.now collector.old.memory (offers collector.old.keeper.rows wish.now.source states.host)) }
    ensures calls { OnOk result (A.calls answers.new ≡ raised (A.calls answers.old)) }
{
    let host = host(alloc)?;
    let body = wish.bytes();
    Ok(answers.collector_answer(collector, &Target::Manager, &host, Charset::Utf8, body, now)?)
}

/// The message that an answer with offers is.
fn offers_in(source: &SourceName, answer: Answer) -> Result<Sent, AllocError>
    requires { AreOffers answer.body }
    ensures { IfOk result (λ sent. sent ≡ offers_message source.now (answered_in answer.body)) }
{
    let Answer { status: _, body } = answer;
    let content = Content::Offers(OffersBytes::of(body));
    Ok(Sent::of(source.clone()?, content))
}

/// Lets the collector take the bytes of a delivery of a source, at a moment.
pub fn take_delivery<A: Answers>(
    alloc: Global,
    collector: &mut CollectorPlace,
    answers: &mut A,
    source: &SourceName,
    delivery: &DeliveryBytes,
    now: Moment,
) -> Result<Taken, WorldFault>
    requires formed { AreFormed (collector_of collector.old).rows }
    requires leads { answered.Leads delivery.now.notify_to }
    ensures collector { OnOk result (collector_of collector.new ≡ outcomes.events_left (collector_of collector.old) source.now delivery.now now) }
    ensures taken { IfOk result (λ taken. taken ≡ outcomes.events_of (collector_of collector.old) source.now delivery.now now) }
    ensures calls { OnOk result (A.calls answers.new ≡ counts.counted (counts.once (counts.is_open (collecting.collector_opened (collector_of collector.old)))) (A.calls answers.old)) }
{
    let fate = collecting::open(collector, alloc)?;
    let Some(running) = collector.running() else {
        return Ok(closed(alloc, fate)?);
    };
    let answer = answer_at(
        alloc,
        running,
        answers,
        delivery.address(),
        delivery.bytes(),
        now,
    )?;
    let fate = collector.settle_answered(alloc);
    Ok(taken_by(alloc, source, fate, answer)?)
}

/// Lets the collector hear the bytes of a heartbeat of a source, at a moment.
pub fn take_beat<A: Answers>(
    alloc: Global,
    collector: &mut CollectorPlace,
    answers: &mut A,
    source: &SourceName,
    beat: &BeatBytes,
    now: Moment,
) -> Result<Taken, WorldFault>
    requires formed { AreFormed (collector_of collector.old).rows }
    requires leads { answered.Leads beat.now.notify_to }
    ensures collector { OnOk result (collector_of collector.new ≡ outcomes.beat_left (collector_of collector.old) source.now beat.now now) }
    ensures taken { IfOk result (λ taken. taken ≡ outcomes.beat_of (collector_of collector.old) source.now beat.now now) }
    ensures calls { OnOk result (A.calls answers.new ≡ counts.counted (counts.once (counts.is_open (collecting.collector_opened (collector_of collector.old)))) (A.calls answers.old)) }
{
    let fate = collecting::open(collector, alloc)?;
    let Some(running) = collector.running() else {
        return Ok(closed(alloc, fate)?);
    };
    let answer = answer_at(alloc, running, answers, beat.address(), beat.bytes(), now)?;
    let fate = collector.settle_answered(alloc);
    Ok(taken_by(alloc, source, fate, answer)?)
}

/// Lets the collector take the bytes of a note of a source that ended a session, at a moment.
pub fn take_note<A: Answers>(
    alloc: Global,
    collector: &mut CollectorPlace,
    answers: &mut A,
    source: &SourceName,
    note: &NoteBytes,
    now: Moment,
) -> Result<Taken, WorldFault>
    requires formed { AreFormed (collector_of collector.old).rows }
    requires leads { answered.Leads note.now.end_to }
    ensures collector { OnOk result (collector_of collector.new ≡ outcomes.note_left (collector_of collector.old) source.now note.now) }
    ensures taken { IfOk result (λ taken. taken ≡ outcomes.note_of (collector_of collector.old) source.now note.now) }
    ensures calls { OnOk result (A.calls answers.new ≡ counts.counted (counts.once (counts.is_open (collecting.collector_opened (collector_of collector.old)))) (A.calls answers.old)) }
{
    let fate = collecting::open(collector, alloc)?;
    let Some(running) = collector.running() else {
        return Ok(closed(alloc, fate)?);
    };
    let answer = answer_at(alloc, running, answers, note.address(), note.bytes(), now)?;
    let fate = collector.settle_answered(alloc);
    Ok(taken_by(alloc, source, fate, answer)?)
}

/// What a collector that runs answers to bytes that come to an address, at a moment.
fn answer_at<A: Answers>(
    alloc: Global,
    collector: &mut Collector<MemKeeper>,
    answers: &mut A,
    address: &Text,
    body: &Bytes,
    now: Moment,
) -> Result<Answer, WorldFault>
    ensures answer { IfOk result (λ answer. answered.AnswersTo address.now body.now now answer collector.old.memory collector.new.memory (⟦<MemKeeper as Keeper>⟧.store collector.old.keeper) (⟦<MemKeeper as Keeper>⟧.store collector.new.keeper)) }
    ensures calls { OnOk result (A.calls answers.new ≡ raised (A.calls answers.old)) }
{
    let target = target_of(address)?;
    let host = host(alloc)?;
    Ok(answers.collector_answer(collector, &target, &host, Charset::Utf8, body, now)?)
}

/// What an address names, as a target.
fn target_of(address: &Text) -> Result<Target, AllocError>
    ensures { IfOk result (λ target. target ≡ answered.target_of address.now) }
{
    let sub = subscription_named(address)?;
    let source = source_named(address)?;
    Ok(Target::Delivery { sub, source })
}

/// The subscription that an address names. An empty text stands for none: it is no name.
pub fn subscription_named(address: &Text) -> Result<Text, AllocError>
    ensures { IfOk result (λ name. name ≡ unwrap_or (subscription_in address.now) []) }
{
    match subscription_in(address)? {
        Some(sub) => sub.as_text().clone(),
        None => Ok(Text::new(address.alloc())),
    }
}

/// The source that an address names. An empty text stands for none: it is no name.
fn source_named(address: &Text) -> Result<Text, AllocError>
    ensures { IfOk result (λ name. name ≡ unwrap_or (source_in address.now) []) }
{
    match source_in(address)? {
        Some(source) => source.as_text().clone(),
        None => Ok(Text::new(address.alloc())),
    }
}

/// What a collector made of a message, by how its commit went and by its answer, which nobody gets
/// where it was stopped.
fn taken_by(
    alloc: Global,
    source: &SourceName,
    fate: Fate,
    answer: Answer,
) -> Result<Taken, AllocError>
    requires { answered.IsWritten answer }
    ensures { IfOk result (λ taken. taken ≡ answered.taken_by source.now fate answer) }
{
    if fate == Fate::Stopped {
        return Ok(Taken {
            word: Text::from_str(alloc, "stopped")?,
            answer: None,
        });
    }
    let word = answer_word(alloc, &answer)?;
    let answer = reply_in(source, answer)?;
    Ok(Taken { word, answer })
}

/// The word for an answer: a fault is told by its bytes.
fn answer_word(alloc: Global, answer: &Answer) -> Result<Text, AllocError>
    ensures { IfOk result (λ word. word ≡ answered.answer_word answer.now) }
{
    match answer.status {
        204 => Text::from_str(alloc, "quiet"),
        200 => Text::from_str(alloc, "ack"),
        _ => fault_word(alloc, &read_reply(alloc, answer.body.as_slice())?),
    }
}

/// The word for a fault that an answer tells.
fn fault_word(alloc: Global, told: &Option<(MessageId, Reply)>) -> Result<Text, AllocError>
    ensures { IfOk result (λ word. word ≡ answered.fault_word told.now) }
{
    match told {
        Some((_, Reply::Fault(name))) => fault_answer(alloc, name),
        _ => Ok(Text::new(alloc)),
    }
}

/// The message that an answer is, where it has an envelope.
#[tactic(auto, using(crate::proofs::Answered::written_reply))]
fn reply_in(source: &SourceName, answer: Answer) -> Result<Option<Sent>, AllocError>
    requires { answered.IsWritten answer }
    ensures { IfOk result (λ sent. sent ≡ answered.reply_in source.now answer) }
{
    let Answer { status, body } = answer;
    if status == 204 {
        return Ok(None);
    }
    let content = Content::Reply(ReplyBytes::of(body));
    Ok(Some(Sent::of(source.clone()?, content)))
}

/// Lets the collector take the bytes of an answer to a request, at a moment.
pub fn take_response<A: Answers>(
    alloc: Global,
    collector: &mut CollectorPlace,
    answers: &mut A,
    response: &ResponseBytes,
    now: Moment,
) -> Result<Told, WorldFault>
    requires formed { AreFormed (collector_of collector.old).rows }
    ensures collector { OnOk result (collector_of collector.new ≡ collected.heard_left response.now.relates response.now.answer now (collecting.collector_opened (collector_of collector.old))) }
    ensures word { IfOk result (λ heard. heard.word ≡ outcomes.response_word (collector_of collector.old) response.now.relates response.now.answer now) }
    ensures moves { IfOk result (λ heard. heard.moves ≡ outcomes.response_leases (collector_of collector.old) response.now.relates response.now.answer now) }
    ensures calls { OnOk result (A.calls answers.new ≡ counts.counted (counts.once (counts.is_open (collecting.collector_opened (collector_of collector.old)))) (A.calls answers.old)) }
{
    let heard = collecting::hear(collector, alloc, answers, response.bytes(), now)?;
    Ok(Told {
        word: heard_word(alloc, &heard)?,
        moves: leases(&heard),
    })
}

/// Whether a lease stands by what the collector made of an answer.
fn leases(heard: &Used<Called<Answered, CollectorFault>>) -> bool
    ensures { result ≡ outcomes.heard_leases heard.now }
{
    matches!(heard, Used::Answered(Called::Done(Answered::Leased)))
}

/// The word for what the collector made of an answer.
fn heard_word(
    alloc: Global,
    heard: &Used<Called<Answered, CollectorFault>>,
) -> Result<Text, AllocError>
    ensures { IfOk result (λ word. word ≡ outcomes.heard_word heard.now) }
{
    match heard {
        Used::Closed(fate) => Text::from_str(alloc, fate_word(*fate)),
        Used::Answered(Called::Done(Answered::Leased)) => Text::from_str(alloc, "leased"),
        Used::Answered(Called::Done(Answered::Cleared)) => Text::from_str(alloc, "cleared"),
        Used::Answered(Called::Broken(fate)) => Text::from_str(alloc, fate_word(*fate)),
        Used::Answered(Called::Refused(_)) => Text::from_str(alloc, "not-asked"),
    }
}

/// Lets the collector take a batch of a source for a subscription, at a moment.
pub fn take_batch(
    collector: &mut CollectorPlace,
    alloc: Global,
    sub: &SubId,
    source: &SourceName,
    batch: &Batch,
    now: Moment,
) -> Result<TakenBatch, WorldFault>
    requires formed { AreFormed (collector_of collector.old).rows }
    requires numbered { AreNumbered batch.now.items }
    ensures collector { OnOk result (collector_of collector.new
        ≡ places.called_at (collecting.collector_opened (collector_of collector.old)) (λ rows. steps.batch_effect rows sub.now source.now batch.now now)) }
    ensures outcome { IfOk result (places.CameTo (collecting.collector_opening (collector_of collector.old)) (collecting.collector_opened (collector_of collector.old))
        (λ rows. steps.batch_effect rows sub.now source.now batch.now now) (λ _. tt)) }
{
    let call = Call::Take {
        sub,
        source,
        batch,
        now: &now,
    };
    let taken = collecting::make_call(collector, alloc, call)?;
    Ok(answered_batch(taken))
}

/// What became of a batch, as it is answered.
fn answered_batch(taken: Used<Called<(), CollectorFault>>) -> TakenBatch
    ensures { result ≡ outcomes.answered_call taken }
{
    match taken {
        Used::Closed(fate) => Used::Closed(fate),
        Used::Answered(Called::Done(())) => Used::Answered(Called::Done(())),
        Used::Answered(Called::Broken(fate)) => Used::Answered(Called::Broken(fate)),
        Used::Answered(Called::Refused(CollectorFault::NotWellFormed)) => {
            Used::Answered(Called::Refused(FaultName::InvalidMessage))
        }
        Used::Answered(Called::Refused(_)) => {
            Used::Answered(Called::Refused(FaultName::DestinationUnreachable))
        }
    }
}

/// The word for what the collector made of a batch.
pub fn outcome_word(alloc: Global, taken: &TakenBatch, batch: &Batch) -> Result<Text, AllocError>
    ensures { IfOk result (λ word. word ≡ outcomes.outcome_word taken.now batch.now.ack_wanted) }
{
    match taken {
        Used::Closed(fate) => Text::from_str(alloc, fate_word(*fate)),
        Used::Answered(Called::Done(())) if batch.ack_wanted => Text::from_str(alloc, "ack"),
        Used::Answered(Called::Done(())) => Text::from_str(alloc, "quiet"),
        Used::Answered(Called::Broken(Fate::Failed)) => {
            fault_answer(alloc, &FaultName::InternalError)
        }
        Used::Answered(Called::Broken(_)) => Text::from_str(alloc, "stopped"),
        Used::Answered(Called::Refused(fault)) => fault_answer(alloc, fault),
    }
}
