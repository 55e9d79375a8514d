//! The collector's answers to messages as bytes.

ghost use Rattle.std.specs.List.{All, AllByRecursion};
ghost use Rattle.std.specs.Prelude.{◌≡◌, ◌⊎◌, suc, length, option_copied, IfErr, IfOk, IfSome, OnErr, OnOk};
ghost use Rattle.wef_bodies.specs.Laws.{IsXmlId};
ghost use Rattle.wef_collector.specs.Memories.{drawn_in};
ghost use Rattle.wef_collector.specs.Offers.{CanAllBeOffered};
ghost use Rattle.wef_envelope.specs.Laws.{IsSpelt};
ghost use Rattle.wef_eventing.specs.Addresses.{IsHost};
ghost use Rattle.wef_eventing.specs.Sending.{CanBeOffered};
ghost use Rattle.wef_front_collector.specs.Heard.{Hears, IsSound};
ghost use Rattle.wef_front_collector.specs.Replies.{IsAnswer, IsUnanswered, IsSpeltFor, MayHaveDrawn, ack_envelope, answer_of, drawn_ids, draws_for, memory_after, memory_behind, offers_envelope};
ghost use Rattle.wef_replies.specs.Replies.{answer_with, envelope_with};
ghost use Rattle.wef_front_collector.specs.Steps.{IsKnownSaid};
ghost use Rattle.wef_front_collector.specs.declared.saying.Said.TheVariants.{Offers};
ghost use Rattle.wef_ids.specs.IdTexts.{id_of_value};
ghost use Rattle.wef_ids.specs.Ids.{next_id};
ghost use Rattle.wef_xml.specs.Good.{IsXmlText};

use crate::hearing::{Heard, hear};
use crate::saying::{Said, say};
use std::alloc::{AllocError, Global};
use wef_base::moments::Moment;
use wef_base::{Bytes, Charset, List, Text};
use wef_bodies::write_offers;
use wef_collector::Collector;
use wef_envelope::MessageId;
use wef_envelope::actions::{ACK, ENUMERATE_RESPONSE};
use wef_eventing::Offer;
use wef_http_heads::{Answer, Target};
use wef_keeper::Keeper;
use wef_replies::{envelope_with, write_answer, write_fault};

/// Answers the bytes of a request to the collector: 200 with an envelope, 204 with nothing where the
/// sender doesn't want to be told, or 500 with a fault, which is the profile's status for all of
/// them. It is written in the charset of the request. The collector itself takes Enumerate
/// (WS-Enumeration, 3.1), and what a source delivers for a subscription are batches (WS-Management,
/// 10.2.9), and that it has ended one that the collector began (WS-Eventing, 3.5). `host` is the one that the request names: batches for what is offered come to it. Where
/// there is no memory for the answer, what the message asks is done or it isn't, and ids may be drawn,
/// no more than the answer would have.
pub fn collector_answer<K: Keeper>(
    alloc: Global,
    collector: &mut Collector<K>,
    target: &Target,
    host: &Text,
    charset: Charset,
    body: &Bytes,
    now: Moment,
) -> Result<Answer, AllocError>
    requires { IsHost host.now }
    ensures answer { IfOk result (λ answer. (heard : Heard) × Hears target.now charset body.now heard
        × IsAnswer host.now heard charset now answer collector.old.memory collector.new.memory (K.store collector.old.keeper) (K.store collector.new.keeper)) }
    ensures wants_memory { IfErr result (λ _. (collector.new ≡ collector.old) ⊎ ((heard : Heard) × Hears target.now charset body.now heard
        × IsUnanswered host.now heard now collector.old.memory collector.new.memory (K.store collector.old.keeper) (K.store collector.new.keeper))) }
{
    let heard = hear(alloc, target, charset, body.as_slice())?;
    answer_heard(alloc, collector, host, charset, &heard, now)
}

/// Does what a message asks, and writes what is said to that.
fn answer_heard<K: Keeper>(
    alloc: Global,
    collector: &mut Collector<K>,
    host: &Text,
    charset: Charset,
    heard: &Heard,
    now: Moment,
) -> Result<Answer, AllocError>
    requires host { IsHost host.now }
    requires sound { IsSound heard.now }
    ensures answer { IfOk result (λ answer. IsAnswer host.now heard.now charset now answer collector.old.memory collector.new.memory (K.store collector.old.keeper) (K.store collector.new.keeper)) }
    ensures wants_memory { IfErr result (λ _. IsUnanswered host.now heard.now now collector.old.memory collector.new.memory (K.store collector.old.keeper) (K.store collector.new.keeper)) }
{
    let said = say(collector, host, &heard.asked, now)?;
    write_said(alloc, collector, charset, heard.relates.as_ref(), &said)
}

/// Writes what is said, under the next ids of the collector.
#[tactic(auto, using(wef_ids::proofs::PlainIds::id_text_good, crate::proofs::Draws::no_draws, crate::proofs::Draws::one_draw))]
fn write_said<K: Keeper>(
    alloc: Global,
    collector: &mut Collector<K>,
    charset: Charset,
    relates: Option<&MessageId>,
    said: &Said,
) -> Result<Answer, AllocError>
    requires known { IsKnownSaid said.now }
    requires relates { IfSome (option_copied relates) (λ id. IsXmlText id.text) }
    ensures answer { IfOk result (λ answer. answer ≡ answer_of collector.old.memory.ids charset (option_copied relates.entry) said.now) }
    ensures spelt { OnOk result (IsSpeltFor collector.old.memory.ids said.now) }
    ensures drawn { OnOk result (collector.new.memory ≡ memory_behind collector.old.memory said.now) }
    ensures wants_memory { OnErr result (MayHaveDrawn (draws_for said.now) collector.old.memory collector.new.memory) }
    ensures keeper { collector.new.keeper ≡ collector.old.keeper }
{
    match said {
        Said::Quiet => Ok(Answer {
            status: 204,
            body: List::new(alloc),
        }),
        Said::Ack => write_ack(alloc, charset, draw(collector)?, relates),
        Said::Offers(offers) => answer_offers(alloc, collector, charset, relates, offers),
        Said::Fault(name) => write_fault(alloc, charset, draw(collector)?, relates, name),
    }
}

/// Draws the id of a message.
fn draw<K: Keeper>(collector: &mut Collector<K>) -> Result<MessageId, AllocError>
    ensures id { IfOk result (λ id. id ≡ id_of_value (next_id collector.old.memory.ids)) }
    ensures text { IfOk result IsXmlId }
    ensures spelt { OnOk result (IsSpelt (id_of_value (next_id collector.old.memory.ids))) }
    ensures drawn { OnOk result (collector.new.memory ≡ drawn_in 1 collector.old.memory) }
    ensures wants_memory { OnErr result (collector.new.memory ≡ collector.old.memory) }
    ensures keeper { collector.new.keeper ≡ collector.old.keeper }
{
    match collector.draw() {
        Ok(id) => Ok(id),
        Err(_) => Err(AllocError),
    }
}

/// Answers with offers, each in an envelope that has an id of its own, drawn behind that of the answer.
fn answer_offers<K: Keeper>(
    alloc: Global,
    collector: &mut Collector<K>,
    charset: Charset,
    relates: Option<&MessageId>,
    offers: &List<Offer>,
) -> Result<Answer, AllocError>
    requires offers { CanAllBeOffered offers.now }
    requires relates { IfSome (option_copied relates) (λ id. IsXmlText id.text) }
    ensures answer { IfOk result (λ answer. answer ≡ answer_of collector.old.memory.ids charset (option_copied relates.entry) (Offers offers.now)) }
    ensures spelt { OnOk result (IsSpeltFor collector.old.memory.ids (Offers offers.now)) }
    ensures drawn { OnOk result (collector.new.memory ≡ memory_behind collector.old.memory (Offers offers.now)) }
    ensures wants_memory { OnErr result (MayHaveDrawn (suc (length offers.now)) collector.old.memory collector.new.memory) }
    ensures keeper { collector.new.keeper ≡ collector.old.keeper }
{
    let id = draw(collector)?;
    let nested = draw_for(alloc, collector, offers.as_slice())?;
    write_offered(
        alloc,
        charset,
        id,
        nested.as_slice(),
        relates,
        offers.as_slice(),
    )
}

/// Draws an id for each offer, in their order.
fn draw_for<K: Keeper>(
    alloc: Global,
    collector: &mut Collector<K>,
    offers: &[Offer],
) -> Result<List<MessageId>, AllocError>
    ensures ids { IfOk result (λ ids. ids ≡ drawn_ids (length offers.now) collector.old.memory.ids) }
    ensures spelt { IfOk result (AllByRecursion IsSpelt) }
    ensures texts { IfOk result (All IsXmlId) }
    ensures drawn { OnOk result (collector.new.memory ≡ memory_after (length offers.now) collector.old.memory) }
    ensures wants_memory { OnErr result (MayHaveDrawn (length offers.now) collector.old.memory collector.new.memory) }
    ensures keeper { collector.new.keeper ≡ collector.old.keeper }
{
    let mut ids = List::new(alloc);
    for _offer in offers {
        ids.push(draw(collector)?)?;
    }
    Ok(ids)
}

/// Writes the answer to an Enumerate: a response with all offers, each with an id of its own.
fn write_offered(
    alloc: Global,
    charset: Charset,
    id: MessageId,
    nested: &[MessageId],
    relates: Option<&MessageId>,
    offers: &[Offer],
) -> Result<Answer, AllocError>
    requires offers { All CanBeOffered offers.now }
    requires nested { All IsXmlId nested.now }
    requires id { IsXmlText id.text }
    requires relates { IfSome (option_copied relates) (λ id. IsXmlText id.text) }
    ensures { IfOk result (λ answer. answer ≡ answer_with 200 charset (offers_envelope id nested.now (option_copied relates.entry) offers.now)) }
{
    let body = write_offers(alloc, offers, nested)?;
    let envelope = envelope_with(alloc, ENUMERATE_RESPONSE, body, id, relates)?;
    write_answer(alloc, 200, charset, &envelope)
}

fn write_ack(
    alloc: Global,
    charset: Charset,
    id: MessageId,
    relates: Option<&MessageId>,
) -> Result<Answer, AllocError>
    requires id { IsXmlText id.text }
    requires relates { IfSome (option_copied relates) (λ id. IsXmlText id.text) }
    ensures { IfOk result (λ answer. answer ≡ answer_with 200 charset (ack_envelope id (option_copied relates.entry))) }
{
    let envelope = envelope_with(alloc, ACK, List::new(alloc), id, relates)?;
    write_answer(alloc, 200, charset, &envelope)
}
