//! A source's answers to messages as bytes.

ghost use Rattle.std.specs.Prelude.{◌≡◌, ◌⊎◌, option_copied, IfErr, IfOk, IfSome, OnErr, OnOk};
ghost use Rattle.wef_bodies.specs.Laws.{CanBeWritten};
ghost use Rattle.wef_front_source.specs.Heard.{Hears, IsSound};
ghost use Rattle.wef_front_source.specs.Replies.{MayHaveReplied, answer_of, answered_in, done_envelope, fault_id, faulted_in, last_id, reply};
ghost use Rattle.wef_front_source.specs.Steps.{IsKnownSaid};
ghost use Rattle.wef_front_source.specs.declared.hearing.Heard.{Heard as TheHeard};
ghost use Rattle.wef_ids.specs.IdTexts.{id_of_value};
ghost use Rattle.wef_replies.specs.Replies.{answer_with};
ghost use Rattle.wef_source.specs.Machine.{drawn_in, next_id};
ghost use Rattle.wef_xml.specs.Good.{IsXmlText};

use crate::hearing::{Heard, hear};
use crate::saying::{Said, say};
use std::alloc::{AllocError, Global};
use wef_base::{Bytes, Charset, Moment};
use wef_bodies::{Body, write_body};
use wef_envelope::{FaultName, MessageId};
use wef_http_heads::Answer;
use wef_keeper::Keeper;
use wef_replies::{envelope_with, write_answer, write_fault};
use wef_source::SourceEnd;

/// Answers the bytes of a request to the source: 200 with an envelope, or 500 with a fault, which is the
/// profile's status for all of them. It is written in the charset of the request. A source takes Subscribe,
/// Renew, GetStatus and Unsubscribe (WS-Eventing, 3.1 to 3.4) from a collector that begins subscriptions by
/// itself; the last three name the session by the header Identifier. Where the source can't draw all the ids
/// that this takes, nothing is done: `InternalError` is answered, under the last id of the boot number, and
/// none is drawn. Where there is no memory for the answer, what the message asks is done or it isn't.
pub fn source_answer<K: Keeper>(
    alloc: Global,
    source: &mut SourceEnd<K>,
    charset: Charset,
    body: &Bytes,
    now: Moment,
) -> Result<Answer, AllocError>
    ensures answer { IfOk result (λ answer. (heard : TheHeard) × Hears now charset body.now heard
        × (record { answer = answer; end = source.new.memory } ≡ reply source.old.memory heard charset now)) }
    ensures wants_memory { IfErr result (λ _. (source.new.memory ≡ source.old.memory) ⊎ ((heard : TheHeard) × Hears now charset body.now heard
        × MayHaveReplied source.old.memory heard now source.new.memory)) }
    ensures keeper { source.new.keeper ≡ source.old.keeper }
    ensures name { source.new.name ≡ source.old.name }
{
    let heard = hear(alloc, charset, body.as_slice(), now)?;
    answer_heard(alloc, source, charset, &heard, now)
}

/// Does what a message asks, and writes what is said to that.
fn answer_heard<K: Keeper>(
    alloc: Global,
    source: &mut SourceEnd<K>,
    charset: Charset,
    heard: &Heard,
    now: Moment,
) -> Result<Answer, AllocError>
    requires { IsSound heard.now }
    ensures answer { IfOk result (λ answer. record { answer = answer; end = source.new.memory } ≡ reply source.old.memory heard.now charset now) }
    ensures wants_memory { IfErr result (λ _. MayHaveReplied source.old.memory heard.now now source.new.memory) }
    ensures keeper { source.new.keeper ≡ source.old.keeper }
    ensures name { source.new.name ≡ source.old.name }
{
    let said = say(source, &heard.asked, now)?;
    write_said(alloc, source, charset, heard.relates.as_ref(), &said)
}

/// Writes what is said.
fn write_said<K: Keeper>(
    alloc: Global,
    source: &mut SourceEnd<K>,
    charset: Charset,
    relates: Option<&MessageId>,
    said: &Said,
) -> Result<Answer, AllocError>
    requires known { IsKnownSaid said.now }
    requires relates { IfSome (option_copied relates) (λ id. IsXmlText id.text) }
    ensures answer { IfOk result (λ answer. answer ≡ answer_of source.old.memory charset (option_copied relates.entry) said.now) }
    ensures drawn { OnOk result (source.new.memory ≡ answered_in source.old.memory said.now) }
    ensures wants_memory { IfErr result (λ _. (source.new.memory ≡ source.old.memory) ⊎ (source.new.memory ≡ answered_in source.old.memory said.now)) }
    ensures keeper { source.new.keeper ≡ source.old.keeper }
    ensures name { source.new.name ≡ source.old.name }
{
    match said {
        Said::Done(answer) => write_done(alloc, charset, draw(source)?, relates, answer),
        Said::Fault(name) => write_fault(alloc, charset, fault_id(alloc, source)?, relates, name),
        Said::Spent => {
            let id = last_id(alloc, source)?;
            write_fault(alloc, charset, id, relates, &FaultName::InternalError)
        }
    }
}

/// Draws the id of an answer.
fn draw<K: Keeper>(source: &mut SourceEnd<K>) -> Result<MessageId, AllocError>
    ensures id { IfOk result (λ id. id ≡ id_of_value (next_id source.old.memory)) }
    ensures text { IfOk result (λ id. IsXmlText id.text) }
    ensures drawn { OnOk result (source.new.memory ≡ drawn_in source.old.memory) }
    ensures wants_memory { OnErr result (source.new.memory ≡ source.old.memory) }
    ensures keeper { source.new.keeper ≡ source.old.keeper }
    ensures name { source.new.name ≡ source.old.name }
{
    match source.draw() {
        Ok(id) => Ok(id),
        Err(_) => Err(AllocError),
    }
}

/// The id of a fault: the next one, or where none is left the last one, once more.
fn fault_id<K: Keeper>(alloc: Global, source: &mut SourceEnd<K>) -> Result<MessageId, AllocError>
    ensures id { IfOk result (λ id. id ≡ id_of_value (fault_id source.old.memory)) }
    ensures text { IfOk result (λ id. IsXmlText id.text) }
    ensures drawn { OnOk result (source.new.memory ≡ faulted_in source.old.memory) }
    ensures wants_memory { OnErr result (source.new.memory ≡ source.old.memory) }
    ensures keeper { source.new.keeper ≡ source.old.keeper }
    ensures name { source.new.name ≡ source.old.name }
{
    if source.ids_left() == 0 {
        return last_id(alloc, source);
    }
    draw(source)
}

/// The last id of the source's boot number.
fn last_id<K: Keeper>(alloc: Global, source: &SourceEnd<K>) -> Result<MessageId, AllocError>
    ensures id { IfOk result (λ id. id ≡ id_of_value (last_id source.now.memory)) }
    ensures text { IfOk result (λ id. IsXmlText id.text) }
{
    MessageId::of_value(alloc, MessageId::of(source.boot(), u64::MAX))
}

fn write_done(
    alloc: Global,
    charset: Charset,
    id: MessageId,
    relates: Option<&MessageId>,
    answer: &Body,
) -> Result<Answer, AllocError>
    requires answer { CanBeWritten answer.now }
    requires id { IsXmlText id.text }
    requires relates { IfSome (option_copied relates) (λ id. IsXmlText id.text) }
    ensures { IfOk result (λ written. written ≡ answer_with 200 charset (done_envelope answer.now id (option_copied relates.entry))) }
{
    let body = write_body(alloc, answer)?;
    let envelope = envelope_with(alloc, answer.action(), body, id, relates)?;
    write_answer(alloc, 200, charset, &envelope)
}
