//! Deliveries of messages.

ghost use Rattle.std.specs.Option.{option_copied};
ghost use Rattle.std.specs.Prelude.{◌≡◌, ◌-◌, ◌==◌, false, slice_get, None, if◌then◌else◌, IfOk, OnOk};
ghost use Rattle.wef_machine.specs.Deliveries as steps;
ghost use Rattle.wef_machine.specs.Leasing.{with_sent};
ghost use Rattle.wef_machine.specs.Seen.{message_line, seen_line};
ghost use Rattle.wef_machine.specs.States as states;
ghost use Rattle.wef_places.specs.Counted as counts;
ghost use Rattle.wef_safety.specs.Kept.{IsKept};
ghost use Rattle.wef_world.specs.Delivered as outcomes;

use crate::ends::Ends;
use std::alloc::{AllocError, Global};
use wef_base::{Bytes, Text};
use wef_deliveries::giving::{give, give_request};
use wef_deliveries::taken::{Taken, Told};
use wef_deliveries::taking::{take_ask, take_beat, take_delivery, take_note, take_response};
use wef_messages::messages::{Content, Sent};
use wef_places::{Answers, WorldFault};
use wef_printing::printing::{answered_line, no_message_line, took_line};

impl Ends {
    /// The number of the message that so many messages, counted round, came behind. 0 where none was
    /// sent.
    pub(crate) fn number_back(&self, number: u64) -> u64
        ensures { result ≡ steps.number_back self.now number }
    {
        let count = self.messages.len() as u64;
        if count == 0 {
            0
        } else {
            count - number % count
        }
    }

    /// The line that shows the message of a number: nothing where there is none.
    pub(crate) fn seen(&self, number: u64) -> Result<Bytes, AllocError>
        ensures { IfOk result (λ line. line ≡ seen_line number (steps.message_at self.now number)) }
    {
        match message_at(self.messages.as_slice(), number) {
            Some(message) => message_line(self.alloc, number, message),
            None => Ok(Bytes::new(self.alloc)),
        }
    }

    /// Delivers the message of a number, and tells what became of it.
    pub(crate) fn deliver<A: Answers>(
        &mut self,
        answers: &mut A,
        number: u64,
    ) -> Result<Text, WorldFault>
        requires kept { IsKept self.old }
        ensures state { OnOk result (self.new ≡ steps.deliver_step self.old number) }
        ensures printed { IfOk result (λ text. text ≡ steps.deliver_printed self.old number) }
        ensures calls { OnOk result (A.calls answers.new ≡ counts.counted (counts.once (counts.is_heard_at self.old number)) (A.calls answers.old)) }
    {
        let delivered = self.bring(answers, number)?;
        Ok(delivered_line(self.alloc, number, &delivered)?)
    }

    /// Brings the message of a number to its end, and sends the answer. What is made of it is made of its
    /// bytes. Nothing comes of it where no message has the number.
    pub(crate) fn bring<A: Answers>(
        &mut self,
        answers: &mut A,
        number: u64,
    ) -> Result<Option<Delivered>, WorldFault>
        requires kept { IsKept self.old }
        ensures state { OnOk result (self.new ≡ steps.deliver_step self.old number) }
        ensures delivered { IfOk result (λ delivered. delivered ≡ outcomes.deliver_comes self.old number) }
        ensures calls { OnOk result (A.calls answers.new ≡ counts.counted (counts.once (counts.is_heard_at self.old number)) (A.calls answers.old)) }
    {
        let (alloc, now) = (self.alloc, self.moment);
        let Some(message) = message_at(self.messages.as_slice(), number) else {
            return Ok(None);
        };
        let (source, content) = message.parts();
        match content {
            Content::Ask(wish) => {
                let taken = take_ask(alloc, &mut self.collector, answers, source, wish, now)?;
                Ok(Some(self.send_answer(taken)?))
            }
            Content::Offers(offers) => {
                let body = offers.bytes();
                let told = give(alloc, &mut self.sources, answers, source, body, now)?;
                Ok(Some(unanswered(told)))
            }
            Content::Delivery(delivery) => {
                let collector = &mut self.collector;
                let taken = take_delivery(alloc, collector, answers, source, delivery, now)?;
                Ok(Some(self.send_answer(taken)?))
            }
            Content::Beat(beat) => {
                let collector = &mut self.collector;
                let taken = take_beat(alloc, collector, answers, source, beat, now)?;
                Ok(Some(self.send_answer(taken)?))
            }
            Content::Reply(reply) => {
                let body = reply.bytes();
                let told = give(alloc, &mut self.sources, answers, source, body, now)?;
                Ok(Some(unanswered(told)))
            }
            Content::Request(request) => {
                let sources = &mut self.sources;
                let taken = give_request(alloc, sources, answers, source, request, now)?;
                Ok(Some(self.send_answer(taken)?))
            }
            Content::Response(response) => {
                let collector = &mut self.collector;
                let told = take_response(alloc, collector, answers, response, now)?;
                Ok(Some(unanswered(told)))
            }
            Content::Ended(note) => {
                let collector = &mut self.collector;
                let taken = take_note(alloc, collector, answers, source, note, now)?;
                Ok(Some(self.send_answer(taken)?))
            }
        }
    }

    /// Sends an end's answer to a message, where there is one, and answers its number with the word.
    fn send_answer(&mut self, taken: Taken) -> Result<Delivered, AllocError>
        ensures state { OnOk result (self.new ≡ with_sent self.old taken.answer) }
        ensures delivered { IfOk result (λ delivered. delivered ≡ outcomes.delivered_by (states.next_number self.old) false taken) }
    {
        let Taken { word, answer } = taken;
        match answer {
            Some(answer) => {
                let number = self.send(answer)?;
                Ok(Delivered {
                    word,
                    answer: Some(number),
                    moves: false,
                })
            }
            None => Ok(Delivered {
                word,
                answer: None,
                moves: false,
            }),
        }
    }
}

/// What became of a message.
#[derive(Drop)]
pub(crate) struct Delivered {
    /// The word for what its end made of it.
    pub(crate) word: Text,
    /// The number of the answer, where one was sent.
    pub(crate) answer: Option<u64>,
    /// Whether a session goes on by it, or a lease stands.
    pub(crate) moves: bool,
}

/// What became of a message that its end doesn't answer.
fn unanswered(told: Told) -> Delivered
    ensures { result ≡ record { word = told.word; answer = None; moves = told.moves } }
{
    let Told { word, moves } = told;
    Delivered {
        word,
        answer: None,
        moves,
    }
}

/// What is printed of a delivery, by what became of the message of the number.
fn delivered_line(
    alloc: Global,
    number: u64,
    delivered: &Option<Delivered>,
) -> Result<Text, AllocError>
    ensures { IfOk result (λ text. text ≡ outcomes.delivered_line number delivered.now) }
{
    let Some(delivered) = delivered else {
        return no_message_line(alloc, number);
    };
    let word = delivered.word.as_str();
    match delivered.answer {
        Some(answer) => answered_line(alloc, number, word, answer),
        None => took_line(alloc, number, word),
    }
}

/// The line that shows a message.
#[tactic(auto, unfolding(wef_machine::specs::Printed::text_line))]
fn message_line(alloc: Global, number: u64, message: &Sent) -> Result<Bytes, AllocError>
    ensures { IfOk result (λ line. line ≡ message_line number message.now) }
{
    let mut head = Text::from_str(alloc, "message ")?;
    head.push_number(number)?;
    head.push_str(" ")?;
    let mut line = Bytes::new(alloc);
    line.extend(head.as_str().as_bytes())?;
    message.push_text(&mut line)?;
    line.push(b'\n')?;
    Ok(line)
}

/// The message of a number.
pub(crate) fn message_at(messages: &[Sent], number: u64) -> Option<&Sent>
    ensures { option_copied result ≡ (if number == 0 then None else slice_get messages.now (number - 1)) }
{
    if number == 0 {
        return None;
    }
    messages.get(number as usize - 1)
}
