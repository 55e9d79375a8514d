//! What sources make of messages.

ghost use Rattle.std.specs.FinMap as map;
ghost use Rattle.std.specs.Prelude.{◌≡◌, codes, false, None, IfOk, OnOk};
ghost use Rattle.wef_deliveries.specs.Answered as answered;
ghost use Rattle.wef_deliveries.specs.Outcomes as outcomes;
ghost use Rattle.wef_front_source.specs.HeardReplies.{offers_told, told};
ghost use Rattle.wef_machine.specs.Deliveries as steps;
ghost use Rattle.wef_machine.specs.Leasing as leasing;
ghost use Rattle.wef_places.specs.Counted as counts;
ghost use Rattle.wef_places.specs.Slots as slots;

use crate::taken::{Taken, Told, closed};
use std::alloc::{AllocError, Global};
use wef_base::{Bytes, Moment, SourceName, Text};
use wef_collector::Response;
use wef_front::{Answer, Hears, read_response};
use wef_messages::messages::{Content, RequestBytes, ResponseBytes, Sent};
use wef_places::places::Used;
use wef_places::sources::Sources;
use wef_places::{Answers, WorldFault};
use wef_printing::printing::{adopted_word, fate_word, fault_answer};

/// Gives a source the bytes of an answer, at a moment.
pub fn give<A: Answers>(
    alloc: Global,
    sources: &mut Sources,
    answers: &mut A,
    source: &SourceName,
    body: &Bytes,
    now: Moment,
) -> Result<Told, WorldFault>
    requires { slots.IsFormedAt (map.get sources.old source.now) }
    ensures sources { OnOk result (sources.new ≡ slots.given_to sources.old source.now (slots.after_told (told body.now) (offers_told now body.now) now)) }
    ensures word { IfOk result (λ given. given.word ≡ slots.word_at sources.old source.now (slots.told_word (told body.now) (offers_told now body.now) now)) }
    ensures moves { IfOk result (λ given. given.moves ≡ slots.moves_at sources.old source.now (slots.told_moves (told body.now) (offers_told now body.now) now)) }
    ensures calls { OnOk result (A.calls answers.new ≡ counts.counted (counts.once (counts.is_open_at (map.get sources.old source.now))) (A.calls answers.old)) }
{
    let Some(slot) = sources.slot_mut(source) else {
        return Ok(unmoved(alloc, "not-asked")?);
    };
    match slot.hear(alloc, answers, body, now)? {
        Used::Closed(fate) => Ok(unmoved(alloc, fate_word(fate))?),
        Used::Answered(hears) => Ok(told_by(alloc, hears)?),
    }
}

/// What moves no session, by the word for it.
fn unmoved(alloc: Global, word: &str) -> Result<Told, AllocError>
    ensures { IfOk result (λ given. given ≡ record { word = word.now; moves = false }) }
{
    Ok(Told {
        word: Text::from_str(alloc, word)?,
        moves: false,
    })
}

/// What became of an answer by what a source heard in it.
fn told_by(alloc: Global, hears: Hears) -> Result<Told, AllocError>
    ensures { IfOk result (λ given. given ≡ record { word = steps.heard_word hears; moves = slots.is_moved hears }) }
{
    let moves = matches!(hears, Hears::Moved);
    Ok(Told {
        word: heard_word(alloc, hears)?,
        moves,
    })
}

/// The word for what a source heard.
fn heard_word(alloc: Global, hears: Hears) -> Result<Text, AllocError>
    ensures { IfOk result (λ word. word ≡ steps.heard_word hears) }
{
    match hears {
        Hears::Adopted(count) => adopted_word(alloc, count),
        Hears::Moved => Text::from_str(alloc, "moved"),
        Hears::Refused => Text::from_str(alloc, "refused"),
        Hears::NotAsked | Hears::Unreadable => Text::from_str(alloc, "not-asked"),
    }
}

/// Gives a source the bytes of a request, at a moment.
pub fn give_request<A: Answers>(
    alloc: Global,
    sources: &mut Sources,
    answers: &mut A,
    source: &SourceName,
    request: &RequestBytes,
    now: Moment,
) -> Result<Taken, WorldFault>
    requires formed { slots.IsFormedAt (map.get sources.old source.now) }
    requires spelt { answered.AnswersSpeltAt request.now now (map.get sources.old source.now) }
    ensures sources { OnOk result (sources.new ≡ slots.given_to sources.old source.now (outcomes.after_request request.now now)) }
    ensures taken { IfOk result (λ taken. taken ≡ outcomes.request_of sources.old source.now request.now now) }
    ensures calls { OnOk result (A.calls answers.new ≡ counts.counted (counts.once (counts.is_open_at (map.get sources.old source.now))) (A.calls answers.old)) }
{
    let Some(slot) = sources.slot_mut(source) else {
        return Ok(not_asked(alloc)?);
    };
    match slot.answer(alloc, answers, request.bytes(), now)? {
        Used::Closed(fate) => Ok(closed(alloc, fate)?),
        Used::Answered(answer) => Ok(response_in(alloc, source, answer, now)?),
    }
}

/// What a source that isn't declared makes of a request.
fn not_asked(alloc: Global) -> Result<Taken, AllocError>
    ensures { IfOk result (λ taken. taken ≡ record { word = codes "not-asked"; answer = None }) }
{
    Ok(Taken {
        word: Text::from_str(alloc, "not-asked")?,
        answer: None,
    })
}

/// What a source made of a request, by its answer: nothing is sent where that is none to a request of a
/// collector.
fn response_in(
    alloc: Global,
    source: &SourceName,
    answer: Answer,
    now: Moment,
) -> Result<Taken, AllocError>
    requires { answered.AreRespondingAt now answer.body }
    ensures { IfOk result (λ taken. taken ≡ answered.responded_in source.now now answer.body) }
{
    let Answer { status: _, body } = answer;
    let Some((_, response)) = read_response(alloc, body.as_slice(), now)? else {
        return Ok(Taken {
            word: Text::new(alloc),
            answer: None,
        });
    };
    let content = Content::Response(ResponseBytes::of(body));
    Ok(Taken {
        word: response_word(alloc, &response)?,
        answer: Some(Sent::of(source.clone()?, content)),
    })
}

/// The word for an answer to a request.
fn response_word(alloc: Global, response: &Response) -> Result<Text, AllocError>
    ensures { IfOk result (λ word. word ≡ leasing.response_word response.now) }
{
    match response {
        Response::Subscribed { .. } => Text::from_str(alloc, "subscribed"),
        Response::Renewed { .. } => Text::from_str(alloc, "renewed"),
        Response::Unsubscribed => Text::from_str(alloc, "cancelled"),
        Response::Fault(name) => fault_answer(alloc, name),
    }
}
