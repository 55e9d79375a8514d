//! `check`: which events a list of queries selects.

ghost use Rattle.std.specs.Prelude.{◌≡◌, ◌<◌, [], ◌∷◌, length, IfOk, IfErr};
ghost use Rattle.wef_commands.specs.Checking as spec;
ghost use Rattle.wef_commands.specs.Checking.{lines_of};
ghost use Rattle.wef_commands.specs.Endings.{told_of};
ghost use Rattle.wef_xml.specs.Good.{IsGoodTree};

use crate::calling::write_done;
use crate::ending::Ending;
use crate::streams::{InputFault, read_whole};
use std::alloc::{AllocError, Global};
use wef_base::{Sink, Source, Text};
use wef_event::{EventFault, event_of_node};
use wef_lines::{list_in, tree_in};
use wef_query::{QueryList, selected};
use wef_xml::ToldTree;

/// Reads lines, the first of which is a list of queries and each other one an event, and writes a line
/// for each event: whether the list selects it. Nothing is written before all lines are read. The input
/// may be as long as there is memory for.
pub fn check<I: Source, O: Sink>(alloc: Global, input: &mut I, out: &mut O) -> Ending
    ensures { spec.CheckEnds result
        (told_of I.left I.faults input.old input.new)
        (told_of O.taken O.faults out.old out.new) }
{
    match read_answers(alloc, input) {
        Ok(text) => write_done(&text, out),
        Err(ending) => ending,
    }
}

/// What is printed for an input, read to its end; or how the run ends.
fn read_answers<I: Source>(alloc: Global, input: &mut I) -> Result<Text, Ending>
    ensures ok { IfOk result (λ text. spec.HasAnswers text
        (told_of I.left I.faults input.old input.new)) }
    ensures err { IfErr result (λ ending. spec.EndsUnanswered ending
        (told_of I.left I.faults input.old input.new)) }
{
    let bytes = match read_whole(alloc, input, usize::MAX) {
        Ok(bytes) => bytes,
        Err(InputFault::NoMemory | InputFault::TooLong) => return Err(Ending::NoMemory),
        Err(InputFault::Failed) => return Err(Ending::InputFailed),
    };
    answers_of(alloc, bytes.as_slice())
}

/// What is printed for the lines of a text.
fn answers_of(alloc: Global, text: &[u8]) -> Result<Text, Ending>
    ensures { spec.Checks result (spec.answers_of (lines_of text.now)) }
{
    if text.is_empty() {
        return Err(Ending::BadLine(1));
    }
    let (line, behind) = cut(text);
    let Some(list) = list_in(alloc, line)? else {
        return Err(Ending::BadLine(1));
    };
    answers_from(alloc, &list, behind)
}

/// What is printed for lines of events, the first of which is line 2.
fn answers_from(alloc: Global, list: &QueryList, text: &[u8]) -> Result<Text, Ending>
    ensures { spec.Checks result (spec.answers_from list.now [] 2 (lines_of text.now)) }
{
    let mut printed = Text::new(alloc);
    let mut rest = text;
    let mut number = 1u64;
    while !rest.is_empty() {
        let (line, behind) = cut(rest);
        number += 1;
        let Some(selects) = answer_to(alloc, list, line)? else {
            return Err(Ending::BadLine(number));
        };
        printed.push_str(answer_line(selects))?;
        rest = behind;
    }
    Ok(printed)
}

/// The first line of a text that isn't empty, without the LF that ends it, and what stands behind that.
pub(crate) fn cut(text: &[u8]) -> (&[u8], &[u8])
    requires { 0 < length text.now }
    ensures first { lines_of text.now ≡ result.0.now ∷ lines_of result.1.now }
    ensures shorter { length result.1.now < length text.now }
{
    for (at, byte) in text.iter().enumerate() {
        if *byte == b'\n' {
            return (&text[..at], &text[at + 1..]);
        }
    }
    (text, &text[text.len()..])
}

fn answer_line(selects: bool) -> &'static str
    ensures { result.now ≡ spec.answer_line selects }
{
    if selects { "yes\n" } else { "no\n" }
}

/// Whether a list selects the event that a line says; none where it says none.
#[tactic(auto, using(crate::proofs::Checked::answered))]
fn answer_to(alloc: Global, list: &QueryList, line: &[u8]) -> Result<Option<bool>, AllocError>
    ensures { IfOk result (λ answer. answer ≡ spec.answer_to list.now line.now) }
{
    match tree_in(alloc, line)? {
        Some(tree) => answer_of(list, &tree),
        None => Ok(None),
    }
}

/// Whether a list selects the event that a tree says; none where it says none.
fn answer_of(list: &QueryList, tree: &ToldTree) -> Result<Option<bool>, AllocError>
    requires { IsGoodTree tree.now }
    ensures { IfOk result (λ answer. answer ≡ spec.answer_by list.now tree.now) }
{
    match event_of_node(tree.is_told(), tree.root()) {
        Ok(event) => Ok(Some(selected(list, &event.channel, tree.root()))),
        Err(EventFault::NoMemory) => Err(AllocError),
        Err(_) => Ok(None),
    }
}
