//! `write`: events become records of a source's log.

ghost use Rattle.std.specs.Prelude.{◌≡◌, ◌≤◌, true, false, None, is_some, IfOk, IfErr, IfSome, OnOk};
ghost use Rattle.wef_commands.specs.Checking.{lines_of};
ghost use Rattle.wef_commands.specs.Endings.{told_of};
ghost use Rattle.wef_commands.specs.Writing as spec;
ghost use Rattle.wef_lines.specs.Documents.{new_event_in};

use crate::calling::tell_line;
use crate::checking::cut;
use crate::ending::Ending;
use crate::streams::{InputFault, read_whole};
use std::alloc::{AllocError, Global};
use std::str;
use wef_base::{Bytes, ChannelName, Sink, Source, Text};
use wef_event::{Event, EventFault, read_new_event};
use wef_keeper::Keeper;
use wef_source_log::{Log, LogFault};

/// How many records of each channel the log of a source keeps that the program starts first.
pub const LOG_CAPACITY: u64 = 65_536;

/// Writes the events of lines into the log of a source, one after the other, and prints the channel
/// and the number of each once it is written. All lines are read and judged before the log is started.
/// The input may be as long as there is memory for it.
pub fn write<K: Keeper, I: Source, O: Sink>(
    alloc: Global,
    keeper: K,
    input: &mut I,
    out: &mut O,
) -> (K, Ending)
    ensures { spec.WriteEnds result.1
        (told_of I.left I.faults input.old input.new)
        (told_of O.taken O.faults out.old out.new)
        (K.store keeper) (K.store result.0) }
{
    match read_events(alloc, input) {
        Ok(bytes) => write_all(alloc, keeper, bytes.as_slice(), out),
        Err(ending) => (keeper, ending),
    }
}

/// The bytes of an input, read to its end, each line of which says an event; or how the run ends.
fn read_events<I: Source>(alloc: Global, input: &mut I) -> Result<Bytes, Ending>
    ensures ok { IfOk result (λ bytes. spec.HasEvents (spec.events_of (lines_of bytes))
        (told_of I.left I.faults input.old input.new)) }
    ensures good { IfOk result (λ bytes. spec.bad_line bytes ≡ None) }
    ensures err { IfErr result (λ ending. spec.EndsJudging ending
        (told_of I.left I.faults input.old input.new)) }
{
    let bytes = match read_whole(alloc, input, usize::MAX) {
        Ok(bytes) => bytes,
        Err(InputFault::NoMemory | InputFault::TooLong) => return Err(Ending::NoMemory),
        Err(InputFault::Failed) => return Err(Ending::InputFailed),
    };
    judge(alloc, bytes.as_slice())?;
    Ok(bytes)
}

/// Judges the lines of a text, one after the other; or how the run ends.
fn judge(alloc: Global, text: &[u8]) -> Result<(), Ending>
    ensures ok { OnOk result (spec.bad_line text.now ≡ None) }
    ensures err { IfErr result (λ ending. spec.IsBad ending text.now) }
{
    let mut rest = text;
    let mut number = 0u64;
    while !rest.is_empty() {
        let (line, behind) = cut(rest);
        number += 1;
        if event_in(alloc, line)?.is_none() {
            return Err(Ending::BadLine(number));
        }
        rest = behind;
    }
    Ok(())
}

/// The event that a line says, with a number or without one; none where it says none.
fn event_in(alloc: Global, line: &[u8]) -> Result<Option<Event>, AllocError>
    ensures { IfOk result (λ event. event ≡ new_event_in line.now) }
{
    let Ok(text) = str::from_utf8(line) else {
        return Ok(None);
    };
    event_of_text(&Text::from_str(alloc, text)?)
}

/// The event that the text of a line says; none where it says none.
fn event_of_text(line: &Text) -> Result<Option<Event>, AllocError>
    ensures { IfOk result (λ event. event ≡ new_event_in line.now) }
{
    match read_new_event(line) {
        Ok(event) => Ok(Some(event)),
        Err(fault) => {
            unless_wanting(fault)?;
            Ok(None)
        }
    }
}

/// Hands on want of memory alone.
fn unless_wanting(fault: EventFault) -> Result<(), AllocError>
    ensures { OnOk result (spec.is_wanting fault ≡ false) }
{
    match fault {
        EventFault::NoMemory => Err(AllocError),
        _ => Ok(()),
    }
}

/// Starts the log, and writes the events of lines.
fn write_all<K: Keeper, O: Sink>(alloc: Global, keeper: K, text: &[u8], out: &mut O) -> (K, Ending)
    requires { spec.bad_line text.now ≡ None }
    ensures { spec.WritesAll (spec.events_of (lines_of text.now)) result.1
        (told_of O.taken O.faults out.old out.new)
        (K.store keeper) (K.store result.0) }
{
    let mut log = match Log::start(alloc, keeper, LOG_CAPACITY) {
        Ok(log) => log,
        Err((keeper, fault)) => return (keeper, Ending::from(fault)),
    };
    let ending = write_lines(alloc, &mut log, text, out);
    (log.into_keeper(), ending)
}

/// Writes the events of lines, and tells each.
fn write_lines<K: Keeper, O: Sink>(
    alloc: Global,
    log: &mut Log<K>,
    text: &[u8],
    out: &mut O,
) -> Ending
    requires { spec.bad_line text.now ≡ None }
    ensures { spec.WroteEvents (spec.events_of (lines_of text.now)) result
        (told_of O.taken O.faults out.old out.new)
        (K.store log.old.keeper) (K.store log.new.keeper) }
{
    let mut rest = text;
    let mut number = 0u64;
    while !rest.is_empty() {
        let (line, behind) = cut(rest);
        number += 1;
        match write_line(alloc, log, line, number, out) {
            Ok(()) => {}
            Err(ending) => return ending,
        }
        rest = behind;
    }
    Ending::Done
}

/// Writes the event of a line, whose number is that of the line, and tells it; or how the run ends.
#[tactic(auto, using(crate::proofs::LinesWritten::of_line, crate::proofs::LinesWritten::not_read_again))]
fn write_line<K: Keeper, O: Sink>(
    alloc: Global,
    log: &mut Log<K>,
    line: &[u8],
    number: u64,
    out: &mut O,
) -> Result<(), Ending>
    requires { is_some (new_event_in line.now) ≡ true }
    ensures turn { IfSome (new_event_in line.now) (λ event. spec.TurnsLine number event result
        (told_of O.taken O.faults out.old out.new)
        (K.store log.old.keeper) (K.store log.new.keeper)) }
    ensures later { O.faults out.old ≤ O.faults out.new }
{
    match event_in(alloc, line)? {
        Some(event) => write_event(log, &event, number, out),
        None => unreachable!(),
    }
}

/// Writes the event of the line of a number, and tells it; or how the run ends.
#[tactic(auto, using(crate::proofs::LinesWritten::turned))]
fn write_event<K: Keeper, O: Sink>(
    log: &mut Log<K>,
    event: &Event,
    number: u64,
    out: &mut O,
) -> Result<(), Ending>
    ensures turn { spec.TurnsLine number event.now result
        (told_of O.taken O.faults out.old out.new)
        (K.store log.old.keeper) (K.store log.new.keeper) }
    ensures later { O.faults out.old ≤ O.faults out.new }
{
    match log.write(event) {
        Ok(written) => tell(&event.channel, written, out),
        Err(fault) => Err(write_ending(number, fault)),
    }
}

/// Tells the number of an event that is written; or how the run ends.
fn tell<O: Sink>(channel: &ChannelName, number: u64, out: &mut O) -> Result<(), Ending>
    ensures told { spec.TellsLine result
        (told_of O.taken O.faults out.old out.new)
        (spec.written_line channel.now number) }
    ensures later { O.faults out.old ≤ O.faults out.new }
{
    let text = written_line(channel, number)?;
    tell_line(text.as_str(), out)
}

#[tactic(auto, unfolding(crate::specs::Writing::written_line))]
fn written_line(channel: &ChannelName, number: u64) -> Result<Text, AllocError>
    ensures { IfOk result (λ text. text ≡ spec.written_line channel.now number) }
{
    let name = channel.as_text();
    let mut text = Text::new(name.alloc());
    text.push_printed(name)?;
    text.push_str(" ")?;
    text.push_number(number)?;
    text.push_str("\n")?;
    Ok(text)
}

/// The ending that tells why the event of the line of a number isn't written.
fn write_ending(number: u64, fault: LogFault) -> Ending
    ensures { result ≡ spec.write_ending number fault }
{
    match fault {
        LogFault::TooLong => Ending::BadLine(number),
        _ => Ending::from(fault),
    }
}
