//! The lines of a schedule, read word by word.

ghost use Rattle.std.specs.Option.{option_map};
ghost use Rattle.std.specs.Prelude.{◌≡◌};
ghost use Rattle.wef_base.specs.Words.{parts};
ghost use Rattle.wef_lines.specs.Documents.{list_in};
ghost use Rattle.wef_replay.specs.Grammar.{all_of, batch_line, batch_of_source, calm_line, collector_line_of, commit_words, crash_line, deliver_line, does_nothing, event_words, failure_line_of, fitting_event, forget_line, limit_words, line_of_words, meaning, message_line_of, only_number_words, only_source_words, only_subscription_words, other_line, pair_words, print_line, query_words, request_line, seen_words, settle_line, show_line, source_line, source_line_of, subscribe_at_line, subscribe_line, write_line, write_xml_line, xml_event_words};
ghost use Rattle.wef_replay.specs.Parts.{parts_behind};
ghost use Rattle.wef_replay.specs.declared.lines.Line.TheVariants.{Ask, Back, End, Fail, Lost, Poll, Shut, Status, Stop, Tick};
ghost use Rattle.wef_replay_values.specs.Reading.{Gives};
ghost use Rattle.wef_replay_values.specs.Values.{channel_words, joined};

use crate::cutting::cut;
use crate::documents::new_event_in;
use crate::lines::Line;
use crate::spelled::SpelledBatch;
use std::alloc::Global;
use wef_base::numbers::MAX;
use wef_base::words::{is_text, split};
use wef_base::{Bytes, ChannelName, SourceName, SubId, Text, is_xml_text};
use wef_event::{Event, PlainEvent};
use wef_lines::list_in;
use wef_query::QueryList;
use wef_replay_values::EndName;
use wef_replay_values::values::{
    LineFault, after_of, channel_of, channels_of, end_of, is_word, joined, number_of,
    sending_source_of, source_of, subscription_of, text_of, utf8_text_of,
};
use wef_times::durations::LIMIT;

/// What a line does, if anything.
pub fn read_line(alloc: Global, text: &[u8]) -> Result<Option<Line>, LineFault>
    ensures { Gives result (meaning text.now) }
{
    if !is_text(text) {
        return Err(LineFault::NotUnderstood);
    }
    if does_nothing(text) {
        return Ok(None);
    }
    Ok(Some(line_of(alloc, text)?))
}

fn does_nothing(text: &[u8]) -> bool
    ensures { result ≡ does_nothing text.now }
{
    match text {
        [] => true,
        [first, ..] => *first == b'#',
    }
}

/// A line that does something. A batch, which may have many words, isn't cut into them.
fn line_of(alloc: Global, text: &[u8]) -> Result<Line, LineFault>
    ensures { Gives result (line_of_words (parts 32 text.now)) }
{
    let (kind, words) = cut(text, b' ');
    if kind == "batch".as_bytes() {
        return batch_line_of(alloc, words);
    }
    let words = split(alloc, text, b' ')?;
    other_line_of(alloc, words.as_slice())
}

/// A line that is no batch.
fn other_line_of(alloc: Global, words: &[Bytes]) -> Result<Line, LineFault>
    ensures { Gives result (other_line words.now) }
{
    match words {
        [kind, words @ ..] => collector_line_of(alloc, kind, words),
        [] => Err(LineFault::NotUnderstood),
    }
}

/// A line of the collector, or any other that is no batch.
fn collector_line_of(alloc: Global, kind: &Bytes, words: &[Bytes]) -> Result<Line, LineFault>
    ensures { Gives result (collector_line_of kind.now words.now) }
{
    if is_word(kind, "subscribe") {
        return subscribe_of(alloc, words);
    }
    if is_word(kind, "subscribeat") {
        return subscribe_at_of(alloc, words);
    }
    if is_word(kind, "end") {
        return ended_of(alloc, words);
    }
    if is_word(kind, "request") {
        return request_of(words);
    }
    if is_word(kind, "forget") {
        return forget_of(words);
    }
    if is_word(kind, "show") {
        return show_of(words);
    }
    if is_word(kind, "print") {
        return print_of(alloc, words);
    }
    if is_word(kind, "status") {
        return status_of(alloc, words);
    }
    source_line_of(alloc, kind, words)
}

/// A line of a source, a message, a failure or the moment.
fn source_line_of(alloc: Global, kind: &Bytes, words: &[Bytes]) -> Result<Line, LineFault>
    ensures { Gives result (source_line_of kind.now words.now) }
{
    if is_word(kind, "source") {
        return declared_of(alloc, words);
    }
    if is_word(kind, "write") {
        return write_of(alloc, words);
    }
    if is_word(kind, "writexml") {
        return write_xml_of(alloc, words);
    }
    if is_word(kind, "ask") {
        return ask_of(alloc, words);
    }
    if is_word(kind, "poll") {
        return poll_of(alloc, words);
    }
    if is_word(kind, "lost") {
        return lost_of(alloc, words);
    }
    if is_word(kind, "shut") {
        return shut_of(alloc, words);
    }
    message_line_of(alloc, kind, words)
}

/// A line of messages, a failure or the moment.
fn message_line_of(alloc: Global, kind: &Bytes, words: &[Bytes]) -> Result<Line, LineFault>
    ensures { Gives result (message_line_of kind.now words.now) }
{
    if is_word(kind, "deliver") {
        return deliver_of(words);
    }
    if is_word(kind, "back") {
        return back_of(words);
    }
    if is_word(kind, "settle") {
        return settle_of(words);
    }
    failure_line_of(alloc, kind, words)
}

/// A line of a failure or of the moment.
fn failure_line_of(alloc: Global, kind: &Bytes, words: &[Bytes]) -> Result<Line, LineFault>
    ensures { Gives result (failure_line_of kind.now words.now) }
{
    if is_word(kind, "crash") {
        return crash_of(alloc, words);
    }
    if is_word(kind, "fail") {
        return fail_of(alloc, words);
    }
    if is_word(kind, "stop") {
        return stop_of(alloc, words);
    }
    if is_word(kind, "calm") {
        return calm_of(words);
    }
    if is_word(kind, "tick") {
        return tick_of(words);
    }
    Err(LineFault::NotUnderstood)
}

fn subscribe_of(alloc: Global, words: &[Bytes]) -> Result<Line, LineFault>
    ensures { Gives result (subscribe_line words.now) }
{
    match words {
        [sub, items, bytes, beat, kind, words @ ..] => {
            let (items, bytes, beat) = limits_of(items, bytes, beat)?;
            let sub = subscription_of(alloc, sub)?;
            let query = query_of(alloc, kind, words)?;
            Ok(Line::Subscribe {
                sub,
                items,
                bytes,
                beat,
                query,
            })
        }
        _ => Err(LineFault::NotUnderstood),
    }
}

fn subscribe_at_of(alloc: Global, words: &[Bytes]) -> Result<Line, LineFault>
    ensures { Gives result (subscribe_at_line words.now) }
{
    match words {
        [sub, source, items, bytes, beat, expires, kind, words @ ..] => {
            let (items, bytes, beat) = limits_of(items, bytes, beat)?;
            let expires = number_of(expires, 1, LIMIT)?;
            let sub = subscription_of(alloc, sub)?;
            let source = source_of(alloc, source)?;
            let query = query_of(alloc, kind, words)?;
            Ok(Line::SubscribeAt {
                sub,
                source,
                items,
                bytes,
                beat,
                expires,
                query,
            })
        }
        _ => Err(LineFault::NotUnderstood),
    }
}

/// The limits of a subscription: items and bytes of a batch, and the milliseconds of a heartbeat.
fn limits_of(items: &Bytes, bytes: &Bytes, beat: &Bytes) -> Result<(u32, u32, u64), LineFault>
    ensures { Gives result (limit_words items.now bytes.now beat.now) }
{
    let items = number_of(items, 1, 10_000)? as u32;
    let bytes = number_of(bytes, 8_192, 4_194_304)? as u32;
    let beat = number_of(beat, 1, 86_400_000)?;
    Ok((items, bytes, beat))
}

/// The queries of a subscription, by the word that says how they are given, and the words behind it.
fn query_of(alloc: Global, kind: &Bytes, words: &[Bytes]) -> Result<QueryList, LineFault>
    ensures { Gives result (query_words kind.now words.now) }
{
    let [word, more @ ..] = words else {
        return Err(LineFault::NotUnderstood);
    };
    if is_word(kind, "all") {
        return all_of(alloc, words);
    }
    if is_word(kind, "query") {
        return list_of(alloc, word, more);
    }
    Err(LineFault::NotUnderstood)
}

/// The queries for all events of the channels that words name.
fn all_of(alloc: Global, channels: &[Bytes]) -> Result<QueryList, LineFault>
    ensures { Gives result (option_map all_of (channel_words channels.now)) }
{
    let channels = channels_of(alloc, channels)?;
    Ok(QueryList::all(alloc, channels)?)
}

/// The list of queries that words say as one text.
fn list_of(alloc: Global, word: &Bytes, words: &[Bytes]) -> Result<QueryList, LineFault>
    ensures { Gives result (list_in (joined 32 word.now words.now)) }
{
    let text = joined(alloc, b' ', word, words)?;
    list_in(alloc, text.as_slice())?.ok_or(LineFault::NotUnderstood)
}

/// A subscription, and nothing more.
fn only_subscription_of(alloc: Global, words: &[Bytes]) -> Result<SubId, LineFault>
    ensures { Gives result (only_subscription_words words.now) }
{
    match words {
        [sub] => subscription_of(alloc, sub),
        _ => Err(LineFault::NotUnderstood),
    }
}

fn ended_of(alloc: Global, words: &[Bytes]) -> Result<Line, LineFault>
    ensures { Gives result (option_map (λ u. End u) (only_subscription_words words.now)) }
{
    let sub = only_subscription_of(alloc, words)?;
    Ok(Line::End { sub })
}

/// The line of a batch, by the words behind its first.
fn batch_line_of(alloc: Global, words: Option<&[u8]>) -> Result<Line, LineFault>
    ensures { Gives result (batch_line (parts_behind 32 words.entry)) }
{
    let Some(words) = words else {
        return Err(LineFault::NotUnderstood);
    };
    let (sub, Some(words)) = cut(words, b' ') else {
        return Err(LineFault::NotUnderstood);
    };
    let (source, Some(words)) = cut(words, b' ') else {
        return Err(LineFault::NotUnderstood);
    };
    batch_of_source(alloc, sub, source, words)
}

fn batch_of_source(
    alloc: Global,
    sub: &[u8],
    source: &[u8],
    words: &[u8],
) -> Result<Line, LineFault>
    ensures { Gives result (batch_of_source sub.now source.now (parts 32 words.now)) }
{
    let sub = subscription_of(alloc, &Bytes::from_slice(alloc, sub)?)?;
    let source = sending_source_of(alloc, &Bytes::from_slice(alloc, source)?)?;
    let batch = SpelledBatch::read(alloc, words)?;
    Ok(Line::Batch { sub, source, batch })
}

fn declared_of(alloc: Global, words: &[Bytes]) -> Result<Line, LineFault>
    ensures { Gives result (source_line words.now) }
{
    match words {
        [source, capacity] => {
            let source = sending_source_of(alloc, source)?;
            let capacity = number_of(capacity, 1, 1_000_000)?;
            Ok(Line::Source { source, capacity })
        }
        _ => Err(LineFault::NotUnderstood),
    }
}

fn write_of(alloc: Global, words: &[Bytes]) -> Result<Line, LineFault>
    ensures { Gives result (write_line words.now) }
{
    match words {
        [source, channel, id, level, word] => {
            let source = source_of(alloc, source)?;
            let event = event_of(alloc, channel, id, level, word)?;
            Ok(Line::Write { source, event })
        }
        _ => Err(LineFault::NotUnderstood),
    }
}

/// The event that a source is to write.
fn event_of(
    alloc: Global,
    channel: &Bytes,
    id: &Bytes,
    level: &Bytes,
    word: &Bytes,
) -> Result<PlainEvent, LineFault>
    ensures { Gives result (event_words channel.now id.now level.now word.now) }
{
    let channel = channel_of(alloc, channel)?;
    let id = number_of(id, 0, 4_294_967_295)? as u32;
    let level = number_of(level, 0, 4_294_967_295)? as u32;
    let word = text_of(alloc, word)?;
    fitting_event(channel, id, level, word)
}

/// An event of XML Chars, which fits with every number that a log may give it.
fn fitting_event(
    channel: ChannelName,
    id: u32,
    level: u32,
    word: Text,
) -> Result<PlainEvent, LineFault>
    ensures { Gives result (fitting_event channel id level word) }
{
    if !is_xml_text(&word)? {
        return Err(LineFault::NotUnderstood);
    }
    let event = PlainEvent {
        channel,
        id,
        level,
        word,
    };
    if !event.fits(MAX) {
        return Err(LineFault::NotUnderstood);
    }
    Ok(event)
}

fn write_xml_of(alloc: Global, words: &[Bytes]) -> Result<Line, LineFault>
    ensures { Gives result (write_xml_line words.now) }
{
    match words {
        [source, word, words @ ..] => {
            let source = source_of(alloc, source)?;
            let event = xml_event_of(alloc, word, words)?;
            Ok(Line::WriteXml { source, event })
        }
        _ => Err(LineFault::NotUnderstood),
    }
}

/// The event that words say as one text.
fn xml_event_of(alloc: Global, word: &Bytes, words: &[Bytes]) -> Result<Event, LineFault>
    ensures { Gives result (xml_event_words word.now words.now) }
{
    let bytes = joined(alloc, b' ', word, words)?;
    let text = utf8_text_of(alloc, bytes.as_slice())?;
    new_event_in(&text)
}

/// A source, and nothing more.
fn only_source_of(alloc: Global, words: &[Bytes]) -> Result<SourceName, LineFault>
    ensures { Gives result (only_source_words words.now) }
{
    match words {
        [source] => source_of(alloc, source),
        _ => Err(LineFault::NotUnderstood),
    }
}

fn ask_of(alloc: Global, words: &[Bytes]) -> Result<Line, LineFault>
    ensures { Gives result (option_map (λ s. Ask s) (only_source_words words.now)) }
{
    let source = only_source_of(alloc, words)?;
    Ok(Line::Ask { source })
}

fn shut_of(alloc: Global, words: &[Bytes]) -> Result<Line, LineFault>
    ensures { Gives result (option_map (λ s. Shut s) (only_source_words words.now)) }
{
    let source = only_source_of(alloc, words)?;
    Ok(Line::Shut { source })
}

/// A source and a subscription.
fn pair_of(alloc: Global, words: &[Bytes]) -> Result<(SourceName, SubId), LineFault>
    ensures { Gives result (pair_words words.now) }
{
    match words {
        [source, sub] => {
            let source = source_of(alloc, source)?;
            let sub = subscription_of(alloc, sub)?;
            Ok((source, sub))
        }
        _ => Err(LineFault::NotUnderstood),
    }
}

fn poll_of(alloc: Global, words: &[Bytes]) -> Result<Line, LineFault>
    ensures { Gives result (option_map (λ pair. Poll pair.0 pair.1) (pair_words words.now)) }
{
    let (source, sub) = pair_of(alloc, words)?;
    Ok(Line::Poll { source, sub })
}

fn lost_of(alloc: Global, words: &[Bytes]) -> Result<Line, LineFault>
    ensures { Gives result (option_map (λ pair. Lost pair.0 pair.1) (pair_words words.now)) }
{
    let (source, sub) = pair_of(alloc, words)?;
    Ok(Line::Lost { source, sub })
}

/// A number, and nothing more.
fn only_number_of(words: &[Bytes]) -> Result<u64, LineFault>
    ensures { Gives result (only_number_words words.now) }
{
    match words {
        [number] => number_of(number, 0, MAX),
        _ => Err(LineFault::NotUnderstood),
    }
}

/// Whether what a message says is to be printed first: no word, or `seen`.
fn seen_of(words: &[Bytes]) -> Result<bool, LineFault>
    ensures { Gives result (seen_words words.now) }
{
    match words {
        [] => Ok(false),
        [word] if is_word(word, "seen") => Ok(true),
        _ => Err(LineFault::NotUnderstood),
    }
}

fn deliver_of(words: &[Bytes]) -> Result<Line, LineFault>
    ensures { Gives result (deliver_line words.now) }
{
    match words {
        [number, words @ ..] => {
            let number = number_of(number, 0, MAX)?;
            let seen = seen_of(words)?;
            Ok(Line::Deliver { number, seen })
        }
        [] => Err(LineFault::NotUnderstood),
    }
}

fn back_of(words: &[Bytes]) -> Result<Line, LineFault>
    ensures { Gives result (option_map (λ n. Back n) (only_number_words words.now)) }
{
    let number = only_number_of(words)?;
    Ok(Line::Back { number })
}

fn request_of(words: &[Bytes]) -> Result<Line, LineFault>
    ensures { Gives result (request_line words.now) }
{
    match words {
        [] => Ok(Line::Request),
        _ => Err(LineFault::NotUnderstood),
    }
}

fn forget_of(words: &[Bytes]) -> Result<Line, LineFault>
    ensures { Gives result (forget_line words.now) }
{
    match words {
        [] => Ok(Line::Forget),
        _ => Err(LineFault::NotUnderstood),
    }
}

fn show_of(words: &[Bytes]) -> Result<Line, LineFault>
    ensures { Gives result (show_line words.now) }
{
    match words {
        [] => Ok(Line::Show),
        _ => Err(LineFault::NotUnderstood),
    }
}

fn print_of(alloc: Global, words: &[Bytes]) -> Result<Line, LineFault>
    ensures { Gives result (print_line words.now) }
{
    match words {
        [sub, source, channel] => {
            let sub = subscription_of(alloc, sub)?;
            let source = source_of(alloc, source)?;
            let channel = channel_of(alloc, channel)?;
            Ok(Line::Print {
                sub,
                source,
                channel,
            })
        }
        _ => Err(LineFault::NotUnderstood),
    }
}

fn status_of(alloc: Global, words: &[Bytes]) -> Result<Line, LineFault>
    ensures { Gives result (option_map (λ u. Status u) (only_subscription_words words.now)) }
{
    let sub = only_subscription_of(alloc, words)?;
    Ok(Line::Status { sub })
}

fn crash_of(alloc: Global, words: &[Bytes]) -> Result<Line, LineFault>
    ensures { Gives result (crash_line words.now) }
{
    match words {
        [end] => {
            let end = end_of(alloc, end)?;
            Ok(Line::Crash { end })
        }
        _ => Err(LineFault::NotUnderstood),
    }
}

/// An end, and whether a commit's changes are kept.
fn commit_of(alloc: Global, words: &[Bytes]) -> Result<(EndName, bool), LineFault>
    ensures { Gives result (commit_words words.now) }
{
    match words {
        [end, when] => {
            let end = end_of(alloc, end)?;
            let after = after_of(when)?;
            Ok((end, after))
        }
        _ => Err(LineFault::NotUnderstood),
    }
}

fn fail_of(alloc: Global, words: &[Bytes]) -> Result<Line, LineFault>
    ensures { Gives result (option_map (λ commit. Fail commit.0 commit.1) (commit_words words.now)) }
{
    let (end, after) = commit_of(alloc, words)?;
    Ok(Line::Fail { end, after })
}

fn stop_of(alloc: Global, words: &[Bytes]) -> Result<Line, LineFault>
    ensures { Gives result (option_map (λ commit. Stop commit.0 commit.1) (commit_words words.now)) }
{
    let (end, after) = commit_of(alloc, words)?;
    Ok(Line::Stop { end, after })
}

fn calm_of(words: &[Bytes]) -> Result<Line, LineFault>
    ensures { Gives result (calm_line words.now) }
{
    match words {
        [] => Ok(Line::Calm),
        _ => Err(LineFault::NotUnderstood),
    }
}

fn settle_of(words: &[Bytes]) -> Result<Line, LineFault>
    ensures { Gives result (settle_line words.now) }
{
    match words {
        [] => Ok(Line::Settle),
        _ => Err(LineFault::NotUnderstood),
    }
}

fn tick_of(words: &[Bytes]) -> Result<Line, LineFault>
    ensures { Gives result (option_map (λ n. Tick n) (only_number_words words.now)) }
{
    let milliseconds = only_number_of(words)?;
    Ok(Line::Tick { milliseconds })
}
