//! Which lines have values of the kinds that lines have.

ghost use Rattle.std.specs.List.{list_all};
ghost use Rattle.std.specs.Prelude.{◌≡◌, ◌&&◌};
ghost use Rattle.std.specs.Str.{is_utf8};
ghost use Rattle.wef_base.specs.Characters.{is_xml_text};
ghost use Rattle.wef_lines.specs.Documents.{is_new_event};
ghost use Rattle.wef_replay.specs.Good.{are_limits, are_queries, fits_always, may_be_written, is_between, is_channel, is_count, is_end, is_expiry, is_line, is_no_collector, is_query, is_source, is_subscription};

use crate::lines::Line;
use wef_base::numbers::MAX;
use wef_base::{ChannelName, SourceName, SubId, Text, is_xml_char};
use wef_event::{Event, PlainEvent};
use wef_query::{QueryItem, QueryList};
use wef_replay_values::EndName;
use wef_times::durations::LIMIT;

/// Whether the values of a line are within the limits of a schedule, wherever the line stands. It
/// takes no memory.
pub fn is_line(line: &Line) -> bool
    ensures { result ≡ is_line line.now }
{
    match line {
        Line::Subscribe {
            sub,
            items,
            bytes,
            beat,
            query,
        } => { is_subscription(sub) && are_limits(*items, *bytes, *beat) && are_queries(query) }
        Line::SubscribeAt {
            sub,
            source,
            items,
            bytes,
            beat,
            expires,
            query,
        } => {
            is_subscription(sub)
                && is_source(source)
                && are_limits(*items, *bytes, *beat)
                && is_expiry(*expires)
                && are_queries(query)
        }
        Line::End { sub } => is_subscription(sub),
        Line::Batch { sub, source, batch } => {
            is_subscription(sub) && is_source(source) && is_no_collector(source) && batch.has_word()
        }
        Line::Source { source, capacity } => {
            is_source(source) && is_no_collector(source) && is_between(1, 1_000_000, *capacity)
        }
        Line::Write { source, event } => is_source(source) && fits_always(event),
        Line::WriteXml { source, event } => is_source(source) && may_be_written(event),
        Line::Ask { source } => is_source(source),
        Line::Poll { source, sub } => is_source(source) && is_subscription(sub),
        Line::Deliver { number, .. } => is_count(*number),
        Line::Back { number } => is_count(*number),
        Line::Request => true,
        Line::Forget => true,
        Line::Lost { source, sub } => is_source(source) && is_subscription(sub),
        Line::Shut { source } => is_source(source),
        Line::Show => true,
        Line::Print {
            sub,
            source,
            channel,
        } => is_subscription(sub) && is_source(source) && is_channel(channel),
        Line::Status { sub } => is_subscription(sub),
        Line::Crash { end } => is_end(end),
        Line::Fail { end, .. } => is_end(end),
        Line::Stop { end, .. } => is_end(end),
        Line::Calm => true,
        Line::Tick { milliseconds } => is_count(*milliseconds),
        Line::Settle => true,
    }
}

/// Whether it is a subscription's name, which its type promises.
fn is_subscription(sub: &SubId) -> bool
    ensures { result ≡ is_subscription sub.now }
{
    // The text, once it is lent, brings what the type promises.
    let _kept = sub.as_text().as_str();
    true
}

/// Whether it is a source's name, which its type promises.
fn is_source(source: &SourceName) -> bool
    ensures { result ≡ is_source source.now }
{
    // The text, once it is lent, brings what the type promises.
    let _kept = source.as_text().as_str();
    true
}

/// Whether it is a channel's name, which its type promises.
fn is_channel(channel: &ChannelName) -> bool
    ensures { result ≡ is_channel channel.now }
{
    // The text, once it is lent, brings what the type promises.
    let _kept = channel.as_text().as_str();
    true
}

/// Whether these may be the limits of a subscription.
fn are_limits(items: u32, bytes: u32, beat: u64) -> bool
    ensures { result ≡ are_limits items bytes beat }
{
    is_between(1, 10_000, u64::from(items))
        && is_between(8192, 4_194_304, u64::from(bytes))
        && is_between(1, 86_400_000, beat)
}

/// Whether a subscription may stand so many milliseconds at a source.
fn is_expiry(expires: u64) -> bool
    ensures { result ≡ is_expiry expires }
{
    is_between(1, LIMIT, expires)
}

fn is_between(least: u64, greatest: u64, number: u64) -> bool
    ensures { result ≡ is_between least greatest number }
{
    least <= number && number <= greatest
}

/// Whether the queries are some that can be written and read again.
fn are_queries(list: &QueryList) -> bool
    ensures { result ≡ are_queries list.now.items }
{
    list.is_grouped() && each_is_query(list.items.as_slice())
}

fn each_is_query(queries: &[QueryItem]) -> bool
    ensures { result ≡ list_all is_query queries.now }
{
    queries.iter().all(|query| is_query(query))
}

fn is_query(query: &QueryItem) -> bool
    ensures { result ≡ is_query query.now }
{
    is_channel(&query.channel)
        && is_text(&query.text)
        && has_xml_characters(&query.text)
        && query.says_path()
}

/// Whether XML allows each character of a text.
fn has_xml_characters(text: &Text) -> bool
    ensures { result ≡ is_xml_text text.now }
{
    text.as_str()
        .chars()
        .all(|character| is_xml_char(character))
}

/// Whether the source isn't the other end.
fn is_no_collector(source: &SourceName) -> bool
    ensures { result ≡ is_no_collector source.now }
{
    source.as_text().as_str() != "collector"
}

/// Whether it is the collector, or a source that isn't.
fn is_end(end: &EndName) -> bool
    ensures { result ≡ is_end end.now }
{
    match end {
        EndName::Collector => true,
        EndName::Source(source) => is_source(source) && is_no_collector(source),
    }
}

/// Whether the event fits with every number that a log may give it.
fn fits_always(event: &PlainEvent) -> bool
    ensures { result ≡ fits_always event.now }
{
    is_channel(&event.channel) && is_text(&event.word) && event.fits(MAX)
}

/// Whether it is an event of a channel's name.
fn may_be_written(event: &Event) -> bool
    ensures { result ≡ may_be_written event.now }
{
    is_channel(&event.channel) && is_new_event(event)
}

/// Whether it is the event that its text says, which its type promises.
fn is_new_event(event: &Event) -> bool
    ensures { result ≡ is_new_event event.now }
{
    // The text, once it is lent, brings what the type promises.
    let _kept = &event.text;
    true
}

/// Whether it is UTF-8, which its type promises.
fn is_text(text: &Text) -> bool
    ensures { result ≡ is_utf8 text.now }
{
    // The text, once it is lent, brings what the type promises.
    let _kept = text.as_str();
    true
}

fn is_count(number: u64) -> bool
    ensures { result ≡ is_count number }
{
    number <= MAX
}
