//! The lines of made schedules.

ghost use Rattle.std.specs.Prelude.{◌≡◌, ◌∷◌, [], IfOk};
ghost use Rattle.wef_made.specs.Made as made;

use std::alloc::{AllocError, Global};
use wef_base::{ChannelName, List, SourceName, SubId, Text, is_xml_text};
use wef_event::PlainEvent;
use wef_query::QueryList;
use wef_replay::{EndName, Line};

/// The lines with which each made schedule begins: four sources are declared, and a subscription is added.
pub fn opening_lines(alloc: Global) -> Result<List<Line>, AllocError>
    ensures { IfOk result (λ lines. lines ≡ made.opening) }
{
    let mut lines = List::new(alloc);
    lines.push(source_line(alloc, 0)?)?;
    lines.push(source_line(alloc, 1)?)?;
    lines.push(source_line(alloc, 2)?)?;
    lines.push(source_line(alloc, 3)?)?;
    lines.push(subscribe_line(alloc)?)?;
    Ok(lines)
}

/// The lines that a drawn number stands for.
pub fn drawn_lines(alloc: Global, drawn: u64) -> Result<List<Line>, AllocError>
    ensures { IfOk result (λ lines. lines ≡ made.lines_of drawn) }
{
    let source = source_name(alloc, (drawn / 10) % 4)?;
    let kind = drawn % 10;
    let rest = drawn / 40;
    if kind < 6 {
        return one_line(alloc, write_line(alloc, source, rest)?);
    }
    if kind == 6 {
        return asking_lines(alloc, source);
    }
    if kind == 7 {
        return one_line(alloc, poll_line(alloc, source)?);
    }
    if kind == 8 {
        return one_line(alloc, Line::Back { number: rest });
    }
    one_line(alloc, trouble(alloc, source, rest % 4)?)
}

/// The lines with which each made schedule ends: nothing is armed any more, and all is settled.
pub fn closing_lines(alloc: Global) -> Result<List<Line>, AllocError>
    ensures { IfOk result (λ lines. lines ≡ made.closing) }
{
    let mut lines = List::new(alloc);
    lines.push(Line::Calm)?;
    lines.push(Line::Settle)?;
    Ok(lines)
}

fn one_line(alloc: Global, line: Line) -> Result<List<Line>, AllocError>
    ensures { IfOk result (λ lines. lines ≡ line ∷ []) }
{
    let mut lines = List::new(alloc);
    lines.push(line)?;
    Ok(lines)
}

/// A source asks, and what was sent last is delivered, twice: the question, and the answer to it.
fn asking_lines(alloc: Global, source: SourceName) -> Result<List<Line>, AllocError>
    ensures { IfOk result (λ lines. lines ≡ made.asking source) }
{
    let mut lines = List::new(alloc);
    lines.push(Line::Ask { source })?;
    lines.push(Line::Back { number: 0 })?;
    lines.push(Line::Back { number: 0 })?;
    Ok(lines)
}

/// A crash of an end, a commit that fails, or an answer that is given up.
fn trouble(alloc: Global, source: SourceName, kind: u64) -> Result<Line, AllocError>
    ensures { IfOk result (λ line. line ≡ made.trouble kind source) }
{
    if kind == 0 {
        return Ok(Line::Crash {
            end: EndName::Source(source),
        });
    }
    if kind == 1 {
        drop(source);
        return Ok(Line::Crash {
            end: EndName::Collector,
        });
    }
    if kind == 2 {
        drop(source);
        return Ok(Line::Fail {
            end: EndName::Collector,
            after: true,
        });
    }
    let sub = subscription_name(alloc)?;
    Ok(Line::Lost { source, sub })
}

fn source_line(alloc: Global, number: u64) -> Result<Line, AllocError>
    ensures { IfOk result (λ line. line ≡ made.source_line number) }
{
    let source = source_name(alloc, number)?;
    Ok(Line::Source {
        source,
        capacity: 64,
    })
}

fn subscribe_line(alloc: Global) -> Result<Line, AllocError>
    ensures { IfOk result (λ line. line ≡ made.subscribe_line) }
{
    let sub = subscription_name(alloc)?;
    let mut channels = List::new(alloc);
    channels.push(channel_name(alloc, 0)?)?;
    channels.push(channel_name(alloc, 1)?)?;
    let query = QueryList::all(alloc, channels)?;
    Ok(Line::Subscribe {
        sub,
        items: 20,
        bytes: 512_000,
        beat: 900_000,
        query,
    })
}

fn write_line(alloc: Global, source: SourceName, rest: u64) -> Result<Line, AllocError>
    ensures { IfOk result (λ line. line ≡ made.write_line source rest) }
{
    let event = event_of(alloc, rest % 2)?;
    Ok(Line::Write { source, event })
}

fn poll_line(alloc: Global, source: SourceName) -> Result<Line, AllocError>
    ensures { IfOk result (λ line. line ≡ made.poll_line source) }
{
    let sub = subscription_name(alloc)?;
    Ok(Line::Poll { source, sub })
}

/// An event of one of the two channels.
#[tactic(auto, using(crate::proofs::Names::word_is))]
fn event_of(alloc: Global, channel: u64) -> Result<PlainEvent, AllocError>
    ensures { IfOk result (λ event. event ≡ made.event_of channel) }
{
    let channel = channel_name(alloc, channel)?;
    let word = Text::from_str(alloc, "x")?;
    if !is_xml_text(&word)? {
        unreachable!()
    }
    Ok(PlainEvent {
        channel,
        id: 1,
        level: 4,
        word,
    })
}

/// The name of the source of a number, of four.
#[tactic(auto, using(crate::proofs::Names::source_is))]
fn source_name(alloc: Global, number: u64) -> Result<SourceName, AllocError>
    ensures { IfOk result (λ name. name ≡ made.source_name number) }
{
    let text = source_text(alloc, number)?;
    match SourceName::named(&text)? {
        Some(name) => Ok(name),
        None => unreachable!(),
    }
}

fn source_text(alloc: Global, number: u64) -> Result<Text, AllocError>
    ensures { IfOk result (λ text. text ≡ made.source_name number) }
{
    if number == 0 {
        return Text::from_str(alloc, "s0");
    }
    if number == 1 {
        return Text::from_str(alloc, "s1");
    }
    if number == 2 {
        return Text::from_str(alloc, "s2");
    }
    Text::from_str(alloc, "s3")
}

/// The name of the channel of a number, of two.
#[tactic(auto, using(crate::proofs::Names::channel_is))]
fn channel_name(alloc: Global, number: u64) -> Result<ChannelName, AllocError>
    ensures { IfOk result (λ name. name ≡ made.channel_name number) }
{
    let text = channel_text(alloc, number)?;
    match ChannelName::named(&text)? {
        Some(name) => Ok(name),
        None => unreachable!(),
    }
}

fn channel_text(alloc: Global, number: u64) -> Result<Text, AllocError>
    ensures { IfOk result (λ text. text ≡ made.channel_name number) }
{
    if number == 0 {
        return Text::from_str(alloc, "application");
    }
    Text::from_str(alloc, "system")
}

/// The name of the one subscription.
#[tactic(auto, using(crate::proofs::Names::subscription_is))]
fn subscription_name(alloc: Global) -> Result<SubId, AllocError>
    ensures { IfOk result (λ name. name ≡ made.subscription_name) }
{
    match SubId::named(&Text::from_str(alloc, "made")?)? {
        Some(name) => Ok(name),
        None => unreachable!(),
    }
}
