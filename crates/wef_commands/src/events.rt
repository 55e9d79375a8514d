//! `events`: the events that are held of a source's channel.

ghost use Rattle.std.specs.List.{flat_map};
ghost use Rattle.std.specs.Prelude.{◌≡◌, ◌++◌, IfOk, IfSome};
ghost use Rattle.wef_collector_rows.specs.Forms.{AreFormed};
ghost use Rattle.wef_collector_rows.specs.Held.{held_rows};
ghost use Rattle.wef_commands.specs.Endings.{told_of};
ghost use Rattle.wef_commands.specs.Pages as pages;
ghost use Rattle.wef_commands.specs.Showing as spec;
ghost use Rattle.wef_keeper.specs.Access as access;
ghost use Rattle.wef_lines.specs.Printed.{event_line};

use crate::calling::{named_ending, write_done};
use crate::ending::Ending;
use crate::streams::write_whole;
use std::alloc::{AllocError, Global};
use wef_base::{ChannelName, Sink, SourceName, SubId, Text};
use wef_collector::Collector;
use wef_collector_reports::held::{held_page, last_number_of};
use wef_collector_rows::standings::known_in;
use wef_event::Event;
use wef_keeper::{Keeper, StoreFault};
use wef_lines::push_events;

/// How many events are read, and written, at once. No more of them are held in memory.
const PAGE: u32 = 64;

/// Writes a line for each event that is held of a source's channel for a subscription, live or ended,
/// by number, and `end` behind them.
pub fn events<K: Keeper, O: Sink>(
    alloc: Global,
    keeper: K,
    name: SubId,
    source: &SourceName,
    channel: &ChannelName,
    out: &mut O,
) -> (K, Ending)
    ensures { spec.EventsEnds name source.now channel.now result.1
        (told_of O.taken O.faults out.old out.new)
        (K.store keeper) (K.store result.0) }
{
    let mut keeper = match Collector::start(alloc, keeper) {
        Ok(collector) => collector.into_keeper(),
        Err((keeper, fault)) => return (keeper, Ending::from(fault)),
    };
    let ending = write_held(alloc, &mut keeper, name, source, channel, out);
    (keeper, ending)
}

/// Writes what is held, if there is a subscription of the name.
fn write_held<K: Keeper, O: Sink>(
    alloc: Global,
    keeper: &mut K,
    name: SubId,
    source: &SourceName,
    channel: &ChannelName,
    out: &mut O,
) -> Ending
    requires { access.IsReady (K.store keeper.old) }
    ensures { spec.WritesHeld name source.now channel.now result
        (told_of O.taken O.faults out.old out.new)
        (K.store keeper.old) (K.store keeper.new) }
{
    match known_in(keeper, &name) {
        Ok(()) => write_known(alloc, keeper, &name, source, channel, out),
        Err(fault) => named_ending(name, fault),
    }
}

/// Writes what is held for a subscription that there is, page by page, and `end` behind it.
fn write_known<K: Keeper, O: Sink>(
    alloc: Global,
    keeper: &mut K,
    name: &SubId,
    source: &SourceName,
    channel: &ChannelName,
    out: &mut O,
) -> Ending
    requires { access.IsReady (K.store keeper.old) }
    ensures reads { access.Reads AreFormed (spec.is_store_failed result) (K.store keeper.old) (K.store keeper.new) }
    ensures wrote { IfSome (K.store keeper.new).rows (λ rows. spec.WroteUpTo (spec.held_text rows name.now source.now channel.now) result
        (told_of O.taken O.faults out.old out.new)) }
    ensures judged { IfSome (K.store keeper.new).rows (λ rows. spec.JudgesRows result (held_rows rows name.now source.now channel.now 0)) }
    ensures cause { spec.EndsWriting result
        (told_of O.taken O.faults out.old out.new) }
{
    let mut after = 0;
    'writing: loop {
        let page = match held_page(keeper, name, source, channel, after, PAGE) {
            Ok(page) => page,
            Err(StoreFault::NoMemory) => return Ending::NoMemory,
            Err(StoreFault::Failed) => return Ending::StoreFailed,
        };
        let events = page.as_slice();
        let text = match page_text(alloc, events) {
            Ok(text) => text,
            Err(_) => return Ending::NoMemory,
        };
        let is_last = page.len() < PAGE as usize;
        if is_last {
            return write_last(text, out);
        }
        match write_whole(out, text.as_str().as_bytes()) {
            Ok(()) => {}
            Err(_) => return Ending::OutputFailed,
        }
        after = last_number_of(after, events);
    }
}

/// Writes the lines of the last page, and `end`.
fn write_last<O: Sink>(text: Text, out: &mut O) -> Ending
    ensures { pages.WroteLast (text ++ pages.end_line) result
        (told_of O.taken O.faults out.old out.new) }
{
    let mut text = text;
    match text.push_str("end\n") {
        Ok(()) => write_done(&text, out),
        Err(_) => Ending::NoMemory,
    }
}

/// The lines of a page's events.
fn page_text(alloc: Global, events: &[Event]) -> Result<Text, AllocError>
    ensures { IfOk result (λ text. text ≡ flat_map event_line events.now) }
{
    let mut text = Text::new(alloc);
    push_events(&mut text, events)?;
    Ok(text)
}
