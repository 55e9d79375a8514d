//! The window of a log, and how often a source was started.

use std::alloc::{AllocError, Global};
use std::mem;
use wef_base::{List, SourceName, Text};
use wef_event::{Event, read_new_event};
use wef_keeper::MemKeeper;
use wef_source::SourceEnd;
use wef_source_log::{Log, LogFault};

/// What is told of the window of a log, once records are written.
pub(crate) fn push_window(shown: &mut Text, line: &str) -> Result<(), AllocError> {
    let alloc = shown.alloc();
    let (capacity, rest) = split_number(line);
    match Log::start(alloc, MemKeeper::new(alloc), capacity.clamp(1, 1_000_000)) {
        Ok(mut log) => push_told(shown, &mut log, rest),
        Err(_) => Err(AllocError),
    }
}

/// The number that begins a line, and what stands behind it.
fn split_number(line: &str) -> (u64, &str) {
    let (number, rest) = line.split_once(' ').unwrap_or((line, ""));
    (number.parse().unwrap_or(0), rest)
}

fn push_told(shown: &mut Text, log: &mut Log<MemKeeper>, line: &str) -> Result<(), AllocError> {
    let event = event(shown.alloc())?;
    match told(log, &event, line) {
        Ok((first, last, page)) => push_numbers(shown, first, last, page.as_slice()),
        Err(_) => Err(AllocError),
    }
}

/// Writes records, and gives the ends of the window and a page of it.
fn told(
    log: &mut Log<MemKeeper>,
    event: &Event,
    line: &str,
) -> Result<(u64, u64, List<Event>), LogFault> {
    let (writes, rest) = split_number(line);
    for _ in 0..writes {
        log.write(event)?;
    }
    let (after, rest) = split_number(rest);
    let (max, _) = split_number(rest);
    let first = log.first(&event.channel)?;
    let last = log.last(&event.channel)?;
    let page = log.page(&event.channel, after, max.clamp(1, 1_000) as u32)?;
    Ok((first, last, page))
}

fn push_numbers(shown: &mut Text, first: u64, last: u64, page: &[Event]) -> Result<(), AllocError> {
    shown.push_number(first)?;
    shown.push_str("-")?;
    shown.push_number(last)?;
    for event in page {
        shown.push_str(" ")?;
        shown.push_number(event.number)?;
    }
    Ok(())
}

fn event(alloc: Global) -> Result<Event, AllocError> {
    let text = "<Event><System><Channel>a</Channel></System></Event>";
    match read_new_event(&Text::from_str(alloc, text)?) {
        Ok(event) => Ok(event),
        Err(_) => Err(AllocError),
    }
}

/// The boot number of a source at each of its starts over one store.
pub(crate) fn push_starts(shown: &mut Text, count: u64) -> Result<(), AllocError> {
    let alloc = shown.alloc();
    let mut keeper = MemKeeper::new(alloc);
    for _ in 0..count {
        shown.push_number(start(alloc, &mut keeper)?)?;
        shown.push_str(" ")?;
    }
    shown.push_str("starts")
}

/// Starts the source of a store, and gives how often it was started.
fn start(alloc: Global, keeper: &mut MemKeeper) -> Result<u64, AllocError> {
    let name = source_name(alloc)?;
    let before = mem::replace(keeper, MemKeeper::new(alloc));
    match SourceEnd::start(alloc, before, name, 4) {
        Ok(source) => {
            let boot = source.boot();
            *keeper = source.into_keeper();
            Ok(boot)
        }
        Err(_) => Err(AllocError),
    }
}

pub fn source_name(alloc: Global) -> Result<SourceName, AllocError> {
    match SourceName::read(&Text::from_str(alloc, "pc1")?) {
        Ok(name) => Ok(name),
        Err(_) => Err(AllocError),
    }
}
