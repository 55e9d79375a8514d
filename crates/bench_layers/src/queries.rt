//! Asks the list of queries in the first line of the input of the events in the lines behind it, all of
//! the channel security, and prints how many it selects. Where the next word is a number it asks all of
//! them so many times, and prints how many microseconds that took.

use std::alloc::Global;
use std::time::Instant;
use std::{env, io};
use wef_base::{ChannelName, Charset, Element, Text};
use wef_query::{QueryList, read_query, selected};
use wef_tree::read_tree;

/// Asks the queries, and prints how many events they select.
pub fn measure(rt: &HostRuntime) -> io::Result<()> {
    let times = times_of(rt)?;
    let alloc = rt.alloc();
    let channel = security(alloc)?;
    let mut roots = Vec::new(alloc);
    for line in rt.lines(alloc) {
        roots.push(root_of(alloc, line?.as_str())?)?;
    }
    let Some((first, events)) = roots.as_slice().split_first() else {
        return println!(rt; "queries [TIMES] < QUERIES AND EVENTS");
    };
    let list = read_query(first).map_err(|_| io::ErrorKind::InvalidData)?;
    let begun = Instant::now(rt)?;
    let mut count = 0;
    for _ in 0..times.unwrap_or(1) {
        count = count_selected(&list, &channel, events);
    }
    let took = begun.elapsed(rt)?;
    match times {
        Some(_) => println!(rt; "{count} of {} in {}", events.len(), took.as_micros()),
        None => println!(rt; "{count} of {}", events.len()),
    }
}

/// How often the second word says that all events are asked for.
fn times_of(rt: &HostRuntime) -> io::Result<Option<u64>> {
    match env::args(rt)?.nth(2) {
        Some(word) => Ok(word.as_str().parse::<u64>().ok()),
        None => Ok(None),
    }
}

fn count_selected(list: &QueryList, channel: &ChannelName, events: &[Element]) -> u64 {
    let mut count = 0_u64;
    for event in events {
        if selected(list, channel, event) {
            count = count.saturating_add(1);
        }
    }
    count
}

fn security(alloc: Global) -> io::Result<ChannelName> {
    let name = Text::from_str(alloc, "security")?;
    Ok(ChannelName::read(&name).map_err(|_| io::ErrorKind::InvalidData)?)
}

fn root_of(alloc: Global, document: &str) -> io::Result<Element> {
    Ok(read_tree(alloc, document.as_bytes(), Charset::Utf8).map_err(
        |_| io::ErrorKind::InvalidData,
    )?)
}
