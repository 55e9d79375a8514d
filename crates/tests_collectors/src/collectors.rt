//! The collector that is asked, and what it keeps.

ghost use Rattle.std.specs.Prelude.{◌<◌, length, IfOk};
ghost use Rattle.wef_eventing.specs.Addresses.{IsHost};
ghost use Rattle.wef_eventing.specs.Subscriptions.{IsAllEvents};

use std::alloc::{AllocError, Global};
use wef_base::{ChannelName, List, SubId, Text};
use wef_collector::Collector;
use wef_documents::all_events_read_back;
use wef_eventing::Subscription;
use wef_keeper::{Keeper, Key, MemKeeper, Row, RowKind};

/// The subscriptions of a new collector, each to all events of `application`.
#[derive(Clone, Copy)]
pub enum Kept {
    /// `base`, live.
    Live,
    /// `base`, ended.
    Ended,
    /// `base` and one before it in the order of bytes, whose name is spelt otherwise in a path.
    Two,
}

/// A collector of boot 1 with subscriptions.
pub fn collector_of(alloc: Global, kept: Kept) -> Result<Collector<MemKeeper>, AllocError> {
    let mut collector = started(alloc)?;
    match subscribe(alloc, &mut collector, kept) {
        Ok(()) => Ok(collector),
        Err(fault) => Err(fault),
    }
}

/// The store of a new collector.
pub fn store_of(alloc: Global, kept: Kept) -> Result<MemKeeper, AllocError> {
    Ok(collector_of(alloc, kept)?.into_keeper())
}

/// The host that requests name.
pub fn host(alloc: Global) -> Result<Text, AllocError>
    ensures { IfOk result (λ host. IsHost host) }
{
    Text::from_str(alloc, "collector:5985")
}

fn started(alloc: Global) -> Result<Collector<MemKeeper>, AllocError> {
    match Collector::start(alloc, MemKeeper::new(alloc)) {
        Ok(collector) => Ok(collector),
        Err(_) => Err(AllocError),
    }
}

/// Adds subscriptions.
fn subscribe(
    alloc: Global,
    collector: &mut Collector<MemKeeper>,
    kept: Kept,
) -> Result<(), AllocError> {
    add(alloc, collector, "base")?;
    match kept {
        Kept::Live => Ok(()),
        Kept::Ended => end(alloc, collector),
        Kept::Two => add(alloc, collector, "Other/\u{E9} 1"),
    }
}

/// The name of the subscription that every collector has.
pub fn base(alloc: Global) -> Result<SubId, AllocError> {
    named(alloc, "base")
}

fn named(alloc: Global, name: &str) -> Result<SubId, AllocError> {
    match SubId::read(&Text::from_str(alloc, name)?) {
        Ok(sub) => Ok(sub),
        Err(_) => Err(AllocError),
    }
}

fn application(alloc: Global) -> Result<ChannelName, AllocError> {
    match ChannelName::read(&Text::from_str(alloc, "application")?) {
        Ok(channel) => Ok(channel),
        Err(_) => Err(AllocError),
    }
}

fn channels(alloc: Global) -> Result<List<ChannelName>, AllocError>
    ensures { IfOk result (λ channels. 0 < length channels) }
{
    let mut channels = List::new(alloc);
    channels.push(application(alloc)?)?;
    Ok(channels)
}

fn subscription(alloc: Global, name: &str) -> Result<Subscription, AllocError>
    ensures { IfOk result IsAllEvents }
{
    let name = named(alloc, name)?;
    let channels = channels(alloc)?;
    Subscription::all_events(name, channels, 20, 512_000, 900_000)
}

fn add(alloc: Global, collector: &mut Collector<MemKeeper>, name: &str) -> Result<(), AllocError> {
    let subscription = subscription(alloc, name)?;
    all_events_read_back(&subscription);
    match collector.add(&subscription) {
        Ok(()) => Ok(()),
        Err(_) => Err(AllocError),
    }
}

fn end(alloc: Global, collector: &mut Collector<MemKeeper>) -> Result<(), AllocError> {
    match collector.end(&base(alloc)?) {
        Ok(()) => Ok(()),
        Err(_) => Err(AllocError),
    }
}

/// What is kept behind an answer: `rows as before` where no row of a new collector differs, or the
/// report and the moments at which sources were heard.
pub fn push_left(
    shown: &mut Text,
    collector: Collector<MemKeeper>,
    kept: Kept,
) -> Result<(), AllocError> {
    let mut collector = collector;
    let report = report(&mut collector);
    let rows = rows_of(shown.alloc(), collector.into_keeper());
    push_changed(shown, kept, report?.as_str(), rows?.as_slice())
}

fn push_changed(
    shown: &mut Text,
    kept: Kept,
    report: &str,
    rows: &[Row],
) -> Result<(), AllocError> {
    let alloc = shown.alloc();
    let before = rows_of(alloc, store_of(alloc, kept)?)?;
    if is_same(before.as_slice(), rows) {
        return shown.push_str("; rows as before");
    }
    push_lines(shown, report)?;
    push_heard(shown, rows)
}

fn report(collector: &mut Collector<MemKeeper>) -> Result<Text, AllocError> {
    match collector.report() {
        Ok(report) => Ok(report),
        Err(_) => Err(AllocError),
    }
}

fn rows_of(alloc: Global, keeper: MemKeeper) -> Result<List<Row>, AllocError> {
    let mut keeper = keeper;
    match keeper.page(&first_key(alloc), 1_000) {
        Ok(rows) => Ok(rows),
        Err(_) => Err(AllocError),
    }
}

/// A key before those of all rows.
fn first_key(alloc: Global) -> Key {
    Key {
        kind: 0,
        sub: Text::new(alloc),
        source: Text::new(alloc),
        channel: Text::new(alloc),
        number: 0,
    }
}

fn is_same(before: &[Row], rows: &[Row]) -> bool {
    if before.len() != rows.len() {
        return false;
    }
    for (index, row) in rows.iter().enumerate() {
        let Some(was) = before.get(index) else {
            return false;
        };
        if !is_row(was, row) {
            return false;
        }
    }
    true
}

fn is_row(before: &Row, row: &Row) -> bool {
    before.key == row.key && before.value == row.value && before.body == row.body
}

fn push_lines(shown: &mut Text, report: &str) -> Result<(), AllocError> {
    for line in report.split_terminator('\n') {
        shown.push_str("\n    ")?;
        shown.push_str(line)?;
    }
    Ok(())
}

fn push_heard(shown: &mut Text, rows: &[Row]) -> Result<(), AllocError> {
    for row in rows {
        if row.key.kind == RowKind::Heard.number() {
            shown.push_str("\n    heard ")?;
            shown.push_number(row.value)?;
        }
    }
    Ok(())
}
