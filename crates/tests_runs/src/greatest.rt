//! Ends of which a number is at its greatest.

use crate::runs::push_run;
use std::alloc::{AllocError, Global};
use wef_base::numbers::MAX;
use wef_base::{List, MemSink, Text};
use wef_commands::Ending;
use wef_keeper::{Change, Keeper, Key, MemKeeper, Row, RowKind};

/// What the runs of `NUMBER: RUNS` come to, one after the other over a store that has this number alone, at its
/// greatest; and the rows after the last.
pub(crate) fn push_greatest(shown: &mut Text, line: &str) -> Result<(), AllocError> {
    let (number, runs) = line.split_once(": ").unwrap_or((line, ""));
    let mut keeper = holding(shown.alloc(), number)?;
    for run in runs.split(" then ") {
        push_run(shown, &mut keeper, run)?;
    }
    push_rows(shown, &mut keeper)
}

/// A store with one row, whose value is the greatest.
fn holding(alloc: Global, number: &str) -> Result<MemKeeper, AllocError> {
    let (kind, channel) = kept_as(number);
    let key = Key {
        kind: kind.number(),
        sub: Text::new(alloc),
        source: Text::new(alloc),
        channel: Text::from_str(alloc, channel)?,
        number: 0,
    };
    let body = Text::new(alloc);
    let mut changes = List::new(alloc);
    changes.push(Change::Put(Row {
        key,
        value: MAX,
        body,
    }))?;
    let mut keeper = MemKeeper::new(alloc);
    match keeper.commit(&changes) {
        Ok(()) => Ok(keeper),
        Err(_) => Err(AllocError),
    }
}

/// The kind of the row that keeps a number, and its channel, if it has one.
fn kept_as(number: &str) -> (RowKind, &'static str) {
    match number {
        "collector's boot" => (RowKind::CollectorBoot, ""),
        "source's boot" => (RowKind::SourceBoot, ""),
        _ => (RowKind::LastNumber, "application"),
    }
}

/// Appends a line with the kind, the channel, the number and the value of each row.
fn push_rows(shown: &mut Text, keeper: &mut MemKeeper) -> Result<(), AllocError> {
    shown.push_str("\n    rows")?;
    for row in rows_of(shown.alloc(), keeper)?.as_slice() {
        shown.push_str(" ")?;
        shown.push_number(u64::from(row.key.kind))?;
        shown.push_str("/")?;
        shown.push_str(row.key.channel.as_str())?;
        shown.push_str("/")?;
        shown.push_number(row.key.number)?;
        shown.push_str("=")?;
        shown.push_number(row.value)?;
    }
    Ok(())
}

fn rows_of(alloc: Global, keeper: &mut MemKeeper) -> Result<List<Row>, AllocError> {
    let before_all = Key {
        kind: 0,
        sub: Text::new(alloc),
        source: Text::new(alloc),
        channel: Text::new(alloc),
        number: 0,
    };
    match keeper.page(&before_all, 100) {
        Ok(rows) => Ok(rows),
        Err(_) => Err(AllocError),
    }
}

/// The status and the message of a run whose source has no ids left: no run comes so far.
pub(crate) fn push_spent(shown: &mut Text) -> Result<(), AllocError> {
    let alloc = shown.alloc();
    let mut err = MemSink::of(alloc, List::new(alloc));
    let told = Ending::Spent.tell(alloc, &mut err);
    shown.push_number(u64::from(told.status()))?;
    shown.push_str(" ")?;
    shown.push_str(str::from_utf8(err.taken()).unwrap_or("no UTF-8").trim_end())
}
