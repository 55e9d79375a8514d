//! `status` over subscriptions and sources that were heard.

use crate::repeats::repeated;
use crate::runs::push_run;
use std::alloc::{AllocError, Global};
use tests_ends::leases::{cut, cut_number};
use tests_ends::pairs::{done, put_subscription, source, subscription};
use wef_base::numbers::MAX;
use wef_base::{List, SubId, Text};
use wef_collector_rows::keys::heard_key;
use wef_keeper::{Change, MemKeeper, Row};

/// Appends what runs come to over the rows that steps put before them.
pub(crate) fn push_statuses(shown: &mut Text, line: &str) -> Result<(), AllocError> {
    let alloc = shown.alloc();
    let line = repeated(alloc, line, '|')?;
    let mut keeper = MemKeeper::new(alloc);
    push_steps(shown, &mut keeper, line.as_str())
}

fn push_steps(shown: &mut Text, keeper: &mut MemKeeper, line: &str) -> Result<(), AllocError> {
    for step in line.split("; ") {
        push_step(shown, keeper, step)?;
    }
    Ok(())
}

fn push_step(shown: &mut Text, keeper: &mut MemKeeper, step: &str) -> Result<(), AllocError> {
    let alloc = shown.alloc();
    let (call, rest) = cut(step);
    match call {
        "live" => put_subscription(alloc, keeper, 0, "CollectorInitiated", rest),
        "ended" => put_subscription(alloc, keeper, 1, "CollectorInitiated", rest),
        "offered" => put_subscription(alloc, keeper, 0, "SourceInitiated", rest),
        "heard" => put_heard(alloc, keeper, rest),
        _ => push_run(shown, keeper, step),
    }
}

/// Puts when sources were heard, `NAME AT SOURCES`, with a comma between two sources.
fn put_heard(alloc: Global, keeper: &mut MemKeeper, line: &str) -> Result<(), AllocError> {
    let (name, rest) = cut(line);
    let (at, sources) = cut_number(rest);
    let sub = subscription(alloc, name)?;
    for name in sources.split(',') {
        put_heard_at(alloc, keeper, &sub, name, at)?;
    }
    Ok(())
}

/// Puts the row of when a source was heard.
fn put_heard_at(
    alloc: Global,
    keeper: &mut MemKeeper,
    sub: &SubId,
    name: &str,
    at: u64,
) -> Result<(), AllocError> {
    let source = source(alloc, name)?;
    let key = heard_key(sub.as_text(), source.as_text())?;
    let body = Text::new(alloc);
    let mut changes = List::new(alloc);
    changes.push(Change::Put(Row {
        key,
        value: at.min(MAX),
        body,
    }))?;
    done(keeper, &changes)
}
