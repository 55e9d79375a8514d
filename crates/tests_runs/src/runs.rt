//! Runs over a store, as a line spells them.

use crate::outcomes::{Outcome, ran_over};
use crate::repeats::repeated;
use crate::shown::push_outcome;
use std::alloc::{AllocError, Global};
use std::mem;
use tests_tasks::escapes::unescaped;
use wef_base::{List, Moment, Text};
use wef_keeper::MemKeeper;

/// A replay that begins with a line that adds a subscription.
const REPLAY: &str = "replay < subscribe base 20 512000 900000 all application c\\n";

/// What runs over a new store come to.
pub(crate) fn push_runs(shown: &mut Text, line: &str) -> Result<(), AllocError> {
    let alloc = shown.alloc();
    let line = repeated(alloc, line, '|')?;
    let mut keeper = MemKeeper::new(alloc);
    for run in line.as_str().split(" then ") {
        push_run(shown, &mut keeper, run)?;
    }
    Ok(())
}

/// What a replay comes to that ends with a line.
pub(crate) fn push_last(shown: &mut Text, line: &str) -> Result<(), AllocError> {
    let mut run = Text::from_str(shown.alloc(), REPLAY)?;
    run.push_str(line)?;
    push_runs(shown, run.as_str())
}

/// Appends what a run over a store comes to, on a line of its own.
pub fn push_run(shown: &mut Text, keeper: &mut MemKeeper, run: &str) -> Result<(), AllocError> {
    if !shown.is_empty() {
        shown.push_str("\n    ")?;
    }
    push_outcome(shown, &outcome_of(shown.alloc(), keeper, run)?)
}

fn outcome_of(alloc: Global, keeper: &mut MemKeeper, run: &str) -> Result<Outcome, AllocError> {
    let (now, run) = moment_of(run);
    let (failing, run) = run.split_once(" fails: ").unwrap_or(("", run));
    let (line, input) = run.split_once(" < ").unwrap_or((run, ""));
    let line = unescaped(alloc, line)?;
    let input = unescaped(alloc, repeated(alloc, input, '~')?.as_str())?;
    let line = str::from_utf8(line.as_slice()).unwrap_or("no UTF-8");
    ran_on(alloc, line, keeper, input.as_slice(), failing, now)
}

/// The moment of a run, at first the first one, and what stands behind it.
fn moment_of(run: &str) -> (Moment, &str) {
    let Some(timed) = run.strip_prefix("at ") else {
        return (Moment::first(), run);
    };
    let (at, run) = timed.split_once(": ").unwrap_or(("", timed));
    let now = Moment::of(at.parse().unwrap_or(0)).unwrap_or(Moment::first());
    (now, run)
}

/// Runs `wef` over a store, and streams of which a call fails, at a moment.
fn ran_on(
    alloc: Global,
    line: &str,
    keeper: &mut MemKeeper,
    input: &[u8],
    failing: &str,
    now: Moment,
) -> Result<Outcome, AllocError> {
    let reads = calls_of(alloc, failing, "read ")?;
    let writes = calls_of(alloc, failing, "write ")?;
    let before = mem::replace(keeper, MemKeeper::new(alloc));
    let (after, ran) = ran_over(alloc, line, before, input, reads, writes, now)?;
    *keeper = after;
    Ok(ran)
}

/// The number of the call of a kind that fails: no call has the number 0.
fn calls_of(alloc: Global, failing: &str, kind: &str) -> Result<List<u64>, AllocError> {
    let number = failing.strip_prefix(kind).and_then(|it| it.parse().ok());
    let mut calls = List::new(alloc);
    calls.push(number.unwrap_or(0))?;
    Ok(calls)
}
