//! Batches of a subscription to the channels a and b.

use crate::channels::letters;
use std::alloc::AllocError;
use wef_base::{ChannelName, List, Text, ValueFault};
use wef_batch::{Batch, cost, judge, loose_sum, reach};
use wef_replay::{Line, ScheduleFault, SpelledBatch, is_line, read_schedule};

/// Whether the batch of a line's words is well-formed, how far it reads the channels a, b and c, how
/// many records it says are gone without a number, and what each of its items costs.
pub(crate) fn push_batch(shown: &mut Text, words: &str) -> Result<(), ValueFault> {
    let mut line = Text::from_str(shown.alloc(), "batch base pc1 ")?;
    line.push_str(words)?;
    push_read(
        shown,
        &read_schedule(shown.alloc(), line.as_str().as_bytes()),
    )
}

fn push_read(shown: &mut Text, read: &Result<List<Line>, ScheduleFault>) -> Result<(), ValueFault> {
    match read {
        Ok(lines) => push_lines(shown, lines.as_slice()),
        Err(ScheduleFault::NoMemory) => Err(ValueFault::NoMemory),
        Err(_) => Ok(shown.push_str("no line")?),
    }
}

fn push_lines(shown: &mut Text, lines: &[Line]) -> Result<(), ValueFault> {
    match lines {
        [line @ Line::Batch { batch, .. }] if is_line(line) => push_spelled(shown, batch),
        _ => Ok(shown.push_str("no batch")?),
    }
}

fn push_spelled(shown: &mut Text, batch: &SpelledBatch) -> Result<(), ValueFault> {
    let batch = batch.to_batch(shown.alloc())?;
    push_told(shown, &batch)
}

fn push_told(shown: &mut Text, batch: &Batch) -> Result<(), ValueFault> {
    let names = letters(shown.alloc())?;
    Ok(push_facts(shown, batch, names.as_slice())?)
}

fn push_facts(shown: &mut Text, batch: &Batch, names: &[ChannelName]) -> Result<(), AllocError> {
    shown.push_str(if judge(batch, names.get(..2).unwrap_or(names)) {
        "well-formed"
    } else {
        "not well-formed"
    })?;
    push_reaches(shown, batch, names)?;
    push_loose(shown, batch)?;
    push_costs(shown, batch)
}

fn push_reaches(shown: &mut Text, batch: &Batch, names: &[ChannelName]) -> Result<(), AllocError> {
    for name in names {
        if let Some(number) = reach(batch, name) {
            push_reach(shown, name, number)?;
        }
    }
    Ok(())
}

fn push_reach(shown: &mut Text, name: &ChannelName, number: u64) -> Result<(), AllocError> {
    shown.push_str(", ")?;
    shown.push_str(name.as_text().as_str())?;
    shown.push_str(" to ")?;
    shown.push_number(number)
}

fn push_loose(shown: &mut Text, batch: &Batch) -> Result<(), AllocError> {
    let sum = loose_sum(batch.items.as_slice());
    if sum > 0 {
        shown.push_str(", loose ")?;
        shown.push_str(sum.to_string(shown.alloc())?.as_str())?;
    }
    Ok(())
}

fn push_costs(shown: &mut Text, batch: &Batch) -> Result<(), AllocError> {
    for item in batch.items.as_slice() {
        shown.push_str(", costs ")?;
        shown.push_number(cost(item))?;
    }
    Ok(())
}
