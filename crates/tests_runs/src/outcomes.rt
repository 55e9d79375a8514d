//! Runs of `wef` over memory, and what they leave.

use std::alloc::{AllocError, Global};
use wef_base::{Bytes, List, MemSink, MemSource, Moment, Text};
use wef_connections::{MemFront, MemLink};
use wef_keeper::MemKeeper;
use wef_ports::FixedClock;

/// A line that adds a subscription, and prints `added base`.
pub const BASE: &str = "subscribe base 20 512000 900000 all application c\n";

/// What a run told.
#[derive(Drop)]
pub struct Outcome {
    pub status: u8,
    pub out: MemSink,
    pub err: MemSink,
}

/// Replays a schedule without faults.
pub fn replayed(alloc: Global, schedule: &[u8]) -> Result<Outcome, AllocError> {
    let keeper = MemKeeper::new(alloc);
    let (reads, writes) = (List::new(alloc), List::new(alloc));
    let now = Moment::first();
    let (keeper, outcome) = ran_over(alloc, "replay", keeper, schedule, reads, writes, now)?;
    drop(keeper);
    Ok(outcome)
}

/// Runs `wef` with words that stand in a line, over streams that fail at the calls of these numbers, at a moment, and
/// hands the store back.
pub fn ran_over(
    alloc: Global,
    line: &str,
    keeper: MemKeeper,
    input: &[u8],
    failing_reads: List<u64>,
    failing_writes: List<u64>,
    now: Moment,
) -> Result<(MemKeeper, Outcome), AllocError> {
    let mut input = MemSource::of(Bytes::from_slice(alloc, input)?, failing_reads);
    let out = MemSink::of(alloc, failing_writes);
    let mut front = MemFront::of(alloc, List::new(alloc), List::new(alloc));
    let mut link = MemLink::of(alloc, List::new(alloc), List::new(alloc));
    ran_beside(
        alloc, line, keeper, &mut input, out, &mut front, &mut link, now,
    )
}

/// The same beside the connections of a front and of a link.
pub fn ran_beside(
    alloc: Global,
    line: &str,
    keeper: MemKeeper,
    input: &mut MemSource,
    out: MemSink,
    front: &mut MemFront,
    link: &mut MemLink,
    now: Moment,
) -> Result<(MemKeeper, Outcome), AllocError> {
    let words = words_of(alloc, line)?;
    let mut out = out;
    let mut err = MemSink::of(alloc, List::new(alloc));
    let (keeper, status) = wef_cli::run(
        alloc,
        words.as_slice(),
        input,
        &mut out,
        &mut err,
        keeper,
        front,
        link,
        &mut FixedClock::at(now),
    );
    Ok((keeper, Outcome { status, out, err }))
}

/// The words of a line, each behind a space but the first; none of an empty line.
fn words_of(alloc: Global, line: &str) -> Result<Vec<Text>, AllocError> {
    let mut words = Vec::new(alloc);
    if line.is_empty() {
        return Ok(words);
    }
    for word in line.split(' ') {
        words.push(Text::from_str(alloc, word)?)?;
    }
    Ok(words)
}
