//! Runs over a store, and what they print.

use std::alloc::{AllocError, Global};
use std::mem;
use tests_exchanges::numbered::list_of;
use tests_runs::outcomes::{Outcome, ran_beside};
use wef_base::{Bytes, List, MemSink, MemSource, Moment};
use wef_connections::{MemConnections, MemFront, MemLink};
use wef_keeper::MemKeeper;

/// Runs `wef` over a store, with words that stand in a line, beside a front and a link, where the write to
/// the output of a number fails.
pub(crate) fn ran_on(
    alloc: Global,
    keeper: &mut MemKeeper,
    line: &str,
    front: &mut MemFront,
    link: &mut MemLink,
    write: u64,
) -> Result<Outcome, AllocError> {
    let out = MemSink::of(alloc, list_of(alloc, write)?);
    let before = mem::replace(keeper, MemKeeper::new(alloc));
    let (after, told) = ran_beside(
        alloc,
        line,
        before,
        &mut MemSource::of(Bytes::new(alloc), List::new(alloc)),
        out,
        front,
        link,
        Moment::of(1_000).unwrap_or(Moment::first()),
    )?;
    *keeper = after;
    Ok(told)
}

/// A front to which nothing comes, and a link that brings nothing.
pub(crate) fn none(alloc: Global) -> MemConnections {
    MemConnections::of(alloc, List::new(alloc), List::new(alloc))
}
