//! `status`: which sources of a subscription are silent.

ghost use Rattle.wef_commands.specs.Endings.{told_of};
ghost use Rattle.wef_commands.specs.Statuses as spec;

use crate::calling::{named_ending, write_done};
use crate::ending::Ending;
use std::alloc::Global;
use wef_base::{Moment, Sink, SubId};
use wef_collector::Collector;
use wef_keeper::Keeper;

/// Writes which sources of a subscription, live or ended, are silent at a moment, all of it at once.
pub fn status<K: Keeper, O: Sink>(
    alloc: Global,
    keeper: K,
    name: SubId,
    now: Moment,
    out: &mut O,
) -> (K, Ending)
    ensures { spec.StatusEnds name now result.1
        (told_of O.taken O.faults out.old out.new)
        (K.store keeper) (K.store result.0) }
{
    let mut collector = match Collector::start(alloc, keeper) {
        Ok(collector) => collector,
        Err((keeper, fault)) => return (keeper, Ending::from(fault)),
    };
    match collector.statuses(&name, now) {
        Ok(text) => (collector.into_keeper(), write_done(&text, out)),
        Err(fault) => (collector.into_keeper(), named_ending(name, fault)),
    }
}
