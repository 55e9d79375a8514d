//! `show`: the report of all that the collector keeps.

ghost use Rattle.wef_commands.specs.Endings.{told_of};
ghost use Rattle.wef_commands.specs.Showing as spec;

use crate::calling::write_done;
use crate::ending::Ending;
use std::alloc::Global;
use wef_base::Sink;
use wef_collector::Collector;
use wef_keeper::Keeper;

/// Writes the report, all of it at once.
pub fn show<K: Keeper, O: Sink>(alloc: Global, keeper: K, out: &mut O) -> (K, Ending)
    ensures { spec.ShowEnds result.1
        (told_of O.taken O.faults out.old out.new)
        (K.store keeper) (K.store result.0) }
{
    let mut collector = match Collector::start(alloc, keeper) {
        Ok(collector) => collector,
        Err((keeper, fault)) => return (keeper, Ending::from(fault)),
    };
    match collector.report() {
        Ok(text) => (collector.into_keeper(), write_done(&text, out)),
        Err(fault) => (collector.into_keeper(), Ending::from(fault)),
    }
}
