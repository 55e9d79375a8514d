//! `remove`: a subscription is ended.

ghost use Rattle.wef_commands.specs.Calling.{CallEnds, WroteOut, named_ending};
ghost use Rattle.wef_commands.specs.Endings.{told_of};
ghost use Rattle.wef_commands.specs.Removing as spec;

use crate::calling::{named_ending, write_done};
use crate::ending::Ending;
use std::alloc::Global;
use wef_base::{Sink, SubId, Text};
use wef_collector::Collector;
use wef_keeper::Keeper;
use wef_lines::name_line;

/// Ends the subscription of a name, and tells so. The text is made first, so nothing is done for want
/// of memory for it.
pub fn remove<K: Keeper, O: Sink>(alloc: Global, keeper: K, name: SubId, out: &mut O) -> (K, Ending)
    ensures { spec.RemoveEnds name result.1
        (told_of O.taken O.faults out.old out.new)
        (K.store keeper) (K.store result.0) }
{
    match name_line("ended", name.as_text()) {
        Ok(text) => end(alloc, keeper, name, &text, out),
        Err(_) => (keeper, Ending::NoMemory),
    }
}

/// Ends the subscription of a name, and writes the text then.
fn end<K: Keeper, O: Sink>(
    alloc: Global,
    keeper: K,
    name: SubId,
    text: &Text,
    out: &mut O,
) -> (K, Ending)
    ensures { CallEnds (spec.Ends name) (named_ending name) (λ _. WroteOut text.now) result.1
        (told_of O.taken O.faults out.old out.new)
        (K.store keeper) (K.store result.0) }
{
    let mut collector = match Collector::start(alloc, keeper) {
        Ok(collector) => collector,
        Err((keeper, fault)) => return (keeper, Ending::from(fault)),
    };
    match collector.end(&name) {
        Ok(()) => (collector.into_keeper(), write_done(text, out)),
        Err(fault) => (collector.into_keeper(), named_ending(name, fault)),
    }
}
