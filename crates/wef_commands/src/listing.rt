//! `list`: which subscriptions there are.

ghost use Rattle.std.specs.Prelude.{◌≡◌, ◌++◌, IfOk, OnOk};
ghost use Rattle.wef_commands.specs.Endings.{told_of};
ghost use Rattle.wef_commands.specs.Listing as spec;

use crate::calling::write_done;
use crate::ending::Ending;
use std::alloc::{AllocError, Global};
use wef_base::{Sink, Text};
use wef_collector::{Collector, Listed};
use wef_eventing::SubKind;
use wef_keeper::Keeper;

/// Writes a line for each subscription, live or ended, in the order of their names.
pub fn list<K: Keeper, O: Sink>(alloc: Global, keeper: K, out: &mut O) -> (K, Ending)
    ensures { spec.ListEnds result.1
        (told_of O.taken O.faults out.old out.new)
        (K.store keeper) (K.store result.0) }
{
    let mut collector = match Collector::start(alloc, keeper) {
        Ok(collector) => collector,
        Err((keeper, fault)) => return (keeper, Ending::from(fault)),
    };
    match collector.list() {
        Ok(list) => (
            collector.into_keeper(),
            write_list(alloc, list.as_slice(), out),
        ),
        Err(fault) => (collector.into_keeper(), Ending::from(fault)),
    }
}

/// Writes the lines of subscriptions, all of them at once.
fn write_list<O: Sink>(alloc: Global, list: &[Listed], out: &mut O) -> Ending
    ensures { spec.WroteList list.now result
        (told_of O.taken O.faults out.old out.new) }
{
    match list_text(alloc, list) {
        Ok(text) => write_done(&text, out),
        Err(_) => Ending::NoMemory,
    }
}

fn list_text(alloc: Global, list: &[Listed]) -> Result<Text, AllocError>
    ensures { IfOk result (λ text. text ≡ spec.list_text list.now) }
{
    let mut text = Text::new(alloc);
    for listed in list {
        push_line(&mut text, listed)?;
    }
    Ok(text)
}

#[tactic(auto, unfolding(crate::specs::Listing::list_line))]
fn push_line(text: &mut Text, listed: &Listed) -> Result<(), AllocError>
    ensures { OnOk result (text.new ≡ text.old ++ spec.list_line listed.now) }
{
    text.push_printed(listed.subscription.name.as_text())?;
    text.push_str(state_word(listed.live))?;
    text.push_str(kind_word(listed.subscription.kind))?;
    text.push_str("\n")?;
    Ok(())
}

fn state_word(live: bool) -> &'static str
    ensures { result.now ≡ spec.state_word live }
{
    if live { " live" } else { " ended" }
}

/// Who begins a subscription.
fn kind_word(kind: SubKind) -> &'static str
    ensures { result.now ≡ spec.kind_word kind }
{
    match kind {
        SubKind::BySource => " source",
        SubKind::ByCollector => " collector",
    }
}
