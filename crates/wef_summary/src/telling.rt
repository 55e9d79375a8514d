//! What is told of a world.

ghost use Rattle.std.specs.Prelude.{◌≡◌, ◌++◌, IfOk, OnOk};
ghost use Rattle.wef_keeper.specs.Access.{IsReady};
ghost use Rattle.wef_summary.specs.Summary as spec;

use crate::counting::{dropped, held, written};
use std::alloc::{AllocError, Global};
use wef_base::Text;
use wef_keeper::{Keeper, MemKeeper};
use wef_places::sources::Sources;
use wef_world::{Answers, World};

/// What is told of a world at its end, in three lines: how many records its sources wrote, those whose
/// commit stands; how many events its collector holds; and how many numbers of records it marked as
/// dropped. No end is opened for that.
pub fn summary<A: Answers>(alloc: Global, world: World<A>) -> Result<Text, AllocError>
    ensures { IfOk result (λ text. text ≡ spec.summary world.held) }
{
    match world.into_places() {
        Some((collector, sources)) => {
            let mut store = collector.into_store();
            store.crash();
            let text = summary_of(alloc, &mut store, &sources);
            drop(sources);
            text
        }
        None => summary_text(alloc, 0, 0, 0),
    }
}

fn summary_of(alloc: Global, store: &mut MemKeeper, sources: &Sources) -> Result<Text, AllocError>
    requires { IsReady (⟦<MemKeeper as Keeper>⟧.store store.old) }
    ensures { IfOk result (λ text. text ≡ spec.summary_of sources.now store.old.rows) }
{
    let written = written(alloc, sources)?;
    let held = held(alloc, store)?;
    let dropped = dropped(alloc, store)?;
    summary_text(alloc, written, held as u128, dropped)
}

fn summary_text(alloc: Global, written: u128, held: u128, dropped: u128) -> Result<Text, AllocError>
    ensures { IfOk result (λ text. text ≡ spec.summary_text written held dropped) }
{
    let mut text = Text::new(alloc);
    push_line(alloc, &mut text, "written ", written)?;
    push_line(alloc, &mut text, "held ", held)?;
    push_line(alloc, &mut text, "dropped ", dropped)?;
    Ok(text)
}

fn push_line(alloc: Global, text: &mut Text, word: &str, number: u128) -> Result<(), AllocError>
    ensures { OnOk result (text.new ≡ text.old ++ spec.line word.now number) }
{
    let digits = number.to_string(alloc)?;
    text.push_str(word)?;
    text.push_str(digits.as_str())?;
    text.push_str("\n")
}
