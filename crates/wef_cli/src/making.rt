//! Doing the lines of a made schedule, and writing what is told of the world that they leave.

ghost use Rattle.std.specs.Prelude.{◌≡◌, true, IfOk, OnOk};
ghost use Rattle.wef_cli.specs.Making.{MadeEnds, made_text};
ghost use Rattle.wef_commands.specs.Endings.{told_of};
ghost use Rattle.wef_machine.specs.Steps.{AreAdmitted, admits, step};
ghost use Rattle.wef_made.specs.Made.{schedule};
ghost use Rattle.wef_summary.specs.Behind.{behind};

use std::alloc::{AllocError, Global};
use wef_base::{Bytes, List, Sink, Text};
use wef_commands::{Ending, write_whole};
use wef_made::{Draws, closing_lines, drawn_lines, opening_lines};
use wef_replay::Line;
use wef_summary::summary;
use wef_world::{Shipped, World, WorldFault};

/// Does the lines of the schedule that a seed makes, of so many drawn numbers, and writes the summary of
/// the world that they leave. Lines are made as they are done, and let go with what they print.
pub fn made<O: Sink>(alloc: Global, seed: u64, size: u32, out: &mut O) -> Ending
    ensures { MadeEnds seed size result (told_of O.taken O.faults out.old out.new) }
{
    let text = match summarized(alloc, seed, size) {
        Ok(text) => text,
        Err(_) => return Ending::NoMemory,
    };
    match write_whole(out, text.as_str().as_bytes()) {
        Ok(()) => Ending::Done,
        Err(_) => Ending::OutputFailed,
    }
}

/// What is told of the world that a made schedule leaves.
fn summarized(alloc: Global, seed: u64, size: u32) -> Result<Text, AllocError>
    ensures { IfOk result (λ text. text ≡ made_text seed size) }
{
    let mut world = World::new(alloc, Shipped::new(alloc));
    match run_made(alloc, &mut world, seed, size) {
        Ok(()) => summary(alloc, world),
        Err(_) => Err(AllocError),
    }
}

/// Does the lines of a made schedule, which the world admits, in their order.
fn run_made(
    alloc: Global,
    world: &mut World<Shipped>,
    seed: u64,
    size: u32,
) -> Result<(), WorldFault>
    requires { AreAdmitted world.old.held (schedule seed size) }
    ensures { OnOk result (world.new.held ≡ behind world.old.held (schedule seed size)) }
{
    run_some(alloc, world, opening_lines(alloc)?)?;
    let mut draws = Draws::new(seed, size);
    while let Some(drawn) = draws.next() {
        run_some(alloc, world, drawn_lines(alloc, drawn)?)?;
    }
    run_some(alloc, world, closing_lines(alloc)?)
}

/// Does lines that the world admits, one after the other.
fn run_some(alloc: Global, world: &mut World<Shipped>, lines: List<Line>) -> Result<(), WorldFault>
    requires { AreAdmitted world.old.held lines }
    ensures { OnOk result (world.new.held ≡ behind world.old.held lines) }
{
    for line in lines.into_vec() {
        run_unseen(alloc, world, line)?;
    }
    Ok(())
}

/// Does one line that the world admits, and lets it go with what it prints.
fn run_unseen(alloc: Global, world: &mut World<Shipped>, line: Line) -> Result<(), WorldFault>
    requires { admits world.old.held line ≡ true }
    ensures { OnOk result (world.new.held ≡ step line world.old.held) }
{
    let mut unseen = Bytes::new(alloc);
    let done = world.apply(&line, &mut unseen);
    drop(line);
    done
}
