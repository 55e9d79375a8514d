//! Doing the lines of a schedule, and writing what they print as it is made.

ghost use Rattle.std.specs.Io.KnownBytes.{Appends};
ghost use Rattle.std.specs.Prelude.{◌≡◌, ◌++◌, ◌≤◌, true, IfErr, OnOk, OnErr};
ghost use Rattle.wef_base.specs.Counts.{Rose};
ghost use Rattle.wef_cli.specs.Replaying.{StopsRun};
ghost use Rattle.wef_commands.specs.Streams.{IsWrittenUpTo, WritesPart};
ghost use Rattle.wef_safety.specs.Laws.{AreKept, AreSafe};
ghost use Rattle.wef_machine.specs.States.{start};
ghost use Rattle.wef_machine.specs.Steps.{AreAdmitted, admits, printed_by, step, trail, trail_from};
ghost use Rattle.wef_replay.specs.Good.{AreGood, no_names};

use std::alloc::Global;
use std::mem;
use wef_base::{Bytes, IoFailed, List, Sink};
use wef_commands::write_whole;
use wef_replay::Line;
use wef_world::{Shipped, World, WorldFault};

/// How many bytes wait, at least, before they are written.
pub const WAITING_LIMIT: usize = 65_536;

/// Why lines aren't done to their end.
#[derive(Clone, Copy, Debug, PartialEq, Eq)]
pub enum RunFault {
    NoMemory,
    OutputFailed,
}

/// Does lines, one after the other, from a world in which nothing has happened, and writes what they
/// print. Each line is let go once it is done, and what it prints once it is written, which is as soon
/// as some 64 KiB are. Each state on the way is kept, and so it is safe.
#[tactic(auto, unfolding(wef_machine::specs::Steps::trail))]
pub fn run_lines<O: Sink>(alloc: Global, lines: List<Line>, out: &mut O) -> Result<(), RunFault>
    requires { AreGood no_names lines }
    ensures ok { OnOk result (Appends (O.taken out.old) (O.taken out.new) (trail lines)) }
    ensures err { IfErr result (λ fault. StopsRun fault (O.faults out.old) (O.faults out.new)) }
    ensures part { WritesPart (O.taken out.old) (O.taken out.new) (trail lines) }
    ensures kept { AreKept lines }
    ensures safe { AreSafe lines }
{
    run_anew(alloc, lines, out)
}

/// Does lines from a world in which nothing has happened, and writes what they print.
fn run_anew<O: Sink>(alloc: Global, lines: List<Line>, out: &mut O) -> Result<(), RunFault>
    requires { AreAdmitted start lines }
    ensures ok { OnOk result (Appends (O.taken out.old) (O.taken out.new) (trail_from start lines)) }
    ensures err { IfErr result (λ fault. StopsRun fault (O.faults out.old) (O.faults out.new)) }
    ensures part { WritesPart (O.taken out.old) (O.taken out.new) (trail_from start lines) }
{
    let mut world = World::new(alloc, Shipped::new(alloc));
    run_in(alloc, &mut world, lines, out)
}

/// Does lines that a world admits, one after the other, and writes what they print.
fn run_in<O: Sink>(
    alloc: Global,
    world: &mut World<Shipped>,
    lines: List<Line>,
    out: &mut O,
) -> Result<(), RunFault>
    requires { AreAdmitted world.old.held lines }
    ensures ok { OnOk result (Appends (O.taken out.old) (O.taken out.new) (trail_from world.old.held lines)) }
    ensures err { IfErr result (λ fault. StopsRun fault (O.faults out.old) (O.faults out.new)) }
    ensures part { WritesPart (O.taken out.old) (O.taken out.new) (trail_from world.old.held lines) }
{
    let mut waiting = Bytes::new(alloc);
    for line in lines.into_vec() {
        match run_one(world, line, &mut waiting) {
            Ok(()) => {}
            Err(_) => return Err(RunFault::NoMemory),
        }
        match write_enough(alloc, &mut waiting, out) {
            Ok(()) => {}
            Err(_) => return Err(RunFault::OutputFailed),
        }
    }
    match write_whole(out, waiting.as_slice()) {
        Ok(()) => Ok(()),
        Err(_) => Err(RunFault::OutputFailed),
    }
}

/// Does one line that the world admits, appends what it prints, and lets the line go.
fn run_one(world: &mut World<Shipped>, line: Line, waiting: &mut Bytes) -> Result<(), WorldFault>
    requires { admits world.old.held line ≡ true }
    ensures state { OnOk result (world.new.held ≡ step line world.old.held) }
    ensures printed { OnOk result (waiting.new ≡ waiting.old ++ printed_by line world.old.held) }
{
    let done = world.apply(&line, waiting);
    drop(line);
    done
}

/// Writes what waits, once it is enough for a write.
fn write_enough<O: Sink>(alloc: Global, waiting: &mut Bytes, out: &mut O) -> Result<(), IoFailed>
    ensures ok { OnOk result (IsWrittenUpTo (O.taken out.old) (O.taken out.new) waiting.old waiting.new) }
    ensures err { OnErr result (Rose (O.faults out.old) (O.faults out.new)) }
    ensures part { WritesPart (O.taken out.old) (O.taken out.new) waiting.old }
    ensures later { O.faults out.old ≤ O.faults out.new }
{
    if waiting.len() < WAITING_LIMIT {
        return Ok(());
    }
    let text = mem::replace(waiting, Bytes::new(alloc));
    write_whole(out, text.as_slice())
}
