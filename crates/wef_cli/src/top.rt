//! The one call that does all of it.

ghost use Rattle.std.specs.Prelude.{◌≡◌, Some, IfOk, IfErr};
ghost use Rattle.wef_cli.specs.Hosting.{HasHost};
ghost use Rattle.wef_cli.specs.Replaying.{EndsReading, HasLines, ReplayEnds};
ghost use Rattle.wef_cli.specs.Runs.{RunEnds, StatusEndsAt};
ghost use Rattle.wef_command_line.specs.Command.{command_of};
ghost use Rattle.wef_commands.specs.Endings.{IsToldAs, WroteMessage, status_of, told_of};
ghost use Rattle.wef_commands.specs.declared.ending.Ending as the_ending;
ghost use Rattle.wef_replay.specs.Good.{AreGood, no_names};

use crate::making::made;
use crate::runs::{RunFault, run_lines};
use std::alloc::Global;
use wef_base::{List, Sink, Source, SubId, Text};
use wef_command_line::Command;
use wef_commands::events::events;
use wef_commands::{
    Ending, INPUT_LIMIT, InputFault, add, check, list, read_whole, remove, show, status, write,
};
use wef_connections::{Front, Link};
use wef_keeper::Keeper;
use wef_ports::Clock;
use wef_replay::{Line, ScheduleFault, read_schedule};
use wef_running::{collect, forward};
use wef_serving::present;
use wef_subscribing::{request, serve};

/// Runs `wef` with the words that follow the program's name, and answers the keeper that it was handed
/// and the exit status.
///
/// `replay` reads a schedule to its end, checks it whole, does its lines and writes what they print as
/// it is made. Each state on the way is kept, and so it is safe. It leaves the keeper alone. `made SEED SIZE`
/// does the lines of the schedule that a seed makes, of so many drawn numbers, and writes the summary of the
/// world that they leave; it leaves the keeper alone, too. `add` adds
/// the subscription of a document to what the keeper keeps, `remove NAME` ends one, and `list` writes
/// which there are. `check` reads a list of queries and, line by line, events, and writes of each event
/// whether the list selects it; it leaves the keeper alone, too. `write` reads lines of events, checks
/// all of them, and writes each into the log of a source that the keeper keeps, and its number. `collect
/// ADDRESS N` serves so many connections of the front as the collector, at the moments that the clock
/// gives. `forward ADDRESS SOURCE N` asks the collector there for the subscriptions of a source, and sends
/// it at most so many batches over the link. `request ADDRESS N` sends the requests of the collector there
/// that are due over the link, at most so many. `serve ADDRESS SOURCE N` serves so many connections of the
/// front as a source, and behind each sends over the link what its log has for its sessions. No other command
/// takes a connection or makes one. `show` writes the report of all that the keeper keeps, `events NAME SOURCE CHANNEL`
/// the events that it holds of a source's channel, page by page, and `status NAME` which sources of a
/// subscription are silent, at the moment that the clock gives. What ended the run is told in one line
/// to `err`, or in as much of it as `err` takes. Status 6 alone comes free: for want of memory, also for
/// the text that tells how it ended.
pub fn run<I: Source, O: Sink, E: Sink, K: Keeper, F: Front, L: Link, C: Clock>(
    alloc: Global,
    words: &[Text],
    input: &mut I,
    out: &mut O,
    err: &mut E,
    keeper: K,
    front: &mut F,
    link: &mut L,
    clock: &mut C,
) -> (K, u8)
    ensures ends { (ending : the_ending.Ending) × (told : the_ending.Ending) × IsToldAs ending told × (result.1 ≡ status_of told)
        × WroteMessage told
        (told_of E.taken E.faults err.old err.new)
        × RunEnds (command_of words.now) ending
        (told_of I.left I.faults input.old input.new)
        (told_of O.taken O.faults out.old out.new)
        (record { front_before = F.told front.old; front_after = F.told front.new; link_before = L.told link.old; link_after = L.told link.new; moment = C.told clock.old })
        (K.store keeper) (K.store result.0) }
    ensures clock { C.told clock.new ≡ C.told clock.old }
{
    let (keeper, ending) = ending_of(alloc, words, input, out, keeper, front, link, clock);
    let told = ending.tell(alloc, err);
    (keeper, told.status())
}

#[tactic(auto, using(crate::proofs::Hosts::command_host))]
fn ending_of<I: Source, O: Sink, K: Keeper, F: Front, L: Link, C: Clock>(
    alloc: Global,
    words: &[Text],
    input: &mut I,
    out: &mut O,
    keeper: K,
    front: &mut F,
    link: &mut L,
    clock: &mut C,
) -> (K, Ending)
    ensures ends { RunEnds (command_of words.now) result.1
        (told_of I.left I.faults input.old input.new)
        (told_of O.taken O.faults out.old out.new)
        (record { front_before = F.told front.old; front_after = F.told front.new; link_before = L.told link.old; link_after = L.told link.new; moment = C.told clock.old })
        (K.store keeper) (K.store result.0) }
    ensures clock { C.told clock.new ≡ C.told clock.old }
{
    match Command::read(words) {
        Ok(Some(command)) => act(alloc, command, input, out, keeper, front, link, clock),
        Ok(None) => (keeper, Ending::BadCommand),
        Err(_) => (keeper, Ending::NoMemory),
    }
}

fn act<I: Source, O: Sink, K: Keeper, F: Front, L: Link, C: Clock>(
    alloc: Global,
    command: Command,
    input: &mut I,
    out: &mut O,
    keeper: K,
    front: &mut F,
    link: &mut L,
    clock: &mut C,
) -> (K, Ending)
    requires { HasHost command }
    ensures ends { RunEnds (Some command) result.1
        (told_of I.left I.faults input.old input.new)
        (told_of O.taken O.faults out.old out.new)
        (record { front_before = F.told front.old; front_after = F.told front.new; link_before = L.told link.old; link_after = L.told link.new; moment = C.told clock.old })
        (K.store keeper) (K.store result.0) }
    ensures clock { C.told clock.new ≡ C.told clock.old }
{
    match command {
        Command::Replay => (keeper, replay(alloc, input, out)),
        Command::Made { seed, size } => (keeper, made(alloc, seed, size, out)),
        Command::Add => add(alloc, keeper, input, out),
        Command::Remove(name) => remove(alloc, keeper, name, out),
        Command::List => list(alloc, keeper, out),
        Command::Check => (keeper, check(alloc, input, out)),
        Command::Write => write(alloc, keeper, input, out),
        Command::Collect {
            address,
            connections,
        } => collect(alloc, keeper, &address, connections, out, front, clock),
        Command::Forward {
            address,
            source,
            deliveries,
        } => forward(
            alloc, keeper, &address, source, deliveries, out, link, clock,
        ),
        Command::Request { address, requests } => {
            request(alloc, keeper, &address, requests, out, link, clock)
        }
        Command::Serve {
            address,
            source,
            connections,
        } => serve(
            alloc,
            keeper,
            &address,
            source,
            connections,
            out,
            front,
            link,
            clock,
        ),
        Command::Show => show(alloc, keeper, out),
        Command::Events {
            name,
            source,
            channel,
        } => events(alloc, keeper, name, &source, &channel, out),
        Command::Status(name) => status_now(alloc, keeper, name, out, clock),
    }
}

/// Writes which sources of a subscription are silent, at the moment that the clock gives.
fn status_now<O: Sink, K: Keeper, C: Clock>(
    alloc: Global,
    keeper: K,
    name: SubId,
    out: &mut O,
    clock: &mut C,
) -> (K, Ending)
    ensures ends { StatusEndsAt (C.told clock.old) name result.1
        (told_of O.taken O.faults out.old out.new)
        (K.store keeper) (K.store result.0) }
    ensures clock { C.told clock.new ≡ C.told clock.old }
{
    let now = present(clock);
    status(alloc, keeper, name, now, out)
}

fn replay<I: Source, O: Sink>(alloc: Global, input: &mut I, out: &mut O) -> Ending
    ensures { ReplayEnds result
        (told_of I.left I.faults input.old input.new)
        (told_of O.taken O.faults out.old out.new) }
{
    let lines = match read_lines(alloc, input) {
        Ok(lines) => lines,
        Err(ending) => return ending,
    };
    match run_lines(alloc, lines, out) {
        Ok(()) => Ending::Done,
        Err(RunFault::NoMemory) => Ending::NoMemory,
        Err(RunFault::OutputFailed) => Ending::OutputFailed,
    }
}

/// The lines of a schedule that was read to its end and checked whole, or how the run ends.
fn read_lines<I: Source>(alloc: Global, input: &mut I) -> Result<List<Line>, Ending>
    ensures ok { IfOk result (λ lines. HasLines lines
        (told_of I.left I.faults input.old input.new)) }
    ensures good { IfOk result (λ lines. AreGood no_names lines) }
    ensures err { IfErr result (λ ending. EndsReading ending
        (told_of I.left I.faults input.old input.new)) }
{
    let bytes = match read_whole(alloc, input, INPUT_LIMIT) {
        Ok(bytes) => bytes,
        Err(InputFault::NoMemory) => return Err(Ending::NoMemory),
        Err(InputFault::Failed) => return Err(Ending::InputFailed),
        Err(InputFault::TooLong) => return Err(Ending::TooLong),
    };
    match read_schedule(alloc, bytes.as_slice()) {
        Ok(lines) => Ok(lines),
        Err(ScheduleFault::NoMemory) => Err(Ending::NoMemory),
        Err(ScheduleFault::BadLine { line }) => Err(Ending::BadLine(line)),
        Err(ScheduleFault::TooLong) => Err(Ending::TooLong),
    }
}
