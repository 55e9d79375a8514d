//! `collect`: connections are served for the collector.

ghost use Rattle.std.specs.Prelude.{◌≡◌, ◌≤◌, [], ◌++◌, IfOk, OnOk};
ghost use Rattle.wef_collector_serving.specs.Answers.{known_of};
ghost use Rattle.wef_commands.specs.Endings.{told_of};
ghost use Rattle.wef_running.specs.Collecting as spec;
ghost use Rattle.wef_serving.specs.declared.ends.ConnectionEnd.TheVariants as over;

use std::alloc::{AllocError, Global};
use wef_base::{Sink, Text};
use wef_collector::Collector;
use wef_collector_serving::{ConnectionEnd, serve_next_connection};
use wef_commands::{Ending, tell_line, write_whole};
use wef_connections::Front;
use wef_keeper::Keeper;
use wef_ports::Clock;

/// Starts the collector, listens at an address, and serves so many connections, one after the other.
/// It tells where it listens, and how each connection ended once it is over. Nothing is asked of the
/// front where the collector can't be started.
pub fn collect<K: Keeper, O: Sink, F: Front, C: Clock>(
    alloc: Global,
    keeper: K,
    address: &Text,
    count: u64,
    out: &mut O,
    front: &mut F,
    clock: &mut C,
) -> (K, Ending)
    ensures ends { spec.CollectEnds address.now count result.1
        (told_of O.taken O.faults out.old out.new)
        (C.told clock.old) (F.told front.old) (F.told front.new) (K.store keeper) (K.store result.0) }
    ensures clock { C.told clock.new ≡ C.told clock.old }
{
    let text = match listening_line(alloc, address) {
        Ok(text) => text,
        Err(_) => return (keeper, Ending::NoMemory),
    };
    let mut collector = match Collector::start(alloc, keeper) {
        Ok(collector) => collector,
        Err((keeper, fault)) => return (keeper, Ending::from(fault)),
    };
    let ending = listen(
        alloc,
        &mut collector,
        address,
        &text,
        count,
        out,
        front,
        clock,
    );
    (collector.into_keeper(), ending)
}

/// Listens at an address, writes the text that tells so, and serves so many connections.
fn listen<K: Keeper, O: Sink, F: Front, C: Clock>(
    alloc: Global,
    collector: &mut Collector<K>,
    address: &Text,
    text: &Text,
    count: u64,
    out: &mut O,
    front: &mut F,
    clock: &mut C,
) -> Ending
    requires { text.now ≡ spec.listening_line address.now }
    ensures ends { spec.ListeningEnds (C.told clock.old) address.now count result
        (told_of O.taken O.faults out.old out.new)
        (F.told front.old) (known_of K.store collector.old) (F.told front.new) (known_of K.store collector.new) }
    ensures clock { C.told clock.new ≡ C.told clock.old }
{
    match front.bind(address) {
        Ok(()) => tell_and_serve(alloc, collector, text, count, out, front, clock),
        Err(_) => Ending::ListeningFailed,
    }
}

/// Writes a text, and serves so many connections then.
fn tell_and_serve<K: Keeper, O: Sink, F: Front, C: Clock>(
    alloc: Global,
    collector: &mut Collector<K>,
    text: &Text,
    count: u64,
    out: &mut O,
    front: &mut F,
    clock: &mut C,
) -> Ending
    ensures ends { spec.TellingEnds (C.told clock.old) text.now count result
        (told_of O.taken O.faults out.old out.new)
        (F.told front.old) (known_of K.store collector.old) (F.told front.new) (known_of K.store collector.new) }
    ensures clock { C.told clock.new ≡ C.told clock.old }
{
    match write_whole(out, text.as_str().as_bytes()) {
        Ok(()) => serve_all(alloc, collector, count, out, front, clock),
        Err(_) => Ending::OutputFailed,
    }
}

/// Serves so many connections, and writes the line of each.
fn serve_all<K: Keeper, O: Sink, F: Front, C: Clock>(
    alloc: Global,
    collector: &mut Collector<K>,
    count: u64,
    out: &mut O,
    front: &mut F,
    clock: &mut C,
) -> Ending
    ensures ends { spec.ServingEnds (C.told clock.old) [] count result
        (told_of O.taken O.faults out.old out.new)
        (F.told front.old) (known_of K.store collector.old) (F.told front.new) (known_of K.store collector.new) }
    ensures clock { C.told clock.new ≡ C.told clock.old }
{
    let mut done = 0;
    'serving: while done < count {
        match serve_one(alloc, collector, done + 1, out, front, clock) {
            Ok(()) => done += 1,
            Err(ending) => return ending,
        }
    }
    Ending::Done
}

/// Serves the connection of a number, and writes its line; or says how the run ends.
fn serve_one<K: Keeper, O: Sink, F: Front, C: Clock>(
    alloc: Global,
    collector: &mut Collector<K>,
    number: u64,
    out: &mut O,
    front: &mut F,
    clock: &mut C,
) -> Result<(), Ending>
    ensures turn { spec.TurnEnds (C.told clock.old) number result
        (told_of O.taken O.faults out.old out.new)
        (F.told front.old) (known_of K.store collector.old) (F.told front.new) (known_of K.store collector.new) }
    ensures later { O.faults out.old ≤ O.faults out.new }
    ensures clock { C.told clock.new ≡ C.told clock.old }
{
    match serve_next_connection(alloc, front, collector, clock) {
        Ok(over) => tell_connection(alloc, number, over, out),
        Err(_) => Err(Ending::ListeningFailed),
    }
}

/// Writes the line of the connection of a number, which is over, unless that wanted memory.
pub fn tell_connection<O: Sink>(
    alloc: Global,
    number: u64,
    over: ConnectionEnd,
    out: &mut O,
) -> Result<(), Ending>
    ensures line { spec.TellsEnd number over result
        (told_of O.taken O.faults out.old out.new) }
    ensures later { O.faults out.old ≤ O.faults out.new }
{
    if over == ConnectionEnd::NoMemory {
        return Err(Ending::NoMemory);
    }
    let line = connection_line(alloc, number, over)?;
    tell_line(line.as_str(), out)
}

/// Where it listens.
#[tactic(auto, unfolding(crate::specs::Collecting::listening_line))]
pub fn listening_line(alloc: Global, address: &Text) -> Result<Text, AllocError>
    ensures { IfOk result (λ text. text ≡ spec.listening_line address.now) }
{
    let mut text = Text::from_str(alloc, "listening ")?;
    text.push_str(address.as_str())?;
    text.push_str("\n")?;
    Ok(text)
}

/// How the connection of a number ended.
#[tactic(auto, unfolding(crate::specs::Collecting::connection_line))]
fn connection_line(alloc: Global, number: u64, over: ConnectionEnd) -> Result<Text, AllocError>
    ensures { IfOk result (λ text. text ≡ spec.connection_line number over) }
{
    let mut text = Text::from_str(alloc, "connection ")?;
    text.push_number(number)?;
    text.push_str(" ")?;
    push_end(&mut text, over)?;
    text.push_str("\n")?;
    Ok(text)
}

/// Appends how a connection ended.
fn push_end(text: &mut Text, over: ConnectionEnd) -> Result<(), AllocError>
    ensures { OnOk result (text.new ≡ text.old ++ spec.end_word over) }
{
    match over {
        ConnectionEnd::End => text.push_str("end"),
        ConnectionEnd::Closed => text.push_str("closed"),
        ConnectionEnd::Refused(status) => push_refused(text, status),
        ConnectionEnd::Cut => text.push_str("cut"),
        ConnectionEnd::PortFailed => text.push_str("failed"),
        ConnectionEnd::NoMemory => Ok(()),
    }
}

/// Appends with which status a request was refused.
fn push_refused(text: &mut Text, status: u16) -> Result<(), AllocError>
    ensures { OnOk result (text.new ≡ text.old ++ spec.end_word (over.Refused status)) }
{
    text.push_str("refused ")?;
    text.push_number(u64::from(status))
}
