//! `serve`: connections are served for a source, and behind each its sessions send what they have.

ghost use Rattle.std.specs.Prelude.{◌≡◌, ◌≤◌, [], drop};
ghost use Rattle.wef_commands.specs.Endings.{told_of};
ghost use Rattle.wef_running.specs.Collecting.{listening_line};
ghost use Rattle.wef_running.specs.Forwarding.{IsSent};
ghost use Rattle.wef_subscribing.specs.Serving as spec;

use std::alloc::Global;
use wef_base::{Sink, SourceName, SubId, Text};
use wef_commands::{Ending, LOG_CAPACITY, write_whole};
use wef_connections::{Front, Link};
use wef_forwarding::Exchange;
use wef_keeper::Keeper;
use wef_ports::Clock;
use wef_running::{listening_line, send_next, tell_connection};
use wef_source::SourceEnd;
use wef_source_serving::{ConnectionEnd, serve_next_source_connection};

/// Starts the source of a name, listens at an address, and serves so many connections, one after the other.
/// Behind each it sends what its sessions have: session by session in the order of their names, each until
/// there is nothing to send, or a heartbeat was sent, or a batch is refused or lost; one that has expired is
/// passed over. It tells where it listens, how each connection ended, and of each message once its exchange
/// is over. Nothing is asked of the front or the link where the source can't be started.
pub fn serve<K: Keeper, O: Sink, F: Front, L: Link, C: Clock>(
    alloc: Global,
    keeper: K,
    address: &Text,
    source: SourceName,
    count: u64,
    out: &mut O,
    front: &mut F,
    link: &mut L,
    clock: &mut C,
) -> (K, Ending)
    ensures ends { spec.ServeEnds address.now count result.1
        (told_of O.taken O.faults out.old out.new)
        (C.told clock.old) (F.told front.old) (F.told front.new) (L.told link.old) (L.told link.new) (K.store keeper) (K.store result.0) }
    ensures clock { C.told clock.new ≡ C.told clock.old }
{
    let text = match listening_line(alloc, address) {
        Ok(text) => text,
        Err(_) => return (keeper, Ending::NoMemory),
    };
    let mut end = match SourceEnd::start(alloc, keeper, source, LOG_CAPACITY) {
        Ok(end) => end,
        Err((keeper, fault)) => return (keeper, Ending::from(fault)),
    };
    let ending = listen(
        alloc, &mut end, address, &text, count, out, front, link, clock,
    );
    (end.into_keeper(), ending)
}

/// Listens at an address, writes the text that tells so, and serves so many connections.
fn listen<K: Keeper, O: Sink, F: Front, L: Link, C: Clock>(
    alloc: Global,
    source: &mut SourceEnd<K>,
    address: &Text,
    text: &Text,
    count: u64,
    out: &mut O,
    front: &mut F,
    link: &mut L,
    clock: &mut C,
) -> Ending
    requires { text.now ≡ listening_line address.now }
    ensures ends { spec.ListeningEnds (C.told clock.old) address.now count result
        (told_of O.taken O.faults out.old out.new)
        (record { front = F.told front.old; source = record { memory = source.old.memory; store = K.store source.old.keeper; link = L.told link.old } })
        (record { front = F.told front.new; source = record { memory = source.new.memory; store = K.store source.new.keeper; link = L.told link.new } }) }
    ensures clock { C.told clock.new ≡ C.told clock.old }
{
    match front.bind(address) {
        Ok(()) => tell_and_serve(alloc, source, text, count, out, front, link, clock),
        Err(_) => Ending::ListeningFailed,
    }
}

/// Writes a text, and serves so many connections then.
fn tell_and_serve<K: Keeper, O: Sink, F: Front, L: Link, C: Clock>(
    alloc: Global,
    source: &mut SourceEnd<K>,
    text: &Text,
    count: u64,
    out: &mut O,
    front: &mut F,
    link: &mut L,
    clock: &mut C,
) -> Ending
    ensures ends { spec.TellingEndsBy (IsSent (C.told clock.old)) (C.told clock.old) text.now count result
        (told_of O.taken O.faults out.old out.new)
        (record { front = F.told front.old; source = record { memory = source.old.memory; store = K.store source.old.keeper; link = L.told link.old } })
        (record { front = F.told front.new; source = record { memory = source.new.memory; store = K.store source.new.keeper; link = L.told link.new } }) }
    ensures clock { C.told clock.new ≡ C.told clock.old }
{
    match write_whole(out, text.as_str().as_bytes()) {
        Ok(()) => serve_all(alloc, source, count, out, front, link, clock),
        Err(_) => Ending::OutputFailed,
    }
}

/// Serves so many connections, and behind each sends what there is.
fn serve_all<K: Keeper, O: Sink, F: Front, L: Link, C: Clock>(
    alloc: Global,
    source: &mut SourceEnd<K>,
    count: u64,
    out: &mut O,
    front: &mut F,
    link: &mut L,
    clock: &mut C,
) -> Ending
    ensures ends { spec.ServesAll (C.told clock.old) [] count result
        (told_of O.taken O.faults out.old out.new)
        (record { front = F.told front.old; source = record { memory = source.old.memory; store = K.store source.old.keeper; link = L.told link.old } })
        (record { front = F.told front.new; source = record { memory = source.new.memory; store = K.store source.new.keeper; link = L.told link.new } }) }
    ensures clock { C.told clock.new ≡ C.told clock.old }
{
    let mut done = 0;
    'serving: while done < count {
        match serve_one(alloc, source, done + 1, out, front, link, clock) {
            Ok(()) => done += 1,
            Err(ending) => return ending,
        }
    }
    Ending::Done
}

/// Serves the connection of a number, tells how it ended, and sends what there is then; or says how the
/// run ends.
fn serve_one<K: Keeper, O: Sink, F: Front, L: Link, C: Clock>(
    alloc: Global,
    source: &mut SourceEnd<K>,
    number: u64,
    out: &mut O,
    front: &mut F,
    link: &mut L,
    clock: &mut C,
) -> Result<(), Ending>
    ensures round { spec.RoundEnds (C.told clock.old) number result
        (told_of O.taken O.faults out.old out.new)
        (record { front = F.told front.old; source = record { memory = source.old.memory; store = K.store source.old.keeper; link = L.told link.old } })
        (record { front = F.told front.new; source = record { memory = source.new.memory; store = K.store source.new.keeper; link = L.told link.new } }) }
    ensures later { O.faults out.old ≤ O.faults out.new }
    ensures clock { C.told clock.new ≡ C.told clock.old }
{
    match serve_next_source_connection(alloc, front, source, clock) {
        Ok(over) => tell_and_deliver(alloc, source, number, over, out, link, clock),
        Err(_) => Err(Ending::ListeningFailed),
    }
}

/// Tells how the connection of a number ended, and sends what there is then.
fn tell_and_deliver<K: Keeper, O: Sink, L: Link, C: Clock>(
    alloc: Global,
    source: &mut SourceEnd<K>,
    number: u64,
    over: ConnectionEnd,
    out: &mut O,
    link: &mut L,
    clock: &mut C,
) -> Result<(), Ending>
    ensures told { spec.TellsAndDelivers (C.told clock.old) number over result
        (told_of O.taken O.faults out.old out.new)
        (record { memory = source.old.memory; store = K.store source.old.keeper; link = L.told link.old })
        (record { memory = source.new.memory; store = K.store source.new.keeper; link = L.told link.new }) }
    ensures later { O.faults out.old ≤ O.faults out.new }
    ensures clock { C.told clock.new ≡ C.told clock.old }
{
    match tell_connection(alloc, number, over, out) {
        Ok(()) => deliver_all(alloc, source, out, link, clock),
        Err(ending) => Err(ending),
    }
}

/// Sends what the sessions have.
fn deliver_all<K: Keeper, O: Sink, L: Link, C: Clock>(
    alloc: Global,
    source: &mut SourceEnd<K>,
    out: &mut O,
    link: &mut L,
    clock: &mut C,
) -> Result<(), Ending>
    ensures delivered { spec.DeliversAllBy (IsSent (C.told clock.old)) [] result
        (told_of O.taken O.faults out.old out.new)
        (record { memory = source.old.memory; store = K.store source.old.keeper; link = L.told link.old })
        (record { memory = source.new.memory; store = K.store source.new.keeper; link = L.told link.new }) }
    ensures later { O.faults out.old ≤ O.faults out.new }
    ensures clock { C.told clock.new ≡ C.told clock.old }
{
    match source.sessions() {
        Ok(names) => deliver_each(alloc, source, names.as_slice(), out, link, clock),
        Err(_) => Err(Ending::NoMemory),
    }
}

/// Sends what the sessions of these names have. A session draws an id for each message, so it ends.
fn deliver_each<K: Keeper, O: Sink, L: Link, C: Clock>(
    alloc: Global,
    source: &mut SourceEnd<K>,
    names: &[SubId],
    out: &mut O,
    link: &mut L,
    clock: &mut C,
) -> Result<(), Ending>
    ensures delivered { spec.DeliversEachBy (IsSent (C.told clock.old)) names.now [] result
        (told_of O.taken O.faults out.old out.new)
        (record { memory = source.old.memory; store = K.store source.old.keeper; link = L.told link.old })
        (record { memory = source.new.memory; store = K.store source.new.keeper; link = L.told link.new }) }
    ensures later { O.faults out.old ≤ O.faults out.new }
    ensures clock { C.told clock.new ≡ C.told clock.old }
{
    let mut rest = names;
    'delivering: while let Some(sub) = rest.first() {
        match send_next(alloc, source, sub, out, link, clock) {
            Ok(exchange) => rest = left_by(exchange, rest),
            Err(ending) => return Err(ending),
        }
    }
    Ok(())
}

/// The sessions that are left behind an exchange of the first.
fn left_by(exchange: Exchange, names: &[SubId]) -> &[SubId]
    ensures { result.now ≡ spec.left_by exchange names.now }
{
    match exchange {
        Exchange::Acked(_) => names,
        Exchange::Nothing | Exchange::Heard | Exchange::Refused | Exchange::Lost => {
            without_first(names)
        }
    }
}

fn without_first(names: &[SubId]) -> &[SubId]
    ensures { result.now ≡ drop 1 names.now }
{
    match names {
        [_, others @ ..] => others,
        [] => names,
    }
}
