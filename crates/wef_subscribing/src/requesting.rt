//! `request`: the collector sends the requests that are due to sources whose subscriptions it begins.

ghost use Rattle.std.specs.Prelude.{◌≡◌, ◌≤◌, ◌++◌, IfOk, OnOk};
ghost use Rattle.wef_commands.specs.Endings.{told_of};
ghost use Rattle.wef_commands.specs.Writing.{TellsLine};
ghost use Rattle.wef_eventing.specs.Addresses.{IsHost};
ghost use Rattle.wef_subscribing.specs.Requesting as spec;

use std::alloc::{AllocError, Global};
use wef_base::{Sink, Text};
use wef_bodies::Body;
use wef_collector::Collector;
use wef_commands::{Ending, tell_line};
use wef_connections::Link;
use wef_keeper::Keeper;
use wef_ports::Clock;
use wef_requesting::{Outcome, RequestFault, Sent, request_once};
use wef_serving::present;

/// Starts the collector, and sends the requests that are due, one after the other, at most so many. Its own
/// address is where sources send their events. It tells of each request once its exchange is over.
pub fn request<K: Keeper, O: Sink, L: Link, C: Clock>(
    alloc: Global,
    keeper: K,
    address: &Text,
    count: u64,
    out: &mut O,
    link: &mut L,
    clock: &mut C,
) -> (K, Ending)
    requires { IsHost address.now }
    ensures ends { spec.RequestEnds address.now count result.1
        (told_of O.taken O.faults out.old out.new)
        (C.told clock.old) (L.told link.old) (L.told link.new) (K.store keeper) (K.store result.0) }
    ensures clock { C.told clock.new ≡ C.told clock.old }
{
    let mut collector = match Collector::start(alloc, keeper) {
        Ok(collector) => collector,
        Err((keeper, fault)) => return (keeper, Ending::from(fault)),
    };
    let ending = request_all(alloc, &mut collector, address, count, out, link, clock);
    (collector.into_keeper(), ending)
}

/// Sends at most so many requests, and tells when it is done.
fn request_all<K: Keeper, O: Sink, L: Link, C: Clock>(
    alloc: Global,
    collector: &mut Collector<K>,
    address: &Text,
    count: u64,
    out: &mut O,
    link: &mut L,
    clock: &mut C,
) -> Ending
    requires { IsHost address.now }
    ensures ends { spec.RequestsAll (C.told clock.old) address.now count result
        (told_of O.taken O.faults out.old out.new)
        (record { memory = collector.old.memory; store = K.store collector.old.keeper; link = L.told link.old })
        (record { memory = collector.new.memory; store = K.store collector.new.keeper; link = L.told link.new }) }
    ensures clock { C.told clock.new ≡ C.told clock.old }
{
    let mut left = count;
    'requesting: while left > 0 {
        match request_next(alloc, collector, address, out, link, clock) {
            Ok(Some(_)) => left -= 1,
            Ok(None) => return tell_done(out),
            Err(ending) => return ending,
        }
    }
    tell_done(out)
}

/// Sends the next request that is due, if there is one, and tells what became of it; or says how the run
/// ends.
fn request_next<K: Keeper, O: Sink, L: Link, C: Clock>(
    alloc: Global,
    collector: &mut Collector<K>,
    address: &Text,
    out: &mut O,
    link: &mut L,
    clock: &mut C,
) -> Result<Option<Sent>, Ending>
    requires { IsHost address.now }
    ensures turn { spec.TurnsBy (spec.IsRequested (C.told clock.old) address.now) result
        (told_of O.taken O.faults out.old out.new)
        (record { memory = collector.old.memory; store = K.store collector.old.keeper; link = L.told link.old })
        (record { memory = collector.new.memory; store = K.store collector.new.keeper; link = L.told link.new }) }
    ensures later { O.faults out.old ≤ O.faults out.new }
    ensures clock { C.told clock.new ≡ C.told clock.old }
{
    let now = present(clock);
    match request_once(alloc, link, collector, address, now) {
        Ok(Some(sent)) => match tell_request(alloc, &sent, out) {
            Ok(()) => Ok(Some(sent)),
            Err(ending) => Err(ending),
        },
        Ok(None) => Ok(None),
        Err(fault) => Err(request_ending(fault)),
    }
}

/// The ending that tells why nothing is known of a request.
fn request_ending(fault: RequestFault) -> Ending
    ensures { result ≡ spec.request_ending fault }
{
    match fault {
        RequestFault::NoMemory => Ending::NoMemory,
        RequestFault::LinkFailed => Ending::LinkFailed,
        RequestFault::StoreFailed => Ending::StoreFailed,
    }
}

/// Tells that no request is sent any more.
#[tactic(auto, unfolding(wef_running::specs::Forwarding::done_line))]
fn tell_done<O: Sink>(out: &mut O) -> Ending
    ensures { spec.TellsDone result
        (told_of O.taken O.faults out.old out.new) }
{
    match tell_line("done\n", out) {
        Ok(()) => Ending::Done,
        Err(ending) => ending,
    }
}

/// Tells what became of a request.
fn tell_request<O: Sink>(alloc: Global, sent: &Sent, out: &mut O) -> Result<(), Ending>
    ensures told { TellsLine result
        (told_of O.taken O.faults out.old out.new)
        (spec.request_line sent.now) }
    ensures later { O.faults out.old ≤ O.faults out.new }
{
    let line = request_line(alloc, sent)?;
    tell_line(line.as_str(), out)
}

#[tactic(auto, unfolding(crate::specs::Requesting::request_line))]
fn request_line(alloc: Global, sent: &Sent) -> Result<Text, AllocError>
    ensures { IfOk result (λ text. text ≡ spec.request_line sent.now) }
{
    let mut text = Text::from_str(alloc, "sent ")?;
    text.push_str(asks_word(&sent.request.body))?;
    text.push_printed(sent.request.sub.as_text())?;
    text.push_str(" ")?;
    text.push_printed(sent.request.source.name.as_text())?;
    text.push_str(outcome_word(sent.outcome))?;
    text.push_str("\n")?;
    Ok(text)
}

/// What a request asks for.
fn asks_word(body: &Body) -> &'static str
    ensures { result.now ≡ spec.asks_word body.now }
{
    match body {
        Body::Renew { .. } => "renew ",
        Body::Unsubscribe => "unsubscribe ",
        _ => "subscribe ",
    }
}

/// What became of it.
fn outcome_word(outcome: Outcome) -> &'static str
    ensures { result.now ≡ spec.outcome_word outcome }
{
    match outcome {
        Outcome::Leased => " leased",
        Outcome::Cleared => " cleared",
        Outcome::Lost => " lost",
    }
}
