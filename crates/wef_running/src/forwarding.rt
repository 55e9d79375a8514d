//! `forward`: a source asks a collector for subscriptions, and sends it batches, and heartbeats where there are none.

ghost use Rattle.std.specs.Fmt.{decimal};
ghost use Rattle.std.specs.Prelude.{◌≡◌, ◌≤◌, [], ◌++◌, codes, drop, option_copied, IfOk, OnOk};
ghost use Rattle.wef_commands.specs.Endings.{told_of};
ghost use Rattle.wef_commands.specs.Writing.{TellsLine};
ghost use Rattle.wef_eventing.specs.Addresses.{IsHost};
ghost use Rattle.wef_running.specs.Forwarding as spec;

use std::alloc::{AllocError, Global};
use wef_base::{Sink, SourceName, SubId, Text};
use wef_commands::{Ending, LOG_CAPACITY, tell_line};
use wef_connections::Link;
use wef_forwarding::{Exchange, FrontFault, ask_once, forward_once};
use wef_keeper::Keeper;
use wef_ports::Clock;
use wef_serving::present;
use wef_source::{SourceEnd, SourceFault};

/// Starts the source of a name, asks the collector at an address for its subscriptions, and sends their
/// messages, at most so many in all: session by session in the order of their names, each until there is
/// nothing to send, or a heartbeat was sent, or a batch is refused or lost. It tells how many sessions there
/// are, and of each message once its exchange is over.
pub fn forward<K: Keeper, O: Sink, L: Link, C: Clock>(
    alloc: Global,
    keeper: K,
    address: &Text,
    source: SourceName,
    deliveries: u64,
    out: &mut O,
    link: &mut L,
    clock: &mut C,
) -> (K, Ending)
    requires { IsHost address.now }
    ensures ends { spec.ForwardEnds address.now source deliveries result.1
        (told_of O.taken O.faults out.old out.new)
        (C.told clock.old) (L.told link.old) (L.told link.new) (K.store keeper) (K.store result.0) }
    ensures clock { C.told clock.new ≡ C.told clock.old }
{
    let mut end = match SourceEnd::start(alloc, keeper, source, LOG_CAPACITY) {
        Ok(end) => end,
        Err((keeper, fault)) => return (keeper, Ending::from(fault)),
    };
    let ending = ask_and_send(alloc, &mut end, address, deliveries, out, link, clock);
    (end.into_keeper(), ending)
}

/// Asks the collector at an address, and sends at most so many messages.
fn ask_and_send<K: Keeper, O: Sink, L: Link, C: Clock>(
    alloc: Global,
    source: &mut SourceEnd<K>,
    address: &Text,
    deliveries: u64,
    out: &mut O,
    link: &mut L,
    clock: &mut C,
) -> Ending
    requires { IsHost address.now }
    ensures ends { spec.AsksAndSends (C.told clock.old) address.now source.old.name deliveries result
        (told_of O.taken O.faults out.old out.new)
        (record { memory = source.old.memory; store = K.store source.old.keeper; link = L.told link.old })
        (record { memory = source.new.memory; store = K.store source.new.keeper; link = L.told link.new }) }
    ensures clock { C.told clock.new ≡ C.told clock.old }
{
    let now = present(clock);
    match ask_once(alloc, link, source, address, now) {
        Ok(_) => announce_and_send(alloc, source, deliveries, out, link, clock),
        Err(fault) => front_ending(fault),
    }
}

/// Tells how many sessions there are, and sends at most so many messages of theirs.
fn announce_and_send<K: Keeper, O: Sink, L: Link, C: Clock>(
    alloc: Global,
    source: &mut SourceEnd<K>,
    deliveries: u64,
    out: &mut O,
    link: &mut L,
    clock: &mut C,
) -> Ending
    ensures ends { spec.SendsFrom (C.told clock.old) deliveries result
        (told_of O.taken O.faults out.old out.new)
        (record { memory = source.old.memory; store = K.store source.old.keeper; link = L.told link.old })
        (record { memory = source.new.memory; store = K.store source.new.keeper; link = L.told link.new }) }
    ensures clock { C.told clock.new ≡ C.told clock.old }
{
    let Ok(names) = source.sessions() else {
        return Ending::NoMemory;
    };
    match tell_sessions(alloc, names.len() as u64, out) {
        Ok(()) => send_all(
            alloc,
            source,
            names.as_slice(),
            deliveries,
            out,
            link,
            clock,
        ),
        Err(ending) => ending,
    }
}

/// Sends at most so many messages of the sessions of these names, and tells when it is done.
fn send_all<K: Keeper, O: Sink, L: Link, C: Clock>(
    alloc: Global,
    source: &mut SourceEnd<K>,
    names: &[SubId],
    deliveries: u64,
    out: &mut O,
    link: &mut L,
    clock: &mut C,
) -> Ending
    ensures ends { spec.SendsAll (C.told clock.old) (record { names = names.now; left = deliveries }) [] result
        (told_of O.taken O.faults out.old out.new)
        (record { memory = source.old.memory; store = K.store source.old.keeper; link = L.told link.old })
        (record { memory = source.new.memory; store = K.store source.new.keeper; link = L.told link.new }) }
    ensures clock { C.told clock.new ≡ C.told clock.old }
{
    let mut rest = names;
    let mut left = deliveries;
    'sending: while let Some(sub) = next(rest, left) {
        match send_next(alloc, source, sub, out, link, clock) {
            Ok(exchange) => (rest, left) = behind(exchange, rest, left),
            Err(ending) => return ending,
        }
    }
    match tell_line("done\n", out) {
        Ok(()) => Ending::Done,
        Err(ending) => ending,
    }
}

/// The session that is next, where so many messages may still be sent.
fn next(names: &[SubId], left: u64) -> Option<&SubId>
    ensures { option_copied result ≡ spec.next (record { names = names.now; left = left }) }
{
    if left == 0 {
        return None;
    }
    names.first()
}

/// The sessions that are left behind an exchange of the next, and how many messages may still be sent.
fn behind(exchange: Exchange, names: &[SubId], left: u64) -> (&[SubId], u64)
    ensures { (record { names = result.0.now; left = result.1 }) ≡ spec.behind exchange (record { names = names.now; left = left }) }
{
    match exchange {
        Exchange::Nothing => (without_first(names), left),
        Exchange::Acked(_) => (names, left.saturating_sub(1)),
        Exchange::Heard => (without_first(names), left.saturating_sub(1)),
        Exchange::Refused => (without_first(names), left.saturating_sub(1)),
        Exchange::Lost => (without_first(names), left.saturating_sub(1)),
    }
}

fn without_first(names: &[SubId]) -> &[SubId]
    ensures { result.now ≡ drop 1 names.now }
{
    match names {
        [_, others @ ..] => others,
        [] => names,
    }
}

/// Forwards the next message of the session of a name, and tells what became of it; or says how the run
/// ends.
pub fn send_next<K: Keeper, O: Sink, L: Link, C: Clock>(
    alloc: Global,
    source: &mut SourceEnd<K>,
    sub: &SubId,
    out: &mut O,
    link: &mut L,
    clock: &mut C,
) -> Result<Exchange, Ending>
    ensures turn { spec.TurnsSession (C.told clock.old) sub.now result
        (told_of O.taken O.faults out.old out.new)
        (record { memory = source.old.memory; store = K.store source.old.keeper; link = L.told link.old })
        (record { memory = source.new.memory; store = K.store source.new.keeper; link = L.told link.new }) }
    ensures later { O.faults out.old ≤ O.faults out.new }
    ensures clock { C.told clock.new ≡ C.told clock.old }
{
    let now = present(clock);
    let answer = forward_once(alloc, link, source, sub, now);
    match unless_gone(answer) {
        Ok(exchange) => match tell_exchange(sub, exchange, out) {
            Ok(()) => Ok(exchange),
            Err(ending) => Err(ending),
        },
        Err(fault) => Err(front_ending(fault)),
    }
}

/// A session that isn't there, or has expired, has nothing to send.
fn unless_gone(answer: Result<Exchange, FrontFault>) -> Result<Exchange, FrontFault>
    ensures { result ≡ spec.unless_gone answer }
{
    match answer {
        Err(FrontFault::Source(SourceFault::UnknownSubscription)) => Ok(Exchange::Nothing),
        Err(FrontFault::Source(SourceFault::Expired)) => Ok(Exchange::Nothing),
        Err(fault) => Err(fault),
        Ok(exchange) => Ok(exchange),
    }
}

/// Tells how many sessions there are.
fn tell_sessions<O: Sink>(alloc: Global, count: u64, out: &mut O) -> Result<(), Ending>
    ensures told { TellsLine result
        (told_of O.taken O.faults out.old out.new)
        (spec.subscriptions_line count) }
    ensures later { O.faults out.old ≤ O.faults out.new }
{
    let line = subscriptions_line(alloc, count)?;
    tell_line(line.as_str(), out)
}

/// Tells what became of a message, where there was one.
fn tell_exchange<O: Sink>(sub: &SubId, exchange: Exchange, out: &mut O) -> Result<(), Ending>
    ensures told { TellsLine result
        (told_of O.taken O.faults out.old out.new)
        (spec.line_of (sub.now, exchange)) }
    ensures later { O.faults out.old ≤ O.faults out.new }
{
    let line = exchange_line(sub, exchange)?;
    tell_line(line.as_str(), out)
}

#[tactic(auto, unfolding(crate::specs::Forwarding::subscriptions_line))]
fn subscriptions_line(alloc: Global, count: u64) -> Result<Text, AllocError>
    ensures { IfOk result (λ text. text ≡ spec.subscriptions_line count) }
{
    let mut text = Text::from_str(alloc, "subscriptions ")?;
    text.push_number(count)?;
    text.push_str("\n")?;
    Ok(text)
}

/// The line of an exchange; no text where there was nothing to send.
fn exchange_line(sub: &SubId, exchange: Exchange) -> Result<Text, AllocError>
    ensures { IfOk result (λ text. text ≡ spec.line_of (sub.now, exchange)) }
{
    match exchange {
        Exchange::Nothing => Ok(Text::new(sub.as_text().alloc())),
        Exchange::Acked(_) => sent_line(sub, exchange),
        Exchange::Heard => sent_line(sub, exchange),
        Exchange::Refused => sent_line(sub, exchange),
        Exchange::Lost => sent_line(sub, exchange),
    }
}

#[tactic(auto, unfolding(crate::specs::Forwarding::sent_line))]
fn sent_line(sub: &SubId, exchange: Exchange) -> Result<Text, AllocError>
    ensures { IfOk result (λ text. text ≡ spec.sent_line sub.now exchange) }
{
    let name = sub.as_text();
    let mut text = Text::from_str(name.alloc(), "sent ")?;
    text.push_printed(name)?;
    push_outcome(&mut text, exchange)?;
    text.push_str("\n")?;
    Ok(text)
}

#[tactic(auto, unfolding(crate::specs::Forwarding::outcome_word))]
fn push_outcome(text: &mut Text, exchange: Exchange) -> Result<(), AllocError>
    ensures { OnOk result (text.new ≡ text.old ++ spec.outcome_word exchange) }
{
    match exchange {
        Exchange::Nothing => Ok(()),
        Exchange::Acked(count) => push_acked(text, count),
        Exchange::Heard => push_acked(text, 0),
        Exchange::Refused => text.push_str(" refused"),
        Exchange::Lost => text.push_str(" lost"),
    }
}

fn push_acked(text: &mut Text, count: u32) -> Result<(), AllocError>
    ensures { OnOk result (text.new ≡ text.old ++ codes " acked " ++ decimal count) }
{
    text.push_str(" acked ")?;
    text.push_number(u64::from(count))
}

/// The ending that tells of an exchange that nothing is known of.
fn front_ending(fault: FrontFault) -> Ending
    ensures { result ≡ spec.front_ending fault }
{
    match fault {
        FrontFault::NoMemory => Ending::NoMemory,
        FrontFault::LinkFailed => Ending::LinkFailed,
        FrontFault::Source(fault) => Ending::from(fault),
    }
}
