//! What a source answers to collectors that subscribe at it, call by call.

ghost use Rattle.std.specs.Prelude.{◌≡◌, ◌≤◌, true, is_some, IfOk, IfSome};
ghost use Rattle.wef_eventing.specs.Addresses.{is_address, subscription_in};
ghost use Rattle.wef_eventing.specs.Sending.{AreServable};
ghost use Rattle.wef_source.specs.Serving.{CanBeAccepted, longest_lease};

use crate::logs::source_name;
use std::alloc::{AllocError, Global};
use wef_base::{ChannelName, List, Moment, SubId, Text};
use wef_bookmark::Bookmark;
use wef_eventing::{Offer, Subscribe, Subscription, is_address, subscription_in};
use wef_ids::{MessageId, id_text};
use wef_keeper::MemKeeper;
use wef_source::{EndNote, Poll, SourceEnd, SourceFault};

/// The longest time that a subscription may ask for, in milliseconds.
const LONGEST: u64 = 8_640_000_000_000;

/// Appends what a new source of boot 1 answers to steps, one after the other.
pub(crate) fn push_leases(shown: &mut Text, line: &str) -> Result<(), AllocError> {
    let alloc = shown.alloc();
    let name = source_name(alloc)?;
    match SourceEnd::start(alloc, MemKeeper::new(alloc), name, 4) {
        Ok(mut source) => push_steps(shown, &mut source, line),
        Err(_) => Err(AllocError),
    }
}

fn push_steps(
    shown: &mut Text,
    source: &mut SourceEnd<MemKeeper>,
    line: &str,
) -> Result<(), AllocError> {
    let mut is_first = true;
    for step in line.split("; ") {
        if !is_first {
            shown.push_str("; ")?;
        }
        push_step(shown, source, step)?;
        is_first = false;
    }
    Ok(())
}

/// A word, and what stands behind it.
pub fn cut(line: &str) -> (&str, &str) {
    line.split_once(' ').unwrap_or((line, ""))
}

/// The number that begins a line, and what stands behind it.
pub fn cut_number(line: &str) -> (u64, &str) {
    let (word, rest) = cut(line);
    (word.parse().unwrap_or(0), rest)
}

fn push_step(
    shown: &mut Text,
    source: &mut SourceEnd<MemKeeper>,
    step: &str,
) -> Result<(), AllocError> {
    let (call, rest) = cut(step);
    match call {
        "accept" => push_accepted(shown, source, rest),
        "offer" => push_adopted(shown, source, rest),
        "renew" => push_renewed(shown, source, rest),
        "status" => push_left(shown, source, rest),
        "cancel" => push_cancelled(shown, source, rest),
        "poll" => push_polled(shown, source, rest),
        "shut" => push_shut(shown, source),
        _ => shown.push_number(source.ids_left()),
    }
}

/// The moment of so many milliseconds.
pub(crate) fn moment(milliseconds: u64) -> Moment {
    Moment::of(milliseconds).unwrap_or(Moment::first())
}

/// The text of the id of this number that a source of boot 1 draws.
fn identifier(alloc: Global, number: u64) -> Result<Text, AllocError> {
    id_text(alloc, MessageId::of(1, number))
}

fn push_fault(shown: &mut Text, fault: SourceFault) -> Result<(), AllocError> {
    match fault {
        SourceFault::NoMemory => Err(AllocError),
        SourceFault::UnknownSubscription => shown.push_str("unknown"),
        SourceFault::Expired => shown.push_str("expired"),
        SourceFault::Spent => shown.push_str("spent"),
        _ => shown.push_str("another fault"),
    }
}

/// The number that a call answers, or why it is refused.
fn push_number(shown: &mut Text, answer: Result<u64, SourceFault>) -> Result<(), AllocError> {
    match answer {
        Ok(number) => shown.push_number(number),
        Err(fault) => push_fault(shown, fault),
    }
}

/// The answer to `accept NAME AT EXPIRES`, where EXPIRES is 0 for a wish that doesn't say it; the end is told
/// where `told` stands behind that.
fn push_accepted(
    shown: &mut Text,
    source: &mut SourceEnd<MemKeeper>,
    line: &str,
) -> Result<(), AllocError> {
    let (name, rest) = cut(line);
    let (at, rest) = cut_number(rest);
    let (expires, rest) = cut_number(rest);
    let wish = wish(shown.alloc(), name, expires, rest == "told")?;
    match source.accept(&wish, moment(at)) {
        Ok(accepted) => {
            shown.push_str(accepted.identifier.as_str())?;
            shown.push_str(" for ")?;
            shown.push_number(accepted.expires)
        }
        Err(fault) => push_fault(shown, fault),
    }
}

/// How many sessions an offer of `NAME AT` makes.
fn push_adopted(
    shown: &mut Text,
    source: &mut SourceEnd<MemKeeper>,
    line: &str,
) -> Result<(), AllocError> {
    let (name, rest) = cut(line);
    let (at, _) = cut_number(rest);
    let offers = offers(shown.alloc(), name)?;
    let Ok(id) = source.ask() else {
        return shown.push_str("spent");
    };
    push_number(shown, source.adopt(&id, &offers, moment(at)))
}

/// The answer to `renew NUMBER EXPIRES AT`, of the session that is named by the id of that number.
fn push_renewed(
    shown: &mut Text,
    source: &mut SourceEnd<MemKeeper>,
    line: &str,
) -> Result<(), AllocError> {
    let (number, rest) = cut_number(line);
    let (expires, rest) = cut_number(rest);
    let (at, _) = cut_number(rest);
    let identifier = identifier(shown.alloc(), number)?;
    push_number(
        shown,
        source.renew(&identifier, expires.min(LONGEST), moment(at)),
    )
}

/// The answer to `status NUMBER AT`.
fn push_left(
    shown: &mut Text,
    source: &SourceEnd<MemKeeper>,
    line: &str,
) -> Result<(), AllocError> {
    let (number, rest) = cut_number(line);
    let (at, _) = cut_number(rest);
    let identifier = identifier(shown.alloc(), number)?;
    push_number(shown, source.status(&identifier, moment(at)))
}

/// The answer to `cancel NUMBER`.
fn push_cancelled(
    shown: &mut Text,
    source: &mut SourceEnd<MemKeeper>,
    line: &str,
) -> Result<(), AllocError> {
    let (number, _) = cut_number(line);
    let identifier = identifier(shown.alloc(), number)?;
    match source.cancel(&identifier) {
        Ok(()) => shown.push_str("ended"),
        Err(fault) => push_fault(shown, fault),
    }
}

/// What the session of `NAME AT` has to send.
fn push_polled(
    shown: &mut Text,
    source: &mut SourceEnd<MemKeeper>,
    line: &str,
) -> Result<(), AllocError> {
    let (name, rest) = cut(line);
    let (at, _) = cut_number(rest);
    let Some(sub) = SubId::named(&Text::from_str(shown.alloc(), name)?)? else {
        return shown.push_str("no name");
    };
    match source.poll(&sub, moment(at)) {
        Ok(Poll::Send(_)) => shown.push_str("sends"),
        Ok(Poll::Beat(_)) => shown.push_str("beats"),
        Ok(Poll::Nothing) => shown.push_str("nothing"),
        Err(fault) => push_fault(shown, fault),
    }
}

/// The notes of a source that ends the sessions that collectors began.
fn push_shut(shown: &mut Text, source: &mut SourceEnd<MemKeeper>) -> Result<(), AllocError> {
    match source.shut() {
        Ok(notes) => push_notes(shown, notes.as_slice()),
        Err(fault) => push_fault(shown, fault),
    }
}

fn push_notes(shown: &mut Text, notes: &[EndNote]) -> Result<(), AllocError> {
    shown.push_number(notes.len() as u64)?;
    shown.push_str(" told")?;
    for note in notes {
        shown.push_str(" ")?;
        shown.push_str(note.id.text.as_str())?;
        shown.push_str(" of ")?;
        shown.push_str(note.identifier.as_str())?;
        shown.push_str(" at ")?;
        shown.push_str(note.end_to.as_str())?;
    }
    Ok(())
}

/// A wish for all events of `application`, for a subscription of this name.
fn wish(alloc: Global, name: &str, expires: u64, is_told: bool) -> Result<Subscribe, AllocError>
    ensures { IfOk result CanBeAccepted }
{
    let notify_to = address(alloc, name)?;
    let end_to = end_of(&notify_to, is_told)?;
    let subscription = subscription(alloc)?;
    let query = subscription.query.clone(alloc)?;
    Ok(Subscribe {
        notify_to,
        end_to,
        identifier: None,
        query,
        max_items: 20,
        max_bytes: 512_000,
        heartbeat: 900_000,
        expires: within(expires),
        from: Bookmark::new(alloc),
    })
}

/// The time that a wish says; 0 is none.
fn within(expires: u64) -> Option<u64>
    ensures { IfSome result (λ n. n ≤ longest_lease) }
{
    if expires == 0 || expires > LONGEST {
        return None;
    }
    Some(expires)
}

fn end_of(notify_to: &Text, is_told: bool) -> Result<Option<Text>, AllocError>
    ensures { is_address notify_to.now ≡ true → IfOk result (λ end. IfSome end (λ a. is_address a ≡ true)) }
{
    if is_told {
        Ok(Some(notify_to.clone()?))
    } else {
        Ok(None)
    }
}

/// The address of a subscription of this name, at which the source `pc1` delivers.
fn address(alloc: Global, name: &str) -> Result<Text, AllocError>
    ensures address { IfOk result (λ a. is_address a ≡ true) }
    ensures leads { IfOk result (λ a. is_some (subscription_in a) ≡ true) }
{
    let mut address = Text::from_str(alloc, "http://collector:5985/wsman/subscriptions/")?;
    address.push_str(name)?;
    address.push_str("/pc1")?;
    if !is_address(&address) || subscription_in(&address)?.is_none() {
        return Err(AllocError);
    }
    Ok(address)
}

fn subscription(alloc: Global) -> Result<Subscription, AllocError> {
    let Some(name) = SubId::named(&Text::from_str(alloc, "base")?)? else {
        return Err(AllocError);
    };
    let Some(channel) = ChannelName::named(&Text::from_str(alloc, "application")?)? else {
        return Err(AllocError);
    };
    let mut channels = List::new(alloc);
    channels.push(channel)?;
    Subscription::all_events(name, channels, 20, 512_000, 900_000)
}

/// An offer of a subscription of this name.
fn offers(alloc: Global, name: &str) -> Result<List<Offer>, AllocError>
    ensures { IfOk result AreServable }
{
    let subscribe = wish(alloc, name, 0, false)?;
    let version = Text::new(alloc);
    let mut offers = List::new(alloc);
    offers.push(Offer { version, subscribe })?;
    Ok(offers)
}
