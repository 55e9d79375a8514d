//! What a source does with what a message asks, and what it says to that.

ghost use Rattle.std.specs.Prelude.{◌≡◌, ◌≤◌, true, false, is_some, IfOk, OnErr, OnOk};
ghost use Rattle.wef_bodies.specs.declared.bodies.Body.TheVariants.{Subscribed};
ghost use Rattle.wef_front_source.specs.Heard.{IsSoundAsk, IsSoundWant};
ghost use Rattle.wef_front_source.specs.Steps.{IsKnownSaid, done_by, said_by, with_ids};
ghost use Rattle.wef_front_source.specs.declared.hearing.Asked.TheVariants.{Begin, Manage};
ghost use Rattle.wef_front_source.specs.declared.hearing.Wants.TheVariants as wants;
ghost use Rattle.wef_front_source.specs.declared.saying.Said.TheVariants.{Done};
ghost use Rattle.wef_source.specs.Answers.{GoesOn, WhereThere};
ghost use Rattle.wef_source.specs.Serving.{CanBeAccepted, longest_lease};
ghost use Rattle.wef_source.specs.Sessions.{has_expired, leased_as, time_left};
ghost use Rattle.wef_xml.specs.Good.{IsXmlText};

use crate::hearing::{Asked, Wants};
use std::alloc::AllocError;
use wef_base::{Moment, Text};
use wef_bodies::Body;
use wef_envelope::FaultName;
use wef_eventing::Subscribe;
use wef_keeper::Keeper;
use wef_source::{Accepted, SourceEnd, SourceFault};

/// How many ids the answer to a message takes.
const FOR_AN_ANSWER: u64 = 1;

/// How many ids a session takes that begins: its identifier, and the answer's id.
const FOR_A_SESSION: u64 = 2;

/// What a source says to a message.
#[derive(Debug, Drop)]
pub enum Said {
    /// What was asked is done, and this is the answer to it.
    Done(Body),
    Fault(FaultName),
    /// There aren't enough ids for what was asked.
    Spent,
}

/// Does what is asked, at a moment.
pub fn say<K: Keeper>(
    source: &mut SourceEnd<K>,
    asked: &Asked,
    now: Moment,
) -> Result<Said, AllocError>
    requires { IsSoundAsk asked.now }
    ensures said { IfOk result (λ said. said ≡ said_by source.old.memory asked.now now) }
    ensures done { OnOk result (source.new.memory ≡ done_by source.old.memory asked.now now) }
    ensures known { IfOk result IsKnownSaid }
    ensures wants_memory { OnErr result (source.new.memory ≡ source.old.memory) }
    ensures keeper { source.new.keeper ≡ source.old.keeper }
    ensures name { source.new.name ≡ source.old.name }
{
    match asked {
        Asked::Refused(name) => Ok(Said::Fault(name.clone()?)),
        Asked::Begin(wish) => begin(source, wish, now),
        Asked::Manage { identifier, wants } => manage(source, identifier, wants, now),
    }
}

/// Begins a session, which takes two ids.
fn begin<K: Keeper>(
    source: &mut SourceEnd<K>,
    wish: &Subscribe,
    now: Moment,
) -> Result<Said, AllocError>
    requires { CanBeAccepted wish.now }
    ensures said { IfOk result (λ said. said ≡ said_by source.old.memory (Begin wish.now) now) }
    ensures done { OnOk result (source.new.memory ≡ done_by source.old.memory (Begin wish.now) now) }
    ensures known { IfOk result IsKnownSaid }
    ensures wants_memory { OnErr result (source.new.memory ≡ source.old.memory) }
    ensures keeper { source.new.keeper ≡ source.old.keeper }
    ensures name { source.new.name ≡ source.old.name }
{
    if source.ids_left() < FOR_A_SESSION {
        return Ok(Said::Spent);
    }
    match source.accept(wish, now) {
        Ok(accepted) => Ok(begun(accepted)),
        Err(_) => Err(AllocError),
    }
}

/// What a collector is answered that began a session.
fn begun(accepted: Accepted) -> Said
    requires { IsXmlText accepted.identifier }
    ensures said { result ≡ Done (Subscribed accepted.identifier accepted.expires) }
    ensures known { IsKnownSaid result }
{
    let Accepted {
        identifier,
        expires,
    } = accepted;
    Said::Done(Body::Subscribed {
        identifier,
        expires,
    })
}

/// Does what is wanted of a session that a collector began.
fn manage<K: Keeper>(
    source: &mut SourceEnd<K>,
    identifier: &Text,
    wants: &Wants,
    now: Moment,
) -> Result<Said, AllocError>
    requires { IsSoundWant wants.now }
    ensures said { IfOk result (λ said. said ≡ said_by source.old.memory (Manage identifier.now wants.now) now) }
    ensures done { OnOk result (source.new.memory ≡ done_by source.old.memory (Manage identifier.now wants.now) now) }
    ensures known { IfOk result IsKnownSaid }
    ensures wants_memory { OnErr result (source.new.memory ≡ source.old.memory) }
    ensures keeper { source.new.keeper ≡ source.old.keeper }
    ensures name { source.new.name ≡ source.old.name }
{
    match source.status(identifier, now) {
        Ok(left) => on_standing(source, identifier, wants, left, now),
        Err(SourceFault::Expired) => on_expired(source, identifier, wants, now),
        Err(_) => Ok(Said::Fault(FaultName::DestinationUnreachable)),
    }
}

/// Does what is wanted of a session that stands for so long.
fn on_standing<K: Keeper>(
    source: &mut SourceEnd<K>,
    identifier: &Text,
    wants: &Wants,
    left: u64,
    now: Moment,
) -> Result<Said, AllocError>
    requires sound { IsSoundWant wants.now }
    requires there { WhereThere (leased_as source.now.memory.sessions identifier.now) (λ session. (has_expired now session ≡ false) × (left ≡ time_left now session)) }
    ensures said { IfOk result (λ said. said ≡ said_by source.old.memory (Manage identifier.now wants.now) now) }
    ensures done { OnOk result (source.new.memory ≡ done_by source.old.memory (Manage identifier.now wants.now) now) }
    ensures known { IfOk result IsKnownSaid }
    ensures wants_memory { OnErr result (source.new.memory ≡ source.old.memory) }
    ensures keeper { source.new.keeper ≡ source.old.keeper }
    ensures name { source.new.name ≡ source.old.name }
{
    match wants {
        Wants::Renew { expires } => Ok(renew(source, identifier, *expires, now)),
        Wants::GetStatus => Ok(with_ids(source, Body::StatusIs { expires: left })),
        Wants::Unsubscribe => Ok(cancel(source, identifier, now)),
        Wants::Unread(name) => Ok(Said::Fault(name.clone()?)),
    }
}

/// Does what is wanted of a session whose time is over: it can be ended, and not renewed.
fn on_expired<K: Keeper>(
    source: &mut SourceEnd<K>,
    identifier: &Text,
    wants: &Wants,
    now: Moment,
) -> Result<Said, AllocError>
    requires sound { IsSoundWant wants.now }
    requires there { WhereThere (leased_as source.now.memory.sessions identifier.now) (λ session. has_expired now session ≡ true) }
    ensures said { IfOk result (λ said. said ≡ said_by source.old.memory (Manage identifier.now wants.now) now) }
    ensures done { OnOk result (source.new.memory ≡ done_by source.old.memory (Manage identifier.now wants.now) now) }
    ensures known { IfOk result IsKnownSaid }
    ensures wants_memory { OnErr result (source.new.memory ≡ source.old.memory) }
    ensures keeper { source.new.keeper ≡ source.old.keeper }
    ensures name { source.new.name ≡ source.old.name }
{
    match wants {
        Wants::Renew { .. } | Wants::GetStatus => Ok(Said::Fault(FaultName::UnableToRenew)),
        Wants::Unsubscribe => Ok(cancel(source, identifier, now)),
        Wants::Unread(name) => Ok(Said::Fault(name.clone()?)),
    }
}

/// Renews a session that stands. It takes no memory.
fn renew<K: Keeper>(source: &mut SourceEnd<K>, identifier: &Text, expires: u64, now: Moment) -> Said
    requires bound { expires ≤ longest_lease }
    requires there { GoesOn source.now.memory.sessions identifier.now now }
    ensures said { result ≡ said_by source.old.memory (Manage identifier.now (wants.Renew expires)) now }
    ensures done { source.new.memory ≡ done_by source.old.memory (Manage identifier.now (wants.Renew expires)) now }
    ensures known { IsKnownSaid result }
    ensures keeper { source.new.keeper ≡ source.old.keeper }
    ensures name { source.new.name ≡ source.old.name }
{
    if source.ids_left() < FOR_AN_ANSWER {
        return Said::Spent;
    }
    match source.renew(identifier, expires, now) {
        Ok(expires) => Said::Done(Body::Renewed { expires }),
        Err(_) => unreachable!(),
    }
}

/// Ends a session that is there. It takes no memory.
fn cancel<K: Keeper>(source: &mut SourceEnd<K>, identifier: &Text, now: Moment) -> Said
    requires { is_some (leased_as source.now.memory.sessions identifier.now) ≡ true }
    ensures said { result ≡ said_by source.old.memory (Manage identifier.now wants.Unsubscribe) now }
    ensures done { source.new.memory ≡ done_by source.old.memory (Manage identifier.now wants.Unsubscribe) now }
    ensures known { IsKnownSaid result }
    ensures keeper { source.new.keeper ≡ source.old.keeper }
    ensures name { source.new.name ≡ source.old.name }
{
    if source.ids_left() < FOR_AN_ANSWER {
        return Said::Spent;
    }
    match source.cancel(identifier) {
        Ok(()) => Said::Done(Body::Unsubscribed),
        Err(_) => unreachable!(),
    }
}

/// Says what was asked for, where there is an id for the answer.
fn with_ids<K: Keeper>(source: &SourceEnd<K>, answer: Body) -> Said
    ensures { result ≡ with_ids 1 source.now.memory answer }
{
    if source.ids_left() < FOR_AN_ANSWER {
        Said::Spent
    } else {
        Said::Done(answer)
    }
}
