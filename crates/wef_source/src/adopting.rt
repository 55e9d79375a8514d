//! The sessions of offers.

ghost use Rattle.std.specs.List.{filter};
ghost use Rattle.std.specs.Prelude.{◌≡◌, IfOk, IfErr, OnOk, OnErr};
ghost use Rattle.wef_eventing.specs.Addresses.{subscription_in};
ghost use Rattle.wef_eventing.specs.Sending.{AreServable, IsServable};
ghost use Rattle.wef_query.specs.Order.{IsInOrder};
ghost use Rattle.wef_query.specs.Selected.{channels_of};
ghost use Rattle.wef_building.specs.Refusals.{WantsMemory};
ghost use Rattle.wef_source.specs.Answers.{asked_for};
ghost use Rattle.wef_source.specs.Placing as placing;
ghost use Rattle.wef_source.specs.Serving.{AreKept, CanBeServed};
ghost use Rattle.wef_source.specs.Sessions as spec;

use std::alloc::{AllocError, Global};
use wef_base::moments::Moment;
use wef_base::{ChannelName, List, SubId};
use wef_bookmark::Bookmark;
use wef_building::{Session, SourceFault, copied_address};
use wef_eventing::{Offer, Subscribe, subscription_in};
use wef_query::{QueryList, channels};

/// What offers make of sessions at a moment: copies of those that collectors began, and the offers', in the
/// order of their names.
pub fn sessions_of(
    alloc: Global,
    sessions: &[Session],
    offers: &List<Offer>,
    now: Moment,
) -> Result<Vec<Session>, SourceFault>
    requires kept { AreKept sessions.now }
    requires servable { AreServable offers.now }
    ensures ok { IfOk result (λ made. made.items ≡ spec.with_offers now (filter spec.is_leased sessions.now) offers.now) }
    ensures kept { IfOk result (λ made. AreKept made.items) }
    ensures refusal { IfErr result WantsMemory }
{
    let mut made = leased_of(alloc, sessions)?;
    for offer in offers.as_slice() {
        take_offer(alloc, &mut made, &offer.subscribe, now)?;
    }
    Ok(made)
}

/// Copies of the sessions that collectors began.
fn leased_of(alloc: Global, sessions: &[Session]) -> Result<Vec<Session>, AllocError>
    ensures { IfOk result (λ copies. copies.items ≡ filter spec.is_leased sessions.now) }
{
    let mut copies = Vec::new(alloc);
    for session in sessions {
        if session.lease.is_some() {
            copies.push(session.clone(alloc)?)?;
        }
    }
    Ok(copies)
}

/// How many sessions their source asked for.
pub fn asked_for(sessions: &[Session]) -> u64
    ensures { result ≡ asked_for sessions.now }
{
    let mut count: u64 = 0;
    for session in sessions {
        if session.lease.is_none() {
            count += 1;
        }
    }
    count
}

/// Takes an offer's session, where its address leads to a subscription. After an error some of the
/// sessions may stand there.
fn take_offer(
    alloc: Global,
    sessions: &mut Vec<Session>,
    subscribe: &Subscribe,
    now: Moment,
) -> Result<(), SourceFault>
    requires kept { AreKept sessions.old.items }
    requires servable { IsServable subscribe.now }
    ensures ok { OnOk result (sessions.new.items
        ≡ spec.with_offered now sessions.old.items subscribe.now (subscription_in subscribe.now.notify_to)) }
    ensures kept { OnOk result (AreKept sessions.new.items) }
    ensures refusal { IfErr result WantsMemory }
{
    let Some(name) = subscription_in(&subscribe.notify_to)? else {
        return Ok(());
    };
    let session = session_from(alloc, subscribe, name, now)?;
    put_session(sessions, session)?;
    Ok(())
}

/// The session of a name that serves a subscription, begun at a moment, for which its source asked.
pub fn session_from(
    alloc: Global,
    subscribe: &Subscribe,
    name: SubId,
    now: Moment,
) -> Result<Session, SourceFault>
    ensures ok { IfOk result (λ session. session ≡ spec.session_from now subscribe.now name) }
    ensures refusal { IfErr result WantsMemory }
{
    let (notify_to, identifier) = copied_address(&subscribe.notify_to, &subscribe.identifier)?;
    let (query, positions) = starting(alloc, subscribe)?;
    Ok(Session {
        name,
        notify_to,
        identifier,
        query,
        max_items: subscribe.max_items,
        max_bytes: subscribe.max_bytes,
        heartbeat: subscribe.heartbeat,
        positions,
        outstanding: None,
        last_sent: now,
        lease: None,
    })
}

/// What a subscription reads, and where it begins.
fn starting(alloc: Global, subscribe: &Subscribe) -> Result<(QueryList, Bookmark), SourceFault>
    ensures query { IfOk result (λ starting. starting.0 ≡ subscribe.now.query) }
    ensures positions { IfOk result (λ starting. starting.1 ≡ spec.with_channels subscribe.now.from (channels_of subscribe.now.query.items)) }
    ensures refusal { IfErr result WantsMemory }
{
    let query = subscribe.query.clone(alloc)?;
    Ok((query, starting_positions(alloc, subscribe)?))
}

/// Where a subscription begins: each channel of its query has an entry.
fn starting_positions(alloc: Global, subscribe: &Subscribe) -> Result<Bookmark, SourceFault>
    ensures ok { IfOk result (λ b. b ≡ spec.with_channels subscribe.now.from (channels_of subscribe.now.query.items)) }
    ensures refusal { IfErr result WantsMemory }
{
    let mut positions = subscribe.from.clone()?;
    let channels = channels(alloc, &subscribe.query)?;
    add_channels(&mut positions, channels.as_slice())?;
    Ok(positions)
}

/// Adds channels at 0, where they aren't there.
fn add_channels(positions: &mut Bookmark, channels: &[ChannelName]) -> Result<(), SourceFault>
    ensures ok { OnOk result (positions.new ≡ spec.with_channels positions.old channels.now) }
    ensures refusal { IfErr result WantsMemory }
{
    for channel in channels {
        if positions.raise(channel, 0).is_err() {
            return Err(SourceFault::NoMemory);
        }
    }
    Ok(())
}

/// Puts a session at its place, in place of one of its name.
pub fn put_session(sessions: &mut Vec<Session>, session: Session) -> Result<(), AllocError>
    requires kept { AreKept sessions.old.items }
    requires served { CanBeServed session }
    ensures ok { OnOk result (sessions.new.items ≡ spec.with_session sessions.old.items session) }
    ensures kept { OnOk result (AreKept sessions.new.items) }
    ensures err { OnErr result (sessions.new.items ≡ sessions.old.items) }
{
    match place_in(sessions.as_slice(), &session.name) {
        Ok(place) => sessions[place] = session,
        Err(place) => sessions.insert(place, session)?,
    }
    Ok(())
}

/// The place of the session of a name, or where such a session goes.
fn place_in(sessions: &[Session], name: &SubId) -> Result<usize, usize>
    requires { IsInOrder (spec.names_of sessions.now) }
    ensures { result ≡ placing.place_in sessions.now name.now }
{
    sessions.binary_search_by(|session| session.name.cmp(name))
}
