//! What becomes of sessions.

ghost use Rattle.std.specs.List.{filter, position};
ghost use Rattle.std.specs.Prelude.{◌≡◌, false, is_some, if◌then◌else◌, IfErr, IfOk, OnErr, OnOk};
ghost use Rattle.wef_bookmark.specs.Order.{joined};
ghost use Rattle.wef_source.specs.Answers.{GoesOn, RefusesLeased, TellsLeft};
ghost use Rattle.wef_source.specs.Machine as machine;
ghost use Rattle.wef_source.specs.Serving.{AreKept, HasAll, CanBeServed};
ghost use Rattle.wef_source.specs.Sessions as spec;

use wef_base::moments::Moment;
use wef_base::{SubId, Text};
use wef_bookmark::Bookmark;
use wef_building::{Outstanding, Session, SourceFault};
use wef_heartbeat::due;
use wef_ids::FaultName;

/// The place of the session of a name.
pub fn place_of_name(sessions: &[Session], sub: &SubId) -> Option<usize>
    ensures { result ≡ position (spec.is_named sub.now) sessions.now }
{
    sessions.iter().position(|session| session.name == *sub)
}

/// The place of the session that a collector began and names so.
pub fn place_of_lease(sessions: &[Session], identifier: &Text) -> Option<usize>
    ensures { result ≡ position (spec.is_leased_as identifier.now) sessions.now }
{
    sessions
        .iter()
        .position(|session| is_leased_as(session, identifier))
}

fn is_leased_as(session: &Session, identifier: &Text) -> bool
    ensures { result ≡ spec.is_leased_as identifier.now session.now }
{
    match &session.lease {
        Some(lease) => lease.identifier == *identifier,
        None => false,
    }
}

/// The place of the session that waits for the answer to an id.
pub fn place_of_id(sessions: &[Session], id: u128) -> Option<usize>
    ensures { result ≡ position (spec.waits_for id) sessions.now }
{
    sessions.iter().position(|session| waits_for(session, id))
}

fn waits_for(session: &Session, id: u128) -> bool
    ensures { result ≡ spec.waits_for id session.now }
{
    match &session.outstanding {
        Some(outstanding) => outstanding.id == id,
        None => false,
    }
}

/// Has the first session of a name wait for nothing, and answers whether there is one.
pub fn settle_named(sessions: &mut Vec<Session>, sub: &SubId) -> bool
    requires { AreKept sessions.old.items }
    ensures there { result ≡ is_some (spec.session_of sessions.old.items sub.now) }
    ensures changed { sessions.new.items ≡ spec.with_changed (spec.is_named sub.now) spec.settled sessions.old.items }
    ensures absent { result ≡ false → sessions.new.items ≡ sessions.old.items }
    ensures kept { AreKept sessions.new.items }
{
    let Some(place) = place_of_name(sessions.as_slice(), sub) else {
        return false;
    };
    settle(&mut sessions[place]);
    true
}

/// What an answer makes of the session that waits for it.
#[derive(Clone, Copy)]
pub enum Answer {
    /// It goes on behind what it sent.
    Taken,
    /// It waits for nothing.
    Refused,
}

/// Gives the first session that waits for the answer to an id this one, and answers whether there is
/// one.
pub fn answer_waiting(sessions: &mut Vec<Session>, id: u128, answer: Answer) -> bool
    requires { AreKept sessions.old.items }
    ensures there { result ≡ is_some (spec.waiting sessions.old.items id) }
    ensures changed { sessions.new.items ≡ spec.with_changed (spec.waits_for id) (spec.answered answer) sessions.old.items }
    ensures absent { result ≡ false → sessions.new.items ≡ sessions.old.items }
    ensures kept { AreKept sessions.new.items }
{
    let Some(place) = place_of_id(sessions.as_slice(), id) else {
        return false;
    };
    take_answer(&mut sessions[place], answer);
    true
}

/// Has the first session that waits for the answer to an id wait for nothing after a fault, or ends it
/// where the collector doesn't know it any more, and answers whether there is one.
pub fn refuse_waiting(sessions: &mut Vec<Session>, id: u128, fault: &FaultName) -> bool
    requires { AreKept sessions.old.items }
    ensures there { result ≡ is_some (spec.waiting sessions.old.items id) }
    ensures changed { sessions.new.items ≡ (if machine.is_unreachable fault.now
        then spec.without (spec.waits_for id) sessions.old.items
        else spec.with_changed (spec.waits_for id) spec.settled sessions.old.items) }
    ensures absent { result ≡ false → sessions.new.items ≡ sessions.old.items }
    ensures kept { AreKept sessions.new.items }
{
    if matches!(fault, FaultName::DestinationUnreachable) {
        return end_waiting(sessions, id);
    }
    answer_waiting(sessions, id, Answer::Refused)
}

/// Ends the first session that waits for the answer to an id, and answers whether there is one.
fn end_waiting(sessions: &mut Vec<Session>, id: u128) -> bool
    requires { AreKept sessions.old.items }
    ensures there { result ≡ is_some (spec.waiting sessions.old.items id) }
    ensures changed { sessions.new.items ≡ spec.without (spec.waits_for id) sessions.old.items }
    ensures absent { result ≡ false → sessions.new.items ≡ sessions.old.items }
    ensures kept { AreKept sessions.new.items }
{
    let Some(place) = place_of_id(sessions.as_slice(), id) else {
        return false;
    };
    let _ended = sessions.remove(place);
    true
}

/// Whether a session's time is over at a moment.
pub fn has_expired(session: &Session, now: Moment) -> bool
    ensures { result ≡ spec.has_expired now session.now }
{
    match &session.lease {
        Some(lease) => lease.expiry <= now.milliseconds(),
        None => false,
    }
}

/// Whether a session is to say at a moment that its source is there.
pub fn is_due(session: &Session, now: Moment) -> bool
    ensures { result ≡ machine.is_due now session.now }
{
    due(session.last_sent, session.heartbeat, now)
}

/// How long a session stands from a moment on.
fn time_left(session: &Session, now: Moment) -> u64
    ensures { result ≡ spec.time_left now session.now }
{
    match &session.lease {
        Some(lease) => lease.expiry.saturating_sub(now.milliseconds()),
        None => 0,
    }
}

/// How long the first session stands, from a moment on, that a collector began and names so.
pub fn left_of_lease(
    sessions: &[Session],
    identifier: &Text,
    now: Moment,
) -> Result<u64, SourceFault>
    ensures ok { IfOk result (TellsLeft sessions.now identifier.now now) }
    ensures refusal { IfErr result (λ fault. RefusesLeased fault sessions.now identifier.now now) }
{
    let Some(place) = place_of_lease(sessions, identifier) else {
        return Err(SourceFault::UnknownSubscription);
    };
    let session = &sessions[place];
    if has_expired(session, now) {
        return Err(SourceFault::Expired);
    }
    Ok(time_left(session, now))
}

/// Has the first session that a collector began and names so stand until then, where its time isn't over.
pub fn renew_leased(
    sessions: &mut Vec<Session>,
    identifier: &Text,
    expiry: u64,
    now: Moment,
) -> Result<(), SourceFault>
    requires { AreKept sessions.old.items }
    ensures there { OnOk result (GoesOn sessions.old.items identifier.now now) }
    ensures changed { OnOk result (sessions.new.items ≡ spec.with_changed (spec.is_leased_as identifier.now) (spec.prolonged expiry) sessions.old.items) }
    ensures refusal { IfErr result (λ fault. RefusesLeased fault sessions.old.items identifier.now now) }
    ensures err { OnErr result (sessions.new.items ≡ sessions.old.items) }
    ensures kept { AreKept sessions.new.items }
{
    left_of_lease(sessions.as_slice(), identifier, now)?;
    prolong_leased(sessions, identifier, expiry);
    Ok(())
}

/// Has the first session that a collector began and names so stand until then.
fn prolong_leased(sessions: &mut Vec<Session>, identifier: &Text, expiry: u64)
    requires { AreKept sessions.old.items }
    ensures changed { sessions.new.items ≡ spec.with_changed (spec.is_leased_as identifier.now) (spec.prolonged expiry) sessions.old.items }
    ensures kept { AreKept sessions.new.items }
{
    let Some(place) = place_of_lease(sessions.as_slice(), identifier) else {
        return;
    };
    prolong(&mut sessions[place], expiry);
}

fn prolong(session: &mut Session, expiry: u64)
    ensures { session.new ≡ spec.prolonged expiry session.old }
{
    if let Some(lease) = &mut session.lease {
        lease.expiry = expiry;
    }
}

/// Ends the first session that a collector began and names so, and answers whether there is one.
pub fn end_leased(sessions: &mut Vec<Session>, identifier: &Text) -> bool
    requires { AreKept sessions.old.items }
    ensures there { result ≡ is_some (spec.leased_as sessions.old.items identifier.now) }
    ensures changed { sessions.new.items ≡ spec.without (spec.is_leased_as identifier.now) sessions.old.items }
    ensures absent { result ≡ false → sessions.new.items ≡ sessions.old.items }
    ensures kept { AreKept sessions.new.items }
{
    let Some(place) = place_of_lease(sessions.as_slice(), identifier) else {
        return false;
    };
    let _ended = sessions.remove(place);
    true
}

/// Ends the sessions that collectors began.
pub fn end_all_leased(sessions: &mut Vec<Session>)
    requires { AreKept sessions.old.items }
    ensures changed { sessions.new.items ≡ filter spec.is_asked_for sessions.old.items }
    ensures kept { AreKept sessions.new.items }
{
    sessions.retain(|session| session.lease.is_none());
}

/// Has a session wait for the answer to what it sends at a moment.
pub fn send(session: &mut Session, outstanding: Outstanding, now: Moment)
    ensures { session.new ≡ spec.sending outstanding now session.old }
{
    session.outstanding = Some(outstanding);
    session.last_sent = now;
}

fn settle(session: &mut Session)
    ensures { session.new ≡ spec.settled session.old }
{
    session.outstanding = None;
}

fn take_answer(session: &mut Session, answer: Answer)
    requires { CanBeServed session.old }
    ensures { session.new ≡ spec.answered answer session.old }
{
    match answer {
        Answer::Taken => acknowledge(session),
        Answer::Refused => settle(session),
    }
}

/// Moves a session behind what it sent. It takes no memory.
#[tactic(auto, using(crate::proofs::Remembered::has_read))]
fn acknowledge(session: &mut Session)
    requires { CanBeServed session.old }
    ensures { session.new ≡ spec.acknowledged session.old }
{
    if let Some(outstanding) = session.outstanding.take() {
        join_present(&mut session.positions, &outstanding.to);
    }
}

/// Raises channels that are there to their numbers in another bookmark. It takes no memory.
fn join_present(positions: &mut Bookmark, to: &Bookmark)
    requires { HasAll positions.old to.now }
    ensures { positions.new ≡ joined positions.old to.now }
{
    for (channel, number) in to.numbers() {
        positions.raise(channel, *number).unwrap();
    }
}
