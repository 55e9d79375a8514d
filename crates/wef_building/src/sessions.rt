//! Sessions: what a source remembers of each subscription that it serves.

ghost use Rattle.std.specs.Prelude.{◌≡◌, IfOk};

use std::alloc::{AllocError, Global};
use wef_base::moments::Moment;
use wef_base::{SubId, Text};
use wef_bookmark::Bookmark;
use wef_query::QueryList;

/// A batch or a heartbeat that was sent and wasn't answered yet.
#[derive(Debug, Drop)]
pub struct Outstanding {
    /// The value of its id.
    pub id: u128,
    /// How far a batch reads each channel above the session's position; a heartbeat reads none.
    pub to: Bookmark,
}

/// How long a session stands that a collector began, and how the collector knows it.
#[derive(Debug, Drop)]
pub struct Lease {
    /// What the collector names the session by.
    pub identifier: Text,
    /// When it ends, in milliseconds since the beginning of 1970. It may pass the greatest moment.
    pub expiry: u64,
    /// Where the collector is told of its end.
    pub end_to: Option<Text>,
}

impl Lease {
    /// A copy, which shares its texts.
    pub fn clone(&self) -> Result<Lease, AllocError>
        ensures { IfOk result (λ copy. copy ≡ self.now) }
    {
        Ok(Lease {
            identifier: self.identifier.clone()?,
            expiry: self.expiry,
            end_to: copied(&self.end_to)?,
        })
    }
}

/// A subscription that a source serves.
#[derive(Debug)]
pub struct Session {
    pub name: SubId,
    /// Where its batches go.
    pub notify_to: Text,
    pub identifier: Option<Text>,
    pub query: QueryList,
    /// The greatest number of items of a batch.
    pub max_items: u32,
    /// The greatest number of bytes of a batch.
    pub max_bytes: u32,
    /// How long the source may be silent, in milliseconds.
    pub heartbeat: u64,
    /// How far each channel of the query was acknowledged; each of them has an entry.
    pub positions: Bookmark,
    pub outstanding: Option<Outstanding>,
    /// When the last message of the session was sent.
    pub last_sent: Moment,
    /// None where the source asked for the subscription.
    pub lease: Option<Lease>,
}

/// One call for whoever lets a session go, whatever it holds.
impl Drop for Session {
    fn drop(self) {
        match self {
            Session {
                name: _,
                notify_to: _,
                identifier: _,
                query: _,
                max_items: _,
                max_bytes: _,
                heartbeat: _,
                positions: _,
                outstanding: _,
                last_sent: _,
                lease: _,
            } => {}
        }
    }
}

impl Outstanding {
    /// A copy, with a bookmark of its own.
    pub fn clone(&self) -> Result<Outstanding, AllocError>
        ensures { IfOk result (λ copy. copy ≡ self.now) }
    {
        Ok(Outstanding {
            id: self.id,
            to: self.to.clone()?,
        })
    }
}

impl Session {
    /// A copy, which shares its texts.
    pub fn clone(&self, alloc: Global) -> Result<Session, AllocError>
        ensures { IfOk result (λ copy. copy ≡ self.now) }
    {
        let (notify_to, identifier) = copied_address(&self.notify_to, &self.identifier)?;
        let (query, positions) = copied_reading(alloc, self)?;
        let (outstanding, lease) = copied_waits(self)?;
        Ok(Session {
            name: self.name.clone()?,
            notify_to,
            identifier,
            query,
            max_items: self.max_items,
            max_bytes: self.max_bytes,
            heartbeat: self.heartbeat,
            positions,
            outstanding,
            last_sent: self.last_sent,
            lease,
        })
    }
}

/// Copies of what a session reads, and of how far it was acknowledged.
fn copied_reading(alloc: Global, session: &Session) -> Result<(QueryList, Bookmark), AllocError>
    ensures { IfOk result (λ copies. copies ≡ (session.now.query, session.now.positions)) }
{
    let query = session.query.clone(alloc)?;
    Ok((query, session.positions.clone()?))
}

/// Copies of what a session waits for, and of its lease.
fn copied_waits(session: &Session) -> Result<(Option<Outstanding>, Option<Lease>), AllocError>
    ensures { IfOk result (λ copies. copies ≡ (session.now.outstanding, session.now.lease)) }
{
    let outstanding = copied_outstanding(&session.outstanding)?;
    Ok((outstanding, copied_lease(&session.lease)?))
}

/// A copy of what is awaited, where there is something.
fn copied_outstanding(outstanding: &Option<Outstanding>) -> Result<Option<Outstanding>, AllocError>
    ensures { IfOk result (λ copy. copy ≡ outstanding.now) }
{
    match outstanding {
        Some(outstanding) => Ok(Some(outstanding.clone()?)),
        None => Ok(None),
    }
}

/// A copy of a lease, where there is one.
fn copied_lease(lease: &Option<Lease>) -> Result<Option<Lease>, AllocError>
    ensures { IfOk result (λ copy. copy ≡ lease.now) }
{
    match lease {
        Some(lease) => Ok(Some(lease.clone()?)),
        None => Ok(None),
    }
}

/// Copies of where batches go, and of the identifier.
pub fn copied_address(
    notify_to: &Text,
    identifier: &Option<Text>,
) -> Result<(Text, Option<Text>), AllocError>
    ensures { IfOk result (λ copies. copies ≡ (notify_to.now, identifier.now)) }
{
    let notify_to = notify_to.clone()?;
    Ok((notify_to, copied(identifier)?))
}

/// A copy of a text, where there is one.
pub fn copied(text: &Option<Text>) -> Result<Option<Text>, AllocError>
    ensures { IfOk result (λ copy. copy ≡ text.now) }
{
    match text {
        Some(text) => Ok(Some(text.clone()?)),
        None => Ok(None),
    }
}
