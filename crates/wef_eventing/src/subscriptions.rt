//! Subscriptions: which events a collector wants of its sources, and how they come.

ghost use Rattle.std.specs.Prelude.{◌≡◌, ◌<◌, length, IfOk};
ghost use Rattle.wef_eventing.specs.Subscriptions.{AreLimits, IsAllEvents, all_events};

use std::alloc::{AllocError, Global};
use wef_base::{ChannelName, List, SourceName, SubId, Text};
use wef_query::QueryList;

/// Who begins a subscription.
#[derive(Clone, Copy, Debug, PartialEq, Eq)]
pub enum SubKind {
    /// Each source asks the collector for its subscriptions.
    BySource,
    /// The collector subscribes at the sources that it names.
    ByCollector,
}

/// A source that the collector subscribes at.
#[derive(Debug, Drop)]
pub struct SourceAt {
    pub name: SourceName,
    pub address: Text,
}

impl SourceAt {
    /// A copy, which shares its texts.
    pub fn clone(&self) -> Result<SourceAt, AllocError>
        ensures { IfOk result (λ copy. copy ≡ self.now) }
    {
        let name = self.name.clone()?;
        let address = self.address.clone()?;
        Ok(SourceAt { name, address })
    }
}

/// What a collector wants of its sources. Times are in milliseconds.
#[derive(Debug)]
pub struct Subscription {
    pub name: SubId,
    pub kind: SubKind,
    pub query: QueryList,
    /// The greatest number of items of a batch.
    pub max_items: u32,
    /// The greatest number of bytes of a batch.
    pub max_bytes: u32,
    /// How long a source may be silent.
    pub heartbeat: u64,
    /// How long it holds without a renewal.
    pub expires: u64,
    /// The sources that the collector subscribes at; none where the sources begin.
    pub sources: List<SourceAt>,
    /// It rises with each change of the subscription.
    pub version: u64,
}

/// One call for whoever lets a subscription go, whatever it holds.
impl Drop for Subscription {
    fn drop(self) {
        match self {
            Subscription {
                name: _,
                kind: _,
                query: _,
                max_items: _,
                max_bytes: _,
                heartbeat: _,
                expires: _,
                sources: _,
                version: _,
            } => {}
        }
    }
}

/// Why a source ended a subscription.
#[derive(Clone, Copy, Debug, PartialEq, Eq)]
pub enum EndStatus {
    DeliveryFailure,
    SourceShuttingDown,
    SourceCanceling,
}

impl Subscription {
    /// The subscription that asks each source for all events of some channels. The sources begin;
    /// it has version 1 and expires after an hour.
    pub fn all_events(
        name: SubId,
        channels: List<ChannelName>,
        max_items: u32,
        max_bytes: u32,
        heartbeat: u64,
    ) -> Result<Subscription, AllocError>
        ensures value { IfOk result (λ s. s ≡ all_events name channels max_items max_bytes heartbeat) }
        ensures is_one { IfOk result (λ s. 0 < length channels → AreLimits max_items max_bytes heartbeat → IsAllEvents s) }
    {
        let alloc = name.as_text().alloc();
        let query = QueryList::all(alloc, channels)?;
        Ok(Subscription {
            name,
            kind: SubKind::BySource,
            query,
            max_items,
            max_bytes,
            heartbeat,
            expires: 3_600_000,
            sources: List::new(alloc),
            version: 1,
        })
    }

    /// A copy, which shares its texts.
    pub fn clone(&self) -> Result<Subscription, AllocError>
        ensures { IfOk result (λ copy. copy ≡ self.now) }
    {
        let alloc = self.name.as_text().alloc();
        Ok(Subscription {
            name: self.name.clone()?,
            kind: self.kind,
            query: self.query.clone(alloc)?,
            max_items: self.max_items,
            max_bytes: self.max_bytes,
            heartbeat: self.heartbeat,
            expires: self.expires,
            sources: copied(alloc, self.sources.as_slice())?,
            version: self.version,
        })
    }
}

fn copied(alloc: Global, sources: &[SourceAt]) -> Result<List<SourceAt>, AllocError>
    ensures { IfOk result (λ copies. copies ≡ sources.now) }
{
    let mut copies = List::with_room(alloc, sources.len())?;
    for source in sources {
        copies.push(source.clone()?)?;
    }
    Ok(copies)
}
