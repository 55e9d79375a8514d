//! `events` over as many events as stand in no page, in one and in more.

ghost use Rattle.std.specs.Prelude.{IfOk};
ghost use Rattle.wef_batch.specs.Numbers.{AreNumbered};

use crate::runs::push_run;
use std::alloc::{AllocError, Global};
use tests_collectors::collectors::{Kept, base, collector_of};
use tests_ends::logs::source_name;
use wef_base::numbers::MAX;
use wef_base::{List, Moment, Text};
use wef_batch::{Batch, Item};
use wef_bookmark::Bookmark;
use wef_collector::Collector;
use wef_event::{Event, read_event};
use wef_keeper::MemKeeper;

/// What is printed of so many events.
pub(crate) fn push_events(shown: &mut Text, count: u64) -> Result<(), AllocError> {
    let mut keeper = holding(shown.alloc(), count)?;
    push_run(shown, &mut keeper, "events base pc1 APPLICATION")
}

/// A store that holds so many events of a source.
fn holding(alloc: Global, count: u64) -> Result<MemKeeper, AllocError> {
    let mut collector = collector_of(alloc, Kept::Live)?;
    take(alloc, &mut collector, count)?;
    Ok(collector.into_keeper())
}

/// Takes so many batches of a source, each of one event.
fn take(alloc: Global, collector: &mut Collector<MemKeeper>, count: u64) -> Result<(), AllocError> {
    let sub = base(alloc)?;
    let source = source_name(alloc)?;
    for number in 0..count {
        let batch = batch_of(alloc, event_of(alloc, number.saturating_add(1))?)?;
        let taken = collector.take(&sub, &source, &batch, Moment::first());
        if taken.is_err() {
            return Err(AllocError);
        }
    }
    Ok(())
}

/// A batch of an event, which reads its channel to its number.
fn batch_of(alloc: Global, event: Event) -> Result<Batch, AllocError>
    ensures { IfOk result (λ batch. AreNumbered batch.items) }
{
    let mut to = Bookmark::new(alloc);
    if to.raise(&event.channel, event.number.min(MAX)).is_err() {
        return Err(AllocError);
    }
    let mut items = List::new(alloc);
    items.push(Item::Event(event))?;
    Ok(Batch {
        items,
        to,
        ack_wanted: true,
    })
}

/// The event of a number.
fn event_of(alloc: Global, number: u64) -> Result<Event, AllocError> {
    let mut text = Text::from_str(alloc, "<Event><System><EventRecordID>")?;
    text.push_number(number)?;
    text.push_str("</EventRecordID><Channel>Application</Channel></System></Event>")?;
    match read_event(&text) {
        Ok(event) => Ok(event),
        Err(_) => Err(AllocError),
    }
}
