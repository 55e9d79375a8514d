//! The events that are held.

ghost use Rattle.std.specs.List.{list_all};
ghost use Rattle.std.specs.Prelude.{◌≡◌, ◌<◌, ◌≤◌, [], ◌∷◌, ◌++◌, true, false, length, map, take, IfOk, IfSome, OnOk};
ghost use Rattle.wef_collector_rows.specs.Forms.{AreFormed, is_held_row};
ghost use Rattle.wef_collector_rows.specs.Held as spec;
ghost use Rattle.wef_collector_rows.specs.Judged.{AreAllFormed};
ghost use Rattle.wef_collector_rows.specs.Keys as keys;
ghost use Rattle.wef_keeper.specs.Access as access;

use std::alloc::{AllocError, Global};
use wef_base::{ChannelName, List, SourceName, SubId};
use wef_collector_rows::forms::held_event;
use wef_collector_rows::keys::held_key;
use wef_event::Event;
use wef_keeper::access::section_page;
use wef_keeper::{Depth, Keeper, Key, Row, StoreFault};

/// The first `max` events that are held of a source's channel above a number. The rest are those
/// above the page's last number.
pub fn held_page<K: Keeper>(
    keeper: &mut K,
    sub: &SubId,
    source: &SourceName,
    channel: &ChannelName,
    after: u64,
    max: u32,
) -> Result<List<Event>, StoreFault>
    requires max { 1 ≤ max }
    requires ready { access.IsReady (K.store keeper.old) }
    ensures page { IfSome (K.store keeper.new).rows (λ rows. IfOk result (λ page. page ≡ take max (spec.held_after rows sub.now source.now channel.now after))) }
    ensures rest { IfSome (K.store keeper.new).rows (λ rows. IfOk result (λ page. spec.held_after rows sub.now source.now channel.now after
        ≡ page ++ spec.held_after rows sub.now source.now channel.now (spec.last_number after page))) }
    ensures rest_of_rows { IfSome (K.store keeper.new).rows (λ rows. IfOk result (λ page. spec.held_rows rows sub.now source.now channel.now after
        ≡ take max (spec.held_rows rows sub.now source.now channel.now after) ++ spec.held_rows rows sub.now source.now channel.now (spec.last_number after page))) }
    ensures rises { IfOk result (λ page. 0 < length page → after < spec.last_number after page) }
    ensures judged { IfSome (K.store keeper.new).rows (λ rows. OnOk result (AreAllFormed (take max (spec.held_rows rows sub.now source.now channel.now after)))) }
    ensures reads { access.Reads AreFormed (access.fails result) (K.store keeper.old) (K.store keeper.new) }
{
    let start = held_start(sub, source, channel, after)?;
    let page = section_page(keeper, &start, Depth::Channel, max)?;
    events_of(channel.as_text().alloc(), page.as_slice())
}

/// The number of a page's last event, and the one that it was read behind where it has no event.
pub fn last_number_of(after: u64, page: &[Event]) -> u64
    ensures { result ≡ spec.last_number after page.now }
{
    match page.split_last() {
        Some((event, _)) => event.number,
        None => after,
    }
}

/// The key of the event of a number, behind which a page begins.
fn held_start(
    sub: &SubId,
    source: &SourceName,
    channel: &ChannelName,
    after: u64,
) -> Result<Key, AllocError>
    ensures { IfOk result (λ start. start ≡ keys.held_key sub.now source.now channel.now after) }
{
    held_key(sub.as_text(), source.as_text(), channel.as_text(), after)
}

/// The events of held rows. It fails where a row isn't of its form.
fn events_of(alloc: Global, rows: &[Row]) -> Result<List<Event>, StoreFault>
    ensures value { IfOk result (λ events. events ≡ map spec.own_event rows.now) }
    ensures formed { OnOk result (list_all is_held_row rows.now ≡ true) }
    ensures failed { access.fails result ≡ true → list_all is_held_row rows.now ≡ false }
{
    let mut events = List::new(alloc);
    for row in rows {
        push_event(&mut events, row)?;
    }
    Ok(events)
}

fn push_event(events: &mut List<Event>, row: &Row) -> Result<(), StoreFault>
    ensures value { OnOk result (events.new ≡ events.old ++ spec.own_event row.now ∷ []) }
    ensures formed { OnOk result (is_held_row row.now ≡ true) }
    ensures failed { access.fails result ≡ true → is_held_row row.now ≡ false }
{
    match held_event(row)? {
        Some(event) => Ok(events.push(event)?),
        None => Err(StoreFault::Failed),
    }
}
