//! How the log's rows are read from a store that is ready. Each row that is read is tested.

ghost use Rattle.std.specs.List.{AllByRecursion, list_all};
ghost use Rattle.std.specs.Prelude.{◌≡◌, ◌+◌, ◌<◌, ◌≤◌, ◌++◌, true, take, map, is_some, IfOk, IfSome, OnOk};
ghost use Rattle.wef_event.specs.Events as the_event;
ghost use Rattle.wef_keeper.specs.Access as access;
ghost use Rattle.wef_keeper.specs.Forms.{IsPassedAt};
ghost use Rattle.wef_keeper.specs.Keeping.{row_at};
ghost use Rattle.wef_source_log.specs.Forms as forms;
ghost use Rattle.wef_source_log.specs.Judged as judged;
ghost use Rattle.wef_source_log.specs.Keys as keys;
ghost use Rattle.wef_source_log.specs.LogWindow as windows;

use crate::forms::{LogForm, event_of};
use crate::keys::{boot_key, capacity_key, last_key, record_key};
use std::alloc::{AllocError, Global};
use wef_base::numbers::MAX;
use wef_base::{ChannelName, List};
use wef_event::Event;
use wef_keeper::access::section_page;
use wef_keeper::forms::formed_row;
use wef_keeper::{Depth, Keeper, Key, Row, StoreFault};

/// The number that stands at a key: 0 where none does.
pub fn number_at<K: Keeper>(keeper: &mut K, key: &Key) -> Result<u64, StoreFault>
    requires number { forms.has_number key.now.kind ≡ true }
    requires ready { access.IsReady (K.store keeper.old) }
    ensures number { IfSome (K.store keeper.new).rows (λ rows. IfOk result (λ number. number ≡ windows.number_at rows key.now)) }
    ensures within { IfOk result (λ number. number ≤ MAX) }
    ensures judged { IfSome (K.store keeper.new).rows (λ rows. OnOk result (IsPassedAt forms.is_formed key.now rows)) }
    ensures reads { access.Reads forms.AreFormed (access.fails result) (K.store keeper.old) (K.store keeper.new) }
{
    let Some(row) = formed_row::<LogForm, K>(keeper, key)? else {
        return Ok(0);
    };
    if row.value > MAX {
        return Err(StoreFault::Failed);
    }
    Ok(row.value)
}

/// The last number of a channel: 0 where nothing was written.
pub fn last_of<K: Keeper>(keeper: &mut K, channel: &ChannelName) -> Result<u64, StoreFault>
    requires { access.IsReady (K.store keeper.old) }
    ensures number { IfSome (K.store keeper.new).rows (λ rows. IfOk result (λ number. number ≡ windows.last_of rows channel.now)) }
    ensures within { IfOk result (λ number. number ≤ MAX) }
    ensures judged { IfSome (K.store keeper.new).rows (λ rows. OnOk result (judged.JudgesLast channel.now rows)) }
    ensures reads { access.Reads forms.AreFormed (access.fails result) (K.store keeper.old) (K.store keeper.new) }
{
    let key = last_key(channel)?;
    number_at(keeper, &key)
}

/// How many records of a channel are kept.
pub fn capacity_of<K: Keeper>(keeper: &mut K, channel: &ChannelName) -> Result<u64, StoreFault>
    requires { access.IsReady (K.store keeper.old) }
    ensures number { IfSome (K.store keeper.new).rows (λ rows. IfOk result (λ number. number ≡ windows.capacity_of rows)) }
    ensures within { IfOk result (λ number. number ≤ MAX) }
    ensures judged { IfSome (K.store keeper.new).rows (λ rows. OnOk result (IsPassedAt forms.is_formed keys.capacity_key rows)) }
    ensures reads { access.Reads forms.AreFormed (access.fails result) (K.store keeper.old) (K.store keeper.new) }
{
    let key = capacity_key(channel.as_text().alloc());
    number_at(keeper, &key)
}

/// Whether the capacity is kept.
pub fn has_capacity<K: Keeper>(alloc: Global, keeper: &mut K) -> Result<bool, StoreFault>
    requires { access.IsReady (K.store keeper.old) }
    ensures kept { IfSome (K.store keeper.new).rows (λ rows. IfOk result (λ kept. kept ≡ is_some (row_at keys.capacity_key rows))) }
    ensures judged { IfSome (K.store keeper.new).rows (λ rows. OnOk result (IsPassedAt forms.is_formed keys.capacity_key rows)) }
    ensures reads { access.Reads forms.AreFormed (access.fails result) (K.store keeper.old) (K.store keeper.new) }
{
    let key = capacity_key(alloc);
    is_kept(keeper, &key)
}

/// Whether a row stands at a key.
fn is_kept<K: Keeper>(keeper: &mut K, key: &Key) -> Result<bool, StoreFault>
    requires { access.IsReady (K.store keeper.old) }
    ensures kept { IfSome (K.store keeper.new).rows (λ rows. IfOk result (λ kept. kept ≡ is_some (row_at key.now rows))) }
    ensures judged { IfSome (K.store keeper.new).rows (λ rows. OnOk result (IsPassedAt forms.is_formed key.now rows)) }
    ensures reads { access.Reads forms.AreFormed (access.fails result) (K.store keeper.old) (K.store keeper.new) }
{
    Ok(formed_row::<LogForm, K>(keeper, key)?.is_some())
}

/// How often the source was started.
pub fn boot_of<K: Keeper>(alloc: Global, keeper: &mut K) -> Result<u64, StoreFault>
    requires { access.IsReady (K.store keeper.old) }
    ensures number { IfSome (K.store keeper.new).rows (λ rows. IfOk result (λ number. number ≡ windows.boot_of rows)) }
    ensures within { IfOk result (λ number. number ≤ MAX) }
    ensures judged { IfSome (K.store keeper.new).rows (λ rows. OnOk result (IsPassedAt forms.is_formed keys.boot_key rows)) }
    ensures reads { access.Reads forms.AreFormed (access.fails result) (K.store keeper.old) (K.store keeper.new) }
{
    let key = boot_key(alloc);
    number_at(keeper, &key)
}

/// The first number of a channel's window: 1 where nothing was written.
pub fn first_of<K: Keeper>(keeper: &mut K, channel: &ChannelName) -> Result<u64, StoreFault>
    requires { access.IsReady (K.store keeper.old) }
    ensures number { IfSome (K.store keeper.new).rows (λ rows. IfOk result (λ number. number ≡ windows.first_of rows channel.now)) }
    ensures within { IfOk result (λ number. number ≤ MAX + 1) }
    ensures judged { IfSome (K.store keeper.new).rows (λ rows. OnOk result (judged.JudgesFirst channel.now rows)) }
    ensures reads { access.Reads forms.AreFormed (access.fails result) (K.store keeper.old) (K.store keeper.new) }
{
    let capacity = capacity_of(keeper, channel)?;
    let last = last_of(keeper, channel)?;
    Ok(first_for(capacity, last))
}

/// The first number of the window whose last number is this one.
fn first_for(capacity: u64, last: u64) -> u64
    requires { last ≤ MAX }
    ensures value { result ≡ windows.first_for capacity last }
    ensures within { result ≤ MAX + 1 }
{
    if last < capacity {
        return 1;
    }
    last - capacity + 1
}

/// The first `max` records of a channel above a number, by number.
pub fn page_of<K: Keeper>(
    keeper: &mut K,
    channel: &ChannelName,
    after: u64,
    max: u32,
) -> Result<List<Event>, StoreFault>
    requires max { 1 ≤ max }
    requires ready { access.IsReady (K.store keeper.old) }
    ensures page { IfSome (K.store keeper.new).rows (λ rows. IfOk result (λ page. page ≡ take max (windows.records_after rows channel.now after))) }
    ensures rest { IfSome (K.store keeper.new).rows (λ rows. IfOk result (λ page. windows.records_after rows channel.now after
        ≡ page ++ windows.records_after rows channel.now (windows.last_number after page))) }
    ensures above { IfOk result (AllByRecursion (λ (event : the_event.Event). after < event.number)) }
    ensures judged { IfSome (K.store keeper.new).rows (λ rows. OnOk result (judged.JudgesPage channel.now after max rows)) }
    ensures reads { access.Reads forms.AreFormed (access.fails result) (K.store keeper.old) (K.store keeper.new) }
{
    let rows = {
        let start = record_key(channel, after)?;
        section_page(keeper, &start, Depth::Channel, max)?
    };
    match events_of(channel.as_text().alloc(), rows.as_slice())? {
        Some(events) => Ok(events),
        None => Err(StoreFault::Failed),
    }
}

/// The events of records. None where a row isn't a record.
fn events_of(alloc: Global, rows: &[Row]) -> Result<Option<List<Event>>, AllocError>
    ensures some { IfOk result (λ events. is_some events ≡ list_all forms.is_record rows.now) }
    ensures value { IfOk result (λ events. IfSome events (λ events. events ≡ map (λ row. windows.event_of_row row.key.channel row) rows.now)) }
{
    let mut events = List::new(alloc);
    for row in rows {
        let Some(event) = event_of(row)? else {
            return Ok(None);
        };
        events.push(event)?;
    }
    Ok(Some(events))
}
