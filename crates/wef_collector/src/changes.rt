//! What taking a batch changes.

ghost use Rattle.std.specs.FinMap as map;
ghost use Rattle.std.specs.Fmt.{decimal};
ghost use Rattle.std.specs.List.{AllByRecursion, flat_map, list_all};
ghost use Rattle.std.specs.Prelude.{◌≡◌, ◌+◌, ◌<◌, ◌≤◌, true, [], ◌∷◌, ◌++◌, IfOk, IfSome, OnOk};
ghost use Rattle.wef_batch.specs.Numbers.{AreNumbered};
ghost use Rattle.wef_batch.specs.Reach as reaches;
ghost use Rattle.wef_batch.specs.WellFormed as formed;
ghost use Rattle.wef_collector.specs.Judged as judged;
ghost use Rattle.wef_collector.specs.Keepable.{IsKeepable};
ghost use Rattle.wef_collector.specs.Taken as spec;
ghost use Rattle.wef_collector_rows.specs.Forms.{AreFormed, is_formed};
ghost use Rattle.wef_collector_rows.specs.Judged.{IsFormedAt};
ghost use Rattle.wef_collector_rows.specs.Keys as keys;
ghost use Rattle.wef_keeper.specs.Access as access;

use std::alloc::AllocError;
use wef_base::moments::Moment;
use wef_base::numbers::MAX;
use wef_base::{ChannelName, SourceName, SubId, Text};
use wef_batch::{Batch, Item, loose_sum, reach};
use wef_collector_rows::CollectorForm;
use wef_collector_rows::bookmarks::bookmark_at;
use wef_collector_rows::keys::{bookmark_key, heard_key, held_key, loose_key, mark_key};
use wef_event::Event;
use wef_keeper::forms::formed_cell;
use wef_keeper::{Changes, Keeper, Key, Row, StoreFault};

/// A channel of a source, as it is collected for a subscription.
#[derive(Clone, Copy)]
struct CollectedChannel<'a> {
    sub: &'a SubId,
    source: &'a SourceName,
    channel: &'a ChannelName,
}

/// All that a batch for these channels changes.
pub fn batch_changes<K: Keeper>(
    keeper: &mut K,
    sub: &SubId,
    source: &SourceName,
    channels: &[ChannelName],
    batch: &Batch,
    now: Moment,
) -> Result<Changes<CollectorForm>, StoreFault>
    requires ready { access.IsReady (K.store keeper.old) }
    requires well { formed.is_well_formed channels.now batch.now ≡ true }
    requires numbered { AreNumbered batch.now.items }
    ensures changes { IfSome (K.store keeper.new).rows (λ rows. IfOk result (λ changes. changes ≡ spec.batch_changes rows sub.now source.now channels.now batch.now now)) }
    ensures judged { IfSome (K.store keeper.new).rows (λ rows. OnOk result (judged.AreReachedFormed rows sub.now source.now batch.now channels.now × IsFormedAt (keys.heard_key sub.now source.now) rows)) }
    ensures reads { access.Reads AreFormed (access.fails result) (K.store keeper.old) (K.store keeper.new) }
{
    let mut changes = Changes::new(sub.as_text().alloc());
    push_all_changes(&mut changes, keeper, sub, source, channels, batch)?;
    push_heard_changes(&mut changes, keeper, sub, source, now)?;
    Ok(changes)
}

/// What it changes that a source was heard at a moment.
pub fn heard_changes<K: Keeper>(
    keeper: &mut K,
    sub: &SubId,
    source: &SourceName,
    now: Moment,
) -> Result<Changes<CollectorForm>, StoreFault>
    requires { access.IsReady (K.store keeper.old) }
    ensures changes { IfSome (K.store keeper.new).rows (λ rows. IfOk result (λ changes. changes ≡ spec.heard_changes rows sub.now source.now now)) }
    ensures judged { IfSome (K.store keeper.new).rows (λ rows. OnOk result (IsFormedAt (keys.heard_key sub.now source.now) rows)) }
    ensures reads { access.Reads AreFormed (access.fails result) (K.store keeper.old) (K.store keeper.new) }
{
    let mut changes = Changes::new(sub.as_text().alloc());
    push_heard_changes(&mut changes, keeper, sub, source, now)?;
    Ok(changes)
}

/// What a batch changes in all of these channels.
fn push_all_changes<K: Keeper>(
    changes: &mut Changes<CollectorForm>,
    keeper: &mut K,
    sub: &SubId,
    source: &SourceName,
    channels: &[ChannelName],
    batch: &Batch,
) -> Result<(), StoreFault>
    requires ready { access.IsReady (K.store keeper.old) }
    requires order { list_all (formed.is_in_order batch.now) channels.now ≡ true }
    requires numbered { AreNumbered batch.now.items }
    requires loose { reaches.loose_sum batch.now.items ≤ MAX }
    ensures changes { IfSome (K.store keeper.new).rows (λ rows. OnOk result (changes.new ≡ changes.old ++ flat_map (spec.channel_changes rows sub.now source.now batch.now) channels.now)) }
    ensures judged { IfSome (K.store keeper.new).rows (λ rows. OnOk result (judged.AreReachedFormed rows sub.now source.now batch.now channels.now)) }
    ensures reads { access.Reads AreFormed (access.fails result) (K.store keeper.old) (K.store keeper.new) }
{
    for channel in channels {
        let of = CollectedChannel {
            sub,
            source,
            channel,
        };
        push_channel_changes(changes, keeper, &of, batch)?;
    }
    Ok(())
}

fn push_channel_changes<K: Keeper>(
    changes: &mut Changes<CollectorForm>,
    keeper: &mut K,
    of: &CollectedChannel,
    batch: &Batch,
) -> Result<(), StoreFault>
    requires ready { access.IsReady (K.store keeper.old) }
    requires order { formed.is_in_order batch.now of.now.channel.now ≡ true }
    requires numbered { AreNumbered batch.now.items }
    requires loose { reaches.loose_sum batch.now.items ≤ MAX }
    ensures changes { IfSome (K.store keeper.new).rows (λ rows. OnOk result (changes.new ≡ changes.old ++ spec.channel_changes rows of.now.sub.now of.now.source.now batch.now of.now.channel.now)) }
    ensures judged { IfSome (K.store keeper.new).rows (λ rows. OnOk result (judged.IsReachedFormed rows of.now.sub.now of.now.source.now batch.now of.now.channel.now)) }
    ensures reads { access.Reads AreFormed (access.fails result) (K.store keeper.old) (K.store keeper.new) }
{
    let Some(to) = reach(batch, of.channel) else {
        return Ok(());
    };
    let bookmark = bookmark_at(keeper, of.sub, of.source, of.channel)?;
    push_reach_changes(changes, of, bookmark, batch, to)?;
    Ok(())
}

/// What a batch that reaches a channel up to a number changes in it.
fn push_reach_changes(
    changes: &mut Changes<CollectorForm>,
    of: &CollectedChannel,
    bookmark: u64,
    batch: &Batch,
    to: u64,
) -> Result<(), AllocError>
    requires order { formed.is_in_order batch.now of.now.channel.now ≡ true }
    requires numbered { AreNumbered batch.now.items }
    requires loose { reaches.loose_sum batch.now.items ≤ MAX }
    requires to { to ≤ MAX }
    ensures { OnOk result (changes.new ≡ changes.old ++ spec.reach_changes of.now.sub.now of.now.source.now of.now.channel.now bookmark batch.now (Some to)) }
{
    push_items_changes(changes, of, bookmark, batch.items.as_slice())?;
    push_move_changes(changes, of, bookmark, to, loose_sum(batch.items.as_slice()))
}

fn push_items_changes(
    changes: &mut Changes<CollectorForm>,
    of: &CollectedChannel,
    bookmark: u64,
    items: &[Item],
) -> Result<(), AllocError>
    requires { AllByRecursion (IsKeepable of.now.channel.now) items.now }
    ensures { OnOk result (changes.new ≡ changes.old ++ flat_map (spec.item_changes of.now.sub.now of.now.source.now of.now.channel.now bookmark) items.now) }
{
    for item in items {
        push_item_changes(changes, of, bookmark, item)?;
    }
    Ok(())
}

fn push_item_changes(
    changes: &mut Changes<CollectorForm>,
    of: &CollectedChannel,
    bookmark: u64,
    item: &Item,
) -> Result<(), AllocError>
    requires { IsKeepable of.now.channel.now item.now }
    ensures { OnOk result (changes.new ≡ changes.old ++ spec.item_changes of.now.sub.now of.now.source.now of.now.channel.now bookmark item.now) }
{
    match item {
        Item::Event(event) if event.channel == *of.channel && bookmark < event.number => {
            push_held_change(changes, of.sub, of.source, event)
        }
        Item::Dropped {
            channel: dropped,
            first,
            last,
        } if *dropped == *of.channel && bookmark < *last => {
            let first = (*first).max(bookmark + 1);
            push_mark_change(changes, of, first, *last)
        }
        _ => Ok(()),
    }
}

fn push_held_change(
    changes: &mut Changes<CollectorForm>,
    sub: &SubId,
    source: &SourceName,
    event: &Event,
) -> Result<(), AllocError>
    requires { 1 ≤ event.now.number }
    ensures { OnOk result (changes.new ≡ changes.old ++ spec.put (keys.held_key sub.now source.now event.now.channel event.now.number) 0 event.now.text ∷ []) }
{
    let key = held_key(
        sub.as_text(),
        source.as_text(),
        event.channel.as_text(),
        event.number,
    )?;
    push_put(changes, key, 0, event.text.clone()?)
}

fn push_mark_change(
    changes: &mut Changes<CollectorForm>,
    of: &CollectedChannel,
    first: u64,
    last: u64,
) -> Result<(), AllocError>
    requires order { first ≤ last }
    requires last { last ≤ MAX }
    ensures { OnOk result (changes.new ≡ changes.old ++ spec.put (keys.mark_key of.now.sub.now of.now.source.now of.now.channel.now first) last [] ∷ []) }
{
    let key = mark_key(
        of.sub.as_text(),
        of.source.as_text(),
        of.channel.as_text(),
        first,
    )?;
    push_put(changes, key, last, Text::new(of.sub.as_text().alloc()))
}

fn push_move_changes(
    changes: &mut Changes<CollectorForm>,
    of: &CollectedChannel,
    bookmark: u64,
    to: u64,
    loose: u128,
) -> Result<(), AllocError>
    requires loose { loose ≤ MAX }
    requires to { to ≤ MAX }
    ensures { OnOk result (changes.new ≡ changes.old ++ spec.move_changes of.now.sub.now of.now.source.now of.now.channel.now bookmark to loose) }
{
    if to <= bookmark {
        return Ok(());
    }
    if loose > 0 {
        push_loose_change(changes, of, bookmark, to, loose as u64)?;
    }
    push_bookmark_change(changes, of, to)
}

fn push_loose_change(
    changes: &mut Changes<CollectorForm>,
    of: &CollectedChannel,
    bookmark: u64,
    to: u64,
    count: u64,
) -> Result<(), AllocError>
    requires above { bookmark < to }
    requires to { to ≤ MAX }
    requires count { count ≤ MAX }
    ensures { OnOk result (changes.new ≡ changes.old ++ spec.put (keys.loose_key of.now.sub.now of.now.source.now of.now.channel.now (bookmark + 1)) to (decimal count) ∷ []) }
{
    let key = loose_key(
        of.sub.as_text(),
        of.source.as_text(),
        of.channel.as_text(),
        bookmark + 1,
    )?;
    let mut digits = Text::new(of.sub.as_text().alloc());
    digits.push_number(count)?;
    push_put(changes, key, to, digits)
}

fn push_bookmark_change(
    changes: &mut Changes<CollectorForm>,
    of: &CollectedChannel,
    to: u64,
) -> Result<(), AllocError>
    requires { to ≤ MAX }
    ensures { OnOk result (changes.new ≡ changes.old ++ spec.put (keys.bookmark_key of.now.sub.now of.now.source.now of.now.channel.now) to [] ∷ []) }
{
    let key = bookmark_key(of.sub.as_text(), of.source.as_text(), of.channel.as_text())?;
    push_put(changes, key, to, Text::new(of.sub.as_text().alloc()))
}

fn push_heard_changes<K: Keeper>(
    changes: &mut Changes<CollectorForm>,
    keeper: &mut K,
    sub: &SubId,
    source: &SourceName,
    now: Moment,
) -> Result<(), StoreFault>
    requires { access.IsReady (K.store keeper.old) }
    ensures changes { IfSome (K.store keeper.new).rows (λ rows. OnOk result (changes.new ≡ changes.old ++ spec.heard_changes rows sub.now source.now now)) }
    ensures judged { IfSome (K.store keeper.new).rows (λ rows. OnOk result (IsFormedAt (keys.heard_key sub.now source.now) rows)) }
    ensures reads { access.Reads AreFormed (access.fails result) (K.store keeper.old) (K.store keeper.new) }
{
    let key = heard_key(sub.as_text(), source.as_text())?;
    if !is_later(keeper, &key, now)? {
        return Ok(());
    }
    Ok(push_heard_change(changes, sub, source, now)?)
}

/// Whether a moment is later than the one that stands at a key, if one does.
fn is_later<K: Keeper>(keeper: &mut K, key: &Key, now: Moment) -> Result<bool, StoreFault>
    requires { access.IsReady (K.store keeper.old) }
    ensures later { IfSome (K.store keeper.new).rows (λ rows. IfOk result (λ later. later ≡ spec.is_later now (map.get rows key.now))) }
    ensures judged { IfSome (K.store keeper.new).rows (λ rows. OnOk result (IsFormedAt key.now rows)) }
    ensures reads { access.Reads AreFormed (access.fails result) (K.store keeper.old) (K.store keeper.new) }
{
    match formed_cell::<CollectorForm, K>(keeper, key)? {
        Some(cell) => Ok(cell.value < now.milliseconds()),
        None => Ok(true),
    }
}

fn push_heard_change(
    changes: &mut Changes<CollectorForm>,
    sub: &SubId,
    source: &SourceName,
    now: Moment,
) -> Result<(), AllocError>
    ensures { OnOk result (changes.new ≡ changes.old ++ spec.put (keys.heard_key sub.now source.now) now [] ∷ []) }
{
    let key = heard_key(sub.as_text(), source.as_text())?;
    push_put(
        changes,
        key,
        now.milliseconds(),
        Text::new(sub.as_text().alloc()),
    )
}

/// Puts a row of its form.
pub fn push_put(
    changes: &mut Changes<CollectorForm>,
    key: Key,
    value: u64,
    body: Text,
) -> Result<(), AllocError>
    requires number { key.number ≤ MAX }
    requires value { value ≤ MAX }
    requires form { is_formed (record { key = key; value = value; body = body }) ≡ true }
    ensures { OnOk result (changes.new ≡ changes.old ++ spec.put key value body ∷ []) }
{
    changes.put(Row { key, value, body })
}
