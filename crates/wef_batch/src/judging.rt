//! When a batch is well-formed.

ghost use Rattle.std.specs.FinMap as map;
ghost use Rattle.std.specs.List.{list_all};
ghost use Rattle.std.specs.Prelude.{◌≡◌};
ghost use Rattle.wef_batch.specs.Reach.{last_in, loose_of, loose_sum};
ghost use Rattle.wef_batch.specs.WellFormed.{is_in, is_listed, is_above, follows, rises, is_at_least, is_in_order, is_well_formed, ItemsAreReached};

use crate::items::{Batch, Item};
use crate::reaching::{last_in, later, span_in};
use wef_base::ChannelName;
use wef_base::numbers::MAX;

/// Whether a batch for a subscription to these channels is well-formed: its items are of these
/// channels, numbers rise in each, its bookmark falls behind none of its items, and what it counts
/// as gone can be kept. It takes no memory.
pub fn judge(batch: &Batch, channels: &[ChannelName]) -> bool
    ensures { result ≡ is_well_formed channels.now batch.now }
{
    let items = batch.items.as_slice();
    are_listed(items, channels)
        && are_in_order(batch, channels)
        && loose_sum(items) <= u128::from(MAX)
}

/// How many records are gone whose channel and numbers nobody knows.
pub fn loose_sum(items: &[Item]) -> u128
    ensures { result ≡ loose_sum items.now }
{
    let mut sum = 0u128;
    for item in items {
        sum += u128::from(loose_of(item));
    }
    sum
}

fn loose_of(item: &Item) -> u64
    ensures { result ≡ loose_of item.now }
{
    match item {
        Item::Loose { count } => *count,
        _ => 0,
    }
}

fn are_listed(items: &[Item], channels: &[ChannelName]) -> bool
    ensures { result ≡ list_all (is_listed channels.now) items.now }
{
    items.iter().all(|item| is_listed(item, channels))
}

fn is_listed(item: &Item, channels: &[ChannelName]) -> bool
    ensures { result ≡ is_listed channels.now item.now }
{
    match item {
        Item::Event(event) => is_in(&event.channel, channels),
        Item::Dropped { channel, .. } => is_in(channel, channels),
        Item::Loose { .. } => true,
    }
}

fn is_in(channel: &ChannelName, channels: &[ChannelName]) -> bool
    ensures { result ≡ is_in channels.now channel.now }
{
    channels.iter().any(|listed| *listed == *channel)
}

fn are_in_order(batch: &Batch, channels: &[ChannelName]) -> bool
    ensures { result ≡ list_all (is_in_order batch.now) channels.now }
{
    channels.iter().all(|channel| is_in_order(batch, channel))
}

fn is_in_order(batch: &Batch, channel: &ChannelName) -> bool
    ensures { result ≡ is_in_order batch.now channel.now }
{
    rises(batch.items.as_slice(), channel) && is_read_to_the_end(batch, channel)
}

/// Whether the batch's bookmark, where it has the channel, is at least at the last number there.
fn is_read_to_the_end(batch: &Batch, channel: &ChannelName) -> bool
    ensures { result ≡ is_at_least (map.get batch.now.to channel.now) (last_in channel.now batch.now.items) }
{
    match last_in(batch.items.as_slice(), channel) {
        Some(last) if batch.to.has(channel) => last <= batch.to.at(channel),
        _ => true,
    }
}

fn rises(items: &[Item], channel: &ChannelName) -> bool
    ensures { result ≡ rises channel.now None items.now }
{
    let mut previous = None;
    for item in items {
        let span = span_in(item, channel);
        if !follows(previous, span) {
            return false;
        }
        previous = later(previous, span);
    }
    true
}

fn follows(previous: Option<u64>, span: Option<(u64, u64)>) -> bool
    ensures { result ≡ follows previous span }
{
    let Some((first, last)) = span else {
        return true;
    };
    is_above(previous, first) && first <= last
}

fn is_above(previous: Option<u64>, number: u64) -> bool
    ensures { result ≡ is_above previous number }
{
    match previous {
        Some(last) => last < number,
        None => true,
    }
}

/// A well-formed batch reads each channel of the subscription at least as far as its items there go.
pub fn items_are_reached()
    ensures { ItemsAreReached }
{}
