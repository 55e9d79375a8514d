//! How far a batch reads a channel.

ghost use Rattle.std.specs.Prelude.{◌≡◌, ◌≤◌, IfSome};
ghost use Rattle.wef_batch.specs.Numbers.{AreNumbered, IsNumbered};
ghost use Rattle.wef_batch.specs.Reach.{span_in, later, last_in, reach};

use crate::items::{Batch, Item};
use wef_base::ChannelName;
use wef_base::numbers::MAX;

/// How far a batch reads a channel: to the number that its bookmark has, else to the last number of
/// its items there. None where it has neither.
pub fn reach(batch: &Batch, channel: &ChannelName) -> Option<u64>
    ensures value { result ≡ reach channel.now batch.now }
    ensures bound { AreNumbered batch.now.items → IfSome result (λ n. n ≤ MAX) }
{
    if batch.to.has(channel) {
        return Some(batch.to.at(channel));
    }
    last_in(batch.items.as_slice(), channel)
}

/// The last number of a channel's items. None where no item is of the channel.
pub fn last_in(items: &[Item], channel: &ChannelName) -> Option<u64>
    ensures value { result ≡ last_in channel.now items.now }
    ensures bound { AreNumbered items.now → IfSome result (λ n. n ≤ MAX) }
{
    let mut last = None;
    for item in items {
        last = later(last, span_in(item, channel));
    }
    last
}

/// The first and the last number of an item of a channel. None for another channel's, and for loose
/// ones.
pub fn span_in(item: &Item, channel: &ChannelName) -> Option<(u64, u64)>
    ensures value { result ≡ span_in channel.now item.now }
    ensures bound { IsNumbered item.now → IfSome result (λ span. span.1 ≤ MAX) }
{
    match item {
        Item::Event(event) if event.channel == *channel => Some((event.number, event.number)),
        Item::Dropped {
            channel: dropped,
            first,
            last,
        } if *dropped == *channel => Some((*first, *last)),
        _ => None,
    }
}

/// The last number so far, once an item has come.
pub(crate) fn later(previous: Option<u64>, span: Option<(u64, u64)>) -> Option<u64>
    ensures value { result ≡ later previous span }
    ensures bound { IfSome previous (λ n. n ≤ MAX) → IfSome span (λ span. span.1 ≤ MAX) → IfSome result (λ n. n ≤ MAX) }
{
    match span {
        Some((_, last)) => Some(last),
        None => previous,
    }
}
