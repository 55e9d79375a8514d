//! The keys of the collector's rows, of the kinds that the register has as the collector's.

ghost use Rattle.std.specs.Prelude.{◌≡◌, [], IfOk};
ghost use Rattle.wef_keeper.specs.Kinds.{number_of};
ghost use Rattle.wef_collector_rows.specs.Keys as keys;

use std::alloc::{AllocError, Global};
use wef_base::{SubId, Text};
use wef_keeper::{Key, RowKind};

/// The key of a subscription.
pub fn subscription_key(sub: &SubId) -> Result<Key, AllocError>
    ensures { IfOk result (λ key. key ≡ keys.subscription_key sub.now) }
{
    let alloc = sub.as_text().alloc();
    Ok(Key {
        kind: RowKind::Subscription.number(),
        sub: sub.as_text().clone()?,
        source: Text::new(alloc),
        channel: Text::new(alloc),
        number: 0,
    })
}

/// The key in front of all subscriptions.
pub fn subscriptions_start(alloc: Global) -> Key
    ensures { result ≡ keys.subscription_key [] }
{
    only_kind(alloc, RowKind::Subscription)
}

/// The key of the boot number.
pub fn boot_key(alloc: Global) -> Key
    ensures { result ≡ keys.boot_key }
{
    only_kind(alloc, RowKind::CollectorBoot)
}

fn only_kind(alloc: Global, kind: RowKind) -> Key
    ensures { result ≡ keys.key (number_of kind) [] [] [] 0 }
{
    Key {
        kind: kind.number(),
        sub: Text::new(alloc),
        source: Text::new(alloc),
        channel: Text::new(alloc),
        number: 0,
    }
}

/// The key of a channel's bookmark.
pub fn bookmark_key(sub: &Text, source: &Text, channel: &Text) -> Result<Key, AllocError>
    ensures { IfOk result (λ key. key ≡ keys.bookmark_key sub.now source.now channel.now) }
{
    channel_key(RowKind::Bookmark, sub, source, channel, 0)
}

/// The key in front of the bookmarks of a source.
pub fn bookmarks_start(sub: &Text, source: &Text) -> Result<Key, AllocError>
    ensures { IfOk result (λ key. key ≡ keys.bookmark_key sub.now source.now []) }
{
    let none = Text::new(sub.alloc());
    bookmark_key(sub, source, &none)
}

/// The key in front of the bookmarks of all sources.
pub fn all_bookmarks_start(sub: &Text) -> Result<Key, AllocError>
    ensures { IfOk result (λ key. key ≡ keys.bookmark_key sub.now [] []) }
{
    let none = Text::new(sub.alloc());
    bookmarks_start(sub, &none)
}

/// The key of a held event, by its number.
pub fn held_key(sub: &Text, source: &Text, channel: &Text, number: u64) -> Result<Key, AllocError>
    ensures { IfOk result (λ key. key ≡ keys.held_key sub.now source.now channel.now number) }
{
    channel_key(RowKind::Held, sub, source, channel, number)
}

/// The key of a mark of dropped records, by its first number.
pub fn mark_key(sub: &Text, source: &Text, channel: &Text, first: u64) -> Result<Key, AllocError>
    ensures { IfOk result (λ key. key ≡ keys.mark_key sub.now source.now channel.now first) }
{
    channel_key(RowKind::Mark, sub, source, channel, first)
}

/// The key of loose records, by the first number of the range that they fell in.
pub fn loose_key(sub: &Text, source: &Text, channel: &Text, first: u64) -> Result<Key, AllocError>
    ensures { IfOk result (λ key. key ≡ keys.loose_key sub.now source.now channel.now first) }
{
    channel_key(RowKind::Loose, sub, source, channel, first)
}

/// The key of the moment at which a source was heard.
pub fn heard_key(sub: &Text, source: &Text) -> Result<Key, AllocError>
    ensures { IfOk result (λ key. key ≡ keys.heard_key sub.now source.now) }
{
    let none = Text::new(sub.alloc());
    channel_key(RowKind::Heard, sub, source, &none, 0)
}

/// The key in front of the moments at which sources were heard.
pub fn all_heard_start(sub: &Text) -> Result<Key, AllocError>
    ensures { IfOk result (λ key. key ≡ keys.heard_key sub.now []) }
{
    let none = Text::new(sub.alloc());
    heard_key(sub, &none)
}

/// The key of how long a source goes on sending that was asked for its events.
pub fn lease_key(sub: &Text, source: &Text) -> Result<Key, AllocError>
    ensures { IfOk result (λ key. key ≡ keys.lease_key sub.now source.now) }
{
    let none = Text::new(sub.alloc());
    channel_key(RowKind::Lease, sub, source, &none, 0)
}

/// The key in front of all of these.
pub fn leases_start(alloc: Global) -> Key
    ensures { result ≡ keys.lease_key [] [] }
{
    only_kind(alloc, RowKind::Lease)
}

fn channel_key(
    kind: RowKind,
    sub: &Text,
    source: &Text,
    channel: &Text,
    number: u64,
) -> Result<Key, AllocError>
    ensures { IfOk result (λ key. key ≡ keys.key (number_of kind) sub.now source.now channel.now number) }
{
    Ok(Key {
        kind: kind.number(),
        sub: sub.clone()?,
        source: source.clone()?,
        channel: channel.clone()?,
        number,
    })
}
