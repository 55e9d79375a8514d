//! The keys of the log's rows, of the kinds that the register has as a source's.

ghost use Rattle.std.specs.Prelude.{◌≡◌, IfOk};
ghost use Rattle.wef_keeper.specs.Kinds.{number_of};
ghost use Rattle.wef_source_log.specs.Keys as keys;

use std::alloc::{AllocError, Global};
use wef_base::{ChannelName, Text};
use wef_keeper::{Key, RowKind};

/// The key of a record, by its number.
pub fn record_key(channel: &ChannelName, number: u64) -> Result<Key, AllocError>
    ensures { IfOk result (λ key. key ≡ keys.record_key channel.now number) }
{
    Ok(key(RowKind::Record, channel.as_text().clone()?, number))
}

/// The key of a channel's last number.
pub fn last_key(channel: &ChannelName) -> Result<Key, AllocError>
    ensures { IfOk result (λ key. key ≡ keys.last_key channel.now) }
{
    Ok(key(RowKind::LastNumber, channel.as_text().clone()?, 0))
}

/// The key of the capacity. It takes no memory.
pub fn capacity_key(alloc: Global) -> Key
    ensures { result ≡ keys.capacity_key }
{
    key(RowKind::Capacity, Text::new(alloc), 0)
}

/// The key of the boot number. It takes no memory.
pub fn boot_key(alloc: Global) -> Key
    ensures { result ≡ keys.boot_key }
{
    key(RowKind::SourceBoot, Text::new(alloc), 0)
}

/// A key of a channel, or of none.
fn key(kind: RowKind, channel: Text, number: u64) -> Key
    ensures { result ≡ keys.key (number_of kind) channel number }
{
    let alloc = channel.alloc();
    Key {
        kind: kind.number(),
        sub: Text::new(alloc),
        source: Text::new(alloc),
        channel,
        number,
    }
}
