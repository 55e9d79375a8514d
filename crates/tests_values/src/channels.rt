//! Channels by their names.

use std::alloc::Global;
use wef_base::{ChannelName, List, Text, ValueFault};

/// The channel of a word.
pub(crate) fn channel(alloc: Global, word: &str) -> Result<ChannelName, ValueFault> {
    ChannelName::read(&Text::from_str(alloc, word)?)
}

/// The channels a, b and c.
pub(crate) fn letters(alloc: Global) -> Result<List<ChannelName>, ValueFault> {
    let mut names = List::new(alloc);
    for word in ["a", "b", "c"] {
        names.push(channel(alloc, word)?)?;
    }
    Ok(names)
}
