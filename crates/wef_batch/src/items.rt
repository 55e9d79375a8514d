//! What a batch holds.

use wef_base::{ChannelName, List};
use wef_bookmark::Bookmark;
use wef_event::Event;

/// One thing that a batch delivers.
#[derive(Debug, Drop)]
pub enum Item {
    Event(Event),

    /// Records of a channel that are gone, from the first number to the last.
    Dropped {
        channel: ChannelName,
        first: u64,
        last: u64,
    },

    /// How many records are gone whose channel and numbers nobody knows.
    Loose {
        count: u64,
    },
}

/// What a source delivers at once.
#[derive(Debug)]
pub struct Batch {
    pub items: List<Item>,

    /// How far the batch reads each channel, where it says so.
    pub to: Bookmark,

    /// Whether the source wants to hear that the batch is kept.
    pub ack_wanted: bool,
}

/// One call for whoever lets a batch go, whatever it holds.
impl Drop for Batch {
    fn drop(self) {
        match self {
            Batch {
                items: _,
                to: _,
                ack_wanted: _,
            } => {}
        }
    }
}
