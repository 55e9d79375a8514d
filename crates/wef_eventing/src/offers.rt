//! What a subscription says in messages.

use wef_base::Text;
use wef_bookmark::Bookmark;
use wef_query::QueryList;

/// A wish to be sent events. Times are in milliseconds.
#[derive(Debug)]
pub struct Subscribe {
    /// Where the events go.
    pub notify_to: Text,
    /// Where the end is told.
    pub end_to: Option<Text>,
    pub identifier: Option<Text>,
    pub query: QueryList,
    pub max_items: u32,
    pub max_bytes: u32,
    pub heartbeat: u64,
    pub expires: Option<u64>,
    /// How far the events were read.
    pub from: Bookmark,
}

/// One call for whoever lets a subscribe go, whatever it holds.
impl Drop for Subscribe {
    fn drop(self) {
        match self {
            Subscribe {
                notify_to: _,
                end_to: _,
                identifier: _,
                query: _,
                max_items: _,
                max_bytes: _,
                heartbeat: _,
                expires: _,
                from: _,
            } => {}
        }
    }
}

/// A subscription that a collector offers to a source that asks.
#[derive(Debug)]
pub struct Offer {
    pub version: Text,
    pub subscribe: Subscribe,
}

/// One call for whoever lets an offer go, whatever it holds.
impl Drop for Offer {
    fn drop(self) {
        match self {
            Offer {
                version: _,
                subscribe: _,
            } => {}
        }
    }
}
