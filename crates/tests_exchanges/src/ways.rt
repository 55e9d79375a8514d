//! The tasks that ask a collector.

use crate::requests::{Kind, Place};
use tests_collectors::collectors::Kept;

/// Which requests are made of a line, of which collector, and how its answers are shown.
#[derive(Clone, Copy)]
pub(crate) struct Way {
    pub kept: Kept,
    /// Whether the first commit fails, and whether what it committed is kept then.
    pub fails: Option<bool>,
    /// Whether the source that asks for its subscriptions has delivered a batch before.
    pub behind: bool,
    pub place: Place,
    pub kind: Kind,
    pub shown: Shown,
}

/// What is shown of an answer.
#[derive(Clone, Copy)]
pub(crate) enum Shown {
    /// What its envelope says.
    Said,
    /// The same behind the bytes of the request.
    SaidBehind,
    /// All of it.
    Whole,
    /// Its bytes in hexadecimal, and nothing of what is kept.
    Bytes,
}

/// A delivery of the source `pc1` for the subscription `base`.
pub(crate) const DELIVERED: Way = Way {
    kept: Kept::Live,
    fails: None,
    behind: false,
    place: Place::Base,
    kind: Kind::Delivery,
    shown: Shown::Said,
};

/// A document at its path.
const DOCUMENT: Way = Way {
    kind: Kind::Document,
    shown: Shown::Whole,
    ..DELIVERED
};

/// An Enumerate.
const WISHED: Way = Way {
    place: Place::Manager,
    kind: Kind::Wish,
    ..DELIVERED
};

/// An Enumerate, with all of the answer.
const WISHED_WHOLE: Way = Way {
    shown: Shown::Whole,
    ..WISHED
};

/// What a task asks, where it asks a collector.
pub(crate) fn way_of(task: &str) -> Option<Way> {
    match task {
        // The whole answer to a document.
        "whole" => Some(DOCUMENT),
        // The same for the subscription `none`.
        "unknown" => Some(Way {
            place: Place::None,
            ..DOCUMENT
        }),
        // The delivery of one lost record, and what is said to it.
        "sent" => Some(Way {
            kind: Kind::Lost,
            shown: Shown::SaidBehind,
            ..DELIVERED
        }),
        _ => delivered(task).or(wished(task)),
    }
}

/// The tasks that deliver a batch with edits.
fn delivered(task: &str) -> Option<Way> {
    let way = match task {
        // What is said to requests.
        "edited" => DELIVERED,
        // What is said to them at the path of the subscriptions.
        "manager" => Way {
            place: Place::Manager,
            ..DELIVERED
        },
        // What is said to them at the path of a source.
        "root" => Way {
            place: Place::Root,
            ..DELIVERED
        },
        // What is said to `SUBSCRIPTION; SOURCE; REQUEST`.
        "path" => Way {
            place: Place::Said,
            ..DELIVERED
        },
        // The same, where the subscription `base` has ended.
        "ended" => Way {
            kept: Kept::Ended,
            place: Place::Said,
            ..DELIVERED
        },
        // What is said to requests where the first commit fails, and leaves nothing.
        "failing before" => Way {
            fails: Some(false),
            ..DELIVERED
        },
        // The same, where what it committed is kept.
        "failing after" => Way {
            fails: Some(true),
            ..DELIVERED
        },
        // What is said to `SPELLING: REQUEST`.
        "utf-16" => Way {
            kind: Kind::Spelt,
            ..DELIVERED
        },
        // The bytes of the answer to it.
        "utf-16 bytes" => Way {
            kind: Kind::Spelt,
            shown: Shown::Bytes,
            ..DELIVERED
        },
        _ => return None,
    };
    Some(way)
}

/// The tasks that ask for subscriptions, with edits.
fn wished(task: &str) -> Option<Way> {
    let way = match task {
        // What is said to Enumerates at the path of the subscriptions.
        "enumerate" => WISHED,
        // The same where the source `pc1` delivers for the subscription `base`.
        "enumerate elsewhere" => Way {
            place: Place::Base,
            ..WISHED
        },
        // The whole answer.
        "enumerate whole" => WISHED_WHOLE,
        // The same in UTF-16, decoded.
        "enumerate utf-16" => Way {
            kind: Kind::WideWish,
            ..WISHED_WHOLE
        },
        // The whole answer where the subscription `base` has ended.
        "enumerate ended" => Way {
            kept: Kept::Ended,
            ..WISHED_WHOLE
        },
        // The same where there are two subscriptions.
        "enumerate two" => Way {
            kept: Kept::Two,
            ..WISHED_WHOLE
        },
        // The same behind a batch of the source that asks.
        "enumerate behind" => Way {
            behind: true,
            ..WISHED_WHOLE
        },
        _ => return None,
    };
    Some(way)
}
