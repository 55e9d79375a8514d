//! How the turn of a session ends.

/// How a poll of a session ends, with the deliveries that follow it.
#[derive(Clone, Copy, Debug, PartialEq, Eq)]
pub enum Verdict {
    /// A batch was sent, and its acknowledgement moved the session.
    More,
    /// No batch was sent, or the session wasn't moved by what came of it.
    Enough,
    /// The work on the source ends: it doesn't run, has no id left, or nobody answered.
    Ended,
}
