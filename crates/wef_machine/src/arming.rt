//! Failures that a schedule arranges.

/// How the next commit of an end fails.
#[derive(Clone, Copy, Debug, PartialEq, Eq)]
pub struct Armed {
    /// Whether its changes are kept all the same.
    pub after: bool,
    /// Whether the end is stopped in it. Otherwise the end goes on, and hears that it failed.
    pub stops: bool,
}

/// How a commit went, or an end's opening.
#[derive(Clone, Copy, Debug, PartialEq, Eq)]
pub enum Fate {
    Done,
    /// It failed, and the end knows.
    Failed,
    /// The end was stopped in it.
    Stopped,
}
