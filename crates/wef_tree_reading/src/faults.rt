//! Why a text says no tree.

/// What is wrong with a text, its place aside.
#[derive(Clone, Copy, PartialEq, Eq)]
pub enum FaultKind {
    Xml,
    Deep,
    Refused,
}

/// Why reading a text stopped.
#[derive(Clone, Copy)]
pub enum Stop {
    NoMemory,
    /// What is wrong, and how many characters are left from there on.
    Fault { kind: FaultKind, left: usize },
}
