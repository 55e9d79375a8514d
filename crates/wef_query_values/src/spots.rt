//! Places in an event's tree.

use wef_base::{Element, Text};

/// A place in an event's tree, as the nodes that a query speaks of (XPath 1.0, 5).
#[derive(Clone, Copy)]
pub enum Spot<'a> {
    /// The document around a root.
    Whole(&'a Element),
    /// An element.
    Part(&'a Element),
    /// An attribute, by its value.
    Field(&'a Text),
}
