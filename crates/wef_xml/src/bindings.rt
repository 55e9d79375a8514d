//! Prefixes that stand for namespaces.

use wef_base::{Namespace, Text};

/// A prefix that stands for a namespace.
#[derive(Drop)]
pub struct Binding {
    pub prefix: Text,
    pub space: Namespace,
}
