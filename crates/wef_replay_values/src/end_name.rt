//! Which end a line is of.

use wef_base::SourceName;

/// One of the two kinds of ends.
#[derive(Debug, Drop)]
pub enum EndName {
    /// The one collector.
    Collector,

    /// A source's end.
    Source(SourceName),
}
