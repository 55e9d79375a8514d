//! Values, names and the outside: what every crate of the forwarder speaks of.
#![tactic(auto)]

pub mod characters;
pub mod list;
pub mod memory;
pub mod moments;
pub mod names;
pub mod numbers;
pub mod ports;
pub mod printed;
pub mod standard;
pub mod text;
pub mod tree;
pub mod words;

pub use characters::{is_xml_char, is_xml_text};
pub use list::{Bytes, List};
pub use memory::{MemSink, MemSource};
pub use moments::Moment;
pub use names::{ChannelName, SourceName, SubId, ValueFault};
pub use numbers::read_number;
pub use ports::{IoFailed, Sink, Source};
pub use standard::{StdErr, StdSink, StdSource};
pub use text::Text;
pub use tree::{Attribute, Charset, Element, Namespace, Node};
