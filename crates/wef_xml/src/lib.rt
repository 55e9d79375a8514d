//! What reading and writing of XML share: characters of names and of bytes, namespaces, the prefixes and the one text of a
//! tree, and which trees are good.
#![tactic(auto)]

mod bindings;
pub mod decoding;
pub mod digests;
pub mod encoding;
mod faults;
pub mod fronts;
pub mod letters;
pub mod line_ends;
pub mod lookups;
pub mod messages;
pub mod places;
pub mod spaces;
pub mod told;
mod utf16;

pub use bindings::Binding;
pub use faults::TreeFault;
pub use lookups::Lookup;
pub use told::ToldTree;
