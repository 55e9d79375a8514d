//! Namespaces in scope.

use wef_xml::Lookup;
use wef_xml::digests::Digested;

/// The namespaces that a tag declares, by their prefixes. The empty prefix stands for the default
/// namespace.
pub type Declarations = Lookup<Digested>;
