//! Namespaces and prefixes of XML itself.

ghost use Rattle.std.specs.Prelude.{◌≡◌, [], IfOk};
ghost use Rattle.wef_xml.specs.Spaces.{is_xml_prefix, is_xml_space, is_xmlns, xml_space};

use std::alloc::{AllocError, Global};
use wef_base::{Namespace, Text};

/// The namespace of the prefix `xml`, which nobody has to declare.
const XML_SPACE: &str = "http://www.w3.org/XML/1998/namespace";

/// What stands for no namespace.
pub fn no_space(alloc: Global) -> Result<Namespace, AllocError>
    ensures { IfOk result (λ n. n ≡ []) }
{
    Namespace::new(Text::new(alloc))
}

/// The namespace of the prefix `xml`.
#[tactic(auto, unfolding(crate::specs::Spaces::xml_space))]
pub fn xml_space(alloc: Global) -> Result<Namespace, AllocError>
    ensures { IfOk result (λ n. n ≡ xml_space) }
{
    Namespace::new(Text::from_str(alloc, XML_SPACE)?)
}

/// Whether a namespace is that of the prefix `xml`.
#[tactic(auto, unfolding(crate::specs::Spaces::xml_space, crate::specs::Spaces::is_xml_space))]
pub fn is_xml_space(space: &Text) -> bool
    ensures { result ≡ is_xml_space space.now }
{
    space.as_str() == XML_SPACE
}

/// Whether a prefix is `xml`, which no document needs to declare.
#[tactic(auto, unfolding(crate::specs::Spaces::is_xml_prefix))]
pub fn is_xml_prefix(word: &Text) -> bool
    ensures { result ≡ is_xml_prefix word.now }
{
    word.as_str() == "xml"
}

/// Whether a word is `xmlns`.
#[tactic(auto, unfolding(crate::specs::Spaces::is_xmlns))]
pub fn is_xmlns(word: &Text) -> bool
    ensures { result ≡ is_xmlns word.now }
{
    word.as_str() == "xmlns"
}
