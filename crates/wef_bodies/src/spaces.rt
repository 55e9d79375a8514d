//! The namespaces of what is written.

ghost use Rattle.std.specs.Prelude.{◌≡◌, IfOk};
ghost use Rattle.wef_envelope.specs.Spaces.{enumeration};

use std::alloc::{AllocError, Global};
use wef_base::{Namespace, Text};
use wef_xml::messages::ENUMERATION;

/// The namespace of WS-Enumeration.
#[tactic(auto, unfolding(wef_envelope::specs::Spaces::enumeration))]
pub(crate) fn enumeration(alloc: Global) -> Result<Namespace, AllocError>
    ensures { IfOk result (λ space. space ≡ enumeration) }
{
    Namespace::new(Text::from_str(alloc, ENUMERATION)?)
}
