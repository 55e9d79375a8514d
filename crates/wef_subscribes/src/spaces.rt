//! The namespaces of what is written.

ghost use Rattle.std.specs.Prelude.{◌≡◌, IfOk};
ghost use Rattle.wef_envelope.specs.Spaces.{addressing, eventing};

use std::alloc::{AllocError, Global};
use wef_base::{Namespace, Text};
use wef_xml::messages::{ADDRESSING, EVENTING};

/// The namespace of WS-Addressing.
#[tactic(auto, unfolding(wef_envelope::specs::Spaces::addressing))]
pub fn addressing(alloc: Global) -> Result<Namespace, AllocError>
    ensures { IfOk result (λ space. space ≡ addressing) }
{
    Namespace::new(Text::from_str(alloc, ADDRESSING)?)
}

/// The namespace of WS-Eventing.
#[tactic(auto, unfolding(wef_envelope::specs::Spaces::eventing))]
pub fn eventing(alloc: Global) -> Result<Namespace, AllocError>
    ensures { IfOk result (λ space. space ≡ eventing) }
{
    Namespace::new(Text::from_str(alloc, EVENTING)?)
}
