//! The namespaces of what batches and bookmarks are made of.

ghost use Rattle.std.specs.Prelude.{◌≡◌, option_copied, IfOk};
ghost use Rattle.wef_elements.specs.Children.{is_called};
ghost use Rattle.wef_elements.specs.Spaces.{management, profile};
ghost use Rattle.wef_elements.specs.Values.{value_of};

use crate::children::is_called;
use crate::values::value_of;
use std::alloc::{AllocError, Global};
use wef_base::{Attribute, Element, Namespace, Text};
use wef_xml::messages::{MANAGEMENT, PROFILE};

/// The namespace of WS-Management.
#[tactic(auto, unfolding(crate::specs::Spaces::management))]
pub fn management(alloc: Global) -> Result<Namespace, AllocError>
    ensures { IfOk result (λ space. space ≡ management) }
{
    Namespace::new(Text::from_str(alloc, MANAGEMENT)?)
}

/// The namespace of what this project adds.
#[tactic(auto, unfolding(crate::specs::Spaces::profile))]
pub fn profile(alloc: Global) -> Result<Namespace, AllocError>
    ensures { IfOk result (λ space. space ≡ profile) }
{
    Namespace::new(Text::from_str(alloc, PROFILE)?)
}

/// Whether an element is the one of WS-Management that has this local name.
#[tactic(auto, unfolding(crate::specs::Spaces::management))]
pub fn is_management(name: &str, element: &Element) -> bool
    ensures { result ≡ is_called management name.now element.now }
{
    is_called(MANAGEMENT, name, element)
}

/// The value of the first attribute of this project's that has this local name.
#[tactic(auto, unfolding(crate::specs::Spaces::profile))]
pub fn profile_value<'a>(name: &str, attributes: &'a [Attribute]) -> Option<&'a Text>
    ensures { option_copied result ≡ value_of profile name.now attributes.now }
{
    value_of(PROFILE, name, attributes)
}
