//! The parts of a body, by their names.

ghost use Rattle.std.specs.Prelude.{◌≡◌, find, option_copied};
ghost use Rattle.wef_subscribes.specs.Subscribes.{has_attribute, in_eventing, in_management};
ghost use Rattle.wef_elements.specs.Children.{first_called, is_called};
ghost use Rattle.wef_envelope.specs.Spaces.{addressing, eventing};

use wef_base::Element;
use wef_elements::{first_called, is_called, value_of};
use wef_xml::messages::{ADDRESSING, EVENTING, MANAGEMENT};

/// The first child of WS-Eventing that has this local name.
#[tactic(auto, unfolding(wef_envelope::specs::Spaces::eventing))]
pub fn in_eventing<'a>(name: &str, element: &'a Element) -> Option<&'a Element>
    ensures { option_copied result ≡ in_eventing name.now element.now }
{
    first_called(EVENTING, name, element.children.as_slice())
}

/// The first child of WS-Management that has this local name.
#[tactic(auto, unfolding(wef_elements::specs::Spaces::management))]
pub fn in_management<'a>(name: &str, element: &'a Element) -> Option<&'a Element>
    ensures { option_copied result ≡ in_management name.now element.now }
{
    first_called(MANAGEMENT, name, element.children.as_slice())
}

/// The first child of WS-Addressing that has this local name.
#[tactic(auto, unfolding(wef_envelope::specs::Spaces::addressing))]
pub fn in_addressing<'a>(name: &str, element: &'a Element) -> Option<&'a Element>
    ensures { option_copied result ≡ first_called addressing name.now element.now.children }
{
    first_called(ADDRESSING, name, element.children.as_slice())
}

/// The first of some elements that is of WS-Eventing and has this local name.
#[tactic(auto, unfolding(wef_envelope::specs::Spaces::eventing))]
pub fn eventing_of<'a>(name: &str, elements: &'a [Element]) -> Option<&'a Element>
    ensures { option_copied result ≡ find (is_called eventing name.now) elements.now }
{
    first_of(EVENTING, name, elements)
}

/// The first of some elements that is of this namespace and has this local name.
pub fn first_of<'a>(space: &str, name: &str, elements: &'a [Element]) -> Option<&'a Element>
    ensures { option_copied result ≡ find (is_called space.now name.now) elements.now }
{
    for element in elements {
        if is_called(space, name, element) {
            return Some(element);
        }
    }
    None
}

/// Whether the attribute of this name, without a namespace, says this text.
pub fn has_attribute(name: &str, text: &str, element: &Element) -> bool
    ensures { result ≡ has_attribute name.now text.now element.now }
{
    match value_of("", name, element.attributes.as_slice()) {
        Some(value) => text == value.as_str(),
        None => false,
    }
}
