//! The parts of a body, by their names.

ghost use Rattle.std.specs.Prelude.{◌≡◌, find, option_copied};
ghost use Rattle.wef_bodies.specs.Offers.{is_offer};
ghost use Rattle.wef_elements.specs.Children.{is_called};
ghost use Rattle.wef_envelope.specs.Spaces.{enumeration};

use wef_base::Element;
use wef_elements::is_called;
use wef_subscribes::children::first_of;
use wef_xml::messages::{ENUMERATION, SUBSCRIPTION};

/// Whether an element is an offer.
#[tactic(auto, unfolding(wef_envelope::specs::Spaces::subscription))]
pub(crate) fn is_offer(element: &Element) -> bool
    ensures { result ≡ is_offer element.now }
{
    is_called(SUBSCRIPTION, "Subscription", element)
}

/// The first of some elements that is of WS-Enumeration and has this local name.
#[tactic(auto, unfolding(wef_envelope::specs::Spaces::enumeration))]
pub(crate) fn enumeration_of<'a>(name: &str, elements: &'a [Element]) -> Option<&'a Element>
    ensures { option_copied result ≡ find (is_called enumeration name.now) elements.now }
{
    first_of(ENUMERATION, name, elements)
}
