//! The parts of a document by their names.

ghost use Rattle.std.specs.Option.{option_map};
ghost use Rattle.std.specs.Prelude.{◌≡◌, option_copied, IfOk};
ghost use Rattle.wef_documents.specs.Values.{attribute, child, inside, space};
ghost use Rattle.wef_elements.specs.Children.{is_called};
ghost use Rattle.wef_elements.specs.Texts.{text_inside};

use std::alloc::AllocError;
use wef_base::{Element, Text};
use wef_elements::{first_called, is_called, text_inside, value_of};

/// The namespace of Windows' subscription documents.
pub const SPACE: &str = "http://schemas.microsoft.com/2006/03/windows/events/subscription";

/// The first child of a document's namespace that has this local name.
#[tactic(auto, unfolding(crate::specs::Values::space))]
pub(crate) fn child<'a>(name: &str, element: &'a Element) -> Option<&'a Element>
    ensures { option_copied result ≡ child name.now element.now }
{
    first_called(SPACE, name, element.children.as_slice())
}

/// The same of an element that may be absent.
pub(crate) fn inside<'a>(name: &str, parent: Option<&'a Element>) -> Option<&'a Element>
    ensures { option_copied result ≡ inside name.now (option_copied parent.entry) }
{
    child(name, parent?)
}

/// Whether an element is the one of a document's namespace that has this local name.
#[tactic(auto, unfolding(crate::specs::Values::space))]
pub(crate) fn is_part(name: &str, element: &Element) -> bool
    ensures { result ≡ is_called space name.now element.now }
{
    is_called(SPACE, name, element)
}

/// The value of an attribute without a namespace, of an element that may be absent.
pub(crate) fn attribute<'a>(name: &str, element: Option<&'a Element>) -> Option<&'a Text>
    ensures { option_copied result ≡ attribute name.now (option_copied element.entry) }
{
    value_of("", name, element?.attributes.as_slice())
}

/// The text inside an element that may be absent.
pub(crate) fn text_of(element: Option<&Element>) -> Result<Option<Text>, AllocError>
    ensures { IfOk result (λ text. text ≡ option_map text_inside (option_copied element.entry)) }
{
    match element {
        Some(element) => Ok(Some(text_inside(element)?)),
        None => Ok(None),
    }
}
