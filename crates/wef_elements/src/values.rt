//! What attributes and texts say.

ghost use Rattle.std.specs.Prelude.{◌≡◌, ◌≤◌, option_copied, IfOk, IfSome};
ghost use Rattle.std.specs.Fmt.{decimal};
ghost use Rattle.wef_elements.specs.Values.{has_name, number_said, value_of};

use std::alloc::{AllocError, Global};
use wef_base::numbers::{MAX, read_number};
use wef_base::{Attribute, Namespace, Text, ValueFault};

/// The value of the first attribute of a namespace and a local name.
pub fn value_of<'a>(space: &str, name: &str, attributes: &'a [Attribute]) -> Option<&'a Text>
    ensures { option_copied result ≡ value_of space.now name.now attributes.now }
{
    for attribute in attributes {
        if has_name(space, name, attribute) {
            return Some(&attribute.value);
        }
    }
    None
}

fn has_name(space: &str, name: &str, attribute: &Attribute) -> bool
    ensures { result ≡ has_name space.now name.now attribute.now }
{
    name == attribute.name.as_str() && space == attribute.space.as_text().as_str()
}

/// An attribute that has a value.
pub fn with_value(
    alloc: Global,
    space: Namespace,
    name: &str,
    value: Text,
) -> Result<Attribute, AllocError>
    ensures { IfOk result (λ a. a ≡ record { space = space; name = name.now; value = value }) }
{
    Ok(Attribute {
        space,
        name: Text::from_str(alloc, name)?,
        value,
    })
}

/// The number that a text says, with spaces round it or not. None where it says none from 0 to `MAX`.
#[tactic(auto, unfolding(crate::specs::Values::number_said))]
pub fn number_said(text: &Text) -> Result<Option<u64>, AllocError>
    ensures value { IfOk result (λ found. found ≡ number_said text.now) }
    ensures bound { IfOk result (λ found. IfSome found (λ n. n ≤ MAX)) }
{
    match read_number(text) {
        Ok(number) => Ok(Some(number)),
        Err(ValueFault::NoMemory) => Err(AllocError),
        Err(_) => Ok(None),
    }
}

/// The digits of a number.
pub fn digits(alloc: Global, number: u64) -> Result<Text, AllocError>
    ensures { IfOk result (λ text. text ≡ decimal number) }
{
    let mut text = Text::new(alloc);
    text.push_number(number)?;
    Ok(text)
}
