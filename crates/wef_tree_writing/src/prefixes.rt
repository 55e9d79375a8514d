//! The prefixes of elements and attributes, and the bindings that an element makes for its attributes.

ghost use Rattle.std.specs.Prelude.{◌≡◌, ◌+◌, [], ◌∷◌, ◌++◌, length, IfOk, OnOk};
ghost use Rattle.std.specs.Option.{option_copied, option_to_list};
ghost use Rattle.wef_xml.specs.Prefixes.{attribute_prefix, bindings_from, element_prefix, needs_prefix, new_bindings, new_spaces, next_free, numbered_prefix, outer_prefixes, prefix_of, with_space};
ghost use Rattle.wef_tree_writing.specs.Apart.{AreToldIn, IsNewTold, IsToldIn};
ghost use Rattle.wef_tree_writing.specs.Levels.{all_of};

use crate::bindings::Bindings;
use crate::soap::RootPrefixes;
use crate::space_sets::SpaceSet;
use crate::text_sets::TextSet;
use std::alloc::{AllocError, Global};
use wef_base::{Attribute, List, Namespace, Text};
use wef_xml::Binding;
use wef_xml::spaces::is_xml_space;

/// The prefix of an element, if it has one.
pub fn element_prefix<'a>(root: &'a RootPrefixes, space: &Namespace) -> Option<&'a str>
    ensures { option_copied result ≡ element_prefix root.now space.now }
{
    if is_xml_space(space.as_text()) {
        return Some("xml");
    }
    match root.prefix_of(space) {
        Some(prefix) => Some(prefix.as_str()),
        None => None,
    }
}

/// The prefix of an attribute, if it has one; `told`: its namespace and those that are bound are told
/// apart by their digests.
pub fn attribute_prefix<'a>(told: bool, bound: &'a Bindings, space: &Namespace) -> Option<&'a str>
    requires { IsToldIn told bound.now space.now }
    ensures { option_copied result ≡ attribute_prefix (all_of bound.now) space.now }
{
    if space.as_text().is_empty() {
        return None;
    }
    if is_xml_space(space.as_text()) {
        return Some("xml");
    }
    match bound.prefix_of(told, space) {
        Some(prefix) => Some(prefix.as_str()),
        None => None,
    }
}

/// The bindings that an element makes for its attributes; `told`: their namespaces and those that are
/// bound are told apart by their digests.
pub fn new_bindings(
    alloc: Global,
    told: bool,
    bound: &Bindings,
    attributes: &[Attribute],
) -> Result<List<Binding>, AllocError>
    requires { AreToldIn told bound.now attributes.now }
    ensures { IfOk result (λ bindings. bindings ≡ new_bindings (all_of bound.now) attributes.now) }
{
    let spaces = new_spaces(alloc, told, bound, attributes)?;
    if spaces.as_slice().is_empty() {
        return Ok(List::new(alloc));
    }
    let taken = outer_prefixes(alloc, told, bound, attributes)?;
    bindings_from(alloc, &taken, spaces.as_slice())
}

/// The namespaces that need a prefix, each once.
fn new_spaces(
    alloc: Global,
    told: bool,
    bound: &Bindings,
    attributes: &[Attribute],
) -> Result<SpaceSet, AllocError>
    requires { AreToldIn told bound.now attributes.now }
    ensures { IfOk result (λ spaces. spaces ≡ new_spaces (all_of bound.now) [] attributes.now) }
{
    let mut spaces = SpaceSet::new(alloc);
    for attribute in attributes {
        spaces = with_space(told, spaces, bound, &attribute.space)?;
    }
    Ok(spaces)
}

fn with_space(
    told: bool,
    spaces: SpaceSet,
    bound: &Bindings,
    space: &Namespace,
) -> Result<SpaceSet, AllocError>
    requires { IsNewTold told bound.now spaces space.now }
    ensures { IfOk result (λ more. more ≡ with_space (all_of bound.now) spaces space.now) }
{
    if !needs_prefix(told, bound, space) || spaces.contains(told, space) {
        return Ok(spaces);
    }
    spaces.with(space.clone()?)
}

fn needs_prefix(told: bool, bound: &Bindings, space: &Namespace) -> bool
    requires { IsToldIn told bound.now space.now }
    ensures { result ≡ needs_prefix (all_of bound.now) space.now }
{
    !space.as_text().is_empty()
        && !is_xml_space(space.as_text())
        && bound.prefix_of(told, space).is_none()
}

/// The prefixes that attributes take from outside.
fn outer_prefixes(
    alloc: Global,
    told: bool,
    bound: &Bindings,
    attributes: &[Attribute],
) -> Result<TextSet, AllocError>
    requires { AreToldIn told bound.now attributes.now }
    ensures { IfOk result (λ prefixes. prefixes ≡ outer_prefixes (all_of bound.now) attributes.now) }
{
    let mut prefixes = TextSet::new(alloc);
    for attribute in attributes {
        prefixes = with_prefix(told, prefixes, bound, &attribute.space)?;
    }
    Ok(prefixes)
}

fn with_prefix(
    told: bool,
    prefixes: TextSet,
    bound: &Bindings,
    space: &Namespace,
) -> Result<TextSet, AllocError>
    requires { IsToldIn told bound.now space.now }
    ensures { IfOk result (λ more. more ≡ prefixes ++ option_to_list (prefix_of (all_of bound.now) space.now)) }
{
    match bound.prefix_of(told, space) {
        Some(prefix) => prefixes.with(prefix.clone()?),
        None => Ok(prefixes),
    }
}

/// A binding for each namespace, with numbers whose prefixes aren't taken.
fn bindings_from(
    alloc: Global,
    taken: &TextSet,
    spaces: &[Namespace],
) -> Result<List<Binding>, AllocError>
    ensures { IfOk result (λ bindings. bindings ≡ bindings_from taken.now 1 spaces.now) }
{
    let mut bindings = List::new(alloc);
    let mut number = 1;
    for space in spaces {
        let free = next_free(alloc, taken, number)?;
        push_numbered(&mut bindings, alloc, free, space)?;
        number = next_number(free)?;
    }
    Ok(bindings)
}

/// Adds the binding of a namespace to the prefix with this number.
fn push_numbered(
    bindings: &mut List<Binding>,
    alloc: Global,
    number: u64,
    space: &Namespace,
) -> Result<(), AllocError>
    ensures { OnOk result (bindings.new ≡ bindings.old ++ record { prefix = numbered_prefix number; space = space.now } ∷ []) }
{
    bindings.push(Binding {
        prefix: numbered_prefix(alloc, number)?,
        space: space.clone()?,
    })
}

/// The first number from this one on whose prefix isn't taken.
fn next_free(alloc: Global, taken: &TextSet, first: u64) -> Result<u64, AllocError>
    ensures { IfOk result (λ free. free ≡ next_free (length taken.now) taken.now first) }
{
    let mut number = first;
    for _turn in 0..taken.as_slice().len() {
        if !taken.contains(&numbered_prefix(alloc, number)?) {
            return Ok(number);
        }
        number = next_number(number)?;
    }
    Ok(number)
}

/// The number behind another. No memory holds as many prefixes as there are numbers.
fn next_number(number: u64) -> Result<u64, AllocError>
    ensures { IfOk result (λ next. next ≡ number + 1) }
{
    number.checked_add(1).ok_or(AllocError)
}

#[tactic(auto, using(crate::proofs::Digits::printed_digits))]
fn numbered_prefix(alloc: Global, number: u64) -> Result<Text, AllocError>
    ensures { IfOk result (λ prefix. prefix ≡ numbered_prefix number) }
{
    let mut prefix = Text::from_str(alloc, "p")?;
    prefix.push_number(number)?;
    Ok(prefix)
}
