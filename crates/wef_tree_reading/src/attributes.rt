//! The attributes of a tag.

ghost use Rattle.std.specs.BTreeSet.{contains};
ghost use Rattle.std.specs.List.{list_any};
ghost use Rattle.std.specs.Ordering.{eq_by_cmp};
ghost use Rattle.std.specs.Prelude.{◌≡◌, ℕ, [], ◌∷◌, ◌++◌, List, true, not, IfOk, OnOk, if◌then◌else◌};
ghost use Rattle.wef_tree_reading.specs.ExpandedNames.{HasNamesOf, name_cmp};
ghost use Rattle.wef_tree_reading.specs.Reads.{Gives, Takes};
ghost use Rattle.wef_tree_reading.specs.Scopes.{attribute_one, attributes_by, with_attribute};
ghost use Rattle.wef_xml.specs.Spaces.{is_attribute};

use crate::scopes::Declarations;
use crate::spaces::{attribute_space, declared_prefix};
use crate::stack::Stack;
use std::alloc::{AllocError, Global};
use std::collections::BTreeSet;
use std::marker::Model;
use wef_base::{Attribute, List, Text};
use wef_tree_pieces::{Given, Halt, Name};
use wef_xml::digests::Digested;

/// Up to this many attributes, comparing each with all before it is faster than a set of names.
const FEW: usize = 8;

/// An attribute whose namespace has its digest, which contracts see as the attribute alone.
#[derive(Drop)]
struct Resolved {
    space: Digested,
    name: Text,
    value: Text,
}

impl Model for Resolved {
    ghost use Rattle.wef_base.specs.contracts.tree.Attribute as attribute;
    ghost use Rattle.wef_base.specs.declared.tree.Attribute.{Attribute};

    ghost Value = { Attribute };

    ghost coded = { attribute.the_row.coded };

    ghost view = { λ r. record { space = r.space; name = r.name; value = r.value } };
}

impl Resolved {
    fn new(given: Given, space: Digested) -> Resolved
        ensures { result ≡ record { space = space; name = given.name.local; value = given.value } }
    {
        let Given { name, value } = given;
        let Name { prefix: _, local } = name;
        Resolved {
            space,
            name: local,
            value,
        }
    }

    fn into_attribute(self) -> Attribute
        ensures { result ≡ self }
    {
        Attribute {
            space: self.space.into_space(),
            name: self.name,
            value: self.value,
        }
    }
}

/// The attributes of a tag with these declarations, inside these elements; declarations aside. No
/// two may have one namespace and local name.
pub fn attributes_by(
    alloc: Global,
    own: &Declarations,
    around: &Stack,
    given: List<Given>,
) -> Result<List<Attribute>, Halt>
    ensures { Gives result (attributes_by own.now around.now [] given) }
{
    if given.len() > FEW {
        return many_attributes(alloc, own, around, given);
    }
    let mut attributes = List::new(alloc);
    for one in given.into_vec() {
        take_one_of_few(own, around, &mut attributes, one)?;
    }
    Ok(without_digests(alloc, attributes)?)
}

/// Adds an attribute, unless it is a declaration; compares it with all before it.
fn take_one_of_few(
    own: &Declarations,
    around: &Stack,
    attributes: &mut List<Resolved>,
    given: Given,
) -> Result<(), Halt>
    ensures { Takes result (attribute_one own.now around.now attributes.old given) attributes.new }
{
    if declared_prefix(&given.name).is_some() {
        return Ok(());
    }
    let space = attribute_space(own, around, &given.name.prefix)?;
    add_one_of_few(attributes, given, space)
}

fn add_one_of_few(
    attributes: &mut List<Resolved>,
    given: Given,
    space: Digested,
) -> Result<(), Halt>
    ensures { Takes result (with_attribute attributes.old given space) attributes.new }
{
    if has_attribute(attributes.as_slice(), &space, &given.name.local) {
        return Err(Halt::Bad);
    }
    attributes.push(Resolved::new(given, space))?;
    Ok(())
}

/// The same attributes, once they have been told apart.
fn without_digests(alloc: Global, resolved: List<Resolved>) -> Result<List<Attribute>, AllocError>
    ensures { IfOk result (λ attributes. attributes ≡ resolved) }
{
    let mut attributes = List::with_room(alloc, resolved.len())?;
    for one in resolved.into_vec() {
        attributes.push(one.into_attribute())?;
    }
    Ok(attributes)
}

/// Keeps the names of those so far in a set, so that it asks about each name log N times.
fn many_attributes(
    alloc: Global,
    own: &Declarations,
    around: &Stack,
    given: List<Given>,
) -> Result<List<Attribute>, Halt>
    ensures { Gives result (attributes_by own.now around.now [] given) }
{
    let mut attributes = List::new(alloc);
    let mut names = BTreeSet::new(alloc);
    for one in given.into_vec() {
        take_one_of_many(own, around, &mut attributes, &mut names, one)?;
    }
    Ok(attributes)
}

/// Adds an attribute, unless it is a declaration.
fn take_one_of_many(
    own: &Declarations,
    around: &Stack,
    attributes: &mut List<Attribute>,
    names: &mut BTreeSet<(Text, Digested)>,
    given: Given,
) -> Result<(), Halt>
    requires { HasNamesOf names.old attributes.old }
    ensures takes { Takes result (attribute_one own.now around.now attributes.old given) attributes.new }
    ensures names { OnOk result (HasNamesOf names.new attributes.new) }
{
    if declared_prefix(&given.name).is_some() {
        return Ok(());
    }
    let space = attribute_space(own, around, &given.name.prefix)?;
    add_one_of_many(attributes, names, given, space)
}

fn add_one_of_many(
    attributes: &mut List<Attribute>,
    names: &mut BTreeSet<(Text, Digested)>,
    given: Given,
    space: Digested,
) -> Result<(), Halt>
    requires { HasNamesOf names.old attributes.old }
    ensures takes { Takes result (with_attribute attributes.old given space) attributes.new }
    ensures names { OnOk result (HasNamesOf names.new attributes.new) }
{
    if !add_name(names, &space, &given.name.local)? {
        return Err(Halt::Bad);
    }
    push_attribute(attributes, given, space)?;
    Ok(())
}

fn push_attribute(
    attributes: &mut List<Attribute>,
    given: Given,
    space: Digested,
) -> Result<(), AllocError>
    ensures { OnOk result (attributes.new ≡ attributes.old ++ record { space = space; name = given.name.local; value = given.value } ∷ []) }
{
    attributes.push(Resolved::new(given, space).into_attribute())
}

/// Adds an expanded name to others, and says whether it is a new one.
fn add_name(
    names: &mut BTreeSet<(Text, Digested)>,
    space: &Digested,
    name: &Text,
) -> Result<bool, AllocError>
    ensures is_new { IfOk result (λ is_new. is_new ≡ not (contains name_cmp names.old (name.now, space.now))) }
    ensures added { OnOk result ((q : List ℕ × List ℕ) → contains name_cmp names.new q ≡ (if eq_by_cmp name_cmp (name.now, space.now) q then true else contains name_cmp names.old q)) }
{
    Ok(names.insert((name.clone()?, space.clone()?))?)
}

fn has_attribute(attributes: &[Resolved], space: &Digested, name: &Text) -> bool
    ensures { result ≡ list_any (is_attribute space.now name.now) attributes.now }
{
    attributes
        .iter()
        .any(|attribute| is_attribute(attribute, space, name))
}

fn is_attribute(attribute: &Resolved, space: &Digested, name: &Text) -> bool
    ensures { result ≡ is_attribute space.now name.now attribute.now }
{
    *name == attribute.name && *space == attribute.space
}
