//! The namespaces that a tag declares, and those that its prefixes stand for.

ghost use Rattle.std.specs.FinMap as map;
ghost use Rattle.std.specs.Option.{option_copied};
ghost use Rattle.std.specs.Prelude.{◌≡◌};
ghost use Rattle.wef_tree_reading.specs.Reads.{Gives, Takes};
ghost use Rattle.wef_tree_reading.specs.Scopes.{attribute_space, declare_one, declared_by, declares, in_scope, may_declare, with_declaration};

use crate::scopes::Declarations;
use crate::stack::Stack;
use std::alloc::Global;
use wef_base::{Namespace, Text};
use wef_tree_pieces::{Given, Halt, Name};
use wef_xml::digests::Digested;
use wef_xml::spaces::{is_xml_prefix, is_xml_space, is_xmlns};

/// The declarations that a tag's attributes make. The others are passed over.
pub fn declared_by(alloc: Global, given: &[Given]) -> Result<Declarations, Halt>
    ensures { Gives result (declared_by map.empty given.now) }
{
    let mut own = Declarations::new(alloc);
    for one in given {
        declare_one(&mut own, one)?;
    }
    Ok(own)
}

/// Adds what an attribute declares, if it is a declaration.
fn declare_one(own: &mut Declarations, given: &Given) -> Result<(), Halt>
    ensures { Takes result (declare_one own.old given.now (declares given.now.name)) own.new }
{
    let Some(prefix) = declared_prefix(&given.name) else {
        return Ok(());
    };
    declare(own, prefix, &given.value)
}

/// Declares a prefix, unless that isn't good, or not the first declaration of the prefix in the tag.
fn declare(own: &mut Declarations, prefix: &Text, space: &Text) -> Result<(), Halt>
    ensures { Takes result (with_declaration own.old prefix.now space.now) own.new }
{
    if !may_declare(prefix, space) {
        return Err(Halt::Bad);
    }
    let space = Digested::new(Namespace::new(space.clone()?)?);
    match own.insert(prefix.clone()?, space)? {
        Some(_) => Err(Halt::Bad),
        None => Ok(()),
    }
}

/// The prefix that an attribute of this name declares, where it is a declaration.
pub fn declared_prefix(name: &Name) -> Option<&Text>
    ensures { option_copied result ≡ declares name.now }
{
    if name.prefix.is_empty() {
        if is_xmlns(&name.local) {
            return Some(&name.prefix);
        }
        return None;
    }
    if is_xmlns(&name.prefix) {
        return Some(&name.local);
    }
    None
}

/// Whether a prefix may stand for a namespace.
fn may_declare(prefix: &Text, space: &Text) -> bool
    ensures { result ≡ may_declare prefix.now space.now }
{
    if is_xml_prefix(prefix) {
        return is_xml_space(space);
    }
    !is_xmlns(prefix) && !is_xml_space(space) && (prefix.is_empty() || !space.is_empty())
}

/// The namespace that a prefix stands for in a tag with these declarations, inside these elements.
pub fn in_scope(own: &Declarations, around: &Stack, prefix: &Text) -> Result<Digested, Halt>
    ensures { Gives result (in_scope own.now around.now prefix.now) }
{
    if is_xml_prefix(prefix) {
        return Ok(around.xml_space()?);
    }
    if let Some(space) = own.get(prefix) {
        return Ok(space.clone()?);
    }
    if let Some(space) = around.declared_outside(prefix) {
        return Ok(space.clone()?);
    }
    if !prefix.is_empty() {
        return Err(Halt::Bad);
    }
    Ok(around.no_space()?)
}

/// The namespace of an attribute with this prefix.
pub fn attribute_space(own: &Declarations, around: &Stack, prefix: &Text) -> Result<Digested, Halt>
    ensures { Gives result (attribute_space own.now around.now prefix.now) }
{
    if prefix.is_empty() {
        return Ok(around.no_space()?);
    }
    in_scope(own, around, prefix)
}
