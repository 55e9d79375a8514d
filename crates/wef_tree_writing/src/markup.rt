//! Tags and attributes as they are written.

ghost use Rattle.std.specs.Prelude.{◌≡◌, ◌++◌, Some, OnOk, codes};
ghost use Rattle.std.specs.List.{flat_map};
ghost use Rattle.std.specs.Option.{option_copied};
ghost use Rattle.wef_xml.specs.Canonical.{assigned, attribute_of, declaration_of, name_of};
ghost use Rattle.wef_xml.specs.Told.{AreTold};
ghost use Rattle.wef_tree_writing.specs.Apart.{AreToldIn, IsToldIn};
ghost use Rattle.wef_tree_writing.specs.Markup.{default_declaration};
ghost use Rattle.wef_tree_writing.specs.Levels.{all_of};

use crate::bindings::Bindings;
use crate::escaping::{push_ascii, push_value};
use crate::pieces::Piece;
use crate::prefixes::attribute_prefix;
use std::alloc::AllocError;
use wef_base::{Attribute, Namespace, Text};
use wef_xml::Binding;
use wef_xml::told::is_same;

/// Appends a name with its prefix, if it has one.
pub fn push_name(out: &mut Piece, prefix: Option<&str>, local: &Text) -> Result<(), AllocError>
    ensures { OnOk result (out.new ≡ out.old ++ name_of (option_copied prefix.entry) local.now) }
{
    match prefix {
        None => out.push_str(local.as_str()),
        Some(prefix) => push_prefixed(out, prefix, local),
    }
}

fn push_prefixed(out: &mut Piece, prefix: &str, local: &Text) -> Result<(), AllocError>
    ensures { OnOk result (out.new ≡ out.old ++ name_of (Some prefix.now) local.now) }
{
    out.push_str(prefix)?;
    out.push(':')?;
    out.push_str(local.as_str())
}

/// Appends the declaration of a default namespace, unless the element has a prefix or this one is in
/// force; `told`: the two are told apart by their digests.
pub fn push_default(
    out: &mut Piece,
    has_prefix: bool,
    told: bool,
    default: &Namespace,
    space: &Namespace,
) -> Result<(), AllocError>
    requires { AreTold told default.now space.now }
    ensures { OnOk result (out.new ≡ out.old ++ default_declaration has_prefix default.now space.now) }
{
    if has_prefix {
        return Ok(());
    }
    if is_same(told, default, space) {
        return Ok(());
    }
    push_default_declaration(out, space)
}

fn push_default_declaration(out: &mut Piece, space: &Namespace) -> Result<(), AllocError>
    ensures { OnOk result (out.new ≡ out.old ++ (codes " xmlns" ++ assigned space.now)) }
{
    push_ascii(out, b" xmlns")?;
    push_assigned(out, space.as_text())
}

/// Appends the declarations of prefixes.
pub fn push_declarations(out: &mut Piece, bindings: &[Binding]) -> Result<(), AllocError>
    ensures { OnOk result (out.new ≡ out.old ++ flat_map declaration_of bindings.now) }
{
    for binding in bindings {
        push_declaration(out, binding)?;
    }
    Ok(())
}

fn push_declaration(out: &mut Piece, binding: &Binding) -> Result<(), AllocError>
    ensures { OnOk result (out.new ≡ out.old ++ declaration_of binding.now) }
{
    push_ascii(out, b" xmlns:")?;
    out.push_str(binding.prefix.as_str())?;
    push_assigned(out, binding.space.as_text())
}

/// Appends attributes, each behind a space; `told`: their namespaces and those that are bound are told
/// apart by their digests.
pub fn push_attributes(
    out: &mut Piece,
    told: bool,
    bound: &Bindings,
    attributes: &[Attribute],
) -> Result<(), AllocError>
    requires { AreToldIn told bound.now attributes.now }
    ensures { OnOk result (out.new ≡ out.old ++ flat_map (attribute_of (all_of bound.now)) attributes.now) }
{
    for attribute in attributes {
        push_attribute(out, told, bound, attribute)?;
    }
    Ok(())
}

fn push_attribute(
    out: &mut Piece,
    told: bool,
    bound: &Bindings,
    attribute: &Attribute,
) -> Result<(), AllocError>
    requires { IsToldIn told bound.now attribute.now.space }
    ensures { OnOk result (out.new ≡ out.old ++ attribute_of (all_of bound.now) attribute.now) }
{
    out.push(' ')?;
    push_name(
        out,
        attribute_prefix(told, bound, &attribute.space),
        &attribute.name,
    )?;
    push_assigned(out, &attribute.value)
}

/// Appends an equals sign and a value in its quotes.
fn push_assigned(out: &mut Piece, value: &Text) -> Result<(), AllocError>
    ensures { OnOk result (out.new ≡ out.old ++ assigned value.now) }
{
    push_ascii(out, b"=\"")?;
    push_value(out, value.as_str())?;
    out.push('"')
}
