//! The prefixes that a root in the namespace of SOAP declares.

ghost use Rattle.std.specs.Prelude.{◌≡◌, [], map, None, IfOk, if◌then◌else◌};
ghost use Rattle.std.specs.Option.{option_copied};
ghost use Rattle.wef_xml.specs.Prefixes.{is_soap, nine, prefix_of, root_bindings};

use crate::bindings::prefix_in;
use std::alloc::{AllocError, Global};
use std::marker::Model;
use wef_base::{List, Namespace, Text};
use wef_xml::Binding;
use wef_xml::messages::{
    ADDRESSING, ENUMERATION, EVENTING, MACHINE, MANAGEMENT, PROFILE, SOAP, SUBSCRIPTION, WINDOWS,
};

/// The nine prefixes and their namespaces, in the order in which the root declares them.
const NINE: &[(&str, &str)] = &[
    ("s", SOAP),
    ("a", ADDRESSING),
    ("e", EVENTING),
    ("n", ENUMERATION),
    ("w", MANAGEMENT),
    ("p", WINDOWS),
    ("m", SUBSCRIPTION),
    ("i", MACHINE),
    ("u", PROFILE),
];

/// The prefixes that a root declares for all inside it, the nine or none. Contracts see whether it
/// declares them.
#[derive(Drop)]
pub struct RootPrefixes {
    is_soap: bool,
    bindings: List<Binding>,
}

impl Model for RootPrefixes {
    ghost use Rattle.std.specs.Prelude.{◌≡◌, Bool, [], if◌then◌else◌};
    ghost use Rattle.wef_xml.specs.Prefixes.{nine};

    ghost Value = { Bool };

    ghost view = { λ r. r.is_soap };

    ghost invariant = { λ r. r.bindings ≡ (if r.is_soap then nine else []) };
}

impl RootPrefixes {
    /// The prefixes that a root of this namespace declares.
    pub fn new(alloc: Global, space: &Namespace) -> Result<RootPrefixes, AllocError>
        ensures { IfOk result (λ root. root ≡ is_soap space.now) }
    {
        if is_soap(space) {
            return Ok(RootPrefixes {
                is_soap: true,
                bindings: nine(alloc)?,
            });
        }
        Ok(RootPrefixes {
            is_soap: false,
            bindings: List::new(alloc),
        })
    }

    /// The prefix that is declared for a namespace.
    pub fn prefix_of(&self, space: &Namespace) -> Option<&Text>
        ensures { option_copied result ≡ (if self.now then prefix_of nine space.now else None) }
    {
        if !self.is_soap {
            return None;
        }
        prefix_in(self.bindings.as_slice(), space)
    }
}

/// What a root of this namespace declares besides its own needs.
pub fn root_bindings(alloc: Global, space: &Namespace) -> Result<List<Binding>, AllocError>
    ensures { IfOk result (λ bindings. bindings ≡ root_bindings space.now) }
{
    if is_soap(space) {
        return nine(alloc);
    }
    Ok(List::new(alloc))
}

#[tactic(auto, unfolding(wef_xml::specs::Prefixes::nine, wef_xml::specs::Prefixes::soap_space))]
fn nine(alloc: Global) -> Result<List<Binding>, AllocError>
    ensures { IfOk result (λ bindings. bindings ≡ nine) }
{
    bindings_of(alloc, NINE)
}

/// A binding for each row, of its prefix and its namespace.
fn bindings_of(alloc: Global, rows: &[(&str, &str)]) -> Result<List<Binding>, AllocError>
    ensures { IfOk result (λ bindings. bindings ≡ map (λ row. record { prefix = row.0.now; space = row.1.now }) rows.now) }
{
    let mut bindings = List::new(alloc);
    for (prefix, space) in rows {
        bindings.push(binding(alloc, prefix, space)?)?;
    }
    Ok(bindings)
}

fn binding(alloc: Global, prefix: &str, space: &str) -> Result<Binding, AllocError>
    ensures { IfOk result (λ b. b ≡ record { prefix = prefix.now; space = space.now }) }
{
    Ok(Binding {
        prefix: Text::from_str(alloc, prefix)?,
        space: Namespace::new(Text::from_str(alloc, space)?)?,
    })
}

#[tactic(auto, unfolding(wef_xml::specs::Prefixes::is_soap, wef_xml::specs::Prefixes::soap_space))]
fn is_soap(space: &Namespace) -> bool
    ensures { result ≡ is_soap space.now }
{
    space.as_text().as_str() == SOAP
}
