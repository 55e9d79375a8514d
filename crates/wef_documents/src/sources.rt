//! The sources that a collector subscribes at.

ghost use Rattle.std.specs.BTreeSet.{contains};
ghost use Rattle.std.specs.Ordering.{eq_by_cmp};
ghost use Rattle.std.specs.Prelude.{◌≡◌, ℕ, List, [], true, not, option_copied, IfOk, OnOk, if◌then◌else◌};
ghost use Rattle.wef_documents.specs.Names.{HasNamesOf, name_cmp};
ghost use Rattle.wef_documents.specs.Sources.{address_at, some_source, sources_from, sources_in, sources_of, with_address, with_source};
ghost use Rattle.wef_documents.specs.Steps.{Reads, Takes};
ghost use Rattle.wef_elements.specs.Children.{elements_in};

use crate::addresses::source_of;
use crate::children::{child, is_part};
use crate::faults::{DocumentFault, Part};
use std::alloc::{AllocError, Global};
use std::collections::BTreeSet;
use wef_base::{Element, List, Node, SourceName};
use wef_elements::{element_of, said_in};
use wef_eventing::{SourceAt, SubKind};

/// The sources of a subscription of a kind. Where the sources begin it names none.
pub(crate) fn sources_of(
    alloc: Global,
    kind: SubKind,
    root: &Element,
) -> Result<List<SourceAt>, DocumentFault>
    ensures { Reads result (sources_of kind root.now) }
{
    match kind {
        SubKind::BySource => Ok(List::new(alloc)),
        SubKind::ByCollector => sources_in(alloc, root),
    }
}

/// The sources in the element EventSources, of which there must be one.
fn sources_in(alloc: Global, root: &Element) -> Result<List<SourceAt>, DocumentFault>
    ensures { Reads result (sources_in root.now) }
{
    let Some(parent) = child("EventSources", root) else {
        return Err(DocumentFault::BadDocument(Part::Address));
    };
    some_source(sources_among(alloc, parent.children.as_slice())?)
}

fn some_source(sources: List<SourceAt>) -> Result<List<SourceAt>, DocumentFault>
    ensures { Reads result (some_source sources) }
{
    if sources.is_empty() {
        return Err(DocumentFault::BadDocument(Part::Address));
    }
    Ok(sources)
}

/// Keeps the names of those so far in a set, so that it asks about each log N times.
fn sources_among(alloc: Global, nodes: &[Node]) -> Result<List<SourceAt>, DocumentFault>
    ensures { Reads result (sources_from [] (elements_in nodes.now)) }
{
    let mut sources = List::new(alloc);
    let mut names = BTreeSet::new(alloc);
    for node in nodes {
        if let Some(element) = element_of(node) {
            push_address(&mut sources, &mut names, address_at(element))?;
        }
    }
    Ok(sources)
}

/// The element Address of an element EventSource.
fn address_at(element: &Element) -> Option<&Element>
    ensures { option_copied result ≡ address_at element.now }
{
    if !is_part("EventSource", element) {
        return None;
    }
    child("Address", element)
}

/// Appends the source at an address, unless one of its name is there.
fn push_address(
    sources: &mut List<SourceAt>,
    names: &mut BTreeSet<SourceName>,
    address: Option<&Element>,
) -> Result<(), DocumentFault>
    requires { HasNamesOf names.old sources.old }
    ensures takes { Takes result (with_address sources.old (option_copied address.entry)) sources.new }
    ensures names { OnOk result (HasNamesOf names.new sources.new) }
{
    let Some(address) = address else {
        return Ok(());
    };
    let Some(source) = source_of(&said_in(address)?)? else {
        return Err(DocumentFault::BadDocument(Part::Address));
    };
    push_source(sources, names, source)?;
    Ok(())
}

fn push_source(
    sources: &mut List<SourceAt>,
    names: &mut BTreeSet<SourceName>,
    source: SourceAt,
) -> Result<(), AllocError>
    requires { HasNamesOf names.old sources.old }
    ensures value { OnOk result (sources.new ≡ with_source sources.old source) }
    ensures names { OnOk result (HasNamesOf names.new sources.new) }
{
    if !add_name(names, &source.name)? {
        return Ok(());
    }
    sources.push(source)?;
    Ok(())
}

/// Adds a name to others, and says whether it is a new one.
fn add_name(names: &mut BTreeSet<SourceName>, name: &SourceName) -> Result<bool, AllocError>
    ensures is_new { IfOk result (λ is_new. is_new ≡ not (contains name_cmp names.old name.now)) }
    ensures added { OnOk result ((q : List ℕ) → contains name_cmp names.new q ≡ (if eq_by_cmp name_cmp name.now q then true else contains name_cmp names.old q)) }
{
    Ok(names.insert(name.clone()?)?)
}
