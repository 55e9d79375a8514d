//! Writing subscription documents.

ghost use Rattle.std.specs.Prelude.{◌≡◌, ◌++◌, ◌∷◌, [], Some, map, IfOk, OnOk};
ghost use Rattle.wef_base.specs.declared.tree.Charset.TheVariants.{Utf8};
ghost use Rattle.wef_documents.specs.Bytes.{document_in};
ghost use Rattle.wef_documents.specs.Laws.{HasKeptNames, HasXmlTexts, IsPlain};
ghost use Rattle.wef_documents.specs.Values.{space};
ghost use Rattle.wef_documents.specs.Written.{batching_element, delivery_element, document_element, document_parts, document_text, heartbeat_element, holder, kind_text, last_parts, leaf, plain, push_element, queries_element, source_element, source_parts};
ghost use Rattle.wef_eventing.specs.declared.subscriptions.SubKind.TheVariants.{ByCollector};
ghost use Rattle.wef_xml.specs.Canonical.{canonical, encoded};
ghost use Rattle.wef_xml.specs.Good.{IsGoodTree};

use crate::children::SPACE;
use crate::names::names_are_kept;
use std::alloc::{AllocError, Global};
use wef_base::{Attribute, Charset, Element, List, Namespace, Text};
use wef_elements::{digits, with_attributes, with_elements, with_text, with_value};
use wef_eventing::{SourceAt, SubKind, Subscription};
use wef_query::{QueryList, write_query};
use wef_times::write_duration;
use wef_tree::write_tree;

/// The document of a subscription: its one text. Only want of memory is refused. Texts must hold
/// characters that XML allows; names do by themselves.
pub fn write_document(alloc: Global, subscription: &Subscription) -> Result<Text, AllocError>
    requires { HasXmlTexts subscription.now }
    ensures value { IfOk result (λ text. text ≡ document_text subscription.now) }
    ensures reads_back { IsPlain subscription.now → IfOk result (λ text. document_in text ≡ Some subscription.now) }
{
    names_are_kept(subscription);
    let text = document_text(alloc, subscription)?;
    Ok(text)
}

#[tactic(auto, unfolding(crate::specs::Written::document_text))]
fn document_text(alloc: Global, subscription: &Subscription) -> Result<Text, AllocError>
    requires names { HasKeptNames subscription.now }
    requires texts { HasXmlTexts subscription.now }
    ensures { IfOk result (λ text. text ≡ document_text subscription.now) }
{
    let root = document_element(alloc, subscription)?;
    text_of(alloc, &root)
}

/// The one text of a tree.
fn text_of(alloc: Global, root: &Element) -> Result<Text, AllocError>
    requires { IsGoodTree root.now }
    ensures { IfOk result (λ text. text ≡ encoded Utf8 (canonical root.now)) }
{
    let Ok(bytes) = write_tree(alloc, root, Charset::Utf8) else {
        return Err(AllocError);
    };
    let Ok(text) = std::str::from_utf8(bytes.as_slice()) else {
        unreachable!()
    };
    Text::from_str(alloc, text)
}

/// The namespace of documents.
#[tactic(auto, unfolding(crate::specs::Values::space))]
fn space(alloc: Global) -> Result<Namespace, AllocError>
    ensures { IfOk result (λ name. name ≡ space) }
{
    Namespace::new(Text::from_str(alloc, SPACE)?)
}

/// An element that has a text.
fn leaf(alloc: Global, name: &str, text: Text) -> Result<Element, AllocError>
    ensures { IfOk result (λ e. e ≡ leaf name.now text) }
{
    with_text(space(alloc)?, name, text)
}

/// An element that has elements.
fn holder(alloc: Global, name: &str, elements: List<Element>) -> Result<Element, AllocError>
    ensures { IfOk result (λ e. e ≡ holder name.now elements) }
{
    with_elements(space(alloc)?, name, elements)
}

/// An element that has one element.
fn single(alloc: Global, name: &str, element: Element) -> Result<Element, AllocError>
    ensures { IfOk result (λ e. e ≡ holder name.now (element ∷ [])) }
{
    let mut elements = List::new(alloc);
    elements.push(element)?;
    holder(alloc, name, elements)
}

/// The one attribute of an element, without a namespace.
fn only(alloc: Global, name: &str, value: Text) -> Result<List<Attribute>, AllocError>
    ensures { IfOk result (λ attributes. attributes ≡ plain name.now value ∷ []) }
{
    let mut attributes = List::new(alloc);
    let bare = Namespace::new(Text::new(alloc))?;
    attributes.push(with_value(alloc, bare, name, value)?)?;
    Ok(attributes)
}

#[tactic(auto, unfolding(crate::specs::Written::document_element))]
fn document_element(alloc: Global, subscription: &Subscription) -> Result<Element, AllocError>
    ensures { IfOk result (λ e. e ≡ document_element subscription.now) }
{
    holder(alloc, "Subscription", document_parts(alloc, subscription)?)
}

fn document_parts(alloc: Global, subscription: &Subscription) -> Result<List<Element>, AllocError>
    ensures { IfOk result (λ parts. parts ≡ document_parts subscription.now) }
{
    let mut parts = List::new(alloc);
    let name = subscription.name.as_text().clone()?;
    parts.push(leaf(alloc, "SubscriptionId", name)?)?;
    let kind = Text::from_str(alloc, kind_text(subscription.kind))?;
    parts.push(leaf(alloc, "SubscriptionType", kind)?)?;
    parts.push(leaf(alloc, "Enabled", Text::from_str(alloc, "true")?)?)?;
    let items = subscription.max_items;
    parts.push(delivery_element(alloc, items, subscription.heartbeat)?)?;
    push_last(alloc, &mut parts, subscription)?;
    Ok(parts)
}

/// Appends what stands behind the delivery.
fn push_last(
    alloc: Global,
    parts: &mut List<Element>,
    subscription: &Subscription,
) -> Result<(), AllocError>
    ensures { OnOk result (parts.new ≡ parts.old ++ last_parts subscription.now) }
{
    let bytes = digits(alloc, u64::from(subscription.max_bytes))?;
    parts.push(leaf(alloc, "MaxEnvelopeSize", bytes)?)?;
    let expires = write_duration(alloc, subscription.expires)?;
    parts.push(leaf(alloc, "Expires", expires)?)?;
    parts.push(queries_element(alloc, &subscription.query)?)?;
    push_sources(
        alloc,
        parts,
        subscription.kind,
        subscription.sources.as_slice(),
    )?;
    parts.push(leaf(alloc, "Version", digits(alloc, subscription.version)?)?)?;
    Ok(())
}

fn kind_text(kind: SubKind) -> &'static str
    ensures { result.now ≡ kind_text kind }
{
    match kind {
        SubKind::BySource => "SourceInitiated",
        SubKind::ByCollector => "CollectorInitiated",
    }
}

fn delivery_element(alloc: Global, items: u32, ms: u64) -> Result<Element, AllocError>
    ensures { IfOk result (λ e. e ≡ delivery_element items ms) }
{
    let mut parts = List::new(alloc);
    parts.push(batching_element(alloc, items)?)?;
    parts.push(push_element(alloc, ms)?)?;
    let mut element = holder(alloc, "Delivery", parts)?;
    element.attributes = only(alloc, "Mode", Text::from_str(alloc, "Push")?)?;
    Ok(element)
}

fn batching_element(alloc: Global, items: u32) -> Result<Element, AllocError>
    ensures { IfOk result (λ e. e ≡ batching_element items) }
{
    let text = digits(alloc, u64::from(items))?;
    single(alloc, "Batching", leaf(alloc, "MaxItems", text)?)
}

fn push_element(alloc: Global, ms: u64) -> Result<Element, AllocError>
    ensures { IfOk result (λ e. e ≡ push_element ms) }
{
    single(alloc, "PushSettings", heartbeat_element(alloc, ms)?)
}

fn heartbeat_element(alloc: Global, ms: u64) -> Result<Element, AllocError>
    ensures { IfOk result (λ e. e ≡ heartbeat_element ms) }
{
    let interval = only(alloc, "Interval", digits(alloc, ms)?)?;
    with_attributes(space(alloc)?, "Heartbeat", interval, Text::new(alloc))
}

fn queries_element(alloc: Global, queries: &QueryList) -> Result<Element, AllocError>
    ensures { IfOk result (λ e. e ≡ queries_element queries.now.items) }
{
    single(alloc, "Query", write_query(alloc, queries)?)
}

/// Appends the sources, where the collector begins.
fn push_sources(
    alloc: Global,
    parts: &mut List<Element>,
    kind: SubKind,
    sources: &[SourceAt],
) -> Result<(), AllocError>
    ensures { OnOk result (parts.new ≡ parts.old ++ source_parts kind sources.now) }
{
    match kind {
        SubKind::BySource => Ok(()),
        SubKind::ByCollector => push_named(alloc, parts, sources),
    }
}

fn push_named(
    alloc: Global,
    parts: &mut List<Element>,
    sources: &[SourceAt],
) -> Result<(), AllocError>
    ensures { OnOk result (parts.new ≡ parts.old ++ source_parts ByCollector sources.now) }
{
    let elements = source_elements(alloc, sources)?;
    parts.push(holder(alloc, "EventSources", elements)?)?;
    Ok(())
}

fn source_elements(alloc: Global, sources: &[SourceAt]) -> Result<List<Element>, AllocError>
    ensures { IfOk result (λ elements. elements ≡ map source_element sources.now) }
{
    let mut elements = List::new(alloc);
    for source in sources {
        elements.push(source_element(alloc, source)?)?;
    }
    Ok(elements)
}

fn source_element(alloc: Global, source: &SourceAt) -> Result<Element, AllocError>
    ensures { IfOk result (λ e. e ≡ source_element source.now) }
{
    let address = leaf(alloc, "Address", source.address.clone()?)?;
    single(alloc, "EventSource", address)
}
