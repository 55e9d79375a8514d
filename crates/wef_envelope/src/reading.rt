//! Reading envelopes.

ghost use Rattle.std.specs.Prelude.{◌≡◌, ◌||◌, [], ◌∷◌, codes, option_copied, IfOk, if◌then◌else◌};
ghost use Rattle.wef_base.specs.Names.{same};
ghost use Rattle.std.specs.List.{find, list_any};
ghost use Rattle.std.specs.Option.{option_and_then, option_map};
ghost use Rattle.wef_elements.specs.Children.{elements_in};
ghost use Rattle.wef_elements.specs.Texts.{said_in};
ghost use Rattle.wef_envelope.specs.Envelopes.{Says, address_in, comes_again, envelope_of, id_in, is_beyond, is_demand, is_kind, is_part, may_repeat, only, parts_among, parts_of, repeated, said, text_of, unless_repeated, with_required};
ghost use Rattle.wef_ids.specs.IdTexts.{id_of};

use crate::envelopes::{Envelope, EnvelopeFault};
use crate::headers::{Header, first, is_header};
use std::alloc::{AllocError, Global};
use wef_base::{Attribute, Element, Node, Text};
use wef_elements::{
    copy_elements, element_at, element_of, first_called, has_words, is_called, said_in,
};
use wef_ids::{MessageId, read_id};
use wef_xml::messages::{ADDRESSING, SOAP};

/// Reads an envelope. Headers are told by their namespaces and local names, in whatever order. It is
/// refused for the first of these that holds: it isn't an envelope of SOAP; a known header comes
/// again; a header that isn't known must be understood; there is no Action; there is no MessageID.
pub fn from_node(node: &Element) -> Result<Envelope, EnvelopeFault>
    ensures { Says result (said node.now) }
{
    let Some((headers, body)) = parts_of(node) else {
        return Err(EnvelopeFault::NotSoap);
    };
    read_parts(node.name.alloc(), headers, body)
}

/// The id of an envelope that has exactly one header MessageID, also where `from_node` refuses it
/// for another header.
pub fn id_in(node: &Element) -> Result<Option<MessageId>, AllocError>
    ensures { IfOk result (λ id. id ≡ id_in node.now) }
{
    let Some((headers, _)) = parts_of(node) else {
        return Ok(None);
    };
    match only(Header::MessageId, headers) {
        Some(header) => Ok(Some(id_of(header)?)),
        None => Ok(None),
    }
}

/// The children of Header and those of Body.
#[tactic(auto, unfolding(crate::specs::Envelopes::parts_of))]
fn parts_of(node: &Element) -> Option<(&[Node], &[Node])>
    ensures { option_map (λ parts. (elements_in parts.0.now, elements_in parts.1.now)) result ≡ parts_of node.now }
{
    if !is_part("Envelope", node) || has_words(node.children.as_slice()) {
        return None;
    }
    parts_among(node.children.as_slice())
}

fn parts_among(nodes: &[Node]) -> Option<(&[Node], &[Node])>
    ensures { option_map (λ parts. (elements_in parts.0.now, elements_in parts.1.now)) result ≡ parts_among (elements_in nodes.now) }
{
    let Some(one) = element_at(nodes, 0) else {
        return None;
    };
    let Some(two) = element_at(nodes, 1) else {
        return without_header(one);
    };
    if element_at(nodes, 2).is_some() {
        return None;
    }
    with_header(one, two)
}

fn without_header(body: &Element) -> Option<(&[Node], &[Node])>
    ensures { option_map (λ parts. (elements_in parts.0.now, elements_in parts.1.now)) result ≡ parts_among (body.now ∷ []) }
{
    if !is_part("Body", body) {
        return None;
    }
    Some((&[], body.children.as_slice()))
}

fn with_header<'a>(header: &'a Element, body: &'a Element) -> Option<(&'a [Node], &'a [Node])>
    ensures { option_map (λ parts. (elements_in parts.0.now, elements_in parts.1.now)) result ≡ parts_among (header.now ∷ body.now ∷ []) }
{
    if !is_part("Header", header) {
        return None;
    }
    if !is_part("Body", body) {
        return None;
    }
    Some((header.children.as_slice(), body.children.as_slice()))
}

/// Whether an element is this part of SOAP's: Envelope, Header, Body.
#[tactic(auto, unfolding(crate::specs::Spaces::soap))]
pub(crate) fn is_part(name: &str, element: &Element) -> bool
    ensures { result ≡ is_part name.now element.now }
{
    is_called(SOAP, name, element)
}

fn read_parts(alloc: Global, headers: &[Node], body: &[Node]) -> Result<Envelope, EnvelopeFault>
    ensures { Says result (unless_repeated (elements_in headers.now) (elements_in body.now) (repeated (elements_in headers.now))) }
{
    if let Some(header) = repeated(headers) {
        return Err(EnvelopeFault::RepeatedHeader {
            name: header.name.clone()?,
        });
    }
    if let Some(header) = first_beyond(headers) {
        return Err(EnvelopeFault::MustUnderstand {
            name: header.name.clone()?,
        });
    }
    read_headers(alloc, headers, body)
}

fn read_headers(alloc: Global, headers: &[Node], body: &[Node]) -> Result<Envelope, EnvelopeFault>
    ensures { Says result (with_required (elements_in headers.now) (elements_in body.now) (text_of Header.Action (elements_in headers.now)) (text_of Header.MessageId (elements_in headers.now))) }
{
    let Some(action) = first(Header::Action, headers) else {
        return Err(EnvelopeFault::HeaderRequired {
            name: Text::from_str(alloc, "Action")?,
        });
    };
    let Some(id) = first(Header::MessageId, headers) else {
        return Err(EnvelopeFault::HeaderRequired {
            name: Text::from_str(alloc, "MessageID")?,
        });
    };
    Ok(make(alloc, headers, body, action, id)?)
}

fn make(
    alloc: Global,
    headers: &[Node],
    body: &[Node],
    action: &Element,
    id: &Element,
) -> Result<Envelope, AllocError>
    ensures { IfOk result (λ e. e ≡ envelope_of (elements_in headers.now) (elements_in body.now) (said_in action.now) (said_in id.now)) }
{
    Ok(Envelope {
        to: text_of(Header::To, headers)?,
        resource: text_of(Header::Resource, headers)?,
        reply_to: address_of(first(Header::ReplyTo, headers))?,
        action: said_in(action)?,
        id: id_of(id)?,
        relates: relates(headers)?,
        machine: text_of(Header::Machine, headers)?,
        max_size: text_of(Header::MaxSize, headers)?,
        identifier: text_of(Header::Identifier, headers)?,
        bookmark: copy_of(first(Header::Bookmark, headers))?,
        ack_wanted: first(Header::AckRequested, headers).is_some(),
        body: copy_elements(alloc, body)?,
    })
}

/// What the first header of a kind says.
fn text_of(header: Header, headers: &[Node]) -> Result<Option<Text>, AllocError>
    ensures { IfOk result (λ text. text ≡ text_of header (elements_in headers.now)) }
{
    match first(header, headers) {
        Some(element) => Ok(Some(said_in(element)?)),
        None => Ok(None),
    }
}

fn address_of(header: Option<&Element>) -> Result<Option<Text>, AllocError>
    ensures { IfOk result (λ text. text ≡ option_and_then address_in (option_copied header.entry)) }
{
    match header {
        Some(element) => address_in(element),
        None => Ok(None),
    }
}

/// The address that a header holds.
#[tactic(auto, unfolding(crate::specs::Spaces::addressing))]
fn address_in(header: &Element) -> Result<Option<Text>, AllocError>
    ensures { IfOk result (λ text. text ≡ address_in header.now) }
{
    match first_called(ADDRESSING, "Address", header.children.as_slice()) {
        Some(address) => Ok(Some(said_in(address)?)),
        None => Ok(None),
    }
}

fn relates(headers: &[Node]) -> Result<Option<MessageId>, AllocError>
    ensures { IfOk result (λ id. id ≡ option_map id_of (text_of Header.Relates (elements_in headers.now))) }
{
    match first(Header::Relates, headers) {
        Some(header) => Ok(Some(id_of(header)?)),
        None => Ok(None),
    }
}

fn id_of(header: &Element) -> Result<MessageId, AllocError>
    ensures { IfOk result (λ id. id ≡ id_of (said_in header.now)) }
{
    read_id(&said_in(header)?)
}

fn copy_of(element: Option<&Element>) -> Result<Option<Element>, AllocError>
    ensures { IfOk result (λ copy. copy ≡ option_copied element.entry) }
{
    match element {
        Some(element) => Ok(Some(element.clone()?)),
        None => Ok(None),
    }
}

/// The first header that comes again behind itself.
fn repeated(headers: &[Node]) -> Option<&Element>
    ensures { option_copied result ≡ repeated (elements_in headers.now) }
{
    let mut rest = headers;
    while let Some((node, more)) = rest.split_first() {
        rest = more;
        if let Some(element) = element_of(node) {
            if comes_again(Header::of(element), more) {
                return Some(element);
            }
        }
    }
    None
}

/// Whether a header that must stand once comes again among these.
fn comes_again(header: Option<Header>, more: &[Node]) -> bool
    ensures { result ≡ comes_again header (elements_in more.now) }
{
    match header {
        Some(header) => !may_repeat(header) && has_kind(header, more),
        None => false,
    }
}

/// Windows sends several headers of its own namespace.
fn may_repeat(header: Header) -> bool
    ensures { result ≡ may_repeat header }
{
    is_header(Header::Private, Some(header))
}

fn is_kind(header: Header, element: &Element) -> bool
    ensures { result ≡ is_kind header element.now }
{
    is_header(header, Header::of(element))
}

fn has_kind(header: Header, nodes: &[Node]) -> bool
    ensures { result ≡ list_any (is_kind header) (elements_in nodes.now) }
{
    for node in nodes {
        if let Some(element) = element_of(node) {
            if is_kind(header, element) {
                return true;
            }
        }
    }
    false
}

/// The header of a kind, where there is exactly one.
fn only(header: Header, nodes: &[Node]) -> Option<&Element>
    ensures { option_copied result ≡ only header (elements_in nodes.now) }
{
    let mut rest = nodes;
    while let Some((node, more)) = rest.split_first() {
        rest = more;
        if let Some(element) = element_of(node) {
            if is_kind(header, element) {
                return unless_repeated(header, element, more);
            }
        }
    }
    None
}

fn unless_repeated<'a>(header: Header, element: &'a Element, more: &[Node]) -> Option<&'a Element>
    ensures { option_copied result ≡ (if list_any (is_kind header) (elements_in more.now) then None else Some element.now) }
{
    if has_kind(header, more) {
        None
    } else {
        Some(element)
    }
}

/// The first header that isn't known and must be understood.
fn first_beyond(headers: &[Node]) -> Option<&Element>
    ensures { option_copied result ≡ find is_beyond (elements_in headers.now) }
{
    for node in headers {
        if let Some(element) = element_of(node) {
            if is_beyond(element) {
                return Some(element);
            }
        }
    }
    None
}

fn is_beyond(element: &Element) -> bool
    ensures { result ≡ is_beyond element.now }
{
    Header::of(element).is_none() && demands(element.attributes.as_slice())
}

fn demands(attributes: &[Attribute]) -> bool
    ensures { result ≡ list_any is_demand attributes.now }
{
    attributes.iter().any(|attribute| is_demand(attribute))
}

/// Whether an attribute asks that its header be understood.
#[tactic(auto, unfolding(crate::specs::Spaces::soap))]
fn is_demand(attribute: &Attribute) -> bool
    ensures { result ≡ is_demand attribute.now }
{
    SOAP == attribute.space.as_text().as_str()
        && "mustUnderstand" == attribute.name.as_str()
        && is_true(attribute.value.as_str())
}

fn is_true(value: &str) -> bool
    ensures { result ≡ (same (codes "true") value.now || same (codes "1") value.now) }
{
    "true" == value || "1" == value
}
