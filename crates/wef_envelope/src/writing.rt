//! Writing envelopes.

ghost use Rattle.std.specs.Prelude.{◌≡◌, ◌++◌, ◌∷◌, [], take, drop, Some, option_copied, IfOk, OnOk};
ghost use Rattle.std.specs.Option.{option_map, option_to_list};
ghost use Rattle.wef_envelope.specs.Written.{address_header, empty_header, part, places, standing, text_header, written};

use crate::envelopes::Envelope;
use crate::headers::Header;
use std::alloc::{AllocError, Global};
use wef_base::{Element, List, Namespace, Text};
use wef_elements::{with_elements, with_text};
use wef_xml::messages::{ADDRESSING, SOAP};

/// The tree of an envelope. The headers that are there stand in one order, and no header has
/// attributes of its own.
#[tactic(auto, unfolding(crate::specs::Written::written))]
pub fn to_node(envelope: &Envelope) -> Result<Element, AllocError>
    ensures { IfOk result (λ node. node ≡ written envelope.now) }
{
    let alloc = envelope.action.alloc();
    let header = part(alloc, "Header", headers(alloc, envelope)?)?;
    let body = part(alloc, "Body", copy_list(alloc, &envelope.body)?)?;
    part(alloc, "Envelope", two(alloc, header, body)?)
}

fn two(alloc: Global, one: Element, other: Element) -> Result<List<Element>, AllocError>
    ensures { IfOk result (λ elements. elements ≡ one ∷ other ∷ []) }
{
    let mut elements = List::new(alloc);
    elements.push(one)?;
    elements.push(other)?;
    Ok(elements)
}

/// Copies of elements, which share their texts.
fn copy_list(alloc: Global, elements: &List<Element>) -> Result<List<Element>, AllocError>
    ensures { IfOk result (λ copies. copies ≡ elements.now) }
{
    let mut copies = List::new(alloc);
    for element in elements.as_slice() {
        copies.push(element.clone()?)?;
    }
    Ok(copies)
}

/// An element of SOAP that holds elements.
#[tactic(auto, unfolding(crate::specs::Spaces::soap))]
pub(crate) fn part(
    alloc: Global,
    name: &str,
    elements: List<Element>,
) -> Result<Element, AllocError>
    ensures { IfOk result (λ e. e ≡ part name.now elements) }
{
    with_elements(space(alloc, SOAP)?, name, elements)
}

/// The namespace of this name.
pub(crate) fn space(alloc: Global, name: &str) -> Result<Namespace, AllocError>
    ensures { IfOk result (λ space. space ≡ name.now) }
{
    Namespace::new(Text::from_str(alloc, name)?)
}

/// The headers that are there.
fn headers(alloc: Global, envelope: &Envelope) -> Result<List<Element>, AllocError>
    ensures { IfOk result (λ headers. headers ≡ standing (places envelope.now)) }
{
    let mut headers = List::new(alloc);
    push_route(&mut headers, envelope)?;
    push_names(&mut headers, envelope)?;
    push_wishes(alloc, &mut headers, envelope)?;
    Ok(headers)
}

/// Appends the headers that say where a message goes, and what it is.
fn push_route(headers: &mut List<Element>, envelope: &Envelope) -> Result<(), AllocError>
    ensures { OnOk result (headers.new ≡ headers.old ++ standing (take 4 (places envelope.now))) }
{
    push_text(headers, Header::To, envelope.to.as_ref())?;
    push_text(headers, Header::Resource, envelope.resource.as_ref())?;
    push_address(headers, Header::ReplyTo, envelope.reply_to.as_ref())?;
    push_text(headers, Header::Action, Some(&envelope.action))
}

/// Appends the headers that name a message, the one that it answers, and its sender.
fn push_names(headers: &mut List<Element>, envelope: &Envelope) -> Result<(), AllocError>
    ensures { OnOk result (headers.new ≡ headers.old ++ standing (take 3 (drop 4 (places envelope.now)))) }
{
    push_text(headers, Header::MessageId, Some(&envelope.id.text))?;
    push_relates(headers, envelope)?;
    push_text(headers, Header::Machine, envelope.machine.as_ref())
}

/// Appends the headers that say what the sender wants, and of which subscription.
fn push_wishes(
    alloc: Global,
    headers: &mut List<Element>,
    envelope: &Envelope,
) -> Result<(), AllocError>
    ensures { OnOk result (headers.new ≡ headers.old ++ standing (drop 7 (places envelope.now))) }
{
    push_text(headers, Header::MaxSize, envelope.max_size.as_ref())?;
    push_text(headers, Header::Identifier, envelope.identifier.as_ref())?;
    push_copy(headers, envelope.bookmark.as_ref())?;
    push_empty(alloc, headers, Header::AckRequested, envelope.ack_wanted)
}

/// Appends a header that says a text, where there is one.
fn push_text(
    headers: &mut List<Element>,
    header: Header,
    text: Option<&Text>,
) -> Result<(), AllocError>
    ensures { OnOk result (headers.new ≡ headers.old ++ option_to_list (option_map (text_header header) (option_copied text.entry))) }
{
    if let Some(text) = text {
        headers.push(text_header(text.alloc(), header, text)?)?;
    }
    Ok(())
}

fn text_header(alloc: Global, header: Header, text: &Text) -> Result<Element, AllocError>
    ensures { IfOk result (λ e. e ≡ text_header header text.now) }
{
    let space = space(alloc, header.space())?;
    with_text(space, header.name(), text.clone()?)
}

/// Appends a header that holds an address, where there is one.
fn push_address(
    headers: &mut List<Element>,
    header: Header,
    text: Option<&Text>,
) -> Result<(), AllocError>
    ensures { OnOk result (headers.new ≡ headers.old ++ option_to_list (option_map (address_header header) (option_copied text.entry))) }
{
    if let Some(text) = text {
        headers.push(address_header(text.alloc(), header, text)?)?;
    }
    Ok(())
}

#[tactic(auto, unfolding(crate::specs::Spaces::addressing))]
fn address_header(alloc: Global, header: Header, text: &Text) -> Result<Element, AllocError>
    ensures { IfOk result (λ e. e ≡ address_header header text.now) }
{
    let address = with_text(space(alloc, ADDRESSING)?, "Address", text.clone()?)?;
    let mut children = List::new(alloc);
    children.push(address)?;
    with_elements(space(alloc, header.space())?, header.name(), children)
}

/// Appends the header RelatesTo, where there is one.
fn push_relates(headers: &mut List<Element>, envelope: &Envelope) -> Result<(), AllocError>
    ensures { OnOk result (headers.new ≡ headers.old ++ option_to_list (option_map (λ id. text_header Header.Relates id.text) envelope.now.relates)) }
{
    if let Some(id) = &envelope.relates {
        headers.push(text_header(id.text.alloc(), Header::Relates, &id.text)?)?;
    }
    Ok(())
}

/// Appends a copy of a header, where there is one.
fn push_copy(headers: &mut List<Element>, header: Option<&Element>) -> Result<(), AllocError>
    ensures { OnOk result (headers.new ≡ headers.old ++ option_to_list (option_copied header.entry)) }
{
    if let Some(element) = header {
        headers.push(element.clone()?)?;
    }
    Ok(())
}

/// Appends a header that says nothing, where it is wanted.
fn push_empty(
    alloc: Global,
    headers: &mut List<Element>,
    header: Header,
    wanted: bool,
) -> Result<(), AllocError>
    ensures { OnOk result (headers.new ≡ headers.old ++ option_to_list (empty_header header wanted)) }
{
    if wanted {
        headers.push(text_header(alloc, header, &Text::new(alloc))?)?;
    }
    Ok(())
}
