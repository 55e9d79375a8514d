//! What a collector asks a source for, as it is written.

ghost use Rattle.std.specs.Prelude.{◌≡◌, option_copied, IfOk};
ghost use Rattle.wef_base.specs.declared.tree.Charset.TheVariants.{Utf8};
ghost use Rattle.wef_collector.specs.Asking.{CanBeRequested};
ghost use Rattle.wef_envelope.specs.Written.{written};
ghost use Rattle.wef_requests.specs.Requests.{envelope_with, request_bytes, resource_of, source_address};
ghost use Rattle.wef_xml.specs.Canonical.{canonical, encoded};
ghost use Rattle.wef_xml.specs.Good.{IsGoodTree};

use std::alloc::{AllocError, Global};
use wef_base::{Bytes, Charset, Element, List, Text};
use wef_bodies::{Body, write_body};
use wef_collector::Request;
use wef_envelope::actions::{ANONYMOUS, EVENT_LOG};
use wef_envelope::{Envelope, to_node};
use wef_tree::write_tree;

/// Writes a request in UTF-8. It goes to the path `/wsman` of the source; a Subscribe asks for the resource that the logs
/// of a machine are.
pub fn write_request(alloc: Global, request: &Request) -> Result<Bytes, AllocError>
    requires { CanBeRequested request.now }
    ensures { IfOk result (λ bytes. bytes ≡ request_bytes request.now) }
{
    let body = write_body(alloc, &request.body)?;
    let envelope = envelope_with(alloc, request, body)?;
    write_envelope(alloc, &envelope)
}

fn write_envelope(alloc: Global, envelope: &Envelope) -> Result<Bytes, AllocError>
    requires { IsGoodTree (written envelope.now) }
    ensures { IfOk result (λ bytes. bytes ≡ encoded Utf8 (canonical (written envelope.now))) }
{
    let root = to_node(envelope)?;
    match write_tree(alloc, &root, Charset::Utf8) {
        Ok(bytes) => Ok(bytes),
        Err(_) => Err(AllocError),
    }
}

/// The envelope of a request, with the elements of its body.
fn envelope_with(
    alloc: Global,
    request: &Request,
    body: List<Element>,
) -> Result<Envelope, AllocError>
    ensures { IfOk result (λ envelope. envelope ≡ envelope_with request.now body) }
{
    let to = source_address(alloc, &request.source.address)?;
    let action = Text::from_str(alloc, request.body.action())?;
    let mut envelope = Envelope::new(to, action, request.id.clone()?, body);
    envelope.resource = resource_of(alloc, &request.body)?;
    envelope.reply_to = Some(Text::from_str(alloc, ANONYMOUS)?);
    envelope.identifier = copied(request.identifier.as_ref())?;
    Ok(envelope)
}

#[tactic(auto, using(std::proofs::Common::append_assoc), unfolding(crate::specs::Requests::source_address))]
fn source_address(alloc: Global, at: &Text) -> Result<Text, AllocError>
    ensures { IfOk result (λ address. address ≡ source_address at.now) }
{
    let mut address = Text::from_str(alloc, "http://")?;
    address.push_str(at.as_str())?;
    address.push_str("/wsman")?;
    Ok(address)
}

/// The resource that a request names.
fn resource_of(alloc: Global, body: &Body) -> Result<Option<Text>, AllocError>
    ensures { IfOk result (λ resource. resource ≡ resource_of body.now) }
{
    match body {
        Body::Subscribe(_) => Ok(Some(Text::from_str(alloc, EVENT_LOG)?)),
        _ => Ok(None),
    }
}

fn copied(text: Option<&Text>) -> Result<Option<Text>, AllocError>
    ensures { IfOk result (λ copy. copy ≡ option_copied text.entry) }
{
    match text {
        Some(text) => Ok(Some(text.clone()?)),
        None => Ok(None),
    }
}
