//! One exchange over a link: a request, and the envelope that comes back.

ghost use Rattle.std.specs.Prelude.{◌≡◌, ◌≤◌, IfOk, IfErr, IfSome, OnOk};
ghost use Rattle.wef_forwarding.specs.Exchanges.{Brings, Exchanged, IsCause, brought_without, envelope_of, has_envelope, request_bytes};
ghost use Rattle.wef_http.specs.Sending.{Sends, SendsPart};

use std::alloc::{AllocError, Global};
use thiserror::Error;
use wef_base::{Bytes, Text};
use wef_connections::Link;
use wef_http::{HttpResponse, read_response, write_request};
use wef_http_heads::HttpEnd;
use wef_ports::Port;
use wef_source::SourceFault;

/// Why an exchange isn't made, or nobody knows what became of it.
#[derive(Clone, Copy, Debug, PartialEq, Eq, Error)]
pub enum FrontFault {
    /// Memory was wanting: for what the source had to say, or for its exchange.
    #[error("no memory")]
    NoMemory,
    /// The link couldn't connect, or failed while it sent or read.
    #[error("the link failed")]
    LinkFailed,
    /// The source refused to ask or to be polled, for another reason than want of memory.
    #[error("the source refused: {0}")]
    Source(SourceFault),
}

impl From<AllocError> for FrontFault {
    ghost use Rattle.wef_forwarding.specs.declared.exchanges.FrontFault.TheVariants.{NoMemory};

    ghost from_gives = { λ _ e. e ≡ NoMemory };

    fn from(_error: AllocError) -> FrontFault {
        FrontFault::NoMemory
    }
}

impl From<SourceFault> for FrontFault {
    ghost use Rattle.wef_forwarding.specs.Exchanges.{refused_by};

    ghost from_gives = { λ refusal fault. fault ≡ refused_by refusal };

    /// Why a source has nothing to exchange.
    fn from(refusal: SourceFault) -> FrontFault {
        match refusal {
            SourceFault::NoMemory => FrontFault::NoMemory,
            _ => FrontFault::Source(refusal),
        }
    }
}

impl From<HttpEnd> for FrontFault {
    ghost use Rattle.wef_forwarding.specs.Exchanges.{fault_of};

    ghost from_gives = { λ end fault. fault ≡ fault_of end };

    /// Why a request wasn't sent.
    fn from(end: HttpEnd) -> FrontFault {
        match end {
            HttpEnd::NoMemory => FrontFault::NoMemory,
            _ => FrontFault::LinkFailed,
        }
    }
}

/// A request that is sent: an envelope in UTF-8, for a path of a host.
#[derive(Debug, Drop)]
pub struct Request {
    /// The host, and its port: `HOST:PORT` or `[V6]:PORT`.
    pub host: Text,
    pub path: Text,
    pub body: Bytes,
}

/// Sends a request in a connection of its own, and reads what comes back: the envelope of a response
/// with the status 200, 400 or 500, or none.
#[tactic(auto, using(crate::proofs::Exchanging::not_connected))]
pub fn exchange<L: Link>(
    alloc: Global,
    link: &mut L,
    request: &Request,
) -> Result<Option<Bytes>, FrontFault>
    ensures exchanged { Exchanged request.now result (L.told link.old) (L.told link.new) }
    ensures later { (L.told link.old).faults ≤ (L.told link.new).faults }
{
    match link.connect(&request.host) {
        Ok(()) => {}
        Err(_) => return Err(FrontFault::LinkFailed),
    }
    let envelope = ask(alloc, link, request);
    link.close();
    envelope
}

/// Sends a request, and reads what comes back.
#[tactic(auto, using(crate::proofs::Exchanging::unsent_cause))]
fn ask<P: Port>(alloc: Global, port: &mut P, request: &Request) -> Result<Option<Bytes>, FrontFault>
    ensures sent { OnOk result (Sends (P.told port.old) (P.told port.new) (request_bytes request.now)) }
    ensures part { SendsPart (P.told port.old) (P.told port.new) (request_bytes request.now) }
    ensures brought { IfOk result (λ envelope. IfSome (P.told port.old).coming (λ bytes. Brings bytes envelope)) }
    ensures around { (P.told port.new).around ≡ (P.told port.old).around }
    ensures later { (P.told port.old).faults ≤ (P.told port.new).faults }
    ensures cause { IfErr result (λ fault. IsCause fault (P.told port.old) (P.told port.new)) }
{
    write_request(alloc, port, &request.host, &request.path, &request.body)?;
    hear(alloc, port)
}

/// Reads a response, and gives its envelope.
#[tactic(auto, using(crate::proofs::Exchanging::unread_cause))]
fn hear<P: Port>(alloc: Global, port: &mut P) -> Result<Option<Bytes>, FrontFault>
    ensures brought { IfOk result (λ envelope. IfSome (P.told port.old).coming (λ bytes. Brings bytes envelope)) }
    ensures sent { (P.told port.new).sent ≡ (P.told port.old).sent }
    ensures around { (P.told port.new).around ≡ (P.told port.old).around }
    ensures later { (P.told port.old).faults ≤ (P.told port.new).faults }
    ensures cause { IfErr result (λ fault. IsCause fault (P.told port.old) (P.told port.new)) }
{
    match read_response(alloc, port) {
        Ok(response) => Ok(envelope_of(response)),
        Err(end) => brought_without(end),
    }
}

/// What comes back where no response was read: nothing, if the bytes are to blame for that.
fn brought_without(end: HttpEnd) -> Result<Option<Bytes>, FrontFault>
    ensures { result ≡ brought_without end }
{
    match end {
        HttpEnd::NoMemory => Err(FrontFault::NoMemory),
        HttpEnd::ReadFault => Err(FrontFault::LinkFailed),
        _ => Ok(None),
    }
}

/// The envelope of a response.
fn envelope_of(response: HttpResponse) -> Option<Bytes>
    ensures { result ≡ envelope_of response }
{
    if has_envelope(response.status) {
        Some(response.body)
    } else {
        None
    }
}

/// Whether a response of this status has an envelope.
fn has_envelope(status: u16) -> bool
    ensures { result ≡ has_envelope status }
{
    status == 200 || status == 400 || status == 500
}
