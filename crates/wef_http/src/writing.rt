//! Requests and responses, written to a port.

ghost use Rattle.std.specs.Prelude.{◌≡◌, ◌≤◌, [], true, false, OnOk, IfErr};
ghost use Rattle.wef_http.specs.Written.{has_body, is_status, request, response};
ghost use Rattle.wef_http.specs.Sending.{IsNotSent, Sends, SendsPart};
ghost use Rattle.wef_ports.specs.Telling.{OnlyWrites};

use crate::head_texts::{request_head, response_head};
use crate::sending::send_message;
use std::alloc::Global;
use wef_base::{Bytes, Charset, Text};
use wef_http_heads::HttpEnd;
use wef_ports::Port;

/// Writes a request: an envelope in UTF-8 for a path of a host, behind which the connection is
/// closed. `ReadFault` where the port fails.
pub fn write_request<P: Port>(
    alloc: Global,
    port: &mut P,
    host: &Text,
    path: &Text,
    body: &Bytes,
) -> Result<(), HttpEnd>
    ensures sent { OnOk result (Sends (P.told port.old) (P.told port.new) (request host.now path.now body.now)) }
    ensures refused { IfErr result (IsNotSent (P.told port.old) (P.told port.new)) }
    ensures part { SendsPart (P.told port.old) (P.told port.new) (request host.now path.now body.now) }
    ensures rest { OnlyWrites (P.told port.old) (P.told port.new) }
    ensures later { (P.told port.old).faults ≤ (P.told port.new).faults }
{
    let head = request_head(alloc, host, path, body.len())?;
    send_message(port, head, body.as_slice())
}

/// Writes a response: an envelope as an answer, no content, or the refusal of a request.
/// `ReadFault` where the port fails.
pub fn write_response<P: Port>(
    alloc: Global,
    port: &mut P,
    status: u16,
    charset: Charset,
    body: &Bytes,
) -> Result<(), HttpEnd>
    requires status { is_status status ≡ true }
    requires empty { has_body status ≡ false → body.now ≡ [] }
    ensures sent { OnOk result (Sends (P.told port.old) (P.told port.new) (response status charset body.now)) }
    ensures refused { IfErr result (IsNotSent (P.told port.old) (P.told port.new)) }
    ensures part { SendsPart (P.told port.old) (P.told port.new) (response status charset body.now) }
    ensures rest { OnlyWrites (P.told port.old) (P.told port.new) }
    ensures later { (P.told port.old).faults ≤ (P.told port.new).faults }
{
    let head = response_head(alloc, status, charset, body.len())?;
    send_message(port, head, body.as_slice())
}
