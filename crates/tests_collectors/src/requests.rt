//! Wishes for subscriptions, and the bytes of connections in which they and deliveries come.

use std::alloc::{AllocError, Global};
use tests_tasks::deliveries::{edited, edited_from};
use tests_tasks::escapes::unescaped;
use tests_tasks::utf16::in_utf16;
use wef_base::{Bytes, Text};

/// An Enumerate with the headers that a Windows source may send, its MessageID in capital letters.
const ENUMERATE: &str =
    "<env:Envelope xml:lang=\"en-US\" xmlns:wsen=\"http://schemas.xmlsoap.org/ws/2004/09/enumeration\" xmlns:man=\"http://schemas.dmtf.org/wbem/wsman/1/wsman.xsd\" xmlns:wsa=\"http://schemas.xmlsoap.org/ws/2004/08/addressing\" xmlns:win=\"http://schemas.microsoft.com/wbem/wsman/1/wsman.xsd\" xmlns:env=\"http://www.w3.org/2003/05/soap-envelope\"><env:Header><wsa:To>http://collector:5985/wsman/SubscriptionManager/WEC</wsa:To><man:ResourceURI env:mustUnderstand=\"true\">http://schemas.microsoft.com/wbem/wsman/1/SubscriptionManager/Subscription</man:ResourceURI><id:MachineID env:mustUnderstand=\"false\" xmlns:id=\"http://schemas.microsoft.com/wbem/wsman/1/machineid\">PC1.example.org</id:MachineID><wsa:ReplyTo><wsa:Address env:mustUnderstand=\"true\">http://schemas.xmlsoap.org/ws/2004/08/addressing/role/anonymous</wsa:Address></wsa:ReplyTo><wsa:Action env:mustUnderstand=\"true\">http://schemas.xmlsoap.org/ws/2004/09/enumeration/Enumerate</wsa:Action><wsa:MessageID>uuid:8C7A3A2F-9E1B-4D57-A0C1-3F2B7E6D5C4A</wsa:MessageID><man:MaxEnvelopeSize env:mustUnderstand=\"true\">512000</man:MaxEnvelopeSize><man:Locale xml:lang=\"en-US\" env:mustUnderstand=\"false\"/><win:DataLocale env:mustUnderstand=\"false\" xml:lang=\"en-US\"/><win:SessionId env:mustUnderstand=\"false\">uuid:1D2C3B4A-5968-7786-95A4-B3C2D1E0F001</win:SessionId><win:OperationID env:mustUnderstand=\"false\">uuid:1D2C3B4A-5968-7786-95A4-B3C2D1E0F002</win:OperationID><win:SequenceId env:mustUnderstand=\"false\">1</win:SequenceId><man:OperationTimeout>PT60.000S</man:OperationTimeout></env:Header><env:Body><wsen:Enumerate><man:OptimizeEnumeration/><man:MaxElements>32000</man:MaxElements></wsen:Enumerate></env:Body></env:Envelope>";

/// The Enumerate with edits, as `edited_from` takes them.
pub fn enumerate(alloc: Global, edits: &str) -> Result<Bytes, AllocError> {
    edited_from(alloc, ENUMERATE, edits)
}

/// The bytes of the requests of a line, with ` then ` between them: `batch`, `chunks`, `none` or `wish`
/// with edits, a delivery, one whose body comes in chunks of one byte, one for a subscription that isn't
/// there, or a wish in UTF-16; or `bytes` with whatever bytes.
pub fn bytes_of(alloc: Global, line: &str) -> Result<Bytes, AllocError> {
    let mut bytes = Bytes::new(alloc);
    for request in line.split(" then ") {
        let (kind, edits) = request.split_once(' ').unwrap_or((request, ""));
        bytes.extend(request_of(alloc, kind, edits)?.as_slice())?;
    }
    Ok(bytes)
}

fn request_of(alloc: Global, kind: &str, edits: &str) -> Result<Bytes, AllocError> {
    match kind {
        "batch" => with_length(
            alloc,
            "/wsman/subscriptions/base/pc1",
            "UTF-8",
            &edited(alloc, edits)?,
        ),
        "none" => with_length(
            alloc,
            "/wsman/subscriptions/none/pc1",
            "UTF-8",
            &edited(alloc, edits)?,
        ),
        "chunks" => in_chunks(
            alloc,
            "/wsman/subscriptions/base/pc1",
            &edited(alloc, edits)?,
        ),
        "wish" => {
            let body = in_utf16(alloc, &enumerate(alloc, edits)?)?;
            with_length(alloc, "/wsman/SubscriptionManager/WEC", "UTF-16", &body)
        }
        _ => unescaped(alloc, edits),
    }
}

/// A POST whose body has a length.
pub fn with_length(
    alloc: Global,
    path: &str,
    charset: &str,
    body: &Bytes,
) -> Result<Bytes, AllocError> {
    let mut head = head_to(alloc, path, charset)?;
    head.push_str("Content-Length: ")?;
    head.push_number(body.len() as u64)?;
    head.push_str("\r\n\r\n")?;
    let mut bytes = Bytes::from_slice(alloc, head.as_str().as_bytes())?;
    bytes.extend(body.as_slice())?;
    Ok(bytes)
}

/// A POST whose body comes in chunks of one byte.
fn in_chunks(alloc: Global, path: &str, body: &Bytes) -> Result<Bytes, AllocError> {
    let mut head = head_to(alloc, path, "UTF-8")?;
    head.push_str("Transfer-Encoding: chunked\r\n\r\n")?;
    let mut bytes = Bytes::from_slice(alloc, head.as_str().as_bytes())?;
    for piece in body.as_slice().chunks(1) {
        bytes.extend(b"1\r\n")?;
        bytes.extend(piece)?;
        bytes.extend(b"\r\n")?;
    }
    bytes.extend(b"0\r\n\r\n")?;
    Ok(bytes)
}

/// The head of a POST, but for how its body stands.
fn head_to(alloc: Global, path: &str, charset: &str) -> Result<Text, AllocError> {
    let mut head = Text::from_str(alloc, "POST ")?;
    head.push_str(path)?;
    head.push_str(
        " HTTP/1.1\r\nHost: collector:5985\r\nContent-Type: application/soap+xml;charset=",
    )?;
    head.push_str(charset)?;
    head.push_str("\r\n")?;
    Ok(head)
}
