//! The media types of bodies.

ghost use Rattle.std.specs.List.{list_all};
ghost use Rattle.std.specs.Option.{option_map};
ghost use Rattle.std.specs.Prelude.{◌≡◌, Some, IfOk, option_copied};
ghost use Rattle.wef_http_heads.specs.Media.{charset_among, charset_by, charset_in, charset_named, charset_of_parts, charset_said, first_charset, is_envelope, is_identity, is_uncoded, means_utf8, means_utf16, or_else, or_utf8, parts_from, quoting_behind, request_charset, response_charset, separates};
ghost use Rattle.wef_http_heads.specs.Steps.{Judges, needed};
ghost use Rattle.wef_http_heads.specs.declared.ends.HttpEnd.TheVariants.{Media};
ghost use Rattle.wef_http_heads.specs.declared.media.Quoting.TheVariants.{Outside};

use crate::ends::HttpEnd;
use crate::fields::{Fields, is_alike, trim};
use std::alloc::{AllocError, Global};
use std::mem;
use wef_base::{Bytes, Charset, List};

/// Where a byte of a media type stands.
#[derive(Clone, Copy, Debug, PartialEq, Eq)]
pub enum Quoting {
    Outside,
    /// In quotes.
    Inside,
    /// In quotes, behind a backslash.
    Escaped,
}

impl Quoting {
    /// Whether a byte separates two parts.
    fn separates(self, byte: u8) -> bool
        ensures { result ≡ separates self byte }
    {
        matches!(self, Quoting::Outside) && byte == b';'
    }

    /// Where the next byte stands.
    fn behind(self, byte: u8) -> Quoting
        ensures { result ≡ quoting_behind self byte }
    {
        match self {
            Quoting::Outside if byte == b'"' => Quoting::Inside,
            Quoting::Outside => Quoting::Outside,
            Quoting::Inside if byte == b'"' => Quoting::Outside,
            Quoting::Inside if byte == b'\\' => Quoting::Escaped,
            Quoting::Inside | Quoting::Escaped => Quoting::Inside,
        }
    }
}

/// The charset of a request's body, whose media type must be said.
#[tactic(auto, unfolding(crate::specs::Media::request_charset))]
pub(crate) fn request_charset(alloc: Global, fields: &Fields) -> Result<Charset, HttpEnd>
    ensures { Judges result (needed Media (request_charset fields.now)) }
{
    if !is_uncoded(alloc, fields)? {
        return Err(HttpEnd::Media);
    }
    charset_by(alloc, fields.values(alloc, b"Content-Type")?.as_slice())
}

/// The charset of a response's body.
#[tactic(auto, unfolding(crate::specs::Media::response_charset))]
pub(crate) fn response_charset(alloc: Global, fields: &Fields) -> Result<Charset, HttpEnd>
    ensures { Judges result (needed Media (response_charset fields.now)) }
{
    if is_uncoded(alloc, fields)? {
        charset_or_utf8(alloc, fields.values(alloc, b"Content-Type")?.as_slice())
    } else {
        Err(HttpEnd::Media)
    }
}

fn charset_by(alloc: Global, values: &[Bytes]) -> Result<Charset, HttpEnd>
    ensures { Judges result (needed Media (charset_by values.now)) }
{
    if values.is_empty() {
        return Err(HttpEnd::Media);
    }
    charset_or_utf8(alloc, values)
}

fn charset_or_utf8(alloc: Global, values: &[Bytes]) -> Result<Charset, HttpEnd>
    ensures { Judges result (needed Media (option_map or_utf8 (first_charset values.now))) }
{
    Ok(first_charset(alloc, values)?.unwrap_or(Charset::Utf8))
}

/// Whether no coding changes the body.
#[tactic(auto, unfolding(crate::specs::Media::is_uncoded))]
fn is_uncoded(alloc: Global, fields: &Fields) -> Result<bool, AllocError>
    ensures { IfOk result (λ test. test ≡ is_uncoded fields.now) }
{
    Ok(are_identity(fields.values(alloc, b"Content-Encoding")?.as_slice()))
}

fn are_identity(values: &[Bytes]) -> bool
    ensures { result ≡ list_all is_identity values.now }
{
    values.iter().all(|value| is_identity(value.as_slice()))
}

fn is_identity(value: &[u8]) -> bool
    ensures { result ≡ is_identity value.now }
{
    is_alike(value, b"identity")
}

/// The first charset that media types say.
fn first_charset(alloc: Global, values: &[Bytes]) -> Result<Option<Charset>, HttpEnd>
    ensures { Judges result (needed Media (first_charset values.now)) }
{
    let mut first = None;
    for value in values {
        let said = charset_said(alloc, value.as_slice())?;
        first = or_else(first, said);
    }
    Ok(first)
}

fn or_else(charset: Option<Charset>, other: Option<Charset>) -> Option<Charset>
    ensures { result ≡ or_else charset other }
{
    match charset {
        Some(charset) => Some(charset),
        None => other,
    }
}

/// The charset that a media type says.
fn charset_said(alloc: Global, value: &[u8]) -> Result<Option<Charset>, HttpEnd>
    ensures { Judges result (needed Media (charset_said value.now)) }
{
    charset_of_parts(parts_of(alloc, value)?.as_slice())
}

/// The parts of a value around each semicolon outside quotes.
#[tactic(auto, using(crate::proofs::Parts::goes_on, crate::proofs::Parts::ends_here, crate::proofs::Parts::behind_nothing, std::proofs::Common::append_assoc))]
fn parts_of(alloc: Global, value: &[u8]) -> Result<List<Bytes>, AllocError>
    ensures { IfOk result (λ parts. parts ≡ parts_from Outside value.now) }
{
    let mut parts = List::new(alloc);
    let mut part = Bytes::new(alloc);
    let mut quoting = Quoting::Outside;
    for &byte in value {
        if !quoting.separates(byte) {
            part.push(byte)?;
            quoting = quoting.behind(byte);
            continue;
        }
        parts.push(mem::replace(&mut part, Bytes::new(alloc)))?;
    }
    parts.push(part)?;
    Ok(parts)
}

fn charset_of_parts(parts: &[Bytes]) -> Result<Option<Charset>, HttpEnd>
    ensures { Judges result (needed Media (charset_of_parts parts.now)) }
{
    let Some((kind, parameters)) = parts.split_first() else {
        return Err(HttpEnd::Media);
    };
    if !is_envelope(kind.as_slice()) {
        return Err(HttpEnd::Media);
    }
    charset_among(parameters)
}

fn is_envelope(kind: &[u8]) -> bool
    ensures { result ≡ is_envelope kind.now }
{
    is_alike(trim(kind), b"application/soap+xml")
}

/// The charset that parameters say, the first one's.
fn charset_among(parameters: &[Bytes]) -> Result<Option<Charset>, HttpEnd>
    ensures { Judges result (needed Media (charset_among parameters.now)) }
{
    for parameter in parameters {
        if let Some(name) = charset_in(trim(parameter.as_slice())) {
            return some_charset(name);
        }
    }
    Ok(None)
}

/// The name of a charset, where a parameter says one.
fn charset_in(parameter: &[u8]) -> Option<&[u8]>
    ensures { option_copied result ≡ charset_in parameter.now }
{
    let (name, value) = parameter.split_at_checked(8)?;
    if is_alike(name, b"charset=") {
        Some(value)
    } else {
        None
    }
}

fn some_charset(name: &[u8]) -> Result<Option<Charset>, HttpEnd>
    ensures { Judges result (needed Media (option_map (λ charset. Some charset) (charset_named name.now))) }
{
    Ok(Some(charset_named(name)?))
}

fn charset_named(name: &[u8]) -> Result<Charset, HttpEnd>
    ensures { Judges result (needed Media (charset_named name.now)) }
{
    if means_utf8(name) {
        return Ok(Charset::Utf8);
    }
    if means_utf16(name) {
        return Ok(Charset::Utf16);
    }
    Err(HttpEnd::Media)
}

fn means_utf8(name: &[u8]) -> bool
    ensures { result ≡ means_utf8 name.now }
{
    is_alike(name, b"utf-8") || is_alike(name, b"\"utf-8\"")
}

fn means_utf16(name: &[u8]) -> bool
    ensures { result ≡ means_utf16 name.now }
{
    is_alike(name, b"utf-16") || is_alike(name, b"\"utf-16\"")
}
