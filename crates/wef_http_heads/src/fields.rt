//! The fields of a head, by their names.

ghost use Rattle.httparse.specs.Grammar.{is_ows, skip_ows, trim_ows};
ghost use Rattle.httparse.specs.Spans.{IsHeaderWithin, header_bytes};
ghost use Rattle.std.specs.List.{list_all, list_any};
ghost use Rattle.std.specs.Prelude.{◌≡◌, [], ◌∷◌, All, IfOk, length, map};
ghost use Rattle.wef_http_heads.specs.Fields.{closes, host_in, is_alike, is_close, is_host, is_visible, says_close, the_host, values_of, without_space};
ghost use Rattle.wef_http_heads.specs.Steps.{Judges, needed};
ghost use Rattle.wef_http_heads.specs.declared.ends.HttpEnd.TheVariants.{BadHead};

use crate::ends::HttpEnd;
use httparse::spans::HeaderSpan;
use std::alloc::{AllocError, Global};
use std::marker::Model;
use wef_base::words::split;
use wef_base::{Bytes, List, Text};

/// The fields of a head, where they lie in its bytes. Contracts see their names and values.
#[derive(Drop)]
pub(crate) struct Fields<'a> {
    bytes: &'a [u8],
    spans: &'a [HeaderSpan],
}

impl<'a> Model for Fields<'a> {
    ghost use Rattle.httparse.specs.Spans.{IsHeaderWithin, header_bytes};
    ghost use Rattle.std.specs.Prelude.{ℕ, List, All, length, map};

    ghost Value = { List (List ℕ × List ℕ) };

    ghost view = { λ f. map (header_bytes f.bytes.now) f.spans.now };

    ghost invariant = { λ f. All (IsHeaderWithin (length f.bytes.now)) f.spans.now };
}

impl<'a> Fields<'a> {
    /// The fields at these places.
    pub(crate) fn new(bytes: &'a [u8], spans: &'a [HeaderSpan]) -> Fields<'a>
        requires { All (IsHeaderWithin (length bytes.now)) spans.now }
        ensures { result ≡ map (header_bytes bytes.now) spans.now }
    {
        Fields { bytes, spans }
    }

    /// The values of the fields of a name, in their order.
    pub(crate) fn values(&self, alloc: Global, name: &[u8]) -> Result<List<Bytes>, AllocError>
        ensures { IfOk result (λ values. values ≡ values_of name.now self.now) }
    {
        values_of(alloc, name, self.bytes, self.spans)
    }
}

fn values_of(
    alloc: Global,
    name: &[u8],
    bytes: &[u8],
    spans: &[HeaderSpan],
) -> Result<List<Bytes>, AllocError>
    requires { All (IsHeaderWithin (length bytes.now)) spans.now }
    ensures { IfOk result (λ values. values ≡ values_of name.now (map (header_bytes bytes.now) spans.now)) }
{
    let mut values = List::new(alloc);
    for span in spans {
        if !is_alike(span.name.of(bytes), name) {
            continue;
        }
        values.push(Bytes::from_slice(alloc, span.value.of(bytes))?)?;
    }
    Ok(values)
}

/// Whether two words are one, in letters of either case.
pub(crate) fn is_alike(word: &[u8], other: &[u8]) -> bool
    ensures { result ≡ is_alike word.now other.now }
{
    word.eq_ignore_ascii_case(other)
}

/// The host that a request is sent to.
#[tactic(auto, unfolding(crate::specs::Fields::host_in))]
pub(crate) fn host_in(alloc: Global, fields: &Fields) -> Result<Text, HttpEnd>
    ensures { Judges result (needed BadHead (host_in fields.now)) }
{
    the_host(alloc, fields.values(alloc, b"Host")?.as_slice())
}

fn the_host(alloc: Global, values: &[Bytes]) -> Result<Text, HttpEnd>
    ensures { Judges result (needed BadHead (the_host values.now)) }
{
    match values {
        [value] => host_of(alloc, value.as_slice()),
        _ => Err(HttpEnd::BadHead),
    }
}

fn host_of(alloc: Global, value: &[u8]) -> Result<Text, HttpEnd>
    ensures { Judges result (needed BadHead (the_host (value.now ∷ []))) }
{
    if !is_host(value) {
        return Err(HttpEnd::BadHead);
    }
    let Ok(host) = std::str::from_utf8(value) else {
        return Err(HttpEnd::BadHead);
    };
    Ok(Text::from_str(alloc, host)?)
}

fn is_host(value: &[u8]) -> bool
    ensures { result ≡ is_host value.now }
{
    value.len() > 0 && are_visible(value)
}

fn are_visible(value: &[u8]) -> bool
    ensures { result ≡ list_all is_visible value.now }
{
    value.iter().all(|&byte| byte >= 33 && byte <= 126)
}

/// Whether the connection ends behind the message.
#[tactic(auto, unfolding(crate::specs::Fields::closes))]
pub(crate) fn closes(alloc: Global, fields: &Fields) -> Result<bool, AllocError>
    ensures { IfOk result (λ test. test ≡ closes fields.now) }
{
    any_says_close(alloc, fields.values(alloc, b"Connection")?.as_slice())
}

fn any_says_close(alloc: Global, values: &[Bytes]) -> Result<bool, AllocError>
    ensures { IfOk result (λ test. test ≡ list_any says_close values.now) }
{
    for value in values {
        if says_close(alloc, value.as_slice())? {
            return Ok(true);
        }
    }
    Ok(false)
}

fn says_close(alloc: Global, value: &[u8]) -> Result<bool, AllocError>
    ensures { IfOk result (λ test. test ≡ says_close value.now) }
{
    Ok(has_close(split(alloc, value, b',')?.as_slice()))
}

fn has_close(words: &[Bytes]) -> bool
    ensures { result ≡ list_any is_close words.now }
{
    words.iter().any(|word| is_close(word.as_slice()))
}

fn is_close(word: &[u8]) -> bool
    ensures { result ≡ is_close word.now }
{
    is_alike(trim(word), b"close")
}

/// Bytes without the white space at both ends (RFC 9110, 5.6.3).
pub(crate) fn trim(bytes: &[u8]) -> &[u8]
    ensures { result.now ≡ trim_ows bytes.now }
{
    trim_end(trim_start(bytes))
}

fn trim_start(bytes: &[u8]) -> &[u8]
    ensures { result.now ≡ skip_ows bytes.now }
{
    let mut rest = bytes;
    while let [first, others @ ..] = rest {
        if !is_white(*first) {
            return rest;
        }
        rest = others;
    }
    rest
}

fn is_white(byte: u8) -> bool
    ensures { result ≡ is_ows byte }
{
    byte == b' ' || byte == b'\t'
}

fn trim_end(bytes: &[u8]) -> &[u8]
    ensures { result.now ≡ without_space bytes.now }
{
    let mut rest = bytes;
    while let [others @ .., last] = rest {
        if !is_white(*last) {
            return rest;
        }
        rest = others;
    }
    rest
}
