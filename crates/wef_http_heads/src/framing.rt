//! What a head says of where its body ends.

ghost use Rattle.std.specs.Prelude.{◌≡◌, true};
ghost use Rattle.wef_base.specs.Numbers.{is_numeral, number_within};
ghost use Rattle.wef_http_heads.specs.Framing.{coding_said, declared_by, declared_in, length_or_more, length_said};
ghost use Rattle.wef_http_heads.specs.Steps.{Judges, needed};
ghost use Rattle.wef_http_heads.specs.declared.ends.HttpEnd.TheVariants.{BadHead};

use crate::ends::HttpEnd;
use crate::fields::{Fields, is_alike};
use crate::heads::BODY_LIMIT;
use std::alloc::Global;
use wef_base::Bytes;
use wef_base::numbers::{is_numeral_text, value_within};

/// What a head says of its body.
#[derive(Clone, Copy, Debug, PartialEq, Eq)]
pub enum Declared {
    /// No length and no chunks.
    Nothing,
    /// So many bytes.
    Length(usize),
    /// More bytes than a body may have.
    TooLong,
    Chunked,
}

/// What the fields say of the body.
#[tactic(auto, unfolding(crate::specs::Framing::declared_in))]
pub(crate) fn declared_in(alloc: Global, fields: &Fields) -> Result<Declared, HttpEnd>
    ensures { Judges result (needed BadHead (declared_in fields.now)) }
{
    let lengths = fields.values(alloc, b"Content-Length")?;
    let codings = fields.values(alloc, b"Transfer-Encoding")?;
    declared_by(lengths.as_slice(), codings.as_slice())
}

fn declared_by(lengths: &[Bytes], codings: &[Bytes]) -> Result<Declared, HttpEnd>
    ensures { Judges result (needed BadHead (declared_by lengths.now codings.now)) }
{
    match (lengths, codings) {
        ([], []) => Ok(Declared::Nothing),
        ([length], []) => length_said(length.as_slice()),
        ([], [coding]) => coding_said(coding.as_slice()),
        _ => Err(HttpEnd::BadHead),
    }
}

fn length_said(value: &[u8]) -> Result<Declared, HttpEnd>
    ensures { Judges result (needed BadHead (length_said value.now)) }
{
    if !is_numeral_text(value) {
        return Err(HttpEnd::BadHead);
    }
    Ok(length_or_more(value))
}

fn length_or_more(digits: &[u8]) -> Declared
    requires { is_numeral digits.now ≡ true }
    ensures { result ≡ length_or_more (number_within BODY_LIMIT digits.now) }
{
    match value_within(digits, BODY_LIMIT as u64) {
        Some(length) => Declared::Length(length as usize),
        None => Declared::TooLong,
    }
}

fn coding_said(value: &[u8]) -> Result<Declared, HttpEnd>
    ensures { Judges result (needed BadHead (coding_said value.now)) }
{
    if !is_alike(value, b"chunked") {
        return Err(HttpEnd::BadHead);
    }
    Ok(Declared::Chunked)
}
