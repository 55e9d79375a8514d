//! Bytes as characters.

ghost use Rattle.std.specs.Prelude.{◌≡◌, IfOk};
ghost use Rattle.std.specs.Str.{chars};
ghost use Rattle.wef_base.specs.declared.tree.Charset.TheVariants.{Utf8};
ghost use Rattle.wef_xml.specs.Decodes.{Decodes};
ghost use Rattle.wef_xml.specs.Decoding.{without_mark};

use crate::TreeFault;
use crate::utf16::{behind_mark, decode_utf16};
use std::alloc::{AllocError, Global};
use wef_base::Charset;

/// The characters of bytes, a byte order mark aside; or the place of the first sequence of bytes
/// that is no character.
pub fn decode(alloc: Global, charset: Charset, bytes: &[u8]) -> Result<Vec<char>, TreeFault>
    ensures { Decodes charset bytes.now result }
{
    match charset {
        Charset::Utf8 => decode_utf8(alloc, bytes),
        Charset::Utf16 => decode_utf16(alloc, bytes),
    }
}

/// The bytes behind a byte order mark.
pub fn without_mark(charset: Charset, bytes: &[u8]) -> &[u8]
    ensures { result.now ≡ without_mark charset bytes.now }
{
    match charset {
        Charset::Utf8 => without_utf8_mark(bytes),
        Charset::Utf16 => behind_mark(bytes).1,
    }
}

/// The characters of bytes in UTF-8, a byte order mark aside.
#[tactic(auto, using(crate::proofs::Utf8::is_decoded, crate::proofs::Utf8::stops))]
fn decode_utf8(alloc: Global, bytes: &[u8]) -> Result<Vec<char>, TreeFault>
    ensures { Decodes Utf8 bytes.now result }
{
    let rest = without_utf8_mark(bytes);
    let text = match std::str::from_utf8(rest) {
        Ok(text) => text,
        Err(fault) => {
            return Err(TreeFault::BadCharset {
                at: bytes.len() - rest.len() + fault.valid_up_to(),
            });
        }
    };
    match characters(alloc, text) {
        Ok(characters) => Ok(characters),
        Err(_) => Err(TreeFault::NoMemory),
    }
}

fn characters(alloc: Global, text: &str) -> Result<Vec<char>, AllocError>
    ensures { IfOk result (λ characters. characters.items ≡ chars text.now) }
{
    let mut characters = Vec::with_capacity(alloc, text.len())?;
    for character in text.chars() {
        characters.push(character)?;
    }
    Ok(characters)
}

fn without_utf8_mark(bytes: &[u8]) -> &[u8]
    ensures { result.now ≡ without_mark Utf8 bytes.now }
{
    match bytes {
        [0xEF, 0xBB, 0xBF, rest @ ..] => rest,
        _ => bytes,
    }
}
