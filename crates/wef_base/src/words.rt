//! Words of a line: a text cut at a byte, and percent-encoded words.

ghost use Rattle.std.specs.Prelude.{◌≡◌, true, IfOk};
ghost use Rattle.std.specs.Str.{is_utf8};
ghost use Rattle.wef_base.specs.Words.{decoded, parts};

use crate::list::{Bytes, List};
use crate::text::Text;
use percent_encoding::{DecodeError, percent_decode};
use std::alloc::{AllocError, Global};
use std::mem;

/// The parts of a text around each byte that separates them. Without such a byte the whole text is
/// the one part.
#[tactic(auto, using(crate::proofs::Cuts::goes_on, crate::proofs::Cuts::ends_here, crate::proofs::Cuts::behind_nothing, std::proofs::Common::append_assoc))]
pub fn split(alloc: Global, text: &[u8], separator: u8) -> Result<List<Bytes>, AllocError>
    ensures { IfOk result (λ pieces. pieces ≡ parts separator text.now) }
{
    let mut pieces = List::new(alloc);
    let mut piece = Bytes::new(alloc);
    for &byte in text {
        if byte != separator {
            piece.push(byte)?;
            continue;
        }
        pieces.push(mem::replace(&mut piece, Bytes::new(alloc)))?;
    }
    pieces.push(piece)?;
    Ok(pieces)
}

/// Whether bytes are a text in UTF-8.
pub fn is_text(bytes: &[u8]) -> bool
    ensures { result ≡ is_utf8 bytes.now }
{
    match std::str::from_utf8(bytes) {
        Ok(_) => true,
        Err(_) => false,
    }
}

/// The text that a percent-encoded word stands for, where it is UTF-8. A `%` without two
/// hexadecimal digits behind it stays as it is.
pub fn decode(alloc: Global, word: &[u8]) -> Result<Option<Text>, AllocError>
    ensures { IfOk result (λ text. text ≡ decoded word.now) }
{
    match percent_decode(word).decode_utf8(alloc) {
        Ok(text) => Ok(Some(Text::from_string(text.into_owned(alloc)?)?)),
        Err(DecodeError::Utf8(_)) => Ok(None),
        Err(DecodeError::OutOfMemory) => Err(AllocError),
    }
}
