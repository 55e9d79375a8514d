//! The addresses that batches go to: `http://HOST/wsman/subscriptions/U/S`.

ghost use Rattle.std.specs.Option.{option_and_then, option_copied};
ghost use Rattle.std.specs.Prelude.{◌≡◌, ◌++◌, Some, IfOk, OnOk};
ghost use Rattle.std.specs.Str.{IsUtf8};
ghost use Rattle.wef_base.specs.Words.{decoded, parts};
ghost use Rattle.wef_eventing.specs.Addresses.{AddressesReadBack, AreNames, IsHost, last_piece, piece_before_last, segment};
ghost use Rattle.wef_eventing.specs.Addresses as spec;
ghost use Rattle.wef_xml.specs.Good.{IsXmlText};

use percent_encoding::{AsciiSet, NON_ALPHANUMERIC, ascii_set, utf8_percent_encode};
use std::alloc::{AllocError, Global};
use wef_base::words::{decode, split};
use wef_base::{Bytes, List, SourceName, SubId, Text};

/// The bytes that a segment shows escaped, beside those past ASCII: all but the unreserved
/// characters (RFC 3986, section 2.3).
pub const ESCAPED_IN_SEGMENT: AsciiSet = ascii_set!(
    NON_ALPHANUMERIC
        .remove(b'-')
        .remove(b'.')
        .remove(b'_')
        .remove(b'~')
);

/// Where a source's batches for a subscription go. The names are percent-encoded, the host stays as
/// it is.
pub fn delivery_address(host: &Text, sub: &SubId, source: &SourceName) -> Result<Text, AllocError>
    ensures value { IfOk result (λ address. address ≡ spec.delivery_address host.now sub.now source.now) }
    ensures reads_back { IfOk result (λ address. (spec.subscription_in address ≡ Some sub.now) × (spec.source_in address ≡ Some source.now)) }
    ensures text { IsHost host.now → IfOk result IsXmlText }
{
    let address = written(host, sub, source)?;
    Ok(address)
}

#[tactic(auto, using(std::proofs::Common::append_assoc), unfolding(crate::specs::Addresses::delivery_address))]
fn written(host: &Text, sub: &SubId, source: &SourceName) -> Result<Text, AllocError>
    ensures value { IfOk result (λ address. address ≡ spec.delivery_address host.now sub.now source.now) }
    ensures names { IfOk result (λ _. AreNames sub.now source.now) }
{
    let mut address = Text::new(host.alloc());
    address.push_str("http://")?;
    address.push_str(host.as_str())?;
    address.push_str("/wsman/subscriptions/")?;
    push_segment(&mut address, sub.as_text())?;
    address.push_str("/")?;
    push_segment(&mut address, source.as_text())?;
    Ok(address)
}

fn push_segment(address: &mut Text, name: &Text) -> Result<(), AllocError>
    ensures value { OnOk result (address.new ≡ address.old ++ segment name.now) }
    ensures utf8 { IsUtf8 name.now }
{
    let mut segment = String::new(address.alloc());
    utf8_percent_encode(name.as_str(), ESCAPED_IN_SEGMENT).append_to(&mut segment)?;
    address.push_str(segment.as_str())
}

/// The subscription that an address leads to: its segment before the last, percent-decoded. None
/// where there is no such segment, or it names no subscription.
#[tactic(auto, unfolding(crate::specs::Addresses::subscription_in))]
pub fn subscription_in(address: &Text) -> Result<Option<SubId>, AllocError>
    ensures { IfOk result (λ sub. sub ≡ spec.subscription_in address.now) }
{
    let pieces = pieces_of(address)?;
    let Some(text) = decoded_piece(address.alloc(), before_last(pieces.as_slice()))? else {
        return Ok(None);
    };
    SubId::named(&text)
}

/// The source that an address leads to: its last segment, percent-decoded. None where that names no
/// source.
#[tactic(auto, unfolding(crate::specs::Addresses::source_in))]
pub fn source_in(address: &Text) -> Result<Option<SourceName>, AllocError>
    ensures { IfOk result (λ source. source ≡ spec.source_in address.now) }
{
    let pieces = pieces_of(address)?;
    let Some(text) = decoded_piece(address.alloc(), last(pieces.as_slice()))? else {
        return Ok(None);
    };
    SourceName::named(&text)
}

/// The pieces of an address around its slashes.
fn pieces_of(address: &Text) -> Result<List<Bytes>, AllocError>
    ensures { IfOk result (λ pieces. pieces ≡ parts 47 address.now) }
{
    split(address.alloc(), address.as_str().as_bytes(), b'/')
}

fn last(pieces: &[Bytes]) -> Option<&Bytes>
    ensures { option_copied result ≡ last_piece pieces.now }
{
    let (piece, _) = pieces.split_last()?;
    Some(piece)
}

fn before_last(pieces: &[Bytes]) -> Option<&Bytes>
    ensures { option_copied result ≡ piece_before_last pieces.now }
{
    let (_, front) = pieces.split_last()?;
    last(front)
}

fn decoded_piece(alloc: Global, piece: Option<&Bytes>) -> Result<Option<Text>, AllocError>
    ensures { IfOk result (λ text. text ≡ option_and_then decoded (option_copied piece.entry)) }
{
    let Some(piece) = piece else {
        return Ok(None);
    };
    decode(alloc, piece.as_slice())
}

/// An address that is written leads to the subscription and the source that it was written for.
pub fn addresses_read_back()
    ensures { AddressesReadBack }
{}
