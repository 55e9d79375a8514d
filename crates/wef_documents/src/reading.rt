//! Reading subscription documents.

ghost use Rattle.std.specs.Prelude.{◌≡◌, ◌∷◌, [], IfOk};
ghost use Rattle.wef_documents.specs.Bytes.{Finds, ReadsDocument, charset_of, document_in, fault_of, has_wide_mark};
ghost use Rattle.wef_documents.specs.Laws.{HasXmlTexts, IsPlain};
ghost use Rattle.wef_documents.specs.Reading.{subscription_in, subscription_of};
ghost use Rattle.wef_documents.specs.Steps.{Reads};
ghost use Rattle.wef_xml.specs.Good.{IsGoodTree};

use crate::children::is_part;
use crate::faults::{DocumentFault, Part};
use crate::limits::{is_enabled, is_pushed, kind_in, limits_in, must, name_in, version_in};
use crate::names::names_are_kept;
use crate::queries::queries_in;
use crate::sources::sources_of;
use std::alloc::Global;
use wef_base::{Charset, Element};
use wef_eventing::Subscription;
use wef_tree::{TreeFault, read_tree};

/// Reads a subscription document of Windows, as `wecutil gs NAME /f:xml` prints it, in UTF-16 where it
/// begins with that byte order mark and else in UTF-8. `Tree` where the bytes are no document,
/// `BadDocument` with the first part that isn't good. Elements that aren't known are passed over. What
/// is read can be written again.
pub fn read_document(alloc: Global, bytes: &[u8]) -> Result<Subscription, DocumentFault>
    ensures read { ReadsDocument bytes.now result }
    ensures found { Finds result (document_in bytes.now) }
    ensures plain { IfOk result IsPlain }
    ensures texts { IfOk result HasXmlTexts }
{
    match read_tree(alloc, bytes, charset_of(bytes)) {
        Ok(root) => sound_subscription(alloc, &root),
        Err(fault) => Err(fault_of(fault)),
    }
}

/// Why bytes that are no document of XML are no subscription document.
fn fault_of(fault: TreeFault) -> DocumentFault
    ensures { result ≡ fault_of fault }
{
    match fault {
        TreeFault::NoMemory => DocumentFault::NoMemory,
        TreeFault::BadCharset { .. } => DocumentFault::Tree(fault),
        TreeFault::BadXml { .. } => DocumentFault::Tree(fault),
        TreeFault::TooDeep { .. } => DocumentFault::Tree(fault),
        TreeFault::Refused { .. } => DocumentFault::Tree(fault),
    }
}

fn charset_of(bytes: &[u8]) -> Charset
    ensures { result ≡ charset_of bytes.now }
{
    if has_wide_mark(bytes) {
        return Charset::Utf16;
    }
    Charset::Utf8
}

/// Whether bytes begin with a byte order mark of UTF-16.
fn has_wide_mark(bytes: &[u8]) -> bool
    ensures { result ≡ has_wide_mark bytes.now }
{
    match bytes {
        [first, second, ..] => is_wide_mark(*first, *second),
        _ => false,
    }
}

fn is_wide_mark(first: u8, second: u8) -> bool
    ensures { result ≡ has_wide_mark (first ∷ second ∷ []) }
{
    first == 0xFF && second == 0xFE || first == 0xFE && second == 0xFF
}

/// The subscription that the root of a document says.
fn sound_subscription(alloc: Global, root: &Element) -> Result<Subscription, DocumentFault>
    requires { IsGoodTree root.now }
    ensures read { Reads result (subscription_in root.now) }
    ensures plain { IfOk result IsPlain }
    ensures texts { IfOk result HasXmlTexts }
{
    let subscription = subscription_in(alloc, root)?;
    names_are_kept(&subscription);
    Ok(subscription)
}

#[tactic(auto, unfolding(crate::specs::Reading::subscription_in))]
fn subscription_in(alloc: Global, root: &Element) -> Result<Subscription, DocumentFault>
    ensures { Reads result (subscription_in root.now) }
{
    if !is_part("Subscription", root) {
        return Err(DocumentFault::BadDocument(Part::Subscription));
    }
    subscription_of(alloc, root)
}

fn subscription_of(alloc: Global, root: &Element) -> Result<Subscription, DocumentFault>
    ensures { Reads result (subscription_of root.now) }
{
    let name = name_in(root)?;
    let kind = kind_in(root)?;
    must(Part::Enabled, is_enabled(root)?)?;
    must(Part::Delivery, is_pushed(root))?;
    let limits = limits_in(root)?;
    let query = queries_in(root)?;
    let sources = sources_of(alloc, kind, root)?;
    let version = version_in(root)?;
    Ok(Subscription {
        name,
        kind,
        query,
        max_items: limits.max_items,
        max_bytes: limits.max_bytes,
        heartbeat: limits.heartbeat,
        expires: limits.expires,
        sources,
        version,
    })
}
