//! What the parts of a document say that are words and numbers.

ghost use Rattle.std.specs.Option.{option_and_then};
ghost use Rattle.std.specs.Prelude.{◌≡◌, ◌≤◌, option_copied, IfOk, IfSome};
ghost use Rattle.wef_documents.specs.Steps.{Reads};
ghost use Rattle.wef_documents.specs.Steps as steps;
ghost use Rattle.wef_documents.specs.Values.{between, bytes_in, expires_in, heartbeat_in, is_enabled, is_pushed, items_in, kind_in, kind_said, limits_in, name_in, number_in, version_in};
ghost use Rattle.wef_documents.specs.declared.faults.DocumentFault.TheVariants.{BadDocument};
ghost use Rattle.wef_elements.specs.Texts.{said_in};
ghost use Rattle.wef_elements.specs.Values.{number_said};

use crate::children::{attribute, child, inside, text_of};
use crate::faults::{DocumentFault, Part};
use std::alloc::AllocError;
use wef_base::numbers::MAX;
use wef_base::{Element, SubId, Text, ValueFault};
use wef_elements::{number_said, said_in, text_inside};
use wef_eventing::SubKind;
use wef_times::read_duration;

/// What a batch may hold, and times in milliseconds.
#[derive(Clone, Copy, Debug)]
pub struct Limits {
    pub max_items: u32,
    pub heartbeat: u64,
    pub max_bytes: u32,
    pub expires: u64,
}

/// What isn't so is the fault of a part.
pub(crate) fn must(part: Part, holds: bool) -> Result<(), DocumentFault>
    ensures { Reads result (steps.must (BadDocument part) holds) }
{
    if !holds {
        return Err(DocumentFault::BadDocument(part));
    }
    Ok(())
}

/// The name of the subscription.
pub(crate) fn name_in(root: &Element) -> Result<SubId, DocumentFault>
    ensures { Reads result (name_in root.now) }
{
    let Some(element) = child("SubscriptionId", root) else {
        return Err(DocumentFault::BadDocument(Part::SubscriptionId));
    };
    SubId::named(&text_inside(element)?)?.ok_or(DocumentFault::BadDocument(Part::SubscriptionId))
}

/// Who begins the subscription.
pub(crate) fn kind_in(root: &Element) -> Result<SubKind, DocumentFault>
    ensures { Reads result (kind_in root.now) }
{
    let Some(element) = child("SubscriptionType", root) else {
        return Err(DocumentFault::BadDocument(Part::SubscriptionType));
    };
    kind_said(said_in(element)?.as_str()).ok_or(DocumentFault::BadDocument(Part::SubscriptionType))
}

fn kind_said(text: &str) -> Option<SubKind>
    ensures { result ≡ kind_said text.now }
{
    if text == "SourceInitiated" {
        return Some(SubKind::BySource);
    }
    if text == "CollectorInitiated" {
        return Some(SubKind::ByCollector);
    }
    None
}

/// Whether the subscription is enabled, which it is where nothing is said.
pub(crate) fn is_enabled(root: &Element) -> Result<bool, AllocError>
    ensures { IfOk result (λ is. is ≡ is_enabled root.now) }
{
    match child("Enabled", root) {
        Some(element) => Ok(said_in(element)?.as_str() == "true"),
        None => Ok(true),
    }
}

/// Whether the mode of the delivery is that of batches, which it is where nothing is said.
pub(crate) fn is_pushed(root: &Element) -> bool
    ensures { result ≡ is_pushed root.now }
{
    match attribute("Mode", child("Delivery", root)) {
        Some(mode) => mode.as_str() == "Push",
        None => true,
    }
}

/// The limits of a batch and the times, each the usual one where it isn't said.
pub(crate) fn limits_in(root: &Element) -> Result<Limits, DocumentFault>
    ensures { Reads result (limits_in root.now) }
{
    let max_items = items_in(root)?;
    let heartbeat = heartbeat_in(root)?;
    let max_bytes = bytes_in(root)?;
    let expires = expires_in(root)?;
    Ok(Limits {
        max_items,
        heartbeat,
        max_bytes,
        expires,
    })
}

fn items_in(root: &Element) -> Result<u32, DocumentFault>
    ensures { Reads result (items_in root.now) }
{
    let batching = inside("Batching", child("Delivery", root));
    let text = text_of(inside("MaxItems", batching))?;
    let items = number_in(Part::MaxItems, 20, 1, 10_000, text.as_ref())?;
    Ok(items as u32)
}

fn heartbeat_in(root: &Element) -> Result<u64, DocumentFault>
    ensures { Reads result (heartbeat_in root.now) }
{
    let settings = inside("PushSettings", child("Delivery", root));
    let interval = attribute("Interval", inside("Heartbeat", settings));
    number_in(Part::Heartbeat, 900_000, 1, 86_400_000, interval)
}

fn bytes_in(root: &Element) -> Result<u32, DocumentFault>
    ensures { Reads result (bytes_in root.now) }
{
    let text = text_of(child("MaxEnvelopeSize", root))?;
    let bytes = number_in(
        Part::MaxEnvelopeSize,
        512_000,
        8_192,
        4_194_304,
        text.as_ref(),
    )?;
    Ok(bytes as u32)
}

/// The version of the subscription: the first where it isn't said.
pub(crate) fn version_in(root: &Element) -> Result<u64, DocumentFault>
    ensures { Reads result (version_in root.now) }
{
    let text = text_of(child("Version", root))?;
    number_in(Part::Version, 1, 1, MAX, text.as_ref())
}

/// The number that a part says, which must be within bounds; the usual one where it isn't there.
fn number_in(
    part: Part,
    usual: u64,
    least: u64,
    greatest: u64,
    text: Option<&Text>,
) -> Result<u64, DocumentFault>
    requires { usual ≤ greatest }
    ensures read { Reads result (number_in part usual least greatest (option_copied text.entry)) }
    ensures bound { IfOk result (λ n. n ≤ greatest) }
{
    let Some(text) = text else {
        return Ok(usual);
    };
    number_between(least, greatest, text)?.ok_or(DocumentFault::BadDocument(part))
}

fn number_between(least: u64, greatest: u64, text: &Text) -> Result<Option<u64>, AllocError>
    ensures value { IfOk result (λ n. n ≡ option_and_then (between least greatest) (number_said text.now)) }
    ensures bound { IfOk result (λ found. IfSome found (λ n. n ≤ greatest)) }
{
    match number_said(text)? {
        Some(number) if least <= number && number <= greatest => Ok(Some(number)),
        _ => Ok(None),
    }
}

/// How long the subscription holds: an hour where no duration is said.
fn expires_in(root: &Element) -> Result<u64, DocumentFault>
    ensures { Reads result (expires_in root.now) }
{
    let Some(element) = child("Expires", root) else {
        return Ok(3_600_000);
    };
    match read_duration(&text_inside(element)?) {
        Ok(0) => Ok(3_600_000),
        Ok(ms) => Ok(ms),
        Err(ValueFault::TooLarge) => Err(DocumentFault::BadDocument(Part::Expires)),
        Err(ValueFault::NoMemory) => Err(DocumentFault::NoMemory),
        Err(_) => Ok(3_600_000),
    }
}
