//! `add`: the subscription of a document is added.

ghost use Rattle.std.specs.Prelude.{◌≡◌, Some, IfOk, IfErr};
ghost use Rattle.wef_commands.specs.Adding as spec;
ghost use Rattle.wef_commands.specs.Calling.{CallEnds, WroteOut, named_ending};
ghost use Rattle.wef_commands.specs.Endings.{told_of};
ghost use Rattle.wef_documents.specs.Bytes.{document_in};
ghost use Rattle.wef_documents.specs.Kept.{read_kept};
ghost use Rattle.wef_documents.specs.Written.{document_text};

use crate::calling::{named_ending, write_done};
use crate::ending::Ending;
use crate::streams::{InputFault, read_whole};
use std::alloc::{AllocError, Global};
use wef_base::{Sink, Source, SubId, Text};
use wef_collector::Collector;
use wef_documents::{DocumentFault, read_document};
use wef_eventing::Subscription;
use wef_keeper::Keeper;
use wef_lines::name_line;
use wef_xml::TreeFault;

/// Adds the subscription of a document, and tells so. The document is read and judged before the
/// collector is started, and may be as long as there is memory for it.
pub fn add<K: Keeper, I: Source, O: Sink>(
    alloc: Global,
    keeper: K,
    input: &mut I,
    out: &mut O,
) -> (K, Ending)
    ensures { spec.AddEnds result.1
        (told_of I.left I.faults input.old input.new)
        (told_of O.taken O.faults out.old out.new)
        (K.store keeper) (K.store result.0) }
{
    let subscription = match read_subscription(alloc, input) {
        Ok(subscription) => subscription,
        Err(ending) => return (keeper, ending),
    };
    match telling(&subscription.name) {
        Ok((name, text)) => add_read(alloc, keeper, &subscription, name, &text, out),
        Err(_) => (keeper, Ending::NoMemory),
    }
}

/// Adds a subscription, and writes the text then. The name is that by which a refusal tells it.
fn add_read<K: Keeper, O: Sink>(
    alloc: Global,
    keeper: K,
    subscription: &Subscription,
    name: SubId,
    text: &Text,
    out: &mut O,
) -> (K, Ending)
    requires kept { read_kept subscription.now.name (document_text subscription.now) ≡ Some subscription.now }
    ensures { CallEnds (spec.Adds subscription.now) (named_ending name) (λ _. WroteOut text.now) result.1
        (told_of O.taken O.faults out.old out.new)
        (K.store keeper) (K.store result.0) }
{
    let mut collector = match Collector::start(alloc, keeper) {
        Ok(collector) => collector,
        Err((keeper, fault)) => return (keeper, Ending::from(fault)),
    };
    match collector.add(subscription) {
        Ok(()) => (collector.into_keeper(), write_done(text, out)),
        Err(fault) => (collector.into_keeper(), named_ending(name, fault)),
    }
}

/// A copy of a subscription's name, and the text that tells that it was added.
fn telling(name: &SubId) -> Result<(SubId, Text), AllocError>
    ensures name { IfOk result (λ told. told.0 ≡ name.now) }
    ensures text { IfOk result (λ told. told.1 ≡ spec.added_text name.now) }
{
    let text = name_line("added", name.as_text())?;
    Ok((name.clone()?, text))
}

/// The subscription of the document that an input is, read to its end; or how the run ends.
fn read_subscription<I: Source>(alloc: Global, input: &mut I) -> Result<Subscription, Ending>
    ensures ok { IfOk result (λ subscription. spec.HasDocument subscription
        (told_of I.left I.faults input.old input.new)) }
    ensures kept { IfOk result (λ subscription. read_kept subscription.name (document_text subscription) ≡ Some subscription) }
    ensures err { IfErr result (λ ending. spec.DocumentEnds ending
        (told_of I.left I.faults input.old input.new)) }
{
    let bytes = match read_whole(alloc, input, usize::MAX) {
        Ok(bytes) => bytes,
        Err(InputFault::NoMemory | InputFault::TooLong) => return Err(Ending::NoMemory),
        Err(InputFault::Failed) => return Err(Ending::InputFailed),
    };
    subscription_in(alloc, bytes.as_slice())
}

fn subscription_in(alloc: Global, bytes: &[u8]) -> Result<Subscription, Ending>
    ensures ok { IfOk result (λ subscription. document_in bytes.now ≡ Some subscription) }
    ensures kept { IfOk result (λ subscription. read_kept subscription.name (document_text subscription) ≡ Some subscription) }
    ensures err { IfErr result (λ ending. spec.IsRefused ending bytes.now) }
{
    match read_document(alloc, bytes) {
        Ok(subscription) => Ok(subscription),
        Err(DocumentFault::NoMemory) => Err(Ending::NoMemory),
        Err(DocumentFault::Tree(fault)) => Err(Ending::BadPlace(place_of(fault))),
        Err(DocumentFault::BadDocument(part)) => Err(Ending::BadElement(part)),
    }
}

fn place_of(fault: TreeFault) -> usize
    ensures { result ≡ spec.place_of fault }
{
    match fault {
        TreeFault::NoMemory => 0,
        TreeFault::BadCharset { at } => at,
        TreeFault::BadXml { at } => at,
        TreeFault::TooDeep { at } => at,
        TreeFault::Refused { at } => at,
    }
}
