//! Replies as bytes.

ghost use Rattle.std.specs.Prelude.{◌≡◌, true, option_copied, IfOk, IfSome};
ghost use Rattle.wef_envelope.specs.Faults.{is_known};
ghost use Rattle.wef_envelope.specs.Written.{written};
ghost use Rattle.wef_replies.specs.Replies.{answer_with, envelope_with, fault_envelope};
ghost use Rattle.wef_xml.specs.Good.{IsGoodTree, IsXmlText};

use std::alloc::{AllocError, Global};
use wef_base::{Charset, Element, List, Text};
use wef_envelope::actions::ANONYMOUS;
use wef_envelope::{Envelope, Fault, FaultName, MessageId, fault_node, to_node};
use wef_http_heads::Answer;
use wef_tree::write_tree;

/// Answers with a fault of a name, and the status 500. It is written in the charset of the request.
pub fn write_fault(
    alloc: Global,
    charset: Charset,
    id: MessageId,
    relates: Option<&MessageId>,
    name: &FaultName,
) -> Result<Answer, AllocError>
    requires known { is_known name.now ≡ true }
    requires id { IsXmlText id.text }
    requires relates { IfSome (option_copied relates) (λ id. IsXmlText id.text) }
    ensures { IfOk result (λ answer. answer ≡ answer_with 500 charset (fault_envelope name.now id (option_copied relates.entry))) }
{
    let envelope = fault_envelope(alloc, id, relates, name)?;
    write_answer(alloc, 500, charset, &envelope)
}

fn fault_envelope(
    alloc: Global,
    id: MessageId,
    relates: Option<&MessageId>,
    name: &FaultName,
) -> Result<Envelope, AllocError>
    requires { is_known name.now ≡ true }
    ensures { IfOk result (λ envelope. envelope ≡ fault_envelope name.now id (option_copied relates.entry)) }
{
    let fault = Fault::of(name.clone()?);
    let mut body = List::new(alloc);
    body.push(fault_node(alloc, &fault)?)?;
    envelope_with(alloc, fault.action(), body, id, relates)
}

/// An envelope that answers another: it goes to whoever asked.
pub fn envelope_with(
    alloc: Global,
    action: &str,
    body: List<Element>,
    id: MessageId,
    relates: Option<&MessageId>,
) -> Result<Envelope, AllocError>
    ensures { IfOk result (λ envelope. envelope ≡ envelope_with action.now body id (option_copied relates.entry)) }
{
    let to = Text::from_str(alloc, ANONYMOUS)?;
    let action = Text::from_str(alloc, action)?;
    let mut envelope = Envelope::new(to, action, id, body);
    envelope.relates = copied(relates)?;
    Ok(envelope)
}

fn copied(id: Option<&MessageId>) -> Result<Option<MessageId>, AllocError>
    ensures { IfOk result (λ copy. copy ≡ option_copied id.entry) }
{
    match id {
        Some(id) => Ok(Some(id.clone()?)),
        None => Ok(None),
    }
}

/// Answers with an envelope, written in a charset.
pub fn write_answer(
    alloc: Global,
    status: u16,
    charset: Charset,
    envelope: &Envelope,
) -> Result<Answer, AllocError>
    requires { IsGoodTree (written envelope.now) }
    ensures { IfOk result (λ answer. answer ≡ answer_with status charset envelope.now) }
{
    let root = to_node(envelope)?;
    match write_tree(alloc, &root, charset) {
        Ok(body) => Ok(Answer { status, body }),
        Err(_) => Err(AllocError),
    }
}
