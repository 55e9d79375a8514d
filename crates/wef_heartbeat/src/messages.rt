//! The heartbeat as a message.

ghost use Rattle.std.specs.Prelude.{◌≡◌, [], ◌∷◌, option_copied, IfOk};
ghost use Rattle.wef_heartbeat.specs.Messages as spec;

use std::alloc::{AllocError, Global};
use wef_base::{Element, List, Text};
use wef_elements::{management, with_elements};
use wef_envelope::actions::{ANONYMOUS, HEARTBEAT};
use wef_envelope::{Envelope, MessageId};

/// A heartbeat of a session (WS-Management, 10.2.9): its source is there, and has nothing to send.
#[derive(Debug, Drop)]
pub struct Heartbeat {
    pub id: MessageId,
    /// Where the session's events go.
    pub notify_to: Text,
    /// What comes back with each of the session's messages, where the collector gave it.
    pub identifier: Option<Text>,
}

/// The envelope of a heartbeat, which is acknowledged as a batch is. Its Body is that of a batch without items.
pub fn heartbeat_envelope(alloc: Global, beat: &Heartbeat) -> Result<Envelope, AllocError>
    ensures { IfOk result (λ envelope. envelope ≡ spec.heartbeat_envelope beat.now) }
{
    let to = beat.notify_to.clone()?;
    let action = Text::from_str(alloc, HEARTBEAT)?;
    let body = no_events(alloc)?;
    let mut envelope = Envelope::new(to, action, beat.id.clone()?, body);
    envelope.reply_to = Some(Text::from_str(alloc, ANONYMOUS)?);
    envelope.identifier = copied(beat.identifier.as_ref())?;
    envelope.ack_wanted = true;
    Ok(envelope)
}

fn no_events(alloc: Global) -> Result<List<Element>, AllocError>
    ensures { IfOk result (λ body. body ≡ spec.no_events ∷ []) }
{
    let mut body = List::new(alloc);
    body.push(with_elements(management(alloc)?, "Events", List::new(alloc))?)?;
    Ok(body)
}

fn copied(text: Option<&Text>) -> Result<Option<Text>, AllocError>
    ensures { IfOk result (λ copy. copy ≡ option_copied text.entry) }
{
    match text {
        Some(text) => Ok(Some(text.clone()?)),
        None => Ok(None),
    }
}
