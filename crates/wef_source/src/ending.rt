//! The notes of sessions that end with their source.

ghost use Rattle.std.specs.Prelude.{◌≡◌, ◌≤◌, ◌+◌, ◌*◌, ◌++◌, length, IfOk, IfErr, OnOk};
ghost use Rattle.wef_building.specs.declared.sessions.Lease.{Lease};
ghost use Rattle.wef_ids.specs.IdTexts.{id_of_value};
ghost use Rattle.wef_eventing.specs.declared.subscriptions.EndStatus.TheVariants.{SourceShuttingDown};
ghost use Rattle.wef_source.specs.Answers.{RefusesNote};
ghost use Rattle.wef_source.specs.Machine as machine;

use crate::messages::EndNote;
use std::alloc::{AllocError, Global};
use wef_base::{List, Text};
use wef_building::{Lease, SourceFault};
use wef_eventing::EndStatus;
use wef_ids::MessageId;

/// Draws the next id of a boot and adds the note of a session's end, where that is told. After an error
/// the id may be drawn.
pub fn push_note(
    alloc: Global,
    boot: u64,
    drawn: &mut u64,
    notes: &mut List<EndNote>,
    lease: &Option<Lease>,
) -> Result<(), SourceFault>
    requires { drawn.old ≤ machine.most_drawn }
    ensures notes { OnOk result (notes.new ≡ notes.old ++ machine.note_of (boot * 18446744073709551616 + (drawn.old + 1)) lease.now) }
    ensures drawn { OnOk result (drawn.new ≡ drawn.old + length (machine.note_of (boot * 18446744073709551616 + (drawn.old + 1)) lease.now)) }
    ensures bound { OnOk result (drawn.new ≤ machine.most_drawn) }
    ensures refusal { IfErr result (λ fault. RefusesNote fault (boot * 18446744073709551616 + (drawn.old + 1)) drawn.old lease.now) }
{
    let Some(lease) = lease else {
        return Ok(());
    };
    let Some(end_to) = &lease.end_to else {
        return Ok(());
    };
    if *drawn == u64::MAX {
        return Err(SourceFault::Spent);
    }
    *drawn += 1;
    let note = note_of(
        alloc,
        MessageId::of(boot, *drawn),
        end_to,
        &lease.identifier,
    )?;
    notes.push(note)?;
    Ok(())
}

fn note_of(alloc: Global, id: u128, end_to: &Text, identifier: &Text) -> Result<EndNote, AllocError>
    ensures { IfOk result (λ note. note ≡ record { id = id_of_value id; end_to = end_to.now; identifier = identifier.now; status = SourceShuttingDown }) }
{
    let id = MessageId::of_value(alloc, id)?;
    let end_to = end_to.clone()?;
    Ok(EndNote {
        id,
        end_to,
        identifier: identifier.clone()?,
        status: EndStatus::SourceShuttingDown,
    })
}
