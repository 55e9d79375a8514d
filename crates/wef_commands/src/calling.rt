//! What is told of a call of the collector.

ghost use Rattle.std.specs.Prelude.{◌≡◌, ◌≤◌};
ghost use Rattle.wef_commands.specs.Calling as spec;
ghost use Rattle.wef_commands.specs.Endings.{told_of};
ghost use Rattle.wef_commands.specs.Writing.{TellsLine};

use crate::ending::Ending;
use crate::streams::write_whole;
use wef_base::{Sink, SubId, Text};
use wef_collector::CollectorFault;

/// Writes the text of what is done.
pub fn write_done<O: Sink>(text: &Text, out: &mut O) -> Ending
    ensures { spec.WroteOut text.now result
        (told_of O.taken O.faults out.old out.new) }
{
    match write_whole(out, text.as_str().as_bytes()) {
        Ok(()) => Ending::Done,
        Err(_) => Ending::OutputFailed,
    }
}

/// Writes the line that tells of what is done; or says how the run ends.
pub fn tell_line<O: Sink>(line: &str, out: &mut O) -> Result<(), Ending>
    ensures told { TellsLine result
        (told_of O.taken O.faults out.old out.new)
        line.now }
    ensures later { O.faults out.old ≤ O.faults out.new }
{
    match write_whole(out, line.as_bytes()) {
        Ok(()) => Ok(()),
        Err(_) => Err(Ending::OutputFailed),
    }
}

/// The ending that tells of a refusal of a call that names a subscription.
pub fn named_ending(name: SubId, fault: CollectorFault) -> Ending
    ensures { result ≡ spec.named_ending name fault }
{
    match fault {
        CollectorFault::NoSubscription => Ending::Unknown(name),
        CollectorFault::Ended => Ending::Already(name),
        CollectorFault::Exists => Ending::Exists(name),
        CollectorFault::TooMany => Ending::TooMany,
        CollectorFault::NoMemory => Ending::NoMemory,
        CollectorFault::Full => Ending::Full,
        CollectorFault::Failed => Ending::StoreFailed,
        CollectorFault::NotWellFormed => Ending::StoreFailed,
        CollectorFault::NotAsked => Ending::StoreFailed,
    }
}
