//! A whole schedule.

ghost use Rattle.std.specs.List.{All};
ghost use Rattle.std.specs.Prelude.{◌≡◌, IfOk};
ghost use Rattle.wef_replay.specs.Good.{AreGood, no_names};
ghost use Rattle.wef_replay.specs.PlainEvents.{HasPlainEvents};
ghost use Rattle.wef_replay.specs.Schedule.{ReadsSchedule, meaning_after, schedule_of};
ghost use Rattle.wef_replay_values.specs.Reading.{Gives};

use crate::cutting::Parts;
use crate::grammar::read_line;
use crate::lines::Line;
use crate::naming::NamedSources;
use std::alloc::{AllocError, Global};
use thiserror::Error;
use wef_base::List;
use wef_replay_values::values::LineFault;

/// The greatest schedule, in bytes: 16 MiB.
pub const SCHEDULE_LIMIT: usize = 16_777_216;

/// Why a schedule isn't read.
#[derive(Clone, Copy, Debug, PartialEq, Eq, Error)]
pub enum ScheduleFault {
    #[error("no memory")]
    NoMemory,
    #[error("line {line}: not understood")]
    BadLine {
        /// The number of the first line that isn't good, counted from 1.
        line: u64,
    },
    #[error("schedule too long")]
    TooLong,
}

impl From<AllocError> for ScheduleFault {
    ghost use Rattle.std.specs.Prelude.{◌≡◌};
    ghost use Rattle.wef_replay.specs.declared.schedule.ScheduleFault.TheVariants.{NoMemory};

    ghost from_gives = { λ _ e. e ≡ NoMemory };

    fn from(_error: AllocError) -> ScheduleFault {
        ScheduleFault::NoMemory
    }
}

/// The lines of a schedule, without those that do nothing. `TooLong` where there are more than
/// `SCHEDULE_LIMIT` bytes; else `BadLine` with the first line that isn't good.
pub fn read_schedule(alloc: Global, bytes: &[u8]) -> Result<List<Line>, ScheduleFault>
    ensures lines { ReadsSchedule result (schedule_of bytes.now) }
    ensures good { IfOk result (AreGood no_names) }
    ensures plain { IfOk result (All HasPlainEvents) }
{
    read_lines(alloc, bytes)
}

#[tactic(auto, unfolding(crate::specs::Schedule::schedule_of))]
fn read_lines(alloc: Global, bytes: &[u8]) -> Result<List<Line>, ScheduleFault>
    ensures { ReadsSchedule result (schedule_of bytes.now) }
{
    if bytes.len() > SCHEDULE_LIMIT {
        return Err(ScheduleFault::TooLong);
    }
    let mut lines = List::new(alloc);
    let mut names = NamedSources::new(alloc);
    let mut number = 0u64;
    for text in Parts::of(bytes, b'\n') {
        number += 1;
        match read_next(alloc, &names, text) {
            Ok(Some(line)) => {
                names.note(&line)?;
                lines.push(line)?;
            }
            Ok(None) => continue,
            Err(LineFault::NoMemory) => return Err(ScheduleFault::NoMemory),
            Err(LineFault::NotUnderstood) => return Err(ScheduleFault::BadLine { line: number }),
        }
    }
    Ok(lines)
}

/// What a line does, if anything, after lines that gave these names.
fn read_next(alloc: Global, names: &NamedSources, text: &[u8]) -> Result<Option<Line>, LineFault>
    ensures { Gives result (meaning_after names.now text.now) }
{
    match read_line(alloc, text)? {
        Some(line) if !names.allow(&line) => Err(LineFault::NotUnderstood),
        done => Ok(done),
    }
}
