//! A whole schedule that a number makes.

ghost use Rattle.std.specs.Prelude.{◌≡◌, ◌++◌, IfOk, IfErr, OnOk};
ghost use Rattle.wef_made.specs.Made as made;
ghost use Rattle.wef_replay.specs.Good.{AreGood, no_names};
ghost use Rattle.wef_replay.specs.declared.schedule.ScheduleFault.TheVariants.{NoMemory};

use crate::draws::Draws;
use crate::lines::{closing_lines, drawn_lines, opening_lines};
use std::alloc::{AllocError, Global};
use wef_base::List;
use wef_replay::{Line, ScheduleFault};

/// The schedule that a seed makes, of so many drawn numbers: four sources write, ask, send and crash,
/// their collector serves them by one subscription, crashes and has commits fail, and in the end all is
/// settled.
#[tactic(auto, using(crate::proofs::Goods::made_schedules_are_good))]
pub fn make_schedule(alloc: Global, seed: u64, size: u32) -> Result<List<Line>, ScheduleFault>
    ensures lines { IfOk result (λ lines. lines ≡ made.schedule seed size) }
    ensures good { IfOk result (AreGood no_names) }
    ensures err { IfErr result (λ fault. fault ≡ NoMemory) }
{
    match make(alloc, seed, size) {
        Ok(lines) => Ok(lines),
        Err(_) => Err(ScheduleFault::NoMemory),
    }
}

fn make(alloc: Global, seed: u64, size: u32) -> Result<List<Line>, AllocError>
    ensures { IfOk result (λ lines. lines ≡ made.schedule seed size) }
{
    let mut lines = opening_lines(alloc)?;
    let mut draws = Draws::new(seed, size);
    while let Some(drawn) = draws.next() {
        append(&mut lines, drawn_lines(alloc, drawn)?)?;
    }
    append(&mut lines, closing_lines(alloc)?)?;
    Ok(lines)
}

fn append(lines: &mut List<Line>, more: List<Line>) -> Result<(), AllocError>
    ensures { OnOk result (lines.new ≡ lines.old ++ more) }
{
    for line in more.into_vec() {
        lines.push(line)?;
    }
    Ok(())
}
