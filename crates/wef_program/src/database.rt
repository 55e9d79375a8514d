//! The program over a database.

ghost use Rattle.std.specs.Prelude.{◌≡◌, ◌⊎◌, true, false};
ghost use Rattle.wef_cli.specs.Leaving.{SaysOf};
ghost use Rattle.wef_cli.specs.Runs.{RunEnds};
ghost use Rattle.wef_command_line.specs.Command.{command_of};
ghost use Rattle.wef_commands.specs.Endings.{IsToldAs, told_of, status_of};
ghost use Rattle.wef_commands.specs.declared.ending.Ending as the_ending;
ghost use Rattle.wef_program.specs.InDatabase.{InDatabase, keeper_store};
ghost use Rattle.wef_program.specs.Opening.{IsOpening, asks_store};
ghost use Rattle.wef_sqlite.specs.Keeping.{IsLeft, IsShown};

use std::alloc::Global;
use wef_base::{Sink, Source, Text};
use wef_command_line::Command;
use wef_connections::{Front, Link};
use wef_keeper::Keeper;
use wef_ports::Clock;
use wef_sqlite::{Opens, SqlKeeper};

/// Runs `wef` with the words that follow the program's name over a database, and answers its keeper and
/// the exit status.
///
/// All that is proved of a run over any store that tells its rows is so of the database: the rows that
/// the keeper tells are those that its table holds, and whatever an opening may find of it after a crash
/// is what the command made of the rows that stood in it, or what its first calls made of them. So what
/// `collect` acknowledged stands in it. That nobody else writes the database, and that its disk returns
/// what was written, is the premise; of a database that was opened anew after a failure nothing is said.
pub fn run_in_database<S: Opens, I: Source, O: Sink, E: Sink, F: Front, L: Link, C: Clock>(
    alloc: Global,
    words: &[Text],
    input: &mut I,
    out: &mut O,
    err: &mut E,
    keeper: SqlKeeper<S>,
    front: &mut F,
    link: &mut L,
    clock: &mut C,
) -> (SqlKeeper<S>, u8)
    ensures ends { (ending : the_ending.Ending) × (told : the_ending.Ending) × IsToldAs ending told × (result.1 ≡ status_of told)
        × RunEnds (command_of words.now) ending
        (told_of I.left I.faults input.old input.new)
        (told_of O.taken O.faults out.old out.new)
        (record { front_before = F.told front.old; front_after = F.told front.new; link_before = L.told link.old; link_after = L.told link.new; moment = C.told clock.old })
        (keeper_store keeper) (keeper_store result.0)
        × InDatabase S.Store (SaysOf (command_of words.now) ending
        (told_of I.left I.faults input.old input.new)
        (told_of O.taken O.faults out.old out.new)
        (record { front_before = F.told front.old; front_after = F.told front.new; link_before = L.told link.old; link_after = L.told link.new; moment = C.told clock.old })
        (keeper_store keeper) (keeper_store result.0)) keeper result.0 }
    ensures shown { IsShown S.Store result.0.database.held (keeper_store result.0) }
    ensures left { IsLeft S.Store result.0.database.held (keeper_store result.0) }
{
    wef_cli::laws::runs_leave_what_they_made();
    let (keeper, status) = wef_cli::run(alloc, words, input, out, err, keeper, front, link, clock);
    keeper.tells();
    (keeper, status)
}

/// Opens the store where the words ask for a command that uses it, so that the command begins with rows
/// that are told. One that can't be opened is left to the command, which tries again and tells it. Where
/// memory is wanting to read the words, the store is left as it is.
#[tactic(auto, using(crate::proofs::Opening::opening_left))]
pub fn open_for<S: Opens>(mut keeper: SqlKeeper<S>, words: &[Text]) -> SqlKeeper<S>
    ensures unused { asks_store (command_of words.now) ≡ false → result ≡ keeper }
    ensures opens { asks_store (command_of words.now) ≡ true → (result ≡ keeper) ⊎ IsOpening (keeper_store keeper) (keeper_store result) }
{
    if uses_store(words) {
        // A failure is told by the command, which opens the store again.
        let _ = keeper.reopen();
    }
    keeper
}

/// Whether words ask for a command that uses the store. No also where memory is wanting to read them.
fn uses_store(words: &[Text]) -> bool
    ensures { result ≡ true → asks_store (command_of words.now) ≡ true }
{
    match Command::read(words) {
        Ok(Some(Command::Replay | Command::Made { .. } | Command::Check)) => false,
        Ok(Some(_)) => true,
        Ok(None) | Err(_) => false,
    }
}
