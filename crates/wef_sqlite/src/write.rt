//! The statements that write, and the transaction round them.

ghost use Rattle.sqlite.specs.Held.{state};
ghost use Rattle.sqlite.specs.State.{HasCleanDisk, ExecutesInside, KeepsCommit, Survives};
ghost use Rattle.std.specs.Prelude.{◌≡◌, false, pos, IsTrue, OnErr, OnOk};
ghost use Rattle.std.specs.declared.option.Option.TheVariants.{Some};
ghost use Rattle.wef_keeper.specs.Rows.{applied, cell_of_row};
ghost use Rattle.wef_sqlite.specs.Columns.{entry_in};
ghost use Rattle.wef_sqlite.specs.Contents.{Carries, IsOurs, LeavesRows};
ghost use Rattle.wef_sqlite.specs.Makes.{Puts, Deletes, Makes, MakesAll, IsMade, LeavesMade};
ghost use Rattle.wef_sqlite.specs.Statements.{key_values, row_values};

use crate::columns::{kept_number, key_values, kind_number};
use crate::refusal::Refusal;
use sqlite::{Alter, Connection, Error, Transaction, params};
use wef_base::List;
use wef_keeper::{Change, Key, Row};

const PUT: &str =
    "INSERT OR REPLACE INTO kept (kind, sub, source, channel, number, value, body) VALUES (?1, ?2, ?3, ?4, ?5, ?6, ?7)";

const DELETE: &str =
    "DELETE FROM kept WHERE kind = ?1 AND sub = ?2 AND source = ?3 AND channel = ?4 AND number = ?5";

/// Makes all changes in one transaction, in order, or none.
pub fn commit<S: Alter>(conn: &mut Connection<S>, changes: &List<Change>) -> Result<(), Refusal>
    ensures ended { conn.old.in_transaction ≡ false → conn.new.in_transaction ≡ false }
    ensures made { HasCleanDisk (state S.Store conn.new) → OnOk result (IsMade S.Store changes.now conn.old (state S.Store conn.new).committed) }
    ensures crash { Survives (state S.Store conn.old) (state S.Store conn.new) (LeavesMade S.Store changes.now conn.old) }
    ensures rows { HasCleanDisk (state S.Store conn.new) → OnOk result (IsOurs (state S.Store conn.old).now → Carries (applied changes.now) (state S.Store conn.old).now (state S.Store conn.new).committed) }
    ensures crash_rows { IsOurs (state S.Store conn.old).now → Survives (state S.Store conn.old) (state S.Store conn.new) (LeavesRows (applied changes.now) (state S.Store conn.old).now) }
    ensures was_open { HasCleanDisk (state S.Store conn.new) → OnOk result (IsTrue (state S.Store conn.old).is_open) }
    ensures alive { HasCleanDisk (state S.Store conn.new) → OnOk result (IsTrue (state S.Store conn.new).is_open) }
    ensures undone { HasCleanDisk (state S.Store conn.new) → OnErr result (KeepsCommit (state S.Store conn.old) (state S.Store conn.new)) }
{
    if !conn.is_autocommit() {
        return Err(Refusal::Failed);
    }
    let mut tx = conn.transaction();
    change_all(&mut tx, changes.as_slice())?;
    tx.commit()?;
    Ok(())
}

/// Makes changes in order, inside a transaction.
#[tactic(auto, using(crate::proofs::Plain::survives_itself, crate::proofs::Plain::survives_reads, crate::proofs::Keeping::keeps_itself))]
fn change_all<S: Alter>(tx: &mut Transaction<'_, S>, changes: &[Change]) -> Result<(), Refusal>
    ensures same_reference { tx.new.conn.ghost_name ≡ tx.old.conn.ghost_name }
    ensures survives { Survives (state S.Store tx.old.conn.now) (state S.Store tx.new.conn.now) (λ _. ⊥) }
    ensures keeps { HasCleanDisk (state S.Store tx.new.conn.now) → IsTrue (state S.Store tx.old.conn.now).in_transaction → KeepsCommit (state S.Store tx.old.conn.now) (state S.Store tx.new.conn.now) }
    ensures makes { HasCleanDisk (state S.Store tx.new.conn.now) → IsTrue (state S.Store tx.old.conn.now).in_transaction → OnOk result (MakesAll S.Store changes.now tx.old.conn.now tx.new.conn.now × IsTrue (state S.Store tx.new.conn.now).in_transaction) }
{
    for change in changes {
        make(tx, change)?;
    }
    Ok(())
}

/// Makes one change, inside a transaction.
fn make<S: Alter>(tx: &mut Transaction<'_, S>, change: &Change) -> Result<(), Refusal>
    ensures same_reference { tx.new.conn.ghost_name ≡ tx.old.conn.ghost_name }
    ensures survives { Survives (state S.Store tx.old.conn.now) (state S.Store tx.new.conn.now) (λ _. ⊥) }
    ensures keeps { HasCleanDisk (state S.Store tx.new.conn.now) → IsTrue (state S.Store tx.old.conn.now).in_transaction → KeepsCommit (state S.Store tx.old.conn.now) (state S.Store tx.new.conn.now) }
    ensures makes { HasCleanDisk (state S.Store tx.new.conn.now) → IsTrue (state S.Store tx.old.conn.now).in_transaction → OnOk result (Makes S.Store change.now tx.old.conn.now tx.new.conn.now × IsTrue (state S.Store tx.new.conn.now).in_transaction) }
{
    match change {
        Change::Put(row) => put(tx, row),
        Change::Delete(key) => delete(tx, key),
    }
}

/// Puts a row in place of what stands at its key.
#[tactic(auto, using(crate::proofs::Plain::survives_itself, crate::proofs::Keeping::keeps_itself))]
fn put<S: Alter>(tx: &mut Transaction<'_, S>, row: &Row) -> Result<(), Refusal>
    ensures same_reference { tx.new.conn.ghost_name ≡ tx.old.conn.ghost_name }
    ensures survives { Survives (state S.Store tx.old.conn.now) (state S.Store tx.new.conn.now) (λ _. ⊥) }
    ensures keeps { HasCleanDisk (state S.Store tx.new.conn.now) → IsTrue (state S.Store tx.old.conn.now).in_transaction → KeepsCommit (state S.Store tx.old.conn.now) (state S.Store tx.new.conn.now) }
    ensures makes { HasCleanDisk (state S.Store tx.new.conn.now) → IsTrue (state S.Store tx.old.conn.now).in_transaction → OnOk result (Puts S.Store row.now tx.old.conn.now tx.new.conn.now × IsTrue (state S.Store tx.new.conn.now).in_transaction) }
{
    let number = kept_number(row.key.number).ok_or(Refusal::Failed)?;
    let value = kept_number(row.value).ok_or(Refusal::Failed)?;
    let _count = put_values(tx, row, number, value)?;
    Ok(())
}

fn put_values<S: Alter>(
    tx: &mut Transaction<'_, S>,
    row: &Row,
    number: i64,
    value: i64,
) -> Result<usize, Error>
    requires number { number ≡ pos row.now.key.number }
    requires value { value ≡ pos row.now.value }
    ensures reads { entry_in (row_values row.now) ≡ Some (row.now.key, cell_of_row row.now) }
    ensures same_reference { tx.new.conn.ghost_name ≡ tx.old.conn.ghost_name }
    ensures runs { HasCleanDisk (state S.Store tx.new.conn.now) → IsTrue (state S.Store tx.old.conn.now).in_transaction → ExecutesInside 0 PUT.now (row_values row.now) (state S.Store tx.old.conn.now) (state S.Store tx.new.conn.now) result }
    ensures survives { Survives (state S.Store tx.old.conn.now) (state S.Store tx.new.conn.now) (λ _. ⊥) }
    ensures keeps { HasCleanDisk (state S.Store tx.new.conn.now) → IsTrue (state S.Store tx.old.conn.now).in_transaction → KeepsCommit (state S.Store tx.old.conn.now) (state S.Store tx.new.conn.now) }
{
    let key = &row.key;
    tx.execute(
        PUT,
        params![
            kind_number(key.kind),
            key.sub.as_str(),
            key.source.as_str(),
            key.channel.as_str(),
            number,
            value,
            row.body.as_str()
        ],
    )
}

/// Takes away what stands at a key. No row has a number above `MAX`.
#[tactic(auto, using(crate::proofs::Plain::survives_itself, crate::proofs::Keeping::keeps_itself))]
fn delete<S: Alter>(tx: &mut Transaction<'_, S>, key: &Key) -> Result<(), Refusal>
    ensures same_reference { tx.new.conn.ghost_name ≡ tx.old.conn.ghost_name }
    ensures survives { Survives (state S.Store tx.old.conn.now) (state S.Store tx.new.conn.now) (λ _. ⊥) }
    ensures keeps { HasCleanDisk (state S.Store tx.new.conn.now) → IsTrue (state S.Store tx.old.conn.now).in_transaction → KeepsCommit (state S.Store tx.old.conn.now) (state S.Store tx.new.conn.now) }
    ensures makes { HasCleanDisk (state S.Store tx.new.conn.now) → IsTrue (state S.Store tx.old.conn.now).in_transaction → OnOk result (Deletes S.Store key.now tx.old.conn.now tx.new.conn.now × IsTrue (state S.Store tx.new.conn.now).in_transaction) }
{
    let Some(number) = kept_number(key.number) else {
        return Ok(());
    };
    let _count = delete_at(tx, key, number)?;
    Ok(())
}

fn delete_at<S: Alter>(tx: &mut Transaction<'_, S>, key: &Key, number: i64) -> Result<usize, Error>
    requires { number ≡ pos key.now.number }
    ensures same_reference { tx.new.conn.ghost_name ≡ tx.old.conn.ghost_name }
    ensures runs { HasCleanDisk (state S.Store tx.new.conn.now) → IsTrue (state S.Store tx.old.conn.now).in_transaction → ExecutesInside 0 DELETE.now (key_values key.now) (state S.Store tx.old.conn.now) (state S.Store tx.new.conn.now) result }
    ensures survives { Survives (state S.Store tx.old.conn.now) (state S.Store tx.new.conn.now) (λ _. ⊥) }
    ensures keeps { HasCleanDisk (state S.Store tx.new.conn.now) → IsTrue (state S.Store tx.old.conn.now).in_transaction → KeepsCommit (state S.Store tx.old.conn.now) (state S.Store tx.new.conn.now) }
{
    tx.execute(DELETE, &key_values(key, number))
}
