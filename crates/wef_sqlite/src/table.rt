//! A database that has the table of rows.

ghost use Rattle.sqlite.specs.Held.{state, IsNew};
ghost use Rattle.sqlite.specs.State.{HasCleanDisk, IsLive, KeepsCommit, Survives};
ghost use Rattle.sqlite_trees.specs.Tree.{Trees};
ghost use Rattle.std.specs.Prelude.{◌≡◌, ◌≤◌, true, false, length, take, All, IsTrue, IfOk, OnOk};
ghost use Rattle.wef_base.specs.declared.numbers.TheConstants.{MAX};
ghost use Rattle.wef_keeper.specs.Keeping.{row_at};
ghost use Rattle.wef_keeper.specs.Rows.{is_after, rows_after};
ghost use Rattle.wef_keeper.specs.declared.keys.Row as the_row;
ghost use Rattle.wef_sqlite.specs.Contents.{AreReadAt, IsWhole, are_rows, rows_in, table_in};
ghost use Rattle.wef_sqlite.specs.Schema.{kept_schema};
ghost use Rattle.wef_sqlite.specs.States.{IsReady, Rests};
ghost use Rattle.wef_sqlite.specs.Telling.{Commits, ReadsTold};

use crate::opening::{self, Opens};
use crate::refusal::Refusal;
use crate::schema::is_kept;
use crate::{read, write};
use sqlite::Connection;
use std::marker::Model;
use wef_base::List;
use wef_keeper::{Change, Key, Row};

/// An open database with the table of rows. Each call looks first whether its schema is still that
/// of the table alone.
#[derive(Drop)]
pub struct Table<S: Opens> {
    conn: Connection<S>,
}

impl<S: Opens> Model for Table<S> {
    ghost use Rattle.sqlite.specs.Held.{Held, held_code, state};
    ghost use Rattle.wef_sqlite.specs.States.{IsReady};

    ghost Value = { Held S };

    ghost coded = { held_code S.code };

    ghost view = { λ t. t.conn };

    ghost invariant = { λ t. IsReady (state S.Store t.conn) };
}

impl<S: Opens> Table<S> {
    /// The table of a database, which is made where there is none. The whole store is read and
    /// audited. A refused connection comes back where there still is one.
    pub fn adopt(mut conn: Connection<S>) -> Result<Table<S>, (Refusal, Option<Connection<S>>)>
        ensures new { IfOk result (λ table. IsNew table) }
        ensures live { IfOk result (λ table. HasCleanDisk (state S.Store table) → IsLive (state S.Store table)) }
        ensures alive { IfOk result (λ table. HasCleanDisk (state S.Store table) → IsTrue (state S.Store table).is_open) }
    {
        let alloc = match opening::alloc_of(&mut conn) {
            Ok(alloc) => alloc,
            Err(refusal) => return Err((refusal, Some(conn))),
        };
        if let Err(refusal) = opening::make_table(&mut conn) {
            return Err((refusal, Some(conn)));
        }
        match opening::audited(alloc, conn) {
            Ok(conn) => Ok(Table { conn }),
            Err(refusal) => Err((refusal, None)),
        }
    }

    /// Hands the connection back.
    pub fn into_connection(self) -> Connection<S>
        ensures { result ≡ self }
    {
        let Table { conn } = self;
        conn
    }

    /// The row of a key, or none where there is none. Failed where a row of the table says the key and
    /// is none of ours.
    #[tactic(auto, using(crate::proofs::Ready::ready_read))]
    pub fn get(&mut self, key: &Key) -> Result<Option<Row>, Refusal>
        ensures found { IsTrue (state S.Store self.new).is_open → IfOk result (λ row. row ≡ row_at key.now (rows_in (table_in (state S.Store self.new).committed.trees))) }
        ensures told { ReadsTold S.Store self.new result (λ row rows. row ≡ row_at key.now rows) }
        ensures reads { IsTrue (state S.Store self.new).is_open → OnOk result (AreReadAt key.now (table_in (state S.Store self.new).committed.trees)) }
        ensures rests { HasCleanDisk (state S.Store self.new) → OnOk result (Rests (state S.Store self.old) (state S.Store self.new)) }
        ensures alive { HasCleanDisk (state S.Store self.new) → key.now.number ≤ MAX → OnOk result (IsTrue (state S.Store self.new).is_open) }
        ensures keeps { KeepsCommit (state S.Store self.old) (state S.Store self.new) }
        ensures survives { Survives (state S.Store self.old) (state S.Store self.new) (λ _. ⊥) }
    {
        self.look()?;
        read::get(&mut self.conn, key)
    }

    /// The first `max` rows whose keys are greater than `after`, in the order of their keys. Failed where
    /// a row that is read is none of ours.
    #[tactic(auto, using(crate::proofs::Ready::ready_read))]
    pub fn page(&mut self, after: &Key, max: u32) -> Result<List<Row>, Refusal>
        requires { 1 ≤ max }
        ensures told { ReadsTold S.Store self.new result (λ page rows. page ≡ take max (rows_after after.now rows)) }
        ensures rests { HasCleanDisk (state S.Store self.new) → OnOk result (Rests (state S.Store self.old) (state S.Store self.new)) }
        ensures alive { HasCleanDisk (state S.Store self.new) → OnOk result (IsTrue (state S.Store self.new).is_open) }
        ensures keeps { KeepsCommit (state S.Store self.old) (state S.Store self.new) }
        ensures survives { Survives (state S.Store self.old) (state S.Store self.new) (λ _. ⊥) }
        ensures size { IfOk result (λ page. length page ≤ max) }
        ensures behind { IfOk result (All (λ (row : the_row.Row). is_after after.now row.key ≡ true)) }
        ensures given { IsTrue (state S.Store self.new).is_open → are_rows (table_in (state S.Store self.new).committed.trees) ≡ true → IfOk result (λ page. page ≡ take max (rows_after after.now (rows_in (table_in (state S.Store self.new).committed.trees)))) }
    {
        self.look()?;
        read::page(&mut self.conn, after, max)
    }

    /// Makes all changes in one transaction, in order, or none. A crash leaves the rows before, or those
    /// with all changes, and after Ok the latter alone.
    pub fn commit(&mut self, changes: &List<Change>) -> Result<(), Refusal>
        ensures commits { Commits S.Store changes.now result self.old self.new }
        ensures settled { IsTrue (state S.Store self.new).is_open → (trees : Trees) → (state S.Store self.new).may_leave trees → trees ≡ (state S.Store self.new).committed.trees }
        ensures ended { self.old.in_transaction ≡ false → self.new.in_transaction ≡ false }
    {
        if self.is_shut()? {
            return Err(Refusal::Failed);
        }
        self.look()?;
        write::commit(&mut self.conn, changes)
    }

    /// Whether an earlier failure shut the connection.
    #[tactic(auto, using(crate::proofs::Ready::ready_read))]
    pub fn is_shut(&mut self) -> Result<bool, Refusal>
        ensures rests { HasCleanDisk (state S.Store self.new) → IfOk result (λ shut. shut ≡ false → Rests (state S.Store self.old) (state S.Store self.new)) }
        ensures alive { HasCleanDisk (state S.Store self.new) → IfOk result (λ shut. shut ≡ false → IsTrue (state S.Store self.new).is_open) }
        ensures shut { HasCleanDisk (state S.Store self.new) → IfOk result (λ shut. shut ≡ true → (state S.Store self.old).is_open ≡ false) }
        ensures survives { Survives (state S.Store self.old) (state S.Store self.new) (λ _. ⊥) }
        ensures keeps { KeepsCommit (state S.Store self.old) (state S.Store self.new) }
        ensures ended { self.old.in_transaction ≡ false → self.new.in_transaction ≡ false }
    {
        opening::is_shut(&mut self.conn)
    }

    /// Whether the schema is that of the table alone, and no transaction is open.
    fn look(&self) -> Result<(), Refusal>
        ensures kept { OnOk result (self.now.schema ≡ kept_schema) }
        ensures settled { OnOk result (IsTrue (state S.Store self.now).is_open → (state S.Store self.now).now ≡ (state S.Store self.now).committed) }
        ensures ready { IsReady (state S.Store self.now) }
        ensures whole { OnOk result (IsTrue (state S.Store self.now).is_open → IsWhole (table_in (state S.Store self.now).now.trees)) }
    {
        if is_kept(self.conn.schema()) && self.conn.is_autocommit() {
            Ok(())
        } else {
            Err(Refusal::Failed)
        }
    }
}
