//! Where the table stands, from before its opening on.

ghost use Rattle.std.specs.Option.{option_map};
ghost use Rattle.std.specs.Prelude.{◌≡◌, ◌≤◌, true, false, length, take, is_some, All, IfOk, OnOk};
ghost use Rattle.std.specs.declared.option.Option.TheVariants.{None};
ghost use Rattle.wef_keeper.specs.Keeping.{row_at};
ghost use Rattle.wef_keeper.specs.Rows.{is_after, rows_after};
ghost use Rattle.wef_keeper.specs.declared.keys.Row as the_row;
ghost use Rattle.wef_sqlite.specs.Places.{CommitsAt, OnOpen, Remains, has_connection, is_open};
ghost use Rattle.wef_sqlite.specs.Telling.{Commits, IsAlive, ReadsTold, held_in, seen_after};

use crate::opening::{Opens, Origin, connect};
use crate::refusal::Refusal;
use crate::seen::Seen;
use crate::table::Table;
use sqlite::Connection;
use std::mem;
use wef_base::List;
use wef_keeper::{Change, Key, Row};

/// Where the table stands.
#[derive(Drop)]
pub enum Place<S: Opens> {
    /// No connection is there.
    Unopened,

    /// A connection where nobody has looked for the table yet, or that was refused.
    Given(Connection<S>),

    /// The table is open.
    Open(Table<S>),
}

impl<S: Opens> Place<S> {
    /// Opens the table where it isn't open: from the connection that is there, or from the origin. A
    /// connection from the origin that is refused is let go.
    pub fn open(&mut self, origin: &Option<Origin>) -> Result<(), Refusal>
        ensures ready { OnOk result (is_open self.new ≡ true) }
        ensures nothing { is_open self.old ≡ true → (result ≡ Ok tt) × (self.new ≡ self.old) }
        ensures alive { IsAlive S.Store (held_in self.old) → OnOk result (IsAlive S.Store (held_in self.new)) }
    {
        match mem::replace(self, Place::Unopened) {
            Place::Open(table) => {
                *self = Place::Open(table);
                Ok(())
            }
            Place::Given(conn) => self.adopt(conn, origin.is_none()),
            Place::Unopened => self.adopt(connect(origin)?, false),
        }
    }

    /// Takes the table of a connection. One that is refused stays where it is to be kept.
    fn adopt(&mut self, conn: Connection<S>, keeps: bool) -> Result<(), Refusal>
        ensures ready { OnOk result (is_open self.new ≡ true) }
        ensures alive { OnOk result (IsAlive S.Store (held_in self.new)) }
    {
        match Table::adopt(conn) {
            Ok(table) => {
                *self = Place::Open(table);
                Ok(())
            }
            Err((refusal, Some(conn))) if keeps => {
                *self = Place::Given(conn);
                Err(refusal)
            }
            Err((refusal, _)) => Err(refusal),
        }
    }

    /// Lets a connection go that an earlier failure shut. Failed where there is no origin to open it
    /// from.
    pub fn leave_shut(&mut self, origin: &Option<Origin>) -> Result<(), Refusal>
        ensures alive { OnOk result (IsAlive S.Store (held_in self.new)) }
        ensures kept { origin.now ≡ None → has_connection self.new ≡ has_connection self.old }
        ensures remains { Remains S.Store self.old self.new }
    {
        let Place::Open(table) = self else {
            return Ok(());
        };
        if !table.is_shut()? {
            return Ok(());
        }
        if origin.is_none() {
            return Err(Refusal::Failed);
        }
        *self = Place::Unopened;
        Ok(())
    }

    /// The connection, where there is one.
    pub fn into_connection(self) -> Option<Connection<S>>
        ensures { is_some result ≡ has_connection self }
    {
        match self {
            Place::Unopened => None,
            Place::Given(conn) => Some(conn),
            Place::Open(table) => Some(table.into_connection()),
        }
    }

    /// The row of a key, or none where there is none. Failed where the table isn't open.
    pub fn get(&mut self, key: &Key) -> Result<Option<Row>, Refusal>
        ensures unopened { is_open self.old ≡ false → result ≡ Err Refusal.Failed }
        ensures stays { is_open self.old ≡ true → is_open self.new ≡ true }
        ensures told { OnOpen self.new (λ now. ReadsTold S.Store now result (λ row rows. row ≡ row_at key.now rows)) }
        ensures remains { Remains S.Store self.old self.new }
    {
        match self {
            Place::Open(table) => table.get(key),
            _ => Err(Refusal::Failed),
        }
    }

    /// The first `max` rows whose keys are greater than `after`, in the order of their keys. Failed where
    /// the table isn't open.
    pub fn page(&mut self, after: &Key, max: u32) -> Result<List<Row>, Refusal>
        requires { 1 ≤ max }
        ensures unopened { is_open self.old ≡ false → result ≡ Err Refusal.Failed }
        ensures stays { is_open self.old ≡ true → is_open self.new ≡ true }
        ensures told { OnOpen self.new (λ now. ReadsTold S.Store now result (λ page rows. page ≡ take max (rows_after after.now rows))) }
        ensures size { IfOk result (λ page. length page ≤ max) }
        ensures behind { IfOk result (All (λ (row : the_row.Row). is_after after.now row.key ≡ true)) }
        ensures remains { Remains S.Store self.old self.new }
    {
        match self {
            Place::Open(table) => table.page(after, max),
            _ => Err(Refusal::Failed),
        }
    }

    /// Makes all changes in one transaction, in order, or none, and puts down what is seen of the table.
    /// Failed where it isn't open.
    pub fn commit(
        &mut self,
        seen: &mut Option<Seen<S>>,
        changes: &List<Change>,
    ) -> Result<(), Refusal>
        ensures unopened { is_open self.old ≡ false → result ≡ Err Refusal.Failed }
        ensures stays { is_open self.old ≡ true → is_open self.new ≡ true }
        ensures commits { CommitsAt S.Store changes.now result self.old self.new seen.old seen.new }
    {
        match self {
            Place::Open(table) => committed(table, seen, changes),
            _ => Err(Refusal::Failed),
        }
    }

    /// Whether the table is open.
    pub fn is_open(&self) -> bool
        ensures { result ≡ is_open self.now }
    {
        matches!(self, Place::Open(_))
    }

    /// What is seen of the table, where it is open.
    pub fn seen(&self) -> Option<Seen<S>>
        ensures { result ≡ option_map (λ table. record { opened = table; last = table; failed = None }) (held_in self.now) }
    {
        match self {
            Place::Open(table) => Some(Seen::of(table)),
            _ => None,
        }
    }
}

/// Makes changes in a table, and puts down what is seen of it.
fn committed<S: Opens>(
    table: &mut Table<S>,
    seen: &mut Option<Seen<S>>,
    changes: &List<Change>,
) -> Result<(), Refusal>
    ensures commits { Commits S.Store changes.now result table.old table.new }
    ensures seen { seen.new ≡ option_map (λ it. seen_after result changes.now it table.new) seen.old }
{
    let done = table.commit(changes);
    note(seen, table, &done, changes);
    done
}

/// Puts down what is seen of a table after a commit.
fn note<S: Opens>(
    seen: &mut Option<Seen<S>>,
    table: &Table<S>,
    done: &Result<(), Refusal>,
    changes: &List<Change>,
)
    ensures { seen.new ≡ option_map (λ it. seen_after done.now changes.now it table.now) seen.old }
{
    let Some(seen) = seen else {
        return;
    };
    match done {
        Ok(()) => seen.commit_done(table),
        Err(_) => seen.commit_failed(changes),
    }
}
