//! The keeper whose rows stand in a database, and which tells them.

ghost use Rattle.std.specs.Prelude.{◌≡◌, if◌then◌else◌, ◌≤◌, true, length, take, All, is_err, is_some, false, IfOk, IfErr, IfSome, OnErr, OnOk};
ghost use Rattle.std.specs.declared.option.Option.TheVariants.{None, Some};
ghost use Rattle.wef_base.specs.Counts.{Rose};
ghost use Rattle.wef_keeper.specs.Keeping.{Follows, HasFault, Stays, raised, row_at};
ghost use Rattle.wef_keeper.specs.Rows.{applied, is_after, rows_after};
ghost use Rattle.wef_keeper.specs.declared.keys.Row as the_row;
ghost use Rattle.wef_sqlite.specs.Keeping.{FindsImages, IsLeft, IsShown, StaysSet, is_opened, store_of};
ghost use Rattle.wef_sqlite.specs.Telling.{IsAlive};

use crate::database::Database;
use crate::opening::{Opens, Origin};
use crate::refusal::Refusal;
use sqlite::Connection;
use wef_base::{List, Text};
use wef_keeper::keeping::begin_read;
use wef_keeper::{Change, Keeper, KeeperFault, Key, Row};

/// The rows in a database.
///
/// The first call opens it. From then on it tells its rows, as far as the disk returns what was written
/// and nobody else writes it, and as long as it isn't opened anew. A commit is one transaction, and any
/// failure in it leaves doubt; an opening ends the doubt with what the database then shows. A connection
/// that a failure shut is opened anew by `reopen`, where the database has a path; what a file then shows
/// isn't known, so nothing is told from there on.
#[derive(Drop)]
pub struct SqlKeeper<S: Opens> {
    origin: Option<Origin>,
    database: Database<S>,
    opened: bool,
    may_be_shut: bool,
    tries: u64,
    reads: u64,
    faults: u64,
}

impl<S: Opens> SqlKeeper<S> {
    /// A keeper of the database at a path, which the first call opens, and makes where it isn't
    /// there. Nothing is opened yet.
    pub fn at(rt: HostRuntime, path: Text) -> Result<SqlKeeper<S>, KeeperFault>
        ensures { result ≡ Ok (record { origin = Some (record { rt = rt; path = path }); database = record { held = None; told = None; doubt = false; connected = false }; opened = false; may_be_shut = false; tries = 0; reads = 0; faults = 0 }) }
    {
        Ok(SqlKeeper::new(Some(Origin { rt, path }), Database::unopened()))
    }

    /// A keeper over an open connection, whose table the first call looks for. It takes no memory.
    pub fn over(connection: Connection<S>) -> SqlKeeper<S>
        ensures { result ≡ record { origin = None; database = record { held = None; told = None; doubt = false; connected = true }; opened = false; may_be_shut = false; tries = 0; reads = 0; faults = 0 } }
    {
        SqlKeeper::new(None, Database::over(connection))
    }

    fn new(origin: Option<Origin>, database: Database<S>) -> SqlKeeper<S>
        ensures { result ≡ record { origin = origin; database = database; opened = false; may_be_shut = false; tries = 0; reads = 0; faults = 0 } }
    {
        SqlKeeper {
            origin,
            database,
            opened: false,
            may_be_shut: false,
            tries: 0,
            reads: 0,
            faults: 0,
        }
    }

    /// Hands the connection back. None where there is none.
    pub fn into_connection(self) -> Option<Connection<S>>
        ensures { is_some result ≡ self.database.connected }
    {
        let SqlKeeper {
            origin: _,
            database,
            opened: _,
            may_be_shut: _,
            tries: _,
            reads: _,
            faults: _,
        } = self;
        database.into_connection()
    }

    /// What is told is so: while the connection is open its table holds the rows that are told, and
    /// whatever an opening may find of it after a crash at this moment is one of the images.
    pub fn tells(&self)
        ensures shown { IsShown S.Store self.now.database.held (store_of self.now.opened self.now.database self.now.tries self.now.reads self.now.faults) }
        ensures left { IsLeft S.Store self.now.database.held (store_of self.now.opened self.now.database self.now.tries self.now.reads self.now.faults) }
        ensures found { FindsImages S.Store self.now.database.held (store_of self.now.opened self.now.database self.now.tries self.now.reads self.now.faults) }
    {
        self.database.tells();
    }

    /// Counts a read, which is refused in doubt.
    fn begin_read(&mut self) -> Result<(), KeeperFault>
        ensures answer { result ≡ (if self.old.database.doubt then Err KeeperFault.InDoubt else Ok tt) }
        ensures count { self.new ≡ record self.old { reads = raised self.old.reads } }
    {
        begin_read(&mut self.reads, self.database.is_in_doubt())
    }

    /// Opens the database where it isn't open.
    fn open(&mut self) -> Result<(), Refusal>
        ensures state { self.new ≡ record self.old { database = self.new.database; opened = is_opened result self.old.opened } }
        ensures stays { self.old.opened ≡ true → Stays self.old.database.told self.new.database.told }
        ensures doubt { self.new.database.doubt ≡ self.old.database.doubt }
        ensures ready { OnOk result (is_some self.new.database.held ≡ true) }
    {
        self.database.open(&self.origin, !self.opened)?;
        self.opened = true;
        Ok(())
    }

    /// Counts a failure, after which the connection may be shut.
    fn count_fault(&mut self)
        ensures grows { self.old.faults ≤ self.new.faults }
        ensures rose { Rose self.old.faults self.new.faults }
        ensures stays { self.new ≡ record self.old { faults = self.new.faults; may_be_shut = true } }
    {
        self.faults = self.faults.saturating_add(1);
        self.may_be_shut = true;
    }

    /// The row of a key, in the database that this opens where it isn't open.
    fn look_up(&mut self, key: &Key) -> Result<Option<Row>, Refusal>
        ensures row { IfSome self.new.database.told (λ told. IfOk result (λ row. row ≡ row_at key.now told.rows)) }
        ensures told { self.old.opened ≡ true → Stays self.old.database.told self.new.database.told }
        ensures doubt { self.new.database.doubt ≡ self.old.database.doubt }
        ensures opened { StaysSet self.old.opened self.new.opened }
        ensures stays { self.new ≡ record self.old { database = self.new.database; opened = self.new.opened } }
    {
        self.open()?;
        self.database.get(key)
    }

    /// The first rows whose keys are greater than `after`, in the database that this opens where it isn't
    /// open.
    fn look_behind(&mut self, after: &Key, max: u32) -> Result<List<Row>, Refusal>
        requires { 1 ≤ max }
        ensures page { IfSome self.new.database.told (λ told. IfOk result (λ page. page ≡ take max (rows_after after.now told.rows))) }
        ensures size { IfOk result (λ page. length page ≤ max) }
        ensures behind { IfOk result (All (λ (row : the_row.Row). is_after after.now row.key ≡ true)) }
        ensures told { self.old.opened ≡ true → Stays self.old.database.told self.new.database.told }
        ensures doubt { self.new.database.doubt ≡ self.old.database.doubt }
        ensures opened { StaysSet self.old.opened self.new.opened }
        ensures stays { self.new ≡ record self.old { database = self.new.database; opened = self.new.opened } }
    {
        self.open()?;
        self.database.page(after, max)
    }

    /// Counts a commit that has begun.
    fn count_try(&mut self)
        ensures { self.new ≡ record self.old { tries = raised self.old.tries } }
    {
        self.tries = self.tries.saturating_add(1);
    }

    /// A commit has begun and fails, since the database can't be opened: there is doubt.
    fn fail_unopened(&mut self)
        ensures tries { self.new.tries ≡ raised self.old.tries }
        ensures grows { self.old.faults ≤ self.new.faults }
        ensures rose { Rose self.old.faults self.new.faults }
        ensures doubt { self.new ≡ record self.old { database = record self.old.database { told = None; doubt = true }; tries = self.new.tries; faults = self.new.faults; may_be_shut = true } }
    {
        self.count_try();
        self.count_fault();
        self.database.begin_doubt();
    }

    /// Makes the changes. Once this has begun, any refusal leaves doubt, want of memory too.
    fn commit_begun(&mut self, changes: &List<Change>) -> Result<(), KeeperFault>
        requires { self.old.database.doubt ≡ false }
        ensures done { OnOk result (Follows self.old.database.told self.new.database.told (λ before now. now.rows ≡ applied changes.now before.rows)) }
        ensures changed { OnErr result (Follows self.old.database.told self.new.database.told (λ before now. (now.rows ≡ before.rows) × (now.changed ≡ applied changes.now before.rows))) }
        ensures failed { IfErr result (λ fault. fault ≡ KeeperFault.Failed) }
        ensures doubt { self.new.database.doubt ≡ is_err result }
        ensures fault { HasFault result self.old.faults self.new.faults }
        ensures stays { self.new ≡ record self.old { database = self.new.database; tries = raised self.old.tries; faults = self.new.faults; may_be_shut = self.new.may_be_shut } }
    {
        self.count_try();
        match self.database.commit(changes) {
            Ok(()) => Ok(()),
            Err(_) => {
                self.count_fault();
                Err(KeeperFault::Failed)
            }
        }
    }

    /// Opens the database where it isn't open, or where a failure shut its connection, and ends the doubt.
    /// Failed where one is shut that has no path.
    fn restore(&mut self) -> Result<(), Refusal>
        ensures found { self.old.opened ≡ true → OnOk result (Follows self.old.database.told self.new.database.told (λ before now. now.rows ≡ before.rows)) }
        ensures kept { self.old.opened ≡ true → OnErr result (Stays self.old.database.told self.new.database.told) }
        ensures ended { OnOk result (self.new.database.doubt ≡ false) }
        ensures doubt { OnErr result (self.new.database.doubt ≡ self.old.database.doubt) }
        ensures ready { OnOk result (is_some self.new.database.held ≡ true) }
        ensures alive { self.old.may_be_shut ≡ true → OnOk result (IsAlive S.Store self.new.database.held) }
        ensures state { self.new ≡ record self.old { database = self.new.database; opened = is_opened result self.old.opened } }
    {
        self.database
            .reopen(&self.origin, !self.opened, self.may_be_shut)?;
        self.opened = true;
        Ok(())
    }
}

impl<S: Opens> Keeper for SqlKeeper<S> {
    ghost use Rattle.wef_sqlite.specs.Keeping.{lawful_store, store_of};

    ghost store = { λ k. store_of k.opened k.database k.tries k.reads k.faults };

    ghost lawful = { λ k. lawful_store k.opened k.database k.tries k.reads k.faults };

    fn get(&mut self, key: &Key) -> Result<Option<Row>, KeeperFault> {
        self.begin_read()?;
        match self.look_up(key) {
            Ok(row) => Ok(row),
            Err(Refusal::NoMemory) => Err(KeeperFault::NoMemory),
            Err(Refusal::Failed) => {
                self.count_fault();
                Err(KeeperFault::Failed)
            }
        }
    }

    fn page(&mut self, after: &Key, max: u32) -> Result<List<Row>, KeeperFault> {
        self.begin_read()?;
        match self.look_behind(after, max) {
            Ok(page) => Ok(page),
            Err(Refusal::NoMemory) => Err(KeeperFault::NoMemory),
            Err(Refusal::Failed) => {
                self.count_fault();
                Err(KeeperFault::Failed)
            }
        }
    }

    /// Want of memory before the transaction refuses the commit; once it began, there is doubt after
    /// any failure.
    fn commit(&mut self, changes: &List<Change>) -> Result<(), KeeperFault> {
        if self.database.is_in_doubt() {
            return Err(KeeperFault::InDoubt);
        }
        match self.open() {
            Ok(()) => {}
            Err(Refusal::NoMemory) => return Err(KeeperFault::NoMemory),
            Err(Refusal::Failed) => {
                self.fail_unopened();
                return Err(KeeperFault::Failed);
            }
        }
        self.commit_begun(changes)
    }

    /// Want of memory in doubt is a failure: the doubt stays.
    fn reopen(&mut self) -> Result<(), KeeperFault> {
        match self.restore() {
            Ok(()) => {
                self.may_be_shut = false;
                Ok(())
            }
            Err(Refusal::NoMemory) if !self.database.is_in_doubt() => Err(KeeperFault::NoMemory),
            Err(_) => {
                self.count_fault();
                Err(KeeperFault::Failed)
            }
        }
    }
}
