//! How a database is opened: at a path, with the table of rows in it.

ghost use Rattle.sqlite.specs.Held.{state, IsNew};
ghost use Rattle.sqlite.specs.State.{HasCleanDisk, IsLive, KeepsCommit, Survives};
ghost use Rattle.std.specs.Prelude.{◌≡◌, ◌≢◌, true, false, IsTrue, IfOk, OnOk};
ghost use Rattle.wef_sqlite.specs.Schema.{kept_schema, no_schema};
ghost use Rattle.wef_sqlite.specs.States.{IsReady, Rests};

use crate::refusal::Refusal;
use crate::schema::{is_kept, is_new};
use sqlite::{Alter, Connection, Error, ErrorCode, File, FileStore, MemStore};
use sqlite_disk::{Disk, Fuse};
use sqlite_trees::store::Store;
use std::alloc::Global;
use wef_base::Text;

const CREATE: &str =
    "CREATE TABLE kept (kind INTEGER NOT NULL, sub TEXT NOT NULL, source TEXT NOT NULL, channel TEXT NOT NULL, number INTEGER NOT NULL, value INTEGER NOT NULL, body TEXT NOT NULL, PRIMARY KEY (kind, sub, source, channel, number)) STRICT";

/// A statement that every database answers.
const ANY: &str = "SELECT 1";

/// A store that can be opened at a path.
pub trait Opens: Alter + Drop {
    /// Opens the database at a path, or makes it where no file is there.
    fn open_at(rt: &HostRuntime, path: &Text) -> Result<Connection<Self>, Error>
        ensures { IfOk result IsNew };
}

impl Opens for FileStore<File> {
    fn open_at(rt: &HostRuntime, path: &Text) -> Result<Connection<FileStore<File>>, Error> {
        Connection::open(rt, path.as_str())
    }
}

/// Memory has no path: it is always refused.
impl Opens for MemStore {
    fn open_at(_rt: &HostRuntime, _path: &Text) -> Result<Connection<MemStore>, Error> {
        Err(Error::SqliteFailure(ErrorCode::CannotOpen))
    }
}

/// Nor have files that a test stops: they are always refused.
impl<D: Disk + Drop> Opens for FileStore<Fuse<D>> {
    fn open_at(_rt: &HostRuntime, _path: &Text) -> Result<Connection<FileStore<Fuse<D>>>, Error> {
        Err(Error::SqliteFailure(ErrorCode::CannotOpen))
    }
}

/// Where a database is opened from.
#[derive(Drop)]
pub struct Origin {
    pub rt: HostRuntime,
    pub path: Text,
}

/// Opens the database of an origin. Failed where there is none.
pub fn connect<S: Opens>(origin: &Option<Origin>) -> Result<Connection<S>, Refusal>
    ensures new { IfOk result IsNew }
    ensures none { origin.now ≡ None → result ≡ Err Refusal.Failed }
{
    match origin {
        Some(origin) => Ok(S::open_at(&origin.rt, &origin.path)?),
        None => Err(Refusal::Failed),
    }
}

/// Makes the table in a database with nothing in it. Failed, with nothing written, where there is
/// anything but the table.
pub fn make_table<S: Opens>(conn: &mut Connection<S>) -> Result<(), Refusal>
    ensures made { OnOk result (conn.new.schema ≡ kept_schema) }
    ensures alone { conn.old.schema ≢ no_schema → conn.new ≡ conn.old }
{
    if is_new(conn.schema()) {
        conn.execute_batch(CREATE)?;
    }
    if !is_kept(conn.schema()) {
        return Err(Refusal::Failed);
    }
    Ok(())
}

/// The same database, read and audited once more, from its store. Failed where it isn't that of the
/// table alone.
pub fn audited<S: Opens>(alloc: Global, conn: Connection<S>) -> Result<Connection<S>, Refusal>
    ensures new { IfOk result IsNew }
    ensures live { IfOk result (λ again. HasCleanDisk (state S.Store again) → IsLive (state S.Store again)) }
    ensures ready { IfOk result (λ again. IsReady (state S.Store again)) }
    ensures alive { IfOk result (λ again. HasCleanDisk (state S.Store again) → IsTrue (state S.Store again).is_open) }
{
    let store = conn.into_store();
    if store.is_broken() {
        return Err(Refusal::Failed);
    }
    let again = match Connection::over(alloc, store) {
        Ok(again) => again,
        Err((error, _)) => return Err(Refusal::from(error)),
    };
    if !is_kept(again.schema()) {
        return Err(Refusal::Failed);
    }
    Ok(again)
}

/// The allocator that a connection answers with.
pub fn alloc_of<S: Opens>(conn: &mut Connection<S>) -> Result<Global, Refusal>
    ensures { conn.old.in_transaction ≡ false → conn.new.in_transaction ≡ false }
{
    let rows = conn.query_all(ANY, &[])?;
    Ok(*rows.allocator())
}

/// Whether an earlier failure shut the connection.
#[tactic(auto, using(crate::proofs::Plain::unchanged_rests))]
pub fn is_shut<S: Opens>(conn: &mut Connection<S>) -> Result<bool, Refusal>
    ensures rests { HasCleanDisk (state S.Store conn.new) → IfOk result (λ shut. shut ≡ false → Rests (state S.Store conn.old) (state S.Store conn.new)) }
    ensures alive { HasCleanDisk (state S.Store conn.new) → IfOk result (λ shut. shut ≡ false → IsTrue (state S.Store conn.new).is_open) }
    ensures shut { HasCleanDisk (state S.Store conn.new) → IfOk result (λ shut. shut ≡ true → (state S.Store conn.old).is_open ≡ false) }
    ensures survives { Survives (state S.Store conn.old) (state S.Store conn.new) (λ _. ⊥) }
    ensures keeps { KeepsCommit (state S.Store conn.old) (state S.Store conn.new) }
    ensures ended { conn.old.in_transaction ≡ false → conn.new.in_transaction ≡ false }
{
    match conn.prepare(ANY) {
        Ok(_) => Ok(false),
        Err(Error::SqliteFailure(ErrorCode::Closed)) => Ok(true),
        Err(error) => Err(Refusal::from(error)),
    }
}
