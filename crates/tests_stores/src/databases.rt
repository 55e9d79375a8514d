//! Stores in SQLite, over disks in memory.

use crate::schedules::push_over;
use sqlite::{Connection, Options};
use sqlite_disk::{Files, Fuse, Memory};
use std::alloc::{AllocError, Global};
use tests_tasks::runs::Runs;
use wef_base::Text;
use wef_sqlite::{Opens, SqlKeeper};

/// How many calls the disks last that stop.
const CALLS: u64 = 64;

/// What comes of the steps of a line in a new database.
pub(crate) fn push_in_database(shown: &mut Text, line: &str) -> Result<(), AllocError> {
    let told = told_over(shown.alloc(), u64::MAX, line)?;
    shown.push_str(told.as_str())
}

/// The same over a disk whose log stops after a number of calls, for each number up to 64, and over one that
/// doesn't stop.
pub(crate) fn push_stopping(shown: &mut Text, line: &str) -> Result<(), AllocError> {
    let alloc = shown.alloc();
    let mut runs = Runs::new(alloc);
    for calls in 0..CALLS {
        runs.add(shown, calls, told_over(alloc, calls, line)?)?;
    }
    runs.add(shown, u64::MAX, told_over(alloc, u64::MAX, line)?)
}

/// What comes of the steps over a disk whose log stops after so many calls. This function alone names the
/// disk, and hands the connection on at once: whatever names it is long to prove.
fn told_over(alloc: Global, calls: u64, line: &str) -> Result<Text, AllocError> {
    let files = Files {
        log: Fuse::new(Memory::new(alloc), calls),
        db: Fuse::new(Memory::new(alloc), u64::MAX),
    };
    match Connection::open_files(alloc, files, Options::new(0)) {
        Ok(conn) => told(alloc, conn, line),
        Err(_) => Text::from_str(alloc, "not opened"),
    }
}

fn told<S: Opens>(alloc: Global, conn: Connection<S>, line: &str) -> Result<Text, AllocError> {
    let mut told = Text::new(alloc);
    push_openings(&mut told, &mut Some(conn), line)?;
    Ok(told)
}

fn push_openings<S: Opens>(
    told: &mut Text,
    conn: &mut Option<Connection<S>>,
    line: &str,
) -> Result<(), AllocError> {
    for (place, steps) in line.split(" then ").enumerate() {
        told.push_str(if place > 0 { " then " } else { "" })?;
        push_opening(told, conn, steps)?;
    }
    Ok(())
}

/// Has steps done by a store that is opened over a connection, or SQL done in its database.
fn push_opening<S: Opens>(
    told: &mut Text,
    place: &mut Option<Connection<S>>,
    steps: &str,
) -> Result<(), AllocError> {
    let Some(conn) = place.take() else {
        return told.push_str("no connection");
    };
    let mut conn = conn;
    if let Some(sql) = steps.strip_prefix("sql ") {
        let done = conn.execute_batch(sql).is_ok();
        *place = Some(conn);
        return told.push_str(if done { "done" } else { "refused" });
    }
    let (keeper, pushed) = push_over(told, SqlKeeper::over(conn), steps);
    *place = keeper.into_connection();
    pushed
}
