//! All of the program `wef`: it hands the real streams, the store in the file `wef.db` of the current folder,
//! connections of TCP, the clock of the system, and the words of its command line to `run`.
#![tactic(auto)]

pub mod database;

use database::{open_for, run_in_database};
use sqlite::{File, FileStore};
use std::alloc::Global;
use std::io::ErrorKind;
use std::process::ExitCode;
use std::{env, io};
use wef_base::{StdErr, StdSink, StdSource, Text};
use wef_cli::Ending;
use wef_keeper::KeeperFault;
use wef_ports::SystemClock;
use wef_sqlite::SqlKeeper;
use wef_tcp::{TcpFront, TcpLink};

/// The file of the store. Nothing is opened, or made, before a command asks the store.
const STORE: &str = "wef.db";

/// Runs the program with the words of its command line, and answers its exit status.
pub fn run(rt: HostRuntime) -> ExitCode {
    let alloc = rt.alloc();
    let mut err = StdErr::new(rt);
    let words = match words_of(&rt, alloc) {
        Ok(words) => words,
        Err(error) => return ended(alloc, ending_of(error.kind()), &mut err),
    };
    let keeper = match keeper_in(rt, alloc) {
        Ok(keeper) => keeper,
        Err(fault) => return ended(alloc, Ending::from(fault), &mut err),
    };
    let mut input = StdSource::new(rt);
    let mut out = StdSink::new(rt);
    let (_, status) = run_in_database(
        alloc,
        words.as_slice(),
        &mut input,
        &mut out,
        &mut err,
        open_for(keeper, words.as_slice()),
        &mut TcpFront::new(rt),
        &mut TcpLink::new(rt),
        &mut SystemClock::new(rt),
    );
    ExitCode::from(status)
}

/// The words of the command line behind the program's name.
fn words_of(rt: &HostRuntime, alloc: Global) -> io::Result<Vec<Text>> {
    let mut words = Vec::new(alloc);
    for word in env::args(rt)?.skip(1) {
        words.push(Text::from_string(word)?)?;
    }
    Ok(words)
}

fn keeper_in(rt: HostRuntime, alloc: Global) -> Result<SqlKeeper<FileStore<File>>, KeeperFault> {
    SqlKeeper::at(rt, Text::from_str(alloc, STORE)?)
}

/// How a run ends whose words can't be had: one that isn't UTF-8 is no command, and else memory is
/// wanting.
fn ending_of(kind: ErrorKind) -> Ending {
    match kind {
        ErrorKind::InvalidData => Ending::BadCommand,
        _ => Ending::NoMemory,
    }
}

/// Tells how a run ends that didn't begin.
fn ended(alloc: Global, ending: Ending, err: &mut StdErr) -> ExitCode {
    ExitCode::from(ending.tell(alloc, err).status())
}
