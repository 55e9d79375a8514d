//! Has the lines of its input answered, replays its schedules, and runs its scripts with itself as `wef`, each
//! command a process of its own; and prints what comes of each.
//!
//! With words after its name it is `wef`.
//!
//! A line `=== CRATE TASK: TITLE` says which crate of tests answers each line after it, and as what. After
//! a line `=== many CRATE TASK: TITLE` they stand for longer ones, in which `~PIECE~COUNT~` is so many of a piece.
//! After a line `=== script: TITLE` each is the name of a script. After `=== link: TITLE` each says what a link
//! over TCP is to do, one link for all: so a script that runs this program without words has a client. A line
//! `=== schedule: TITLE` begins a schedule of the lines after it, and after a line `=== each: TITLE` every
//! line is a schedule of its own: it stands last, without an end of its line, after a line that adds the
//! subscription `base`. After a line `=== between: TITLE`, which stands behind a schedule, each line is put
//! into that schedule, at every place behind its first line in turn.
#![tactic(auto)]

mod schedules;
mod scripts;

use schedules::{push_replayed, push_replayed_between, push_replayed_last};
use std::alloc::AllocError;
use std::process::ExitCode;
use std::{env, io, mem};
use tests_runs::repeats::repeated;
use wef_base::{Bytes, Text};
use wef_tcp::TcpLink;

fn main(rt: HostRuntime) -> io::Result<ExitCode> {
    if env::args(&rt)?.count() > 1 {
        return Ok(wef_program::run(rt));
    }
    answer_lines(&rt)?;
    Ok(ExitCode::SUCCESS)
}

/// Answers the lines of the input, replays its schedules, and runs its scripts.
fn answer_lines(rt: &HostRuntime) -> io::Result<()> {
    let alloc = rt.alloc();
    let mut name = Text::new(alloc);
    let mut schedule = Bytes::new(alloc);
    let mut before = Bytes::new(alloc);
    let mut link = TcpLink::new(*rt);
    for line in rt.lines(alloc) {
        let line = line?;
        if let Some(heading) = line.strip_prefix("=== ") {
            print_schedule(rt, schedule.as_slice())?;
            before = mem::replace(&mut schedule, Bytes::new(alloc));
            println!(rt; "{line}")?;
            name = Text::from_str(alloc, name_of(heading))?;
        } else if name.as_str() == "schedule" {
            schedule.extend(line.as_bytes())?;
            schedule.push(b'\n')?;
        } else if name.as_str() == "script" {
            print_script(rt, line.as_str())?;
        } else if name.as_str() == "between" {
            print_between(rt, before.as_slice(), line.as_str())?;
        } else if name.as_str() == "link" {
            print_call(rt, &mut link, line.as_str())?;
        } else {
            print_answer(rt, name.as_str(), line.as_str())?;
        }
    }
    print_schedule(rt, schedule.as_slice())
}

/// What stands before the colon of a heading.
fn name_of(heading: &str) -> &str {
    let (name, _) = heading.split_once(':').unwrap_or((heading, ""));
    name
}

/// Prints what a schedule comes to.
fn print_schedule(rt: &HostRuntime, schedule: &[u8]) -> io::Result<()> {
    let mut shown = Text::new(rt.alloc());
    push_replayed(&mut shown, schedule)?;
    rt.stdout().write_all(shown.as_str().as_bytes())
}

/// Prints a line, and what a schedule comes to with it at each place behind its first line.
fn print_between(rt: &HostRuntime, schedule: &[u8], line: &str) -> io::Result<()> {
    println!(rt; "{line}")?;
    let mut shown = Text::new(rt.alloc());
    push_replayed_between(&mut shown, schedule, line)?;
    rt.stdout().write_all(shown.as_str().as_bytes())
}

/// Prints the name of a script, what it prints, and whether it went well.
fn print_script(rt: &HostRuntime, name: &str) -> io::Result<()> {
    println!(rt; "{name}")?;
    let went_well = scripts::run(rt, name)?;
    println!(rt; "    {}", if went_well { "went well" } else { "failed" })
}

/// Prints what comes of what a link is to do.
fn print_call(rt: &HostRuntime, link: &mut TcpLink, line: &str) -> io::Result<()> {
    let mut shown = Text::new(rt.alloc());
    tests_tcp::lines::push_answer(&mut shown, link, line)?;
    println!(rt; "{}", shown.as_str())
}

/// Prints a line and its answer.
fn print_answer(rt: &HostRuntime, name: &str, line: &str) -> io::Result<()> {
    println!(rt; "{line}")?;
    let mut shown = Text::new(rt.alloc());
    if !push_answer_of_many(&mut shown, name, line)? {
        return Err(io::ErrorKind::InvalidData.into());
    }
    println!(rt; "    {}", shown.as_str())
}

/// Appends the answer to a line, in which pieces are repeated where `many` stands before its name.
fn push_answer_of_many(shown: &mut Text, name: &str, line: &str) -> Result<bool, AllocError> {
    match name.strip_prefix("many ") {
        Some(name) => push_answer(shown, name, repeated(shown.alloc(), line, '~')?.as_str()),
        None => push_answer(shown, name, line),
    }
}

/// Appends the answer to a line by the name before a heading's colon, and tells whether there is one.
fn push_answer(shown: &mut Text, name: &str, line: &str) -> Result<bool, AllocError> {
    let (tests, task) = name.split_once(' ').unwrap_or((name, ""));
    match tests {
        "documents" => tests_documents::push_answer(shown, task, line),
        "values" => tests_values::push_answer(shown, task, line),
        "messages" => tests_messages::push_answer(shown, task, line),
        "http" => tests_http::push_answer(shown, task, line),
        "stores" => tests_stores::push_answer(shown, task, line),
        "exchanges" => tests_exchanges::push_answer(shown, task, line),
        "answers" => tests_answers::push_answer(shown, task, line),
        "runs" => tests_runs::push_answer(shown, task, line),
        "ends" => tests_ends::push_answer(shown, task, line),
        "worlds" => tests_worlds::push_answer(shown, task, line),
        "each" => {
            push_replayed_last(shown, line)?;
            Ok(true)
        }
        _ => Ok(false),
    }
}
