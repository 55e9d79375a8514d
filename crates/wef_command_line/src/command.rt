//! What the program is told to do.

ghost use Rattle.clap.specs.Matches.{found_of};
ghost use Rattle.clap.specs.Simple.{subcommand_rows_of};
ghost use Rattle.clap.specs.Walk.{rows_of, texts};
ghost use Rattle.std.specs.List.{list_any};
ghost use Rattle.std.specs.Prelude.{◌≡◌, true, IfOk, OnErr};
ghost use Rattle.wef_command_line.specs.Command as spec;
ghost use Rattle.wef_command_line.specs.Values as by;

use crate::app::parsed;
use crate::values::{address, channel, number, seed, size, source, subscription};
use clap::ArgMatches;
use std::alloc::{AllocError, Global};
use wef_base::{ChannelName, SourceName, SubId, Text};

/// What `wef` is told to do.
#[derive(Debug, Drop)]
pub enum Command {
    /// Reads a schedule, does its lines, and writes what they print.
    Replay,
    /// Runs the schedule that a seed makes, and writes a summary of what came of it.
    Made {
        /// What the schedule is made from.
        seed: u64,
        /// How many numbers are drawn for it, at most 100,000.
        size: u32,
    },
    /// Reads a subscription document, and adds its subscription.
    Add,
    /// Ends a subscription.
    Remove(SubId),
    /// Writes which subscriptions there are.
    List,
    /// Reads a list of queries and events, and writes of each event whether the list selects it.
    Check,
    /// Reads events, and writes them to the log of the source.
    Write,
    /// Serves connections as the collector, one after the other.
    Collect {
        /// A host and a port, where it listens.
        address: Text,
        /// How many connections it serves, from 1 to 1,000,000.
        connections: u64,
    },
    /// Asks the collector for subscriptions, and sends it what they select of the log of the source.
    Forward {
        /// A host and a port, where the collector listens.
        address: Text,
        /// The name of the source.
        source: SourceName,
        /// How many batches it sends at most, from 1 to 1,000,000.
        deliveries: u64,
    },
    /// Sends the requests that are due to sources whose subscriptions the collector begins.
    Request {
        /// A host and a port, where the collector listens for what they send.
        address: Text,
        /// How many requests it sends at most, from 1 to 1,000,000.
        requests: u64,
    },
    /// Serves connections as a source, one after the other, and sends what its log has for whoever subscribed.
    Serve {
        /// A host and a port, where it listens.
        address: Text,
        /// The name of the source.
        source: SourceName,
        /// How many connections it serves, from 1 to 1,000,000.
        connections: u64,
    },
    /// Writes the report of all that the collector keeps.
    Show,
    /// Writes which sources of a subscription are silent.
    Status(SubId),
    /// Writes the events that the collector holds of a source's channel for a subscription.
    Events {
        name: SubId,
        source: SourceName,
        channel: ChannelName,
    },
}

/// The greatest number of words of a command line.
const MOST_WORDS: usize = 4;

impl Command {
    /// The command that the words ask for; none where they are no command line.
    #[tactic(auto, using(crate::proofs::Lines::no_line))]
    pub fn read(words: &[Text]) -> Result<Option<Command>, AllocError>
        ensures value { IfOk result (λ command. command ≡ spec.command_of words.now) }
        ensures wants_memory { OnErr result (spec.may_be_line words.now ≡ true) }
    {
        if !may_be_line(words) {
            return Ok(None);
        }
        match words {
            [name, ..] => Command::read_line(name.alloc(), words),
            [] => Ok(None),
        }
    }

    /// The same of words that may be a line.
    #[tactic(auto, using(crate::proofs::Found::taken, crate::proofs::Found::refused))]
    fn read_line(alloc: Global, words: &[Text]) -> Result<Option<Command>, AllocError>
        requires { spec.may_be_line words.now ≡ true }
        ensures { IfOk result (λ command. command ≡ spec.command_of words.now) }
    {
        let texts = texts_of(alloc, words)?;
        match parsed(alloc, texts.as_slice())? {
            Some(found) => Command::found(alloc, &found),
            None => Ok(None),
        }
    }

    /// The command that was found in words, with what stands behind its name.
    fn found(alloc: Global, found: &ArgMatches<'_>) -> Result<Option<Command>, AllocError>
        ensures { IfOk result (λ command. command ≡ by.command_found (subcommand_rows_of found.now)) }
    {
        match found.subcommand() {
            Some((name, values)) => Command::by(alloc, name, values),
            None => Ok(None),
        }
    }

    /// The command of a name, with what stands behind it.
    fn by(alloc: Global, name: &str, found: &ArgMatches<'_>) -> Result<Option<Command>, AllocError>
        ensures { IfOk result (λ command. command ≡ by.command_by name.now (rows_of (found_of found.now))) }
    {
        if name == "remove" {
            return Command::remove(alloc, found);
        }
        if name == "status" {
            return Command::status(alloc, found);
        }
        if name == "events" {
            return Command::events(alloc, found);
        }
        if name == "made" {
            return Command::made(alloc, found);
        }
        if name == "collect" {
            return Command::collect(alloc, found);
        }
        if name == "request" {
            return Command::request(alloc, found);
        }
        if name == "forward" {
            return Command::forward(alloc, found);
        }
        if name == "serve" {
            return Command::serve(alloc, found);
        }
        Ok(Command::named(name))
    }

    /// The command of a name behind which nothing stands.
    fn named(name: &str) -> Option<Command>
        ensures { result ≡ spec.command_named name.now }
    {
        if name == "replay" {
            return Some(Command::Replay);
        }
        if name == "add" {
            return Some(Command::Add);
        }
        if name == "list" {
            return Some(Command::List);
        }
        if name == "check" {
            return Some(Command::Check);
        }
        if name == "write" {
            return Some(Command::Write);
        }
        if name == "show" {
            return Some(Command::Show);
        }
        None
    }

    /// The command that runs a made schedule.
    fn made(alloc: Global, found: &ArgMatches<'_>) -> Result<Option<Command>, AllocError>
        ensures { IfOk result (λ command. command ≡ by.made_in (rows_of (found_of found.now))) }
    {
        let Some(seed) = seed(alloc, found)? else {
            return Ok(None);
        };
        match size(alloc, found)? {
            Some(size) => Ok(Some(Command::Made { seed, size })),
            None => Ok(None),
        }
    }

    /// The command that ends a subscription.
    fn remove(alloc: Global, found: &ArgMatches<'_>) -> Result<Option<Command>, AllocError>
        ensures { IfOk result (λ command. command ≡ by.remove_in (rows_of (found_of found.now))) }
    {
        match subscription(alloc, found)? {
            Some(name) => Ok(Some(Command::Remove(name))),
            None => Ok(None),
        }
    }

    /// The command that writes which sources of a subscription are silent.
    fn status(alloc: Global, found: &ArgMatches<'_>) -> Result<Option<Command>, AllocError>
        ensures { IfOk result (λ command. command ≡ by.status_in (rows_of (found_of found.now))) }
    {
        match subscription(alloc, found)? {
            Some(name) => Ok(Some(Command::Status(name))),
            None => Ok(None),
        }
    }

    /// The command that writes held events.
    fn events(alloc: Global, found: &ArgMatches<'_>) -> Result<Option<Command>, AllocError>
        ensures { IfOk result (λ command. command ≡ by.events_in (rows_of (found_of found.now))) }
    {
        let Some(name) = subscription(alloc, found)? else {
            return Ok(None);
        };
        let Some(source) = source(alloc, found)? else {
            return Ok(None);
        };
        match channel(alloc, found)? {
            Some(channel) => Ok(Some(Command::Events {
                name,
                source,
                channel,
            })),
            None => Ok(None),
        }
    }

    /// The command that serves connections.
    fn collect(alloc: Global, found: &ArgMatches<'_>) -> Result<Option<Command>, AllocError>
        ensures { IfOk result (λ command. command ≡ by.collect_in (rows_of (found_of found.now))) }
    {
        let Some(address) = address(alloc, found)? else {
            return Ok(None);
        };
        match number(alloc, found)? {
            Some(connections) => Ok(Some(Command::Collect {
                address,
                connections,
            })),
            None => Ok(None),
        }
    }

    /// The command that sends requests.
    fn request(alloc: Global, found: &ArgMatches<'_>) -> Result<Option<Command>, AllocError>
        ensures { IfOk result (λ command. command ≡ by.request_in (rows_of (found_of found.now))) }
    {
        let Some(address) = address(alloc, found)? else {
            return Ok(None);
        };
        match number(alloc, found)? {
            Some(requests) => Ok(Some(Command::Request { address, requests })),
            None => Ok(None),
        }
    }

    /// The command that sends batches.
    fn forward(alloc: Global, found: &ArgMatches<'_>) -> Result<Option<Command>, AllocError>
        ensures { IfOk result (λ command. command ≡ by.forward_in (rows_of (found_of found.now))) }
    {
        let Some(address) = address(alloc, found)? else {
            return Ok(None);
        };
        let Some(source) = source(alloc, found)? else {
            return Ok(None);
        };
        match number(alloc, found)? {
            Some(deliveries) => Ok(Some(Command::Forward {
                address,
                source,
                deliveries,
            })),
            None => Ok(None),
        }
    }

    /// The command that serves connections for a source.
    fn serve(alloc: Global, found: &ArgMatches<'_>) -> Result<Option<Command>, AllocError>
        ensures { IfOk result (λ command. command ≡ by.serve_in (rows_of (found_of found.now))) }
    {
        let Some(address) = address(alloc, found)? else {
            return Ok(None);
        };
        let Some(source) = source(alloc, found)? else {
            return Ok(None);
        };
        match number(alloc, found)? {
            Some(connections) => Ok(Some(Command::Serve {
                address,
                source,
                connections,
            })),
            None => Ok(None),
        }
    }
}

/// Whether words may be a command line: none begins with `-`, the first names a command, and at most
/// three are behind it. So all that clap is handed is words of its commands.
fn may_be_line(words: &[Text]) -> bool
    ensures { result ≡ spec.may_be_line words.now }
{
    !any_begins_with_dash(words) && begins_with_name(words) && words.len() <= MOST_WORDS
}

/// Whether a word begins with `-`.
fn any_begins_with_dash(words: &[Text]) -> bool
    ensures { result ≡ list_any spec.begins_with_dash words.now }
{
    words.iter().any(|word| begins_with_dash(word))
}

fn begins_with_dash(word: &Text) -> bool
    ensures { result ≡ spec.begins_with_dash word.now }
{
    match word.as_str().as_bytes() {
        [first, ..] => *first == b'-',
        [] => false,
    }
}

fn begins_with_name(words: &[Text]) -> bool
    ensures { result ≡ spec.begins_with_name words.now }
{
    match words {
        [name, ..] => is_name(name.as_str()),
        [] => false,
    }
}

/// Whether a word is the name of a command.
fn is_name(word: &str) -> bool
    ensures { result ≡ spec.is_name word.now }
{
    word == "replay"
        || word == "check"
        || word == "add"
        || word == "remove"
        || word == "write"
        || word == "list"
        || word == "show"
        || word == "status"
        || word == "events"
        || word == "collect"
        || word == "request"
        || word == "forward"
        || word == "serve"
        || word == "made"
}

/// The words, as clap takes them.
fn texts_of(alloc: Global, words: &[Text]) -> Result<Vec<&str>, AllocError>
    ensures { IfOk result (λ all. texts all.items ≡ words.now) }
{
    let mut all = Vec::new(alloc);
    for word in words {
        all.push(word.as_str())?;
    }
    Ok(all)
}
