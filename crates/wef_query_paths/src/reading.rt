//! Reading a path: token by token, until the text ends or a token can't follow.

ghost use Rattle.std.specs.Prelude.{◌≡◌, ◌<◌, length, IfErr};
ghost use Rattle.wef_query_paths.specs.Faults.{IsFault};
ghost use Rattle.wef_query_paths.specs.Paths.{path_of};
ghost use Rattle.wef_query_paths.specs.Reading.{depth_behind, start, taken};
ghost use Rattle.wef_query_paths.specs.Reads.{Gives, ReadsOn, SaysPath};
ghost use Rattle.wef_query_paths.specs.Stops.{GoesOn, fault_at, path_from, path_or_fault, place};
ghost use Rattle.wef_query_paths.specs.Turns.{finished};
ghost use Rattle.wef_query_tokens.specs.Reads.{Reads};

use crate::conditions::Levels;
use crate::faults::{Failure, FaultKind, PathFault, Stop};
use crate::path::Path;
use crate::steps::Place;
use crate::stops::{failure_of, fault_at, kind_at, place, stop_at};
use crate::turns::Next;
use std::alloc::Global;
use wef_base::Text;
use wef_query_tokens::{Halt, Token, behind_spaces, token_at};

/// How many brackets may be open at once.
pub(crate) const GREATEST_DEPTH: usize = 32;

/// What is read of a path.
pub struct Reader {
    pub levels: Levels,
    pub next: Next,
    /// How many brackets are open.
    pub depth: usize,
}

/// One call for whoever lets it go.
impl Drop for Reader {
    fn drop(self) {
        match self {
            Reader {
                levels: _,
                next: _,
                depth: _,
            } => {}
        }
    }
}

impl Reader {
    /// Before the first token.
    fn new(alloc: Global) -> Reader
        ensures { result ≡ start }
    {
        Reader {
            levels: Levels::new(alloc),
            next: Next::BeforeStep(Place::Whole, None),
            depth: 0,
        }
    }

    /// Takes the next token.
    fn take(self, token: Token) -> Result<Reader, Halt>
        ensures { Reads result (taken self token) }
    {
        let Reader {
            mut levels,
            next,
            depth,
        } = self;
        let depth = depth_behind(depth, &token)?;
        let next = next.turn(&mut levels, token)?;
        Ok(Reader {
            levels,
            next,
            depth,
        })
    }

    /// The path, where the text may end.
    fn finish(self) -> Result<Path, Halt>
        ensures { Reads result (finished self.levels self.next) }
    {
        let Reader {
            levels,
            next,
            depth: _,
        } = self;
        if !levels.is_empty() {
            return Err(Halt::Refused);
        }
        next.finish(levels.alloc())
    }
}

/// How many brackets are open behind a token.
fn depth_behind(depth: usize, token: &Token) -> Result<usize, Halt>
    ensures { Reads result (depth_behind depth token.now) }
{
    match token {
        Token::OpenSquare | Token::OpenRound => {
            if depth < GREATEST_DEPTH {
                Ok(depth + 1)
            } else {
                Err(Halt::Refused)
            }
        }
        Token::CloseSquare | Token::CloseRound => Ok(depth.saturating_sub(1)),
        _ => Ok(depth),
    }
}

/// The path that a text says (the part of XPath 1.0 that `Path` has, at most 32 brackets open at once), or
/// what is wrong at its first token that no path goes on with. It takes time in proportion to the text.
pub fn read_path(text: &Text) -> Result<Path, PathFault>
    ensures value { SaysPath result (path_of text.now) }
    ensures fault { IfErr result (IsFault text.now) }
    ensures exact { Gives result (path_or_fault text.now) }
{
    read_text(text)
}

#[tactic(auto, unfolding(crate::specs::Stops::path_or_fault))]
fn read_text(text: &Text) -> Result<Path, PathFault>
    ensures { Gives result (path_or_fault text.now) }
{
    let characters = text.characters()?;
    let characters = characters.as_slice();
    match read_characters(text.alloc(), behind_spaces(characters)) {
        Ok(path) => Ok(path),
        Err(Failure::NoMemory) => Err(PathFault::NoMemory),
        Err(Failure::Stopped(stop)) => Err(fault_at(stop.kind, place(characters, stop.left))),
    }
}

/// The path that characters say, of which the first is no space.
fn read_characters(alloc: Global, text: &[char]) -> Result<Path, Failure>
    ensures { ReadsOn result (path_from text.now start) }
{
    let mut reader = Reader::new(alloc);
    let mut rest = text;
    while !rest.is_empty() {
        let (longer, behind) = match step(alloc, reader, rest) {
            Ok(read) => read,
            Err(failure) => return Err(failure),
        };
        reader = longer;
        rest = behind;
    }
    match reader.finish() {
        Ok(path) => Ok(path),
        Err(halt) => Err(failure_of(
            halt,
            Stop {
                kind: FaultKind::Bad,
                left: 0,
            },
        )),
    }
}

/// Takes the first token of a text, and gives what is behind it and its spaces.
fn step(alloc: Global, reader: Reader, text: &[char]) -> Result<(Reader, &[char]), Failure>
    requires { 0 < length text.now }
    ensures { GoesOn reader text.now result }
{
    let (token, rest) = match token_at(alloc, text) {
        Ok(read) => read,
        Err(halt) => return Err(failure_of(
            halt,
            Stop {
                kind: kind_at(text),
                left: text.len(),
            },
        )),
    };
    let behind = behind_spaces(rest);
    let refusal = stop_at(&reader, &token, text.len(), behind.len());
    match reader.take(token) {
        Ok(longer) => Ok((longer, behind)),
        Err(halt) => Err(failure_of(halt, refusal)),
    }
}
