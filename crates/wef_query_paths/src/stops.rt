//! Where reading a path stops, and why.

ghost use Rattle.std.specs.Prelude.{◌≡◌, length, encode_utf8_all};
ghost use Rattle.wef_query_paths.specs.Faults.{is_foreign_start};
ghost use Rattle.wef_query_paths.specs.Stops.{bracket_stop, failure_of, fault_at, kind_at, kind_where, place, stop_at};

use crate::faults::{Failure, FaultKind, PathFault, Stop};
use crate::reading::{GREATEST_DEPTH, Reader};
use wef_query_tokens::{Halt, Token, is_name_start};

/// Why reading failed where a token wasn't there or wasn't taken.
pub(crate) fn failure_of(halt: Halt, stop: Stop) -> Failure
    ensures { result ≡ failure_of halt stop }
{
    match halt {
        Halt::NoMemory => Failure::NoMemory,
        Halt::Refused => Failure::Stopped(stop),
    }
}

/// What is wrong with a text that no token begins.
pub(crate) fn kind_at(text: &[char]) -> FaultKind
    ensures { result ≡ kind_at text.now }
{
    match text {
        [] => FaultKind::Bad,
        [character, ..] => kind_where(is_foreign_start(*character)),
    }
}

fn kind_where(is_foreign: bool) -> FaultKind
    ensures { result ≡ kind_where is_foreign }
{
    if is_foreign {
        FaultKind::Unsupported
    } else {
        FaultKind::Bad
    }
}

/// Whether what begins so, where no token does, is what XPath has and paths of queries lack.
fn is_foreign_start(character: char) -> bool
    ensures { result ≡ is_foreign_start character }
{
    is_name_start(character) || matches!(character, '0'..='9' | '.' | '/' | '+' | '-' | '|' | '$')
}

/// Where reading stops if a token isn't taken, `left` and `behind`: how many characters are left from
/// the token on, and behind it and its spaces.
pub(crate) fn stop_at(reader: &Reader, token: &Token, left: usize, behind: usize) -> Stop
    ensures { result ≡ stop_at reader.now token.now left behind }
{
    match token {
        Token::OpenSquare | Token::OpenRound => bracket_stop(reader.depth, left),
        Token::Joint(_) => Stop {
            kind: FaultKind::Unsupported,
            left,
        },
        Token::Slash => Stop {
            kind: kind_where(reader.next.has_foreign_slash()),
            left,
        },
        token => {
            if reader.next.is_named_call(token) {
                bracket_stop(reader.depth, behind)
            } else {
                Stop {
                    kind: FaultKind::Bad,
                    left,
                }
            }
        }
    }
}

/// Where reading stops at a bracket that isn't taken, where so many are open.
fn bracket_stop(depth: usize, left: usize) -> Stop
    ensures { result ≡ bracket_stop depth left }
{
    let kind = if depth < GREATEST_DEPTH {
        FaultKind::Bad
    } else {
        FaultKind::Deep
    };
    Stop { kind, left }
}

/// The fault of this kind at this byte.
pub(crate) fn fault_at(kind: FaultKind, at: usize) -> PathFault
    ensures { result ≡ fault_at kind at }
{
    match kind {
        FaultKind::Bad => PathFault::BadPath { at },
        FaultKind::Unsupported => PathFault::Unsupported { at },
        FaultKind::Deep => PathFault::TooDeep { at },
    }
}

/// How many bytes stand before the last so many characters.
pub(crate) fn place(characters: &[char], left: usize) -> usize
    ensures { result ≡ place characters.now left }
{
    let before = characters.len().saturating_sub(left);
    bytes_of(&characters[..before])
}

/// How many bytes characters have in UTF-8.
fn bytes_of(characters: &[char]) -> usize
    ensures { result ≡ length (encode_utf8_all characters.now) }
{
    let mut bytes = 0;
    for character in characters {
        bytes += character.len_utf8();
    }
    bytes
}
