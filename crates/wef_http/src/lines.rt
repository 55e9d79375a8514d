//! The parts of a chunk that are read as a whole: its line, and the end of the line behind its bytes.

ghost use Rattle.std.specs.Prelude.{◌≢◌, ℕ, List, ◌++◌, IfOk, IfErr};
ghost use Rattle.wef_http.specs.Chunks.{EndsLine, IsOpenEnd, IsOpenLine, ReadsSize, RefusesLine, RefusesLineEnd};
ghost use Rattle.wef_http.specs.Parts.{FindsPart};
ghost use Rattle.wef_http_heads.specs.Laws.{IsByBytes};

use crate::parts::Part;
use crate::watching::Watch;
use httparse::{Status, parse_chunk_size};
use std::alloc::Global;
use wef_http_heads::heads::HEAD_LIMIT;
use wef_http_heads::{Found, HttpEnd};

/// The line in front of a chunk, with the size that it says.
#[derive(Clone, Copy, Debug)]
pub struct SizeLine;

impl Part<u64> for SizeLine {
    ghost reads = { λ _. ReadsSize };

    ghost refuses = { λ _. RefusesLine };

    ghost fits = { λ _. Unit {0} };

    ghost is_open = { λ _. IsOpenLine };

    fn find(&self, _alloc: Global, bytes: &[u8]) -> Result<Found<u64>, HttpEnd>
        ensures found { IfOk result (FindsPart ReadsSize (λ _. Unit {0}) IsOpenLine bytes.now) }
        ensures refused { IfErr result (λ e. IsByBytes e → (more : List ℕ) → RefusesLine (bytes.now ++ more) e) }
        ensures kinds { IfErr result (λ e. e ≢ HttpEnd.ReadFault) }
    {
        match parse_chunk_size(bytes) {
            Ok(Status::Complete((len, size))) => {
                if len > HEAD_LIMIT {
                    return Err(HttpEnd::BadHead);
                }
                Ok(Found::Whole(size, len))
            }
            Ok(Status::Partial) => {
                if bytes.len() >= HEAD_LIMIT {
                    return Err(HttpEnd::BadHead);
                }
                Ok(Found::Partial)
            }
            Err(_) => Err(HttpEnd::BadHead),
        }
    }

    fn refusal(&self, _bytes: &[u8]) -> HttpEnd {
        HttpEnd::Cut
    }

    fn is_due(&self, watch: &mut Watch, bytes: &[u8]) -> bool {
        watch.sees_line(bytes)
    }
}

/// CR LF.
#[derive(Clone, Copy, Debug)]
pub struct LineEnd;

impl Part<()> for LineEnd {
    ghost reads = { λ _ bytes _ rest. EndsLine bytes rest };

    ghost refuses = { λ _. RefusesLineEnd };

    ghost fits = { λ _. Unit {0} };

    ghost is_open = { λ _. IsOpenEnd };

    fn find(&self, _alloc: Global, bytes: &[u8]) -> Result<Found<()>, HttpEnd>
        ensures found { IfOk result (FindsPart (λ bytes _ rest. EndsLine bytes rest) (λ _. Unit {0}) IsOpenEnd bytes.now) }
        ensures refused { IfErr result (λ e. IsByBytes e → (more : List ℕ) → RefusesLineEnd (bytes.now ++ more) e) }
        ensures kinds { IfErr result (λ e. e ≢ HttpEnd.ReadFault) }
    {
        let [first, more @ ..] = bytes else {
            return Ok(Found::Partial);
        };
        if *first != b'\r' {
            return Err(HttpEnd::BadHead);
        }
        let [second, ..] = more else {
            return Ok(Found::Partial);
        };
        if *second != b'\n' {
            return Err(HttpEnd::BadHead);
        }
        Ok(Found::Whole((), 2))
    }

    fn refusal(&self, _bytes: &[u8]) -> HttpEnd {
        HttpEnd::Cut
    }

    fn is_due(&self, _watch: &mut Watch, _bytes: &[u8]) -> bool {
        true
    }
}
