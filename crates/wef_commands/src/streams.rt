//! Reading a whole input, and writing a whole text.

ghost use Rattle.std.specs.Io.KnownBytes.{Appends};
ghost use Rattle.std.specs.Prelude.{◌<◌, ◌≤◌, OnOk, OnErr};
ghost use Rattle.wef_base.specs.Counts.{Rose};
ghost use Rattle.wef_commands.specs.Streams.{ReadsWhole, WritesPart};

use std::alloc::Global;
use wef_base::{Bytes, IoFailed, Sink, Source};

/// The greatest schedule or document that is read, in bytes.
pub const INPUT_LIMIT: usize = 16_777_216;

/// Why an input isn't read whole.
#[derive(Clone, Copy)]
pub enum InputFault {
    NoMemory,
    Failed,
    TooLong,
}

/// Reads an input to its end. An input of more than `limit` bytes is too long; it isn't read much
/// further than that.
pub fn read_whole<I: Source>(
    alloc: Global,
    input: &mut I,
    limit: usize,
) -> Result<Bytes, InputFault>
    ensures reads { ReadsWhole limit (I.left input.old) (I.left input.new) (I.faults input.old) (I.faults input.new) result }
    ensures later { I.faults input.old ≤ I.faults input.new }
{
    let mut bytes = Bytes::new(alloc);
    let mut piece = [0u8; 4096];
    while bytes.len() <= limit {
        let count = match input.read(&mut piece) {
            Ok(count) => count,
            Err(_) => return Err(InputFault::Failed),
        };
        if count == 0 {
            return Ok(bytes);
        }
        if bytes.extend(&piece[..count]).is_err() {
            return Err(InputFault::NoMemory);
        }
    }
    Err(InputFault::TooLong)
}

/// Writes a whole text, in as many pieces as the sink wants.
pub fn write_whole<O: Sink>(out: &mut O, text: &[u8]) -> Result<(), IoFailed>
    ensures ok { OnOk result (Appends (O.taken out.old) (O.taken out.new) text.now) }
    ensures err { OnErr result (Rose (O.faults out.old) (O.faults out.new)) }
    ensures part { WritesPart (O.taken out.old) (O.taken out.new) text.now }
    ensures later { O.faults out.old ≤ O.faults out.new }
{
    let mut at = 0;
    while at < text.len() {
        at += out.write(&text[at..])?;
    }
    Ok(())
}
