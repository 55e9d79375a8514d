//! The standard streams, as a source and two sinks. No contract says what a stream holds or does
//! with what it takes: these tell their counts of faults alone.

ghost use Rattle.std.specs.Prelude.{◌<◌, ◌≤◌, length, refl, IfOk};
ghost use Rattle.std.specs.Io.{WritesAtMost};
ghost use Rattle.std.specs.declared.option.Option.TheVariants.{None};
ghost use Rattle.wef_base.specs.Counts.{HasCause};

use crate::ports::{IoFailed, Sink, Source};
use std::io::{self, Read, StdinLock};

/// The standard input.
#[derive(Drop)]
pub struct StdSource {
    input: StdinLock<'static>,
    given: u64,
    faults: u64,
}

impl StdSource {
    /// The stream of this process. Nothing was read through it yet.
    pub fn new(rt: HostRuntime) -> StdSource {
        StdSource {
            input: rt.stdin().lock(),
            given: 0,
            faults: 0,
        }
    }
}

impl Source for StdSource {
    ghost left = { λ _. None };

    ghost given = { λ s. s.given };

    ghost faults = { λ s. s.faults };

    ghost tells = { λ a b. refl };

    fn read(&mut self, buf: &mut [u8]) -> Result<usize, IoFailed> {
        if let Ok(count) = self.input.read(buf) {
            if let Some(given) = self.given.checked_add(count as u64) {
                self.given = given;
                return Ok(count);
            }
        }
        self.faults = self.faults.saturating_add(1);
        Err(IoFailed)
    }
}

/// The standard output.
#[derive(Clone, Copy)]
pub struct StdSink {
    rt: HostRuntime,
    faults: u64,
}

/// The standard error stream.
#[derive(Clone, Copy)]
pub struct StdErr {
    rt: HostRuntime,
    faults: u64,
}

impl StdSink {
    /// The stream of this process. Nothing was written through it yet.
    pub fn new(rt: HostRuntime) -> StdSink {
        StdSink { rt, faults: 0 }
    }
}

impl StdErr {
    /// The stream of this process. Nothing was written through it yet.
    pub fn new(rt: HostRuntime) -> StdErr {
        StdErr { rt, faults: 0 }
    }
}

impl Sink for StdSink {
    ghost taken = { λ _. None };

    ghost faults = { λ s. s.faults };

    ghost tells = { λ a b. refl };

    fn write(&mut self, piece: &[u8]) -> Result<usize, IoFailed> {
        taken(self.rt.write_some(piece), piece, &mut self.faults)
    }
}

impl Sink for StdErr {
    ghost taken = { λ _. None };

    ghost faults = { λ s. s.faults };

    ghost tells = { λ a b. refl };

    fn write(&mut self, piece: &[u8]) -> Result<usize, IoFailed> {
        taken(self.rt.stderr().write_some(piece), piece, &mut self.faults)
    }
}

/// What a sink answers where the system answers this to the write of a piece. It fails, and is
/// counted, where the system takes nothing of something.
fn taken(written: io::Result<usize>, piece: &[u8], faults: &mut u64) -> Result<usize, IoFailed>
    requires { IfOk written (λ n. n ≤ length piece.now) }
    ensures bound { WritesAtMost result piece.now }
    ensures moves { IfOk result (λ n. 0 < length piece.now → 0 < n) }
    ensures cause { HasCause faults.old faults.new result }
{
    match written {
        Ok(count) if count > 0 || piece.is_empty() => Ok(count),
        _ => {
            *faults = faults.saturating_add(1);
            Err(IoFailed)
        }
    }
}
