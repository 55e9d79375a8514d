//! Which calls of an object in memory fail.

ghost use Rattle.std.specs.Prelude.{◌≡◌, ◌+◌, true, false, IsOk, IsErr, min};
ghost use Rattle.wef_base.specs.Counts.{CountsFaults, HasCause, is_told};

use wef_base::memory::{count_call, is_told};
use wef_base::{IoFailed, List};

/// The calls that fail, by their numbers, and how many calls there were.
#[derive(Debug, Drop)]
pub struct Failures {
    failing: List<u64>,
    calls: u64,
}

impl Failures {
    /// Before the first call. The calls whose numbers, counted from 1, stand in `failing` fail.
    pub fn at(failing: List<u64>) -> Failures
        ensures failing { result.failing ≡ failing }
        ensures calls { result.calls ≡ 0 }
    {
        Failures { failing, calls: 0 }
    }

    /// Counts a call, and answers whether it fails.
    pub fn next(&mut self) -> bool
        ensures told { result ≡ is_told self.new.calls self.old.failing }
        ensures calls { self.new.calls ≡ min (self.old.calls + 1) u64.MAX }
        ensures list { self.new.failing ≡ self.old.failing }
    {
        self.calls = self.calls.saturating_add(1);
        is_told(self.calls, self.failing.as_slice())
    }

    /// Counts a call. One that is told to fail is a fault, and is counted as one.
    pub fn pass(&mut self, faults: &mut u64) -> Result<(), IoFailed>
        ensures fails { is_told self.new.calls self.old.failing ≡ true → IsErr result }
        ensures others { is_told self.new.calls self.old.failing ≡ false → IsOk result }
        ensures cause { HasCause faults.old faults.new result }
        ensures faults { CountsFaults faults.old faults.new result }
        ensures calls { self.new.calls ≡ min (self.old.calls + 1) u64.MAX }
        ensures list { self.new.failing ≡ self.old.failing }
    {
        count_call(&mut self.calls, self.failing.as_slice(), faults)
    }
}
