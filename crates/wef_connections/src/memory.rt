//! Connections in memory, which tell their bytes and fail where they are told to.

ghost use Rattle.std.specs.Prelude.{◌≡◌, ◌+◌, ◌<◌, ◌++◌, drop, false, length, min, vec_len, vec_capacity, IfOk, OnOk, OnErr, refl};
ghost use Rattle.std.specs.Io.{ReadsAtMost, WritesAtMost};
ghost use Rattle.std.specs.Io.KnownBytes.{ReadConsumes, WriteAppends};
ghost use Rattle.std.specs.declared.option.Option.TheVariants.{Some};
ghost use Rattle.wef_base.specs.Counts.{HasCause, Gives, is_told};
ghost use Rattle.wef_connections.specs.Memory.{before_last, bytes_of_each, last_of, told_of, unopened, FailsAsTold};
ghost use Rattle.wef_connections.specs.Opening.{first_of, next_connection, sent_in_each, with_address, OnlyFails, Rises};
ghost use Rattle.wef_ports.specs.Telling.{OnlyReads, OnlyWrites};

use crate::fronts::Front;
use crate::links::Link;
use std::alloc::{AllocError, Global};
use std::collections::VecDeque;
use wef_base::{Bytes, IoFailed, List, Text};
use wef_ports::{Failures, Pieces, Port};

/// A connection in memory: the bytes that come in it, and where they are cut.
#[derive(Debug, Drop)]
pub struct MemConnection {
    pub bytes: Bytes,

    /// Places in the bytes, which rise. No read goes past one of them.
    pub cuts: List<usize>,
}

/// One connection after the other, which a front takes or a link makes. What is closed can still be
/// read and written.
#[derive(Debug, Drop)]
pub struct MemConnections {
    alloc: Global,
    waiting: VecDeque<MemConnection>,
    present: Pieces,

    // One entry a connection, the last of which is the present one's.
    sent: Vec<Bytes>,
    addresses: List<Text>,
    failures: Failures,
    faults: u64,
    refusals: u64,
    refused: u64,
}

/// A front in memory.
pub type MemFront = MemConnections;

/// A link in memory.
pub type MemLink = MemConnections;

impl MemConnections {
    /// These connections are to come, and then empty ones. The calls whose numbers, counted from 1
    /// over all but `close`, stand in `failing` fail. Beside these a write fails that comes before
    /// the first connection, and a call that finds no memory.
    pub fn of(alloc: Global, connections: List<MemConnection>, failing: List<u64>) -> MemConnections
        ensures told { told_of result ≡ unopened (bytes_of_each connections) }
        ensures failing { result.failures.failing ≡ failing }
        ensures calls { result.failures.calls ≡ 0 }
    {
        MemConnections {
            alloc,
            waiting: VecDeque::from_vec(connections.into_vec()),
            present: Pieces::none(alloc),
            sent: Vec::new(alloc),
            addresses: List::new(alloc),
            failures: Failures::at(failing),
            faults: 0,
            refusals: 0,
            refused: 0,
        }
    }

    /// What was sent in each connection so far.
    pub fn sent(&self) -> &[Bytes]
        ensures { sent_in_each (told_of self.now) ≡ Some result.now }
    {
        self.sent.as_slice()
    }

    /// Each address at which it has listened, or to which it has made a connection.
    pub fn addresses(&self) -> &[Text]
        ensures { (told_of self.now).around.addresses ≡ Some result.now }
    {
        self.addresses.as_slice()
    }

    /// How many calls found no memory. It stays at 2^64 - 1.
    pub fn refused(&self) -> u64
        ensures { result ≡ self.now.refused }
    {
        self.refused
    }

    /// Puts an address behind the others.
    fn add_address(&mut self, address: &Text) -> Result<(), AllocError>
        ensures added { OnOk result (told_of self.new ≡ with_address address.now (told_of self.old)) }
        ensures stays { OnErr result (told_of self.new ≡ told_of self.old) }
        ensures memory { self.new.refused ≡ self.old.refused }
        ensures failures { self.new.failures ≡ self.old.failures }
    {
        self.addresses.push(address.clone()?)
    }

    /// Begins the next connection.
    fn begin(&mut self) -> Result<(), AllocError>
        ensures begun { OnOk result (told_of self.new ≡ next_connection (told_of self.old)) }
        ensures stays { OnErr result (told_of self.new ≡ told_of self.old) }
        ensures memory { self.new.refused ≡ self.old.refused }
        ensures failures { self.new.failures ≡ self.old.failures }
    {
        self.sent.reserve(1)?;
        self.go_on();
        Ok(())
    }

    /// Begins the next connection, to an address.
    fn begin_at(&mut self, address: &Text) -> Result<(), AllocError>
        ensures begun { OnOk result (told_of self.new ≡ next_connection (with_address address.now (told_of self.old))) }
        ensures stays { OnErr result (told_of self.new ≡ told_of self.old) }
        ensures memory { self.new.refused ≡ self.old.refused }
        ensures failures { self.new.failures ≡ self.old.failures }
    {
        self.sent.reserve(1)?;
        self.addresses.push(address.clone()?)?;
        self.go_on();
        Ok(())
    }

    /// Makes the next connection the present one, where there is room for what is sent in it.
    fn go_on(&mut self)
        requires { vec_len self.old.sent < vec_capacity self.old.sent }
        ensures next { told_of self.new ≡ next_connection (told_of self.old) }
        ensures memory { self.new.refused ≡ self.old.refused }
        ensures failures { self.new.failures ≡ self.old.failures }
    {
        self.sent.push_reserved(Bytes::new(self.alloc));
        self.present = next_of(&mut self.waiting, self.alloc);
    }

    /// Counts an opening, which fails where it is told to.
    fn count_opening(&mut self) -> Result<(), IoFailed>
        ensures stays { OnOk result (told_of self.new ≡ told_of self.old) }
        ensures untold { OnOk result (is_told self.new.failures.calls self.old.failures.failing ≡ false) }
        ensures rest { OnErr result (OnlyFails (told_of self.old) (told_of self.new)) }
        ensures refusals { HasCause (told_of self.old).around.refusals (told_of self.new).around.refusals result }
        ensures cause { HasCause (told_of self.old).faults (told_of self.new).faults result }
        ensures memory { self.new.refused ≡ self.old.refused }
        ensures fails { FailsAsTold self.old self.new result }
    {
        if self.failures.next() {
            return Err(self.refuse());
        }
        Ok(())
    }

    /// Counts an opening that fails.
    fn refuse(&mut self) -> IoFailed
        ensures rest { OnlyFails (told_of self.old) (told_of self.new) }
        ensures cause { Rises self.old.faults self.new.faults }
        ensures refusals { Rises self.old.refusals self.new.refusals }
        ensures faults { self.new.faults ≡ min (self.old.faults + 1) u64.MAX }
        ensures memory { self.new.refused ≡ self.old.refused }
        ensures failures { self.new.failures ≡ self.old.failures }
    {
        self.faults = self.faults.saturating_add(1);
        self.refusals = self.refusals.saturating_add(1);
        IoFailed
    }

    /// Counts an opening that fails for want of memory.
    fn refuse_out_of_memory(&mut self) -> IoFailed
        ensures rest { OnlyFails (told_of self.old) (told_of self.new) }
        ensures cause { Rises self.old.faults self.new.faults }
        ensures refusals { Rises self.old.refusals self.new.refusals }
        ensures faults { self.new.faults ≡ min (self.old.faults + 1) u64.MAX }
        ensures memory { self.new.refused ≡ min (self.old.refused + 1) u64.MAX }
        ensures failures { self.new.failures ≡ self.old.failures }
    {
        self.refused = self.refused.saturating_add(1);
        self.refuse()
    }
}

impl Port for MemConnections {
    ghost told = { told_of };

    ghost tells = { λ a b. refl };

    ghost tells_together = { λ c. (refl, refl, refl, refl) };

    fn read(&mut self, buf: &mut [u8]) -> Result<usize, IoFailed>
        ensures bound { ReadsAtMost result buf.new }
        ensures bytes { ReadConsumes (told_of self.old).coming (told_of self.new).coming result buf.new }
        ensures count { Gives (told_of self.old).given (told_of self.new).given result }
        ensures cause { HasCause (told_of self.old).faults (told_of self.new).faults result }
        ensures rest { OnlyReads (told_of self.old) (told_of self.new) }
        ensures fails { FailsAsTold self.old self.new result }
    {
        if self.failures.next() {
            self.faults = self.faults.saturating_add(1);
            return Err(IoFailed);
        }
        Ok(self.present.give(buf))
    }

    /// A write fails too where there was no connection yet.
    fn write(&mut self, piece: &[u8]) -> Result<usize, IoFailed>
        ensures bound { WritesAtMost result piece.now }
        ensures bytes { WriteAppends (told_of self.old).sent (told_of self.new).sent result piece.now }
        ensures moves { IfOk result (λ n. 0 < length piece.now → 0 < n) }
        ensures cause { HasCause (told_of self.old).faults (told_of self.new).faults result }
        ensures rest { OnlyWrites (told_of self.old) (told_of self.new) }
        ensures fails { 0 < length self.old.sent.items → FailsAsTold self.old self.new result }
    {
        if self.failures.next() || self.sent.is_empty() {
            self.faults = self.faults.saturating_add(1);
            return Err(IoFailed);
        }
        if append_to_last(&mut self.sent, piece).is_err() {
            self.faults = self.faults.saturating_add(1);
            self.refused = self.refused.saturating_add(1);
            return Err(IoFailed);
        }
        Ok(piece.len())
    }
}

impl Front for MemConnections {
    fn bind(&mut self, address: &Text) -> Result<(), IoFailed>
        ensures bound { OnOk result (told_of self.new ≡ with_address address.now (told_of self.old)) }
        ensures rest { OnErr result (OnlyFails (told_of self.old) (told_of self.new)) }
        ensures cause { HasCause (told_of self.old).faults (told_of self.new).faults result }
        ensures refusals { HasCause (told_of self.old).around.refusals (told_of self.new).around.refusals result }
        ensures fails { FailsAsTold self.old self.new result }
    {
        self.count_opening()?;
        if self.add_address(address).is_err() {
            return Err(self.refuse_out_of_memory());
        }
        Ok(())
    }

    fn accept(&mut self) -> Result<(), IoFailed>
        ensures accepted { OnOk result (told_of self.new ≡ next_connection (told_of self.old)) }
        ensures rest { OnErr result (OnlyFails (told_of self.old) (told_of self.new)) }
        ensures cause { HasCause (told_of self.old).faults (told_of self.new).faults result }
        ensures refusals { HasCause (told_of self.old).around.refusals (told_of self.new).around.refusals result }
        ensures fails { FailsAsTold self.old self.new result }
    {
        self.count_opening()?;
        if self.begin().is_err() {
            return Err(self.refuse_out_of_memory());
        }
        Ok(())
    }

    fn close(&mut self) {}
}

impl Link for MemConnections {
    fn connect(&mut self, address: &Text) -> Result<(), IoFailed>
        ensures connected { OnOk result (told_of self.new ≡ next_connection (with_address address.now (told_of self.old))) }
        ensures rest { OnErr result (OnlyFails (told_of self.old) (told_of self.new)) }
        ensures cause { HasCause (told_of self.old).faults (told_of self.new).faults result }
        ensures refusals { HasCause (told_of self.old).around.refusals (told_of self.new).around.refusals result }
        ensures fails { FailsAsTold self.old self.new result }
    {
        self.count_opening()?;
        match self.begin_at(address) {
            Ok(()) => Ok(()),
            Err(_) => Err(self.refuse_out_of_memory()),
        }
    }

    fn close(&mut self) {}
}

/// The first connection, which leaves those that wait, or an empty one where none waits.
fn next_of(waiting: &mut VecDeque<MemConnection>, alloc: Global) -> Pieces
    ensures left { drop result.at result.bytes ≡ first_of (bytes_of_each waiting.old.items) }
    ensures given { result.at ≡ 0 }
    ensures rest { bytes_of_each waiting.new.items ≡ drop 1 (bytes_of_each waiting.old.items) }
{
    match waiting.pop_front() {
        Some(MemConnection { bytes, cuts }) => Pieces::of(bytes, cuts),
        None => Pieces::none(alloc),
    }
}

/// Appends bytes to the last entry.
fn append_to_last(entries: &mut Vec<Bytes>, piece: &[u8]) -> Result<(), AllocError>
    requires { 0 < length entries.old.items }
    ensures last { OnOk result (last_of entries.new.items ≡ last_of entries.old.items ++ piece.now) }
    ensures kept { OnErr result (last_of entries.new.items ≡ last_of entries.old.items) }
    ensures others { before_last entries.new.items ≡ before_last entries.old.items }
    ensures count { length entries.new.items ≡ length entries.old.items }
{
    let last = entries.len() - 1;
    entries[last].extend(piece)
}
