// Printed bytes, told or not, with a count of faults.
ghost use Rattle.std.specs.Prelude.{◌≡◌, ◌+◌, ◌-◌, ◌^◌, ◌≤◌, ◌<◌, nat_lt, ℕ, Bool, IsTrue, List, [], ◌++◌, Option, Some, None, OnOk, OnErr, if◌then◌else◌};
ghost use Rattle.store_io.specs.Causes.{io_failed};
ghost use Rattle.store_io.specs.Sinks.{Follows, FollowsPart, Counts, FailsInTurn, faults_to_come};

use crate::IoErr;
use fixed_point::Memory;
use std::alloc::Global;

/// A taker of bytes. Whether the bytes are told never changes.
pub trait Sink {
    /// The bytes written so far, where they are told.
    ghost written: { Self → Option (List ℕ) };

    /// How often a write failed.
    ghost faults: { Self → ℕ };

    /// The bytes stand behind those written before, on an error a first part of them. Failed comes only
    /// where the count of faults rose.
    fn write(&mut self, bytes: &[u8]) -> Result<(), IoErr>
        ensures ok { OnOk result (Follows (written self.old) (written self.new) bytes.now) }
        ensures err { OnErr result (FollowsPart (written self.old) (written self.new) bytes.now) }
        ensures cause { Counts (io_failed result) (faults self.old) (faults self.new) };
}

/// A sink in memory, of which at most one write fails.
#[derive(Drop)]
pub struct MemSink {
    bytes: Vec<u8>,
    // How many writes come before the one that is to fail.
    before_fault: Option<u64>,
    faults: u64,
    ghost one_fault: { faults + faults_to_come before_fault ≤ 1 },
}

impl MemSink {
    ghost use Rattle.store_io.specs.MemSink.{sink_bytes, sink_faults, writes_before_fault};

    /// No byte, and no write that is to fail.
    pub fn new(alloc: Global) -> MemSink
        ensures bytes { sink_bytes result ≡ [] }
        ensures faults { sink_faults result ≡ 0 }
        ensures plan { writes_before_fault result ≡ None }
    {
        MemSink {
            bytes: Vec::new(alloc),
            before_fault: None,
            faults: 0,
        }
    }

    /// The write with this number, counted from 0, fails and keeps no byte. Writes are counted up to
    /// 2^64 - 1, and one with that number never fails.
    pub fn failing_at(alloc: Global, call: u64) -> MemSink
        ensures bytes { sink_bytes result ≡ [] }
        ensures faults { sink_faults result ≡ 0 }
        ensures plan { writes_before_fault result
            ≡ (if nat_lt call (2 ^ 64 - 1) then Some call else None) }
    {
        MemSink {
            bytes: Vec::new(alloc),
            before_fault: if call < u64::MAX { Some(call) } else { None },
            faults: 0,
        }
    }

    /// The bytes written so far.
    pub fn bytes(&self) -> &[u8]
        ensures { result.now ≡ sink_bytes self.now }
    {
        &self.bytes
    }
}

impl Sink for MemSink {
    ghost use Rattle.store_io.specs.MemSink.{sink_bytes, sink_faults, writes_before_fault};

    ghost written = { λ s. Some (sink_bytes s) };

    ghost faults = { sink_faults };

    fn write(&mut self, bytes: &[u8]) -> Result<(), IoErr>
        ensures ok { OnOk result (sink_bytes self.new ≡ sink_bytes self.old ++ bytes.now) }
        ensures err { OnErr result (sink_bytes self.new ≡ sink_bytes self.old) }
        ensures cause { Counts (io_failed result) (sink_faults self.old) (sink_faults self.new) }
        ensures one_fault { IsTrue (io_failed result)
            → sink_faults self.new ≡ sink_faults self.old + 1 }
        ensures planned { FailsInTurn (io_failed result)
            (writes_before_fault self.old) (writes_before_fault self.new) }
    {
        match self.before_fault {
            Some(0) => {
                self.before_fault = None;
                self.faults += 1;
                return Err(IoErr::Failed);
            }
            Some(more) => self.before_fault = Some(more - 1),
            None => {}
        }
        self.bytes.extend_from_slice(bytes)?;
        Ok(())
    }
}

/// Standard output. Its bytes aren't told.
#[derive(Drop)]
pub struct ConsoleSink<R> {
    out: R,
    faults: u64,
}

impl<R: Print + Drop> ConsoleSink<R> {
    ghost use Rattle.store_io.specs.ConsoleSink.{console_faults};

    /// Over the runtime, with no fault so far.
    pub fn new(out: R) -> Self
        ensures { console_faults result ≡ 0 }
    {
        ConsoleSink { out, faults: 0 }
    }
}

// Writes all of the bytes, or says that it couldn't.
fn write_through<R: Print>(out: &R, bytes: &[u8]) -> bool {
    let mut rest = bytes;
    for _ in 0..u64::MAX {
        if rest.is_empty() {
            return true;
        }
        match out.write_some(rest) {
            Ok(0) => return false,
            Ok(n) => rest = &rest[n..],
            Err(_) => return false,
        }
    }
    false
}

impl<R: Print> Sink for ConsoleSink<R> {
    ghost use Rattle.store_io.specs.ConsoleSink.{console_faults};

    ghost written = { λ _. None };

    ghost faults = { console_faults };

    fn write(&mut self, bytes: &[u8]) -> Result<(), IoErr> {
        if write_through(&self.out, bytes) {
            return Ok(());
        }
        self.faults = self.faults.saturating_add(1);
        Err(IoErr::Failed)
    }
}
