// Files in memory, whose calls fail where a test wants it.
ghost use Rattle.std.specs.Prelude.{◌≡◌, ◌⊎◌, ℕ, ◌+◌, ◌≤◌, Bool, true, false, List, [], ◌∷◌, ◌++◌, length, take, slice_range, option_copied, Option, Some, None, IsSome, IsTrue, OnOk, OnErr, Ok, Err};
ghost use Rattle.store_io.specs.Causes.{HasCause, io_failed, len_failed};
ghost use Rattle.store_io.specs.Files.{bytes_of, ChangesOnly, HasRange, LengthAnswers, AppendsPart, kept_part};

use crate::fault_plan::FaultPlan;
use crate::file_map::{append_in, copy_from, put_in};
use crate::{IoErr, LenErr, Store, Text};
use fixed_point::Memory;
use std::alloc::Global;
use std::collections::BTreeMap;

/// Files in memory. They are always told, and so is the call that failed last. The calls of `Store`
/// are numbered from 0, and one fails only where `fail` named its number. The numbers end at
/// 2^64 - 1, and a call with that number never fails.
#[derive(Drop)]
pub struct MemStore {
    alloc: Global,
    files: BTreeMap<Vec<u8>, Vec<u8>>,
    closed: Vec<Text>,
    plan: FaultPlan,
}

impl MemStore {
    ghost use Rattle.store_io.specs.MemStore.{mem_files, planned, IsNew, KeepsCalls, PlansOnly};

    /// No file, and no call that is to fail.
    pub fn new(alloc: Global) -> MemStore
        ensures { IsNew result }
    {
        MemStore {
            alloc,
            files: BTreeMap::new(alloc),
            closed: Vec::new(alloc),
            plan: FaultPlan::new(alloc),
        }
    }

    /// Puts a file in the place of any of this name. It isn't counted as a call.
    pub fn put(&mut self, name: &Text, bytes: &[u8]) -> Result<(), Memory>
        ensures ok { OnOk result (ChangesOnly (mem_files self.old) (mem_files self.new)
            name.now (Some bytes.now)) }
        ensures err { OnErr result (mem_files self.new ≡ mem_files self.old) }
        ensures calls { KeepsCalls self.old self.new }
        ensures plan { (call : ℕ) → planned self.new call ≡ planned self.old call }
    {
        put_in(self.alloc, &mut self.files, name, bytes)
    }

    /// The bytes of a file, or none where there is no such file.
    pub fn get(&self, name: &Text) -> Option<&[u8]>
        ensures { option_copied result ≡ mem_files self.now name.now }
    {
        match self.files.get(name.bytes()) {
            Some(bytes) => Some(bytes.as_slice()),
            None => None,
        }
    }

    /// Lets the call of `Store` with this number fail, counted from 0. An append then keeps so many
    /// bytes, or all where there are fewer. The later of two entries for one call counts.
    pub fn fail(&mut self, call: u64, kept: u64) -> Result<(), Memory>
        ensures files { mem_files self.new ≡ mem_files self.old }
        ensures calls { KeepsCalls self.old self.new }
        ensures ok { OnOk result (planned self.new call ≡ Some kept) }
        ensures err { OnErr result (planned self.new call ≡ planned self.old call) }
        ensures others { PlansOnly self.old self.new call }
    {
        self.plan.plan(call, kept)
    }
}

// What is kept of the bytes.
fn first_part(bytes: &[u8], kept: Option<u64>) -> &[u8]
    ensures { result.now ≡ kept_part kept bytes.now }
{
    match kept {
        Some(kept) => &bytes[..bytes.len().min(kept as usize)],
        None => bytes,
    }
}

impl Store for MemStore {
    ghost use Rattle.store_io.specs.MemStore.{mem_files, mem_closed, mem_faults, mem_last, failing, CountsCall, KeepsPart};

    ghost tells = { λ _. true };

    ghost file = { mem_files };

    ghost closed = { mem_closed };

    ghost faults = { mem_faults };

    ghost last = { mem_last };

    fn length(&mut self, name: &Text) -> Result<u64, LenErr>
        ensures files { mem_files self.new ≡ mem_files self.old }
        ensures closed { mem_closed self.new ≡ mem_closed self.old }
        ensures answer { LengthAnswers (mem_files self.old name.now) result }
        ensures cause { HasCause (len_failed result) (name.now, true)
            (mem_faults self.old) (mem_faults self.new) (mem_last self.old) (mem_last self.new) }
        ensures counts { CountsCall (len_failed result) (name.now, true) self.old self.new }
        ensures planned { IsSome (failing self.old)
            → (result ≡ Err LenErr.Failed) ⊎ (result ≡ Err LenErr.Memory) }
    {
        if self.plan.begin().is_some() {
            self.plan.fail(self.alloc, name, true)?;
            return Err(LenErr::Failed);
        }
        match self.files.get(name.bytes()) {
            Some(bytes) => Ok(bytes.len() as u64),
            None => Err(LenErr::Absent),
        }
    }

    fn read_at(&mut self, name: &Text, at: u64, buf: &mut [u8]) -> Result<(), IoErr>
        requires { HasRange (mem_files self.old name.now) at (length buf.old) }
        ensures files { mem_files self.new ≡ mem_files self.old }
        ensures closed { mem_closed self.new ≡ mem_closed self.old }
        ensures filled { OnOk result (buf.new
            ≡ slice_range (bytes_of (mem_files self.old name.now)) at (at + length buf.new)) }
        ensures cause { HasCause (io_failed result) (name.now, true)
            (mem_faults self.old) (mem_faults self.new) (mem_last self.old) (mem_last self.new) }
        ensures counts { CountsCall (io_failed result) (name.now, true) self.old self.new }
        ensures planned { IsSome (failing self.old)
            → (result ≡ Err IoErr.Failed) ⊎ (result ≡ Err IoErr.Memory) }
    {
        if self.plan.begin().is_some() {
            self.plan.fail(self.alloc, name, true)?;
            return Err(IoErr::Failed);
        }
        if let Some(bytes) = self.files.get(name.bytes()) {
            copy_from(bytes, at, buf);
        }
        Ok(())
    }

    fn create(&mut self, name: &Text) -> Result<(), IoErr>
        ensures closed { mem_closed self.new ≡ mem_closed self.old }
        ensures ok { OnOk result (ChangesOnly (mem_files self.old) (mem_files self.new)
            name.now (Some [])) }
        ensures err { OnErr result (mem_files self.new ≡ mem_files self.old) }
        ensures cause { HasCause (io_failed result) (name.now, false)
            (mem_faults self.old) (mem_faults self.new) (mem_last self.old) (mem_last self.new) }
        ensures counts { CountsCall (io_failed result) (name.now, false) self.old self.new }
        ensures planned { IsSome (failing self.old)
            → (result ≡ Err IoErr.Failed) ⊎ (result ≡ Err IoErr.Memory) }
    {
        if self.plan.begin().is_some() {
            self.plan.fail(self.alloc, name, false)?;
            return Err(IoErr::Failed);
        }
        put_in(self.alloc, &mut self.files, name, &[])?;
        Ok(())
    }

    fn append(&mut self, name: &Text, bytes: &[u8]) -> Result<(), IoErr>
        requires { IsSome (mem_files self.old name.now) }
        ensures closed { mem_closed self.new ≡ mem_closed self.old }
        ensures ok { OnOk result (ChangesOnly (mem_files self.old) (mem_files self.new) name.now
            (Some (bytes_of (mem_files self.old name.now) ++ bytes.now))) }
        ensures err { OnErr result (AppendsPart (mem_files self.old) (mem_files self.new)
            name.now bytes.now) }
        ensures failed { IsTrue (io_failed result)
            → KeepsPart self.old self.new name.now bytes.now }
        ensures cause { HasCause (io_failed result) (name.now, false)
            (mem_faults self.old) (mem_faults self.new) (mem_last self.old) (mem_last self.new) }
        ensures counts { CountsCall (io_failed result) (name.now, false) self.old self.new }
        ensures planned { IsSome (failing self.old)
            → (result ≡ Err IoErr.Failed) ⊎ (result ≡ Err IoErr.Memory) }
    {
        let fails = self.plan.begin();
        append_in(&mut self.files, name, first_part(bytes, fails))?;
        if fails.is_some() {
            self.plan.fail(self.alloc, name, false)?;
            return Err(IoErr::Failed);
        }
        Ok(())
    }

    fn close(&mut self, name: &Text) -> Result<(), IoErr>
        requires { IsSome (mem_files self.old name.now) }
        ensures files { mem_files self.new ≡ mem_files self.old }
        ensures ok { OnOk result (mem_closed self.new ≡ mem_closed self.old ++ name.now ∷ []) }
        ensures err { OnErr result (mem_closed self.new ≡ mem_closed self.old) }
        ensures cause { HasCause (io_failed result) (name.now, false)
            (mem_faults self.old) (mem_faults self.new) (mem_last self.old) (mem_last self.new) }
        ensures counts { CountsCall (io_failed result) (name.now, false) self.old self.new }
        ensures planned { IsSome (failing self.old)
            → (result ≡ Err IoErr.Failed) ⊎ (result ≡ Err IoErr.Memory) }
    {
        if self.plan.begin().is_some() {
            self.plan.fail(self.alloc, name, false)?;
            return Err(IoErr::Failed);
        }
        let name = Text::from_bytes(self.alloc, name.bytes())?;
        self.closed.push(name)?;
        Ok(())
    }
}
