// The calls of a store in memory, counted, and which of them are to fail.
ghost use Rattle.std.specs.Prelude.{◌≤◌};

use crate::Text;
use fixed_point::Memory;
use std::alloc::Global;

// The call with this number is to fail, and an append then keeps so many bytes.
#[derive(Clone, Copy)]
struct Entry {
    call: u64,
    kept: u64,
}

/// A call by the name it was given, and whether it reads.
#[derive(Drop)]
pub struct LastCall {
    name: Text,
    reads: bool,
}

/// The calls so far, those that are to fail, how many did, and the last of these.
#[derive(Drop)]
pub struct FaultPlan {
    entries: Vec<Entry>,
    calls: u64,
    faults: u64,
    last: Option<LastCall>,
    ghost in_range: { faults ≤ calls },
}

impl FaultPlan {
    ghost use Rattle.std.specs.Prelude.{◌≡◌, ◌≢◌, ℕ, ◌+◌, ◌-◌, ◌^◌, ◌<◌, min, Bool, Option, Some, None, OnSome, OnOk, OnErr};
    ghost use Rattle.store_io.specs.FaultPlan.{planned_at, planned_next, call_of};

    pub fn new(alloc: Global) -> FaultPlan
        ensures none { (call : ℕ) → planned_at result call ≡ None }
        ensures calls { result.calls ≡ 0 }
        ensures faults { result.faults ≡ 0 }
        ensures last { call_of result.last ≡ None }
    {
        FaultPlan {
            entries: Vec::new(alloc),
            calls: 0,
            faults: 0,
            last: None,
        }
    }

    /// Plans that a call fails. The later of two entries for one call counts.
    pub fn plan(&mut self, call: u64, kept: u64) -> Result<(), Memory>
        ensures ok { OnOk result (planned_at self.new call ≡ Some kept) }
        ensures others { (other : ℕ) → other ≢ call
            → planned_at self.new other ≡ planned_at self.old other }
        ensures err { OnErr result (planned_at self.new call ≡ planned_at self.old call) }
        ensures calls { self.new.calls ≡ self.old.calls }
        ensures faults { self.new.faults ≡ self.old.faults }
        ensures last { call_of self.new.last ≡ call_of self.old.last }
    {
        self.entries.push(Entry { call, kept })?;
        Ok(())
    }

    // What is planned for the call with this number.
    fn entry_at(&self, call: u64) -> Option<u64>
        ensures { result ≡ planned_at self.now call }
    {
        let found = self.entries.iter().rev().find(|entry| entry.call == call);
        found.map(|entry| entry.kept)
    }

    /// Counts a call, and gives what it keeps if it is to fail. A call with the last number never fails.
    pub fn begin(&mut self) -> Option<u64>
        ensures planned { result ≡ planned_next self.old }
        ensures entries { self.new.entries.items ≡ self.old.entries.items }
        ensures calls { self.new.calls ≡ min (self.old.calls + 1) (2 ^ 64 - 1) }
        ensures faults { self.new.faults ≡ self.old.faults }
        ensures last { call_of self.new.last ≡ call_of self.old.last }
        ensures room { OnSome result (self.new.faults < self.new.calls) }
    {
        if self.calls < u64::MAX {
            let planned = self.entry_at(self.calls);
            self.calls += 1;
            return planned;
        }
        None
    }

    /// Notes that the call failed.
    pub fn fail(&mut self, alloc: Global, name: &Text, reads: bool) -> Result<(), Memory>
        requires { self.old.faults < self.old.calls }
        ensures entries { self.new.entries.items ≡ self.old.entries.items }
        ensures calls { self.new.calls ≡ self.old.calls }
        ensures ok_faults { OnOk result (self.new.faults ≡ self.old.faults + 1) }
        ensures ok_last { OnOk result (call_of self.new.last ≡ Some (name.now, reads)) }
        ensures err_faults { OnErr result (self.new.faults ≡ self.old.faults) }
        ensures err_last { OnErr result (call_of self.new.last ≡ call_of self.old.last) }
    {
        let name = Text::from_bytes(alloc, name.bytes())?;
        self.faults += 1;
        self.last = Some(LastCall { name, reads });
        Ok(())
    }
}
