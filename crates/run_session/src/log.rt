// What a run keeps of a base step until it stands in the files.
ghost use Rattle.std.specs.Prelude.{◌≡◌, ◌++◌, [], length, OnOk, OnErr};
ghost use Rattle.nbody_model.specs.Texts.{kick_line, trace_block, bins_record};

use crate::lines::{push_forces, push_kick, push_part};
use fixed_point::Memory;
use nbody_model::{Field, Record};
use std::alloc::Global;
use std::marker::Model;

/// The lines of its kicks, of its forces with their events, and the records of its fast parts.
#[derive(Drop)]
pub struct Log {
    pub kicks: Vec<u8>,
    pub trace: Vec<u8>,
    pub bins: Vec<u8>,
}

impl Model for Log {
    ghost use Rattle.run_session.specs.Own.{OwnTexts};

    ghost Value = { OwnTexts };

    ghost view = { λ l. record { kicks = l.kicks.items; trace = l.trace.items; bins = l.bins.items } };
}

impl Log {
    /// No texts.
    pub(crate) fn new(alloc: Global) -> Log
        ensures { result ≡ record { kicks = []; trace = []; bins = [] } }
    {
        Log {
            kicks: Vec::new(alloc),
            trace: Vec::new(alloc),
            bins: Vec::new(alloc),
        }
    }

    /// Adds the line of a kick.
    pub(crate) fn add_kick(&mut self, alloc: Global, kick: &Record) -> Result<(), Memory>
        ensures ok { OnOk result (self.new ≡ record self.old { kicks = self.old.kicks ++ kick_line kick.now }) }
        ensures err { OnErr result (self.new ≡ self.old) }
    {
        push_kick(alloc, &mut self.kicks, kick)
    }

    /// Adds the lines of forces and their events.
    pub(crate) fn add_forces(&mut self, alloc: Global, field: &Field) -> Result<(), Memory>
        ensures ok { OnOk result (self.new
            ≡ record self.old { trace = self.old.trace ++ trace_block (length field.now.forces, field.now.events) }) }
        ensures err { OnErr result (self.new ≡ self.old) }
    {
        push_forces(alloc, &mut self.trace, field)
    }

    /// Adds the record of a fast part.
    pub(crate) fn add_part(&mut self, alloc: Global, fast: &[u64]) -> Result<(), Memory>
        ensures ok { OnOk result (self.new ≡ record self.old { bins = self.old.bins ++ bins_record fast.now }) }
        ensures err { OnErr result (self.new ≡ self.old) }
    {
        push_part(alloc, &mut self.bins, fast)
    }
}
