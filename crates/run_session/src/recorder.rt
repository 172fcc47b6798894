// What takes the happenings of a base step.
ghost use Rattle.std.specs.Prelude.{◌≡◌};

use crate::log::Log;
use nbody_model::{Field, Record};
use std::alloc::Global;
use step_engine::KickOut;
use store_io::{IoErr, Stopper};

/// Takes what happens in a base step: keeps its texts in a log, and asks the stopper at resting points.
#[derive(Drop)]
pub(crate) struct Recorder<'a, Q> {
    pub stop: &'a mut Q,
    pub log: &'a mut Log,
    pub traced: bool,
    pub binned: bool,
    alloc: Global,
}

impl<'a, Q> Recorder<'a, Q> {
    /// Texts of events are kept only where they are traced, and records of fast parts only where there is a bin file.
    pub(crate) fn new(
        alloc: Global,
        stop: &'a mut Q,
        log: &'a mut Log,
        traced: bool,
        binned: bool,
    ) -> Recorder<'a, Q>
        ensures same_stop { result.stop.ghost_name ≡ stop.entry.ghost_name }
        ensures same_log { result.log.ghost_name ≡ log.entry.ghost_name }
        ensures stop { result.stop.now ≡ stop.old }
        ensures log { result.log.now ≡ log.old }
        ensures traced { result.traced ≡ traced }
        ensures binned { result.binned ≡ binned }
    {
        Recorder {
            stop,
            log,
            traced,
            binned,
            alloc,
        }
    }
}

impl<'a, Q: Stopper> KickOut for Recorder<'a, Q> {
    ghost use Rattle.run_session.specs.Logs.{tells};
    ghost use Rattle.run_session.specs.Numbers.{recorder_numbers};

    ghost faults = { λ _. 0 };

    ghost yes = { λ r. Q.yes r.stop.now };

    ghost took = { λ r left entries. tells r.traced r.binned r.log.now (Q.left r.stop.now) left entries };

    ghost fixed = { λ r. recorder_numbers r.stop.ghost_name r.log.ghost_name r.traced r.binned };

    fn forced(&mut self, field: &Field) -> Result<(), IoErr> {
        if !self.traced {
            return Ok(());
        }
        self.log.add_forces(self.alloc, field)?;
        Ok(())
    }

    fn kicked(&mut self, entry: &Record) -> Result<(), IoErr> {
        self.log.add_kick(self.alloc, entry)?;
        Ok(())
    }

    fn rested(&mut self, _tick: u64) -> bool {
        self.stop.asked()
    }

    fn binned(&mut self, fast: &[u64]) -> Result<(), IoErr> {
        if !self.binned {
            return Ok(());
        }
        self.log.add_part(self.alloc, fast)?;
        Ok(())
    }
}
