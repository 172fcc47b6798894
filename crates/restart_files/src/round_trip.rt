// What reading a restart file gives after it was written.
ghost use Rattle.nbody_model.specs.RestartText.{restart_text};
ghost use Rattle.restart_files.specs.Exact.{ReadOneWay};
ghost use Rattle.restart_files.specs.RestartFile.{Spell};
ghost use Rattle.restart_files.specs.Stored.{AreStorable, IsKept};

use crate::State;
use nbody_model::Setup;
use particle_set::are_storable;

fn are_counters_storable(state: &State)
    ensures { AreStorable state.now }
{
    let _steps = state.steps;
    let _tick = state.tick;
    let _next_snapshot = state.next_snapshot;
    let _next_restart = state.next_restart;
    let _kicks = state.kicks;
    let _interactions = state.interactions;
}

/// The bytes of a restart file of a state from which a run goes on are read to the same state and settings. It reads each
/// body once.
pub fn written_states_are_read(state: &State, setup: &Setup)
    requires { IsKept setup.now state.now }
    ensures { Spell (restart_text state.now setup.now) state.now setup.now }
{
    are_storable(state.set.bodies());
    are_counters_storable(state);
    let _time_max = setup.time_max;
}

/// Bytes spell at most one state with its settings, and bytes that spell one have no fault, but for want of memory.
pub fn reading_is_exact(bytes: &[u8])
    ensures { ReadOneWay bytes.now }
{}
