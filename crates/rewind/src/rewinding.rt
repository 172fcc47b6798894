// Takes runs back.
ghost use Rattle.std.specs.Prelude.{◌≡◌, ◌≤◌, ◌<◌, ◌+◌, ◌-◌, ◌*◌, ◌^◌, length, IfErr, IfOk, IfSome, OnOk, option_copied};
ghost use Rattle.nbody_model.specs.Bodies.{only};
ghost use Rattle.nbody_model.specs.Setups.{last_tick};
ghost use Rattle.nbody_model.specs.Tables.{Reaches};
ghost use Rattle.model_laws.specs.Nests.{ids_of};
ghost use Rattle.kick_drift.specs.Parts.{AreAscending, ids_at};
ghost use Rattle.step_engine.specs.Told.{AreForcesAmong};
ghost use Rattle.step_engine.specs.Stages.{rules};
ghost use Rattle.step_engine.specs.Stands.{IsGiven};
ghost use Rattle.step_engine.specs.BaseSteps.{StandsFor};
ghost use Rattle.rewind.specs.Rewinding.{AreOfRun, IsRefusedRun, IsRewound};
ghost use Rattle.rewind.specs.Calls.{RunFails, UndoesRun};

use crate::asks::ask;
use crate::course::{Course, Step, Work};
use crate::read::base_steps;
use crate::steps::undo_step;
use crate::{Bins, RewindErr};
use expansion_table::Expansion;
use fixed_point::Memory;
use nbody_model::{Field, Forces, Setup};
use particle_set::BodySet;
use std::alloc::Global;

// The places of all bodies, ascending.
fn all_places(alloc: Global, set: &BodySet) -> Result<Vec<u32>, Memory>
    ensures places { IfOk result (λ v. AreAscending set.now v.items) }
    ensures all { IfOk result (λ v. ids_at set.now v.items ≡ ids_of set.now) }
{
    let count = set.len();
    let mut places = Vec::with_capacity(alloc, count)?;
    for place in 0..count {
        places.push(place as u32)?;
    }
    Ok(places)
}

// The tick at which a base step begins that isn't the first one to be taken back: so many were.
fn tick_of(count: u64, done: u64, top: u8) -> u64
    requires some { done < count }
    requires narrow { top ≤ 20 }
    requires few { count * 2 ^ top ≤ 2 ^ 41 }
    ensures { result ≡ (count - (done + 1)) * 2 ^ top }
{
    (count - 1 - done) << top
}

// Takes all base steps back, the last one first, by the forces among all bodies.
fn undo_steps<F: Forces>(
    course: &Course,
    set: &mut BodySet,
    forces: &mut F,
    work: &mut Work,
    part: &[u32],
    known: Field,
) -> Result<(), RewindErr>
    requires stands { StandsFor (F.gravity forces.old) course.now.setup.now }
    requires spans { IfSome (option_copied course.now.expansion) (λ e. Reaches e (last_tick course.now.setup.now)) }
    requires known { IsGiven (F.gravity forces.old) set.old part.now known }
    requires all { ids_at set.old part.now ≡ ids_of set.old }
    requires bins { AreOfRun course.now.setup.now set.old course.now.bins.now }
    requires left { work.old.left ≡ length course.now.bins.now }
    ensures ok { OnOk result (UndoesRun (F.gravity forces.old) course.now set.old set.new) }
    ensures err { IfErr result (RunFails (F.gravity forces.old) course.now set.old) }
    ensures same_gravity { F.gravity forces.new ≡ F.gravity forces.old }
    ensures same_fixed { F.fixed forces.new ≡ F.fixed forces.old }
{
    let setup = course.setup;
    let top = setup.top_bin;
    let count = base_steps(setup);
    let mut known = known;
    for done in 0..count {
        let step = Step {
            bin: top,
            tick: tick_of(count, done, top),
            part,
        };
        known = match undo_step(course, set, forces, work, &step, known) {
            Ok(known) => known,
            Err(e) => return Err(e),
        };
    }
    Ok(())
}

/// The first bodies of a run, by its last ones and the fast parts of its steps: each kick and each drift is taken back, the
/// last one first, by any forces. The set is spent.
///
/// `MomRange` is the first momentum that was out of range before a kick, and `BinsDiffer` the first step in which other
/// bodies are fast than is told.
pub fn rewind<F: Forces>(
    alloc: Global,
    set: BodySet,
    setup: &Setup,
    expansion: Option<&Expansion>,
    bins: &Bins,
    forces: &mut F,
) -> Result<BodySet, RewindErr>
    requires forces { StandsFor (F.gravity forces.old) setup.now }
    requires spans { IfSome (option_copied expansion) (λ e. Reaches e (last_tick setup.now)) }
    requires bins { AreOfRun setup.now set bins.now }
    ensures ok { IfOk result (IsRewound (rules (F.gravity forces.old) (option_copied expansion.entry)) bins.now set) }
    ensures err { IfErr result (IsRefusedRun (rules (F.gravity forces.old) (option_copied expansion.entry)) bins.now set) }
    ensures same_gravity { F.gravity forces.new ≡ F.gravity forces.old }
    ensures same_fixed { F.fixed forces.new ≡ F.fixed forces.old }
{
    let mut set = set;
    let places = match all_places(alloc, &set) {
        Ok(places) => places,
        Err(_) => return Err(RewindErr::Memory),
    };
    let course = Course {
        alloc,
        setup,
        expansion,
        bins,
    };
    let mut work = Work {
        room: Vec::new(alloc),
        left: bins.len(),
    };
    let part = places.as_slice();
    let known = match ask(&set, part, &mut work.room, forces) {
        Ok(known) => known,
        Err(_) => return Err(RewindErr::Memory),
    };
    match undo_steps(&course, &mut set, forces, &mut work, part, known) {
        Ok(()) => Ok(set),
        Err(e) => Err(e),
    }
}
