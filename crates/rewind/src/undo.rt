// The stages of a step, taken back.
ghost use Rattle.std.specs.Prelude.{◌≡◌, ◌≤◌, ◌^◌, IfErr, IfOk, OnOk, length, slice_index, ℕ, ◌<◌};
ghost use Rattle.nbody_model.specs.Bodies.{only};
ghost use Rattle.nbody_model.specs.Steps.{without};
ghost use Rattle.nbody_model.specs.Setups.{IsSetup};
ghost use Rattle.model_laws.specs.Still.{SamePlaces};
ghost use Rattle.kick_drift.specs.Parts.{AreAscending, ids_at};
ghost use Rattle.step_engine.specs.Told.{AreForcesAmong};
ghost use Rattle.step_engine.specs.Stands.{AreOf, IsGiven};
ghost use Rattle.step_engine.specs.BaseSteps.{StandsFor};
ghost use Rattle.rewind_laws.specs.Back.{Reached};
ghost use Rattle.rewind.specs.Calls.{looked_at, unkicked};
ghost use Rattle.rewind.specs.Rewinding.{IsRefusedBy};

use crate::RewindErr;
use crate::course::{Course, Split};
use crate::kicks::unkick;
use crate::parts::{first_other, gather, ids_of};
use fixed_point::Memory;
use model_laws::laws::bodies::keep_limits;
use nbody_model::{Body, Field, Forces, Setup};
use particle_set::BodySet;
use std::alloc::Global;
use time_bins::fast_part;

// Every setup keeps its limits.
fn keeps_setup(setup: &Setup)
    ensures { IsSetup setup.now }
{
    let _low = setup.low_bin;
}

/// Takes a kick of a step back, by the forces among all of its bodies and among its fast ones, found by `_forces`.
pub(crate) fn unkick_part<F: Forces>(
    course: &Course,
    set: &mut BodySet,
    _forces: &F,
    split: &Split,
    whole: &Field,
    quick: &Field,
    h: u64,
) -> Result<(), RewindErr>
    requires stands { StandsFor (F.gravity _forces.now) course.now.setup.now }
    requires whole { IsGiven (F.gravity _forces.now) set.old split.now.part.now whole.now }
    requires fast { AreOf set.old split.now.part.now split.now.fast.now }
    requires quick { AreForcesAmong (F.gravity _forces.now) (only set.old (ids_at set.old split.now.fast.now)) quick.now }
    requires high { h ≤ 2 ^ 19 }
    ensures ok { OnOk result (unkicked (F.gravity _forces.now) split.now h set.old ≡ Reached set.new) }
    ensures places { OnOk result (SamePlaces set.new set.old) }
    ensures err { IfErr result (IsRefusedBy (unkicked (F.gravity _forces.now) split.now h set.old)) }
{
    keeps_setup(course.setup);
    keep_limits(set.bodies());
    match unkick(
        course.alloc,
        set,
        split.part,
        &whole.forces,
        split.fast,
        &quick.forces,
        h,
    ) {
        Ok(()) => Ok(()),
        Err(e) => Err(e),
    }
}

// The ids of the bodies at some places.
fn ids_among(alloc: Global, bodies: &[Body], chosen: &[u32]) -> Result<Vec<u64>, Memory>
    requires { (k : ℕ) → k < length chosen.now → slice_index chosen.now k < length bodies.now }
    ensures { IfOk result (λ ids. ids.items ≡ ids_at bodies.now chosen.now) }
{
    let mut ids = Vec::with_capacity(alloc, chosen.len())?;
    for place in chosen {
        let body = &bodies[*place as usize];
        ids.push(body.id)?;
    }
    Ok(ids)
}

/// Looks whether those bodies are fast that are told, by the forces among all bodies of a step, found by `_forces`.
pub(crate) fn look_at_fast<F: Forces>(
    course: &Course,
    set: &BodySet,
    _forces: &F,
    split: &Split,
    whole: &Field,
    room: &mut Vec<Body>,
) -> Result<(), RewindErr>
    requires stands { StandsFor (F.gravity _forces.now) course.now.setup.now }
    requires whole { IsGiven (F.gravity _forces.now) set.now split.now.part.now whole.now }
    requires fast { AreAscending set.now split.now.fast.now }
    requires bin { split.now.bin ≤ 20 }
    ensures ok { OnOk result (looked_at (F.gravity _forces.now) split.now set.now ≡ Reached set.now) }
    ensures err { IfErr result (IsRefusedBy (looked_at (F.gravity _forces.now) split.now set.now)) }
{
    keep_limits(set.bodies());
    gather(set, split.part, room)?;
    let chosen = fast_part(course.alloc, course.setup, room, &whole.forces, split.bin)?;
    let fast = ids_among(course.alloc, room, &chosen)?;
    let told = ids_of(course.alloc, set, split.fast)?;
    match first_other(&told, &fast) {
        None => Ok(()),
        Some(id) => Err(RewindErr::BinsDiffer {
            tick: split.tick,
            id,
        }),
    }
}
