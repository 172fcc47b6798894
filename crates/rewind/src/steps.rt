// Steps that are taken back, with their finer steps.
ghost use Rattle.std.specs.Prelude.{◌≡◌, ◌≢◌, ◌≤◌, ◌<◌, ◌-◌, [], get_or, length, IfErr, IfOk, OnOk, option_copied, IfSome};
ghost use Rattle.std.specs.List.Sorted.{IsStrictlyIncreasing};
ghost use Rattle.nbody_model.specs.Bodies.{only};
ghost use Rattle.model_laws.specs.Nests.{ids_of};
ghost use Rattle.model_laws.specs.Preserved.{IsPart};
ghost use Rattle.kick_drift.specs.Parts.{AreAscending, ids_at};
ghost use Rattle.step_engine.specs.Told.{AreForcesAmong};
ghost use Rattle.step_engine.specs.Stands.{AreOf, IsGiven, IsTimely};
ghost use Rattle.step_engine.specs.BaseSteps.{StandsFor};
ghost use Rattle.rewind.specs.Calls.{InnerFails, InnerIsLeft, StepFails, StepIsLeft, UndoesInner, UndoesStep};

use crate::RewindErr;
use crate::asks::ask_fast;
use crate::course::{Course, Split, Step, Work, power};
use crate::parts::places_of;
use crate::stages::{undo_close, undo_open};
use fixed_point::Memory;
use nbody_model::{Field, Forces};
use particle_set::BodySet;

// The places of the fast bodies of a step, the last of those that are left, which is then left no more.
fn next_fast(
    course: &Course,
    set: &BodySet,
    part: &[u32],
    work: &mut Work,
) -> Result<Vec<u32>, Memory>
    requires part { AreAscending set.now part.now }
    requires some { 1 ≤ work.old.left }
    requires within { work.old.left ≤ length course.now.bins.now }
    requires of { IsPart (get_or course.now.bins.now (work.old.left - 1) []) (ids_at set.now part.now) }
    requires ascending { IsStrictlyIncreasing (get_or course.now.bins.now (work.old.left - 1) []) }
    ensures fast { IfOk result (λ v. ids_at set.now v.items ≡ get_or course.now.bins.now (work.old.left - 1) []) }
    ensures of { IfOk result (λ v. AreOf set.now part.now v.items) }
    ensures left { OnOk result (work.new.left ≡ work.old.left - 1) }
{
    work.left -= 1;
    let ids = course.bins.get(work.left);
    places_of(course.alloc, set, part, ids)
}

// Takes the two finer steps of the fast bodies back, the second one first.
#[cycle(back)]
fn undo_two<F: Forces>(
    course: &Course,
    set: &mut BodySet,
    forces: &mut F,
    work: &mut Work,
    split: &Split,
    quick: Field,
) -> Result<Field, RewindErr>
    requires stands { StandsFor (F.gravity forces.old) course.now.setup.now }
    requires quick { IsGiven (F.gravity forces.old) set.old split.now.fast.now quick }
    requires timely { IsTimely (option_copied course.now.expansion) split.now.bin split.now.tick 0 }
    requires low { 1 ≤ course.now.setup.now.low_bin }
    requires some { ids_at set.old split.now.fast.now ≢ [] }
    requires inside { InnerIsLeft (F.gravity forces.old) course.now split.now set.old work.old.left }
    ensures forces { IfOk result (AreForcesAmong (F.gravity forces.old) (only set.new (ids_at set.old split.now.fast.now))) }
    ensures ids { OnOk result (ids_of set.new ≡ ids_of set.old) }
    ensures ok { OnOk result (UndoesInner (F.gravity forces.old) course.now split.now set.old work.old.left set.new work.new.left) }
    ensures err { IfErr result (InnerFails (F.gravity forces.old) course.now split.now set.old work.old.left) }
    ensures same_gravity { F.gravity forces.new ≡ F.gravity forces.old }
    ensures same_fixed { F.fixed forces.new ≡ F.fixed forces.old }
{
    let finer = split.bin - 1;
    let second = Step {
        bin: finer,
        tick: split.tick + power(finer),
        part: split.fast,
    };
    let half = match undo_step(course, set, forces, work, &second, quick) {
        Ok(half) => half,
        Err(e) => return Err(e),
    };
    let first = Step {
        bin: finer,
        tick: split.tick,
        part: split.fast,
    };
    match undo_step(course, set, forces, work, &first, half) {
        Ok(known) => Ok(known),
        Err(e) => Err(e),
    }
}

// Takes what stands between the two kicks of a step back: nothing where no body is fast.
#[cycle(back)]
fn undo_between<F: Forces>(
    course: &Course,
    set: &mut BodySet,
    forces: &mut F,
    work: &mut Work,
    split: &Split,
    quick: Field,
) -> Result<Field, RewindErr>
    requires stands { StandsFor (F.gravity forces.old) course.now.setup.now }
    requires quick { IsGiven (F.gravity forces.old) set.old split.now.fast.now quick }
    requires timely { IsTimely (option_copied course.now.expansion) split.now.bin split.now.tick 0 }
    requires low { 1 ≤ course.now.setup.now.low_bin }
    requires inside { InnerIsLeft (F.gravity forces.old) course.now split.now set.old work.old.left }
    ensures forces { IfOk result (AreForcesAmong (F.gravity forces.old) (only set.new (ids_at set.old split.now.fast.now))) }
    ensures ids { OnOk result (ids_of set.new ≡ ids_of set.old) }
    ensures ok { OnOk result (UndoesInner (F.gravity forces.old) course.now split.now set.old work.old.left set.new work.new.left) }
    ensures err { IfErr result (InnerFails (F.gravity forces.old) course.now split.now set.old work.old.left) }
    ensures same_gravity { F.gravity forces.new ≡ F.gravity forces.old }
    ensures same_fixed { F.fixed forces.new ≡ F.fixed forces.old }
{
    if split.fast.is_empty() {
        return Ok(quick);
    }
    match undo_two(course, set, forces, work, split, quick) {
        Ok(quick) => Ok(quick),
        Err(e) => Err(e),
    }
}

/// Takes a step back by the forces among its bodies where it ended. The answer are the forces among them where it began.
#[cycle(back)]
pub(crate) fn undo_step<F: Forces>(
    course: &Course,
    set: &mut BodySet,
    forces: &mut F,
    work: &mut Work,
    step: &Step,
    known: Field,
) -> Result<Field, RewindErr>
    requires stands { StandsFor (F.gravity forces.old) course.now.setup.now }
    requires known { IsGiven (F.gravity forces.old) set.old step.now.part.now known }
    requires timely { IsTimely (option_copied course.now.expansion) step.now.bin step.now.tick 0 }
    requires low { 1 ≤ course.now.setup.now.low_bin }
    requires left { StepIsLeft (F.gravity forces.old) course.now step.now set.old work.old.left }
    ensures forces { IfOk result (AreForcesAmong (F.gravity forces.old) (only set.new (ids_at set.old step.now.part.now))) }
    ensures ids { OnOk result (ids_of set.new ≡ ids_of set.old) }
    ensures ok { OnOk result (UndoesStep (F.gravity forces.old) course.now step.now set.old work.old.left set.new work.new.left) }
    ensures err { IfErr result (StepFails (F.gravity forces.old) course.now step.now set.old work.old.left) }
    ensures same_gravity { F.gravity forces.new ≡ F.gravity forces.old }
    ensures same_fixed { F.fixed forces.new ≡ F.fixed forces.old }
{
    let places = match next_fast(course, set, step.part, work) {
        Ok(places) => places,
        Err(_) => return Err(RewindErr::Memory),
    };
    let split = Split {
        bin: step.bin,
        tick: step.tick,
        part: step.part,
        fast: places.as_slice(),
    };
    let quick = match ask_fast(course.alloc, set, &split, &known, &mut work.room, forces) {
        Ok(quick) => quick,
        Err(_) => return Err(RewindErr::Memory),
    };
    match undo_close(course, set, forces, &split, &known, &quick) {
        Ok(()) => {}
        Err(e) => return Err(e),
    }
    let quick = match undo_between(course, set, forces, work, &split, quick) {
        Ok(quick) => quick,
        Err(e) => return Err(e),
    };
    match undo_open(course, set, forces, &mut work.room, &split, &quick) {
        Ok(whole) => Ok(whole),
        Err(e) => Err(e),
    }
}
