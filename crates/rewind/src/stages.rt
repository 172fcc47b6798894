// The second and the first half of a step, taken back but for its finer steps.
ghost use Rattle.std.specs.Prelude.{◌≡◌, ◌≤◌, ◌+◌, IfErr, IfOk, OnOk, option_copied};
ghost use Rattle.nbody_model.specs.Bodies.{only};
ghost use Rattle.model_laws.specs.Nests.{ids_of};
ghost use Rattle.kick_drift.specs.Parts.{AreAscending, ids_at};
ghost use Rattle.step_engine.specs.Told.{AreForcesAmong};
ghost use Rattle.step_engine.specs.Stands.{AreOf, IsGiven, IsTimely};
ghost use Rattle.step_engine.specs.BaseSteps.{StandsFor};
ghost use Rattle.rewind_laws.specs.Back.{Reached};
ghost use Rattle.rewind.specs.Rewinding.{IsRefusedBy};
ghost use Rattle.rewind.specs.Calls.{closed, opened};

use crate::RewindErr;
use crate::asks::ask_whole;
use crate::course::{Course, Split, drift_ticks, first_factor, last_factor};
use crate::parts::undrift_slow;
use crate::undo::{look_at_fast, unkick_part};
use nbody_model::{Body, Field, Forces};
use particle_set::BodySet;

/// Takes the last kick of a step back, and then the drift of those of its bodies that aren't fast.
pub(crate) fn undo_close<F: Forces>(
    course: &Course,
    set: &mut BodySet,
    _forces: &F,
    split: &Split,
    known: &Field,
    quick: &Field,
) -> Result<(), RewindErr>
    requires stands { StandsFor (F.gravity _forces.now) course.now.setup.now }
    requires known { IsGiven (F.gravity _forces.now) set.old split.now.part.now known.now }
    requires fast { AreOf set.old split.now.part.now split.now.fast.now }
    requires quick { AreForcesAmong (F.gravity _forces.now) (only set.old (ids_at set.old split.now.fast.now)) quick.now }
    requires timely { IsTimely (option_copied course.now.expansion) split.now.bin split.now.tick 0 }
    ensures ok { OnOk result (closed (F.gravity _forces.now) course.now split.now set.old ≡ Reached set.new) }
    ensures ids { OnOk result (ids_of set.new ≡ ids_of set.old) }
    ensures quick { OnOk result (AreForcesAmong (F.gravity _forces.now) (only set.new (ids_at set.old split.now.fast.now)) quick.now) }
    ensures err { IfErr result (IsRefusedBy (closed (F.gravity _forces.now) course.now split.now set.old)) }
{
    let h = last_factor(course, split.bin, split.tick);
    match unkick_part(course, set, _forces, split, known, quick, h) {
        Ok(()) => {}
        Err(e) => return Err(e),
    }
    let ticks = drift_ticks(course, split.bin, split.tick);
    match undrift_slow(
        course.alloc,
        course.setup,
        set,
        split.part,
        split.fast,
        ticks,
    ) {
        Ok(()) => Ok(()),
        Err(_) => Err(RewindErr::Memory),
    }
}

/// Takes the first kick of a step back, and looks whether those bodies are fast that are told. The answer are the forces
/// among all bodies of the step.
pub(crate) fn undo_open<F: Forces>(
    course: &Course,
    set: &mut BodySet,
    forces: &mut F,
    room: &mut Vec<Body>,
    split: &Split,
    quick: &Field,
) -> Result<Field, RewindErr>
    requires stands { StandsFor (F.gravity forces.old) course.now.setup.now }
    requires part { AreAscending set.old split.now.part.now }
    requires fast { AreOf set.old split.now.part.now split.now.fast.now }
    requires quick { AreForcesAmong (F.gravity forces.old) (only set.old (ids_at set.old split.now.fast.now)) quick.now }
    requires timely { IsTimely (option_copied course.now.expansion) split.now.bin split.now.tick 0 }
    ensures forces { IfOk result (AreForcesAmong (F.gravity forces.old) (only set.new (ids_at set.old split.now.part.now))) }
    ensures ok { OnOk result (opened (F.gravity forces.old) course.now split.now set.old ≡ Reached set.new) }
    ensures ids { OnOk result (ids_of set.new ≡ ids_of set.old) }
    ensures err { IfErr result (IsRefusedBy (opened (F.gravity forces.old) course.now split.now set.old)) }
    ensures same_gravity { F.gravity forces.new ≡ F.gravity forces.old }
    ensures same_fixed { F.fixed forces.new ≡ F.fixed forces.old }
{
    let whole = match ask_whole(course.alloc, set, split, quick, room, forces) {
        Ok(whole) => whole,
        Err(_) => return Err(RewindErr::Memory),
    };
    let h = first_factor(course, split.bin, split.tick);
    match unkick_part(course, set, forces, split, &whole, quick, h) {
        Ok(()) => {}
        Err(e) => return Err(e),
    }
    match look_at_fast(course, set, forces, split, &whole, room) {
        Ok(()) => Ok(whole),
        Err(e) => Err(e),
    }
}
