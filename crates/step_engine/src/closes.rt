// The second half of a step.
ghost use Rattle.std.specs.Prelude.{◌≡◌, ◌≢◌, ◌≤◌, ◌^◌, length, IfOk, option_copied};
ghost use Rattle.nbody_model.specs.Bodies.{only};
ghost use Rattle.kick_drift.specs.Parts.{AreAscending, ids_at};
ghost use Rattle.step_engine.specs.Told.{AreForcesAmong};
ghost use Rattle.step_engine.specs.Stands.{AreOf, IsReady, IsTimely};
ghost use Rattle.step_engine.specs.Calls.{now_by, Closes};

use crate::KickOut;
use crate::asks::ask;
use crate::course::{Course, drift_ticks, last_factor, power};
use crate::halt::Halt;
use crate::kicks::kick_part;
use crate::parts::drift_slow;
use crate::steps::{Kick, Split};
use crate::work::Work;
use nbody_model::{Field, Forces};
use particle_set::BodySet;

/// The second half of a step all of whose bodies are fast: their kick.
pub(crate) fn close_all<F: Forces, O: KickOut>(
    course: &Course,
    set: &mut BodySet,
    forces: &F,
    out: &mut O,
    work: &mut Work,
    split: &Split,
    quick: &Field,
) -> Result<(), Halt>
    requires ready { IsReady course.now.setup.now course.now.total (now_by F.Forces O.KickOut set.old forces.now out.old work.old) }
    requires part { AreAscending set.old split.now.part.now }
    requires fast { AreOf set.old split.now.part.now split.now.fast.now }
    requires all { length split.now.fast.now ≡ length split.now.part.now }
    requires quick { AreForcesAmong (F.gravity forces.now) (only set.old (ids_at set.old split.now.fast.now)) quick.now }
    requires timely { IsTimely (option_copied course.now.expansion) split.now.bin split.now.tick 0 }
    requires room { work.old.count.kicks ≤ 2 ^ 40 }
    ensures forces { AreForcesAmong (F.gravity forces.now) (only set.new (ids_at set.new split.now.part.now)) quick.now }
    ensures makes { Closes F.Forces O.KickOut course.now split.now result set.old forces.now out.old work.old set.new forces.now out.new work.new }
    ensures same_out { O.fixed out.new ≡ O.fixed out.old }
{
    let h = last_factor(course, split.bin, split.tick);
    let end = split.tick + power(split.bin);
    let at = Kick {
        bin: split.bin,
        tick: end,
        h,
        whole: split.part,
        fast: split.fast,
    };
    kick_part(course, set, forces, out, work, &at, quick, quick)
}

/// The second half of a step some of whose bodies aren't fast: these drift, the forces among all of its bodies are asked, and
/// all are kicked. The answer are these forces.
pub(crate) fn close_some<F: Forces, O: KickOut>(
    course: &Course,
    set: &mut BodySet,
    forces: &mut F,
    out: &mut O,
    work: &mut Work,
    split: &Split,
    quick: &Field,
) -> Result<Field, Halt>
    requires ready { IsReady course.now.setup.now course.now.total (now_by F.Forces O.KickOut set.old forces.old out.old work.old) }
    requires part { AreAscending set.old split.now.part.now }
    requires fast { AreOf set.old split.now.part.now split.now.fast.now }
    requires some { length split.now.fast.now ≢ length split.now.part.now }
    requires quick { AreForcesAmong (F.gravity forces.old) (only set.old (ids_at set.old split.now.fast.now)) quick.now }
    requires timely { IsTimely (option_copied course.now.expansion) split.now.bin split.now.tick 0 }
    requires room { work.old.count.kicks ≤ 2 ^ 40 }
    ensures forces { IfOk result (AreForcesAmong (F.gravity forces.old) (only set.new (ids_at set.new split.now.part.now))) }
    ensures makes { Closes F.Forces O.KickOut course.now split.now result set.old forces.old out.old work.old set.new forces.new out.new work.new }
    ensures same_out { O.fixed out.new ≡ O.fixed out.old }
{
    let ticks = drift_ticks(course, split.bin, split.tick);
    match drift_slow(
        course.alloc,
        course.setup,
        set,
        split.part,
        split.fast,
        ticks,
    ) {
        Ok(()) => {}
        Err(_) => return Err(Halt::Memory),
    }
    let whole = match ask(set, split.part, &mut work.bodies, forces, out) {
        Ok(whole) => whole,
        Err(e) => return Err(e),
    };
    let h = last_factor(course, split.bin, split.tick);
    let end = split.tick + power(split.bin);
    let at = Kick {
        bin: split.bin,
        tick: end,
        h,
        whole: split.part,
        fast: split.fast,
    };
    match kick_part(course, set, forces, out, work, &at, &whole, quick) {
        Ok(()) => Ok(whole),
        Err(e) => Err(e),
    }
}
