// What is left of a base step at a resting point: the unfinished evolves are finished one by one, from the least bin up.
ghost use Rattle.std.specs.Prelude.{◌≡◌, ◌≤◌, ◌<◌, ◌^◌, true, IfOk, option_copied};
ghost use Rattle.nbody_model.specs.Bodies.{only};
ghost use Rattle.nbody_model.specs.Evolve.{ask_if};
ghost use Rattle.nbody_model.specs.States.{low_zeros};
ghost use Rattle.model_laws.specs.Laws.{AreBodies};
ghost use Rattle.kick_drift.specs.Parts.{AreAscending, ids_at};
ghost use Rattle.step_engine.specs.Told.{AreForcesAmong};
ghost use Rattle.step_engine.specs.Stands.{AreOf, IsReady, IsTimely};
ghost use Rattle.step_engine.specs.Resumed.{EndsInTime, IsInside, middle_of, quick_places, whole_places};
ghost use Rattle.step_engine.specs.Calls.{now_by, Asks, innermost, Closes, SecondFiner, FinerLeft, RoundOf, RoundsTo};

use crate::KickOut;
use crate::asks::ask;
use crate::closes::{close_all, close_some};
use crate::course::Course;
use crate::depth::deepen_each;
use crate::halt::Halt;
use crate::pause::{Pause, began, deep_places, middle_of, zeros};
use crate::recursion::evolve;
use crate::steps::{Split, Step, Unfinished};
use crate::tells::rest;
use crate::work::Work;
use nbody_model::{Body, Field, Forces};
use particle_set::BodySet;

// The second finer step of an unfinished evolve, with the resting point before it unless that is the one where the step
// rests.
fn second_finer<F: Forces, O: KickOut>(
    course: &Course,
    set: &mut BodySet,
    forces: &mut F,
    out: &mut O,
    work: &mut Work,
    left: &Unfinished,
    quick: Field,
) -> Result<Field, Halt>
    requires ready { IsReady course.now.setup.now course.now.total (now_by F.Forces O.KickOut set.old forces.old out.old work.old) }
    requires inside { IsInside course.now.setup.now set.old left.now.pause.now.depth.now left.now.pause.now.tick }
    requires timely { EndsInTime (option_copied course.now.expansion) course.now.setup.now left.now.pause.now.tick }
    requires low { 1 ≤ course.now.setup.now.low_bin }
    requires above { low_zeros left.now.pause.now.tick < left.now.bin }
    requires within { left.now.bin ≤ course.now.setup.now.top_bin }
    requires places { AreAscending set.old left.now.fast.now }
    requires quick { AreForcesAmong (F.gravity forces.old) (only set.old (ids_at set.old left.now.fast.now)) quick }
    requires reached { left.now.pause.now.tick ≤ middle_of left.now.bin left.now.pause.now.tick }
    requires room { work.old.count.kicks ≤ 2 ^ 30 }
    ensures forces { IfOk result (AreForcesAmong (F.gravity forces.old) (only set.new (ids_at set.new left.now.fast.now))) }
    ensures makes { SecondFiner F.Forces O.KickOut course.now left.now result set.old forces.old out.old work.old set.new forces.new out.new work.new }
    ensures same_out { O.fixed out.new ≡ O.fixed out.old }
{
    let pause = left.pause;
    let bin = left.bin;
    let middle = middle_of(bin, pause.tick);
    let step = Step {
        bin: bin - 1,
        tick: middle,
        part: left.fast,
    };
    if bin == zeros(pause.tick) + 1 {
        return evolve(course, set, forces, out, work, &step, quick);
    }
    match rest::<F, O>(out, middle) {
        Ok(()) => {}
        Err(e) => return Err(e),
    }
    evolve(course, set, forces, out, work, &step, quick)
}

// The same, unless the step rests after the middle of the evolve. A rest in it is inside all evolves that are unfinished.
fn finer<F: Forces, O: KickOut>(
    course: &Course,
    set: &mut BodySet,
    forces: &mut F,
    out: &mut O,
    work: &mut Work,
    left: &Unfinished,
    quick: Field,
) -> Result<Field, Halt>
    requires ready { IsReady course.now.setup.now course.now.total (now_by F.Forces O.KickOut set.old forces.old out.old work.old) }
    requires inside { IsInside course.now.setup.now set.old left.now.pause.now.depth.now left.now.pause.now.tick }
    requires timely { EndsInTime (option_copied course.now.expansion) course.now.setup.now left.now.pause.now.tick }
    requires low { 1 ≤ course.now.setup.now.low_bin }
    requires above { low_zeros left.now.pause.now.tick < left.now.bin }
    requires within { left.now.bin ≤ course.now.setup.now.top_bin }
    requires places { AreAscending set.old left.now.fast.now }
    requires quick { AreForcesAmong (F.gravity forces.old) (only set.old (ids_at set.old left.now.fast.now)) quick }
    requires room { work.old.count.kicks ≤ 2 ^ 30 }
    ensures forces { IfOk result (AreForcesAmong (F.gravity forces.old) (only set.new (ids_at set.new left.now.fast.now))) }
    ensures makes { FinerLeft F.Forces O.KickOut course.now left.now result set.old forces.old out.old work.old set.new forces.new out.new work.new }
    ensures same_out { O.fixed out.new ≡ O.fixed out.old }
{
    let setup = course.setup;
    let pause = left.pause;
    let bin = left.bin;
    if pause.tick <= middle_of(bin, pause.tick) {
        return match second_finer(course, set, forces, out, work, left, quick) {
            Ok(quick) => Ok(quick),
            Err(halt) => Err(deepen_each(
                halt,
                &mut work.depth,
                pause.depth,
                setup.top_bin + 1 - bin,
            )),
        };
    }
    Ok(quick)
}

// The second half of a step, whether all of its bodies are fast or not.
fn close<F: Forces, O: KickOut>(
    course: &Course,
    set: &mut BodySet,
    forces: &mut F,
    out: &mut O,
    work: &mut Work,
    split: &Split,
    quick: Field,
) -> Result<Field, Halt>
    requires ready { IsReady course.now.setup.now course.now.total (now_by F.Forces O.KickOut set.old forces.old out.old work.old) }
    requires part { AreAscending set.old split.now.part.now }
    requires fast { AreOf set.old split.now.part.now split.now.fast.now }
    requires quick { AreForcesAmong (F.gravity forces.old) (only set.old (ids_at set.old split.now.fast.now)) quick }
    requires timely { IsTimely (option_copied course.now.expansion) split.now.bin split.now.tick 0 }
    requires room { work.old.count.kicks ≤ 2 ^ 40 }
    ensures forces { IfOk result (AreForcesAmong (F.gravity forces.old) (only set.new (ids_at set.new split.now.part.now))) }
    ensures makes { Closes F.Forces O.KickOut course.now split.now result set.old forces.old out.old work.old set.new forces.new out.new work.new }
    ensures same_out { O.fixed out.new ≡ O.fixed out.old }
{
    if split.fast.len() == split.part.len() {
        return match close_all(course, set, forces, out, work, split, &quick) {
            Ok(()) => Ok(quick),
            Err(e) => Err(e),
        };
    }
    close_some(course, set, forces, out, work, split, &quick)
}

// What is left of an unfinished evolve, with the places of its bodies.
fn finish_evolve<F: Forces, O: KickOut>(
    course: &Course,
    set: &mut BodySet,
    forces: &mut F,
    out: &mut O,
    work: &mut Work,
    left: &Unfinished,
    part: &[u32],
    quick: Field,
) -> Result<Field, Halt>
    requires ready { IsReady course.now.setup.now course.now.total (now_by F.Forces O.KickOut set.old forces.old out.old work.old) }
    requires inside { IsInside course.now.setup.now set.old left.now.pause.now.depth.now left.now.pause.now.tick }
    requires timely { EndsInTime (option_copied course.now.expansion) course.now.setup.now left.now.pause.now.tick }
    requires low { 1 ≤ course.now.setup.now.low_bin }
    requires above { low_zeros left.now.pause.now.tick < left.now.bin }
    requires within { left.now.bin ≤ course.now.setup.now.top_bin }
    requires part { part.now ≡ whole_places course.now.setup.now.top_bin left.now.pause.now.depth.now left.now.bin }
    requires fast { left.now.fast.now ≡ quick_places course.now.setup.now.top_bin left.now.pause.now.depth.now left.now.bin }
    requires quick { AreForcesAmong (F.gravity forces.old) (only set.old (ids_at set.old left.now.fast.now)) quick }
    requires room { work.old.count.kicks ≤ 2 ^ 30 }
    ensures forces { IfOk result (AreForcesAmong (F.gravity forces.old) (only set.new (ids_at set.new part.now))) }
    ensures makes { RoundOf F.Forces O.KickOut course.now left.now.pause.now left.now.bin result set.old forces.old out.old work.old set.new forces.new out.new work.new }
    ensures same_out { O.fixed out.new ≡ O.fixed out.old }
{
    let quick = match finer(course, set, forces, out, work, left, quick) {
        Ok(quick) => quick,
        Err(e) => return Err(e),
    };
    let start = began(left.bin, left.pause.tick);
    let split = Split {
        bin: left.bin,
        tick: start,
        part,
        fast: left.fast,
    };
    close(course, set, forces, out, work, &split, quick)
}

// What is left of the unfinished evolve of a bin, by the depths. The answer are the forces among its bodies.
fn round<F: Forces, O: KickOut>(
    course: &Course,
    set: &mut BodySet,
    forces: &mut F,
    out: &mut O,
    work: &mut Work,
    pause: &Pause,
    bin: u8,
    quick: Field,
) -> Result<Field, Halt>
    requires ready { IsReady course.now.setup.now course.now.total (now_by F.Forces O.KickOut set.old forces.old out.old work.old) }
    requires inside { IsInside course.now.setup.now set.old pause.now.depth.now pause.now.tick }
    requires timely { EndsInTime (option_copied course.now.expansion) course.now.setup.now pause.now.tick }
    requires low { 1 ≤ course.now.setup.now.low_bin }
    requires above { low_zeros pause.now.tick < bin }
    requires within { bin ≤ course.now.setup.now.top_bin }
    requires quick { AreForcesAmong (F.gravity forces.old) (only set.old (ids_at set.old (quick_places course.now.setup.now.top_bin pause.now.depth.now bin))) quick }
    requires room { work.old.count.kicks ≤ 2 ^ 30 }
    ensures forces { IfOk result (AreForcesAmong (F.gravity forces.old) (only set.new (ids_at set.new (whole_places course.now.setup.now.top_bin pause.now.depth.now bin)))) }
    ensures makes { RoundOf F.Forces O.KickOut course.now pause.now bin result set.old forces.old out.old work.old set.new forces.new out.new work.new }
    ensures same_out { O.fixed out.new ≡ O.fixed out.old }
{
    let setup = course.setup;
    let outer = setup.top_bin - bin;
    let part = match deep_places(course.alloc, pause.depth, outer) {
        Ok(part) => part,
        Err(_) => return Err(Halt::Memory),
    };
    let fast = match deep_places(course.alloc, pause.depth, outer + 1) {
        Ok(fast) => fast,
        Err(_) => return Err(Halt::Memory),
    };
    let left = Unfinished {
        pause,
        bin,
        fast: fast.as_slice(),
    };
    finish_evolve(course, set, forces, out, work, &left, &part, quick)
}

// The forces among the fast bodies of the innermost unfinished evolve, asked.
fn first_forces<F: Forces, O: KickOut>(
    course: &Course,
    set: &BodySet,
    forces: &mut F,
    out: &mut O,
    room: &mut Vec<Body>,
    pause: &Pause,
) -> Result<Field, Halt>
    requires bodies { AreBodies set.now }
    requires inside { IsInside course.now.setup.now set.now pause.now.depth.now pause.now.tick }
    ensures forces { IfOk result (AreForcesAmong (F.gravity forces.old) (only set.now (ids_at set.now (innermost course.now pause.now)))) }
    ensures makes { Asks F.Forces O.KickOut (ask_if true (ids_at set.now (innermost course.now pause.now))) result set.now forces.old out.old forces.new out.new }
    ensures same_out { O.fixed out.new ≡ O.fixed out.old }
{
    let setup = course.setup;
    let deepest = setup.top_bin - zeros(pause.tick);
    let fast = match deep_places(course.alloc, pause.depth, deepest) {
        Ok(fast) => fast,
        Err(_) => return Err(Halt::Memory),
    };
    ask(set, &fast, room, forces, out)
}

/// What is left of the unfinished evolves up to a bin; that of the resting point's own bin is whole. The answer are the
/// forces among the bodies of the last one.
pub(crate) fn rounds<F: Forces, O: KickOut>(
    course: &Course,
    set: &mut BodySet,
    forces: &mut F,
    out: &mut O,
    work: &mut Work,
    pause: &Pause,
    bin: u8,
) -> Result<Field, Halt>
    requires ready { IsReady course.now.setup.now course.now.total (now_by F.Forces O.KickOut set.old forces.old out.old work.old) }
    requires inside { IsInside course.now.setup.now set.old pause.now.depth.now pause.now.tick }
    requires timely { EndsInTime (option_copied course.now.expansion) course.now.setup.now pause.now.tick }
    requires low { 1 ≤ course.now.setup.now.low_bin }
    requires above { low_zeros pause.now.tick ≤ bin }
    requires within { bin ≤ course.now.setup.now.top_bin }
    requires none { work.old.count.kicks ≡ 0 }
    ensures forces { IfOk result (AreForcesAmong (F.gravity forces.old) (only set.new (ids_at set.new (whole_places course.now.setup.now.top_bin pause.now.depth.now bin)))) }
    ensures makes { RoundsTo F.Forces O.KickOut course.now pause.now bin result set.old forces.old out.old work.old set.new forces.new out.new work.new }
    ensures same_out { O.fixed out.new ≡ O.fixed out.old }
{
    if bin == zeros(pause.tick) {
        return first_forces(course, set, forces, out, &mut work.bodies, pause);
    }
    let quick = match rounds(course, set, forces, out, work, pause, bin - 1) {
        Ok(quick) => quick,
        Err(e) => return Err(e),
    };
    round(course, set, forces, out, work, pause, bin, quick)
}
