// Steps of 2^bin ticks, with finer steps for the bodies that need them.
ghost use Rattle.std.specs.Prelude.{◌≡◌, ◌≢◌, ◌≤◌, ◌<◌, ◌+◌, ◌^◌, [], ◌==◌, ◌&&◌, not, false, length, slice_index, IfOk, option_copied};
ghost use Rattle.nbody_model.specs.Bodies.{only};
ghost use Rattle.nbody_model.specs.Evolve.{is_empty};
ghost use Rattle.kick_drift.specs.Parts.{AreAscending, ids_at};
ghost use Rattle.model_laws.specs.Laws.{AreBodies};
ghost use Rattle.step_engine.specs.Told.{AreForcesAmong};
ghost use Rattle.step_engine.specs.Stands.{AreOf, IsGiven, IsReady, IsTimely};
ghost use Rattle.step_engine.specs.Calls.{now_by, Asks, asks_any, TwoFiner, Between, FromKick, FromAsk, Evolves};

use crate::KickOut;
use crate::asks::ask;
use crate::closes::{close_all, close_some};
use crate::course::{Course, first_factor, power};
use crate::depth::deepen;
use crate::halt::Halt;
use crate::kicks::kick_part;
use crate::parts::fast_places;
use crate::steps::{Kick, Split, Step};
use crate::tells::{rest, tell_part};
use crate::work::Work;
use nbody_model::{Body, Field, Forces};
use particle_set::BodySet;
use std::alloc::Global;

// Whether there are no places.
fn is_empty(places: &[u32]) -> bool
    ensures { result ≡ is_empty places.now }
{
    match places.split_first() {
        None => true,
        Some(_) => false,
    }
}

// Whether some bodies don't fit the least bin.
fn stops(course: &Course, bin: u8, fast: &[u32]) -> bool
    ensures { result ≡ (bin == course.now.setup.now.low_bin && not (is_empty fast.now)) }
{
    let setup = course.setup;
    bin == setup.low_bin && !is_empty(fast)
}

// The id of the body at the first of some places, or 0 where there is none.
fn first_id(set: &BodySet, places: &[u32]) -> u64
    requires { AreAscending set.now places.now }
    ensures { result ≡ slice_index (ids_at set.now places.now) 0 }
{
    match places.split_first() {
        None => 0,
        Some((first, _)) => set.get(*first as usize).id,
    }
}

// No forces, those among no bodies.
fn no_forces(alloc: Global) -> Field
    ensures forces { result.forces ≡ [] }
    ensures interactions { result.interactions ≡ 0 }
{
    Field {
        forces: Vec::new(alloc),
        interactions: 0,
        events: Vec::new(alloc),
    }
}

// The forces among the fast bodies of a step, asked if there are any.
fn ask_fast<F: Forces, O: KickOut>(
    alloc: Global,
    set: &BodySet,
    fast: &[u32],
    room: &mut Vec<Body>,
    forces: &mut F,
    out: &mut O,
) -> Result<Field, Halt>
    requires bodies { AreBodies set.now }
    requires fast { AreAscending set.now fast.now }
    ensures makes { Asks F.Forces O.KickOut (asks_any (ids_at set.now fast.now)) result set.now forces.old out.old forces.new out.new }
    ensures forces { IfOk result (AreForcesAmong (F.gravity forces.old) (only set.now (ids_at set.now fast.now))) }
    ensures same_out { O.fixed out.new ≡ O.fixed out.old }
{
    if is_empty(fast) {
        return Ok(no_forces(alloc));
    }
    ask(set, fast, room, forces, out)
}

// The two finer steps of the fast bodies, with the resting point between them.
#[cycle(step)]
fn two_finer<F: Forces, O: KickOut>(
    course: &Course,
    set: &mut BodySet,
    forces: &mut F,
    out: &mut O,
    work: &mut Work,
    split: &Split,
    quick: Field,
) -> Result<Field, Halt>
    requires ready { IsReady course.now.setup.now course.now.total (now_by F.Forces O.KickOut set.old forces.old out.old work.old) }
    requires quick { IsGiven (F.gravity forces.old) set.old split.now.fast.now quick }
    requires timely { IsTimely (option_copied course.now.expansion) split.now.bin split.now.tick 0 }
    requires finer { course.now.setup.now.low_bin < split.now.bin }
    requires low { 1 ≤ course.now.setup.now.low_bin }
    requires room { work.old.count.kicks + 2 ^ (split.now.bin + 1) ≤ 2 ^ 40 + 1 }
    ensures forces { IfOk result (AreForcesAmong (F.gravity forces.old) (only set.new (ids_at set.new split.now.fast.now))) }
    ensures makes { TwoFiner F.Forces O.KickOut course.now split.now result set.old forces.old out.old work.old set.new forces.new out.new work.new }
    ensures same_out { O.fixed out.new ≡ O.fixed out.old }
{
    let finer = split.bin - 1;
    let middle = split.tick + power(finer);
    let first = Step {
        bin: finer,
        tick: split.tick,
        part: split.fast,
    };
    let half = match evolve(course, set, forces, out, work, &first, quick) {
        Ok(half) => half,
        Err(e) => return Err(e),
    };
    match rest::<F, O>(out, middle) {
        Ok(()) => {}
        Err(e) => return Err(e),
    }
    let second = Step {
        bin: finer,
        tick: middle,
        part: split.fast,
    };
    evolve(course, set, forces, out, work, &second, half)
}

// What stands between the two kicks of a step: nothing where no body is fast.
#[cycle(step)]
fn between<F: Forces, O: KickOut>(
    course: &Course,
    set: &mut BodySet,
    forces: &mut F,
    out: &mut O,
    work: &mut Work,
    split: &Split,
    quick: Field,
) -> Result<Field, Halt>
    requires ready { IsReady course.now.setup.now course.now.total (now_by F.Forces O.KickOut set.old forces.old out.old work.old) }
    requires quick { IsGiven (F.gravity forces.old) set.old split.now.fast.now quick }
    requires timely { IsTimely (option_copied course.now.expansion) split.now.bin split.now.tick 0 }
    requires finer { is_empty split.now.fast.now ≡ false → course.now.setup.now.low_bin < split.now.bin }
    requires low { 1 ≤ course.now.setup.now.low_bin }
    requires room { work.old.count.kicks + 2 ^ (split.now.bin + 1) ≤ 2 ^ 40 + 1 }
    ensures forces { IfOk result (AreForcesAmong (F.gravity forces.old) (only set.new (ids_at set.new split.now.fast.now))) }
    ensures makes { Between F.Forces O.KickOut course.now split.now result set.old forces.old out.old work.old set.new forces.new out.new work.new }
    ensures same_out { O.fixed out.new ≡ O.fixed out.old }
{
    if is_empty(split.fast) {
        return Ok(quick);
    }
    match two_finer(course, set, forces, out, work, split, quick) {
        Ok(quick) => Ok(quick),
        Err(halt) => Err(deepen(halt, &mut work.depth, split.fast)),
    }
}

// The step of a part all of whose bodies are fast, from its first kick on.
#[cycle(step)]
fn step_all<F: Forces, O: KickOut>(
    course: &Course,
    set: &mut BodySet,
    forces: &mut F,
    out: &mut O,
    work: &mut Work,
    split: &Split,
    known: Field,
) -> Result<Field, Halt>
    requires ready { IsReady course.now.setup.now course.now.total (now_by F.Forces O.KickOut set.old forces.old out.old work.old) }
    requires known { IsGiven (F.gravity forces.old) set.old split.now.part.now known }
    requires fast { AreOf set.old split.now.part.now split.now.fast.now }
    requires all { length split.now.fast.now ≡ length split.now.part.now }
    requires timely { IsTimely (option_copied course.now.expansion) split.now.bin split.now.tick 0 }
    requires finer { is_empty split.now.fast.now ≡ false → course.now.setup.now.low_bin < split.now.bin }
    requires low { 1 ≤ course.now.setup.now.low_bin }
    requires room { work.old.count.kicks + 2 ^ (split.now.bin + 1) ≤ 2 ^ 40 }
    ensures forces { IfOk result (AreForcesAmong (F.gravity forces.old) (only set.new (ids_at set.new split.now.part.now))) }
    ensures makes { FromKick F.Forces O.KickOut course.now split.now result set.old forces.old out.old work.old set.new forces.new out.new work.new }
    ensures same_out { O.fixed out.new ≡ O.fixed out.old }
{
    let h = first_factor(course, split.bin, split.tick);
    let at = Kick {
        bin: split.bin,
        tick: split.tick,
        h,
        whole: split.part,
        fast: split.fast,
    };
    match kick_part(course, set, forces, out, work, &at, &known, &known) {
        Ok(()) => {}
        Err(e) => return Err(e),
    }
    let quick = match between(course, set, forces, out, work, split, known) {
        Ok(quick) => quick,
        Err(e) => return Err(e),
    };
    match close_all(course, set, forces, out, work, split, &quick) {
        Ok(()) => Ok(quick),
        Err(e) => Err(e),
    }
}

// The step of a part some of whose bodies aren't fast, from the forces among its fast ones on.
#[cycle(step)]
fn step_some<F: Forces, O: KickOut>(
    course: &Course,
    set: &mut BodySet,
    forces: &mut F,
    out: &mut O,
    work: &mut Work,
    split: &Split,
    known: &Field,
) -> Result<Field, Halt>
    requires ready { IsReady course.now.setup.now course.now.total (now_by F.Forces O.KickOut set.old forces.old out.old work.old) }
    requires known { IsGiven (F.gravity forces.old) set.old split.now.part.now known.now }
    requires fast { AreOf set.old split.now.part.now split.now.fast.now }
    requires some { length split.now.fast.now ≢ length split.now.part.now }
    requires timely { IsTimely (option_copied course.now.expansion) split.now.bin split.now.tick 0 }
    requires finer { is_empty split.now.fast.now ≡ false → course.now.setup.now.low_bin < split.now.bin }
    requires low { 1 ≤ course.now.setup.now.low_bin }
    requires room { work.old.count.kicks + 2 ^ (split.now.bin + 1) ≤ 2 ^ 40 }
    ensures forces { IfOk result (AreForcesAmong (F.gravity forces.old) (only set.new (ids_at set.new split.now.part.now))) }
    ensures makes { FromAsk F.Forces O.KickOut course.now split.now result set.old forces.old out.old work.old set.new forces.new out.new work.new }
    ensures same_out { O.fixed out.new ≡ O.fixed out.old }
{
    let quick = match ask_fast(course.alloc, set, split.fast, &mut work.bodies, forces, out) {
        Ok(quick) => quick,
        Err(e) => return Err(e),
    };
    let h = first_factor(course, split.bin, split.tick);
    let at = Kick {
        bin: split.bin,
        tick: split.tick,
        h,
        whole: split.part,
        fast: split.fast,
    };
    match kick_part(course, set, forces, out, work, &at, known, &quick) {
        Ok(()) => {}
        Err(e) => return Err(e),
    }
    let quick = match between(course, set, forces, out, work, split, quick) {
        Ok(quick) => quick,
        Err(e) => return Err(e),
    };
    close_some(course, set, forces, out, work, split, &quick)
}

/// Makes a step of 2^bin ticks by the forces among its bodies. The answer are the forces among them at the new positions.
#[cycle(step)]
pub(crate) fn evolve<F: Forces, O: KickOut>(
    course: &Course,
    set: &mut BodySet,
    forces: &mut F,
    out: &mut O,
    work: &mut Work,
    step: &Step,
    known: Field,
) -> Result<Field, Halt>
    requires ready { IsReady course.now.setup.now course.now.total (now_by F.Forces O.KickOut set.old forces.old out.old work.old) }
    requires known { IsGiven (F.gravity forces.old) set.old step.now.part.now known }
    requires timely { IsTimely (option_copied course.now.expansion) step.now.bin step.now.tick work.old.count.kicks }
    requires low { 1 ≤ course.now.setup.now.low_bin }
    requires high { course.now.setup.now.low_bin ≤ step.now.bin }
    ensures forces { IfOk result (AreForcesAmong (F.gravity forces.old) (only set.new (ids_at set.new step.now.part.now))) }
    ensures makes { Evolves F.Forces O.KickOut course.now step.now result set.old forces.old out.old work.old set.new forces.new out.new work.new }
    ensures same_out { O.fixed out.new ≡ O.fixed out.old }
{
    let found = match fast_places(
        course.alloc,
        course.setup,
        set,
        step.part,
        &known,
        step.bin,
        &mut work.bodies,
    ) {
        Ok(found) => found,
        Err(_) => return Err(Halt::Memory),
    };
    let fast = found.as_slice();
    if stops(course, step.bin, fast) {
        return Err(Halt::StepRange {
            tick: step.tick,
            id: first_id(set, fast),
        });
    }
    match tell_part::<F, O>(set, fast, &mut work.ids, out) {
        Ok(()) => {}
        Err(e) => return Err(e),
    }
    let part = step.part;
    let split = Split {
        bin: step.bin,
        tick: step.tick,
        part,
        fast,
    };
    if fast.len() == part.len() {
        return step_all(course, set, forces, out, work, &split, known);
    }
    step_some(course, set, forces, out, work, &split, &known)
}
