// A base step of all bodies.
ghost use Rattle.std.specs.Prelude.{◌≡◌, ◌≤◌, ◌+◌, ◌^◌, not, [], IfOk, IfSome, option_copied};
ghost use Rattle.nbody_model.specs.Bodies.{only, total, components};
ghost use Rattle.nbody_model.specs.Tables.{Reaches};
ghost use Rattle.nbody_model.specs.Evolve.{ask_if};
ghost use Rattle.model_laws.specs.Conserved.{IsConserved};
ghost use Rattle.model_laws.specs.Nests.{ids_of};
ghost use Rattle.model_laws.specs.Laws.{AreBodies};
ghost use Rattle.kick_drift.specs.Parts.{AreAscending, ids_at};
ghost use Rattle.step_engine.specs.Told.{AreForcesAmong};
ghost use Rattle.step_engine.specs.Stands.{IsReady};
ghost use Rattle.step_engine.specs.Halts.{end_of};
ghost use Rattle.step_engine.specs.BaseSteps.{AreKnown, StandsFor, StepCause, is_known};
ghost use Rattle.step_engine.specs.Calls.{now_by, Asks, EvolvesAll, BaseStepEnds};

use crate::asks::ask;
use crate::course::Course;
use crate::halt::Halt;
use crate::recursion::evolve;
use crate::steps::Step;
use crate::work::Work;
use crate::{Depths, KickOut, StepCount, StepEnd};
use expansion_table::Expansion;
use fixed_point::Memory;
use model_laws::laws::bodies::keep_limits;
use nbody_model::{Body, Field, Forces, Setup};
use particle_set::BodySet;
use std::alloc::Global;

// The places of all bodies, ascending.
fn all_places(alloc: Global, set: &BodySet) -> Result<Vec<u32>, Memory>
    ensures places { IfOk result (λ v. AreAscending set.now v.items) }
    ensures all { IfOk result (λ v. ids_at set.now v.items ≡ ids_of set.now) }
{
    let count = set.len();
    let mut places = Vec::with_capacity(alloc, count)?;
    for place in 0..count {
        places.push(place as u32)?;
    }
    Ok(places)
}

/// The momentum of all bodies together.
pub(crate) fn total_of(set: &BodySet) -> [i128; 3]
    ensures { result ≡ components (total set.now) }
{
    let total = set.total_momentum();
    [total[0], total[1], total[2]]
}

/// How a base step ends that halts.
pub(crate) fn end_of(halt: Halt, work: Work) -> StepEnd
    ensures { result ≡ end_of halt work.depth.items work.count }
{
    match halt {
        Halt::MomRange {
            tick,
            bin,
            id,
            axis,
        } => StepEnd::MomRange {
            tick,
            bin,
            id,
            axis,
        },
        Halt::StepRange { tick, id } => StepEnd::StepRange { tick, id },
        Halt::OutFault => StepEnd::OutFault,
        Halt::Rest { tick } => StepEnd::Rest {
            tick,
            depth: Depths::from_list(work.depth),
            count: work.count,
        },
        Halt::Memory => StepEnd::Memory,
    }
}

// The forces among the bodies at some places, asked unless they are known.
fn first_forces<F: Forces, O: KickOut>(
    set: &BodySet,
    part: &[u32],
    known: Option<Field>,
    room: &mut Vec<Body>,
    forces: &mut F,
    out: &mut O,
) -> Result<Field, Halt>
    requires bodies { AreBodies set.now }
    requires part { AreAscending set.now part.now }
    requires known { IfSome known (AreForcesAmong (F.gravity forces.old) (only set.now (ids_at set.now part.now))) }
    ensures makes { Asks F.Forces O.KickOut (ask_if (not (is_known known)) (ids_at set.now part.now)) result set.now forces.old out.old forces.new out.new }
    ensures forces { IfOk result (AreForcesAmong (F.gravity forces.old) (only set.now (ids_at set.now part.now))) }
    ensures same_out { O.fixed out.new ≡ O.fixed out.old }
{
    match known {
        Some(field) => Ok(field),
        None => ask(set, part, room, forces, out),
    }
}

// The base step of all bodies, by the forces among them, which are asked unless they are known.
fn step_whole<F: Forces, O: KickOut>(
    course: &Course,
    set: &mut BodySet,
    forces: &mut F,
    out: &mut O,
    work: &mut Work,
    known: Option<Field>,
    tick: u64,
) -> Result<Field, Halt>
    requires ready { IsReady course.now.setup.now course.now.total (now_by F.Forces O.KickOut set.old forces.old out.old work.old) }
    requires known { IfSome known (AreForcesAmong (F.gravity forces.old) set.old) }
    requires early { tick ≤ 2 ^ 40 }
    requires spans { IfSome (option_copied course.now.expansion) (λ e. Reaches e (tick + 2 ^ course.now.setup.now.top_bin)) }
    requires none { work.old.count.kicks ≡ 0 }
    ensures forces { IfOk result (AreForcesAmong (F.gravity forces.old) set.new) }
    ensures makes { EvolvesAll F.Forces O.KickOut course.now (is_known known) tick result set.old forces.old out.old work.old set.new forces.new out.new work.new }
    ensures same_out { O.fixed out.new ≡ O.fixed out.old }
{
    let all = match all_places(course.alloc, set) {
        Ok(all) => all,
        Err(_) => return Err(Halt::Memory),
    };
    let part = all.as_slice();
    let field = match first_forces(set, part, known, &mut work.bodies, forces, out) {
        Ok(field) => field,
        Err(e) => return Err(e),
    };
    let setup = course.setup;
    let step = Step {
        bin: setup.top_bin,
        tick,
        part,
    };
    evolve(course, set, forces, out, work, &step, field)
}

/// A base step: the step of 2^top_bin ticks of all bodies from a tick on, by any forces. What happens is handed out in order.
///
/// `known` has the forces among all bodies, or nothing, and then they are asked first. After a whole step it has these
/// forces at the new positions, and after any other end nothing. Whatever the end is, ids, kinds and masses stay, and so
/// does the momentum of all bodies together; after `OutFault` and `Memory` no more is known of the bodies.
pub fn base_step<F: Forces, O: KickOut>(
    alloc: Global,
    set: &mut BodySet,
    setup: &Setup,
    expansion: Option<&Expansion>,
    tick: u64,
    known: &mut Option<Field>,
    forces: &mut F,
    out: &mut O,
) -> Result<StepCount, StepEnd>
    requires forces { StandsFor (F.gravity forces.old) setup.now }
    requires known { IfSome known.old (AreForcesAmong (F.gravity forces.old) set.old) }
    requires early { tick ≤ 2 ^ 40 }
    requires spans { IfSome (option_copied expansion) (λ e. Reaches e (tick + 2 ^ setup.now.top_bin)) }
    ensures ends { BaseStepEnds F.Forces O.KickOut setup.now (option_copied expansion.entry) (is_known known.old) tick result set.old forces.old out.old set.new forces.new out.new }
    ensures conserved { IsConserved set.old set.new [] }
    ensures known { AreKnown result (F.gravity forces.old) set.new known.new }
    ensures cause { StepCause result (O.faults out.old) (O.faults out.new) (O.yes out.old) (O.yes out.new) }
    ensures same_gravity { F.gravity forces.new ≡ F.gravity forces.old }
    ensures same_fixed { F.fixed forces.new ≡ F.fixed forces.old }
    ensures same_out { O.fixed out.new ≡ O.fixed out.old }
{
    let before = known.take();
    keep_limits(set.bodies());
    let course = Course {
        alloc,
        setup,
        expansion,
        total: total_of(set),
    };
    let mut work = match Work::with_room(alloc, set) {
        Ok(work) => work,
        Err(_) => return Err(StepEnd::Memory),
    };
    match step_whole(&course, set, forces, out, &mut work, before, tick) {
        Ok(field) => {
            *known = Some(field);
            Ok(work.count)
        }
        Err(halt) => Err(end_of(halt, work)),
    }
}
