// The rest of a base step that rests.
ghost use Rattle.std.specs.Prelude.{◌≡◌, ◌≤◌, ◌+◌, ◌^◌, [], IfSome, None, option_copied};
ghost use Rattle.nbody_model.specs.States.{began};
ghost use Rattle.nbody_model.specs.Tables.{Reaches};
ghost use Rattle.model_laws.specs.Conserved.{IsConserved};
ghost use Rattle.step_engine.specs.BaseSteps.{AreKnown, StandsFor, StepCause};
ghost use Rattle.step_engine.specs.Resumed.{IsInside};
ghost use Rattle.step_engine.specs.Calls.{RestEnds};

use crate::base::{end_of, total_of};
use crate::course::Course;
use crate::pause::Pause;
use crate::rounds::rounds;
use crate::work::Work;
use crate::{Depths, KickOut, StepCount, StepEnd};
use expansion_table::Expansion;
use model_laws::laws::bodies::keep_limits;
use nbody_model::{Field, Forces, Setup};
use particle_set::BodySet;
use std::alloc::Global;

/// The rest of a base step that rests at a tick, by the depth of each body: its unfinished evolves are finished one by one,
/// from the least bin up, by any forces. What happens is handed out in order; the forces among the fast bodies of the
/// innermost one are asked first, and may be those among none.
///
/// `known` has nothing at first. After a whole step it has the forces among all bodies at the new positions, and after any
/// other end nothing. Whatever the end is, ids, kinds and masses stay, and so does the momentum of all bodies together;
/// after `OutFault` and `Memory` no more is known of the bodies. A step that rests again counts from this call on.
pub fn finish_step<F: Forces, O: KickOut>(
    alloc: Global,
    set: &mut BodySet,
    setup: &Setup,
    expansion: Option<&Expansion>,
    tick: u64,
    depth: &Depths,
    known: &mut Option<Field>,
    forces: &mut F,
    out: &mut O,
) -> Result<StepCount, StepEnd>
    requires forces { StandsFor (F.gravity forces.old) setup.now }
    requires rest { IsInside setup.now set.old depth.now tick }
    requires none { known.old ≡ None }
    requires early { began setup.now.top_bin tick ≤ 2 ^ 40 }
    requires spans { IfSome (option_copied expansion) (λ e. Reaches e (began setup.now.top_bin tick + 2 ^ setup.now.top_bin)) }
    ensures ends { RestEnds F.Forces O.KickOut setup.now (option_copied expansion.entry) depth.now tick result set.old forces.old out.old set.new forces.new out.new }
    ensures conserved { IsConserved set.old set.new [] }
    ensures known { AreKnown result (F.gravity forces.old) set.new known.new }
    ensures cause { StepCause result (O.faults out.old) (O.faults out.new) (O.yes out.old) (O.yes out.new) }
    ensures same_gravity { F.gravity forces.new ≡ F.gravity forces.old }
    ensures same_fixed { F.fixed forces.new ≡ F.fixed forces.old }
    ensures same_out { O.fixed out.new ≡ O.fixed out.old }
{
    keep_limits(set.bodies());
    let course = Course {
        alloc,
        setup,
        expansion,
        total: total_of(set),
    };
    let pause = Pause { tick, depth };
    let mut work = match Work::with_room(alloc, set) {
        Ok(work) => work,
        Err(_) => return Err(StepEnd::Memory),
    };
    match rounds(&course, set, forces, out, &mut work, &pause, setup.top_bin) {
        Ok(field) => {
            *known = Some(field);
            Ok(work.count)
        }
        Err(halt) => Err(end_of(halt, work)),
    }
}
