// Forces that are asked in a step.
ghost use Rattle.std.specs.Prelude.{◌≡◌, IfOk};
ghost use Rattle.nbody_model.specs.Bodies.{only};
ghost use Rattle.model_laws.specs.Laws.{AreBodies};
ghost use Rattle.kick_drift.specs.Parts.{AreAscending, ids_at};
ghost use Rattle.step_engine.specs.Told.{AreForcesAmong};
ghost use Rattle.step_engine.specs.Calls.{Asks, asks};

use crate::KickOut;
use crate::halt::{Halt, halt_for};
use crate::parts::gather;
use nbody_model::{Body, Field, Forces};
use particle_set::BodySet;

/// The forces among the bodies at some ascending places, handed out. The room is for these bodies.
pub(crate) fn ask<F: Forces, O: KickOut>(
    set: &BodySet,
    part: &[u32],
    room: &mut Vec<Body>,
    forces: &mut F,
    out: &mut O,
) -> Result<Field, Halt>
    requires bodies { AreBodies set.now }
    requires part { AreAscending set.now part.now }
    ensures makes { Asks F.Forces O.KickOut (asks (ids_at set.now part.now)) result set.now forces.old out.old forces.new out.new }
    ensures forces { IfOk result (AreForcesAmong (F.gravity forces.old) (only set.now (ids_at set.now part.now))) }
    ensures same_out { O.fixed out.new ≡ O.fixed out.old }
{
    match gather(set, part, room) {
        Ok(()) => {}
        Err(_) => return Err(Halt::Memory),
    }
    let field = match forces.force(room) {
        Ok(field) => field,
        Err(_) => return Err(Halt::Memory),
    };
    match out.forced(&field) {
        Ok(()) => Ok(field),
        Err(e) => Err(halt_for(e)),
    }
}
