// Forces that a step is taken back by.
ghost use Rattle.std.specs.Prelude.{◌≡◌, IfOk};
ghost use Rattle.nbody_model.specs.Bodies.{only};
ghost use Rattle.kick_drift.specs.Parts.{AreAscending, ids_at};
ghost use Rattle.step_engine.specs.Told.{AreForcesAmong};
ghost use Rattle.step_engine.specs.Stands.{AreOf};

use crate::course::Split;
use crate::parts::gather;
use fixed_point::Memory;
use model_laws::laws::bodies::keep_limits;
use nbody_model::{Body, Field, Forces};
use particle_set::BodySet;
use std::alloc::Global;

/// The forces among the bodies at some ascending places. The room is for these bodies.
pub(crate) fn ask<F: Forces>(
    set: &BodySet,
    part: &[u32],
    room: &mut Vec<Body>,
    forces: &mut F,
) -> Result<Field, Memory>
    requires { AreAscending set.now part.now }
    ensures forces { IfOk result (AreForcesAmong (F.gravity forces.old) (only set.now (ids_at set.now part.now))) }
    ensures same_gravity { F.gravity forces.new ≡ F.gravity forces.old }
    ensures same_fixed { F.fixed forces.new ≡ F.fixed forces.old }
{
    keep_limits(set.bodies());
    match gather(set, part, room) {
        Ok(()) => {}
        Err(e) => return Err(e),
    }
    forces.force(room)
}

// The same forces again.
fn copied(alloc: Global, field: &Field) -> Result<Field, Memory>
    ensures forces { IfOk result (λ f. f.forces ≡ field.now.forces) }
    ensures interactions { IfOk result (λ f. f.interactions ≡ field.now.interactions) }
{
    Ok(Field {
        forces: Vec::from_slice(alloc, &field.forces)?,
        interactions: field.interactions,
        events: Vec::new(alloc),
    })
}

/// The forces among the fast bodies of a step, by those among all of its bodies where all are fast.
pub(crate) fn ask_fast<F: Forces>(
    alloc: Global,
    set: &BodySet,
    split: &Split,
    known: &Field,
    room: &mut Vec<Body>,
    forces: &mut F,
) -> Result<Field, Memory>
    requires fast { AreOf set.now split.now.part.now split.now.fast.now }
    requires known { AreForcesAmong (F.gravity forces.old) (only set.now (ids_at set.now split.now.part.now)) known.now }
    ensures forces { IfOk result (AreForcesAmong (F.gravity forces.old) (only set.now (ids_at set.now split.now.fast.now))) }
    ensures same_gravity { F.gravity forces.new ≡ F.gravity forces.old }
    ensures same_fixed { F.fixed forces.new ≡ F.fixed forces.old }
{
    if split.fast.len() == split.part.len() {
        return copied(alloc, known);
    }
    ask(set, split.fast, room, forces)
}

/// The forces among all bodies of a step, by those among its fast ones where all are fast.
pub(crate) fn ask_whole<F: Forces>(
    alloc: Global,
    set: &BodySet,
    split: &Split,
    quick: &Field,
    room: &mut Vec<Body>,
    forces: &mut F,
) -> Result<Field, Memory>
    requires part { AreAscending set.now split.now.part.now }
    requires fast { AreOf set.now split.now.part.now split.now.fast.now }
    requires quick { AreForcesAmong (F.gravity forces.old) (only set.now (ids_at set.now split.now.fast.now)) quick.now }
    ensures forces { IfOk result (AreForcesAmong (F.gravity forces.old) (only set.now (ids_at set.now split.now.part.now))) }
    ensures same_gravity { F.gravity forces.new ≡ F.gravity forces.old }
    ensures same_fixed { F.fixed forces.new ≡ F.fixed forces.old }
{
    if split.fast.len() == split.part.len() {
        return copied(alloc, quick);
    }
    ask(set, split.part, room, forces)
}
