// What is told in a step beside forces and kicks.
ghost use Rattle.std.specs.Prelude.{◌≡◌, ◌≤◌};
ghost use Rattle.model_laws.specs.Laws.{AreBodies};
ghost use Rattle.kick_drift.specs.Parts.{AreAscending, ids_at};
ghost use Rattle.step_engine.specs.Calls.{TellsPart, TellsRest};

use crate::KickOut;
use crate::halt::{Halt, halt_for};
use crate::parts::gather_ids;
use nbody_model::Forces;
use particle_set::BodySet;

/// Hands out which bodies are the fast part of a step, those at some ascending places. The room is for their ids.
pub(crate) fn tell_part<F: Forces, O: KickOut>(
    set: &BodySet,
    fast: &[u32],
    room: &mut Vec<u64>,
    out: &mut O,
) -> Result<(), Halt>
    requires bodies { AreBodies set.now }
    requires fast { AreAscending set.now fast.now }
    ensures makes { TellsPart F.Forces O.KickOut (ids_at set.now fast.now) result set.now out.old out.new }
    ensures same_out { O.fixed out.new ≡ O.fixed out.old }
{
    match gather_ids(set, fast, room) {
        Ok(()) => {}
        Err(_) => return Err(Halt::Memory),
    }
    match out.binned(room) {
        Ok(()) => Ok(()),
        Err(e) => Err(halt_for(e)),
    }
}

/// A resting point: the step goes on, or rests there.
pub(crate) fn rest<F: Forces, O: KickOut>(out: &mut O, tick: u64) -> Result<(), Halt>
    requires { 1 ≤ tick }
    ensures makes { TellsRest F.Forces O.KickOut tick result out.old out.new }
    ensures same_out { O.fixed out.new ≡ O.fixed out.old }
{
    if out.rested(tick) {
        return Err(Halt::Rest { tick });
    }
    Ok(())
}
