// Kicks that are taken back.
ghost use Rattle.std.specs.Prelude.{◌≡◌, ◌≤◌, ◌^◌, All, None, IfErr, IfOk, OnOk, map};
ghost use Rattle.std.specs.List.{AllByRecursion};
ghost use Rattle.fixed_point.specs.Vectors.{IsAtMost, negative};
ghost use Rattle.nbody_model.specs.Bodies.{IsInRange, only};
ghost use Rattle.nbody_model.specs.Steps.{first_out};
ghost use Rattle.kick_drift.specs.Parts.{AreAscending, ids_at};
ghost use Rattle.step_engine.specs.Stands.{HasEach};
ghost use Rattle.rewind.specs.Undoing.{IsOutBefore, before_kick, out_before};

use crate::RewindErr;
use fixed_point::{Memory, V3};
use kick_drift::{KickErr, kick};
use nbody_model::Body;
use particle_set::BodySet;
use std::alloc::Global;

// The negative of a force.
fn negated(force: &V3) -> V3
    requires { IsAtMost (2 ^ 118) force.now }
    ensures value { result ≡ negative force.now }
    ensures small { IsAtMost (2 ^ 118) result }
{
    force.negated()
}

// The negatives of all forces.
fn all_negated(alloc: Global, forces: &[V3]) -> Result<Vec<V3>, Memory>
    requires { All (IsAtMost (2 ^ 118)) forces.now }
    ensures value { IfOk result (λ v. v.items ≡ map negative forces.now) }
    ensures small { IfOk result (λ v. All (IsAtMost (2 ^ 118)) v.items) }
{
    let mut opposite = Vec::with_capacity(alloc, forces.len())?;
    for force in forces {
        opposite.push(negated(force))?;
    }
    Ok(opposite)
}

// The momentum of a body is in range.
fn keeps_range(body: &Body)
    ensures { IsInRange body.now.motion.mom }
{
    let motion = &body.motion;
    let _mom = motion.mom();
}

// So are those of all bodies.
pub(crate) fn keep_range(bodies: &[Body])
    ensures { AllByRecursion (λ b. IsInRange b.motion.mom) bodies.now }
{
    for body in bodies {
        keeps_range(body);
    }
}

// Why a kick isn't taken back, where that by the opposite forces is refused.
fn out_before(refusal: KickErr) -> RewindErr
    ensures { result ≡ out_before refusal }
{
    match refusal {
        KickErr::MomRange { id, axis } => RewindErr::MomRange { id, axis },
    }
}

/// Takes a kick by h back from the bodies at the ascending places `whole`: their momenta less h times their change, which
/// is the force in `f`, less that in `g` where the body stands at one of the ascending places `fast`.
pub(crate) fn unkick(
    alloc: Global,
    set: &mut BodySet,
    whole: &[u32],
    f: &[V3],
    fast: &[u32],
    g: &[V3],
    h: u64,
) -> Result<(), RewindErr>
    requires whole { AreAscending set.old whole.now }
    requires fast { AreAscending set.old fast.now }
    requires slow { HasEach whole.now f.now }
    requires quick { HasEach fast.now g.now }
    requires high { h ≤ 2 ^ 19 }
    ensures ok { OnOk result (set.new ≡ before_kick h whole.now f.now fast.now g.now set.old) }
    ensures in_range { OnOk result (first_out (only set.new (ids_at set.old whole.now)) ≡ None) }
    ensures err { IfErr result (IsOutBefore (first_out (only (before_kick h whole.now f.now fast.now g.now set.old) (ids_at set.old whole.now)))) }
{
    if h == 0 {
        keep_range(set.bodies());
        return Ok(());
    }
    let f = all_negated(alloc, f)?;
    let g = all_negated(alloc, g)?;
    match kick(set, whole, &f, fast, &g, h) {
        Ok(()) => Ok(()),
        Err(refusal) => Err(out_before(refusal)),
    }
}
