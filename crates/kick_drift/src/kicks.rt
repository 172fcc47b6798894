// The kick of a part of a set's bodies.
ghost use Rattle.std.specs.Prelude.{◌≡◌, ◌≤◌, ◌<◌, ◌^◌, ℕ, All, None, Some, IfErr, OnErr, OnOk, IfOk, length, slice_index_or};
ghost use Rattle.fixed_point.specs.Vectors.{IsAtMost};
ghost use Rattle.nbody_model.specs.Bodies.{BodyData, only, total};
ghost use Rattle.nbody_model.specs.Steps.{axis_out, first_out, kicked_by};
ghost use Rattle.particle_set.specs.Motions.{with_motion_at};
ghost use Rattle.kick_drift.specs.Parts.{AreAscending, CancelOut, IsRefusal, IsRefusalOf, StayInRange, after_kick, ids_at, kicked_motion};

use crate::change::change_at;
use crate::ids::ids_ascend;
use crate::motion::kicked;
use fixed_point::V3;
use nbody_model::Motion;
use particle_set::BodySet;
use thiserror::Error;

/// Why a kick isn't made.
#[derive(Clone, Copy, Debug, PartialEq, Eq, Error)]
pub enum KickErr {
    /// The least id of a body whose momentum would leave ±2^62, and the least axis (0, 1, 2) on which it would.
    #[error("momentum range id {id} axis {axis}")]
    MomRange { id: u64, axis: u8 },
}

// The motion of the body at a place after a change, or its id and first axis out of range.
fn next_motion(set: &BodySet, place: usize, change: V3, h: u64) -> Result<Motion, KickErr>
    requires within { place < length set.now }
    requires low { 1 ≤ h }
    requires high { h ≤ 2 ^ 19 }
    ensures ok { IfOk result (λ m. (b : BodyData) → m ≡ kicked_motion h (slice_index_or set.now place b).motion change) }
    ensures in_range { OnOk result ((b : BodyData) → axis_out (kicked_by h (slice_index_or set.now place b).motion.mom change) ≡ None) }
    ensures err { IfErr result (λ e. (b : BodyData) → IsRefusalOf (slice_index_or set.now place b).id (kicked_by h (slice_index_or set.now place b).motion.mom change) e) }
{
    let body = set.get(place);
    match kicked(&body.motion, change, h) {
        Ok(motion) => Ok(motion),
        Err(axis) => Err(KickErr::MomRange { id: body.id, axis }),
    }
}

// Whether all bodies at these places stay in range, else the first that doesn't.
fn test_all(
    set: &BodySet,
    whole: &[u32],
    f: &[V3],
    fast: &[u32],
    g: &[V3],
    h: u64,
) -> Result<(), KickErr>
    requires whole { AreAscending set.now whole.now }
    requires fast { AreAscending set.now fast.now }
    requires equal { length f.now ≡ length whole.now }
    requires equal_fast { length g.now ≡ length fast.now }
    requires slow { All (IsAtMost (2 ^ 118)) f.now }
    requires quick { All (IsAtMost (2 ^ 118)) g.now }
    requires low { 1 ≤ h }
    requires high { h ≤ 2 ^ 19 }
    ensures ok { OnOk result (first_out (only (after_kick h whole.now f.now fast.now g.now set.now) (ids_at set.now whole.now)) ≡ None) }
    ensures each { OnOk result (StayInRange h whole.now f.now fast.now g.now set.now) }
    ensures err { IfErr result (IsRefusal (only (after_kick h whole.now f.now fast.now g.now set.now) (ids_at set.now whole.now))) }
{
    ids_ascend(set);
    for k in 0..whole.len() {
        let change = change_at(whole[k], f[k], fast, g);
        if let Err(refusal) = next_motion(set, whole[k] as usize, change, h) {
            return Err(refusal);
        }
    }
    Ok(())
}

// Gives the body at a place its momentum after a change.
fn put(set: &mut BodySet, place: usize, change: V3, h: u64)
    requires within { place < length set.old }
    requires low { 1 ≤ h }
    requires high { h ≤ 2 ^ 19 }
    requires in_range { (b : BodyData) → axis_out (kicked_by h (slice_index_or set.old place b).motion.mom change) ≡ None }
    ensures { (b : BodyData) → set.new ≡ with_motion_at set.old place (kicked_motion h (slice_index_or set.old place b).motion change) }
{
    if let Ok(motion) = next_motion(set, place, change, h) {
        set.set_motion(place, motion);
    }
}

// Gives all bodies at these places their momenta after the kick.
fn put_all(set: &mut BodySet, whole: &[u32], f: &[V3], fast: &[u32], g: &[V3], h: u64)
    requires whole { AreAscending set.old whole.now }
    requires fast { AreAscending set.old fast.now }
    requires equal { length f.now ≡ length whole.now }
    requires equal_fast { length g.now ≡ length fast.now }
    requires slow { All (IsAtMost (2 ^ 118)) f.now }
    requires quick { All (IsAtMost (2 ^ 118)) g.now }
    requires low { 1 ≤ h }
    requires high { h ≤ 2 ^ 19 }
    requires in_range { StayInRange h whole.now f.now fast.now g.now set.old }
    ensures { set.new ≡ after_kick h whole.now f.now fast.now g.now set.old }
{
    ids_ascend(set);
    for k in 0..whole.len() {
        let change = change_at(whole[k], f[k], fast, g);
        put(set, whole[k] as usize, change, h);
    }
}

/// Kicks the bodies at the ascending places `whole` by h times their change: the force in `f`, less that in `g` where the body
/// stands at one of the ascending places `fast`. Forces are given in the order of their places, each at most 2^118 in size. Where
/// the changes add up to zero, the momentum of all bodies together stays. Nothing changes where a momentum would leave its range:
/// the answer is then the least such id, and its least such axis.
pub fn kick(
    set: &mut BodySet,
    whole: &[u32],
    f: &[V3],
    fast: &[u32],
    g: &[V3],
    h: u64,
) -> Result<(), KickErr>
    requires whole { AreAscending set.old whole.now }
    requires fast { AreAscending set.old fast.now }
    requires equal { length f.now ≡ length whole.now }
    requires equal_fast { length g.now ≡ length fast.now }
    requires slow { All (IsAtMost (2 ^ 118)) f.now }
    requires quick { All (IsAtMost (2 ^ 118)) g.now }
    requires low { 1 ≤ h }
    requires high { h ≤ 2 ^ 19 }
    ensures kicked { OnOk result (set.new ≡ after_kick h whole.now f.now fast.now g.now set.old) }
    ensures in_range { OnOk result (first_out (only (after_kick h whole.now f.now fast.now g.now set.old) (ids_at set.old whole.now)) ≡ None) }
    ensures total { OnOk result (CancelOut whole.now f.now fast.now g.now set.old → total set.new ≡ total set.old) }
    ensures refused { IfErr result (IsRefusal (only (after_kick h whole.now f.now fast.now g.now set.old) (ids_at set.old whole.now))) }
    ensures unchanged { OnErr result (set.new ≡ set.old) }
{
    test_all(set, whole, f, fast, g, h)?;
    put_all(set, whole, f, fast, g, h);
    Ok(())
}
