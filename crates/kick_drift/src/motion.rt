// One body's motion after a kick.
ghost use Rattle.std.specs.Prelude.{◌≡◌, ◌≤◌, ◌<◌, ◌^◌, Some, None, IfOk, IfErr, OnOk, slice_get};
ghost use Rattle.nbody_model.specs.Bodies.{BodyData};
ghost use Rattle.nbody_model.specs.Steps.{axis_out, kicked_by};
ghost use Rattle.kick_drift.specs.Parts.{kicked_motion};
ghost use Rattle.particle_set.specs.Motions.{with_motion_at};

use fixed_point::{V3, scale_in_range};
use nbody_model::Motion;
use particle_set::BodySet;

/// A motion after a kick by h, or the first axis on which the momentum would leave its range.
pub(crate) fn kicked(motion: &Motion, change: V3, h: u64) -> Result<Motion, u8>
    requires low { 1 ≤ h }
    requires high { h ≤ 2 ^ 19 }
    ensures ok { IfOk result (λ m. m ≡ kicked_motion h motion.now change) }
    ensures in_range { OnOk result (axis_out (kicked_by h motion.now.mom change) ≡ None) }
    ensures err { IfErr result (λ axis. axis_out (kicked_by h motion.now.mom change) ≡ Some axis) }
{
    let mom = motion.mom();
    let Some(x) = scale_in_range(mom[0], h, change.x) else {
        return Err(0);
    };
    let Some(y) = scale_in_range(mom[1], h, change.y) else {
        return Err(1);
    };
    let Some(z) = scale_in_range(mom[2], h, change.z) else {
        return Err(2);
    };
    let mut next = *motion;
    next.set_mom([x, y, z]);
    Ok(next)
}
