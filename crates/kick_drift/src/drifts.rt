// The drift of a part of a set's bodies.
ghost use Rattle.std.specs.Prelude.{◌≡◌, ◌≤◌, ◌*◌, ◌^◌, pos, ◌+ℤ◌, ◌<ℤ◌, unsigned_abs};
ghost use Rattle.std.specs.Int.{int_div_euclid, int_rem_euclid};
ghost use Rattle.nbody_model.specs.Scaling.{◌·◌};
ghost use Rattle.nbody_model.specs.Setups.{SetupData};
ghost use Rattle.nbody_model.specs.Steps.{drift, drifted};
ghost use Rattle.kick_drift.specs.Parts.{ArePlaces, ids_at};

use crate::ids::ids_ascend;
use fixed_point::floor_div_mod;
use nbody_model::{Body, Motion};
use particle_set::BodySet;

// A mass in units of 2^-shift.
fn scaled_mass(mass: u32, shift: u8) -> i128
    requires some { 1 ≤ mass }
    requires shift { shift ≤ 40 }
    ensures { result ≡ pos (mass * 2 ^ shift) }
{
    i128::from(mass) << shift
}

// A coordinate after a drift by so many ticks, by a scaled mass.
fn moved(x: u32, p: i64, ticks: u64, scaled: i128) -> u32
    requires ticks { ticks ≤ 2 ^ 20 }
    requires some { pos 0 <ℤ scaled }
    ensures { result ≡ unsigned_abs (int_rem_euclid (pos x +ℤ int_div_euclid (ticks · p) scaled) (pos (2 ^ 32))) }
{
    let (way, _) = floor_div_mod(i128::from(ticks) * i128::from(p), scaled);
    (i128::from(x) + way).rem_euclid(1 << 32) as u32
}

// The motion of a body after a drift by so many ticks.
fn moved_on(body: &Body, ticks: u64, shift: u8) -> Motion
    requires ticks { ticks ≤ 2 ^ 20 }
    requires shift { shift ≤ 40 }
    ensures { (s : SetupData) → s.velocity_shift ≡ shift → result ≡ (drifted s ticks body.now).motion }
{
    let mut motion = body.motion;
    let pos = motion.pos();
    let mom = motion.mom();
    let scaled = scaled_mass(body.mass, shift);
    motion.set_pos([
        moved(pos[0], mom[0], ticks, scaled),
        moved(pos[1], mom[1], ticks, scaled),
        moved(pos[2], mom[2], ticks, scaled),
    ]);
    motion
}

/// Moves the bodies at these places on by a number of ticks: each coordinate by the momentum times the ticks over the mass,
/// which counts in units of `2^-shift`, rounded down, round the box.
pub fn drift(set: &mut BodySet, members: &[u32], ticks: u64, shift: u8)
    requires ticks { ticks ≤ 2 ^ 20 }
    requires shift { shift ≤ 40 }
    requires places { ArePlaces set.old members.now }
    ensures { (s : SetupData) → s.velocity_shift ≡ shift → set.new ≡ drift s (ids_at set.old members.now) ticks set.old }
{
    ids_ascend(set);
    for member in members {
        let place = *member as usize;
        let motion = moved_on(set.get(place), ticks, shift);
        set.set_motion(place, motion);
    }
}
