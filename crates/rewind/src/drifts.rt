// Drifts that are taken back.
ghost use Rattle.std.specs.Prelude.{◌≡◌, ◌≤◌, ◌*◌, ◌^◌, pos, ◌-ℤ◌, ◌<ℤ◌, unsigned_abs, map};
ghost use Rattle.std.specs.Int.{int_div_euclid, int_rem_euclid};
ghost use Rattle.std.specs.List.Sorted.{IsStrictlyIncreasing};
ghost use Rattle.nbody_model.specs.Scaling.{◌·◌};
ghost use Rattle.nbody_model.specs.Setups.{SetupData};
ghost use Rattle.kick_drift.specs.Parts.{ArePlaces, ids_at};
ghost use Rattle.rewind_laws.specs.Back.{undrift, undrifted};

use fixed_point::floor_div_mod;
use nbody_model::{Body, Motion};
use particle_set::BodySet;

// A mass in units of 2^-shift.
fn scaled_mass(mass: u32, shift: u8) -> i128
    requires some { 1 ≤ mass }
    requires shift { shift ≤ 40 }
    ensures { result ≡ pos (mass * 2 ^ shift) }
{
    i128::from(mass) << shift
}

// A coordinate before a drift by so many ticks, by a scaled mass.
fn moved_back(x: u32, p: i64, ticks: u64, scaled: i128) -> u32
    requires ticks { ticks ≤ 2 ^ 20 }
    requires some { pos 0 <ℤ scaled }
    ensures { result ≡ unsigned_abs (int_rem_euclid (pos x -ℤ int_div_euclid (ticks · p) scaled) (pos (2 ^ 32))) }
{
    let (way, _) = floor_div_mod(i128::from(ticks) * i128::from(p), scaled);
    (i128::from(x) - way).rem_euclid(1 << 32) as u32
}

// The motion of a body before a drift by so many ticks.
fn motion_before(body: &Body, ticks: u64, shift: u8) -> Motion
    requires ticks { ticks ≤ 2 ^ 20 }
    requires shift { shift ≤ 40 }
    ensures { (s : SetupData) → s.velocity_shift ≡ shift → result ≡ (undrifted s ticks body.now).motion }
{
    let mut motion = body.motion;
    let pos = motion.pos();
    let mom = motion.mom();
    let scaled = scaled_mass(body.mass, shift);
    motion.set_pos([
        moved_back(pos[0], mom[0], ticks, scaled),
        moved_back(pos[1], mom[1], ticks, scaled),
        moved_back(pos[2], mom[2], ticks, scaled),
    ]);
    motion
}

// The bodies of a set ascend in id.
fn ids_ascend(set: &BodySet)
    ensures { IsStrictlyIncreasing (map (λ b. b.id) set.now) }
{
    let _bodies = set.bodies();
}

/// Moves the bodies at these places back by a number of ticks: each coordinate by the momentum times the ticks over the
/// mass, which counts in units of `2^-shift`, rounded down, round the box. That isn't a drift with the opposite momentum.
pub(crate) fn undrift(set: &mut BodySet, members: &[u32], ticks: u64, shift: u8)
    requires ticks { ticks ≤ 2 ^ 20 }
    requires shift { shift ≤ 40 }
    requires places { ArePlaces set.old members.now }
    ensures { (s : SetupData) → s.velocity_shift ≡ shift → set.new ≡ undrift s (ids_at set.old members.now) ticks set.old }
{
    ids_ascend(set);
    for member in members {
        let place = *member as usize;
        let motion = motion_before(set.get(place), ticks, shift);
        set.set_motion(place, motion);
    }
}
