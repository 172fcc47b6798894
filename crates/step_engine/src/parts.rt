// The bodies of a part of a set.
ghost use Rattle.std.specs.Prelude.{◌≡◌, ◌<◌, ◌≤◌, ◌^◌, length, map, slice_index, OnOk, OnErr, IfOk, ℕ};
ghost use Rattle.std.specs.List.Sorted.{IsStrictlyIncreasing};
ghost use Rattle.nbody_model.specs.Bodies.{has, only};
ghost use Rattle.nbody_model.specs.Steps.{drift, without};
ghost use Rattle.model_laws.specs.Laws.{AreBodies};
ghost use Rattle.kick_drift.specs.Parts.{AreAscending, ids_at};
ghost use Rattle.step_engine.specs.Stands.{AreFastOf};

use fixed_point::Memory;
use kick_drift::drift;
use nbody_model::{Body, Field, Setup};
use particle_set::BodySet;
use std::alloc::Global;
use time_bins::fast_part;

/// Puts the bodies at some ascending places into a room, which they fill.
pub(crate) fn gather(set: &BodySet, part: &[u32], room: &mut Vec<Body>) -> Result<(), Memory>
    requires { AreAscending set.now part.now }
    ensures { OnOk result (room.new.items ≡ only set.now (ids_at set.now part.now)) }
{
    room.clear();
    for place in part {
        room.push(*set.get(*place as usize))?;
    }
    ids_ascend(set);
    Ok(())
}

// The bodies of a set ascend in id.
fn ids_ascend(set: &BodySet)
    ensures { IsStrictlyIncreasing (map (λ b. b.id) set.now) }
{
    let _bodies = set.bodies();
}

/// Puts the ids of the bodies at some places into a room, which they fill.
pub(crate) fn gather_ids(set: &BodySet, part: &[u32], room: &mut Vec<u64>) -> Result<(), Memory>
    requires { AreAscending set.now part.now }
    ensures { OnOk result (room.new.items ≡ ids_at set.now part.now) }
{
    room.clear();
    for place in part {
        room.push(set.get(*place as usize).id)?;
    }
    Ok(())
}

// Whether a place is among ascending ones.
fn is_among(places: &[u32], place: u32) -> bool
    requires { IsStrictlyIncreasing places.now }
    ensures { result ≡ has places.now place }
{
    match places.binary_search(&place) {
        Ok(_at) => true,
        Err(_) => false,
    }
}

/// The places of a part that aren't among the fast ones.
pub(crate) fn slow_places(alloc: Global, part: &[u32], fast: &[u32]) -> Result<Vec<u32>, Memory>
    requires { IsStrictlyIncreasing fast.now }
    ensures { IfOk result (λ slow. slow.items ≡ without fast.now part.now) }
{
    let slow = part
        .iter()
        .copied()
        .filter(|place| !is_among(fast, *place))
        .collect(alloc)?;
    Ok(slow)
}

// The places that some ascending places of a list of places name.
fn placed(alloc: Global, part: &[u32], chosen: &[u32]) -> Result<Vec<u32>, Memory>
    requires { (k : ℕ) → k < length chosen.now → slice_index chosen.now k < length part.now }
    ensures { IfOk result (λ v. v.items ≡ map (slice_index part.now) chosen.now) }
{
    let mut places = Vec::with_capacity(alloc, chosen.len())?;
    for k in chosen {
        places.push(part[*k as usize])?;
    }
    Ok(places)
}

/// The places of those bodies of a part that don't fit a bin, ascending, by the forces among the part. The room is for the
/// bodies of the part.
pub(crate) fn fast_places(
    alloc: Global,
    setup: &Setup,
    set: &BodySet,
    part: &[u32],
    known: &Field,
    bin: u8,
    room: &mut Vec<Body>,
) -> Result<Vec<u32>, Memory>
    requires bin { bin ≤ 20 }
    requires bodies { AreBodies set.now }
    requires part { AreAscending set.now part.now }
    requires equal { length known.now.forces ≡ length part.now }
    ensures { IfOk result (λ fast. AreFastOf setup.now bin set.now part.now known.now fast.items) }
{
    gather(set, part, room)?;
    let chosen = fast_part(alloc, setup, room, &known.forces, bin)?;
    placed(alloc, part, &chosen)
}

/// Moves those bodies of a part that aren't among its fast ones on by a number of ticks.
pub(crate) fn drift_slow(
    alloc: Global,
    setup: &Setup,
    set: &mut BodySet,
    part: &[u32],
    fast: &[u32],
    ticks: u64,
) -> Result<(), Memory>
    requires ticks { ticks ≤ 2 ^ 20 }
    requires part { AreAscending set.old part.now }
    requires fast { AreAscending set.old fast.now }
    ensures ok { OnOk result (set.new ≡ drift setup.now (without (ids_at set.old fast.now) (ids_at set.old part.now)) ticks set.old) }
    ensures err { OnErr result (set.new ≡ set.old) }
{
    let slow = slow_places(alloc, part, fast)?;
    ids_ascend(set);
    drift(set, &slow, ticks, setup.velocity_shift);
    Ok(())
}
