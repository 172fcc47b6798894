// The bodies of a part of a set, by their places.
ghost use Rattle.std.specs.Prelude.{◌≡◌, ◌≤◌, ◌^◌, ◌<◌, ◌++◌, ◌∷◌, [], filter, length, map, slice_index, if◌then◌else◌, IfOk, OnOk};
ghost use Rattle.std.specs.List.Sorted.{IsStrictlyIncreasing};
ghost use Rattle.nbody_model.specs.Bodies.{has, only};
ghost use Rattle.nbody_model.specs.Setups.{SetupData};
ghost use Rattle.nbody_model.specs.Steps.{without};
ghost use Rattle.model_laws.specs.Preserved.{IsPart};
ghost use Rattle.kick_drift.specs.Parts.{AreAscending, ids_at};
ghost use Rattle.step_engine.specs.Stands.{AreOf};
ghost use Rattle.rewind_laws.specs.Back.{first_other, undrift};

use crate::drifts::undrift;
use crate::records::is_among as is_id_among;
use fixed_point::Memory;
use nbody_model::{Body, Setup};
use particle_set::BodySet;
use std::alloc::Global;

// The bodies of a set ascend in id.
fn ids_ascend(set: &BodySet)
    ensures { IsStrictlyIncreasing (map (λ b. b.id) set.now) }
{
    let _bodies = set.bodies();
}

/// Puts the bodies at some ascending places into a room, which they fill.
pub(crate) fn gather(set: &BodySet, part: &[u32], room: &mut Vec<Body>) -> Result<(), Memory>
    requires { AreAscending set.now part.now }
    ensures { OnOk result (room.new.items ≡ only set.now (ids_at set.now part.now)) }
{
    room.clear();
    for place in part {
        room.push(*set.get(*place as usize))?;
    }
    ids_ascend(set);
    Ok(())
}

// Whether a place is among ascending ones.
fn is_among(places: &[u32], place: u32) -> bool
    requires { IsStrictlyIncreasing places.now }
    ensures { result ≡ has places.now place }
{
    match places.binary_search(&place) {
        Ok(_at) => true,
        Err(_) => false,
    }
}

// The places of a part that aren't among the fast ones.
fn slow_places(alloc: Global, part: &[u32], fast: &[u32]) -> Result<Vec<u32>, Memory>
    requires { IsStrictlyIncreasing fast.now }
    ensures { IfOk result (λ slow. slow.items ≡ without fast.now part.now) }
{
    let slow = part
        .iter()
        .copied()
        .filter(|place| !is_among(fast, *place))
        .collect(alloc)?;
    Ok(slow)
}

/// Moves those bodies of a part that aren't among its fast ones back by a number of ticks.
pub(crate) fn undrift_slow(
    alloc: Global,
    setup: &Setup,
    set: &mut BodySet,
    part: &[u32],
    fast: &[u32],
    ticks: u64,
) -> Result<(), Memory>
    requires ticks { ticks ≤ 2 ^ 20 }
    requires part { AreAscending set.old part.now }
    requires fast { AreAscending set.old fast.now }
    ensures { OnOk result (set.new ≡ undrift setup.now (without (ids_at set.old fast.now) (ids_at set.old part.now)) ticks set.old) }
{
    let slow = slow_places(alloc, part, fast)?;
    ids_ascend(set);
    undrift(set, &slow, ticks, setup.velocity_shift);
    Ok(())
}

/// The ids of the bodies at some places.
pub(crate) fn ids_of(alloc: Global, set: &BodySet, part: &[u32]) -> Result<Vec<u64>, Memory>
    requires { AreAscending set.now part.now }
    ensures { IfOk result (λ ids. ids.items ≡ ids_at set.now part.now) }
{
    let mut ids = Vec::with_capacity(alloc, part.len())?;
    for place in part {
        ids.push(set.get(*place as usize).id)?;
    }
    Ok(ids)
}

/// Of two ascending lists the least number that is in one and not in the other.
pub(crate) fn first_other(xs: &[u64], ys: &[u64]) -> Option<u64>
    ensures { result ≡ first_other xs.now ys.now }
{
    let mut k = 0;
    while k < xs.len() && k < ys.len() {
        if xs[k] != ys[k] {
            return Some(xs[k].min(ys[k]));
        }
        k += 1;
    }
    if k < xs.len() {
        return Some(xs[k]);
    }
    if k < ys.len() {
        return Some(ys[k]);
    }
    None
}

// Whether the body at a place has one of these ids.
fn has_id(set: &BodySet, place: u32, ids: &[u64]) -> bool
    requires within { place < length set.now }
    requires ids { IsStrictlyIncreasing ids.now }
    ensures { result ≡ has ids.now (slice_index (map (λ b. b.id) set.now) place) }
{
    is_id_among(ids, set.get(place as usize).id)
}

// Adds a place where it is wanted.
fn push_where(places: &mut Vec<u32>, place: u32, wanted: bool) -> Result<(), Memory>
    ensures { OnOk result (places.new.items ≡ places.old.items ++ (if wanted then place ∷ [] else [])) }
{
    if !wanted {
        return Ok(());
    }
    places.push(place)?;
    Ok(())
}

// The places of those bodies of a part that have these ids.
fn places_with(alloc: Global, set: &BodySet, part: &[u32], ids: &[u64]) -> Result<Vec<u32>, Memory>
    requires part { AreAscending set.now part.now }
    requires ids { IsStrictlyIncreasing ids.now }
    ensures { IfOk result (λ places. places.items ≡ filter (λ p. has ids.now (slice_index (map (λ b. b.id) set.now) p)) part.now) }
{
    let mut places = Vec::with_capacity(alloc, ids.len())?;
    for place in part {
        let wanted = has_id(set, *place, ids);
        push_where(&mut places, *place, wanted)?;
    }
    Ok(places)
}

/// The places of those bodies of a part that have these ids, which ascend and are ids of the part.
pub(crate) fn places_of(
    alloc: Global,
    set: &BodySet,
    part: &[u32],
    ids: &[u64],
) -> Result<Vec<u32>, Memory>
    requires part { AreAscending set.now part.now }
    requires ascending { IsStrictlyIncreasing ids.now }
    requires of { IsPart ids.now (ids_at set.now part.now) }
    ensures ids { IfOk result (λ places. ids_at set.now places.items ≡ ids.now) }
    ensures of { IfOk result (λ places. AreOf set.now part.now places.items) }
{
    ids_ascend(set);
    places_with(alloc, set, part, ids)
}
