ghost use Rattle.std.specs.Prelude.{◌≡◌, ◌≤◌, ◌<◌, IfOk, length};
ghost use Rattle.std.specs.List.{AllByRecursion};
ghost use Rattle.nbody_model.specs.Bodies.{IsValid};

use super::*;
use cell_space::{Cell, cell_of};
use hilbert_keys::{cell_key_range, key_of};
use nbody_model::{Body, Motion};
use std::alloc::Global;
use std::test::Fail;

// Bodies at these positions with the ids 1, 2 and so on.
fn bodies_at(alloc: Global, positions: &[[u32; 3]]) -> Result<Vec<Body>, Fail>
    requires { length positions.now ≤ 1000 }
    ensures { IfOk result (λ bodies. IsValid bodies.items) }
{
    let mut bodies = Vec::new(alloc);
    for i in 0..positions.len() {
        let motion = Motion::new(positions[i], [0, 0, 0]).ok_or("range")?;
        bodies.push(Body {
            id: i as u64 + 1,
            kind: 1,
            mass: 1,
            motion,
        })?;
    }
    Ok(bodies)
}

// Three bodies, the second the last along the curve.
fn three(alloc: Global) -> Result<Vec<Body>, Fail>
    ensures { IfOk result (λ bodies. IsValid bodies.items) }
{
    let positions = [[0, 0, 0], [536870912, 0, 0], [268435456, 1610612736, 0]];
    bodies_at(alloc, &positions)
}

#[test]
fn owners_of_three(rt: HostRuntime) -> Result<(), Fail> {
    let alloc = rt.alloc();
    let bodies = three(alloc)?;
    for (ranks, owners) in [
        (1, [0, 0, 0]),
        (2, [0, 0, 1]),
        (3, [0, 1, 2]),
        (64, [0, 21, 42]),
    ] {
        assert_eq!(rt;
            split(alloc, &bodies, ranks)?.as_slice(),
            owners.as_slice(),
            "{ranks}"
        );
    }
    Ok(())
}

#[test]
fn homes_of_two_ranks(rt: HostRuntime) -> Result<(), Fail> {
    let alloc = rt.alloc();
    let bodies = three(alloc)?;
    let owners = split(alloc, &bodies, 2)?;
    let bounds = Bounds::of(alloc, &bodies, &owners, 2)?;
    let corner = cell_of([0, 0, 0], 2);
    assert_eq!(rt; bounds.ranks(), 2);
    assert_eq!(rt; home(&Cell::root(), &bounds), 1);
    assert_eq!(rt; span(&Cell::root(), &bounds), (0, 1));
    assert_eq!(rt; home(&corner, &bounds), 0);
    assert_eq!(rt; span(&corner, &bounds), (0, 0));
    Ok(())
}

fn next(seed: u64) -> u64 {
    seed.wrapping_mul(6364136223846793005)
        .wrapping_add(1442695040888963407)
}

fn any_rank(seed: u64, ranks: u32) -> u16
    requires some { 1 ≤ ranks }
    requires few { ranks ≤ 256 }
    ensures { result < ranks }
{
    ((seed >> 33) as u32 % ranks) as u16
}

// Owners without an order, so that bounds don't rise.
fn any_owners(alloc: Global, seed: u64, count: usize, ranks: u32) -> Result<Vec<u16>, Fail>
    requires some { 1 ≤ ranks }
    requires few { ranks ≤ 256 }
    ensures each { IfOk result (λ owners. length owners.items ≡ count) }
    ensures ranks { IfOk result (λ owners. AllByRecursion (λ o. o < ranks) owners.items) }
{
    let mut seed = seed;
    let mut owners = Vec::with_capacity(alloc, count)?;
    for _place in 0..count {
        seed = next(seed);
        owners.push(any_rank(seed, ranks))?;
    }
    Ok(owners)
}

// How many bodies come before the one at a place, by key and then by id.
fn count_before(bodies: &[Body], i: usize) -> usize
    requires { i < length bodies.now }
{
    let body = &bodies[i];
    let here = (key_of(body.motion.pos()), body.id);
    let mut count: usize = 0;
    for body in bodies {
        if (key_of(body.motion.pos()), body.id) < here {
            count = count.wrapping_add(1);
        }
    }
    count
}

// The greatest rank that has a body of at most a key, or 0.
fn rank_at(bodies: &[Body], owners: &[u16], key: u128) -> u16
    requires { length owners.now ≡ length bodies.now }
{
    let mut rank = 0;
    for i in 0..bodies.len() {
        let body = &bodies[i];
        if key_of(body.motion.pos()) <= key {
            rank = rank.max(owners[i]);
        }
    }
    rank
}

// Whether the homes and spans of the cells around the bodies are those that plain searches find.
fn are_as_searched(alloc: Global, bodies: &[Body], owners: &[u16], ranks: u32) -> Result<bool, Fail>
    requires some { 1 ≤ ranks }
    requires few { ranks ≤ 256 }
    requires each { length owners.now ≡ length bodies.now }
    requires ranks { AllByRecursion (λ o. o < ranks) owners.now }
{
    let bounds = Bounds::of(alloc, bodies, owners, ranks)?;
    for i in 0..bodies.len() {
        let body = &bodies[i];
        for level in [0, 2, 9, 32] {
            let cell = cell_of(body.motion.pos(), level);
            let (first, last) = cell_key_range(&cell);
            let span_here = (
                rank_at(bodies, owners, first),
                rank_at(bodies, owners, last),
            );
            if span(&cell, &bounds) != span_here {
                return Ok(false);
            }
            if home(&cell, &bounds) != span_here.1 {
                return Ok(false);
            }
        }
    }
    Ok(true)
}

#[test]
fn random_sets(rt: HostRuntime) -> Result<(), Fail> {
    let alloc = rt.alloc();
    let mut seed: u64 = 5;
    for set in 0..12u32 {
        seed = next(seed);
        let count = ((seed >> 33) % 13) as usize;
        let mut places = [[0u32; 3]; 12];
        for k in 0..12usize {
            for axis in 0..3usize {
                seed = next(seed);
                let draw = (seed >> 32) as u32;
                places[k][axis] = if set % 3 == 0 { 77 + draw % 3 } else { draw };
            }
        }
        let bodies = bodies_at(alloc, places.get(..count).ok_or("short")?)?;
        for ranks in [1, 3, 40] {
            let owners = split(alloc, &bodies, ranks)?;
            for i in 0..bodies.len() {
                let place = count_before(&bodies, i);
                let owner = owners.get(i).copied().ok_or("short")?;
                assert_eq!(rt;
                    owner as usize,
                    place.wrapping_mul(ranks as usize) / count.max(1),
                    "{set} {ranks} {i}"
                );
            }
            assert!(rt;
                are_as_searched(alloc, &bodies, &owners, ranks)?,
                "{set} {ranks}"
            );
            let others = any_owners(alloc, seed, bodies.len(), ranks)?;
            assert!(rt;
                are_as_searched(alloc, &bodies, &others, ranks)?,
                "{set} {ranks}"
            );
        }
    }
    Ok(())
}
