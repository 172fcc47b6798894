ghost use Rattle.particle_set.specs.Rows.{HasKind};

use super::*;
use fixed_point::wrap_diff;
use nbody_model::Body;
use particle_set::{BodySet, Row};
use std::alloc::Global;
use std::test::Fail;

fn row(id: u64, pos: [u32; 3]) -> Row
    ensures { HasKind result }
{
    Row {
        id,
        kind: 1,
        mass: 1,
        pos,
        mom: [0, 0, 0],
    }
}

// Bodies with the ids 1, 2 and so on, at places that follow from a seed, in a cube of 2^`bits` round a corner of the box.
fn some_bodies(alloc: Global, seed: u64, number: u64, bits: u32) -> Result<BodySet, Fail> {
    let mut rows = Vec::new(alloc);
    let mut state = seed;
    for i in 0..number {
        let mut pos = [0u32; 3];
        for axis in &mut pos {
            state = state
                .wrapping_mul(6_364_136_223_846_793_005)
                .wrapping_add(1_442_695_040_888_963_407);
            *axis = ((state >> 32) as u32).wrapping_shr(32u32.wrapping_sub(bits));
        }
        rows.push(row(i.wrapping_add(1), pos))?;
    }
    Ok(BodySet::from_list(alloc, rows)?)
}

// Whether two bodies are at most so far apart, axis by axis.
fn are_near(a: &Body, b: &Body, reach: u32) -> bool {
    let [ax, ay, az] = a.motion.pos();
    let [bx, by, bz] = b.motion.pos();
    let mut sum = 0u128;
    for (p, q) in [(ax, bx), (ay, by), (az, bz)] {
        let d = u128::from(wrap_diff(p, q).unsigned_abs());
        sum = sum.wrapping_add(d.wrapping_mul(d));
    }
    sum <= u128::from(reach).wrapping_mul(u128::from(reach))
}

// The places of the others near to a body, by looking at all.
fn plain(alloc: Global, bodies: &[Body], i: usize, reach: u32) -> Result<Vec<u32>, Fail> {
    let mut found = Vec::new(alloc);
    let body = bodies.get(i).ok_or("no body")?;
    let mut place = 0u32;
    for other in bodies {
        if place as usize != i && are_near(body, other, reach) {
            found.push(place)?;
        }
        place = place.wrapping_add(1);
    }
    Ok(found)
}

#[test]
fn near_bodies_round_the_edge(rt: HostRuntime) -> Result<(), Fail> {
    let alloc = rt.alloc();
    let rows = vec![in alloc; row(1, [4_294_967_246, 0, 0]), row(2, [50, 0, 0])]?;
    let set = BodySet::from_list(alloc, rows)?;
    let finder = Finder::new(alloc, set.bodies())?;
    let mut out = Vec::new(alloc);
    for (reach, number) in [(100, 1), (99, 0), (0, 0), (u32::MAX, 1)] {
        if 0 < finder.len() {
            finder.near(0, reach, &mut out)?;
        }
        assert_eq!(rt; out.len(), number, "{reach}");
    }
    Ok(())
}

#[test]
fn as_a_look_at_all_bodies(rt: HostRuntime) -> Result<(), Fail> {
    let alloc = rt.alloc();
    let mut out = Vec::new(alloc);
    for (seed, bits, reach) in [
        (1, 32, 0x4000_0000),
        (2, 8, 60),
        (3, 3, 2),
        (4, 32, 0x2000_0000),
    ] {
        let set = some_bodies(alloc, seed, 60, bits)?;
        let finder = Finder::new(alloc, set.bodies())?;
        for i in 0..finder.len() {
            finder.near(i, reach, &mut out)?;
            let want = plain(alloc, set.bodies(), i, reach)?;
            assert_eq!(rt; out.as_slice(), want.as_slice(), "{seed} {i}");
        }
    }
    Ok(())
}
