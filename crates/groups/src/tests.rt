ghost use Rattle.particle_set.specs.Rows.{HasKind};

use super::*;
use fixed_point::wrap_diff;
use group_file::Catalogue;
use nbody_model::Body;
use particle_set::{BodySet, Row};
use std::alloc::Global;
use std::test::Fail;

fn row(id: u64, pos: [u32; 3]) -> Row
    ensures { HasKind result }
{
    Row {
        id,
        kind: 1,
        mass: 1,
        pos,
        mom: [0, 0, 0],
    }
}

// The labels and sizes of groups.
fn sizes(alloc: Global, groups: &Catalogue) -> Result<Vec<(u64, usize)>, Fail> {
    let mut list = Vec::new(alloc);
    for group in &groups.groups {
        list.push((group.label, group.ids.len()))?;
    }
    Ok(list)
}

#[test]
fn four_bodies_in_a_row(rt: HostRuntime) -> Result<(), Fail> {
    let alloc = rt.alloc();
    let rows = vec![in alloc;
        row(1, [0, 0, 0]),
        row(2, [100, 0, 0]),
        row(3, [200, 0, 0]),
        row(4, [500, 0, 0]),
    ]?;
    let set = BodySet::from_list(alloc, rows)?;
    let pairs = groups(alloc, set.bodies(), 100, 2)?;
    assert_eq!(rt; sizes(alloc, &pairs)?.as_slice(), [(1, 3)].as_slice());
    let all = groups(alloc, set.bodies(), 100, 1)?;
    assert_eq!(rt; sizes(alloc, &all)?.as_slice(), [(1, 3), (4, 1)].as_slice());
    let none = groups(alloc, set.bodies(), 99, 2)?;
    assert!(rt; none.groups.is_empty());
    Ok(())
}

#[test]
fn two_bodies_round_the_edge(rt: HostRuntime) -> Result<(), Fail> {
    let alloc = rt.alloc();
    let rows = vec![in alloc; row(1, [4_294_967_246, 0, 0]), row(2, [50, 0, 0])]?;
    let set = BodySet::from_list(alloc, rows)?;
    let one = groups(alloc, set.bodies(), 100, 1)?;
    assert_eq!(rt; sizes(alloc, &one)?.as_slice(), [(1, 2)].as_slice());
    let two = groups(alloc, set.bodies(), 99, 1)?;
    assert_eq!(rt; sizes(alloc, &two)?.as_slice(), [(1, 1), (2, 1)].as_slice());
    Ok(())
}

// Bodies with the ids 1, 2 and so on, at places that follow from a seed, in a cube of 2^`bits` at a corner of the box.
fn some_bodies(alloc: Global, seed: u64, number: u64, bits: u32) -> Result<BodySet, Fail> {
    let mut rows = Vec::new(alloc);
    let mut state = seed;
    for i in 0..number {
        let mut pos = [0u32; 3];
        for axis in &mut pos {
            state = state
                .wrapping_mul(6_364_136_223_846_793_005)
                .wrapping_add(1_442_695_040_888_963_407);
            *axis = ((state >> 32) as u32).wrapping_shr(32u32.wrapping_sub(bits));
        }
        rows.push(row(i.wrapping_add(1), pos))?;
    }
    Ok(BodySet::from_list(alloc, rows)?)
}

// Whether two bodies are at most so far apart, axis by axis.
fn are_near(a: &Body, b: &Body, reach: u32) -> bool {
    let [ax, ay, az] = a.motion.pos();
    let [bx, by, bz] = b.motion.pos();
    let mut sum = 0u128;
    for (p, q) in [(ax, bx), (ay, by), (az, bz)] {
        let d = u128::from(wrap_diff(p, q).unsigned_abs());
        sum = sum.wrapping_add(d.wrapping_mul(d));
    }
    sum <= u128::from(reach).wrapping_mul(u128::from(reach))
}

// The label of each body: the least id that goes from body to near body until nothing changes any more.
fn plain_labels(alloc: Global, bodies: &[Body], reach: u32) -> Result<Vec<u64>, Fail> {
    let mut labels = Vec::new(alloc);
    for body in bodies {
        labels.push(body.id)?;
    }
    for _round in 0..bodies.len() {
        for (i, a) in bodies.iter().enumerate() {
            for (j, b) in bodies.iter().enumerate() {
                let other = labels.get(j).copied().unwrap_or(0);
                if let Some(label) = labels.get_mut(i) {
                    if are_near(a, b, reach) && other < *label {
                        *label = other;
                    }
                }
            }
        }
    }
    Ok(labels)
}

#[test]
fn as_labels_that_spread(rt: HostRuntime) -> Result<(), Fail> {
    let alloc = rt.alloc();
    for (seed, bits, reach) in [
        (1, 32, 0x3000_0000),
        (2, 8, 40),
        (3, 3, 1),
        (4, 32, 0x2800_0000),
    ] {
        let set = some_bodies(alloc, seed, 30, bits)?;
        let labels = plain_labels(alloc, set.bodies(), reach)?;
        let all = groups(alloc, set.bodies(), reach, 1)?;
        let mut seen = 0usize;
        for group in &all.groups {
            for id in &group.ids {
                let place = (*id as usize).wrapping_sub(1);
                assert_eq!(rt;
                    labels.get(place).copied(),
                    Some(group.label),
                    "{seed} {id}"
                );
                seen = seen.wrapping_add(1);
            }
        }
        assert_eq!(rt; seen, 30, "{seed}");
    }
    Ok(())
}
