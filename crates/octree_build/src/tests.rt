ghost use Rattle.std.specs.Prelude.{◌≤◌, ◌<◌, ◌^◌, length, IfOk};
ghost use Rattle.nbody_model.specs.Bodies.{IsValid};
ghost use Rattle.octree_build.specs.Trees.{IsOfBodies};

use super::*;
use cell_space::{Cell, cell_of};
use fixed_point::Memory;
use hilbert_keys::key_of;
use nbody_model::{Body, Motion};
use std::alloc::Global;
use std::test::Fail;

const SOFT: [u32; 6] = [256, 256, 512, 1024, 2048, 4096];

const END: u32 = u32::MAX;

// Bodies at these positions with the ids 1, 2 and so on, with masses from 1 up to `spread` and the kinds in turn.
fn bodies_at(alloc: Global, spread: u32, positions: &[[u32; 3]]) -> Result<Vec<Body>, Fail>
    requires some { 1 ≤ spread }
    requires light { spread ≤ 2 ^ 20 }
    requires few { length positions.now ≤ 1000 }
    ensures { IfOk result (λ bodies. IsValid bodies.items) }
{
    let mut bodies = Vec::new(alloc);
    for i in 0..positions.len() {
        let motion = Motion::new(positions[i], [0, 0, 0]).ok_or("range")?;
        let part = i as u32 % spread;
        bodies.push(Body {
            id: i as u64 + 1,
            kind: (part % 5) as u8 + 1,
            mass: part + 1,
            motion,
        })?;
    }
    Ok(bodies)
}

fn tree_of(alloc: Global, bodies: &[Body]) -> Result<Tree, Memory>
    requires { IsValid bodies.now }
    ensures { IfOk result (λ t. IsOfBodies t) }
{
    build(alloc, bodies, &SOFT)
}

// Three bodies at the least corner, and one 1000 length units from them: they part at level 23.
#[test]
fn three_bodies_at_one_place(rt: HostRuntime) -> Result<(), Fail> {
    let alloc = rt.alloc();
    let positions = [[0, 0, 0], [0, 0, 0], [0, 0, 0], [1000, 0, 0]];
    let bodies = bodies_at(alloc, 1, &positions)?;
    let tree = tree_of(alloc, &bodies)?;
    assert_eq!(rt; tree.len(), 25);
    if tree.len() == 25 {
        assert_eq!(rt; tree.children(0), (1, 1));
        assert_eq!(rt; tree.node(0).mass, 4);
    }
    for (pos, level, mass) in [([0, 0, 0], 23, 3), ([512, 0, 0], 23, 1), ([0, 0, 0], 24, 0)] {
        match tree.find(&cell_of(pos, level)) {
            Some(i) => {
                assert_eq!(rt; tree.node(i).mass, mass, "{level}");
                assert!(rt; tree.node(i).leaf, "{level}");
                assert_eq!(rt; tree.children(i).1, 0, "{level}");
                assert_eq!(rt; tree.raw(i).mass, mass, "{level}");
                assert_eq!(rt; tree.members(i).len() as u64, mass, "{level}");
            }
            None => assert_eq!(rt; 0, mass, "{level}"),
        }
    }
    Ok(())
}

// How many nodes there are, of how many levels.
#[test]
fn small_trees(rt: HostRuntime) -> Result<(), Fail> {
    let alloc = rt.alloc();
    let none: [[u32; 3]; 0] = [];
    assert_eq!(rt; tree_of(alloc, &bodies_at(alloc, 1, &none)?)?.len(), 0);
    assert_eq!(rt;
        tree_of(alloc, &bodies_at(alloc, 1, &[[5, 6, 7]])?)?.len(),
        1
    );
    let corners = [
        [0, 0, 0],
        [END, 0, 0],
        [0, END, 0],
        [END, END, 0],
        [0, 0, END],
        [END, 0, END],
        [0, END, END],
        [END, END, END],
    ];
    assert_eq!(rt; tree_of(alloc, &bodies_at(alloc, 1, &corners)?)?.len(), 9);
    let side_by_side = [[6, 9, 9], [7, 9, 9]];
    assert_eq!(rt;
        tree_of(alloc, &bodies_at(alloc, 1, &side_by_side)?)?.len(),
        34
    );
    Ok(())
}

// Whether all bodies in a cell stand at one place.
fn is_leaf(bodies: &[Body], cell: &Cell) -> bool {
    let mut place = None;
    for body in bodies {
        let pos = body.motion.pos();
        if cell.contains(pos) {
            match place {
                None => place = Some(pos),
                Some(first) => {
                    if first != pos {
                        return false;
                    }
                }
            }
        }
    }
    true
}

// How many of some bodies are in a cell.
fn count_in(bodies: &[Body], cell: &Cell) -> usize {
    let mut count: usize = 0;
    for body in bodies {
        if cell.contains(body.motion.pos()) {
            count = count.wrapping_add(1);
        }
    }
    count
}

// How many cells with a member aren't strictly inside a leaf.
fn count_nodes(bodies: &[Body]) -> u32 {
    let mut count: u32 = 0;
    for i in 0..bodies.len() {
        for level in 0..33u8 {
            let body = &bodies[i];
            let cell = cell_of(body.motion.pos(), level);
            if count_in(&bodies[..i], &cell) == 0 {
                count = count.wrapping_add(1);
            }
            if is_leaf(bodies, &cell) {
                break;
            }
        }
    }
    count
}

// The mass, the weighed sum of one coordinate, and a second moment about a centre, of the bodies in a cell.
fn mass_in(bodies: &[Body], cell: &Cell) -> u64 {
    let mut mass: u64 = 0;
    for body in bodies {
        if cell.contains(body.motion.pos()) {
            mass = mass.wrapping_add(body.mass as u64);
        }
    }
    mass
}

fn weighed_in(bodies: &[Body], cell: &Cell, axis: usize) -> u128
    requires { axis < 3 }
{
    let mut sum: u128 = 0;
    for body in bodies {
        let pos = body.motion.pos();
        if cell.contains(pos) {
            sum = sum.wrapping_add(body.mass as u128 * pos[axis] as u128);
        }
    }
    sum
}

fn second_in(bodies: &[Body], cell: &Cell, centre: [u32; 3], j: usize, k: usize) -> i128
    requires first { j < 3 }
    requires second { k < 3 }
{
    let mut sum: i128 = 0;
    for body in bodies {
        let pos = body.motion.pos();
        if cell.contains(pos) {
            let a = pos[j] as i128 - centre[j] as i128;
            let b = pos[k] as i128 - centre[k] as i128;
            sum = sum.wrapping_add((body.mass as i128).wrapping_mul(a.wrapping_mul(b)));
        }
    }
    sum
}

fn soft_in(bodies: &[Body], cell: &Cell) -> u32 {
    let mut greatest = 0;
    for body in bodies {
        if cell.contains(body.motion.pos()) {
            greatest = greatest.max(SOFT[body.kind as usize]);
        }
    }
    greatest
}

// Whether the members of a node lie in its cell, in the order of the curve, those of one key by their ids.
fn are_in_order(members: &[Body], cell: &Cell) -> bool {
    let mut last = None;
    for body in members {
        let pos = body.motion.pos();
        if !cell.contains(pos) {
            return false;
        }
        let number = (key_of(pos), body.id);
        if let Some(before) = last {
            if before >= number {
                return false;
            }
        }
        last = Some(number);
    }
    true
}

// Whether the children of a node are cells of the next level in it, and have its mass together.
fn have_its_mass(tree: &Tree, i: u32) -> bool
    requires { i < length tree.now.nodes }
{
    let node = tree.node(i);
    let (first, number) = tree.children(i);
    let mut mass: u64 = 0;
    for k in first..tree.len() {
        if k - first >= number {
            break;
        }
        let child = tree.node(k);
        if child.cell.level as u32 != node.cell.level as u32 + 1 {
            return false;
        }
        if !node.cell.contains(child.cell.corner) {
            return false;
        }
        mass = mass.wrapping_add(child.mass);
    }
    if node.leaf {
        number == 0
    } else {
        mass == node.mass
    }
}

// Whether a node has the moments and the members that plain filters give.
fn is_as_filtered(tree: &Tree, bodies: &[Body], i: u32) -> bool
    requires place { i < length tree.now.nodes }
    requires tree { IsOfBodies tree.now }
{
    let node = tree.node(i);
    let cell = &node.cell;
    let mass = mass_in(bodies, cell);
    if mass == 0 {
        return false;
    }
    let centre = [
        weighed_in(bodies, cell, 0) / mass as u128,
        weighed_in(bodies, cell, 1) / mass as u128,
        weighed_in(bodies, cell, 2) / mass as u128,
    ];
    let [x, y, z] = node.centre;
    let quad = [
        second_in(bodies, cell, node.centre, 0, 0),
        second_in(bodies, cell, node.centre, 1, 1),
        second_in(bodies, cell, node.centre, 2, 2),
        second_in(bodies, cell, node.centre, 0, 1),
        second_in(bodies, cell, node.centre, 0, 2),
        second_in(bodies, cell, node.centre, 1, 2),
    ];
    node.mass == mass
        && centre == [x as u128, y as u128, z as u128]
        && node.quad == quad
        && node.leaf == is_leaf(bodies, cell)
        && node.eps == soft_in(bodies, cell)
        && tree.members(i).len() == count_in(bodies, cell)
        && are_in_order(tree.members(i), cell)
        && have_its_mass(tree, i)
        && tree.raw(i).mass == mass
        && tree.find(cell) == Some(i)
}

fn next(seed: u64) -> u64 {
    seed.wrapping_mul(6364136223846793005)
        .wrapping_add(1442695040888963407)
}

// A coordinate of a random set: anywhere, near one place, at one of two places, or at edges of large cells.
fn coordinate(set: u32, draw: u32) -> u32 {
    match set % 4 {
        0 => draw,
        1 => 123_456_789 + draw % 64,
        2 => 77 + draw % 2,
        _ => [0, END, 0x8000_0000, 0x7fff_ffff][(draw % 4) as usize],
    }
}

#[test]
fn random_sets(rt: HostRuntime) -> Result<(), Fail> {
    let alloc = rt.alloc();
    let mut seed: u64 = 1;
    for set in 0..300u32 {
        seed = next(seed);
        let count = ((seed >> 33) % 41) as usize;
        let mut places = [[0u32; 3]; 40];
        for k in 0..40usize {
            for axis in 0..3usize {
                seed = next(seed);
                places[k][axis] = coordinate(set, (seed >> 32) as u32);
            }
        }
        let positions = places.get(..count).ok_or("short")?;
        let bodies = bodies_at(alloc, 7, positions)?;
        let tree = tree_of(alloc, &bodies)?;
        assert_eq!(rt; tree.len(), count_nodes(&bodies), "{set}");
        for i in 0..tree.len() {
            assert!(rt; is_as_filtered(&tree, &bodies, i), "{set} {i}");
        }
    }
    Ok(())
}
