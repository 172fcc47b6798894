ghost use Rattle.std.specs.Prelude.{◌≡◌, ◌≤◌, ◌<◌, ◌^◌, ◌∷◌, [], true, false, pos, length, IfOk};
ghost use Rattle.std.specs.List.{AllByRecursion};
ghost use Rattle.fixed_point.specs.Vectors.{IsBelow};
ghost use Rattle.cell_space.specs.Cells.{CellData};
ghost use Rattle.nbody_model.specs.Bodies.{IsValid};
ghost use Rattle.nbody_model.specs.Moments.{MomentsData};
ghost use Rattle.octree_build.specs.Trees.{IsTree};
ghost use Rattle.dual_walk.specs.Courses.{Course};

use super::*;
use cell_space::Cell;
use fixed_point::{Memory, V3};
use nbody_model::{Body, Motion};
use node_moments::Moments;
use octree_build::{Tree, build};
use pair_law::Law;
use std::alloc::Global;
use std::test::Fail;

// Bodies of mass 1 and kind 1 at these positions, with the ids 1, 2 and so on.
fn bodies_at(alloc: Global, positions: &[[u32; 3]]) -> Result<Vec<Body>, Fail>
    requires few { length positions.now ≤ 1000 }
    ensures { IfOk result (λ bodies. IsValid bodies.items) }
{
    let mut bodies = Vec::new(alloc);
    for i in 0..positions.len() {
        let motion = Motion::new(positions[i], [0, 0, 0]).ok_or("range")?;
        bodies.push(Body {
            id: i as u64 + 1,
            kind: 1,
            mass: 1,
            motion,
        })?;
    }
    Ok(bodies)
}

// So many places, all zero.
fn places(alloc: Global, n: usize) -> Result<Vec<V3>, Memory>
    ensures long { IfOk result (λ places. length places.items ≡ n) }
    ensures small { IfOk result (λ places. AllByRecursion (IsBelow (2 ^ 100)) places.items) }
{
    let mut places = Vec::with_capacity(alloc, n)?;
    for _place in 0..n {
        places.push(V3::ZERO)?;
    }
    Ok(places)
}

// Takes each interaction.
fn every(_cell: &Cell) -> bool
    ensures { result ≡ true }
{
    true
}

// What a walk that takes all leaves.
#[derive(Drop)]
struct Walked {
    taken: u64,
    places: Vec<V3>,
    asked: [u64; 2],
}

fn one() -> V3
    ensures { result ≡ record { x = pos 1; y = pos 0; z = pos 0 } }
{
    V3 { x: 1, y: 0, z: 0 }
}

// The tree of these bodies.
fn tree_of(alloc: Global, bodies: &[Body]) -> Result<Tree, Memory>
    ghost w: { Course }
    requires valid { IsValid bodies.now }
    requires bodies { w.bodies ≡ bodies.now }
    requires softenings { w.setup.soft ≡ 256 ∷ 256 ∷ 512 ∷ 1024 ∷ 2048 ∷ 4096 ∷ [] }
    ensures { IfOk result (λ t. IsTree w.setup w.bodies t) }
{
    build(alloc, bodies, &[256, 256, 512, 1024, 2048, 4096])
}

// A walk by a law that accepts nothing, and whose force is always 1 on x.
fn walk_all(alloc: Global, bodies: &[Body]) -> Result<Walked, Memory>
    ghost w: { Course }
    requires valid { IsValid bodies.now }
    requires bodies { w.bodies ≡ bodies.now }
    requires softenings { w.setup.soft ≡ 256 ∷ 256 ∷ 512 ∷ 1024 ∷ 2048 ∷ 4096 ∷ [] }
    requires accept { (a b : MomentsData) → w.law.accept a b ≡ false }
    requires force { (a b : MomentsData) → w.law.force a b ≡ record { x = pos 1; y = pos 0; z = pos 0 } }
    requires all { (c : CellData) → w.mine c ≡ true }
{
    let tree = tree_of(alloc, bodies)?;
    let mut places = places(alloc, tree.len() as usize)?;
    let mut law = Law::new(
        |_a: &Moments, _b: &Moments| false,
        |_a: &Moments, _b: &Moments| one(),
    );
    let taken = walk(alloc, &tree, &mut law, &mut places, every)?;
    Ok(Walked {
        taken,
        places,
        asked: [law.asked_accept(), law.asked_force()],
    })
}

// Three bodies at the least corner and one 1000 length units from them: 25 nodes, and one interaction, of two leaves.
#[test]
fn three_bodies_at_one_place(rt: HostRuntime) -> Result<(), Fail> {
    let alloc = rt.alloc();
    let bodies = bodies_at(alloc, &[[0, 0, 0], [0, 0, 0], [0, 0, 0], [1000, 0, 0]])?;
    let walked = walk_all(alloc, &bodies)?;
    assert_eq!(rt; walked.taken, 1);
    assert_eq!(rt; walked.places.len(), 25);
    assert_eq!(rt; walked.asked, [0, 1]);
    let mut raised = 0u32;
    let mut lowered = 0u32;
    for place in &walked.places {
        if place.x == 1 {
            raised = raised.wrapping_add(1);
        }
        if place.x == -1 {
            lowered = lowered.wrapping_add(1);
        }
    }
    assert_eq!(rt; (raised, lowered), (1, 1));
    Ok(())
}
