// The walk down the tree to the bodies near a position.
ghost use Rattle.std.specs.Prelude.{◌≡◌, ◌<◌, ◌≤◌, ◌+◌, ◌*◌, ◌/◌, ◌^◌, ◌++◌, ◌∷◌, [], ℕ, IsTrue, All, length, OnOk, unsigned_abs};
ghost use Rattle.fixed_point.specs.Fixed.{wrapped};
ghost use Rattle.nbody_model.specs.Nodes.{members};
ghost use Rattle.octree_build.specs.Trees.{IsOfBodies, NodeData, cell_of_node};
ghost use Rattle.neighbour_find.specs.Around.{IsFar, found, is_found};

use crate::reach::{square, way};
use cell_space::Cell;
use fixed_point::{Memory, wrap_diff};
use nbody_model::Body;
use octree_build::Tree;

/// What is looked for: other bodies than the one with this id, near enough to a position by the square of the way.
#[derive(Clone, Copy)]
pub(crate) struct Around {
    pub(crate) id: u64,
    pub(crate) pos: [u32; 3],
    pub(crate) square: u64,
}

// Whether a body is looked for.
fn is_found(around: &Around, body: &Body) -> bool
    ensures { result ≡ is_found around.now body.now }
{
    around.id != body.id && square(way(around.pos, body.motion.pos())) <= around.square
}

// Appends the id of a body, if it is looked for.
fn push_one(body: &Body, around: &Around, out: &mut Vec<u32>) -> Result<(), Memory>
    requires { body.now.id < 2 ^ 32 }
    ensures { OnOk result (out.new.items ≡ out.old.items ++ found around.now (body.now ∷ [])) }
{
    if !is_found(around, body) {
        return Ok(());
    }
    out.push(body.id as u32)?;
    Ok(())
}

// Appends the ids of those bodies that are looked for.
fn push_found(bodies: &[Body], around: &Around, out: &mut Vec<u32>) -> Result<(), Memory>
    requires { All (λ b. b.id < 2 ^ 32) bodies.now }
    ensures { OnOk result (out.new.items ≡ out.old.items ++ found around.now bodies.now) }
{
    for i in 0..bodies.len() {
        let body = &bodies[i];
        push_one(body, around, out)?;
    }
    Ok(())
}

// How far apart two coordinates are, by the shorter way round.
fn apart(x: u32, y: u32) -> u64
    ensures value { result ≡ unsigned_abs (wrapped x y) }
    ensures small { result ≤ 2 ^ 31 }
{
    wrap_diff(x, y).unsigned_abs()
}

// How far a coordinate is at least from those of a cell on an axis.
fn gap(x: u32, low: u32, width: u64) -> u64
    requires some { 1 ≤ width }
    requires room { low + width ≤ 2 ^ 32 }
    ensures near { (y : ℕ) → low ≤ y → y < low + width → result ≤ unsigned_abs (wrapped x y) }
    ensures small { result ≤ 2 ^ 31 }
{
    let high = (u64::from(low) + (width - 1)) as u32;
    let near = apart(x, low).min(apart(x, high));
    if x < low {
        return near;
    }
    if high < x {
        return near;
    }
    0
}

#[tactic(auto, using(crate::proofs::Sizes::square_small))]
fn square_of(n: u64) -> u64
    requires { n ≤ 2 ^ 31 }
    ensures value { result ≡ n * n }
    ensures small { result ≤ 2 ^ 62 }
{
    n * n
}

// Whether no position of a cell is near enough.
fn is_far(around: &Around, cell: &Cell) -> bool
    ensures { IsTrue result → IsFar around.now cell.now }
{
    let width = cell.side();
    let [x, y, z] = around.pos;
    let [low_x, low_y, low_z] = cell.corner;
    let square = square_of(gap(x, low_x, width))
        + square_of(gap(y, low_y, width))
        + square_of(gap(z, low_z, width));
    around.square < square
}

// Whether no position of a node's cell is near enough.
fn is_far_node(tree: &Tree, i: u32, around: &Around) -> bool
    requires { i < length tree.now.nodes }
    ensures { IsTrue result → (d : NodeData) → IsFar around.now (cell_of_node tree.now.nodes i d) }
{
    let node = tree.node(i);
    is_far(around, &node.cell)
}

// Appends the ids of the members of a node that are looked for, one by one.
fn push_members(tree: &Tree, i: u32, around: &Around, out: &mut Vec<u32>) -> Result<(), Memory>
    requires place { i < length tree.now.nodes }
    requires tree { IsOfBodies tree.now }
    requires ids { All (λ b. b.id < 2 ^ 32) tree.now.bodies }
    ensures { (d : NodeData) → OnOk result (out.new.items ≡ out.old.items ++ found around.now (members tree.now.bodies (cell_of_node tree.now.nodes i d))) }
{
    push_found(tree.members(i), around, out)
}

/// Appends the ids of the members of a node that are looked for.
pub(crate) fn visit(tree: &Tree, i: u32, around: &Around, out: &mut Vec<u32>) -> Result<(), Memory>
    requires place { i < length tree.now.nodes }
    requires tree { IsOfBodies tree.now }
    requires ids { All (λ b. b.id < 2 ^ 32) tree.now.bodies }
    ensures { (d : NodeData) → OnOk result (out.new.items ≡ out.old.items ++ found around.now (members tree.now.bodies (cell_of_node tree.now.nodes i d))) }
{
    if is_far_node(tree, i, around) {
        return Ok(());
    }
    let (first, number) = tree.children(i);
    if number == 0 {
        return push_members(tree, i, around, out);
    }
    for k in first..first + number {
        visit(tree, k, around, out)?;
    }
    Ok(())
}
