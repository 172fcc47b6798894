// The nodes around bodies.
ghost use Rattle.std.specs.Prelude.{◌≡◌, ◌≤◌, ◌<◌, ◌+◌, ◌*◌, ◌^◌, ◌==◌, [], true, List, ℕ, length, take, filter, get_or, IfOk};
ghost use Rattle.std.specs.List.{AllByRecursion};
ghost use Rattle.cell_space.specs.Cells.{contains, cell_at};
ghost use Rattle.nbody_model.specs.Bodies.{BodyData, IsValid};
ghost use Rattle.nbody_model.specs.Setups.{SetupData};
ghost use Rattle.nbody_model.specs.Nodes.{members};
ghost use Rattle.model_laws.specs.Laws.{AreBodies};
ghost use Rattle.node_moments.specs.Sums.{raw_of};
ghost use Rattle.force_field.specs.Around.{AreNodesAround, AreNodesOf, IsNodeAround, raw_with};

use cell_space::{Cell, cell_of};
use fixed_point::Memory;
use nbody_model::{Body, Setup};
use node_moments::{Moments, Raw};
use std::alloc::Global;

/// How many nodes there are around a body, one of each level.
pub(crate) const LEVELS: usize = 33;

/// A node around a body: its moments, and whether the body is the first of its members.
#[derive(Drop)]
pub(crate) struct Node {
    pub moments: Moments,
    pub first: bool,
}

/// Whether a body is in a cell.
pub(crate) fn is_in(body: &Body, cell: &Cell) -> bool
    ensures { result ≡ contains cell.now body.now.motion.pos }
{
    cell.contains(body.motion.pos())
}

/// The cell of a level around a body.
pub(crate) fn cell_around(body: &Body, level: u8) -> Cell
    requires { level ≤ 32 }
    ensures { result ≡ cell_at level body.now.motion.pos }
{
    cell_of(body.motion.pos(), level)
}

/// Whether two bodies are one.
fn same_id(a: &Body, b: &Body) -> bool
    ensures { result ≡ (a.now.id == b.now.id) }
{
    a.id == b.id
}

/// The sums over some members of a cell, and over a body besides if it is in the cell.
fn with_body(sums: Raw, cell: &Cell, body: &Body, soft: &[u32; 6]) -> Raw
    requires same_cell { sums.cell ≡ cell.now }
    requires few { sums.count < 1048576 }
    requires light { sums.mass + body.now.mass ≤ 2 ^ 32 }
    ensures { (ms : List BodyData) → sums ≡ raw_of soft.now cell.now ms → result ≡ raw_with soft.now cell.now ms body.now }
{
    if !is_in(body, cell) {
        return sums;
    }
    sums.add(&Raw::of_body(cell, body, soft))
}

/// The place of the first member of a cell, one of which is at the place `member`.
fn first_in(bodies: &[Body], cell: &Cell, member: usize) -> usize
    requires within { member < length bodies.now }
    requires inside { (d : BodyData) → contains cell.now (get_or bodies.now member d).motion.pos ≡ true }
    ensures within { result ≤ member }
    ensures inside { (d : BodyData) → contains cell.now (get_or bodies.now result d).motion.pos ≡ true }
    ensures first { filter (λ b. contains cell.now b.motion.pos) (take result bodies.now) ≡ [] }
{
    for k in 0..member {
        if is_in(&bodies[k], cell) {
            return k;
        }
    }
    member
}

/// The sums over the members of a cell, the first of whom is at the place `first`.
fn sums_of(soft: &[u32; 6], bodies: &[Body], cell: &Cell, first: usize) -> Raw
    requires valid { IsValid bodies.now }
    requires within { first < length bodies.now }
    requires inside { (d : BodyData) → contains cell.now (get_or bodies.now first d).motion.pos ≡ true }
    requires first { filter (λ b. contains cell.now b.motion.pos) (take first bodies.now) ≡ [] }
    ensures { result ≡ raw_of soft.now cell.now (members bodies.now cell.now) }
{
    let mut sums = Raw::of_body(cell, &bodies[first], soft);
    for k in first + 1..bodies.len() {
        sums = with_body(sums, cell, &bodies[k], soft);
    }
    sums
}

/// The node of a level around the body at a place.
fn node_of(setup: &Setup, bodies: &[Body], i: usize, level: u8) -> Node
    requires bodies { AreBodies bodies.now }
    requires kinds { AllByRecursion (λ b. b.kind ≤ 5) bodies.now }
    requires within { i < length bodies.now }
    requires shallow { level ≤ 32 }
    ensures { (b : BodyData) → IsNodeAround setup.now bodies.now (get_or bodies.now i b) level result }
{
    let cell = cell_around(&bodies[i], level);
    let first = first_in(bodies, &cell, i);
    let soft = setup.soft;
    let sums = sums_of(&soft, bodies, &cell, first);
    Node {
        moments: sums.moments(),
        first: same_id(&bodies[first], &bodies[i]),
    }
}

/// The nodes around each body, one body's after another's.
pub(crate) fn nodes_of(alloc: Global, setup: &Setup, bodies: &[Body]) -> Result<Vec<Node>, Memory>
    requires bodies { AreBodies bodies.now }
    requires kinds { AllByRecursion (λ b. b.kind ≤ 5) bodies.now }
    ensures { IfOk result (λ nodes. AreNodesOf setup.now bodies.now nodes.items) }
{
    let mut nodes = Vec::with_capacity(alloc, LEVELS * bodies.len())?;
    for k in 0..LEVELS * bodies.len() {
        nodes.push(node_of(setup, bodies, k / LEVELS, (k % LEVELS) as u8))?;
    }
    Ok(nodes)
}

/// The nodes around the body at a place, the root first.
pub(crate) fn around(nodes: &[Node], i: usize) -> &[Node]
    requires { 33 * i + 33 ≤ length nodes.now }
    ensures long { length result.now ≡ 33 }
    ensures nodes { (s : SetupData) (B : List BodyData) (b : BodyData) → AreNodesOf s B nodes.now → AreNodesAround s B (get_or B i b) result.now }
{
    &nodes[LEVELS * i..LEVELS * i + LEVELS]
}
