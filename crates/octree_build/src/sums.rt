// Sums over the members of nodes, from the last node to the first.
ghost use Rattle.std.specs.Prelude.{◌≡◌, ◌≤◌, ◌<◌, ◌+◌, ◌-◌, ◌*◌, ◌^◌, ◌++◌, ◌∷◌, [], true, false, List, ℕ, IfOk, length, slice_index_or};
ghost use Rattle.cell_space.specs.Cells.{CellData, contains};
ghost use Rattle.nbody_model.specs.Bodies.{BodyData};
ghost use Rattle.nbody_model.specs.Nodes.{members, positions_of};
ghost use Rattle.node_moments.specs.Sums.{raw_of};
ghost use Rattle.octree_build.specs.Trees.{first_child};
ghost use Rattle.octree_build.specs.Slots.{IsGrowth, SlotData, cells_in};
ghost use Rattle.octree_build.specs.Sums.{AreSums, HaveChildSums, HaveWhole, IsChildSum, IsRange, sum_in};

use crate::grow::{Slot, read};
use cell_space::Cell;
use fixed_point::Memory;
use nbody_model::Body;
use node_moments::Raw;
use std::alloc::Global;

/// Bodies in the order of the curve, the cells of their tree with the ranges of their members, and where the children of
/// each begin.
#[derive(Clone, Copy)]
pub(crate) struct Grown<'a> {
    pub bodies: &'a [Body],
    pub slots: &'a [Slot],
    pub firsts: &'a [usize],
}

/// The sums over some members of a cell, and over one more.
fn with_member(sum: Raw, cell: &Cell, body: &Body, soft: &[u32; 6]) -> Raw
    requires inside { contains cell.now body.now.motion.pos ≡ true }
    requires same_cell { sum.cell ≡ cell.now }
    requires few { sum.count < 1048576 }
    requires light { sum.mass + body.now.mass ≤ 2 ^ 32 }
    ensures { (ms : List BodyData) → sum ≡ raw_of soft.now cell.now ms → result ≡ raw_of soft.now cell.now (ms ++ body.now ∷ []) }
{
    sum.add(&Raw::of_body(cell, body, soft))
}

/// The sums over the members of a node, which begin and end at these places.
pub(crate) fn sum_of_range(
    cell: &Cell,
    bodies: &[Body],
    low: usize,
    high: usize,
    soft: &[u32; 6],
) -> Raw
    requires { IsRange bodies.now cell.now low high }
    ensures { result ≡ sum_in soft.now bodies.now cell.now }
{
    let mut sum = Raw::of_body(cell, &bodies[low], soft);
    for k in low + 1..high {
        sum = with_member(sum, cell, &bodies[k], soft);
    }
    sum
}

/// The sums over the members of a node, from the corner of a cell in which they lie.
fn seen_from(cell: &Cell, raw: &Raw) -> Raw
    requires { (soft : List ℕ) × (S : List BodyData) × (d : CellData) × IsChildSum soft S cell.now d raw.now }
    ensures { (soft : List ℕ) (S : List BodyData) (d : CellData) → IsChildSum soft S cell.now d raw.now → result ≡ raw_of soft cell.now (members S d) }
{
    raw.shift(cell)
}

/// The sums over the members of a node, by those of its children, the first child's below place `top`.
fn sum_of_children(cell: &Cell, raws: &[Raw], top: usize, number: usize) -> Raw
    requires { (soft : List ℕ) × (S : List BodyData) × HaveChildSums soft S cell.now raws.now top number }
    ensures { (soft : List ℕ) (S : List BodyData) → HaveChildSums soft S cell.now raws.now top number → result ≡ sum_in soft S cell.now }
{
    let mut sum = seen_from(cell, &raws[top - 1]);
    for j in 1..number {
        let at = top - 1 - j;
        sum = sum.add(&seen_from(cell, &raws[at]));
    }
    sum
}

/// Where the children of the cell after a place begin: where those of the cell there end.
pub(crate) fn end_of_children(firsts: &[usize], i: usize) -> usize
    requires { i < length firsts.now }
    ensures { (S : List BodyData) (slots : List SlotData) → IsGrowth S slots firsts.now → result ≡ first_child (positions_of S) (cells_in slots) (i + 1) }
{
    if i + 1 < firsts.len() {
        return firsts[i + 1];
    }
    firsts.len()
}

/// The sums over the members of the cell at a place, by those of the cells after it.
fn sum_at(all: &Grown, raws: &[Raw], i: usize, soft: &[u32; 6]) -> Raw
    requires whole { HaveWhole soft.now all.now.bodies.now }
    requires growth { IsGrowth all.now.bodies.now all.now.slots.now all.now.firsts.now }
    requires place { i < length all.now.slots.now }
    requires sums { AreSums soft.now all.now.bodies.now (cells_in all.now.slots.now) (i + 1) raws.now }
    ensures { (d : CellData) → result ≡ sum_in soft.now all.now.bodies.now (slice_index_or (cells_in all.now.slots.now) i d) }
{
    let (cell, low, high) = read(all.slots, i);
    let first = all.firsts[i];
    let end = end_of_children(all.firsts, i);
    if first == end {
        return sum_of_range(&cell, all.bodies, low, high, soft);
    }
    sum_of_children(&cell, raws, all.slots.len() - first, end - first)
}

/// The sums over the members of each cell, the last cell's first.
pub(crate) fn sums(alloc: Global, all: &Grown, soft: &[u32; 6]) -> Result<Vec<Raw>, Memory>
    requires whole { HaveWhole soft.now all.now.bodies.now }
    requires growth { IsGrowth all.now.bodies.now all.now.slots.now all.now.firsts.now }
    ensures { IfOk result (λ raws. AreSums soft.now all.now.bodies.now (cells_in all.now.slots.now) 0 raws.items) }
{
    let count = all.slots.len();
    let mut raws = Vec::with_capacity(alloc, count)?;
    for done in 0..count {
        raws.push(sum_at(all, &raws, count - 1 - done, soft))?;
    }
    Ok(raws)
}
