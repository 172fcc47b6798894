// The flat tree of nodes.
ghost use Rattle.std.specs.Prelude.{◌≡◌, ◌≤◌, ◌<◌, ◌+◌, ◌-◌, ◌^◌, ℕ, List, IfOk, MatchOption, length, take, drop, slice_index_or, true, false};
ghost use Rattle.cell_space.specs.Cells.{contains, corner, place};
ghost use Rattle.nbody_model.specs.Bodies.{BodyData, IsValid};
ghost use Rattle.nbody_model.specs.Setups.{AreSoftenings, SetupData};
ghost use Rattle.nbody_model.specs.Nodes.{members, positions_of};
ghost use Rattle.octree_build.specs.Trees.{AreNodes, AreWithin, ChildTowards, IsAround, IsNodeOf, IsOfBodies, IsOver, IsPlaceOf, IsTree, NodeData, NoneAround, cell_of_node, is_tree_node};
ghost use Rattle.octree_build.specs.Slots.{AreKeyed, cells_in};
ghost use Rattle.octree_build.specs.Sums.{HaveWhole, IsMade, OverMade, sum_in};

use crate::grow::{grow, read};
use crate::order::in_order;
use crate::sums::{Grown, end_of_children, sum_of_range, sums};
use cell_space::Cell;
use fixed_point::Memory;
use hilbert_keys::is_of_box;
use model_laws::laws::bodies::keep_limits;
use nbody_model::Body;
use node_moments::{Moments, Raw};
use std::alloc::Global;
use std::marker::Model;

// A node: its moments, where its children begin and how many there are, and where its members begin and end.
#[derive(Drop)]
struct Node {
    moments: Moments,
    first: u32,
    number: u32,
    low: u32,
    high: u32,
}

impl Model for Node {
    ghost use Rattle.octree_build.specs.Trees.{NodeData};

    ghost Value = { NodeData };

    ghost view = { λ n. record { moments = n.moments; first = n.first; number = n.number; low = n.low; high = n.high } };
}

/// Bodies in the order of the curve, and their nodes in one list: the root first, each level in the order of the curve,
/// and the children of a node side by side.
#[derive(Drop)]
pub struct Tree {
    bodies: Vec<Body>,
    nodes: Vec<Node>,
    soft: [u32; 6],
}

impl Model for Tree {
    ghost use Rattle.octree_build.specs.Trees.{AreWithin, TreeData};

    ghost Value = { TreeData };

    ghost view = { λ t. record { bodies = t.bodies.items; nodes = t.nodes.items; soft = t.soft } };

    ghost invariant = { λ t. AreWithin (record { bodies = t.bodies.items; nodes = t.nodes.items; soft = t.soft }) };
}

/// The node of the cell at a place, by the sums over its members.
fn node_at(all: &Grown, raws: &[Raw], i: usize) -> Node
    requires made { (soft : List ℕ) × IsMade soft all.now.bodies.now all.now.slots.now all.now.firsts.now raws.now }
    requires place { i < length all.now.slots.now }
    ensures { OverMade all.now.bodies.now all.now.slots.now all.now.firsts.now raws.now (λ s B. IsNodeOf s B all.now.bodies.now (cells_in all.now.slots.now) i result) }
{
    let (_cell, low, high) = read(all.slots, i);
    let first = all.firsts[i];
    let end = end_of_children(all.firsts, i);
    let at = raws.len() - 1 - i;
    let raw = &raws[at];
    Node {
        moments: raw.moments(),
        first: first as u32,
        number: (end - first) as u32,
        low: low as u32,
        high: high as u32,
    }
}

/// The nodes of all cells.
fn nodes_of(alloc: Global, all: &Grown, raws: &[Raw]) -> Result<Vec<Node>, Memory>
    requires { (soft : List ℕ) × IsMade soft all.now.bodies.now all.now.slots.now all.now.firsts.now raws.now }
    ensures { OverMade all.now.bodies.now all.now.slots.now all.now.firsts.now raws.now (λ s B. IfOk result (λ nodes. AreNodes s B all.now.bodies.now nodes.items)) }
{
    let mut nodes = Vec::with_capacity(alloc, all.slots.len())?;
    for i in 0..all.slots.len() {
        nodes.push(node_at(all, raws, i))?;
    }
    Ok(nodes)
}

/// The nodes of bodies in the order of the curve, which have these keys.
fn nodes_along(
    alloc: Global,
    keys: &[u128],
    bodies: &[Body],
    soft: &[u32; 6],
) -> Result<Vec<Node>, Memory>
    requires keyed { AreKeyed keys.now bodies.now }
    requires whole { HaveWhole soft.now bodies.now }
    ensures { (s : SetupData) (B : List BodyData) → s.soft ≡ soft.now → IsOver s.soft B bodies.now → IfOk result (λ nodes. AreNodes s B bodies.now nodes.items) }
{
    let growth = grow(alloc, keys, bodies)?;
    let all = Grown {
        bodies,
        slots: &growth.slots,
        firsts: &growth.firsts,
    };
    let raws = sums(alloc, &all, soft)?;
    nodes_of(alloc, &all, &raws)
}

/// The tree of bodies in the order of the curve, by its nodes.
fn tree_of(bodies: Vec<Body>, nodes: Vec<Node>, soft: &[u32; 6]) -> Tree
    requires { AreWithin (record { bodies = bodies.items; nodes = nodes.items; soft = soft.now }) }
    ensures { result ≡ record { bodies = bodies.items; nodes = nodes.items; soft = soft.now } }
{
    Tree {
        bodies,
        nodes,
        soft: *soft,
    }
}

/// The tree of bodies that ascend in id and keep the limits, where the kinds have these softening lengths.
pub fn build(alloc: Global, bodies: &[Body], soft: &[u32; 6]) -> Result<Tree, Memory>
    requires bodies { IsValid bodies.now }
    requires softenings { AreSoftenings soft.now }
    ensures tree { IfOk result (λ t. (s : SetupData) → s.soft ≡ soft.now → IsTree s bodies.now t) }
    ensures whole { IfOk result IsOfBodies }
{
    keep_limits(bodies);
    let all = in_order(alloc, bodies)?;
    let nodes = nodes_along(alloc, &all.keys, &all.bodies, soft)?;
    Ok(tree_of(all.bodies, nodes, soft))
}

/// Whether the cell of a node contains a position.
fn is_around(nodes: &[Node], k: u32, pos: [u32; 3]) -> bool
    requires { k < length nodes.now }
    ensures { (d : NodeData) → result ≡ contains (slice_index_or nodes.now k d).moments.cell (place pos) }
{
    let node = &nodes[k as usize];
    node.moments.cell.contains(pos)
}

/// The child that contains a position, among `number` nodes from place `first` on.
fn child_around(nodes: &[Node], first: u32, number: u32, pos: [u32; 3]) -> Option<u32>
    requires within { first + number ≤ length nodes.now }
    requires few { length nodes.now < 2 ^ 32 }
    ensures { MatchOption result (NoneAround nodes.now first number (place pos)) (IsAround nodes.now first number (place pos)) }
{
    for k in first..first + number {
        if is_around(nodes, k, pos) {
            return Some(k);
        }
    }
    None
}

/// The cell of a node, and where its members begin and end.
fn range_at(nodes: &[Node], i: u32) -> (Cell, usize, usize)
    requires { i < length nodes.now }
    ensures { (x : NodeData) × (x ≡ slice_index_or nodes.now i x) × (result.0 ≡ x.moments.cell) × (result.1 ≡ x.low) × (result.2 ≡ x.high) }
{
    let node = &nodes[i as usize];
    (node.moments.cell, node.low as usize, node.high as usize)
}

impl Tree {
    /// How many nodes there are.
    pub fn len(&self) -> u32
        ensures { result ≡ length self.now.nodes }
    {
        self.nodes.len() as u32
    }

    /// The moments of the node at a place.
    pub fn node(&self, i: u32) -> &Moments
        requires { i < length self.now.nodes }
        ensures { (d : NodeData) → result.now ≡ (slice_index_or self.now.nodes i d).moments }
    {
        &self.nodes[i as usize].moments
    }

    /// Where the children of a node begin, and how many there are: none exactly at a leaf.
    pub fn children(&self, i: u32) -> (u32, u32)
        requires { i < length self.now.nodes }
        ensures first { (d : NodeData) → result.0 ≡ (slice_index_or self.now.nodes i d).first }
        ensures number { (d : NodeData) → result.1 ≡ (slice_index_or self.now.nodes i d).number }
        ensures within { result.0 + result.1 ≤ length self.now.nodes }
    {
        let node = &self.nodes[i as usize];
        (node.first, node.number)
    }

    /// The bodies of a node, in the order of the curve, those of one position in the order of their ids.
    pub fn members(&self, i: u32) -> &[Body]
        requires { i < length self.now.nodes }
        ensures range { (d : NodeData) → let n = slice_index_or self.now.nodes i d in result.now ≡ take (n.high - n.low) (drop n.low self.now.bodies) }
        ensures exact { (s : SetupData) (B : List BodyData) → IsTree s B self.now → (d : NodeData) → result.now ≡ members self.now.bodies (cell_of_node self.now.nodes i d) }
    {
        self.range(i)
    }

    // The bodies of a node.
    fn range(&self, i: u32) -> &[Body]
        requires { i < length self.now.nodes }
        ensures { (d : NodeData) → let n = slice_index_or self.now.nodes i d in result.now ≡ take (n.high - n.low) (drop n.low self.now.bodies) }
    {
        let node = &self.nodes[i as usize];
        &self.bodies[node.low as usize..node.high as usize]
    }

    /// The sums over the bodies of a node, added up at the call.
    pub fn raw(&self, i: u32) -> Raw
        requires place { i < length self.now.nodes }
        requires tree { IsOfBodies self.now }
        ensures { (s : SetupData) (B : List BodyData) → IsTree s B self.now → (d : NodeData) → result ≡ sum_in s.soft B (cell_of_node self.now.nodes i d) }
    {
        let (cell, low, high) = range_at(&self.nodes, i);
        sum_of_range(&cell, &self.bodies, low, high, &self.soft)
    }

    // The child of a node that contains the corner of a cell.
    fn child_towards(&self, i: u32, cell: &Cell) -> Option<u32>
        requires { i < length self.now.nodes }
        ensures { (d : NodeData) → ChildTowards result self.now.nodes (slice_index_or self.now.nodes i d) (corner cell.now) }
    {
        let (first, number) = self.children(i);
        child_around(&self.nodes, first, number, cell.corner)
    }

    /// The place of the node of a cell, or none where the tree lacks it: where the cell has no member, or lies strictly
    /// inside a leaf.
    pub fn find(&self, cell: &Cell) -> Option<u32>
        requires { IsOfBodies self.now }
        ensures { (s : SetupData) (B : List BodyData) → IsTree s B self.now → MatchOption result (is_tree_node (positions_of B) cell.now ≡ false) (IsPlaceOf self.now cell.now) }
    {
        is_of_box(cell);
        if self.nodes.is_empty() {
            return None;
        }
        let mut at = 0;
        for _level in 0..cell.level {
            at = match self.child_towards(at, cell) {
                Some(child) => child,
                None => return None,
            };
        }
        Some(at)
    }
}
