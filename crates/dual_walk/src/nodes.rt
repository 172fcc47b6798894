// What a walk asks of its tree.
ghost use Rattle.std.specs.Prelude.{◌≡◌, ◌≢◌, ◌<◌, ◌≤◌, ◌+◌, ◌^◌, ◌++◌, ◌∷◌, [], false, if◌then◌else◌, length};
ghost use Rattle.smallvec.specs.SmallVec.{HasRoomFor};
ghost use Rattle.cell_space.specs.Cells.{before};
ghost use Rattle.nbody_model.specs.Covers.{final, leaf};
ghost use Rattle.octree_build.specs.Trees.{IsTree};
ghost use Rattle.dual_walk.specs.Courses.{Course, cell_in, opening_by};
ghost use Rattle.dual_walk.specs.Steps.{IsDown, IsListed, Pushes, pair};

use crate::pairs::{Pair, push_cross, push_self};
use cell_space::Cell;
use octree_build::Tree;
use smallvec::SmallVec;

/// The cell of a node.
pub(crate) fn cell_at(tree: &Tree, i: u32) -> Cell
    requires { i < length tree.now.nodes }
    ensures { result ≡ cell_in tree.now.nodes i }
{
    let node = tree.node(i);
    node.cell
}

/// Whether a node is a leaf.
pub(crate) fn is_leaf(tree: &Tree, i: u32) -> bool
    ghost w: { Course }
    requires tree { IsTree w.setup w.bodies tree.now }
    requires place { i < length tree.now.nodes }
    ensures { result ≡ leaf (opening_by w) (cell_in tree.now.nodes i) }
{
    let node = tree.node(i);
    node.leaf
}

/// The pair with the node of smaller corner first.
pub(crate) fn turned(tree: &Tree, x: Pair) -> Pair
    requires first { x.a < length tree.now.nodes }
    requires second { x.b < length tree.now.nodes }
    ensures { result ≡ (if before (cell_in tree.now.nodes x.b) (cell_in tree.now.nodes x.a) then pair x.b x.a else x) }
{
    let first = cell_at(tree, x.a);
    let second = cell_at(tree, x.b);
    if second.before(&first) {
        return Pair { a: x.b, b: x.a };
    }
    x
}

/// A leaf itself, or the children of a node: where they begin, and how many there are.
fn down(tree: &Tree, i: u32) -> (u32, u32)
    ghost w: { Course }
    requires tree { IsTree w.setup w.bodies tree.now }
    requires place { i < length tree.now.nodes }
    ensures { IsDown w tree.now.nodes i result.0 result.1 }
{
    if is_leaf(tree, i) {
        return (i, 1);
    }
    tree.children(i)
}

/// Puts what a node gives together with itself on the list: nothing, if it is a leaf, or the pairs of its children.
pub(crate) fn open_self(tree: &Tree, list: &mut SmallVec<Pair, 64>, x: Pair)
    ghost w: { Course }
    requires tree { IsTree w.setup w.bodies tree.now }
    requires listed { IsListed w tree.now.nodes x }
    requires same { x.a ≡ x.b }
    requires room { HasRoomFor list.old 64 }
    ensures pushed { Pushes w tree.now.nodes x list.old.items list.new.items }
    ensures capacity { list.new.capacity ≡ list.old.capacity }
{
    if is_leaf(tree, x.a) {
        return;
    }
    let (first, number) = down(tree, x.a);
    push_self(list, first, number);
}

/// Puts the pairs below two nodes that don't act on each other as wholes on the list.
pub(crate) fn open_apart(tree: &Tree, list: &mut SmallVec<Pair, 64>, x: Pair)
    ghost w: { Course }
    requires tree { IsTree w.setup w.bodies tree.now }
    requires listed { IsListed w tree.now.nodes x }
    requires differ { x.a ≢ x.b }
    requires open { final (opening_by w) (cell_in tree.now.nodes x.a) (cell_in tree.now.nodes x.b) ≡ false }
    requires room { HasRoomFor list.old 64 }
    ensures pushed { Pushes w tree.now.nodes x list.old.items list.new.items }
    ensures capacity { list.new.capacity ≡ list.old.capacity }
{
    let left = down(tree, x.a);
    let right = down(tree, x.b);
    push_cross(list, left, right);
}
