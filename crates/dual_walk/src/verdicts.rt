// What a law says of two nodes.
ghost use Rattle.std.specs.Prelude.{◌≡◌, ◌<◌, ◌+◌, ◌-◌, ◌^◌, ◌&&◌, true, if◌then◌else◌, length};
ghost use Rattle.nbody_model.specs.Covers.{final, leaf};
ghost use Rattle.octree_build.specs.Trees.{IsTree};
ghost use Rattle.pair_law.specs.Laws.{MayAct};
ghost use Rattle.dual_walk.specs.Courses.{Course, Follows, Tells, cell_in, is_asked, moments_in, opening_by};
ghost use Rattle.dual_walk.specs.Steps.{IsInOrder, cells_at};
ghost use Rattle.dual_walk.specs.Verdicts.{IsVerdict, pulls_of};

use crate::nodes::{cell_at, is_leaf};
use crate::pairs::Pair;
use cell_space::Cell;
use fixed_point::V3;
use node_moments::Moments;
use octree_build::Tree;
use pair_law::Law;

/// What a walk does at two nodes: it opens them, or drops them as another's interaction, or takes their force.
pub enum Verdict {
    Opens,
    Drops,
    Takes(V3),
}

/// Whether both nodes are leaves.
fn are_leaves(tree: &Tree, x: Pair) -> bool
    ghost w: { Course }
    requires tree { IsTree w.setup w.bodies tree.now }
    requires first { x.a < length tree.now.nodes }
    requires second { x.b < length tree.now.nodes }
    ensures { result ≡ (leaf (opening_by w) (cell_in tree.now.nodes x.a) && leaf (opening_by w) (cell_in tree.now.nodes x.b)) }
{
    let first = is_leaf(tree, x.a);
    let second = is_leaf(tree, x.b);
    first && second
}

/// Whether two nodes act on each other as wholes. The law isn't asked about two leaves.
fn are_final<A: Fn(&Moments, &Moments) -> bool, F: Fn(&Moments, &Moments) -> V3>(
    tree: &Tree,
    law: &mut Law<A, F>,
    x: Pair,
) -> bool
    ghost w: { Course }
    requires tree { IsTree w.setup w.bodies tree.now }
    requires follows { Follows A.Fn F.Fn law.old.accept law.old.force w }
    requires order { IsInOrder tree.now.nodes x }
    requires room { law.old.asked_accept < 2 ^ 64 - 1 }
    ensures answer { result ≡ final (opening_by w) (cell_in tree.now.nodes x.a) (cell_in tree.now.nodes x.b) }
    ensures may { result ≡ true → MayAct A.Fn law.old.accept (moments_in w (cell_in tree.now.nodes x.a)) (moments_in w (cell_in tree.now.nodes x.b)) }
    ensures asked { law.new.asked_accept ≡ law.old.asked_accept + (if is_asked w (cells_at tree.now.nodes x) then 1 else 0) }
    ensures pulled { law.new.asked_force ≡ law.old.asked_force }
    ensures same_accept { law.new.accept ≡ law.old.accept }
    ensures same_force { law.new.force ≡ law.old.force }
{
    if are_leaves(tree, x) {
        return true;
    }
    law.accept(tree.node(x.a), tree.node(x.b))
}

/// Whether the interactions of a node as the one of smaller corner are taken.
fn is_mine<M: Fn(&Cell) -> bool>(tree: &Tree, mine: &M, i: u32) -> bool
    ghost w: { Course }
    requires tells { Tells M.Fn mine.now w }
    requires place { i < length tree.now.nodes }
    ensures { result ≡ w.mine (cell_in tree.now.nodes i) }
{
    let cell = cell_at(tree, i);
    (*mine)(&cell)
}

/// What the law says of two nodes, the one of smaller corner first.
pub(crate) fn judge<
    A: Fn(&Moments, &Moments) -> bool,
    F: Fn(&Moments, &Moments) -> V3,
    M: Fn(&Cell) -> bool,
>(tree: &Tree, law: &mut Law<A, F>, mine: &M, x: Pair) -> Verdict
    ghost w: { Course }
    requires tree { IsTree w.setup w.bodies tree.now }
    requires follows { Follows A.Fn F.Fn law.old.accept law.old.force w }
    requires tells { Tells M.Fn mine.now w }
    requires order { IsInOrder tree.now.nodes x }
    requires accepts { law.old.asked_accept < 2 ^ 64 - 1 }
    requires forces { law.old.asked_force < 2 ^ 64 - 1 }
    ensures verdict { IsVerdict w tree.now.nodes x result }
    ensures asked { law.new.asked_accept ≡ law.old.asked_accept + (if is_asked w (cells_at tree.now.nodes x) then 1 else 0) }
    ensures pulled { law.new.asked_force ≡ law.old.asked_force + pulls_of result }
    ensures same_accept { law.new.accept ≡ law.old.accept }
    ensures same_force { law.new.force ≡ law.old.force }
{
    if !are_final(tree, law, x) {
        return Verdict::Opens;
    }
    if !is_mine(tree, mine, x.a) {
        return Verdict::Drops;
    }
    Verdict::Takes(law.force(tree.node(x.a), tree.node(x.b)))
}
