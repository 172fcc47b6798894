// The walk over a tree's pairs of nodes.
ghost use Rattle.std.specs.Prelude.{◌≡◌, ◌<◌, ◌≤◌, ◌+◌, ◌-◌, ◌^◌, ◌∷◌, [], ℕ, IfOk, OnOk, OnErr, length};
ghost use Rattle.std.specs.List.{AllByRecursion};
ghost use Rattle.smallvec.specs.SmallVec.{HasRoomFor};
ghost use Rattle.fixed_point.specs.Vectors.{IsBelow, sum_of};
ghost use Rattle.octree_build.specs.Trees.{IsTree};
ghost use Rattle.dual_walk.specs.Places.{value_at};
ghost use Rattle.dual_walk.specs.Courses.{Course, Follows, HasForces, Tells, asked_by, taken_by};
ghost use Rattle.dual_walk.specs.Steps.{IsListed, Looks, asked_weight, cells_at, pair};

use crate::nodes::{open_apart, open_self, turned};
use crate::pairs::Pair;
use crate::places::add_pair;
use crate::verdicts::{Verdict, judge};
use cell_space::Cell;
use fixed_point::{Memory, V3};
use node_moments::Moments;
use octree_build::Tree;
use pair_law::Law;
use smallvec::SmallVec;
use std::alloc::Global;

/// Looks at a pair of nodes: takes its force, or puts the pairs below it on the list. It answers how many it took.
fn look<A: Fn(&Moments, &Moments) -> bool, F: Fn(&Moments, &Moments) -> V3, M: Fn(&Cell) -> bool>(
    tree: &Tree,
    law: &mut Law<A, F>,
    places: &mut [V3],
    mine: &M,
    list: &mut SmallVec<Pair, 64>,
    x: Pair,
) -> u64
    ghost w: { Course }
    requires tree { IsTree w.setup w.bodies tree.now }
    requires follows { Follows A.Fn F.Fn law.old.accept law.old.force w }
    requires tells { Tells M.Fn mine.now w }
    requires accepts { law.old.asked_accept < 2 ^ 64 - 1 }
    requires forces { law.old.asked_force < 2 ^ 64 - 1 }
    requires long { length places.old ≡ length tree.now.nodes }
    requires small { (k : ℕ) → k < length places.old → IsBelow (2 ^ 112) (value_at places.old k) }
    requires listed { IsListed w tree.now.nodes x }
    requires room { HasRoomFor list.old 64 }
    ensures looks { Looks w tree.now.nodes x list.old.items list.new.items places.old places.new result }
    ensures asked { law.new.asked_accept ≡ law.old.asked_accept + asked_weight w (cells_at tree.now.nodes x) }
    ensures pulled { law.new.asked_force ≡ law.old.asked_force + result }
    ensures capacity { list.new.capacity ≡ list.old.capacity }
    ensures same_accept { law.new.accept ≡ law.old.accept }
    ensures same_force { law.new.force ≡ law.old.force }
{
    if x.a == x.b {
        open_self(tree, list, x);
        return 0;
    }
    let first = turned(tree, x);
    match judge(tree, law, mine, first) {
        Verdict::Opens => {
            open_apart(tree, list, x);
            0
        }
        Verdict::Drops => 0,
        Verdict::Takes(force) => {
            add_pair(places, first.a as usize, first.b as usize, force);
            1
        }
    }
}

/// The list of a walk's first pair, with room for all that it may hold.
fn first_list(alloc: Global) -> Result<SmallVec<Pair, 64>, Memory>
    ensures items { IfOk result (λ list. list.items ≡ pair 0 0 ∷ []) }
    ensures room { IfOk result (λ list. 2112 ≤ list.capacity) }
{
    let mut list = SmallVec::new(alloc);
    list.reserve(2112)?;
    list.push_reserved(Pair { a: 0, b: 0 });
    Ok(list)
}

/// Walks over a tree from the root down: the force of each interaction whose cell of smaller corner is `mine` is asked
/// for once, added to the place of that node and taken from the other's. It answers how many these are. Its list takes
/// memory first, so that want of it leaves all as it was.
pub fn walk<
    A: Fn(&Moments, &Moments) -> bool,
    F: Fn(&Moments, &Moments) -> V3,
    M: Fn(&Cell) -> bool,
>(
    alloc: Global,
    tree: &Tree,
    law: &mut Law<A, F>,
    places: &mut [V3],
    mine: M,
) -> Result<u64, Memory>
    ghost w: { Course }
    requires tree { IsTree w.setup w.bodies tree.now }
    requires follows { Follows A.Fn F.Fn law.old.accept law.old.force w }
    requires tells { Tells M.Fn mine w }
    requires long { length places.old ≡ length tree.now.nodes }
    requires small { AllByRecursion (IsBelow (2 ^ 100)) places.old }
    requires accepts { law.old.asked_accept ≤ 2 ^ 63 }
    requires forces { law.old.asked_force ≤ 2 ^ 63 }
    ensures taken { IfOk result (λ n. n ≡ length (taken_by w)) }
    ensures places { OnOk result (HasForces w tree.now.nodes (taken_by w) places.old places.new) }
    ensures kept { sum_of (λ v. v) places.new ≡ sum_of (λ v. v) places.old }
    ensures asked { OnOk result (law.new.asked_accept ≡ law.old.asked_accept + length (asked_by w)) }
    ensures pulled { OnOk result (law.new.asked_force ≡ law.old.asked_force + length (taken_by w)) }
    ensures same_accept { law.new.accept ≡ law.old.accept }
    ensures same_force { law.new.force ≡ law.old.force }
    ensures memory { OnErr result (places.new ≡ places.old × law.new ≡ law.old) }
{
    if tree.len() == 0 {
        return Ok(0);
    }
    let mut list = first_list(alloc)?;
    let mut count: u64 = 0;
    while let Some(x) = list.pop() {
        count += look(tree, law, places, &mine, &mut list, x);
    }
    Ok(count)
}
