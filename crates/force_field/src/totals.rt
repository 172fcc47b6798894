// The totals of the nodes around a body.
ghost use Rattle.std.specs.Prelude.{◌≡◌, ◌≤◌, ◌<◌, ◌+◌, ◌*◌, ◌^◌, ◌&&◌, ◌||◌, ◌==◌, not, true, false, ℕ, length, get_or, set, if◌then◌else◌};
ghost use Rattle.fixed_point.specs.Vectors.{FitsEach, IsAtMost, origin, negative, plus};
ghost use Rattle.cell_space.specs.Cells.{before, same_place};
ghost use Rattle.nbody_model.specs.Bodies.{BodyData};
ghost use Rattle.nbody_model.specs.Covers.{opening_of};
ghost use Rattle.nbody_model.specs.PairForce.{pair};
ghost use Rattle.model_laws.specs.Laws.{AreBodies};
ghost use Rattle.force_field.specs.Around.{AreNodesOf};
ghost use Rattle.force_field.specs.Pairs.{AreTotals, IsPart, MayAct, counted_by};
ghost use Rattle.force_field.specs.Grouped.{gravity_of};

use crate::covers::{Grouped, cover_levels, position};
use crate::levels::same_place;
use crate::nodes::{Node, around};
use fixed_point::V3;
use node_moments::Moments;
use pair_law::force_of;

/// What one body adds to the totals of the nodes around another: a force at one level, and whether the two count
/// an interaction.
#[derive(Clone, Copy)]
pub(crate) struct Part {
    pub level: u8,
    pub force: V3,
    pub counts: bool,
}

const NOTHING: Part = Part {
    level: 0,
    force: V3::ZERO,
    counts: false,
};

/// Whether the cell of a node comes before that of another one.
fn precedes(a: &Moments, b: &Moments) -> bool
    ensures { result ≡ before a.now.cell b.now.cell }
{
    a.cell.before(&b.cell)
}

/// The force on a node by another one, with which it may act. It is found for the one of smaller corner, and the other
/// one gets its negative.
fn force_on(all: &Grouped, a: &Moments, b: &Moments) -> V3
    requires { MayAct all.now.setup.now a.now b.now }
    ensures value { result ≡ (if before b.now.cell a.now.cell then negative (pair (gravity_of all.now) b.now a.now) else pair (gravity_of all.now) a.now b.now) }
    ensures small { IsAtMost (2 ^ 87) result }
{
    if precedes(b, a) {
        return force_of(all.setup, all.table, b, a).negated();
    }
    force_of(all.setup, all.table, a, b)
}

/// Whether two nodes, the first members of which are looked at, count an interaction: not the one of greater corner first.
fn counts(node: &Node, other: &Node) -> bool
    ensures { result ≡ (node.now.first && (other.now.first && not (before other.now.moments.cell node.now.moments.cell))) }
{
    node.first && (other.first && !precedes(&other.moments, &node.moments))
}

/// What the body at the place `j` adds to the totals of the nodes around the one at the place `i`, which stands elsewhere.
fn part_apart(all: &Grouped, i: usize, j: usize) -> Part
    requires bodies { AreBodies all.now.bodies.now }
    requires nodes { AreNodesOf all.now.setup.now all.now.bodies.now all.now.nodes.now }
    requires first { i < length all.now.bodies.now }
    requires second { j < length all.now.bodies.now }
    requires apart { (b d : BodyData) → same_place (get_or all.now.bodies.now i b).motion.pos (get_or all.now.bodies.now j d).motion.pos ≡ false }
    ensures { (b d : BodyData) → IsPart (gravity_of all.now) all.now.bodies.now (get_or all.now.bodies.now i b) (get_or all.now.bodies.now j d) result }
{
    let (level, other_level) = cover_levels(all, i, j);
    let node = &around(all.nodes, i)[level as usize];
    let other = &around(all.nodes, j)[other_level as usize];
    if !other.first {
        return NOTHING;
    }
    Part {
        level,
        force: force_on(all, &node.moments, &other.moments),
        counts: counts(node, other),
    }
}

/// What the body at the place `j` adds to the totals of the nodes around the one at the place `i`.
fn part_of(all: &Grouped, i: usize, j: usize) -> Part
    requires bodies { AreBodies all.now.bodies.now }
    requires nodes { AreNodesOf all.now.setup.now all.now.bodies.now all.now.nodes.now }
    requires first { i < length all.now.bodies.now }
    requires second { j < length all.now.bodies.now }
    ensures { (b d : BodyData) → IsPart (gravity_of all.now) all.now.bodies.now (get_or all.now.bodies.now i b) (get_or all.now.bodies.now j d) result }
{
    if same_place(position(&all.bodies[i]), position(&all.bodies[j])) {
        return NOTHING;
    }
    part_apart(all, i, j)
}

fn one_if(test: bool) -> u64
    ensures value { result ≡ (if test then 1 else 0) }
    ensures most { result ≤ 1 }
{
    if test { 1 } else { 0 }
}

/// Adds a force at a level.
fn add_at(totals: &mut [V3], level: u8, force: V3)
    requires within { level < length totals.old }
    requires fits { FitsEach (plus (get_or totals.old level origin) force) }
    ensures { totals.new ≡ set totals.old level (plus (get_or totals.old level origin) force) }
{
    let at = level as usize;
    totals[at] = totals[at].plus(force);
}

/// Makes `totals` the totals of the 33 nodes around the body at the place `i`, the root first, and answers how many interactions
/// the body counts.
pub(crate) fn find_totals(all: &Grouped, i: usize, totals: &mut [V3]) -> u64
    requires bodies { AreBodies all.now.bodies.now }
    requires nodes { AreNodesOf all.now.setup.now all.now.bodies.now all.now.nodes.now }
    requires within { i < length all.now.bodies.now }
    requires long { length totals.old ≡ 33 }
    ensures long { length totals.new ≡ 33 }
    ensures totals { (b : BodyData) → AreTotals (gravity_of all.now) all.now.bodies.now (get_or all.now.bodies.now i b) totals.new }
    ensures count { (b : BodyData) → result ≡ counted_by (opening_of all.now.setup.now all.now.bodies.now) all.now.bodies.now (get_or all.now.bodies.now i b) }
    ensures few { result ≤ length all.now.bodies.now }
{
    totals.fill(V3::ZERO);
    let mut count = 0u64;
    for j in 0..all.bodies.len() {
        let part = part_of(all, i, j);
        add_at(totals, part.level, part.force);
        count += one_if(part.counts);
    }
    count
}
