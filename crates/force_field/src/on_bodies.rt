// The forces on bodies, from the totals of the nodes around them.
ghost use Rattle.std.specs.Prelude.{◌≡◌, ◌≤◌, ◌<◌, ◌*◌, ◌^◌, ℕ, length, get_or, map, sum_by, All, IfOk};
ghost use Rattle.fixed_point.specs.Vectors.{IsBelow};
ghost use Rattle.nbody_model.specs.Bodies.{BodyData};
ghost use Rattle.nbody_model.specs.Covers.{opening_of};
ghost use Rattle.nbody_model.specs.Force.{force_at, forces};
ghost use Rattle.model_laws.specs.Laws.{AreBodies};
ghost use Rattle.force_field.specs.Around.{AreNodesOf};
ghost use Rattle.force_field.specs.Grouped.{gravity_of};
ghost use Rattle.force_field.specs.Pairs.{AreTotals, counted_by};
ghost use Rattle.force_field.specs.Shared.{HasRoom};

use crate::covers::Grouped;
use crate::nodes::{LEVELS, cell_around};
use crate::shares::{Workspace, share_in};
use crate::totals::find_totals;
use fixed_point::{Memory, V3};
use std::alloc::Global;

/// The force on the body at the place `i`: its shares in the totals of the 33 nodes around it.
fn force_on_body(all: &Grouped, i: usize, totals: &[V3], work: &mut Workspace) -> Result<V3, Memory>
    requires bodies { AreBodies all.now.bodies.now }
    requires within { i < length all.now.bodies.now }
    requires long { length totals.now ≡ 33 }
    requires totals { (b : BodyData) → AreTotals (gravity_of all.now) all.now.bodies.now (get_or all.now.bodies.now i b) totals.now }
    requires room { HasRoom (length all.now.bodies.now) work.old }
    ensures value { (b : BodyData) → IfOk result (λ force. force ≡ force_at (gravity_of all.now) all.now.bodies.now (get_or all.now.bodies.now i b)) }
    ensures small { IfOk result (IsBelow (2 ^ 118)) }
    ensures room { HasRoom (length all.now.bodies.now) work.new }
{
    let mut force = V3::ZERO;
    for level in 0..33u8 {
        let cell = cell_around(&all.bodies[i], level);
        let total = totals[level as usize];
        let part = share_in(all.bodies, i, &cell, &total, work)?;
        force = force.plus(part);
    }
    Ok(force)
}

/// The forces on all bodies, in their order, and the number of interactions.
pub(crate) fn forces_on(alloc: Global, all: &Grouped) -> Result<(Vec<V3>, u64), Memory>
    requires bodies { AreBodies all.now.bodies.now }
    requires nodes { AreNodesOf all.now.setup.now all.now.bodies.now all.now.nodes.now }
    ensures forces { IfOk result (λ found. found.0.items ≡ forces (gravity_of all.now) all.now.bodies.now) }
    ensures small { IfOk result (λ found. All (IsBelow (2 ^ 118)) found.0.items) }
    ensures interactions { IfOk result (λ found. found.1 ≡ sum_by (counted_by (opening_of all.now.setup.now all.now.bodies.now) all.now.bodies.now) all.now.bodies.now) }
{
    let n = all.bodies.len();
    let mut work = Workspace::with_room(alloc, n)?;
    let mut totals = [V3::ZERO; LEVELS];
    let mut forces = Vec::with_capacity(alloc, n)?;
    let mut interactions = 0u64;
    for i in 0..n {
        interactions += find_totals(all, i, &mut totals);
        forces.push(force_on_body(all, i, &totals, &mut work)?)?;
    }
    Ok((forces, interactions))
}
