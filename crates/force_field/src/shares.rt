// The shares of a body in the totals of the nodes around it.
ghost use Rattle.std.specs.Prelude.{◌≡◌, ◌≤◌, ◌<◌, ◌+◌, ◌^◌, true, ℕ, length, get_or, map, take, count_by, unsigned_abs, pos, OnOk, IfOk};
ghost use Rattle.std.specs.Bool.{Decides};
ghost use Rattle.fixed_point.specs.Vectors.{IsAtMost, origin};
ghost use Rattle.cell_space.specs.Cells.{contains};
ghost use Rattle.nbody_model.specs.Bodies.{BodyData};
ghost use Rattle.nbody_model.specs.Nodes.{members};
ghost use Rattle.nbody_model.specs.Force.{share, share_of};
ghost use Rattle.model_laws.specs.Laws.{AreBodies};
ghost use Rattle.force_sharing.specs.Sharing.{AreMembers, shares_of};
ghost use Rattle.force_field.specs.Shared.{HasRoom, IsReady};

use crate::nodes::is_in;
use cell_space::Cell;
use fixed_point::{Memory, V3};
use force_sharing::{Scratch, share};
use nbody_model::Body;
use std::alloc::Global;

/// What sharing works in: the members of a node, each an id and a mass, their shares, and the order in which they are served.
#[derive(Drop)]
pub(crate) struct Workspace {
    pub members: Vec<(u64, u32)>,
    pub shares: Vec<i128>,
    pub scratch: Scratch,
}

impl Workspace {
    /// Room for so many members.
    pub fn with_room(alloc: Global, n: usize) -> Result<Workspace, Memory>
        ensures { IfOk result (HasRoom n) }
    {
        Ok(Workspace {
            members: Vec::with_capacity(alloc, n)?,
            shares: Vec::with_capacity(alloc, n)?,
            scratch: Scratch::with_room(alloc, n)?,
        })
    }
}

/// The id and the mass of a body.
fn member_of(body: &Body) -> (u64, u32)
    ensures { result ≡ (body.now.id, body.now.mass) }
{
    (body.id, body.mass)
}

/// How many members of a cell stand before a place.
fn place_in(bodies: &[Body], cell: &Cell, i: usize) -> usize
    requires { i < length bodies.now }
    ensures { result ≡ count_by (λ b. contains cell.now b.motion.pos) (take i bodies.now) }
{
    bodies[..i].iter().filter(|b| is_in(b, cell)).count()
}

/// Makes `out` the members of a cell.
fn find_members(bodies: &[Body], cell: &Cell, out: &mut Vec<(u64, u32)>) -> Result<(), Memory>
    ensures { OnOk result (out.new.items ≡ map (λ b. (b.id, b.mass)) (members bodies.now cell.now)) }
{
    out.clear();
    for body in bodies {
        if is_in(body, cell) {
            out.push(member_of(body))?;
        }
    }
    Ok(())
}

/// The share of the member at a place in a number.
fn share_at(work: &mut Workspace, place: usize, total: i128) -> Result<i128, Memory>
    requires members { AreMembers work.old.members.items }
    requires room { length work.old.members.items ≤ work.old.scratch }
    requires within { place < length work.old.members.items }
    requires size { unsigned_abs total < 2 ^ 112 }
    ensures value { IfOk result (λ n. n ≡ get_or (shares_of work.old.members.items total) place (pos 0)) }
    ensures members { work.new.members.items ≡ work.old.members.items }
    ensures room { work.new.scratch ≡ work.old.scratch }
{
    let n = work.members.len();
    work.shares.resize(n, 0)?;
    share(total, &work.members, &mut work.shares, &mut work.scratch);
    Ok(work.shares[place])
}

/// The share of the body at the place `i` in a number, where the members of a cell around it are found, among which it is at
/// the place `place`.
fn share_along(
    bodies: &[Body],
    i: usize,
    cell: &Cell,
    place: usize,
    total: i128,
    work: &mut Workspace,
) -> Result<i128, Memory>
    requires bodies { AreBodies bodies.now }
    requires within { i < length bodies.now }
    requires inside { (b : BodyData) → contains cell.now (get_or bodies.now i b).motion.pos ≡ true }
    requires size { unsigned_abs total ≤ 2 ^ 107 }
    requires ready { IsReady bodies.now cell.now i place work.old }
    ensures value { (b : BodyData) → IfOk result (λ n. n ≡ share (members bodies.now cell.now) total (get_or bodies.now i b)) }
    ensures small { IfOk result (λ n. unsigned_abs n ≤ 2 ^ 108) }
    ensures ready { IsReady bodies.now cell.now i place work.new }
{
    share_at(work, place, total)
}

/// Finds the members of a cell around the body at the place `i`, and its place among them.
fn prepare(bodies: &[Body], i: usize, cell: &Cell, work: &mut Workspace) -> Result<usize, Memory>
    requires within { i < length bodies.now }
    requires room { HasRoom (length bodies.now) work.old }
    ensures ready { IfOk result (λ place. IsReady bodies.now cell.now i place work.new) }
    ensures room { HasRoom (length bodies.now) work.new }
{
    find_members(bodies, cell, &mut work.members)?;
    Ok(place_in(bodies, cell, i))
}

fn is_zero(v: &V3) -> bool
    ensures { Decides result (v.now ≡ origin) }
{
    v.x == 0 && v.y == 0 && v.z == 0
}

/// The shares of the body at the place `i` in a total of a cell around it, on each axis.
fn shares_in(
    bodies: &[Body],
    i: usize,
    cell: &Cell,
    total: &V3,
    work: &mut Workspace,
) -> Result<V3, Memory>
    requires bodies { AreBodies bodies.now }
    requires within { i < length bodies.now }
    requires inside { (b : BodyData) → contains cell.now (get_or bodies.now i b).motion.pos ≡ true }
    requires size { IsAtMost (2 ^ 107) total.now }
    requires room { HasRoom (length bodies.now) work.old }
    ensures value { (b : BodyData) → IfOk result (λ v. v ≡ share_of (members bodies.now cell.now) total.now (get_or bodies.now i b)) }
    ensures small { IfOk result (IsAtMost (2 ^ 108)) }
    ensures room { HasRoom (length bodies.now) work.new }
{
    let place = prepare(bodies, i, cell, work)?;
    let x = share_along(bodies, i, cell, place, total.x, work)?;
    let y = share_along(bodies, i, cell, place, total.y, work)?;
    let z = share_along(bodies, i, cell, place, total.z, work)?;
    Ok(V3 { x, y, z })
}

/// The shares of the body at the place `i` in the total of a cell around it. Most totals are zero, and these are passed over.
pub(crate) fn share_in(
    bodies: &[Body],
    i: usize,
    cell: &Cell,
    total: &V3,
    work: &mut Workspace,
) -> Result<V3, Memory>
    requires bodies { AreBodies bodies.now }
    requires within { i < length bodies.now }
    requires inside { (b : BodyData) → contains cell.now (get_or bodies.now i b).motion.pos ≡ true }
    requires size { IsAtMost (2 ^ 107) total.now }
    requires room { HasRoom (length bodies.now) work.old }
    ensures value { (b : BodyData) → IfOk result (λ v. v ≡ share_of (members bodies.now cell.now) total.now (get_or bodies.now i b)) }
    ensures small { IfOk result (IsAtMost (2 ^ 108)) }
    ensures room { HasRoom (length bodies.now) work.new }
{
    if is_zero(total) {
        return Ok(V3::ZERO);
    }
    shares_in(bodies, i, cell, total, work)
}
