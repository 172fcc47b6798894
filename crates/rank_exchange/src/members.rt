// Which of a rank's bodies lie in which cells.
ghost use Rattle.std.specs.Prelude.{◌≡◌, ◌≤◌, ◌<◌, ◌+◌, ◌-◌, ◌++◌, ◌%◌, ◌^◌, ℕ, List, IfOk, OnOk, length, map, slice_index_or};
ghost use Rattle.std.specs.List.{AllByRecursion, flat_map};
ghost use Rattle.cell_space.specs.Cells.{CellData};
ghost use Rattle.nbody_model.specs.Bodies.{BodyData};
ghost use Rattle.nbody_model.specs.Nodes.{members};
ghost use Rattle.octree_build.specs.Trees.{Rises, high_of, key_at, low_of};
ghost use Rattle.octree_build.specs.Slots.{AreKeyed};
ghost use Rattle.octree_build.proofs.Parts.{part};
ghost use Rattle.rank_exchange.specs.Members.{AreNumbered, AreOwn, AreSorted, IsMembersRange, IsNumber, listed_at, listed_in, number_of};

use crate::contents::Listed;
use cell_space::Cell;
use domain_split::count_below;
use fixed_point::Memory;
use hilbert_keys::{cell_key_range, is_of_box, key_of};
use nbody_model::Body;
use std::alloc::Global;

/// Where the members of a cell begin and end among bodies in the order of the curve, which have these keys.
fn range_of(keys: &[u128], cell: &Cell) -> (usize, usize)
    requires { Rises (λ k. k) keys.now }
    ensures { (S : List BodyData) → AreKeyed keys.now S → IsMembersRange S cell.now result.0 result.1 }
{
    is_of_box(cell);
    let (first, last) = cell_key_range(cell);
    (count_below(keys, first), count_below(keys, last + 1))
}

/// The key of the body at a place.
fn key_at(bodies: &[Body], i: usize) -> u128
    requires { i < length bodies.now }
    ensures { (d : BodyData) → result ≡ key_at (slice_index_or bodies.now i d) }
{
    let body = &bodies[i];
    key_of(body.motion.pos())
}

/// The keys of bodies.
fn keys_of(alloc: Global, bodies: &[Body]) -> Result<Vec<u128>, Memory>
    ensures { IfOk result (λ keys. keys.items ≡ map key_at bodies.now) }
{
    let mut keys = Vec::with_capacity(alloc, bodies.len())?;
    for i in 0..bodies.len() {
        keys.push(key_at(bodies, i))?;
    }
    Ok(keys)
}

/// The body at a place as one number: its id, and its mass below it.
fn number_at(bodies: &[Body], i: usize) -> u128
    requires { i < length bodies.now }
    ensures value { (d : BodyData) → result ≡ number_of (slice_index_or bodies.now i d) }
    ensures number { IsNumber result }
{
    let body = &bodies[i];
    body.id as u128 * (1 << 33) + body.mass as u128
}

/// The numbers of the bodies between two places.
fn number(bodies: &[Body], low: usize, high: usize, numbers: &mut Vec<u128>) -> Result<(), Memory>
    requires order { low ≤ high }
    requires within { high ≤ length bodies.now }
    ensures { OnOk result (AreNumbered (part bodies.now low high) numbers.new.items) }
{
    numbers.clear();
    for i in low..high {
        numbers.push(number_at(bodies, i))?;
    }
    Ok(())
}

/// The numbers of the bodies between two places, ascending.
fn sort(bodies: &[Body], low: usize, high: usize, numbers: &mut Vec<u128>) -> Result<(), Memory>
    requires order { low ≤ high }
    requires within { high ≤ length bodies.now }
    ensures { OnOk result (AreSorted (part bodies.now low high) numbers.new.items) }
{
    number(bodies, low, high, numbers)?;
    numbers.sort()?;
    Ok(())
}

/// Puts a cell with each body of these numbers behind a list.
fn push_listed(cell: &Cell, numbers: &[u128], out: &mut Vec<Listed>) -> Result<(), Memory>
    requires { AllByRecursion IsNumber numbers.now }
    ensures { OnOk result (out.new.items ≡ out.old.items ++ map (listed_at cell.now) numbers.now) }
{
    for number in numbers {
        out.push(Listed {
            cell: *cell,
            id: (*number / (1 << 33)) as u64,
            mass: (*number % (1 << 33)) as u32,
        })?;
    }
    Ok(())
}

/// Puts a cell with each of the bodies in it, ascending in id, behind a list.
fn push_members(
    keys: &[u128],
    bodies: &[Body],
    cell: &Cell,
    numbers: &mut Vec<u128>,
    out: &mut Vec<Listed>,
) -> Result<(), Memory>
    requires keyed { AreKeyed keys.now bodies.now }
    requires own { (B : List BodyData) × AreOwn B bodies.now }
    ensures { (B : List BodyData) → AreOwn B bodies.now → OnOk result (out.new.items ≡ out.old.items ++ listed_in B cell.now) }
{
    let (low, high) = range_of(keys, cell);
    sort(bodies, low, high, numbers)?;
    push_listed(cell, numbers, out)?;
    Ok(())
}

/// For each of these cells the bodies in it, ascending in id, of bodies in the order of the curve.
pub(crate) fn members_of(
    alloc: Global,
    bodies: &[Body],
    cells: &[Cell],
) -> Result<Vec<Listed>, Memory>
    requires { (B : List BodyData) × AreOwn B bodies.now }
    ensures { (B : List BodyData) → AreOwn B bodies.now → IfOk result (λ out. out.items ≡ flat_map (listed_in B) cells.now) }
{
    let keys = keys_of(alloc, bodies)?;
    let mut numbers = Vec::new(alloc);
    let mut out = Vec::new(alloc);
    for cell in cells {
        push_members(&keys, bodies, cell, &mut numbers, &mut out)?;
    }
    Ok(out)
}
