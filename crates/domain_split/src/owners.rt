// Which rank owns each body.
ghost use Rattle.std.specs.Prelude.{◌≡◌, ◌≤◌, ◌<◌, IfOk, length, slice_index_or};
ghost use Rattle.std.specs.List.{AllByRecursion};
ghost use Rattle.nbody_model.specs.Bodies.{BodyData, IsValid};
ghost use Rattle.model_laws.specs.Laws.{AreBodies};
ghost use Rattle.octree_build.specs.Order.{IsNumbered};
ghost use Rattle.domain_split.specs.Splits.{owner_of, owners_of};

use crate::search::count_below;
use fixed_point::Memory;
use model_laws::laws::bodies::keep_limits;
use nbody_model::Body;
use octree_build::{number_at, sorted_numbers};
use std::alloc::Global;

/// The owner of the body at a place, by the sorted numbers of all.
fn owner_at(bodies: &[Body], sorted: &[u128], i: usize, ranks: u32) -> u16
    requires bodies { AreBodies bodies.now }
    requires sorted { IsNumbered bodies.now sorted.now }
    requires place { i < length bodies.now }
    requires some { 1 ≤ ranks }
    requires few { ranks ≤ 256 }
    ensures owner { (d : BodyData) → result ≡ owner_of ranks bodies.now (slice_index_or bodies.now i d) }
    ensures rank { result < ranks }
{
    let place = count_below(sorted, number_at(bodies, i));
    (place * ranks as usize / bodies.len()) as u16
}

/// The owners of bodies that ascend in id and keep the limits, in the order of the list. Of n bodies in the order of their
/// keys, and of their ids where keys are equal, the one at place p belongs to rank p · ranks / n, rounded down.
pub fn split(alloc: Global, bodies: &[Body], ranks: u32) -> Result<Vec<u16>, Memory>
    requires bodies { IsValid bodies.now }
    requires some { 1 ≤ ranks }
    requires few { ranks ≤ 256 }
    ensures owners { IfOk result (λ owners. owners.items ≡ owners_of ranks bodies.now) }
    ensures each { IfOk result (λ owners. length owners.items ≡ length bodies.now) }
    ensures ranks { IfOk result (λ owners. AllByRecursion (λ o. o < ranks) owners.items) }
{
    keep_limits(bodies);
    let sorted = sorted_numbers(alloc, bodies)?;
    let mut owners = Vec::with_capacity(alloc, bodies.len())?;
    for i in 0..bodies.len() {
        owners.push(owner_at(bodies, &sorted, i, ranks))?;
    }
    Ok(owners)
}
