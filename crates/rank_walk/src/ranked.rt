// Places in the order of their cells.
ghost use Rattle.std.specs.Prelude.{◌≡◌, ◌<◌, ◌+◌, ◌^◌, ◌++◌, ◌∷◌, [], ℕ, Option, length, map, OnOk, IfOk, if◌then◌else◌};
ghost use Rattle.std.specs.List.{AllByRecursion};
ghost use Rattle.std.specs.List.Sorted.{IsNonDecreasingBy, IsPermutation};
ghost use Rattle.std.specs.BTreeMap.{get};
ghost use Rattle.std.specs.Ordering.{nat_cmp};
ghost use Rattle.rank_walk.specs.Asked.{IsRanked, cells_at, noted, ranked_at};
ghost use Rattle.rank_walk.specs.Slots.{slot_at};

use crate::slot::Slot;
use cell_space::Cell;
use fixed_point::Memory;
use std::alloc::Global;
use std::collections::BTreeMap;

/// A place, with its cell's number in the order of cells.
#[derive(Clone, Copy)]
pub(crate) struct Ranked {
    pub(crate) order: u128,
    pub(crate) place: u32,
}

/// A place with its cell's number.
pub(crate) fn ranked_at(slots: &[Slot], place: u32) -> Ranked
    requires { place < length slots.now }
    ensures { result ≡ ranked_at slots.now place }
{
    let slot = &slots[place as usize];
    Ranked {
        order: slot.order,
        place,
    }
}

/// Puts places in the order of their cells.
pub(crate) fn sort(ranked: &mut Vec<Ranked>)
    ensures permutation { IsPermutation ranked.old.items ranked.new.items }
    ensures up { IsNonDecreasingBy (λ r. r.order) ranked.new.items }
{
    ranked.sort_unstable_by_key(|r| r.order);
}

/// The cell at a place.
pub(crate) fn cell_at(slots: &[Slot], place: u32) -> Cell
    requires { place < length slots.now }
    ensures { result ≡ (slot_at slots.now place).cell }
{
    let slot = &slots[place as usize];
    slot.cell
}

/// The cells at places, in their order.
pub(crate) fn cells_at(
    alloc: Global,
    slots: &[Slot],
    ranked: &[Ranked],
) -> Result<Vec<Cell>, Memory>
    requires { AllByRecursion (IsRanked slots.now) ranked.now }
    ensures { IfOk result (λ cells. cells.items ≡ cells_at slots.now ranked.now) }
{
    let mut cells = Vec::with_capacity(alloc, ranked.len())?;
    for i in 0..ranked.len() {
        cells.push(cell_at(slots, ranked[i].place))?;
    }
    Ok(cells)
}

/// Notes where cells stand, by their numbers.
pub(crate) fn note(places: &mut BTreeMap<u128, u32>, ranked: &[Ranked]) -> Result<(), Memory>
    ensures { (o : ℕ) → OnOk result (get nat_cmp places.new o ≡ noted ranked.now o (get nat_cmp places.old o)) }
{
    for i in 0..ranked.len() {
        let at = ranked[i];
        places.insert(at.order, at.place)?;
    }
    Ok(())
}
