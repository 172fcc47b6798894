// Sums for the homes of cells.
ghost use Rattle.std.specs.Prelude.{◌≡◌, ◌<◌, ◌^◌, ◌++◌, ◌∷◌, [], length, map, OnOk, IfOk, if◌then◌else◌};
ghost use Rattle.std.specs.List.{AllByRecursion};
ghost use Rattle.rank_walk.specs.Asked.{IsRanked, ranked_at};
ghost use Rattle.rank_walk.specs.Sent.{ArePicked, IsSending, picks_at, sum_of_place};

use crate::ranked::{Ranked, cell_at, ranked_at, sort};
use crate::slot::Slot;
use cell_space::Cell;
use fixed_point::{Memory, V3};
use std::alloc::Global;

/// A cell with what was done to it.
#[derive(Clone, Copy)]
pub struct Summed {
    pub cell: Cell,
    pub sum: V3,
}

/// Whether the cell at a place took part in an interaction, and has this home.
fn is_picked(slots: &[Slot], touched: &[bool], home: u16, i: usize) -> bool
    requires low { i < length slots.now }
    requires long { length touched.now ≡ length slots.now }
    ensures { result ≡ picks_at slots.now touched.now home i }
{
    let slot = &slots[i];
    touched[i] && slot.home == home
}

/// Adds a place, if its cell took part in an interaction and has this home.
fn pick(
    slots: &[Slot],
    touched: &[bool],
    home: u16,
    out: &mut Vec<Ranked>,
    i: u32,
) -> Result<(), Memory>
    requires low { i < length slots.now }
    requires long { length touched.now ≡ length slots.now }
    ensures { OnOk result (out.new.items ≡ (if picks_at slots.now touched.now home i then out.old.items ++ ranked_at slots.now i ∷ [] else out.old.items)) }
{
    if !is_picked(slots, touched, home, i as usize) {
        return Ok(());
    }
    out.push(ranked_at(slots, i))?;
    Ok(())
}

/// The places of the cells that took part in an interaction and have this home.
fn picked(alloc: Global, slots: &[Slot], touched: &[bool], home: u16) -> Result<Vec<Ranked>, Memory>
    requires long { length touched.now ≡ length slots.now }
    requires short { length slots.now < 2 ^ 32 }
    ensures { IfOk result (λ out. ArePicked slots.now touched.now home (length slots.now) out.items) }
{
    let mut out = Vec::new(alloc);
    for i in 0..slots.len() {
        pick(slots, touched, home, &mut out, i as u32)?;
    }
    Ok(out)
}

/// The cell at a place, with its sum.
fn summed_at(slots: &[Slot], sums: &[V3], place: u32) -> Summed
    requires low { place < length slots.now }
    requires long { length sums.now ≡ length slots.now }
    ensures { result ≡ sum_of_place slots.now sums.now place }
{
    Summed {
        cell: cell_at(slots, place),
        sum: sums[place as usize],
    }
}

/// The cells at places, with their sums.
fn summed_all(
    alloc: Global,
    slots: &[Slot],
    sums: &[V3],
    ranked: &[Ranked],
) -> Result<Vec<Summed>, Memory>
    requires low { AllByRecursion (IsRanked slots.now) ranked.now }
    requires long { length sums.now ≡ length slots.now }
    ensures { IfOk result (λ out. out.items ≡ map (λ r. sum_of_place slots.now sums.now r.place) ranked.now) }
{
    let mut out = Vec::with_capacity(alloc, ranked.len())?;
    for i in 0..ranked.len() {
        out.push(summed_at(slots, sums, ranked[i].place))?;
    }
    Ok(out)
}

/// The cells that took part in an interaction and have this home, with their sums, in order.
pub(crate) fn sums_for(
    alloc: Global,
    slots: &[Slot],
    touched: &[bool],
    sums: &[V3],
    home: u16,
) -> Result<Vec<Summed>, Memory>
    requires long { length sums.now ≡ length slots.now }
    requires long_touched { length touched.now ≡ length slots.now }
    requires short { length slots.now < 2 ^ 32 }
    ensures { IfOk result (λ out. IsSending slots.now touched.now sums.now home out.items) }
{
    let mut ranked = picked(alloc, slots, touched, home)?;
    sort(&mut ranked);
    summed_all(alloc, slots, sums, &ranked)
}
