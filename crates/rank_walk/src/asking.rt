// The cells that a rank asks for.
ghost use Rattle.std.specs.Prelude.{◌≡◌, ◌<◌, ◌++◌, ◌∷◌, [], true, length, slice_set, OnOk, IfOk, if◌then◌else◌};
ghost use Rattle.std.specs.List.{AllByRecursion};
ghost use Rattle.rank_walk.specs.Asked.{AreDistinct, IsAskedFor, IsAsking, asks_at, ranked_at};
ghost use Rattle.rank_walk.specs.Tables.{IsIn};

use crate::places::Places;
use crate::ranked::{Ranked, cells_at, note, ranked_at, sort};
use crate::slot::Slot;
use cell_space::Cell;
use fixed_point::Memory;
use std::alloc::Global;
use std::collections::BTreeMap;

/// Whether the cell at a place is neither known nor asked for.
fn is_unasked(slots: &[Slot], asked: &[bool], i: usize) -> bool
    requires low { i < length slots.now }
    requires long { length asked.now ≡ length slots.now }
    ensures { result ≡ asks_at slots.now asked.now i }
{
    let slot = &slots[i];
    slot.known.is_none() && !asked[i]
}

/// Notes that the cell at a place is asked for, if it is neither known nor asked for.
fn ask_at(
    slots: &[Slot],
    asked: &mut Vec<bool>,
    out: &mut Vec<Ranked>,
    i: u32,
) -> Result<(), Memory>
    requires low { i < length slots.now }
    requires long { length asked.old.items ≡ length slots.now }
    ensures asked { OnOk result (asked.new.items ≡ (if asks_at slots.now asked.old.items i then slice_set asked.old.items i true else asked.old.items)) }
    ensures out { OnOk result (out.new.items ≡ (if asks_at slots.now asked.old.items i then out.old.items ++ ranked_at slots.now i ∷ [] else out.old.items)) }
{
    if !is_unasked(slots, asked, i as usize) {
        return Ok(());
    }
    asked[i as usize] = true;
    out.push(ranked_at(slots, i))?;
    Ok(())
}

/// The places on a list whose cells are neither known nor asked for, each once; they now are asked for.
fn unasked(
    alloc: Global,
    slots: &[Slot],
    asked: &mut Vec<bool>,
    list: &[Places],
) -> Result<Vec<Ranked>, Memory>
    requires distinct { AreDistinct slots.now }
    requires long { length asked.old.items ≡ length slots.now }
    requires within { AllByRecursion (IsIn slots.now) list.now }
    ensures { IfOk result (λ out. IsAsking slots.now asked.old.items list.now asked.new.items out.items) }
{
    let mut out = Vec::new(alloc);
    for i in 0..list.len() {
        let x = list[i];
        ask_at(slots, asked, &mut out, x.a)?;
        ask_at(slots, asked, &mut out, x.b)?;
    }
    Ok(out)
}

/// The cells on a list that are neither known nor asked for, in their order; they now are asked for, and it is noted
/// where they stand.
pub(crate) fn ask(
    alloc: Global,
    slots: &[Slot],
    asked: &mut Vec<bool>,
    places: &mut BTreeMap<u128, u32>,
    list: &[Places],
) -> Result<Vec<Cell>, Memory>
    requires distinct { AreDistinct slots.now }
    requires long { length asked.old.items ≡ length slots.now }
    requires within { AllByRecursion (IsIn slots.now) list.now }
    ensures { IfOk result (λ cells. IsAskedFor slots.now asked.old.items places.old list.now asked.new.items places.new cells.items) }
{
    let mut ranked = unasked(alloc, slots, asked, list)?;
    sort(&mut ranked);
    note(places, &ranked)?;
    cells_at(alloc, slots, &ranked)
}
