// Sums of forces on cells, added up cell by cell.
ghost use Rattle.std.specs.Prelude.{◌≡◌, ◌≤◌, ◌<◌, ◌+◌, ◌^◌, ◌++◌, ◌∷◌, [], ℕ, List, IfOk, OnOk, length, map, slice_index_or};
ghost use Rattle.std.specs.List.{AllByRecursion};
ghost use Rattle.hilbert_keys.specs.Curve.{IsCell};
ghost use Rattle.rank_curve_laws.specs.Along.{keys_along};
ghost use Rattle.fixed_point.specs.Vectors.{FitsEach, plus};
ghost use Rattle.std.specs.Bool.{Decides};
ghost use Rattle.rank_laws.specs.Contents.{Summed as SummedData};
ghost use Rattle.rank_exchange.specs.Sums.{AreInOrder, ArePlaced, Climbs, IsAdded, IsAddedWith, IsLight, IsNext, StaysLight, cells_in, entries_in, extent_at, joined, place_of, totals_of};

use crate::contents::Summed;
use cell_space::Cell;
use fixed_point::Memory;
use hilbert_keys::{cell_key_range, is_of_box};
use std::alloc::Global;

/// An entry, and where its cell stands in the order of cells.
#[derive(Drop)]
pub(crate) struct Placed {
    place: u128,
    entry: Summed,
}

/// Where a cell stands in the order of cells: by level, and then by first key.
#[tactic(auto, using(crate::proofs::Places::fits), unfolding(crate::specs::Sums::place_of))]
pub(crate) fn place_of(cell: &Cell) -> u128
    ensures value { result ≡ place_of cell.now }
    ensures cell { IsCell cell.now }
{
    is_of_box(cell);
    let (first, _) = cell_key_range(cell);
    cell.level as u128 * (1 << 96) + first
}

/// Whether two entries are of one cell.
fn of_one(a: &Summed, b: &Summed) -> bool
    ensures { Decides result (a.now.cell ≡ b.now.cell) }
{
    a.cell.same(&b.cell)
}

/// What two entries of one cell come to.
fn joined(a: &Summed, b: &Summed) -> Summed
    requires { FitsEach (plus a.now.sum b.now.sum) }
    ensures { result ≡ joined a.now b.now }
{
    Summed {
        cell: a.cell,
        sum: a.sum.plus(b.sum),
    }
}

/// Adds an entry to the last sum, or, where it is of the next cell, puts that sum behind the list. What is then the last.
fn add(out: &mut Vec<Summed>, last: Summed, entry: Summed) -> Result<Summed, Memory>
    requires { (es : List SummedData) × IsAddedWith es out.old.items last × IsNext es entry × StaysLight es entry }
    ensures { (es : List SummedData) → IsAddedWith es out.old.items last → IsNext es entry → IfOk result (IsAddedWith (es ++ entry ∷ []) out.new.items) }
{
    if of_one(&last, &entry) {
        return Ok(joined(&last, &entry));
    }
    out.push(last)?;
    Ok(entry)
}

/// The entry at a place.
fn entry_at(placed: &[Placed], i: usize) -> Summed
    requires { i < length placed.now }
    ensures { (d : SummedData) → result ≡ slice_index_or (entries_in placed.now) i d }
{
    placed[i].entry
}

/// Adds up entries that are sorted by the places of their cells.
fn add_all(alloc: Global, placed: &[Placed]) -> Result<Vec<Summed>, Memory>
    requires rises { AreInOrder (entries_in placed.now) }
    requires light { IsLight (entries_in placed.now) }
    ensures { IfOk result (λ totals. IsAdded (entries_in placed.now) totals.items) }
{
    let mut out = Vec::new(alloc);
    if placed.is_empty() {
        return Ok(out);
    }
    let mut last = entry_at(placed, 0);
    for i in 1..placed.len() {
        last = add(&mut out, last, entry_at(placed, i))?;
    }
    out.push(last)?;
    Ok(out)
}

/// The entries with their places.
fn all_placed(alloc: Global, entries: &[Summed]) -> Result<Vec<Placed>, Memory>
    ensures { IfOk result (λ all. ArePlaced entries.now all.items) }
{
    let mut all = Vec::with_capacity(alloc, entries.len())?;
    for i in 0..entries.len() {
        let entry = &entries[i];
        all.push(Placed {
            place: place_of(&entry.cell),
            entry: *entry,
        })?;
    }
    Ok(all)
}

/// Each cell of some entries once, in order, with the sum of all that stands at it.
pub(crate) fn totals_of(alloc: Global, entries: &[Summed]) -> Result<Vec<Summed>, Memory>
    requires { IsLight entries.now }
    ensures totals { (bounds : List ℕ) → IfOk result (λ totals. totals.items ≡ totals_of (keys_along bounds) entries.now) }
    ensures boxed { OnOk result (AllByRecursion IsCell (cells_in entries.now)) }
    ensures climbs { IfOk result (λ totals. Climbs (cells_in totals.items)) }
    ensures cells { IfOk result (λ totals. AllByRecursion IsCell (cells_in totals.items)) }
{
    let mut all = all_placed(alloc, entries)?;
    all.sort_by_key(|p| p.place)?;
    let totals = add_all(alloc, &all)?;
    Ok(totals)
}
