// The numbers by which entries are found.
ghost use Rattle.std.specs.Prelude.{◌≡◌, ◌≤◌, ◌<◌, ◌+◌, ◌*◌, ◌^◌, ◌∷◌, ◌++◌, [], IfOk, length, slice_index_or};
ghost use Rattle.cell_space.specs.Cells.{IsCorner};
ghost use Rattle.hilbert_keys.specs.Steps.{seen};
ghost use Rattle.rank_laws.specs.Contents.{EntryData};
ghost use Rattle.rank_entry_laws.specs.Given.{at_one};
ghost use Rattle.home_cells.specs.Entries.{numbers_in};
ghost use Rattle.home_cells.specs.Tables.{IsOrderOf, code_of, mark_of, marked};

use crate::entries::Entry;
use cell_space::Cell;
use fixed_point::Memory;
use node_moments::Raw;
use std::alloc::Global;

/// The number of the cell of a level and a corner.
#[tactic(auto, using(crate::proofs::Numbers::code_is))]
fn code_at(level: u8, x: u32, y: u32, z: u32) -> u128
    requires { IsCorner level (x ∷ y ∷ z ∷ []) }
    ensures value { result ≡ code_of (seen level (x ∷ y ∷ z ∷ [])) }
    ensures small { result < 33 * 2 ^ 96 }
{
    ((level as u128 * (1 << 32) + x as u128) * (1 << 32) + y as u128) * (1 << 32) + z as u128
}

/// The number of a cell, by its level and its corner.
pub(crate) fn code_of(cell: &Cell) -> u128
    ensures value { result ≡ code_of cell.now }
    ensures small { result < 33 * 2 ^ 96 }
{
    let [x, y, z] = cell.corner;
    code_at(cell.level, x, y, z)
}

/// Whether all members stand at one place.
pub(crate) fn stand_at_one(raw: &Raw) -> bool
    ensures { result ≡ at_one raw.now }
{
    let [a, b, c] = raw.lo;
    let [d, e, f] = raw.hi;
    a == d && b == e && c == f
}

/// The sums of the entry at a place.
pub(crate) fn raw_at(entries: &[Entry], i: usize) -> Raw
    requires { i < length entries.now }
    ensures { (d : EntryData) → result ≡ (slice_index_or entries.now i d).raw }
{
    let entry = &entries[i];
    entry.raw
}

/// The mark of the entry at a place.
fn mark_at(entries: &[Entry], i: usize) -> u128
    requires { i < length entries.now }
    ensures value { (d : EntryData) → result ≡ mark_of (slice_index_or entries.now i d) }
    ensures small { result < 33 * 2 ^ 97 }
{
    let raw = raw_at(entries, i);
    let cell = raw.cell;
    let one = if stand_at_one(&raw) { 1 } else { 0 };
    code_of(&cell) * 2 + one
}

/// The number of the entry at a place, where it gets another place.
fn number_at(entries: &[Entry], i: usize, place: usize) -> u128
    requires here { i < length entries.now }
    requires place { place < 2 ^ 25 }
    ensures { (d : EntryData) → result ≡ mark_of (slice_index_or entries.now i d) * 2 ^ 25 + place }
{
    mark_at(entries, i) * (1 << 25) + place as u128
}

/// The numbers of some entries, and behind them those of more, which stand behind `count` others.
fn numbers_with(
    alloc: Global,
    order: &[u128],
    count: usize,
    entries: &[Entry],
) -> Result<Vec<u128>, Memory>
    requires { count + length entries.now ≤ 2 ^ 25 }
    ensures { IfOk result (λ numbers. numbers.items ≡ order.now ++ marked count entries.now) }
{
    let mut numbers = Vec::with_capacity(alloc, order.len().saturating_add(entries.len()))?;
    numbers.extend_from_slice(order)?;
    for i in 0..entries.len() {
        numbers.push(number_at(entries, i, count + i))?;
    }
    Ok(numbers)
}

/// The order of some entries, with more behind them.
pub(crate) fn order_with(
    alloc: Global,
    order: &[u128],
    old: &[Entry],
    entries: &[Entry],
) -> Result<Vec<u128>, Memory>
    requires order { IsOrderOf old.now order.now }
    requires few { length old.now + length entries.now ≤ 2 ^ 25 }
    ensures { IfOk result (λ order. IsOrderOf (old.now ++ entries.now) order.items) }
{
    let mut numbers = numbers_with(alloc, order, old.len(), entries)?;
    numbers.sort()?;
    Ok(numbers)
}
