// Slots for the children of a cell.
ghost use Rattle.std.specs.Prelude.{◌≡◌, ◌<◌, ◌≤◌, ◌+◌, ◌-◌, ◌++◌, ◌^◌, ◌/◌, ◌%◌, ◌==◌, ℕ, true, false, length, slice_set, List, OnOk, IfOk};
ghost use Rattle.cell_space.specs.Cells.{CellData, child};
ghost use Rattle.rank_walk.specs.Slots.{SlotData, cell_at_place, cells, slot_at};
ghost use Rattle.rank_walk.specs.Seats.{EachSeat, SomeSeat, TellsBelow, bit, has_child};
ghost use Rattle.rank_walk.specs.Tables.{GoesDown, IsIn, IsTable, MakesAll, MakesOne, MayOpen, MayOpenPair, Opens, OpensPair, known_at, leaf_of, with_children};
ghost use Rattle.rank_walk.specs.declared.heard.Heard.{Heard};

use crate::Source;
use crate::heard::Heard;
use crate::places::{Places, Stack};
use crate::pushing::{push_both, push_same};
use crate::slot::{Slot, slot_of};
use cell_space::Cell;
use fixed_point::{Memory, V3};

/// The cell at a place, which of its children have members, and how many children stand where.
fn entry_at(slots: &[Slot], i: usize) -> (Cell, u8, u32, u8)
    requires { i < length slots.now }
    ensures cell { result.0 ≡ cell_at_place slots.now i }
    ensures below { result.1 ≡ (slot_at slots.now i).below }
    ensures first { result.2 ≡ (slot_at slots.now i).first }
    ensures number { result.3 ≡ (slot_at slots.now i).number }
{
    let slot = &slots[i];
    let below = match &slot.known {
        Some(known) => known.below,
        None => 0,
    };
    (slot.cell, below, slot.first, slot.number)
}

/// Whether the cell at a place is a leaf.
fn is_leaf(slots: &[Slot], i: usize) -> bool
    requires { i < length slots.now }
    ensures { result ≡ leaf_of (slot_at slots.now i).moments }
{
    let slot = &slots[i];
    match &slot.known {
        Some(known) => known.is_leaf(),
        None => false,
    }
}

/// Notes where the children stand.
fn mark(slots: &mut Vec<Slot>, i: usize, first: u32, number: u8)
    requires { i < length slots.old.items }
    ensures { slots.new.items ≡ slice_set slots.old.items i (with_children (slot_at slots.old.items i) first number) }
{
    let slot = &mut slots[i];
    slot.first = first;
    slot.number = number;
}

/// Whether a bit is 1.
fn bit(below: u8, k: u8) -> bool
    requires { k < 8 }
    ensures { result ≡ bit below k }
{
    (below >> k) % 2 == 1
}

/// Adds a slot for a child.
fn push_child<S: Source>(source: &S, heard: &mut Heard, cell: Cell, k: u8) -> Result<(), Memory>
    requires level { cell.level < 32 }
    requires small { k < 8 }
    requires member { SomeSeat (S.serves source.now) (λ z. has_child z cell k ≡ true) }
    ensures { (start : Heard) → OnOk result (EachSeat (S.serves source.now) (MakesOne cell k start heard.old heard.new)) }
{
    let child = cell.child(k);
    heard.slots.push(slot_of(source, child))?;
    heard.sums.push(V3::ZERO)?;
    heard.touched.push(false)?;
    heard.asked.push(false)?;
    Ok(())
}

/// Adds slots for the children that have members.
fn push_children<S: Source>(
    source: &S,
    heard: &mut Heard,
    cell: Cell,
    below: u8,
) -> Result<(), Memory>
    requires level { cell.level < 32 }
    requires below { SomeSeat (S.serves source.now) (TellsBelow cell below) }
    ensures { OnOk result (EachSeat (S.serves source.now) (MakesAll cell below heard.old heard.new)) }
{
    let mut k = 8u8;
    while k > 0 {
        k -= 1;
        if bit(below, k) {
            push_child(source, heard, cell, k)?;
        }
    }
    Ok(())
}

/// Adds slots for the children of a known cell that is no leaf, unless they are there.
pub(crate) fn open<S: Source>(source: &S, heard: &mut Heard, i: usize) -> Result<(u32, u32), Memory>
    requires within { i < length heard.old.slots.items }
    requires known { known_at heard.old.slots.items i ≡ true }
    requires open { SomeSeat (S.serves source.now) (MayOpen heard.old i) }
    ensures { IfOk result (λ r. EachSeat (S.serves source.now) (Opens heard.old i heard.new r.0 r.1)) }
{
    let (cell, below, first, number) = entry_at(&heard.slots, i);
    if number > 0 {
        return Ok((first, first + number as u32));
    }
    let from = heard.slots.len();
    if from > 0xFFFF_0000 {
        return Err(Memory);
    }
    push_children(source, heard, cell, below)?;
    let to = heard.slots.len();
    mark(&mut heard.slots, i, from as u32, (to - from) as u8);
    Ok((from as u32, to as u32))
}

/// What a known cell is replaced by: itself if it is a leaf, or its children.
pub(crate) fn down<S: Source>(source: &S, heard: &mut Heard, i: usize) -> Result<(u32, u32), Memory>
    requires within { i < length heard.old.slots.items }
    requires known { known_at heard.old.slots.items i ≡ true }
    requires table { SomeSeat (S.serves source.now) (λ z. IsTable z heard.old.slots.items) }
    ensures { IfOk result (λ r. EachSeat (S.serves source.now) (GoesDown heard.old i heard.new r.0 r.1)) }
{
    if is_leaf(&heard.slots, i) {
        return Ok((i as u32, i as u32 + 1));
    }
    open(source, heard, i)
}

/// Puts what a pair gives on the stack, the last first.
pub(crate) fn open_pair<S: Source>(
    source: &S,
    heard: &mut Heard,
    stack: &mut Stack,
    x: Places,
) -> Result<(), Memory>
    requires within { IsIn heard.old.slots.items x }
    requires open { SomeSeat (S.serves source.now) (MayOpenPair heard.old x) }
    ensures { OnOk result (EachSeat (S.serves source.now) (OpensPair heard.old x stack.old.items heard.new stack.new.items)) }
{
    if x.a == x.b {
        let (from, to) = open(source, heard, x.a as usize)?;
        push_same(&heard.slots, stack, from, to)?;
        return Ok(());
    }
    let first = down(source, heard, x.a as usize)?;
    let second = down(source, heard, x.b as usize)?;
    push_both(&heard.slots, stack, first, second)?;
    Ok(())
}
