// What a rank begins with.
ghost use Rattle.std.specs.Prelude.{◌≡◌, ◌<◌, ◌&&◌, ◌∷◌, [], true, false, length, IfOk, is_some, if◌then◌else◌};
ghost use Rattle.std.specs.List.{AllByRecursion, list_any};
ghost use Rattle.rank_walk.specs.Seats.{EachSeat, IsServing};
ghost use Rattle.rank_walk.specs.Slots.{SlotData, slot_at, two};
ghost use Rattle.rank_walk.specs.Starts.{BeginsWith, knows_places};
ghost use Rattle.rank_walk.specs.Tables.{IsIn, known_at};

use crate::Source;
use crate::heard::Heard;
use crate::places::Places;
use crate::slot::{Slot, slot_of};
use cell_space::Cell;
use fixed_point::{Memory, V3};
use std::alloc::Global;

/// The root alone.
pub(crate) fn first_heard<S: Source>(alloc: Global, source: &S) -> Result<Heard, Memory>
    requires { IsServing (S.serves source.now) }
    ensures { IfOk result (λ h. EachSeat (S.serves source.now) (BeginsWith h)) }
{
    let mut slots = Vec::new(alloc);
    slots.push(slot_of(source, Cell::root()))?;
    let mut sums = Vec::new(alloc);
    sums.push(V3::ZERO)?;
    let mut touched = Vec::new(alloc);
    touched.push(false)?;
    let mut asked = Vec::new(alloc);
    asked.push(false)?;
    Ok(Heard {
        slots,
        sums,
        touched,
        asked,
    })
}

/// Whether the rank is in the span of the root.
fn is_mine(slots: &[Slot]) -> bool
    requires { 0 < length slots.now }
    ensures { result ≡ (slot_at slots.now 0).mine }
{
    let slot = &slots[0];
    slot.mine
}

/// The pair of the root and itself, if the rank is concerned with it.
pub(crate) fn first_list(alloc: Global, slots: &[Slot]) -> Result<Vec<Places>, Memory>
    requires { 0 < length slots.now }
    ensures { IfOk result (λ list. list.items ≡ (if (slot_at slots.now 0).mine then two 0 0 ∷ [] else [])) }
{
    let mut list = Vec::new(alloc);
    if is_mine(slots) {
        list.push(Places { a: 0, b: 0 })?;
    }
    Ok(list)
}

/// Whether the cell at a place is known.
fn is_known(slots: &[Slot], place: u32) -> bool
    requires { place < length slots.now }
    ensures { result ≡ known_at slots.now place }
{
    let slot = &slots[place as usize];
    slot.known.is_some()
}

/// Whether both cells of a pair are known.
fn knows(slots: &[Slot], x: Places) -> bool
    requires { IsIn slots.now x }
    ensures { result ≡ knows_places slots.now x }
{
    is_known(slots, x.a) && is_known(slots, x.b)
}

/// Whether both cells of some pair on a list are known.
pub(crate) fn knows_some(slots: &[Slot], list: &[Places]) -> bool
    requires { AllByRecursion (IsIn slots.now) list.now }
    ensures { result ≡ list_any (knows_places slots.now) list.now }
{
    for i in 0..list.len() {
        if knows(slots, list[i]) {
            return true;
        }
    }
    false
}
