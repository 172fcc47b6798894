// A reply comes.
ghost use Rattle.std.specs.Prelude.{◌≡◌, ◌<◌, ℕ, Some, length, slice_set};
ghost use Rattle.std.specs.BTreeMap.{get};
ghost use Rattle.std.specs.Ordering.{nat_cmp};
ghost use Rattle.rank_walk.specs.Tables.{with_known};
ghost use Rattle.rank_walk.specs.Slots.{slot_at};

use crate::Known;
use crate::slot::Slot;
use std::collections::BTreeMap;

/// The place that is noted at a number.
pub(crate) fn place_of(places: &BTreeMap<u128, u32>, order: u128) -> u32
    ensures { (i : ℕ) → get nat_cmp places.now order ≡ Some i → result ≡ i }
{
    match places.get(&order) {
        Some(place) => *place,
        None => 0,
    }
}

/// What is known of the cell at a place is kept there.
pub(crate) fn know(slots: &mut Vec<Slot>, place: u32, known: Known)
    requires { place < length slots.old.items }
    ensures { slots.new.items ≡ slice_set slots.old.items place (with_known (slot_at slots.old.items place) known) }
{
    let slot = &mut slots[place as usize];
    slot.known = Some(known);
}
