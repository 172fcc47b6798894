// A cell that a rank has heard of.
ghost use Rattle.std.specs.Prelude.{◌≡◌, ◌<◌, ◌≤◌, ◌+◌, ◌*◌, ◌^◌, length, option_map};
ghost use Rattle.rank_walk.specs.Seats.{EachSeat, SomeSeat, Stands};
ghost use Rattle.rank_walk.specs.Slots.{held, slot_at};
ghost use Rattle.rank_walk.specs.Sources.{HearsOf, slot_told};

use crate::{Known, Source, Told};
use cell_space::Cell;
use std::marker::Model;

/// A cell with what is known of it. `first` and `number` tell where its children stand, once it is opened. The rank is
/// `mine` in its span, and `here` its home; `order` is its number in the order of cells.
#[derive(Drop)]
pub(crate) struct Slot {
    pub(crate) known: Option<Known>,
    pub(crate) cell: Cell,
    pub(crate) first: u32,
    pub(crate) number: u8,
    pub(crate) mine: bool,
    pub(crate) here: bool,
    pub(crate) home: u16,
    pub(crate) order: u128,
}

impl Model for Slot {
    ghost use Rattle.std.specs.Prelude.{option_map};
    ghost use Rattle.rank_walk.specs.Slots.{SlotData, held, or_zero};

    ghost Value = { SlotData };

    ghost view = { λ s. record { cell = s.cell; moments = option_map (λ k. held k.moments) s.known; below = or_zero (option_map (λ k. k.below) s.known); first = s.first; number = s.number; mine = s.mine; here = s.here; home = s.home; order = s.order } };
}

/// The number of a cell in the order by level and then by first key.
pub(crate) fn order_of(level: u8, first: u128) -> u128
    requires level { level ≤ 32 }
    requires short { first < 2 ^ 96 }
    ensures { result ≡ level * 2 ^ 96 + first }
{
    u128::from(level) * (1 << 96) + first
}

/// The slot of a cell of which a rank is told this.
fn slot_told(cell: Cell, told: Told, order: u128) -> Slot
    ensures { result ≡ slot_told cell told order }
{
    let Told {
        known,
        mine,
        home,
        ..
    } = told;
    let here = known.is_some();
    Slot {
        known,
        cell,
        first: 0,
        number: 0,
        mine,
        here,
        home,
        order,
    }
}

/// The slot of a cell that a rank hears of.
pub(crate) fn slot_of<S: Source>(source: &S, cell: Cell) -> Slot
    requires { SomeSeat (S.serves source.now) (Stands cell) }
    ensures { EachSeat (S.serves source.now) (HearsOf cell result) }
{
    let told = source.told(cell);
    let order = order_of(cell.level, told.first);
    slot_told(cell, told, order)
}

/// What is known of the cell at a place, and whether the rank is its home.
pub(crate) fn known_at(slots: &[Slot], i: usize) -> (Option<&Known>, bool)
    requires { i < length slots.now }
    ensures moments { option_map (λ k. held k.now.moments) result.0 ≡ (slot_at slots.now i).moments }
    ensures here { result.1 ≡ (slot_at slots.now i).here }
{
    let slot = &slots[i];
    (slot.known.as_ref(), slot.here)
}

/// Whether the rank is in the span of the cell at a place.
pub(crate) fn mine_at(slots: &[Slot], i: usize) -> bool
    requires { i < length slots.now }
    ensures { result ≡ (slot_at slots.now i).mine }
{
    let slot = &slots[i];
    slot.mine
}
