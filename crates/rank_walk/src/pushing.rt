// Pairs on a stack, the last first.
ghost use Rattle.std.specs.Prelude.{◌≡◌, ◌≤◌, ◌<◌, ◌∷◌, [], length, OnOk};
ghost use Rattle.rank_walk.specs.Slots.{both, from_to, put_on, row, same, two};

use crate::places::{Places, Stack};
use crate::slot::{Slot, mine_at};
use fixed_point::Memory;
use std::alloc::Global;

/// Puts a pair on the stack if the rank is concerned with it.
fn push_met(slots: &[Slot], stack: &mut Stack, a: u32, b: u32) -> Result<(), Memory>
    requires first { a < length slots.now }
    requires second { b < length slots.now }
    ensures { OnOk result (stack.new.items ≡ put_on slots.now stack.old.items (two a b ∷ [])) }
{
    if mine_at(slots, a as usize) || mine_at(slots, b as usize) {
        stack.push(Places { a, b })?;
    }
    Ok(())
}

/// Puts the pairs of a place with each from one to another on the stack.
fn push_row(slots: &[Slot], stack: &mut Stack, a: u32, from: u32, to: u32) -> Result<(), Memory>
    requires first { a < length slots.now }
    requires up { from ≤ to }
    requires within { to ≤ length slots.now }
    ensures { OnOk result (stack.new.items ≡ put_on slots.now stack.old.items (row a (from_to from to))) }
{
    let mut b = to;
    while b > from {
        b -= 1;
        push_met(slots, stack, a, b)?;
    }
    Ok(())
}

/// Puts the pairs of the places of two ranges on the stack.
pub(crate) fn push_both(
    slots: &[Slot],
    stack: &mut Stack,
    first: (u32, u32),
    second: (u32, u32),
) -> Result<(), Memory>
    requires up_first { first.0 ≤ first.1 }
    requires within_first { first.1 ≤ length slots.now }
    requires up_second { second.0 ≤ second.1 }
    requires within_second { second.1 ≤ length slots.now }
    ensures { OnOk result (stack.new.items ≡ put_on slots.now stack.old.items (both (from_to first.0 first.1) (from_to second.0 second.1))) }
{
    let mut a = first.1;
    while a > first.0 {
        a -= 1;
        push_row(slots, stack, a, second.0, second.1)?;
    }
    Ok(())
}

/// Puts the unordered pairs of the places of a range_with_len on the stack, equal ones included.
pub(crate) fn push_same(slots: &[Slot], stack: &mut Stack, from: u32, to: u32) -> Result<(), Memory>
    requires up { from ≤ to }
    requires within { to ≤ length slots.now }
    ensures { OnOk result (stack.new.items ≡ put_on slots.now stack.old.items (same (from_to from to))) }
{
    let mut a = to;
    while a > from {
        a -= 1;
        push_row(slots, stack, a, a + 1, to)?;
        push_met(slots, stack, a, a)?;
    }
    Ok(())
}
