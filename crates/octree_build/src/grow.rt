// A tree's cells, level by level, each with the range of its members.
ghost use Rattle.std.specs.Prelude.{◌≡◌, ◌≤◌, ◌<◌, ◌+◌, ◌*◌, ◌++◌, length, map, nat_lt, OnOk, IfOk, ℕ, ◌-◌, ◌/◌, ◌==◌, slice_index_or, []};
ghost use Rattle.std.specs.List.{count_by};
ghost use Rattle.cell_space.specs.Cells.{CellData};
ghost use Rattle.hilbert_keys.specs.Curve.{IsCell, first_key, keys_in, number_of};
ghost use Rattle.octree_build.specs.Trees.{Rises, low_of, high_of, key_at, opened};
ghost use Rattle.nbody_model.specs.Nodes.{positions_of};
ghost use Rattle.octree_build.specs.Slots.{PutsChild, AreKeyed, IsGrowing, IsGrowth, IsStep, IsNode, SlotData, slot_of, IsChildAt, IsToOpen, keys_below, slots_below};

use cell_space::{Cell, cell_of};
use fixed_point::Memory;
use hilbert_keys::keys_in;
use nbody_model::Body;
use std::alloc::Global;
use std::marker::Model;

/// A cell, and where its members begin and end among the bodies.
#[derive(Clone, Copy)]
pub(crate) struct Slot {
    pub(crate) cell: Cell,
    pub(crate) low: usize,
    pub(crate) high: usize,
}

impl Model for Slot {
    ghost use Rattle.octree_build.specs.Slots.{SlotData};

    ghost Value = { SlotData };

    ghost view = { λ s. record { cell = s.cell; low = s.low; high = s.high } };

    ghost inverse = { λ v. record { cell = v.cell; low = v.low; high = v.high } };
}

/// From a place on, the first whose key isn't below a bound.
#[tactic(auto, using(crate::proofs::Edges::goes_on, crate::proofs::Edges::stops))]
fn end_of(keys: &[u128], from: usize, high: usize, bound: u128) -> usize
    requires order { Rises (λ k. k) keys.now }
    requires from { from ≤ keys_below keys.now bound }
    requires high { keys_below keys.now bound ≤ high }
    requires within { high ≤ length keys.now }
    ensures { result ≡ keys_below keys.now bound }
{
    let mut end = from;
    while end < high && keys[end] < bound {
        end += 1;
    }
    end
}

/// Lists a cell of a level, if it has members: those from a place on whose keys are below a bound. Where they end.
fn push_child(
    keys: &[u128],
    bodies: &[Body],
    level: u8,
    at: usize,
    high: usize,
    bound: u128,
    out: &mut Vec<Slot>,
) -> Result<usize, Memory>
    requires keyed { AreKeyed keys.now bodies.now }
    requires child { (d : CellData) × IsChildAt bodies.now level at bound d }
    requires high { keys_below keys.now bound ≤ high }
    requires within { high ≤ length bodies.now }
    ensures { (d : CellData) → IsChildAt bodies.now level at bound d → IfOk result (λ end. PutsChild bodies.now out.old.items d end out.new.items) }
{
    let end = end_of(keys, at, high, bound);
    if at == end {
        return Ok(end);
    }
    let body = &bodies[at];
    out.push(Slot {
        cell: cell_of(body.motion.pos(), level),
        low: at,
        high: end,
    })?;
    Ok(end)
}

/// Lists the children of a cell that have members, in the order of the curve.
fn push_children(
    keys: &[u128],
    bodies: &[Body],
    level: u8,
    low: usize,
    high: usize,
    from: u128,
    out: &mut Vec<Slot>,
) -> Result<(), Memory>
    requires keyed { AreKeyed keys.now bodies.now }
    requires level { level < 32 }
    requires cell { (c : CellData) × IsToOpen bodies.now level low high from c }
    requires within { high ≤ length bodies.now }
    ensures { (c : CellData) → IsToOpen bodies.now level low high from c → OnOk result (out.new.items ≡ out.old.items ++ slots_below bodies.now c) }
{
    let width = keys_in(level + 1);
    let mut at = low;
    let mut bound = from;
    for _place in 0..8u8 {
        bound += width;
        at = push_child(keys, bodies, level + 1, at, high, bound, out)?;
    }
    Ok(())
}

/// What stands in a slot.
pub(crate) fn read(slots: &[Slot], i: usize) -> (Cell, usize, usize)
    requires { i < length slots.now }
    ensures { (x : SlotData) × (x ≡ slice_index_or slots.now i x) × (result.0 ≡ x.cell) × (result.1 ≡ x.low) × (result.2 ≡ x.high) }
{
    let slot = &slots[i];
    (slot.cell, slot.low, slot.high)
}

/// Whether a range has one key.
fn has_one_key(keys: &[u128], low: usize, high: usize) -> bool
    requires some { low < high }
    requires within { high ≤ length keys.now }
    ensures { (d : ℕ) → result ≡ (slice_index_or keys.now low d == slice_index_or keys.now (high - 1) d) }
{
    keys[low] == keys[high - 1]
}

/// The least key of the cell of a level around the key at a place.
#[tactic(auto, using(crate::proofs::Opened::whole_part))]
fn least_key(keys: &[u128], low: usize, level: u8) -> u128
    requires place { low < length keys.now }
    requires level { level ≤ 32 }
    ensures { (d : ℕ) → result ≡ slice_index_or keys.now low d / keys_in level * keys_in level }
{
    let width = keys_in(level);
    keys[low] / width * width
}

/// Lists the children of a cell that have members; a leaf has none.
fn open_cell(
    keys: &[u128],
    bodies: &[Body],
    slots: &mut Vec<Slot>,
    cell: Cell,
    low: usize,
    high: usize,
) -> Result<(), Memory>
    requires keyed { AreKeyed keys.now bodies.now }
    requires node { IsNode (positions_of bodies.now) cell }
    requires low { low ≡ low_of bodies.now cell }
    requires high { high ≡ high_of bodies.now cell }
    ensures { OnOk result (slots.new.items ≡ slots.old.items ++ map (slot_of bodies.now) (opened (positions_of bodies.now) cell)) }
{
    if has_one_key(keys, low, high) {
        return Ok(());
    }
    let level = cell.level;
    let from = least_key(keys, low, level);
    push_children(keys, bodies, level, low, high, from, slots)
}

/// Opens the cell at a place.
fn open_at(keys: &[u128], bodies: &[Body], slots: &mut Vec<Slot>, i: usize) -> Result<(), Memory>
    requires keyed { AreKeyed keys.now bodies.now }
    requires growing { IsGrowing bodies.now slots.now.items i }
    requires place { i < length slots.now.items }
    ensures { OnOk result (IsStep bodies.now slots.old.items slots.new.items i) }
{
    let (cell, low, high) = read(slots, i);
    open_cell(keys, bodies, slots, cell, low, high)
}

/// Opens the cells of a tree, from the root on: the root, and then the children of each cell in turn. It tells where the
/// children of each cell begin.
fn open_all(
    keys: &[u128],
    bodies: &[Body],
    slots: &mut Vec<Slot>,
    firsts: &mut Vec<usize>,
) -> Result<(), Memory>
    requires keyed { AreKeyed keys.now bodies.now }
    requires growing { IsGrowing bodies.now slots.now.items 0 }
    requires none { firsts.now.items ≡ [] }
    ensures { OnOk result (IsGrowth bodies.now slots.new.items firsts.new.items) }
{
    let mut i = 0;
    while i < slots.len() {
        firsts.push(slots.len())?;
        open_at(keys, bodies, slots, i)?;
        i += 1;
    }
    Ok(())
}

/// Lists the root, if there is a body.
fn push_root(keys: &[u128], bodies: &[Body], slots: &mut Vec<Slot>) -> Result<(), Memory>
    requires empty { slots.now.items ≡ [] }
    requires keyed { AreKeyed keys.now bodies.now }
    ensures { OnOk result (IsGrowing bodies.now slots.new.items 0) }
{
    if bodies.is_empty() {
        return Ok(());
    }
    slots.push(Slot {
        cell: Cell::root(),
        low: 0,
        high: bodies.len(),
    })?;
    Ok(())
}

/// The cells of a tree, each with the range of its members, and where the children of each begin.
#[derive(Drop)]
pub(crate) struct Growth {
    pub slots: Vec<Slot>,
    pub firsts: Vec<usize>,
}

/// The cells of the tree of these bodies. There is room at first for one and a half for each body.
pub(crate) fn grow(alloc: Global, keys: &[u128], bodies: &[Body]) -> Result<Growth, Memory>
    requires keyed { AreKeyed keys.now bodies.now }
    requires few { length bodies.now ≤ 1048576 }
    ensures { IfOk result (λ all. IsGrowth bodies.now all.slots.items all.firsts.items) }
{
    let room = bodies.len() + bodies.len() / 2;
    let mut slots = Vec::with_capacity(alloc, room)?;
    let mut firsts = Vec::with_capacity(alloc, room)?;
    push_root(keys, bodies, &mut slots)?;
    open_all(keys, bodies, &mut slots, &mut firsts)?;
    Ok(Growth { slots, firsts })
}
