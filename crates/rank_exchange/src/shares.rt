// The totals of cells, shared among their members.
ghost use Rattle.std.specs.Prelude.{◌≡◌, ◌≤◌, ◌<◌, ◌+◌, ◌-◌, ◌*◌, ◌%◌, ◌^◌, ◌++◌, [], ℕ, List, IfOk, OnOk, length, map, slice_index_or, unsigned_abs, ℤ};
ghost use Rattle.std.specs.List.{AllByRecursion};
ghost use Rattle.std.specs.List.Sorted.{IsPermutation};
ghost use Rattle.fixed_point.specs.Vectors.{IsBelow};
ghost use Rattle.octree_build.specs.Trees.{Rises};
ghost use Rattle.octree_build.specs.Slots.{keys_below};
ghost use Rattle.force_sharing.specs.Sharing.{AreMembers, shares_of};
ghost use Rattle.rank_laws.specs.Contents.{Summed as SummedData};
ghost use Rattle.rank_exchange.specs.Sums.{Climbs, cells_in, place_of};
ghost use Rattle.rank_exchange.specs.declared.shares.Kept.{Kept as KeptData};
ghost use Rattle.rank_exchange.specs.Shares.{AreNumbers, AreSorted, HaveIds, IsNumberOf, MayShare, index_of, kept_at, member_at, number_of, numbered, places_in, share_at, shared_at, shared_in, shares_by, Puts, AreWithin};

use crate::contents::{Listed, Summed};
use crate::keyed::Keyed;
use crate::sums::place_of;
use cell_space::Cell;
use domain_split::count_below;
use fixed_point::{Memory, V3};
use force_sharing::{Scratch, share};
use std::alloc::Global;

/// A member of a cell, and the rank from which it came.
#[derive(Clone, Copy)]
pub(crate) struct Kept {
    pub(crate) from: u16,
    pub(crate) entry: Listed,
}

/// Room for the members of a cell and their shares on each axis.
#[derive(Drop)]
struct Room {
    members: Vec<(u64, u32)>,
    x: Vec<i128>,
    y: Vec<i128>,
    z: Vec<i128>,
    scratch: Scratch,
}

/// The place of the cell of a total in the order of cells.
fn place_at(totals: &[Summed], i: usize) -> u128
    requires { i < length totals.now }
    ensures { (d : SummedData) → result ≡ place_of (slice_index_or totals.now i d).cell }
{
    let total = &totals[i];
    place_of(&total.cell)
}

/// The total at a place.
fn total_at(totals: &[Summed], i: usize) -> V3
    requires { i < length totals.now }
    ensures { (d : SummedData) → result ≡ (slice_index_or totals.now i d).sum }
{
    let total = &totals[i];
    total.sum
}

/// The places of the cells of totals in the order of cells.
fn places_of(alloc: Global, totals: &[Summed]) -> Result<Vec<u128>, Memory>
    ensures { IfOk result (λ places. places.items ≡ places_in totals.now) }
{
    let mut places = Vec::with_capacity(alloc, totals.len())?;
    for i in 0..totals.len() {
        places.push(place_at(totals, i))?;
    }
    Ok(places)
}

/// The cell and the id of the member at a place.
fn parts_at(kept: &[Kept], i: usize) -> (Cell, u64)
    requires { i < length kept.now }
    ensures cell { (d : KeptData) → result.0 ≡ (slice_index_or kept.now i d).entry.cell }
    ensures id { (d : KeptData) → result.1 ≡ (slice_index_or kept.now i d).entry.member.0 }
{
    let entry = &kept[i].entry;
    (entry.cell, entry.id)
}

/// The number of the member at a place.
fn number_at(places: &[u128], kept: &[Kept], i: usize) -> u128
    requires rises { Rises (λ k. k) places.now }
    requires few { length places.now < 2 ^ 32 }
    requires long { length kept.now < 2 ^ 32 }
    requires place { i < length kept.now }
    ensures value { (ts : List SummedData) (d : KeptData) → places.now ≡ places_in ts → result ≡ number_of ts i (slice_index_or kept.now i d) }
    ensures id { (d : KeptData) → (slice_index_or kept.now i d).entry.member.0 < 2 ^ 64 }
{
    let (cell, id) = parts_at(kept, i);
    let index = count_below(places, place_of(&cell));
    index as u128 * (1 << 96) + (id as u128 * (1 << 32) + i as u128)
}

/// The numbers of all members.
fn numbers_of(alloc: Global, places: &[u128], kept: &[Kept]) -> Result<Vec<u128>, Memory>
    requires rises { Rises (λ k. k) places.now }
    requires few { length places.now < 2 ^ 32 }
    requires long { length kept.now < 2 ^ 32 }
    ensures { (ts : List SummedData) → places.now ≡ places_in ts → IfOk result (λ numbers. AreNumbers ts kept.now numbers.items) }
{
    let mut numbers = Vec::with_capacity(alloc, kept.len())?;
    for i in 0..kept.len() {
        numbers.push(number_at(places, kept, i))?;
    }
    Ok(numbers)
}

/// The member of a number.
fn kept_at(kept: &[Kept], number: u128) -> Kept
    requires { number % 2 ^ 32 < length kept.now }
    ensures { (d : KeptData) → result ≡ kept_at kept.now d number }
{
    kept[(number % (1 << 32)) as usize]
}

/// Id and mass of a member.
fn member_of(kept: &Kept) -> (u64, u32)
    ensures { result ≡ kept.now.entry.member }
{
    let entry = &kept.entry;
    (entry.id, entry.mass)
}

/// The members of some numbers.
fn list(kept: &[Kept], numbers: &[u128], members: &mut Vec<(u64, u32)>) -> Result<(), Memory>
    requires { AreWithin (length kept.now) numbers.now }
    ensures { (d : KeptData) → OnOk result (members.new.items ≡ map (member_at kept.now d) numbers.now) }
{
    members.clear();
    for number in numbers {
        members.push(member_of(&kept_at(kept, *number)))?;
    }
    Ok(())
}

/// The shares of some members on one axis.
fn share_axis(
    total: i128,
    members: &[(u64, u32)],
    out: &mut Vec<i128>,
    scratch: &mut Scratch,
) -> Result<(), Memory>
    requires members { AreMembers members.now }
    requires small { unsigned_abs total < 2 ^ 112 }
    requires room { length members.now ≤ scratch.old }
    ensures shares { OnOk result (out.new.items ≡ shares_of members.now total) }
    ensures room { scratch.new ≡ scratch.old }
{
    out.resize(members.len(), 0)?;
    share(total, members, out, scratch);
    Ok(())
}

/// A share with its key: the rank from which the member came, and its id below it.
fn keyed(kept: &Kept, sum: V3) -> Keyed
    ensures { result ≡ record { key = kept.now.from * 2 ^ 64 + kept.now.entry.member.0; sum = sum } }
{
    let entry = &kept.entry;
    Keyed {
        key: kept.from as u128 * (1 << 64) + entry.id as u128,
        sum,
    }
}

/// The number at a place.
fn number_in(numbers: &[u128], i: usize) -> u128
    requires { i < length numbers.now }
    ensures { (d : ℕ) → result ≡ slice_index_or numbers.now i d }
{
    numbers[i]
}

/// The whole number at a place.
fn axis_at(axis: &[i128], i: usize) -> i128
    requires { i < length axis.now }
    ensures { (d : ℤ) → result ≡ slice_index_or axis.now i d }
{
    axis[i]
}

/// The vector of the numbers at a place.
fn vector_at(x: &[i128], y: &[i128], z: &[i128], i: usize) -> V3
    requires within_x { i < length x.now }
    requires within_y { i < length y.now }
    requires within_z { i < length z.now }
    ensures { (d : ℤ) → result ≡ record { x = slice_index_or x.now i d; y = slice_index_or y.now i d; z = slice_index_or z.now i d } }
{
    let on_x = axis_at(x, i);
    let on_y = axis_at(y, i);
    let on_z = axis_at(z, i);
    V3 {
        x: on_x,
        y: on_y,
        z: on_z,
    }
}

/// Puts the shares of the members of some numbers behind a list.
fn push_shares(
    kept: &[Kept],
    numbers: &[u128],
    x: &[i128],
    y: &[i128],
    z: &[i128],
    out: &mut Vec<Keyed>,
) -> Result<(), Memory>
    requires within { AreWithin (length kept.now) numbers.now }
    requires long_x { length x.now ≡ length numbers.now }
    requires long_y { length y.now ≡ length numbers.now }
    requires long_z { length z.now ≡ length numbers.now }
    ensures { OnOk result (Puts kept.now numbers.now x.now y.now z.now out.old.items out.new.items) }
{
    for i in 0..numbers.len() {
        let member = kept_at(kept, number_in(numbers, i));
        out.push(keyed(&member, vector_at(x, y, z, i)))?;
    }
    Ok(())
}

/// Puts the shares of the members of a cell, which have these numbers, in its total behind a list.
fn share_cell(
    total: V3,
    kept: &[Kept],
    numbers: &[u128],
    room: &mut Room,
    out: &mut Vec<Keyed>,
) -> Result<(), Memory>
    requires within { AreWithin (length kept.now) numbers.now }
    requires members { (d : KeptData) → AreMembers (map (member_at kept.now d) numbers.now) }
    requires small { IsBelow (2 ^ 112) total }
    requires scratch { length numbers.now ≤ room.old.scratch }
    ensures shares { (d : KeptData) → OnOk result (out.new.items ≡ out.old.items ++ shares_by kept.now d total numbers.now) }
    ensures room { room.new.scratch ≡ room.old.scratch }
{
    list(kept, numbers, &mut room.members)?;
    share_axis(total.x, &room.members, &mut room.x, &mut room.scratch)?;
    share_axis(total.y, &room.members, &mut room.y, &mut room.scratch)?;
    share_axis(total.z, &room.members, &mut room.z, &mut room.scratch)?;
    push_shares(kept, numbers, &room.x, &room.y, &room.z, out)?;
    Ok(())
}

/// Where the numbers of the cell at a place end, which begin at `low`.
#[tactic(auto, using(crate::proofs::Groups::end_follows, crate::proofs::Parted::below_few))]
fn end_of(numbers: &[u128], k: usize, low: usize) -> usize
    requires rises { Rises (λ n. n) numbers.now }
    requires few { k + 1 < 2 ^ 32 }
    requires low { low ≡ keys_below numbers.now (k * 2 ^ 96) }
    ensures value { result ≡ keys_below numbers.now ((k + 1) * 2 ^ 96) }
    ensures order { low ≤ result }
    ensures within { result ≤ length numbers.now }
{
    count_below(numbers, (k as u128 + 1) * (1 << 96))
}

/// Shares each total among the members of its cell.
fn share_all(
    totals: &[Summed],
    kept: &[Kept],
    numbers: &[u128],
    room: &mut Room,
    out: &mut Vec<Keyed>,
) -> Result<(), Memory>
    requires may { MayShare totals.now kept.now }
    requires sorted { AreSorted totals.now kept.now numbers.now }
    requires few { length totals.now < 2 ^ 32 }
    requires long { length kept.now < 2 ^ 32 }
    requires scratch { length kept.now ≤ room.old.scratch }
    requires none { out.old.items ≡ [] }
    ensures { (d : KeptData) → OnOk result (out.new.items ≡ map (shared_at totals.now kept.now d) numbers.now) }
{
    let mut low = 0;
    for k in 0..totals.len() {
        let high = end_of(numbers, k, low);
        share_cell(total_at(totals, k), kept, &numbers[low..high], room, out)?;
        low = high;
    }
    Ok(())
}

/// The numbers of all members, ascending.
fn sorted_numbers(alloc: Global, totals: &[Summed], kept: &[Kept]) -> Result<Vec<u128>, Memory>
    requires climbs { Climbs (cells_in totals.now) }
    requires few { length totals.now < 2 ^ 32 }
    requires long { length kept.now < 2 ^ 32 }
    ensures { IfOk result (λ numbers. AreSorted totals.now kept.now numbers.items) }
{
    let places = places_of(alloc, totals)?;
    let mut numbers = numbers_of(alloc, &places, kept)?;
    numbers.sort()?;
    Ok(numbers)
}

/// The shares of all members in the totals of their cells, in some order. More than 2^32 totals or members are answered as want
/// of memory.
pub(crate) fn shares_of(
    alloc: Global,
    totals: &[Summed],
    kept: &[Kept],
) -> Result<Vec<Keyed>, Memory>
    requires { MayShare totals.now kept.now }
    ensures shares { IfOk result (λ shares. IsPermutation (map (shared_in totals.now kept.now) kept.now) shares.items) }
    ensures ids { OnOk result (HaveIds kept.now) }
{
    if totals.len() > 0xFFFF_FFFF {
        return Err(Memory);
    }
    if kept.len() > 0xFFFF_FFFF {
        return Err(Memory);
    }
    let numbers = sorted_numbers(alloc, totals, kept)?;
    let mut room = Room {
        members: Vec::new(alloc),
        x: Vec::new(alloc),
        y: Vec::new(alloc),
        z: Vec::new(alloc),
        scratch: Scratch::with_room(alloc, kept.len())?,
    };
    let mut out = Vec::with_capacity(alloc, kept.len())?;
    share_all(totals, kept, &numbers, &mut room, &mut out)?;
    Ok(out)
}
