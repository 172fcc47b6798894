// Sums by rank and id, handed to the ranks.
ghost use Rattle.std.specs.Prelude.{◌≡◌, ◌<◌, ◌/◌, ◌%◌, ◌^◌, ◌==◌, IfOk, length, slice_index_or};
ghost use Rattle.std.specs.List.{AllByRecursion};
ghost use Rattle.rank_exchange.specs.declared.keyed.Keyed.{Keyed as KeyedData};
ghost use Rattle.rank_exchange.specs.Keyed.{Climbs, keys_in, sum_at};
ghost use Rattle.rank_exchange.specs.Handed.{IsPlace, given_at, handed_to};

use crate::contents::Given;
use crate::keyed::Keyed;
use fixed_point::{Memory, V3};
use std::alloc::Global;

/// The sum for the id in a key.
fn given_at(entry: &Keyed) -> Given
    ensures { result ≡ given_at entry.now }
{
    Given {
        id: (entry.key % (1 << 64)) as u64,
        sum: entry.sum,
    }
}

/// The sums of a rank, with the ids in their keys.
pub(crate) fn handed_to(alloc: Global, entries: &[Keyed], to: u16) -> Result<Vec<Given>, Memory>
    ensures { IfOk result (λ parts. parts.items ≡ handed_to entries.now to) }
{
    let mut parts = Vec::new(alloc);
    for entry in entries {
        if entry.key / (1 << 64) == to as u128 {
            parts.push(given_at(entry))?;
        }
    }
    Ok(parts)
}

/// The key and the sum at a place.
fn entry_at(entries: &[Keyed], i: usize) -> Keyed
    requires { i < length entries.now }
    ensures { (d : KeyedData) → result ≡ slice_index_or entries.now i d }
{
    entries[i]
}

/// The place of the first key that isn't below a key.
#[tactic(auto, using(crate::proofs::HandedOut::climbs_at))]
fn place_of(entries: &[Keyed], key: u128) -> usize
    requires { Climbs (keys_in entries.now) }
    ensures { IsPlace entries.now key result }
{
    let mut low = 0;
    let mut high = entries.len();
    while low < high {
        let middle = low + (high - low) / 2;
        if entry_at(entries, middle).key < key {
            low = middle + 1;
        } else {
            high = middle;
        }
    }
    low
}

/// The sum at a key, among ascending keys.
pub(crate) fn sum_at(entries: &[Keyed], key: u128) -> V3
    requires { Climbs (keys_in entries.now) }
    ensures { result ≡ sum_at key entries.now }
{
    let at = place_of(entries, key);
    if at == entries.len() {
        return V3::ZERO;
    }
    let entry = entry_at(entries, at);
    if entry.key == key {
        return entry.sum;
    }
    V3::ZERO
}
