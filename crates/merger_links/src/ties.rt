// Which group shares the most ids with another.
ghost use Rattle.std.specs.Prelude.{◌≡◌, ◌<◌, ◌≤◌, ◌+◌, ◌++◌, ◌-◌, ◌^◌, List, [], length, get_or, take, IfOk, OnOk};
ghost use Rattle.std.specs.List.{cons_option, filter_map};
ghost use Rattle.std.specs.List.Sorted.{IsNonDecreasing, IsNonDecreasingBy, IsPermutation};
ghost use Rattle.group_file.specs.Catalogues.{GroupData, IsGood, times};
ghost use Rattle.merger_links.specs.Owners.{AreOwners, owner_in};
ghost use Rattle.merger_links.specs.Ties.{AreTies, IsMostOften, IsTie};

use crate::owners::{Owner, owner_of, owners_of};
use fixed_point::Memory;
use group_file::Group;
use std::alloc::Global;

/// A group of another catalogue, by its place, and how many ids it shares; where that is 0, there is none.
#[derive(Clone, Copy)]
pub(crate) struct Tie {
    pub(crate) group: u32,
    pub(crate) shared: u64,
}

// Appends the place of the group that has an id, if there is one.
fn push_owner(owners: &[Owner], id: u64, found: &mut Vec<u32>) -> Result<(), Memory>
    requires { IsNonDecreasingBy (λ o. o.id) owners.now }
    ensures { (D : List GroupData) → IsGood D → AreOwners D owners.now → OnOk result (found.new.items ≡ found.old.items ++ cons_option (owner_in D id) []) }
{
    match owner_of(owners, id) {
        Some(group) => {
            found.push(group)?;
            Ok(())
        }
        None => Ok(()),
    }
}

// Appends the places of the groups that have these ids.
fn find_all(owners: &[Owner], ids: &[u64], found: &mut Vec<u32>) -> Result<(), Memory>
    requires { IsNonDecreasingBy (λ o. o.id) owners.now }
    ensures { (D : List GroupData) → IsGood D → AreOwners D owners.now → OnOk result (found.new.items ≡ found.old.items ++ filter_map (owner_in D) ids.now) }
{
    for i in 0..ids.len() {
        push_owner(owners, ids[i], found)?;
    }
    Ok(())
}

fn sort(found: &mut Vec<u32>)
    ensures permutation { IsPermutation found.old.items found.new.items }
    ensures up { IsNonDecreasing found.new.items }
{
    found.sort_unstable();
}

// How often the number at a place stands up to there, where the one before stands `run` times.
fn next_run(sorted: &[u32], i: usize, run: u64) -> u64
    requires up { IsNonDecreasing sorted.now }
    requires at { i < length sorted.now }
    requires run { 1 ≤ i → run ≡ times (get_or sorted.now (i - 1) 0) (take i sorted.now) }
    requires small { run ≤ i }
    ensures value { result ≡ times (get_or sorted.now i 0) (take (i + 1) sorted.now) }
    ensures small { result ≤ i + 1 }
{
    if i == 0 {
        return 1;
    }
    if sorted[i - 1] == sorted[i] {
        return run + 1;
    }
    1
}

// The better of two, the first where they share as many.
fn better(best: Tie, group: u32, shared: u64) -> Tie
    ensures more { best.shared < shared → result ≡ record { group = group; shared = shared } }
    ensures same { shared ≤ best.shared → result ≡ best }
{
    if best.shared < shared {
        return Tie { group, shared };
    }
    best
}

// The number that stands most often among ascending ones, of equals the least, and how often.
fn most_often(sorted: &[u32]) -> Tie
    requires { IsNonDecreasing sorted.now }
    ensures { IsMostOften sorted.now result }
{
    let mut best = Tie {
        group: 0,
        shared: 0,
    };
    let mut run = 0;
    for i in 0..sorted.len() {
        run = next_run(sorted, i, run);
        best = better(best, sorted[i], run);
    }
    best
}

// The group that shares the most of these ids, and how many.
fn tie_by(owners: &[Owner], ids: &[u64], found: &mut Vec<u32>) -> Result<Tie, Memory>
    requires { IsNonDecreasingBy (λ o. o.id) owners.now }
    ensures { (D : List GroupData) → IsGood D → AreOwners D owners.now → IfOk result (IsMostOften (filter_map (owner_in D) ids.now)) }
{
    found.clear();
    find_all(owners, ids, found)?;
    sort(found);
    Ok(most_often(found))
}

// The tie of a group.
fn tie_of(owners: &[Owner], group: &Group, found: &mut Vec<u32>) -> Result<Tie, Memory>
    requires { IsNonDecreasingBy (λ o. o.id) owners.now }
    ensures { (D : List GroupData) → IsGood D → AreOwners D owners.now → IfOk result (IsTie D group.now) }
{
    let tie = tie_by(owners, &group.ids, found)?;
    Ok(tie)
}

/// The tie of each group of the first catalogue to those of the second.
pub(crate) fn ties_of(alloc: Global, first: &[Group], second: &[Group]) -> Result<Vec<Tie>, Memory>
    requires good { IsGood second.now }
    requires few { length second.now < 2 ^ 32 }
    ensures { IfOk result (λ ties. AreTies first.now second.now (length first.now) ties.items) }
{
    let owners = owners_of(alloc, second)?;
    let mut found = Vec::new(alloc);
    let mut ties = Vec::with_capacity(alloc, first.len())?;
    for i in 0..first.len() {
        let group = &first[i];
        let tie = tie_of(&owners, group, &mut found)?;
        ties.push(tie)?;
    }
    Ok(ties)
}
