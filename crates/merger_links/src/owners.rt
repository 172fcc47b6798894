// Which group has an id.
ghost use Rattle.std.specs.Prelude.{◌≡◌, ◌<◌, ◌++◌, ◌-◌, ◌^◌, List, length, IfOk, OnOk, IfSome, IfNone, IsPermutation, Contains};
ghost use Rattle.std.specs.List.Sorted.{IsNonDecreasingBy};
ghost use Rattle.group_file.specs.Catalogues.{GroupData, IsGood};
ghost use Rattle.merger_links.specs.Owners.{AreOwners, HasNone, IsBetween, IsBound, all_owned, owned, owner_in};

use fixed_point::Memory;
use group_file::Group;
use std::alloc::Global;

/// An id, and the place of the group that has it.
#[derive(Clone, Copy)]
pub(crate) struct Owner {
    pub(crate) id: u64,
    pub(crate) group: u32,
}

// Appends an entry for each of these ids, which are in one group.
fn push_owned(out: &mut Vec<Owner>, ids: &[u64], group: u32) -> Result<(), Memory>
    ensures { OnOk result (out.new.items ≡ out.old.items ++ owned group ids.now) }
{
    for id in ids {
        out.push(Owner { id: *id, group })?;
    }
    Ok(())
}

// Appends an entry for each id of a group.
fn push_group(out: &mut Vec<Owner>, group: &Group, place: u32) -> Result<(), Memory>
    ensures { OnOk result (out.new.items ≡ out.old.items ++ owned place group.now.ids) }
{
    push_owned(out, &group.ids, place)
}

// An entry for each id of each group.
fn owned_of(alloc: Global, groups: &[Group]) -> Result<Vec<Owner>, Memory>
    requires { length groups.now < 2 ^ 32 }
    ensures { IfOk result (λ owners. owners.items ≡ all_owned 0 groups.now) }
{
    let mut owners = Vec::new(alloc);
    for i in 0..groups.len() {
        let group = &groups[i];
        push_group(&mut owners, group, i as u32)?;
    }
    Ok(owners)
}

fn sort(owners: &mut Vec<Owner>)
    ensures permutation { IsPermutation owners.old.items owners.new.items }
    ensures up { IsNonDecreasingBy (λ o. o.id) owners.new.items }
{
    owners.sort_unstable_by_key(|owner| owner.id);
}

/// An entry for each id of each group, ascending in id.
pub(crate) fn owners_of(alloc: Global, groups: &[Group]) -> Result<Vec<Owner>, Memory>
    requires { length groups.now < 2 ^ 32 }
    ensures { IfOk result (λ owners. AreOwners groups.now owners.items) }
{
    let mut owners = owned_of(alloc, groups)?;
    sort(&mut owners);
    Ok(owners)
}

// One half of the entries between two places, that in which those with an id begin.
fn half(owners: &[Owner], id: u64, low: usize, high: usize) -> (usize, usize)
    requires up { IsNonDecreasingBy (λ o. o.id) owners.now }
    requires between { IsBetween owners.now id low high }
    requires some { low < high }
    ensures between { IsBetween owners.now id result.0 result.1 }
    ensures less { result.1 - result.0 < high - low }
{
    let middle = low + (high - low) / 2;
    if owners[middle].id < id {
        return (middle + 1, high);
    }
    (low, middle)
}

// How many entries stand before an id.
fn below(owners: &[Owner], id: u64) -> usize
    requires { IsNonDecreasingBy (λ o. o.id) owners.now }
    ensures { IsBound owners.now id result }
{
    let mut low = 0;
    let mut high = owners.len();
    while low < high {
        let (next, end) = half(owners, id, low, high);
        low = next;
        high = end;
    }
    low
}

// The group of the entry of an id.
fn entry_of(owners: &[Owner], id: u64) -> Option<u32>
    requires { IsNonDecreasingBy (λ o. o.id) owners.now }
    ensures none { IfNone result (HasNone owners.now id) }
    ensures some { IfSome result (λ group. Contains owners.now (record { id = id; group = group })) }
{
    let at = below(owners, id);
    if owners.len() <= at {
        return None;
    }
    if owners[at].id != id {
        return None;
    }
    Some(owners[at].group)
}

/// The place of the group that has an id.
pub(crate) fn owner_of(owners: &[Owner], id: u64) -> Option<u32>
    requires { IsNonDecreasingBy (λ o. o.id) owners.now }
    ensures { (C : List GroupData) → IsGood C → AreOwners C owners.now → result ≡ owner_in C id }
{
    entry_of(owners, id)
}
