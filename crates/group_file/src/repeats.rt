// Ids that stand in two groups.
ghost use Rattle.std.specs.Prelude.{◌≡◌, ◌++◌, ◌≤◌, ℕ, length, IfSome, IfNone, IfOk, OnOk, IsPermutation};
ghost use Rattle.std.specs.List.Sorted.{IsNonDecreasing};
ghost use Rattle.group_file.specs.Catalogues.{all_ids, times};
ghost use Rattle.group_file.specs.GroupFile.{repeated_in};
ghost use Rattle.group_file.specs.Repeats.{IsLeastRepeated};

use crate::Group;
use fixed_point::Memory;
use std::alloc::Global;

// Appends the ids of a group.
fn push_ids(out: &mut Vec<u64>, group: &Group) -> Result<(), Memory>
    ensures { OnOk result (out.new.items ≡ out.old.items ++ group.now.ids) }
{
    out.extend_from_slice(&group.ids)?;
    Ok(())
}

// The ids of all groups.
fn ids_of(alloc: Global, groups: &[Group]) -> Result<Vec<u64>, Memory>
    ensures { IfOk result (λ ids. ids.items ≡ all_ids groups.now) }
{
    let mut ids = Vec::new(alloc);
    for i in 0..groups.len() {
        let group = &groups[i];
        push_ids(&mut ids, group)?;
    }
    Ok(ids)
}

fn sort(ids: &mut Vec<u64>)
    ensures permutation { IsPermutation ids.old.items ids.new.items }
    ensures up { IsNonDecreasing ids.new.items }
{
    ids.sort_unstable();
}

// The first id that equals the one before it.
fn first_repeated(ids: &[u64]) -> Option<u64>
    requires { IsNonDecreasing ids.now }
    ensures none { IfNone result ((id : ℕ) → times id ids.now ≤ 1) }
    ensures some { IfSome result (IsLeastRepeated ids.now) }
{
    for i in 1..ids.len() {
        if ids[i - 1] == ids[i] {
            return Some(ids[i]);
        }
    }
    None
}

/// The least id that stands in two groups.
pub(crate) fn repeated_in(alloc: Global, groups: &[Group]) -> Result<Option<u64>, Memory>
    ensures { IfOk result (λ id. id ≡ repeated_in groups.now) }
{
    let mut ids = ids_of(alloc, groups)?;
    sort(&mut ids);
    Ok(first_repeated(&ids))
}
