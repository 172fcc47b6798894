// The members of each group as a chain of places.
ghost use Rattle.std.specs.Prelude.{◌≡◌, ◌<◌, ◌≤◌, ◌+◌, length, OnOk, IfOk};
ghost use Rattle.groups.specs.Groups.{members};
ghost use Rattle.groups.specs.Chains.{AreBelow, AreChains};

use fixed_point::Memory;
use std::alloc::Global;

/// For each head its first member, and for each place the next one with its head; the number of places ends a chain.
#[derive(Drop)]
pub(crate) struct Chains {
    first: Vec<u32>,
    next: Vec<u32>,
}

// Puts a place before the chain of its head.
fn link(heads: &[u32], k: usize, first: &mut [u32], next: &mut [u32])
    requires few { length heads.now ≤ 1048576 }
    requires at { k < length heads.now }
    requires below { AreBelow heads.now }
    requires chains { AreChains heads.now (k + 1) first.old next.old }
    ensures { AreChains heads.now k first.new next.new }
{
    let head = heads[k] as usize;
    next[k] = first[head];
    first[head] = k as u32;
}

/// The chains of all heads, from the last place to the first.
pub(crate) fn chains_of(alloc: Global, heads: &[u32]) -> Result<Chains, Memory>
    requires few { length heads.now ≤ 1048576 }
    requires below { AreBelow heads.now }
    ensures { IfOk result (λ chains. AreChains heads.now 0 chains.first.items chains.next.items) }
{
    let n = heads.len();
    let mut first = vec![in alloc; n as u32; n]?;
    let mut next = vec![in alloc; n as u32; n]?;
    let mut k = n;
    while k > 0 {
        k -= 1;
        link(heads, k, &mut first, &mut next);
    }
    Ok(Chains { first, next })
}

/// Makes `list` the members of a head.
pub(crate) fn follow(
    heads: &[u32],
    chains: &Chains,
    p: usize,
    list: &mut Vec<u32>,
) -> Result<(), Memory>
    requires at { p < length heads.now }
    requires chains { AreChains heads.now 0 chains.now.first.items chains.now.next.items }
    ensures { OnOk result (list.new.items ≡ members heads.now p) }
{
    list.clear();
    let mut place = chains.first[p];
    while (place as usize) < heads.len() {
        list.push(place)?;
        place = chains.next[place as usize];
    }
    Ok(())
}
