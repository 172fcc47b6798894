// Vectors with keys, added up key by key.
ghost use Rattle.std.specs.Prelude.{◌≡◌, ◌≤◌, ◌<◌, ◌^◌, ◌++◌, ◌∷◌, [], List, IfOk, length, slice_index_or};
ghost use Rattle.std.specs.List.{AllByRecursion};
ghost use Rattle.fixed_point.specs.Vectors.{FitsEach, plus};
ghost use Rattle.rank_exchange.specs.declared.keyed.Keyed.{Keyed as KeyedData};
ghost use Rattle.rank_exchange.specs.Keyed.{AreSums, AreUpTo, IsAdded, IsAddedWith, IsLight, IsRising, StaysLight, extent_at, joined};

use fixed_point::{Memory, V3};
use std::alloc::Global;

/// A vector with a key.
#[derive(Clone, Copy)]
pub(crate) struct Keyed {
    pub(crate) key: u128,
    pub(crate) sum: V3,
}

/// What two vectors of one key come to.
fn joined(a: Keyed, b: Keyed) -> Keyed
    requires { FitsEach (plus a.sum b.sum) }
    ensures { result ≡ joined a b }
{
    Keyed {
        key: a.key,
        sum: a.sum.plus(b.sum),
    }
}

/// Adds a vector to the last sum, or, where it is of the next key, puts that sum behind the list. What is then the last.
fn add(out: &mut Vec<Keyed>, last: Keyed, entry: Keyed) -> Result<Keyed, Memory>
    requires { (es : List KeyedData) × IsAddedWith es out.old.items last × AreUpTo entry.key es × StaysLight es entry }
    ensures { (es : List KeyedData) → IsAddedWith es out.old.items last → AreUpTo entry.key es → IfOk result (IsAddedWith (es ++ entry ∷ []) out.new.items) }
{
    if last.key == entry.key {
        return Ok(joined(last, entry));
    }
    out.push(last)?;
    Ok(entry)
}

/// The vector at a place.
fn entry_at(entries: &[Keyed], i: usize) -> Keyed
    requires { i < length entries.now }
    ensures { (d : KeyedData) → result ≡ slice_index_or entries.now i d }
{
    entries[i]
}

/// Adds up vectors that are sorted by their keys.
fn add_all(alloc: Global, entries: &[Keyed]) -> Result<Vec<Keyed>, Memory>
    requires rises { IsRising entries.now }
    requires light { IsLight entries.now }
    ensures { IfOk result (λ sums. IsAdded entries.now sums.items) }
{
    let mut out = Vec::new(alloc);
    if entries.is_empty() {
        return Ok(out);
    }
    let mut last = entry_at(entries, 0);
    for i in 1..entries.len() {
        last = add(&mut out, last, entry_at(entries, i))?;
    }
    out.push(last)?;
    Ok(out)
}

/// Each key of some vectors once, ascending, with the sum of all that stands at it.
pub(crate) fn sums_of(alloc: Global, mut entries: Vec<Keyed>) -> Result<Vec<Keyed>, Memory>
    requires { IsLight entries.items }
    ensures { IfOk result (λ sums. AreSums entries.items sums.items) }
{
    entries.sort_by_key(|e| e.key)?;
    let sums = add_all(alloc, &entries)?;
    Ok(sums)
}
