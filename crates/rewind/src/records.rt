// The records of a bin file.
ghost use Rattle.std.specs.Prelude.{◌≡◌, ◌≤◌, ◌<◌, ◌+◌, ◌*◌, false, ◌&&◌, ◌||◌, nat_le, nat_lt, length, IfOk, IfErr};
ghost use Rattle.std.specs.List.{list_all};
ghost use Rattle.std.specs.List.Sorted.{IsStrictlyIncreasing};
ghost use Rattle.nbody_model.specs.Bodies.{has};
ghost use Rattle.nbody_model.specs.Evolve.{is_empty};
ghost use Rattle.rewind_laws.specs.Bins.{ascends, end_of, ids_at};
ghost use Rattle.rewind.specs.Reading.{IsNoRecordAt, IsRecordAt};

use crate::RewindErr;
use fixed_point::{Memory, word32, word64};
use std::alloc::Global;

/// The bytes of a file, and the least bin.
#[derive(Clone, Copy)]
pub(crate) struct Source<'a> {
    pub alloc: Global,
    pub bytes: &'a [u8],
    pub low_bin: u8,
}

// Whether a record that begins at a place ends with the bytes or before.
fn has_room(bytes: &[u8], at: usize) -> bool
    requires { at ≤ length bytes.now }
    ensures { result ≡ (nat_le (at + 4) (length bytes.now) && nat_le (end_of bytes.now at) (length bytes.now)) }
{
    at + 4 <= bytes.len() && at + 4 + 8 * word32(bytes, at) as usize <= bytes.len()
}

// The ids of the record at a place.
#[tactic(auto, unfolding(rewind_laws::specs::Bins::ids_at))]
fn ids_of(alloc: Global, bytes: &[u8], at: usize) -> Result<Vec<u64>, Memory>
    requires size { at + 4 ≤ length bytes.now }
    requires within { end_of bytes.now at ≤ length bytes.now }
    ensures { IfOk result (λ ids. ids.items ≡ ids_at bytes.now at) }
{
    let size = word32(bytes, at) as usize;
    let mut ids = Vec::with_capacity(alloc, size)?;
    for i in 0..size {
        ids.push(word64(bytes, at + 4 + 8 * i))?;
    }
    Ok(ids)
}

// Whether each id is below the next.
fn ascends(ids: &[u64]) -> bool
    ensures { result ≡ ascends ids.now }
{
    for i in 1..ids.len() {
        if ids[i] <= ids[i - 1] {
            return false;
        }
    }
    true
}

// Whether an id is among ascending ones.
pub(crate) fn is_among(ids: &[u64], id: u64) -> bool
    requires { IsStrictlyIncreasing ids.now }
    ensures { result ≡ has ids.now id }
{
    match ids.binary_search(&id) {
        Ok(_at) => true,
        Err(_) => false,
    }
}

// Whether all ids are in a part.
fn are_in(part: &[u64], ids: &[u64]) -> bool
    requires { IsStrictlyIncreasing part.now }
    ensures { result ≡ list_all (has part.now) ids.now }
{
    ids.iter().all(|id| is_among(part, *id))
}

// Whether a step in a bin may have these fast bodies: at the least bin none.
fn may_be_fast(low: u8, bin: u8, ids: &[u64]) -> bool
    ensures { result ≡ (is_empty ids.now || nat_lt low bin) }
{
    ids.is_empty() || low < bin
}

/// The ids of the record at a place, where it is that of a step of a part in a bin.
pub(crate) fn record_at(
    source: &Source,
    bin: u8,
    part: &[u64],
    at: usize,
) -> Result<Vec<u64>, RewindErr>
    requires within { at ≤ length source.now.bytes.now }
    requires ascending { IsStrictlyIncreasing part.now }
    ensures ok { IfOk result (λ ids. IsRecordAt source.now.low_bin bin part.now source.now.bytes.now at ids.items) }
    ensures ascending { IfOk result (λ ids. IsStrictlyIncreasing ids.items) }
    ensures within { IfOk result (λ ids. at + 4 + 8 * length ids.items ≤ length source.now.bytes.now) }
    ensures finer { IfOk result (λ ids. is_empty ids.items ≡ false → source.now.low_bin < bin) }
    ensures err { IfErr result (IsNoRecordAt source.now.low_bin bin part.now source.now.bytes.now at) }
{
    let bytes = source.bytes;
    let bad = RewindErr::Record { at: at as u64 };
    if !has_room(bytes, at) {
        return Err(bad);
    }
    let ids = ids_of(source.alloc, bytes, at)?;
    if !ascends(&ids) {
        return Err(bad);
    }
    if !are_in(part, &ids) {
        return Err(bad);
    }
    if !may_be_fast(source.low_bin, bin, &ids) {
        return Err(bad);
    }
    Ok(ids)
}
