// Reads an expansion file.
ghost use Rattle.std.specs.Prelude.{◌≡◌, ◌≤◌, ◌<◌, ◌+◌, ◌-◌, ◌*◌, ◌^◌, ℕ, true, length, IfOk, IfErr, Some, None};
ghost use Rattle.nbody_model.specs.Tables.{Reaches};
ghost use Rattle.expansion_table.specs.declared.errors.ExpErr.TheVariants.{Short};
ghost use Rattle.expansion_table.specs.ExpansionFile.{IfOfBytes, IsFirstFault, Spell, count_in, entry_fault, entry_in, goes_up, head_fault, may_stand, short_fault, spacing_in, table_in};

use crate::ExpErr;
use crate::table::{Expansion, Sums};
use fixed_point::{word32, word64};
use std::alloc::Global;

const TAG: [u8; 8] = *b"I4EXPAN1";

const HEAD_LENGTH: usize = 16;

const ENTRY_LENGTH: usize = 16;

const WIDEST: u32 = 40;

/// How far apart the entries are, 2^s ticks, and how many there are.
#[derive(Clone, Copy)]
struct Head {
    s: u32,
    count: u32,
}

// What the head says, where the tag, the spacing and the length are sound.
fn head_of(bytes: &[u8]) -> Result<Head, ExpErr>
    ensures ok { IfOk result (λ head. head_fault bytes.now ≡ None) }
    ensures spacing { IfOk result (λ head. (head.s ≡ spacing_in bytes.now) × (head.s ≤ 40)) }
    ensures whole { IfOk result (λ head. (head.count ≡ count_in bytes.now) × (length bytes.now ≡ 16 + 16 * head.count)) }
    ensures err { IfErr result (λ e. head_fault bytes.now ≡ Some e) }
{
    let got = bytes.len() as u64;
    if !bytes.starts_with(&TAG) {
        return Err(ExpErr::Tag);
    }
    if bytes.len() < HEAD_LENGTH {
        return Err(ExpErr::Length { want: 16, got });
    }
    let s = word32(bytes, 8);
    if WIDEST < s {
        return Err(ExpErr::Spacing { s });
    }
    let count = word32(bytes, 12);
    let want = HEAD_LENGTH + ENTRY_LENGTH * count as usize;
    if bytes.len() != want {
        let want = want as u64;
        return Err(ExpErr::Length { want, got });
    }
    Ok(Head { s, count })
}

// The entry of an index.
#[tactic(auto, unfolding(crate::specs::ExpansionFile::entry_in))]
fn entry(bytes: &[u8], index: usize) -> Sums
    requires few { index < 2 ^ 32 }
    requires within { 16 + 16 * (index + 1) ≤ length bytes.now }
    ensures { result ≡ entry_in bytes.now index }
{
    let at = HEAD_LENGTH + ENTRY_LENGTH * index;
    Sums {
        kick: word64(bytes, at),
        drift: word64(bytes, at + 8),
    }
}

// Whether a sum goes up, by at most these ticks.
fn goes_up(ticks: u64, before: u64, after: u64) -> bool
    ensures { result ≡ goes_up ticks before after }
{
    before <= after && after - before <= ticks
}

// Whether the entry of an index may stand there.
#[tactic(auto, unfolding(crate::specs::ExpansionFile::may_stand))]
fn may_stand(bytes: &[u8], s: u32, index: usize) -> bool
    requires narrow { s ≤ 40 }
    requires spacing { s ≡ spacing_in bytes.now }
    requires few { index < 2 ^ 32 }
    requires within { 16 + 16 * (index + 1) ≤ length bytes.now }
    ensures { result ≡ may_stand bytes.now index }
{
    let after = entry(bytes, index);
    if index == 0 {
        return after.kick == 0 && after.drift == 0;
    }
    let before = entry(bytes, index - 1);
    let ticks = 1u64 << s;
    goes_up(ticks, before.kick, after.kick) && goes_up(ticks, before.drift, after.drift)
}

// All entries, or the first that may not stand at its index.
fn entries_of(alloc: Global, bytes: &[u8], head: Head) -> Result<Vec<Sums>, ExpErr>
    requires spacing { (head.s ≡ spacing_in bytes.now) × (head.s ≤ 40) }
    requires whole { (head.count ≡ count_in bytes.now) × (length bytes.now ≡ 16 + 16 * head.count) }
    ensures ok { IfOk result (λ entries. entries.items ≡ (table_in bytes.now).entries) }
    ensures sound { IfOk result (λ _. entry_fault bytes.now ≡ None) }
    ensures each { IfOk result (λ _. (0 < head.count) × ((index : ℕ) → index < head.count → may_stand bytes.now index ≡ true)) }
    ensures err { IfErr result (λ e. IfOfBytes e (entry_fault bytes.now ≡ Some e)) }
{
    if head.count == 0 {
        return Err(ExpErr::Entry { index: 0 });
    }
    let mut entries = Vec::with_capacity(alloc, head.count as usize)?;
    for index in 0..head.count as usize {
        if !may_stand(bytes, head.s, index) {
            return Err(ExpErr::Entry {
                index: index as u64,
            });
        }
        entries.push(entry(bytes, index))?;
    }
    Ok(entries)
}

// Whether the last of this many entries stands at a tick or behind it.
fn reach_of(head: Head, last: u64) -> Result<(), ExpErr>
    requires { (head.s ≤ 40) × (0 < head.count) }
    ensures ok { IfOk result (λ _. last ≤ (head.count - 1) * 2 ^ head.s) }
    ensures err { IfErr result (λ e. ((head.count - 1) * 2 ^ head.s < last) × (e ≡ Short last ((head.count - 1) * 2 ^ head.s))) }
{
    let got = u128::from(head.count - 1) << head.s;
    if got < u128::from(last) {
        return Err(ExpErr::Short {
            want: last,
            got: got as u64,
        });
    }
    Ok(())
}

/// The table in the bytes of an expansion file, or the first fault of these bytes, for a run up to a last tick.
///
/// The file is the tag `I4EXPAN1`, the numbers s and n of 32 bits, and n entries of two numbers of 64 bits, all with
/// the lowest byte first: the sums for kicks and for drifts at the ticks 0, `2^s`, `2 * 2^s` and so on.
pub fn read_expansion(alloc: Global, bytes: &[u8], last: u64) -> Result<Expansion, ExpErr>
    ensures ok { IfOk result (Spell bytes.now last) }
    ensures reach { IfOk result (λ table. Reaches table last) }
    ensures err { IfErr result (IsFirstFault bytes.now last) }
{
    let head = head_of(bytes)?;
    let entries = entries_of(alloc, bytes, head)?;
    reach_of(head, last)?;
    Ok(Expansion { s: head.s, entries })
}
