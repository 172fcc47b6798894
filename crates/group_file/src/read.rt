// Reads a catalogue file.
ghost use Rattle.std.specs.Prelude.{◌≡◌, ◌≤◌, ◌<◌, ◌+◌, ◌*◌, ◌^◌, ℕ, length, IfOk, IfErr, OnOk, Some, None};
ghost use Rattle.std.specs.Option.{option_or};
ghost use Rattle.group_file.specs.Catalogues.{IsGood};
ghost use Rattle.group_file.specs.GroupFile.{IfOfBytes, IsFirstFault, Spell, count_in, first_of, group_at, group_fault, groups_fault, groups_in, head_fault, id_at, id_fault, ids_at, is_low, is_wrong_id, number_at, repeated_fault, rest_fault};

use crate::repeats::repeated_in;
use crate::{Catalogue, Group, GroupErr};
use fixed_point::{Memory, word32, word64};
use std::alloc::Global;

const TAG: [u8; 8] = *b"I4GROUPS";

const HEAD_LENGTH: usize = 16;

const GROUP_HEAD_LENGTH: usize = 24;

const MOST_IDS: u64 = 1_048_576;

// How many groups the head says, where it is sound.
fn head_of(bytes: &[u8]) -> Result<u32, GroupErr>
    ensures ok { IfOk result (λ count. count ≡ count_in bytes.now) }
    ensures sound { OnOk result (head_fault bytes.now ≡ None) }
    ensures long { OnOk result (16 ≤ length bytes.now) }
    ensures err { IfErr result (λ e. head_fault bytes.now ≡ Some e) }
{
    if !bytes.starts_with(&TAG) {
        return Err(GroupErr::Tag);
    }
    if bytes.len() < HEAD_LENGTH {
        return Err(GroupErr::Truncated { at: 8 });
    }
    Ok(word32(bytes, 8))
}

// The id of an index in the group that begins here.
fn id(bytes: &[u8], p: usize, k: usize) -> u64
    requires { p + 24 + 8 * (k + 1) ≤ length bytes.now }
    ensures { result ≡ id_at bytes.now p k }
{
    word64(bytes, p + GROUP_HEAD_LENGTH + 8 * k)
}

// Whether an id isn't above the one before, or as the first isn't the label.
fn is_wrong_id(bytes: &[u8], p: usize, k: usize) -> bool
    requires { p + 24 + 8 * (k + 1) ≤ length bytes.now }
    ensures { result ≡ is_wrong_id bytes.now p k }
{
    if k == 0 {
        return id(bytes, p, 0) != word64(bytes, p);
    }
    id(bytes, p, k) <= id(bytes, p, k - 1)
}

// The first wrong id of a group, as a fault.
fn ids_fault(bytes: &[u8], p: usize, number: usize) -> Option<GroupErr>
    requires { p + 24 + 8 * number ≤ length bytes.now }
    ensures { result ≡ first_of (id_fault bytes.now p) number }
{
    for k in 0..number {
        if is_wrong_id(bytes, p, k) {
            let at = (p + GROUP_HEAD_LENGTH + 8 * k) as u64;
            return Some(GroupErr::Field { at });
        }
    }
    None
}

// Whether a label isn't above the one before.
fn is_low(before: Option<u64>, label: u64) -> bool
    ensures { result ≡ is_low before label }
{
    match before {
        Some(before) => label <= before,
        None => false,
    }
}

// The first fault of the group that begins here.
#[tactic(auto, unfolding(crate::specs::GroupFile::group_fault))]
fn group_fault(bytes: &[u8], before: Option<u64>, p: usize) -> Option<GroupErr>
    requires { p ≤ length bytes.now }
    ensures { result ≡ group_fault bytes.now before p }
{
    let at = p as u64;
    if bytes.len() - p < GROUP_HEAD_LENGTH {
        return Some(GroupErr::Truncated { at });
    }
    if is_low(before, word64(bytes, p)) {
        return Some(GroupErr::Field { at });
    }
    let number = word64(bytes, p + 16);
    if number == 0 {
        return Some(GroupErr::Field { at: at + 16 });
    }
    if MOST_IDS < number {
        return Some(GroupErr::Field { at: at + 16 });
    }
    if bytes.len() - (p + GROUP_HEAD_LENGTH) < 8 * number as usize {
        return Some(GroupErr::Truncated { at: at + 24 });
    }
    ids_fault(bytes, p, number as usize)
}

// The ids of the group that begins here.
fn ids_of(alloc: Global, bytes: &[u8], p: usize, number: usize) -> Result<Vec<u64>, Memory>
    requires { p + 24 + 8 * number ≤ length bytes.now }
    ensures { IfOk result (λ ids. ids.items ≡ ids_at bytes.now p number) }
{
    let mut ids = Vec::with_capacity(alloc, number)?;
    for k in 0..number {
        ids.push(id(bytes, p, k))?;
    }
    Ok(ids)
}

// The group that begins here.
#[tactic(auto, unfolding(crate::specs::GroupFile::group_at))]
fn group_at(alloc: Global, bytes: &[u8], p: usize) -> Result<Group, Memory>
    requires { p + 24 + 8 * number_at bytes.now p ≤ length bytes.now }
    ensures { IfOk result (λ group. group ≡ group_at bytes.now p) }
{
    let number = word64(bytes, p + 16) as usize;
    let ids = ids_of(alloc, bytes, p, number)?;
    Ok(Group {
        label: word64(bytes, p),
        mass: word64(bytes, p + 8),
        ids,
    })
}

// Where the group that begins here ends.
fn end_of(bytes: &[u8], p: usize) -> usize
    requires { p + 24 + 8 * number_at bytes.now p ≤ length bytes.now }
    ensures { result ≡ p + 24 + 8 * number_at bytes.now p }
{
    p + GROUP_HEAD_LENGTH + 8 * word64(bytes, p + 16) as usize
}

// All groups, or the first fault of them, or the first byte behind them.
fn groups_of(alloc: Global, bytes: &[u8], count: u32) -> Result<Vec<Group>, GroupErr>
    requires long { 16 ≤ length bytes.now }
    requires count { count ≡ count_in bytes.now }
    ensures ok { IfOk result (λ groups. groups.items ≡ groups_in bytes.now) }
    ensures as_many { IfOk result (λ groups. length groups.items ≡ count) }
    ensures sound { OnOk result (groups_fault bytes.now ≡ None) }
    ensures whole { OnOk result (rest_fault bytes.now ≡ None) }
    ensures err { IfErr result (λ e. IfOfBytes e (option_or (groups_fault bytes.now) (rest_fault bytes.now) ≡ Some e)) }
{
    let mut groups = Vec::new(alloc);
    let mut at = HEAD_LENGTH;
    let mut before = None;
    for _k in 0..count {
        if let Some(fault) = group_fault(bytes, before, at) {
            return Err(fault);
        }
        let group = group_at(alloc, bytes, at)?;
        groups.push(group)?;
        before = Some(word64(bytes, at));
        at = end_of(bytes, at);
    }
    if at < bytes.len() {
        return Err(GroupErr::Rest { at: at as u64 });
    }
    Ok(groups)
}

// Refuses groups that share an id.
fn no_repeats(alloc: Global, groups: &[Group]) -> Result<(), GroupErr>
    ensures ok { OnOk result (repeated_fault groups.now ≡ None) }
    ensures err { IfErr result (λ e. IfOfBytes e (repeated_fault groups.now ≡ Some e)) }
{
    match repeated_in(alloc, groups)? {
        Some(id) => Err(GroupErr::Repeated { id }),
        None => Ok(()),
    }
}

/// The catalogue in the bytes of a catalogue file, or the first fault of these bytes.
pub fn read_groups(alloc: Global, bytes: &[u8]) -> Result<Catalogue, GroupErr>
    ensures ok { IfOk result (Spell bytes.now) }
    ensures good { IfOk result IsGood }
    ensures few { IfOk result (λ groups. length groups < 2 ^ 32) }
    ensures err { IfErr result (IsFirstFault bytes.now) }
{
    let count = head_of(bytes)?;
    let groups = groups_of(alloc, bytes, count)?;
    no_repeats(alloc, &groups)?;
    Ok(Catalogue { groups })
}
