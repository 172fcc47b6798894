// The bodies in a restart file.
ghost use Rattle.std.specs.Prelude.{◌≡◌, ◌≤◌, ◌<◌, ◌+◌, ◌-◌, ◌*◌, ℕ, length, All, IfOk, IfErr, OnOk, MatchOption, Some, None};
ghost use Rattle.fixed_point.specs.Bytes.{word32_at};
ghost use Rattle.particle_set.specs.Rows.{HasKind};
ghost use Rattle.restart_files.specs.RestartFile.{HasHead, NoFaultBelow, bodies_fault, body_fault, body_place, deepest_in, depth_in, depths_in, has_wrong_depth, has_wrong_id, has_wrong_kind, row_in, rows_in, top_bin_in};
ghost use Rattle.restart_files.specs.declared.errors.RestartErr.TheVariants.{Field};

use crate::RestartErr;
use crate::head::{Head, width};
use fixed_point::{Memory, signed64, word32, word64};
use particle_set::Row;
use std::alloc::Global;

const HEAD_LENGTH: usize = 168;

// Where the body of an index begins.
fn place(bytes: &[u8], head: Head, index: usize) -> usize
    requires head { HasHead bytes.now head }
    requires inside { index < head.count }
    ensures value { result ≡ body_place bytes.now index }
    ensures within { result + 52 ≤ length bytes.now }
    ensures deep { head.version ≡ 2 → result + 56 ≤ length bytes.now }
    ensures small { result ≤ 58720368 }
{
    HEAD_LENGTH + width(head.version) * index
}

// How deep a body may be at most.
fn deepest(bytes: &[u8]) -> u64
    requires { 176 ≤ length bytes.now }
    ensures { result ≡ deepest_in bytes.now }
{
    word64(bytes, 88).saturating_sub(u64::from(word64(bytes, 24).trailing_zeros()))
}

// Whether an id isn't above that of the body before.
fn has_wrong_id(bytes: &[u8], head: Head, index: usize) -> bool
    requires head { HasHead bytes.now head }
    requires inside { index < head.count }
    ensures { result ≡ has_wrong_id bytes.now index }
{
    if index == 0 {
        return false;
    }
    word64(bytes, place(bytes, head, index)) <= word64(bytes, place(bytes, head, index - 1))
}

// Whether a kind isn't 1 to 5.
fn has_wrong_kind(bytes: &[u8], head: Head, index: usize) -> bool
    requires head { HasHead bytes.now head }
    requires inside { index < head.count }
    ensures { result ≡ has_wrong_kind bytes.now index }
{
    let kind = word32(bytes, place(bytes, head, index) + 8);
    !(1 <= kind && kind <= 5)
}

// Whether there is a depth that is too deep.
fn has_wrong_depth(bytes: &[u8], head: Head, index: usize) -> bool
    requires head { HasHead bytes.now head }
    requires inside { index < head.count }
    ensures { result ≡ has_wrong_depth bytes.now index }
{
    head.version == 2 && deepest(bytes) < u64::from(word32(bytes, place(bytes, head, index) + 52))
}

// What is wrong with the body of an index.
#[tactic(auto, unfolding(crate::specs::RestartFile::body_fault))]
fn body_fault(bytes: &[u8], head: Head, index: usize) -> Option<RestartErr>
    requires head { HasHead bytes.now head }
    requires inside { index < head.count }
    ensures { result ≡ body_fault bytes.now index }
{
    let at = place(bytes, head, index) as u64;
    if has_wrong_id(bytes, head, index) {
        return Some(RestartErr::Field { at });
    }
    if has_wrong_kind(bytes, head, index) {
        return Some(RestartErr::Field { at: at + 8 });
    }
    if has_wrong_depth(bytes, head, index) {
        return Some(RestartErr::Field { at: at + 52 });
    }
    None
}

// Checks the bodies one by one.
pub(crate) fn check_bodies(bytes: &[u8], head: Head) -> Result<(), RestartErr>
    requires { HasHead bytes.now head }
    ensures ok { OnOk result (bodies_fault bytes.now ≡ None) }
    ensures each { OnOk result (NoFaultBelow bytes.now head.count) }
    ensures err { IfErr result (λ e. bodies_fault bytes.now ≡ Some e) }
{
    for index in 0..head.count as usize {
        if let Some(fault) = body_fault(bytes, head, index) {
            return Err(fault);
        }
    }
    Ok(())
}

// The kind of the body of an index.
#[tactic(auto, using(crate::proofs::EachBody::kind_of))]
fn kind_at(bytes: &[u8], head: Head, index: usize) -> u8
    requires head { HasHead bytes.now head }
    requires inside { index < head.count }
    requires sound { body_fault bytes.now index ≡ None }
    ensures value { result ≡ word32_at bytes.now (body_place bytes.now index + 8) }
    ensures low { 1 ≤ result }
    ensures high { result ≤ 5 }
{
    word32(bytes, place(bytes, head, index) + 8) as u8
}

// The row of the body of an index.
#[tactic(auto, unfolding(crate::specs::RestartFile::row_in))]
fn row_at(bytes: &[u8], head: Head, index: usize) -> Row
    requires head { HasHead bytes.now head }
    requires inside { index < head.count }
    requires sound { body_fault bytes.now index ≡ None }
    ensures value { result ≡ row_in bytes.now index }
    ensures kind { HasKind result }
{
    let at = place(bytes, head, index);
    Row {
        id: word64(bytes, at),
        kind: kind_at(bytes, head, index),
        mass: word32(bytes, at + 12),
        pos: [
            word32(bytes, at + 16),
            word32(bytes, at + 20),
            word32(bytes, at + 24),
        ],
        mom: [
            signed64(bytes, at + 28),
            signed64(bytes, at + 36),
            signed64(bytes, at + 44),
        ],
    }
}

// The rows of all bodies.
pub(crate) fn rows_of(alloc: Global, bytes: &[u8], head: Head) -> Result<Vec<Row>, Memory>
    requires head { HasHead bytes.now head }
    requires sound { NoFaultBelow bytes.now head.count }
    ensures kinds { IfOk result (λ rows. All HasKind rows.items) }
    ensures value { IfOk result (λ rows. rows.items ≡ rows_in bytes.now) }
{
    let mut rows = Vec::with_capacity(alloc, head.count as usize)?;
    for index in 0..head.count as usize {
        rows.push(row_at(bytes, head, index))?;
    }
    Ok(rows)
}

// The depth of the body of an index.
#[tactic(auto, using(crate::proofs::EachBody::depth_of))]
fn depth_at(bytes: &[u8], head: Head, index: usize) -> u8
    requires head { HasHead bytes.now head }
    requires inside { index < head.count }
    requires deep { head.version ≡ 2 }
    requires bin { top_bin_in bytes.now ≤ 20 }
    requires sound { body_fault bytes.now index ≡ None }
    ensures { result ≡ depth_in bytes.now index }
{
    word32(bytes, place(bytes, head, index) + 52) as u8
}

// The depths of all bodies: there are none in version 1.
pub(crate) fn depths_of(alloc: Global, bytes: &[u8], head: Head) -> Result<Vec<u8>, Memory>
    requires head { HasHead bytes.now head }
    requires bin { top_bin_in bytes.now ≤ 20 }
    requires sound { NoFaultBelow bytes.now head.count }
    ensures { IfOk result (λ depths. depths.items ≡ depths_in bytes.now) }
{
    if head.version == 1 {
        return Ok(Vec::new(alloc));
    }
    let mut depths = Vec::with_capacity(alloc, head.count as usize)?;
    for index in 0..head.count as usize {
        depths.push(depth_at(bytes, head, index))?;
    }
    Ok(depths)
}
