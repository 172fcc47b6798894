// Reads a table file.
ghost use Rattle.std.specs.Prelude.{◌≡◌, ◌≤◌, ◌<◌, ◌+◌, ◌*◌, ◌%◌, length, map, IfOk, IfErr, Some, None};
ghost use Rattle.ewald_table.specs.TableFile.{IfOfBytes, IsFirstFault, Spell, count_of, entry_in, grid_in, head_fault, is_off, leaves_plane, plane_fault, points_of, signed32_at, table_in};

use crate::TableErr;
use crate::table::{Entry, Table};
use fixed_point::word32;
use std::alloc::Global;

const TAG: [u8; 8] = *b"I4EWALD1";

const HEAD_LENGTH: usize = 16;

const ENTRY_LENGTH: usize = 12;

const FINEST: u32 = 6;

// How many points a grid has on an axis.
#[tactic(auto, using(crate::proofs::Grids::points_small))]
fn points(g: u32) -> usize
    requires { g ≤ 6 }
    ensures value { result ≡ points_of g }
    ensures small { result ≤ 65 }
{
    (1usize << g) + 1
}

// What the head says of the grid, where the tag, the grid and the length are sound.
fn grid_of(bytes: &[u8]) -> Result<u32, TableErr>
    ensures ok { IfOk result (λ g. (head_fault bytes.now ≡ None) × (g ≡ grid_in bytes.now)) }
    ensures fine { IfOk result (λ g. g ≤ 6) }
    ensures whole { IfOk result (λ g. length bytes.now ≡ 16 + 12 * count_of g) }
    ensures err { IfErr result (λ e. head_fault bytes.now ≡ Some e) }
{
    let got = bytes.len() as u64;
    if !bytes.starts_with(&TAG) {
        return Err(TableErr::Tag);
    }
    if bytes.len() < HEAD_LENGTH {
        return Err(TableErr::Length { want: 16, got });
    }
    let g = word32(bytes, 8);
    if FINEST < g {
        return Err(TableErr::GridRange { g });
    }
    let points = points(g);
    let want = HEAD_LENGTH + ENTRY_LENGTH * (points * points * points);
    if bytes.len() != want {
        let want = want as u64;
        return Err(TableErr::Length { want, got });
    }
    Ok(g)
}

// The entry of an index.
#[tactic(auto, unfolding(crate::specs::TableFile::entry_in))]
fn entry(bytes: &[u8], index: usize) -> Entry
    requires few { index < 274625 }
    requires within { 16 + 12 * (index + 1) ≤ length bytes.now }
    ensures { result ≡ entry_in bytes.now index }
{
    let at = HEAD_LENGTH + ENTRY_LENGTH * index;
    Entry {
        x: word32(bytes, at).cast_signed(),
        y: word32(bytes, at + 4).cast_signed(),
        z: word32(bytes, at + 8).cast_signed(),
    }
}

// Whether a number isn't 0 at a point so many steps from 0, where that is on an edge plane.
fn is_off(g: u32, steps: usize, number: i32) -> bool
    requires { g ≤ 6 }
    ensures { result ≡ is_off g steps number }
{
    (steps == 0 || steps == 1usize << g) && number != 0
}

// Whether an entry isn't 0 on an axis on which it lies on an edge plane.
#[tactic(auto, unfolding(crate::specs::TableFile::leaves_plane))]
fn leaves_plane(g: u32, index: usize, entry: &Entry) -> bool
    requires { g ≤ 6 }
    ensures { result ≡ leaves_plane g index entry.now }
{
    let points = points(g);
    if is_off(g, index % points, entry.x) {
        return true;
    }
    if is_off(g, index / points % points, entry.y) {
        return true;
    }
    is_off(g, index / points / points, entry.z)
}

// All entries, or the first that isn't 0 where it lies on an edge plane.
fn entries_of(alloc: Global, bytes: &[u8], g: u32) -> Result<Vec<Entry>, TableErr>
    requires fine { g ≤ 6 }
    requires grid { g ≡ grid_in bytes.now }
    requires whole { length bytes.now ≡ 16 + 12 * count_of g }
    ensures ok { IfOk result (λ entries. entries.items ≡ (table_in bytes.now).entries) }
    ensures sound { IfOk result (λ _. plane_fault bytes.now ≡ None) }
    ensures err { IfErr result (λ e. IfOfBytes e (plane_fault bytes.now ≡ Some e)) }
{
    let points = points(g);
    let count = points * points * points;
    let mut entries = Vec::with_capacity(alloc, count)?;
    for index in 0..count {
        let entry = entry(bytes, index);
        if leaves_plane(g, index, &entry) {
            return Err(TableErr::PlaneNotZero {
                index: index as u64,
            });
        }
        entries.push(entry)?;
    }
    Ok(entries)
}

/// The table in the bytes of a table file, or the first fault of these bytes.
///
/// The file is the tag `I4EWALD1`, the number g of 32 bits, 32 bits that aren't looked at, and for each point of the
/// grid three signed numbers of 32 bits, all with the lowest byte first.
pub fn read_table(alloc: Global, bytes: &[u8]) -> Result<Table, TableErr>
    ensures ok { IfOk result (Spell bytes.now) }
    ensures err { IfErr result (IsFirstFault bytes.now) }
{
    let g = grid_of(bytes)?;
    let entries = entries_of(alloc, bytes, g)?;
    Ok(Table { g, entries })
}
