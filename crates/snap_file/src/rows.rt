// The rows of a snapshot's columns.
ghost use Rattle.std.specs.Prelude.{◌≡◌, ◌≤◌, ◌<◌, ◌+◌, ◌*◌, length, sum, All, IfOk};
ghost use Rattle.particle_set.specs.Rows.{HasKind};
ghost use Rattle.snap_file.specs.Kinds.{kind_at};
ghost use Rattle.snap_file.specs.Snapshots.{HaveLengths, row_in, rows_in};
ghost use Rattle.snap_file.specs.Texts.{texts_of};

use fixed_point::{Memory, signed64, word32, word64};
use particle_set::Row;
use std::alloc::Global;

/// The contents of the four columns, one entry for each body.
#[derive(Clone, Copy)]
pub(crate) struct Columns<'a> {
    pub(crate) positions: &'a [u8],
    pub(crate) momenta: &'a [u8],
    pub(crate) ids: &'a [u8],
    pub(crate) masses: &'a [u8],
}

// The kind of the body at a place: those of kind 1 come first.
fn kind_of(counts: [u32; 6], place: u64) -> u8
    ensures value { result ≡ kind_at counts place }
    ensures low { 1 ≤ result }
    ensures high { result ≤ 5 }
{
    let one = u64::from(counts[1]);
    let two = one + u64::from(counts[2]);
    let three = two + u64::from(counts[3]);
    let four = three + u64::from(counts[4]);
    if place < one {
        1
    } else if place < two {
        2
    } else if place < three {
        3
    } else if place < four {
        4
    } else {
        5
    }
}

// The row of the body at a place.
#[tactic(auto, unfolding(crate::specs::Snapshots::row_in))]
fn row_at(columns: &Columns<'_>, counts: [u32; 6], place: usize) -> Row
    requires small { place < 1048576 }
    requires positions { 12 * (place + 1) ≤ length columns.now.positions.now }
    requires momenta { 24 * (place + 1) ≤ length columns.now.momenta.now }
    requires ids { 8 * (place + 1) ≤ length columns.now.ids.now }
    requires masses { 4 * (place + 1) ≤ length columns.now.masses.now }
    ensures value { result ≡ row_in counts (texts_of columns.now) place }
    ensures kind { HasKind result }
{
    Row {
        id: word64(columns.ids, 8 * place),
        kind: kind_of(counts, place as u64),
        mass: word32(columns.masses, 4 * place),
        pos: [
            word32(columns.positions, 12 * place),
            word32(columns.positions, 12 * place + 4),
            word32(columns.positions, 12 * place + 8),
        ],
        mom: [
            signed64(columns.momenta, 24 * place),
            signed64(columns.momenta, 24 * place + 8),
            signed64(columns.momenta, 24 * place + 16),
        ],
    }
}

/// The rows of all bodies, in the order of the snapshot.
pub(crate) fn rows_of(
    alloc: Global,
    columns: &Columns<'_>,
    counts: [u32; 6],
    count: u32,
) -> Result<Vec<Row>, Memory>
    requires all { count ≡ sum counts }
    requires few { count ≤ 1048576 }
    requires lengths { HaveLengths count (texts_of columns.now) }
    ensures kinds { IfOk result (λ rows. All HasKind rows.items) }
    ensures value { IfOk result (λ rows. rows.items ≡ rows_in counts (texts_of columns.now)) }
{
    let mut rows = Vec::with_capacity(alloc, count as usize)?;
    for place in 0..count as usize {
        rows.push(row_at(columns, counts, place))?;
    }
    Ok(rows)
}
