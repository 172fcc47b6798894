// Reads snapshots.
ghost use Rattle.std.specs.Prelude.{◌≡◌, ◌≤◌, ◌*◌, length, sum, All, IfOk, IfErr, OnOk, Some, None};
ghost use Rattle.snapshot_blocks.specs.Blocks.{IsWithin};
ghost use Rattle.particle_set.specs.Rows.{HasKind};
ghost use Rattle.snap_file.specs.Snapshots.{AreColumns, HasHead, HasRows, HaveLengths, IsSnapshotFault, SpellsSnapshot, counts_fault, lengths_fault, missing_column, refusal_of};
ghost use Rattle.snap_file.specs.Texts.{texts_of};
ghost use Rattle.snap_file.specs.declared.errors.SnapErr.TheVariants.{BlockLength};

use crate::find::{blocks_of, contents};
use crate::head::head_from;
use crate::rows::{Columns, rows_of};
use crate::{Head, SnapErr};
use particle_set::{BodySet, Row, SetErr};
use snapshot_blocks::Block;
use std::alloc::Global;

const MOST_BODIES: u64 = 1_048_576;

// The four columns, or the first that isn't there.
fn columns_of<'a>(bytes: &'a [u8], blocks: &[Block]) -> Result<Columns<'a>, SnapErr>
    requires { All (IsWithin bytes.now) blocks.now }
    ensures ok { IfOk result (λ columns. AreColumns bytes.now blocks.now (texts_of columns)) }
    ensures err { IfErr result (λ e. missing_column blocks.now ≡ Some e) }
{
    let positions = contents(bytes, blocks, *b"POS ")?;
    let momenta = contents(bytes, blocks, *b"MOM ")?;
    let ids = contents(bytes, blocks, *b"ID  ")?;
    let masses = contents(bytes, blocks, *b"MASS")?;
    Ok(Columns {
        positions,
        momenta,
        ids,
        masses,
    })
}

fn total_of(counts: [u32; 6]) -> u64
    ensures { result ≡ sum counts }
{
    u64::from(counts[0])
        + u64::from(counts[1])
        + u64::from(counts[2])
        + u64::from(counts[3])
        + u64::from(counts[4])
        + u64::from(counts[5])
}

// How many bodies there are, or what is wrong with the counts.
fn check_counts(counts: [u32; 6]) -> Result<u32, SnapErr>
    ensures ok { OnOk result (counts_fault counts ≡ None) }
    ensures all { IfOk result (λ n. n ≡ sum counts) }
    ensures few { IfOk result (λ n. n ≤ 1048576) }
    ensures err { IfErr result (λ e. counts_fault counts ≡ Some e) }
{
    if counts[0] != 0 {
        return Err(SnapErr::Gas { count: counts[0] });
    }
    let count = total_of(counts);
    if MOST_BODIES < count {
        return Err(SnapErr::Bodies(SetErr::TooMany { n: count }));
    }
    Ok(count as u32)
}

fn wrong_length(name: [u8; 4], want: u64, got: u64) -> SnapErr
    ensures { result ≡ BlockLength name want got }
{
    SnapErr::BlockLength { name, want, got }
}

// Whether the columns have the lengths that n bodies have.
fn check_lengths(columns: &Columns<'_>, n: u32) -> Result<(), SnapErr>
    requires { n ≤ 1048576 }
    ensures ok { OnOk result (lengths_fault n (texts_of columns.now) ≡ None) }
    ensures lengths { OnOk result (HaveLengths n (texts_of columns.now)) }
    ensures err { IfErr result (λ e. lengths_fault n (texts_of columns.now) ≡ Some e) }
{
    let n = u64::from(n);
    let positions = columns.positions.len() as u64;
    if positions != 12 * n {
        return Err(wrong_length(*b"POS ", 12 * n, positions));
    }
    let momenta = columns.momenta.len() as u64;
    if momenta != 24 * n {
        return Err(wrong_length(*b"MOM ", 24 * n, momenta));
    }
    let ids = columns.ids.len() as u64;
    if ids != 8 * n {
        return Err(wrong_length(*b"ID  ", 8 * n, ids));
    }
    let masses = columns.masses.len() as u64;
    if masses != 4 * n {
        return Err(wrong_length(*b"MASS", 4 * n, masses));
    }
    Ok(())
}

// The rows of a snapshot with these blocks and this head.
fn rows_from(alloc: Global, bytes: &[u8], blocks: &[Block], head: Head) -> Result<Vec<Row>, SnapErr>
    requires has { HasHead bytes.now blocks.now head }
    requires within { All (IsWithin bytes.now) blocks.now }
    ensures ok { IfOk result (λ rows. HasRows bytes.now rows.items) }
    ensures kinds { IfOk result (λ rows. All HasKind rows.items) }
    ensures err { IfErr result (IsSnapshotFault bytes.now) }
{
    let columns = columns_of(bytes, blocks)?;
    let count = check_counts(head.counts)?;
    check_lengths(&columns, count)?;
    let rows = rows_of(alloc, &columns, head.counts, count)?;
    Ok(rows)
}

fn refused(err: SetErr) -> SnapErr
    ensures { result ≡ refusal_of err }
{
    match err {
        SetErr::Memory => SnapErr::Memory,
        _ => SnapErr::Bodies(err),
    }
}

/// The bodies of a snapshot, or the first fault of its bytes.
pub fn read_snapshot(alloc: Global, bytes: &[u8]) -> Result<BodySet, SnapErr>
    ensures ok { IfOk result (SpellsSnapshot bytes.now) }
    ensures err { IfErr result (IsSnapshotFault bytes.now) }
{
    let blocks = blocks_of(alloc, bytes)?;
    let head = head_from(bytes, &blocks)?;
    let rows = rows_from(alloc, bytes, &blocks, head)?;
    match BodySet::from_list(alloc, rows) {
        Ok(set) => Ok(set),
        Err(err) => Err(refused(err)),
    }
}
