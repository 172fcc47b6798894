// Writes snapshots.
ghost use Rattle.std.specs.Prelude.{◌≡◌, ◌≤◌, ◌<◌, ◌+◌, ◌*◌, ◌^◌, ◌++◌, length, OnOk, IfOk};
ghost use Rattle.std.specs.List.{flat_map};
ghost use Rattle.fixed_point.specs.Bytes.{framed};
ghost use Rattle.nbody_model.specs.SnapshotText.{by_kind, column_text, counts_text, head_name, head_text, of_kind, snapshot_text};
ghost use Rattle.snap_file.specs.Columns.{entry_of, name_of};

use crate::column::{Column, push_entry};
use fixed_point::{Memory, push_word32, push_word64};
use nbody_model::Body;
use particle_set::BodySet;
use snapshot_blocks::{close_block, open_block};
use std::alloc::Global;

const TAG: [u8; 8] = *b"I4SNAP01";

// How many of the bodies are of a kind.
fn count_kind(bodies: &[Body], kind: u8) -> u32
    requires { length bodies.now ≤ 1048576 }
    ensures value { result ≡ length (of_kind bodies.now kind) }
    ensures small { result ≤ 1048576 }
{
    let mut count = 0u32;
    for body in bodies {
        if body.kind == kind {
            count += 1;
        }
    }
    count
}

// How many bodies of the kinds 1 to 5 there are.
fn count_all(bodies: &[Body]) -> u32
    requires { length bodies.now ≤ 1048576 }
    ensures value { result ≡ length (by_kind bodies.now) }
    ensures small { result ≤ 5242880 }
{
    count_kind(bodies, 1)
        + count_kind(bodies, 2)
        + count_kind(bodies, 3)
        + count_kind(bodies, 4)
        + count_kind(bodies, 5)
}

fn push_counts(out: &mut Vec<u8>, bodies: &[Body]) -> Result<(), Memory>
    requires { length bodies.now ≤ 1048576 }
    ensures { OnOk result (out.new.items ≡ out.old.items ++ counts_text bodies.now) }
{
    push_word32(out, 0)?;
    push_word32(out, count_kind(bodies, 1))?;
    push_word32(out, count_kind(bodies, 2))?;
    push_word32(out, count_kind(bodies, 3))?;
    push_word32(out, count_kind(bodies, 4))?;
    push_word32(out, count_kind(bodies, 5))
}

// Appends the contents of the head.
fn push_head_contents(
    out: &mut Vec<u8>,
    bodies: &[Body],
    tick: u64,
    number: u32,
) -> Result<(), Memory>
    requires { length bodies.now ≤ 1048576 }
    ensures { OnOk result (out.new.items ≡ out.old.items ++ head_text bodies.now tick number) }
{
    out.extend_from_slice(&TAG)?;
    push_counts(out, bodies)?;
    push_word64(out, tick)?;
    push_word32(out, number)?;
    out.extend_from_slice(&[0; 212])?;
    Ok(())
}

// Appends the block of the head.
fn push_head(out: &mut Vec<u8>, bodies: &[Body], tick: u64, number: u32) -> Result<(), Memory>
    requires { length bodies.now ≤ 1048576 }
    ensures { OnOk result (out.new.items ≡ out.old.items ++ framed head_name (head_text bodies.now tick number)) }
{
    open_block(out, *b"HEAD", 256)?;
    push_head_contents(out, bodies, tick, number)?;
    close_block(out, 256)
}

// Appends the entries of the bodies of a kind.
fn push_kind(out: &mut Vec<u8>, column: Column, bodies: &[Body], kind: u8) -> Result<(), Memory>
    ensures { OnOk result (out.new.items ≡ out.old.items ++ flat_map (entry_of column) (of_kind bodies.now kind)) }
{
    for body in bodies {
        if body.kind == kind {
            push_entry(out, column, body)?;
        }
    }
    Ok(())
}

// Appends the entries of all bodies: kind 1 first, and ascending in id within a kind.
fn push_entries(out: &mut Vec<u8>, column: Column, bodies: &[Body]) -> Result<(), Memory>
    ensures { OnOk result (out.new.items ≡ out.old.items ++ flat_map (entry_of column) (by_kind bodies.now)) }
{
    push_kind(out, column, bodies, 1)?;
    push_kind(out, column, bodies, 2)?;
    push_kind(out, column, bodies, 3)?;
    push_kind(out, column, bodies, 4)?;
    push_kind(out, column, bodies, 5)
}

// Appends a column's block.
fn push_column(out: &mut Vec<u8>, column: Column, bodies: &[Body]) -> Result<(), Memory>
    requires { length bodies.now ≤ 1048576 }
    ensures { OnOk result (out.new.items ≡ out.old.items ++ column_text (name_of column) (entry_of column) bodies.now) }
{
    let len = column.length(count_all(bodies));
    open_block(out, column.name(), len)?;
    push_entries(out, column, bodies)?;
    close_block(out, len)
}

/// The text of a snapshot of these bodies at a tick.
pub fn write_snapshot(
    alloc: Global,
    set: &BodySet,
    tick: u64,
    number: u32,
) -> Result<Vec<u8>, Memory>
    ensures { IfOk result (λ text. text.items ≡ snapshot_text set.now tick number) }
{
    let bodies = set.bodies();
    let mut out = Vec::with_capacity(alloc, 376 + 48 * set.len())?;
    push_head(&mut out, bodies, tick, number)?;
    push_column(&mut out, Column::Positions, bodies)?;
    push_column(&mut out, Column::Momenta, bodies)?;
    push_column(&mut out, Column::Ids, bodies)?;
    push_column(&mut out, Column::Masses, bodies)?;
    Ok(out)
}
