// The lines and records of what happens in a step.
ghost use Rattle.std.specs.Prelude.{◌≡◌, ◌++◌, ◌∷◌, [], IfOk, OnOk, OnErr, length, decimal};
ghost use Rattle.std.specs.List.{flat_map};
ghost use Rattle.fixed_point.specs.Bytes.{bytes32, bytes64};
ghost use Rattle.nbody_model.specs.Texts.{kick_line, event_word, event_ranks, event_line, trace_block, bins_record};
ghost use Rattle.run_session.specs.Spaced.{spaced_numbers, spaced_signed};

use fixed_point::Memory;
use nbody_model::{Event, EventKind, Field, Record};
use std::alloc::Global;
use text_words::{push_spaced, push_spaced_signed, push_unsigned};

// Puts numbers behind a line, each after a space.
#[tactic(auto, unfolding(crate::specs::Spaced::spaced_numbers))]
fn push_all(line: &mut Vec<u8>, numbers: &[u64]) -> Result<(), Memory>
    ensures { OnOk result (line.new.items ≡ line.old.items ++ spaced_numbers numbers.now) }
{
    for number in numbers {
        push_spaced(line, *number)?;
    }
    Ok(())
}

// Puts the axes of a vector behind a line, each after a space.
#[tactic(auto, unfolding(crate::specs::Spaced::spaced_signed))]
fn push_vector(line: &mut Vec<u8>, v: &[i128; 3]) -> Result<(), Memory>
    ensures { OnOk result (line.new.items ≡ line.old.items ++ spaced_signed v.now) }
{
    for number in v {
        push_spaced_signed(line, *number)?;
    }
    Ok(())
}

// ---- the kick file

fn kick_line(alloc: Global, kick: &Record) -> Result<Vec<u8>, Memory>
    ensures { IfOk result (λ line. line.items ≡ kick_line kick.now) }
{
    let mut line = Vec::new(alloc);
    push_unsigned(&mut line, u128::from(kick.tick))?;
    let counts = [
        u64::from(kick.bin),
        u64::from(kick.whole),
        u64::from(kick.fast),
        kick.pairs,
        kick.fast_pairs,
    ];
    push_all(&mut line, &counts)?;
    push_vector(&mut line, &kick.total)?;
    line.push(b'\n')?;
    Ok(line)
}

/// Puts the line of a kick behind those of others.
pub(crate) fn push_kick(alloc: Global, lines: &mut Vec<u8>, kick: &Record) -> Result<(), Memory>
    ensures ok { OnOk result (lines.new.items ≡ lines.old.items ++ kick_line kick.now) }
    ensures err { OnErr result (lines.new.items ≡ lines.old.items) }
{
    let line = kick_line(alloc, kick)?;
    lines.extend_from_slice(&line)?;
    Ok(())
}

// ---- the trace file

fn event_word(kind: EventKind) -> &'static [u8]
    ensures { result.now ≡ event_word kind }
{
    match kind {
        EventKind::Build => b"build",
        EventKind::Walk => b"walk",
        EventKind::Add => b"add",
        EventKind::Share => b"share",
        EventKind::Table => b"table",
        EventKind::Ask => b"ask",
        EventKind::Reply => b"reply",
        EventKind::Sums => b"sums",
        EventKind::Want => b"want",
        EventKind::Members => b"members",
        EventKind::Parts => b"parts",
    }
}

// Puts the ranks of an event behind its word, and its size behind them.
#[tactic(auto, unfolding(crate::specs::Spaced::spaced_numbers))]
fn push_ranks(line: &mut Vec<u8>, event: &Event) -> Result<(), Memory>
    ensures { OnOk result (line.new.items ≡ line.old.items ++ spaced_numbers (event_ranks event.now ++ event.now.size ∷ [])) }
{
    let from = u64::from(event.from);
    match event.kind {
        EventKind::Build | EventKind::Walk | EventKind::Add | EventKind::Share => {
            push_all(line, &[from, event.size])
        }
        EventKind::Table
        | EventKind::Ask
        | EventKind::Reply
        | EventKind::Sums
        | EventKind::Want
        | EventKind::Members
        | EventKind::Parts => push_all(line, &[from, u64::from(event.to), event.size]),
    }
}

// Puts the line of an event behind others.
fn push_event(lines: &mut Vec<u8>, event: &Event) -> Result<(), Memory>
    ensures { OnOk result (lines.new.items ≡ lines.old.items ++ event_line event.now) }
{
    lines.extend_from_slice(event_word(event.kind))?;
    push_ranks(lines, event)?;
    lines.push(b'\n')?;
    Ok(())
}

// Puts the lines of events behind others.
fn push_events(lines: &mut Vec<u8>, events: &[Event]) -> Result<(), Memory>
    ensures { OnOk result (lines.new.items ≡ lines.old.items ++ flat_map event_line events.now) }
{
    for event in events {
        push_event(lines, event)?;
    }
    Ok(())
}

fn trace_block(alloc: Global, field: &Field) -> Result<Vec<u8>, Memory>
    ensures { IfOk result (λ block. block.items ≡ trace_block (length field.now.forces, field.now.events)) }
{
    let mut block = Vec::from_slice(alloc, b"force")?;
    push_spaced(&mut block, field.forces.len() as u64)?;
    block.push(b'\n')?;
    push_events(&mut block, &field.events)?;
    Ok(block)
}

/// Puts the lines of a force and its events behind those of others.
pub(crate) fn push_forces(alloc: Global, lines: &mut Vec<u8>, field: &Field) -> Result<(), Memory>
    ensures ok { OnOk result (lines.new.items ≡ lines.old.items ++ trace_block (length field.now.forces, field.now.events)) }
    ensures err { OnErr result (lines.new.items ≡ lines.old.items) }
{
    let block = trace_block(alloc, field)?;
    lines.extend_from_slice(&block)?;
    Ok(())
}

// ---- the bin file

// Puts a number behind bytes, in four bytes, the lowest first.
fn push_count(bytes: &mut Vec<u8>, n: usize) -> Result<(), Memory>
    ensures { OnOk result (bytes.new.items ≡ bytes.old.items ++ bytes32 n) }
{
    let all = (n as u64).to_le_bytes();
    bytes.extend_from_slice(&all[..4])?;
    Ok(())
}

// Puts ids behind bytes, each in eight bytes, the lowest first.
fn push_ids(bytes: &mut Vec<u8>, ids: &[u64]) -> Result<(), Memory>
    ensures { OnOk result (bytes.new.items ≡ bytes.old.items ++ flat_map bytes64 ids.now) }
{
    for id in ids {
        bytes.extend_from_slice(&id.to_le_bytes())?;
    }
    Ok(())
}

fn bins_record(alloc: Global, fast: &[u64]) -> Result<Vec<u8>, Memory>
    ensures { IfOk result (λ bytes. bytes.items ≡ bins_record fast.now) }
{
    let mut record = Vec::new(alloc);
    push_count(&mut record, fast.len())?;
    push_ids(&mut record, fast)?;
    Ok(record)
}

/// Puts the record of a fast part behind those of others.
pub(crate) fn push_part(alloc: Global, bins: &mut Vec<u8>, fast: &[u64]) -> Result<(), Memory>
    ensures ok { OnOk result (bins.new.items ≡ bins.old.items ++ bins_record fast.now) }
    ensures err { OnErr result (bins.new.items ≡ bins.old.items) }
{
    let record = bins_record(alloc, fast)?;
    bins.extend_from_slice(&record)?;
    Ok(())
}
