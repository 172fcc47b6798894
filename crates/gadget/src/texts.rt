// What is printed at the end.
ghost use Rattle.std.specs.Prelude.{◌≡◌, ◌++◌, IfOk, OnOk};
ghost use Rattle.nbody_model.specs.Bodies.{vector};
ghost use Rattle.gadget.specs.Texts.{spaced, counted, vector_text, kind_text, param_text, list_text, table_text, expansion_text, status_words, status_text, IsNotMissing};

use crate::catalogue_texts::push_catalogue_fault;
use crate::restart_texts::push_restart_err;
use crate::snap_texts::push_snap_err;
use crate::status::Status;
use ewald_table::TableErr;
use expansion_table::ExpErr;
use fixed_point::Memory;
use output_schedule::OutputErr;
use param_file::{ParamErr, ParamKind};
use restart_files::RestartErr;
use snap_file::SnapErr;
use std::alloc::Global;
use store_io::Text;
use text_words::{push_spaced, push_spaced_signed, push_unsigned};

const USAGE: &[u8] =
    b"usage: gadget run PARAM RANKS | resume PARAM RESTART RANKS | check PARAM | show SNAP | make COUNT SEED NAME | groups SNAP LINK MIN NAME | links FIRST SECOND NAME";

/// Puts some words and a number behind a line.
pub fn push_counted(line: &mut Vec<u8>, words: &[u8], n: u128) -> Result<(), Memory>
    ensures { OnOk result (line.new.items ≡ line.old.items ++ (words.now ++ spaced n)) }
{
    line.extend_from_slice(words)?;
    line.push(b' ')?;
    push_unsigned(line, n)
}

/// Puts three numbers behind a line, each after a space.
pub fn push_vector(line: &mut Vec<u8>, v: &[i128; 3]) -> Result<(), Memory>
    ensures { OnOk result (line.new.items ≡ line.old.items ++ vector_text (vector v.now)) }
{
    push_spaced_signed(line, v[0])?;
    push_spaced_signed(line, v[1])?;
    push_spaced_signed(line, v[2])
}

// The words for what is wrong with a parameter file.
fn kind_words(kind: ParamKind) -> &'static [u8]
    requires { IsNotMissing kind }
    ensures { result.now ≡ kind_text kind }
{
    match kind {
        ParamKind::Unknown => b"unknown",
        ParamKind::NoValue => b"no value",
        ParamKind::Repeated => b"repeated",
        ParamKind::NotNumber => b"not a number",
        ParamKind::OutOfRange => b"out of range",
        ParamKind::Clash => b"clash",
        ParamKind::Missing(_) => unreachable!(),
        ParamKind::Memory => b"",
    }
}

fn push_kind(line: &mut Vec<u8>, kind: ParamKind) -> Result<(), Memory>
    ensures { OnOk result (line.new.items ≡ line.old.items ++ kind_text kind) }
{
    match kind {
        ParamKind::Missing(row) => push_name(line, b"missing ", row.as_bytes()),
        other => Ok(line.extend_from_slice(kind_words(other))?),
    }
}

fn push_param_err(line: &mut Vec<u8>, err: &ParamErr) -> Result<(), Memory>
    ensures { OnOk result (line.new.items ≡ line.old.items ++ param_text err.now) }
{
    push_counted(line, b"parameter line", u128::from(err.line))?;
    line.push(b' ')?;
    push_kind(line, err.kind)
}

fn push_output_err(line: &mut Vec<u8>, err: &OutputErr) -> Result<(), Memory>
    ensures { OnOk result (line.new.items ≡ line.old.items ++ list_text err.now) }
{
    match err {
        OutputErr::NotNumber { line: number } => {
            push_counted(line, b"outputs line", u128::from(*number))?;
            Ok(line.extend_from_slice(b" not a number")?)
        }
        OutputErr::TooMany { count } => {
            push_counted(line, b"outputs too many", u128::from(*count))
        }
        OutputErr::Memory => Ok(()),
    }
}

fn push_table_err(line: &mut Vec<u8>, err: &TableErr) -> Result<(), Memory>
    ensures { OnOk result (line.new.items ≡ line.old.items ++ table_text err.now) }
{
    match err {
        TableErr::Tag => Ok(line.extend_from_slice(b"tag")?),
        TableErr::GridRange { g } => push_counted(line, b"grid", u128::from(*g)),
        TableErr::Length { want, got } => {
            push_counted(line, b"length", u128::from(*want))?;
            push_spaced(line, *got)
        }
        TableErr::PlaneNotZero { index } => push_counted(line, b"plane", u128::from(*index)),
        TableErr::Memory => Ok(()),
    }
}

fn push_table_fault(line: &mut Vec<u8>, err: &TableErr) -> Result<(), Memory>
    ensures { OnOk result (line.new.items ≡ line.old.items ++ status_words (Status.Table err.now)) }
{
    line.extend_from_slice(b"table ")?;
    push_table_err(line, err)
}

fn push_expansion_err(line: &mut Vec<u8>, err: &ExpErr) -> Result<(), Memory>
    ensures { OnOk result (line.new.items ≡ line.old.items ++ expansion_text err.now) }
{
    match err {
        ExpErr::Tag => Ok(line.extend_from_slice(b"tag")?),
        ExpErr::Length { want, got } => {
            push_counted(line, b"length", u128::from(*want))?;
            push_spaced(line, *got)
        }
        ExpErr::Spacing { s } => push_counted(line, b"spacing", u128::from(*s)),
        ExpErr::Entry { index } => push_counted(line, b"entry", u128::from(*index)),
        ExpErr::Short { want, got } => {
            push_counted(line, b"short", u128::from(*want))?;
            push_spaced(line, *got)
        }
        ExpErr::Memory => Ok(()),
    }
}

fn push_expansion_fault(line: &mut Vec<u8>, err: &ExpErr) -> Result<(), Memory>
    ensures { OnOk result (line.new.items ≡ line.old.items ++ status_words (Status.Expansion err.now)) }
{
    line.extend_from_slice(b"expansion ")?;
    push_expansion_err(line, err)
}

/// Some words, and a name.
pub fn push_name(line: &mut Vec<u8>, words: &[u8], name: &[u8]) -> Result<(), Memory>
    ensures { OnOk result (line.new.items ≡ line.old.items ++ (words.now ++ name.now)) }
{
    line.extend_from_slice(words)?;
    line.extend_from_slice(name)?;
    Ok(())
}

/// Twice some words and a number.
pub fn push_two(
    line: &mut Vec<u8>,
    first: &[u8],
    m: u64,
    second: &[u8],
    n: u64,
) -> Result<(), Memory>
    ensures { OnOk result (line.new.items ≡ line.old.items ++ (counted first.now m ++ counted second.now n)) }
{
    push_counted(line, first, u128::from(m))?;
    push_counted(line, second, u128::from(n))?;
    Ok(())
}

fn push_mom_range(line: &mut Vec<u8>, tick: u64, bin: u64, id: u64, axis: u64) -> Result<(), Memory>
    ensures { OnOk result (line.new.items ≡ line.old.items ++ status_words (Status.MomRange tick bin id axis)) }
{
    push_two(line, b"momentum range tick", tick, b" bin", bin)?;
    push_two(line, b" id", id, b" axis", axis)?;
    Ok(())
}

fn push_step_range(line: &mut Vec<u8>, tick: u64, id: u64) -> Result<(), Memory>
    ensures { OnOk result (line.new.items ≡ line.old.items ++ status_words (Status.StepRange tick id)) }
{
    push_counted(line, b"step range tick", u128::from(tick))?;
    push_counted(line, b" id", u128::from(id))
}

fn push_too_long(line: &mut Vec<u8>, name: &Text, len: u64) -> Result<(), Memory>
    ensures { OnOk result (line.new.items ≡ line.old.items ++ status_words (Status.TooLong name.now len)) }
{
    push_name(line, b"too long ", name.bytes())?;
    push_spaced(line, len)
}

fn push_snapshot_fault(line: &mut Vec<u8>, err: &SnapErr) -> Result<(), Memory>
    ensures { OnOk result (line.new.items ≡ line.old.items ++ status_words (Status.Snapshot err.now)) }
{
    line.extend_from_slice(b"snapshot ")?;
    push_snap_err(line, err)
}

fn push_restart_fault(line: &mut Vec<u8>, err: &RestartErr) -> Result<(), Memory>
    ensures { OnOk result (line.new.items ≡ line.old.items ++ status_words (Status.Restart err.now)) }
{
    line.extend_from_slice(b"restart ")?;
    push_restart_err(line, err)
}

// The words of a status, with no end of line.
fn push_status(line: &mut Vec<u8>, status: &Status) -> Result<(), Memory>
    ensures { OnOk result (line.new.items ≡ line.old.items ++ status_words status.now) }
{
    match status {
        Status::Done | Status::Stopped { .. } | Status::ConsoleFault => Ok(()),
        Status::Usage => Ok(line.extend_from_slice(USAGE)?),
        Status::Memory => Ok(line.extend_from_slice(b"no memory")?),
        Status::ReadFault { name } => push_name(line, b"read fault ", name.bytes()),
        Status::WriteFault { name } => push_name(line, b"write fault ", name.bytes()),
        Status::Absent { name } => push_name(line, b"absent ", name.bytes()),
        Status::TooLong { name, len } => push_too_long(line, name, *len),
        Status::Param(err) => push_param_err(line, err),
        Status::Outputs(err) => push_output_err(line, err),
        Status::Table(err) => push_table_fault(line, err),
        Status::Expansion(err) => push_expansion_fault(line, err),
        Status::Snapshot(err) => push_snapshot_fault(line, err),
        Status::Restart(err) => push_restart_fault(line, err),
        Status::Differs { name } => push_name(line, b"differs ", name.as_bytes()),
        Status::Catalogue { name, kind } => push_catalogue_fault(line, name, *kind),
        Status::MomRange {
            tick,
            bin,
            id,
            axis,
        } => push_mom_range(line, *tick, u64::from(*bin), *id, u64::from(*axis)),
        Status::StepRange { tick, id } => push_step_range(line, *tick, *id),
    }
}

/// The line of a command that wasn't done.
pub fn status_line(alloc: Global, status: &Status) -> Result<Vec<u8>, Memory>
    ensures { IfOk result (λ line. line.items ≡ status_text status.now) }
{
    let mut line = Vec::new(alloc);
    push_status(&mut line, status)?;
    line.push(b'\n')?;
    Ok(line)
}
