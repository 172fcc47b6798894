// What is printed of bodies that were read.
ghost use Rattle.std.specs.Prelude.{◌≡◌, ◌++◌, ◌<◌, sum_by, length, IfOk, OnOk};
ghost use Rattle.nbody_model.specs.Bodies.{IsValid};
ghost use Rattle.gadget.specs.Texts.{totals_text, check_text, type_text, types_text, show_text};

use crate::texts::{push_counted, push_vector};
use fixed_point::Memory;
use nbody_model::Body;
use particle_set::BodySet;
use snap_file::Head;
use std::alloc::Global;

fn mass_of(body: &Body) -> u32
    ensures { result ≡ body.now.mass }
{
    body.mass
}

fn total_mass(bodies: &[Body]) -> u64
    requires { IsValid bodies.now }
    ensures { result ≡ sum_by (λ b. b.mass) bodies.now }
{
    bodies.iter().map(|b| u64::from(mass_of(b))).sum()
}

// How many bodies there are, their mass and their momentum.
fn push_totals(line: &mut Vec<u8>, set: &BodySet) -> Result<(), Memory>
    ensures { OnOk result (line.new.items ≡ line.old.items ++ totals_text set.now) }
{
    push_counted(line, b"bodies", set.len() as u128)?;
    push_counted(line, b" mass", u128::from(total_mass(set.bodies())))?;
    line.extend_from_slice(b" momentum")?;
    push_vector(line, &set.total_momentum())?;
    line.push(b'\n')?;
    Ok(())
}

/// The line of bodies that a run would begin with.
pub fn check_line(alloc: Global, set: &BodySet) -> Result<Vec<u8>, Memory>
    ensures { IfOk result (λ line. line.items ≡ check_text set.now) }
{
    let mut line = Vec::from_slice(alloc, b"ok ")?;
    push_totals(&mut line, set)?;
    Ok(line)
}

// The line of a kind: how many bodies of it a snapshot has.
fn push_type(lines: &mut Vec<u8>, head: &Head, kind: usize) -> Result<(), Memory>
    requires { kind < 6 }
    ensures { OnOk result (lines.new.items ≡ lines.old.items ++ type_text head.now kind) }
{
    push_counted(lines, b"type", kind as u128)?;
    push_counted(lines, b" bodies", u128::from(head.counts[kind]))?;
    lines.push(b'\n')?;
    Ok(())
}

fn push_types(lines: &mut Vec<u8>, head: &Head) -> Result<(), Memory>
    ensures { OnOk result (lines.new.items ≡ lines.old.items ++ types_text head.now) }
{
    push_type(lines, head, 1)?;
    push_type(lines, head, 2)?;
    push_type(lines, head, 3)?;
    push_type(lines, head, 4)?;
    push_type(lines, head, 5)
}

/// The lines of a snapshot: its tick, number and totals, and then how many bodies of each kind it has.
pub fn show_lines(alloc: Global, head: &Head, set: &BodySet) -> Result<Vec<u8>, Memory>
    ensures { IfOk result (λ lines. lines.items ≡ show_text head.now set.now) }
{
    let mut lines = Vec::new(alloc);
    push_counted(&mut lines, b"tick", u128::from(head.tick))?;
    push_counted(&mut lines, b" number", u128::from(head.number))?;
    lines.push(b' ')?;
    push_totals(&mut lines, set)?;
    push_types(&mut lines, head)?;
    Ok(lines)
}
