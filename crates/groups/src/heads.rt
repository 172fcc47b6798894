// The head of each place.
ghost use Rattle.std.specs.Prelude.{◌≡◌, ◌<◌, ◌≤◌, ◌+◌, ◌^◌, length, OnOk, IfOk};
ghost use Rattle.std.specs.List.{AllByRecursion};
ghost use Rattle.cell_space.specs.Cells.{InBox};
ghost use Rattle.nbody_model.specs.Bodies.{IsValid};
ghost use Rattle.groups.specs.Groups.{web, AreHeads};
ghost use Rattle.groups.specs.Spreading.{AllBelow, IsWritten, IsDone};

use crate::search::spread;
use fixed_point::Memory;
use nbody_model::Body;
use neighbour_find::Finder;
use std::alloc::Global;

// Writes the head of a class at its places.
fn write_head(p: u32, list: &[u32], heads: &mut [u32])
    requires { AllBelow (length heads.old) list.now }
    ensures { IsWritten p list.now heads.old heads.new }
{
    for e in 0..list.len() {
        heads[list[e] as usize] = p;
    }
}

// Goes on with the class of a place, if it wasn't seen.
fn mark_class(
    finder: &Finder,
    reach: u32,
    p: u32,
    seen: &mut [bool],
    heads: &mut [u32],
    list: &mut Vec<u32>,
    out: &mut Vec<u32>,
) -> Result<(), Memory>
    requires few { length finder.now ≤ 1048576 }
    requires in_box { AllByRecursion (λ b. InBox b.motion.pos) finder.now }
    requires at { p < length finder.now }
    requires done { IsDone (web reach finder.now) p seen.old heads.old }
    ensures as_long { length seen.new ≡ length seen.old }
    ensures as_many { length heads.new ≡ length heads.old }
    ensures ok { OnOk result (IsDone (web reach finder.now) (p + 1) seen.new heads.new) }
{
    if seen[p as usize] {
        return Ok(());
    }
    spread(finder, reach, p, seen, list, out)?;
    write_head(p, list, heads);
    Ok(())
}

/// For each body the place of the first body of its group, found breadth first.
pub(crate) fn heads_of(alloc: Global, bodies: &[Body], reach: u32) -> Result<Vec<u32>, Memory>
    requires valid { IsValid bodies.now }
    requires in_box { AllByRecursion (λ b. InBox b.motion.pos) bodies.now }
    ensures { IfOk result (λ heads. AreHeads (web reach bodies.now) heads.items) }
{
    let finder = Finder::new(alloc, bodies)?;
    let n = bodies.len();
    let mut seen = vec![in alloc; false; n]?;
    let mut heads = vec![in alloc; 0u32; n]?;
    let mut list = Vec::new(alloc);
    let mut out = Vec::new(alloc);
    for p in 0..n {
        mark_class(
            &finder, reach, p as u32, &mut seen, &mut heads, &mut list, &mut out,
        )?;
    }
    Ok(heads)
}
