// The class of a place, breadth first.
ghost use Rattle.std.specs.Prelude.{◌≡◌, ◌<◌, ◌≤◌, ◌^◌, ◌∷◌, [], length, false, get_or, OnOk};
ghost use Rattle.std.specs.List.{AllByRecursion};
ghost use Rattle.cell_space.specs.Cells.{InBox};
ghost use Rattle.groups.specs.Groups.{web};
ghost use Rattle.groups.specs.Spreading.{AllBelow, IsTaken, IsSpread, IsClosed, IsClass};

use fixed_point::Memory;
use neighbour_find::Finder;

// Marks a place and puts it on the list, if it wasn't seen.
fn take_one(j: u32, seen: &mut [bool], list: &mut Vec<u32>) -> Result<(), Memory>
    requires { j < length seen.old }
    ensures as_long { length seen.new ≡ length seen.old }
    ensures ok { OnOk result (IsTaken (j ∷ []) seen.old seen.new list.old.items list.new.items) }
{
    if seen[j as usize] {
        return Ok(());
    }
    list.push(j)?;
    seen[j as usize] = true;
    Ok(())
}

// The same for each of some places.
fn take_all(out: &[u32], seen: &mut [bool], list: &mut Vec<u32>) -> Result<(), Memory>
    requires { AllBelow (length seen.old) out.now }
    ensures as_long { length seen.new ≡ length seen.old }
    ensures ok { OnOk result (IsTaken out.now seen.old seen.new list.old.items list.new.items) }
{
    for e in 0..out.len() {
        take_one(out[e], seen, list)?;
    }
    Ok(())
}

/// Makes `list` the places that are joined to `p`, and marks them.
pub(crate) fn spread(
    finder: &Finder,
    reach: u32,
    p: u32,
    seen: &mut [bool],
    list: &mut Vec<u32>,
    out: &mut Vec<u32>,
) -> Result<(), Memory>
    requires few { length finder.now ≤ 1048576 }
    requires at { p < length finder.now }
    requires as_long { length seen.old ≡ length finder.now }
    requires in_box { AllByRecursion (λ b. InBox b.motion.pos) finder.now }
    requires new { get_or seen.old p false ≡ false }
    requires closed { IsClosed (web reach finder.now) seen.old }
    ensures as_long { length seen.new ≡ length seen.old }
    ensures ok { OnOk result (IsClass (web reach finder.now) p seen.old seen.new list.new.items) }
{
    list.clear();
    list.push(p)?;
    seen[p as usize] = true;
    let mut cursor = 0usize;
    while cursor < list.len() {
        finder.near(list[cursor] as usize, reach, out)?;
        take_all(out, seen, list)?;
        cursor += 1;
    }
    Ok(())
}
