// Of the groups with one descendant, the main one.
ghost use Rattle.std.specs.Prelude.{◌≡◌, ◌<◌, ◌≤◌, ◌+◌, ◌^◌, length, get_or, IfOk};
ghost use Rattle.merger_links.specs.Ties.{AreMains, AreWithin};

use crate::ties::Tie;
use fixed_point::Memory;
use std::alloc::Global;

// Makes the group at a place the main one of its descendant, if it shares more than the main one so far.
fn note(ties: &[Tie], i: usize, mains: &mut [Tie])
    requires at { (i < length ties.now) × (i < 2 ^ 32) }
    requires within { AreWithin ties.now (length mains.old) }
    requires mains { AreMains ties.now i (length mains.old) mains.old }
    ensures { AreMains ties.now (i + 1) (length mains.old) mains.new }
{
    let tie = ties[i];
    if tie.shared == 0 {
        return;
    }
    let place = tie.group as usize;
    if tie.shared <= mains[place].shared {
        return;
    }
    mains[place] = Tie {
        group: i as u32,
        shared: tie.shared,
    };
}

/// The main group of each of so many places.
pub(crate) fn mains_of(alloc: Global, ties: &[Tie], places: usize) -> Result<Vec<Tie>, Memory>
    requires few { length ties.now < 2 ^ 32 }
    requires within { AreWithin ties.now places }
    ensures { IfOk result (λ mains. AreMains ties.now (length ties.now) places mains.items) }
{
    let none = Tie {
        group: 0,
        shared: 0,
    };
    let mut mains = vec![in alloc; none; places]?;
    for i in 0..ties.len() {
        note(ties, i, &mut mains);
    }
    Ok(mains)
}
