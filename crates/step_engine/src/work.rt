// What a base step works with: room that is taken once, and what it counts.
ghost use Rattle.std.specs.Prelude.{◌≡◌, IfOk, [], length};
ghost use Rattle.nbody_model.specs.Evolve.{depths_of};

use crate::StepCount;
use fixed_point::Memory;
use nbody_model::Body;
use particle_set::BodySet;
use std::alloc::Global;

/// Room for the bodies and the ids of a part, the depth of each body, and the count of the kicks so far.
#[derive(Drop)]
pub(crate) struct Work {
    pub bodies: Vec<Body>,
    pub ids: Vec<u64>,
    pub depth: Vec<u8>,
    pub count: StepCount,
}

// A depth of 0 for each body.
fn no_depths(alloc: Global, set: &BodySet) -> Result<Vec<u8>, Memory>
    ensures { IfOk result (λ v. v.items ≡ depths_of [] set.now) }
{
    let depths = set.bodies().iter().map(|_body| 0u8).collect(alloc)?;
    Ok(depths)
}

impl Work {
    /// Room for all bodies of a set, with no depth and no kick yet.
    pub(crate) fn with_room(alloc: Global, set: &BodySet) -> Result<Work, Memory>
        ensures depth { IfOk result (λ w. w.depth.items ≡ depths_of [] set.now) }
        ensures kicks { IfOk result (λ w. w.count.kicks ≡ 0) }
        ensures interactions { IfOk result (λ w. w.count.interactions ≡ 0) }
    {
        Ok(Work {
            bodies: Vec::with_capacity(alloc, set.len())?,
            ids: Vec::with_capacity(alloc, set.len())?,
            depth: no_depths(alloc, set)?,
            count: StepCount {
                kicks: 0,
                interactions: 0,
            },
        })
    }
}
