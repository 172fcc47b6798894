// The part of some bodies that doesn't fit a bin.
ghost use Rattle.std.specs.Prelude.{◌≡◌, ◌≤◌, ◌<◌, ℕ, length, slice_index, IfOk};
ghost use Rattle.std.specs.List.Sorted.{IsStrictlyIncreasing};
ghost use Rattle.time_bins.specs.Parts.{AreOfFast, unfit_places};

use crate::rule::fits;
use fixed_point::{Memory, V3};
use nbody_model::{Body, Setup};
use std::alloc::Global;

/// The places, counted from 0 and ascending, of those bodies that don't fit a bin by the forces on them.
pub fn fast_part(
    alloc: Global,
    setup: &Setup,
    bodies: &[Body],
    forces: &[V3],
    bin: u8,
) -> Result<Vec<u32>, Memory>
    requires bin { bin ≤ 20 }
    requires few { length bodies.now ≤ 1048576 }
    requires equal { length forces.now ≡ length bodies.now }
    ensures places { IfOk result (λ places. places.items ≡ unfit_places setup.now bin bodies.now forces.now) }
    ensures ascending { IfOk result (λ places. IsStrictlyIncreasing places.items) }
    ensures within { IfOk result (λ places. (k : ℕ) → k < length places.items → slice_index places.items k < length bodies.now) }
    ensures fast { IfOk result (λ places. AreOfFast setup.now bin bodies.now forces.now places.items) }
{
    let mut places = Vec::new(alloc);
    for i in 0..bodies.len() {
        let body = &bodies[i];
        if !fits(setup, body, &forces[i], bin) {
            places.push(i as u32)?;
        }
    }
    Ok(places)
}
