// The places of nodes, where forces are added up.
ghost use Rattle.std.specs.Prelude.{◌≡◌, ◌<◌, ◌≢◌, ◌^◌, length};
ghost use Rattle.fixed_point.specs.Vectors.{IsBelow, sum_of};
ghost use Rattle.dual_walk.specs.Places.{moved, value_at};

use fixed_point::V3;

/// Adds a force to place `i` and takes it from place `j`. Nothing else changes, so the sum over the places stays.
pub fn add_pair(places: &mut [V3], i: usize, j: usize, force: V3)
    requires differ { i ≢ j }
    requires first { i < length places.old }
    requires second { j < length places.old }
    requires raised { IsBelow (2 ^ 112) (value_at places.old i) }
    requires lowered { IsBelow (2 ^ 112) (value_at places.old j) }
    requires force { IsBelow (2 ^ 112) force }
    ensures moved { places.new ≡ moved places.old i j force }
    ensures kept { sum_of (λ v. v) places.new ≡ sum_of (λ v. v) places.old }
{
    if i < j {
        let (front, back) = places.split_at_mut(j);
        let raised = front[i].plus(force);
        let lowered = back[0].plus(force.negated());
        front[i] = raised;
        back[0] = lowered;
    } else {
        let (front, back) = places.split_at_mut(i);
        let raised = back[0].plus(force);
        let lowered = front[j].plus(force.negated());
        back[0] = raised;
        front[j] = lowered;
    }
}
