// Forces on places.
ghost use Rattle.std.specs.Prelude.{◌≡◌, ◌≢◌, ◌<◌, ◌+◌, ◌*◌, ◌^◌, ℕ, length, if◌then◌else◌};
ghost use Rattle.fixed_point.specs.Vectors.{IsAtMost};
ghost use Rattle.rank_walk.specs.Slots.{flagged, lower, moved, sum_at_place, upper};

use crate::places::Places;
use fixed_point::V3;

/// Adds a force to one place and its negative to another.
#[tactic(auto, using(crate::proofs::Small::sum_fits))]
fn add_pair(sums: &mut [V3], i: usize, j: usize, force: V3)
    requires differ { i ≢ j }
    requires first { i < length sums.old }
    requires second { j < length sums.old }
    requires small_first { IsAtMost (2 ^ 126) (sum_at_place sums.old i) }
    requires small_second { IsAtMost (2 ^ 126) (sum_at_place sums.old j) }
    requires small_force { IsAtMost (2 ^ 86) force }
    ensures { sums.new ≡ moved sums.old i j force }
{
    let raised = sums[i].plus(force);
    let lowered = sums[j].plus(force.negated());
    sums[i] = raised;
    sums[j] = lowered;
}

/// Adds a force to the first of two places, or if turned to the second, and its negative to the other.
fn add_turned(sums: &mut [V3], x: Places, turned: bool, force: V3)
    requires differ { x.a ≢ x.b }
    requires first { x.a < length sums.old }
    requires second { x.b < length sums.old }
    requires small_first { IsAtMost (2 ^ 126) (sum_at_place sums.old x.a) }
    requires small_second { IsAtMost (2 ^ 126) (sum_at_place sums.old x.b) }
    requires small_force { IsAtMost (2 ^ 86) force }
    ensures { sums.new ≡ moved sums.old (upper turned x) (lower turned x) force }
{
    if turned {
        add_pair(sums, x.b as usize, x.a as usize, force);
    } else {
        add_pair(sums, x.a as usize, x.b as usize, force);
    }
}

/// Adds the force of an interaction, and counts it.
pub(crate) fn count_pair(sums: &mut Vec<V3>, count: &mut u64, x: Places, turned: bool, force: V3)
    requires differ { x.a ≢ x.b }
    requires first { x.a < length sums.old.items }
    requires second { x.b < length sums.old.items }
    requires few { count.old < 2 ^ 40 }
    requires small { (i : ℕ) → IsAtMost (count.old * 2 ^ 86) (sum_at_place sums.old.items i) }
    requires small_force { IsAtMost (2 ^ 86) force }
    ensures sums { sums.new.items ≡ moved sums.old.items (upper turned x) (lower turned x) force }
    ensures count { count.new ≡ count.old + 1 }
{
    add_turned(sums, x, turned, force);
    *count += 1;
}

/// Notes that two cells took part in an interaction.
pub(crate) fn touch(touched: &mut Vec<bool>, x: Places, turned: bool)
    requires first { x.a < length touched.old.items }
    requires second { x.b < length touched.old.items }
    ensures { touched.new.items ≡ flagged touched.old.items (upper turned x) (lower turned x) }
{
    if turned {
        touched[x.b as usize] = true;
        touched[x.a as usize] = true;
    } else {
        touched[x.a as usize] = true;
        touched[x.b as usize] = true;
    }
}
