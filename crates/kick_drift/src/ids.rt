// What is known of every set.
ghost use Rattle.std.specs.Prelude.{map};
ghost use Rattle.std.specs.List.Sorted.{IsStrictlyIncreasing};

use particle_set::BodySet;

/// The bodies of a set ascend in id.
pub(crate) fn ids_ascend(set: &BodySet)
    ensures { IsStrictlyIncreasing (map (λ b. b.id) set.now) }
{
    let _bodies = set.bodies();
}
