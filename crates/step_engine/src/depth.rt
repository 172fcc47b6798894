// The depths of a step that rests, gathered on the way out.
ghost use Rattle.std.specs.Prelude.{◌≡◌, ◌<◌, ◌≤◌, ◌+◌, ℕ, length, slice_index, if◌then◌else◌};
ghost use Rattle.std.specs.List.{AllByRecursion};
ghost use Rattle.std.specs.List.Sorted.{IsStrictlyIncreasing};
ghost use Rattle.nbody_model.specs.Bodies.{has};
ghost use Rattle.step_engine.specs.Deeper.{DeepensBy, HasRoom, IsDeeper};
ghost use Rattle.step_engine.specs.Resumed.{DeepensEach, HasRoomBy, IsDeeperBy};

use crate::Depths;
use crate::halt::Halt;

// One more for each of these places.
fn add_part(depth: &mut Vec<u8>, fast: &[u32])
    requires within { (k : ℕ) → k < length fast.now → slice_index fast.now k < length depth.old.items }
    requires ascending { IsStrictlyIncreasing fast.now }
    requires shallow { AllByRecursion (λ d. d ≤ 20) depth.old.items }
    ensures { IsDeeper fast.now depth.old.items depth.new.items }
{
    for place in fast {
        depth[*place as usize] += 1;
    }
}

/// The same halt out of a step with these fast places: where it is a rest, the bodies there are one deeper.
pub(crate) fn deepen(halt: Halt, depth: &mut Vec<u8>, fast: &[u32]) -> Halt
    requires ascending { IsStrictlyIncreasing fast.now }
    requires room { HasRoom halt fast.now depth.old.items }
    ensures same { result ≡ halt }
    ensures deeper { DeepensBy halt fast.now depth.old.items depth.new.items }
{
    match halt {
        Halt::Rest { tick } => {
            add_part(depth, fast);
            Halt::Rest { tick }
        }
        other => other,
    }
}

// Adds to each depth the other one at its place, but so much at most.
fn add_depths(depth: &mut Vec<u8>, outer: &Depths, most: u8)
    requires long { length depth.old.items ≡ length outer.now }
    requires shallow { AllByRecursion (λ d. d ≤ 20) depth.old.items }
    requires small { most ≤ 20 }
    ensures { IsDeeperBy most outer.now depth.old.items depth.new.items }
{
    for place in 0..outer.len() {
        depth[place] += outer.get(place).min(most);
    }
}

/// The same halt inside so many unfinished steps: where it is a rest, each body is deeper by those of them that the other
/// depths tell.
pub(crate) fn deepen_each(halt: Halt, depth: &mut Vec<u8>, outer: &Depths, most: u8) -> Halt
    requires room { HasRoomBy halt outer.now depth.old.items }
    requires small { most ≤ 20 }
    ensures same { result ≡ halt }
    ensures deeper { DeepensEach halt most outer.now depth.old.items depth.new.items }
{
    match halt {
        Halt::Rest { tick } => {
            add_depths(depth, outer, most);
            Halt::Rest { tick }
        }
        other => other,
    }
}
