// A search in numbers that rise.
ghost use Rattle.std.specs.Prelude.{◌≡◌, length};
ghost use Rattle.octree_build.specs.Trees.{Rises};
ghost use Rattle.octree_build.specs.Slots.{keys_below};

/// How many of some numbers that rise are below a bound.
#[tactic(auto, using(octree_build::proofs::Edges::goes_on, octree_build::proofs::Edges::stops))]
pub fn count_below(numbers: &[u128], bound: u128) -> usize
    requires { Rises (λ k. k) numbers.now }
    ensures { result ≡ keys_below numbers.now bound }
{
    let mut low = 0;
    let mut high = numbers.len();
    while low < high {
        let middle = low + (high - low) / 2;
        if numbers[middle] < bound {
            low = middle + 1;
        } else {
            high = middle;
        }
    }
    low
}
