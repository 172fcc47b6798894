// What a kick changes in one body.
ghost use Rattle.std.specs.Prelude.{◌≡◌, ◌<◌, ◌^◌, All, length, ℕ, ◌≢◌, slice_index, IfNone, IfSome};
ghost use Rattle.std.specs.List.Sorted.{IsStrictlyIncreasing};
ghost use Rattle.fixed_point.specs.Vectors.{IsAtMost, negative, plus};
ghost use Rattle.kick_drift.specs.Parts.{less_fast};

use fixed_point::V3;

// Where a number stands among ascending ones, if it does.
fn index_of(places: &[u32], place: u32) -> Option<usize>
    requires { IsStrictlyIncreasing places.now }
    ensures none { IfNone result ((k : ℕ) → k < length places.now → slice_index places.now k ≢ place) }
    ensures within { IfSome result (λ at. at < length places.now) }
    ensures some { IfSome result (λ at. slice_index places.now at ≡ place) }
{
    match places.binary_search(&place) {
        Ok(at) => Some(at),
        Err(_) => None,
    }
}

// A difference of forces.
fn less(slow: V3, quick: V3) -> V3
    requires slow { IsAtMost (2 ^ 118) slow }
    requires quick { IsAtMost (2 ^ 118) quick }
    ensures { result ≡ plus slow (negative quick) }
{
    slow.plus(quick.negated())
}

/// The force on the body at a place, less that among the fast ones where it is one of them.
pub(crate) fn change_at(place: u32, slow: V3, fast: &[u32], g: &[V3]) -> V3
    requires ascending { IsStrictlyIncreasing fast.now }
    requires equal { length g.now ≡ length fast.now }
    requires slow { IsAtMost (2 ^ 118) slow }
    requires quick { All (IsAtMost (2 ^ 118)) g.now }
    ensures { result ≡ less_fast fast.now g.now place slow }
{
    match index_of(fast, place) {
        Some(at) => less(slow, g[at]),
        None => slow,
    }
}
