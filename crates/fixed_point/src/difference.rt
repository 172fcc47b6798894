// Differences of coordinates on a circle of 2^32.
ghost use Rattle.std.specs.Prelude.{◌≡◌, pos, ◌^◌, ◌≤ℤ◌, ◌<ℤ◌, ◌+ℤ◌, neg_ℤ};
ghost use Rattle.std.specs.Int.{int_rem_euclid};
ghost use Rattle.fixed_point.specs.Fixed.{wrapped};

/// The number in `[-2^31, 2^31)` that is congruent to `b - a` modulo 2^32.
pub fn wrap_diff(a: u32, b: u32) -> i64
    ensures value { result ≡ wrapped a b }
    ensures low { neg_ℤ (pos (2 ^ 31)) ≤ℤ result }
    ensures high { result <ℤ pos (2 ^ 31) }
    ensures congruent { int_rem_euclid (pos a +ℤ result) (pos (2 ^ 32)) ≡ pos b }
{
    let d = b.wrapping_sub(a);
    if d < 0x8000_0000 {
        d as i64
    } else {
        d as i64 - 0x1_0000_0000
    }
}
