// Momenta, which lie within ±2^62.
ghost use Rattle.std.specs.Prelude.{◌^◌, ◌≤◌, SomeIff};
ghost use Rattle.fixed_point.specs.Fixed.{IsMomentum, kicked};

const LIMIT: i128 = 0x4000_0000_0000_0000;

// The momentum, where it is in range.
fn momentum_of(next: i128) -> Option<i64>
    ensures { SomeIff result (IsMomentum next) next }
{
    if next < -LIMIT {
        return None;
    }
    if LIMIT < next {
        return None;
    }
    Some(next as i64)
}

/// `p + h * change`, or none where that isn't within ±2^62. A change past 2^70 is decided without
/// the product.
pub fn scale_in_range(p: i64, h: u64, change: i128) -> Option<i64>
    requires momentum { IsMomentum p }
    requires positive { 1 ≤ h }
    requires small { h ≤ 2 ^ 19 }
    ensures { SomeIff result (IsMomentum (kicked p h change)) (kicked p h change) }
{
    if change > 1i128 << 70 {
        return None;
    }
    if change < -(1i128 << 70) {
        return None;
    }
    momentum_of(p as i128 + h as i128 * change)
}
