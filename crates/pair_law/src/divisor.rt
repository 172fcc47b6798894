// Quotients by one divisor, through its inverse.
ghost use Rattle.std.specs.Prelude.{◌≡◌, ◌<◌, ◌≤◌, ◌+◌, ◌*◌, ◌/◌, ◌^◌, unsigned_abs, IsTrue};
ghost use Rattle.nbody_model.specs.Scaling.{◌÷◌};
ghost use Rattle.pair_law.specs.Conditions.{IsInverse};

use crate::whole::{even_zeros, low_half};
use fixed_point::high_product;

/// A divisor, and 2^123 over the divisor times 2^zeros, at most 8 less. With it a quotient costs two products; where
/// these don't settle it, a division is made.
#[derive(Clone, Copy)]
pub struct Divisor {
    pub value: u64,
    zeros: u32,
    inverse: u64,
    ghost inverted: { IsInverse value zeros inverse },
}

// The quotient by a division.
#[cold]
#[inline(never)]
fn divided(x: u128, value: u64) -> u128
    requires { 0 < value }
    ensures { result ≡ x / value }
{
    x / value as u128
}

// The inverse by a division.
#[cold]
#[inline(never)]
#[tactic(auto, using(crate::proofs::Inverses::inverse_small))]
fn inverted(shifted: u64) -> u64
    requires high { 2 ^ 62 ≤ shifted }
    ensures small { result ≤ 2 ^ 62 }
    ensures below { result * shifted ≤ 2 ^ 123 }
    ensures above { 2 ^ 123 ≤ (result + 8) * shifted }
{
    ((1u128 << 123) / shifted as u128) as u64
}

// The inverse, by a guess of it.
#[tactic(auto, using(crate::proofs::Inverses::guess_small, crate::proofs::Inverses::guess_above))]
fn inverse_of(shifted: u64, near: u64) -> u64
    requires high { 2 ^ 62 ≤ shifted }
    ensures small { result ≤ 2 ^ 62 }
    ensures below { result * shifted ≤ 2 ^ 123 }
    ensures above { 2 ^ 123 ≤ (result + 8) * shifted }
{
    if near > 0x4000_0000_0000_0000 {
        return inverted(shifted);
    }
    let whole = near as u128 * shifted as u128;
    if whole > 1 << 123 {
        return inverted(shifted);
    }
    if (1 << 123) - whole > 8 * shifted as u128 {
        return inverted(shifted);
    }
    near
}

impl Divisor {
    /// A divisor that isn't 0, with a guess of the inverse.
    pub fn new(value: u64, near: u64) -> Divisor
        requires { 0 < value }
        ensures { result.value ≡ value }
    {
        let zeros = even_zeros(value);
        let inverse = inverse_of(value << zeros, near);
        Divisor {
            value,
            zeros,
            inverse,
        }
    }

    /// The quotient, rounded down, by the digits of the number above the lowest `cut`.
    pub fn divide(self, x: u128, cut: u32) -> u128
        requires { cut < 64 }
        ensures { result ≡ x / self.value }
    {
        let top = x >> cut;
        if top >= 0x8000_0000_0000_0000 {
            return divided(x, self.value);
        }
        let cuts = cut + self.zeros;
        if cuts > 59 {
            return divided(x, self.value);
        }
        let top = top as u64;
        let shift = 59 - cuts;
        let low = high_product(top, self.inverse) >> shift;
        let high = high_product(top + 1, self.inverse + 8) >> shift;
        if low != high {
            return divided(x, self.value);
        }
        low as u128
    }
}

// The quotient by 2^21 times a divisor, rounded down.
#[tactic(auto, using(crate::proofs::Twice::shifted_twice))]
fn divide_shifted(x: u128, divisor: Divisor, cut: u32) -> u128
    requires { cut < 64 }
    ensures { result ≡ x / (divisor.value * 2 ^ 21) }
{
    divisor.divide(x, cut) >> 21
}

// Whether two bounds of a quotient agree, and what they were found by is in range.
fn agrees(whole: u128, cuts: u32, low: u64, high: u64) -> bool
    ensures { IsTrue result → (whole < 2 ^ 63) × (cuts ≤ 59) × (low ≡ high) }
{
    whole < 0x8000_0000_0000_0000 && cuts <= 59 && low == high
}

/// The quotient, rounded down, and whether that is settled, by the digits of the number above the lowest `cut`. The
/// number is at most `all`.
#[tactic(auto, using(crate::proofs::Inverses::near_small))]
pub fn near_quotient(x: u128, all: u128, divisor: Divisor, cut: u32) -> (u64, bool)
    requires most { x ≤ all }
    requires cut { cut < 64 }
    ensures small { result.0 ≤ 2 ^ 62 }
    ensures value { IsTrue result.1 → result.0 ≡ x / divisor.value }
{
    let top = low_half(x >> cut);
    let cuts = cut + divisor.zeros;
    let shift = 59u32.saturating_sub(cuts);
    let low = high_product(top, divisor.inverse) >> shift;
    let high = high_product(top.wrapping_add(1), divisor.inverse + 8) >> shift;
    (low, agrees(all >> cut, cuts, low, high))
}

/// The quotient of a signed number, rounded toward zero, and whether that is settled.
pub fn near_over(z: i128, all: u128, divisor: Divisor, cut: u32) -> (i64, bool)
    requires small { unsigned_abs z < 2 ^ 127 }
    requires most { unsigned_abs z ≤ all }
    requires cut { cut < 64 }
    ensures value { IsTrue result.1 → result.0 ≡ z ÷ divisor.value }
{
    let (size, settled) = near_quotient(z.unsigned_abs(), all, divisor, cut);
    let size = size as i64;
    (if z < 0 { -size } else { size }, settled)
}

/// How many of the lowest digits to cut from numbers, where `all` has the digits of all of them.
pub fn cut_of(all: u128) -> u32
    ensures { result < 64 }
{
    65u32.saturating_sub(all.leading_zeros()).min(63)
}

/// The quotient of a signed number, rounded toward zero.
pub fn over(z: i128, divisor: Divisor, cut: u32) -> i128
    requires small { unsigned_abs z < 2 ^ 127 }
    requires cut { cut < 64 }
    ensures { result ≡ z ÷ divisor.value }
{
    let size = divisor.divide(z.unsigned_abs(), cut) as i128;
    if z < 0 { -size } else { size }
}

/// The quotient of a signed number by 2^21 times the divisor, rounded toward zero.
pub fn over_shifted(z: i128, divisor: Divisor, cut: u32) -> i128
    requires small { unsigned_abs z < 2 ^ 127 }
    requires cut { cut < 64 }
    ensures { result ≡ z ÷ (divisor.value * 2 ^ 21) }
{
    let size = divide_shifted(z.unsigned_abs(), divisor, cut) as i128;
    if z < 0 { -size } else { size }
}
