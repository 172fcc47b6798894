// Guesses of roots, inverses and ratios. Nothing rests on them but speed.
use crate::whole::even_zeros;
use fixed_point::{high_half, high_product, inverse_root};

/// Guesses for a number: its root, or one less; and near 2^123 over the number times 2^zeros, less 4.
#[derive(Clone, Copy)]
pub struct Guess {
    pub root: u64,
    pub inverse: u64,
    zeros: u32,
    inverse_root: u64,
    doubled: u64,
}

impl Guess {
    /// Guesses for n.
    pub fn of(n: u64) -> Guess {
        let zeros = even_zeros(n);
        let top = n.wrapping_shl(zeros);
        let near = inverse_root(top);
        let root = (high_product(top, near) >> 29).wrapping_shr(zeros / 2);
        let inverse_root = near.wrapping_shl(1);
        let doubled = high_product(inverse_root, inverse_root).wrapping_shl(1);
        let excess = high_product(top, doubled);
        let factor = 0x4000_0000_0000_0000u64
            .wrapping_sub(excess)
            .wrapping_shl(1);
        Guess {
            root,
            inverse: high_product(doubled, factor).wrapping_sub(4),
            zeros,
            inverse_root,
            doubled,
        }
    }

    /// Near 2^92 over the root times 2^(zeros / 2).
    pub fn over_root(self, root: u64) -> u64 {
        let top = root.wrapping_shl(self.zeros / 2).wrapping_shl(31);
        let excess = high_product(top, self.inverse_root);
        let factor = 0x4000_0000_0000_0000u64
            .wrapping_sub(excess)
            .wrapping_shl(1);
        high_product(self.inverse_root, factor)
    }

    /// Near 2^20 times a length over the root.
    pub fn direction(self, over_root: u64, length: u64) -> u64 {
        let shift = 42u32.wrapping_sub(self.zeros / 2);
        high_product(length.wrapping_shl(32), over_root.wrapping_shl(2)).wrapping_shr(shift)
    }

    /// A strength over the number and its root, as a number over a power of two.
    pub fn ratio(self, over_root: u64, strength: u128) -> (u64, u32) {
        let zeros = strength.leading_zeros();
        let inverse = high_product(self.doubled, over_root.wrapping_shl(2));
        let top = high_half(strength.wrapping_shl(zeros));
        let whole = high_product(top, inverse.wrapping_shl(1)) >> 32;
        let shift = zeros
            .wrapping_sub(4)
            .wrapping_sub(self.zeros)
            .wrapping_sub(self.zeros / 2);
        let more = shift.saturating_sub(63).min(63);
        (whole.wrapping_shr(more).saturating_sub(1), shift.min(63))
    }
}
