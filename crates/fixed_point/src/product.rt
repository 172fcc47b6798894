// Products of 64-bit numbers, by halves.
ghost use Rattle.std.specs.Prelude.{◌≡◌, ◌*◌, ◌/◌, ◌^◌};

/// The high half of a number.
pub fn high_half(n: u128) -> u64
    ensures { result ≡ n / 2 ^ 64 }
{
    (n >> 64) as u64
}

/// The high half of a product.
pub fn high_product(m: u64, n: u64) -> u64
    ensures { result ≡ m * n / 2 ^ 64 }
{
    high_half(m as u128 * n as u128)
}
