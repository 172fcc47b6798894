// Signed sums, products and quotients, an operation each.
ghost use Rattle.std.specs.Prelude.{◌≡◌, ◌<◌, ◌≤◌, ◌+◌, ◌*◌, ◌/◌, ◌%◌, ◌^◌, ◌+ℤ◌, ◌-ℤ◌, ◌*ℤ◌, unsigned_abs};
ghost use Rattle.std.specs.Int.Count.{count_leading_zeros};
ghost use Rattle.nbody_model.specs.Scaling.{◌·◌, ◌÷◌};

use fixed_point::trunc_div;

/// A sum.
pub fn sum(y: i128, z: i128) -> i128
    requires { unsigned_abs y + unsigned_abs z < 2 ^ 127 }
    ensures value { result ≡ y +ℤ z }
    ensures size { unsigned_abs result ≤ unsigned_abs y + unsigned_abs z }
{
    y + z
}

/// A difference.
pub fn difference(y: i128, z: i128) -> i128
    requires { unsigned_abs y + unsigned_abs z < 2 ^ 127 }
    ensures value { result ≡ y -ℤ z }
    ensures size { unsigned_abs result ≤ unsigned_abs y + unsigned_abs z }
{
    y - z
}

/// A product.
#[tactic(auto, using(crate::proofs::Sizes::product_size))]
pub fn product(y: i128, z: i128) -> i128
    requires { unsigned_abs y * unsigned_abs z < 2 ^ 127 }
    ensures value { result ≡ y *ℤ z }
    ensures size { unsigned_abs result ≡ unsigned_abs y * unsigned_abs z }
{
    y * z
}

/// A multiple.
#[tactic(auto, using(model_laws::proofs::PairBounds::times_size))]
pub fn times(n: u128, z: i128) -> i128
    requires small { n < 2 ^ 127 }
    requires product { n * unsigned_abs z < 2 ^ 127 }
    ensures value { result ≡ n · z }
    ensures size { unsigned_abs result ≡ n * unsigned_abs z }
{
    n as i128 * z
}

/// A quotient, rounded toward zero.
pub fn quotient(z: i128, n: u128) -> i128
    requires some { 0 < n }
    requires small { n < 2 ^ 127 }
    ensures { result ≡ z ÷ n }
{
    trunc_div(z, n as i128)
}

/// The same number in 64 bits.
pub fn narrow(z: i128) -> i64
    requires { unsigned_abs z < 2 ^ 63 }
    ensures { result ≡ z }
{
    z as i64
}

/// The leading zeros of a number, one less where they are odd.
pub fn even_zeros(n: u64) -> u32
    ensures low { result ≤ count_leading_zeros 64 n }
    ensures high { count_leading_zeros 64 n ≤ result + 1 }
{
    let zeros = n.leading_zeros();
    zeros - zeros % 2
}

/// The low half of a number.
pub fn low_half(n: u128) -> u64
    ensures { result ≡ n % 2 ^ 64 }
{
    (n % 0x1_0000_0000_0000_0000) as u64
}
