// Quotients, with a division of 128 bits only where the operands need it.
ghost use Rattle.std.specs.Prelude.{◌≡◌, pos, ◌/◌, ◌%◌, ◌<◌, ◌+ℤ◌, ◌*ℤ◌, ◌≤ℤ◌, ◌<ℤ◌, int_div};
ghost use Rattle.std.specs.Int.{int_div_euclid, int_rem_euclid};

/// The quotient, rounded toward zero.
pub fn trunc_div(a: i128, b: i128) -> i128
    requires { pos 0 <ℤ b }
    ensures { result ≡ int_div a b }
{
    match (i64::try_from(a), i64::try_from(b)) {
        (Ok(a), Ok(b)) => (a / b) as i128,
        _ => a / b,
    }
}

/// The quotient rounded down, and the remainder, which is at least 0 and below `b`.
pub fn floor_div_mod(a: i128, b: i128) -> (i128, i128)
    requires { pos 0 <ℤ b }
    ensures quotient { result.0 ≡ int_div_euclid a b }
    ensures remainder { result.1 ≡ int_rem_euclid a b }
    ensures sum { a ≡ (result.0 *ℤ b) +ℤ result.1 }
    ensures low { pos 0 ≤ℤ result.1 }
    ensures high { result.1 <ℤ b }
{
    if a < 0 {
        let (quotient, rest) = div_mod((-1 - a) as u128, b as u128);
        (-1 - quotient as i128, b - 1 - rest as i128)
    } else {
        let (quotient, rest) = div_mod(a as u128, b as u128);
        (quotient as i128, rest as i128)
    }
}

// The quotient and the remainder, by one division.
fn div_mod(a: u128, b: u128) -> (u128, u128)
    requires { 0 < b }
    ensures quotient { result.0 ≡ a / b }
    ensures remainder { result.1 ≡ a % b }
{
    match (u64::try_from(a), u64::try_from(b)) {
        (Ok(a), Ok(b)) => (u128::from(a / b), u128::from(a % b)),
        _ => {
            let quotient = a / b;
            (quotient, a - quotient * b)
        }
    }
}
