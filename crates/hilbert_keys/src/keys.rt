// Keys: the numbers of positions along the curve.
ghost use Rattle.std.specs.Prelude.{◌≡◌, ◌≤◌, ◌<◌, ◌+◌, ◌-◌, ◌*◌, ◌/◌, ◌%◌, ◌^◌};
ghost use Rattle.cell_space.specs.Cells.{place};
ghost use Rattle.hilbert_keys.specs.Curve.{key};
ghost use Rattle.hilbert_keys.specs.Steps.{IsAt, eight_levels, spread};

use crate::double_steps::{double_step, spread_byte};

/// The bits of a coordinate that choose the children at the eight levels from one on.
fn byte(n: u32, level: u32) -> u8
    requires { level ≤ 24 }
    ensures { result ≡ n / 2 ^ (24 - level) % 256 }
{
    ((n >> (24 - level)) % 256) as u8
}

/// The same of a position: for each two levels two bits of z, of y and of x, those of the upper levels first.
fn interleaved(pos: [u32; 3], level: u32) -> u32
    requires { level ≤ 24 }
    ensures value { result ≡ eight_levels (place pos) level }
    ensures small { result < 2 ^ 24 }
{
    let [x, y, z] = pos;
    16 * spread_byte(byte(z, level))
        + (4 * spread_byte(byte(y, level)) + spread_byte(byte(x, level)))
}

// Where the curve stands in the cell of a level around a position: the cell's number, and 3 · corner + axis of its turn.
#[derive(Clone, Copy)]
struct Stand {
    number: u128,
    turn: u16,
}

/// From the cell of a level to that eight levels below.
#[tactic(auto, using(crate::proofs::DoubleSteps::fits_eight))]
fn go_on(pos: [u32; 3], level: u32, at: Stand) -> Stand
    requires level { level ≤ 24 }
    requires at { IsAt level (place pos) at.number at.turn }
    ensures { IsAt (level + 8) (place pos) result.number result.turn }
{
    let bits = interleaved(pos, level);
    let first = double_step(at.turn, (bits / 0x4_0000) as u16);
    let second = double_step(first / 64, (bits / 0x1000 % 64) as u16);
    let third = double_step(second / 64, (bits / 64 % 64) as u16);
    let fourth = double_step(third / 64, (bits % 64) as u16);
    let upper = (first % 64) as u32 * 64 + (second % 64) as u32;
    let lower = (third % 64) as u32 * 64 + (fourth % 64) as u32;
    Stand {
        number: at.number * 0x100_0000 + (upper * 0x1000 + lower) as u128,
        turn: fourth / 64,
    }
}

/// The key of a position: its number along the curve, below 2^96.
#[tactic(auto, using(crate::proofs::Stepped::start_at, crate::proofs::Stepped::ends_at))]
pub fn key_of(pos: [u32; 3]) -> u128
    ensures value { result ≡ key (place pos) }
    ensures small { result < 2 ^ 96 }
{
    let mut at = Stand { number: 0, turn: 0 };
    for part in 0..4u32 {
        at = go_on(pos, 8 * part, at);
    }
    at.number
}
