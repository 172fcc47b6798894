// Positions by their keys.
ghost use Rattle.std.specs.Prelude.{◌≡◌, ◌<◌, ◌+◌, ◌-◌, ◌*◌, ◌/◌, ◌%◌, ◌^◌, ℕ};
ghost use Rattle.cell_space.specs.Cells.{CellData, InBox, Position, child, place};
ghost use Rattle.hilbert_keys.specs.Curve.{key};
ghost use Rattle.hilbert_keys.specs.Steps.{IsOnWay};

use crate::steps::descent;

// A cell on the way down, by the upper bits of its coordinates, and how the curve lies in it, by 3 · corner + axis.
#[derive(Clone, Copy)]
struct Spot {
    x: u32,
    y: u32,
    z: u32,
    turn: u8,
}

/// The digit of a key for the step from a level to the next.
fn digit_of(key: u128, level: u32) -> u8
    requires { level < 32 }
    ensures value { result ≡ key / 2 ^ (3 * (31 - level)) % 8 }
    ensures small { result < 8 }
{
    ((key >> (3 * (31 - level))) % 8) as u8
}

/// From the cell of a level to that of the next.
fn go_down(key: u128, level: u32, spot: Spot) -> Spot
    requires level { level < 32 }
    requires spot { IsOnWay key level spot.turn (record { level = level; x = spot.x; y = spot.y; z = spot.z }) }
    ensures { IsOnWay key (level + 1) result.turn (record { level = level + 1; x = result.x; y = result.y; z = result.z }) }
{
    let next = descent(spot.turn, digit_of(key, level));
    let child = (next % 8) as u32;
    Spot {
        x: 2 * spot.x + child % 2,
        y: 2 * spot.y + child / 2 % 2,
        z: 2 * spot.z + child / 4 % 2,
        turn: next / 8,
    }
}

/// The position whose key is this number, which is below 2^96.
pub fn pos_of(number: u128) -> [u32; 3]
    requires { number < 2 ^ 96 }
    ensures back { key (place result) ≡ number }
    ensures only { (p : Position) → InBox p → key p ≡ number → place result ≡ p }
{
    let mut spot = Spot {
        x: 0,
        y: 0,
        z: 0,
        turn: 0,
    };
    for level in 0..32u32 {
        spot = go_down(number, level, spot);
    }
    [spot.x, spot.y, spot.z]
}
