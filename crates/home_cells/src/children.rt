// Which children of a cell have members, as bits.
ghost use Rattle.std.specs.Prelude.{◌≡◌, ◌<◌, ◌==◌, ℕ, length, slice_index_or};
ghost use Rattle.std.specs.Int.{bit_at};
ghost use Rattle.std.specs.List.{list_any};
ghost use Rattle.cell_space.specs.Cells.{bit_of, digit, place};
ghost use Rattle.nbody_model.specs.Bodies.{BodyData};

use nbody_model::Body;

/// The bit of a coordinate that chooses the child of a cell of a level.
fn bit(n: u32, level: u8) -> u8
    requires { level < 32 }
    ensures value { result ≡ bit_of n level }
    ensures small { result < 2 }
{
    ((n >> (31 - level as u32)) % 2) as u8
}

/// Which child of its cell of a level contains a position.
#[tactic(auto, unfolding(cell_space::specs::Cells::digit))]
pub(crate) fn digit(pos: [u32; 3], level: u8) -> u8
    requires { level < 32 }
    ensures value { result ≡ digit (place pos) level }
    ensures small { result < 8 }
{
    let [x, y, z] = pos;
    4 * bit(z, level) + (2 * bit(y, level) + bit(x, level))
}

/// Which child contains the body at a place.
fn digit_at(bodies: &[Body], i: usize, level: u8) -> u8
    requires place { i < length bodies.now }
    requires level { level < 32 }
    ensures value { (d : BodyData) → result ≡ digit (slice_index_or bodies.now i d).motion.pos level }
    ensures small { result < 8 }
{
    let body = &bodies[i];
    digit(body.motion.pos(), level)
}

/// The children of a cell of a level that contain some of its members.
pub(crate) fn children_of(members: &[Body], level: u8) -> u8
    requires { level < 32 }
    ensures { (k : ℕ) → k < 8 → (bit_at result k == 1) ≡ list_any (λ b. digit b.motion.pos level == k) members.now }
{
    let mut bits = 0u8;
    for i in 0..members.len() {
        bits |= 1u8 << digit_at(members, i, level);
    }
    bits
}
