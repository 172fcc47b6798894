// The keys of cells.
ghost use Rattle.std.specs.Prelude.{◌≡◌, ◌≤◌, ◌<◌, ◌*◌, ◌/◌, ◌^◌, ◌∷◌, [], ◌&&◌, nat_le, ℕ};
ghost use Rattle.cell_space.specs.Cells.{InBox, IsCorner, Position, contains};
ghost use Rattle.hilbert_keys.specs.Curve.{IsCell, first_key, key, keys_in, last_key};
ghost use Rattle.hilbert_keys.specs.Steps.{seen};

use crate::key_of;
use cell_space::Cell;

/// How many keys a cell of a level has.
#[tactic(auto, using(crate::proofs::Widths::width_at, crate::proofs::Widths::some_keys))]
pub fn keys_in(level: u8) -> u128
    requires { level ≤ 32 }
    ensures value { result ≡ keys_in level }
    ensures some { 0 < result }
{
    1u128 << (3 * (32 - level as u32))
}

/// The least and the greatest key of the cell of a level and a corner.
fn range_of(level: u8, x: u32, y: u32, z: u32) -> (u128, u128)
    requires { IsCorner level (x ∷ y ∷ z ∷ []) }
    ensures first { result.0 ≡ first_key (seen level (x ∷ y ∷ z ∷ [])) }
    ensures last { result.1 ≡ last_key (seen level (x ∷ y ∷ z ∷ [])) }
    ensures cell { IsCell (seen level (x ∷ y ∷ z ∷ [])) }
{
    let width = keys_in(level);
    let first = key_of([x, y, z]) / width * width;
    (first, first + width - 1)
}

/// The least and the greatest key of a cell. The positions in it are those whose keys lie between.
pub fn cell_key_range(cell: &Cell) -> (u128, u128)
    ensures first { result.0 ≡ first_key cell.now }
    ensures last { result.1 ≡ last_key cell.now }
    ensures exact { (p : Position) → InBox p → contains cell.now p ≡ (nat_le result.0 (key p) && nat_le (key p) result.1) }
{
    let [x, y, z] = cell.corner;
    range_of(cell.level, x, y, z)
}

/// The cell of a level and a corner of the box is one of the box.
fn corner_is_of_box(level: u8, x: u32, y: u32, z: u32)
    requires { IsCorner level (x ∷ y ∷ z ∷ []) }
    ensures { IsCell (seen level (x ∷ y ∷ z ∷ [])) }
{}

/// Each cell is one of the box. It reads the cell once.
pub fn is_of_box(cell: &Cell)
    ensures { IsCell cell.now }
{
    let [x, y, z] = cell.corner;
    corner_is_of_box(cell.level, x, y, z);
}
