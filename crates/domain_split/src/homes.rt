// The homes and spans of cells.
ghost use Rattle.std.specs.Prelude.{◌≡◌, ◌≤◌, ◌<◌, ◌^◌, ℕ, ◌&&◌, nat_le, length};
ghost use Rattle.hilbert_keys.specs.Curve.{first_key};
ghost use Rattle.rank_laws.specs.Homes.{home, in_span, rank_of_key};
ghost use Rattle.rank_curve_laws.specs.Along.{keys_along};

use crate::bounds::Bounds;
use crate::search::count_below;
use cell_space::Cell;
use hilbert_keys::{cell_key_range, is_of_box};

/// The rank of a key: the greatest whose bound is at most the key, or 0. Of the bounds from a rank on, the least is at most
/// the key exactly for this rank and those before it.
fn rank_of(bounds: &Bounds, key: u128) -> u16
    requires { key < 2 ^ 96 }
    ensures value { result ≡ rank_of_key bounds.now key }
    ensures rank { result < length bounds.now }
{
    let rising = bounds.rising();
    count_below(rising, key + 1).saturating_sub(1) as u16
}

/// The home of a cell: the greatest rank whose bound is at most the cell's last key, or 0.
pub fn home(cell: &Cell, bounds: &Bounds) -> u16
    ensures value { result ≡ home (keys_along bounds.now) cell.now }
    ensures rank { result < length bounds.now }
{
    is_of_box(cell);
    let (_first, last) = cell_key_range(cell);
    rank_of(bounds, last)
}

/// The span of a cell: the ranks from that of its first key to its home.
pub fn span(cell: &Cell, bounds: &Bounds) -> (u16, u16)
    ensures first { result.0 ≡ rank_of_key bounds.now (first_key cell.now) }
    ensures home { result.1 ≡ home (keys_along bounds.now) cell.now }
    ensures exact { (r : ℕ) → in_span (keys_along bounds.now) r cell.now ≡ (nat_le result.0 r && nat_le r result.1) }
    ensures order { result.0 ≤ result.1 }
    ensures rank { result.1 < length bounds.now }
{
    is_of_box(cell);
    let (first, last) = cell_key_range(cell);
    (rank_of(bounds, first), rank_of(bounds, last))
}
