// A cube of the box.
ghost use Rattle.std.specs.Prelude.{◌≡◌, ◌≤◌, ◌<◌, ◌+◌, ◌-◌, ◌*◌, ◌/◌, ◌^◌, ℕ};
ghost use Rattle.std.specs.Bool.{Decides};
ghost use Rattle.cell_space.specs.Cells.{AreDisjoint, before, cell_at, child, contains, disjoint, less_or, place, root_cell, same_cell, width_of};

use std::marker::Model;

/// A cube of the box, by its level, 0 to 32, and its least corner, whose lower `32 - level` bits are
/// zero on each axis. Its side is `2^(32 - level)` length units.
#[derive(Clone, Copy)]
pub struct Cell {
    pub level: u8,
    pub corner: [u32; 3],
}

impl Model for Cell {
    ghost use Rattle.std.specs.Prelude.{◌≡◌, ◌-◌, ◌*◌, ◌/◌, ◌^◌, ◌≤◌, ◌∷◌, [], slice_index};
    ghost use Rattle.cell_space.specs.Cells.{CellData, width_of, IsCorner};

    ghost Value = { CellData };

    ghost view = { λ c. record { level = c.level; x = slice_index c.corner 0 / width_of c.level; y = slice_index c.corner 1 / width_of c.level; z = slice_index c.corner 2 / width_of c.level } };

    ghost invariant = { λ c. IsCorner c.level c.corner };

    ghost inverse = { λ v. record { level = v.level; corner = v.x * width_of v.level ∷ v.y * width_of v.level ∷ v.z * width_of v.level ∷ [] } };
}

/// The cell of a level that contains a position.
pub fn cell_of(pos: [u32; 3], level: u8) -> Cell
    requires { level ≤ 32 }
    ensures { result ≡ cell_at level (place pos) }
{
    let width = 1u64 << (32 - level as u32);
    Cell {
        level,
        corner: [
            (pos[0] as u64 / width * width) as u32,
            (pos[1] as u64 / width * width) as u32,
            (pos[2] as u64 / width * width) as u32,
        ],
    }
}

impl Cell {
    /// The whole box.
    pub fn root() -> Cell
        ensures { result ≡ root_cell }
    {
        Cell {
            level: 0,
            corner: [0, 0, 0],
        }
    }

    /// Whether a position is in the cell.
    pub fn contains(&self, pos: [u32; 3]) -> bool
        ensures { result ≡ contains self.now (place pos) }
    {
        let width = self.side();
        pos[0] as u64 / width == self.corner[0] as u64 / width
            && pos[1] as u64 / width == self.corner[1] as u64 / width
            && pos[2] as u64 / width == self.corner[2] as u64 / width
    }

    /// One of the eight children, by its number, `4·z + 2·y + x` of the next bits.
    pub fn child(&self, c: u8) -> Cell
        requires above_the_deepest { self.now.level < 32 }
        requires one_of_eight { c < 8 }
        ensures { result ≡ child self.now c }
    {
        Cell {
            level: self.level + 1,
            corner: [
                child_corner(self.corner[0], self.level, c % 2),
                child_corner(self.corner[1], self.level, c / 2 % 2),
                child_corner(self.corner[2], self.level, c / 4 % 2),
            ],
        }
    }

    /// How wide the cell is, in length units.
    pub fn side(&self) -> u64
        ensures { result ≡ width_of self.now.level }
    {
        1u64 << (32 - self.level as u32)
    }

    /// Whether no position lies in both cells.
    pub fn disjoint(&self, other: &Cell) -> bool
        ensures decides { Decides result (AreDisjoint self.now other.now) }
        ensures tested { result ≡ disjoint self.now other.now }
    {
        !self.contains(other.corner) && !other.contains(self.corner)
    }

    /// Whether the two cells are one.
    pub fn same(&self, other: &Cell) -> bool
        ensures decides { Decides result (self.now ≡ other.now) }
        ensures tested { result ≡ same_cell self.now other.now }
    {
        let width = self.side();
        let other_width = other.side();
        self.level == other.level
            && self.corner[0] as u64 / width == other.corner[0] as u64 / other_width
            && self.corner[1] as u64 / width == other.corner[1] as u64 / other_width
            && self.corner[2] as u64 / width == other.corner[2] as u64 / other_width
    }

    /// Whether this cell comes before the other, by the x, y and z of the corners and then by the level.
    pub fn before(&self, other: &Cell) -> bool
        ensures { result ≡ before self.now other.now }
    {
        let [x, y, z] = self.corner;
        let [other_x, other_y, other_z] = other.corner;
        less_or(
            x,
            other_x,
            less_or(y, other_y, less_or(z, other_z, self.level < other.level)),
        )
    }
}

/// On one axis, the corner of the lower or upper half of a cell.
fn child_corner(corner: u32, level: u8, bit: u8) -> u32
    requires above_the_deepest { level < 32 }
    requires one_bit { bit < 2 }
    requires whole { corner / width_of level * width_of level ≡ corner }
    ensures upper_bits { result / width_of (level + 1) ≡ 2 * (corner / width_of level) + bit }
    ensures whole { result / width_of (level + 1) * width_of (level + 1) ≡ result }
{
    let half = 1u64 << (31 - level as u32);
    (corner as u64 + bit as u64 * half) as u32
}

/// The order by two numbers, and by something else where they are one.
fn less_or(m: u32, n: u32, other: bool) -> bool
    ensures { result ≡ less_or m n other }
{
    m < n || (m == n && other)
}
