// Cells around two positions.
ghost use Rattle.std.specs.Prelude.{◌≡◌, ◌≤◌, ◌<◌, ◌-◌, ◌/◌, ◌^◌, ◌==◌, false, ℕ};
ghost use Rattle.cell_space.specs.Cells.{cell_at, place, same_cell, same_place, width_of};
ghost use Rattle.force_field.specs.Levels.{Parts};

/// Whether two coordinates lie in one cell of a level.
fn share(x: u32, y: u32, level: u8) -> bool
    requires { level ≤ 32 }
    ensures { result ≡ (x / width_of level == y / width_of level) }
{
    let shift = 32 - level as u32;
    x as u64 >> shift == y as u64 >> shift
}

/// Whether two positions lie in one cell of a level.
fn share_cell(p: [u32; 3], q: [u32; 3], level: u8) -> bool
    requires { level ≤ 32 }
    ensures { result ≡ same_cell (cell_at level (place p)) (cell_at level (place q)) }
{
    share(p[0], q[0], level) && (share(p[1], q[1], level) && share(p[2], q[2], level))
}

/// The least level, from 1 to 32, at which two different positions lie in different cells.
pub(crate) fn parting_level(p: [u32; 3], q: [u32; 3]) -> u8
    requires { same_place (place p) (place q) ≡ false }
    ensures { Parts (place p) (place q) result }
{
    for level in 1..32 {
        if !share_cell(p, q, level) {
            return level;
        }
    }
    32
}

/// Whether two positions are one.
pub(crate) fn same_place(p: [u32; 3], q: [u32; 3]) -> bool
    ensures { result ≡ same_place (place p) (place q) }
{
    p[0] == q[0] && (p[1] == q[1] && p[2] == q[2])
}
