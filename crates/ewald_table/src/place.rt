// Where a distance lies on an axis of a table's grid.
ghost use Rattle.std.specs.Prelude.{◌≡◌, ◌≤◌, ◌<◌, ◌+◌, ◌^◌};
ghost use Rattle.nbody_model.specs.Tables.{points};
ghost use Rattle.nbody_model.specs.Correction.{spacing, step_of, weight};

use crate::table::Table;

/// The last point at or before a distance, but for the last of the axis, and how much it and the next one count.
#[derive(Clone, Copy)]
pub(crate) struct Place {
    pub(crate) step: usize,
    pub(crate) near: u32,
    pub(crate) far: u32,
    ghost light: { near + far ≤ 2 ^ 31 },
}

// Where a distance lies.
pub(crate) fn place_of(table: &Table, distance: u32) -> Place
    requires { distance ≤ 2 ^ 31 }
    ensures step { result.step ≡ step_of table.now distance }
    ensures near { result.near ≡ weight table.now distance 0 }
    ensures far { result.far ≡ weight table.now distance 1 }
    ensures whole { result.near + result.far ≡ spacing table.now }
    ensures inside { result.step + 1 < points table.now }
    ensures small { result.step < 64 }
{
    let shift = 31 - table.g;
    let step = (distance >> shift).min((1u32 << table.g) - 1);
    let far = distance - (step << shift);
    Place {
        step: step as usize,
        near: (1u32 << shift) - far,
        far,
    }
}
