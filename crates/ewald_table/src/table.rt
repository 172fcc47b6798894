// A table of corrections as it lies in memory.
use std::marker::Model;

/// The correction at a point of the grid.
#[derive(Clone, Copy)]
pub(crate) struct Entry {
    pub(crate) x: i32,
    pub(crate) y: i32,
    pub(crate) z: i32,
}

impl Model for Entry {
    ghost use Rattle.fixed_point.specs.declared.V3.{V3};

    ghost Value = { V3 };

    ghost view = { λ e. record { x = e.x; y = e.y; z = e.z } };

    ghost inverse = { λ v. record { x = v.x; y = v.y; z = v.z } };
}

/// A table of corrections: a grid of `2^g` steps from 0 to half the box on each axis, with three numbers of 32
/// bits at each of its points, x fastest. On the edge planes of an axis the numbers of that axis are 0.
#[derive(Drop)]
pub struct Table {
    pub(crate) g: u32,
    pub(crate) entries: Vec<Entry>,
}

impl Model for Table {
    ghost use Rattle.nbody_model.specs.Tables.{TableData, IsTable};

    ghost Value = { TableData };

    ghost view = { λ t. record { g = t.g; entries = t.entries.items } };

    ghost invariant = { λ t. IsTable (record { g = t.g; entries = t.entries.items }) };
}
