// Bodies by number and seed.
ghost use Rattle.std.specs.Prelude.{◌≡◌, ◌≤◌, All, IfOk};
ghost use Rattle.particle_set.specs.Rows.{HasKind, IsRefusalByMemory};
ghost use Rattle.made_bodies.specs.Drawn.{drawn_bodies, drawn_rows};

use crate::draws::next_row;
use fixed_point::Memory;
use particle_set::{BodySet, Row, SetErr};
use std::alloc::Global;
use store_io::{Schedule, SeededSchedule};

// So many rows, drawn one after another.
fn draw_rows(alloc: Global, count: u64, seed: u64) -> Result<Vec<Row>, Memory>
    requires { count ≤ 1048576 }
    ensures kinds { IfOk result (λ rows. All HasKind rows.items) }
    ensures value { IfOk result (λ rows. rows.items ≡ drawn_rows seed count) }
{
    let mut order = SeededSchedule::new();
    order.seed(seed);
    let mut rows = Vec::with_capacity(alloc, count as usize)?;
    for place in 0..count {
        rows.push(next_row(&mut order, place + 1))?;
    }
    Ok(rows)
}

// A refusal that is want of memory.
fn only_memory(err: SetErr) -> Memory
    requires { IsRefusalByMemory err }
{
    match err {
        SetErr::Memory => Memory,
        _ => unreachable!(),
    }
}

/// So many bodies, with the ids from 1 on, drawn from a seed: their positions, masses from 2,048 to 4,095, and momenta
/// from -524,288 to 524,287 on each axis. They are a valid set, whatever the seed is.
pub fn draw_bodies(alloc: Global, count: u64, seed: u64) -> Result<BodySet, Memory>
    requires { count ≤ 1048576 }
    ensures { IfOk result (λ set. set ≡ drawn_bodies seed count) }
{
    let rows = draw_rows(alloc, count, seed)?;
    match BodySet::from_list(alloc, rows) {
        Ok(set) => Ok(set),
        Err(err) => Err(only_memory(err)),
    }
}
