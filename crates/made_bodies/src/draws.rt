// What is drawn for one body.
ghost use Rattle.std.specs.Prelude.{◌≡◌, ◌<◌, ◌+◌, ◌∷◌, []};
ghost use Rattle.store_io.specs.SeededSchedule.{seed_of};
ghost use Rattle.particle_set.specs.Rows.{HasKind};
ghost use Rattle.made_bodies.specs.Draws.{draw, momentum_of, state_after};
ghost use Rattle.made_bodies.specs.Drawn.{row_by};

use particle_set::Row;
use store_io::{Schedule, SeededSchedule};

// The next number of 32 bits.
fn next(order: &mut SeededSchedule) -> u32
    ensures value { result ≡ draw (seed_of order.old) 0 }
    ensures state { seed_of order.new ≡ state_after (seed_of order.old) 1 }
{
    order.pick(1 << 32) as u32
}

// The position by the next three numbers.
fn next_position(order: &mut SeededSchedule) -> [u32; 3]
    ensures value { result ≡ draw (seed_of order.old) 0 ∷ draw (seed_of order.old) 1 ∷ draw (seed_of order.old) 2 ∷ [] }
    ensures state { seed_of order.new ≡ state_after (seed_of order.old) 3 }
{
    let x = next(order);
    let y = next(order);
    let z = next(order);
    [x, y, z]
}

fn momentum_of(out: u32) -> i64
    ensures { result ≡ momentum_of out }
{
    i64::from(out / 4096) - 524_288
}

// The momentum by the next three numbers.
fn next_momentum(order: &mut SeededSchedule) -> [i64; 3]
    ensures value { result ≡ momentum_of (draw (seed_of order.old) 0) ∷ momentum_of (draw (seed_of order.old) 1)
        ∷ momentum_of (draw (seed_of order.old) 2) ∷ [] }
    ensures state { seed_of order.new ≡ state_after (seed_of order.old) 3 }
{
    let x = next(order);
    let y = next(order);
    let z = next(order);
    [momentum_of(x), momentum_of(y), momentum_of(z)]
}

/// The next body, by seven numbers.
pub(crate) fn next_row(order: &mut SeededSchedule, id: u64) -> Row
    ensures value { result ≡ row_by (draw (seed_of order.old)) id }
    ensures state { seed_of order.new ≡ state_after (seed_of order.old) 7 }
{
    let pos = next_position(order);
    let mass = 2048 + next(order) % 2048;
    Row {
        id,
        kind: 1,
        mass,
        pos,
        mom: next_momentum(order),
    }
}
