// Corrections between the points of a table.
ghost use Rattle.std.specs.Prelude.{◌≡◌, ◌≤◌, ◌<◌, ◌+◌, ◌*◌, ◌^◌, ℕ, unsigned_abs};
ghost use Rattle.fixed_point.specs.Vectors.{IsAtMost};
ghost use Rattle.nbody_model.specs.Bodies.{vector};
ghost use Rattle.nbody_model.specs.Scaling.{◌·◌, ◌÷◌};
ghost use Rattle.nbody_model.specs.Tables.{entry_at, points};
ghost use Rattle.nbody_model.specs.Correction.{correction, signed};
ghost use Rattle.ewald_table.specs.Mixed.{at_corners, mixed, mixed_all};

use crate::place::{Place, place_of};
use crate::table::{Entry, Table};

// A number of an entry, by how much a point counts.
fn times(count: u32, number: i32) -> i64
    ensures value { result ≡ count · number }
    ensures size { unsigned_abs result ≡ count * unsigned_abs number }
{
    i64::from(count) * i64::from(number)
}

// A number, by how much a point counts.
fn times_wide(count: u32, number: i128) -> i128
    requires { unsigned_abs number ≤ 2 ^ 93 }
    ensures value { result ≡ count · number }
    ensures size { unsigned_abs result ≡ count * unsigned_abs number }
{
    i128::from(count) * number
}

// Two numbers of entries, by how much the points at a place count.
fn mix(place: Place, near: i32, far: i32) -> i128
    ensures value { result ≡ mixed place near far }
    ensures size { unsigned_abs result ≤ (place.near + place.far) * 2 ^ 31 }
{
    i128::from(times(place.near, near) + times(place.far, far))
}

// Two numbers, by how much the points at a place count.
fn mix_wide(place: Place, near: i128, far: i128) -> i128
    requires near { unsigned_abs near ≤ 2 ^ 93 }
    requires far { unsigned_abs far ≤ 2 ^ 93 }
    ensures value { result ≡ mixed place near far }
    ensures size { (n : ℕ) → unsigned_abs near ≤ n → unsigned_abs far ≤ n → unsigned_abs result ≤ (place.near + place.far) * n }
{
    times_wide(place.near, near) + times_wide(place.far, far)
}

// The entry at a point of the grid.
fn entry_at(table: &Table, i: usize, j: usize, k: usize) -> Entry
    requires i { i < points table.now }
    requires j { j < points table.now }
    requires k { k < points table.now }
    ensures { result ≡ entry_at table.now i j k }
{
    let points = (1usize << table.g) + 1;
    let entry = &table.entries[(k * points + j) * points + i];
    *entry
}

/// The numbers of the three axes at the corners of a cell of the grid, x fastest.
#[derive(Drop)]
struct Corners {
    x: [i32; 8],
    y: [i32; 8],
    z: [i32; 8],
}

// The corners of the cell that begins at a point.
fn corners_of(table: &Table, i: usize, j: usize, k: usize) -> Corners
    requires i { i + 1 < points table.now }
    requires j { j + 1 < points table.now }
    requires k { k + 1 < points table.now }
    requires small { (i < 64) × (j < 64) × (k < 64) }
    ensures x { result.x ≡ at_corners (λ e. e.x) table.now i j k }
    ensures y { result.y ≡ at_corners (λ e. e.y) table.now i j k }
    ensures z { result.z ≡ at_corners (λ e. e.z) table.now i j k }
{
    let a = entry_at(table, i, j, k);
    let b = entry_at(table, i + 1, j, k);
    let c = entry_at(table, i, j + 1, k);
    let d = entry_at(table, i + 1, j + 1, k);
    let e = entry_at(table, i, j, k + 1);
    let f = entry_at(table, i + 1, j, k + 1);
    let g = entry_at(table, i, j + 1, k + 1);
    let h = entry_at(table, i + 1, j + 1, k + 1);
    Corners {
        x: [a.x, b.x, c.x, d.x, e.x, f.x, g.x, h.x],
        y: [a.y, b.y, c.y, d.y, e.y, f.y, g.y, h.y],
        z: [a.z, b.z, c.z, d.z, e.z, f.z, g.z, h.z],
    }
}

// The mean of the numbers at the corners of a cell, times the widths on the three axes.
fn mean(numbers: [i32; 8], x: Place, y: Place, z: Place) -> i128
    ensures value { result ≡ mixed_all x y z numbers }
    ensures size { unsigned_abs result ≤ (z.near + z.far) * ((y.near + y.far) * ((x.near + x.far) * 2 ^ 31)) }
{
    let [a, b, c, d, e, f, g, h] = numbers;
    let low = mix_wide(y, mix(x, a, b), mix(x, c, d));
    let high = mix_wide(y, mix(x, e, f), mix(x, g, h));
    mix_wide(z, low, high)
}

// The quotient by 2^shift, truncated toward zero.
fn shifted(mean: i128, shift: u32) -> i64
    requires shift { shift ≤ 93 }
    requires small { unsigned_abs mean ≤ 2 ^ shift * 2 ^ 31 }
    ensures value { result ≡ mean ÷ 2 ^ shift }
    ensures small { unsigned_abs result ≤ 2 ^ 31 }
{
    let size = (mean.unsigned_abs() >> shift) as i64;
    if mean < 0 { -size } else { size }
}

// A number with the sign of d.
fn with_sign(d: i64, number: i64) -> i64
    requires { unsigned_abs number ≤ 2 ^ 31 }
    ensures value { result ≡ signed d number }
    ensures small { unsigned_abs result ≤ 2 ^ 31 }
{
    if d < 0 { -number } else { number }
}

/// The correction at a wrapped way `d`, in length units: the trilinear mean of the entries around the sizes of its
/// numbers, truncated toward zero. It is odd in its own axis and even in the others.
pub fn correction(table: &Table, d: [i64; 3]) -> [i64; 3]
    requires { IsAtMost (2 ^ 31) (vector d) }
    ensures value { vector result ≡ correction table.now (vector d) }
    ensures small { IsAtMost (2 ^ 31) (vector result) }
{
    let shift = 3 * (31 - table.g);
    let x = place_of(table, d[0].unsigned_abs() as u32);
    let y = place_of(table, d[1].unsigned_abs() as u32);
    let z = place_of(table, d[2].unsigned_abs() as u32);
    let numbers = corners_of(table, x.step, y.step, z.step);
    [
        with_sign(d[0], shifted(mean(numbers.x, x, y, z), shift)),
        with_sign(d[1], shifted(mean(numbers.y, x, y, z), shift)),
        with_sign(d[2], shifted(mean(numbers.z, x, y, z), shift)),
    ]
}
