// Whether bodies are within reach of each other.
ghost use Rattle.std.specs.Prelude.{◌≡◌, ◌<◌, ◌≤◌, ◌*◌, ◌^◌, unsigned_abs};
ghost use Rattle.fixed_point.specs.Vectors.{IsAtMost};
ghost use Rattle.cell_space.specs.Cells.{place};
ghost use Rattle.nbody_model.specs.Bodies.{vector};
ghost use Rattle.nbody_model.specs.OpeningRule.{square, way};

use fixed_point::wrap_diff;

/// The wrapped way from one position to another.
pub(crate) fn way(p: [u32; 3], q: [u32; 3]) -> [i64; 3]
    ensures value { vector result ≡ way (place p) (place q) }
    ensures near { IsAtMost (2 ^ 31) (vector result) }
{
    let [px, py, pz] = p;
    let [qx, qy, qz] = q;
    [wrap_diff(px, qx), wrap_diff(py, qy), wrap_diff(pz, qz)]
}

#[tactic(auto, using(crate::proofs::Sizes::square_small))]
fn square_of(z: i64) -> u64
    requires { unsigned_abs z ≤ 2 ^ 31 }
    ensures value { result ≡ unsigned_abs z * unsigned_abs z }
    ensures small { result ≤ 2 ^ 62 }
{
    let size = z.unsigned_abs();
    size * size
}

/// The square of a length.
pub(crate) fn square(d: [i64; 3]) -> u64
    requires { IsAtMost (2 ^ 31) (vector d) }
    ensures value { result ≡ square (vector d) }
{
    let [x, y, z] = d;
    square_of(x) + square_of(y) + square_of(z)
}

/// The square of a reach.
#[tactic(auto, using(crate::proofs::Sizes::reach_small))]
pub(crate) fn reach_square(reach: u32) -> u64
    requires { reach < 2 ^ 32 }
    ensures { result ≡ reach * reach }
{
    let reach = reach as u64;
    reach * reach
}
