// The step rule of one body.
ghost use Rattle.std.specs.Prelude.{◌≡◌, ◌-◌, ◌*◌, ◌/◌, ◌^◌, ◌≤◌, ◌<◌, min, nat_le};
ghost use Rattle.nbody_model.specs.Moments.{soft_of};
ghost use Rattle.nbody_model.specs.Steps.{allowance, fits, size};

use fixed_point::V3;
use nbody_model::{Body, Setup};

// The softening length of a body, in length units.
fn softening_of(setup: &Setup, body: &Body) -> u32
    ensures value { result ≡ soft_of setup.now body.now }
    ensures high { result ≤ 2 ^ 30 }
{
    setup.soft[body.kind as usize]
}

// Twice the product of accuracy, softening length and mass, by 2^shift, over 65536.
#[tactic(auto, using(crate::proofs::Products::allowance_high))]
fn scaled(eta: u32, eps: u32, mass: u32, shift: u8) -> u128
    requires eta { eta ≤ 2 ^ 16 }
    requires eps { eps ≤ 2 ^ 30 }
    requires shift { shift ≤ 40 }
    ensures value { result ≡ 2 * eta * eps * mass * 2 ^ shift / 65536 }
    ensures high { result < 2 ^ 104 }
{
    let heavy = 2 * u128::from(eta) * u128::from(eps) * u128::from(mass);
    heavy * power(shift) / 65536
}

// A power of two.
fn power(exponent: u8) -> u128
    requires { exponent ≤ 40 }
    ensures value { result ≡ 2 ^ exponent }
    ensures high { result ≤ 2 ^ 40 }
{
    1u128 << exponent
}

// How large the force on a body may be, times 4^bin.
fn allowance_of(setup: &Setup, body: &Body) -> u128
    ensures value { result ≡ allowance setup.now body.now }
    ensures high { result < 2 ^ 104 }
{
    let eps = softening_of(setup, body);
    scaled(setup.eta, eps, body.mass, setup.velocity_shift)
}

// The size of a force, or the greatest number where it is larger.
fn size_of(force: &V3) -> u128
    ensures { result ≡ min (size force.now) (2 ^ 128 - 1) }
{
    force
        .x
        .unsigned_abs()
        .saturating_add(force.y.unsigned_abs())
        .saturating_add(force.z.unsigned_abs())
}

// Whether a number times 4^bin is at most another.
fn within(n: u128, most: u128, bin: u8) -> bool
    requires { bin ≤ 20 }
    ensures { result ≡ nat_le (n * 4 ^ bin) most }
{
    n <= most >> (2 * u32::from(bin))
}

/// Whether a body with this force may make steps of `2^bin` ticks.
pub fn fits(setup: &Setup, body: &Body, force: &V3, bin: u8) -> bool
    requires { bin ≤ 20 }
    ensures { result ≡ fits setup.now body.now force.now bin }
{
    within(size_of(force), allowance_of(setup, body), bin)
}
