// Bodies in the order of the curve.
ghost use Rattle.std.specs.Prelude.{◌≡◌, ◌≤◌, ◌<◌, ◌+◌, ◌*◌, ◌/◌, ◌^◌, ◌%◌, IfOk, length, map, slice_index_or};
ghost use Rattle.std.specs.List.{AllByRecursion};
ghost use Rattle.hilbert_keys.specs.Curve.{key};
ghost use Rattle.nbody_model.specs.Bodies.{BodyData};
ghost use Rattle.model_laws.specs.Laws.{AreBodies};
ghost use Rattle.octree_build.specs.Order.{AreAlong, IsNumbered, IsNumberOf, placed};

use fixed_point::Memory;
use hilbert_keys::key_of;
use nbody_model::Body;
use std::alloc::Global;

/// Bodies in the order of the curve, those of one key in the order of their ids, and their keys.
#[derive(Drop)]
pub(crate) struct Along {
    pub keys: Vec<u128>,
    pub bodies: Vec<Body>,
}

/// The number of the body at a place: its key, and the place below it.
pub fn number_at(bodies: &[Body], i: usize) -> u128
    requires place { i < length bodies.now }
    requires few { length bodies.now ≤ 1048576 }
    ensures { (d : BodyData) → result ≡ key (slice_index_or bodies.now i d).motion.pos * 2 ^ 20 + i }
{
    let body = &bodies[i];
    key_of(body.motion.pos()) * (1 << 20) + i as u128
}

/// The numbers of all bodies.
fn numbers_of(alloc: Global, bodies: &[Body]) -> Result<Vec<u128>, Memory>
    requires { length bodies.now ≤ 1048576 }
    ensures { IfOk result (λ numbers. numbers.items ≡ placed 0 bodies.now) }
{
    let mut numbers = Vec::with_capacity(alloc, bodies.len())?;
    for i in 0..bodies.len() {
        numbers.push(number_at(bodies, i))?;
    }
    Ok(numbers)
}

/// The numbers of all bodies, the smallest first.
pub fn sorted_numbers(alloc: Global, bodies: &[Body]) -> Result<Vec<u128>, Memory>
    requires { length bodies.now ≤ 1048576 }
    ensures { IfOk result (λ numbers. IsNumbered bodies.now numbers.items) }
{
    let mut numbers = numbers_of(alloc, bodies)?;
    numbers.sort()?;
    Ok(numbers)
}

/// The body with a number.
fn body_of(bodies: &[Body], number: u128) -> Body
    requires { IsNumberOf bodies.now number }
    ensures { (d : BodyData) → result ≡ slice_index_or bodies.now (number % 2 ^ 20) d }
{
    let body = &bodies[(number % (1 << 20)) as usize];
    *body
}

/// The bodies with these numbers, in their order.
fn bodies_of(alloc: Global, bodies: &[Body], numbers: &[u128]) -> Result<Vec<Body>, Memory>
    requires { AllByRecursion (IsNumberOf bodies.now) numbers.now }
    ensures { (d : BodyData) → IfOk result (λ copies. copies.items ≡ map (λ n. slice_index_or bodies.now (n % 2 ^ 20) d) numbers.now) }
{
    let mut copies = Vec::with_capacity(alloc, numbers.len())?;
    for i in 0..numbers.len() {
        copies.push(body_of(bodies, numbers[i]))?;
    }
    Ok(copies)
}

/// The keys in these numbers, in their order.
fn keys_of(alloc: Global, numbers: &[u128]) -> Result<Vec<u128>, Memory>
    ensures { IfOk result (λ keys. keys.items ≡ map (λ n. n / 2 ^ 20) numbers.now) }
{
    let mut keys = Vec::with_capacity(alloc, numbers.len())?;
    for i in 0..numbers.len() {
        keys.push(numbers[i] / (1 << 20))?;
    }
    Ok(keys)
}

/// These bodies in the order of the curve, and their keys.
pub(crate) fn in_order(alloc: Global, bodies: &[Body]) -> Result<Along, Memory>
    requires { AreBodies bodies.now }
    ensures { IfOk result (λ all. AreAlong bodies.now all.keys.items all.bodies.items) }
{
    let numbers = sorted_numbers(alloc, bodies)?;
    let copies = bodies_of(alloc, bodies, &numbers)?;
    let keys = keys_of(alloc, &numbers)?;
    Ok(Along {
        keys,
        bodies: copies,
    })
}
