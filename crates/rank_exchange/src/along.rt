// Own bodies in the order of the curve.
ghost use Rattle.std.specs.Prelude.{◌≡◌, ◌%◌, ◌^◌, IfOk, map, slice_index_or};
ghost use Rattle.std.specs.List.{AllByRecursion};
ghost use Rattle.nbody_model.specs.Bodies.{BodyData};
ghost use Rattle.model_laws.specs.Laws.{AreBodies};
ghost use Rattle.octree_build.specs.Order.{IsNumberOf};
ghost use Rattle.octree_build.specs.Trees.{IsAlong};

use fixed_point::Memory;
use nbody_model::Body;
use octree_build::sorted_numbers;
use std::alloc::Global;

/// The body with a number.
fn body_of(bodies: &[Body], number: u128) -> Body
    requires { IsNumberOf bodies.now number }
    ensures { (d : BodyData) → result ≡ slice_index_or bodies.now (number % 2 ^ 20) d }
{
    let body = &bodies[(number % (1 << 20)) as usize];
    *body
}

/// The bodies with these numbers, in their order.
fn bodies_of(alloc: Global, bodies: &[Body], numbers: &[u128]) -> Result<Vec<Body>, Memory>
    requires { AllByRecursion (IsNumberOf bodies.now) numbers.now }
    ensures { (d : BodyData) → IfOk result (λ copies. copies.items ≡ map (λ n. slice_index_or bodies.now (n % 2 ^ 20) d) numbers.now) }
{
    let mut copies = Vec::with_capacity(alloc, numbers.len())?;
    for i in 0..numbers.len() {
        copies.push(body_of(bodies, numbers[i]))?;
    }
    Ok(copies)
}

/// These bodies in the order of the curve.
pub(crate) fn along(alloc: Global, bodies: &[Body]) -> Result<Vec<Body>, Memory>
    requires { AreBodies bodies.now }
    ensures { IfOk result (λ along. IsAlong bodies.now along.items) }
{
    let numbers = sorted_numbers(alloc, bodies)?;
    let along = bodies_of(alloc, bodies, &numbers)?;
    Ok(along)
}
