ghost use Rattle.std.specs.Prelude.{◌≤◌, ◌^◌, length, IfOk};
ghost use Rattle.nbody_model.specs.Bodies.{IsValid};

use super::*;
use ewald_table::{Table, read_table};
use fixed_point::{Memory, V3};
use nbody_model::{Body, Field, Forces, Motion, Setup};
use std::alloc::Global;
use std::test::Fail;

const HALF: u32 = 0x8000_0000;

fn setup(gravity: u64, theta: u32) -> Setup
    requires gravity { gravity ≤ 2 ^ 32 }
    requires theta { theta ≤ 256 }
{
    Setup {
        time_max: 2,
        low_bin: 1,
        top_bin: 1,
        theta,
        eta: 65536,
        gravity,
        velocity_shift: 20,
        soft: [256, 256, 256, 256, 256, 256],
    }
}

// Bodies of one mass at these positions, with the ids 1, 2 and so on.
fn bodies_at(alloc: Global, mass: u32, positions: &[[u32; 3]]) -> Result<Vec<Body>, Fail>
    requires some { 1 ≤ mass }
    requires light { mass ≤ 2 ^ 20 }
    requires few { length positions.now ≤ 1000 }
    ensures { IfOk result (λ bodies. IsValid bodies.items) }
{
    let mut bodies = Vec::new(alloc);
    for i in 0..positions.len() {
        let motion = Motion::new(positions[i], [0, 0, 0]).ok_or("range")?;
        bodies.push(Body {
            id: i as u64 + 1,
            kind: 1,
            mass,
            motion,
        })?;
    }
    Ok(bodies)
}

fn ask<F: Forces>(forces: &mut F, bodies: &[Body]) -> Result<Field, Memory>
    requires { IsValid bodies.now }
{
    forces.force(bodies)
}

fn vector(x: i128, y: i128) -> V3 {
    V3 { x, y, z: 0 }
}

#[test]
fn two_bodies(rt: HostRuntime) -> Result<(), Fail> {
    let alloc = rt.alloc();
    let mut field = ListField::new(alloc, setup(1 << 20, 0), None);
    let near = bodies_at(alloc, 1024, &[[0, 0, 0], [1000, 0, 0]])?;
    let found = ask(&mut field, &near)?;
    let want = [vector(999_889, 0), vector(-999_889, 0)];
    assert_eq!(rt; found.forces.as_slice(), want.as_slice());
    assert_eq!(rt; found.interactions, 1);
    assert!(rt; found.events.is_empty());
    let across = bodies_at(alloc, 1024, &[[4_294_966_796, 0, 0], [500, 0, 0]])?;
    let found = ask(&mut field, &across)?;
    let want = [vector(999_889, 0), vector(-999_889, 0)];
    assert_eq!(rt; found.forces.as_slice(), want.as_slice());
    Ok(())
}

#[test]
fn half_a_box_apart(rt: HostRuntime) -> Result<(), Fail> {
    let alloc = rt.alloc();
    let mut field = ListField::new(alloc, setup(1 << 32, 0), None);
    let bodies = bodies_at(alloc, 1 << 20, &[[0, 0, 0], [HALF, 0, 0]])?;
    let found = ask(&mut field, &bodies)?;
    let want = [vector(-1023, 0), vector(1023, 0)];
    assert_eq!(rt; found.forces.as_slice(), want.as_slice());
    Ok(())
}

// The force of 2 on three bodies at one place is shared by largest remainders, the smaller ids first.
#[test]
fn three_at_one_place(rt: HostRuntime) -> Result<(), Fail> {
    let alloc = rt.alloc();
    let mut field = ListField::new(alloc, setup(1 << 20, 0), None);
    let place = [0, 0, 0];
    let bodies = bodies_at(alloc, 1, &[place, place, place, [1000, 0, 0]])?;
    let found = ask(&mut field, &bodies)?;
    let want = [vector(1, 0), vector(1, 0), vector(0, 0), vector(-2, 0)];
    assert_eq!(rt; found.forces.as_slice(), want.as_slice());
    assert_eq!(rt; found.interactions, 1);
    Ok(())
}

// A cell of two bodies acts as a whole on a third one; nearer by, where both sides of the opening rule are equal, it doesn't.
#[test]
fn a_cell_accepted_and_not(rt: HostRuntime) -> Result<(), Fail> {
    let alloc = rt.alloc();
    let mut field = ListField::new(alloc, setup(1 << 32, 256), None);
    let (first, second) = ([0, 0, 0], [HALF / 4, 0, 0]);
    let far = bodies_at(
        alloc,
        1 << 20,
        &[first, second, [HALF / 8, HALF / 4 * 3, 0]],
    )?;
    let found = ask(&mut field, &far)?;
    let want = [vector(16383, 1745), vector(-16383, 1744), vector(0, -3489)];
    assert_eq!(rt; found.forces.as_slice(), want.as_slice());
    assert_eq!(rt; found.interactions, 2);
    let nearer = bodies_at(alloc, 1 << 20, &[first, second, [HALF / 8, HALF / 2, 0]])?;
    let found = ask(&mut field, &nearer)?;
    assert_eq!(rt; found.interactions, 3);
    Ok(())
}

// A table with two steps on an axis, all entries 0 but that at half the way on x.
fn table(alloc: Global) -> Result<Table, Fail> {
    let mut bytes = Vec::with_capacity(alloc, 340)?;
    bytes.extend_from_slice(b"I4EWALD1\x01\0\0\0\0\0\0\0")?;
    for at in 0..27 {
        let x = if at == 1 { 1 << 30 } else { 0i32 };
        bytes.extend_from_slice(&x.to_le_bytes())?;
        bytes.extend_from_slice(&[0; 8])?;
    }
    Ok(read_table(alloc, &bytes)?)
}

#[test]
fn by_a_table(rt: HostRuntime) -> Result<(), Fail> {
    let alloc = rt.alloc();
    let table = table(alloc)?;
    let mut field = ListField::new(alloc, setup(1 << 32, 0), Some(&table));
    let bodies = bodies_at(alloc, 1 << 20, &[[0, 0, 0], [HALF / 2, 0, 0]])?;
    let found = ask(&mut field, &bodies)?;
    let want = [vector(4351, 0), vector(-4351, 0)];
    assert_eq!(rt; found.forces.as_slice(), want.as_slice());
    Ok(())
}
