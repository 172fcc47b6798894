// Fields of ranks, beside the field by the list.
ghost use Rattle.std.specs.Prelude.{◌≡◌, ◌≤◌, ◌^◌, IfOk, length};
ghost use Rattle.nbody_model.specs.Bodies.{IsValid};
ghost use Rattle.nbody_model.specs.Force.{forces};
ghost use Rattle.rank_field.specs.Fields.{PlaysAmong};

use crate::RankField;
use fixed_point::Memory;
use force_field::ListField;
use nbody_model::{Body, Field, Forces, Motion, Setup};
use rank_exchange::Kit;
use std::alloc::Global;
use std::test::Fail;
use store_io::{LastSchedule, ListSchedule, Schedule, SeededSchedule};

pub(super) fn setup(theta: u32) -> Setup
    requires { theta ≤ 256 }
{
    Setup {
        time_max: 2,
        low_bin: 1,
        top_bin: 1,
        theta,
        eta: 65536,
        gravity: 1 << 32,
        velocity_shift: 20,
        soft: [256, 256, 256, 256, 256, 256],
    }
}

// Bodies at these positions, with the ids 1, 2 and so on, of masses that differ.
fn bodies_at(alloc: Global, positions: &[[u32; 3]]) -> Result<Vec<Body>, Fail>
    requires few { length positions.now ≤ 1000 }
    ensures { IfOk result (λ bodies. IsValid bodies.items) }
{
    let mut bodies = Vec::new(alloc);
    for i in 0..positions.len() {
        let motion = Motion::new(positions[i], [0, 0, 0]).ok_or("range")?;
        bodies.push(Body {
            id: i as u64 + 1,
            kind: 1,
            mass: 1 + (i as u32 * 7919) % (1 << 20),
            motion,
        })?;
    }
    Ok(bodies)
}

// What any field answers.
fn ask<F: Forces>(field: &mut F, bodies: &[Body]) -> Result<Field, Memory>
    requires { IsValid bodies.now }
    ensures fixed { F.fixed field.new ≡ F.fixed field.old }
    ensures forces { IfOk result (λ f. f.forces ≡ forces (F.gravity field.old) bodies.now) }
    ensures passes { IfOk result (λ f. F.passes (F.gravity field.old) (F.fixed field.old) bodies.now (F.state field.old) f.events (F.state field.new)) }
{
    field.force(bodies)
}

// The forces that ranks find, and the schedule behind them: it stands where it has picked the last event.
fn find<K: Schedule>(
    alloc: Global,
    kit: &Kit,
    ranks: u32,
    order: &mut K,
    bodies: &[Body],
) -> Result<Field, Memory>
    requires bodies { IsValid bodies.now }
    requires some { 1 ≤ ranks }
    requires few { ranks ≤ 256 }
    ensures forces { IfOk result (λ f. f.forces ≡ forces kit.now bodies.now) }
    ensures events { IfOk result (λ f. PlaysAmong K.Schedule kit.now ranks bodies.now order.old f.events order.new) }
{
    let mut field = RankField::new(alloc, kit, ranks, order);
    ask(&mut field, bodies)
}

// Whether ranks, by a schedule, find what the list of bodies gives.
fn agrees<K: Schedule>(
    alloc: Global,
    theta: u32,
    ranks: u32,
    order: &mut K,
    bodies: &[Body],
) -> Result<bool, Fail>
    requires theta { theta ≤ 256 }
    requires bodies { IsValid bodies.now }
    requires some { 1 ≤ ranks }
    requires few { ranks ≤ 256 }
{
    let kit = Kit::new(setup(theta), None);
    let mut list = ListField::new(alloc, setup(theta), None);
    let want = ask(&mut list, bodies)?;
    let found = find(alloc, &kit, ranks, order, bodies)?;
    Ok(found.forces == want.forces && found.interactions == want.interactions)
}

#[test]
fn ranks_and_schedules_show_nowhere(rt: HostRuntime) -> Result<(), Fail> {
    let alloc = rt.alloc();
    let near = [[0, 0, 0], [1000, 0, 0], [0, 77, 5], [900, 77, 5]];
    let bodies = bodies_at(alloc, &near)?;
    for ranks in [1, 3, 7] {
        let mut first = ListSchedule::new([2, 0, 1, 5].to_vec(alloc)?);
        let mut seeded = SeededSchedule::new();
        assert!(rt; agrees(alloc, 0, ranks, &mut first, &bodies)?);
        assert!(rt; agrees(alloc, 0, ranks, &mut LastSchedule, &bodies)?);
        assert!(rt; agrees(alloc, 0, ranks, &mut seeded, &bodies)?);
    }
    Ok(())
}

// A coordinate of a random set: anywhere, near one place, or in one of some cells that lie apart.
fn coordinate(set: u32, draw: u32) -> u32 {
    match set % 3 {
        0 => draw,
        1 => 77 + draw % 3,
        _ => draw / 0x1000_0000 * 0x1000_0000 + draw % 2000,
    }
}

// 200 sets of up to 60 bodies, of 1 to 9 ranks, at several opening angles.
#[test]
fn random_sets(rt: HostRuntime) -> Result<(), Fail> {
    let alloc = rt.alloc();
    let mut draws = SeededSchedule::new();
    draws.seed(7);
    for set in 0..200u32 {
        let mut places = [[0u32; 3]; 60];
        for k in 0..60usize {
            for axis in 0..3usize {
                places[k][axis] = coordinate(set, draws.pick(1 << 32) as u32);
            }
        }
        let count = draws.pick(61) as usize;
        let bodies = bodies_at(alloc, places.get(..count).ok_or("short")?)?;
        let (theta, ranks) = (set % 5 * 64, set / 3 % 9 + 1);
        let mut order = SeededSchedule::new();
        order.seed(set.into());
        assert!(rt;
            agrees(alloc, theta, ranks, &mut order, &bodies)?,
            "{set} {ranks}"
        );
    }
    Ok(())
}
