// The machine of two ranks over three bodies, event by event.
ghost use Rattle.std.specs.Prelude.{◌≡◌, ◌<◌, IfOk, OnOk, length};
ghost use Rattle.std.specs.List.{AllByRecursion};
ghost use Rattle.nbody_model.specs.Bodies.{IsValid};
ghost use Rattle.rank_laws.specs.Whole.{Whole};
ghost use Rattle.rank_laws.specs.Protocol.{World};
ghost use Rattle.rank_laws.specs.Machine.{Message as MessageOf, Rank as RankOf};
ghost use Rattle.rank_field.specs.Machines.{IsMachine};

use super::fields::setup;
use crate::machine::Machine;
use crate::play::play;
use domain_split::Bounds;
use fixed_point::V3;
use nbody_model::EventKind::{
    Add, Ask, Build, Members, Parts, Reply, Share, Sums, Table, Walk, Want,
};
use nbody_model::{Body, Event, EventKind, Field, Motion};
use rank_exchange::Kit;
use std::alloc::Global;
use std::test::Fail;
use store_io::{LastSchedule, ListSchedule, Schedule};

// An event by its kind, its ranks and its size.
type Told = (EventKind, u16, u16, u64);

const FIRST: [Told; 30] = [
    (Build, 0, 0, 5),
    (Build, 1, 1, 1),
    (Table, 0, 1, 2),
    (Walk, 1, 1, 0),
    (Table, 1, 0, 1),
    (Walk, 0, 0, 0),
    (Ask, 1, 0, 1),
    (Ask, 0, 1, 1),
    (Reply, 0, 1, 1),
    (Walk, 1, 1, 0),
    (Reply, 1, 0, 1),
    (Walk, 0, 0, 0),
    (Sums, 1, 0, 0),
    (Ask, 0, 1, 1),
    (Reply, 1, 0, 1),
    (Walk, 0, 0, 1),
    (Ask, 0, 1, 1),
    (Reply, 1, 0, 1),
    (Walk, 0, 0, 1),
    (Add, 0, 0, 3),
    (Sums, 0, 1, 1),
    (Add, 1, 1, 1),
    (Want, 0, 1, 3),
    (Want, 1, 0, 1),
    (Members, 1, 0, 0),
    (Share, 0, 0, 3),
    (Members, 0, 1, 0),
    (Share, 1, 1, 1),
    (Parts, 0, 1, 0),
    (Parts, 1, 0, 0),
];

const LAST: [Told; 30] = [
    (Build, 1, 1, 1),
    (Table, 1, 0, 1),
    (Build, 0, 0, 5),
    (Table, 0, 1, 2),
    (Walk, 1, 1, 0),
    (Ask, 1, 0, 1),
    (Reply, 0, 1, 1),
    (Walk, 1, 1, 0),
    (Sums, 1, 0, 0),
    (Walk, 0, 0, 0),
    (Ask, 0, 1, 1),
    (Reply, 1, 0, 1),
    (Walk, 0, 0, 0),
    (Ask, 0, 1, 1),
    (Reply, 1, 0, 1),
    (Walk, 0, 0, 1),
    (Ask, 0, 1, 1),
    (Reply, 1, 0, 1),
    (Walk, 0, 0, 1),
    (Sums, 0, 1, 1),
    (Add, 1, 1, 1),
    (Want, 1, 0, 1),
    (Members, 0, 1, 0),
    (Share, 1, 1, 1),
    (Parts, 1, 0, 0),
    (Add, 0, 0, 3),
    (Want, 0, 1, 3),
    (Members, 1, 0, 0),
    (Share, 0, 0, 3),
    (Parts, 0, 1, 0),
];

const PLACES: [[u32; 3]; 3] = [
    [0, 0, 0],
    [536_870_912, 0, 0],
    [268_435_456, 1_610_612_736, 0],
];

fn three_bodies(alloc: Global) -> Result<Vec<Body>, Fail>
    ensures valid { IfOk result (λ bodies. IsValid bodies.items) }
    ensures three { IfOk result (λ bodies. length bodies.items ≡ 3) }
{
    let mut bodies = Vec::new(alloc);
    for i in 0..PLACES.len() {
        let motion = Motion::new(PLACES[i], [0, 0, 0]).ok_or("range")?;
        bodies.push(Body {
            id: i as u64 + 1,
            kind: 1,
            mass: 1 << 20,
            motion,
        })?;
    }
    Ok(bodies)
}

fn owners(alloc: Global) -> Result<Vec<u16>, Fail>
    ensures three { IfOk result (λ owners. length owners.items ≡ 3) }
    ensures ranks { IfOk result (λ owners. AllByRecursion (λ o. o < 2) owners.items) }
{
    Ok([0, 0, 1].to_vec(alloc)?)
}

fn told(alloc: Global, events: &[Event]) -> Result<Vec<Told>, Fail> {
    let mut told = Vec::new(alloc);
    for e in events {
        told.push((e.kind, e.from, e.to, e.size))?;
    }
    Ok(told)
}

// The machine before any event.
fn started<'a>(alloc: Global, kit: &'a Kit<'a>) -> Result<Machine<'a>, Fail>
    ensures { IfOk result (λ m. (w : Whole) × ((z : World RankOf MessageOf) × IsMachine w z m)) }
{
    let bodies = three_bodies(alloc)?;
    let owners = owners(alloc)?;
    let bounds = Bounds::of(alloc, &bodies, &owners, 2)?;
    Ok(Machine::start(alloc, kit, &bodies, owners, bounds)?)
}

// The events of a run, and what it finds.
fn run<K: Schedule>(alloc: Global, order: &mut K) -> Result<(Vec<Told>, Field), Fail> {
    let kit = Kit::new(setup(256), None);
    let mut machine = started(alloc, &kit)?;
    let events = play(alloc, &mut machine, order)?;
    let field = machine.gather(alloc)?;
    Ok((told(alloc, &events)?, field))
}

fn vector(x: i128, y: i128) -> V3 {
    V3 { x, y, z: 0 }
}

#[test]
fn the_first_event_each_time(rt: HostRuntime) -> Result<(), Fail> {
    let mut order = ListSchedule::new(Vec::new(rt.alloc()));
    let (events, field) = run(rt.alloc(), &mut order)?;
    assert_eq!(rt; events.as_slice(), FIRST.as_slice());
    let want = [vector(16383, 1745), vector(-16383, 1744), vector(0, -3489)];
    assert_eq!(rt; field.forces.as_slice(), want.as_slice());
    assert_eq!(rt; field.interactions, 2);
    Ok(())
}

#[test]
fn the_last_event_each_time(rt: HostRuntime) -> Result<(), Fail> {
    let mut order = LastSchedule;
    let (events, field) = run(rt.alloc(), &mut order)?;
    assert_eq!(rt; events.as_slice(), LAST.as_slice());
    let want = [vector(16383, 1745), vector(-16383, 1744), vector(0, -3489)];
    assert_eq!(rt; field.forces.as_slice(), want.as_slice());
    assert_eq!(rt; field.interactions, 2);
    Ok(())
}

// Fires the first enabled event so many times.
fn fire_first(alloc: Global, machine: &mut Machine, times: u64) -> Result<(), Fail>
    requires { (w : Whole) × ((z : World RankOf MessageOf) × IsMachine w z machine.old) }
    ensures { OnOk result ((w : Whole) × ((z : World RankOf MessageOf) × IsMachine w z machine.new)) }
{
    for _ in 0..times {
        if machine.enabled() == 0 {
            return Err("finished".into());
        }
        machine.fire(alloc, 0)?;
    }
    Ok(())
}

// What a rank does next, moved out of its machine, which has ended: its kind, its size and how many messages it sends.
fn act_alone(
    alloc: Global,
    machine: Machine,
    number: usize,
) -> Result<(EventKind, u64, usize), Fail>
    requires machine { (w : Whole) × ((z : World RankOf MessageOf) × IsMachine w z machine) }
{
    let Machine {
        kit,
        bounds,
        mut ranks,
        ..
    } = machine;
    if number >= ranks.len() {
        return Err("no such rank".into());
    }
    let mut rank = ranks.remove(number);
    drop(ranks);
    if !rank.acts() {
        return Err("it can't act".into());
    }
    let acted = rank.act(alloc, kit, &bounds)?;
    Ok((acted.kind, acted.size, acted.messages.len()))
}

#[test]
fn a_rank_answers_alone(rt: HostRuntime) -> Result<(), Fail> {
    let alloc = rt.alloc();
    let kit = Kit::new(setup(256), None);
    for (events, number) in [(0, 0), (1, 1), (3, 1), (5, 0), (19, 0), (27, 1)] {
        let mut machine = started(alloc, &kit)?;
        fire_first(alloc, &mut machine, events)?;
        let mail = machine.mail.len();
        fire_first(alloc, &mut machine, 1)?;
        let sent = machine.mail.len().saturating_sub(mail);
        let mut other = started(alloc, &kit)?;
        fire_first(alloc, &mut other, events)?;
        let (kind, size, messages) = act_alone(alloc, other, number)?;
        let number = number as u16;
        assert_eq!(rt;
            FIRST.get(events as usize),
            Some(&(kind, number, number, size))
        );
        assert_eq!(rt; messages, sent);
    }
    Ok(())
}
