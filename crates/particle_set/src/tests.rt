ghost use Rattle.std.specs.Prelude.{◌≤◌};
ghost use Rattle.particle_set.specs.Rows.{HasKind};

use super::*;
use nbody_model::Motion;
use std::test::Fail;

fn moving(id: u64, mass: u32, mom: [i64; 3]) -> Row
    ensures { HasKind result }
{
    Row {
        id,
        kind: 1,
        mass,
        pos: [0, 0, 0],
        mom,
    }
}

fn row(id: u64, mass: u32) -> Row
    ensures { HasKind result }
{
    moving(id, mass, [0, 0, 0])
}

#[test]
fn the_least_repeated_id_is_named(rt: HostRuntime) -> Result<(), Fail> {
    let rows = vec![in rt.alloc(); row(5, 0), row(5, 0), row(3, 0), row(3, 0)]?;
    let refused = BodySet::from_list(rt.alloc(), rows);
    assert!(rt; refused.is_err_and(|e| e == SetErr::Repeated { id: 3 }));
    Ok(())
}

#[test]
fn another_motion_changes_one_body(rt: HostRuntime) -> Result<(), Fail> {
    let alloc = rt.alloc();
    let rows = vec![in alloc; moving(7, 2, [5, -6, 7]), row(4, 3)]?;
    let mut set = BodySet::from_list(alloc, rows)?;
    assert_eq!(rt; set.total_momentum(), [5, -6, 7]);
    let before = set.copy(alloc)?;
    assert_eq!(rt; set.len(), 2);
    let motion = Motion::new([9, 8, 7], [1, 2, 3]).ok_or(SetErr::Memory)?;
    set.set_motion(0, motion);
    assert_eq!(rt; set.len(), 2);
    assert_eq!(rt; set.total_momentum(), [6, -4, 10]);
    assert_eq!(rt; before.total_momentum(), [5, -6, 7]);
    assert_eq!(rt; set.get(0).id, 4);
    assert_eq!(rt; set.get(0).motion.pos(), [9, 8, 7]);
    assert_eq!(rt; set.get(1).motion.mom(), [5, -6, 7]);
    Ok(())
}

#[test]
fn a_lent_motion_changes_one_body(rt: HostRuntime) -> Result<(), Fail> {
    let alloc = rt.alloc();
    let rows = vec![in alloc; moving(7, 2, [5, -6, 7]), row(4, 3)]?;
    let mut set = BodySet::from_list(alloc, rows)?;
    assert_eq!(rt; set.len(), 2);
    set.lend_one(1).set_pos([9, 8, 7]);
    assert_eq!(rt; set.len(), 2);
    assert_eq!(rt; set.get(1).motion.pos(), [9, 8, 7]);
    assert_eq!(rt; set.get(1).motion.mom(), [5, -6, 7]);
    assert_eq!(rt; set.get(0).motion.pos(), [0, 0, 0]);
    assert_eq!(rt; set.total_momentum(), [5, -6, 7]);
    Ok(())
}

fn of_kind(kind: u8, id: u64, mass: u32) -> Row
    requires low { 1 ≤ kind }
    requires high { kind ≤ 5 }
    ensures { HasKind result }
{
    Row {
        kind,
        ..moving(id, mass, [1, -2, 3])
    }
}

#[test]
fn a_copy_has_the_same_bodies(rt: HostRuntime) -> Result<(), Fail> {
    let alloc = rt.alloc();
    let rows = vec![in alloc;
        of_kind(5, 9, 10),
        of_kind(2, 4, 20),
        of_kind(3, 7, 30),
        of_kind(1, 8, 40),
        of_kind(4, 2, 50),
    ]?;
    let set = BodySet::from_list(alloc, rows)?;
    let copied = set.copy(alloc)?;
    for these in [set.bodies(), copied.bodies()] {
        let mut seen = Vec::new(alloc);
        for body in these {
            seen.push((body.id, body.kind, body.mass))?;
            assert_eq!(rt; body.motion.pos(), [0, 0, 0]);
            assert_eq!(rt; body.motion.mom(), [1, -2, 3]);
        }
        let want = [(2, 4, 50), (4, 2, 20), (7, 3, 30), (8, 1, 40), (9, 5, 10)];
        assert!(rt; seen.as_slice() == want.as_slice());
    }
    Ok(())
}
