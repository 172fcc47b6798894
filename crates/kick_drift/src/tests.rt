ghost use Rattle.particle_set.specs.Rows.{HasKind};

use super::*;
use fixed_point::V3;
use particle_set::{BodySet, Row};
use std::alloc::Global;
use std::test::Fail;

const LIMIT: i64 = 1 << 62;

fn row(mom: [i64; 3]) -> Row
    ensures { HasKind result }
{
    Row {
        id: 7,
        kind: 1,
        mass: 3,
        pos: [0, 0, 0],
        mom,
    }
}

// The momenta of all bodies.
fn momenta(alloc: Global, set: &BodySet) -> Result<Vec<[i64; 3]>, Fail> {
    let mut momenta = Vec::new(alloc);
    for body in set.bodies() {
        momenta.push(body.motion.mom())?;
    }
    Ok(momenta)
}

#[test]
fn a_kick_to_the_limit_on_x_and_beyond(rt: HostRuntime) -> Result<(), Fail> {
    let alloc = rt.alloc();
    let rows = vec![in alloc; row([LIMIT - 1, 5, -6])]?;
    let mut set = BodySet::from_list(alloc, rows)?;
    if set.len() != 1 {
        return Err("other bodies".into());
    }
    let up = [V3 { x: 1, y: 0, z: 0 }];
    assert!(rt; kick(&mut set, &[0], &up, &[], &[], 1).is_ok());
    let refused = kick(&mut set, &[0], &up, &[], &[], 1);
    assert!(rt; refused == Err(KickErr::MomRange { id: 7, axis: 0 }));
    let want = [[LIMIT, 5, -6]];
    assert!(rt; momenta(alloc, &set)?.as_slice() == want.as_slice());
    Ok(())
}

#[test]
fn a_kick_to_the_limit_on_y_and_a_drift(rt: HostRuntime) -> Result<(), Fail> {
    let alloc = rt.alloc();
    let rows = vec![in alloc; row([-1, LIMIT - 1, 0])]?;
    let mut set = BodySet::from_list(alloc, rows)?;
    if set.len() != 1 {
        return Err("other bodies".into());
    }
    let up = [V3 { x: 0, y: 1, z: 0 }];
    assert!(rt; kick(&mut set, &[0], &up, &[], &[], 1).is_ok());
    let refused = kick(&mut set, &[0], &up, &[], &[], 1);
    assert!(rt; refused == Err(KickErr::MomRange { id: 7, axis: 1 }));
    drift(&mut set, &[0], 1, 0);
    let want = [[-1, LIMIT, 0]];
    assert!(rt; momenta(alloc, &set)?.as_slice() == want.as_slice());
    let mut places = Vec::new(alloc);
    for body in set.bodies() {
        places.push(body.motion.pos())?;
    }
    let want = [[0xFFFF_FFFF, 0x5555_5555, 0]];
    assert!(rt; places.as_slice() == want.as_slice());
    Ok(())
}
