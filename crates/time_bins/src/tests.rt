use super::*;
use fixed_point::V3;
use nbody_model::{Body, Motion, Setup};
use std::test::Fail;

fn setup() -> Setup {
    Setup {
        time_max: 2,
        low_bin: 1,
        top_bin: 1,
        theta: 0,
        eta: 31_247,
        gravity: 1 << 20,
        velocity_shift: 4,
        soft: [256, 256, 256, 256, 256, 256],
    }
}

fn along_x(x: i128) -> V3 {
    V3 { x, y: 0, z: 0 }
}

#[test]
fn a_force_at_its_limit_fits(rt: HostRuntime) -> Result<(), Fail> {
    let motion = Motion::new([0, 0, 0], [0, 0, 0]).ok_or("range")?;
    let body = Body {
        id: 1,
        kind: 1,
        mass: 1024,
        motion,
    };
    for (force, want) in [
        (999_904, true),
        (999_905, false),
        (-999_904, true),
        (-999_905, false),
    ] {
        assert_eq!(rt; fits(&setup(), &body, &along_x(force), 1), want);
    }
    let forces = [along_x(999_904), along_x(999_905)];
    let places = fast_part(rt.alloc(), &setup(), &[body, body], &forces, 1)?;
    assert_eq!(rt; places.as_slice(), [1].as_slice());
    Ok(())
}
