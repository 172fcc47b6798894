use super::*;
use cell_space::cell_of;
use nbody_model::{Body, Motion};

// In the cell of side 512 with corner (0, 512, 0): distances 5, 88, 7 of a mass of 3, and 6, 0, 511 of a mass of 2.
#[test]
fn sums_of_two_bodies(rt: HostRuntime) {
    let (p, q) = ([5, 600, 7], [6, 512, 511]);
    let (Some(near), Some(far)) = (Motion::new(p, [0, 0, 0]), Motion::new(q, [0, 0, 0])) else {
        panic!(rt; "a momentum of 0 is in range");
    };
    let cell = cell_of(p, 23);
    if !cell.contains(near.pos()) {
        panic!(rt; "the body lies in the cell");
    }
    if !cell.contains(far.pos()) {
        panic!(rt; "the body lies in the cell");
    }
    let soft = [256, 256, 512, 256, 256, 256];
    let one = Raw::of_body(
        &cell,
        &Body {
            id: 1,
            kind: 1,
            mass: 3,
            motion: near,
        },
        &soft,
    );
    let two = Raw::of_body(
        &cell,
        &Body {
            id: 2,
            kind: 2,
            mass: 2,
            motion: far,
        },
        &soft,
    );
    assert_eq!(rt; one.mx, [15, 264, 21]);
    assert_eq!(rt; one.mxx, [75, 23232, 147, 1320, 105, 1848]);
    assert_eq!(rt; two.eps, 512);
}
