use super::*;
use std::test::Fail;

// Of -7, each of three equal members gets -3 first, and two get 1 more: those of the smaller ids.
#[test]
fn shares_of_minus_seven(rt: HostRuntime) -> Result<(), Fail> {
    let mut scratch = Scratch::with_room(rt.alloc(), 3)?;
    assert_eq!(rt; scratch.room(), 3);
    let mut out = [0i128; 3];
    share(-7, &[(1, 1), (2, 1), (3, 1)], &mut out, &mut scratch);
    assert_eq!(rt; out, [-2, -2, -3]);
    Ok(())
}

// Of 10 among masses of 1, 2 and 4: 10, 20 and 40 sevenths, whose rests are 3, 6 and 5, and 2 are left.
#[test]
fn the_greatest_rests_are_served(rt: HostRuntime) -> Result<(), Fail> {
    let mut scratch = Scratch::with_room(rt.alloc(), 4)?;
    let mut out = [0i128; 3];
    share(10, &[(1, 1), (2, 2), (3, 4)], &mut out, &mut scratch);
    assert_eq!(rt; out, [1, 3, 6]);
    Ok(())
}

// Of 2 among masses of 3 and 1: 6 and 2 quarters, whose rests are both 2, and 1 is left: for the smaller id, not the smaller mass.
#[test]
fn equal_rests_are_served_by_id(rt: HostRuntime) -> Result<(), Fail> {
    let mut scratch = Scratch::with_room(rt.alloc(), 2)?;
    let mut out = [0i128; 2];
    share(2, &[(1, 3), (2, 1)], &mut out, &mut scratch);
    assert_eq!(rt; out, [2, 0]);
    Ok(())
}
