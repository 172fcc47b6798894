use crate::hearing::place_of;
use crate::pushing::{push_both, push_same};
use crate::ranked::{Ranked, note, sort};
use crate::sending::sums_for;
use crate::slot::Slot;
use cell_space::Cell;
use fixed_point::V3;
use smallvec::SmallVec;
use std::collections::BTreeMap;
use std::test::Fail;

// The root, as the cell of this home and number, with the rank in its span or not.
fn slot(mine: bool, home: u16, order: u128) -> Slot {
    Slot {
        known: None,
        cell: Cell::root(),
        first: 0,
        number: 0,
        mine,
        here: false,
        home,
        order,
    }
}

#[test]
fn pairs_are_taken_off_in_their_order(rt: HostRuntime) -> Result<(), Fail> {
    let mut slots = Vec::new(rt.alloc());
    for mine in [true, false, false] {
        slots.push(slot(mine, 0, 0))?;
    }
    if slots.len() != 3 {
        return Err("length".into());
    }
    let mut stack = SmallVec::new(rt.alloc());
    push_same(&slots, &mut stack, 0, 3)?;
    for want in [(0, 0), (0, 1), (0, 2)] {
        let x = stack.pop().ok_or("too few")?;
        assert_eq!(rt; (x.a, x.b), want);
    }
    assert!(rt; stack.is_empty());
    push_both(&slots, &mut stack, (0, 2), (1, 3))?;
    for want in [(0, 1), (0, 2)] {
        let x = stack.pop().ok_or("too few")?;
        assert_eq!(rt; (x.a, x.b), want);
    }
    assert!(rt; stack.is_empty());
    Ok(())
}

#[test]
fn places_are_put_in_order_and_noted(rt: HostRuntime) -> Result<(), Fail> {
    let mut ranked = Vec::new(rt.alloc());
    for (order, place) in [(9, 4), (2, 7), (5, 1)] {
        ranked.push(Ranked { order, place })?;
    }
    sort(&mut ranked);
    let mut orders = Vec::new(rt.alloc());
    for at in &ranked {
        orders.push(at.order)?;
    }
    assert_eq!(rt; orders.as_slice(), [2, 5, 9].as_slice());
    let mut places = BTreeMap::new(rt.alloc());
    note(&mut places, &ranked)?;
    for (order, want) in [(9, 4), (2, 7), (5, 1)] {
        assert_eq!(rt; place_of(&places, order), want);
    }
    Ok(())
}

// Of four cells the second and the fourth took part and have home 1; the sum of the fourth is 0.
#[test]
fn a_sum_of_0_is_sent_too(rt: HostRuntime) -> Result<(), Fail> {
    let mut slots = Vec::new(rt.alloc());
    let mut sums = Vec::new(rt.alloc());
    let mut touched = Vec::new(rt.alloc());
    for (home, order, x, took) in [
        (0, 0, 5, true),
        (1, 8, 6, true),
        (1, 3, 7, false),
        (1, 4, 0, true),
    ] {
        slots.push(slot(true, home, order))?;
        sums.push(V3 { x, y: 0, z: 0 })?;
        touched.push(took)?;
    }
    if slots.len() != 4 || sums.len() != 4 || touched.len() != 4 {
        return Err("length".into());
    }
    let out = sums_for(rt.alloc(), &slots, &touched, &sums, 1)?;
    let mut xs = Vec::new(rt.alloc());
    for one in &out {
        xs.push(one.sum.x)?;
    }
    assert_eq!(rt; xs.as_slice(), [0, 6].as_slice());
    Ok(())
}
