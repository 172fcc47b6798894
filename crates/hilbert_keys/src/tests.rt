use super::*;
use cell_space::{Cell, cell_of};
use std::test::Fail;

const TOP: u128 = 1 << 96;

// The first level's cells along the curve, as z, y and x of their upper bits.
#[test]
fn first_cells_of_the_curve(rt: HostRuntime) -> Result<(), Fail> {
    let half = 0x8000_0000;
    for (place, corner) in [
        (0, [0, 0, 0]),
        (1, [0, half, 0]),
        (2, [0, half, half]),
        (3, [0, 0, half]),
        (4, [half, 0, half]),
        (5, [half, half, half]),
        (6, [half, half, 0]),
        (7, [half, 0, 0]),
    ] {
        let (first, last) = cell_key_range(&cell_of(corner, 1));
        assert_eq!(rt; first, place * (TOP / 8), "{place}");
        assert_eq!(rt; last, (place + 1) * (TOP / 8) - 1, "{place}");
    }
    Ok(())
}

#[test]
fn keys_and_positions(rt: HostRuntime) -> Result<(), Fail> {
    for (pos, key) in [([0, 0, 0], 0), ([0, 0, 1], 1), ([u32::MAX, 0, 0], TOP - 1)] {
        assert_eq!(rt; key_of(pos), key, "{key}");
        assert_eq!(rt; pos_of(key), pos, "{key}");
    }
    Ok(())
}

#[test]
fn the_whole_box(rt: HostRuntime) -> Result<(), Fail> {
    let (first, last) = cell_key_range(&Cell::root());
    assert_eq!(rt; first, 0);
    assert_eq!(rt; last, TOP - 1);
    Ok(())
}
