use super::*;
use std::test::Fail;

// A cell of level 23 is 512 length units wide.
#[test]
fn cells_around_positions(rt: HostRuntime) -> Result<(), Fail> {
    for (pos, level, corner, side) in [
        ([5, 511, 512], 0, [0, 0, 0], 4294967296),
        ([5, 511, 512], 23, [0, 0, 512], 512),
        ([5, 511, 512], 32, [5, 511, 512], 1),
        (
            [u32::MAX, 0, 0x8000_0000],
            1,
            [0x8000_0000, 0, 0x8000_0000],
            2147483648,
        ),
    ] {
        let cell = cell_of(pos, level);
        assert_eq!(rt; cell.corner, corner, "{level}");
        assert_eq!(rt; cell.side(), side, "{level}");
        assert!(rt; cell.contains(pos), "{level}");
    }
    Ok(())
}

#[test]
fn children_of_the_root(rt: HostRuntime) -> Result<(), Fail> {
    let root = Cell::root();
    let half = 0x8000_0000;
    for (number, corner) in [
        (0, [0, 0, 0]),
        (1, [half, 0, 0]),
        (2, [0, half, 0]),
        (4, [0, 0, half]),
        (7, [half, half, half]),
    ] {
        let child = root.child(number);
        assert_eq!(rt; child.level, 1, "{number}");
        assert_eq!(rt; child.corner, corner, "{number}");
        assert!(rt; root.before(&child), "{number}");
        assert!(rt; !root.disjoint(&child), "{number}");
    }
    assert!(rt; root.child(0).disjoint(&root.child(7)));
    assert!(rt; root.child(4).before(&root.child(2)));
    assert!(rt; !root.same(&root.child(0)));
    Ok(())
}
