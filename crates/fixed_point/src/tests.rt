use super::*;
use std::test::Fail;

const TWO64: u128 = 1 << 64;

#[test]
fn roots(rt: HostRuntime) {
    for (n, want) in [
        (0, 0),
        (1, 1),
        (3, 1),
        (4, 2),
        (0xFFFF_FFFE_0000_0000, 0xFFFF_FFFE),
        (0xFFFF_FFFE_0000_0001, 0xFFFF_FFFF),
        (TWO64 - 1, 0xFFFF_FFFF),
        (TWO64, 0x1_0000_0000),
        (4 * TWO64 - 1, 0x1_FFFF_FFFF),
        (12_345_678_901_234_567_890, 3_513_641_828),
    ] {
        assert!(rt; n < 1 << 66);
        assert_eq!(rt; isqrt(n), want, "{n}");
    }
}

#[test]
fn quotients(rt: HostRuntime) {
    let least = i128::MIN;
    for (a, b, toward_zero, down, rest) in [
        (7, 2, 3, 3, 1),
        (-7, 2, -3, -4, 1),
        (-8, 2, -4, -4, 0),
        (0, 9, 0, 0, 0),
        (-1, i128::MAX, 0, -1, i128::MAX - 1),
        (least, 1, least, least, 0),
        (least, 1 << 100, -(1 << 27), -(1 << 27), 0),
        (least, 3, least / 3, least / 3 - 1, 1),
    ] {
        assert_eq!(rt; trunc_div(a, b), toward_zero, "{a} by {b}");
        assert_eq!(rt; floor_div_mod(a, b), (down, rest), "{a} by {b}");
    }
}

#[test]
fn differences(rt: HostRuntime) {
    for (a, b, want) in [
        (5, 7, 2),
        (7, 5, -2),
        (0, 0x7FFF_FFFF, 0x7FFF_FFFF),
        (0, 0x8000_0000, -0x8000_0000),
        (0x8000_0000, 0, -0x8000_0000),
        (u32::MAX, 0, 1),
    ] {
        assert_eq!(rt; wrap_diff(a, b), want, "{a} to {b}");
    }
}

#[test]
fn vectors(rt: HostRuntime) {
    let v = V3 { x: 1, y: -2, z: 3 };
    let sum = V3::ZERO.plus(v).plus(v);
    assert_eq!(rt; sum, V3 { x: 2, y: -4, z: 6 });
    assert_eq!(rt; v.negated(), V3 { x: -1, y: 2, z: -3 });
    assert_eq!(rt; [v.get(0), v.get(1), v.get(2)], [1, -2, 3]);
}

#[test]
fn momenta(rt: HostRuntime) {
    let end = 1i64 << 62;
    for (p, h, change, want) in [
        (5, 2, -7, Some(-9)),
        (end - 2, 2, 1, Some(end)),
        (end - 1, 2, 1, None),
        (2 - end, 2, -1, Some(-end)),
        (1 - end, 2, -1, None),
        (0, 1 << 19, i128::MAX, None),
        (end, 1, -2 * i128::from(end), Some(-end)),
    ] {
        assert_eq!(rt; scale_in_range(p, h, change), want, "{p} {h} {change}");
    }
}
