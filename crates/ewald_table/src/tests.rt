use super::*;
use std::alloc::Global;
use std::test::Fail;

// The bytes of a table with two steps on an axis: all entries 0 but one, whose first number is this.
fn table_bytes(alloc: Global, index: usize, number: i32) -> Result<Vec<u8>, Fail> {
    let mut bytes = Vec::with_capacity(alloc, 340)?;
    bytes.extend_from_slice(b"I4EWALD1\x01\0\0\0\xff\xff\xff\xff")?;
    for at in 0..27 {
        let x = if at == index { number } else { 0 };
        bytes.extend_from_slice(&x.to_le_bytes())?;
        bytes.extend_from_slice(&[0; 8])?;
    }
    Ok(bytes)
}

#[test]
fn corrects_by_a_table(rt: HostRuntime) -> Result<(), Fail> {
    let alloc = rt.alloc();
    let table = read_table(alloc, &table_bytes(alloc, 1, 1_073_741_824)?)?;
    let cases = [
        ([1_073_741_824, 0, 0], [1_073_741_824, 0, 0]),
        ([-536_870_912, 0, 0], [-536_870_912, 0, 0]),
        ([-536_870_912, 536_870_912, -3], [-268_435_455, 0, 0]),
        ([-2_147_483_648, 0, 0], [0, 0, 0]),
    ];
    for (d, want) in cases {
        assert_eq!(rt; correction(&table, d), want);
    }
    Ok(())
}

#[test]
fn refuses_what_is_no_table(rt: HostRuntime) -> Result<(), Fail> {
    let alloc = rt.alloc();
    let whole = table_bytes(alloc, 1, 1_073_741_824)?;
    let short = whole.get(..339).ok_or("short")?;
    let want = TableErr::Length {
        want: 340,
        got: 339,
    };
    assert!(rt; read_table(alloc, short).is_err_and(|e| e == want));
    let off = table_bytes(alloc, 0, 1)?;
    let want = TableErr::PlaneNotZero { index: 0 };
    assert!(rt; read_table(alloc, &off).is_err_and(|e| e == want));
    let fine = b"I4EWALD1\x07\0\0\0\0\0\0\0";
    let want = TableErr::GridRange { g: 7 };
    assert!(rt; read_table(alloc, fine).is_err_and(|e| e == want));
    assert!(rt; read_table(alloc, b"I4EWALD2").is_err_and(|e| e == TableErr::Tag));
    Ok(())
}
