use super::*;
use std::alloc::Global;
use std::test::Fail;

// The bytes of a table with entries at tick 0 and at this width, 2^s.
fn table_bytes(alloc: Global, s: u8, first: [u8; 2], last: [u64; 2]) -> Result<Vec<u8>, Fail> {
    let mut bytes = Vec::with_capacity(alloc, 48)?;
    bytes.extend_from_slice(b"I4EXPAN1")?;
    bytes.extend_from_slice(&[s, 0, 0, 0, 2, 0, 0, 0])?;
    bytes.extend_from_slice(&[first[0], 0, 0, 0, 0, 0, 0, 0])?;
    bytes.extend_from_slice(&[first[1], 0, 0, 0, 0, 0, 0, 0])?;
    bytes.extend_from_slice(&last[0].to_le_bytes())?;
    bytes.extend_from_slice(&last[1].to_le_bytes())?;
    Ok(bytes)
}

#[test]
fn late_kicks_count(rt: HostRuntime) -> Result<(), Fail> {
    let alloc = rt.alloc();
    let bytes = table_bytes(alloc, 1, [0, 0], [1, 2])?;
    let table = read_expansion(alloc, &bytes, 2)?;
    assert_eq!(rt; kick_factor(Some(&table), 0, 1), 0);
    assert_eq!(rt; kick_factor(Some(&table), 1, 2), 1);
    assert_eq!(rt; drift_factor(Some(&table), 0, 2), 2);
    Ok(())
}

#[test]
fn a_table_may_say_what_none_says(rt: HostRuntime) -> Result<(), Fail> {
    let alloc = rt.alloc();
    let bytes = table_bytes(alloc, 20, [0, 0], [1_048_576, 1_048_576])?;
    let table = read_expansion(alloc, &bytes, 4096)?;
    for (from, to) in [(0, 512), (512, 1024), (3072, 4096), (7, 7)] {
        assert_eq!(rt; kick_factor(Some(&table), from, to), to - from);
        assert_eq!(rt; drift_factor(Some(&table), from, to), to - from);
        assert_eq!(rt; kick_factor(None, from, to), to - from);
    }
    Ok(())
}

#[test]
fn refuses_what_is_no_table(rt: HostRuntime) -> Result<(), Fail> {
    let alloc = rt.alloc();
    let whole = table_bytes(alloc, 1, [0, 0], [1, 2])?;
    let cut = whole.get(..47).ok_or("short")?;
    let want = ExpErr::Length { want: 48, got: 47 };
    assert!(rt; read_expansion(alloc, cut, 2).is_err_and(|e| e == want));
    let begun = table_bytes(alloc, 1, [1, 0], [1, 2])?;
    let want = ExpErr::Entry { index: 0 };
    assert!(rt; read_expansion(alloc, &begun, 2).is_err_and(|e| e == want));
    let want = ExpErr::Short { want: 4, got: 2 };
    assert!(rt; read_expansion(alloc, &whole, 4).is_err_and(|e| e == want));
    let steep = table_bytes(alloc, 1, [0, 0], [1, 3])?;
    let want = ExpErr::Entry { index: 1 };
    assert!(rt; read_expansion(alloc, &steep, 2).is_err_and(|e| e == want));
    Ok(())
}
