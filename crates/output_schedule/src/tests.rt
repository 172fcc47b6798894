use super::*;
use std::test::Fail;

#[test]
fn reads_lists(rt: HostRuntime) -> Result<(), Fail> {
    let alloc = rt.alloc();
    let times = read_outputs(alloc, b"1600\n0\n% later ones\n1000 1\n1500\n9000\n0")?;
    assert_eq!(rt; times.as_slice(), [0, 1000, 1500, 1600, 9000].as_slice());
    let fault = read_outputs(alloc, b"5\n% x\n7 8\nabc").err();
    assert_eq!(rt; fault, Some(OutputErr::NotNumber { line: 4 }));
    Ok(())
}

#[test]
fn counts_too_many(rt: HostRuntime) -> Result<(), Fail> {
    let alloc = rt.alloc();
    let mut bytes = Vec::new(alloc);
    for _ in 0..65_536 {
        bytes.extend_from_slice(b"1\n")?;
    }
    assert_eq!(rt; read_outputs(alloc, &bytes)?.as_slice(), [1].as_slice());
    bytes.push(b'1')?;
    let fault = read_outputs(alloc, &bytes).err();
    assert_eq!(rt; fault, Some(OutputErr::TooMany { count: 65_537 }));
    Ok(())
}

#[test]
fn a_span_has_its_start_and_not_its_end(rt: HostRuntime) -> Result<(), Fail> {
    let cases = [
        (0, 1, true),
        (1, 1000, false),
        (1, 1001, true),
        (1001, 2000, false),
    ];
    for (from, to, want) in cases {
        assert_eq!(rt; due(&[0, 1000], from, to), want, "from {from} to {to}");
    }
    Ok(())
}
