// Bodies that are made.
use super::*;

const MAKE: [&str; 4] = ["make", "1", "0", "b"];

// The snapshot of one body that is drawn from the seed 0.
fn drawn(alloc: Global) -> Result<Vec<u8>, Memory> {
    let body = Placed {
        id: 1,
        mass: 2793,
        position: [335_903_614, 436_792_849, 2_599_843_874],
        momentum: [-122_028, 63_815, -441_335],
    };
    snapshot(alloc, &[body], 0)
}

#[test]
fn bodies_are_made(rt: HostRuntime) -> Result<(), Fail> {
    let alloc = rt.alloc();
    let mut store = MemStore::new(alloc);
    let cases: [(&[&str], &str); 4] = [
        (&MAKE, "made 1 bodies in b.ics\n"),
        (&["make", "0", "5", "a"], "made 0 bodies in a.ics\n"),
        (
            &["check", "b.param"],
            "ok bodies 1 mass 2793 momentum -122028 63815 -441335\n",
        ),
        (
            &["run", "b.param", "1"],
            "done tick 64 steps 2 snapshots 1 kicks 4 interactions 0 momentum -122028 63815 -441335\n",
        ),
    ];
    for (words, line) in cases {
        assert!(rt; says(alloc, words, &mut store, 0, line)?);
    }
    assert!(rt; holds(alloc, &store, "b.ics", &drawn(alloc)?)?);
    assert!(rt; holds(alloc, &store, "a.ics", &snapshot(alloc, &[], 0)?)?);
    assert!(rt; stands(alloc, &store, "b_out_000")?);
    Ok(())
}

#[test]
fn each_failing_write_is_answered(rt: HostRuntime) -> Result<(), Fail> {
    let alloc = rt.alloc();
    let whole = drawn(alloc)?;
    let first = "write fault b.ics\n";
    let second = "write fault b.param\n";
    let lines = [first, first, first, second, second, second];
    for (call, line) in lines.iter().enumerate() {
        let mut store = MemStore::new(alloc);
        store.fail(call as u64, 100)?;
        assert!(rt; says(alloc, &MAKE, &mut store, 5, line)?);
        if call < 3 {
            assert!(rt; !stands(alloc, &store, "b.param")?);
        } else {
            assert!(rt; holds(alloc, &store, "b.ics", &whole)?);
        }
    }
    let mut store = MemStore::new(alloc);
    store.fail(6, 100)?;
    assert!(rt; says(alloc, &MAKE, &mut store, 0, "made 1 bodies in b.ics\n")?);
    Ok(())
}

#[test]
fn a_name_has_room_for_its_endings(rt: HostRuntime) -> Result<(), Fail> {
    let alloc = rt.alloc();
    for (len, code) in [(0, 2), (1, 0), (180, 0), (181, 2)] {
        let name = "n".repeat(alloc, len)?;
        let mut store = MemStore::new(alloc);
        let words = ["make", "0", "0", name.as_str()];
        assert_eq!(rt; say(alloc, &words, &mut store, &mut NeverStop)?.code, code);
    }
    Ok(())
}
