// Words, parameter files and snapshots, by what is answered to each.
use super::*;

#[test]
fn parameters_are_answered(rt: HostRuntime) -> Result<(), Fail> {
    let alloc = rt.alloc();
    let cases = [
        (
            "VelocityShift 20\nGravity 5\nTimeMax 2",
            10,
            "parameter line 8 unknown\n",
        ),
        (
            "VelocityShift 20\nErrTolIntAccuracy 65536",
            10,
            "parameter line 0 missing TimeMax\n",
        ),
        ("TimeMax 2\nTimeMax 4", 10, "parameter line 8 repeated\n"),
        ("TimeMax 1.5", 10, "parameter line 7 not a number\n"),
        (
            "DeliverySeed 18446744073709551616",
            10,
            "parameter line 7 out of range\n",
        ),
    ];
    for (last_lines, code, want) in cases {
        let mut store = store_of(alloc, last_lines, &PAIR)?;
        assert!(rt; says(alloc, &RUN, &mut store, code, want)?, "at {want}");
        assert!(rt;
            says(alloc, &["check", "param.txt"], &mut store, code, want)?,
            "at {want}"
        );
        assert!(rt; !stands(alloc, &store, "kicks.txt")?);
    }
    Ok(())
}

#[test]
fn clashing_names_are_refused(rt: HostRuntime) -> Result<(), Fail> {
    let alloc = rt.alloc();
    let mut store = MemStore::new(alloc);
    let params =
        b"InitCondFile ics.dat\nSnapshotFileBase snapshot\nKickFile snapshot_7\nTimeMax 2\nLowBin 1\nTopBin 1\nErrTolTheta 0\nErrTolIntAccuracy 1\nGravityConstantInternal 0\nVelocityShift 0\n";
    store.put(&text(alloc, b"param.txt")?, params)?;
    assert!(rt; says(alloc, &RUN, &mut store, 10, "parameter line 3 clash\n")?);
    Ok(())
}

#[test]
fn words_and_files_are_answered(rt: HostRuntime) -> Result<(), Fail> {
    let alloc = rt.alloc();
    let usage =
        "usage: gadget run PARAM RANKS | resume PARAM RESTART RANKS | check PARAM | show SNAP | make COUNT SEED NAME | groups SNAP LINK MIN NAME | links FIRST SECOND NAME\n";
    let cases: [(&[&str], u8, &str); 14] = [
        (&[], 2, usage),
        (&["run", "param.txt", "0"], 2, usage),
        (&["run", "param.txt", "257"], 2, usage),
        (&["make", "1", "x", "c"], 2, usage),
        (&["run", "param.txt", "x"], 2, usage),
        (&["show", "nothing"], 7, "absent nothing\n"),
        (&["resume", "param.txt", "restart_000", "0"], 2, usage),
        (&["resume", "param.txt", "", "1"], 2, usage),
        (&["resume", "param.txt", "restart_000"], 2, usage),
        (&["resume", "param.txt", "restart_000", "257"], 2, usage),
        (
            &["resume", "nothing", "restart_000", "1"],
            7,
            "absent nothing\n",
        ),
        (&["make", "1048577", "2", "c"], 2, usage),
        (&["run", "nothing", "1"], 7, "absent nothing\n"),
        (&["run", "long", "1"], 8, "too long long 65537\n"),
    ];
    for (words, code, want) in cases {
        let mut store = MemStore::new(alloc);
        let long = vec![in alloc; b'\n'; 65537]?;
        store.put(&text(alloc, b"long")?, &long)?;
        assert!(rt; says(alloc, words, &mut store, code, want)?, "at {want}");
    }
    Ok(())
}

#[test]
fn snapshots_are_answered(rt: HostRuntime) -> Result<(), Fail> {
    let alloc = rt.alloc();
    let whole = snapshot(alloc, &PAIR, 2)?;
    let lines =
        "tick 2 number 0 bodies 2 mass 2048 momentum 0 0 0\ntype 1 bodies 2\ntype 2 bodies 0\ntype 3 bodies 0\ntype 4 bodies 0\ntype 5 bodies 0\n";
    let mut store = store_of(alloc, STEP, &PAIR)?;
    store.put(&text(alloc, b"snap")?, &whole)?;
    assert!(rt; says(alloc, &["show", "snap"], &mut store, 0, lines)?);
    assert!(rt;
        says(
            alloc,
            &["check", "param.txt"],
            &mut store,
            0,
            "ok bodies 2 mass 2048 momentum 0 0 0\n"
        )?
    );
    let cases: [(usize, &[u8], &str); 3] = [
        (470, b"", "snapshot truncated at 456\n"),
        (468, &[9, 0, 0, 0], "snapshot frames differ at 468 8 9\n"),
        (464, &[0, 0, 0, 0, 8, 0, 0, 0], "snapshot zero mass id 2\n"),
    ];
    for (kept, tail, want) in cases {
        let bytes = joined(alloc, whole.get(..kept).ok_or("short")?, tail)?;
        store.put(&text(alloc, b"snap")?, &bytes)?;
        assert!(rt;
            says(alloc, &["show", "snap"], &mut store, 13, want)?,
            "at {want}"
        );
    }
    let mut untagged = Vec::from_slice(alloc, whole.get(..20).ok_or("short")?)?;
    untagged.extend_from_slice(&[0; 8])?;
    untagged.extend_from_slice(whole.get(28..).ok_or("short")?)?;
    store.put(&text(alloc, b"snap")?, &untagged)?;
    assert!(rt;
        says(
            alloc,
            &["show", "snap"],
            &mut store,
            13,
            "snapshot head tag\n"
        )?
    );
    Ok(())
}
