// Runs by their files, printed lines and statuses.
use super::*;

#[test]
fn two_bodies_make_one_base_step(rt: HostRuntime) -> Result<(), Fail> {
    let alloc = rt.alloc();
    let mut store = store_of(alloc, STEP, &PAIR)?;
    let done = "done tick 2 steps 1 snapshots 1 kicks 2 interactions 2 momentum 0 0 0\n";
    assert!(rt; says(alloc, &RUN, &mut store, 0, done)?);
    let want = snapshot(alloc, &[at(1, 0, 2001626), at(2, 999, -2001626)], 2)?;
    assert_eq!(rt; want.len(), 472);
    assert!(rt; holds(alloc, &store, "snapshot_000", &want)?);
    assert!(rt;
        holds(
            alloc,
            &store,
            "kicks.txt",
            b"0 1 2 0 1 0 0 0 0\n2 1 2 0 1 0 0 0 0\n"
        )?
    );
    Ok(())
}

#[test]
fn runs_end_as_they_should(rt: HostRuntime) -> Result<(), Fail> {
    let alloc = rt.alloc();
    let none = "done tick 2 steps 1 snapshots 1 kicks 2 interactions 0 momentum 0 0 0\n";
    assert!(rt; prints(alloc, STEP, &[], 0, none)?);
    let edge = [at(1, 4294966796, 0), at(2, 500, 0)];
    let moved = "done tick 2 steps 1 snapshots 1 kicks 2 interactions 2 momentum 0 0 0\n";
    assert!(rt; prints(alloc, STEP, &edge, 0, moved)?);
    let same = [at(1, 7, 0), at(2, 7, 0)];
    assert!(rt; prints(alloc, STEP, &same, 0, none)?);
    let leaf = [at(1, 0, 0), at(2, 0, 0), at(3, 0, 0), at(4, 1000, 0)];
    assert!(rt; prints(alloc, STEP, &leaf, 0, moved)?);
    Ok(())
}

#[test]
fn no_bodies_leave_an_empty_snapshot(rt: HostRuntime) -> Result<(), Fail> {
    let alloc = rt.alloc();
    let mut store = store_of(alloc, STEP, &[])?;
    let done = "done tick 2 steps 1 snapshots 1 kicks 2 interactions 0 momentum 0 0 0\n";
    assert!(rt; says(alloc, &RUN, &mut store, 0, done)?);
    let want = snapshot(alloc, &[], 2)?;
    assert_eq!(rt; want.len(), 376);
    assert!(rt; holds(alloc, &store, "snapshot_000", &want)?);
    Ok(())
}

#[test]
fn steps_out_of_range_leave_what_was_written(rt: HostRuntime) -> Result<(), Fail> {
    let alloc = rt.alloc();
    let short = "VelocityShift 4\nErrTolIntAccuracy 31246\nTimeMax 2";
    let mut store = store_of(alloc, short, &PAIR)?;
    assert!(rt; says(alloc, &RUN, &mut store, 21, "step range tick 0 id 1\n")?);
    assert!(rt; holds(alloc, &store, "kicks.txt", b"")?);
    assert!(rt; !stands(alloc, &store, "snapshot_000")?);
    let listed = "VelocityShift 20\nErrTolIntAccuracy 65536\nTimeMax 2\nOutputListFilename list";
    let fast = [at(1, 0, 4611686018427387904), at(2, 1000, 0)];
    let mut store = store_of(alloc, listed, &fast)?;
    store.put(&text(alloc, b"list")?, b"0\n")?;
    let range = "momentum range tick 0 bin 1 id 1 axis 0\n";
    assert!(rt; says(alloc, &RUN, &mut store, 20, range)?);
    let first = snapshot(alloc, &fast, 0)?;
    assert!(rt; holds(alloc, &store, "snapshot_000", &first)?);
    assert!(rt; holds(alloc, &store, "kicks.txt", b"")?);
    Ok(())
}

#[test]
fn factors_stand_for_ticks(rt: HostRuntime) -> Result<(), Fail> {
    let alloc = rt.alloc();
    let done = "done tick 2 steps 1 snapshots 1 kicks 2 interactions 2 momentum 0 0 0\n";
    let one = "VelocityShift 20\nErrTolIntAccuracy 65536\nTimeMax 2\nExpansionTableFile table";
    let mut store = store_of(alloc, one, &PAIR)?;
    let late = factors(alloc, 1, &[(0, 0), (1, 2)])?;
    store.put(&text(alloc, b"table")?, &late)?;
    assert!(rt; says(alloc, &RUN, &mut store, 0, done)?);
    let want = snapshot(alloc, &[at(1, 0, 999889), at(2, 1000, -999889)], 2)?;
    assert!(rt; holds(alloc, &store, "snapshot_000", &want)?);
    let same = factors(alloc, 20, &[(0, 0), (1048576, 1048576)])?;
    store.put(&text(alloc, b"table")?, &same)?;
    assert!(rt; says(alloc, &RUN, &mut store, 0, done)?);
    let plain = snapshot(alloc, &[at(1, 0, 2001626), at(2, 999, -2001626)], 2)?;
    assert!(rt; holds(alloc, &store, "snapshot_000", &plain)?);
    Ok(())
}

// The parameter file of four base steps with a list and a restart file.
const FOUR_STEPS: &[u8] = b"% a collisionless run
InitCondFile            ics.dat
SnapshotFileBase        snapshot
OutputListFilename      outputs.txt   % in ticks

RestartFileBase         restart
KickFile                kicks.txt
RankTraceFile           ranktrace.txt
TimeMax                 4000
LowBin                  4
TopBin                  10
ErrTolTheta             180
ErrTolIntAccuracy       1638
GravityConstantInternal 1048576
VelocityShift           20
SofteningType1          4096
SofteningType2          8192
SofteningType3          8192
SofteningType4          8192
SofteningType5          8192
RestartEvery            2
RankTrace               0
DeliverySeed            42
";

/// Its list.
pub const LIST: &[u8] = b"1600\n0\n% later ones\n1000 1\n1500\n9000\n";

/// What its runs print when they are done.
pub const FOUR_DONE: &str =
    "done tick 4096 steps 4 snapshots 4 kicks 8 interactions 8 momentum 0 0 0\n";

/// A store with the files of four base steps, by this list.
pub fn four_steps(alloc: Global, list: &[u8]) -> Result<MemStore, Memory> {
    let mut store = MemStore::new(alloc);
    store.put(&text(alloc, b"param.txt")?, FOUR_STEPS)?;
    store.put(&text(alloc, b"outputs.txt")?, list)?;
    let ics = snapshot(alloc, &PAIR, 0)?;
    store.put(&text(alloc, b"ics.dat")?, &ics)?;
    Ok(store)
}

// The tick that the head of a snapshot tells, none where there is no such file.
fn tick_of(store: &MemStore, name: &Text) -> Option<u64> {
    let bytes = store.get(name)?;
    let tick = bytes.get(52..60)?.first_chunk::<8>()?;
    Some(u64::from_le_bytes(*tick))
}

#[test]
fn four_base_steps_write_what_is_listed(rt: HostRuntime) -> Result<(), Fail> {
    let alloc = rt.alloc();
    let mut store = four_steps(alloc, LIST)?;
    assert!(rt; says(alloc, &RUN, &mut store, 0, FOUR_DONE)?);
    let ticks = [
        ("snapshot_000", Some(0)),
        ("snapshot_001", Some(1024)),
        ("snapshot_002", Some(2048)),
        ("snapshot_003", Some(4096)),
        ("snapshot_004", None),
    ];
    for (name, tick) in ticks {
        let name = text(alloc, name.as_bytes())?;
        assert_eq!(rt; tick_of(&store, &name), tick);
    }
    let restart = text(alloc, b"restart_000")?;
    assert!(rt; store.get(&restart).is_some_and(|bytes| bytes.len() == 280));
    assert!(rt; !stands(alloc, &store, "restart_001")?);
    Ok(())
}

#[test]
fn faulty_lists_are_answered(rt: HostRuntime) -> Result<(), Fail> {
    let alloc = rt.alloc();
    let mut many = Vec::new(alloc);
    for _ in 0..65537 {
        many.extend_from_slice(b"1\n")?;
    }
    let cases = [
        (
            b"5\n% x\n7 8\nabc\n".as_slice(),
            "outputs line 4 not a number\n",
        ),
        (
            b"18446744073709551616".as_slice(),
            "outputs line 1 not a number\n",
        ),
        (many.as_slice(), "outputs too many 65537\n"),
    ];
    for (list, want) in cases {
        let mut store = four_steps(alloc, list)?;
        assert!(rt; says(alloc, &RUN, &mut store, 11, want)?, "at {want}");
        assert!(rt; !stands(alloc, &store, "kicks.txt")?);
    }
    Ok(())
}

/// The last lines of a parameter file of one base step in which both bodies go by a finer bin, with a file of the bins.
pub const TWO_BINS: &str =
    "LowBin 1\nTopBin 2\nVelocityShift 4\nErrTolIntAccuracy 65536\nTimeMax 4\nBinFile bins.dat";

/// What its runs print when they are done.
pub const TWO_DONE: &str =
    "done tick 4 steps 1 snapshots 1 kicks 6 interactions 8 momentum 0 0 0\n";

/// A store for a run in two bins.
pub fn two_bins(alloc: Global) -> Result<MemStore, Memory> {
    let mut store = MemStore::new(alloc);
    let params = joined(
        alloc,
        b"InitCondFile ics.dat\nSnapshotFileBase snapshot\nErrTolTheta 0\nGravityConstantInternal 1048576\n",
        TWO_BINS.as_bytes(),
    )?;
    store.put(&text(alloc, b"param.txt")?, &params)?;
    let ics = snapshot(alloc, &PAIR, 0)?;
    store.put(&text(alloc, b"ics.dat")?, &ics)?;
    Ok(store)
}

/// The snapshot at its end.
pub fn two_bins_end(alloc: Global) -> Result<Vec<u8>, Memory> {
    snapshot(alloc, &[at(1, 644, -1242922), at(2, 354, 1242922)], 4)
}

#[test]
fn two_bins_make_six_kicks(rt: HostRuntime) -> Result<(), Fail> {
    let alloc = rt.alloc();
    let mut store = two_bins(alloc)?;
    assert!(rt; says(alloc, &RUN, &mut store, 0, TWO_DONE)?);
    let kicks =
        b"0 2 2 2 1 1 0 0 0\n0 1 2 0 1 0 0 0 0\n2 1 2 0 1 0 0 0 0\n2 1 2 0 1 0 0 0 0\n4 1 2 0 1 0 0 0 0\n4 2 2 2 1 1 0 0 0\n";
    assert!(rt; holds(alloc, &store, "kicks.txt", kicks)?);
    let end = two_bins_end(alloc)?;
    assert!(rt; holds(alloc, &store, "snapshot_000", &end)?);
    let bins = b"I4BINS01\x02\0\0\0\x01\0\0\0\0\0\0\0\x02\0\0\0\0\0\0\0\0\0\0\0\0\0\0\0I4BINEND";
    assert_eq!(rt; bins.len(), 44);
    assert!(rt; holds(alloc, &store, "bins.dat", bins)?);
    Ok(())
}
