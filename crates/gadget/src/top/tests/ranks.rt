// Runs by several ranks: what doesn't show them, and the trace file, which does.
use super::forces::{HEAVY, heavy};
use super::runs::{TWO_BINS, TWO_DONE};
use super::*;
use store_io::{ListSchedule, SeededSchedule};

const DONE: &str = "done tick 2 steps 1 snapshots 1 kicks 2 interactions 4 momentum 0 0 0\n";

// The first force by two ranks, where the first event is always picked.
const FIRST_PICKED: &str =
    "force 3\nbuild 0 5\nbuild 1 1\ntable 0 1 2\nwalk 1 0\ntable 1 0 1\nwalk 0 0\nask 1 0 1\nask 0 1 1\nreply 0 1 1\nwalk 1 0\nreply 1 0 1\nwalk 0 0\nsums 1 0 0\nask 0 1 1\nreply 1 0 1\nwalk 0 1\nask 0 1 1\nreply 1 0 1\nwalk 0 1\nadd 0 3\nsums 0 1 1\nadd 1 1\nwant 0 1 3\nwant 1 0 1\nmembers 1 0 0\nshare 0 3\nmembers 0 1 0\nshare 1 1\nparts 0 1 0\nparts 1 0 0\n";

// The same, where the last one is.
const LAST_PICKED: &str =
    "force 3\nbuild 1 1\ntable 1 0 1\nbuild 0 5\ntable 0 1 2\nwalk 1 0\nask 1 0 1\nreply 0 1 1\nwalk 1 0\nsums 1 0 0\nwalk 0 0\nask 0 1 1\nreply 1 0 1\nwalk 0 0\nask 0 1 1\nreply 1 0 1\nwalk 0 1\nask 0 1 1\nreply 1 0 1\nwalk 0 1\nsums 0 1 1\nadd 1 1\nwant 1 0 1\nmembers 0 1 0\nshare 1 1\nparts 1 0 0\nadd 0 3\nwant 0 1 3\nmembers 1 0 0\nshare 0 3\nparts 0 1 0\n";

// A store of three heavy bodies, two of which act as one node on the third, with these last lines of the parameter file.
fn three_heavy(alloc: Global, last_lines: &str) -> Result<MemStore, Memory> {
    let bodies = [
        heavy(1, [0; 3], [0; 3]),
        heavy(2, [536870912, 0, 0], [0; 3]),
        heavy(3, [268435456, 1610612736, 0], [0; 3]),
    ];
    let mut store = MemStore::new(alloc);
    let params = joined(alloc, HEAVY.as_bytes(), last_lines.as_bytes())?;
    store.put(&text(alloc, b"param.txt")?, &params)?;
    let ics = snapshot(alloc, &bodies, 0)?;
    store.put(&text(alloc, b"ics.dat")?, &ics)?;
    Ok(store)
}

// Whether a run of the three bodies by so many ranks leaves their snapshot and their kick file.
fn leaves_the_same<K: Schedule>(alloc: Global, ranks: &str, order: &mut K) -> Result<bool, Memory> {
    let end = [
        heavy(1, [0; 3], [32767, 3490, 0]),
        heavy(2, [536870911, 0, 0], [-32767, 3488, 0]),
        heavy(3, [268435456, 1610612735, 0], [0, -6978, 0]),
    ];
    let mut store = three_heavy(alloc, "256\n")?;
    let words = ["run", "param.txt", ranks];
    let said = say_by(alloc, &words, &mut store, order, &mut NeverStop)?;
    let want = snapshot(alloc, &end, 2)?;
    let kicks = b"0 1 3 0 2 0 0 0 0\n2 1 3 0 2 0 0 0 0\n";
    Ok(
        said.code == 0
            && said.line.as_slice() == DONE.as_bytes()
            && holds(alloc, &store, "snapshot_000", &want)?
            && holds(alloc, &store, "kicks.txt", kicks)?
            && !stands(alloc, &store, "ranktrace.txt")?,
    )
}

#[test]
fn no_ranks_and_no_schedule_show(rt: HostRuntime) -> Result<(), Fail> {
    let alloc = rt.alloc();
    for ranks in ["1", "3", "64"] {
        let mut first = ListSchedule::new(Vec::new(alloc));
        assert!(rt; leaves_the_same(alloc, ranks, &mut first)?, "at {ranks}");
        assert!(rt;
            leaves_the_same(alloc, ranks, &mut LastSchedule)?,
            "at {ranks}"
        );
        assert!(rt;
            leaves_the_same(alloc, ranks, &mut SeededSchedule::new())?,
            "at {ranks}"
        );
    }
    Ok(())
}

// Whether the trace of a run of the three bodies by two ranks is this block, and once more with a further node of rank 0.
fn traces<K: Schedule>(alloc: Global, order: &mut K, block: &str) -> Result<bool, Memory> {
    let mut store = three_heavy(alloc, "256\nRankTrace 1\n")?;
    let words = ["run", "param.txt", "2"];
    let said = say_by(alloc, &words, &mut store, order, &mut NeverStop)?;
    let (start, end) = match block.split_once("build 0 5") {
        Some(parts) => parts,
        None => return Ok(false),
    };
    let mut want = Vec::from_slice(alloc, block.as_bytes())?;
    want.extend_from_slice(start.as_bytes())?;
    want.extend_from_slice(b"build 0 6")?;
    want.extend_from_slice(end.as_bytes())?;
    Ok(said.code == 0 && holds(alloc, &store, "ranktrace.txt", &want)?)
}

#[test]
fn events_are_traced_as_they_are_picked(rt: HostRuntime) -> Result<(), Fail> {
    let alloc = rt.alloc();
    let mut first = ListSchedule::new(Vec::new(alloc));
    assert!(rt; traces(alloc, &mut first, FIRST_PICKED)?);
    assert!(rt; traces(alloc, &mut LastSchedule, LAST_PICKED)?);
    Ok(())
}

#[test]
fn two_bins_trace_three_forces(rt: HostRuntime) -> Result<(), Fail> {
    let alloc = rt.alloc();
    let mut store = store_of(alloc, "", &PAIR)?;
    let params = joined(
        alloc,
        b"InitCondFile ics.dat\nSnapshotFileBase snapshot\nErrTolTheta 0\nGravityConstantInternal 1048576\nRankTrace 1\n",
        TWO_BINS.as_bytes(),
    )?;
    store.put(&text(alloc, b"param.txt")?, &params)?;
    assert!(rt; says(alloc, &RUN, &mut store, 0, TWO_DONE)?);
    let block = b"force 2\nbuild 0 25\nwalk 0 1\nadd 0 2\nshare 0 2\n";
    let mut want = Vec::new(alloc);
    for _ in 0..3 {
        want.extend_from_slice(block)?;
    }
    assert!(rt; holds(alloc, &store, "ranktrace.txt", &want)?);
    Ok(())
}

#[test]
fn a_trace_that_fails_is_answered(rt: HostRuntime) -> Result<(), Fail> {
    let alloc = rt.alloc();
    let mut found = false;
    for call in 4..12 {
        let mut store = three_heavy(alloc, "256\nRankTrace 1\n")?;
        store.fail(call, 0)?;
        if says(alloc, &RUN, &mut store, 5, "write fault ranktrace.txt\n")? {
            found = true;
        }
    }
    assert!(rt; found);
    Ok(())
}
