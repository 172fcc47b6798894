// Runs that are stopped, resumed, or broken off by a fault.
use super::runs::{FOUR_DONE, LIST, TWO_DONE, four_steps, two_bins, two_bins_end};
use super::*;
use store_io::StopAfter;

/// Goes on from the first restart file, by more ranks than there were.
pub const RESUME: [&str; 4] = ["resume", "param.txt", "restart_000", "5"];

// Numbers of 64 bits, one behind the other.
fn push_numbers(out: &mut Vec<u8>, numbers: &[u64]) -> Result<(), Memory> {
    for number in numbers {
        out.extend_from_slice(&number.to_le_bytes())?;
    }
    Ok(())
}

// A body of kind 1, and its depth.
fn push_deep(out: &mut Vec<u8>, body: Placed, depth: u32) -> Result<(), Memory> {
    out.extend_from_slice(&body.id.to_le_bytes())?;
    out.extend_from_slice(&1u32.to_le_bytes())?;
    out.extend_from_slice(&body.mass.to_le_bytes())?;
    push_position(out, body.position)?;
    push_momentum(out, body.momentum)?;
    out.extend_from_slice(&depth.to_le_bytes())?;
    Ok(())
}

/// The restart file of the run in two bins, stopped in the middle of its base step; written out by hand.
pub fn rest_state(alloc: Global) -> Result<Vec<u8>, Memory> {
    let mut out = Vec::from_slice(alloc, b"I4RESTRT")?;
    out.extend_from_slice(&2u32.to_le_bytes())?;
    out.extend_from_slice(&2u32.to_le_bytes())?;
    push_numbers(&mut out, &[0, 2, 0, 1, 3, 4, 0])?;
    push_numbers(&mut out, &[4, 1, 2, 0, 65_536, 1_048_576, 4])?;
    push_numbers(&mut out, &[256; 5])?;
    push_deep(&mut out, at(1, 122, 2_638_708), 1)?;
    push_deep(&mut out, at(2, 877, -2_638_708), 1)?;
    out.extend_from_slice(b"I4RESEND")?;
    Ok(out)
}

#[test]
fn a_run_is_stopped_inside_a_base_step_and_resumed(rt: HostRuntime) -> Result<(), Fail> {
    let alloc = rt.alloc();
    let mut store = two_bins(alloc)?;
    let said = say(alloc, &RUN, &mut store, &mut StopAfter::new(1))?;
    assert_eq!(rt; said.code, 1);
    assert!(rt; said.line.as_slice() == b"stopped steps 0 tick 2\n".as_slice());
    let rest = rest_state(alloc)?;
    assert_eq!(rt; rest.len(), 288);
    assert!(rt; holds(alloc, &store, "restart_000", &rest)?);
    let before = b"0 2 2 2 1 1 0 0 0\n0 1 2 0 1 0 0 0 0\n2 1 2 0 1 0 0 0 0\n";
    assert!(rt; holds(alloc, &store, "kicks.txt", before)?);
    assert!(rt; says(alloc, &RESUME, &mut store, 0, TWO_DONE)?);
    let after = b"2 1 2 0 1 0 0 0 0\n4 1 2 0 1 0 0 0 0\n4 2 2 2 1 1 0 0 0\n";
    assert!(rt; holds(alloc, &store, "kicks.txt_from_0_at_2", after)?);
    assert!(rt; holds(alloc, &store, "kicks.txt", before)?);
    let end = two_bins_end(alloc)?;
    assert!(rt; holds(alloc, &store, "snapshot_000", &end)?);
    Ok(())
}

#[test]
fn faulty_restart_files_are_answered(rt: HostRuntime) -> Result<(), Fail> {
    let alloc = rt.alloc();
    let rest = rest_state(alloc)?;
    let cases = [
        (0, b'J', 288, "restart tag\n"),
        (8, 3, 288, "restart version 3\n"),
        (287, b'E', 287, "restart length 288 287\n"),
        (287, b'E', 288, "restart end mark\n"),
        (24, 1, 288, "restart field at 24\n"),
        (220, 2, 288, "restart field at 220\n"),
        (181, 0, 288, "restart zero mass id 1\n"),
        (96, 1, 288, "differs ErrTolTheta\n"),
    ];
    for (place, byte, len, want) in cases {
        let mut bytes = Vec::from_slice(alloc, rest.get(..place).ok_or("short")?)?;
        bytes.push(byte)?;
        bytes.extend_from_slice(rest.get(place + 1..).ok_or("short")?)?;
        let mut store = two_bins(alloc)?;
        store.put(
            &text(alloc, b"restart_000")?,
            bytes.get(..len).ok_or("short")?,
        )?;
        let code = if place == 96 { 15 } else { 14 };
        assert!(rt; says(alloc, &RESUME, &mut store, code, want)?, "at {want}");
        assert!(rt; !stands(alloc, &store, "kicks.txt_from_0_at_2")?);
    }
    Ok(())
}

#[test]
fn four_base_steps_are_resumed_from_each_stop(rt: HostRuntime) -> Result<(), Fail> {
    let alloc = rt.alloc();
    let mut whole = four_steps(alloc, LIST)?;
    assert!(rt; says(alloc, &RUN, &mut whole, 0, FOUR_DONE)?);
    let last = text(alloc, b"snapshot_003")?;
    let end = whole.get(&last).ok_or("no snapshot")?;
    let cases = [
        (1, "stopped steps 1\n", "restart_000", "2"),
        (2, "stopped steps 2\n", "restart_000", "3"),
        (3, "stopped steps 3\n", "restart_001", "9"),
    ];
    for (stop, want, restart, ranks) in cases {
        let mut store = four_steps(alloc, LIST)?;
        let said = say(alloc, &RUN, &mut store, &mut StopAfter::new(stop))?;
        assert_eq!(rt; said.code, 1, "at {want}");
        assert!(rt; said.line.as_slice() == want.as_bytes(), "at {want}");
        assert!(rt; !stands(alloc, &store, "snapshot_003")?, "at {want}");
        let words = ["resume", "param.txt", restart, ranks];
        assert!(rt; says(alloc, &words, &mut store, 0, FOUR_DONE)?, "at {want}");
        assert!(rt; holds(alloc, &store, "snapshot_003", end)?, "at {want}");
    }
    Ok(())
}

#[test]
fn a_restart_file_of_a_whole_run_is_resumed(rt: HostRuntime) -> Result<(), Fail> {
    let alloc = rt.alloc();
    let mut store = four_steps(alloc, LIST)?;
    assert!(rt; says(alloc, &RUN, &mut store, 0, FOUR_DONE)?);
    assert!(rt; says(alloc, &RESUME, &mut store, 0, FOUR_DONE)?);
    let kicks =
        b"2048 10 2 0 1 0 0 0 0\n3072 10 2 0 1 0 0 0 0\n3072 10 2 0 1 0 0 0 0\n4096 10 2 0 1 0 0 0 0\n";
    assert!(rt; holds(alloc, &store, "kicks.txt_from_2", kicks)?);
    let name = text(alloc, b"restart_000")?;
    let kept = Vec::from_slice(alloc, store.get(&name).ok_or("no restart")?)?;
    store.put(&name, kept.get(..279).ok_or("short")?)?;
    assert!(rt; says(alloc, &RESUME, &mut store, 14, "restart length 280 279\n")?);
    Ok(())
}

// Whether each file of a store that a run over it may have written is a first part of the one of a whole run.
fn are_parts(alloc: Global, store: &MemStore, whole: &MemStore) -> Result<bool, Memory> {
    let names = [
        "kicks.txt",
        "snapshot_000",
        "snapshot_001",
        "snapshot_002",
        "restart_000",
        "snapshot_003",
    ];
    for name in names {
        let name = text(alloc, name.as_bytes())?;
        let Some(bytes) = store.get(&name) else {
            continue;
        };
        if !whole.get(&name).is_some_and(|all| all.starts_with(bytes)) {
            return Ok(false);
        }
    }
    Ok(true)
}

#[test]
fn each_failing_call_is_answered(rt: HostRuntime) -> Result<(), Fail> {
    let alloc = rt.alloc();
    let mut whole = four_steps(alloc, LIST)?;
    assert!(rt; says(alloc, &RUN, &mut whole, 0, FOUR_DONE)?);
    let reads = [
        "param.txt",
        "param.txt",
        "outputs.txt",
        "outputs.txt",
        "ics.dat",
        "ics.dat",
    ];
    let mut done = false;
    for call in 0..100 {
        let mut store = four_steps(alloc, LIST)?;
        store.fail(call, 100)?;
        let said = say(alloc, &RUN, &mut store, &mut NeverStop)?;
        if said.code == 0 {
            done = true;
            break;
        }
        if let Some(name) = reads.get(call as usize) {
            let mut want = joined(alloc, b"read fault ", name.as_bytes())?;
            want.push(b'\n')?;
            assert_eq!(rt; said.code, 4);
            assert!(rt; said.line == want);
            assert!(rt; !stands(alloc, &store, "kicks.txt")?);
        } else {
            assert_eq!(rt; said.code, 5);
            assert!(rt; said.line.starts_with(b"write fault "));
        }
        assert!(rt; are_parts(alloc, &store, &whole)?);
    }
    assert!(rt; done);
    Ok(())
}

#[test]
fn a_failing_append_leaves_what_was_finished(rt: HostRuntime) -> Result<(), Fail> {
    let alloc = rt.alloc();
    let mut whole = four_steps(alloc, LIST)?;
    assert!(rt; says(alloc, &RUN, &mut whole, 0, FOUR_DONE)?);
    let name = text(alloc, b"snapshot_001")?;
    let all = whole.get(&name).ok_or("no snapshot")?;
    let part = all.get(..100).ok_or("short")?;
    let first = text(alloc, b"snapshot_000")?;
    let finished = whole.get(&first).ok_or("no snapshot")?;
    let mut found = false;
    for call in 6..40 {
        let mut store = four_steps(alloc, LIST)?;
        store.fail(call, 100)?;
        if says(alloc, &RUN, &mut store, 5, "write fault snapshot_001\n")?
            && holds(alloc, &store, "snapshot_001", part)?
        {
            found = true;
            assert!(rt; holds(alloc, &store, "snapshot_000", finished)?);
        }
    }
    assert!(rt; found);
    Ok(())
}

#[test]
fn a_failing_console_is_answered(rt: HostRuntime) -> Result<(), Fail> {
    let alloc = rt.alloc();
    let mut store = store_of(alloc, STEP, &PAIR)?;
    let mut words = Vec::new(alloc);
    for word in RUN {
        words.push(text(alloc, word.as_bytes())?)?;
    }
    let mut broken = MemSink::failing_at(alloc, 0);
    let status = gadget(
        alloc,
        &words,
        &mut store,
        &mut LastSchedule,
        &mut NeverStop,
        &mut broken,
    );
    assert_eq!(rt; status.code(), 6);
    let want = snapshot(alloc, &[at(1, 0, 2001626), at(2, 999, -2001626)], 2)?;
    assert!(rt; holds(alloc, &store, "snapshot_000", &want)?);
    Ok(())
}
