use super::*;
use nbody_model::Setup;
use param_file::ParamName;
use particle_set::SetErr;
use std::alloc::Global;
use std::test::Fail;
use store_io::{MemStore, Store, Text};

// The file of two bodies after two of four base steps, as another program writes it.
fn between_steps(alloc: Global) -> Result<Vec<u8>, Fail> {
    let mut bytes = Vec::new(alloc);
    bytes.extend_from_slice(b"I4RESTRT\x01\0\0\0\x02\0\0\0\x02\0\0\0\0\0\0\0")?;
    bytes.extend_from_slice(
        b"\0\x08\0\0\0\0\0\0\x03\0\0\0\0\0\0\0\x01\0\0\0\0\0\0\0\x04\0\0\0\0\0\0\0\x04\0\0\0\0\0\0\0\0\0\0\0\0\0\0\0",
    )?;
    bytes.extend_from_slice(
        b"\xa0\x0f\0\0\0\0\0\0\x04\0\0\0\0\0\0\0\x0a\0\0\0\0\0\0\0\xb4\0\0\0\0\0\0\0f\x06\0\0\0\0\0\0\0\0\x10\0\0\0\0\0",
    )?;
    bytes.extend_from_slice(
        b"\x14\0\0\0\0\0\0\0\0\x10\0\0\0\0\0\0\0\x20\0\0\0\0\0\0\0\x20\0\0\0\0\0\0\0\x20\0\0\0\0\0\0\0\x20\0\0\0\0\0\0",
    )?;
    bytes.extend_from_slice(
        b"\x01\0\0\0\0\0\0\0\x01\0\0\0\0\x04\0\0\x1c\0\0\0\0\0\0\0\0\0\0\0\0\xfe\xc1\x01\0\0\0\0\0\0\0\0\0\0\0\0\0\0\0\0\0\0\0\0",
    )?;
    bytes.extend_from_slice(
        b"\x02\0\0\0\0\0\0\0\x01\0\0\0\0\x04\0\0\xca\x03\0\0\0\0\0\0\0\0\0\0\0\x02>\xfe\xff\xff\xff\xff\0\0\0\0\0\0\0\0\0\0\0\0\0\0\0\0",
    )?;
    bytes.extend_from_slice(b"I4RESEND")?;
    Ok(bytes)
}

// The file of two bodies at a resting point inside a base step, as another program writes it.
fn inside_a_step(alloc: Global) -> Result<Vec<u8>, Fail> {
    let mut bytes = Vec::new(alloc);
    bytes.extend_from_slice(b"I4RESTRT\x02\0\0\0\x02\0\0\0\0\0\0\0\0\0\0\0")?;
    bytes.extend_from_slice(
        b"\x02\0\0\0\0\0\0\0\0\0\0\0\0\0\0\0\x01\0\0\0\0\0\0\0\x03\0\0\0\0\0\0\0\x04\0\0\0\0\0\0\0\0\0\0\0\0\0\0\0",
    )?;
    bytes.extend_from_slice(
        b"\x04\0\0\0\0\0\0\0\x01\0\0\0\0\0\0\0\x02\0\0\0\0\0\0\0\0\0\0\0\0\0\0\0\0\0\x01\0\0\0\0\0\0\0\x10\0\0\0\0\0",
    )?;
    bytes.extend_from_slice(
        b"\x04\0\0\0\0\0\0\0\0\x01\0\0\0\0\0\0\0\x01\0\0\0\0\0\0\0\x01\0\0\0\0\0\0\0\x01\0\0\0\0\0\0\0\x01\0\0\0\0\0\0",
    )?;
    bytes.extend_from_slice(
        b"\x01\0\0\0\0\0\0\0\x01\0\0\0\0\x04\0\0z\0\0\0\0\0\0\0\0\0\0\0tC(\0\0\0\0\0\0\0\0\0\0\0\0\0\0\0\0\0\0\0\0\0\x01\0\0\0",
    )?;
    bytes.extend_from_slice(
        b"\x02\0\0\0\0\0\0\0\x01\0\0\0\0\x04\0\0m\x03\0\0\0\0\0\0\0\0\0\0\x8c\xbc\xd7\xff\xff\xff\xff\xff\0\0\0\0\0\0\0\0\0\0\0\0\0\0\0\0\x01\0\0\0",
    )?;
    bytes.extend_from_slice(b"I4RESEND")?;
    Ok(bytes)
}

// The bytes with others from a place on.
fn changed(alloc: Global, bytes: &[u8], at: usize, by: &[u8]) -> Result<Vec<u8>, Fail> {
    let mut out = Vec::from_slice(alloc, bytes.get(..at).ok_or("short")?)?;
    out.extend_from_slice(by)?;
    let end = out.len();
    out.extend_from_slice(bytes.get(end..).ok_or("short")?)?;
    Ok(out)
}

#[test]
fn a_file_between_steps_is_read_and_written(rt: HostRuntime) -> Result<(), Fail> {
    let alloc = rt.alloc();
    let bytes = between_steps(alloc)?;
    assert_eq!(rt; bytes.len(), 280);
    let (state, setup) = read_restart(alloc, &bytes)?;
    assert_eq!(rt;
        [state.steps, state.tick, state.next_snapshot],
        [2, 2048, 3]
    );
    assert_eq!(rt; [state.next_restart, state.kicks], [1, 4]);
    assert_eq!(rt; state.interactions, 4);
    assert_eq!(rt; state.depth.len(), 0);
    assert_eq!(rt; setup.gravity, 1048576);
    let written = write_restart(alloc, &state, &setup)?;
    assert_eq!(rt; written.as_slice(), bytes.as_slice());
    Ok(())
}

#[test]
fn a_file_inside_a_step_is_read_and_written(rt: HostRuntime) -> Result<(), Fail> {
    let alloc = rt.alloc();
    let bytes = inside_a_step(alloc)?;
    assert_eq!(rt; bytes.len(), 288);
    let (state, setup) = read_restart(alloc, &bytes)?;
    assert_eq!(rt; [state.steps, state.tick, state.kicks], [0, 2, 3]);
    assert_eq!(rt; state.depth.len(), 2);
    let written = write_restart(alloc, &state, &setup)?;
    assert_eq!(rt; written.as_slice(), bytes.as_slice());
    Ok(())
}

#[test]
fn a_cut_file_has_its_first_fault(rt: HostRuntime) -> Result<(), Fail> {
    let alloc = rt.alloc();
    let bytes = between_steps(alloc)?;
    for (len, want) in [
        (7, RestartErr::Tag),
        (
            175,
            RestartErr::Length {
                want: 176,
                got: 175,
            },
        ),
        (
            279,
            RestartErr::Length {
                want: 280,
                got: 279,
            },
        ),
    ] {
        let cut = bytes.get(..len).ok_or("short")?;
        assert!(rt; read_restart(alloc, cut).is_err_and(|e| e == want));
    }
    let deep = inside_a_step(alloc)?;
    let cut = deep.get(..287).ok_or("short")?;
    let want = RestartErr::Length {
        want: 288,
        got: 287,
    };
    assert!(rt; read_restart(alloc, cut).is_err_and(|e| e == want));
    Ok(())
}

#[test]
fn a_changed_file_has_its_first_fault(rt: HostRuntime) -> Result<(), Fail> {
    let alloc = rt.alloc();
    let bytes = between_steps(alloc)?;
    for (at, byte, want) in [
        (8, 3, RestartErr::Version { v: 3 }),
        (14, 17, RestartErr::Field { at: 12 }),
        (272, 0, RestartErr::EndMark),
        (16, 3, RestartErr::Field { at: 24 }),
        (80, 11, RestartErr::Field { at: 88 }),
        (129, 0, RestartErr::Field { at: 128 }),
        (220, 1, RestartErr::Field { at: 220 }),
        (176, 6, RestartErr::Field { at: 176 }),
        (181, 0, RestartErr::Bodies(SetErr::ZeroMass { id: 1 })),
    ] {
        let text = changed(alloc, &bytes, at, &[byte])?;
        assert!(rt; read_restart(alloc, &text).is_err_and(|e| e == want));
    }
    Ok(())
}

#[test]
fn a_tick_and_a_depth_go_with_the_bins(rt: HostRuntime) -> Result<(), Fail> {
    let alloc = rt.alloc();
    let bytes = inside_a_step(alloc)?;
    for (at, byte, want) in [(24, 1, 24), (24, 4, 24), (220, 2, 220), (12, 0, 12)] {
        let text = changed(alloc, &bytes, at, &[byte])?;
        let want = RestartErr::Field { at: want };
        assert!(rt; read_restart(alloc, &text).is_err_and(|e| e == want));
    }
    Ok(())
}

// The one append is the call 0. The next call would fail.
#[test]
fn a_state_is_put_by_one_append(rt: HostRuntime) -> Result<(), Fail> {
    let alloc = rt.alloc();
    let bytes = between_steps(alloc)?;
    let (state, setup) = read_restart(alloc, &bytes)?;
    let name = Text::from_bytes(alloc, b"restart_000")?;
    let mut store = MemStore::new(alloc);
    store.fail(1, 0)?;
    store.put(&name, b"")?;
    put_restart(alloc, &state, &setup, &mut store, &name)?;
    assert!(rt;
        store
            .get(&name)
            .is_some_and(|kept| kept == bytes.as_slice())
    );
    assert!(rt; store.length(&name).is_err());
    Ok(())
}

#[test]
fn the_first_row_that_differs_is_told(rt: HostRuntime) -> Result<(), Fail> {
    let alloc = rt.alloc();
    let (_, kept) = read_restart(alloc, &between_steps(alloc)?)?;
    let (_, other) = read_restart(alloc, &inside_a_step(alloc)?)?;
    let steeper = Setup {
        eta: 1,
        soft: other.soft,
        ..kept
    };
    assert!(rt; same_params(&kept, &kept).is_ok());
    assert!(rt; same_params(&kept, &other).is_err_and(|e| e.name == ParamName::TimeMax));
    assert!(rt;
        same_params(&kept, &steeper).is_err_and(|e| e.name == ParamName::ErrTolIntAccuracy)
    );
    Ok(())
}
