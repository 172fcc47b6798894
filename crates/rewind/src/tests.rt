ghost use Rattle.particle_set.specs.Rows.{HasKind};

use super::*;
use force_field::ListField;
use nbody_model::Setup;
use particle_set::{BodySet, Row};
use std::alloc::Global;
use std::test::Fail;

// A setup of the bins 1 and 2, and one base step.
fn setup() -> Setup {
    Setup {
        time_max: 4,
        low_bin: 1,
        top_bin: 2,
        theta: 0,
        eta: 65_536,
        gravity: 1 << 20,
        velocity_shift: 4,
        soft: [256, 256, 256, 256, 256, 256],
    }
}

fn row(id: u64, x: u32, mom: i64) -> Row
    ensures { HasKind result }
{
    Row {
        id,
        kind: 1,
        mass: 1024,
        pos: [x, 0, 0],
        mom: [mom, 0, 0],
    }
}

// Two bodies, in two places, with opposite momenta.
fn pair(alloc: Global, places: [u32; 2], mom: i64) -> Result<BodySet, Fail> {
    let other = mom.checked_neg().ok_or("range")?;
    let rows = vec![in alloc; row(1, places[0], mom), row(2, places[1], other)]?;
    Ok(BodySet::from_list(alloc, rows)?)
}

// The bin file of a base step in which these two were fast, and not in its finer steps.
fn file(alloc: Global, size: u8, ids: [u8; 2]) -> Result<Vec<u8>, Fail> {
    let mut bytes = Vec::from_slice(alloc, b"I4BINS01")?;
    bytes.extend_from_slice(&[size, 0, 0, 0])?;
    bytes.extend_from_slice(&[ids[0], 0, 0, 0, 0, 0, 0, 0])?;
    bytes.extend_from_slice(&[ids[1], 0, 0, 0, 0, 0, 0, 0])?;
    bytes.extend_from_slice(&[0; 8])?;
    bytes.extend_from_slice(b"I4BINEND")?;
    Ok(bytes)
}

// The first fault of the bytes, for two bodies.
fn fault(alloc: Global, bytes: &[u8]) -> Result<Option<RewindErr>, Fail> {
    let set = pair(alloc, [0, 1000], 0)?;
    Ok(read_bins(alloc, bytes, &set, &setup()).err())
}

#[test]
fn two_bins_are_read(rt: HostRuntime) -> Result<(), Fail> {
    let alloc = rt.alloc();
    let set = pair(alloc, [0, 1000], 0)?;
    let bins = read_bins(alloc, &file(alloc, 2, [1, 2])?, &set, &setup())?;
    assert!(rt; bins.len() == 3);
    let none: [u64; 0] = [];
    assert!(rt; bins.get(0) == none.as_slice());
    assert!(rt; bins.get(1) == none.as_slice());
    assert!(rt; bins.get(2) == [1, 2].as_slice());
    Ok(())
}

#[test]
fn a_file_cut_anywhere(rt: HostRuntime) -> Result<(), Fail> {
    let alloc = rt.alloc();
    let whole = file(alloc, 2, [1, 2])?;
    assert_eq!(rt; whole.len(), 44);
    for (from, to, want) in [
        (0, 8, RewindErr::Tag),
        (8, 28, RewindErr::Record { at: 8 }),
        (28, 32, RewindErr::Record { at: 28 }),
        (32, 36, RewindErr::Record { at: 32 }),
        (36, 44, RewindErr::EndMark),
    ] {
        for length in from..to {
            let cut = whole.get(..length).ok_or("short")?;
            assert!(rt; fault(alloc, cut)? == Some(want));
        }
    }
    Ok(())
}

#[test]
fn a_record_that_may_not_stand_there(rt: HostRuntime) -> Result<(), Fail> {
    let alloc = rt.alloc();
    let bad = RewindErr::Record { at: 8 };
    for (size, ids, want) in [
        (2, [1, 2], None),
        (3, [1, 2], Some(bad)),
        (2, [2, 1], Some(bad)),
        (2, [1, 1], Some(bad)),
        (2, [1, 3], Some(bad)),
        (2, [0, 2], Some(bad)),
        (1, [1, 1], Some(RewindErr::Record { at: 20 })),
        (0, [1, 2], Some(RewindErr::EndMark)),
    ] {
        let bytes = file(alloc, size, ids)?;
        assert!(rt; fault(alloc, &bytes)? == want);
    }
    Ok(())
}

// Two bodies with these places and opposite momenta, taken back by the bin file of a base step in which both were fast.
fn taken_back(
    alloc: Global,
    places: [u32; 2],
    mom: i64,
) -> Result<Result<BodySet, RewindErr>, Fail> {
    let set = pair(alloc, places, mom)?;
    let setup = setup();
    let bins = read_bins(alloc, &file(alloc, 2, [1, 2])?, &set, &setup)?;
    let mut forces = ListField::new(alloc, setup, None);
    Ok(rewind(alloc, set, &setup, None, &bins, &mut forces))
}

#[test]
fn two_bins_are_taken_back(rt: HostRuntime) -> Result<(), Fail> {
    let alloc = rt.alloc();
    let set = taken_back(alloc, [644, 354], -1_242_922)??;
    if set.len() != 2 {
        return Err("other bodies".into());
    }
    let one = set.get(0);
    let two = set.get(1);
    assert!(rt; one.motion.pos() == [0, 0, 0] && one.motion.mom() == [0, 0, 0]);
    assert!(rt; two.motion.pos() == [1000, 0, 0] && two.motion.mom() == [0, 0, 0]);
    Ok(())
}

#[test]
fn bodies_of_another_run(rt: HostRuntime) -> Result<(), Fail> {
    let alloc = rt.alloc();
    let others = RewindErr::BinsDiffer { tick: 0, id: 1 };
    for (places, mom, want) in [
        ([0, 1000], 0, others),
        ([644, 354], 0, others),
        ([1000, 0], 0, others),
        ([644, 354], 1 << 62, RewindErr::MomRange { id: 1, axis: 0 }),
    ] {
        let refused = taken_back(alloc, places, mom)?.err();
        assert!(rt; refused == Some(want));
    }
    Ok(())
}
