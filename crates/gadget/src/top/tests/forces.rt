// Runs of heavy bodies far apart: half a box, and nodes of several bodies.
use super::*;

// A parameter file of one base step, but for the opening angle.
pub const HEAVY: &str =
    "InitCondFile ics.dat\nSnapshotFileBase snapshot\nLowBin 1\nTopBin 1\nGravityConstantInternal 4294967296\nVelocityShift 20\nErrTolIntAccuracy 65536\nTimeMax 2\nErrTolTheta ";

pub fn heavy(id: u64, position: [u32; 3], momentum: [i64; 3]) -> Placed {
    Placed {
        id,
        mass: 1048576,
        position,
        momentum,
    }
}

// Whether a run with this opening angle makes of the first bodies the second ones, with so many interactions.
fn becomes(
    alloc: Global,
    angle: &str,
    first: &[Placed],
    second: &[Placed],
    interactions: &str,
) -> Result<bool, Memory> {
    let mut store = MemStore::new(alloc);
    let params = joined(alloc, HEAVY.as_bytes(), angle.as_bytes())?;
    store.put(&text(alloc, b"param.txt")?, &params)?;
    let ics = snapshot(alloc, first, 0)?;
    store.put(&text(alloc, b"ics.dat")?, &ics)?;
    let said = say(alloc, &RUN, &mut store, &mut NeverStop)?;
    let mut want = joined(
        alloc,
        b"done tick 2 steps 1 snapshots 1 kicks 2 interactions ",
        interactions.as_bytes(),
    )?;
    want.extend_from_slice(b" momentum 0 0 0\n")?;
    let end = snapshot(alloc, second, 2)?;
    Ok(said.code == 0 && said.line == want && holds(alloc, &store, "snapshot_000", &end)?)
}

#[test]
fn half_a_box_apart(rt: HostRuntime) -> Result<(), Fail> {
    let alloc = rt.alloc();
    let first = [
        heavy(1, [0; 3], [0; 3]),
        heavy(2, [2147483648, 0, 0], [0; 3]),
    ];
    let second = [
        heavy(1, [4294967295, 0, 0], [-2047, 0, 0]),
        heavy(2, [2147483648, 0, 0], [2047, 0, 0]),
    ];
    assert!(rt; becomes(alloc, "0", &first, &second, "2")?);
    Ok(())
}

#[test]
fn a_node_of_two_is_accepted(rt: HostRuntime) -> Result<(), Fail> {
    let alloc = rt.alloc();
    let first = [
        heavy(1, [0; 3], [0; 3]),
        heavy(2, [536870912, 0, 0], [0; 3]),
        heavy(3, [268435456, 1610612736, 0], [0; 3]),
    ];
    let second = [
        heavy(1, [0; 3], [32767, 3490, 0]),
        heavy(2, [536870911, 0, 0], [-32767, 3488, 0]),
        heavy(3, [268435456, 1610612735, 0], [0, -6978, 0]),
    ];
    assert!(rt; becomes(alloc, "256", &first, &second, "4")?);
    Ok(())
}

#[test]
fn a_node_of_two_is_opened_at_the_edge(rt: HostRuntime) -> Result<(), Fail> {
    let alloc = rt.alloc();
    let first = [
        heavy(1, [0; 3], [0; 3]),
        heavy(2, [536870912, 0, 0], [0; 3]),
        heavy(3, [268435456, 1073741824, 0], [0; 3]),
    ];
    let second = [
        heavy(1, [0; 3], [33701, 7452, 0]),
        heavy(2, [536870911, 0, 0], [-33701, 7451, 0]),
        heavy(3, [268435456, 1073741823, 0], [0, -14903, 0]),
    ];
    assert!(rt; becomes(alloc, "256", &first, &second, "5")?);
    Ok(())
}
