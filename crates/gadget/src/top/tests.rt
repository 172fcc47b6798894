use super::*;
use fixed_point::Memory;
use std::test::Fail;
use store_io::{LastSchedule, MemSink, MemStore, NeverStop};

mod catalogues;
mod cuts;
mod forces;
mod inputs;
mod makes;
mod ranks;
mod runs;
mod stops;

// The first lines of a parameter file of one base step.
const PARAMETERS: &[u8] = b"InitCondFile ics.dat
SnapshotFileBase snapshot
LowBin 1
TopBin 1
ErrTolTheta 0
GravityConstantInternal 1048576
";

// Its last lines, with which a base step of two bodies that are far apart is made.
const STEP: &str = "VelocityShift 20\nErrTolIntAccuracy 65536\nTimeMax 2";

// A body of kind 1.
#[derive(Clone, Copy)]
struct Placed {
    id: u64,
    mass: u32,
    position: [u32; 3],
    momentum: [i64; 3],
}

// A body of mass 1024 on the x axis.
fn at(id: u64, x: u32, px: i64) -> Placed {
    Placed {
        id,
        mass: 1024,
        position: [x, 0, 0],
        momentum: [px, 0, 0],
    }
}

fn text(alloc: Global, bytes: &[u8]) -> Result<Text, Memory> {
    Text::from_bytes(alloc, bytes)
}

fn joined(alloc: Global, first: &[u8], second: &[u8]) -> Result<Vec<u8>, Memory> {
    let mut both = Vec::from_slice(alloc, first)?;
    both.extend_from_slice(second)?;
    Ok(both)
}

fn push_block(out: &mut Vec<u8>, name: &[u8], contents: &[u8]) -> Result<(), Memory> {
    let len = (contents.len() % 65_536) as u32;
    out.extend_from_slice(&8u32.to_le_bytes())?;
    out.extend_from_slice(name)?;
    out.extend_from_slice(&(len + 8).to_le_bytes())?;
    out.extend_from_slice(&8u32.to_le_bytes())?;
    out.extend_from_slice(&len.to_le_bytes())?;
    out.extend_from_slice(contents)?;
    out.extend_from_slice(&len.to_le_bytes())?;
    Ok(())
}

fn push_position(out: &mut Vec<u8>, position: [u32; 3]) -> Result<(), Memory> {
    let [x, y, z] = position;
    out.extend_from_slice(&x.to_le_bytes())?;
    out.extend_from_slice(&y.to_le_bytes())?;
    out.extend_from_slice(&z.to_le_bytes())?;
    Ok(())
}

fn push_momentum(out: &mut Vec<u8>, momentum: [i64; 3]) -> Result<(), Memory> {
    let [x, y, z] = momentum;
    out.extend_from_slice(&x.to_le_bytes())?;
    out.extend_from_slice(&y.to_le_bytes())?;
    out.extend_from_slice(&z.to_le_bytes())?;
    Ok(())
}

// The columns of some bodies: positions, momenta, ids and masses.
fn push_columns(alloc: Global, out: &mut Vec<u8>, bodies: &[Placed]) -> Result<(), Memory> {
    let mut pos = Vec::new(alloc);
    let mut mom = Vec::new(alloc);
    let mut id = Vec::new(alloc);
    let mut mass = Vec::new(alloc);
    for body in bodies {
        push_position(&mut pos, body.position)?;
        push_momentum(&mut mom, body.momentum)?;
        id.extend_from_slice(&body.id.to_le_bytes())?;
        mass.extend_from_slice(&body.mass.to_le_bytes())?;
    }
    push_block(out, b"POS ", &pos)?;
    push_block(out, b"MOM ", &mom)?;
    push_block(out, b"ID  ", &id)?;
    push_block(out, b"MASS", &mass)
}

// The snapshot of some bodies at a tick, written out by hand.
fn snapshot(alloc: Global, bodies: &[Placed], tick: u64) -> Result<Vec<u8>, Memory> {
    let count = bodies.len() as u64 % 256;
    let mut head = Vec::from_slice(alloc, b"I4SNAP01")?;
    head.extend_from_slice(&[0; 4])?;
    head.extend_from_slice(&(count as u32).to_le_bytes())?;
    head.extend_from_slice(&[0; 16])?;
    head.extend_from_slice(&tick.to_le_bytes())?;
    head.extend_from_slice(&[0; 216])?;
    let mut out = Vec::new(alloc);
    push_block(&mut out, b"HEAD", &head)?;
    push_columns(alloc, &mut out, bodies)?;
    Ok(out)
}

// A store with a parameter file, whose last lines are given, and the snapshot of some bodies.
fn store_of(alloc: Global, last_lines: &str, bodies: &[Placed]) -> Result<MemStore, Memory> {
    let mut store = MemStore::new(alloc);
    let params = joined(alloc, PARAMETERS, last_lines.as_bytes())?;
    store.put(&text(alloc, b"param.txt")?, &params)?;
    let ics = snapshot(alloc, bodies, 0)?;
    store.put(&text(alloc, b"ics.dat")?, &ics)?;
    Ok(store)
}

/// What the words print, and their status.
#[derive(Drop)]
struct Said {
    code: u8,
    line: Vec<u8>,
}

// Says the words over a store.
fn say<Q: Stopper>(
    alloc: Global,
    words: &[&str],
    store: &mut MemStore,
    stop: &mut Q,
) -> Result<Said, Memory> {
    say_by(alloc, words, store, &mut LastSchedule, stop)
}

// The same, by a schedule.
fn say_by<K: Schedule, Q: Stopper>(
    alloc: Global,
    words: &[&str],
    store: &mut MemStore,
    order: &mut K,
    stop: &mut Q,
) -> Result<Said, Memory> {
    let mut texts = Vec::new(alloc);
    for word in words {
        texts.push(text(alloc, word.as_bytes())?)?;
    }
    let mut sink = MemSink::new(alloc);
    let status = gadget(alloc, &texts, store, order, stop, &mut sink);
    let line = Vec::from_slice(alloc, sink.bytes())?;
    Ok(Said {
        code: status.code(),
        line,
    })
}

// Whether the words print this, with this status.
fn says(
    alloc: Global,
    words: &[&str],
    store: &mut MemStore,
    code: u8,
    line: &str,
) -> Result<bool, Memory> {
    let said = say(alloc, words, store, &mut NeverStop)?;
    Ok(said.code == code && said.line.as_slice() == line.as_bytes())
}

// Whether a file of this name stands, with these bytes.
fn holds(alloc: Global, store: &MemStore, name: &str, want: &[u8]) -> Result<bool, Memory> {
    let name = text(alloc, name.as_bytes())?;
    Ok(store.get(&name).is_some_and(|bytes| bytes == want))
}

fn stands(alloc: Global, store: &MemStore, name: &str) -> Result<bool, Memory> {
    let name = text(alloc, name.as_bytes())?;
    Ok(store.get(&name).is_some())
}

const RUN: [&str; 3] = ["run", "param.txt", "1"];

const PAIR: [Placed; 2] = [
    Placed {
        id: 1,
        mass: 1024,
        position: [0; 3],
        momentum: [0; 3],
    },
    Placed {
        id: 2,
        mass: 1024,
        position: [1000, 0, 0],
        momentum: [0; 3],
    },
];

// What a run prints, and its status.
fn prints(
    alloc: Global,
    last_lines: &str,
    bodies: &[Placed],
    code: u8,
    want: &str,
) -> Result<bool, Memory> {
    let mut store = store_of(alloc, last_lines, bodies)?;
    says(alloc, &RUN, &mut store, code, want)
}

// A table of two steps to half the box, of zeros but for one number of one entry.
fn table(alloc: Global, entry: usize, number: u32) -> Result<Vec<u8>, Memory> {
    let mut bytes = Vec::from_slice(alloc, b"I4EWALD1")?;
    bytes.extend_from_slice(&1u32.to_le_bytes())?;
    bytes.extend_from_slice(&0u32.to_le_bytes())?;
    for i in 0..27 {
        let x = if i == entry { number } else { 0 };
        bytes.extend_from_slice(&x.to_le_bytes())?;
        bytes.extend_from_slice(&[0; 8])?;
    }
    Ok(bytes)
}

// What a run with a table of this name prints, and its status, where a file `table.dat` has these bytes.
fn prints_with_table(
    alloc: Global,
    last_lines: &str,
    bytes: &[u8],
    code: u8,
    want: &str,
) -> Result<bool, Memory> {
    let mut store = store_of(alloc, last_lines, &PAIR)?;
    store.put(&text(alloc, b"table.dat")?, bytes)?;
    says(alloc, &RUN, &mut store, code, want)
}

#[test]
fn tables_are_read(rt: HostRuntime) -> Result<(), Fail> {
    let alloc = rt.alloc();
    let named = "VelocityShift 20\nErrTolIntAccuracy 65536\nTimeMax 2\nEwaldTableFile table.dat\n";
    let absent = "VelocityShift 20\nErrTolIntAccuracy 65536\nTimeMax 2\nEwaldTableFile table\n";
    let done = "done tick 2 steps 1 snapshots 1 kicks 2 interactions 2 momentum 0 0 0\n";
    let right = table(alloc, 1, 1 << 30)?;
    assert!(rt; prints_with_table(alloc, named, &right, 0, done)?);
    assert!(rt; prints_with_table(alloc, absent, &right, 7, "absent table\n")?);
    let cut = right.get(..339).ok_or("short")?;
    assert!(rt; prints_with_table(alloc, named, cut, 12, "table length 340 339\n")?);
    let plane = table(alloc, 0, 1)?;
    assert!(rt; prints_with_table(alloc, named, &plane, 12, "table plane 0\n")?);
    assert!(rt; prints_with_table(alloc, named, b"I4EWALD2", 12, "table tag\n")?);
    Ok(())
}

// A table of factors: entries so many ticks (as a power of two) apart, each with these two sums.
fn factors(alloc: Global, spacing: u32, entries: &[(u64, u64)]) -> Result<Vec<u8>, Memory> {
    let count = (entries.len() % 65_536) as u32;
    let mut bytes = Vec::from_slice(alloc, b"I4EXPAN1")?;
    bytes.extend_from_slice(&spacing.to_le_bytes())?;
    bytes.extend_from_slice(&count.to_le_bytes())?;
    for (kick, drift) in entries {
        bytes.extend_from_slice(&kick.to_le_bytes())?;
        bytes.extend_from_slice(&drift.to_le_bytes())?;
    }
    Ok(bytes)
}

#[test]
fn faulty_tables_of_factors_are_answered(rt: HostRuntime) -> Result<(), Fail> {
    let alloc = rt.alloc();
    let named =
        "VelocityShift 20\nErrTolIntAccuracy 65536\nTimeMax 2\nExpansionTableFile table.dat\n";
    let longer =
        "VelocityShift 20\nErrTolIntAccuracy 65536\nTimeMax 3\nExpansionTableFile table.dat\n";
    let right = factors(alloc, 1, &[(0, 0), (1, 2)])?;
    let cut = right.get(..47).ok_or("short")?;
    assert!(rt; prints_with_table(alloc, named, cut, 16, "expansion length 48 47\n")?);
    let late = factors(alloc, 1, &[(1, 0), (1, 2)])?;
    assert!(rt; prints_with_table(alloc, named, &late, 16, "expansion entry 0\n")?);
    assert!(rt; prints_with_table(alloc, longer, &right, 16, "expansion short 4 2\n")?);
    Ok(())
}
