ghost use Rattle.std.specs.Prelude.{◌≤◌, All, IfOk};
ghost use Rattle.particle_set.specs.Rows.{HasKind};

use super::*;
use particle_set::{BodySet, Row, SetErr};
use snapshot_blocks::{BlockErr, BlockKind, push_block};
use std::alloc::Global;
use std::test::Fail;
use store_io::{MemStore, Store, Text};

fn row(id: u64, x: u32, px: i64) -> Row
    ensures { HasKind result }
{
    Row {
        id,
        kind: 1,
        mass: 1024,
        pos: [x, 0, 0],
        mom: [px, 0, 0],
    }
}

fn pair(alloc: Global) -> Result<BodySet, Fail> {
    let rows = vec![in alloc; row(2, 999, -2001626), row(1, 0, 2001626)]?;
    Ok(BodySet::from_list(alloc, rows)?)
}

fn snapshot(alloc: Global) -> Result<Vec<u8>, Fail> {
    Ok(write_snapshot(alloc, &pair(alloc)?, 2, 0)?)
}

// The bytes from a place up to another, or none where they don't reach so far.
fn piece(bytes: &[u8], from: usize, to: usize) -> &[u8] {
    bytes.get(from..to).unwrap_or(&[])
}

// The snapshot with other bytes from a place on.
fn changed(alloc: Global, at: usize, bytes: &[u8]) -> Result<Vec<u8>, Fail> {
    let text = snapshot(alloc)?;
    let mut out = Vec::from_slice(alloc, piece(&text, 0, at))?;
    out.extend_from_slice(bytes)?;
    let end = out.len();
    out.extend_from_slice(piece(&text, end, 472))?;
    Ok(out)
}

fn framed_wrong(at: u64, kind: BlockKind) -> SnapErr {
    SnapErr::Block(BlockErr { at, kind })
}

// The snapshot of the two bodies, as another program writes it.
fn pair_bytes(alloc: Global) -> Result<Vec<u8>, Fail> {
    let mut bytes = Vec::from_slice(alloc, b"\x08\0\0\0HEAD\x08\x01\0\0\x08\0\0\0\0\x01\0\0")?;
    bytes.extend_from_slice(
        b"I4SNAP01\0\0\0\0\x02\0\0\0\0\0\0\0\0\0\0\0\0\0\0\0\0\0\0\0\x02\0\0\0\0\0\0\0\0\0\0\0",
    )?;
    bytes.extend_from_slice(&[0; 212])?;
    bytes.extend_from_slice(b"\0\x01\0\0")?;
    bytes.extend_from_slice(
        b"\x08\0\0\0POS  \0\0\0\x08\0\0\0\x18\0\0\0\0\0\0\0\0\0\0\0\0\0\0\0\xe7\x03\0\0\0\0\0\0",
    )?;
    bytes.extend_from_slice(b"\0\0\0\0\x18\0\0\0")?;
    bytes.extend_from_slice(
        b"\x08\0\0\0MOM 8\0\0\0\x08\0\0\00\0\0\0\xda\x8a\x1e\0\0\0\0\0\0\0\0\0\0\0\0\0\0\0\0\0",
    )?;
    bytes.extend_from_slice(
        b"\0\0\0\0&u\xe1\xff\xff\xff\xff\xff\0\0\0\0\0\0\0\0\0\0\0\0\0\0\0\00\0\0\0",
    )?;
    bytes.extend_from_slice(
        b"\x08\0\0\0ID  \x18\0\0\0\x08\0\0\0\x10\0\0\0\x01\0\0\0\0\0\0\0\x02\0\0\0\0\0\0\0\x10\0\0\0",
    )?;
    bytes.extend_from_slice(
        b"\x08\0\0\0MASS\x10\0\0\0\x08\0\0\0\x08\0\0\0\0\x04\0\0\0\x04\0\0\x08\0\0\0",
    )?;
    Ok(bytes)
}

#[test]
fn two_bodies_have_472_bytes(rt: HostRuntime) -> Result<(), Fail> {
    let alloc = rt.alloc();
    let want = pair_bytes(alloc)?;
    assert_eq!(rt; want.len(), 472);
    assert_eq!(rt; snapshot(alloc)?.as_slice(), want.as_slice());
    let mut seen = Vec::new(alloc);
    for body in read_snapshot(alloc, &want)?.bodies() {
        seen.push((body.id, body.motion.pos(), body.motion.mom()))?;
    }
    let want = [
        (1, [0, 0, 0], [2001626, 0, 0]),
        (2, [999, 0, 0], [-2001626, 0, 0]),
    ];
    assert!(rt; seen.as_slice() == want.as_slice());
    Ok(())
}

fn of_kind(kind: u8, id: u64, mass: u32, pos: [u32; 3], mom: [i64; 3]) -> Row
    requires low { 1 ≤ kind }
    requires high { kind ≤ 5 }
    ensures { HasKind result }
{
    Row {
        id,
        kind,
        mass,
        pos,
        mom,
    }
}

// Six bodies of all kinds, two of them of one.
fn all_kinds(alloc: Global) -> Result<BodySet, Fail> {
    let limit = 1 << 62;
    let rows = vec![in alloc;
        of_kind(5, 9, 10, [1, 2, 3], [-1, 2, -3]),
        of_kind(2, 4, 20, [4, 5, u32::MAX], [limit, -limit, 0]),
        of_kind(3, 7, 30, [6, 7, 8], [9, -10, 11]),
        of_kind(1, 8, 40, [12, 13, 14], [15, 16, 17]),
        of_kind(4, 2, 50, [18, 19, 20], [-21, 22, 23]),
        of_kind(2, 3, 60, [24, 25, 26], [27, 28, -29]),
    ]?;
    Ok(BodySet::from_list(alloc, rows)?)
}

// Their snapshot, as another program writes it.
fn all_kinds_bytes(alloc: Global) -> Result<Vec<u8>, Fail> {
    let mut bytes = Vec::from_slice(alloc, b"\x08\0\0\0HEAD\x08\x01\0\0\x08\0\0\0\0\x01\0\0")?;
    bytes.extend_from_slice(
        b"I4SNAP01\0\0\0\0\x01\0\0\0\x02\0\0\0\x01\0\0\0\x01\0\0\0\x01\0\0\0M\0\0\0\0\0\0\0\x03\0\0\0",
    )?;
    bytes.extend_from_slice(&[0; 212])?;
    bytes.extend_from_slice(b"\0\x01\0\0")?;
    bytes.extend_from_slice(
        b"\x08\0\0\0POS P\0\0\0\x08\0\0\0H\0\0\0\x0c\0\0\0\x0d\0\0\0\x0e\0\0\0\x18\0\0\0\x19\0\0\0",
    )?;
    bytes.extend_from_slice(
        b"\x1a\0\0\0\x04\0\0\0\x05\0\0\0\xff\xff\xff\xff\x06\0\0\0\x07\0\0\0\x08\0\0\0\x12\0\0\0\x13\0\0\0\x14\0\0\0",
    )?;
    bytes.extend_from_slice(b"\x01\0\0\0\x02\0\0\0\x03\0\0\0H\0\0\0")?;
    bytes.extend_from_slice(
        b"\x08\0\0\0MOM \x98\0\0\0\x08\0\0\0\x90\0\0\0\x0f\0\0\0\0\0\0\0\x10\0\0\0\0\0\0\0\x11\0\0\0",
    )?;
    bytes.extend_from_slice(
        b"\0\0\0\0\x1b\0\0\0\0\0\0\0\x1c\0\0\0\0\0\0\0\xe3\xff\xff\xff\xff\xff\xff\xff\0\0\0\0\0\0\0@\0\0\0\0",
    )?;
    bytes.extend_from_slice(
        b"\0\0\0\xc0\0\0\0\0\0\0\0\0\x09\0\0\0\0\0\0\0\xf6\xff\xff\xff\xff\xff\xff\xff\x0b\0\0\0\0\0\0\0\xeb\xff\xff\xff",
    )?;
    bytes.extend_from_slice(
        b"\xff\xff\xff\xff\x16\0\0\0\0\0\0\0\x17\0\0\0\0\0\0\0\xff\xff\xff\xff\xff\xff\xff\xff\x02\0\0\0\0\0\0\0\xfd\xff\xff\xff",
    )?;
    bytes.extend_from_slice(b"\xff\xff\xff\xff\x90\0\0\0")?;
    bytes.extend_from_slice(
        b"\x08\0\0\0ID  8\0\0\0\x08\0\0\00\0\0\0\x08\0\0\0\0\0\0\0\x03\0\0\0\0\0\0\0\x04\0\0\0",
    )?;
    bytes.extend_from_slice(
        b"\0\0\0\0\x07\0\0\0\0\0\0\0\x02\0\0\0\0\0\0\0\x09\0\0\0\0\0\0\00\0\0\0",
    )?;
    bytes.extend_from_slice(
        b"\x08\0\0\0MASS \0\0\0\x08\0\0\0\x18\0\0\0(\0\0\0<\0\0\0\x14\0\0\0\x1e\0\0\02\0\0\0",
    )?;
    bytes.extend_from_slice(b"\x0a\0\0\0\x18\0\0\0")?;
    Ok(bytes)
}

#[test]
fn all_kinds_are_written_and_read(rt: HostRuntime) -> Result<(), Fail> {
    let alloc = rt.alloc();
    let want = all_kinds_bytes(alloc)?;
    let written = write_snapshot(alloc, &all_kinds(alloc)?, 77, 3)?;
    assert_eq!(rt; written.as_slice(), want.as_slice());
    let head = Head {
        counts: [0, 1, 2, 1, 1, 1],
        tick: 77,
        number: 3,
    };
    assert_eq!(rt; read_head(alloc, &want)?, head);
    let mut seen = Vec::new(alloc);
    for body in read_snapshot(alloc, &want)?.bodies() {
        seen.push((body.id, body.kind, body.mass))?;
    }
    let ids = [
        (2, 4, 50),
        (3, 2, 60),
        (4, 2, 20),
        (7, 3, 30),
        (8, 1, 40),
        (9, 5, 10),
    ];
    assert!(rt; seen.as_slice() == ids.as_slice());
    let again = write_snapshot(alloc, &read_snapshot(alloc, &want)?, 77, 3)?;
    assert_eq!(rt; again.as_slice(), want.as_slice());
    Ok(())
}

#[test]
fn changed_bytes_have_their_first_fault(rt: HostRuntime) -> Result<(), Fail> {
    let alloc = rt.alloc();
    let differs = BlockKind::FrameDiffers { first: 8, last: 9 };
    let short = SnapErr::BlockLength {
        name: *b"POS ",
        want: 36,
        got: 24,
    };
    for (at, byte, want) in [
        (468, 9, framed_wrong(468, differs)),
        (20, 0, SnapErr::HeadTag),
        (28, 3, SnapErr::Gas { count: 3 }),
        (32, 3, short),
        (465, 0, SnapErr::Bodies(SetErr::ZeroMass { id: 2 })),
        (428, 1, SnapErr::Bodies(SetErr::Repeated { id: 1 })),
    ] {
        let text = changed(alloc, at, &[byte])?;
        assert!(rt; read_snapshot(alloc, &text).is_err_and(|e| e == want));
    }
    Ok(())
}

#[test]
fn a_cut_snapshot_has_its_first_fault(rt: HostRuntime) -> Result<(), Fail> {
    let alloc = rt.alloc();
    let text = snapshot(alloc)?;
    for (len, want) in [
        (0, SnapErr::MissingBlock(*b"HEAD")),
        (280, SnapErr::MissingBlock(*b"POS ")),
        (290, framed_wrong(280, BlockKind::Truncated)),
        (298, framed_wrong(296, BlockKind::Truncated)),
        (300, framed_wrong(296, BlockKind::Truncated)),
        (328, SnapErr::MissingBlock(*b"MOM ")),
        (400, SnapErr::MissingBlock(*b"ID  ")),
        (440, SnapErr::MissingBlock(*b"MASS")),
        (470, framed_wrong(456, BlockKind::Truncated)),
    ] {
        let cut = piece(&text, 0, len);
        assert!(rt; read_snapshot(alloc, cut).is_err_and(|e| e == want));
    }
    Ok(())
}

#[test]
fn the_head_is_read(rt: HostRuntime) -> Result<(), Fail> {
    let alloc = rt.alloc();
    let mut text = snapshot(alloc)?;
    let want = Head {
        counts: [0, 2, 0, 0, 0, 0],
        tick: 2,
        number: 0,
    };
    assert_eq!(rt; read_head(alloc, &text)?, want);
    push_block(&mut text, *b"HEAD", &[])?;
    let twice = SnapErr::RepeatedBlock(*b"HEAD");
    assert!(rt; read_head(alloc, &text).is_err_and(|e| e == twice));
    Ok(())
}

#[test]
fn blocks_stand_in_any_order(rt: HostRuntime) -> Result<(), Fail> {
    let alloc = rt.alloc();
    let text = snapshot(alloc)?;
    let mut turned = Vec::new(alloc);
    turned.extend_from_slice(piece(&text, 440, 472))?;
    turned.extend_from_slice(piece(&text, 400, 440))?;
    push_block(&mut turned, *b"POT ", &[1; 8])?;
    turned.extend_from_slice(piece(&text, 328, 400))?;
    turned.extend_from_slice(piece(&text, 280, 328))?;
    turned.extend_from_slice(piece(&text, 0, 280))?;
    let set = read_snapshot(alloc, &turned)?;
    let written = write_snapshot(alloc, &set, 2, 0)?;
    assert_eq!(rt; written.as_slice(), text.as_slice());
    Ok(())
}

fn many_rows(alloc: Global, count: u64) -> Result<Vec<Row>, Fail>
    ensures { IfOk result (λ rows. All HasKind rows.items) }
{
    let mut rows = Vec::new(alloc);
    for id in 0..count {
        rows.push(row(id, 0, 0))?;
    }
    Ok(rows)
}

// The three appends are the calls 0 to 2. The next call would fail.
#[test]
fn four_thousand_bodies_are_put_by_three_appends(rt: HostRuntime) -> Result<(), Fail> {
    let alloc = rt.alloc();
    let name = Text::from_bytes(alloc, b"snapshot_000")?;
    let set = BodySet::from_list(alloc, many_rows(alloc, 4000)?)?;
    let mut store = MemStore::new(alloc);
    store.fail(3, 0)?;
    store.put(&name, b"")?;
    put_snapshot(alloc, &set, 2, 0, &mut store, &name)?;
    assert!(rt; store.get(&name).is_some_and(|bytes| bytes.len() == 192_376));
    assert!(rt; store.length(&name).is_err());
    Ok(())
}
