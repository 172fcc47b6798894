use super::*;
use crate::contents::{Listed, Load};
use crate::handed::handed_to;
use crate::keyed::Keyed;
use cell_space::Cell;
use fixed_point::V3;
use nbody_model::EventKind;
use std::test::Fail;

fn message(load: Load) -> Message {
    Message {
        kind: EventKind::Members,
        from: 0,
        to: 1,
        load,
    }
}

// A cell that is asked for has the size 1, an answer that there are no members 0, and each pair of a cell and a body counts.
#[test]
fn messages_have_sizes(rt: HostRuntime) -> Result<(), Fail> {
    let pair = Listed {
        cell: Cell::root(),
        id: 7,
        mass: 3,
    };
    let pairs = [pair, pair].to_vec(rt.alloc())?;
    assert_eq!(rt; message(Load::Cell(Cell::root())).size(), 1);
    assert_eq!(rt; message(Load::Answer(None)).size(), 0);
    assert_eq!(rt; message(Load::Members(pairs)).size(), 2);
    Ok(())
}

fn entry(rank: u16, id: u64) -> Keyed {
    Keyed {
        key: rank as u128 * (1 << 64) + id as u128,
        sum: V3 { x: 1, y: 2, z: -3 },
    }
}

// Of the sums of ranks 1 and 2, those of rank 2 are handed to it, with their ids.
#[test]
fn sums_are_handed_to_their_ranks(rt: HostRuntime) -> Result<(), Fail> {
    let entries = [entry(1, 9), entry(2, 4), entry(2, 6)];
    let parts = handed_to(rt.alloc(), &entries, 2)?;
    assert_eq!(rt; parts.len(), 2);
    let first = parts.get(0).ok_or("no part")?;
    assert_eq!(rt; first.id, 4);
    Ok(())
}
