ghost use Rattle.std.specs.Prelude.{◌<◌, ◌^◌, length, IfOk};

use super::*;
use std::alloc::Global;
use std::test::Fail;

// The bytes of a file with a number of groups, and these numbers behind its head.
fn file(alloc: Global, count: u32, numbers: &[u64]) -> Result<Vec<u8>, Fail> {
    let mut bytes = Vec::new(alloc);
    bytes.extend_from_slice(b"I4GROUPS")?;
    bytes.extend_from_slice(&count.to_le_bytes())?;
    bytes.extend_from_slice(&[0, 0, 0, 0])?;
    for number in numbers {
        bytes.extend_from_slice(&number.to_le_bytes())?;
    }
    Ok(bytes)
}

// The first fault of these bytes.
fn fault_in(alloc: Global, count: u32, numbers: &[u64]) -> Result<Option<GroupErr>, Fail> {
    let bytes = file(alloc, count, numbers)?;
    Ok(read_groups(alloc, &bytes).err())
}

// A group of the ids 1, 2 and 3, of mass 1 each.
fn three(alloc: Global) -> Result<Catalogue, Fail>
    ensures { IfOk result (λ groups. length groups < 2 ^ 32) }
{
    let mut ids = Vec::new(alloc);
    ids.extend_from_slice(&[1, 2, 3])?;
    let group = Group {
        label: 1,
        mass: 3,
        ids,
    };
    let mut groups = Vec::new(alloc);
    groups.push(group).map_err(|_| "no memory")?;
    Ok(Catalogue { groups })
}

#[test]
fn three_bodies_are_64_bytes(rt: HostRuntime) -> Result<(), Fail> {
    let alloc = rt.alloc();
    let bytes = write_groups(alloc, &three(alloc)?)?;
    assert_eq!(rt; bytes.len(), 64);
    assert_eq!(rt;
        bytes.as_slice(),
        file(alloc, 1, &[1, 3, 3, 1, 2, 3])?.as_slice()
    );
    Ok(())
}

#[test]
fn what_is_written_is_read(rt: HostRuntime) -> Result<(), Fail> {
    let alloc = rt.alloc();
    let bytes = file(alloc, 1, &[1, 3, 3, 1, 2, 3])?;
    let read = read_groups(alloc, &bytes)?;
    assert_eq!(rt; read.groups.len(), 1);
    let group = read.groups.first().ok_or("no group")?;
    assert_eq!(rt; [group.label, group.mass], [1, 3]);
    assert_eq!(rt; group.ids.as_slice(), [1, 2, 3].as_slice());
    let none = file(alloc, 0, &[])?;
    assert!(rt; read_groups(alloc, &none)?.groups.is_empty());
    Ok(())
}

#[test]
fn cut_at_every_length(rt: HostRuntime) -> Result<(), Fail> {
    let alloc = rt.alloc();
    let whole = file(alloc, 1, &[1, 3, 3, 1, 2, 3])?;
    for n in 0..64usize {
        let cut = whole.get(..n).ok_or("short")?;
        let want = match n {
            0..8 => GroupErr::Tag,
            8..16 => GroupErr::Truncated { at: 8 },
            16..40 => GroupErr::Truncated { at: 16 },
            _ => GroupErr::Truncated { at: 40 },
        };
        assert_eq!(rt; read_groups(alloc, cut).err(), Some(want), "{n}");
    }
    Ok(())
}

#[test]
fn the_first_fault_is_named(rt: HostRuntime) -> Result<(), Fail> {
    let alloc = rt.alloc();
    let same_label = fault_in(alloc, 2, &[5, 1, 1, 5, 5, 1, 1, 5])?;
    assert_eq!(rt; same_label, Some(GroupErr::Field { at: 48 }));
    let no_ids = fault_in(alloc, 1, &[1, 0, 0])?;
    assert_eq!(rt; no_ids, Some(GroupErr::Field { at: 32 }));
    let many_ids = fault_in(alloc, 1, &[1, 0, 1_048_577])?;
    assert_eq!(rt; many_ids, Some(GroupErr::Field { at: 32 }));
    let not_the_label = fault_in(alloc, 1, &[1, 1, 1, 2])?;
    assert_eq!(rt; not_the_label, Some(GroupErr::Field { at: 40 }));
    let same_id = fault_in(alloc, 1, &[1, 2, 2, 1, 1])?;
    assert_eq!(rt; same_id, Some(GroupErr::Field { at: 48 }));
    let rest = fault_in(alloc, 0, &[7])?;
    assert_eq!(rt; rest, Some(GroupErr::Rest { at: 16 }));
    Ok(())
}

#[test]
fn of_ids_in_two_groups_the_least_is_named(rt: HostRuntime) -> Result<(), Fail> {
    let alloc = rt.alloc();
    let two = fault_in(alloc, 2, &[1, 3, 3, 1, 8, 9, 2, 3, 3, 2, 8, 9])?;
    assert_eq!(rt; two, Some(GroupErr::Repeated { id: 8 }));
    let later = fault_in(alloc, 3, &[1, 2, 2, 1, 9, 2, 2, 2, 2, 4, 3, 3, 3, 3, 4, 9])?;
    assert_eq!(rt; later, Some(GroupErr::Repeated { id: 4 }));
    Ok(())
}
