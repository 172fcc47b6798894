ghost use Rattle.std.specs.Prelude.{◌<◌, ◌^◌, length, IfOk};
ghost use Rattle.group_file.specs.Catalogues.{IsGood};

use super::*;
use group_file::{Catalogue, read_groups};
use std::alloc::Global;
use std::test::Fail;

// The catalogue in a file of so many groups, with these numbers behind its head: for each group its label, its mass, how
// many ids it has, and its ids.
fn catalogue(alloc: Global, count: u32, numbers: &[u64]) -> Result<Catalogue, Fail>
    ensures good { IfOk result IsGood }
    ensures few { IfOk result (λ groups. length groups < 2 ^ 32) }
{
    let mut bytes = Vec::new(alloc);
    bytes.extend_from_slice(b"I4GROUPS")?;
    bytes.extend_from_slice(&count.to_le_bytes())?;
    bytes.extend_from_slice(&[0, 0, 0, 0])?;
    for number in numbers {
        bytes.extend_from_slice(&number.to_le_bytes())?;
    }
    match read_groups(alloc, &bytes) {
        Ok(groups) => Ok(groups),
        Err(_) => Err("no catalogue")?,
    }
}

// A link to a descendant.
fn link(label: u64, descendant: u64, shared: u64, main: bool) -> Link {
    Link {
        label,
        descendant: Some(descendant),
        shared,
        main,
    }
}

#[test]
fn groups_exchange_bodies(rt: HostRuntime) -> Result<(), Fail> {
    let alloc = rt.alloc();
    let first = catalogue(alloc, 2, &[1, 0, 3, 1, 2, 3, 4, 0, 2, 4, 5])?;
    let second = catalogue(alloc, 2, &[1, 0, 3, 1, 4, 5, 2, 0, 2, 2, 3])?;
    let list = links(alloc, &first, &second)?;
    let want = [link(1, 2, 2, true), link(4, 1, 2, true)];
    assert_eq!(rt; list.links.as_slice(), want.as_slice());
    Ok(())
}

#[test]
fn of_equals_the_least_label(rt: HostRuntime) -> Result<(), Fail> {
    let alloc = rt.alloc();
    let both = catalogue(alloc, 1, &[1, 0, 2, 1, 2])?;
    let each = catalogue(alloc, 2, &[1, 0, 1, 1, 2, 0, 1, 2])?;
    let apart = links(alloc, &both, &each)?;
    assert_eq!(rt; apart.links.as_slice(), [link(1, 1, 1, true)].as_slice());
    let joined = links(alloc, &each, &both)?;
    let want = [link(1, 1, 1, true), link(2, 1, 1, false)];
    assert_eq!(rt; joined.links.as_slice(), want.as_slice());
    Ok(())
}

#[test]
fn no_descendant(rt: HostRuntime) -> Result<(), Fail> {
    let alloc = rt.alloc();
    let one = catalogue(alloc, 1, &[9, 0, 1, 9])?;
    let none = catalogue(alloc, 0, &[])?;
    let want = Link {
        label: 9,
        descendant: None,
        shared: 0,
        main: false,
    };
    assert_eq!(rt;
        links(alloc, &one, &none)?.links.as_slice(),
        [want].as_slice()
    );
    assert!(rt; links(alloc, &none, &one)?.links.is_empty());
    Ok(())
}
