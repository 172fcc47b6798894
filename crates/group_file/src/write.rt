// A catalogue as bytes.
ghost use Rattle.std.specs.Prelude.{◌≡◌, ◌<◌, ◌++◌, ◌^◌, length, OnOk, IfOk};
ghost use Rattle.std.specs.List.{flat_map};
ghost use Rattle.fixed_point.specs.Bytes.{bytes32, bytes64};
ghost use Rattle.group_file.specs.GroupFile.{catalogue_text, group_bytes, group_tag};

use crate::{Catalogue, Group};
use fixed_point::{Memory, push_bytes, push_word32, push_word64};
use std::alloc::Global;

// Appends ids.
fn push_ids(out: &mut Vec<u8>, ids: &[u64]) -> Result<(), Memory>
    ensures { OnOk result (out.new.items ≡ out.old.items ++ flat_map bytes64 ids.now) }
{
    for id in ids {
        push_word64(out, *id)?;
    }
    Ok(())
}

// Appends a group.
fn push_group(out: &mut Vec<u8>, group: &Group) -> Result<(), Memory>
    ensures { OnOk result (out.new.items ≡ out.old.items ++ group_bytes group.now) }
{
    push_word64(out, group.label)?;
    push_word64(out, group.mass)?;
    push_word64(out, group.ids.len() as u64)?;
    push_ids(out, &group.ids)?;
    Ok(())
}

// Appends what stands before the groups.
fn push_head(out: &mut Vec<u8>, number: u32) -> Result<(), Memory>
    ensures { OnOk result (out.new.items ≡ out.old.items ++ (group_tag ++ bytes32 number ++ bytes32 0)) }
{
    push_bytes(out, b"I4GROUPS")?;
    push_word32(out, number)?;
    push_word32(out, 0)?;
    Ok(())
}

/// The bytes of a catalogue of fewer than 2^32 groups: the tag `I4GROUPS`, the number of groups and 0 in four bytes each,
/// and for each group its label, its mass, the number of its ids and the ids, in eight bytes each, the lowest byte first.
#[tactic(auto, unfolding(crate::specs::GroupFile::catalogue_text))]
pub fn write_groups(alloc: Global, c: &Catalogue) -> Result<Vec<u8>, Memory>
    requires { length c.now < 2 ^ 32 }
    ensures { IfOk result (λ bytes. bytes.items ≡ catalogue_text c.now) }
{
    let mut out = Vec::new(alloc);
    push_head(&mut out, c.groups.len() as u32)?;
    for i in 0..c.groups.len() {
        let group = &c.groups[i];
        push_group(&mut out, group)?;
    }
    Ok(out)
}
