// The command that finds groups.
ghost use Rattle.std.specs.Prelude.{◌≡◌, ◌≤◌, ◌<◌, ◌^◌, ◌++◌, length, IfOk};
ghost use Rattle.group_file.specs.Catalogues.{IsGood};
ghost use Rattle.group_file.specs.GroupFile.{catalogue_text};
ghost use Rattle.groups.specs.Groups.{IsCatalogue};
ghost use Rattle.gadget.specs.Grouping.{GroupsBy, members_of};
ghost use Rattle.gadget.specs.Texts.{grouped_text};

use crate::named_file::write_file;
use crate::outcome::Outcome;
use crate::snapshots::load_bodies;
use crate::status::Status;
use crate::texts::push_two;
use fixed_point::Memory;
use group_file::{Catalogue, Group, write_groups};
use groups::groups;
use particle_set::BodySet;
use std::alloc::Global;
use store_io::{Store, Text};

fn size_of(group: &Group) -> u64
    ensures { result ≡ length group.now.ids }
{
    group.ids.len() as u64
}

// How many members these groups have.
fn members_of(groups: &[Group]) -> u64
    requires { members_of groups.now < 2 ^ 64 }
    ensures { result ≡ members_of groups.now }
{
    groups.iter().map(|g| size_of(g)).sum()
}

// The catalogue of bodies, and its text.
fn find_groups(
    alloc: Global,
    set: &BodySet,
    reach: u32,
    least: u32,
) -> Result<(Catalogue, Vec<u8>), Memory>
    ensures exact { IfOk result (λ r. IsCatalogue reach least set.now r.0) }
    ensures good { IfOk result (λ r. IsGood r.0) }
    ensures few { IfOk result (λ r. length r.0 ≤ 1048576) }
    ensures text { IfOk result (λ r. r.1.items ≡ catalogue_text r.0) }
{
    let catalogue = groups(alloc, set.bodies(), reach, least)?;
    let text = write_groups(alloc, &catalogue)?;
    Ok((catalogue, text))
}

// The numbers of a catalogue.
#[tactic(auto, using(crate::proofs::Sizes::members_fit))]
fn grouped(catalogue: &Catalogue) -> Outcome
    requires few { length catalogue.now ≤ 1048576 }
    requires good { IsGood catalogue.now }
    ensures { result ≡ Outcome.Grouped (length catalogue.now) (members_of catalogue.now) }
{
    Outcome::Grouped {
        groups: catalogue.groups.len() as u64,
        members: members_of(&catalogue.groups),
    }
}

/// Writes the catalogue of the groups of at least `least` members that links of at most this length join.
pub fn group_bodies<S: Store>(
    alloc: Global,
    store: &mut S,
    snapshot: &Text,
    reach: u32,
    least: u32,
    name: &Text,
) -> Outcome
    ensures tells { S.tells store.new ≡ S.tells store.old }
    ensures does { GroupsBy S.Store store.old store.new snapshot.now reach least name.now result }
{
    let set = match load_bodies(alloc, store, snapshot) {
        Ok(set) => set,
        Err(status) => return Outcome::Refused(status),
    };
    let (catalogue, text) = match find_groups(alloc, &set, reach, least) {
        Ok(found) => found,
        Err(Memory) => return Outcome::Refused(Status::Memory),
    };
    let name = match Text::from_bytes(alloc, name.bytes()) {
        Ok(name) => name,
        Err(Memory) => return Outcome::Refused(Status::Memory),
    };
    match write_file(store, name, &text) {
        Ok(()) => grouped(&catalogue),
        Err(status) => Outcome::Refused(status),
    }
}

/// The line of groups that were written: how many there are, and how many members they have.
pub fn grouped_line(alloc: Global, groups: u64, members: u64) -> Result<Vec<u8>, Memory>
    ensures { IfOk result (λ line. line.items ≡ grouped_text groups members) }
{
    let mut line = Vec::new(alloc);
    push_two(&mut line, b"groups", groups, b" members", members)?;
    line.push(b'\n')?;
    Ok(line)
}
