// The links of a catalogue's groups.
ghost use Rattle.std.specs.Prelude.{◌≡◌, ◌<◌, ◌≤◌, ◌^◌, length, get_or, IfOk, OnOk};
ghost use Rattle.group_file.specs.Catalogues.{IsGood};
ghost use Rattle.merger_links.specs.Links.{AreLinks, IsLink};
ghost use Rattle.merger_links.specs.Ties.{AreMains, AreTies, no_group};

use crate::mains::mains_of;
use crate::ties::{Tie, ties_of};
use crate::{Link, LinkList};
use fixed_point::Memory;
use group_file::{Catalogue, Group};
use std::alloc::Global;

/// Two catalogues, the ties of the groups of the first, and the main groups of those of the second.
#[derive(Clone, Copy)]
struct Tied<'a> {
    first: &'a [Group],
    second: &'a [Group],
    ties: &'a [Tie],
    mains: &'a [Tie],
}

// The label of the group at a place.
fn label_of(groups: &[Group], i: usize) -> u64
    requires { i < length groups.now }
    ensures { result ≡ (get_or groups.now i no_group).label }
{
    let group = &groups[i];
    group.label
}

// The link of the group at a place.
fn link_at(all: &Tied, i: usize) -> Link
    requires at { i < length all.now.first.now }
    requires first { IsGood all.now.first.now }
    requires second { IsGood all.now.second.now }
    requires ties { AreTies all.now.first.now all.now.second.now (length all.now.first.now) all.now.ties.now }
    requires mains { AreMains all.now.ties.now (length all.now.first.now) (length all.now.second.now) all.now.mains.now }
    ensures { IsLink all.now.first.now all.now.second.now (get_or all.now.first.now i no_group) result }
{
    let label = label_of(all.first, i);
    let tie = all.ties[i];
    if tie.shared == 0 {
        return Link {
            label,
            descendant: None,
            shared: 0,
            main: false,
        };
    }
    let place = tie.group as usize;
    Link {
        label,
        descendant: Some(label_of(all.second, place)),
        shared: tie.shared,
        main: all.mains[place].group as usize == i,
    }
}

/// The links of the groups of the first catalogue to those of the second, in the order of the first. In each the groups
/// are as in a file: ascending by label, each with ascending ids, its label the first, and no id in two groups.
pub fn links(alloc: Global, first: &Catalogue, second: &Catalogue) -> Result<LinkList, Memory>
    requires first { IsGood first.now }
    requires second { IsGood second.now }
    requires few_first { length first.now < 2 ^ 32 }
    requires few_second { length second.now < 2 ^ 32 }
    ensures { IfOk result (AreLinks first.now second.now) }
{
    let first = &first.groups;
    let second = &second.groups;
    let ties = ties_of(alloc, first, second)?;
    let mains = mains_of(alloc, &ties, second.len())?;
    let all = Tied {
        first,
        second,
        ties: &ties,
        mains: &mains,
    };
    let mut links = Vec::with_capacity(alloc, first.len())?;
    for i in 0..first.len() {
        let link = link_at(&all, i);
        links.push(link)?;
    }
    Ok(LinkList { links })
}
