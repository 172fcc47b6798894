// The entries of a rank's nodes.
ghost use Rattle.std.specs.Prelude.{◌≡◌, ◌<◌, ◌≤◌, IfOk, length};
ghost use Rattle.octree_build.specs.Trees.{IsOfBodies, NodeData, cell_of_node};
ghost use Rattle.home_cells.specs.Entries.{AreEntriesFor, HasChildrenAt, IsEntryAt};

use crate::children::children_of;
use crate::spans::Spans;
use domain_split::Bounds;
use fixed_point::Memory;
use node_moments::Raw;
use octree_build::Tree;
use std::alloc::Global;
use std::marker::Model;

/// What is told of a cell: sums over some bodies in it, and which of its eight children have any of them. Bit c of
/// `children` is that of child c; at level 32 there are none.
#[derive(Drop)]
pub struct Entry {
    pub raw: Raw,
    pub children: u8,
}

impl Model for Entry {
    ghost use Rattle.rank_laws.specs.Contents.{EntryData};
    ghost use Rattle.home_cells.specs.Entries.{numbers_in};

    ghost Value = { EntryData };

    ghost view = { λ e. record { raw = e.raw; children = numbers_in e.children } };
}

/// The level of a node.
fn level_at(tree: &Tree, i: u32) -> u8
    requires { i < length tree.now.nodes }
    ensures value { (d : NodeData) → result ≡ (cell_of_node tree.now.nodes i d).level }
    ensures small { result ≤ 32 }
{
    let node = tree.node(i);
    let cell = node.cell;
    cell.level
}

/// The children of a node that have members.
fn children_at(tree: &Tree, i: u32) -> u8
    requires { i < length tree.now.nodes }
    ensures { HasChildrenAt tree.now i result }
{
    let level = level_at(tree, i);
    if level == 32 {
        return 0;
    }
    children_of(tree.members(i), level)
}

/// The entry of a node.
pub(crate) fn entry_at(tree: &Tree, i: u32) -> Entry
    requires place { i < length tree.now.nodes }
    requires tree { IsOfBodies tree.now }
    ensures { IsEntryAt tree.now i result }
{
    Entry {
        raw: tree.raw(i),
        children: children_at(tree, i),
    }
}

/// The entries that a rank's tree gives for a receiver: of each node whose home it is, and of each leaf that has it in its
/// span. They ascend by level, and in a level along the curve.
pub fn entries_for(
    alloc: Global,
    tree: &Tree,
    bounds: &Bounds,
    to: u16,
) -> Result<Vec<Entry>, Memory>
    requires tree { IsOfBodies tree.now }
    requires rank { to < length bounds.now }
    ensures { IfOk result (λ entries. AreEntriesFor tree.now bounds.now to entries.items) }
{
    let spans = Spans::of(alloc, tree, bounds)?;
    spans.entries_for(alloc, tree, to)
}
