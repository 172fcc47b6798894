// The spans of a rank's nodes, which say to whom each is told.
ghost use Rattle.std.specs.Prelude.{◌≡◌, ◌<◌, ◌==◌, ◌&&◌, ℕ, List, IfOk, length, nat_le, slice_index_or};
ghost use Rattle.octree_build.specs.Trees.{IsOfBodies, NodeData, cell_of_node};
ghost use Rattle.home_cells.specs.Entries.{AreEntriesFor, AreSpansOf, IsSpanOf, is_told_by};

use crate::entries::{Entry, entry_at};
use domain_split::{Bounds, span};
use fixed_point::Memory;
use octree_build::Tree;
use std::alloc::Global;
use std::marker::Model;

/// The span of each node of a rank's tree: its first rank, and the home of its cell. They are found once for all receivers.
#[derive(Drop)]
pub struct Spans {
    spans: Vec<(u16, u16)>,
}

impl Model for Spans {
    ghost use Rattle.std.specs.Prelude.{ℕ, List};

    ghost Value = { List (ℕ × ℕ) };

    ghost view = { λ s. s.spans.items };
}

/// The span of a node.
fn span_at(tree: &Tree, bounds: &Bounds, i: u32) -> (u16, u16)
    requires { i < length tree.now.nodes }
    ensures { (d : NodeData) → IsSpanOf bounds.now (cell_of_node tree.now.nodes i d) result }
{
    let node = tree.node(i);
    span(&node.cell, bounds)
}

/// Whether a rank is the home of a span's cell.
fn is_home(span: (u16, u16), rank: u16) -> bool
    ensures { result ≡ (span.1 == rank) }
{
    span.1 == rank
}

/// Whether a rank lies in a span.
fn is_within(span: (u16, u16), rank: u16) -> bool
    ensures { result ≡ (nat_le span.0 rank && nat_le rank span.1) }
{
    span.0 <= rank && rank <= span.1
}

/// Whether a node is a leaf with a rank in its span.
fn is_leaf_of(tree: &Tree, i: u32, span: (u16, u16), rank: u16) -> bool
    requires { i < length tree.now.nodes }
    ensures { (d : NodeData) → result ≡ ((slice_index_or tree.now.nodes i d).moments.leaf && (nat_le span.0 rank && nat_le rank span.1)) }
{
    if !is_within(span, rank) {
        return false;
    }
    let node = tree.node(i);
    node.leaf
}

/// Whether a node is told to a receiver: its home, or where it is a leaf, a rank in its span.
fn is_told(tree: &Tree, spans: &[(u16, u16)], to: u16, i: u32) -> bool
    requires place { i < length tree.now.nodes }
    requires long { length spans.now ≡ length tree.now.nodes }
    ensures { (bounds : List ℕ) → AreSpansOf tree.now bounds spans.now → (d : NodeData) → result ≡ is_told_by bounds to (slice_index_or tree.now.nodes i d).moments }
{
    let here = spans[i as usize];
    if is_home(here, to) {
        return true;
    }
    is_leaf_of(tree, i, here, to)
}

/// How many nodes are told to a receiver.
fn count_told(tree: &Tree, spans: &[(u16, u16)], to: u16) -> usize
    requires { length spans.now ≡ length tree.now.nodes }
{
    let mut count: usize = 0;
    for i in 0..tree.len() {
        if is_told(tree, spans, to, i) {
            count = count.saturating_add(1);
        }
    }
    count
}

/// The entries of the nodes that are told to a receiver.
fn entries_told(
    alloc: Global,
    tree: &Tree,
    spans: &[(u16, u16)],
    to: u16,
) -> Result<Vec<Entry>, Memory>
    requires tree { IsOfBodies tree.now }
    requires long { length spans.now ≡ length tree.now.nodes }
    ensures { (bounds : List ℕ) → AreSpansOf tree.now bounds spans.now → IfOk result (λ entries. AreEntriesFor tree.now bounds to entries.items) }
{
    let mut entries = Vec::with_capacity(alloc, count_told(tree, spans, to))?;
    for i in 0..tree.len() {
        if is_told(tree, spans, to, i) {
            entries.push(entry_at(tree, i))?;
        }
    }
    Ok(entries)
}

impl Spans {
    /// The spans of a tree's nodes.
    pub fn of(alloc: Global, tree: &Tree, bounds: &Bounds) -> Result<Spans, Memory>
        ensures { IfOk result (AreSpansOf tree.now bounds.now) }
    {
        let mut spans = Vec::with_capacity(alloc, tree.len() as usize)?;
        for i in 0..tree.len() {
            spans.push(span_at(tree, bounds, i))?;
        }
        Ok(Spans { spans })
    }

    /// The entries that the tree gives for a receiver: of each node whose home it is, and of each leaf that has it in its
    /// span. They ascend by level, and in a level along the curve.
    pub fn entries_for(&self, alloc: Global, tree: &Tree, to: u16) -> Result<Vec<Entry>, Memory>
        requires tree { IsOfBodies tree.now }
        requires spans { (bounds : List ℕ) × AreSpansOf tree.now bounds self.now }
        ensures { (bounds : List ℕ) → AreSpansOf tree.now bounds self.now → IfOk result (λ entries. AreEntriesFor tree.now bounds to entries.items) }
    {
        entries_told(alloc, tree, &self.spans, to)
    }
}
