// What a rank builds of its own bodies.
ghost use Rattle.std.specs.Prelude.{◌≡◌, ◌<◌, IfOk, length, map};
ghost use Rattle.std.specs.List.{AllByRecursion};
ghost use Rattle.home_cells.specs.Entries.{IsOfRank};
ghost use Rattle.octree_build.specs.Trees.{IsOfBodies};
ghost use Rattle.rank_laws.specs.Machine.{Table, message as without_cell};
ghost use Rattle.rank_laws.specs.Whole.{Whole};
ghost use Rattle.rank_exchange.specs.Built.{AreOfRank, IsBuilt};
ghost use Rattle.rank_exchange.specs.Messages.{filled};

use crate::mail::table;
use crate::message::Message;
use domain_split::Bounds;
use fixed_point::Memory;
use home_cells::{Entry, entries_for};
use nbody_model::Body;
use octree_build::Tree;
use std::alloc::Global;

/// What a rank builds: how many nodes its tree has, the entries for the homes of others, and those for its own home.
#[derive(Drop)]
pub(crate) struct Built {
    pub(crate) size: u64,
    pub(crate) messages: Vec<Message>,
    pub(crate) kept: Vec<Entry>,
}

/// The entries of a rank's tree for each of these homes.
fn all_tables(
    alloc: Global,
    tree: &Tree,
    bounds: &Bounds,
    rank: u16,
    to: &[u16],
) -> Result<Vec<Message>, Memory>
    requires tree { IsOfBodies tree.now }
    requires homes { AllByRecursion (λ q. q < length bounds.now) to.now }
    ensures { (w : Whole) → IsOfRank w rank tree.now bounds.now → IfOk result (λ sent. sent.items ≡ map (λ q. filled w (without_cell Table rank q)) to.now) }
{
    let mut sent = Vec::with_capacity(alloc, to.len())?;
    for i in 0..to.len() {
        sent.push(table(alloc, tree, bounds, rank, to[i])?)?;
    }
    Ok(sent)
}

/// The tree of a rank's own bodies, as it is told to these homes and to its own.
pub(crate) fn build(
    alloc: Global,
    bodies: &[Body],
    soft: &[u32; 6],
    bounds: &Bounds,
    rank: u16,
    to: &[u16],
) -> Result<Built, Memory>
    requires own { (w : Whole) × AreOfRank w rank bodies.now soft.now bounds.now }
    requires rank { rank < length bounds.now }
    requires homes { AllByRecursion (λ q. q < length bounds.now) to.now }
    ensures { (w : Whole) → AreOfRank w rank bodies.now soft.now bounds.now → IfOk result (λ b. IsBuilt w rank to.now b.size b.messages.items b.kept.items) }
{
    let tree = octree_build::build(alloc, bodies, soft)?;
    let messages = all_tables(alloc, &tree, bounds, rank, to)?;
    let kept = entries_for(alloc, &tree, bounds, rank)?;
    Ok(Built {
        size: tree.len() as u64,
        messages,
        kept,
    })
}
