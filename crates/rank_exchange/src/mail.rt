// Messages made of what a rank has.
ghost use Rattle.std.specs.Prelude.{◌≡◌, ◌<◌, ℕ, IfOk, List, length};
ghost use Rattle.home_cells.specs.Entries.{IsOfRank};
ghost use Rattle.home_cells.specs.Found.{IsHomeTable};
ghost use Rattle.nbody_model.specs.Bodies.{BodyData};
ghost use Rattle.octree_build.specs.Trees.{IsOfBodies};
ghost use Rattle.rank_laws.specs.Machine.{Members, Parts, Table, Want, message as without_cell};
ghost use Rattle.rank_laws.specs.Contents.{wanted};
ghost use Rattle.rank_laws.specs.Whole.{Whole, own, ranks_of};
ghost use Rattle.rank_exchange.specs.Came.{HandsOut, home_totals};
ghost use Rattle.rank_exchange.specs.Members.{AreOwn};
ghost use Rattle.rank_exchange.specs.Sums.{cells_in};
ghost use Rattle.rank_exchange.specs.Messages.{filled, reply_to};
ghost use Rattle.rank_exchange.specs.Moments.{Moment};

use crate::contents::{Load, Summed};
use crate::handed::handed_to;
use crate::keyed::Keyed;
use crate::members::members_of;
use crate::message::Message;
use cell_space::Cell;
use domain_split::Bounds;
use fixed_point::Memory;
use home_cells::{HomeTable, entries_for};
use nbody_model::{Body, EventKind};
use octree_build::Tree;
use std::alloc::Global;

/// What the home of a cell answers to a rank that asked for it.
pub(crate) fn reply(table: &HomeTable, home: u16, asker: u16, cell: Cell) -> Message
    requires { (w : Whole) × IsHomeTable w table.now cell }
    ensures { (w : Whole) → IsHomeTable w table.now cell → result ≡ filled w (reply_to home asker cell) }
{
    Message {
        kind: EventKind::Reply,
        from: home,
        to: asker,
        load: Load::Answer(table.at(&cell)),
    }
}

/// The parts that a home owes to a rank, out of the sums of the shares that it made.
pub(crate) fn parts(alloc: Global, sums: &[Keyed], home: u16, owner: u16) -> Result<Message, Memory>
    ensures { (m : Moment) → HandsOut m sums.now → m.rank ≡ home → owner < ranks_of m.whole → IfOk result (λ sent. sent ≡ filled m.whole (without_cell Parts home owner)) }
{
    let given = handed_to(alloc, sums, owner)?;
    Ok(Message {
        kind: EventKind::Parts,
        from: home,
        to: owner,
        load: Load::Shares(given),
    })
}

/// What a rank tells the home of cells of its own bodies.
pub(crate) fn table(
    alloc: Global,
    tree: &Tree,
    bounds: &Bounds,
    rank: u16,
    home: u16,
) -> Result<Message, Memory>
    requires tree { IsOfBodies tree.now }
    requires home { home < length bounds.now }
    ensures { (w : Whole) → IsOfRank w rank tree.now bounds.now → IfOk result (λ sent. sent ≡ filled w (without_cell Table rank home)) }
{
    let entries = entries_for(alloc, tree, bounds, home)?;
    Ok(Message {
        kind: EventKind::Table,
        from: rank,
        to: home,
        load: Load::Entries(entries),
    })
}

/// The own bodies of a rank, in the order of the curve, that lie in the cells that a home wants.
pub(crate) fn listed(
    alloc: Global,
    bodies: &[Body],
    cells: &[Cell],
    rank: u16,
    home: u16,
) -> Result<Message, Memory>
    requires { (B : List BodyData) × AreOwn B bodies.now }
    ensures { (w : Whole) → AreOwn (own w rank) bodies.now → cells.now ≡ wanted w home → IfOk result (λ sent. sent ≡ filled w (without_cell Members rank home)) }
{
    let members = members_of(alloc, bodies, cells)?;
    Ok(Message {
        kind: EventKind::Members,
        from: rank,
        to: home,
        load: Load::Members(members),
    })
}

/// The cell of a total.
fn cell_of(total: &Summed) -> Cell
    ensures { result ≡ total.now.cell }
{
    total.cell
}

/// The cells of totals.
pub(crate) fn cells_of(alloc: Global, totals: &[Summed]) -> Result<Vec<Cell>, Memory>
    ensures { IfOk result (λ cells. cells.items ≡ cells_in totals.now) }
{
    let mut cells = Vec::with_capacity(alloc, totals.len())?;
    for total in totals {
        cells.push(cell_of(total))?;
    }
    Ok(cells)
}

/// The cells of a home whose members it wants of a rank, by their totals.
pub(crate) fn want(
    alloc: Global,
    totals: &[Summed],
    home: u16,
    rank: u16,
) -> Result<Message, Memory>
    ensures { (w : Whole) → totals.now ≡ home_totals w home → IfOk result (λ sent. sent ≡ filled w (without_cell Want home rank)) }
{
    let cells = cells_of(alloc, totals)?;
    Ok(Message {
        kind: EventKind::Want,
        from: home,
        to: rank,
        load: Load::Cells(cells),
    })
}
