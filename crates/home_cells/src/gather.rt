// What all kept entries tell of a cell.
ghost use Rattle.std.specs.Prelude.{◌≡◌, ◌≤◌, ◌<◌, ◌+◌, ◌*◌, ◌^◌, None};
ghost use Rattle.cell_space.specs.Cells.{CellData};
ghost use Rattle.rank_laws.specs.Whole.{Whole};
ghost use Rattle.rank_laws.specs.Contents.{EntryData, reply_sent};
ghost use Rattle.home_cells.specs.Tables.{IsOrderOf};
ghost use Rattle.home_cells.specs.Found.{IsHomeTable, gathered_below};

use crate::entries::Entry;
use crate::found::{part, together};
use crate::marks::code_of;
use cell_space::{Cell, cell_of};
use domain_split::count_below;
use hilbert_keys::is_of_box;

/// How many numbers the entries of one mark have.
const PLACES: u128 = 1 << 25;

/// The entries of a table, and their numbers, the smallest first.
#[derive(Clone, Copy)]
pub(crate) struct Kept<'a> {
    pub entries: &'a [Entry],
    pub order: &'a [u128],
}

/// What the entries with numbers from one to another tell of a cell, behind what those below tell.
fn gather(kept: &Kept, cell: &Cell, low: u128, high: u128, sum: Option<Entry>) -> Option<Entry>
    requires order { IsOrderOf kept.now.entries.now kept.now.order.now }
    requires told { (w : Whole) × IsHomeTable w kept.now.entries.now cell.now }
    requires bounds { low ≤ high }
    requires sum { (d : EntryData) → sum ≡ gathered_below cell.now kept.now.entries.now kept.now.order.now d low }
    ensures { (d : EntryData) → result ≡ gathered_below cell.now kept.now.entries.now kept.now.order.now d high }
{
    is_of_box(cell);
    let mut sum = sum;
    let mut k = count_below(kept.order, low);
    while k < kept.order.len() && kept.order[k] < high {
        sum = together(sum, part(kept.entries, kept.order[k], cell));
        k += 1;
    }
    sum
}

/// What the leaves of a level around a cell tell of it, behind what the levels above tell.
fn gather_level(kept: &Kept, cell: &Cell, level: u8, sum: Option<Entry>) -> Option<Entry>
    requires order { IsOrderOf kept.now.entries.now kept.now.order.now }
    requires told { (w : Whole) × IsHomeTable w kept.now.entries.now cell.now }
    requires level { level < cell.now.level }
    requires sum { (d : EntryData) → sum ≡ gathered_below cell.now kept.now.entries.now kept.now.order.now d (level * 2 ^ 122) }
    ensures { (d : EntryData) → result ≡ gathered_below cell.now kept.now.entries.now kept.now.order.now d ((level + 1) * 2 ^ 122) }
{
    is_of_box(cell);
    let low = (code_of(&cell_of(cell.corner, level)) * 2 + 1) * PLACES;
    gather(kept, cell, low, low + PLACES, sum)
}

/// What the entries of the cell itself tell of it, behind what the levels above tell.
fn gather_last(kept: &Kept, cell: &Cell, sum: Option<Entry>) -> Option<Entry>
    requires order { IsOrderOf kept.now.entries.now kept.now.order.now }
    requires told { (w : Whole) × IsHomeTable w kept.now.entries.now cell.now }
    requires sum { (d : EntryData) → sum ≡ gathered_below cell.now kept.now.entries.now kept.now.order.now d (cell.now.level * 2 ^ 122) }
    ensures { (w : Whole) → IsHomeTable w kept.now.entries.now cell.now → result ≡ reply_sent w cell.now }
{
    is_of_box(cell);
    let low = code_of(cell) * (2 * PLACES);
    gather(kept, cell, low, low + 2 * PLACES, sum)
}

/// What all entries tell of a cell.
pub(crate) fn gather_all(kept: &Kept, cell: &Cell) -> Option<Entry>
    requires order { IsOrderOf kept.now.entries.now kept.now.order.now }
    requires told { (w : Whole) × IsHomeTable w kept.now.entries.now cell.now }
    ensures { (w : Whole) → IsHomeTable w kept.now.entries.now cell.now → result ≡ reply_sent w cell.now }
{
    is_of_box(cell);
    let mut sum = None;
    for level in 0..cell.level {
        sum = gather_level(kept, cell, level, sum);
    }
    gather_last(kept, cell, sum)
}
