// What a home keeps.
ghost use Rattle.std.specs.Prelude.{◌≡◌, ◌≤◌, ◌+◌, ◌^◌, ◌++◌, [], OnErr, OnOk, length};
ghost use Rattle.rank_laws.specs.Whole.{Whole};
ghost use Rattle.rank_laws.specs.Contents.{reply_sent};
ghost use Rattle.home_cells.specs.Tables.{IsOrderOf};
ghost use Rattle.home_cells.specs.Found.{IsHomeTable};

use crate::entries::Entry;
use crate::gather::{Kept, gather_all};
use crate::marks::order_with;
use cell_space::Cell;
use fixed_point::Memory;
use std::alloc::Global;
use std::marker::Model;

/// How many entries a table has room for.
const LIMIT: usize = 1 << 25;

/// The entries that a home has kept, in the order in which they came. They are found by their cells.
#[derive(Drop)]
pub struct HomeTable {
    entries: Vec<Entry>,
    order: Vec<u128>,
}

impl Model for HomeTable {
    ghost use Rattle.std.specs.Prelude.{List};
    ghost use Rattle.rank_laws.specs.Contents.{EntryData};
    ghost use Rattle.home_cells.specs.Tables.{IsOrderOf};

    ghost Value = { List EntryData };

    ghost view = { λ t. t.entries.items };

    ghost invariant = { λ t. IsOrderOf t.entries.items t.order.items };
}

/// Makes room for more entries. Where they have to move, there is room for a sixteenth more, so that many ranks' entries
/// aren't moved again and again.
fn make_room(entries: &mut Vec<Entry>, more: usize) -> Result<(), Memory>
    ensures { entries.new.items ≡ entries.old.items }
{
    let room = entries.capacity().saturating_sub(entries.len());
    if more <= room {
        return Ok(());
    }
    entries.reserve_exact(more.max(entries.len() / 16))?;
    Ok(())
}

/// Puts more entries behind others.
fn append(entries: &mut Vec<Entry>, more: Vec<Entry>) -> Result<(), Memory>
    ensures ok { OnOk result (entries.new.items ≡ entries.old.items ++ more.items) }
    ensures err { OnErr result (entries.new.items ≡ entries.old.items) }
{
    let mut more = more;
    make_room(entries, more.len())?;
    entries.append(&mut more)?;
    Ok(())
}

impl HomeTable {
    /// A table that has kept nothing.
    pub fn new(alloc: Global) -> HomeTable
        ensures { result ≡ [] }
    {
        HomeTable {
            entries: Vec::new(alloc),
            order: Vec::new(alloc),
        }
    }

    /// Keeps the entries of one rank. After want of memory the table is as before; it also comes where there would be more
    /// than 2^25 entries.
    pub fn keep(&mut self, alloc: Global, entries: Vec<Entry>) -> Result<(), Memory>
        ensures ok { OnOk result (self.new ≡ self.old ++ entries.items) }
        ensures err { OnErr result (self.new ≡ self.old) }
    {
        if entries.len() > LIMIT {
            return Err(Memory);
        }
        if self.entries.len() > LIMIT - entries.len() {
            return Err(Memory);
        }
        let order = order_with(alloc, &self.order, &self.entries, &entries)?;
        append(&mut self.entries, entries)?;
        self.order = order;
        Ok(())
    }

    /// The sums of all bodies in a cell and its children that have any, or none where it has no member. The table has the
    /// entries that all ranks sent to the home of the cell. It takes no memory, and a search for each level.
    pub fn at(&self, cell: &Cell) -> Option<Entry>
        requires { (w : Whole) × IsHomeTable w self.now cell.now }
        ensures { (w : Whole) → IsHomeTable w self.now cell.now → result ≡ reply_sent w cell.now }
    {
        let kept = Kept {
            entries: &self.entries,
            order: &self.order,
        };
        gather_all(&kept, cell)
    }
}
