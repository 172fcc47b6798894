// What entries tell of a cell.
ghost use Rattle.std.specs.Prelude.{◌≡◌, ◌≤◌, ◌<◌, ◌&&◌, ◌+◌, ◌*◌, ◌%◌, ◌^◌, ◌∷◌, [], Some, nat_lt, if◌then◌else◌, length, slice_index_or, true};
ghost use Rattle.cell_space.specs.Cells.{contains, digit, place};
ghost use Rattle.node_moments.specs.Conditions.{IsOfNode};
ghost use Rattle.node_moments.specs.Joined.{joined};
ghost use Rattle.node_moments.specs.Shifted.{shifted};
ghost use Rattle.rank_laws.specs.Whole.{Whole};
ghost use Rattle.rank_laws.specs.Contents.{EntryData};
ghost use Rattle.rank_entry_laws.specs.Given.{at_one, in_either, together};
ghost use Rattle.home_cells.specs.Entries.{numbers_in};
ghost use Rattle.home_cells.specs.Tables.{IsMarkOf};
ghost use Rattle.home_cells.specs.Found.{IsHomeTable, MayJoin, part};

use crate::children::digit;
use crate::entries::Entry;
use crate::marks::{raw_at, stand_at_one};
use cell_space::Cell;
use node_moments::Raw;

/// The children of the entry at a place.
fn children_at(entries: &[Entry], i: usize) -> u8
    requires { i < length entries.now }
    ensures { (d : EntryData) → numbers_in result ≡ (slice_index_or entries.now i d).children }
{
    let entry = &entries[i];
    entry.children
}

/// Whether sums are those of a leaf around a cell in which its members lie.
fn is_around(raw: &Raw, cell: &Cell) -> bool
    ensures { result ≡ (nat_lt raw.now.cell.level cell.now.level && (at_one raw.now && contains cell.now (place raw.now.lo))) }
{
    let own = raw.cell;
    own.level < cell.level && stand_at_one(raw) && cell.contains(raw.lo)
}

/// Which child of a cell contains a position, as a bit; at level 32 none.
#[tactic(auto, using(crate::proofs::Bits::alone))]
fn child_around(pos: [u32; 3], level: u8) -> u8
    requires { level ≤ 32 }
    ensures { numbers_in result ≡ (if nat_lt level 32 then digit (place pos) level ∷ [] else []) }
{
    if level < 32 {
        return 1u8 << digit(pos, level);
    }
    0
}

/// The sums of a leaf around a cell, seen from the cell.
fn moved(raw: &Raw, cell: &Cell) -> Raw
    requires node { IsOfNode raw.now }
    requires one { at_one raw.now ≡ true }
    requires inside { contains cell.now (place raw.now.lo) ≡ true }
    ensures { result ≡ shifted raw.now cell.now }
{
    raw.shift(cell)
}

/// The entry of a leaf around a cell, seen from the cell.
fn seen_from(raw: &Raw, cell: &Cell) -> Entry
    requires node { IsOfNode raw.now }
    requires one { at_one raw.now ≡ true }
    requires inside { contains cell.now (place raw.now.lo) ≡ true }
    ensures raw { result.raw ≡ shifted raw.now cell.now }
    ensures children { result.children ≡ (if nat_lt cell.now.level 32 then digit (place raw.now.lo) cell.now.level ∷ [] else []) }
{
    Entry {
        raw: moved(raw, cell),
        children: child_around(raw.lo, cell.level),
    }
}

/// What the entry with a number tells of a cell.
pub(crate) fn part(entries: &[Entry], number: u128, cell: &Cell) -> Option<Entry>
    requires number { IsMarkOf entries.now number }
    requires told { (w : Whole) × IsHomeTable w entries.now cell.now }
    ensures { (d : EntryData) → result ≡ part cell.now (slice_index_or entries.now (number % 2 ^ 25) d) }
{
    let i = (number % (1 << 25)) as usize;
    let raw = raw_at(entries, i);
    let own = raw.cell;
    if own.same(cell) {
        let children = children_at(entries, i);
        return Some(Entry { raw, children });
    }
    if is_around(&raw, cell) {
        return Some(seen_from(&raw, cell));
    }
    None
}

/// Two entries of one cell together.
fn join(a: &Entry, b: &Entry) -> Entry
    requires { MayJoin (Some a.now) (Some b.now) }
    ensures raw { result.raw ≡ joined a.now.raw b.now.raw }
    ensures children { result.children ≡ in_either a.now.children b.now.children }
{
    let first = a.raw;
    let second = b.raw;
    Entry {
        raw: first.add(&second),
        children: a.children | b.children,
    }
}

/// Two answers on one cell together.
pub(crate) fn together(a: Option<Entry>, b: Option<Entry>) -> Option<Entry>
    requires { MayJoin a b }
    ensures { result ≡ together a b }
{
    let a = match a {
        Some(a) => a,
        None => return b,
    };
    let b = match b {
        Some(b) => b,
        None => return Some(a),
    };
    Some(join(&a, &b))
}
