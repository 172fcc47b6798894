// What tells a rank of cells, and what it makes of answers.
ghost use Rattle.std.specs.Prelude.{◌≡◌, ◌&&◌, List, Some, nat_le};
ghost use Rattle.cell_space.specs.Cells.{CellData};
ghost use Rattle.home_cells.specs.Entries.{numbers_in};
ghost use Rattle.nbody_model.specs.Bodies.{BodyData};
ghost use Rattle.nbody_model.specs.Moments.{moments};
ghost use Rattle.nbody_model.specs.Setups.{SetupData};
ghost use Rattle.node_moments.specs.Conditions.{IsOfNode, IsSumOf};
ghost use Rattle.rank_walk.specs.Seats.{IsKnown, Seat};
ghost use Rattle.rank_exchange.specs.Posts.{Answers, Asks, IsKnownAt};

use cell_space::Cell;
use domain_split::{Bounds, span};
use ewald_table::Table;
use hilbert_keys::cell_key_range;
use home_cells::{Entry, HomeTable};
use nbody_model::Setup;
use rank_walk::{Known, Source, Told};

/// Where a rank stands among all: its number, where the ranks begin along the curve, the entries that it has as a home, and
/// what forces are found by.
#[derive(Drop)]
pub(crate) struct Post<'a> {
    pub(crate) setup: &'a Setup,
    pub(crate) corrections: Option<&'a Table>,
    pub(crate) number: u16,
    pub(crate) bounds: &'a Bounds,
    pub(crate) table: &'a HomeTable,
}

/// What is known of a cell by the sums of all bodies in it.
fn known_by(entry: Entry) -> Known
    requires { IsOfNode entry.raw }
    ensures moments { (s : SetupData) (B : List BodyData) → IsSumOf s B entry.raw → result.moments ≡ Some (moments s B entry.raw.cell) }
    ensures below { numbers_in result.below ≡ entry.children }
{
    Known {
        moments: Some(entry.raw.moments()),
        below: entry.children,
    }
}

/// What is known of a cell by the answer of its home; none comes where there are no bodies.
pub(crate) fn known_of(entry: Option<Entry>) -> Known
    requires { (z : Seat) × ((c : CellData) × Answers z c entry) }
    ensures { (z : Seat) (c : CellData) → Answers z c entry → IsKnown z c result }
{
    match entry {
        Some(entry) => known_by(entry),
        None => Known {
            moments: None,
            below: 0,
        },
    }
}

/// What a rank knows of a cell of this home, if that is itself.
#[tactic(auto, using(crate::proofs::Telling::unknown_here))]
fn known_at(post: &Post, cell: &Cell, home: u16) -> Option<Known>
    requires { (z : Seat) × Asks post.now cell.now home z }
    ensures { (z : Seat) → Asks post.now cell.now home z → IsKnownAt z cell.now result }
{
    if home != post.number {
        return None;
    }
    Some(known_of(post.table.at(cell)))
}

/// Whether a rank lies in a span.
fn lies_in(rank: u16, from: u16, home: u16) -> bool
    ensures { result ≡ (nat_le from rank && nat_le rank home) }
{
    from <= rank && rank <= home
}

impl<'a> Source for Post<'a> {
    ghost use Rattle.rank_exchange.specs.Posts.{Serves, gravity_of, are_seats};

    ghost gravity = { gravity_of };

    ghost serves = { Serves };

    ghost seated = { are_seats };

    fn told(&self, cell: Cell) -> Told {
        let (from, home) = span(&cell, self.bounds);
        let (first, _last) = cell_key_range(&cell);
        Told {
            known: known_at(self, &cell, home),
            mine: lies_in(self.number, from, home),
            home,
            first,
        }
    }
}
