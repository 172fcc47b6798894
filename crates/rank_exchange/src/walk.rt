// A rank's walk as an act, and the answers that it awaits.
ghost use Rattle.std.specs.Prelude.{◌≡◌, IfOk, OnOk};
ghost use Rattle.cell_space.specs.Cells.{CellData};
ghost use Rattle.rank_laws.specs.Machine.{Rank as RankOf, Walk, after, fresh};
ghost use Rattle.rank_laws.specs.Told.{size_by};
ghost use Rattle.rank_laws.specs.Whole.{rules_of};
ghost use Rattle.rank_walk.specs.Seats.{IsServing, Seat};
ghost use Rattle.rank_walk.specs.Walkers.{IsWalker, replied};
ghost use Rattle.rank_exchange.specs.Moments.{Moment, state_at};
ghost use Rattle.rank_exchange.specs.Posts.{Answers, Serves};
ghost use Rattle.rank_exchange.specs.Ranks.{KeepsWalk, seat_at};
ghost use Rattle.rank_exchange.specs.Walks.{AwaitsAnswer, WalksNext};

use crate::post::{Post, known_of};
use cell_space::Cell;
use fixed_point::Memory;
use hilbert_keys::cell_key_range;
use home_cells::Entry;
use rank_walk::{Walked, Walker, walk_by_rule};
use std::alloc::Global;

/// What is kept for a walk, or a new one before the first.
fn begun(alloc: Global, post: &Post, walker: Option<Walker>) -> Result<Walker, Memory>
    requires { IsServing (Serves post.now) }
    ensures { (z : Seat) (s : RankOf) → Serves post.now z → KeepsWalk z s walker → IfOk result (IsWalker z s) }
{
    match walker {
        Some(walker) => Ok(walker),
        None => {
            let walker = Walker::new(alloc, post)?;
            Ok(walker)
        }
    }
}

/// A walk: works off the pairs whose cells are known, and says how many interactions it counted and which cells to ask for.
/// After want of memory nothing is kept.
pub(crate) fn walk(
    alloc: Global,
    post: &Post,
    walker: &mut Option<Walker>,
) -> Result<Walked, Memory>
    requires { (m : Moment) × WalksNext m post.now walker.old }
    ensures state { OnOk result ((m : Moment) → WalksNext m post.now walker.old → KeepsWalk (seat_at m) (after (rules_of m.whole) m.rank (state_at m) Walk) walker.new) }
    ensures size { IfOk result (λ v. (m : Moment) → WalksNext m post.now walker.old → v.size ≡ size_by m.whole m.rank (state_at m) Walk) }
    ensures asks { IfOk result (λ v. (m : Moment) → WalksNext m post.now walker.old → v.asks.items ≡ fresh (rules_of m.whole) m.rank (state_at m)) }
{
    let mut at = begun(alloc, post, walker.take())?;
    let walked = walk_by_rule(&mut at, alloc, post.setup, post.corrections, post)?;
    *walker = Some(at);
    Ok(walked)
}

/// An answer comes: what the home of a cell says of it.
fn hear(walker: &mut Walker, cell: Cell, answer: Option<Entry>)
    requires { (z : Seat) × ((s : RankOf) × AwaitsAnswer z s walker.old cell answer) }
    ensures { (z : Seat) (s : RankOf) → AwaitsAnswer z s walker.old cell answer → IsWalker z (replied s cell) walker.new }
{
    let (first, _last) = cell_key_range(&cell);
    walker.hear(cell, first, known_of(answer));
}

/// The cell that an answer is on: that of its sums, or the root where there are no bodies at all.
fn cell_of(answer: &Option<Entry>) -> Cell
    ensures { (z : Seat) (c : CellData) → Answers z c answer.now → result ≡ c }
{
    match answer {
        Some(entry) => entry.raw.cell,
        None => Cell::root(),
    }
}

/// An answer comes, with no word of the cell beside.
pub(crate) fn hear_answer(walker: &mut Walker, answer: Option<Entry>)
    requires { (z : Seat) × ((s : RankOf) × ((c : CellData) × AwaitsAnswer z s walker.old c answer)) }
    ensures { (z : Seat) (s : RankOf) (c : CellData) → AwaitsAnswer z s walker.old c answer → IsWalker z (replied s c) walker.new }
{
    let cell = cell_of(&answer);
    hear(walker, cell, answer);
}
