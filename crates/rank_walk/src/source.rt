// What tells a rank of cells.
ghost use Rattle.nbody_model.specs.Tables.{Gravity};
ghost use Rattle.rank_walk.specs.Seats.{EachSeat, IsSeatBy, IsTold, Seat, SomeSeat, Stands};
ghost use Rattle.rank_walk.specs.Sources.{AreSeatsBy, TellsOf};

use crate::Told;
use cell_space::Cell;

/// What tells a rank of cells: what it knows as a home, the keys, and the bounds of the ranks. Replies aren't looked at.
pub trait Source {
    /// The gravity by which forces are found.
    ghost gravity: { Self → Gravity };

    /// The ranks to which what it tells is true.
    ghost serves: { Self → Seat → Type 0 };

    /// What there is to be told of a cell that stands.
    fn told(&self, cell: Cell) -> Told
        requires { SomeSeat (serves self.now) (Stands cell) }
        ensures { EachSeat (serves self.now) (TellsOf cell result) };

    /// Each is a seat, and has this gravity.
    ghost seated: { AreSeatsBy gravity serves };
}
