// The symmetries of corrections.
ghost use Rattle.ewald_table.specs.Turns.{EvenInTheOtherAxes, OddInItsOwnAxis, ZeroOnTheEdges};

/// Turned to the other side on an axis, a way has the negative correction on this axis.
pub fn odd_in_its_own_axis()
    ensures { OddInItsOwnAxis }
{}

/// Turned to the other side on an axis, a way has the same correction on the other axes.
pub fn even_in_the_other_axes()
    ensures { EvenInTheOtherAxes }
{}

/// A correction is 0 on an axis on which the way is 0 or half the box.
pub fn zero_on_the_edges()
    ensures { ZeroOnTheEdges }
{}
