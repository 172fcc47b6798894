//! A worked run of ranks: the check computes the definitions, and refuses an event or a size that is wrong.
#![tactic(auto)]

ghost use Rattle.rank_worked.specs.Worked.{BoundsAreTold, CellsAreNeeded, FirstPlay, LastPlay, NodesAreCounted, OneKeyIsEnough};

/// The bounds of the two ranks are the least keys of their bodies along the curve.
pub fn bounds_are_told()
    ensures { BoundsAreTold }
{}

/// The trees of two ranks over three bodies have 5 nodes and 1.
pub fn nodes_are_counted()
    ensures { NodesAreCounted }
{}

/// The ranks need 3 cells and 1 from each other.
pub fn cells_are_needed()
    ensures { CellsAreNeeded }
{}

/// Where the first enabled event is picked each time, the run has these 30 events.
pub fn first_play()
    ensures { FirstPlay }
{}

/// Where the last one is picked each time, it has these.
pub fn last_play()
    ensures { LastPlay }
{}

/// Keys may all be one: then the last rank is the home of every cell.
pub fn one_key_is_enough()
    ensures { OneKeyIsEnough }
{}
