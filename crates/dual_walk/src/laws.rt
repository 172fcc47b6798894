// What holds of walks by the opening rule and the forces of a gravity.
ghost use Rattle.dual_walk.specs.Gravities.{AddsTotals, TakesInteractions};

/// A walk by the opening rule takes the interactions of the bodies.
pub fn takes_interactions()
    ensures { TakesInteractions }
{}

/// A walk by the opening rule and the forces of a gravity adds each node's total to its place, where it takes all.
pub fn adds_totals()
    ensures { AddsTotals }
{}
