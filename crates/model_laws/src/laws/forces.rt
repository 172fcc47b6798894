// What holds of forces.
ghost use Rattle.model_laws.specs.Firsts.{InteractionsByBodies, NodeTotalsByBodies};
ghost use Rattle.model_laws.specs.Laws.{CentresLieInside, ForcesAreBounded, ForcesCancel, LeavesArePoints, NodeTotalsAreBounded, OpeningIsSound, PairForcesAreBounded, SecondMomentsAreBounded, SharesAddUp, TablesCorrectLittle};

/// The shares that the members of a node get of a total add up to it.
pub fn shares_add_up()
    ensures { SharesAddUp }
{}

/// The forces on all bodies add up to zero.
pub fn forces_cancel()
    ensures { ForcesCancel }
{}

/// Over bodies in the box the opening rule is fair, so the laws of walks hold of it.
pub fn opening_is_sound()
    ensures { OpeningIsSound }
{}

/// A node's total is at most the greatest force of a pair for each body.
pub fn node_totals_are_bounded()
    ensures { NodeTotalsAreBounded }
{}

/// Forces are at most what the greatest force of a pair and the mass of all bodies allow.
pub fn forces_are_bounded()
    ensures { ForcesAreBounded }
{}

/// The centre of a node lies in it.
pub fn centres_lie_inside()
    ensures { CentresLieInside }
{}

/// A leaf's centre is the position of its members, and it has no second moments.
pub fn leaves_are_points()
    ensures { LeavesArePoints }
{}

/// The second moments of a node are at most its mass times the square of its side.
pub fn second_moments_are_bounded()
    ensures { SecondMomentsAreBounded }
{}

/// The force of each interaction is below 2^87 on each axis.
pub fn pair_forces_are_bounded()
    ensures { PairForcesAreBounded }
{}

/// A correction out of a table is at most 2^31 on each axis.
pub fn tables_correct_little()
    ensures { TablesCorrectLittle }
{}

/// The total of a cell with a body, as a sum over all bodies.
#[tactic(auto, using(crate::proofs::Firsts::node_totals_by_bodies))]
pub fn node_totals_by_bodies()
    ensures { NodeTotalsByBodies }
{}

/// The number of interactions, as that of the pairs of bodies that stand for one.
#[tactic(auto, using(crate::proofs::Firsts::interactions_by_bodies))]
pub fn interactions_by_bodies()
    ensures { InteractionsByBodies }
{}
