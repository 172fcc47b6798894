// What ranks find together, whatever the owners of the bodies, the bounds and the order of events are.
ghost use Rattle.rank_laws.specs.Forces.{ForcesAreGathered, HomesHaveTotals, MembersAreCollected, OrdersCells, RanksCountAsMany, RanksCountInteractions, RulesAreFair, WalksReachTheirOwn};
ghost use Rattle.rank_laws.specs.Kept.{AddsTotals, FinishedHaveAll, HasCells, HasCounts, HasForces, HasMembers, KeepsEachOnce, PartsAreById};
ghost use Rattle.rank_laws.specs.Owners.{OwnersByIds};

/// Owners that are told as a list are owners by ids.
pub fn owners_are_told()
    ensures { OwnersByIds }
{}

/// Cells in order ascend by level and then by first key, and each stands there once.
pub fn cells_are_ordered()
    ensures { OrdersCells }
{}

/// The rules of a whole are fair, so that every run of its machine goes as the laws of runs say.
pub fn rules_are_fair()
    ensures { RulesAreFair }
{}

/// The pairs that a rank's walk reaches are the reached pairs with which it is concerned, and the cells that it needs are those
/// of other homes in them.
pub fn walks_reach_their_own()
    ensures { WalksReachTheirOwn }
{}

/// The ranks together count the interactions, each once, and as many.
pub fn ranks_count_interactions()
    ensures each { RanksCountInteractions }
    ensures many { RanksCountAsMany }
{}

/// What the home of a cell is sent adds up to the cell's total.
pub fn homes_have_totals()
    ensures { HomesHaveTotals }
{}

/// What the home of a wanted cell is sent are the cell's members.
pub fn members_are_collected()
    ensures { MembersAreCollected }
{}

/// What a body gets at a home is what the home gives to the ids that came to it.
pub fn parts_are_by_id()
    ensures { PartsAreById }
{}

/// What the owners of the bodies are sent adds up to the forces.
pub fn forces_are_gathered()
    ensures { ForcesAreGathered }
{}

/// In every run a rank that has a kind of all others has it of each once; in a finished machine each has all. So it adds up the
/// totals of its cells and has their members; in a finished machine the owners have the forces, and the ranks have counted as
/// many pairs as there are interactions.
pub fn ranks_keep_each_once()
    ensures once { KeepsEachOnce }
    ensures finished { FinishedHaveAll }
    ensures cells { HasCells }
    ensures totals { AddsTotals }
    ensures members { HasMembers }
    ensures counts { HasCounts }
    ensures forces { HasForces }
{}
