// What holds of cells, chains and covers.
ghost use Rattle.model_laws.specs.Laws.{ChainsAreDisjoint, EachTwoHaveOneCover, InteractionsAreFinal, MembersPart, PairsOfNodes, PartnersAreDisjoint, PartnersAreFew};

/// Each member of a cell is a member of exactly one of its children, and there are no others.
pub fn members_part()
    ensures { MembersPart }
{}

/// Two different cells on a chain have nothing in common.
pub fn chains_are_disjoint()
    ensures { ChainsAreDisjoint }
{}

/// Two bodies at different positions have exactly one cover.
pub fn each_two_have_one_cover()
    ensures { EachTwoHaveOneCover }
{}

/// The partners of a node have nothing in common.
pub fn partners_are_disjoint()
    ensures { PartnersAreDisjoint }
{}

/// A node has at most as many interactions as there are bodies.
pub fn partners_are_few()
    ensures { PartnersAreFew }
{}

/// Interactions and visited pairs are pairs of nodes with nothing in common, and none stands twice.
pub fn pairs_of_nodes()
    ensures { PairsOfNodes }
{}

/// Each interaction is final: two leaves, or an accepted pair.
pub fn interactions_are_final()
    ensures { InteractionsAreFinal }
{}
