// What a walk over pairs of nodes finds.
ghost use Rattle.model_laws.specs.Laws.{OrderIsFree, WalkFindsInteractions, WalkReachesVisited, WalkVisitsVisited};

/// A walk over pairs of nodes finds each interaction once, and nothing else.
pub fn finds_interactions()
    ensures { WalkFindsInteractions }
{}

/// A walk over pairs of nodes looks at each visited pair once, and at no other pair of different nodes.
pub fn visits_visited()
    ensures { WalkVisitsVisited }
{}

/// The pairs of different nodes among those that a walk reaches are the visited pairs, each once.
pub fn reaches_visited()
    ensures { WalkReachesVisited }
{}

/// In whatever order the children of each node come, a walk finds each interaction once and looks at each visited pair once.
pub fn order_is_free()
    ensures { OrderIsFree }
{}
