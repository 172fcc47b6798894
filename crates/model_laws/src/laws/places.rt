// Forces don't look at momenta, and a kick changes nothing else.
ghost use Rattle.model_laws.specs.Still.{KicksMoveNothing, MomentaDontMatter, PartsInPlace};

/// The forces among bodies and their interactions are the same whatever their momenta.
pub fn momenta_dont_matter()
    ensures { MomentaDontMatter }
{}

/// A kick moves no body.
#[tactic(auto, using(crate::proofs::Still::kicks_move_nothing))]
pub fn kicks_move_nothing()
    ensures { KicksMoveNothing }
{}

/// Parts of the same bodies by their ids are the same bodies.
#[tactic(auto, using(crate::proofs::Still::parts_in_place))]
pub fn parts_in_place()
    ensures { PartsInPlace }
{}
