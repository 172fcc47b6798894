// Worked cases: what the definitions give for small lists of bodies.
ghost use Rattle.model_laws.specs.Worked.{AcceptedAndNot, BinsText, ByFactors, Corrections, FitsAtEdge, ForcesAcross, ForcesAtHalf, ForcesOfLeaf, ForcesOfTwo, ForcesOpened, FourSteps, MomentumRefused, OneStep, ResumedInside, SharesOfMinusSeven, StepRefused, StoppedInside, TextsOfNothing, TwoBins, TwoBinsAsked};

/// Two bodies 1000 apart attract each other by 999889.
#[tactic(auto, using(crate::proofs::Computed::forces_of_two))]
pub fn forces_of_two()
    ensures { ForcesOfTwo }
{}

/// Two bodies 1000 apart across the edge of the box do the same.
#[tactic(auto, using(crate::proofs::Computed::forces_across))]
pub fn forces_across()
    ensures { ForcesAcross }
{}

/// Half the box apart the body of smaller corner is drawn to the lower side, and the other one against it.
#[tactic(auto, using(crate::proofs::Computed::forces_at_half))]
pub fn forces_at_half()
    ensures { ForcesAtHalf }
{}

/// Three bodies at one position share a force of 2, the smaller ids first.
#[tactic(auto, using(crate::proofs::Computed::forces_of_leaf))]
pub fn forces_of_leaf()
    ensures { ForcesOfLeaf }
{}

/// Two bodies far enough from a third act on it as a whole.
#[tactic(auto, using(crate::proofs::Computed::forces_opened))]
pub fn forces_opened()
    ensures { ForcesOpened }
{}

/// There are two interactions then, and three where both sides of the opening rule are equal.
#[tactic(auto, using(crate::proofs::Computed::accepted_and_not))]
pub fn accepted_and_not()
    ensures { AcceptedAndNot }
{}

/// The shares of -7 among three equal members are -2, -2 and -3.
#[tactic(auto, using(crate::proofs::Computed::shares_of_minus_seven))]
pub fn shares_of_minus_seven()
    ensures { SharesOfMinusSeven }
{}

/// A table's correction at a point of its grid and half way to it on the other side.
#[tactic(auto, using(crate::proofs::Computed::corrections))]
pub fn corrections()
    ensures { Corrections }
{}

/// A force of 999904 fits a bin, and one of 999905 doesn't.
#[tactic(auto, using(crate::proofs::Computed::fits_at_edge))]
pub fn fits_at_edge()
    ensures { FitsAtEdge }
{}

/// One base step of two bodies.
#[tactic(auto, using(crate::proofs::Computed::one_step))]
pub fn one_step()
    ensures { OneStep }
{}

/// The same step where a table lets only its second kick count.
#[tactic(auto, using(crate::proofs::Computed::by_factors))]
pub fn by_factors()
    ensures { ByFactors }
{}

/// Two bodies that don't fit the top bin make two finer steps, with six kicks.
#[tactic(auto, using(crate::proofs::Computed::two_bins))]
pub fn two_bins()
    ensures { TwoBins }
{}

/// Three forces are asked in that step, since known ones aren't asked again.
#[tactic(auto, using(crate::proofs::Computed::two_bins_asked))]
pub fn two_bins_asked()
    ensures { TwoBinsAsked }
{}

/// Where no bin is short enough the run ends before its first kick.
#[tactic(auto, using(crate::proofs::Computed::step_refused))]
pub fn step_refused()
    ensures { StepRefused }
{}

/// A momentum that would leave its range ends the run after the snapshot of tick 0.
#[tactic(auto, using(crate::proofs::Computed::momentum_refused))]
pub fn momentum_refused()
    ensures { MomentumRefused }
{}

/// Stopped inside a base step, a run is in a rest state with a depth for each body.
#[tactic(auto, using(crate::proofs::Computed::stopped_inside))]
pub fn stopped_inside()
    ensures { StoppedInside }
{}

/// Resumed from there it makes the later kicks and ends as if it hadn't been stopped.
#[tactic(auto, using(crate::proofs::Computed::resumed_inside))]
pub fn resumed_inside()
    ensures { ResumedInside }
{}

/// Four base steps with listed times and restart files: what is written, and when.
#[tactic(auto, using(crate::proofs::Computed::four_steps))]
pub fn four_steps()
    ensures { FourSteps }
{}

/// The kick lines of a run without bodies, and names of three digits and more.
#[tactic(auto, using(crate::proofs::Computed::texts_of_nothing))]
pub fn texts_of_nothing()
    ensures { TextsOfNothing }
{}

/// The length of a bin file.
#[tactic(auto, using(crate::proofs::Computed::bins_text))]
pub fn bins_text()
    ensures { BinsText }
{}
