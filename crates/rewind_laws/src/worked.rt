// Worked cases: what the definitions give for small lists of bodies.
ghost use Rattle.rewind_laws.specs.Worked.{MomentumBefore, OneStepBack, OthersWereFast, TwoBinsBack, TwoBinsFile};

/// A run of one base step, with a drift of -1, leads back to its first bodies.
#[tactic(auto, using(crate::proofs::Computed::one_step_back))]
pub fn one_step_back()
    ensures { OneStepBack }
{}

/// So does a run of two bodies with two bins.
#[tactic(auto, using(crate::proofs::Computed::two_bins_back))]
pub fn two_bins_back()
    ensures { TwoBinsBack }
{}

/// Where other bodies were fast than was told, that is met.
#[tactic(auto, using(crate::proofs::Computed::others_were_fast))]
pub fn others_were_fast()
    ensures { OthersWereFast }
{}

/// A momentum that was out of range before a kick is met.
#[tactic(auto, using(crate::proofs::Computed::momentum_before))]
pub fn momentum_before()
    ensures { MomentumBefore }
{}

/// What the bin file of the run with two bins spells, and the first faults of two others.
#[tactic(auto, using(crate::proofs::Computed::two_bins_file))]
pub fn two_bins_file()
    ensures { TwoBinsFile }
{}
