// What whole steps and sessions conserve.
ghost use Rattle.model_laws.specs.Conserved.{ContinuesConserve, EvolvesConserve, SessionsConserve};
ghost use Rattle.model_laws.specs.Nests.{ContinueFinishes};
ghost use Rattle.model_laws.specs.Rests.{StepsGoOn};
ghost use Rattle.model_laws.specs.Resumed.{SessionsGoOn};

/// A step conserves ids, kinds, masses and the momentum of all bodies together, and each of its kicks tells that
/// momentum, however it ends.
pub fn evolves_conserve()
    ensures { EvolvesConserve }
{}

/// The rest of a base step conserves the same.
pub fn continues_conserve()
    ensures { ContinuesConserve }
{}

/// Every session conserves the same, also one that is stopped or refused.
pub fn sessions_conserve()
    ensures { SessionsConserve }
{}

/// A step that was stopped at a resting point goes on by the rest of its unfinished evolves, and ends as it would have
/// without the stop.
pub fn steps_go_on()
    ensures { StepsGoOn }
{}

/// What is left of a base step that was stopped at a resting point is finished from its bodies and their depths alone,
/// as the step would have gone on.
pub fn continue_finishes()
    ensures { ContinueFinishes }
{}

/// A session that is resumed from the restart file of a state of a run from tick 0, at a synchronisation or at a resting
/// point, has the later snapshots and kicks and the end of that run without a stop.
pub fn sessions_go_on()
    ensures { SessionsGoOn }
{}
