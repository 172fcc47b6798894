// What holds of kicks and drifts.
ghost use Rattle.model_laws.specs.Laws.{ChangesCancel, DriftKeepsMomenta, FactorsAreBounded, KickKeepsTotal};

/// A kick whose changes add up to zero keeps the momentum of all bodies together.
pub fn kick_keeps_total()
    ensures { KickKeepsTotal }
{}

/// The changes of a kick add up to zero.
pub fn changes_cancel()
    ensures { ChangesCancel }
{}

/// A drift keeps each momentum.
pub fn drift_keeps_momenta()
    ensures { DriftKeepsMomenta }
{}

/// The factors of kicks and of drifts lie between 0 and the ticks between.
pub fn factors_are_bounded()
    ensures { FactorsAreBounded }
{}
