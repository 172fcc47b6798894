// The laws of homes, as contracts.
ghost use Rattle.domain_split.specs.Laws.{HomesLieInSpans, HomesRise};

/// The home of a cell lies in the span of each cell around it.
pub fn homes_lie_in_spans()
    ensures { HomesLieInSpans }
{}

/// Homes don't fall along the curve.
pub fn homes_rise()
    ensures { HomesRise }
{}
