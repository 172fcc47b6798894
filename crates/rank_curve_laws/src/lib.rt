//! Laws of ranks whose cells have their keys along the curve, each the contract of a public function with an empty body.
#![tactic(auto)]

ghost use Rattle.rank_curve_laws.specs.Along.{CellsAreTold, CurveHasKeys, EveryDivisionIsWhole, NoDivisionShows, SetsHaveOneOrder};

/// The keys of cells along the curve nest, for all bounds of one rank and more.
pub fn curve_has_keys()
    ensures { CurveHasKeys }
{}

/// Of two different cells of the box one goes before the other, so each set of them has one order.
pub fn cells_are_told()
    ensures told { CellsAreTold }
    ensures ordered { SetsHaveOneOrder }
{}

/// Bodies that keep the limits, a rank for each and a bound for each rank are what forces may be found over.
pub fn every_division_is_whole()
    ensures { EveryDivisionIsWhole }
{}

/// Two plays over the same bodies come to the same forces and the same count, whatever owners, bounds and picks.
pub fn no_division_shows()
    ensures { NoDivisionShows }
{}
