// The laws of the curve, as contracts.
ghost use Rattle.hilbert_keys.specs.Laws.{CellsAreRanges, ChildrenAreNext, EachChildHasPlace, KeysTellCells, NeighboursFollow, RangesPart};

/// Two positions share the cell of a level exactly where their keys share their first digits.
pub fn keys_tell_cells()
    ensures { KeysTellCells }
{}

/// A cell contains exactly the positions whose keys begin with its number.
pub fn cells_are_ranges()
    ensures { CellsAreRanges }
{}

/// The child at place w of a cell has the number after 8 times the cell's.
pub fn children_are_next()
    ensures { ChildrenAreNext }
{}

/// Each child of a cell stands at one place along the curve.
pub fn each_child_has_place()
    ensures { EachChildHasPlace }
{}

/// The keys of the children part those of their cell, in the order of the curve.
pub fn ranges_part()
    ensures { RangesPart }
{}

/// Positions of consecutive keys differ by 1 on one axis.
pub fn neighbours_follow()
    ensures { NeighboursFollow }
{}
