// The laws of cells, as contracts.
ghost use Rattle.cell_space.specs.Laws.{BeforeIsOrder, ChildrenPart, DeepestIsOne, DigitNames, DisjointOrNested, RootIsAll};

/// Of the eight children of a cell exactly one contains a position of the cell, and none any other.
pub fn children_part()
    ensures { ChildrenPart }
{}

/// The child that contains a position of a cell is the one that the position's next bits number.
pub fn digit_names()
    ensures { DigitNames }
{}

/// Two cells are disjoint, or one lies in the other.
pub fn disjoint_or_nested()
    ensures { DisjointOrNested }
{}

/// The root contains each position of the box.
pub fn root_is_all()
    ensures { RootIsAll }
{}

/// A cell of level 32 contains one position.
pub fn deepest_is_one()
    ensures { DeepestIsOne }
{}

/// The order of the cells is strict and total.
pub fn before_is_order()
    ensures { BeforeIsOrder }
{}
