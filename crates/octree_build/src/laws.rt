// The laws of trees, as contracts.
ghost use Rattle.octree_build.specs.Laws.{ChildrenAreBeside, MembersAreRange, OpenedIsOrder, TreesAreInOrder, TreesAreSmall, TreesHaveNodes};

/// A tree has each cell with a member that isn't strictly inside a leaf once, and nothing else.
pub fn trees_have_nodes()
    ensures { TreesHaveNodes }
{}

/// The children of a node stand side by side.
pub fn children_are_beside()
    ensures { ChildrenAreBeside }
{}

/// The members of a cell are a range of the bodies in the order of the curve.
pub fn members_are_range()
    ensures { MembersAreRange }
{}

/// What a node is opened to is an order of its children that have members.
pub fn opened_is_order()
    ensures { OpenedIsOrder }
{}

/// A tree has at most 33 nodes for each body.
pub fn trees_are_small()
    ensures { TreesAreSmall }
{}

/// The nodes of a tree ascend by level, and in a level along the curve.
pub fn trees_are_in_order()
    ensures { TreesAreInOrder }
{}
