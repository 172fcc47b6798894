//! Laws of what homes know of cells, each the contract of a public function with an empty body.
#![tactic(auto)]

ghost use Rattle.rank_entry_laws.specs.Given.{EntriesAreRead, GivesOwnBodies, HomesKnowCells};

/// What the entries of one rank give for a cell of a home is what is said of the rank's own bodies in it.
pub fn gives_own_bodies()
    ensures { GivesOwnBodies }
{}

/// What the entries of all ranks give for a cell of a home is what is said of all bodies in it: what a reply says.
pub fn homes_know_cells()
    ensures { HomesKnowCells }
{}

/// What a walk reads of such an entry, moments and children, are those of the cell.
pub fn entries_are_read()
    ensures { EntriesAreRead }
{}
