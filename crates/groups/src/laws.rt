// The law of catalogues.
ghost use Rattle.groups.specs.Laws.{CataloguesAreOne};

/// Bodies have at most one catalogue.
pub fn catalogues_are_one()
    ensures { CataloguesAreOne }
{}
