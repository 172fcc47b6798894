// The law of links.
ghost use Rattle.merger_links.specs.Laws.{LinksAreOne};

/// Two catalogues, of which the second is one as a file may have it, have at most one list of links.
#[tactic(auto, using(crate::proofs::Unique::links_one))]
pub fn links_are_one()
    ensures { LinksAreOne }
{}
