// What holds of shares.
ghost use Rattle.force_sharing.specs.Sharing.{SharesLookAtIdsAndMasses};

/// Shares look at ids and masses alone: those of the bodies of a list are those of their ids and masses.
#[tactic(auto, using(crate::proofs::Alone::look_alone))]
pub fn shares_look_at_ids_and_masses()
    ensures { SharesLookAtIdsAndMasses }
{}
