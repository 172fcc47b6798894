//! Laws of taking runs back: each a function with an empty body, whose contract is the law.
ghost use Rattle.rewind.specs.Laws.{BinFilesTakeBack, WhatIsRewoundIsRun};

/// Where `rewind` came to bodies, the run from these ends with the bodies and the fast parts that it was taken back from.
pub fn what_is_rewound_is_run()
    ensures { WhatIsRewoundIsRun }
{}

/// From the bin file of a run from tick 0 that came to its last tick, and from its last bodies, `read_bins` and `rewind`
/// answer its first bodies, or that memory is wanting.
#[tactic(auto, using(crate::proofs::Joined::files_take_back))]
pub fn bin_files_take_back()
    ensures { BinFilesTakeBack }
{}
