//! Laws of taking a run back to its first bodies: each a public function with an empty body, whose contract is the law.
#![tactic(auto)]

pub mod worked;

ghost use Rattle.rewind_laws.specs.Filed.{BinFilesAreRead, BinFilesLeadBack, SpelledAreParts, SpelledIsText};
ghost use Rattle.rewind_laws.specs.Rewound.{FirstBodiesAreOne, FirstOtherIsLeast, PartsAreTold, RunsAreTakenBack, StepsAreTakenBack, WhatIsTakenBackEvolves, WhatIsTakenBackIsRun};

/// Taking back a step that was made gives the bodies from which it was made, by the fast parts that it told.
pub fn steps_are_taken_back()
    ensures { StepsAreTakenBack }
{}

/// Where taking back a step comes to bodies, the step from them comes to what it was taken back from.
pub fn what_is_taken_back_evolves()
    ensures { WhatIsTakenBackEvolves }
{}

/// Taking back a run that came to its last tick gives its first bodies, exactly, by the fast parts that it made.
pub fn runs_are_taken_back()
    ensures { RunsAreTakenBack }
{}

/// The fast parts of a run, as a list, tell which steps had which finer steps.
pub fn parts_are_told()
    ensures { PartsAreTold }
{}

/// Two runs to the last tick with the same last bodies and the same fast parts began with the same bodies.
pub fn first_bodies_are_one()
    ensures { FirstBodiesAreOne }
{}

/// Where taking back comes to bodies, the run from them ends with the bodies and the fast parts that it was taken back
/// from.
pub fn what_is_taken_back_is_run()
    ensures { WhatIsTakenBackIsRun }
{}

/// The text of the fast parts of a run spells them.
pub fn bin_files_are_read()
    ensures { BinFilesAreRead }
{}

/// What a bin file spells are fast parts that a run of these bodies could have made, as far as sizes, ids and bins tell.
pub fn spelled_are_parts()
    ensures { SpelledAreParts }
{}

/// The bin file of a run to its last tick leads back from its last bodies to its first ones.
pub fn bin_files_lead_back()
    ensures { BinFilesLeadBack }
{}

/// Of two ascending lists the first difference is the least number that is in one and not in the other.
pub fn first_other_is_least()
    ensures { FirstOtherIsLeast }
{}

/// Bytes that spell fast parts are their text: no two bin files spell the same.
pub fn spelled_is_text()
    ensures { SpelledIsText }
{}
