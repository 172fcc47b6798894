//! Laws of restart files over whole runs: each a public function with an empty body, whose contract is the law.
#![tactic(auto)]

ghost use Rattle.restart_laws.specs.Kept.{RestartFilesAreRead, RestartFilesGoOn};

/// Each restart file that a run writes spells the state at which it was written, and its settings, so that it is accepted
/// when it is read.
pub fn restart_files_are_read()
    ensures { RestartFilesAreRead }
{}

/// Whatever run from tick 0 has a state with this restart file: a session from what the file spells has the later snapshots
/// with their numbers, the later kicks and the end of that run without a stop.
pub fn restart_files_go_on()
    ensures { RestartFilesGoOn }
{}
