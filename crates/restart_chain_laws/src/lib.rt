//! Laws of restart files over chains of runs: each a public function with an empty body, whose contract is the law.
#![tactic(auto)]

ghost use Rattle.restart_chain_laws.specs.ChainFiles.{ChainFilesAreRead, ChainFilesGoOn};

/// Each restart file that a resumed run writes spells the state at which it was written, and its settings, so that it is
/// accepted when it is read.
pub fn chain_files_are_read()
    ensures { ChainFilesAreRead }
{}

/// Whatever chain of runs has a state with this restart file: a session from what the file spells has the later snapshots
/// with their numbers, the later kicks and the end of the run from tick 0 that isn't stopped.
pub fn chain_files_go_on()
    ensures { ChainFilesGoOn }
{}
