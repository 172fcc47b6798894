// What follows of the answers from their causes alone.
ghost use Rattle.gadget.specs.Decided.{AnswersAreExact};
ghost use Rattle.gadget.specs.Headline.{NoRanksShowInResumed, NoRanksShowInRuns};
ghost use Rattle.gadget.specs.LeadOn.{KeptLeadOn, ResumedKeep, RunsKeep};
ghost use Rattle.gadget.specs.Momentum.{MomentumIsKept};

/// Where the files are told, the words, the files and the schedule decide the answer, what is printed and what is left, but for
/// want of memory, faults and stops: whatever cause holds is the one that is answered.
pub fn answers_are_exact()
    ensures { AnswersAreExact }
{}

/// Two calls whose words differ in the number of ranks alone, by whatever schedules in whatever states, have one status, one
/// printed text and the same files but for the trace file, where neither answers a fault, a stop or want of memory.
pub fn no_ranks_show()
    ensures runs { NoRanksShowInRuns }
    ensures resumed { NoRanksShowInResumed }
{}

/// Each kick of a run, resumed or not, in every bin and however the run ended, has the total momentum at its start; so have the
/// lines of its kick file.
pub fn momentum_is_kept()
    ensures { MomentumIsKept }
{}

/// Of every restart file that a run finished, or a run that was resumed from such a file, and so on: a call that is resumed from
/// it, by any number of ranks and any schedule, has the later snapshots with their numbers, the later kicks, the status and the
/// line of the first run without a stop.
pub fn restart_files_lead_on()
    ensures kept { RunsKeep }
    ensures resumed { ResumedKeep }
    ensures lead_on { KeptLeadOn }
{}
