//! The laws of placement, each as a clause of a function that does nothing.
ghost use Rattle.dac_placement.specs.InWords.{CandidateInWords, EligibleInWords, FirstInWords, RestsInWords, RunnerInWords, RunsInWords, StandingInWords, StoppedStays, DrainedRunsNothing, FewestRun, FileCounts, FromLater, LesserNameWins, NoneBefore, OnlyAllowedRun, VerdictInWords};

/// Placement computes the definitions in words, for every configuration and every state, even one that no operation
/// produced: eligibility, where an application runs, its first choice, standing and verdict, and when it is left alone.
/// A stopped application stays at a live holder, and a drained incarnation runs nothing. The last clauses relate
/// placement to the configuration file: its permission decides if no permit stands, no eligible node of an earlier
/// group is passed over, a takeover comes from a later group, and within a group the node with the fewest applications
/// is taken, at equal loads the one with the lesser name. An application runs only where it is permitted and was
/// started.
pub fn placement_in_words()
    ensures eligible { EligibleInWords }
    ensures runs { RunsInWords }
    ensures runner { RunnerInWords }
    ensures first { FirstInWords }
    ensures standing { StandingInWords }
    ensures verdict { VerdictInWords }
    ensures candidate { CandidateInWords }
    ensures rests { RestsInWords }
    ensures stopped { StoppedStays }
    ensures drained { DrainedRunsNothing }
    ensures file { FileCounts }
    ensures none_before { NoneBefore }
    ensures from_later { FromLater }
    ensures fewest { FewestRun }
    ensures ties { LesserNameWins }
    ensures allowed { OnlyAllowedRun }
{}
