//! The laws of waits and of the start gate, each as a clause of a function that does nothing.
ghost use Rattle.dac_decide.specs.InWords.{BeginsAnew, DueInWords, GivesUpLate, LostFailsOver, LostInWords, NotBeforeItsTime, NotWithoutMandatory, NotesAreKept, OpeningInWords, ReturnsAtOnce, RowsInWords};

/// Waits and the start gate compute the definitions in words, for every list of notes and every state, even one that no
/// operation produced: lost claims, since when consecutive notes found them lost, due verdicts, and the state of the
/// gate. Waits store each application's timer. The last clauses are guarantees for operators: with a start-gate
/// timeout, the gate doesn't open while a mandatory node isn't live, and no failover to another node happens before its
/// application's timeout, which begins anew with each lost claim; a failover to the node of the lost claim is due at
/// once, and a node gives up only after a configured timeout.
pub fn waits_in_words()
    ensures lost { LostInWords }
    ensures fails_over { LostFailsOver }
    ensures rows { RowsInWords }
    ensures due { DueInWords }
    ensures opening { OpeningInWords }
    ensures kept { NotesAreKept }
    ensures missing { NotWithoutMandatory }
    ensures not_before { NotBeforeItsTime }
    ensures anew { BeginsAnew }
    ensures returns { ReturnsAtOnce }
    ensures gives_up { GivesUpLate }
{}
