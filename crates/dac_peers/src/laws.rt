//! The laws of the peer table, as the contract of a function that does nothing. A proof calls it to use them.
ghost use Rattle.dac_peers.specs.InWords.{NothingIsKept, BeginsWhereAcked, AcksAreGot, UpToDateHaveAll, AllHaveTheLeast, GotGoesOnward, AckedIsGreatest, HeardAreOwed, ShippedAreNotOwed, AcksAreWithin};

/// The peer table in words.
///
/// The new table is empty. An interval for a node begins after the deltas that its present incarnation acknowledged, if
/// the log has all later ones. The acknowledgement for a node is the latest position got from it. Nothing needs to be
/// shipped to a node that has acknowledged everything, unless a reply to it is due.
///
/// The number that all nodes have acknowledged is the least of the other nodes' numbers, each as its present
/// incarnation. Positions got never go back. The greatest number that each incarnation acknowledged is recorded. A
/// reply to a node is due after a message with a state from it, until something is shipped to it. No more deltas are
/// acknowledged than there are.
pub fn peers_in_words()
    ensures new { NothingIsKept }
    ensures begins { BeginsWhereAcked }
    ensures acks { AcksAreGot }
    ensures up_to_date { UpToDateHaveAll }
    ensures all { AllHaveTheLeast }
    ensures kept { GotGoesOnward }
    ensures acked { AckedIsGreatest }
    ensures owed { HeardAreOwed }
    ensures shipped { ShippedAreNotOwed }
    ensures within { AcksAreWithin }
{}
