//! The laws of buffers and acknowledgements, each as the contract of an empty function.
//!
//! A proof that needs a law calls its function.
ghost use Rattle.dac_deltas.specs.Logs.{EmptyIsOfNothing, PushesAppend, PushesAppendAll, TrimsMoveTheBase, IntervalsAreOfTheLog, DroppedHaveNone, JoinsAreLeast};
ghost use Rattle.dac_deltas.specs.Numbers.{NothingIsGreatest, RaisesAcknowledge};

use dac_lattice::Bottom;

/// A buffer stores the part of an append-only log from its base on. It begins as the empty log. A push of one delta or
/// of several appends to the log, and drops all but the newest 256. A trim moves only the base. An interval from the
/// base on is the join of the log's deltas from its number on, which is the least value above each of them. An interval
/// from below the base is `None`.
pub fn buffers_keep_logs<L: Bottom>()
    ensures new { EmptyIsOfNothing L }
    ensures push { PushesAppend L }
    ensures push_all { PushesAppendAll L }
    ensures trim { TrimsMoveTheBase L }
    ensures interval { IntervalsAreOfTheLog L.bottom L.join }
    ensures dropped { DroppedHaveNone L.bottom L.join }
    ensures least { JoinsAreLeast L.is_value L.below L.join L.bottom }
{}

/// The table contains the greatest number that each origin acknowledged, and no origin that acknowledged nothing.
pub fn acks_are_greatest()
    ensures new { NothingIsGreatest }
    ensures raise { RaisesAcknowledge }
{}
