//! The laws of refusals, ticks, ships and dropped deltas, each as a clause of a function that does nothing.
ghost use Rattle.dac_model_node.specs.Refused.{RefusesForTheLeast, RefusesNoOther, NeverRefusesForMemory};
ghost use Rattle.dac_model_node.specs.RefusedInOrder.{OffComesFirst, StrangersAreNamed, OwnIsOnSelf, OthersAreNotForMe, TimeRuns};
ghost use Rattle.dac_model_node.specs.Again.{SecondTickClaimsNothing};
ghost use Rattle.dac_model_node.specs.Shipping.{ShipsInWords};
ghost use Rattle.dac_model_node.specs.Dropping.{DropsInWords};
ghost use Rattle.dac_model_node.specs.Effect.{EventsTakeEffect};
ghost use Rattle.dac_model_node.specs.Gates.{OpenIsOpen, OpenStays, TicksOpen};
ghost use Rattle.dac_model_node.specs.HeldBack.{HeldTicksCount, HeldTicksNoteNothing};

/// The table of causes refuses an event for the cause with the least number, of those that the event can have and that
/// hold in words. It accepts an event only if none of them holds, and never refuses because of memory.
pub fn refusals_in_words()
    ensures least { RefusesForTheLeast }
    ensures free { RefusesNoOther }
    ensures memory { NeverRefusesForMemory }
    // Which refusal an event gets, said again without the table: first whether the node is off, or was declared down.
    ensures off { OffComesFirst }
    // Then whether the configuration, the application's list and the state have what a command or a ship names.
    ensures strangers { StrangersAreNamed }
    // Messages of the node's own are refused as such, in whatever life and for whomever.
    ensures own { OwnIsOnSelf }
    // Messages of others are refused exactly if they are for another receiver.
    ensures addressed { OthersAreNotForMe }
    // Ticks are refused if their moments are earlier, and not if they are equal.
    ensures moments { TimeRuns }
{}

/// After a node's pass over its applications, a second tick at the same moment claims nothing.
pub fn second_tick_claims_nothing()
    ensures { SecondTickClaimsNothing }
{}

/// A shipped message is the one that the words describe. Without a position from which an interval can begin, it
/// carries the whole state, for any incarnation of the receiver. Otherwise it is for the position's incarnation only,
/// and carries the interval of the log after the position, or nothing if the log ends there.
pub fn ships_in_words()
    ensures { ShipsInWords }
{}

/// `Keeps` in words, for dropped deltas. A node that runs on after an event has dropped a delta in exactly these cases:
/// it had dropped it before, there are 256 later ones, or a message came in and all other nodes have acknowledged the
/// delta.
pub fn drops_in_words()
    ensures { DropsInWords }
{}

/// An accepted event takes effect: a command in the state that its operation leaves, and the claims of a tick in the
/// state after all of them.
pub fn events_take_effect()
    ensures { EventsTakeEffect }
{}

/// A tick that is held back notes nothing, so that no failover timer starts or ends while the start gate is shut. Its
/// moment still counts: a later tick at an earlier moment is refused.
pub fn held_ticks_wait()
    ensures notes { HeldTicksNoteNothing }
    ensures moment { HeldTicksCount }
{}

/// A node's pass over its applications leaves its start gate open. The gate stays open until the node goes off, so that
/// the node never waits for others again, nor gives up.
pub fn open_gates_stay()
    ensures opened { TicksOpen }
    ensures stays { OpenStays }
    ensures found { OpenIsOpen }
{}
