//! The laws of meanings, each as the contract of an empty function.
//!
//! A proof that needs a law calls its function.
ghost use Rattle.dac_lattice.specs.Lattices.{IsLattice};
ghost use Rattle.dac_meaning.specs.StateValue.{StateValue, IsState, IsBelow, bottom, join};
ghost use Rattle.dac_meaning.specs.MeaningLaws.{HeardAreDots, KnownAreNamed, PermitsAreUnreplaced, StartsAreUnreplaced, LivesAreGreatest, DownStaysDown, ClaimsAreGreatest, DrainsAreUnreplaced, WishedHaveStarts, PermittedAreSaid, DrainedAreSaid, MeaningsAreStates, NothingMeansBottom, OrderAndRepeatsAreNothing, JoinsAreTogether};
ghost use Rattle.dac_meaning.specs.Outweighed.{DrainedStays, ForbiddenStays};
ghost use Rattle.dac_meaning.specs.PieceParts.{PermitsAreJoined, WishesAreJoined, DrainsAreJoined, LivesAreJoined, ClaimsAreJoined};
ghost use Rattle.dac_meaning.specs.DeltaLaws.{OneIsHeard, PermitDeltaIsMeaning, DrainDeltaIsMeaning, WishDeltaIsMeaning, LifeDeltaIsMeaning, ClaimDeltaIsMeaning};

/// The parts of a meaning, in terms of its operations. The heard dots are their own, the known dots also those that
/// they replace. The standing permits, start wishes and drains are those that none of them replaces. The life of a node
/// is the greatest reported by an Up of the node or a Down about it. A node that went down stays down: neither the
/// incarnation that a Down names nor an earlier one is live. The claim of an application is the greatest of its claims.
/// Therefore a meaning is always a state, and no operations mean the least one.
pub fn parts_of_meaning()
    ensures heard { HeardAreDots }
    ensures known { KnownAreNamed }
    ensures permits { PermitsAreUnreplaced }
    ensures starts { StartsAreUnreplaced }
    ensures lives { LivesAreGreatest }
    ensures down { DownStaysDown }
    ensures claims { ClaimsAreGreatest }
    ensures drains { DrainsAreUnreplaced }
    ensures state { MeaningsAreStates }
    ensures nothing { NothingMeansBottom }
{}

/// The wished and permitted keys and the drained incarnations of a meaning. A key is wished exactly if an operation
/// that none replaces starts it. It is permitted if no permit of it stands and the default is true, or if one that is
/// true stands and none that is false. An incarnation is drained exactly if an operation that none replaces drains it.
pub fn keys_of_meaning()
    ensures wished { WishedHaveStarts }
    ensures permitted { PermittedAreSaid }
    ensures drained { DrainedAreSaid }
{}

/// The meaning depends on the set of operations only: their order and repetition make no difference.
pub fn order_and_repeats()
    ensures { OrderAndRepeatsAreNothing }
{}

/// The join of the meanings of two sets of operations is the meaning of their union, unless two different operations
/// have the same dot.
pub fn join_of_meanings()
    ensures { JoinsAreTogether }
{}

/// The delta of an operation for each piece is that part of the meaning of the operation alone. Only its own dot is
/// heard.
pub fn delta_is_meaning()
    ensures heard { OneIsHeard }
    ensures permits { PermitDeltaIsMeaning }
    ensures starts { WishDeltaIsMeaning }
    ensures lives { LifeDeltaIsMeaning }
    ensures claims { ClaimDeltaIsMeaning }
    ensures drains { DrainDeltaIsMeaning }
{}

/// For each piece, the joined deltas of operations are that part of their meaning, unless two different operations have
/// the same dot. Therefore the definitions of the pieces and of meanings agree.
pub fn pieces_are_parts()
    ensures permits { PermitsAreJoined }
    ensures starts { WishesAreJoined }
    ensures lives { LivesAreJoined }
    ensures claims { ClaimsAreJoined }
    ensures drains { DrainsAreJoined }
{}

/// The order of states is a partial order, and the join is the least upper bound of two states. This holds for every
/// value of the type, whether or not a set of operations means it. Draining and forbidding are the greater values: a
/// greater state keeps them, unless one of the votes is replaced.
pub fn order_of_states()
    ensures lattice { IsLattice IsState IsBelow join }
    ensures least { (s : StateValue) → IsState s → IsBelow bottom s }
    ensures drained { DrainedStays }
    ensures forbidden { ForbiddenStays }
{}
