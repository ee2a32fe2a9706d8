//! Component lattices of a state, to which each operation adds a delta.
ghost use Rattle.std.specs.Prelude.{◌≡◌, List, IfOk};
ghost use Rattle.dac_origins.specs.declared.dot.Dot.{Dot};
ghost use Rattle.dac_lattice.specs.Pieces.{AreOperations, IsPiece, JoinsAreTogether, OrderAndRepeatsAreNothing, DeltasAreMeanings};

use crate::Bottom;
use dac_origins::{Dot, NoMemory};
use std::alloc::Global;

/// A component lattice, to which each operation adds a delta.
///
/// A piece defines the meaning of a set of operations: a statement about all of them that holds of at most one value.
/// By its law the empty set means the least value, and adding an operation joins its delta, so that the joined deltas
/// of any set of operations are the set's meaning.
pub trait Piece: Bottom {
    /// The part of an operation that this piece depends on.
    type Act;

    /// Whether an act can have this dot.
    ghost fits: { Dot → Self.Act → Type 0 };

    /// The delta of an operation.
    ghost delta: { Dot → Self.Act → Self };

    /// The definition: whether a value is the meaning of the operations.
    ghost means: { List (Dot × Self.Act) → Self → Type 0 };

    /// The delta that one operation adds.
    fn delta(alloc: Global, dot: Dot, act: &Self::Act) -> Result<Self, NoMemory>
        ensures { IfOk result (λ made. made ≡ delta dot act.now) };

    /// Adding an operation joins its delta, and no operations mean the least value.
    ghost piece_laws: { IsPiece Self.is_value Self.join Self.bottom fits delta means };
}

/// The joined deltas of operations, which are the meaning of the operations.
pub fn join_deltas<P: Piece>(alloc: Global, operations: &[(Dot, P::Act)]) -> Result<P, NoMemory>
    requires { AreOperations P.fits operations.now }
    ensures { IfOk result (λ joined. P.means operations.now joined) }
{
    let mut joined = P::bottom(alloc);
    let mut i = operations.len();
    while i > 0 {
        i -= 1;
        let (dot, act) = &operations[i];
        joined = joined.join(&P::delta(alloc, *dot, act)?)?;
    }
    Ok(joined)
}

/// Laws that hold for every piece, as the contract of an empty function. The joined deltas of operations are their
/// meaning. The join of two meanings is the meaning of all the operations, unless two different ones have the same dot.
/// Order and repetition make no difference.
pub fn laws_of_pieces<P: Piece>()
    ensures deltas { DeltasAreMeanings P.join P.bottom P.fits P.delta P.means }
    ensures together { JoinsAreTogether P.is_value P.join P.fits P.means }
    ensures order_and_repeats { OrderAndRepeatsAreNothing P.is_value P.join P.fits P.means }
{}
