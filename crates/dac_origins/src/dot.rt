//! Origins and dots: an operation's replica, and its counter there.
use crate::keys::MapKey;
use dac_base::NodeId;

/// A replica identifier: one incarnation of a node. Each start of a node is a new incarnation, so that a node that lost
/// its memory never reuses a dot.
///
/// Origins are ordered by node, then by incarnation.
#[derive(Clone, Copy, Debug, PartialEq, Eq, PartialOrd, Ord, Hash)]
pub struct Origin {
    /// The node that issues operations.
    pub node: NodeId,
    /// Its incarnation, which no later start reuses.
    pub inc: u64,
}

/// The name of one operation: the `n`-th of its origin. Counters begin at 1.
///
/// Dots are ordered by origin, then by counter.
#[derive(Clone, Copy, Debug, PartialEq, Eq, PartialOrd, Ord, Hash)]
pub struct Dot {
    /// The incarnation that issued the operation.
    pub origin: Origin,
    /// The operation's number at its origin, from 1.
    pub n: u64,
}

impl MapKey for Origin {
    ghost use Rattle.dac_origins.specs.laws.Dots.{exact_origins};

    ghost exact = { exact_origins };
}

impl MapKey for Dot {
    ghost use Rattle.dac_origins.specs.laws.Dots.{exact_dots};

    ghost exact = { exact_dots };
}
