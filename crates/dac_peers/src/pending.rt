//! A change that isn't yet applied to lists which may be shared.
ghost use Rattle.std.specs.Prelude.{◌≡◌, ◌↔◌, IsTrue};
ghost use Rattle.dac_peers.specs.Pending.{none_pending, number_then, position_then, is_owed_then, same_origin};

use crate::positions::Position;
use dac_base::NodeId;
use dac_origins::Origin;

/// A change of whether a reply to a node is due.
#[derive(Clone, Copy)]
pub(crate) enum Answer {
    /// A reply to this node becomes due.
    Owed(NodeId),
    /// A reply to this node is no longer due.
    Given(NodeId),
}

/// One pending change of a peer table.
#[derive(Clone, Copy)]
pub(crate) struct Pending {
    /// The number of deltas that an incarnation acknowledged.
    pub(crate) ack: Option<(Origin, u64)>,
    /// The position got from a node.
    pub(crate) position: Option<(NodeId, Position)>,
    /// The reply that becomes due, or no longer is.
    pub(crate) answer: Option<Answer>,
}

/// Whether two origins are the same.
fn is_same(a: Origin, b: Origin) -> bool
    ensures { result ≡ same_origin a b }
{
    a.node.0 == b.node.0 && a.inc == b.inc
}

impl Pending {
    /// No change.
    pub(crate) fn none() -> Self
        ensures { result ≡ none_pending }
    {
        Pending {
            ack: None,
            position: None,
            answer: None,
        }
    }

    /// Whether there is no change.
    pub(crate) fn is_none(&self) -> bool
        ensures { IsTrue result ↔ (self.now ≡ none_pending) }
    {
        self.ack.is_none() && self.position.is_none() && self.answer.is_none()
    }

    /// The number that an origin acknowledged, given the listed one.
    pub(crate) fn number(&self, origin: Origin, listed: Option<u64>) -> Option<u64>
        ensures { result ≡ number_then self.now.ack origin listed }
    {
        let Some((from, number)) = self.ack else {
            return listed;
        };
        if !is_same(from, origin) {
            return listed;
        }
        match listed {
            Some(before) => Some(before.max(number)),
            None => Some(number),
        }
    }

    /// The position of a node, given the listed one.
    pub(crate) fn position(&self, node: NodeId, listed: Option<Position>) -> Option<Position>
        ensures { result ≡ position_then self.now.position node listed }
    {
        let Some((from, position)) = self.position else {
            return listed;
        };
        if from.0 != node.0 {
            return listed;
        }
        match listed {
            Some(before) => Some(before.later(position)),
            None => Some(position),
        }
    }

    /// Whether a reply to a node is due, given whether the lists have it.
    pub(crate) fn is_owed(&self, node: NodeId, listed: bool) -> bool
        ensures { result ≡ is_owed_then self.now.answer node listed }
    {
        match self.answer {
            Some(Answer::Owed(to)) => to.0 == node.0 || listed,
            Some(Answer::Given(to)) => to.0 != node.0 && listed,
            None => listed,
        }
    }
}
