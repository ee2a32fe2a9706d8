//! Verdicts.
ghost use Rattle.std.specs.Prelude.{◌≡◌};
ghost use Rattle.dac_placement.specs.Placement.{candidate_of};

use dac_base::NodeId;

/// The placement decision for an application, in the words of OTP's distributed applications.
#[derive(Clone, Copy, Debug, PartialEq, Eq, Hash)]
pub enum Verdict {
    /// Nobody holds it: this node should start it.
    Start(NodeId),
    /// Its holder went down: this node should restart it.
    Failover(NodeId),
    /// It was stopped at this node, its holder, and stays stopped.
    Halted(NodeId),
    /// It is no longer permitted at its holder, or that one is drained: it should move to this node.
    Move(NodeId),
    /// This node, of an earlier group than the holder's, should take it over.
    Takeover(NodeId),
    /// It stays at this node, its holder.
    Kept(NodeId),
    /// It should be started, restarted or moved, but no node is eligible.
    Nobody,
}

impl Verdict {
    /// The node that should claim the application, if any.
    pub fn candidate(&self) -> Option<NodeId>
        ensures { result ≡ candidate_of self.now }
    {
        match self {
            Verdict::Start(node) => Some(*node),
            Verdict::Failover(node) => Some(*node),
            Verdict::Move(node) => Some(*node),
            Verdict::Takeover(node) => Some(*node),
            Verdict::Halted(_holder) => None,
            Verdict::Kept(_holder) => None,
            Verdict::Nobody => None,
        }
    }
}
