//! The first node by groups alone, found before any load is computed.
ghost use Rattle.std.specs.Prelude.{◌≡◌, ℕ, IfSome};
ghost use Rattle.dac_base.specs.declared.NodeId.{NodeId as Node};
ghost use Rattle.dac_placement.specs.Choices.{HasNodes, Leads, beside, first_of, group_by, lead_with, rank_by};

use crate::candidates::Candidates;
use dac_base::NodeId;

/// An eligible node such that no eligible node is in an earlier group.
#[derive(Clone, Copy, Debug, PartialEq, Eq)]
pub struct Lead {
    /// Its group in the application's list.
    pub group: u16,
    /// The first eligible node in its group by name.
    pub node: NodeId,
    /// Whether no other eligible node is in its group.
    pub alone: bool,
}

/// The lead among all nodes, if any is eligible. It doesn't depend on loads.
pub fn leader<C: Candidates>(candidates: &C) -> Option<Lead>
    ensures leads { (loads : Node → ℕ) → Leads result
        (first_of (rank_by (C.group candidates.now) (C.eligible candidates.now) loads)
        (C.nodes candidates.now)) }
    ensures nodes { IfSome result
        (HasNodes (C.group candidates.now) (C.eligible candidates.now) (C.nodes candidates.now)) }
{
    let mut lead = None;
    for number in 0..candidates.nodes() {
        let node = NodeId(number);
        let group = group_if(candidates, node);
        lead = lead_with(lead, group, node);
    }
    lead
}

/// The group of a node in the application's list, if it is eligible.
fn group_if<C: Candidates>(candidates: &C, node: NodeId) -> Option<u16>
    ensures { result ≡ group_by (C.group candidates.now) (C.eligible candidates.now) node }
{
    if !candidates.is_eligible(node) {
        return None;
    }
    candidates.group(node)
}

/// The lead after a later node, whose group is given if it is eligible.
fn lead_with(lead: Option<Lead>, group: Option<u16>, node: NodeId) -> Option<Lead>
    ensures { result ≡ lead_with lead group node }
{
    match (lead, group) {
        (lead, None) => lead,
        (None, Some(group)) => Some(Lead {
            group,
            node,
            alone: true,
        }),
        (Some(lead), Some(group)) => Some(beside(lead, group, node)),
    }
}

/// The lead after a later node of this group.
fn beside(lead: Lead, group: u16, node: NodeId) -> Lead
    ensures { result ≡ beside lead group node }
{
    if group < lead.group {
        Lead {
            group,
            node,
            alone: true,
        }
    } else if group == lead.group {
        Lead {
            group,
            node: lead.node,
            alone: false,
        }
    } else {
        lead
    }
}
