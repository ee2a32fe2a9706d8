//! The first choice for an application.
ghost use Rattle.std.specs.Prelude.{◌≡◌};
ghost use Rattle.std.specs.Ordering.{ord_min};
ghost use Rattle.dac_lattice.specs.Lattices.{join_options};
ghost use Rattle.dac_placement.specs.Choices.{IsLead, choice_by, first_of, load_by, rank_by, rank_in};
ghost use Rattle.dac_placement.specs.Ranks.{rank_cmp};

use crate::candidates::{Candidates, Runs};
use crate::leading::{Lead, leader};
use crate::loads::load_by;
use dac_base::{AppId, NodeId};

/// The rank of an eligible node for an application. The fields are in the order in which they decide, and the least
/// rank wins.
#[derive(Clone, Copy, Debug, PartialEq, Eq, PartialOrd, Ord)]
pub struct Rank {
    /// The node's group in the application's list, from 0.
    pub group: u16,
    /// How many other applications run at the node.
    pub load: u32,
    /// The node's number; numbers are in byte order of names.
    pub node: NodeId,
}

/// A first choice.
#[derive(Clone, Copy, Debug, PartialEq, Eq)]
pub struct Choice {
    /// The node's group in the application's list, from 0.
    pub group: u16,
    /// The node.
    pub node: NodeId,
}

/// The first choice for an application, if any node is eligible. It is in the leading group, so no load is computed in
/// later groups.
pub fn first_choice_by<R: Runs, C: Candidates>(
    runners: &R,
    candidates: &C,
    app: AppId,
) -> Option<Choice>
    ensures { result ≡ choice_by (C.group candidates.now) (C.eligible candidates.now)
        (load_by (R.runs runners.now) (R.apps runners.now) app) (C.nodes candidates.now) }
{
    let lead = leader(candidates)?;
    least_ranked(runners, candidates, app, lead)
}

/// The group and the node of the least rank, which is in the leading group.
fn least_ranked<R: Runs, C: Candidates>(
    runners: &R,
    candidates: &C,
    app: AppId,
    lead: Lead,
) -> Option<Choice>
    requires { IsLead lead
        (first_of (rank_by (C.group candidates.now) (C.eligible candidates.now)
        (load_by (R.runs runners.now) (R.apps runners.now) app)) (C.nodes candidates.now)) }
    ensures { result ≡ choice_by (C.group candidates.now) (C.eligible candidates.now)
        (load_by (R.runs runners.now) (R.apps runners.now) app) (C.nodes candidates.now) }
{
    let mut first = None;
    for number in 0..candidates.nodes() {
        let rank = rank_in(runners, candidates, app, lead.group, NodeId(number));
        first = lesser(first, rank);
    }
    let first = first?;
    Some(Choice {
        group: first.group,
        node: first.node,
    })
}

/// The rank of a node, if it is in this group and eligible. The group is compared first because that is cheapest.
fn rank_in<R: Runs, C: Candidates>(
    runners: &R,
    candidates: &C,
    app: AppId,
    group: u16,
    node: NodeId,
) -> Option<Rank>
    ensures { result ≡ rank_in (C.group candidates.now) (C.eligible candidates.now)
        (load_by (R.runs runners.now) (R.apps runners.now) app) group node }
{
    let own = candidates.group(node)?;
    if own != group || !candidates.is_eligible(node) {
        return None;
    }
    let load = load_by(runners, app, node);
    Some(Rank { group, load, node })
}

/// The lesser of two ranks, or the only one.
pub fn lesser(first: Option<Rank>, other: Option<Rank>) -> Option<Rank>
    ensures { result ≡ join_options (ord_min rank_cmp) first other }
{
    match (first, other) {
        (Some(first), Some(other)) => Some(first.min(other)),
        (None, other) => other,
        (first, None) => first,
    }
}
