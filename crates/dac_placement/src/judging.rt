//! The verdict, given the standing, the holder's group and the candidates.
ghost use Rattle.std.specs.Prelude.{◌≡◌, ℕ, IfSome, IfNone, Option, Some};
ghost use Rattle.dac_base.specs.declared.NodeId.{NodeId as Node};
ghost use Rattle.dac_placement.specs.declared.ranking.Choice.{Choice as Chosen};
ghost use Rattle.dac_placement.specs.Placement.{is_less};
ghost use Rattle.dac_placement.specs.Choices.{DependsOnLoads, choice_by, is_settled, load_by, verdict_on};

use crate::candidates::{Candidates, Runs};
use crate::leading::{Lead, leader};
use crate::ranking::{Choice, first_choice_by};
use crate::standing::Standing;
use crate::verdicts::Verdict;
use dac_base::AppId;

/// The verdict of an application of this standing, with its holder in this group. If the groups decide it, no load is
/// computed.
pub fn verdict_for<R: Runs, C: Candidates>(
    runners: &R,
    candidates: &C,
    app: AppId,
    standing: Standing,
    late: Option<u16>,
) -> Verdict
    ensures { result ≡ verdict_on standing late
        (choice_by (C.group candidates.now) (C.eligible candidates.now)
        (load_by (R.runs runners.now) (R.apps runners.now) app) (C.nodes candidates.now)) }
{
    match settled_verdict(candidates, standing, late) {
        Some(verdict) => verdict,
        None => verdict_on(standing, late, first_choice_by(runners, candidates, app)),
    }
}

/// The verdict if it is the same for all loads, and `None` if it depends on them.
pub fn settled_verdict<C: Candidates>(
    candidates: &C,
    standing: Standing,
    late: Option<u16>,
) -> Option<Verdict>
    ensures some { (loads : Node → ℕ) → IfSome result (λ verdict. verdict ≡ verdict_on standing late
        (choice_by (C.group candidates.now) (C.eligible candidates.now) loads
        (C.nodes candidates.now))) }
    ensures none { IfNone result
        (DependsOnLoads standing late (C.group candidates.now) (C.eligible candidates.now) (C.nodes candidates.now)) }
{
    if let Some(verdict) = early_verdict(standing, late) {
        return Some(verdict);
    }
    match leader(candidates) {
        None => Some(verdict_on(standing, late, None)),
        Some(lead) if is_settled(standing, late, lead) => {
            let first = Choice {
                group: lead.group,
                node: lead.node,
            };
            Some(verdict_on(standing, late, Some(first)))
        }
        _ => None,
    }
}

/// The verdict, if it is the same for any first choice: the application is stopped, or it is upheld and no group is
/// earlier than the holder's.
fn early_verdict(standing: Standing, late: Option<u16>) -> Option<Verdict>
    ensures { (first : Option Chosen)
        → IfSome result (λ verdict. verdict ≡ verdict_on standing late first) }
{
    match (standing, late) {
        (Standing::Stopped(holder), _) => Some(Verdict::Halted(holder)),
        (Standing::Upheld(holder), None) => Some(Verdict::Kept(holder)),
        (Standing::Upheld(holder), Some(0)) => Some(Verdict::Kept(holder)),
        _ => None,
    }
}

/// Whether any first choice in the leading group gives the same verdict.
fn is_settled(standing: Standing, late: Option<u16>, lead: Lead) -> bool
    ensures { result ≡ is_settled standing late lead }
{
    match standing {
        Standing::Stopped(_) => true,
        Standing::Upheld(_) => lead.alone || !is_before(lead.group, late),
        Standing::Unclaimed | Standing::Lost | Standing::Barred => lead.alone,
    }
}

/// Whether a group is earlier than the other, if there is another.
fn is_before(early: u16, late: Option<u16>) -> bool
    ensures { result ≡ is_less (Some early) late }
{
    match late {
        Some(late) => early < late,
        None => false,
    }
}

/// The verdict, given the standing, the holder's group and the first choice.
pub fn verdict_on(standing: Standing, late: Option<u16>, first: Option<Choice>) -> Verdict
    ensures { result ≡ verdict_on standing late first }
{
    match (standing, first) {
        (Standing::Stopped(holder), _) => Verdict::Halted(holder),
        (Standing::Upheld(holder), None) => Verdict::Kept(holder),
        (Standing::Upheld(holder), Some(first)) if is_before(first.group, late) =>
            Verdict::Takeover(first.node),
        (Standing::Upheld(holder), Some(_)) => Verdict::Kept(holder),
        (Standing::Unclaimed, Some(first)) => Verdict::Start(first.node),
        (Standing::Lost, Some(first)) => Verdict::Failover(first.node),
        (Standing::Barred, Some(first)) => Verdict::Move(first.node),
        (_, None) => Verdict::Nobody,
    }
}
