//! The verdict.
ghost use Rattle.std.specs.Prelude.{◌≡◌, ◌<◌, ◌↔◌, Some, IsTrue};
ghost use Rattle.dac_config.specs.Table.{app_count};
ghost use Rattle.dac_placement.specs.Placement.{IsEarlier, IsVerdict, verdict_of, verdict_by, is_earlier};

use crate::judging::verdict_for;
use crate::standing::{Standing, group_held, standing_of};
use crate::states::{Listed, Running};
use crate::verdicts::Verdict;
use dac_base::{AppId, NodeId};
use dac_config::Config;
use dac_state::State;

/// The verdict of an application, after OTP's Design Principles, chapter Distributed Applications. An application is
/// started at the first eligible node of its list, fails over when its node goes down, stays stopped where it was
/// stopped, and is moved when it is no longer permitted. An earlier group takes it over, but never a node of the same
/// tuple. (A failover also waits, which is no part of the verdict.)
pub fn verdict(config: &Config, state: &State, app: AppId) -> Verdict
    requires { app.0 < app_count config.now }
    ensures value { result ≡ verdict_of config.now state.now app }
    ensures cases { IsVerdict config.now state.now app result }
{
    let standing = standing_of(config, state, app);
    let late = group_held(config, app, standing);
    let runners = Running { config, state };
    let candidates = Listed { config, state, app };
    verdict_for(&runners, &candidates, app, standing, late)
}

/// The verdict, given the standing and the first choice.
pub fn verdict_by(config: &Config, app: AppId, standing: Standing, first: Option<NodeId>) -> Verdict
    requires { app.0 < app_count config.now }
    ensures { result ≡ verdict_by config.now app standing first }
{
    match (standing, first) {
        (Standing::Stopped(holder), _) => Verdict::Halted(holder),
        (Standing::Upheld(holder), None) => Verdict::Kept(holder),
        (Standing::Upheld(holder), Some(node)) => upheld(config, app, holder, node),
        (Standing::Unclaimed, Some(node)) => Verdict::Start(node),
        (Standing::Lost, Some(node)) => Verdict::Failover(node),
        (Standing::Barred, Some(node)) => Verdict::Move(node),
        (_, None) => Verdict::Nobody,
    }
}

/// The verdict if the holder is upheld and `first` is the first choice.
fn upheld(config: &Config, app: AppId, holder: NodeId, first: NodeId) -> Verdict
    requires { app.0 < app_count config.now }
    ensures { result ≡ verdict_by config.now app (Standing.Upheld holder) (Some first) }
{
    if is_earlier(config, app, first, holder) {
        Verdict::Takeover(first)
    } else {
        Verdict::Kept(holder)
    }
}

/// Whether `node` is in an earlier group of the application's list than `other`. A node outside the list has no group.
/// (A tuple in the list of OTP's `distributed` is one group.)
pub fn is_earlier(config: &Config, app: AppId, node: NodeId, other: NodeId) -> bool
    requires { app.0 < app_count config.now }
    ensures value { result ≡ is_earlier config.now app node other }
    ensures cases { IsTrue result ↔ IsEarlier config.now app node other }
{
    match (config.group_of(app, node), config.group_of(app, other)) {
        (Some(early), Some(late)) => early < late,
        _ => false,
    }
}
