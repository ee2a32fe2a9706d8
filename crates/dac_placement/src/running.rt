//! The holder of an application, and where it runs.
ghost use Rattle.std.specs.Prelude.{◌≡◌, ◌↔◌, ◌<◌, IsTrue, Some};
ghost use Rattle.dac_base.specs.declared.NodeId.{NodeId as Node};
ghost use Rattle.dac_origins.specs.declared.dot.Origin.{Origin as Incarnation};
ghost use Rattle.dac_config.specs.Table.{app_count};
ghost use Rattle.dac_placement.specs.Placement.{holder_of, IsHolder, IsUp, is_up, RunsAt, runs_at, runner_of, load_of, IsLoad};

use crate::eligibility::eligible;
use crate::loads::load_by;
use crate::states::Running;
use dac_base::{AppId, NodeId};
use dac_config::Config;
use dac_origins::Origin;
use dac_state::State;

/// How many other applications run at a node. Claims of an incarnation that is down don't count. After OTP's Design
/// Principles, chapter Distributed Applications: of a tuple's nodes, the one with the fewest applications is taken.
pub fn load(config: &Config, state: &State, app: AppId, node: NodeId) -> u32
    ensures value { result ≡ load_of config.now state.now app node }
    // agrees with the load in words
    ensures words { IsLoad config.now state.now app node result }
{
    load_by(&Running { config, state }, app, node)
}

/// Whether an application runs at a node: the node's live incarnation holds it, and the node is eligible for it.
pub fn runs_at(config: &Config, state: &State, app: AppId, node: NodeId) -> bool
    requires { app.0 < app_count config.now }
    ensures value { result ≡ runs_at config.now state.now app node }
    ensures cases { IsTrue result ↔ RunsAt config.now state.now app node }
{
    match holder(state, app) {
        Some(origin) => origin.node == node
            && is_up(state, origin)
            && eligible(config, state, app, node),
        None => false,
    }
}

/// The node at which an application runs, if any: its holder's, if it runs there.
pub fn runner(config: &Config, state: &State, app: AppId) -> Option<NodeId>
    requires { app.0 < app_count config.now }
    ensures value { result ≡ runner_of config.now state.now app }
    ensures cases { (node : Node) → (result ≡ Some node) ↔ RunsAt config.now state.now app node }
{
    let origin = holder(state, app)?;
    if runs_at(config, state, app, origin.node) {
        Some(origin.node)
    } else {
        None
    }
}

/// The holder of an application: the origin of its greatest claim. In a state that no operation produced, it can be a
/// node outside the configuration.
pub fn holder(state: &State, app: AppId) -> Option<Origin>
    ensures value { result ≡ holder_of state.now app }
    ensures cases { (origin : Incarnation)
        → (result ≡ Some origin) ↔ IsHolder state.now app origin }
{
    let claim = state.claims().greatest(app)?;
    Some(claim.origin)
}

/// Whether an incarnation is live.
pub fn is_up(state: &State, origin: Origin) -> bool
    ensures value { result ≡ is_up state.now origin }
    ensures cases { IsTrue result ↔ IsUp state.now origin }
{
    match state.lives().live(origin.node) {
        Some(inc) => inc == origin.inc,
        None => false,
    }
}
