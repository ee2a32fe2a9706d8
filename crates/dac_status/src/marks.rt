//! Marks: obstacles to running an application at a node.

ghost use Rattle.std.specs.Prelude.{◌≡◌, ◌<◌, ◌↔◌, IsTrue, Some};
ghost use Rattle.dac_chains.specs.Lives.{IsLive};
ghost use Rattle.dac_config.specs.Table.{app_count};
ghost use Rattle.dac_status.specs.Summaries.{IsMark, mark_at, mark_of};
ghost use Rattle.dac_placement.specs.Placement.{IsDrainedAt, is_drained_at};

use dac_base::{AppId, NodeId};
use dac_config::Config;
use dac_placement::{is_drained, is_permitted, is_started};
use dac_state::{Key, State};

/// The mark of a node for an application: the first of these that holds.
#[derive(Clone, Copy, Debug, PartialEq, Eq)]
pub enum Mark {
    /// The node isn't live.
    Down,
    /// The application isn't permitted there.
    Barred,
    /// The node is drained.
    Drained,
    /// The application wasn't started there, or was stopped.
    Idle,
    /// Nothing keeps the application from the node.
    Ok,
}

/// The mark of a node for an application, even if the application's list lacks the node.
pub fn mark_of(config: &Config, state: &State, app: AppId, node: NodeId) -> Mark
    requires { app.0 < app_count config.now }
    ensures value { result ≡ mark_of config.now state.now app node }
    ensures cases { IsMark config.now state.now app node result }
{
    match state.lives().live(node) {
        Some(inc) => {
            let key = Key { app, node, inc };
            mark_live(config, state, key, is_drained(state, node, inc))
        }
        None => Mark::Down,
    }
}

/// The mark of a live node for an application, given whether it is drained.
fn mark_live(config: &Config, state: &State, key: Key, drained: bool) -> Mark
    requires app { key.app.0 < app_count config.now }
    requires drained { drained ≡ is_drained_at state.now key.node key.inc }
    ensures value { result ≡ mark_at config.now state.now key.app key.node (Some key.inc) }
    ensures cases { (IsTrue drained ↔ IsDrainedAt state.now key.node key.inc)
        → IsLive state.now.lives key.node key.inc
        → IsMark config.now state.now key.app key.node result }
{
    if !is_permitted(config, state, key) {
        return Mark::Barred;
    }
    if drained {
        return Mark::Drained;
    }
    if !is_started(state, key) {
        return Mark::Idle;
    }
    Mark::Ok
}
