//! An application at a node: its key at the live incarnation, and why a command about it is refused.

ghost use Rattle.std.specs.Prelude.{◌≡◌};
ghost use Rattle.dac_commands.specs.Commands.{live_or_none, live_key};
ghost use Rattle.dac_commands.specs.Causes.{first, causes_of_target};

use dac_base::{AppId, NodeId};
use dac_config::Config;
use dac_events::Refusal;
use dac_placement::State;
use dac_wishes::Key;

/// The live incarnation of a node, or 0 if none is live.
pub(crate) fn live_of(state: &State, node: NodeId) -> u64
    ensures { result ≡ live_or_none state.now node }
{
    state.lives().live(node).unwrap_or(0)
}

/// An application at the live incarnation of a node.
pub(crate) fn key_of(state: &State, app: AppId, node: NodeId) -> Key
    ensures { result ≡ live_key state.now app node }
{
    Key {
        app,
        node,
        inc: live_of(state, node),
    }
}

/// Why a command about an application and a node is refused, if it is.
pub(crate) fn refusal_of_target(
    config: &Config,
    state: &State,
    app: AppId,
    node: NodeId,
) -> Option<Refusal>
    ensures { result ≡ first (causes_of_target config.now state.now app node) }
{
    if app.0 >= config.apps() {
        return Some(Refusal::UnknownApp);
    }
    if node.0 >= config.nodes() {
        return Some(Refusal::UnknownNode);
    }
    if config.group_of(app, node).is_none() {
        return Some(Refusal::NotInList);
    }
    if state.lives().live(node).is_none() {
        return Some(Refusal::NotLive);
    }
    None
}
