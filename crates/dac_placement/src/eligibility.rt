//! Eligibility: which nodes can run an application.
ghost use Rattle.std.specs.Prelude.{◌≡◌, ◌↔◌, ◌<◌, ◌&&◌, IsTrue};
ghost use Rattle.dac_config.specs.Table.{app_count};
ghost use Rattle.dac_placement.specs.Placement.{IsEligible, is_eligible, IsPermittedAt, is_permitted_at, IsDrainedAt, is_drained_at, IsAllowedAt, is_allowed_at, IsStartedAt, is_started_at};

use dac_base::{AppId, NodeId};
use dac_config::Config;
use dac_state::{Key, State};

/// Whether a node is eligible for an application: the application's list names it, and it is live at an incarnation
/// that isn't drained, and at which the application is permitted and started. After OTP's kernel manual, parameters
/// `distributed` and `permissions`, and application(3), `permit` and `start`.
#[inline(always)]
pub fn eligible(config: &Config, state: &State, app: AppId, node: NodeId) -> bool
    requires { app.0 < app_count config.now }
    ensures value { result ≡ is_eligible config.now state.now app node }
    ensures cases { IsTrue result ↔ IsEligible config.now state.now app node }
{
    if config.group_of(app, node).is_none() {
        return false;
    }
    match state.lives().live(node) {
        Some(inc) => is_wanted(config, state, Key { app, node, inc }),
        None => false,
    }
}

/// Whether the application is allowed and started at this incarnation.
fn is_wanted(config: &Config, state: &State, key: Key) -> bool
    requires { key.app.0 < app_count config.now }
    ensures value { result
        ≡ (is_allowed_at config.now state.now key && is_started_at state.now key) }
    ensures cases { IsTrue result
        ↔ (IsAllowedAt config.now state.now key × IsStartedAt state.now key) }
{
    is_allowed(config, state, key) && is_started(state, key)
}

/// Whether the application is allowed at this incarnation: it is permitted there, and the incarnation isn't drained.
#[inline(always)]
pub fn is_allowed(config: &Config, state: &State, key: Key) -> bool
    requires { key.app.0 < app_count config.now }
    ensures value { result ≡ is_allowed_at config.now state.now key }
    ensures cases { IsTrue result ↔ IsAllowedAt config.now state.now key }
{
    is_permitted(config, state, key) && !is_drained(state, key.node, key.inc)
}

/// Whether a standing drain drains this incarnation of a node.
pub fn is_drained(state: &State, node: NodeId, inc: u64) -> bool
    ensures value { result ≡ is_drained_at state.now node inc }
    ensures cases { IsTrue result ↔ IsDrainedAt state.now node inc }
{
    state.drains().drained(node, inc)
}

/// Whether the application is permitted at this incarnation: by the permits that stand there, or by the configuration
/// if there is none.
pub fn is_permitted(config: &Config, state: &State, key: Key) -> bool
    requires { key.app.0 < app_count config.now }
    ensures value { result ≡ is_permitted_at config.now state.now key }
    ensures cases { IsTrue result ↔ IsPermittedAt config.now state.now key }
{
    let default = config.default_permission(key.app);
    state.permissions().permitted(key, default)
}

/// Whether a start of the application stands at this incarnation.
pub fn is_started(state: &State, key: Key) -> bool
    ensures value { result ≡ is_started_at state.now key }
    ensures cases { IsTrue result ↔ IsStartedAt state.now key }
{
    state.wishes().wished(key)
}
