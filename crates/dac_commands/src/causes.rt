//! Why a running controller refuses a command.

ghost use Rattle.std.specs.Prelude.{◌≡◌};
ghost use Rattle.dac_commands.specs.Causes.{first, causes_of, causes_to_permit, causes_to_drain, causes_to_issue, too_many, refusal_of_command};

use crate::counters::dots_used_up;
use crate::keys::{key_of, live_of, refusal_of_target};
use crate::taking::refusal_to_take;
use dac_base::{AppId, MAX_REPLACED, NodeId};
use dac_config::Config;
use dac_events::{Command, Refusal};
use dac_origins::Origin;
use dac_placement::{State, is_up};

/// Why a controller refuses a command, if it does: the cause of the least number that holds, for the incarnation `own`
/// with this state. A takeover requires that the controller's node is eligible, and that the application runs at
/// another node, which isn't in an earlier group (after `application:takeover/2` of Erlang/OTP).
pub fn refusal_of(config: &Config, own: Origin, state: &State, command: Command) -> Option<Refusal>
    ensures { result ≡ refusal_of_command config.now own state.now command }
{
    if !is_up(state, own) {
        return Some(Refusal::DeclaredDown);
    }
    match command {
        Command::Down { node } => refusal_to_declare(config, own, state, node),
        Command::Permit {
            app,
            node,
            value: _,
        } => refusal_to_permit(config, own, state, app, node),
        Command::Start { app, node } => refusal_to_start(config, own, state, app, node),
        Command::Stop { app, node } => refusal_to_stop(config, own, state, app, node),
        Command::Drain { node, value: _ } => refusal_to_drain(config, own, state, node),
        Command::Takeover { app } => refusal_to_take(config, own, state, app),
    }
}

/// Why a Down is refused, if it is.
fn refusal_to_declare(config: &Config, own: Origin, state: &State, node: NodeId) -> Option<Refusal>
    ensures { result ≡ first (causes_of config.now own state.now (Command.Down node)) }
{
    if node.0 >= config.nodes() {
        return Some(Refusal::UnknownNode);
    }
    if node == own.node {
        return Some(Refusal::OnSelf);
    }
    if state.lives().live(node).is_none() {
        return Some(Refusal::NotLive);
    }
    if dots_used_up(state, own) {
        return Some(Refusal::DotsUsedUp);
    }
    None
}

/// Why a permit is refused, if it is.
fn refusal_to_permit(
    config: &Config,
    own: Origin,
    state: &State,
    app: AppId,
    node: NodeId,
) -> Option<Refusal>
    ensures { result ≡ first (causes_to_permit config.now own state.now app node) }
{
    if let Some(why) = refusal_of_target(config, state, app, node) {
        return Some(why);
    }
    let key = key_of(state, app, node);
    refusal_to_issue(own, state, state.permissions().dots(key).len())
}

/// Why a start is refused, if it is.
fn refusal_to_start(
    config: &Config,
    own: Origin,
    state: &State,
    app: AppId,
    node: NodeId,
) -> Option<Refusal>
    ensures { result ≡ first (causes_of config.now own state.now (Command.Start app node)) }
{
    if let Some(why) = refusal_of_target(config, state, app, node) {
        return Some(why);
    }
    let key = key_of(state, app, node);
    refusal_to_issue(own, state, state.wishes().dots(key).len())
}

/// Why a stop is refused, if it is.
fn refusal_to_stop(
    config: &Config,
    own: Origin,
    state: &State,
    app: AppId,
    node: NodeId,
) -> Option<Refusal>
    ensures { result ≡ first (causes_of config.now own state.now (Command.Stop app node)) }
{
    if let Some(why) = refusal_of_target(config, state, app, node) {
        return Some(why);
    }
    let key = key_of(state, app, node);
    if !state.wishes().wished(key) {
        return Some(Refusal::NotStarted);
    }
    refusal_to_issue(own, state, state.wishes().dots(key).len())
}

/// Why a drain is refused, if it is.
fn refusal_to_drain(config: &Config, own: Origin, state: &State, node: NodeId) -> Option<Refusal>
    ensures { result ≡ first (causes_to_drain config.now own state.now node) }
{
    if node.0 >= config.nodes() {
        return Some(Refusal::UnknownNode);
    }
    if state.lives().live(node).is_none() {
        return Some(Refusal::NotLive);
    }
    let standing = state.drains().dots(node, live_of(state, node)).len();
    refusal_to_issue(own, state, standing)
}

/// Why an operation that replaces `count` dots is refused, if it is.
fn refusal_to_issue(own: Origin, state: &State, count: usize) -> Option<Refusal>
    ensures { result ≡ first (causes_to_issue own state.now count) }
{
    if is_too_many(count) {
        return Some(Refusal::TooManyDots);
    }
    if dots_used_up(state, own) {
        return Some(Refusal::DotsUsedUp);
    }
    None
}

/// Whether an operation can't replace this many dots.
fn is_too_many(count: usize) -> bool
    ensures { result ≡ too_many count }
{
    count > MAX_REPLACED
}
