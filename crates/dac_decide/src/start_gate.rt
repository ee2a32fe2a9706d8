//! The start gate.
ghost use Rattle.std.specs.Prelude.{◌≡◌, ◌-◌, ◌<◌, ◌≤◌};
ghost use Rattle.dac_config.specs.Table.{node_count};
ghost use Rattle.dac_decide.specs.StartGate.{IsOpening, opening_of, opening_by, present_of, present_at, both, is_live_if};

use dac_base::NodeId;
use dac_config::{Config, SyncWait};
use dac_placement::State;

/// The state of a booted node's start gate.
#[derive(Clone, Copy, Debug, PartialEq, Eq)]
pub enum Opening {
    /// It still waits for other nodes.
    Shut,
    /// It is open, so that the node claims applications.
    Opened,
    /// A mandatory node wasn't up in time, so the node terminates.
    GiveUp,
}

/// Whether the nodes that the gate waits for are live.
#[derive(Clone, Copy, Debug, PartialEq, Eq)]
pub(crate) struct Present {
    /// All mandatory nodes are live.
    pub mandatory: bool,
    /// All optional nodes are live.
    pub optional: bool,
}

/// The start gate, at the moment `now`, of a node that was booted at `booted`, both in milliseconds. After OTP's kernel
/// manual, parameters `sync_nodes_mandatory`, `sync_nodes_optional` and `sync_nodes_timeout`: the gate opens when all
/// these nodes are up, or when the timeout has passed and the mandatory ones are up. If it has passed and one of those
/// isn't up, the node gives up. Without a timeout it doesn't wait.
pub fn gate(config: &Config, state: &State, booted: u64, now: u64) -> Opening
    requires { booted ≤ now }
    ensures value { result ≡ opening_of config.now state.now (now - booted) }
    ensures cases { IsOpening config.now state.now (now - booted) result }
{
    opening_by(config.sync_wait(), present_of(config, state), now - booted)
}

/// The state of the gate, given which nodes are live, `elapsed` milliseconds after the boot.
fn opening_by(wait: SyncWait, present: Present, elapsed: u64) -> Opening
    ensures { result ≡ opening_by wait present elapsed }
{
    match wait {
        SyncWait::NoSync => Opening::Opened,
        _ if present.mandatory && present.optional => Opening::Opened,
        SyncWait::Forever => Opening::Shut,
        SyncWait::Ms(wait) if elapsed < u64::from(wait) => Opening::Shut,
        SyncWait::Ms(_) if present.mandatory => Opening::Opened,
        SyncWait::Ms(_) => Opening::GiveUp,
    }
}

/// Whether the nodes that the gate waits for are live.
fn present_of(config: &Config, state: &State) -> Present
    ensures { result ≡ present_of config.now state.now }
{
    let mut present = Present {
        mandatory: true,
        optional: true,
    };
    for number in 0..config.nodes() {
        let more = present_at(config, state, NodeId(number));
        present = both(present, more);
    }
    present
}

/// [`Present`] for one node alone.
fn present_at(config: &Config, state: &State, node: NodeId) -> Present
    requires { node.0 < node_count config.now }
    ensures { result ≡ present_at config.now state.now node }
{
    let mandatory = is_live_if(state, node, config.mandatory(node));
    let optional = is_live_if(state, node, config.optional(node));
    Present {
        mandatory,
        optional,
    }
}

/// [`Present`] for two sets of nodes together.
fn both(first: Present, more: Present) -> Present
    ensures { result ≡ both first more }
{
    Present {
        mandatory: first.mandatory && more.mandatory,
        optional: first.optional && more.optional,
    }
}

/// Whether a node is live, or the gate doesn't wait for it.
fn is_live_if(state: &State, node: NodeId, awaited: bool) -> bool
    ensures { result ≡ is_live_if state.now node awaited }
{
    let live = state.lives().live(node).is_some();
    live || !awaited
}
