//! Eligible nodes with their groups.
ghost use Rattle.std.specs.Prelude.{◌≡◌, ◌<◌, ◌≤◌, ◌+◌};
ghost use Rattle.dac_config.specs.Table.{app_count};
ghost use Rattle.dac_board.specs.Boards.{spot_of};

use dac_base::{AppId, NodeId};
use dac_config::Config;
use dac_placement::{State, eligible};

/// A node that is eligible for an application.
#[derive(Clone, Copy, Debug, PartialEq, Eq)]
pub(crate) struct Spot {
    /// The node's group in the application's list, from 0.
    pub group: u16,
    /// The node's number.
    pub node: NodeId,
}

/// The node's spot, if it is eligible. Each evaluation of a listed node adds one to `looked`, which saturates; a node
/// outside the application's list isn't evaluated.
pub(crate) fn look(
    config: &Config,
    state: &State,
    app: AppId,
    node: NodeId,
    looked: &mut u64,
) -> Option<Spot>
    requires { app.0 < app_count config.now }
    ensures value { result ≡ spot_of config.now state.now app node }
    ensures once { looked.new ≤ looked.old + 1 }
    ensures rises { looked.old ≤ looked.new }
{
    let group = config.group_of(app, node)?;
    *looked = looked.saturating_add(1);
    if eligible(config, state, app, node) {
        Some(Spot { group, node })
    } else {
        None
    }
}
