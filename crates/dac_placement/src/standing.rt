//! The standing of an application at its holder.
ghost use Rattle.std.specs.Prelude.{◌≡◌, ◌<◌};
ghost use Rattle.dac_config.specs.Table.{app_count};
ghost use Rattle.dac_placement.specs.Placement.{group_held, standing_of};

use crate::eligibility::{is_allowed, is_started};
use crate::running::{holder, is_up};
use dac_base::{AppId, NodeId};
use dac_config::Config;
use dac_state::{Key, State};

/// The first problem at the holder, if any.
#[derive(Clone, Copy, Debug, PartialEq, Eq)]
pub enum Standing {
    /// The application has no holder.
    Unclaimed,
    /// The holder's incarnation isn't live.
    Lost,
    /// The application was stopped at this node, its holder.
    Stopped(NodeId),
    /// The application isn't permitted at its holder, or the holder is drained.
    Barred,
    /// There is no problem at this node, the holder.
    Upheld(NodeId),
}

/// The standing of an application at its holder.
pub fn standing_of(config: &Config, state: &State, app: AppId) -> Standing
    requires { app.0 < app_count config.now }
    ensures { result ≡ standing_of config.now state.now app }
{
    let Some(holder) = holder(state, app) else {
        return Standing::Unclaimed;
    };
    if !is_up(state, holder) {
        return Standing::Lost;
    }
    let key = Key {
        app,
        node: holder.node,
        inc: holder.inc,
    };
    if !is_started(state, key) {
        Standing::Stopped(holder.node)
    } else if !is_allowed(config, state, key) {
        Standing::Barred
    } else {
        Standing::Upheld(holder.node)
    }
}

/// The group of the holder, if it is upheld.
pub fn group_held(config: &Config, app: AppId, standing: Standing) -> Option<u16>
    requires { app.0 < app_count config.now }
    ensures { result ≡ group_held config.now app standing }
{
    match standing {
        Standing::Upheld(holder) => config.group_of(app, holder),
        _ => None,
    }
}
