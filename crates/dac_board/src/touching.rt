//! Pairs that a change of state touches.
ghost use Rattle.std.specs.Prelude.{◌≡◌, ◌<◌};
ghost use Rattle.dac_config.specs.Table.{app_count};
ghost use Rattle.dac_board.specs.Touched.{is_touched, stand_alike};

use dac_base::{AppId, NodeId};
use dac_config::Config;
use dac_state::{Key, State};

/// Whether the application's list names the node, and its life, or the permits, starts or drains that stand at its live
/// incarnation, differ between two states.
pub(crate) fn is_touched(
    config: &Config,
    old: &State,
    new: &State,
    app: AppId,
    node: NodeId,
) -> bool
    requires { app.0 < app_count config.now }
    ensures value { result ≡ is_touched config.now old.now new.now app node }
{
    if config.group_of(app, node).is_none() {
        return false;
    }
    if old.lives().greatest_life(node) != new.lives().greatest_life(node) {
        return true;
    }
    match new.lives().live(node) {
        Some(inc) => !stand_alike(old, new, Key { app, node, inc }),
        None => false,
    }
}

/// Whether the same permits and starts stand at a key in two states, and the same drains at its incarnation.
fn stand_alike(old: &State, new: &State, key: Key) -> bool
    ensures { result ≡ stand_alike old.now new.now key }
{
    let permits = old.permissions().dots(key) == new.permissions().dots(key);
    let starts = old.wishes().dots(key) == new.wishes().dots(key);
    let drains = old.drains().dots(key.node, key.inc) == new.drains().dots(key.node, key.inc);
    permits && starts && drains
}
