//! Loads of nodes.
ghost use Rattle.std.specs.Prelude.{◌≡◌};
ghost use Rattle.dac_placement.specs.Choices.{load_by};

use crate::candidates::Runs;
use dac_base::{AppId, NodeId};

/// How many other applications run at a node.
pub fn load_by<R: Runs>(runners: &R, app: AppId, node: NodeId) -> u32
    ensures { result ≡ load_by (R.runs runners.now) (R.apps runners.now) app node }
{
    let mut load = 0;
    for number in 0..runners.apps() {
        let other = AppId(number);
        let runs = runners.runs(other, node);
        if other != app && runs {
            load += 1;
        }
    }
    load
}
