//! The precondition of a run.

ghost use Rattle.std.specs.Prelude.{◌≡◌, true, All};
ghost use Rattle.dac_config.specs.Table.{node_count};
ghost use Rattle.dac_live.specs.Lines.{IsLineOf, HasLines};

use dac_config::Config;
use dac_crews::{CALLERS, Line, Phase};

/// Returns whether the line is for a node below this number, and for a caller from 1 to 4.
fn is_line(nodes: u8, line: &Line) -> bool
    ensures { result ≡ true → IsLineOf nodes line.now }
{
    line.node.0 < nodes && 1 <= line.caller && line.caller <= CALLERS
}

/// Returns whether all lines of the phase are for nodes below this number, and for callers 1 to 4.
fn has_lines(nodes: u8, phase: &Phase) -> bool
    ensures { result ≡ true → HasLines nodes phase.now }
{
    for line in &phase.lines {
        if !is_line(nodes, line) {
            return false;
        }
    }
    true
}

/// Returns whether all lines are for nodes of the configuration and for callers 1 to 4, as
/// [`run_live`](crate::run_live) requires.
pub fn are_runnable(config: &Config, phases: &[Phase]) -> bool
    ensures { result ≡ true → All (HasLines (node_count config.now)) phases.now }
{
    let nodes = config.nodes();
    for phase in phases {
        if !has_lines(nodes, phase) {
            return false;
        }
    }
    true
}
