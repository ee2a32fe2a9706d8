//! Runners and marks, as what tells where applications run and which nodes are candidates.
ghost use Rattle.std.specs.Prelude.{◌≡◌, ◌<◌, get_or};
ghost use Rattle.dac_config.specs.Table.{app_count, group_of, node_count};
ghost use Rattle.dac_status.specs.declared.marks.Mark.TheVariants.{Down};
ghost use Rattle.dac_status.specs.Kept.{is_ok, is_there, runs_in};

use crate::kept::is_ok;
use crate::marks::Mark;
use dac_base::{AppId, MAX_APPS, MAX_NODES, NodeId};
use dac_config::Config;
use dac_placement::{Candidates, Runs};

/// Where applications run, from the runner of each.
#[derive(Clone, Copy)]
pub(crate) struct Runners<'a> {
    pub(crate) config: &'a Config,
    pub(crate) runners: &'a [Option<NodeId>; MAX_APPS],
}

impl<'a> Runs for Runners<'a> {
    ghost apps = { λ it. app_count it.config.now };

    ghost runs = { λ it app node. runs_in it.runners.now app node };

    fn apps(&self) -> u16 {
        self.config.apps()
    }

    fn runs(&self, app: AppId, node: NodeId) -> bool {
        let runners = self.runners;
        match runners.get(app.0 as usize) {
            Some(runner) => is_at(*runner, node),
            None => false,
        }
    }
}

/// Whether an application's runner is this node.
fn is_at(runner: Option<NodeId>, node: NodeId) -> bool
    ensures { result ≡ is_there runner node }
{
    match runner {
        Some(at) => at.0 == node.0,
        None => false,
    }
}

/// The candidates for an application, from the nodes' marks for it.
#[derive(Clone, Copy)]
pub(crate) struct Marked<'a> {
    pub(crate) config: &'a Config,
    pub(crate) app: AppId,
    pub(crate) marks: &'a [Mark; MAX_NODES],
    ghost listed: { app.0 < app_count config.now },
}

impl<'a> Candidates for Marked<'a> {
    ghost nodes = { λ it. node_count it.config.now };

    ghost group = { λ it node. group_of it.config.now it.app node };

    ghost eligible = { λ it node. is_ok (get_or it.marks.now node.0 Down) };

    fn nodes(&self) -> u8 {
        self.config.nodes()
    }

    fn group(&self, node: NodeId) -> Option<u16> {
        self.config.group_of(self.app, node)
    }

    fn is_eligible(&self, node: NodeId) -> bool {
        let marks = self.marks;
        match marks.get(node.0 as usize) {
            Some(mark) => is_ok(*mark),
            None => false,
        }
    }
}
