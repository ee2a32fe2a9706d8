//! A state under a configuration, as what tells where applications run and which nodes are candidates.
ghost use Rattle.std.specs.Prelude.{◌<◌};
ghost use Rattle.dac_config.specs.Table.{app_count, group_of, node_count};
ghost use Rattle.dac_placement.specs.Placement.{is_eligible, runs_at};

use crate::candidates::{Candidates, Runs};
use crate::eligibility::eligible;
use crate::running::runs_at;
use dac_base::{AppId, NodeId};
use dac_config::Config;
use dac_state::State;

/// Where applications run in a state.
#[derive(Clone, Copy)]
pub(crate) struct Running<'a> {
    pub(crate) config: &'a Config,
    pub(crate) state: &'a State,
}

impl<'a> Runs for Running<'a> {
    ghost apps = { λ it. app_count it.config.now };

    ghost runs = { λ it app node. runs_at it.config.now it.state.now app node };

    fn apps(&self) -> u16 {
        self.config.apps()
    }

    fn runs(&self, app: AppId, node: NodeId) -> bool {
        runs_at(self.config, self.state, app, node)
    }
}

/// The candidates for an application in a state.
#[derive(Clone, Copy)]
pub(crate) struct Listed<'a> {
    pub(crate) config: &'a Config,
    pub(crate) state: &'a State,
    pub(crate) app: AppId,
    ghost listed: { app.0 < app_count config.now },
}

impl<'a> Candidates for Listed<'a> {
    ghost nodes = { λ it. node_count it.config.now };

    ghost group = { λ it node. group_of it.config.now it.app node };

    ghost eligible = { λ it node. is_eligible it.config.now it.state.now it.app node };

    fn nodes(&self) -> u8 {
        self.config.nodes()
    }

    fn group(&self, node: NodeId) -> Option<u16> {
        self.config.group_of(self.app, node)
    }

    fn is_eligible(&self, node: NodeId) -> bool {
        eligible(self.config, self.state, self.app, node)
    }
}
