//! The data that the workers of a run share, and those of one of its sites.

use crate::phases::{Line, Phase};
use dac_base::NodeId;
use dac_config::Config;
use dac_workers::{Site, SiteName, Watch};
use std::alloc::Global;

/// The data that all workers share.
#[derive(Drop)]
pub(crate) struct Shared<'a, H: Watch> {
    pub(crate) alloc: Global,
    pub(crate) config: &'a Config,
    pub(crate) phases: &'a [Phase],
    pub(crate) watch: &'a H,
    pub(crate) nodes: u8,
}

/// A worker's assignment: its node, the site, and the run's phases. The workers of a site share it.
#[derive(Drop)]
pub(crate) struct Assignment<'a, L: SiteName> {
    pub(crate) alloc: Global,
    pub(crate) config: &'a Config,
    pub(crate) phases: &'a [Phase],
    pub(crate) node: NodeId,
    pub(crate) site: &'a Site<L>,
}

impl<'a, L: SiteName> Assignment<'a, L> {
    /// The assignment to this node's site.
    pub(crate) fn at<H: Watch>(shared: &Shared<'a, H>, node: NodeId, site: &'a Site<L>) -> Self {
        Assignment {
            alloc: shared.alloc,
            config: shared.config,
            phases: shared.phases,
            node,
            site,
        }
    }

    /// The lines of a phase, or none if there is no such phase.
    pub(crate) fn lines_in(&self, phase: usize) -> &'a [Line] {
        match self.phases.get(phase) {
            Some(phase) => phase.lines.as_slice(),
            None => &[],
        }
    }
}
