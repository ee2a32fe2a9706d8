//! Rows and their eligible nodes, as what tells where applications run and which nodes are candidates.
ghost use Rattle.std.specs.Prelude.{◌≡◌, ◌<◌, ◌^◌, length};
ghost use Rattle.dac_board.specs.Rows.{group_in, group_on, is_on, runs_on};

use crate::row::Row;
use crate::spot::Spot;
use dac_base::{AppId, NodeId};
use dac_placement::{Candidates, Runs};

/// Where applications run, by the rows of a board.
#[derive(Clone, Copy)]
pub(crate) struct Rows<'a> {
    pub(crate) rows: &'a [Row],
    ghost few: { length rows.now < 2 ^ 16 },
}

impl<'a> Runs for Rows<'a> {
    ghost apps = { λ it. length it.rows.now };

    ghost runs = { λ it app node. runs_on it.rows.now app node };

    fn apps(&self) -> u16 {
        self.rows.len() as u16
    }

    fn runs(&self, app: AppId, node: NodeId) -> bool {
        match self.rows.get(app.0 as usize) {
            Some(row) => row.runs(node),
            None => false,
        }
    }
}

/// The candidates for an application, from its eligible nodes, node by node.
#[derive(Clone, Copy)]
pub(crate) struct Spots<'a> {
    pub(crate) spots: &'a [Option<Spot>],
    ghost few: { length spots.now < 2 ^ 8 },
}

impl<'a> Candidates for Spots<'a> {
    ghost nodes = { λ it. length it.spots.now };

    ghost group = { λ it node. group_on it.spots.now node };

    ghost eligible = { λ it node. is_on it.spots.now node };

    fn nodes(&self) -> u8 {
        self.spots.len() as u8
    }

    fn group(&self, node: NodeId) -> Option<u16> {
        match self.spots.get(node.0 as usize) {
            Some(spot) => group_in(*spot),
            None => None,
        }
    }

    fn is_eligible(&self, node: NodeId) -> bool {
        self.group(node).is_some()
    }
}

/// The group of an eligible node.
fn group_in(spot: Option<Spot>) -> Option<u16>
    ensures { result ≡ group_in spot }
{
    let spot = spot?;
    Some(spot.group)
}
