//! Waits, boards and pages.
use crate::sample::{APP, Does, ME, OTHER, config, meaning};
use crate::trial::{Fixture, Said, of_any, of_bytes};
use dac_base::NoMemory;
use dac_board::Board;
use dac_config::Config;
use dac_decide::Waits;
use dac_state::State;
use dac_status::{Summary, header, page};
use std::alloc::Global;

/// A call of waits, boards or pages.
#[derive(Clone, Copy, Debug, PartialEq, Eq)]
pub enum OfDecision {
    NewWaits,
    CopyWaits,
    NewBoard,
    CopyBoard,
    Header,
    Page,
}

/// A configuration and a state, with waits and a board.
#[derive(Drop)]
pub struct DecisionFixture {
    alloc: Global,
    asked: OfDecision,
    config: Config,
    state: State,
    waits: Waits,
    board: Board,
}

/// The fixture of decisions.
pub fn decisions(alloc: Global, asked: OfDecision) -> Option<DecisionFixture> {
    let config = config(alloc)?;
    let state = meaning(alloc, OTHER, Does::Up)?;
    Some(DecisionFixture {
        alloc,
        asked,
        waits: Waits::new(alloc, &config).ok()?,
        board: Board::new(alloc, &config, &state).ok()?,
        config,
        state,
    })
}

/// The outcome of a call that returns a board: the number of applications at the other node.
fn of_board(answer: Result<Board, NoMemory>) -> Said {
    match answer {
        Ok(board) => Said::Well(u64::from(board.load(APP, OTHER))),
        Err(_) => Said::NoMemory,
    }
}

impl DecisionFixture {
    /// Writes the header of a page.
    fn head(&self) -> Said {
        if ME.0 < self.config.nodes() {
            of_bytes(header(self.alloc, &self.config, ME, None))
        } else {
            Said::Other
        }
    }

    /// Writes a page.
    fn rest(&self) -> Said {
        let summary = Summary::of(&self.config, &self.state);
        of_bytes(page(self.alloc, &self.config, &summary))
    }
}

impl Fixture for DecisionFixture {
    fn call(&mut self) -> Said {
        match self.asked {
            OfDecision::NewWaits => of_any(Waits::new(self.alloc, &self.config)),
            OfDecision::CopyWaits => of_any(self.waits.copy()),
            OfDecision::NewBoard => of_board(Board::new(self.alloc, &self.config, &self.state)),
            OfDecision::CopyBoard => of_board(self.board.copy()),
            OfDecision::Header => self.head(),
            OfDecision::Page => self.rest(),
        }
    }

    fn is_as_before(&self) -> bool {
        true
    }
}
