//! `dac_decide` and `dac_status`.
use crate::parts::up;
use crate::texts::TWO;
use dac_config::{AppId, Config, NodeId, read_config};
use dac_decide::{Board, Opening, Verdict, Waits, eligible, gate, load, verdict};
use dac_dots::Origin;
use dac_state::State;
use dac_status::{Summary, header, page};
use std::alloc::Global;

/// True if an application that wasn't started runs nowhere.
fn is_nobody(config: &Config, state: &State) -> bool {
    let app = AppId(0);
    if config.apps() == 0 {
        return false;
    }
    let none: u32 = load(config, state, app, NodeId(0));
    !eligible(config, state, app, NodeId(0))
        && none == 0
        && verdict(config, state, app) == Verdict::Nobody
}

/// True if the start gate is open and no failover due.
fn goes_on(alloc: Global, config: &Config, state: &State) -> Option<bool> {
    let mut waits = Waits::new(alloc, config).ok()?;
    waits.note(config, state, 1);
    if config.apps() == 0 {
        return None;
    }
    let due: bool = waits.copy().ok()?.due(config, state, AppId(0), 1);
    let opening = match gate(config, state, 0, 1) {
        Opening::Opened => true,
        Opening::Shut => false,
        Opening::GiveUp => false,
    };
    Some(opening && !due)
}

/// True if a board agrees, also after it absorbs the state again.
fn is_shown(alloc: Global, config: &Config, state: &State) -> Option<bool> {
    let mut board: Board = Board::new(alloc, config, state).ok()?.copy().ok()?;
    let looked: u64 = board.looked();
    board.absorb(config, state, state, state);
    Some(
        board.verdict(AppId(0)) == Verdict::Nobody
            && board.load(AppId(0), NodeId(0)) == 0
            && board.looked() == looked,
    )
}

/// True if a header and a page are printed.
fn is_printed(alloc: Global, config: &Config, state: &State) -> Option<bool> {
    let origin = Origin {
        node: NodeId(0),
        inc: 1,
    };
    if config.nodes() == 0 {
        return None;
    }
    let head: Vec<u8> = header(alloc, config, NodeId(0), Some(origin)).ok()?;
    let summary: Summary = Summary::of(config, state);
    let text: Vec<u8> = page(alloc, config, &summary).ok()?;
    Some(!head.is_empty() && !text.is_empty())
}

/// True if all of this holds in the state after the first node came up.
fn all_hold(alloc: Global) -> Option<bool> {
    let config = read_config(alloc, TWO).ok()?;
    let state = up(alloc)?;
    Some(
        is_nobody(&config, &state)
            && goes_on(alloc, &config, &state)?
            && is_shown(alloc, &config, &state)?
            && is_printed(alloc, &config, &state)?,
    )
}

#[test]
fn decisions(rt: HostRuntime) {
    assert!(rt; all_hold(rt.alloc()) == Some(true));
}
