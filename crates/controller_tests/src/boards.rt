//! Boards: their verdicts and loads, and how many pairs they re-evaluate, while c2@h runs the second application.
use crate::placement::RUNNING;
use crate::steps::{Kind, Step, TWO, state_after};
use dac_base::{AppId, NodeId};
use dac_board::Board;
use dac_config::read_config;
use dac_placement::Verdict;
use dac_state::How;
use std::alloc::Global;

const C1: NodeId = NodeId(0);

const C2: NodeId = NodeId(1);

const C3: NodeId = NodeId(2);

/// A step, the pairs evaluated so far, both verdicts, and the load of c2@h for the first application. A new board
/// evaluates the four pairs of the lists.
const STEPS: &[(Step, u64, Verdict, Verdict, u32)] = &[
    // A claim affects no pair.
    (
        (0, 1, Kind::Claim(0, 1, How::Normal, None)),
        4,
        Verdict::Kept(C1),
        Verdict::Kept(C2),
        1,
    ),
    // A permit affects one pair.
    (
        (0, 1, Kind::Forbid(0)),
        5,
        Verdict::Start(C3),
        Verdict::Kept(C2),
        1,
    ),
    // A stop affects one pair.
    (
        (1, 1, Kind::Stop(1)),
        5,
        Verdict::Start(C1),
        Verdict::Halted(C2),
        0,
    ),
    // c2@h, which goes down, is in both lists.
    (
        (2, 1, Kind::Down(1, 1)),
        6,
        Verdict::Start(C1),
        Verdict::Nobody,
        0,
    ),
    // c2@h, which is drained, is in both lists.
    (
        (1, 1, Kind::Drain),
        6,
        Verdict::Start(C1),
        Verdict::Nobody,
        0,
    ),
    // A node in one list affects one pair if it goes down,
    (
        (2, 1, Kind::Down(0, 1)),
        5,
        Verdict::Start(C3),
        Verdict::Kept(C2),
        1,
    ),
    (
        (0, 1, Kind::Down(2, 1)),
        5,
        Verdict::Start(C1),
        Verdict::Kept(C2),
        1,
    ),
    // or is drained.
    (
        (0, 1, Kind::Drain),
        5,
        Verdict::Start(C3),
        Verdict::Kept(C2),
        1,
    ),
    (
        (2, 1, Kind::Drain),
        5,
        Verdict::Start(C1),
        Verdict::Kept(C2),
        1,
    ),
    // A permit or start outside the application's list affects no pair.
    (
        (0, 1, Kind::Forbid(1)),
        4,
        Verdict::Start(C1),
        Verdict::Kept(C2),
        1,
    ),
    (
        (2, 1, Kind::Start(1)),
        4,
        Verdict::Start(C1),
        Verdict::Kept(C2),
        1,
    ),
];

/// The values of a board after one step, and those of its copy.
fn said_after(alloc: Global, step: Step) -> Option<[(u64, Verdict, Verdict, u32); 2]> {
    let config = read_config(alloc, TWO).ok()?;
    let old = state_after(alloc, RUNNING, &[])?;
    let delta = state_after(alloc, &[], &[step])?;
    let new = state_after(alloc, RUNNING, &[step])?;
    let mut board = Board::new(alloc, &config, &old).ok()?;
    board.absorb(&config, &old, &new, &delta);
    let copied = board.copy().ok()?;
    Some([said_by(&board), said_by(&copied)])
}

/// The values of a board.
fn said_by(board: &Board) -> (u64, Verdict, Verdict, u32) {
    let first = board.verdict(AppId(0));
    let second = board.verdict(AppId(1));
    (board.looked(), first, second, board.load(AppId(0), C2))
}

/// True if a board and its copy have the values of this row.
fn is_so(alloc: Global, row: usize) -> bool {
    let Some((step, looked, first, second, load)) = STEPS.get(row) else {
        return false;
    };
    let said = (*looked, *first, *second, *load);
    said_after(alloc, *step) == Some([said, said])
}

#[test]
fn boards_look_at_what_is_touched(rt: HostRuntime) {
    for row in 0..STEPS.len() {
        assert!(rt; is_so(rt.alloc(), row));
    }
}
