//! Failover waits of an application at c1@h, else after five seconds at c2@h or c3@h; and start gates of three nodes.
use crate::steps::{Kind, Step, state_after};
use dac_base::AppId;
use dac_config::{Config, read_config};
use dac_decide::{Board, Opening, Waits, gate};
use dac_state::{How, State};
use std::alloc::Global;

/// An application with a failover wait of five seconds.
const FAILOVER: &[u8] = b"[{kernel,[{distributed,[{a,5000,[c1@h,{c2@h,c3@h}]}]}]}].";

/// All nodes came up, and c1@h ran the application and went down.
const LOST: &[Step] = &[
    (0, 1, Kind::Up),
    (1, 1, Kind::Up),
    (2, 1, Kind::Up),
    (0, 1, Kind::Start(0)),
    (0, 1, Kind::Claim(0, 1, How::Normal, None)),
    (1, 1, Kind::Start(0)),
    (2, 1, Kind::Start(0)),
    (2, 1, Kind::Down(0, 1)),
];

/// First c1@h and then c2@h ran the application and went down.
const LOST_AGAIN: &[Step] = &[
    (0, 1, Kind::Up),
    (1, 1, Kind::Up),
    (2, 1, Kind::Up),
    (0, 1, Kind::Start(0)),
    (0, 1, Kind::Claim(0, 1, How::Normal, None)),
    (2, 1, Kind::Start(0)),
    (2, 1, Kind::Down(0, 1)),
    (1, 1, Kind::Start(0)),
    (1, 1, Kind::Claim(0, 2, How::Normal, None)),
    (2, 1, Kind::Down(1, 1)),
];

/// c1@h ran the application, went down and came up again.
const BACK: &[Step] = &[
    (0, 1, Kind::Up),
    (2, 1, Kind::Up),
    (0, 1, Kind::Start(0)),
    (0, 1, Kind::Claim(0, 1, How::Normal, None)),
    (2, 1, Kind::Start(0)),
    (2, 1, Kind::Down(0, 1)),
    (0, 2, Kind::Up),
    (0, 2, Kind::Start(0)),
];

/// Only c2@h is up, and the application is started there.
const STARTED: &[Step] = &[(1, 1, Kind::Up), (1, 1, Kind::Start(0))];

/// Only c2@h is up, and runs the application.
const RUNNING: &[Step] = &[
    (1, 1, Kind::Up),
    (1, 1, Kind::Start(0)),
    (1, 1, Kind::Claim(0, 1, How::Normal, None)),
];

/// Notes with their times; then steps, a time, and whether the verdict is due then. A failover waits from its first
/// note, another lost claim begins a new wait, a returning node claims at once, and nothing else waits.
const DUES: &[(&[(&[Step], u64)], &[Step], u64, bool)] = &[
    (&[], LOST, 9000, false),
    (&[(LOST, 1000), (LOST, 5999)], LOST, 5999, false),
    (&[(LOST, 1000), (LOST, 5999)], LOST, 6000, true),
    (&[(LOST, 1000)], LOST_AGAIN, 6000, false),
    (&[(LOST, 1000), (LOST_AGAIN, 3000)], LOST_AGAIN, 7999, false),
    (&[(LOST, 1000), (LOST_AGAIN, 3000)], LOST_AGAIN, 8000, true),
    (&[], BACK, 0, true),
    (&[], STARTED, 0, true),
    (&[], RUNNING, 0, false),
];

/// The waits after these notes, each of the steps' state at its time.
fn waits_after(alloc: Global, config: &Config, notes: &[(&[Step], u64)]) -> Option<Waits> {
    let mut waits = Waits::new(alloc, config).ok()?;
    for (steps, now) in notes {
        let state = state_after(alloc, steps, &[])?;
        waits.note(config, &state, *now);
    }
    waits.copy().ok()
}

/// True if the verdict on the application is due.
fn is_due(config: &Config, waits: &Waits, state: &State, now: u64) -> bool {
    let app = AppId(0);
    app.0 < config.apps() && waits.due(config, state, app, now)
}

/// True if the verdict in the steps' state is due at this time, after these notes.
fn is_due_after(alloc: Global, notes: &[(&[Step], u64)], steps: &[Step], now: u64) -> Option<bool> {
    let config = read_config(alloc, FAILOVER).ok()?;
    let waits = waits_after(alloc, &config, notes)?;
    let state = state_after(alloc, steps, &[])?;
    Some(is_due(&config, &waits, &state, now))
}

#[test]
fn failovers_wait(rt: HostRuntime) {
    for (notes, steps, now, due) in DUES {
        let answer = is_due_after(rt.alloc(), notes, steps, *now);
        assert!(rt; answer == Some(*due), "at {now}");
    }
}

/// True if noting the steps' state would change nothing after these notes.
fn are_quiet_after(alloc: Global, notes: &[(&[Step], u64)], steps: &[Step]) -> Option<bool> {
    let config = read_config(alloc, FAILOVER).ok()?;
    let waits = waits_after(alloc, &config, notes)?;
    let state = state_after(alloc, steps, &[])?;
    let board = Board::new(alloc, &config, &state).ok()?;
    Some(waits.are_quiet(&config, &board))
}

#[test]
fn quiet_waits(rt: HostRuntime) {
    assert!(rt; are_quiet_after(rt.alloc(), &[], RUNNING) == Some(true));
    assert!(rt; are_quiet_after(rt.alloc(), &[], LOST) == Some(false));
    assert!(rt; are_quiet_after(rt.alloc(), &[(LOST, 1000)], RUNNING) == Some(false));
}

/// Three nodes, the second mandatory and the third optional.
const FIVE_SECONDS: &[u8] =
    b"[{kernel,[{distributed,[{a,[c1@h]}]},{sync_nodes_mandatory,[c2@h]},{sync_nodes_optional,[c3@h]},{sync_nodes_timeout,5000}]}].";

const FOREVER: &[u8] =
    b"[{kernel,[{distributed,[{a,[c1@h]}]},{sync_nodes_mandatory,[c2@h]},{sync_nodes_timeout,infinity}]}].";

const NO_TIME: &[u8] = b"[{kernel,[{distributed,[{a,[c1@h]}]},{sync_nodes_mandatory,[c2@h]}]}].";

/// Steps in which the first nodes come up.
const FIRST: &[Step] = &[(0, 1, Kind::Up)];

const FIRST_TWO: &[Step] = &[(0, 1, Kind::Up), (1, 1, Kind::Up)];

const ALL: &[Step] = &[(0, 1, Kind::Up), (1, 1, Kind::Up), (2, 1, Kind::Up)];

/// Configuration, steps, milliseconds since boot, and the state of the start gate.
const GATES: &[(&[u8], &[Step], u32, Opening)] = &[
    (FIVE_SECONDS, FIRST, 4999, Opening::Shut),
    (FIVE_SECONDS, FIRST, 5000, Opening::GiveUp),
    (FIVE_SECONDS, FIRST_TWO, 4999, Opening::Shut),
    (FIVE_SECONDS, FIRST_TWO, 5000, Opening::Opened),
    (FIVE_SECONDS, ALL, 0, Opening::Opened),
    (NO_TIME, FIRST, 0, Opening::Opened),
    (FOREVER, FIRST, u32::MAX, Opening::Shut),
];

/// The state of the start gate `elapsed` milliseconds after a boot at 1000.
fn opening(alloc: Global, text: &[u8], steps: &[Step], elapsed: u32) -> Option<Opening> {
    let config = read_config(alloc, text).ok()?;
    let state = state_after(alloc, steps, &[])?;
    Some(gate(&config, &state, 1000, 1000 + u64::from(elapsed)))
}

#[test]
fn gates_wait(rt: HostRuntime) {
    for (text, steps, elapsed, wanted) in GATES {
        let answer = opening(rt.alloc(), text, steps, *elapsed);
        assert!(rt; answer == Some(*wanted), "{wanted:?} at {elapsed}");
    }
}

#[test]
fn laws_are_told() {
    dac_decide::laws::waits_in_words();
}
