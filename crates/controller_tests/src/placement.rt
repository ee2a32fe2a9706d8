//! Verdicts and loads: an application at c1@h, else at c2@h or c3@h, and one at c2@h only.
use crate::steps::{Kind, Step, TWO, state_after};
use dac_base::{AppId, NodeId};
use dac_config::{Config, read_config};
use dac_origins::Origin;
use dac_placement::{
    Verdict, eligible, holder, is_permitted, is_started, is_up, load, runs_at, verdict,
};
use dac_state::{How, Key, State};
use std::alloc::Global;

const C1: NodeId = NodeId(0);

const C2: NodeId = NodeId(1);

const C3: NodeId = NodeId(2);

/// All three nodes are up, and the first application is started at each.
const STARTED: &[Step] = &[
    (0, 1, Kind::Up),
    (1, 1, Kind::Up),
    (2, 1, Kind::Up),
    (0, 1, Kind::Start(0)),
    (1, 1, Kind::Start(0)),
    (2, 1, Kind::Start(0)),
];

/// All three nodes are up, the first application is started at each, and c2@h runs the second one.
pub const RUNNING: &[Step] = &[
    (0, 1, Kind::Up),
    (1, 1, Kind::Up),
    (2, 1, Kind::Up),
    (0, 1, Kind::Start(0)),
    (1, 1, Kind::Start(0)),
    (2, 1, Kind::Start(0)),
    (1, 1, Kind::Start(1)),
    (1, 1, Kind::Claim(1, 1, How::Normal, None)),
];

const FIRST_DOWN: Step = (2, 1, Kind::Down(0, 1));

/// Steps before and after; the verdicts on both applications, and the load of c2@h for the first.
const VERDICTS: &[(&[Step], &[Step], Verdict, Verdict, u32)] = &[
    // Started at the first node of its list.
    (RUNNING, &[], Verdict::Start(C1), Verdict::Kept(C2), 1),
    // Started, and failed over, where the load is least.
    (
        RUNNING,
        &[FIRST_DOWN],
        Verdict::Start(C3),
        Verdict::Kept(C2),
        1,
    ),
    (
        RUNNING,
        &[FIRST_DOWN, (0, 1, Kind::Claim(0, 1, How::Normal, None))],
        Verdict::Failover(C3),
        Verdict::Kept(C2),
        1,
    ),
    // Claims of a node that is down aren't load.
    (
        RUNNING,
        &[FIRST_DOWN, (2, 1, Kind::Down(1, 1))],
        Verdict::Start(C3),
        Verdict::Nobody,
        0,
    ),
    // Equal loads are decided by name.
    (
        STARTED,
        &[FIRST_DOWN],
        Verdict::Start(C2),
        Verdict::Nobody,
        0,
    ),
    // A node of an earlier group takes over.
    (
        RUNNING,
        &[(1, 1, Kind::Claim(0, 1, How::Normal, None))],
        Verdict::Takeover(C1),
        Verdict::Kept(C2),
        1,
    ),
    // Within a group the application stays.
    (
        RUNNING,
        &[FIRST_DOWN, (1, 1, Kind::Claim(0, 1, How::Normal, None))],
        Verdict::Kept(C2),
        Verdict::Kept(C2),
        1,
    ),
    // A stopped application stays where it was.
    (
        RUNNING,
        &[
            (0, 1, Kind::Claim(0, 1, How::Normal, None)),
            (0, 1, Kind::Stop(0)),
        ],
        Verdict::Halted(C1),
        Verdict::Kept(C2),
        1,
    ),
    // A forbidden application moves.
    (
        RUNNING,
        &[
            (0, 1, Kind::Claim(0, 1, How::Normal, None)),
            (0, 1, Kind::Forbid(0)),
        ],
        Verdict::Move(C3),
        Verdict::Kept(C2),
        1,
    ),
    // An application moves from a drained node.
    (
        RUNNING,
        &[
            (0, 1, Kind::Claim(0, 1, How::Normal, None)),
            (0, 1, Kind::Drain),
        ],
        Verdict::Move(C3),
        Verdict::Kept(C2),
        1,
    ),
    // A drained node isn't chosen. Its claims aren't load, even if no other node can run the application.
    (
        RUNNING,
        &[FIRST_DOWN, (1, 1, Kind::Drain)],
        Verdict::Start(C3),
        Verdict::Nobody,
        0,
    ),
    // A drain applies to one incarnation.
    (
        RUNNING,
        &[
            (0, 1, Kind::Drain),
            (0, 2, Kind::Up),
            (0, 2, Kind::Start(0)),
        ],
        Verdict::Start(C1),
        Verdict::Kept(C2),
        1,
    ),
];

/// True if this is the verdict on an application.
fn is_verdict(config: &Config, state: &State, app: u16, wanted: Verdict) -> bool {
    app < config.apps() && verdict(config, state, AppId(app)) == wanted
}

/// True if these are the verdicts and the load.
fn are_judged(
    alloc: Global,
    before: &[Step],
    then: &[Step],
    verdicts: (Verdict, Verdict),
    wanted: u32,
) -> Option<bool> {
    let config = read_config(alloc, TWO).ok()?;
    let state = state_after(alloc, before, then)?;
    Some(
        is_verdict(&config, &state, 0, verdicts.0)
            && is_verdict(&config, &state, 1, verdicts.1)
            && load(&config, &state, AppId(0), C2) == wanted,
    )
}

#[test]
fn verdicts_of_worked_cases(rt: HostRuntime) {
    for (before, then, a, b, load) in VERDICTS {
        let answer = are_judged(rt.alloc(), before, then, (*a, *b), *load);
        assert!(rt; answer == Some(true), "{a:?} and {b:?}");
    }
}

/// True if the node is eligible for the second application and runs it, or if `wanted` is false and neither holds.
fn is_at(config: &Config, state: &State, node: NodeId, wanted: bool) -> bool {
    let app = AppId(1);
    app.0 < config.apps()
        && eligible(config, state, app, node) == wanted
        && runs_at(config, state, app, node) == wanted
}

/// True if only c2@h is eligible for the second application and runs it.
fn is_at_second(alloc: Global) -> Option<bool> {
    let config = read_config(alloc, TWO).ok()?;
    let state = state_after(alloc, RUNNING, &[])?;
    Some(
        is_at(&config, &state, C1, false)
            && is_at(&config, &state, C2, true)
            && is_at(&config, &state, C3, false),
    )
}

#[test]
fn listed_live_and_started_is_eligible(rt: HostRuntime) {
    assert!(rt; is_at_second(rt.alloc()) == Some(true));
}

/// True if the second application is started and permitted at c2@h.
fn is_wished(config: &Config, state: &State) -> bool {
    let key = Key {
        app: AppId(1),
        node: C2,
        inc: 1,
    };
    key.app.0 < config.apps() && is_permitted(config, state, key) && is_started(state, key)
}

/// True if c2@h, which is up, holds the second application.
fn is_held(alloc: Global) -> Option<bool> {
    let config = read_config(alloc, TWO).ok()?;
    let state = state_after(alloc, RUNNING, &[])?;
    let origin = Origin { node: C2, inc: 1 };
    let is_held = holder(&state, AppId(1)) == Some(origin) && is_up(&state, origin);
    Some(is_held && is_wished(&config, &state))
}

#[test]
fn holder_is_up_started_and_permitted(rt: HostRuntime) {
    assert!(rt; is_held(rt.alloc()) == Some(true));
}

/// Verdict, and the node that should claim.
const CANDIDATES: &[(Verdict, Option<NodeId>)] = &[
    (Verdict::Start(C1), Some(C1)),
    (Verdict::Failover(C2), Some(C2)),
    (Verdict::Move(C3), Some(C3)),
    (Verdict::Takeover(C1), Some(C1)),
    (Verdict::Halted(C1), None),
    (Verdict::Kept(C1), None),
    (Verdict::Nobody, None),
];

#[test]
fn who_is_to_claim(rt: HostRuntime) {
    for (verdict, candidate) in CANDIDATES {
        assert!(rt; verdict.candidate() == *candidate, "{verdict:?}");
    }
}

#[test]
fn laws_are_told() {
    dac_placement::laws::placement_in_words();
}
