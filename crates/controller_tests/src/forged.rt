//! Forged states: well-formed ones that no operations of a world mean.
use crate::steps::{Forged, Kind, TWO, meaning_of};
use dac_base::NodeId;
use dac_config::{Config, read_config};
use dac_state::How;
use std::alloc::Global;
use tried_states::is_borne;

/// The greatest counter, incarnation and term.
const MOST: u64 = 1 << 62;

/// States of operations that nobody issued: node, incarnation, counter and act. Most have extreme numbers and leave
/// gaps.
const STATES: &[&[Forged]] = &[
    &[(2, MOST, 1, Kind::Up), (2, MOST, MOST, Kind::Drain)],
    &[(0, 1, MOST, Kind::Start(0)), (0, 1, 5, Kind::Start(0))],
    &[(1, 9, 3, Kind::Claim(0, MOST, How::Normal, None))],
    &[(1, 1, 7, Kind::Claim(1, 4, How::Takeover, Some(NodeId(0))))],
    // An application that runs where it's forbidden.
    &[
        (0, 1, 2, Kind::Claim(0, 1, How::Normal, None)),
        (0, 1, 9, Kind::Forbid(0)),
    ],
    // Every node is down, in an incarnation that never existed.
    &[
        (0, 1, 4, Kind::Down(1, MOST)),
        (1, 1, 4, Kind::Down(2, MOST)),
        (2, 1, 4, Kind::Down(0, MOST)),
    ],
    // Every node is drained, in several incarnations.
    &[
        (0, 1, 8, Kind::Drain),
        (1, 1, 8, Kind::Drain),
        (2, 1, 8, Kind::Drain),
        (2, MOST, 2, Kind::Drain),
    ],
    // A stop of a start that isn't heard.
    &[(1, 1, 2, Kind::Stop(0)), (1, 1, MOST, Kind::Stop(1))],
    // Two claims of one term, and a third by a node that is down.
    &[
        (1, 1, 30, Kind::Claim(0, 6, How::Normal, None)),
        (2, 1, 30, Kind::Claim(0, 6, How::Failover, Some(NodeId(1)))),
        (0, 1, 31, Kind::Down(2, 1)),
        (2, 1, 32, Kind::Claim(0, 5, How::Failover, Some(NodeId(1)))),
    ],
    // A node in a later incarnation than that of its start.
    &[
        (1, 2, 1, Kind::Up),
        (1, 1, 2, Kind::Start(0)),
        (1, 1, 3, Kind::Claim(0, 3, How::Normal, None)),
        (1, 1, 4, Kind::Start(1)),
    ],
    // The receivers' own operations, with counters that they haven't reached.
    &[
        (0, 1, 2_000, Kind::Start(0)),
        (1, 1, 2_000, Kind::Start(1)),
        (2, 1, 2_000, Kind::Forbid(0)),
        (2, 1, 1_999, Kind::Claim(0, 8, How::Normal, None)),
    ],
    &[
        (0, MOST, 1, Kind::Up),
        (1, MOST, MOST, Kind::Start(1)),
        (
            2,
            MOST,
            MOST,
            Kind::Claim(0, MOST, How::Failover, Some(NodeId(2))),
        ),
        (0, MOST, MOST - 1, Kind::Down(1, MOST)),
    ],
];

/// True if every call accepts the forged state.
fn is_state_borne(alloc: Global, config: &Config, operations: &[Forged]) -> Option<bool> {
    let state = meaning_of(alloc, operations)?;
    let other = meaning_of(alloc, &[(1, 1, 1, Kind::Up), (0, 1, 2, Kind::Start(0))])?;
    is_borne(alloc, config, &state, &other)
}

/// The index of the first forged state that some call doesn't accept.
fn wrong_state(alloc: Global) -> Option<Option<usize>> {
    let config = read_config(alloc, TWO).ok()?;
    for i in 0..STATES.len() {
        if is_state_borne(alloc, &config, STATES[i]) != Some(true) {
            return Some(Some(i));
        }
    }
    Some(None)
}

#[test]
fn forged_states(rt: HostRuntime) {
    let wrong = wrong_state(rt.alloc());
    assert!(rt; wrong == Some(None), "{wrong:?}");
}
