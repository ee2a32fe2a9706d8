//! Pages of states of a few operations.
use crate::steps::{Kind, Step, TWO, state_after};
use dac_base::{AppId, NodeId};
use dac_config::{Config, read_config};
use dac_origins::Origin;
use dac_state::{How, State};
use dac_status::{Mark, Summary, header, mark_of, page};
use std::alloc::Global;

/// One application. Its list begins with a later name, and one name needs quotes.
const TURNED: &[u8] = b"[{kernel,[{distributed,[{a,[{c3@h,'c-2@h'},c1@h]}]}]}].";

/// The application moved when its permission was withdrawn, and then lost the other permission, too.
const MOVED: &[Step] = &[
    (0, 1, Kind::Up),
    (2, 1, Kind::Up),
    (0, 1, Kind::Start(0)),
    (2, 1, Kind::Start(0)),
    (0, 1, Kind::Claim(0, 1, How::Normal, None)),
    (0, 1, Kind::Forbid(0)),
    (2, 1, Kind::Claim(0, 2, How::Normal, None)),
    (2, 1, Kind::Forbid(0)),
];

/// The application was stopped at its holder.
const STOPPED: &[Step] = &[
    (0, 1, Kind::Up),
    (1, 1, Kind::Up),
    (0, 1, Kind::Start(0)),
    (1, 1, Kind::Start(0)),
    (0, 1, Kind::Claim(0, 1, How::Normal, None)),
    (0, 1, Kind::Stop(0)),
];

/// By name: 'c-2@h', c1@h, c3@h. The start of c3@h isn't heard, but known, because it was replaced.
const REPLACED: &[Step] = &[
    (0, 1, Kind::Up),
    (2, 1, Kind::Up),
    (1, 1, Kind::Down(2, 1)),
    (2, 1, Kind::Stop(0)),
    (0, 1, Kind::Start(0)),
    (0, 1, Kind::Claim(0, 2, How::Failover, Some(NodeId(2)))),
];

/// Two nodes are drained, and the second goes down.
const DRAINED: &[Step] = &[
    (0, 1, Kind::Up),
    (1, 1, Kind::Up),
    (0, 1, Kind::Drain),
    (1, 1, Kind::Drain),
    (2, 1, Kind::Down(1, 1)),
];

/// Nodes that aren't configured.
const UNKNOWN: &[Step] = &[(200, 1, Kind::Claim(0, 1, How::Takeover, Some(NodeId(16))))];

/// Configuration, steps, and the page of their state.
const PAGES: &[(&[u8], &[Step], &str)] = &[
    (
        TWO,
        MOVED,
        "heard 8 known 8\nnode c1@h up 1\nnode c2@h unknown\nnode c3@h up 1\napp a holder c3@h 1 term 2 normal verdict nobody\nlist c1@h=barred c2@h=down c3@h=barred\napp b holder none verdict nobody\nlist c2@h=down\n",
    ),
    (
        TWO,
        STOPPED,
        "heard 6 known 6\nnode c1@h up 1\nnode c2@h up 1\nnode c3@h unknown\napp a holder c1@h 1 term 1 normal verdict halted c1@h\nlist c1@h=idle c2@h=ok c3@h=down\napp b holder none verdict nobody\nlist c2@h=idle\n",
    ),
    (
        TURNED,
        REPLACED,
        "heard 6 known 7\nnode 'c-2@h' up 1\nnode c1@h unknown\nnode c3@h down 1\napp a holder 'c-2@h' 1 term 2 failover from c3@h verdict kept 'c-2@h'\nlist 'c-2@h'=ok c3@h=down c1@h=down\n",
    ),
    (
        TWO,
        DRAINED,
        "heard 5 known 5\nnode c1@h up 1 drained\nnode c2@h down 1\nnode c3@h unknown\napp a holder none verdict nobody\nlist c1@h=drained c2@h=down c3@h=down\napp b holder none verdict nobody\nlist c2@h=down\n",
    ),
    (
        TWO,
        UNKNOWN,
        "heard 1 known 1\nnode c1@h unknown\nnode c2@h unknown\nnode c3@h unknown\napp a holder 200 1 term 1 takeover from 16 verdict nobody\nlist c1@h=down c2@h=down c3@h=down\napp b holder none verdict nobody\nlist c2@h=down\n",
    ),
];

/// True if this is the page of the steps' state.
fn is_page(alloc: Global, text: &[u8], steps: &[Step], wanted: &str) -> Option<bool> {
    let config = read_config(alloc, text).ok()?;
    let state = state_after(alloc, steps, &[])?;
    let printed = page(alloc, &config, &Summary::of(&config, &state)).ok()?;
    Some(printed.as_slice() == wanted.as_bytes())
}

#[test]
fn pages_of_worked_cases(rt: HostRuntime) {
    for (text, steps, wanted) in PAGES {
        assert!(rt;
            is_page(rt.alloc(), text, steps, wanted) == Some(true),
            "{wanted}"
        );
    }
}

/// True if this is the first node's header.
fn is_header(config: &Config, alloc: Global, origin: Option<Origin>, wanted: &str) -> bool {
    let node = NodeId(0);
    if node.0 >= config.nodes() {
        return false;
    }
    match header(alloc, config, node, origin) {
        Ok(line) => line.as_slice() == wanted.as_bytes(),
        Err(_) => false,
    }
}

/// True if the first node's header has its incarnation, or says that it's off.
fn has_headers(alloc: Global) -> Option<bool> {
    let config = read_config(alloc, TURNED).ok()?;
    let origin = Some(Origin {
        node: NodeId(0),
        inc: 7,
    });
    Some(
        is_header(&config, alloc, origin, "node 'c-2@h' 7\n")
            && is_header(&config, alloc, None, "node 'c-2@h' off\n"),
    )
}

#[test]
fn headers(rt: HostRuntime) {
    assert!(rt; has_headers(rt.alloc()) == Some(true));
}

/// The first node is up, barred and drained, and the second is up.
const BARRED: &[Step] = &[
    (0, 1, Kind::Up),
    (0, 1, Kind::Forbid(0)),
    (0, 1, Kind::Drain),
    (1, 1, Kind::Up),
];

/// True if the node has this mark for the first application.
fn is_mark(config: &Config, state: &State, node: u8, wanted: Mark) -> bool {
    let app = AppId(0);
    app.0 < config.apps() && mark_of(config, state, app, NodeId(node)) == wanted
}

/// True if a node's mark is the first one that applies.
fn has_marks(alloc: Global) -> Option<bool> {
    let config = read_config(alloc, TWO).ok()?;
    let state = state_after(alloc, BARRED, &[])?;
    let drained = state_after(alloc, BARRED, &[(1, 1, Kind::Drain)])?;
    Some(
        is_mark(&config, &state, 0, Mark::Barred)
            && is_mark(&config, &drained, 1, Mark::Drained)
            && is_mark(&config, &state, 1, Mark::Idle)
            && is_mark(&config, &state, 2, Mark::Down),
    )
}

#[test]
fn marks_by_what_comes_first(rt: HostRuntime) {
    assert!(rt; has_marks(rt.alloc()) == Some(true));
}
