//! Rounds of ticks without further commands: their results, and the number of rounds needed.
use dac_base::{AppId, NodeId};
use dac_config::{Config, read_config};
use dac_core::{Command, Node, What, World, WorldEvent};
use dac_placement::{Verdict, verdict};
use std::alloc::Global;

/// An application at c1@h, else at c2@h or c3@h.
const ONE: &[u8] = b"[{kernel,[{distributed,[{a,5000,[c1@h,{c2@h,c3@h}]}]}]}].";

/// One, two and three applications, each with two nodes of equal priority.
const TUPLES: &[&[u8]] = &[
    b"[{kernel,[{distributed,[{a,[{c1@h,c2@h}]}]}]}].",
    b"[{kernel,[{distributed,[{a,[{c1@h,c2@h}]},{b,[{c1@h,c2@h}]}]}]}].",
    b"[{kernel,[{distributed,[{a,[{c1@h,c2@h}]},{b,[{c1@h,c2@h}]},{c,[{c1@h,c2@h}]}]}]}].",
];

const C1: NodeId = NodeId(0);

const C2: NodeId = NodeId(1);

const C3: NodeId = NodeId(2);

const BOOT: What = What::Boot { now: 0 };

/// Start requests of the first application.
const START_AT_1: What = What::Command(Command::Start {
    app: AppId(0),
    node: C1,
});

const START_AT_2: What = What::Command(Command::Start {
    app: AppId(0),
    node: C2,
});

const START_AT_3: What = What::Command(Command::Start {
    app: AppId(0),
    node: C3,
});

const TICK: What = What::Tick { now: 0 };

const TO_1: What = What::Ship { to: C1 };

const TO_2: What = What::Ship { to: C2 };

const TO_3: What = What::Ship { to: C3 };

/// An event at a node.
type Case = (NodeId, What);

/// c1@h runs the application and goes down. The others know it, and noted at their ticks that its claim is lost.
const READY: &[Case] = &[
    (C1, BOOT),
    (C2, BOOT),
    (C3, BOOT),
    (C1, START_AT_1),
    (C1, TICK),
    (C1, TO_2),
    (C2, What::Deliver(1)),
    (C1, What::Crash),
    (C2, START_AT_2),
    (C2, What::Command(Command::Down { node: C1 })),
    (C3, START_AT_3),
    (C2, TO_3),
    (C3, What::Deliver(2)),
    (C3, TO_2),
    (C2, What::Deliver(3)),
    (C2, What::Tick { now: 1000 }),
    (C3, What::Tick { now: 2000 }),
];

/// Both tick after the failover wait, and ship to each other.
const ROUND: &[Case] = &[
    (C2, What::Tick { now: 6000 }),
    (C3, What::Tick { now: 7000 }),
    (C2, TO_3),
    (C3, What::Deliver(4)),
    (C3, TO_2),
    (C2, What::Deliver(5)),
];

fn push(events: &mut Vec<WorldEvent>, node: NodeId, what: What) -> Option<()> {
    events.push(WorldEvent { node, what }).ok()
}

fn push_all(events: &mut Vec<WorldEvent>, cases: &[Case]) -> Option<()> {
    for (node, what) in cases {
        push(events, *node, *what)?;
    }
    Some(())
}

/// True if this is the verdict on the first application in the node's state.
fn is_verdict(config: &Config, node: &Node, wanted: Verdict) -> bool {
    match node.state() {
        Some(state) => config.apps() > 0 && verdict(config, state, AppId(0)) == wanted,
        None => false,
    }
}

/// True if each event is accepted, and c2@h and c3@h then have this verdict.
fn is_judged(alloc: Global, parts: &[&[Case]], wanted: Verdict) -> Option<bool> {
    let config = read_config(alloc, ONE).ok()?;
    let mut events = Vec::new(alloc);
    for part in parts {
        push_all(&mut events, part)?;
    }
    let (world, answers) = World::run(alloc, &config, &events).ok()?;
    let accepted = answers.iter().all(|answer| answer.is_ok());
    let judged = config.nodes() > C3.0
        && is_verdict(&config, world.node(C2), wanted)
        && is_verdict(&config, world.node(C3), wanted);
    Some(accepted && judged)
}

#[test]
fn a_round_settles_a_failover(rt: HostRuntime) {
    assert!(rt; is_judged(rt.alloc(), &[READY], Verdict::Failover(C2)) == Some(true));
    assert!(rt; is_judged(rt.alloc(), &[READY, ROUND], Verdict::Kept(C2)) == Some(true));
}

/// Two nodes ship to each other, for the `before + 1`st time.
fn tell(events: &mut Vec<WorldEvent>, before: u8) -> Option<()> {
    let shipped = 2 * u64::from(before);
    push(events, C1, TO_2)?;
    push(events, C2, What::Deliver(shipped + 1))?;
    push(events, C2, TO_1)?;
    push(events, C1, What::Deliver(shipped + 2))
}

/// Boots a node and starts each application there.
fn come_up(events: &mut Vec<WorldEvent>, node: NodeId, apps: u16) -> Option<()> {
    push(events, node, BOOT)?;
    for app in 0..apps {
        push(
            events,
            node,
            What::Command(Command::Start {
                app: AppId(app),
                node,
            }),
        )?;
    }
    Some(())
}

/// Events that boot two nodes and run `rounds` rounds, in which both tick before they receive each other's claims.
fn rounds_of(alloc: Global, apps: u16, rounds: u8) -> Option<Vec<WorldEvent>> {
    let mut events = Vec::new(alloc);
    come_up(&mut events, C1, apps)?;
    come_up(&mut events, C2, apps)?;
    tell(&mut events, 0)?;
    for round in 0..rounds {
        push(&mut events, C1, TICK)?;
        push(&mut events, C2, TICK)?;
        tell(&mut events, round + 1)?;
    }
    Some(events)
}

/// The number of applications that somebody should claim, by the node's state.
fn count_unsettled(config: &Config, node: &Node) -> Option<usize> {
    let state = node.state()?;
    let apps = 0..config.apps();
    Some(
        apps.filter(|app| verdict(config, state, AppId(*app)).candidate().is_some())
            .count(),
    )
}

/// The number of unsettled applications at each of two nodes after `rounds` rounds.
fn left_after(alloc: Global, config: &Config, rounds: u8) -> Option<(usize, usize)> {
    let events = rounds_of(alloc, config.apps(), rounds)?;
    let (world, answers) = World::run(alloc, config, &events).ok()?;
    if config.nodes() <= C2.0 || answers.iter().any(|answer| answer.is_err()) {
        return None;
    }
    Some((
        count_unsettled(config, world.node(C1))?,
        count_unsettled(config, world.node(C2))?,
    ))
}

/// True if each round settles one application until none is left.
fn settle_one_by_one(alloc: Global, text: &[u8], apps: u8) -> Option<bool> {
    let config = read_config(alloc, text).ok()?;
    for rounds in 0..=apps {
        let left = usize::from(apps - rounds);
        if left_after(alloc, &config, rounds)? != (left, left) {
            return Some(false);
        }
    }
    Some(true)
}

#[test]
fn as_many_rounds_as_applications_may_be_needed(rt: HostRuntime) {
    for (text, apps) in [(TUPLES[0], 1), (TUPLES[1], 2), (TUPLES[2], 3)] {
        assert!(rt;
            settle_one_by_one(rt.alloc(), text, apps) == Some(true),
            "{apps}"
        );
    }
}

/// An application at c1@h, else at c2@h or c3@h, and one at c2@h only.
const TWO: &[u8] = b"[{kernel,[{distributed,[{a,5000,[c1@h,{c2@h,c3@h}]},{b,[c2@h]}]}]}].";

/// Both running nodes, c2@h and c3@h, know the same. Both can run the first application, c2@h also the second, and
/// nobody claimed either.
const UNCLAIMED: &[Case] = &[
    (C2, BOOT),
    (C3, BOOT),
    (C2, START_AT_2),
    (
        C2,
        What::Command(Command::Start {
            app: AppId(1),
            node: C2,
        }),
    ),
    (C3, START_AT_3),
    (C2, TO_3),
    (C3, What::Deliver(1)),
    (C3, TO_2),
    (C2, What::Deliver(2)),
];

/// Both tick before they receive each other's claims.
const FIRST_ROUND: &[Case] = &[
    (C2, TICK),
    (C3, TICK),
    (C2, TO_3),
    (C3, TO_2),
    (C3, What::Deliver(3)),
    (C2, What::Deliver(4)),
];

const SECOND_ROUND: &[Case] = &[(C2, TICK), (C3, TICK)];

/// True if the node's verdict is that c2@h keeps each application.
fn knows_all_kept(config: &Config, node: &Node) -> bool {
    match node.state() {
        Some(state) => {
            let mut apps = 0..config.apps();
            apps.all(|app| verdict(config, state, AppId(app)) == Verdict::Kept(C2))
        }
        None => false,
    }
}

/// True if each event of two rounds is accepted, and every application is kept.
fn are_kept(alloc: Global) -> Option<bool> {
    let config = read_config(alloc, TWO).ok()?;
    let mut events = Vec::new(alloc);
    for part in [UNCLAIMED, FIRST_ROUND, SECOND_ROUND] {
        push_all(&mut events, part)?;
    }
    let (world, answers) = World::run(alloc, &config, &events).ok()?;
    let accepted = answers.iter().all(|answer| answer.is_ok());
    let kept = config.nodes() > C3.0
        && knows_all_kept(&config, world.node(C2))
        && knows_all_kept(&config, world.node(C3));
    Some(accepted && kept)
}

#[test]
fn two_rounds_settle_two_applications(rt: HostRuntime) {
    assert!(rt; are_kept(rt.alloc()) == Some(true));
}
