//! Whole runs of a world.
use dac_base::{AppId, NodeId};
use dac_config::{Config, read_config};
use dac_core::{Command, Refusal, Reply, What, World, WorldEvent, WorldFault};
use std::alloc::Global;

/// The example of OTP's manual on distributed applications.
const EXAMPLE: &[u8] =
    b"[{kernel,[{distributed,[{myapp,5000,[cp1@cave,{cp2@cave,cp3@cave}]}]},{sync_nodes_mandatory,[cp2@cave,cp3@cave]},{sync_nodes_timeout,5000}]}].";

const P: NodeId = NodeId(0);

const Q: NodeId = NodeId(1);

const R: NodeId = NodeId(2);

const BOOT: What = What::Boot { now: 0 };

const TICK: What = What::Tick { now: 0 };

/// A start of the application at the first node.
const START: What = What::Command(Command::Start {
    app: AppId(0),
    node: P,
});

const START_AT_Q: What = What::Command(Command::Start {
    app: AppId(0),
    node: Q,
});

const START_AT_R: What = What::Command(Command::Start {
    app: AppId(0),
    node: R,
});

/// A short form of a result: an operation's counter, a message's receiver, or how many applications a tick claimed and
/// passed.
#[derive(Clone, Copy, PartialEq, Eq)]
enum Answer {
    Booted(u64),
    Crashed,
    Issued(u64),
    Ticked(usize, usize),
    Held,
    GaveUp,
    Shipped(NodeId),
    Heard(bool),
    NoSuchNode,
    NoSuchMessage,
    NoSuchOperation,
    Refused(Refusal),
}

/// An event at a node, and its result.
type Case = (NodeId, What, Answer);

/// Deliveries of messages and operations, some of which don't exist.
const TELLING: &[Case] = &[
    (P, What::Crash, Answer::Refused(Refusal::Off)),
    (P, BOOT, Answer::Booted(1)),
    (Q, BOOT, Answer::Booted(1)),
    (NodeId(3), BOOT, Answer::NoSuchNode),
    (P, START, Answer::Issued(2)),
    (P, What::Ship { to: Q }, Answer::Shipped(Q)),
    (Q, What::Deliver(1), Answer::Heard(true)),
    (Q, What::Deliver(2), Answer::NoSuchMessage),
    (Q, What::Ship { to: P }, Answer::Shipped(P)),
    (P, What::Deliver(2), Answer::Heard(true)),
    (P, What::Hand(2), Answer::Heard(false)),
    (P, What::Hand(4), Answer::NoSuchOperation),
    (R, BOOT, Answer::Booted(1)),
    (R, What::Crash, Answer::Crashed),
];

/// All nodes are started and exchange messages. The first ticks before it hears of the others, and then twice at one
/// time.
const STARTING: &[Case] = &[
    (P, BOOT, Answer::Booted(1)),
    (Q, BOOT, Answer::Booted(1)),
    (R, BOOT, Answer::Booted(1)),
    (P, START, Answer::Issued(2)),
    (Q, START_AT_Q, Answer::Issued(2)),
    (R, START_AT_R, Answer::Issued(2)),
    (P, TICK, Answer::Held),
    (P, What::Ship { to: Q }, Answer::Shipped(Q)),
    (Q, What::Deliver(1), Answer::Heard(true)),
    (P, What::Ship { to: R }, Answer::Shipped(R)),
    (R, What::Deliver(2), Answer::Heard(true)),
    (Q, What::Ship { to: P }, Answer::Shipped(P)),
    (P, What::Deliver(3), Answer::Heard(true)),
    (Q, What::Ship { to: R }, Answer::Shipped(R)),
    (R, What::Deliver(4), Answer::Heard(true)),
    (R, What::Ship { to: P }, Answer::Shipped(P)),
    (P, What::Deliver(5), Answer::Heard(true)),
    (R, What::Ship { to: Q }, Answer::Shipped(Q)),
    (Q, What::Deliver(6), Answer::Heard(true)),
    (P, TICK, Answer::Ticked(1, 0)),
    (P, TICK, Answer::Ticked(0, 0)),
    (P, What::Ship { to: Q }, Answer::Shipped(Q)),
    (Q, What::Deliver(7), Answer::Heard(true)),
    (P, What::Ship { to: R }, Answer::Shipped(R)),
    (R, What::Deliver(8), Answer::Heard(true)),
    (Q, What::Ship { to: P }, Answer::Shipped(P)),
    (P, What::Deliver(9), Answer::Heard(false)),
    (Q, What::Ship { to: R }, Answer::Shipped(R)),
    (R, What::Deliver(10), Answer::Heard(false)),
    (R, What::Ship { to: P }, Answer::Shipped(P)),
    (P, What::Deliver(11), Answer::Heard(false)),
    (R, What::Ship { to: Q }, Answer::Shipped(Q)),
    (Q, What::Deliver(12), Answer::Heard(false)),
];

/// The start gate gives up, and the node is off.
const GIVING_UP: &[Case] = &[
    (P, BOOT, Answer::Booted(1)),
    (P, What::Tick { now: 4999 }, Answer::Held),
    (
        P,
        What::Tick { now: 4998 },
        Answer::Refused(Refusal::MomentBack),
    ),
    (P, What::Tick { now: 5000 }, Answer::GaveUp),
    (P, What::Tick { now: 5000 }, Answer::Refused(Refusal::Off)),
    (P, What::Boot { now: 6000 }, Answer::Booted(1)),
];

/// Events, and the numbers of operations and messages after them.
const RUNS: &[(&[Case], usize, usize)] = &[(TELLING, 4, 2), (STARTING, 7, 12), (GIVING_UP, 2, 0)];

/// The short form of a result.
fn answer_of(answer: &Result<Reply, WorldFault>) -> Answer {
    match answer {
        Ok(reply) => said_by(reply),
        Err(fault) => said_of(*fault),
    }
}

/// The short form of a reply.
fn said_by(reply: &Reply) -> Answer {
    match reply {
        Reply::Booted(operation) => Answer::Booted(operation.dot().n),
        Reply::Crashed => Answer::Crashed,
        Reply::Issued(operation) => Answer::Issued(operation.dot().n),
        Reply::Ticked { ops, passed } => {
            Answer::Ticked(ops.as_slice().len(), passed.as_slice().len())
        }
        Reply::Held => Answer::Held,
        Reply::GaveUp => Answer::GaveUp,
        Reply::Shipped(message) => Answer::Shipped(message.to),
        Reply::Heard(is_new) => Answer::Heard(*is_new),
    }
}

/// The short form of a fault.
fn said_of(fault: WorldFault) -> Answer {
    match fault {
        WorldFault::NoSuchNode => Answer::NoSuchNode,
        WorldFault::NoSuchMessage => Answer::NoSuchMessage,
        WorldFault::NoSuchOperation => Answer::NoSuchOperation,
        WorldFault::Refused(why) => Answer::Refused(why),
    }
}

fn events(alloc: Global, cases: &[Case]) -> Option<Vec<WorldEvent>> {
    let mut events = Vec::new(alloc);
    for (node, what, _) in cases {
        events
            .push(WorldEvent {
                node: *node,
                what: *what,
            })
            .ok()?;
    }
    Some(events)
}

/// True if the results are those of the cases.
fn are_answered(cases: &[Case], answers: &[Result<Reply, WorldFault>]) -> bool {
    for (i, (_, _, wanted)) in cases.iter().enumerate() {
        let Some(answer) = answers.get(i) else {
            return false;
        };
        if answer_of(answer) != *wanted {
            return false;
        }
    }
    answers.len() == cases.len()
}

/// True if a run has the cases' results, and leaves these numbers of operations and messages.
fn runs(
    alloc: Global,
    config: &Config,
    cases: &[Case],
    operations: usize,
    messages: usize,
) -> Option<bool> {
    let (world, answers) = World::run(alloc, config, &events(alloc, cases)?).ok()?;
    let kept = world.operations().len() == operations && world.messages().len() == messages;
    Some(kept && are_answered(cases, &answers))
}

fn all_run(alloc: Global) -> Option<bool> {
    let config = read_config(alloc, EXAMPLE).ok()?;
    for (cases, operations, messages) in RUNS {
        if runs(alloc, &config, cases, *operations, *messages) != Some(true) {
            return Some(false);
        }
    }
    Some(true)
}

#[test]
fn runs_answer_each_event(rt: HostRuntime) {
    assert!(rt; all_run(rt.alloc()) == Some(true));
}
