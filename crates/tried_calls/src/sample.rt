//! Configurations, dots and operations that the calls share.
use dac_base::{AppId, NodeId};
use dac_config::{Config, read_config};
use dac_messages::{Body, Message};
use dac_origins::{Dot, Origin};
use dac_state::{Act, DotList, How, Key, Op, State};
use std::alloc::Global;

/// Three nodes and two applications, the second at the second node only.
pub const TWO: &[u8] = b"[{kernel,[{distributed,[{a,5000,[c1@h,{c2@h,c3@h}]},{b,[c2@h]}]}]}].";

/// The node under test.
pub const ME: NodeId = NodeId(0);

/// The node whose operations and messages it receives.
pub const OTHER: NodeId = NodeId(1);

/// The application that is started.
pub const APP: AppId = AppId(0);

/// The configuration `TWO`.
pub fn config(alloc: Global) -> Option<Config> {
    read_config(alloc, TWO).ok()
}

/// The first incarnation of a node.
pub fn origin(node: NodeId) -> Origin {
    Origin { node, inc: 1 }
}

/// A dot of a node's first incarnation.
pub fn dot(node: NodeId, n: u64) -> Dot {
    Dot {
        origin: origin(node),
        n,
    }
}

/// The application `APP` at a node's first incarnation.
pub fn key(node: NodeId) -> Key {
    Key {
        app: APP,
        node,
        inc: 1,
    }
}

/// The kind of an operation.
#[derive(Clone, Copy, Debug, PartialEq, Eq)]
pub enum Does {
    Up,
    Down,
    Permit,
    Start,
    Stop,
    Claim,
    Drain,
}

/// All kinds, in the order of their counters.
pub const ALL: [Does; 7] = [
    Does::Up,
    Does::Start,
    Does::Permit,
    Does::Claim,
    Does::Drain,
    Does::Stop,
    Does::Down,
];

/// The counter of a kind.
fn counter(does: Does) -> u64 {
    match does {
        Does::Up => 1,
        Does::Start => 2,
        Does::Permit => 3,
        Does::Claim => 4,
        Does::Drain => 5,
        Does::Stop => 6,
        Does::Down => 7,
    }
}

/// The dots that the operation replaces: for a stop, that of the start.
fn over(alloc: Global, node: NodeId, does: Does) -> Option<DotList> {
    let mut dots = Vec::new(alloc);
    if does == Does::Stop {
        dots.push(dot(node, 2)).ok()?;
    }
    Some(DotList::new(dots))
}

/// The operation of this kind by a node's first incarnation.
pub fn operation(alloc: Global, node: NodeId, does: Does) -> Option<Op> {
    let over = over(alloc, node, does)?;
    let key = key(node);
    let act = match does {
        Does::Up => Act::Up,
        Does::Down => Act::Down {
            node: NodeId(2),
            inc: 1,
        },
        Does::Permit => Act::Permit {
            key,
            value: true,
            over,
        },
        Does::Start => Act::Start { key, over },
        Does::Stop => Act::Stop { key, over },
        Does::Claim => Act::Claim {
            app: APP,
            term: 1,
            how: How::Normal,
            from: None,
        },
        Does::Drain => Act::Drain {
            node,
            inc: 1,
            value: true,
            over,
        },
    };
    Op::new(dot(node, counter(does)), act).ok()
}

/// The delta of an operation.
pub fn meaning(alloc: Global, node: NodeId, does: Does) -> Option<State> {
    State::delta_of(alloc, &operation(alloc, node, does)?).ok()
}

/// A message of the other node with this body, which acknowledges `acks` deltas.
pub fn message(body: Body, acks: u64) -> Message {
    let only = match &body {
        Body::Whole(_) => None,
        _ => Some(1),
    };
    Message {
        from: origin(OTHER),
        to: ME,
        only,
        up_to: 9,
        body,
        ack: Some((origin(ME), acks)),
    }
}
