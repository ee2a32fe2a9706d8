//! States of a few operations, written as steps.
use dac_base::{AppId, NoMemory, NodeId};
use dac_lattice::{Bottom, Lattice};
use dac_origins::{Dot, Origin};
use dac_state::{Act, DotList, How, Key, Op, State};
use std::alloc::Global;

/// Three nodes and two applications, the second at the second node only.
pub const TWO: &[u8] = b"[{kernel,[{distributed,[{a,5000,[c1@h,{c2@h,c3@h}]},{b,[c2@h]}]}]}].";

/// An act of a node's incarnation.
#[derive(Clone, Copy)]
pub enum Kind {
    /// The node comes up.
    Up,
    /// The node declares this incarnation of a node down.
    Down(u8, u64),
    /// A start of the application at the node itself.
    Start(u16),
    /// A stop of the application at the node itself.
    Stop(u16),
    /// Forbids the application at the node itself.
    Forbid(u16),
    /// Drains the node itself.
    Drain,
    /// Claims the application: its term, cause and previous node.
    Claim(u16, u64, How, Option<NodeId>),
}

/// Node, incarnation and act.
pub type Step = (u8, u64, Kind);

/// A dot of a node's incarnation.
pub fn dot(node: u8, inc: u64, n: u64) -> Dot {
    let node = NodeId(node);
    Dot {
        origin: Origin { node, inc },
        n,
    }
}

/// The counter of an application's start.
fn start_of(app: u16) -> u64 {
    10 + u64::from(app)
}

/// The counter of a step, different for each act of an incarnation.
fn counter_of(kind: Kind) -> u64 {
    match kind {
        Kind::Up => 1,
        Kind::Start(app) => start_of(app),
        Kind::Stop(app) => 20 + u64::from(app),
        Kind::Forbid(app) => 30 + u64::from(app),
        Kind::Claim(app, _, _, _) => 40 + u64::from(app),
        Kind::Drain => 45,
        Kind::Down(node, inc) => (50 + 4 * u64::from(node)).wrapping_add(inc),
    }
}

/// The dots that a step replaces: for a stop, that of the start.
fn over(alloc: Global, step: Step) -> Result<DotList, NoMemory> {
    let (node, inc, kind) = step;
    let mut dots = Vec::new(alloc);
    if let Kind::Stop(app) = kind {
        dots.push(dot(node, inc, start_of(app)))?;
    }
    Ok(DotList::new(dots))
}

/// An application at a node's incarnation.
fn key(app: u16, node: u8, inc: u64) -> Key {
    Key {
        app: AppId(app),
        node: NodeId(node),
        inc,
    }
}

/// The act of a step that replaces these dots.
fn act(step: Step, over: DotList) -> Act {
    let (node, inc, kind) = step;
    match kind {
        Kind::Up => Act::Up,
        Kind::Down(node, inc) => Act::Down {
            node: NodeId(node),
            inc,
        },
        Kind::Start(app) => Act::Start {
            key: key(app, node, inc),
            over,
        },
        Kind::Stop(app) => Act::Stop {
            key: key(app, node, inc),
            over,
        },
        Kind::Forbid(app) => Act::Permit {
            key: key(app, node, inc),
            value: false,
            over,
        },
        Kind::Drain => Act::Drain {
            node: NodeId(node),
            inc,
            value: true,
            over,
        },
        Kind::Claim(app, term, how, from) => Act::Claim {
            app: AppId(app),
            term,
            how,
            from,
        },
    }
}

/// An operation with any counter: node, incarnation, counter and act.
pub type Forged = (u8, u64, u64, Kind);

/// The delta of an operation.
fn delta_of(alloc: Global, operation: Forged) -> Option<State> {
    let (node, inc, n, kind) = operation;
    let step = (node, inc, kind);
    let over = over(alloc, step).ok()?;
    let op = Op::new(dot(node, inc, n), act(step, over)).ok()?;
    State::delta_of(alloc, &op).ok()
}

/// A value with a delta.
trait Means: Copy {
    /// The lattice of the deltas.
    type All: Lattice;

    /// The delta, or `None` if an allocation fails.
    fn alone(self, alloc: Global) -> Option<Self::All>;
}

impl Means for Step {
    type All = State;

    fn alone(self, alloc: Global) -> Option<State> {
        let (node, inc, kind) = self;
        delta_of(alloc, (node, inc, counter_of(kind), kind))
    }
}

impl Means for Forged {
    type All = State;

    fn alone(self, alloc: Global) -> Option<State> {
        delta_of(alloc, self)
    }
}

/// The join of a state with several deltas.
fn with<M: Means>(alloc: Global, before: M::All, parts: &[M]) -> Option<M::All> {
    let mut all = before;
    for part in parts {
        all = all.join(&part.alone(alloc)?).ok()?;
    }
    Some(all)
}

/// The state after two lists of steps.
pub fn state_after(alloc: Global, before: &[Step], then: &[Step]) -> Option<State> {
    let state = with(alloc, State::bottom(alloc), before)?;
    with(alloc, state, then)
}

/// The state of these operations.
pub fn meaning_of(alloc: Global, operations: &[Forged]) -> Option<State> {
    with(alloc, State::bottom(alloc), operations)
}
