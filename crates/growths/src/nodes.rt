//! Steps of a node, and calls of a journal.
use dac_base::NodeId;
use dac_config::Config;
use dac_events::{Command, Refusal};
use dac_journal::{Journal, Node};
use dac_lattice::Lattice;
use dac_messages::{Body, Event, Reply};
use std::alloc::Global;
use tried_calls::sample::{APP, Does, ME, OTHER, config, meaning, message, operation, origin};
use tried_calls::trial::{Fixture, Said};

/// A third node, which exchanges few messages.
pub const THIRD: NodeId = NodeId(2);

/// An event at the node.
#[derive(Clone, Copy, Debug, PartialEq, Eq)]
pub enum Happens {
    Boot,
    Permit,
    Start,
    Stop,
    Drain,
    Down,
    Takeover,
    Tick,
    /// A tick at a state that other ticks have seen, whose waits it shares.
    StillTick,
    ShipWhole,
    ShipInterval,
    ShipNothing,
    ShipAgain,
    HearWhole,
    HearInterval,
    HearNothing,
    HearOp,
    Crash,
}

fn command(command: Command) -> Option<Event> {
    Some(Event::Command(command))
}

/// The event of this kind, unless it needs a message or an operation.
fn event(alloc: Global, happens: Happens) -> Option<Event> {
    match happens {
        Happens::Boot => Some(Event::Boot { now: 0 }),
        Happens::Permit => command(Command::Permit {
            app: APP,
            node: ME,
            value: false,
        }),
        Happens::Start => command(Command::Start { app: APP, node: ME }),
        Happens::Stop => command(Command::Stop { app: APP, node: ME }),
        Happens::Drain => command(Command::Drain {
            node: ME,
            value: true,
        }),
        Happens::Down => command(Command::Down { node: OTHER }),
        Happens::Takeover => command(Command::Takeover { app: APP }),
        Happens::Tick | Happens::StillTick => Some(Event::Tick { now: 9 }),
        Happens::ShipWhole | Happens::ShipInterval | Happens::ShipNothing => {
            Some(Event::Ship { to: OTHER })
        }
        Happens::ShipAgain => Some(Event::Ship { to: THIRD }),
        Happens::Crash => Some(Event::Crash),
        _ => what_comes(alloc, happens),
    }
}

/// The delivery of a message or an operation.
fn what_comes(alloc: Global, happens: Happens) -> Option<Event> {
    match happens {
        Happens::HearWhole => {
            let body = Body::Whole(meaning(alloc, OTHER, Does::Permit)?);
            Some(Event::Hear(message(body, 1)))
        }
        Happens::HearInterval => {
            let body = Body::Interval(meaning(alloc, OTHER, Does::Claim)?);
            Some(Event::Hear(message(body, 1)))
        }
        Happens::HearNothing => Some(Event::Hear(message(Body::Nothing, 2))),
        _ => Some(Event::HearOp(operation(alloc, OTHER, Does::Drain)?)),
    }
}

/// The delivery of an operation of the other node.
fn hand(alloc: Global, does: Does) -> Option<Event> {
    Some(Event::HearOp(operation(alloc, OTHER, does)?))
}

/// The event that must precede this one directly, if any.
fn before(alloc: Global, happens: Happens) -> Option<Option<Event>> {
    match happens {
        Happens::Takeover => Some(Some(hand(alloc, Does::Claim)?)),
        // (It acknowledges the first of four deltas. With only two left, no blocks would be joined.)
        Happens::ShipInterval => Some(Some(Event::Hear(message(Body::Nothing, 1)))),
        Happens::ShipNothing => {
            let body = Body::Whole(meaning(alloc, OTHER, Does::Up)?);
            Some(Some(Event::Hear(message(body, 4))))
        }
        _ => Some(None),
    }
}

/// The events before an interval is shipped again: both other nodes acknowledged only the first delta, and one of them
/// was shipped the interval.
fn push_shipped(alloc: Global, events: &mut Vec<Event>) -> Option<()> {
    let mut sent = message(Body::Nothing, 1);
    sent.from = origin(THIRD);
    let up = Event::HearOp(operation(alloc, THIRD, Does::Up)?);
    events.push(up).ok()?;
    events.push(Event::Hear(sent)).ok()?;
    events.push(Event::Hear(message(Body::Nothing, 1))).ok()?;
    events.push(Event::Ship { to: OTHER }).ok()?;
    Some(())
}

/// The ticks before one that makes a board. The first one claims.
fn push_ticks(events: &mut Vec<Event>) -> Option<()> {
    for now in 0..8 {
        events.push(Event::Tick { now }).ok()?;
    }
    Some(())
}

/// All events before this one: the node boots and has its application started, and so does the other one.
pub fn all_before(alloc: Global, happens: Happens) -> Option<Vec<Event>> {
    let mut events = Vec::new(alloc);
    if happens == Happens::Boot {
        return Some(events);
    }
    events.push(event(alloc, Happens::Boot)?).ok()?;
    events.push(event(alloc, Happens::Start)?).ok()?;
    events.push(hand(alloc, Does::Up)?).ok()?;
    events.push(hand(alloc, Does::Start)?).ok()?;
    if let Some(last) = before(alloc, happens)? {
        events.push(last).ok()?;
    }
    match happens {
        Happens::ShipAgain => push_shipped(alloc, &mut events)?,
        Happens::StillTick => push_ticks(&mut events)?,
        _ => {}
    }
    Some(events)
}

/// The event twice, because the call may be repeated.
pub fn twice(alloc: Global, happens: Happens) -> Option<Vec<Event>> {
    let mut events = Vec::new(alloc);
    events.push(event(alloc, happens)?).ok()?;
    events.push(event(alloc, happens)?).ok()?;
    Some(events)
}

/// A number that identifies a body.
fn number_of_body(body: &Body) -> u64 {
    match body {
        Body::Whole(_) => 1,
        Body::Interval(_) => 2,
        Body::Nothing => 3,
    }
}

/// A number that identifies a reply.
pub fn number_of(reply: &Reply) -> u64 {
    match reply {
        Reply::Booted(op) => op.dot().n.wrapping_mul(10).wrapping_add(1),
        Reply::Crashed => 2,
        Reply::Issued(op) => op.dot().n.wrapping_mul(10).wrapping_add(3),
        Reply::Ticked { ops, .. } => (ops.as_slice().len() as u64)
            .wrapping_mul(10)
            .wrapping_add(4),
        Reply::Held => 5,
        Reply::GaveUp => 6,
        Reply::Shipped(message) => number_of_body(&message.body)
            .wrapping_mul(10)
            .wrapping_add(7),
        Reply::Heard(true) => 8,
        Reply::Heard(false) => 9,
    }
}

/// The outcome of a step.
pub fn said(answer: &Result<Reply, Refusal>) -> Said {
    match answer {
        Ok(reply) => Said::Well(number_of(reply)),
        Err(Refusal::NoMemory) => Said::NoMemory,
        Err(_) => Said::Other,
    }
}

/// True if both run as the same incarnation with equal states.
fn are_alike(one: &Node, other: &Node) -> bool {
    if one.origin() != other.origin() {
        return false;
    }
    match (one.state(), other.state()) {
        (None, None) => true,
        (Some(state), Some(second)) => state.equal(second),
        _ => false,
    }
}

/// A node before the event, with a copy.
#[derive(Drop)]
pub struct StepFixture {
    config: Config,
    node: Node,
    kept: Node,
    events: Vec<Event>,
}

/// A node after these events, if it accepts all.
fn node_after(alloc: Global, config: &Config, events: Vec<Event>) -> Option<Node> {
    let mut node = Node::off(alloc, 0);
    for event in events {
        let _reply = node.step(config, ME, event).ok()?;
    }
    Some(node)
}

/// The fixture of a step.
pub fn step(alloc: Global, happens: Happens) -> Option<StepFixture> {
    let config = config(alloc)?;
    let node = node_after(alloc, &config, all_before(alloc, happens)?)?;
    let kept = node.copy().ok()?;
    let events = twice(alloc, happens)?;
    Some(StepFixture {
        config,
        node,
        kept,
        events,
    })
}

impl Fixture for StepFixture {
    fn call(&mut self) -> Said {
        match self.events.pop() {
            Some(event) => said(&self.node.step(&self.config, ME, event)),
            None => Said::Other,
        }
    }

    fn is_as_before(&self) -> bool {
        are_alike(&self.node, &self.kept)
    }
}

/// A node to copy.
#[derive(Drop)]
pub struct CopyFixture {
    node: Node,
}

/// The fixture of a node's copy.
pub fn node_copy(alloc: Global) -> Option<CopyFixture> {
    let step = step(alloc, Happens::Tick)?;
    let StepFixture { node, .. } = step;
    Some(CopyFixture { node })
}

impl Fixture for CopyFixture {
    fn call(&mut self) -> Said {
        match self.node.copy() {
            Ok(copied) => Said::Well(u64::from(are_alike(&self.node, &copied))),
            Err(_) => Said::NoMemory,
        }
    }

    fn is_as_before(&self) -> bool {
        true
    }
}

/// A journal before the event, with a copy of its node.
#[derive(Drop)]
pub struct AskFixture {
    journal: Journal,
    kept: Node,
    events: Vec<Event>,
    records: usize,
}

/// Records an event in a journal, unless it's full.
fn ask(journal: &mut Journal, event: Event) -> Said {
    if journal.is_full() {
        return Said::Other;
    }
    let Ok(next) = journal.prepare(1, event) else {
        return Said::NoMemory;
    };
    match journal.commit(next) {
        Ok((_, answer)) => said(&answer),
        Err(_) => Said::NoMemory,
    }
}

/// The fixture of a journal.
pub fn journal(alloc: Global, happens: Happens) -> Option<AskFixture> {
    let config = config(alloc)?;
    let mut journal = Journal::new(alloc, config, ME, 0);
    for event in all_before(alloc, happens)? {
        if !matches!(ask(&mut journal, event), Said::Well(_)) {
            return None;
        }
    }
    let kept = journal.node().copy().ok()?;
    let records = journal.records().len();
    let events = twice(alloc, happens)?;
    Some(AskFixture {
        journal,
        kept,
        events,
        records,
    })
}

impl Fixture for AskFixture {
    fn call(&mut self) -> Said {
        match self.events.pop() {
            Some(event) => ask(&mut self.journal, event),
            None => Said::Other,
        }
    }

    fn is_as_before(&self) -> bool {
        self.journal.records().len() == self.records && are_alike(self.journal.node(), &self.kept)
    }
}
