//! Calls of worlds, and weaving of journals.
use crate::nodes::{THIRD, number_of};
use dac_base::NodeId;
use dac_config::Config;
use dac_core::{Command, Refusal, Reply, What, World, WorldEvent, WorldFault};
use dac_journal::{Closed, Journal, Record};
use dac_messages::Event;
use dac_sites::replay;
use dac_weave::{WeaveFault, weave};
use std::alloc::Global;
use tried_calls::sample::{APP, ME, OTHER, config};
use tried_calls::trial::{Fixture, Said};

/// A call of a world.
#[derive(Clone, Copy, Debug, PartialEq, Eq)]
pub enum OfWorld {
    New,
    Run,
    Boot,
    Start,
    Tick,
    Ship,
    ShipInterval,
    Deliver,
    Hand,
    Pass,
}

/// A world after some events, and the call to make.
#[derive(Drop)]
pub struct WorldFixture {
    alloc: Global,
    asked: OfWorld,
    config: Config,
    events: Vec<WorldEvent>,
    world: World,
    counts: (usize, usize),
}

const BOOT: What = What::Boot { now: 0 };

const START: What = What::Command(Command::Start { app: APP, node: ME });

/// The events before most calls.
const EVENTS: [(NodeId, What); 7] = [
    (ME, BOOT),
    (OTHER, BOOT),
    (ME, START),
    (ME, What::Ship { to: OTHER }),
    (OTHER, What::Deliver(1)),
    (OTHER, What::Ship { to: ME }),
    (ME, What::Deliver(2)),
];

fn events(alloc: Global) -> Option<Vec<WorldEvent>> {
    let mut events = Vec::new(alloc);
    for i in 0..EVENTS.len() {
        let (node, what) = EVENTS[i];
        events.push(WorldEvent { node, what }).ok()?;
    }
    Some(events)
}

/// The pairs of a round.
const PAIRS: [(NodeId, NodeId); 6] = [
    (ME, OTHER),
    (ME, THIRD),
    (OTHER, ME),
    (OTHER, THIRD),
    (THIRD, ME),
    (THIRD, OTHER),
];

const NODES: [NodeId; 3] = [ME, OTHER, THIRD];

/// One node ships message `number` to another, which receives it.
fn tell(events: &mut Vec<WorldEvent>, from: NodeId, to: NodeId, number: u64) -> Option<()> {
    let ship = What::Ship { to };
    events
        .push(WorldEvent {
            node: from,
            what: ship,
        })
        .ok()?;
    let hear = What::Deliver(number);
    events
        .push(WorldEvent {
            node: to,
            what: hear,
        })
        .ok()?;
    Some(())
}

/// All nodes boot and run two rounds, so that the third acknowledges all deltas of the others.
fn acknowledged(alloc: Global) -> Option<Vec<WorldEvent>> {
    let mut events = Vec::new(alloc);
    for node in NODES {
        events.push(WorldEvent { node, what: BOOT }).ok()?;
    }
    for i in 0..12usize {
        let (from, to) = PAIRS[i % 6];
        tell(&mut events, from, to, i as u64 + 1)?;
    }
    Some(events)
}

/// The first node starts the application at a node, and ships message `number` to the second.
fn wish(events: &mut Vec<WorldEvent>, at: NodeId, number: u64) -> Option<()> {
    let start = Command::Start { app: APP, node: at };
    let what = What::Command(start);
    events.push(WorldEvent { node: ME, what }).ok()?;
    tell(events, ME, OTHER, number)
}

/// The events before two nodes ship equal intervals. The first node commands a start three times and ships to the second
/// each time, so that both have three more deltas with the same join. Then it ships that join to the third.
fn shipped_once(alloc: Global) -> Option<Vec<WorldEvent>> {
    let mut events = acknowledged(alloc)?;
    wish(&mut events, ME, 13)?;
    wish(&mut events, OTHER, 14)?;
    wish(&mut events, THIRD, 15)?;
    let what = What::Ship { to: THIRD };
    events.push(WorldEvent { node: ME, what }).ok()?;
    Some(events)
}

/// The events before the call.
fn events_before(alloc: Global, asked: OfWorld) -> Option<Vec<WorldEvent>> {
    match asked {
        OfWorld::ShipInterval => shipped_once(alloc),
        _ => events(alloc),
    }
}

/// The fixture of worlds.
pub fn worlds(alloc: Global, asked: OfWorld) -> Option<WorldFixture> {
    let config = config(alloc)?;
    let events = events_before(alloc, asked)?;
    let (world, _) = World::run(alloc, &config, &events).ok()?;
    let counts = (world.operations().len(), world.messages().len());
    Some(WorldFixture {
        alloc,
        asked,
        config,
        events,
        world,
        counts,
    })
}

/// The event of the call.
fn next(asked: OfWorld) -> WorldEvent {
    let (node, what) = match asked {
        OfWorld::Boot => (THIRD, BOOT),
        OfWorld::Start => (
            OTHER,
            What::Command(Command::Start {
                app: APP,
                node: OTHER,
            }),
        ),
        OfWorld::Ship | OfWorld::Pass => (ME, What::Ship { to: THIRD }),
        OfWorld::ShipInterval => (OTHER, What::Ship { to: THIRD }),
        OfWorld::Deliver => (OTHER, What::Deliver(1)),
        OfWorld::Hand => (OTHER, What::Hand(1)),
        _ => (ME, What::Tick { now: 9 }),
    };
    WorldEvent { node, what }
}

/// The outcome of an event.
fn said(answer: &Result<Reply, WorldFault>) -> Said {
    match answer {
        Ok(reply) => Said::Well(number_of(reply)),
        Err(WorldFault::Refused(Refusal::NoMemory)) => Said::NoMemory,
        Err(_) => Said::Other,
    }
}

/// The outcome of a run: the first failure, because later events can fail as its consequence.
fn all_said(answers: &[Result<Reply, WorldFault>]) -> Said {
    let mut sum = 0u64;
    for answer in answers {
        match said(answer) {
            Said::Well(number) => sum = sum.wrapping_mul(31).wrapping_add(number),
            other => return other,
        }
    }
    Said::Well(sum)
}

impl WorldFixture {
    /// Makes a world and runs it.
    fn run(&self) -> Said {
        match World::run(self.alloc, &self.config, &self.events) {
            Ok((_, answers)) => all_said(&answers),
            Err(_) => Said::NoMemory,
        }
    }
}

impl Fixture for WorldFixture {
    fn call(&mut self) -> Said {
        match self.asked {
            OfWorld::New => match World::new(self.alloc, &self.config) {
                Ok(world) => Said::Well(world.operations().len() as u64),
                Err(_) => Said::NoMemory,
            },
            OfWorld::Run => self.run(),
            OfWorld::Pass => match self.world.pass(&self.config, &next(self.asked)) {
                Ok(()) => Said::Well(0),
                Err(WorldFault::Refused(Refusal::NoMemory)) => Said::NoMemory,
                Err(_) => Said::Other,
            },
            _ => said(&self.world.step(&self.config, &next(self.asked))),
        }
    }

    fn is_as_before(&self) -> bool {
        self.counts == (self.world.operations().len(), self.world.messages().len())
    }
}

/// A call of closed journals.
#[derive(Clone, Copy, Debug, PartialEq, Eq)]
pub enum OfClosed {
    Weave,
    Replay,
}

/// The closed journals of two nodes.
#[derive(Drop)]
pub struct ClosedFixture {
    alloc: Global,
    asked: OfClosed,
    config: Config,
    closed: Vec<Closed>,
}

/// Records an event in a journal and returns the reply.
fn ask(journal: &mut Journal, event: Event) -> Option<Reply> {
    if journal.is_full() {
        return None;
    }
    let next = journal.prepare(1, event).ok()?;
    let (_, answer) = journal.commit(next).ok()?;
    answer.ok()
}

/// The journals of two nodes, of which the first ships its start to the second.
fn two_journals(alloc: Global, config: &Config) -> Option<Vec<Closed>> {
    let mut first = Journal::new(alloc, config.copy().ok()?, ME, 0);
    let mut second = Journal::new(alloc, config.copy().ok()?, OTHER, 0);
    let _up = ask(&mut first, Event::Boot { now: 0 })?;
    let _up = ask(&mut second, Event::Boot { now: 0 })?;
    let start = Command::Start { app: APP, node: ME };
    let _start = ask(&mut first, Event::Command(start))?;
    let Reply::Shipped(message) = ask(&mut first, Event::Ship { to: OTHER })? else {
        return None;
    };
    let _heard = ask(&mut second, Event::Hear(message))?;
    let mut closed = Vec::new(alloc);
    closed.push(first.close()).ok()?;
    closed.push(second.close()).ok()?;
    Some(closed)
}

/// The fixture of closed journals.
pub fn journals(alloc: Global, asked: OfClosed) -> Option<ClosedFixture> {
    let config = config(alloc)?;
    Some(ClosedFixture {
        alloc,
        asked,
        closed: two_journals(alloc, &config)?,
        config,
    })
}

impl ClosedFixture {
    fn weave_all(&self) -> Said {
        match weave(self.alloc, &self.config, &self.closed) {
            Ok(events) => Said::Well(events.len() as u64),
            Err(WeaveFault::NoMemory) => Said::NoMemory,
            Err(_) => Said::Other,
        }
    }

    /// Replays the records of a node.
    fn replay_records(&self, me: NodeId, records: &[Record]) -> Said {
        match replay(self.alloc, &self.config, me, 0, records) {
            Ok(page) => Said::Well(page.place),
            Err(_) => Said::NoMemory,
        }
    }
}

impl Fixture for ClosedFixture {
    fn call(&mut self) -> Said {
        if self.asked == OfClosed::Weave {
            return self.weave_all();
        }
        match self.closed.first() {
            Some(closed) => self.replay_records(closed.node(), closed.records()),
            None => Said::Other,
        }
    }

    fn is_as_before(&self) -> bool {
        true
    }
}
