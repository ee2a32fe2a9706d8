//! The order of the links in the last round, and the interleaving of callers and links.
use crate::runs::{EXAMPLE, Open, boot, permit, ran, tick};
use dac_base::NodeId;
use dac_live::{Closed, Gate, Line, Phase, Record};
use dac_messages::Event;
use std::alloc::Global;
use std::sync::Wait;
use std::sync::atomic::{AtomicU64, Ordering};
use std::test::Fail;
use std::thread::Threads;

/// The links of three nodes, in name order.
const LINKS: [(u8, u8); 6] = [(0, 1), (0, 2), (1, 0), (1, 2), (2, 0), (2, 1)];

/// The number of operations of a caller in a phase.
const OPERATIONS: u32 = 50;

/// Counts all hearings, and records the last one of each link.
#[derive(Drop)]
struct Turns {
    all: AtomicU64,
    last: [AtomicU64; 6],
}

impl Turns {
    fn new() -> Self {
        Turns {
            all: AtomicU64::new(0),
            last: [
                AtomicU64::new(0),
                AtomicU64::new(0),
                AtomicU64::new(0),
                AtomicU64::new(0),
                AtomicU64::new(0),
                AtomicU64::new(0),
            ],
        }
    }

    /// Whether the last hearings are those of the links that shipped in the last round, in name order.
    fn are_in_order(&self, closed: &[Closed]) -> bool {
        let all = self.all.load(Ordering::SeqCst);
        let mut turn = all.saturating_sub(count_in_round(closed));
        for (link, last) in LINKS.iter().zip(self.last.iter()) {
            if ships_in_round(closed, link.0, link.1) {
                turn = turn.saturating_add(1);
                if last.load(Ordering::SeqCst) != turn {
                    return false;
                }
            }
        }
        turn == all
    }
}

impl Gate for Turns {
    fn before(&self, from: NodeId, to: NodeId, _k: u64) {
        let turn = self.all.fetch_add(1, Ordering::SeqCst);
        for (link, last) in LINKS.iter().zip(self.last.iter()) {
            if link.0 == from.0 && link.1 == to.0 {
                last.store(turn.saturating_add(1), Ordering::SeqCst);
            }
        }
    }

    fn after(&self, _from: NodeId, _to: NodeId, _k: u64) {}
}

/// The position of the last hearing from `node`.
fn last_hearing(records: &[Record], node: u8) -> Option<usize> {
    let mut last = None;
    for i in 0..records.len() {
        match &records[i].event {
            Event::Hear(message) if message.from.node == NodeId(node) => last = Some(i),
            _ => {}
        }
    }
    last
}

/// The position of the last ship to `node`.
fn last_ship(records: &[Record], node: u8) -> Option<usize> {
    let mut last = None;
    for i in 0..records.len() {
        match &records[i].event {
            Event::Ship { to } if *to == NodeId(node) => last = Some(i),
            _ => {}
        }
    }
    last
}

/// Whether the link shipped a message in the last round. A node without news for another one refuses to ship.
fn ships_in_round(closed: &[Closed], from: u8, to: u8) -> bool {
    let Some(one) = closed.get(usize::from(from)) else {
        return false;
    };
    let records = one.records();
    let Some(place) = last_ship(records, to) else {
        return false;
    };
    match records.get(place) {
        Some(record) => record.answer.is_ok(),
        None => false,
    }
}

/// The number of links that shipped a message in the last round.
fn count_in_round(closed: &[Closed]) -> u64 {
    let mut count = 0u64;
    for (from, to) in LINKS {
        if ships_in_round(closed, from, to) {
            count = count.saturating_add(1);
        }
    }
    count
}

/// Whether the last hearing from `other` precedes the last ship to it.
fn is_heard_first(closed: &[Closed], node: usize, other: u8) -> bool {
    let Some(one) = closed.get(node) else {
        return false;
    };
    match (
        last_hearing(one.records(), other),
        last_ship(one.records(), other),
    ) {
        (Some(hears), Some(ships)) => hears < ships,
        (None, ships) => ships.is_some(),
        _ => false,
    }
}

/// Three nodes boot. A caller of each then makes so many operations that most remain to be shipped in the last round.
fn many_operations(alloc: Global) -> Option<Vec<Phase>> {
    let mut boots = Vec::new(alloc);
    let mut permits = Vec::new(alloc);
    for node in 0..3u8 {
        boots
            .push(Line {
                node: NodeId(node),
                caller: 1,
                what: boot(0),
            })
            .ok()?;
        for time in 0..OPERATIONS {
            permits
                .push(Line {
                    node: NodeId(node),
                    caller: 1,
                    what: permit(node, time % 2 == 0),
                })
                .ok()?;
        }
    }
    let mut phases = Vec::new(alloc);
    phases.push(Phase { lines: boots }).ok()?;
    phases.push(Phase { lines: permits }).ok()?;
    Some(phases)
}

/// Whether the links of a run's last round took turns in name order, each shipping and being heard before the next, and
/// the number of links that shipped a message.
fn take_turns<R: Threads + Wait + Sync>(rt: &R, alloc: Global) -> Option<(bool, u64)> {
    let gate = Turns::new();
    let phases = many_operations(alloc)?;
    let report = ran(rt, alloc, EXAMPLE, phases.as_slice(), &gate)?.ok()?;
    let closed = report.closed.as_slice();
    let heard = is_heard_first(closed, 1, 0) && is_heard_first(closed, 2, 0);
    let in_order = gate.are_in_order(closed) && heard && is_heard_first(closed, 2, 1);
    Some((in_order, count_in_round(closed)))
}

/// Whether the links take turns in name order in each run, until in one of at most `times` runs each link ships in the
/// last round. Threads decide how many do: a node may learn before the round that another one lacks nothing.
fn all_take_turns<R: Threads + Wait + Sync>(rt: &R, alloc: Global, times: u32) -> Option<bool> {
    for _time in 0..times {
        let (in_order, links) = take_turns(rt, alloc)?;
        if !in_order {
            return Some(false);
        }
        if links == 6 {
            return Some(true);
        }
    }
    Some(false)
}

#[test]
fn links_take_turns_by_name(rt: HostRuntime) -> Result<(), Fail> {
    assert_eq!(rt; all_take_turns(&rt, rt.alloc(), 100), Some(true));
    Ok(())
}

const TWO: &[u8] = b"[{kernel,[{distributed,[{a,[a@h,b@h]}]}]}].";

/// The number of ticks of each caller.
const TICKS: u32 = 500;

/// Two nodes boot, and then two callers of each tick.
fn ticking(alloc: Global) -> Option<Vec<Phase>> {
    let mut boots = Vec::new(alloc);
    let mut ticks = Vec::new(alloc);
    for node in 0..2u8 {
        boots
            .push(Line {
                node: NodeId(node),
                caller: 1,
                what: boot(0),
            })
            .ok()?;
    }
    for _time in 0..TICKS {
        for (node, caller) in [(0, 1), (0, 2), (1, 1), (1, 2)] {
            ticks
                .push(Line {
                    node: NodeId(node),
                    caller,
                    what: tick(0),
                })
                .ok()?;
        }
    }
    let mut phases = Vec::new(alloc);
    phases.push(Phase { lines: boots }).ok()?;
    phases.push(Phase { lines: ticks }).ok()?;
    Some(phases)
}

/// Whether the record is a tick of `caller`.
fn is_tick(one: &Record, caller: u16) -> bool {
    match &one.event {
        Event::Tick { now: _ } => one.seat == caller,
        _ => false,
    }
}

/// What interleaves with the ticks of caller 1.
#[derive(Clone, Copy, PartialEq, Eq)]
enum Other {
    Caller,
    Hearing,
    Ship,
}

fn is_hearing(one: &Record) -> bool {
    match &one.event {
        Event::Hear(_) => true,
        _ => false,
    }
}

fn is_shipping(one: &Record) -> bool {
    match &one.event {
        Event::Ship { to: _ } => true,
        _ => false,
    }
}

fn is_other(one: &Record, other: Other) -> bool {
    match other {
        Other::Caller => is_tick(one, 2),
        Other::Hearing => is_hearing(one),
        Other::Ship => is_shipping(one),
    }
}

/// Whether caller 1 ticks both before and after a record of the other kind.
fn are_mixed(records: &[Record], other: Other) -> bool {
    let mut began = false;
    let mut between = false;
    for one in records {
        if is_tick(one, 1) {
            if between {
                return true;
            }
            began = true;
        }
        if began && is_other(one, other) {
            between = true;
        }
    }
    false
}

/// What was seen at one node.
#[derive(Clone, Copy)]
struct Beside {
    callers: bool,
    hearings: bool,
    ships: bool,
}

impl Beside {
    fn or(self, records: &[Record]) -> Self {
        Beside {
            callers: self.callers || are_mixed(records, Other::Caller),
            hearings: self.hearings || are_mixed(records, Other::Hearing),
            ships: self.ships || are_mixed(records, Other::Ship),
        }
    }

    fn is_all(self) -> bool {
        self.callers && self.hearings && self.ships
    }
}

/// Whether at each of two nodes, in some of `times` runs, callers interleave, a caller with a hearing, and a caller with
/// a ship.
fn run_beside<R: Threads + Wait + Sync>(rt: &R, alloc: Global, times: u32) -> Option<bool> {
    let phases = ticking(alloc)?;
    let none = Beside {
        callers: false,
        hearings: false,
        ships: false,
    };
    let mut seen = [none, none];
    for _time in 0..times {
        let report = ran(rt, alloc, TWO, phases.as_slice(), &Open)?.ok()?;
        for (one, beside) in report.closed.as_slice().iter().zip(seen.iter_mut()) {
            *beside = beside.or(one.records());
        }
        if seen[0].is_all() && seen[1].is_all() {
            return Some(true);
        }
    }
    Some(false)
}

#[test]
fn callers_and_links_run_beside_each_other(rt: HostRuntime) -> Result<(), Fail> {
    assert_eq!(rt; run_beside(&rt, rt.alloc(), 300), Some(true));
    Ok(())
}
