//! The hearings of a run, counted by its gate.
use crate::runs::{EXAMPLE, ran, three_phases};
use dac_base::NodeId;
use dac_live::{Closed, Gate, Record};
use dac_messages::Event;
use std::alloc::Global;
use std::sync::Wait;
use std::sync::atomic::{AtomicU64, Ordering};
use std::test::Fail;
use std::thread::Threads;

/// The numbered hearings of a link.
#[derive(Drop)]
struct Hearings {
    from: NodeId,
    to: NodeId,
    /// The last one begun.
    begun: AtomicU64,
    /// The last one ended.
    ended: AtomicU64,
    /// 1 if one was out of order.
    odd: AtomicU64,
}

impl Hearings {
    fn new(from: NodeId, to: NodeId) -> Self {
        Hearings {
            from,
            to,
            begun: AtomicU64::new(0),
            ended: AtomicU64::new(0),
            odd: AtomicU64::new(0),
        }
    }

    /// Begins hearing `k`, which must follow the previous one after its end.
    fn begin(&self, k: u64) {
        let before = self.begun.load(Ordering::SeqCst);
        let ended = self.ended.load(Ordering::SeqCst);
        if ended != before || before.checked_add(1) != Some(k) {
            self.odd.store(1, Ordering::SeqCst);
        }
        self.begun.store(k, Ordering::SeqCst);
    }

    /// Ends hearing `k`, which must be the last one begun and not ended yet.
    fn end(&self, k: u64) {
        let begun = self.begun.load(Ordering::SeqCst);
        let ended = self.ended.load(Ordering::SeqCst);
        if begun != k || ended == k {
            self.odd.store(1, Ordering::SeqCst);
        }
        self.ended.store(k, Ordering::SeqCst);
    }

    /// The number of hearings, or `None` if one was out of order or hasn't ended.
    fn count(&self) -> Option<u64> {
        let begun = self.begun.load(Ordering::SeqCst);
        let ended = self.ended.load(Ordering::SeqCst);
        if begun != ended || self.odd.load(Ordering::SeqCst) != 0 {
            return None;
        }
        Some(begun)
    }
}

/// A gate that never blocks, and counts the hearings of each link.
#[derive(Drop)]
struct Counting {
    links: Vec<Hearings>,
}

/// A counting gate for three nodes.
fn gate_of_three(alloc: Global) -> Option<Counting> {
    let mut links = Vec::new(alloc);
    for (from, to) in LINKS {
        links.push(Hearings::new(NodeId(*from), NodeId(*to))).ok()?;
    }
    Some(Counting { links })
}

const LINKS: &[(u8, u8)] = &[(0, 1), (0, 2), (1, 0), (1, 2), (2, 0), (2, 1)];

impl Gate for Counting {
    fn before(&self, from: NodeId, to: NodeId, k: u64) {
        for link in &self.links {
            if link.from == from && link.to == to {
                link.begin(k);
            }
        }
    }

    fn after(&self, from: NodeId, to: NodeId, k: u64) {
        for link in &self.links {
            if link.from == from && link.to == to {
                link.end(k);
            }
        }
    }
}

/// Whether the event hears a message from `from`.
fn is_of(event: &Event, from: NodeId) -> bool {
    match event {
        Event::Hear(message) => message.from.node == from,
        _ => false,
    }
}

/// The number of records that hear a message from `from`.
fn hears(records: &[Record], from: NodeId) -> u64 {
    let mut count = 0u64;
    for i in 0..records.len() {
        let one = &records[i];
        if is_of(&one.event, from) {
            count = count.saturating_add(1);
        }
    }
    count
}

/// The number of a link's hearings in the receiver's journal.
fn recorded(closed: &[Closed], link: &Hearings) -> Option<u64> {
    let one = closed.get(usize::from(link.to.0))?;
    Some(hears(one.records(), link.from))
}

/// Whether the gate counted as many hearings of each link as the journals record.
fn are_recorded(links: &[Hearings], closed: &[Closed]) -> bool {
    links
        .iter()
        .all(|link| link.count() == recorded(closed, link))
}

/// Whether the gate's counts agree with the journals of a run.
fn are_counted<R: Threads + Wait + Sync>(rt: &R, alloc: Global) -> Option<bool> {
    let gate = gate_of_three(alloc)?;
    let phases = three_phases(alloc)?;
    let report = ran(rt, alloc, EXAMPLE, phases.as_slice(), &gate)?.ok()?;
    Some(are_recorded(gate.links.as_slice(), report.closed.as_slice()))
}

#[test]
fn hearings_are_counted(rt: HostRuntime) -> Result<(), Fail> {
    assert_eq!(rt; are_counted(&rt, rt.alloc()), Some(true));
    Ok(())
}
