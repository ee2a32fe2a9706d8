//! The round after a phase, in which the links ship once more, in name order.
use crate::runs::{EXAMPLE, Open, ran, two_phases};
use dac_base::NodeId;
use dac_live::{Closed, Record};
use dac_messages::Event;
use std::alloc::Global;
use std::sync::Wait;
use std::test::Fail;
use std::thread::Threads;

/// Whether the event ships to `node`.
fn is_ship(event: &Event, node: NodeId) -> bool {
    match event {
        Event::Ship { to } => *to == node,
        _ => false,
    }
}

/// The position of the last ship to `node`.
fn last_ship(records: &[Record], node: u8) -> Option<usize> {
    let mut last = None;
    for i in 0..records.len() {
        let one = &records[i];
        if is_ship(&one.event, NodeId(node)) {
            last = Some(i);
        }
    }
    last
}

/// Whether the last ship to `node` precedes the last one to `other`.
fn is_before(records: &[Record], node: u8, other: u8) -> bool {
    match (last_ship(records, node), last_ship(records, other)) {
        (Some(place), Some(other_place)) => place < other_place,
        _ => false,
    }
}

/// For each of three nodes the two others, in name order.
const OTHERS: [(u8, u8); 3] = [(1, 2), (0, 2), (0, 1)];

/// Whether each node's last ships to the two others are in name order.
fn are_by_name(closed: &[Closed]) -> bool {
    closed.len() == 3
        && closed.iter().zip(OTHERS.iter()).all(|(one, others)| is_before(
            one.records(),
            others.0,
            others.1,
        ))
}

/// Whether the last ships of a run are in name order.
fn ends_by_name<R: Threads + Wait + Sync>(rt: &R, alloc: Global) -> Option<bool> {
    let phases = two_phases(alloc)?;
    let report = ran(rt, alloc, EXAMPLE, phases.as_slice(), &Open)?.ok()?;
    Some(are_by_name(report.closed.as_slice()))
}

#[test]
fn links_ship_last_by_name(rt: HostRuntime) -> Result<(), Fail> {
    assert_eq!(rt; ends_by_name(&rt, rt.alloc()), Some(true));
    Ok(())
}
