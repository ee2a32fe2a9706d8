//! Journals that no run reproduces, and no journals.
use crate::journals::{ask, close_all, example, journal};
use dac_base::{AppId, NodeId};
use dac_config::read_config;
use dac_events::{Command, WorldEvent};
use dac_journal::{Closed, Journal};
use dac_messages::{Body, Event, Message};
use dac_origins::Origin;
use dac_weave::{WeaveFault, weave};
use std::alloc::Global;
use std::test::Fail;

/// The result of weaving under the example's configuration.
fn woven(alloc: Global, journals: &[Closed]) -> Option<Result<Vec<WorldEvent>, WeaveFault>> {
    let config = example(alloc)?;
    Some(weave(alloc, &config, journals))
}

fn fault_of(alloc: Global, journals: &[Closed]) -> Option<WeaveFault> {
    woven(alloc, journals)?.err()
}

/// A message that no node shipped.
fn strange_message() -> Message {
    Message {
        from: Origin {
            node: NodeId(0),
            inc: 1,
        },
        to: NodeId(1),
        only: None,
        up_to: 1,
        body: Body::Nothing,
        ack: None,
    }
}

/// The fault if a node receives a message that no node shipped.
fn by_hand(alloc: Global) -> Option<WeaveFault> {
    let p = journal(alloc, 0, 0)?;
    let mut q = journal(alloc, 1, 0)?;
    let _up = ask(&mut q, Event::Boot { now: 0 })?;
    let _heard = ask(&mut q, Event::Hear(strange_message()))?;
    let journals = close_all(alloc, [p, q])?;
    fault_of(alloc, journals.as_slice())
}

/// The fault of empty journals of these nodes after these incarnations.
fn of_empty(alloc: Global, nodes: &[(u8, u64)]) -> Option<WeaveFault> {
    let mut journals = Vec::new(alloc);
    for (node, last) in nodes {
        let empty = journal(alloc, *node, *last)?;
        journals.push(empty.close()).ok()?;
    }
    fault_of(alloc, journals.as_slice())
}

/// The fault of a journal with a record of an unconfigured node.
fn unseated_record(alloc: Global) -> Option<WeaveFault> {
    let p = journal(alloc, 0, 0)?;
    let q = journal(alloc, 1, 0)?;
    let mut other = journal(alloc, 9, 0)?;
    let _up = ask(&mut other, Event::Boot { now: 0 })?;
    let journals = close_all(alloc, [p, other, q])?;
    fault_of(alloc, journals.as_slice())
}

/// The example's nodes with a second application.
const TWO_APPS: &[u8] =
    b"[{kernel, [{distributed, [{myapp, 5000, [cp1@cave, {cp2@cave, cp3@cave}]}, {other, [cp1@cave]}]}]}].";

/// The fault of a journal recorded under another configuration. Only its last record has another result under the
/// example's, which hasn't the application that it starts.
fn of_another_configuration(alloc: Global) -> Option<WeaveFault> {
    let config = read_config(alloc, TWO_APPS).ok()?;
    let mut p = Journal::new(alloc, config, NodeId(0), 0);
    let start = Command::Start {
        app: AppId(1),
        node: NodeId(0),
    };
    let _up = ask(&mut p, Event::Boot { now: 0 })?;
    let _started = ask(&mut p, Event::Command(start))?.ok()?;
    let journals = close_all(alloc, [p])?;
    fault_of(alloc, journals.as_slice())
}

fn unwoven(node: u8, place: u64) -> WeaveFault {
    WeaveFault::Unwoven {
        node: NodeId(node),
        place,
    }
}

/// Node and number of incarnations of empty journals, and the node of the fault.
const EMPTY: &[(&[(u8, u64)], Option<u8>)] = &[
    // A journal after five incarnations.
    (&[(1, 5)], Some(1)),
    (&[(0, 0), (1, 5), (2, 0)], Some(1)),
    // Two journals of one node.
    (&[(1, 0), (1, 0)], Some(1)),
    (&[(2, 0), (1, 0), (2, 0)], Some(2)),
    // The least node of both faults.
    (&[(2, 0), (1, 7), (2, 0)], Some(1)),
    // Each node once.
    (&[(0, 0)], None),
    (&[(2, 0), (1, 0), (0, 0)], None),
];

/// True if the fault of these empty journals names this node and place 0.
fn is_of(alloc: Global, nodes: &[(u8, u64)], node: Option<u8>) -> bool {
    let wanted = match node {
        Some(node) => Some(unwoven(node, 0)),
        None => None,
    };
    of_empty(alloc, nodes) == wanted
}

/// The number of events woven from no journals.
fn of_none(alloc: Global) -> Option<usize> {
    let journals: Vec<Closed> = Vec::new(alloc);
    let events = woven(alloc, journals.as_slice())?.ok()?;
    Some(events.len())
}

#[test]
fn a_message_made_by_hand(rt: HostRuntime) -> Result<(), Fail> {
    assert_eq!(rt; by_hand(rt.alloc()), Some(unwoven(1, 2)));
    Ok(())
}

#[test]
fn journals_without_records(rt: HostRuntime) -> Result<(), Fail> {
    for (nodes, node) in EMPTY {
        assert!(rt; is_of(rt.alloc(), nodes, *node));
    }
    Ok(())
}

#[test]
fn an_unknown_node(rt: HostRuntime) -> Result<(), Fail> {
    assert_eq!(rt; unseated_record(rt.alloc()), Some(unwoven(9, 1)));
    Ok(())
}

#[test]
fn a_last_result_of_another_configuration(rt: HostRuntime) -> Result<(), Fail> {
    assert_eq!(rt; of_another_configuration(rt.alloc()), Some(unwoven(0, 2)));
    Ok(())
}

#[test]
fn no_journals(rt: HostRuntime) -> Result<(), Fail> {
    assert_eq!(rt; of_none(rt.alloc()), Some(0));
    Ok(())
}
