//! The callers in the first comments of `dac_core` and `dac_node`.
use dac_base::{AppId, NodeId};
use dac_config::read_config;
use dac_core::{Command, Event, Node, Refusal, Reply, What, World, WorldEvent};
use dac_placement::holder;
use std::alloc::Global;
use std::test::Fail;

/// One application with two nodes.
const SHOP: &[u8] = b"[{kernel,[{distributed,[{shop,[main@h,spare@h]}]}]}].";

/// The holder in the second node's state after it received the first one's claim.
fn holder_by_hearsay(alloc: Global) -> Option<NodeId> {
    let config = read_config(alloc, SHOP).ok()?;
    let (main, spare, app) = (NodeId(0), NodeId(1), AppId(0));
    let start = Command::Start { app, node: main };
    let script = [
        (main, What::Boot { now: 0 }),
        (spare, What::Boot { now: 0 }),
        (main, What::Command(start)),
        (main, What::Tick { now: 10 }),
        (main, What::Ship { to: spare }),
        (spare, What::Deliver(1)),
    ];
    let mut events = Vec::new(alloc);
    for (node, what) in script {
        events.push(WorldEvent { node, what }).ok()?;
    }
    let (world, answers) = World::run(alloc, &config, &events).ok()?;
    if config.nodes() <= spare.0 || answers.iter().any(|answer| answer.is_err()) {
        return None;
    }
    let state = world.node(spare).state()?;
    Some(holder(state, app)?.node)
}

#[test]
fn a_caller_of_a_world(rt: HostRuntime) -> Result<(), Fail> {
    assert_eq!(rt; holder_by_hearsay(rt.alloc()), Some(NodeId(0)));
    Ok(())
}

/// Runs two controllers without a world. Returns whether the first one's message is new to the second, and the second
/// one's refusal of it after a crash.
fn heard_and_refused(alloc: Global) -> Option<(bool, Refusal)> {
    let config = read_config(alloc, SHOP).ok()?;
    let (main, spare) = (NodeId(0), NodeId(1));
    let mut sender = Node::off(alloc, 0);
    let mut receiver = Node::off(alloc, 0);
    sender.step(&config, main, Event::Boot { now: 0 }).ok()?;
    receiver.step(&config, spare, Event::Boot { now: 0 }).ok()?;
    let shipped = sender.step(&config, main, Event::Ship { to: spare });
    let Ok(Reply::Shipped(message)) = shipped else {
        return None;
    };
    let again = message.copy().ok()?;
    let heard = receiver.step(&config, spare, Event::Hear(message)).ok()?;
    receiver.step(&config, spare, Event::Crash).ok()?;
    let late = receiver.step(&config, spare, Event::Hear(again));
    Some((heard.equal(&Reply::Heard(true)), late.err()?))
}

#[test]
fn a_caller_of_a_node(rt: HostRuntime) -> Result<(), Fail> {
    assert_eq!(rt; heard_and_refused(rt.alloc()), Some((true, Refusal::Off)));
    Ok(())
}
