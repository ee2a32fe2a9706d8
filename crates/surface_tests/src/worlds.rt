//! `dac_wire` and `dac_core`.
use crate::texts::TWO;
use dac_config::{AppId, Config, NodeId, read_config};
use dac_core::{
    AppList, Command, Event, Node, OpList, Refusal, Reply, What, World, WorldEvent, WorldFault,
};
use dac_dots::Origin;
use dac_state::{Op, State};
use dac_wire::{Body, Message, Packet, WireFault, WireFaultKind, decode, encode};
use std::alloc::Global;

fn booted(alloc: Global, config: &Config) -> Option<Node> {
    let mut node = Node::off(alloc, 4).copy().ok()?;
    let reply: Reply = node
        .step(config, NodeId(0), Event::Boot { now: 0 })
        .ok()?
        .copy()
        .ok()?;
    match reply {
        Reply::Booted(_op) => Some(node),
        _other => None,
    }
}

/// True if a booted node has an incarnation and a state, and refuses a takeover that it isn't eligible for.
fn is_up(alloc: Global) -> Option<bool> {
    let config = read_config(alloc, TWO).ok()?;
    let mut node = booted(alloc, &config)?;
    let origin: Option<Origin> = node.origin();
    let state: Option<&State> = node.state();
    let all = origin.is_some() && state.is_some();
    let event: Event = Event::Command(Command::Takeover { app: AppId(0) })
        .copy()
        .ok()?;
    let why: Option<Refusal> = node.step(&config, NodeId(0), event).err();
    Some(all && why == Some(Refusal::NotEligible))
}

/// A message without a state.
pub fn message() -> Message {
    let from = Origin {
        node: NodeId(0),
        inc: 1,
    };
    Message {
        from,
        to: NodeId(1),
        only: Some(1u64),
        up_to: 7u64,
        body: Body::Nothing,
        ack: Some((from, 2u64)),
    }
}

/// True if a message is read from its bytes, and a prefix is refused.
fn is_read(alloc: Global) -> Option<bool> {
    let config = read_config(alloc, TWO).ok()?;
    let packet = Packet::Msg(message().copy().ok()?);
    let bytes: Vec<u8> = encode(alloc, &config, &packet).ok()?;
    let read = match decode(alloc, &config, bytes.as_slice()).ok()? {
        Packet::Msg(message) => message.up_to == 7,
        Packet::Single(_op) => false,
    };
    let fault: Option<WireFault> = decode(alloc, &config, b"DA").err();
    Some(read && fault.map(|fault| fault.kind) == Some(WireFaultKind::BadMagic))
}

/// Two boots, one at an unconfigured node.
fn events(alloc: Global) -> Option<Vec<WorldEvent>> {
    let mut events = Vec::new(alloc);
    for node in [0u8, 9] {
        let what = What::Boot { now: 0 };
        events
            .push(WorldEvent {
                node: NodeId(node),
                what,
            })
            .ok()?;
    }
    Some(events)
}

/// True if a world returns a result for each event, and runs a further step.
fn goes_on(alloc: Global) -> Option<bool> {
    let config = read_config(alloc, TWO).ok()?;
    let (mut world, answers): (World, Vec<Result<Reply, WorldFault>>) = World::run(
        alloc,
        &config,
        events(alloc)?.as_slice(),
    ).ok()?;
    let crash = WorldEvent {
        node: NodeId(0),
        what: What::Crash,
    };
    let crashed: Result<Reply, WorldFault> = world.step(&config, &crash);
    let operations: &[Op] = world.operations();
    let messages: &[Message] = world.messages();
    Some(answers.len() == 2 && crashed.is_ok() && operations.len() == 1 && messages.is_empty())
}

/// True if the nodes of a new world are off.
fn begins_off(alloc: Global) -> Option<bool> {
    let config = read_config(alloc, TWO).ok()?;
    let world = World::new(alloc, &config).ok()?;
    if config.nodes() == 0 {
        return None;
    }
    Some(world.node(NodeId(0)).state().is_none())
}

/// True if lists return their contents.
fn are_given_back(alloc: Global) -> Option<bool> {
    let mut apps = Vec::new(alloc);
    apps.push(AppId(0)).ok()?;
    let list: AppList = AppList::new(apps);
    let back: Vec<AppId> = list.into_vec();
    let none: Vec<Op> = OpList::new(Vec::new(alloc)).into_vec();
    Some(back.len() == 1 && back[0] == AppId(0) && none.is_empty())
}

#[test]
fn nodes(rt: HostRuntime) {
    assert!(rt; is_up(rt.alloc()) == Some(true));
    assert!(rt; is_read(rt.alloc()) == Some(true));
}

#[test]
fn worlds(rt: HostRuntime) {
    assert!(rt; goes_on(rt.alloc()) == Some(true));
    assert!(rt; begins_off(rt.alloc()) == Some(true));
    assert!(rt; are_given_back(rt.alloc()) == Some(true));
}
