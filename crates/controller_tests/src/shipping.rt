//! Ships after deltas were dropped or after a warm-up, and messages and acknowledgements that are ignored or refused.
use crate::nodes::{FIRST, ONE, SECOND, boot_second, hears_starts, message, step};
use crate::steps::dot;
use dac_base::NodeId;
use dac_config::{Config, read_config};
use dac_core::{Body, Event, Message, Node, Refusal, Reply};
use dac_origins::Origin;
use dac_wire::{Packet, decode, encode};
use std::alloc::Global;

/// A message of the first node to the second without a state, which acknowledges `number` deltas.
fn acknowledgement(number: u64) -> Message {
    Message {
        from: dot(0, 1, 1).origin,
        to: SECOND,
        only: None,
        up_to: 0,
        body: Body::Nothing,
        ack: Some((dot(1, 1, 1).origin, number)),
    }
}

/// The second node with two deltas, its own boot and the first node's, after the first acknowledged `number`.
fn node_after_ack(alloc: Global, config: &Config, number: u64) -> Option<Node> {
    let mut node = boot_second(alloc, config)?;
    let _up = step(config, &mut node, Event::Hear(message(alloc)?)).ok()?;
    let _ack = step(config, &mut node, Event::Hear(acknowledgement(number))).ok()?;
    Some(node)
}

/// The message that the second node ships to the first.
fn ship(config: &Config, node: &mut Node) -> Option<Message> {
    match step(config, node, Event::Ship { to: FIRST }).ok()? {
        Reply::Shipped(message) => Some(message),
        _ => None,
    }
}

/// True if the second node ships its whole state to the first, which acknowledged `number` deltas before the second
/// received starts up to counter `end`.
fn ships_whole(alloc: Global, number: u64, end: u64) -> Option<bool> {
    let config = read_config(alloc, ONE).ok()?;
    let mut node = node_after_ack(alloc, &config, number)?;
    if !hears_starts(alloc, &config, &mut node, end) {
        return None;
    }
    let message = ship(&config, &mut node)?;
    Some(matches!(message.body, Body::Whole(_)))
}

#[test]
fn whole_once_the_oldest_of_256_deltas_is_dropped(rt: HostRuntime) {
    assert!(rt; ships_whole(rt.alloc(), 2, 2 + 256) == Some(false));
    assert!(rt; ships_whole(rt.alloc(), 2, 2 + 257) == Some(true));
}

/// True if a warmed copy of the second node ships the same interval of nine starts as the node itself.
fn ships_the_same_once_ready(alloc: Global) -> Option<bool> {
    let config = read_config(alloc, ONE).ok()?;
    let mut node = node_after_ack(alloc, &config, 2)?;
    if !hears_starts(alloc, &config, &mut node, 2 + 9) {
        return None;
    }
    let mut ready = node.copy().ok()?;
    ready.warm(&Event::Ship { to: FIRST });
    let message = ship(&config, &mut ready)?;
    let other = ship(&config, &mut node)?;
    Some(matches!(message.body, Body::Interval(_)) && message.equal(&other))
}

#[test]
fn a_node_that_is_made_ready_ships_the_same(rt: HostRuntime) {
    assert!(rt; ships_the_same_once_ready(rt.alloc()) == Some(true));
}

#[test]
fn an_acknowledgement_of_more_deltas_than_there_are_is_passed_over(rt: HostRuntime) {
    assert!(rt; ships_whole(rt.alloc(), 2, 3) == Some(false));
    assert!(rt; ships_whole(rt.alloc(), 3, 3) == Some(true));
}

/// The second node's acknowledgement after a message of the first with `up_to` deltas.
fn acknowledges(alloc: Global, up_to: u64) -> Option<Option<u64>> {
    let config = read_config(alloc, ONE).ok()?;
    let mut node = boot_second(alloc, &config)?;
    let mut sent = message(alloc)?;
    sent.up_to = up_to;
    let _heard = step(&config, &mut node, Event::Hear(sent)).ok()?;
    let answer = ship(&config, &mut node)?;
    Some(number_of(answer.ack))
}

/// The number of acknowledged deltas.
fn number_of(ack: Option<(Origin, u64)>) -> Option<u64> {
    match ack {
        Some((_, number)) => Some(number),
        None => None,
    }
}

#[test]
fn as_many_deltas_are_acknowledged_as_there_can_be(rt: HostRuntime) {
    for up_to in [1, 4_294_967_295, 4_294_967_296, 1 << 40, 1 << 62] {
        let answer = acknowledges(rt.alloc(), up_to);
        assert!(rt; answer == Some(Some(up_to)), "{up_to}");
    }
}

/// True if the second node refuses a message to this node and incarnation as `NotForMe`.
fn is_for_another(alloc: Global, last: u64, to: NodeId, only: Option<u64>) -> Option<bool> {
    let config = read_config(alloc, ONE).ok()?;
    let mut node = Node::off(alloc, last);
    let _up = step(&config, &mut node, Event::Boot { now: 0 }).ok()?;
    let mut sent = message(alloc)?;
    sent.to = to;
    sent.only = only;
    let answer = step(&config, &mut node, Event::Hear(sent));
    Some(answer.err() == Some(Refusal::NotForMe))
}

#[test]
fn messages_for_others_are_refused(rt: HostRuntime) {
    assert!(rt; is_for_another(rt.alloc(), 0, FIRST, None) == Some(true));
    assert!(rt; is_for_another(rt.alloc(), 1, SECOND, Some(1)) == Some(true));
    assert!(rt; is_for_another(rt.alloc(), 1, SECOND, Some(2)) == Some(false));
}

/// The whole state that the second node ships after a boot that follows incarnation `last`.
fn ship_whole(alloc: Global, config: &Config, last: u64) -> Option<Message> {
    let mut node = Node::off(alloc, last);
    let _up = step(config, &mut node, Event::Boot { now: 0 }).ok()?;
    ship(config, &mut node)
}

/// True if that message has incarnation `inc`, and is read again from its bytes.
fn is_read_again(alloc: Global, last: u64, inc: u64) -> Option<bool> {
    let config = read_config(alloc, ONE).ok()?;
    let message = ship_whole(alloc, &config, last)?;
    let bytes = encode(alloc, &config, &Packet::Msg(message.copy().ok()?)).ok()?;
    match decode(alloc, &config, &bytes).ok()? {
        Packet::Msg(read) => Some(read.from.inc == inc && read.equal(&message)),
        Packet::Single(_) => Some(false),
    }
}

#[test]
fn messages_of_late_incarnations_are_read(rt: HostRuntime) {
    let past_four_bytes = is_read_again(rt.alloc(), 4_294_967_295, 4_294_967_296);
    assert!(rt; past_four_bytes == Some(true));
    let last = is_read_again(rt.alloc(), (1 << 62) - 1, 1 << 62);
    assert!(rt; last == Some(true));
}
