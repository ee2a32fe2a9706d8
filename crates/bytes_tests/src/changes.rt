//! Packets with one byte changed, at every place to every value: each is refused or is the encoding of another packet.
use crate::messages::{
    BOOTED, INTERVAL, OPERATIONS, boot_bytes, has_bytes, packet_bytes, with_byte,
};
use crate::sample::{EXAMPLE, config, origin};
use crate::state_bytes::{LISTS, full};
use dac_base::NodeId;
use dac_config::Config;
use dac_messages::{Body, Message};
use dac_wire::{Packet, decode, encode};
use std::alloc::Global;

/// True if the bytes are refused, or are the encoding of the packet that they decode to.
fn is_refused_or_read(alloc: Global, config: &Config, bytes: &[u8]) -> bool {
    match decode(alloc, config, bytes) {
        Ok(packet) => has_bytes(alloc, config, &packet, bytes),
        Err(_) => true,
    }
}

/// The first place where changing a byte breaks that.
fn wrong_place(alloc: Global, text: &[u8], bytes: &[u8], byte: u8) -> Option<Option<usize>> {
    let config = config(alloc, text)?;
    for at in 0..bytes.len() {
        let bytes = with_byte(alloc, bytes, at, byte).ok()?;
        if !is_refused_or_read(alloc, &config, &bytes) {
            return Some(Some(at));
        }
    }
    Some(None)
}

/// The first such place in the message of a booted node.
fn wrong_in_message(alloc: Global, byte: u8) -> Option<Option<usize>> {
    wrong_place(alloc, EXAMPLE, &boot_bytes(alloc).ok()?, byte)
}

#[test]
fn one_byte_changed_in_a_message(rt: HostRuntime) {
    for byte in 0..=255 {
        let wrong = wrong_in_message(rt.alloc(), byte);
        assert!(rt; wrong == Some(None), "{byte}: {wrong:?}");
    }
}

/// The first such place in a packet of these fields.
fn wrong_in(alloc: Global, fields: &[&[u8]], byte: u8) -> Option<Option<usize>> {
    wrong_place(alloc, EXAMPLE, &packet_bytes(alloc, fields).ok()?, byte)
}

#[test]
fn one_byte_changed_in_an_interval(rt: HostRuntime) {
    for byte in 0..=255 {
        let wrong = wrong_in(rt.alloc(), &[INTERVAL, BOOTED], byte);
        assert!(rt; wrong == Some(None), "{byte}: {wrong:?}");
    }
}

/// True if no operation of any kind has such a place.
fn is_so_of_operations(alloc: Global, byte: u8) -> bool {
    OPERATIONS.iter().all(|(fields, _, _)| wrong_in(alloc, &[fields], byte) == Some(None))
}

#[test]
fn one_byte_changed_in_every_operation(rt: HostRuntime) {
    for byte in 0..=255 {
        assert!(rt; is_so_of_operations(rt.alloc(), byte), "{byte}");
    }
}

/// The bytes of a message whose state has every piece.
fn every_part(alloc: Global) -> Option<Vec<u8>> {
    let message = Message {
        from: origin(2, 258),
        to: NodeId(1),
        only: None,
        up_to: 1 << 40,
        body: Body::Whole(full(alloc)?),
        ack: Some((origin(1, 1), 3)),
    };
    encode(alloc, &config(alloc, LISTS)?, &Packet::Msg(message)).ok()
}

/// The first such place in that message.
fn wrong_in_every_part(alloc: Global, byte: u8) -> Option<Option<usize>> {
    wrong_place(alloc, LISTS, &every_part(alloc)?, byte)
}

#[test]
fn one_byte_changed_in_a_message_with_every_part(rt: HostRuntime) {
    for byte in 0..=255 {
        let wrong = wrong_in_every_part(rt.alloc(), byte);
        assert!(rt; wrong == Some(None), "{byte}: {wrong:?}");
    }
}
