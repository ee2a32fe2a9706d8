//! Messages whose delta numbers exceed four bytes: the sender's count, and its acknowledgement. Both versions write
//! eight bytes for each, and accept values up to 2^62.
use crate::messages::{FRONT_ONE, are_equal, bytes_after, has_bytes, packet_bytes};
use crate::sample::{EXAMPLE, config, origin};
use dac_base::NodeId;
use dac_messages::{Body, Message};
use dac_wire::{Packet, decode};
use std::alloc::Global;

/// The sender's count and the acknowledgement, each with its bytes.
type Row = (u64, &'static [u8], u64, &'static [u8]);

const NUMBERS: &[Row] = &[
    (
        4_294_967_295,
        b"\x00\x00\x00\x00\xff\xff\xff\xff",
        4_294_967_296,
        b"\x00\x00\x00\x01\x00\x00\x00\x00",
    ),
    (
        4_294_967_296,
        b"\x00\x00\x00\x01\x00\x00\x00\x00",
        3,
        b"\x00\x00\x00\x00\x00\x00\x00\x03",
    ),
    (
        72_623_859_790_382_856,
        b"\x01\x02\x03\x04\x05\x06\x07\x08",
        578_437_695_752_307_201,
        b"\x08\x07\x06\x05\x04\x03\x02\x01",
    ),
    (
        1 << 62,
        b"\x40\x00\x00\x00\x00\x00\x00\x00",
        1 << 62,
        b"\x40\x00\x00\x00\x00\x00\x00\x00",
    ),
];

/// A message without a body from node 1, incarnation 258, to node 0, incarnation 2.
fn message(up_to: u64, got: u64) -> Packet {
    Packet::Msg(Message {
        from: origin(1, 258),
        to: NodeId(0),
        only: Some(2),
        up_to,
        body: Body::Nothing,
        ack: Some((origin(0, 2), got)),
    })
}

/// The fields before the count: kind 3, the origin, and the receiver.
const BEFORE: &[u8] =
    b"\x03\x01\x00\x00\x00\x00\x00\x00\x01\x02\x00\x00\x00\x00\x00\x00\x00\x00\x02";

/// The fields between the two numbers: an acknowledgement of node 0, incarnation 2.
const BETWEEN: &[u8] = b"\x01\x00\x00\x00\x00\x00\x00\x00\x00\x02";

/// True if a row's message has the row's bytes, and is read from them.
fn is_spelled(alloc: Global, row: Row) -> Option<bool> {
    let (up_to, shipped, got, acknowledged) = row;
    let config = config(alloc, EXAMPLE)?;
    let bytes = packet_bytes(alloc, &[BEFORE, shipped, BETWEEN, acknowledged]).ok()?;
    let read = decode(alloc, &config, &bytes).ok()?;
    let packet = message(up_to, got);
    Some(are_equal(&read, &packet) && has_bytes(alloc, &config, &packet, &bytes))
}

#[test]
fn great_numbers_of_deltas(rt: HostRuntime) {
    for row in NUMBERS {
        let (up_to, _, _, _) = *row;
        assert!(rt; is_spelled(rt.alloc(), *row) == Some(true), "{up_to}");
    }
}

/// The fields before the count, in version 1.
const BEFORE_ONE: &[u8] = b"\x03\x01\x00\x00\x01\x02\x00\x00\x00\x00\x02";

/// The fields between the two numbers, in version 1.
const BETWEEN_ONE: &[u8] = b"\x01\x00\x00\x00\x00\x02";

/// True if a row's message is read from its bytes in version 1.
fn is_read_in_version_one(alloc: Global, row: Row) -> Option<bool> {
    let (up_to, shipped, got, acknowledged) = row;
    let config = config(alloc, EXAMPLE)?;
    let fields = [BEFORE_ONE, shipped, BETWEEN_ONE, acknowledged];
    let bytes = bytes_after(alloc, FRONT_ONE, &fields).ok()?;
    let read = decode(alloc, &config, &bytes).ok()?;
    Some(are_equal(&read, &message(up_to, got)))
}

#[test]
fn great_numbers_of_deltas_in_version_one(rt: HostRuntime) {
    for row in NUMBERS {
        let (up_to, _, _, _) = *row;
        let answer = is_read_in_version_one(rt.alloc(), *row);
        assert!(rt; answer == Some(true), "{up_to}");
    }
}
