//! Messages and single operations as bytes: a booted node's message in both versions, each kind of packet, and faulty
//! bytes.
use crate::sample::{EXAMPLE, config, dot, origin};
use dac_base::{AppId, NoMemory, NodeId};
use dac_chains::How;
use dac_config::Config;
use dac_messages::{Body, Message};
use dac_operations::{Act, Op};
use dac_state::State;
use dac_wire::{Packet, WireFault, WireFaultKind, decode, encode};
use dac_wishes::{DotList, Key};
use std::alloc::Global;

/// The state of node 0 after its boot.
pub const BOOTED: &[u8] =
    b"\x00\x01\x00\x00\x00\x00\x00\x00\x00\x00\x01\x00\x00\x00\x00\x00\x00\x00\x01\x00\x00\x00\x00\
    \x00\x01\x00\x00\x00\x00\x00\x00\x00\x00\x01\x00\x00\x00\x00\x00\x00\x00\x01\x00\x00\x00\x00\
    \x00\x00\x00\x00\x00\x00\x00\x00\
    \x01\x00\x00\x00\x00\x00\x00\x00\x00\x01\x00\
    \x00\x00\
    \x00\x00\x00\x00";

/// The fields of that node's message, before the state: kind 1; from node 0, incarnation 1; to node 1, any incarnation;
/// one delta; no acknowledgement.
const WHOLE: &[u8] =
    b"\x01\x00\x00\x00\x00\x00\x00\x00\x00\x01\x01\x00\x00\x00\x00\x00\x00\x00\x00\x00\x00\x00\x00\x00\x00\x00\x01\x00";

/// The fields of an interval, before the state: kind 2; from node 1, incarnation 258; to node 0, incarnation 2; seven
/// deltas; three deltas of node 0, incarnation 2, acknowledged.
pub const INTERVAL: &[u8] =
    b"\x02\x01\x00\x00\x00\x00\x00\x00\x01\x02\x00\x00\x00\x00\x00\x00\x00\x00\x02\x00\x00\x00\x00\x00\x00\x00\x07\
    \x01\x00\x00\x00\x00\x00\x00\x00\x00\x02\x00\x00\x00\x00\x00\x00\x00\x03";

/// The fields of a message without a state: kind 3, then those of the interval.
const NOTHING: &[u8] =
    b"\x03\x01\x00\x00\x00\x00\x00\x00\x01\x02\x00\x00\x00\x00\x00\x00\x00\x00\x02\x00\x00\x00\x00\x00\x00\x00\x07\
    \x01\x00\x00\x00\x00\x00\x00\x00\x00\x02\x00\x00\x00\x00\x00\x00\x00\x03";

/// The header of packets under the example: `DAC`, version 2 and the mark 15451059380765602643, which is the 64-bit
/// FNV-1a hash of the canonical text.
const FRONT: &[u8] = b"DAC\x02\xd6\x6d\x30\xa4\xc2\x00\x33\x53";

/// The header in version 1.
pub const FRONT_ONE: &[u8] = b"DAC\x01\xd6\x6d\x30\xa4\xc2\x00\x33\x53";

/// The booted node's message in version 1, after its header. Incarnations have four bytes, and the state has no drains.
const WHOLE_ONE: &[u8] =
    b"\x01\x00\x00\x00\x00\x01\x01\x00\x00\x00\x00\x00\x00\x00\x00\x00\x00\x00\x01\x00\
    \x00\x01\x00\x00\x00\x00\x01\x00\x00\x00\x00\x00\x00\x00\x01\x00\x00\x00\x00\
    \x00\x01\x00\x00\x00\x00\x01\x00\x00\x00\x00\x00\x00\x00\x01\x00\x00\x00\x00\
    \x00\x00\x00\x00\x00\x00\x00\x00\
    \x01\x00\x00\x00\x00\x01\x00\
    \x00\x00";

/// The bytes of a packet with these fields after its header.
pub fn packet_bytes(alloc: Global, fields: &[&[u8]]) -> Result<Vec<u8>, NoMemory> {
    bytes_after(alloc, FRONT, fields)
}

/// These fields after a header.
pub fn bytes_after(alloc: Global, front: &[u8], fields: &[&[u8]]) -> Result<Vec<u8>, NoMemory> {
    let mut bytes = Vec::from_slice(alloc, front)?;
    for part in fields {
        bytes.extend_from_slice(part)?;
    }
    Ok(bytes)
}

/// The bytes of the booted node's message.
pub fn boot_bytes(alloc: Global) -> Result<Vec<u8>, NoMemory> {
    packet_bytes(alloc, &[WHOLE, BOOTED])
}

/// The bytes of the booted node's message in version 1.
fn booted_one(alloc: Global) -> Result<Vec<u8>, NoMemory> {
    bytes_after(alloc, FRONT_ONE, &[WHOLE_ONE])
}

/// True if the packets are equal.
pub fn are_equal(one: &Packet, other: &Packet) -> bool {
    match (one, other) {
        (Packet::Msg(one), Packet::Msg(other)) => one.equal(other),
        (Packet::Single(one), Packet::Single(other)) => one.equal(other),
        _ => false,
    }
}

/// True if these are the packet's bytes.
pub fn has_bytes(alloc: Global, config: &Config, packet: &Packet, bytes: &[u8]) -> bool {
    match encode(alloc, config, packet) {
        Ok(written) => written.as_slice() == bytes,
        Err(_) => false,
    }
}

/// True if these fields are the packet's bytes, and are read as the packet.
fn is_spelled(alloc: Global, fields: &[&[u8]], packet: &Packet) -> Option<bool> {
    let config = config(alloc, EXAMPLE)?;
    let bytes = packet_bytes(alloc, fields).ok()?;
    let read = decode(alloc, &config, &bytes).ok()?;
    Some(are_equal(&read, packet) && has_bytes(alloc, &config, packet, &bytes))
}

/// The state of the booted node.
fn state(alloc: Global) -> Option<State> {
    State::decode(alloc, &config(alloc, EXAMPLE)?, BOOTED).ok()
}

/// The booted node's message.
fn whole(state: State) -> Packet {
    Packet::Msg(Message {
        from: origin(0, 1),
        to: NodeId(1),
        only: None,
        up_to: 1,
        body: Body::Whole(state),
        ack: None,
    })
}

/// A message of node 1 to the second incarnation of node 0.
fn answer(body: Body) -> Packet {
    Packet::Msg(Message {
        from: origin(1, 258),
        to: NodeId(0),
        only: Some(2),
        up_to: 7,
        body,
        ack: Some((origin(0, 2), 3)),
    })
}

/// True if a message of each kind has its bytes.
fn are_messages_spelled(alloc: Global) -> Option<bool> {
    let whole = whole(state(alloc)?);
    let interval = answer(Body::Interval(state(alloc)?));
    let nothing = answer(Body::Nothing);
    Some(
        is_spelled(alloc, &[WHOLE, BOOTED], &whole)?
            && is_spelled(alloc, &[INTERVAL, BOOTED], &interval)?
            && is_spelled(alloc, &[NOTHING], &nothing)?,
    )
}

#[test]
fn every_message(rt: HostRuntime) {
    assert!(rt; are_messages_spelled(rt.alloc()) == Some(true));
}

/// True if the message in version 1 is read, and is written in version 2.
fn is_read_in_version_one(alloc: Global) -> Option<bool> {
    let config = config(alloc, EXAMPLE)?;
    let packet = decode(alloc, &config, &booted_one(alloc).ok()?).ok()?;
    let newer = boot_bytes(alloc).ok()?;
    Some(are_equal(&packet, &whole(state(alloc)?)) && has_bytes(alloc, &config, &packet, &newer))
}

#[test]
fn a_message_in_version_one(rt: HostRuntime) {
    assert!(rt; is_read_in_version_one(rt.alloc()) == Some(true));
}

/// The kind of an operation, with the value of a permit or a drain, or the term, cause and previous node of a claim.
#[derive(Clone, Copy)]
pub enum Kind {
    Up,
    Down,
    Permit(bool),
    Start,
    Stop,
    Claim(u64, How, Option<NodeId>),
    Drain(bool),
}

/// Application 0 at node 2, incarnation 3.
const KEY: Key = Key {
    app: AppId(0),
    node: NodeId(2),
    inc: 3,
};

/// The dots that an operation replaces.
fn over(alloc: Global) -> Result<DotList, NoMemory> {
    let dots = [dot(0, 1, 2), dot(1, 258, 3)];
    Ok(DotList::new(Vec::from_slice(alloc, &dots)?))
}

/// The act of a kind.
fn act(kind: Kind, over: DotList) -> Act {
    let key = KEY;
    match kind {
        Kind::Up => Act::Up,
        Kind::Down => Act::Down {
            node: NodeId(2),
            inc: 4,
        },
        Kind::Permit(value) => Act::Permit { key, value, over },
        Kind::Start => Act::Start { key, over },
        Kind::Stop => Act::Stop { key, over },
        Kind::Claim(term, how, from) => Act::Claim {
            app: AppId(0),
            term,
            how,
            from,
        },
        Kind::Drain(value) => Act::Drain {
            node: NodeId(2),
            inc: 3,
            value,
            over,
        },
    }
}

/// Operations of node 1, incarnation 258, with their counters. The first line of a row has kind 4, the dot and the act;
/// the others have the act's fields:
/// - of a Down, node 2, incarnation 4;
/// - of a Permit, application 0, node 2, incarnation 3; the value; two replaced dots, (0, 1, 2) and (1, 258, 3);
/// - of a Start and a Stop, those of a Permit without the value;
/// - of a Claim, application 0, the term, the cause, and one more than the number of the previous node;
/// - of a Drain, node 2, incarnation 3; the value; the two replaced dots.
pub const OPERATIONS: &[(&[u8], u64, Kind)] = &[
    (
        b"\x04\x01\x00\x00\x00\x00\x00\x00\x01\x02\x00\x00\x00\x00\x00\x00\x00\x01\x01",
        1,
        Kind::Up,
    ),
    (
        b"\x04\x01\x00\x00\x00\x00\x00\x00\x01\x02\x00\x00\x00\x00\x00\x00\x00\x09\x02\
        \x02\x00\x00\x00\x00\x00\x00\x00\x04",
        9,
        Kind::Down,
    ),
    (
        b"\x04\x01\x00\x00\x00\x00\x00\x00\x01\x02\x00\x00\x00\x00\x00\x00\x00\x09\x03\
        \x00\x00\x02\x00\x00\x00\x00\x00\x00\x00\x03\x01\x00\x02\
        \x00\x00\x00\x00\x00\x00\x00\x00\x01\x00\x00\x00\x00\x00\x00\x00\x02\
        \x01\x00\x00\x00\x00\x00\x00\x01\x02\x00\x00\x00\x00\x00\x00\x00\x03",
        9,
        Kind::Permit(true),
    ),
    (
        b"\x04\x01\x00\x00\x00\x00\x00\x00\x01\x02\x00\x00\x00\x00\x00\x00\x00\x09\x03\
        \x00\x00\x02\x00\x00\x00\x00\x00\x00\x00\x03\x00\x00\x02\
        \x00\x00\x00\x00\x00\x00\x00\x00\x01\x00\x00\x00\x00\x00\x00\x00\x02\
        \x01\x00\x00\x00\x00\x00\x00\x01\x02\x00\x00\x00\x00\x00\x00\x00\x03",
        9,
        Kind::Permit(false),
    ),
    (
        b"\x04\x01\x00\x00\x00\x00\x00\x00\x01\x02\x00\x00\x00\x00\x00\x00\x00\x09\x04\
        \x00\x00\x02\x00\x00\x00\x00\x00\x00\x00\x03\x00\x02\
        \x00\x00\x00\x00\x00\x00\x00\x00\x01\x00\x00\x00\x00\x00\x00\x00\x02\
        \x01\x00\x00\x00\x00\x00\x00\x01\x02\x00\x00\x00\x00\x00\x00\x00\x03",
        9,
        Kind::Start,
    ),
    (
        b"\x04\x01\x00\x00\x00\x00\x00\x00\x01\x02\x00\x00\x00\x00\x00\x00\x00\x09\x05\
        \x00\x00\x02\x00\x00\x00\x00\x00\x00\x00\x03\x00\x02\
        \x00\x00\x00\x00\x00\x00\x00\x00\x01\x00\x00\x00\x00\x00\x00\x00\x02\
        \x01\x00\x00\x00\x00\x00\x00\x01\x02\x00\x00\x00\x00\x00\x00\x00\x03",
        9,
        Kind::Stop,
    ),
    (
        b"\x04\x01\x00\x00\x00\x00\x00\x00\x01\x02\x00\x00\x00\x00\x00\x00\x00\x09\x06\
        \x00\x00\x00\x00\x00\x00\x00\x00\x00\x01\x01\x00",
        9,
        Kind::Claim(1, How::Normal, None),
    ),
    (
        b"\x04\x01\x00\x00\x00\x00\x00\x00\x01\x02\x00\x00\x00\x00\x00\x00\x00\x09\x06\
        \x00\x00\x00\x00\x00\x00\x00\x00\x00\x05\x02\x01",
        9,
        Kind::Claim(5, How::Failover, Some(NodeId(0))),
    ),
    (
        b"\x04\x01\x00\x00\x00\x00\x00\x00\x01\x02\x00\x00\x00\x00\x00\x00\x00\x09\x06\
        \x00\x00\x00\x00\x00\x00\x00\x00\x01\x02\x03\x03",
        9,
        Kind::Claim(258, How::Takeover, Some(NodeId(2))),
    ),
    (
        b"\x04\x01\x00\x00\x00\x00\x00\x00\x01\x02\x00\x00\x00\x00\x00\x00\x00\x09\x07\
        \x02\x00\x00\x00\x00\x00\x00\x00\x03\x01\x00\x02\
        \x00\x00\x00\x00\x00\x00\x00\x00\x01\x00\x00\x00\x00\x00\x00\x00\x02\
        \x01\x00\x00\x00\x00\x00\x00\x01\x02\x00\x00\x00\x00\x00\x00\x00\x03",
        9,
        Kind::Drain(true),
    ),
    (
        b"\x04\x01\x00\x00\x00\x00\x00\x00\x01\x02\x00\x00\x00\x00\x00\x00\x00\x09\x07\
        \x02\x00\x00\x00\x00\x00\x00\x00\x03\x00\x00\x02\
        \x00\x00\x00\x00\x00\x00\x00\x00\x01\x00\x00\x00\x00\x00\x00\x00\x02\
        \x01\x00\x00\x00\x00\x00\x00\x01\x02\x00\x00\x00\x00\x00\x00\x00\x03",
        9,
        Kind::Drain(false),
    ),
];

/// True if these fields are the bytes of an operation with this counter and kind.
fn is_operation_spelled(alloc: Global, fields: &[u8], n: u64, kind: Kind) -> Option<bool> {
    let over = over(alloc).ok()?;
    let op = Op::new(dot(1, 258, n), act(kind, over)).ok()?;
    is_spelled(alloc, &[fields], &Packet::Single(op))
}

#[test]
fn every_operation(rt: HostRuntime) {
    for (fields, n, kind) in OPERATIONS {
        let answer = is_operation_spelled(rt.alloc(), fields, *n, *kind);
        assert!(rt; answer == Some(true), "{fields:?}");
    }
}

/// The fault of the bytes, if they have one.
fn fault_of(alloc: Global, config: &Config, bytes: &[u8]) -> Option<WireFault> {
    decode(alloc, config, bytes).err()
}

/// The fault of each prefix of the message that is shorter than this length, and not shorter than the one in the row
/// before. A short prefix has its fault at the first byte of the incomplete field.
const FRONTS: &[(usize, WireFaultKind, usize)] = &[
    (3, WireFaultKind::BadMagic, 0),
    (4, WireFaultKind::BadVersion, 3),
    (12, WireFaultKind::Short, 4),
    (13, WireFaultKind::Short, 12),
    (14, WireFaultKind::Short, 13),
    (22, WireFaultKind::Short, 14),
    (23, WireFaultKind::Short, 22),
    (31, WireFaultKind::Short, 23),
    (39, WireFaultKind::Short, 31),
    (40, WireFaultKind::Short, 39),
    (42, WireFaultKind::Short, 40),
    (43, WireFaultKind::Short, 42),
    (51, WireFaultKind::Short, 43),
    (59, WireFaultKind::Short, 51),
    (63, WireFaultKind::Short, 59),
    (65, WireFaultKind::Short, 63),
    (66, WireFaultKind::Short, 65),
    (74, WireFaultKind::Short, 66),
    (82, WireFaultKind::Short, 74),
    (86, WireFaultKind::Short, 82),
    (90, WireFaultKind::Short, 86),
    (94, WireFaultKind::Short, 90),
    (95, WireFaultKind::Short, 94),
    (96, WireFaultKind::Short, 95),
    (104, WireFaultKind::Short, 96),
    (105, WireFaultKind::Short, 104),
    (107, WireFaultKind::Short, 105),
    (111, WireFaultKind::Short, 107),
];

/// True if each prefix with a length in `lengths.0..lengths.1` has this fault.
fn are_refused(
    alloc: Global,
    config: &Config,
    bytes: &[u8],
    lengths: (usize, usize),
    fault: WireFault,
) -> bool {
    for length in lengths.0..lengths.1 {
        let (front, _) = bytes.split_at(length.min(bytes.len()));
        if fault_of(alloc, config, front) != Some(fault) {
            return false;
        }
    }
    true
}

/// The faults of the prefixes of the message in version 1.
const FRONTS_ONE: &[(usize, WireFaultKind, usize)] = &[
    (3, WireFaultKind::BadMagic, 0),
    (4, WireFaultKind::BadVersion, 3),
    (12, WireFaultKind::Short, 4),
    (13, WireFaultKind::Short, 12),
    (14, WireFaultKind::Short, 13),
    (18, WireFaultKind::Short, 14),
    (19, WireFaultKind::Short, 18),
    (23, WireFaultKind::Short, 19),
    (31, WireFaultKind::Short, 23),
    (32, WireFaultKind::Short, 31),
    (34, WireFaultKind::Short, 32),
    (35, WireFaultKind::Short, 34),
    (39, WireFaultKind::Short, 35),
    (47, WireFaultKind::Short, 39),
    (51, WireFaultKind::Short, 47),
    (53, WireFaultKind::Short, 51),
    (54, WireFaultKind::Short, 53),
    (58, WireFaultKind::Short, 54),
    (66, WireFaultKind::Short, 58),
    (70, WireFaultKind::Short, 66),
    (74, WireFaultKind::Short, 70),
    (78, WireFaultKind::Short, 74),
    (79, WireFaultKind::Short, 78),
    (80, WireFaultKind::Short, 79),
    (84, WireFaultKind::Short, 80),
    (85, WireFaultKind::Short, 84),
    (87, WireFaultKind::Short, 85),
];

/// True if each prefix has its fault in the list.
fn are_fronts_refused(
    alloc: Global,
    bytes: &[u8],
    fronts: &[(usize, WireFaultKind, usize)],
) -> Option<bool> {
    let config = config(alloc, EXAMPLE)?;
    let mut start = 0;
    for (end, kind, at) in fronts {
        let fault = WireFault {
            kind: *kind,
            at: *at,
        };
        if !are_refused(alloc, &config, bytes, (start, *end), fault) {
            return Some(false);
        }
        start = *end;
    }
    Some(start == bytes.len())
}

/// True if each prefix of the message has its fault, in both versions.
fn are_all_fronts_refused(alloc: Global) -> Option<bool> {
    let newer = boot_bytes(alloc).ok()?;
    let older = booted_one(alloc).ok()?;
    Some(
        are_fronts_refused(alloc, &newer, FRONTS)?
            && are_fronts_refused(alloc, &older, FRONTS_ONE)?,
    )
}

#[test]
fn fronts_of_a_message(rt: HostRuntime) {
    assert!(rt; are_all_fronts_refused(rt.alloc()) == Some(true));
}

/// The bytes with one of them changed.
pub fn with_byte(alloc: Global, bytes: &[u8], at: usize, byte: u8) -> Result<Vec<u8>, NoMemory> {
    let mut changed = Vec::from_slice(alloc, bytes)?;
    if let Some(there) = changed.get_mut(at) {
        *there = byte;
    }
    Ok(changed)
}

/// A place, its new byte, and the fault of the changed message.
const CHANGES: &[(usize, u8, WireFaultKind, usize)] = &[
    (0, 0x45, WireFaultKind::BadMagic, 0),
    (3, 0, WireFaultKind::BadVersion, 3),
    (3, 3, WireFaultKind::BadVersion, 3),
    // The rest is read as version 1.
    (3, 1, WireFaultKind::BadNumber, 14),
    (12, 0, WireFaultKind::BadNumber, 12),
    (12, 5, WireFaultKind::BadNumber, 12),
    // An interval requires an incarnation.
    (12, 2, WireFaultKind::BadNumber, 23),
    (13, 3, WireFaultKind::BadName, 13),
    (21, 0, WireFaultKind::BadNumber, 14),
    (22, 3, WireFaultKind::BadName, 22),
    // A whole state must be for any incarnation.
    (30, 1, WireFaultKind::BadNumber, 23),
    (31, 0x41, WireFaultKind::BadNumber, 31),
    (39, 2, WireFaultKind::BadNumber, 39),
    (39, 1, WireFaultKind::BadNumber, 83),
    // Faults within the state.
    (104, 2, WireFaultKind::BadNumber, 104),
    (95, 3, WireFaultKind::BadName, 95),
    (106, 1, WireFaultKind::Short, 109),
    (110, 1, WireFaultKind::Short, 111),
];

/// The fault of the message with one byte changed.
fn fault_of_change(alloc: Global, place: usize, byte: u8) -> Option<WireFault> {
    let config = config(alloc, EXAMPLE)?;
    let bytes = boot_bytes(alloc).ok()?;
    fault_of(alloc, &config, &with_byte(alloc, &bytes, place, byte).ok()?)
}

#[test]
fn one_fault_of_a_message(rt: HostRuntime) {
    for (place, byte, kind, at) in CHANGES {
        let fault = WireFault {
            kind: *kind,
            at: *at,
        };
        let answer = fault_of_change(rt.alloc(), *place, *byte);
        assert!(rt; answer == Some(fault), "byte {place}");
    }
}

/// The fault of the message with a byte after it.
fn trailing(alloc: Global) -> Option<WireFault> {
    let config = config(alloc, EXAMPLE)?;
    let mut bytes = boot_bytes(alloc).ok()?;
    bytes.push(0).ok()?;
    fault_of(alloc, &config, &bytes)
}

/// The fault of the message under another configuration.
fn under_another(alloc: Global) -> Option<WireFault> {
    let other = config(alloc, b"[{kernel,[{distributed,[{a,[b@h,c@h]}]}]}].")?;
    let bytes = boot_bytes(alloc).ok()?;
    fault_of(alloc, &other, &bytes)
}

/// The fault of one byte more than a packet can have.
fn too_long(alloc: Global) -> Option<WireFault> {
    let config = config(alloc, EXAMPLE)?;
    let mut bytes = Vec::new(alloc);
    bytes.resize(4_194_305, 0).ok()?;
    fault_of(alloc, &config, &bytes)
}

#[test]
fn faults_of_all_bytes(rt: HostRuntime) {
    let trailing_at = WireFault {
        kind: WireFaultKind::Trailing,
        at: 111,
    };
    let other_at = WireFault {
        kind: WireFaultKind::OtherConfig,
        at: 4,
    };
    let too_long_at = WireFault {
        kind: WireFaultKind::TooLong,
        at: 4_194_304,
    };
    assert!(rt; trailing(rt.alloc()) == Some(trailing_at));
    assert!(rt; under_another(rt.alloc()) == Some(other_at));
    assert!(rt; too_long(rt.alloc()) == Some(too_long_at));
}

/// The bytes of a stop that replaces two dots, up to the dots.
const STOP: &[u8] = b"\x04\x01\x00\x00\x00\x00\x00\x00\x00\x02\x00\x00\x00\x00\x00\x00\x00\x09\x05\
    \x00\x00\x02\x00\x00\x00\x00\x00\x00\x00\x03\x00\x02";

/// The fault of a stop that replaces these two dots.
fn fault_of_stop(alloc: Global, first: &[u8], second: &[u8]) -> Option<WireFault> {
    let config = config(alloc, EXAMPLE)?;
    let bytes = packet_bytes(alloc, &[STOP, first, second]).ok()?;
    fault_of(alloc, &config, &bytes)
}

/// A dot of node 1.
const SECOND: &[u8] = b"\x01\x00\x00\x00\x00\x00\x00\x00\x01\x00\x00\x00\x00\x00\x00\x00\x02";

/// A dot of node 0.
const FIRST: &[u8] = b"\x00\x00\x00\x00\x00\x00\x00\x00\x01\x00\x00\x00\x00\x00\x00\x00\x02";

/// The stop's own dot.
const OWN: &[u8] = b"\x01\x00\x00\x00\x00\x00\x00\x00\x02\x00\x00\x00\x00\x00\x00\x00\x09";

#[test]
fn faults_of_an_operation(rt: HostRuntime) {
    let order = WireFault {
        kind: WireFaultKind::BadOrder,
        at: 61,
    };
    let no_operation = WireFault {
        kind: WireFaultKind::BadNumber,
        at: 13,
    };
    assert!(rt; fault_of_stop(rt.alloc(), FIRST, SECOND).is_none());
    assert!(rt; fault_of_stop(rt.alloc(), SECOND, FIRST) == Some(order));
    assert!(rt; fault_of_stop(rt.alloc(), FIRST, OWN) == Some(no_operation));
}

/// The bytes of a drain of node 2, incarnation 3, up to its value.
const DRAIN: &[u8] = b"\x04\x01\x00\x00\x00\x00\x00\x00\x00\x02\x00\x00\x00\x00\x00\x00\x00\x09\x07\
    \x02\x00\x00\x00\x00\x00\x00\x00\x03";

/// The bytes of a drain in version 1, up to the act.
const DRAIN_ONE: &[u8] = b"\x04\x01\x00\x00\x00\x02\x00\x00\x00\x00\x00\x00\x00\x09\x07";

/// The fault of a drain that ends with these bytes.
fn fault_of_drain(alloc: Global, rest: &[u8]) -> Option<WireFault> {
    let config = config(alloc, EXAMPLE)?;
    let bytes = packet_bytes(alloc, &[DRAIN, rest]).ok()?;
    fault_of(alloc, &config, &bytes)
}

/// The fault of a drain in version 1.
fn fault_in_version_one(alloc: Global) -> Option<WireFault> {
    let config = config(alloc, EXAMPLE)?;
    let bytes = bytes_after(alloc, FRONT_ONE, &[DRAIN_ONE]).ok()?;
    fault_of(alloc, &config, &bytes)
}

#[test]
fn faults_of_a_drain(rt: HostRuntime) {
    let value = WireFault {
        kind: WireFaultKind::BadNumber,
        at: 40,
    };
    let act = WireFault {
        kind: WireFaultKind::BadNumber,
        at: 26,
    };
    assert!(rt; fault_of_drain(rt.alloc(), &[1, 0, 0]).is_none());
    assert!(rt; fault_of_drain(rt.alloc(), &[2, 0, 0]) == Some(value));
    assert!(rt; fault_in_version_one(rt.alloc()) == Some(act));
}
