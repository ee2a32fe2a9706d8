//! The codes of packets and acts.
ghost use Rattle.std.specs.Prelude.{◌≡◌};
ghost use Rattle.dac_wire.specs.Codes.{act_code, act_of_code, highest_act, kind_of_act, kind_of_packet, only_code, only_of_code, packet_code, packet_of_code, value_code, value_of_code};

use crate::packet::Packet;
use dac_bytes::Version;
use dac_messages::Body;
use dac_operations::Act;

/// The kind of a packet: a message by its body, or a single operation.
#[derive(Clone, Copy)]
pub(crate) enum PacketKind {
    Whole,
    Interval,
    Nothing,
    Single,
}

/// The kind of an act.
#[derive(Clone, Copy)]
pub(crate) enum ActKind {
    Up,
    Down,
    Permit,
    Start,
    Stop,
    Claim,
    Drain,
}

/// The packet kind of a code. The reader rejects codes other than 1 to 4 first; their arms exist only because a match
/// must be total.
pub(crate) fn packet_of_code(code: u8) -> PacketKind
    ensures { result ≡ packet_of_code code }
{
    match code {
        0 => PacketKind::Whole,
        1 => PacketKind::Whole,
        2 => PacketKind::Interval,
        3 => PacketKind::Nothing,
        _ => PacketKind::Single,
    }
}

/// The code of a packet's kind, 1 to 4.
pub(crate) fn packet_code(kind: PacketKind) -> u8
    ensures { result ≡ packet_code kind }
{
    match kind {
        PacketKind::Whole => 1,
        PacketKind::Interval => 2,
        PacketKind::Nothing => 3,
        PacketKind::Single => 4,
    }
}

/// The kind of a packet.
pub(crate) fn kind_of_packet(packet: &Packet) -> PacketKind
    ensures { result ≡ kind_of_packet packet.now }
{
    match packet {
        Packet::Msg(message) => match &message.body {
            Body::Whole(_) => PacketKind::Whole,
            Body::Interval(_) => PacketKind::Interval,
            Body::Nothing => PacketKind::Nothing,
        },
        Packet::Single(_) => PacketKind::Single,
    }
}

/// The act kind of a code. The reader rejects codes other than 1 to 7 first; their arms exist only because a match must
/// be total.
pub(crate) fn act_of_code(code: u8) -> ActKind
    ensures { result ≡ act_of_code code }
{
    match code {
        0 => ActKind::Up,
        1 => ActKind::Up,
        2 => ActKind::Down,
        3 => ActKind::Permit,
        4 => ActKind::Start,
        5 => ActKind::Stop,
        6 => ActKind::Claim,
        _ => ActKind::Drain,
    }
}

/// The code of an act's kind, 1 to 7.
pub(crate) fn act_code(kind: ActKind) -> u8
    ensures { result ≡ act_code kind }
{
    match kind {
        ActKind::Up => 1,
        ActKind::Down => 2,
        ActKind::Permit => 3,
        ActKind::Start => 4,
        ActKind::Stop => 5,
        ActKind::Claim => 6,
        ActKind::Drain => 7,
    }
}

/// The greatest code of an act; version one has no drains.
pub(crate) fn highest_act(version: Version) -> u8
    ensures { result ≡ highest_act version }
{
    match version {
        Version::One => 6,
        Version::Two => 7,
    }
}

/// The kind of an act.
pub(crate) fn kind_of_act(act: &Act) -> ActKind
    ensures { result ≡ kind_of_act act.now }
{
    match act {
        Act::Up => ActKind::Up,
        Act::Down { .. } => ActKind::Down,
        Act::Permit { .. } => ActKind::Permit,
        Act::Start { .. } => ActKind::Start,
        Act::Stop { .. } => ActKind::Stop,
        Act::Drain { .. } => ActKind::Drain,
        Act::Claim { .. } => ActKind::Claim,
    }
}

/// The value of a permit or a drain, by its code. The reader rejects codes above 1.
pub(crate) fn value_of_code(code: u8) -> bool
    ensures { result ≡ value_of_code code }
{
    match code {
        0 => false,
        _ => true,
    }
}

/// The code of the value of a permit or a drain.
pub(crate) fn value_code(value: bool) -> u8
    ensures { result ≡ value_code value }
{
    if value { 1 } else { 0 }
}

/// The incarnation that a message is for, by its code.
pub(crate) fn only_of_code(code: u64) -> Option<u64>
    ensures { result ≡ only_of_code code }
{
    match code {
        0 => None,
        _ => Some(code),
    }
}

/// The code of the incarnation that a message is for.
pub(crate) fn only_code(only: Option<u64>) -> u64
    ensures { result ≡ only_code only }
{
    match only {
        None => 0,
        Some(inc) => inc,
    }
}
