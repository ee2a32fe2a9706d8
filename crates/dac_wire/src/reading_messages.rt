//! Reads messages, and packets after their preamble.
ghost use Rattle.std.specs.Prelude.{◌≡◌};
ghost use Rattle.dac_bytes.specs.Reading.{Gives, IsOfBytes};
ghost use Rattle.dac_wire.specs.Reading.{ack_at, only_and_counts_at, content_at, counts_at, fields_at, got_at, acked_if_at, head_and_state_at, head_at, is_only_of, kind_and_content_at, message_of, only_at, only_code_at, packet_kind_at, sender_and_receiver_at};

use crate::codes::{PacketKind, only_of_code, packet_of_code};
use crate::head::Head;
use crate::packet::Packet;
use crate::reading_operations::read_operation;
use dac_base::{MAX_COUNTER, NodeId};
use dac_bytes::{ByteReader, ReadFault, ReadFaultKind, Version};
use dac_config::Config;
use dac_messages::{Body, Message};
use dac_origins::Origin;
use dac_state::State;
use std::alloc::Global;

/// The sender, and the node that the message is for.
#[tactic(auto, unfolding(crate::specs::Reading::sender_and_receiver_at))]
fn read_route<'a>(
    reader: ByteReader<'a>,
    version: Version,
    nodes: u8,
) -> Result<((Origin, NodeId), ByteReader<'a>), ReadFault>
    ensures exact { result ≡ sender_and_receiver_at version nodes reader.entry }
    ensures real { IsOfBytes result }
{
    let (from, rest) = reader.read_origin(version, nodes)?;
    let (to, rest) = rest.read_node(nodes)?;
    Ok(((from, to), rest))
}

/// Whether the code is consistent: 0 exactly for a message with a whole state.
fn is_only_of(whole: bool, code: u64) -> bool
    ensures { result ≡ is_only_of whole code }
{
    if whole { code == 0 } else { 0 < code }
}

/// The code of the incarnation that the message is for.
#[tactic(auto, unfolding(crate::specs::Reading::only_code_at))]
fn read_only_code<'a>(
    reader: ByteReader<'a>,
    version: Version,
    whole: bool,
) -> Result<(u64, ByteReader<'a>), ReadFault>
    ensures exact { result ≡ only_code_at version whole reader.entry }
    ensures real { IsOfBytes result }
{
    let at = reader.at();
    let (code, rest) = reader.read_incarnation_or_zero(version)?;
    if is_only_of(whole, code) {
        Ok((code, rest))
    } else {
        Err(ReadFault::new(ReadFaultKind::BadNumber, at))
    }
}

/// The only incarnation that the message is for, if any.
#[tactic(auto, unfolding(crate::specs::Reading::only_at))]
fn read_only<'a>(
    reader: ByteReader<'a>,
    version: Version,
    whole: bool,
) -> Result<(Option<u64>, ByteReader<'a>), ReadFault>
    ensures exact { result ≡ only_at version whole reader.entry }
    ensures real { IsOfBytes result }
{
    let (code, rest) = read_only_code(reader, version, whole)?;
    Ok((only_of_code(code), rest))
}

/// An incarnation and its delta count.
#[tactic(auto, unfolding(crate::specs::Reading::got_at))]
fn read_got<'a>(
    reader: ByteReader<'a>,
    version: Version,
    nodes: u8,
) -> Result<((Origin, u64), ByteReader<'a>), ReadFault>
    ensures exact { result ≡ got_at version nodes reader.entry }
    ensures real { IsOfBytes result }
{
    let (origin, rest) = reader.read_origin(version, nodes)?;
    let (count, rest) = rest.read_u64_in(0, MAX_COUNTER)?;
    Ok(((origin, count), rest))
}

/// The acknowledgement, if the code announces one.
#[tactic(auto, unfolding(crate::specs::Reading::acked_if_at))]
fn read_got_if<'a>(
    reader: ByteReader<'a>,
    version: Version,
    nodes: u8,
    code: u8,
) -> Result<(Option<(Origin, u64)>, ByteReader<'a>), ReadFault>
    ensures exact { result ≡ acked_if_at version nodes code reader.entry }
    ensures real { IsOfBytes result }
{
    match code {
        0 => Ok((None, reader)),
        _ => {
            let (got, rest) = read_got(reader, version, nodes)?;
            Ok((Some(got), rest))
        }
    }
}

/// The acknowledgement of the receiver's deltas, if any.
#[tactic(auto, unfolding(crate::specs::Reading::ack_at))]
fn read_ack<'a>(
    reader: ByteReader<'a>,
    version: Version,
    nodes: u8,
) -> Result<(Option<(Origin, u64)>, ByteReader<'a>), ReadFault>
    ensures exact { result ≡ ack_at version nodes reader.entry }
    ensures real { IsOfBytes result }
{
    let (code, rest) = reader.read_u8_in(0, 1)?;
    let read = read_got_if(rest, version, nodes, code)?;
    Ok(read)
}

/// The sender's delta count, and its acknowledgement.
type Counts = (u64, Option<(Origin, u64)>);

#[tactic(auto, unfolding(crate::specs::Reading::counts_at))]
fn read_counts<'a>(
    reader: ByteReader<'a>,
    version: Version,
    nodes: u8,
) -> Result<(Counts, ByteReader<'a>), ReadFault>
    ensures exact { result ≡ counts_at version nodes reader.entry }
    ensures real { IsOfBytes result }
{
    let (up_to, rest) = reader.read_u64_in(0, MAX_COUNTER)?;
    let (ack, rest) = read_ack(rest, version, nodes)?;
    Ok(((up_to, ack), rest))
}

/// The incarnation that the message is for, and the counts.
#[tactic(auto, unfolding(crate::specs::Reading::only_and_counts_at))]
fn read_bound<'a>(
    reader: ByteReader<'a>,
    version: Version,
    nodes: u8,
    whole: bool,
) -> Result<((Option<u64>, Counts), ByteReader<'a>), ReadFault>
    ensures exact { result ≡ only_and_counts_at version nodes whole reader.entry }
    ensures real { IsOfBytes result }
{
    let (only, rest) = read_only(reader, version, whole)?;
    let (counts, rest) = read_counts(rest, version, nodes)?;
    Ok(((only, counts), rest))
}

#[tactic(auto, unfolding(crate::specs::Reading::head_at))]
fn read_head<'a>(
    reader: ByteReader<'a>,
    version: Version,
    nodes: u8,
    whole: bool,
) -> Result<(Head, ByteReader<'a>), ReadFault>
    ensures exact { result ≡ head_at version nodes whole reader.entry }
    ensures real { IsOfBytes result }
{
    let ((from, to), rest) = read_route(reader, version, nodes)?;
    let ((only, (up_to, ack)), rest) = read_bound(rest, version, nodes, whole)?;
    let head = Head {
        from,
        to,
        only,
        up_to,
        ack,
    };
    Ok((head, rest))
}

/// A message from its head and its body.
fn message_of(head: Head, body: Body) -> Message
    ensures { result ≡ message_of head body }
{
    Message {
        from: head.from,
        to: head.to,
        only: head.only,
        up_to: head.up_to,
        body,
        ack: head.ack,
    }
}

/// The head of a message, and its state.
#[tactic(auto, unfolding(crate::specs::Reading::head_and_state_at))]
fn read_head_and_state<'a>(
    reader: ByteReader<'a>,
    alloc: Global,
    version: Version,
    config: &Config,
    whole: bool,
) -> Result<((Head, State), ByteReader<'a>), ReadFault>
    ensures { Gives (λ x. x) result (head_and_state_at version config.now whole reader.entry) }
{
    let (head, rest) = read_head(reader, version, config.nodes(), whole)?;
    let (state, rest) = State::read(rest, alloc, version, config)?;
    Ok(((head, state), rest))
}

#[tactic(auto, unfolding(crate::specs::Reading::packet_kind_at))]
fn read_packet_kind<'a>(reader: ByteReader<'a>) -> Result<(PacketKind, ByteReader<'a>), ReadFault>
    ensures exact { result ≡ packet_kind_at reader.entry }
    ensures real { IsOfBytes result }
{
    let (code, rest) = reader.read_u8_in(1, 4)?;
    Ok((packet_of_code(code), rest))
}

/// The fields of a packet of this kind.
#[tactic(auto, unfolding(crate::specs::Reading::content_at))]
fn read_content<'a>(
    reader: ByteReader<'a>,
    alloc: Global,
    version: Version,
    config: &Config,
    kind: PacketKind,
) -> Result<(Packet, ByteReader<'a>), ReadFault>
    ensures { Gives (λ x. x) result (content_at version config.now kind reader.entry) }
{
    match kind {
        PacketKind::Whole => {
            let ((head, state), rest) = read_head_and_state(reader, alloc, version, config, true)?;
            Ok((Packet::Msg(message_of(head, Body::Whole(state))), rest))
        }
        PacketKind::Interval => {
            let ((head, state), rest) = read_head_and_state(reader, alloc, version, config, false)?;
            Ok((Packet::Msg(message_of(head, Body::Interval(state))), rest))
        }
        PacketKind::Nothing => {
            let (head, rest) = read_head(reader, version, config.nodes(), false)?;
            Ok((Packet::Msg(message_of(head, Body::Nothing)), rest))
        }
        PacketKind::Single => {
            let (op, rest) = read_operation(reader, alloc, version, config)?;
            Ok((Packet::Single(op), rest))
        }
    }
}

/// The kind and fields after the preamble.
#[tactic(auto, unfolding(crate::specs::Reading::kind_and_content_at))]
fn read_kind_and_content<'a>(
    reader: ByteReader<'a>,
    alloc: Global,
    version: Version,
    config: &Config,
) -> Result<(Packet, ByteReader<'a>), ReadFault>
    ensures { Gives (λ x. x) result (kind_and_content_at version config.now reader.entry) }
{
    let (kind, rest) = read_packet_kind(reader)?;
    let read = read_content(rest, alloc, version, config, kind)?;
    Ok(read)
}

/// The kind and fields after the preamble, without further bytes.
#[tactic(auto, unfolding(crate::specs::Reading::fields_at))]
pub(crate) fn read_fields<'a>(
    reader: ByteReader<'a>,
    alloc: Global,
    version: Version,
    config: &Config,
) -> Result<Packet, ReadFault>
    ensures { Gives (λ p. p) result (fields_at version config.now reader.entry) }
{
    let (packet, rest) = read_kind_and_content(reader, alloc, version, config)?;
    if rest.is_at_end() {
        Ok(packet)
    } else {
        Err(ReadFault::new(ReadFaultKind::Trailing, rest.at()))
    }
}
