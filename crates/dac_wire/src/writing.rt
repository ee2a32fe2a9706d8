//! Writes packets: each function appends to a writer.
ghost use Rattle.std.specs.Prelude.{◌≡◌, ◌++◌, IfOk};
ghost use Rattle.dac_bytes.specs.declared.version.Version.TheVariants.{Two};
ghost use Rattle.dac_wire.specs.Spelling.{ack_bytes, act_bytes, act_fields_bytes, body_bytes, content_bytes, message_bytes, operation_bytes, over_bytes};

use crate::codes::{act_code, kind_of_act, only_code, value_code};
use crate::packet::Packet;
use dac_base::NoMemory;
use dac_bytes::{ByteWriter, Version};
use dac_messages::{Body, Message};
use dac_operations::{Act, Op};
use dac_origins::{Dot, Origin};
use dac_part_bytes::{write_key, write_manner};

/// The acknowledgement of the receiver's deltas, if any.
#[tactic(auto, unfolding(crate::specs::Spelling::ack_bytes))]
fn write_ack(writer: ByteWriter, ack: Option<(Origin, u64)>) -> Result<ByteWriter, NoMemory>
    ensures { IfOk result (λ written. written ≡ writer ++ ack_bytes Two ack) }
{
    match ack {
        None => {
            let written = writer.write_u8(0)?;
            Ok(written)
        }
        Some((origin, count)) => {
            let written = writer
                .write_u8(1)?
                .write_origin(Version::Two, origin)?
                .write_u64(count)?;
            Ok(written)
        }
    }
}

/// The state of a message, if any.
#[tactic(auto, unfolding(crate::specs::Spelling::body_bytes))]
fn write_body(writer: ByteWriter, body: &Body) -> Result<ByteWriter, NoMemory>
    ensures { IfOk result (λ written. written ≡ writer ++ body_bytes Two body.now) }
{
    match body {
        Body::Whole(state) | Body::Interval(state) => {
            let written = state.write(writer, Version::Two)?;
            Ok(written)
        }
        Body::Nothing => Ok(writer),
    }
}

#[tactic(auto, unfolding(crate::specs::Spelling::message_bytes))]
fn write_message(writer: ByteWriter, message: &Message) -> Result<ByteWriter, NoMemory>
    ensures { IfOk result (λ written. written ≡ writer ++ message_bytes Two message.now) }
{
    let head = writer
        .write_origin(Version::Two, message.from)?
        .write_u8(message.to.0)?
        .write_incarnation(Version::Two, only_code(message.only))?
        .write_u64(message.up_to)?;
    let acked = write_ack(head, message.ack)?;
    let written = write_body(acked, &message.body)?;
    Ok(written)
}

/// The number of dots, and these.
#[tactic(auto, unfolding(crate::specs::Spelling::over_bytes))]
fn write_over(writer: ByteWriter, over: &[Dot]) -> Result<ByteWriter, NoMemory>
    ensures { IfOk result (λ written. written ≡ writer ++ over_bytes Two over.now) }
{
    let mut written = writer.write_count_u16(over.len())?;
    for dot in over {
        written = written.write_dot(Version::Two, *dot)?;
    }
    Ok(written)
}

#[tactic(auto, unfolding(crate::specs::Spelling::act_fields_bytes))]
fn write_act_fields(writer: ByteWriter, act: &Act) -> Result<ByteWriter, NoMemory>
    ensures { IfOk result (λ written. written ≡ writer ++ act_fields_bytes Two act.now) }
{
    match act {
        Act::Up => Ok(writer),
        Act::Down { node, inc } => {
            let written = writer
                .write_u8(node.0)?
                .write_incarnation(Version::Two, *inc)?;
            Ok(written)
        }
        Act::Permit { key, value, over } => {
            let head = write_key(writer, Version::Two, *key)?.write_u8(value_code(*value))?;
            let written = write_over(head, over.as_slice())?;
            Ok(written)
        }
        Act::Start { key, over } | Act::Stop { key, over } => {
            let written = write_over(write_key(writer, Version::Two, *key)?, over.as_slice())?;
            Ok(written)
        }
        Act::Drain {
            node,
            inc,
            value,
            over,
        } => {
            let at = Origin {
                node: *node,
                inc: *inc,
            };
            let head = writer
                .write_origin(Version::Two, at)?
                .write_u8(value_code(*value))?;
            let written = write_over(head, over.as_slice())?;
            Ok(written)
        }
        Act::Claim {
            app,
            term,
            how,
            from,
        } => {
            let head = writer.write_u16(app.0)?.write_u64(*term)?;
            let written = write_manner(head, *how, *from)?;
            Ok(written)
        }
    }
}

#[tactic(auto, unfolding(crate::specs::Spelling::operation_bytes, crate::specs::Spelling::act_bytes))]
fn write_operation(writer: ByteWriter, op: &Op) -> Result<ByteWriter, NoMemory>
    ensures { IfOk result (λ written. written ≡ writer ++ operation_bytes Two op.now) }
{
    let head = writer
        .write_dot(Version::Two, op.dot())?
        .write_u8(act_code(kind_of_act(op.act())))?;
    let written = write_act_fields(head, op.act())?;
    Ok(written)
}

/// The fields of a packet after its kind.
#[tactic(auto, unfolding(crate::specs::Spelling::content_bytes))]
pub(crate) fn write_content(writer: ByteWriter, packet: &Packet) -> Result<ByteWriter, NoMemory>
    ensures { IfOk result (λ written. written ≡ writer ++ content_bytes Two packet.now) }
{
    match packet {
        Packet::Msg(message) => {
            let written = write_message(writer, message)?;
            Ok(written)
        }
        Packet::Single(op) => {
            let written = write_operation(writer, op)?;
            Ok(written)
        }
    }
}
