//! The lines for messages as bytes, and for bytes parsed as messages.

ghost use Rattle.std.specs.Prelude.{◌≡◌, ◌≢◌, IfOk, OnOk};
ghost use Rattle.std.specs.Option.{option_copied};
ghost use Rattle.dac_core.specs.ModelWorld.{counted};
ghost use Rattle.dac_wire.specs.Decoding.{packet_at};
ghost use Rattle.dac_wire.specs.Spelling.{spelling_of};
ghost use Rattle.dac_play.specs.Wires.{wire_ok_text, wire_fault_text, spelled_text, message_text, fed_text};

use crate::texts::{hex_line, no_message_line};
use dac_base::NoMemory;
use dac_config::Config;
use dac_messages::Message;
use dac_wire::{Packet, WireFault, WireFaultKind, decode, encode};
use std::alloc::Global;

/// The line for bytes that encode a message or an operation.
pub fn wire_ok_line() -> &'static str
    ensures { result.now ≡ wire_ok_text }
{
    "wire ok\n"
}

/// The line for a fault of bytes: its number, name and place. `NoMemory` has no line, because it ends the run.
pub fn wire_fault_line(alloc: Global, fault: WireFault) -> Result<Vec<u8>, NoMemory>
    ensures text { IfOk result (λ line. line.items ≡ wire_fault_text fault) }
    ensures enough { OnOk result (fault.kind ≢ WireFaultKind.NoMemory) }
{
    match fault.kind {
        WireFaultKind::NoMemory => Err(NoMemory),
        kind => {
            let number = kind.number();
            let name = kind.name();
            let at = fault.at;
            let line = format!(in alloc; "wire fault {number} {name} at {at}\n")?;
            Ok(line.into_bytes())
        }
    }
}

/// The message with this number, from 1.
fn message_of(messages: &[Message], number: u64) -> Option<&Message>
    ensures { option_copied result ≡ counted messages.now number }
{
    if number == 0 {
        return None;
    }
    messages.get(number as usize - 1)
}

/// The line for a packet: its bytes, or that they are too many.
fn spelled_line(alloc: Global, config: &Config, packet: &Packet) -> Result<Vec<u8>, NoMemory>
    ensures { IfOk result (λ line. line.items ≡ spelled_text (spelling_of config.now packet.now)) }
{
    match encode(alloc, config, packet) {
        Ok(bytes) => {
            let line = hex_line(alloc, &bytes)?;
            Ok(line)
        }
        Err(fault) => {
            let line = wire_fault_line(alloc, fault)?;
            Ok(line)
        }
    }
}

/// The line for a message: its bytes, that they are too many, or that no such message was shipped.
pub fn message_line(
    alloc: Global,
    config: &Config,
    messages: &[Message],
    number: u64,
) -> Result<Vec<u8>, NoMemory>
    ensures { IfOk result
        (λ line. line.items ≡ message_text config.now number (counted messages.now number)) }
{
    match message_of(messages, number) {
        Some(message) => {
            let packet = Packet::Msg(message.copy()?);
            spelled_line(alloc, config, &packet)
        }
        None => no_message_line(alloc, number),
    }
}

/// The line for bytes: that they encode a message or an operation, or their first fault. No node receives them.
pub fn fed_line(alloc: Global, config: &Config, bytes: &[u8]) -> Result<Vec<u8>, NoMemory>
    ensures { IfOk result (λ line. line.items ≡ fed_text (packet_at config.now bytes.now)) }
{
    match decode(alloc, config, bytes) {
        Ok(_packet) => {
            let line = Vec::from_slice(alloc, wire_ok_line().as_bytes())?;
            Ok(line)
        }
        Err(fault) => {
            let line = wire_fault_line(alloc, fault)?;
            Ok(line)
        }
    }
}
