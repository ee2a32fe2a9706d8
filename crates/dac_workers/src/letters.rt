//! Messages as letters.

ghost use Rattle.std.specs.Prelude.{◌≡◌, true, Ok, IfOk, IfErr};
ghost use Rattle.dac_wire.specs.declared.packet.Packet.TheVariants.{Msg};
ghost use Rattle.dac_wire.specs.Decoding.{packet_at};
ghost use Rattle.dac_workers.specs.Letters.{IsLetterOf};
ghost use Rattle.dac_workers.specs.RunFaults.{IsLinkFault};

use crate::faults::RunFault;
use dac_base::NodeId;
use dac_config::Config;
use dac_links::Letter;
use dac_messages::Message;
use dac_wire::{Packet, WireFault, WireFaultKind, decode, encode};
use std::alloc::Global;

/// A link, as seen by the thread at one of its ends.
#[derive(Clone, Copy, Debug, PartialEq, Eq)]
pub(crate) struct Ends {
    /// The node that ships.
    pub(crate) from: NodeId,
    /// The node that hears.
    pub(crate) to: NodeId,
    /// The node of that thread: `from` or `to`.
    pub(crate) own: NodeId,
}

impl Ends {
    /// The fault of a lost link.
    pub(crate) fn loss(self) -> RunFault
        ensures { IsLinkFault self.from self.to self.own result }
    {
        RunFault::LinkLost {
            from: self.from,
            to: self.to,
        }
    }

    /// The run's fault for a fault of encoding or decoding.
    fn fault_of(self, fault: WireFault) -> RunFault
        ensures { IsLinkFault self.from self.to self.own result }
    {
        match fault.kind {
            WireFaultKind::NoMemory => RunFault::NoMemory,
            _ => self.loss(),
        }
    }
}

fn is_same(packet: &Packet, other: &Packet) -> bool
    ensures { result ≡ true → packet.now ≡ other.now }
{
    match (packet, other) {
        (Packet::Msg(message), Packet::Msg(other_message)) => message.equal(other_message),
        _ => false,
    }
}

/// Encodes a message as a letter, and checks that the bytes decode to it.
pub(crate) fn letter_of(
    alloc: Global,
    config: &Config,
    ends: Ends,
    message: Message,
) -> Result<Letter, RunFault>
    ensures ok { IfOk result (IsLetterOf config.now message) }
    ensures err { IfErr result (IsLinkFault ends.from ends.to ends.own) }
{
    let packet = Packet::Msg(message);
    let bytes = match encode(alloc, config, &packet) {
        Ok(bytes) => bytes,
        Err(fault) => return Err(ends.fault_of(fault)),
    };
    let read = match decode(alloc, config, &bytes) {
        Ok(read) => read,
        Err(fault) => return Err(ends.fault_of(fault)),
    };
    if !is_same(&read, &packet) {
        return Err(ends.loss());
    }
    Ok(Letter::of(bytes))
}

/// Decodes the bytes of a letter to a message.
pub(crate) fn message_in(
    alloc: Global,
    config: &Config,
    ends: Ends,
    bytes: &[u8],
) -> Result<Message, RunFault>
    ensures ok { IfOk result (λ message. packet_at config.now bytes.now ≡ Ok (Msg message)) }
    ensures err { IfErr result (IsLinkFault ends.from ends.to ends.own) }
{
    match decode(alloc, config, bytes) {
        Ok(Packet::Msg(message)) => Ok(message),
        Ok(Packet::Single(_)) => Err(ends.loss()),
        Err(fault) => Err(ends.fault_of(fault)),
    }
}
