//! Bytes of states and packets.
use crate::sample::{OTHER, config, message};
use crate::states::{all_of, of_state};
use crate::trial::{Fixture, Said, of_bytes};
use dac_base::NoMemory;
use dac_bytes::{ByteWriter, Version};
use dac_config::Config;
use dac_lattice::Lattice;
use dac_messages::Body;
use dac_state::{State, StateFault, StateFaultKind};
use dac_wire::{Packet, WireFault, WireFaultKind, decode, encode};
use std::alloc::Global;

/// A call of a state or its bytes.
#[derive(Clone, Copy, Debug, PartialEq, Eq)]
pub enum OfStateBytes {
    Encode,
    Write,
    Decode,
    DecodeOne,
}

/// A state with its bytes in both versions.
#[derive(Drop)]
pub struct StateBytesFixture {
    alloc: Global,
    asked: OfStateBytes,
    config: Config,
    state: State,
    bytes: Vec<u8>,
    older: Vec<u8>,
}

/// The bytes of a state in version 1.
fn in_version_one(alloc: Global, state: &State) -> Result<Vec<u8>, NoMemory> {
    let writer = state.write(ByteWriter::new(alloc), Version::One)?;
    Ok(writer.into_bytes())
}

/// The fixture of a state's bytes.
pub fn state_bytes(alloc: Global, asked: OfStateBytes) -> Option<StateBytesFixture> {
    let config = config(alloc)?;
    let state = all_of(alloc, OTHER)?;
    Some(StateBytesFixture {
        alloc,
        asked,
        bytes: state.encode().ok()?,
        older: in_version_one(alloc, &state).ok()?,
        state,
        config,
    })
}

/// The outcome of decoding a state.
fn of_read(answer: Result<State, StateFault>) -> Said {
    match answer {
        Err(fault) if fault.kind != StateFaultKind::NoMemory => Said::Other,
        other => of_state(other),
    }
}

impl Fixture for StateBytesFixture {
    fn call(&mut self) -> Said {
        let alloc = self.alloc;
        match self.asked {
            OfStateBytes::Encode => of_bytes(self.state.encode()),
            OfStateBytes::Write => of_bytes(in_version_one(alloc, &self.state)),
            OfStateBytes::Decode => of_read(State::decode(alloc, &self.config, &self.bytes)),
            OfStateBytes::DecodeOne => of_read(State::decode_1(alloc, &self.config, &self.older)),
        }
    }

    fn is_as_before(&self) -> bool {
        true
    }
}

/// A call of a packet or its bytes.
#[derive(Clone, Copy, Debug, PartialEq, Eq)]
pub enum OfPacket {
    Encode,
    Decode,
}

/// A packet with its bytes.
#[derive(Drop)]
pub struct PacketFixture {
    alloc: Global,
    asked: OfPacket,
    config: Config,
    packet: Packet,
    bytes: Vec<u8>,
}

/// The fixture of a packet's bytes.
pub fn packets(alloc: Global, asked: OfPacket) -> Option<PacketFixture> {
    let config = config(alloc)?;
    let state = all_of(alloc, OTHER)?;
    let packet = Packet::Msg(message(Body::Whole(state), 1));
    Some(PacketFixture {
        alloc,
        asked,
        bytes: encode(alloc, &config, &packet).ok()?,
        packet,
        config,
    })
}

/// The outcome of encoding a packet.
fn of_packet_bytes(answer: Result<Vec<u8>, WireFault>) -> Said {
    match answer {
        Err(fault) if fault.kind != WireFaultKind::NoMemory => Said::Other,
        other => of_bytes(other),
    }
}

/// The outcome of comparing a decoded message.
fn are_same(read: &Packet, wanted: &Packet) -> Said {
    match read {
        Packet::Msg(read) => match wanted {
            Packet::Msg(wanted) => Said::Well(u64::from(read.equal(wanted))),
            Packet::Single(_) => Said::Other,
        },
        Packet::Single(_) => Said::Other,
    }
}

/// The outcome of decoding a packet.
fn of_packet(answer: Result<Packet, WireFault>, packet: &Packet) -> Said {
    match answer {
        Ok(read) => are_same(&read, packet),
        Err(fault) if fault.kind == WireFaultKind::NoMemory => Said::NoMemory,
        Err(_) => Said::Other,
    }
}

impl Fixture for PacketFixture {
    fn call(&mut self) -> Said {
        let alloc = self.alloc;
        match self.asked {
            OfPacket::Encode => of_packet_bytes(encode(alloc, &self.config, &self.packet)),
            OfPacket::Decode => {
                let answer = decode(alloc, &self.config, &self.bytes);
                of_packet(answer, &self.packet)
            }
        }
    }

    fn is_as_before(&self) -> bool {
        true
    }
}
