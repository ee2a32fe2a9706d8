//! Encodes and decodes packets.
ghost use Rattle.std.specs.Prelude.{◌≡◌, ◌≤◌, ◌<◌, IfErr, IfOk, Ok, length};
ghost use Rattle.dac_wire.specs.Decoding.{preamble_fault, packet_at, packet_in, version_in};
ghost use Rattle.dac_bytes.specs.Reading.{after, whole};
ghost use Rattle.dac_wire.specs.Encoding.{IsEncodeFault};
ghost use Rattle.dac_wire.specs.Faults.{Gives, in_packet};
ghost use Rattle.dac_wire.specs.Reading.{fields_at};
ghost use Rattle.dac_wire.specs.Form.{IsPacket};
ghost use Rattle.dac_wire.specs.Spelling.{name_bytes, packet_bytes, preamble_bytes, spelling_of, version_byte};
ghost use Rattle.dac_bytes.specs.declared.version.Version.{Version};
ghost use Rattle.dac_wire.specs.declared.packet.Packet.{Packet};

use crate::codes::{kind_of_packet, packet_code};
use crate::fault::{WireFault, WireFaultKind};
use crate::packet::{MAX_MESSAGE, Packet};
use crate::reading_messages::read_fields;
use crate::writing::write_content;
use dac_base::NoMemory;
use dac_bytes::{ByteReader, ByteWriter, Version};
use dac_config::Config;
use dac_part_bytes::laws::parts_have_one_spelling;
use dac_state::laws::states_have_one_spelling;
use std::alloc::Global;

const MAGIC: [u8; 3] = *b"DAC";

/// The number of bytes before a packet's kind: the format's name, its version and the mark.
const PREAMBLE: usize = 12;

fn version_byte(version: Version) -> u8
    ensures { result ≡ version_byte version }
{
    match version {
        Version::One => 1,
        Version::Two => 2,
    }
}

/// The format's name, followed by the version.
fn name(version: Version) -> [u8; 4]
    ensures { result ≡ name_bytes version }
{
    let [d, a, c] = MAGIC;
    [d, a, c, version_byte(version)]
}

/// The format's name, its version, and the mark of the configuration.
#[tactic(auto, unfolding(crate::specs::Spelling::preamble_bytes, dac_bytes::specs::Numbers::u64_bytes))]
fn preamble(version: Version, config: &Config) -> [u8; PREAMBLE]
    ensures { result ≡ preamble_bytes version config.now }
{
    let fourth = version_byte(version);
    let mark = config.mark().to_be_bytes();
    let [d, a, c] = MAGIC;
    [
        d, a, c, fourth, mark[0], mark[1], mark[2], mark[3], mark[4], mark[5], mark[6], mark[7],
    ]
}

/// The fault in the front of bytes of a version, if any.
fn preamble_fault(version: Version, config: &Config, bytes: &[u8]) -> Option<WireFault>
    ensures { result ≡ preamble_fault version config.now bytes.now }
{
    if bytes.len() > MAX_MESSAGE {
        return Some(WireFault::new(WireFaultKind::TooLong, MAX_MESSAGE));
    }
    if !bytes.starts_with(&MAGIC) {
        return Some(WireFault::new(WireFaultKind::BadMagic, 0));
    }
    if !bytes.starts_with(&name(version)) {
        return Some(WireFault::new(WireFaultKind::BadVersion, 3));
    }
    if bytes.len() < PREAMBLE {
        return Some(WireFault::new(WireFaultKind::Short, 4));
    }
    if !bytes.starts_with(&preamble(version, config)) {
        return Some(WireFault::new(WireFaultKind::OtherConfig, 4));
    }
    None
}

/// The packet of bytes of a version with a correct front.
fn decode_fields(
    alloc: Global,
    version: Version,
    config: &Config,
    bytes: &[u8],
) -> Result<Packet, WireFault>
    requires { PREAMBLE ≤ length bytes.now }
    ensures { Gives result
        (in_packet (fields_at version config.now (after PREAMBLE (whole bytes.now)))) }
{
    match read_fields(ByteReader::after(bytes, PREAMBLE), alloc, version, config) {
        Ok(packet) => Ok(packet),
        Err(fault) => Err(WireFault::of_field(fault)),
    }
}

/// The packet that bytes of a version spell under a configuration.
fn decode_in(
    alloc: Global,
    version: Version,
    config: &Config,
    bytes: &[u8],
) -> Result<Packet, WireFault>
    ensures found { IfOk result (λ p. IsPacket version config.now p
        × (bytes.now ≡ packet_bytes version config.now p) × (length bytes.now ≤ MAX_MESSAGE)) }
    ensures only { (p : Packet) → IsPacket version config.now p
        → bytes.now ≡ packet_bytes version config.now p → length bytes.now ≤ MAX_MESSAGE
        → Gives result (Ok p) }
    ensures exact { Gives result (packet_in version config.now bytes.now) }
{
    parts_have_one_spelling(config);
    states_have_one_spelling(config);
    match preamble_fault(version, config, bytes) {
        Some(fault) => Err(fault),
        None => decode_fields(alloc, version, config, bytes),
    }
}

/// The version by which bytes are read: one if they name it, otherwise two.
#[tactic(auto, unfolding(crate::specs::Decoding::version_in))]
fn version_in(bytes: &[u8]) -> Version
    ensures { result ≡ version_in bytes.now }
{
    if bytes.starts_with(&name(Version::One)) {
        Version::One
    } else {
        Version::Two
    }
}

/// The packet that the bytes spell under a configuration, in version 1 or 2. Version 1 has incarnations in four bytes,
/// and no drains.
///
/// # Errors
///
/// More than 4,194,304 bytes are `TooLong` at 4,194,304. Bytes that don't begin with `DAC` are `BadMagic` at 0, and a
/// version other than 1 and 2 is `BadVersion` at 3. An incomplete mark is `Short` at 4, and that of another
/// configuration `OtherConfig` at 4. Then fields are checked as they are read: the reading function `packet_at`
/// determines the fault, with its offset from 0. `NoMemory` has offset 0 and carries no information about the bytes.
pub fn decode(alloc: Global, config: &Config, bytes: &[u8]) -> Result<Packet, WireFault>
    // The returned packet is well-formed for some version, with these bytes as its spelling.
    ensures found { IfOk result (λ p. (version : Version) × IsPacket version config.now p
        × (bytes.now ≡ packet_bytes version config.now p) × (length bytes.now ≤ MAX_MESSAGE)) }
    // A well-formed packet is read from its spelling, unless memory runs out.
    ensures only { (version : Version) (p : Packet) → IsPacket version config.now p
        → bytes.now ≡ packet_bytes version config.now p → length bytes.now ≤ MAX_MESSAGE
        → Gives result (Ok p) }
    // The definition determines the fault, unless memory runs out.
    ensures exact { Gives result (packet_at config.now bytes.now) }
{
    let version = version_in(bytes);
    decode_in(alloc, version, config, bytes)
}

/// All bytes of a packet in version two.
#[tactic(auto, unfolding(crate::specs::Spelling::packet_bytes))]
fn spell(alloc: Global, config: &Config, packet: &Packet) -> Result<Vec<u8>, NoMemory>
    ensures { IfOk result (λ bytes. bytes.items ≡ spelling_of config.now packet.now) }
{
    let head = ByteWriter::new(alloc)
        .write_bytes(&preamble(Version::Two, config))?
        .write_u8(packet_code(kind_of_packet(packet)))?;
    let written = write_content(head, packet)?;
    Ok(written.into_bytes())
}

/// The bytes of a packet under a configuration, in version 2. Equal packets have equal bytes. A count that doesn't fit
/// its field is truncated to its low bits.
///
/// # Errors
///
/// `TooLong` at 4,194,304 if there are more bytes, and `NoMemory` at 0. All bytes are written before they are counted,
/// so that a packet that is too long can fail with either.
pub fn encode(alloc: Global, config: &Config, packet: &Packet) -> Result<Vec<u8>, WireFault>
    ensures ok { IfOk result (λ bytes. (bytes.items ≡ spelling_of config.now packet.now)
        × (length bytes.items ≤ MAX_MESSAGE)) }
    ensures err { IfErr result
        (λ fault. IsEncodeFault (length (spelling_of config.now packet.now)) fault) }
{
    let Ok(bytes) = spell(alloc, config, packet) else {
        return Err(WireFault::new(WireFaultKind::NoMemory, 0));
    };
    if bytes.len() > MAX_MESSAGE {
        return Err(WireFault::new(WireFaultKind::TooLong, MAX_MESSAGE));
    }
    Ok(bytes)
}
