//! The writer of bytes: numbers, origins and dots.
ghost use Rattle.std.specs.Prelude.{◌≡◌, [], ◌++◌, IfOk};
ghost use Rattle.dac_bytes.specs.Numbers.{u8_bytes, u16_bytes, u32_bytes, u64_bytes};
ghost use Rattle.dac_bytes.specs.Spelling.{dot_bytes, incarnation_bytes, origin_bytes};
ghost use Rattle.dac_bytes.specs.declared.version.Version.TheVariants.{One, Two};

use crate::version::Version;
use dac_base::NoMemory;
use dac_origins::{Dot, Origin};
use std::alloc::Global;
use std::marker::Model;

/// The bytes written so far. Contracts see their list.
///
/// Each call consumes the writer and returns it with bytes appended. `NoMemory`, the only error of each call, discards
/// the writer with its bytes.
#[derive(Debug, Drop)]
pub struct ByteWriter {
    bytes: Vec<u8>,
}

impl Model for ByteWriter {
    ghost use Rattle.std.specs.Prelude.{ℕ, List};

    ghost Value = { List ℕ };

    ghost view = { λ w. w.bytes.items };
}

impl ByteWriter {
    /// A writer without bytes.
    pub fn new(alloc: Global) -> Self
        ensures { result ≡ [] }
    {
        ByteWriter {
            bytes: Vec::new(alloc),
        }
    }

    /// The allocator of the bytes, for copies of the rows of a context.
    pub(crate) fn allocator(&self) -> Global {
        *self.bytes.allocator()
    }

    /// Returns the bytes written.
    pub fn into_bytes(self) -> Vec<u8>
        ensures { result.items ≡ self }
    {
        let ByteWriter { bytes } = self;
        bytes
    }

    /// Appends these bytes unchanged.
    #[inline(always)]
    pub fn write_bytes(mut self, bytes: &[u8]) -> Result<Self, NoMemory>
        ensures { IfOk result (λ written. written ≡ self ++ bytes.now) }
    {
        self.bytes.extend_from_slice(bytes)?;
        Ok(self)
    }

    /// A number in one byte.
    #[tactic(auto, unfolding(crate::specs::Numbers::u8_bytes))]
    pub fn write_u8(self, n: u8) -> Result<Self, NoMemory>
        ensures { IfOk result (λ written. written ≡ self ++ u8_bytes n) }
    {
        let written = self.write_bytes(&u8::to_be_bytes(n))?;
        Ok(written)
    }

    /// A number in two bytes.
    #[tactic(auto, unfolding(crate::specs::Numbers::u16_bytes))]
    pub fn write_u16(self, n: u16) -> Result<Self, NoMemory>
        ensures { IfOk result (λ written. written ≡ self ++ u16_bytes n) }
    {
        let written = self.write_bytes(&u16::to_be_bytes(n))?;
        Ok(written)
    }

    /// A number in four bytes.
    #[tactic(auto, unfolding(crate::specs::Numbers::u32_bytes))]
    pub fn write_u32(self, n: u32) -> Result<Self, NoMemory>
        ensures { IfOk result (λ written. written ≡ self ++ u32_bytes n) }
    {
        let written = self.write_bytes(&u32::to_be_bytes(n))?;
        Ok(written)
    }

    /// A number in eight bytes.
    #[tactic(auto, unfolding(crate::specs::Numbers::u64_bytes))]
    pub fn write_u64(self, n: u64) -> Result<Self, NoMemory>
        ensures { IfOk result (λ written. written ≡ self ++ u64_bytes n) }
    {
        let written = self.write_bytes(&u64::to_be_bytes(n))?;
        Ok(written)
    }

    /// A count in one byte: its low 8 bits.
    #[tactic(auto, unfolding(crate::specs::Numbers::u8_bytes))]
    pub fn write_count_u8(self, count: usize) -> Result<Self, NoMemory>
        ensures { IfOk result (λ written. written ≡ self ++ u8_bytes count) }
    {
        let written = self.write_bytes(&count.to_be_bytes()[7..])?;
        Ok(written)
    }

    /// A count in two bytes: its low 16 bits.
    #[tactic(auto, unfolding(crate::specs::Numbers::u16_bytes))]
    pub fn write_count_u16(self, count: usize) -> Result<Self, NoMemory>
        ensures { IfOk result (λ written. written ≡ self ++ u16_bytes count) }
    {
        let written = self.write_bytes(&count.to_be_bytes()[6..])?;
        Ok(written)
    }

    /// A count in four bytes: its low 32 bits.
    #[tactic(auto, unfolding(crate::specs::Numbers::u32_bytes))]
    pub fn write_count_u32(self, count: usize) -> Result<Self, NoMemory>
        ensures { IfOk result (λ written. written ≡ self ++ u32_bytes count) }
    {
        let written = self.write_bytes(&count.to_be_bytes()[4..])?;
        Ok(written)
    }

    /// An incarnation: its low 32 bits in four bytes, or all of it in eight.
    #[tactic(auto, unfolding(crate::specs::Spelling::incarnation_bytes, crate::specs::Numbers::u32_bytes, crate::specs::Numbers::u64_bytes))]
    pub fn write_incarnation(self, version: Version, inc: u64) -> Result<Self, NoMemory>
        ensures { IfOk result (λ written. written ≡ self ++ incarnation_bytes version inc) }
    {
        match version {
            Version::One => {
                let written = self.write_bytes(&inc.to_be_bytes()[4..])?;
                Ok(written)
            }
            Version::Two => {
                let written = self.write_u64(inc)?;
                Ok(written)
            }
        }
    }

    /// The origin of an operation: its node in one byte, and its incarnation.
    pub fn write_origin(self, version: Version, origin: Origin) -> Result<Self, NoMemory>
        ensures { IfOk result (λ written. written ≡ self ++ origin_bytes version origin) }
    {
        match version {
            Version::One => self.write_bytes(&short_origin(origin)),
            Version::Two => self.write_bytes(&long_origin(origin)),
        }
    }

    /// The dot of an operation: its origin, and its counter in eight bytes.
    pub fn write_dot(self, version: Version, dot: Dot) -> Result<Self, NoMemory>
        ensures { IfOk result (λ written. written ≡ self ++ dot_bytes version dot) }
    {
        match version {
            Version::One => self.write_bytes(&short_dot(dot)),
            Version::Two => self.write_bytes(&long_dot(dot)),
        }
    }
}

#[tactic(auto, unfolding(crate::specs::Spelling::origin_bytes, crate::specs::Spelling::incarnation_bytes, crate::specs::Numbers::u8_bytes))]
fn short_origin(origin: Origin) -> [u8; 5]
    ensures { result ≡ origin_bytes One origin }
{
    let node = u8::to_be_bytes(origin.node.0);
    let inc = origin.inc.to_be_bytes();
    [node[0], inc[4], inc[5], inc[6], inc[7]]
}

#[tactic(auto, unfolding(crate::specs::Spelling::origin_bytes, crate::specs::Spelling::incarnation_bytes, crate::specs::Numbers::u8_bytes))]
fn long_origin(origin: Origin) -> [u8; 9]
    ensures { result ≡ origin_bytes Two origin }
{
    let node = u8::to_be_bytes(origin.node.0);
    let inc = origin.inc.to_be_bytes();
    [
        node[0], inc[0], inc[1], inc[2], inc[3], inc[4], inc[5], inc[6], inc[7],
    ]
}

#[tactic(auto, unfolding(crate::specs::Spelling::dot_bytes, crate::specs::Spelling::origin_bytes, crate::specs::Spelling::incarnation_bytes, crate::specs::Numbers::u8_bytes, crate::specs::Numbers::u64_bytes))]
fn short_dot(dot: Dot) -> [u8; 13]
    ensures { result ≡ dot_bytes One dot }
{
    let origin = short_origin(dot.origin);
    let n = dot.n.to_be_bytes();
    [
        origin[0], origin[1], origin[2], origin[3], origin[4], n[0], n[1], n[2], n[3], n[4], n[5],
        n[6], n[7],
    ]
}

#[tactic(auto, unfolding(crate::specs::Spelling::dot_bytes, crate::specs::Spelling::origin_bytes, crate::specs::Spelling::incarnation_bytes, crate::specs::Numbers::u8_bytes, crate::specs::Numbers::u64_bytes))]
fn long_dot(dot: Dot) -> [u8; 17]
    ensures { result ≡ dot_bytes Two dot }
{
    let origin = long_origin(dot.origin);
    let n = dot.n.to_be_bytes();
    [
        origin[0], origin[1], origin[2], origin[3], origin[4], origin[5], origin[6], origin[7],
        origin[8], n[0], n[1], n[2], n[3], n[4], n[5], n[6], n[7],
    ]
}
