//! The reader of bytes: numbers, nodes, origins and dots.
ghost use Rattle.std.specs.Prelude.{◌≡◌, ◌↔◌, ◌≤◌, IfOk, IsTrue, [], length};
ghost use Rattle.std.specs.Int.{w8, w16, w32, w64};
ghost use Rattle.dac_bytes.specs.Versions.{highest_incarnation, incarnation_width};
ghost use Rattle.dac_bytes.specs.Reading.{IsOfBytes, Reads, after, taken, number_at, range_at, node_at, incarnation_at, incarnation_or_zero_at, counter_at, origin_at, dot_at, origin_above_at, dot_above_at, whole};

use crate::fault::{ReadFault, ReadFaultKind};
use crate::version::Version;
use dac_base::{MAX_COUNTER, MAX_INCARNATION, NodeId};
use dac_origins::{Dot, Origin};
use std::marker::Model;

/// The bytes that remain to be read, and the offset of the first. Contracts see both.
///
/// Each call consumes the reader and returns it, after the field, with the value. A field that the bytes end in is
/// `Short` at its first byte.
#[derive(Debug, Drop)]
pub struct ByteReader<'a> {
    at: usize,
    rest: &'a [u8],
}

impl<'a> Model for ByteReader<'a> {
    ghost use Rattle.std.specs.Prelude.{length, ◌+◌, ◌<◌, ◌^◌};
    ghost use Rattle.dac_bytes.specs.Reading.{Rest};

    ghost Value = { Rest };

    ghost view = { λ r. record { at = r.at; bytes = r.rest.now } };

    ghost invariant = { λ r. r.at + length r.rest.now < 2 ^ 64 };
}

impl<'a> ByteReader<'a> {
    /// A reader of all these bytes, from offset 0.
    pub fn new(bytes: &'a [u8]) -> Self
        ensures { result ≡ whole bytes.now }
    {
        ByteReader { at: 0, rest: bytes }
    }

    /// A reader of the bytes after the first `count`.
    pub fn after(bytes: &'a [u8], count: usize) -> Self
        requires { count ≤ length bytes.now }
        ensures { result ≡ after count (whole bytes.now) }
    {
        let (_front, rest) = bytes.split_at(count);
        ByteReader { at: count, rest }
    }

    /// The offset of the next byte, from 0.
    pub fn at(&self) -> usize
        ensures { result ≡ self.now.at }
    {
        self.at
    }

    /// Whether all bytes have been read.
    pub fn is_at_end(&self) -> bool
        ensures { IsTrue result ↔ (self.now.bytes ≡ []) }
    {
        self.rest.is_empty()
    }

    /// The next `count` bytes, and the reader after them.
    fn take(self, count: usize) -> Result<(&'a [u8], ByteReader<'a>), ReadFault>
        ensures exact { Reads (λ x. (x.0.now, x.1)) result (taken count self.entry) }
        ensures real { IsOfBytes result }
    {
        if self.rest.len() < count {
            return Err(ReadFault::new(ReadFaultKind::Short, self.at));
        }
        let at = self.at;
        let (front, rest) = self.rest.split_at(count);
        Ok((
            front,
            ByteReader {
                at: at + count,
                rest,
            },
        ))
    }

    /// A number in one byte.
    pub fn read_u8(self) -> Result<(u8, ByteReader<'a>), ReadFault>
        ensures exact { result ≡ number_at w8 self.entry }
        ensures real { IsOfBytes result }
    {
        let (bytes, rest) = self.take(1)?;
        Ok((bytes[0], rest))
    }

    /// A number in two bytes.
    pub fn read_u16(self) -> Result<(u16, ByteReader<'a>), ReadFault>
        ensures exact { result ≡ number_at w16 self.entry }
        ensures real { IsOfBytes result }
    {
        let (bytes, rest) = self.take(2)?;
        Ok((u16::from_be_bytes([bytes[0], bytes[1]]), rest))
    }

    /// A number in four bytes.
    pub fn read_u32(self) -> Result<(u32, ByteReader<'a>), ReadFault>
        ensures exact { result ≡ number_at w32 self.entry }
        ensures real { IsOfBytes result }
    {
        let (b, rest) = self.take(4)?;
        Ok((u32::from_be_bytes([b[0], b[1], b[2], b[3]]), rest))
    }

    /// A number in eight bytes.
    pub fn read_u64(self) -> Result<(u64, ByteReader<'a>), ReadFault>
        ensures exact { result ≡ number_at w64 self.entry }
        ensures real { IsOfBytes result }
    {
        let (b, rest) = self.take(8)?;
        let number = u64::from_be_bytes([b[0], b[1], b[2], b[3], b[4], b[5], b[6], b[7]]);
        Ok((number, rest))
    }

    /// A number in one byte, from `low` to `high`. Any other is `BadNumber` at its byte.
    #[tactic(auto, unfolding(crate::specs::Reading::range_at))]
    pub fn read_u8_in(self, low: u8, high: u8) -> Result<(u8, ByteReader<'a>), ReadFault>
        ensures exact { result ≡ range_at w8 low high self.entry }
        ensures real { IsOfBytes result }
        ensures within { IfOk result (λ x. (low ≤ x.0) × (x.0 ≤ high)) }
    {
        let at = self.at();
        let (number, rest) = self.read_u8()?;
        if number < low || high < number {
            return Err(ReadFault::new(ReadFaultKind::BadNumber, at));
        }
        Ok((number, rest))
    }

    /// A number in four bytes, from `low` to `high`. Any other is `BadNumber` at its first byte.
    #[tactic(auto, unfolding(crate::specs::Reading::range_at))]
    pub fn read_u32_in(self, low: u32, high: u32) -> Result<(u32, ByteReader<'a>), ReadFault>
        ensures exact { result ≡ range_at w32 low high self.entry }
        ensures real { IsOfBytes result }
        ensures within { IfOk result (λ x. (low ≤ x.0) × (x.0 ≤ high)) }
    {
        let at = self.at();
        let (number, rest) = self.read_u32()?;
        if number < low || high < number {
            return Err(ReadFault::new(ReadFaultKind::BadNumber, at));
        }
        Ok((number, rest))
    }

    /// A number in eight bytes, from `low` to `high`. Any other is `BadNumber` at its first byte.
    #[tactic(auto, unfolding(crate::specs::Reading::range_at))]
    pub fn read_u64_in(self, low: u64, high: u64) -> Result<(u64, ByteReader<'a>), ReadFault>
        ensures exact { result ≡ range_at w64 low high self.entry }
        ensures real { IsOfBytes result }
        ensures within { IfOk result (λ x. (low ≤ x.0) × (x.0 ≤ high)) }
    {
        let at = self.at();
        let (number, rest) = self.read_u64()?;
        if number < low || high < number {
            return Err(ReadFault::new(ReadFaultKind::BadNumber, at));
        }
        Ok((number, rest))
    }

    /// A node in one byte. A number of `nodes` or more is `BadName` at its byte.
    #[tactic(auto, unfolding(crate::specs::Reading::node_at))]
    pub fn read_node(self, nodes: u8) -> Result<(NodeId, ByteReader<'a>), ReadFault>
        ensures exact { result ≡ node_at nodes self.entry }
        ensures real { IsOfBytes result }
    {
        let at = self.at();
        let (node, rest) = self.read_u8()?;
        if node < nodes {
            Ok((NodeId(node), rest))
        } else {
            Err(ReadFault::new(ReadFaultKind::BadName, at))
        }
    }

    /// An incarnation of at least `least`, in four or eight bytes.
    fn read_incarnation_from(
        self,
        version: Version,
        least: u8,
    ) -> Result<(u64, ByteReader<'a>), ReadFault>
        ensures exact { result
            ≡ range_at (incarnation_width version) least (highest_incarnation version) self.entry }
        ensures real { IsOfBytes result }
    {
        match version {
            Version::One => {
                let (inc, rest) = self.read_u32_in(u32::from(least), u32::MAX)?;
                Ok((u64::from(inc), rest))
            }
            Version::Two => {
                let read = self.read_u64_in(u64::from(least), MAX_INCARNATION)?;
                Ok(read)
            }
        }
    }

    /// An incarnation, in four or eight bytes. 0, or more than the version's maximum, is `BadNumber` at its first byte.
    pub fn read_incarnation(self, version: Version) -> Result<(u64, ByteReader<'a>), ReadFault>
        ensures exact { result ≡ incarnation_at version self.entry }
        ensures real { IsOfBytes result }
    {
        let read = self.read_incarnation_from(version, 1)?;
        Ok(read)
    }

    /// An incarnation or 0, in four or eight bytes. More than the version's maximum is `BadNumber` at its first byte.
    pub fn read_incarnation_or_zero(
        self,
        version: Version,
    ) -> Result<(u64, ByteReader<'a>), ReadFault>
        ensures exact { result ≡ incarnation_or_zero_at version self.entry }
        ensures real { IsOfBytes result }
    {
        let read = self.read_incarnation_from(version, 0)?;
        Ok(read)
    }

    /// A dot's counter in eight bytes. 0, or more than 2^62, is `BadNumber` at its first byte.
    pub fn read_counter(self) -> Result<(u64, ByteReader<'a>), ReadFault>
        ensures exact { result ≡ counter_at self.entry }
        ensures real { IsOfBytes result }
    {
        let read = self.read_u64_in(1, MAX_COUNTER)?;
        Ok(read)
    }

    /// The origin of an operation: its node in one byte, and its incarnation.
    #[tactic(auto, unfolding(crate::specs::Reading::origin_at))]
    pub fn read_origin(
        self,
        version: Version,
        nodes: u8,
    ) -> Result<(Origin, ByteReader<'a>), ReadFault>
        ensures exact { result ≡ origin_at version nodes self.entry }
        ensures real { IsOfBytes result }
    {
        let (node, rest) = self.read_node(nodes)?;
        let (inc, rest) = rest.read_incarnation(version)?;
        Ok((Origin { node, inc }, rest))
    }

    /// The dot of an operation: its origin, and its counter in eight bytes.
    #[tactic(auto, unfolding(crate::specs::Reading::dot_at))]
    pub fn read_dot(self, version: Version, nodes: u8) -> Result<(Dot, ByteReader<'a>), ReadFault>
        ensures exact { result ≡ dot_at version nodes self.entry }
        ensures real { IsOfBytes result }
    {
        let (origin, rest) = self.read_origin(version, nodes)?;
        let (n, rest) = rest.read_counter()?;
        Ok((Dot { origin, n }, rest))
    }

    /// An origin greater than the previous one, if any. Any other is `BadOrder` at its first byte.
    #[tactic(auto, unfolding(crate::specs::Reading::origin_above_at))]
    pub fn read_origin_above(
        self,
        version: Version,
        nodes: u8,
        before: Option<Origin>,
    ) -> Result<(Origin, ByteReader<'a>), ReadFault>
        ensures exact { result ≡ origin_above_at version nodes before self.entry }
        ensures real { IsOfBytes result }
    {
        let at = self.at();
        let (origin, rest) = self.read_origin(version, nodes)?;
        if before.is_none_or(|before| before < origin) {
            Ok((origin, rest))
        } else {
            Err(ReadFault::new(ReadFaultKind::BadOrder, at))
        }
    }

    /// A dot greater than the previous one, if any. Any other is `BadOrder` at its first byte.
    #[tactic(auto, unfolding(crate::specs::Reading::dot_above_at))]
    pub fn read_dot_above(
        self,
        version: Version,
        nodes: u8,
        before: Option<Dot>,
    ) -> Result<(Dot, ByteReader<'a>), ReadFault>
        ensures exact { result ≡ dot_above_at version nodes before self.entry }
        ensures real { IsOfBytes result }
    {
        let at = self.at();
        let (dot, rest) = self.read_dot(version, nodes)?;
        if before.is_none_or(|before| before < dot) {
            Ok((dot, rest))
        } else {
            Err(ReadFault::new(ReadFaultKind::BadOrder, at))
        }
    }
}
