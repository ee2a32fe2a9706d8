//! Reads contexts row by row.
ghost use Rattle.std.specs.Prelude.{◌≡◌, ◌+◌, ◌++◌, ℕ, IfOk, List, Ok, None, Some, length};
ghost use Rattle.dac_origins.specs.Dots.{Dots};
ghost use Rattle.dac_dots.specs.Rows.{rows_of};
ghost use Rattle.dac_bytes.specs.Reading.{Gives, IsOfBytes, context_at, further_at, items_at, row_at, rows_at};
ghost use Rattle.dac_bytes.specs.Ranges.{IsContext};
ghost use Rattle.dac_bytes.specs.Spelling.{context_bytes};
ghost use Rattle.dac_bytes.specs.Takes.{IsBytes, Takes};

use crate::fault::{ReadFault, ReadFaultKind};
use crate::reader::ByteReader;
use crate::version::Version;
use dac_base::MAX_COUNTER;
use dac_dots::Context;
use dac_origins::Origin;
use std::alloc::Global;

/// The dots of one origin, as read: the counters 1 to `upto`, and the further ones.
#[derive(Drop)]
struct ReadRow {
    origin: Origin,
    upto: u64,
    further: Vec<u64>,
}

/// A further counter, greater than the previous one.
#[tactic(auto, unfolding(crate::specs::Reading::further_at))]
fn read_further<'a>(reader: ByteReader<'a>, before: u64) -> Result<(u64, ByteReader<'a>), ReadFault>
    ensures exact { result ≡ further_at before reader.entry }
    ensures real { IsOfBytes result }
{
    let at = reader.at();
    let (n, rest) = reader.read_counter()?;
    if before < n {
        Ok((n, rest))
    } else {
        Err(ReadFault::new(ReadFaultKind::BadOrder, at))
    }
}

/// `count` further counters, the first greater than `before`.
fn read_counters<'a>(
    reader: ByteReader<'a>,
    alloc: Global,
    count: u32,
    mut before: u64,
) -> Result<(Vec<u64>, ByteReader<'a>), ReadFault>
    ensures { Gives (λ x. (x.0.items, x.1)) result
        (items_at further_at (λ n. n) count before reader.entry) }
{
    let mut counters = Vec::new(alloc);
    let mut rest = reader;
    for _ in 0..count {
        let (n, after) = read_further(rest, before)?;
        counters.push(n)?;
        before = n;
        rest = after;
    }
    Ok((counters, rest))
}

/// The row of an origin greater than the previous one.
#[tactic(auto, unfolding(crate::specs::Reading::row_at))]
fn read_row<'a>(
    reader: ByteReader<'a>,
    alloc: Global,
    version: Version,
    nodes: u8,
    before: Option<Origin>,
) -> Result<(ReadRow, ByteReader<'a>), ReadFault>
    ensures { Gives
        (λ x. (record { origin = x.0.origin; upto = x.0.upto; further = x.0.further.items }, x.1))
        result (row_at version nodes before reader.entry) }
{
    let (origin, rest) = reader.read_origin_above(version, nodes, before)?;
    let (upto, rest) = rest.read_u64_in(0, MAX_COUNTER)?;
    let least = if upto == 0 { 1 } else { 0 };
    let (count, rest) = rest.read_u32_in(least, u32::MAX)?;
    let (further, rest) = read_counters(rest, alloc, count, upto + 1)?;
    let row = ReadRow {
        origin,
        upto,
        further,
    };
    Ok((row, rest))
}

/// The context of `count` rows, in ascending order of their origins.
fn read_counted_rows<'a>(
    reader: ByteReader<'a>,
    alloc: Global,
    version: Version,
    nodes: u8,
    count: u16,
) -> Result<(Context, ByteReader<'a>), ReadFault>
    ensures { Gives (λ x. (rows_of x.0, x.1)) result
        (items_at (row_at version nodes) (λ row. Some row.origin) count None reader.entry) }
{
    let mut context = Context::empty(alloc);
    let mut before = None;
    let mut rest = reader;
    for _ in 0..count {
        let (row, after) = read_row(rest, alloc, version, nodes, before)?;
        before = Some(row.origin);
        let _pushed = context.push_row(row.origin, row.upto, &row.further)?;
        rest = after;
    }
    Ok((context, rest))
}

#[tactic(auto, unfolding(crate::specs::Reading::rows_at))]
fn read_rows<'a>(
    reader: ByteReader<'a>,
    alloc: Global,
    version: Version,
    nodes: u8,
) -> Result<(Context, ByteReader<'a>), ReadFault>
    ensures { Gives (λ x. (rows_of x.0, x.1)) result (rows_at version nodes reader.entry) }
{
    let (count, rest) = reader.read_u16()?;
    let rows = read_counted_rows(rest, alloc, version, nodes, count)?;
    Ok(rows)
}

/// The context of the rows that are read.
fn read_set<'a>(
    reader: ByteReader<'a>,
    alloc: Global,
    version: Version,
    nodes: u8,
) -> Result<(Context, ByteReader<'a>), ReadFault>
    ensures { Gives (λ x. x) result (context_at version nodes reader.entry) }
{
    read_rows(reader, alloc, version, nodes)
}

impl<'a> ByteReader<'a> {
    /// A context whose nodes are below `nodes`. The first malformed field is the fault, at its first byte. An origin
    /// that isn't greater than the previous one is `BadOrder`. So is a further counter that isn't greater than the
    /// previous one, or that continues the contiguous counters. An origin without dots is `BadNumber` at its number of
    /// further counters.
    ///
    /// Allocates for the rows that were read, and reserves nothing for a count.
    pub fn read_context(
        self,
        alloc: Global,
        version: Version,
        nodes: u8,
    ) -> Result<(Context, ByteReader<'a>), ReadFault>
        // The definition determines the context or the fault, unless memory runs out.
        ensures exact { Gives (λ x. x) result (context_at version nodes self.entry) }
        // The returned context has these bytes as its spelling, and its dots and counts are in range.
        ensures found { IsBytes self.entry.bytes
            → IfOk result (λ x. Takes self.entry (context_bytes version x.0) x.1
            × IsContext version nodes x.0) }
        // A context in range is read from its spelling, unless memory runs out.
        ensures again { (dots : Dots) (rest : List ℕ) → IsContext version nodes dots
            → self.entry.bytes ≡ context_bytes version dots ++ rest
            → Gives (λ x. x) result (Ok (
              dots,
              record {
                at = self.entry.at + length (context_bytes version dots);
                bytes = rest;
              },
            )) }
    {
        read_set(self, alloc, version, nodes)
    }
}
