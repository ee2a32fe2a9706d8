//! Contexts as bytes: per origin the contiguous counters from 1, and the further ones.
ghost use Rattle.std.specs.Prelude.{◌≡◌, ◌++◌, IfOk, OnOk, length};
ghost use Rattle.dac_dots.specs.Rows.{AreRowsOf, rows_of};
ghost use Rattle.dac_bytes.specs.Spelling.{context_bytes, row_bytes};
ghost use Rattle.dac_bytes.specs.Numbers.{u64_bytes};
ghost use Rattle.std.specs.List.{flat_map};

use crate::version::Version;
use crate::writer::ByteWriter;
use dac_base::NoMemory;
use dac_dots::{Context, Further};
use dac_origins::Origin;

fn write_numbers(mut writer: ByteWriter, numbers: &[u64]) -> Result<ByteWriter, NoMemory>
    ensures { IfOk result (λ written. written ≡ writer ++ flat_map u64_bytes numbers.now) }
{
    for n in numbers {
        writer = writer.write_u64(*n)?;
    }
    Ok(writer)
}

#[tactic(auto, unfolding(crate::specs::Spelling::row_bytes))]
fn write_row(
    writer: ByteWriter,
    version: Version,
    origin: Origin,
    upto: u64,
    further: Further<'_>,
) -> Result<ByteWriter, NoMemory>
    ensures { IfOk result (λ written. written
        ≡ writer
        ++ row_bytes version
        (record { origin = origin; upto = upto; further = further.entry })) }
{
    let further = further.list(writer.allocator())?;
    let head = writer
        .write_origin(version, origin)?
        .write_u64(upto)?
        .write_count_u32(further.len())?;
    let written = write_numbers(head, &further)?;
    Ok(written)
}

/// The `rows` rows of a context.
fn write_rows(
    mut writer: ByteWriter,
    version: Version,
    context: &Context,
    rows: usize,
) -> Result<ByteWriter, NoMemory>
    requires { rows ≡ length (rows_of context.now) }
    ensures { IfOk result
        (λ written. written ≡ writer ++ flat_map (row_bytes version) (rows_of context.now)) }
{
    for i in 0..rows {
        if let Some((origin, upto, further)) = context.row(i) {
            writer = write_row(writer, version, origin, upto, further)?;
        }
    }
    Ok(writer)
}

impl ByteWriter {
    /// A context: the number of origins with dots, and per origin, in ascending order, its row. A row is the greatest n
    /// such that the counters 1 to n are all in the context, and the further counters in ascending order, so that each
    /// set of dots has one spelling.
    #[tactic(auto, unfolding(crate::specs::Spelling::context_bytes))]
    pub fn write_context(self, version: Version, context: &Context) -> Result<Self, NoMemory>
        ensures ok { IfOk result (λ written. written ≡ self ++ context_bytes version context.now) }
        ensures rows { OnOk result (AreRowsOf context.now (rows_of context.now)) }
    {
        let rows = context.rows();
        let counted = self.write_count_u16(rows)?;
        let written = write_rows(counted, version, context, rows)?;
        Ok(written)
    }
}
