//! Calls of configurations, contexts, lists of keys, byte writers, and delta logs.
use crate::pieces::context;
use crate::sample::{ME, OTHER, TWO, config, dot, origin};
use crate::trial::{Fixture, Said, of_any, of_bytes, short};
use dac_base::NoMemory;
use dac_bytes::{ByteReader, ByteWriter, ReadFaultKind, Version};
use dac_config::{Config, FaultKind, printed_name, read_config};
use dac_deltas::{Acks, Buffer};
use dac_dots::Context;
use dac_lattice::{MapOf, Max};
use dac_origins::Origin;
use dac_origins::keys::insert_key;
use std::alloc::Global;
use std::mem::replace;

/// A call of a configuration.
#[derive(Clone, Copy, Debug, PartialEq, Eq)]
pub enum OfConfig {
    Read,
    CanonicalText,
    Copy,
    PrintedName,
}

/// A configuration.
#[derive(Drop)]
pub struct ConfigFixture {
    alloc: Global,
    asked: OfConfig,
    config: Config,
}

/// The fixture of configurations.
pub fn configs(alloc: Global, asked: OfConfig) -> Option<ConfigFixture> {
    Some(ConfigFixture {
        alloc,
        asked,
        config: config(alloc)?,
    })
}

/// The outcome of reading a configuration.
fn read(alloc: Global) -> Said {
    match read_config(alloc, TWO) {
        Ok(config) => Said::Well(config.mark()),
        Err(fault) if fault.kind == FaultKind::NoMemory => Said::NoMemory,
        Err(_) => Said::Other,
    }
}

impl Fixture for ConfigFixture {
    fn call(&mut self) -> Said {
        match self.asked {
            OfConfig::Read => read(self.alloc),
            OfConfig::CanonicalText => of_bytes(self.config.canonical_text()),
            OfConfig::Copy => match self.config.copy() {
                Ok(copied) => Said::Well(copied.mark()),
                Err(_) => Said::NoMemory,
            },
            OfConfig::PrintedName => of_bytes(printed_name(self.alloc, b"it's")),
        }
    }

    fn is_as_before(&self) -> bool {
        true
    }
}

/// A call of a context.
#[derive(Clone, Copy, Debug, PartialEq, Eq)]
pub enum OfContext {
    Insert,
    Union,
    Copy,
    Dots,
    PushRow,
    Further,
    Write,
    Read,
}

/// A context, one to unite with it, and its bytes. The other contexts don't share its rows, so they show changes of it.
#[derive(Drop)]
pub struct ContextFixture {
    alloc: Global,
    asked: OfContext,
    context: Context,
    kept: Context,
    other: Context,
    bytes: Vec<u8>,
}

/// The bytes of a context.
fn bytes_of(alloc: Global, context: &Context) -> Result<Vec<u8>, NoMemory> {
    let writer = ByteWriter::new(alloc).write_context(Version::Two, context)?;
    Ok(writer.into_bytes())
}

/// The fixture of contexts.
pub fn contexts(alloc: Global, asked: OfContext) -> Option<ContextFixture> {
    let mine = [dot(ME, 1), dot(ME, 2), dot(ME, 5), dot(ME, 9)];
    let theirs = [dot(OTHER, 1), dot(OTHER, 2), dot(ME, 3), dot(ME, 7)];
    let all = context(alloc, &mine).ok()?;
    Some(ContextFixture {
        alloc,
        asked,
        kept: context(alloc, &mine).ok()?,
        other: context(alloc, &theirs).ok()?,
        bytes: bytes_of(alloc, &all).ok()?,
        context: all,
    })
}

/// The outcome of a call that returns a context.
fn of_context(answer: Result<Context, NoMemory>) -> Said {
    match answer {
        Ok(context) => Said::Well(short(context.len())),
        Err(_) => Said::NoMemory,
    }
}

impl ContextFixture {
    /// Reads the context from its bytes.
    fn read(&self) -> Said {
        match ByteReader::new(&self.bytes).read_context(self.alloc, Version::Two, 3) {
            Ok((context, _)) => Said::Well(short(context.len())),
            Err(fault) if fault.kind == ReadFaultKind::NoMemory => Said::NoMemory,
            Err(_) => Said::Other,
        }
    }

    /// Lists the cloud of the first row.
    fn further(&self) -> Said {
        match self.context.row(0) {
            Some((_, _, further)) => of_any(further.list(self.alloc)),
            None => Said::Other,
        }
    }

    /// Inserts a dot or appends a row.
    fn grow(&mut self) -> Said {
        let answer = if self.asked == OfContext::Insert {
            self.context.insert(dot(OTHER, 4))
        } else {
            match self.context.push_row(origin(OTHER), 2, &[4, 6, 9]) {
                Ok(_) => Ok(()),
                Err(fault) => Err(fault),
            }
        };
        match answer {
            Ok(()) => Said::Well(short(self.context.len())),
            Err(_) => Said::NoMemory,
        }
    }
}

impl Fixture for ContextFixture {
    fn call(&mut self) -> Said {
        match self.asked {
            OfContext::Insert | OfContext::PushRow => self.grow(),
            OfContext::Union => of_context(self.context.union(&self.other)),
            OfContext::Copy => of_context(self.context.copy()),
            OfContext::Dots => of_any(self.context.dots()),
            OfContext::Further => self.further(),
            OfContext::Write => of_bytes(bytes_of(self.alloc, &self.context)),
            OfContext::Read => self.read(),
        }
    }

    fn is_as_before(&self) -> bool {
        self.context.is_subset(&self.kept) && self.kept.is_subset(&self.context)
    }
}

/// A value to write, or a key to insert.
#[derive(Clone, Copy, Debug, PartialEq, Eq)]
pub enum Written {
    Bytes,
    U8,
    U16,
    U32,
    U64,
    CountU8,
    CountU16,
    CountU32,
    Incarnation,
    Origin,
    Dot,
    Key,
}

/// The argument of a writer.
#[derive(Drop)]
pub struct WritingFixture {
    alloc: Global,
    written: Written,
}

/// The fixture of writers.
pub fn writing(alloc: Global, written: Written) -> Option<WritingFixture> {
    Some(WritingFixture { alloc, written })
}

impl WritingFixture {
    /// Writes the value to an empty writer.
    fn write(&self, writer: ByteWriter) -> Result<ByteWriter, NoMemory> {
        match self.written {
            Written::Bytes => writer.write_bytes(b"abc"),
            Written::U8 => writer.write_u8(1),
            Written::U16 => writer.write_u16(2),
            Written::U32 => writer.write_u32(3),
            Written::U64 => writer.write_u64(4),
            Written::CountU8 => writer.write_count_u8(5),
            Written::CountU16 => writer.write_count_u16(6),
            Written::CountU32 => writer.write_count_u32(7),
            Written::Incarnation => writer.write_incarnation(Version::Two, 8),
            Written::Origin => writer.write_origin(Version::Two, origin(ME)),
            Written::Dot | Written::Key => writer.write_dot(Version::Two, dot(ME, 9)),
        }
    }
}

/// Inserts a key into an empty list.
fn insert_one(alloc: Global) -> Said {
    let mut keys = Vec::new(alloc);
    match insert_key(&mut keys, 7u64) {
        Ok(()) => Said::Well(keys.len() as u64),
        Err(_) => Said::NoMemory,
    }
}

impl Fixture for WritingFixture {
    fn call(&mut self) -> Said {
        if self.written == Written::Key {
            return insert_one(self.alloc);
        }
        match self.write(ByteWriter::new(self.alloc)) {
            Ok(writer) => of_bytes::<NoMemory>(Ok(writer.into_bytes())),
            Err(_) => Said::NoMemory,
        }
    }

    fn is_as_before(&self) -> bool {
        true
    }
}

/// A call of a delta log or of acknowledgements.
#[derive(Clone, Copy, Debug, PartialEq, Eq)]
pub enum OfBuffer {
    Push,
    Stage,
    PushAll,
    Interval,
    Warm,
    Blocks,
    Copy,
    Raise,
    CopyAcks,
}

/// A number at a key.
type Delta = MapOf<u64, Max<u64>>;

/// A log of 31 or 32 deltas, deltas to append, and sixteen acknowledgements.
#[derive(Drop)]
pub struct BufferFixture {
    alloc: Global,
    asked: OfBuffer,
    buffer: Buffer<Delta>,
    more: Vec<Vec<Delta>>,
    acks: Acks,
    count: u64,
}

/// Appends a delta, if the log isn't at its limit.
fn push(alloc: Global, buffer: &mut Buffer<Delta>, number: u64) -> Result<(), NoMemory> {
    if buffer.count() < 1 << 62 {
        buffer.push(MapOf::one(alloc, number, Max::new(number))?)?;
    }
    Ok(())
}

fn three(alloc: Global) -> Option<Vec<Delta>> {
    let mut three = Vec::new(alloc);
    for number in [7u64, 1000, 8] {
        three
            .push(MapOf::one(alloc, number, Max::new(number)).ok()?)
            .ok()?;
    }
    Some(three)
}

/// Three deltas twice, because the call may be repeated.
fn threes(alloc: Global) -> Option<Vec<Vec<Delta>>> {
    let mut all = Vec::new(alloc);
    all.push(three(alloc)?).ok()?;
    all.push(three(alloc)?).ok()?;
    Some(all)
}

/// The acknowledgements of sixteen incarnations, which fill their capacity.
fn full_acks(alloc: Global) -> Option<Acks> {
    let mut acks = Acks::new(alloc);
    for inc in 1..17u64 {
        acks.raise(Origin { node: ME, inc }, 3).ok()?;
    }
    Some(acks)
}

/// A log of `count` deltas.
fn deltas(alloc: Global, count: u64) -> Option<Buffer<Delta>> {
    let mut buffer = Buffer::new(alloc);
    for number in 0..count {
        push(alloc, &mut buffer, number).ok()?;
    }
    Some(buffer)
}

/// A log of 31 deltas, without joins of blocks.
fn unjoined(alloc: Global) -> Option<Buffer<Delta>> {
    let mut all = Vec::new(alloc);
    for number in 0..31u64 {
        all.push(MapOf::one(alloc, number, Max::new(number)).ok()?)
            .ok()?;
    }
    let mut buffer = Buffer::new(alloc);
    if all.len() < 1 << 61 {
        buffer.push_all(all).ok()?;
    }
    Some(buffer)
}

/// The log of a call, with its blocks joined unless the call itself joins them. A push meets a full capacity, also one
/// in two steps. Of several pushes, only the second does.
fn deltas_for(alloc: Global, asked: OfBuffer) -> Option<Buffer<Delta>> {
    match asked {
        OfBuffer::Push | OfBuffer::Stage => deltas(alloc, 32),
        OfBuffer::Warm => unjoined(alloc),
        _ => deltas(alloc, 31),
    }
}

/// The fixture of delta logs.
pub fn buffers(alloc: Global, asked: OfBuffer) -> Option<BufferFixture> {
    let buffer = deltas_for(alloc, asked)?;
    Some(BufferFixture {
        alloc,
        asked,
        more: threes(alloc)?,
        acks: full_acks(alloc)?,
        count: buffer.count(),
        buffer,
    })
}

impl BufferFixture {
    fn push_three(&mut self) -> Said {
        let Some(more) = self.more.pop() else {
            return Said::Other;
        };
        if self.buffer.count() < 1 << 61 && more.len() < 1 << 61 {
            of_any(self.buffer.push_all(more))
        } else {
            Said::Other
        }
    }

    /// Stages a delta, and commits it. Without memory the log is the one handed back.
    fn stage(&mut self) -> Said {
        let Ok(delta) = MapOf::one(self.alloc, 99, Max::new(99)) else {
            return Said::NoMemory;
        };
        if self.buffer.count() >= 1 << 62 {
            return Said::Other;
        }
        let buffer = replace(&mut self.buffer, Buffer::new(self.alloc));
        match buffer.stage(delta) {
            Ok(staged) => {
                self.buffer = staged.commit();
                Said::Well(self.buffer.count())
            }
            Err(back) => {
                self.buffer = back;
                Said::NoMemory
            }
        }
    }

    /// Makes the interval of the deltas after the third ready.
    fn warm_from_third(&mut self) -> Said {
        if self.buffer.count() < 3 {
            return Said::Other;
        }
        of_any(self.buffer.warm_from(3))
    }

    /// Joins the deltas after the third, or lists their blocks.
    fn join_from_third(&self) -> Said {
        if self.buffer.count() < 3 {
            return Said::Other;
        }
        if self.asked == OfBuffer::Blocks {
            of_any(self.buffer.blocks(3))
        } else {
            of_any(self.buffer.interval(3))
        }
    }
}

impl Fixture for BufferFixture {
    fn call(&mut self) -> Said {
        match self.asked {
            OfBuffer::Push => of_any(push(self.alloc, &mut self.buffer, 99)),
            OfBuffer::Stage => self.stage(),
            OfBuffer::PushAll => self.push_three(),
            OfBuffer::Interval | OfBuffer::Blocks => self.join_from_third(),
            OfBuffer::Warm => self.warm_from_third(),
            OfBuffer::Copy => of_any(self.buffer.copy()),
            OfBuffer::Raise => of_any(self.acks.raise(origin(OTHER), 4)),
            OfBuffer::CopyAcks => of_any(self.acks.copy()),
        }
    }

    fn is_as_before(&self) -> bool {
        self.buffer.count() == self.count
            && self.acks.get(origin(ME)) == Some(3)
            && self.acks.get(origin(OTHER)).is_none()
    }
}
