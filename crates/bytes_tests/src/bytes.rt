//! Numbers, dots and contexts as bytes.
use crate::sample::{dot, origin};
use dac_base::{NoMemory, NodeId};
use dac_bytes::{ByteReader, ByteWriter, ReadFault, ReadFaultKind, Version};
use dac_dots::Context;
use dac_origins::{Dot, Origin};
use std::alloc::Global;

const NUMBERS: &[u8] = b"\x12\x34\x56\x78\x9a\xbc\xde\x01\x02\x03\x04\x05\x06\x07\x08";

/// Reads a number of each width.
fn numbers(bytes: &[u8]) -> Result<(u8, u16, u32, u64), ReadFault> {
    let (a, reader) = ByteReader::new(bytes).read_u8()?;
    let (b, reader) = reader.read_u16()?;
    let (c, reader) = reader.read_u32()?;
    let (d, _) = reader.read_u64()?;
    Ok((a, b, c, d))
}

/// Writes a number of each width.
fn number_bytes(alloc: Global, a: u8, b: u16, c: u32, d: u64) -> Result<Vec<u8>, NoMemory> {
    let writer = ByteWriter::new(alloc).write_u8(a)?.write_u16(b)?;
    Ok(writer.write_u32(c)?.write_u64(d)?.into_bytes())
}

/// True if these are the bytes.
fn are_bytes(bytes: Result<Vec<u8>, NoMemory>, wanted: &[u8]) -> bool {
    match bytes {
        Ok(bytes) => bytes.as_slice() == wanted,
        Err(_) => false,
    }
}

#[test]
fn numbers_of_each_width(rt: HostRuntime) {
    let (a, b, c, d) = (0x12, 0x3456, 0x789a_bcde, 0x0102_0304_0506_0708);
    assert!(rt; numbers(NUMBERS) == Ok((a, b, c, d)));
    assert!(rt; are_bytes(number_bytes(rt.alloc(), a, b, c, d), NUMBERS));
}

/// The position after reading a byte, and whether it's the end.
fn behind_a_byte(bytes: &[u8]) -> Result<(usize, bool), ReadFault> {
    let (_, reader) = ByteReader::new(bytes).read_u8()?;
    Ok((reader.at(), reader.is_at_end()))
}

#[test]
fn bytes_end(rt: HostRuntime) {
    assert!(rt; behind_a_byte(b"\x01") == Ok((1, true)));
    assert!(rt; behind_a_byte(b"\x01\x02") == Ok((1, false)));
}

/// Reads numbers of three widths, each checked against a range.
fn in_ranges(bytes: &[u8]) -> Result<(u8, u32, u64), ReadFault> {
    let (a, reader) = ByteReader::new(bytes).read_u8_in(1, 3)?;
    let (b, reader) = reader.read_u32_in(1, 9)?;
    let (c, _) = reader.read_u64_in(5, 6)?;
    Ok((a, b, c))
}

#[test]
fn numbers_in_ranges(rt: HostRuntime) {
    let within = b"\x03\x00\x00\x00\x09\x00\x00\x00\x00\x00\x00\x00\x05";
    assert!(rt; in_ranges(within) == Ok((3, 9, 5)));
    let above = b"\x03\x00\x00\x00\x0a\x00\x00\x00\x00\x00\x00\x00\x05";
    assert!(rt; in_ranges(above) == Err(ReadFault::new(ReadFaultKind::BadNumber, 1)));
}

/// Writes three counts.
fn counts(alloc: Global, a: usize, b: usize, c: usize) -> Result<Vec<u8>, NoMemory> {
    let writer = ByteWriter::new(alloc).write_count_u8(a)?;
    Ok(writer.write_count_u16(b)?.write_count_u32(c)?.into_bytes())
}

#[test]
fn counts_are_written_by_their_lowest_bits(rt: HostRuntime) {
    let bytes = counts(rt.alloc(), 0x1_02, 0x1_0203, 0x1_0203_0405);
    assert!(rt; are_bytes(bytes, b"\x02\x02\x03\x02\x03\x04\x05"));
}

const DOT: &[u8] = b"\x02\x00\x00\x00\x00\x00\x00\x01\x02\x00\x00\x00\x00\x00\x00\x00\x05";

/// Reads the fields of a dot.
fn fields(bytes: &[u8]) -> Result<(NodeId, u64, u64), ReadFault> {
    let (node, reader) = ByteReader::new(bytes).read_node(3)?;
    let (inc, reader) = reader.read_incarnation(Version::Two)?;
    let (n, _) = reader.read_counter()?;
    Ok((node, inc, n))
}

/// Reads an origin, once with the check for ascending order and once without.
fn origins(bytes: &[u8]) -> Result<(Origin, Origin), ReadFault> {
    let (first, _) = ByteReader::new(bytes).read_origin_above(Version::Two, 3, None)?;
    let (second, _) = ByteReader::new(bytes).read_origin(Version::Two, 3)?;
    Ok((first, second))
}

fn read_dot(bytes: &[u8], nodes: u8) -> Result<Dot, ReadFault> {
    let (dot, _) = ByteReader::new(bytes).read_dot(Version::Two, nodes)?;
    Ok(dot)
}

/// Reads a dot that must be above `before`.
fn dot_above(bytes: &[u8], before: Dot) -> Result<Dot, ReadFault> {
    let (dot, _) = ByteReader::new(bytes).read_dot_above(Version::Two, 3, Some(before))?;
    Ok(dot)
}

#[test]
fn dots_and_their_parts(rt: HostRuntime) {
    let read = dot(2, 258, 5);
    assert!(rt; fields(DOT) == Ok((NodeId(2), 258, 5)));
    assert!(rt; origins(DOT) == Ok((read.origin, read.origin)));
    assert!(rt; read_dot(DOT, 3) == Ok(read));
    assert!(rt; dot_above(DOT, dot(2, 258, 4)) == Ok(read));
}

#[test]
fn faults_of_a_dot(rt: HostRuntime) {
    let (short, _) = DOT.split_at(16);
    assert!(rt; read_dot(short, 3) == Err(ReadFault::new(ReadFaultKind::Short, 9)));
    assert!(rt; read_dot(DOT, 2) == Err(ReadFault::new(ReadFaultKind::BadName, 0)));
    let same = dot_above(DOT, dot(2, 258, 5));
    assert!(rt; same == Err(ReadFault::new(ReadFaultKind::BadOrder, 0)));
}

/// Counter 5 of node 2 at the greatest incarnation, and at the one above it.
const LAST: &[u8] = b"\x02\x40\x00\x00\x00\x00\x00\x00\x00\x00\x00\x00\x00\x00\x00\x00\x05";

const PAST: &[u8] = b"\x02\x40\x00\x00\x00\x00\x00\x00\x01\x00\x00\x00\x00\x00\x00\x00\x05";

#[test]
fn incarnations_end(rt: HostRuntime) {
    assert!(rt; read_dot(LAST, 3) == Ok(dot(2, 1 << 62, 5)));
    assert!(rt; read_dot(PAST, 3) == Err(ReadFault::new(ReadFaultKind::BadNumber, 1)));
}

/// Counter 5 of node 2 at the greatest incarnation of version one.
const FOUR: &[u8] = b"\x02\xff\xff\xff\xff\x00\x00\x00\x00\x00\x00\x00\x05";

/// Reads a dot of version one.
fn read_first(bytes: &[u8]) -> Result<Dot, ReadFault> {
    let (dot, _) = ByteReader::new(bytes).read_dot(Version::One, 3)?;
    Ok(dot)
}

#[test]
fn version_one_has_incarnations_of_four_bytes(rt: HostRuntime) {
    let last = dot(2, 4_294_967_295, 5);
    assert!(rt; read_first(FOUR) == Ok(last));
    let written = write_both(rt.alloc(), Version::One, last.origin, last);
    assert!(rt;
        are_bytes(
            written,
            b"\x02\xff\xff\xff\xff\x02\xff\xff\xff\xff\x00\x00\x00\x00\x00\x00\x00\x05"
        )
    );
}

fn write_both(
    alloc: Global,
    version: Version,
    origin: Origin,
    dot: Dot,
) -> Result<Vec<u8>, NoMemory> {
    let writer = ByteWriter::new(alloc).write_origin(version, origin)?;
    Ok(writer.write_dot(version, dot)?.into_bytes())
}

#[test]
fn origin_and_dot(rt: HostRuntime) {
    let bytes = write_both(rt.alloc(), Version::Two, origin(2, 1), dot(2, 1, 258));
    let wanted =
        b"\x02\x00\x00\x00\x00\x00\x00\x00\x01\x02\x00\x00\x00\x00\x00\x00\x00\x01\x00\x00\x00\x00\x00\x00\x01\x02";
    assert!(rt; are_bytes(bytes, wanted));
}

/// Bytes of a context, and its dots by node, incarnation and counter. Counter 0 is part of the cloud.
const CONTEXTS: &[(&[u8], &[(u8, u64, u64)])] = &[
    (b"\x00\x00", &[]),
    (
        b"\x00\x01\x01\x00\x00\x00\x00\x00\x00\x00\x01\x00\x00\x00\x00\x00\x00\x00\x01\x00\x00\x00\x00",
        &[(1, 1, 1)],
    ),
    (
        b"\x00\x01\x01\x00\x00\x00\x00\x00\x00\x00\x01\x00\x00\x00\x00\x00\x00\x00\x02\x00\x00\x00\x01\x00\x00\x00\x00\x00\x00\x00\x00",
        &[(1, 1, 0), (1, 1, 1), (1, 1, 2)],
    ),
    (
        GAPS,
        &[(0, 1, 1), (0, 1, 2), (0, 1, 4), (0, 1, 7), (2, 258, 5)],
    ),
];

const GAPS: &[u8] = b"\x00\x02\
    \x00\x00\x00\x00\x00\x00\x00\x00\x01\x00\x00\x00\x00\x00\x00\x00\x02\x00\x00\x00\x02\
    \x00\x00\x00\x00\x00\x00\x00\x04\x00\x00\x00\x00\x00\x00\x00\x07\
    \x02\x00\x00\x00\x00\x00\x00\x01\x02\x00\x00\x00\x00\x00\x00\x00\x00\x00\x00\x00\x01\
    \x00\x00\x00\x00\x00\x00\x00\x05";

/// The context of some dots.
fn context(alloc: Global, dots: &[(u8, u64, u64)]) -> Result<Context, NoMemory> {
    let mut context = Context::empty(alloc);
    for (node, inc, n) in dots {
        context.insert(dot(*node, *inc, *n))?;
    }
    Ok(context)
}

/// The bytes of the context of some dots.
fn context_bytes(alloc: Global, dots: &[(u8, u64, u64)]) -> Result<Vec<u8>, NoMemory> {
    let writer = ByteWriter::new(alloc).write_context(Version::Two, &context(alloc, dots)?)?;
    Ok(writer.into_bytes())
}

#[test]
fn contexts_as_bytes(rt: HostRuntime) {
    for (bytes, dots) in CONTEXTS {
        assert!(rt; are_bytes(context_bytes(rt.alloc(), dots), bytes));
    }
}

/// True if the bytes are read as the context of these dots.
fn is_read(alloc: Global, bytes: &[u8], dots: &[(u8, u64, u64)]) -> Result<bool, ReadFault> {
    let (read, _) = ByteReader::new(bytes).read_context(alloc, Version::Two, 3)?;
    let wanted = context(alloc, dots)?;
    Ok(read.len() == wanted.len() && read.is_subset(&wanted))
}

#[test]
fn contexts_from_bytes(rt: HostRuntime) {
    assert!(rt;
        is_read(
            rt.alloc(),
            GAPS,
            &[(0, 1, 1), (0, 1, 2), (0, 1, 4), (0, 1, 7), (2, 258, 5)]
        ) == Ok(true)
    );
}

/// The number of a node's incarnations, and of gaps in each, so that counts need two bytes.
const WIDE: &[(u16, u16)] = &[(1, 300), (300, 1)];

/// A context of `incarnations` incarnations of node 1, each with counters 1 and 2 and a cloud with `gaps` gaps.
fn wide(alloc: Global, incarnations: u16, gaps: u16) -> Result<Context, NoMemory> {
    let mut further = Vec::new(alloc);
    for gap in 0..gaps {
        further.push(4 + 2 * u64::from(gap))?;
    }
    let mut context = Context::empty(alloc);
    for before in 0..incarnations {
        context.push_row(origin(1, u64::from(before) + 1), 2, further.as_slice())?;
    }
    Ok(context)
}

/// True if such a context is read from its own bytes.
fn is_wide_read(alloc: Global, incarnations: u16, gaps: u16) -> Result<bool, ReadFault> {
    let wanted = wide(alloc, incarnations, gaps)?;
    let writer = ByteWriter::new(alloc).write_context(Version::Two, &wanted)?;
    let bytes = writer.into_bytes();
    let (read, _) = ByteReader::new(bytes.as_slice()).read_context(alloc, Version::Two, 3)?;
    let dots = u128::from(incarnations) * (u128::from(gaps) + 2);
    Ok(read.rows() == usize::from(incarnations) && read.len() == dots && read.is_subset(&wanted))
}

#[test]
fn wide_contexts_are_read_again(rt: HostRuntime) {
    for (incarnations, gaps) in WIDE {
        assert!(rt; is_wide_read(rt.alloc(), *incarnations, *gaps) == Ok(true));
    }
}

/// Bytes of faulty contexts, and their faults: a count beyond the end, a counter that continues the row, an origin
/// without dots, and counter 0.
const FAULTS: &[(&[u8], ReadFaultKind, usize)] = &[
    (
        b"\x00\x01\x01\x00\x00\x00\x00\x00\x00\x00\x01\x00\x00\x00\x00\x00\x00\x00\x00\xff\xff\xff\xff",
        ReadFaultKind::Short,
        23,
    ),
    (
        b"\x00\x01\x01\x00\x00\x00\x00\x00\x00\x00\x01\x00\x00\x00\x00\x00\x00\x00\x01\x00\x00\x00\x01\x00\x00\x00\x00\x00\x00\x00\x02",
        ReadFaultKind::BadOrder,
        23,
    ),
    (
        b"\x00\x01\x01\x00\x00\x00\x00\x00\x00\x00\x01\x00\x00\x00\x00\x00\x00\x00\x00\x00\x00\x00\x00",
        ReadFaultKind::BadNumber,
        19,
    ),
    (
        b"\x00\x01\x01\x00\x00\x00\x00\x00\x00\x00\x01\x00\x00\x00\x00\x00\x00\x00\x02\x00\x00\x00\x01\x00\x00\x00\x00\x00\x00\x00\x00",
        ReadFaultKind::BadNumber,
        23,
    ),
];

#[test]
fn faults_of_a_context(rt: HostRuntime) {
    for (bytes, kind, at) in FAULTS {
        let read = is_read(rt.alloc(), bytes, &[]);
        assert!(rt; read == Err(ReadFault::new(*kind, *at)));
    }
}

/// True if a fault has this number and name and is printed like this.
fn is_printed(
    alloc: Global,
    fault: ReadFault,
    number: u8,
    name: &str,
    wanted: &str,
) -> Option<bool> {
    let text = format!(in alloc; "{fault}").ok()?;
    Some(fault.kind.number() == number && fault.kind.name() == name && text.as_str() == wanted)
}

#[test]
fn a_fault_is_printed(rt: HostRuntime) {
    let fault = ReadFault::new(ReadFaultKind::BadOrder, 7);
    assert!(rt; is_printed(rt.alloc(), fault, 3, "BadOrder", "BadOrder at 7") == Some(true));
    assert!(rt; ReadFault::from(NoMemory) == ReadFault::new(ReadFaultKind::NoMemory, 0));
}
