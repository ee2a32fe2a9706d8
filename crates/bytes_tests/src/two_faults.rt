//! Bytes with two faults: states and packets in both versions. Fields are checked as they are read, and the checks of a
//! field in a fixed order, which determines the fault that is reported.
use crate::messages::bytes_after;
use crate::sample::config;
use crate::state_bytes::{FULL, LISTS};
use dac_base::NoMemory;
use dac_state::{State, StateFault, StateFaultKind};
use dac_wire::{WireFault, WireFaultKind, decode};
use std::alloc::Global;

/// Places and their new bytes, the number of bytes kept, and the fault.
type Row = (&'static [(usize, u8)], usize, StateFaultKind, usize);

/// Changes of the state with every piece.
const STATES: &[Row] = &[
    // Heard: a descending origin with incarnation 0, and one with too great a counter.
    (&[(23, 0), (31, 0)], 418, StateFaultKind::BadNumber, 24),
    (&[(23, 0), (32, 0x41)], 418, StateFaultKind::BadOrder, 23),
    // Known: a cloud counter 0, which isn't above the gap either.
    (&[(95, 0)], 418, StateFaultKind::BadNumber, 88),
    // A heard dot that isn't known, before the end of the bytes or another faulty field.
    (&[(83, 2)], 96, StateFaultKind::NotKnown, 96),
    (&[(83, 2), (100, 1)], 418, StateFaultKind::NotKnown, 96),
    // A key of an unknown node with incarnation 0; one outside its list with incarnation 0.
    (&[(102, 3), (110, 0)], 418, StateFaultKind::BadName, 102),
    (&[(102, 2), (110, 0)], 418, StateFaultKind::BadNumber, 103),
    // A key outside its list that also descends; one before the end of the bytes; one without dots.
    (
        &[(101, 2), (102, 0), (152, 1)],
        418,
        StateFaultKind::NotInList,
        151,
    ),
    (&[(102, 2)], 111, StateFaultKind::NotInList, 100),
    (&[(102, 2), (114, 0)], 418, StateFaultKind::NotInList, 100),
    // A descending dot with counter 0; one that isn't known either.
    (&[(133, 0), (149, 0)], 418, StateFaultKind::BadNumber, 142),
    (
        &[(115, 1), (131, 5), (149, 4)],
        418,
        StateFaultKind::BadOrder,
        133,
    ),
    // An unknown dot with value 2; one before the end of the bytes.
    (&[(131, 9), (132, 2)], 418, StateFaultKind::NotKnown, 115),
    (&[(131, 9)], 132, StateFaultKind::NotKnown, 115),
    // Starts: a key outside its list that also descends; a descending dot that isn't known.
    (
        &[(189, 2), (190, 0), (238, 1)],
        418,
        StateFaultKind::NotInList,
        237,
    ),
    (
        &[(203, 1), (219, 5), (236, 4)],
        418,
        StateFaultKind::BadOrder,
        220,
    ),
    // A descending life with incarnation 0; one before the end of the bytes.
    (
        &[(280, 0), (287, 0), (288, 0)],
        418,
        StateFaultKind::BadOrder,
        280,
    ),
    (&[(280, 0)], 281, StateFaultKind::BadOrder, 280),
    // A descending claim with term 0.
    (
        &[(314, 0), (321, 0), (322, 0)],
        418,
        StateFaultKind::BadNumber,
        315,
    ),
    // A claim outside its list: with a wrong source, with none, and before the end of the bytes.
    (&[(302, 2), (312, 1)], 418, StateFaultKind::BadNumber, 312),
    (&[(302, 2)], 312, StateFaultKind::Short, 312),
    (&[(302, 2)], 313, StateFaultKind::NotInList, 292),
    // A claim without a cause, and with an unknown source.
    (&[(311, 0), (312, 9)], 418, StateFaultKind::BadNumber, 311),
    // A drain of a descending incarnation: with incarnation 0, and without dots.
    (&[(387, 0), (395, 0)], 418, StateFaultKind::BadNumber, 388),
    (&[(387, 0), (399, 0)], 418, StateFaultKind::BadOrder, 387),
    // Dots of drains: a descending one that isn't known; an unknown one with value 2.
    (
        &[(351, 1), (367, 5), (385, 4)],
        418,
        StateFaultKind::BadOrder,
        369,
    ),
    (&[(367, 9), (368, 2)], 418, StateFaultKind::NotKnown, 351),
    // A value of 2, and bytes after the last drain.
    (&[(337, 1), (386, 2)], 418, StateFaultKind::BadNumber, 386),
];

/// The state with every piece but drains, in version one.
const FULL_ONE: &[u8] = b"\
    \x00\x02\
    \x00\x00\x00\x00\x01\x00\x00\x00\x00\x00\x00\x00\x05\x00\x00\x00\x00\
    \x01\x00\x00\x00\x01\x00\x00\x00\x00\x00\x00\x00\x03\x00\x00\x00\x00\
    \x00\x02\
    \x00\x00\x00\x00\x01\x00\x00\x00\x00\x00\x00\x00\x05\x00\x00\x00\x00\
    \x01\x00\x00\x00\x01\x00\x00\x00\x00\x00\x00\x00\x03\x00\x00\x00\x01\x00\x00\x00\x00\x00\x00\x00\x05\
    \x00\x00\x00\x02\
    \x00\x00\x01\x00\x00\x00\x01\x00\x00\x00\x02\
    \x00\x00\x00\x00\x01\x00\x00\x00\x00\x00\x00\x00\x02\x01\
    \x01\x00\x00\x00\x01\x00\x00\x00\x00\x00\x00\x00\x02\x00\
    \x00\x02\x00\x00\x00\x01\x02\x00\x00\x00\x01\
    \x00\x00\x00\x00\x01\x00\x00\x00\x00\x00\x00\x00\x03\x00\
    \x00\x00\x00\x02\
    \x00\x00\x01\x00\x00\x00\x01\x00\x00\x00\x02\
    \x00\x00\x00\x00\x01\x00\x00\x00\x00\x00\x00\x00\x04\
    \x01\x00\x00\x00\x01\x00\x00\x00\x00\x00\x00\x00\x03\
    \x00\x02\x00\x00\x00\x01\x02\x00\x00\x00\x01\
    \x00\x00\x00\x00\x01\x00\x00\x00\x00\x00\x00\x00\x05\
    \x02\x00\x00\x00\x00\x01\x01\x02\x00\x00\x01\x02\x00\x00\x02\
    \x00\x00\
    \x00\x00\x00\x00\x00\x00\x00\x01\x00\x00\x00\x00\x01\x01\x00\x00\x01\
    \x00\x00\x00\x00\x00\x00\x01\x02\x02\x00\x00\x00\x01\x03\x01";

/// Changes of `FULL_ONE`.
const STATES_ONE: &[Row] = &[
    // Heard: a descending origin with incarnation 0, and one with too great a counter.
    (&[(19, 0), (23, 0)], 262, StateFaultKind::BadNumber, 20),
    (&[(19, 0), (24, 0x41)], 262, StateFaultKind::BadOrder, 19),
    // Known: a cloud counter 0, which isn't above the gap either.
    (&[(79, 0)], 262, StateFaultKind::BadNumber, 72),
    // A heard dot that isn't known, before the end of the bytes or another faulty field.
    (&[(67, 2)], 80, StateFaultKind::NotKnown, 80),
    (&[(67, 2), (84, 1)], 262, StateFaultKind::NotKnown, 80),
    // A key of an unknown node with incarnation 0; one outside its list with incarnation 0.
    (&[(86, 3), (90, 0)], 262, StateFaultKind::BadName, 86),
    (&[(86, 2), (90, 0)], 262, StateFaultKind::BadNumber, 87),
    // A key outside its list that also descends; one before the end of the bytes; one without dots.
    (
        &[(85, 2), (86, 0), (124, 1)],
        262,
        StateFaultKind::NotInList,
        123,
    ),
    (&[(86, 2)], 91, StateFaultKind::NotInList, 84),
    (&[(86, 2), (94, 0)], 262, StateFaultKind::NotInList, 84),
    // A descending dot with counter 0; one that isn't known either.
    (&[(109, 0), (121, 0)], 262, StateFaultKind::BadNumber, 114),
    (
        &[(95, 1), (107, 5), (121, 4)],
        262,
        StateFaultKind::BadOrder,
        109,
    ),
    // An unknown dot with value 2; one before the end of the bytes.
    (&[(107, 9), (108, 2)], 262, StateFaultKind::NotKnown, 95),
    (&[(107, 9)], 108, StateFaultKind::NotKnown, 95),
    // Starts: a key outside its list that also descends; a descending dot that isn't known.
    (
        &[(153, 2), (154, 0), (190, 1)],
        262,
        StateFaultKind::NotInList,
        189,
    ),
    (
        &[(163, 1), (175, 5), (188, 4)],
        262,
        StateFaultKind::BadOrder,
        176,
    ),
    // A descending life with incarnation 0; one before the end of the bytes.
    (
        &[(220, 0), (223, 0), (224, 0)],
        262,
        StateFaultKind::BadOrder,
        220,
    ),
    (&[(220, 0)], 221, StateFaultKind::BadOrder, 220),
    // A descending claim with term 0.
    (
        &[(246, 0), (253, 0), (254, 0)],
        262,
        StateFaultKind::BadNumber,
        247,
    ),
    // A claim outside its list: with a wrong source, with none, and before the end of the bytes.
    (&[(238, 2), (244, 1)], 262, StateFaultKind::BadNumber, 244),
    (&[(238, 2)], 244, StateFaultKind::Short, 244),
    (&[(238, 2)], 245, StateFaultKind::NotInList, 228),
    // A claim without a cause, and with an unknown source.
    (&[(243, 0), (244, 9)], 262, StateFaultKind::BadNumber, 243),
];

/// The first `length` bytes, with some of them changed.
fn with_others(
    alloc: Global,
    bytes: &[u8],
    others: &[(usize, u8)],
    length: usize,
) -> Result<Vec<u8>, NoMemory> {
    let mut changed = Vec::from_slice(alloc, bytes)?;
    for (at, byte) in others {
        if let Some(there) = changed.get_mut(*at) {
            *there = *byte;
        }
    }
    changed.truncate(length);
    Ok(changed)
}

/// The fault of the state with every piece after these changes.
fn fault_of_state(alloc: Global, others: &[(usize, u8)], length: usize) -> Option<StateFault> {
    let bytes = with_others(alloc, FULL, others, length).ok()?;
    State::decode(alloc, &config(alloc, LISTS)?, &bytes).err()
}

#[test]
fn two_faults_of_a_state(rt: HostRuntime) {
    for (others, length, kind, at) in STATES {
        let fault = StateFault {
            kind: *kind,
            at: *at,
        };
        let answer = fault_of_state(rt.alloc(), others, *length);
        assert!(rt; answer == Some(fault), "{others:?}");
    }
}

/// The fault of the state in version one after these changes.
fn fault_of_state_one(alloc: Global, others: &[(usize, u8)], length: usize) -> Option<StateFault> {
    let bytes = with_others(alloc, FULL_ONE, others, length).ok()?;
    State::decode_1(alloc, &config(alloc, LISTS)?, &bytes).err()
}

#[test]
fn two_faults_of_a_state_in_version_one(rt: HostRuntime) {
    for (others, length, kind, at) in STATES_ONE {
        let fault = StateFault {
            kind: *kind,
            at: *at,
        };
        let answer = fault_of_state_one(rt.alloc(), others, *length);
        assert!(rt; answer == Some(fault), "{others:?}");
    }
}

/// True if the bytes without changes decode.
fn is_state_one(alloc: Global) -> Option<bool> {
    let config = config(alloc, LISTS)?;
    Some(State::decode_1(alloc, &config, FULL_ONE).is_ok())
}

#[test]
fn every_part_is_read_in_version_one(rt: HostRuntime) {
    assert!(rt; is_state_one(rt.alloc()) == Some(true));
}

/// The header of packets under the three applications, in version 2: the mark is 16864086593912118794, the 64-bit
/// FNV-1a hash of the canonical text.
const TWO: &[u8] = b"DAC\x02\xea\x09\x45\x68\x4b\x8f\x1e\x0a";

/// The header in version 1.
const ONE: &[u8] = b"DAC\x01\xea\x09\x45\x68\x4b\x8f\x1e\x0a";

/// Faulty headers, and their faults.
const BEGINNINGS: &[(&[u8], WireFaultKind, usize)] = &[
    // A wrong magic and version.
    (b"DAX\x03", WireFaultKind::BadMagic, 0),
    // A wrong version and mark.
    (
        b"DAC\x03\x00\x00\x00\x00\x00\x00\x00\x00",
        WireFaultKind::BadVersion,
        3,
    ),
    // A wrong mark and kind.
    (
        b"DAC\x02\x00\x00\x00\x00\x00\x00\x00\x00\x00",
        WireFaultKind::OtherConfig,
        4,
    ),
    // Another mark at the end of the bytes, and one that they cut off.
    (
        b"DAC\x01\x00\x00\x00\x00\x00\x00\x00\x00",
        WireFaultKind::OtherConfig,
        4,
    ),
    (
        b"DAC\x02\x00\x00\x00\x00\x00\x00\x00",
        WireFaultKind::Short,
        4,
    ),
];

/// The bytes after the header in version 2, and the fault. Operations are of node 1, incarnation 2.
const PACKETS: &[(&[u8], WireFaultKind, usize)] = &[
    // An unknown kind, from an unknown node.
    (b"\x05\x03", WireFaultKind::BadNumber, 12),
    // From an unknown node with incarnation 0.
    (
        b"\x01\x03\x00\x00\x00\x00\x00\x00\x00\x00",
        WireFaultKind::BadName,
        13,
    ),
    // A whole state for one incarnation only, and too many deltas.
    (
        b"\x01\x00\x00\x00\x00\x00\x00\x00\x00\x01\x01\
        \x00\x00\x00\x00\x00\x00\x00\x01\x41\x00\x00\x00\x00\x00\x00\x00",
        WireFaultKind::BadNumber,
        23,
    ),
    // An interval for any incarnation, and too many deltas.
    (
        b"\x02\x00\x00\x00\x00\x00\x00\x00\x00\x01\x01\
        \x00\x00\x00\x00\x00\x00\x00\x00\x41\x00\x00\x00\x00\x00\x00\x00",
        WireFaultKind::BadNumber,
        23,
    ),
    // Too many deltas, and a wrong flag of the acknowledgement.
    (
        b"\x01\x00\x00\x00\x00\x00\x00\x00\x00\x01\x01\
        \x00\x00\x00\x00\x00\x00\x00\x00\x41\x00\x00\x00\x00\x00\x00\x00\x02",
        WireFaultKind::BadNumber,
        31,
    ),
    // Too many deltas acknowledged, of incarnation 0.
    (
        b"\x03\x00\x00\x00\x00\x00\x00\x00\x00\x01\x01\
        \x00\x00\x00\x00\x00\x00\x00\x01\x00\x00\x00\x00\x00\x00\x00\x07\x01\
        \x01\x00\x00\x00\x00\x00\x00\x00\x00\x41\x00\x00\x00\x00\x00\x00\x00",
        WireFaultKind::BadNumber,
        41,
    ),
    // Too many deltas acknowledged, and a byte after the message.
    (
        b"\x03\x00\x00\x00\x00\x00\x00\x00\x00\x01\x01\
        \x00\x00\x00\x00\x00\x00\x00\x01\x00\x00\x00\x00\x00\x00\x00\x07\x01\
        \x01\x00\x00\x00\x00\x00\x00\x00\x01\x41\x00\x00\x00\x00\x00\x00\x00\x00",
        WireFaultKind::BadNumber,
        49,
    ),
    // An operation with counter 0 and an unknown act.
    (
        b"\x04\x01\x00\x00\x00\x00\x00\x00\x00\x02\x00\x00\x00\x00\x00\x00\x00\x00\x00",
        WireFaultKind::BadNumber,
        22,
    ),
    // A start with counter 1, of a key outside its list.
    (
        b"\x04\x01\x00\x00\x00\x00\x00\x00\x00\x02\x00\x00\x00\x00\x00\x00\x00\x01\x04\
        \x00\x01\x00\x00\x00\x00\x00\x00\x00\x00\x03\x00\x00",
        WireFaultKind::NotInList,
        31,
    ),
    // A permit with value 2, of a key outside its list.
    (
        b"\x04\x01\x00\x00\x00\x00\x00\x00\x00\x02\x00\x00\x00\x00\x00\x00\x00\x09\x03\
        \x00\x01\x00\x00\x00\x00\x00\x00\x00\x00\x03\x02",
        WireFaultKind::NotInList,
        31,
    ),
    // A stop with counter 1, of descending dots.
    (
        b"\x04\x01\x00\x00\x00\x00\x00\x00\x00\x02\x00\x00\x00\x00\x00\x00\x00\x01\x05\
        \x00\x00\x00\x00\x00\x00\x00\x00\x00\x00\x03\x00\x02\
        \x01\x00\x00\x00\x00\x00\x00\x00\x01\x00\x00\x00\x00\x00\x00\x00\x02\
        \x00\x00\x00\x00\x00\x00\x00\x00\x01\x00\x00\x00\x00\x00\x00\x00\x02",
        WireFaultKind::BadOrder,
        61,
    ),
    // A stop of its own dot, twice.
    (
        b"\x04\x01\x00\x00\x00\x00\x00\x00\x00\x02\x00\x00\x00\x00\x00\x00\x00\x09\x05\
        \x00\x00\x00\x00\x00\x00\x00\x00\x00\x00\x03\x00\x02\
        \x01\x00\x00\x00\x00\x00\x00\x00\x02\x00\x00\x00\x00\x00\x00\x00\x09\
        \x01\x00\x00\x00\x00\x00\x00\x00\x02\x00\x00\x00\x00\x00\x00\x00\x09",
        WireFaultKind::BadOrder,
        61,
    ),
    // A stop of its own dot, and a byte after it.
    (
        b"\x04\x01\x00\x00\x00\x00\x00\x00\x00\x02\x00\x00\x00\x00\x00\x00\x00\x09\x05\
        \x00\x00\x00\x00\x00\x00\x00\x00\x00\x00\x03\x00\x01\
        \x01\x00\x00\x00\x00\x00\x00\x00\x02\x00\x00\x00\x00\x00\x00\x00\x09\x00",
        WireFaultKind::BadNumber,
        13,
    ),
    // A node declares itself down, with incarnation 0.
    (
        b"\x04\x01\x00\x00\x00\x00\x00\x00\x00\x02\x00\x00\x00\x00\x00\x00\x00\x09\x02\
        \x01\x00\x00\x00\x00\x00\x00\x00\x00",
        WireFaultKind::BadNumber,
        32,
    ),
    // A node declares itself down, and the bytes end.
    (
        b"\x04\x01\x00\x00\x00\x00\x00\x00\x00\x02\x00\x00\x00\x00\x00\x00\x00\x09\x02\
        \x01\x00\x00\x00\x00\x00\x00\x00",
        WireFaultKind::Short,
        32,
    ),
    // An Up with counter 2, and a byte after it.
    (
        b"\x04\x01\x00\x00\x00\x00\x00\x00\x00\x02\x00\x00\x00\x00\x00\x00\x00\x02\x01\x00",
        WireFaultKind::BadNumber,
        13,
    ),
    // A claim outside its list, a failover without a source.
    (
        b"\x04\x01\x00\x00\x00\x00\x00\x00\x00\x02\x00\x00\x00\x00\x00\x00\x00\x09\x06\
        \x00\x01\x00\x00\x00\x00\x00\x00\x00\x01\x02\x00",
        WireFaultKind::BadNumber,
        42,
    ),
    // A claim outside its list, with counter 1.
    (
        b"\x04\x01\x00\x00\x00\x00\x00\x00\x00\x02\x00\x00\x00\x00\x00\x00\x00\x01\x06\
        \x00\x01\x00\x00\x00\x00\x00\x00\x00\x01\x01\x00",
        WireFaultKind::NotInList,
        31,
    ),
    // A claim with term 0 and without a cause.
    (
        b"\x04\x01\x00\x00\x00\x00\x00\x00\x00\x02\x00\x00\x00\x00\x00\x00\x00\x09\x06\
        \x00\x01\x00\x00\x00\x00\x00\x00\x00\x00\x00\x00",
        WireFaultKind::BadNumber,
        33,
    ),
    // A drain with counter 1 and value 2.
    (
        b"\x04\x01\x00\x00\x00\x00\x00\x00\x00\x02\x00\x00\x00\x00\x00\x00\x00\x01\x07\
        \x00\x00\x00\x00\x00\x00\x00\x00\x03\x02\x00\x00",
        WireFaultKind::BadNumber,
        40,
    ),
    // A drain with counter 1, of descending dots.
    (
        b"\x04\x01\x00\x00\x00\x00\x00\x00\x00\x02\x00\x00\x00\x00\x00\x00\x00\x01\x07\
        \x00\x00\x00\x00\x00\x00\x00\x00\x03\x01\x00\x02\
        \x01\x00\x00\x00\x00\x00\x00\x00\x01\x00\x00\x00\x00\x00\x00\x00\x02\
        \x00\x00\x00\x00\x00\x00\x00\x00\x01\x00\x00\x00\x00\x00\x00\x00\x02",
        WireFaultKind::BadOrder,
        60,
    ),
    // A drain of an unknown node, with incarnation 0.
    (
        b"\x04\x01\x00\x00\x00\x00\x00\x00\x00\x02\x00\x00\x00\x00\x00\x00\x00\x09\x07\
        \x03\x00\x00\x00\x00\x00\x00\x00\x00",
        WireFaultKind::BadName,
        31,
    ),
];

/// The bytes after the header in version 1, and the fault.
const PACKETS_ONE: &[(&[u8], WireFaultKind, usize)] = &[
    // An unknown kind, from an unknown node.
    (b"\x05\x03", WireFaultKind::BadNumber, 12),
    // From an unknown node with incarnation 0.
    (b"\x01\x03\x00\x00\x00\x00", WireFaultKind::BadName, 13),
    // A whole state for one incarnation only, and too many deltas.
    (
        b"\x01\x00\x00\x00\x00\x01\x01\
        \x00\x00\x00\x01\x41\x00\x00\x00\x00\x00\x00\x00",
        WireFaultKind::BadNumber,
        19,
    ),
    // An interval for any incarnation, and too many deltas.
    (
        b"\x02\x00\x00\x00\x00\x01\x01\
        \x00\x00\x00\x00\x41\x00\x00\x00\x00\x00\x00\x00",
        WireFaultKind::BadNumber,
        19,
    ),
    // Too many deltas, and a wrong flag of the acknowledgement.
    (
        b"\x01\x00\x00\x00\x00\x01\x01\
        \x00\x00\x00\x00\x41\x00\x00\x00\x00\x00\x00\x00\x02",
        WireFaultKind::BadNumber,
        23,
    ),
    // Too many deltas acknowledged, of incarnation 0.
    (
        b"\x03\x00\x00\x00\x00\x01\x01\
        \x00\x00\x00\x01\x00\x00\x00\x00\x00\x00\x00\x07\x01\
        \x01\x00\x00\x00\x00\x41\x00\x00\x00\x00\x00\x00\x00",
        WireFaultKind::BadNumber,
        33,
    ),
    // Too many deltas acknowledged, and a byte after the message.
    (
        b"\x03\x00\x00\x00\x00\x01\x01\
        \x00\x00\x00\x01\x00\x00\x00\x00\x00\x00\x00\x07\x01\
        \x01\x00\x00\x00\x01\x41\x00\x00\x00\x00\x00\x00\x00\x00",
        WireFaultKind::BadNumber,
        37,
    ),
    // An operation with counter 0 and an unknown act.
    (
        b"\x04\x01\x00\x00\x00\x02\x00\x00\x00\x00\x00\x00\x00\x00\x00",
        WireFaultKind::BadNumber,
        18,
    ),
    // A start with counter 1, of a key outside its list.
    (
        b"\x04\x01\x00\x00\x00\x02\x00\x00\x00\x00\x00\x00\x00\x01\x04\
        \x00\x01\x00\x00\x00\x00\x03\x00\x00",
        WireFaultKind::NotInList,
        27,
    ),
    // A permit with value 2, of a key outside its list.
    (
        b"\x04\x01\x00\x00\x00\x02\x00\x00\x00\x00\x00\x00\x00\x09\x03\
        \x00\x01\x00\x00\x00\x00\x03\x02",
        WireFaultKind::NotInList,
        27,
    ),
    // A stop with counter 1, of descending dots.
    (
        b"\x04\x01\x00\x00\x00\x02\x00\x00\x00\x00\x00\x00\x00\x01\x05\
        \x00\x00\x00\x00\x00\x00\x03\x00\x02\
        \x01\x00\x00\x00\x01\x00\x00\x00\x00\x00\x00\x00\x02\
        \x00\x00\x00\x00\x01\x00\x00\x00\x00\x00\x00\x00\x02",
        WireFaultKind::BadOrder,
        49,
    ),
    // A stop of its own dot, twice.
    (
        b"\x04\x01\x00\x00\x00\x02\x00\x00\x00\x00\x00\x00\x00\x09\x05\
        \x00\x00\x00\x00\x00\x00\x03\x00\x02\
        \x01\x00\x00\x00\x02\x00\x00\x00\x00\x00\x00\x00\x09\
        \x01\x00\x00\x00\x02\x00\x00\x00\x00\x00\x00\x00\x09",
        WireFaultKind::BadOrder,
        49,
    ),
    // A stop of its own dot, and a byte after it.
    (
        b"\x04\x01\x00\x00\x00\x02\x00\x00\x00\x00\x00\x00\x00\x09\x05\
        \x00\x00\x00\x00\x00\x00\x03\x00\x01\
        \x01\x00\x00\x00\x02\x00\x00\x00\x00\x00\x00\x00\x09\x00",
        WireFaultKind::BadNumber,
        13,
    ),
    // A node declares itself down, with incarnation 0.
    (
        b"\x04\x01\x00\x00\x00\x02\x00\x00\x00\x00\x00\x00\x00\x09\x02\
        \x01\x00\x00\x00\x00",
        WireFaultKind::BadNumber,
        28,
    ),
    // A node declares itself down, and the bytes end.
    (
        b"\x04\x01\x00\x00\x00\x02\x00\x00\x00\x00\x00\x00\x00\x09\x02\
        \x01\x00\x00\x00",
        WireFaultKind::Short,
        28,
    ),
    // An Up with counter 2, and a byte after it.
    (
        b"\x04\x01\x00\x00\x00\x02\x00\x00\x00\x00\x00\x00\x00\x02\x01\x00",
        WireFaultKind::BadNumber,
        13,
    ),
    // A claim outside its list, a failover without a source.
    (
        b"\x04\x01\x00\x00\x00\x02\x00\x00\x00\x00\x00\x00\x00\x09\x06\
        \x00\x01\x00\x00\x00\x00\x00\x00\x00\x01\x02\x00",
        WireFaultKind::BadNumber,
        38,
    ),
    // A claim outside its list, with counter 1.
    (
        b"\x04\x01\x00\x00\x00\x02\x00\x00\x00\x00\x00\x00\x00\x01\x06\
        \x00\x01\x00\x00\x00\x00\x00\x00\x00\x01\x01\x00",
        WireFaultKind::NotInList,
        27,
    ),
    // A claim with term 0 and without a cause.
    (
        b"\x04\x01\x00\x00\x00\x02\x00\x00\x00\x00\x00\x00\x00\x09\x06\
        \x00\x01\x00\x00\x00\x00\x00\x00\x00\x00\x00\x00",
        WireFaultKind::BadNumber,
        29,
    ),
    // A drain, which version 1 doesn't have, with counter 1.
    (
        b"\x04\x01\x00\x00\x00\x02\x00\x00\x00\x00\x00\x00\x00\x01\x07",
        WireFaultKind::BadNumber,
        26,
    ),
];

/// The fault of bytes after a header, if they have one.
fn fault_of(alloc: Global, front: &[u8], fields: &[&[u8]]) -> Option<WireFault> {
    let bytes = bytes_after(alloc, front, fields).ok()?;
    decode(alloc, &config(alloc, LISTS)?, &bytes).err()
}

#[test]
fn two_faults_of_a_beginning(rt: HostRuntime) {
    for (bytes, kind, at) in BEGINNINGS {
        let fault = WireFault {
            kind: *kind,
            at: *at,
        };
        assert!(rt;
            fault_of(rt.alloc(), bytes, &[]) == Some(fault),
            "{bytes:?}"
        );
    }
}

#[test]
fn two_faults_of_a_packet(rt: HostRuntime) {
    for (fields, kind, at) in PACKETS {
        let fault = WireFault {
            kind: *kind,
            at: *at,
        };
        assert!(rt;
            fault_of(rt.alloc(), TWO, &[fields]) == Some(fault),
            "{fields:?}"
        );
    }
}

#[test]
fn two_faults_of_a_packet_in_version_one(rt: HostRuntime) {
    for (fields, kind, at) in PACKETS_ONE {
        let fault = WireFault {
            kind: *kind,
            at: *at,
        };
        assert!(rt;
            fault_of(rt.alloc(), ONE, &[fields]) == Some(fault),
            "{fields:?}"
        );
    }
}

/// The fields of an interval before its state, in version 2: kind 2; from node 0, incarnation 1; to node 1, incarnation
/// 1; seven deltas; no acknowledgement.
const INTERVAL: &[u8] =
    b"\x02\x00\x00\x00\x00\x00\x00\x00\x00\x01\x01\x00\x00\x00\x00\x00\x00\x00\x01\x00\x00\x00\x00\x00\x00\x00\x07\x00";

/// The fields of the interval in version 1.
const INTERVAL_ONE: &[u8] =
    b"\x02\x00\x00\x00\x00\x01\x01\x00\x00\x00\x01\x00\x00\x00\x00\x00\x00\x00\x07\x00";

/// Places in the state and their new bytes, the number of the state's bytes kept, and the fault of the message.
type InMessage = (&'static [(usize, u8)], usize, WireFaultKind, usize);

/// Changes of the state with every piece, which begins at byte 40 of its message. The bytes of the second row end after
/// the known dots.
const WITHIN: &[InMessage] = &[
    (
        &[(101, 2), (102, 0), (152, 1)],
        418,
        WireFaultKind::NotInList,
        191,
    ),
    (&[(83, 2)], 96, WireFaultKind::NotKnown, 136),
    (&[(367, 9), (368, 2)], 418, WireFaultKind::NotKnown, 391),
];

/// Changes in version 1, where the state begins at byte 32.
const WITHIN_ONE: &[InMessage] = &[
    (
        &[(85, 2), (86, 0), (124, 1)],
        262,
        WireFaultKind::NotInList,
        155,
    ),
    (&[(67, 2)], 80, WireFaultKind::NotKnown, 112),
    (&[(243, 0), (244, 9)], 262, WireFaultKind::BadNumber, 275),
];

/// The fault of an interval whose state has these changes.
fn fault_within(alloc: Global, others: &[(usize, u8)], length: usize) -> Option<WireFault> {
    let state = with_others(alloc, FULL, others, length).ok()?;
    fault_of(alloc, TWO, &[INTERVAL, &state])
}

#[test]
fn two_faults_within_a_message(rt: HostRuntime) {
    for (others, length, kind, at) in WITHIN {
        let fault = WireFault {
            kind: *kind,
            at: *at,
        };
        let answer = fault_within(rt.alloc(), others, *length);
        assert!(rt; answer == Some(fault), "{others:?}");
    }
}

/// The fault of the interval in version 1.
fn fault_within_one(alloc: Global, others: &[(usize, u8)], length: usize) -> Option<WireFault> {
    let state = with_others(alloc, FULL_ONE, others, length).ok()?;
    fault_of(alloc, ONE, &[INTERVAL_ONE, &state])
}

#[test]
fn two_faults_within_a_message_in_version_one(rt: HostRuntime) {
    for (others, length, kind, at) in WITHIN_ONE {
        let fault = WireFault {
            kind: *kind,
            at: *at,
        };
        let answer = fault_within_one(rt.alloc(), others, *length);
        assert!(rt; answer == Some(fault), "{others:?}");
    }
}
