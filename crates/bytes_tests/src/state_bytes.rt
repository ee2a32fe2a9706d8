//! States as bytes: a booted node's state in both versions, a state with every piece, and faulty bytes.
use crate::sample::{EXAMPLE, config, dot, origin};
use dac_base::{AppId, NoMemory, NodeId};
use dac_bytes::{ByteWriter, Version};
use dac_config::Config;
use dac_lattice::{Flag, Lattice};
use dac_origins::Dot;
use dac_state::{Claim, How, Key, State, StateFault, StateFaultKind};
use std::alloc::Global;

/// The state of node 1 after its boot.
const BOOTED: &[u8] =
    b"\x00\x01\x01\x00\x00\x00\x00\x00\x00\x00\x01\x00\x00\x00\x00\x00\x00\x00\x01\x00\x00\x00\x00\
    \x00\x01\x01\x00\x00\x00\x00\x00\x00\x00\x01\x00\x00\x00\x00\x00\x00\x00\x01\x00\x00\x00\x00\
    \x00\x00\x00\x00\x00\x00\x00\x00\
    \x01\x01\x00\x00\x00\x00\x00\x00\x00\x01\x00\
    \x00\x00\
    \x00\x00\x00\x00";

/// The state of node 1 after its boot, in version one, which has no drains, and incarnations in four bytes.
const BOOTED_ONE: &[u8] =
    b"\x00\x01\x01\x00\x00\x00\x01\x00\x00\x00\x00\x00\x00\x00\x01\x00\x00\x00\x00\
    \x00\x01\x01\x00\x00\x00\x01\x00\x00\x00\x00\x00\x00\x00\x01\x00\x00\x00\x00\
    \x00\x00\x00\x00\x00\x00\x00\x00\
    \x01\x01\x00\x00\x00\x01\x00\
    \x00\x00";

/// Three nodes and three applications.
pub const LISTS: &[u8] = b"[{kernel,[{distributed,[{p,[a@h,b@h]},{q,[c@h]},{r,[a@h]}]}]}].";

/// A state with every piece, under the configuration of three applications.
pub const FULL: &[u8] = b"\
    \x00\x02\
    \x00\x00\x00\x00\x00\x00\x00\x00\x01\x00\x00\x00\x00\x00\x00\x00\x05\x00\x00\x00\x00\
    \x01\x00\x00\x00\x00\x00\x00\x00\x01\x00\x00\x00\x00\x00\x00\x00\x03\x00\x00\x00\x00\
    \x00\x02\
    \x00\x00\x00\x00\x00\x00\x00\x00\x01\x00\x00\x00\x00\x00\x00\x00\x05\x00\x00\x00\x00\
    \x01\x00\x00\x00\x00\x00\x00\x00\x01\x00\x00\x00\x00\x00\x00\x00\x03\x00\x00\x00\x01\
    \x00\x00\x00\x00\x00\x00\x00\x05\
    \x00\x00\x00\x02\
    \x00\x00\x01\x00\x00\x00\x00\x00\x00\x00\x01\x00\x00\x00\x02\
    \x00\x00\x00\x00\x00\x00\x00\x00\x01\x00\x00\x00\x00\x00\x00\x00\x02\x01\
    \x01\x00\x00\x00\x00\x00\x00\x00\x01\x00\x00\x00\x00\x00\x00\x00\x02\x00\
    \x00\x02\x00\x00\x00\x00\x00\x00\x00\x01\x02\x00\x00\x00\x01\
    \x00\x00\x00\x00\x00\x00\x00\x00\x01\x00\x00\x00\x00\x00\x00\x00\x03\x00\
    \x00\x00\x00\x02\
    \x00\x00\x01\x00\x00\x00\x00\x00\x00\x00\x01\x00\x00\x00\x02\
    \x00\x00\x00\x00\x00\x00\x00\x00\x01\x00\x00\x00\x00\x00\x00\x00\x04\
    \x01\x00\x00\x00\x00\x00\x00\x00\x01\x00\x00\x00\x00\x00\x00\x00\x03\
    \x00\x02\x00\x00\x00\x00\x00\x00\x00\x01\x02\x00\x00\x00\x01\
    \x00\x00\x00\x00\x00\x00\x00\x00\x01\x00\x00\x00\x00\x00\x00\x00\x05\
    \x02\x00\x00\x00\x00\x00\x00\x00\x00\x01\x01\x02\x00\x00\x00\x00\x00\x00\x01\x02\x00\
    \x00\x02\
    \x00\x00\x00\x00\x00\x00\x00\x00\x00\x01\x00\x00\x00\x00\x00\x00\x00\x00\x01\x01\x00\
    \x00\x01\x00\x00\x00\x00\x00\x00\x01\x02\x02\x00\x00\x00\x00\x00\x00\x00\x01\x03\x01\
    \x00\x00\x00\x02\
    \x00\x00\x00\x00\x00\x00\x00\x01\x02\x00\x00\x00\x02\
    \x00\x00\x00\x00\x00\x00\x00\x00\x01\x00\x00\x00\x00\x00\x00\x00\x01\x01\
    \x01\x00\x00\x00\x00\x00\x00\x00\x01\x00\x00\x00\x00\x00\x00\x00\x01\x00\
    \x02\x00\x00\x00\x00\x00\x00\x00\x01\x00\x00\x00\x01\
    \x01\x00\x00\x00\x00\x00\x00\x00\x01\x00\x00\x00\x00\x00\x00\x00\x05\x00";

/// True if the bytes are the encoding of the state that they decode to.
fn is_spelled(alloc: Global, text: &[u8], bytes: &[u8]) -> Option<bool> {
    let state = State::decode(alloc, &config(alloc, text)?, bytes).ok()?;
    let again = state.encode().ok()?;
    Some(again.as_slice() == bytes)
}

#[test]
fn what_is_spelled_is_read(rt: HostRuntime) {
    assert!(rt; is_spelled(rt.alloc(), EXAMPLE, BOOTED) == Some(true));
    assert!(rt; is_spelled(rt.alloc(), LISTS, FULL) == Some(true));
}

/// Application 0 at node 1, incarnation 1.
const FIRST: Key = Key {
    app: AppId(0),
    node: NodeId(1),
    inc: 1,
};

/// Application 2 at node 0, incarnation 258.
const THIRD: Key = Key {
    app: AppId(2),
    node: NodeId(0),
    inc: 258,
};

/// True if the key's permits have these dots and values.
fn are_permits(state: &State, key: Key, permits: &[(Dot, Flag)]) -> bool {
    state.permissions().dots(key) == permits
}

/// True if the key's starts have these dots.
fn are_starts(state: &State, key: Key, starts: &[Dot]) -> bool {
    state.wishes().dots(key) == starts
}

/// True if the permits are those in `FULL`.
fn has_permits(state: &State) -> bool {
    let both = [(dot(0, 1, 2), Flag::Up), (dot(1, 1, 2), Flag::Down)];
    let denied = [(dot(0, 1, 3), Flag::Down)];
    are_permits(state, FIRST, &both) && are_permits(state, THIRD, &denied)
}

/// True if the starts are those in `FULL`.
fn has_starts(state: &State) -> bool {
    let both = [dot(0, 1, 4), dot(1, 1, 3)];
    are_starts(state, FIRST, &both) && are_starts(state, THIRD, &[dot(0, 1, 5)])
}

/// True if the node has this life.
fn lives(state: &State, node: u8, life: Option<(u64, Flag)>) -> bool {
    state.lives().life(NodeId(node)) == life
}

/// True if the lives are those in `FULL`.
fn has_lives(state: &State) -> bool {
    lives(state, 0, Some((1, Flag::Down)))
        && lives(state, 1, None)
        && lives(state, 2, Some((258, Flag::Up)))
}

/// True if the application has this claim.
fn is_claimed(state: &State, app: u16, claim: Claim) -> bool {
    state.claims().greatest(AppId(app)) == Some(claim)
}

/// True if the claims are those in `FULL`.
fn has_claims(state: &State) -> bool {
    let normal = Claim {
        term: 1,
        origin: origin(0, 1),
        how: How::Normal,
        from: None,
    };
    let takeover = Claim {
        term: 258,
        origin: origin(2, 1),
        how: How::Takeover,
        from: Some(NodeId(0)),
    };
    is_claimed(state, 0, normal) && is_claimed(state, 1, takeover)
}

/// True if the incarnation's drains have these dots and values.
fn are_drains(state: &State, node: u8, inc: u64, drains: &[(Dot, Flag)]) -> bool {
    state.drains().dots(NodeId(node), inc) == drains
}

/// True if incarnation 258 of node 0 is drained, and the others aren't.
fn are_drained(state: &State) -> bool {
    let drained = |node, inc| state.drains().drained(NodeId(node), inc);
    drained(0, 258) && !drained(0, 1) && !drained(2, 1)
}

/// True if the drains are those in `FULL`.
fn has_drains(state: &State) -> bool {
    let both = [(dot(0, 1, 1), Flag::Down), (dot(1, 1, 1), Flag::Up)];
    let undone = [(dot(1, 1, 5), Flag::Up)];
    are_drains(state, 0, 258, &both) && are_drains(state, 2, 1, &undone) && are_drained(state)
}

/// True if eight dots are heard and nine known.
fn has_dots(state: &State) -> bool {
    state.heard().len() == 8 && state.known().len() == 9
}

/// The state with every piece.
pub fn full(alloc: Global) -> Option<State> {
    State::decode(alloc, &config(alloc, LISTS)?, FULL).ok()
}

/// True if each piece is that in `FULL`, and the state is its own join.
fn is_full(state: &State) -> Result<bool, NoMemory> {
    Ok(
        has_dots(state)
            && has_permits(state)
            && has_starts(state)
            && has_lives(state)
            && has_claims(state)
            && has_drains(state)
            && state.join(state)?.equal(state),
    )
}

#[test]
fn every_part_is_read(rt: HostRuntime) {
    match full(rt.alloc()) {
        Some(state) => assert!(rt; matches!(is_full(&state), Ok(true))),
        None => assert!(rt; false),
    }
}

/// The fault of the bytes, if they have one.
fn fault_of(alloc: Global, config: &Config, bytes: &[u8]) -> Option<StateFault> {
    State::decode(alloc, config, bytes).err()
}

/// True if the bytes with `others` in place of `from..to` have this fault.
fn has_fault(
    alloc: Global,
    from: usize,
    others: &[u8],
    to: usize,
    fault: StateFault,
) -> Option<bool> {
    let bytes = with_others(alloc, from, others, to).ok()?;
    Some(fault_of(alloc, &config(alloc, EXAMPLE)?, &bytes) == Some(fault))
}

/// The booted node's bytes with `others` in place of `from..to`.
fn with_others(alloc: Global, from: usize, others: &[u8], to: usize) -> Result<Vec<u8>, NoMemory> {
    let mut bytes = Vec::from_slice(alloc, BOOTED)?;
    bytes.truncate(from);
    bytes.extend_from_slice(others)?;
    if let Some(rest) = BOOTED.get(to..) {
        bytes.extend_from_slice(rest)?;
    }
    Ok(bytes)
}

/// Start of the replaced bytes, their replacement, their end, and the fault.
const REPLACED: &[(usize, &[u8], usize, StateFaultKind, usize)] = &[
    (70, &[], 71, StateFaultKind::Short, 67),
    (71, &[0], 71, StateFaultKind::Trailing, 71),
    (64, &[2], 65, StateFaultKind::BadNumber, 64),
    (55, &[3], 56, StateFaultKind::BadName, 55),
    (23, &[0, 0], 46, StateFaultKind::NotKnown, 25),
];

#[test]
fn faults_of_a_node_that_booted(rt: HostRuntime) {
    for (from, others, to, kind, at) in REPLACED {
        let fault = StateFault {
            kind: *kind,
            at: *at,
        };
        let answer = has_fault(rt.alloc(), *from, others, *to, fault);
        assert!(rt; answer == Some(true), "from {from}");
    }
}

/// The bytes with one of them changed.
fn with_byte(alloc: Global, bytes: &[u8], at: usize, byte: u8) -> Result<Vec<u8>, NoMemory> {
    let mut changed = Vec::from_slice(alloc, bytes)?;
    if let Some(there) = changed.get_mut(at) {
        *there = byte;
    }
    Ok(changed)
}

/// A place, its new byte, and the fault of the changed state with every piece.
const CHANGES: &[(usize, u8, StateFaultKind, usize)] = &[
    // Heard: an origin without dots, an unknown one, a descending one, and too great a counter.
    (18, 0, StateFaultKind::BadNumber, 19),
    (23, 3, StateFaultKind::BadName, 23),
    (23, 0, StateFaultKind::BadOrder, 23),
    (11, 0x41, StateFaultKind::BadNumber, 11),
    // Known: a counter that continues the row, and a missing dot.
    (95, 4, StateFaultKind::BadOrder, 88),
    (83, 2, StateFaultKind::NotKnown, 96),
    (100, 1, StateFaultKind::BadName, 100),
    (102, 3, StateFaultKind::BadName, 102),
    (110, 0, StateFaultKind::BadNumber, 103),
    (102, 2, StateFaultKind::NotInList, 100),
    (114, 0, StateFaultKind::BadNumber, 111),
    (133, 0, StateFaultKind::BadOrder, 133),
    (131, 9, StateFaultKind::NotKnown, 115),
    (132, 2, StateFaultKind::BadNumber, 132),
    (152, 0, StateFaultKind::BadOrder, 151),
    (99, 3, StateFaultKind::BadOrder, 184),
    (188, 1, StateFaultKind::BadName, 188),
    (190, 2, StateFaultKind::NotInList, 188),
    (202, 0, StateFaultKind::BadNumber, 199),
    (219, 9, StateFaultKind::NotKnown, 203),
    (219, 0, StateFaultKind::BadNumber, 212),
    (220, 0, StateFaultKind::BadOrder, 220),
    (270, 3, StateFaultKind::BadName, 270),
    (278, 0, StateFaultKind::BadNumber, 271),
    (279, 2, StateFaultKind::BadNumber, 279),
    (280, 0, StateFaultKind::BadOrder, 280),
    (301, 0, StateFaultKind::BadNumber, 294),
    (311, 0, StateFaultKind::BadNumber, 311),
    (312, 1, StateFaultKind::BadNumber, 312),
    (312, 4, StateFaultKind::BadName, 312),
    (314, 0, StateFaultKind::NotInList, 313),
    (333, 0, StateFaultKind::BadNumber, 333),
    (291, 3, StateFaultKind::BadNumber, 353),
    (291, 1, StateFaultKind::BadNumber, 326),
    (338, 3, StateFaultKind::BadName, 338),
    (395, 0, StateFaultKind::BadNumber, 388),
    (387, 0, StateFaultKind::BadOrder, 387),
    (350, 0, StateFaultKind::BadNumber, 347),
    (351, 3, StateFaultKind::BadName, 351),
    (369, 0, StateFaultKind::BadOrder, 369),
    (367, 9, StateFaultKind::NotKnown, 351),
    (368, 2, StateFaultKind::BadNumber, 368),
    (337, 3, StateFaultKind::Short, 418),
    (337, 1, StateFaultKind::Trailing, 387),
];

/// The fault of the state with every piece and one byte changed.
fn fault_of_change(alloc: Global, place: usize, byte: u8) -> Option<StateFault> {
    let bytes = with_byte(alloc, FULL, place, byte).ok()?;
    fault_of(alloc, &config(alloc, LISTS)?, &bytes)
}

#[test]
fn faults_of_every_part(rt: HostRuntime) {
    for (place, byte, kind, at) in CHANGES {
        let fault = StateFault {
            kind: *kind,
            at: *at,
        };
        let answer = fault_of_change(rt.alloc(), *place, *byte);
        assert!(rt; answer == Some(fault), "byte {place}");
    }
}

/// True if the prefix of this length is too short.
fn is_short(alloc: Global, config: &Config, bytes: &[u8], length: usize) -> bool {
    let (front, _) = bytes.split_at(length.min(bytes.len()));
    match fault_of(alloc, config, front) {
        Some(fault) => fault.kind == StateFaultKind::Short,
        None => false,
    }
}

/// True if every proper prefix is too short.
fn all_are_short(alloc: Global, text: &[u8], bytes: &[u8]) -> Option<bool> {
    let config = config(alloc, text)?;
    for length in 0..bytes.len() {
        if !is_short(alloc, &config, bytes, length) {
            return Some(false);
        }
    }
    Some(true)
}

#[test]
fn a_front_is_short(rt: HostRuntime) {
    assert!(rt; all_are_short(rt.alloc(), EXAMPLE, BOOTED) == Some(true));
    assert!(rt; all_are_short(rt.alloc(), LISTS, FULL) == Some(true));
}

/// True if the bytes are refused, or are the encoding of the state that they decode to.
fn is_refused_or_spelled(alloc: Global, config: &Config, bytes: &[u8]) -> Result<bool, NoMemory> {
    match State::decode(alloc, config, bytes) {
        Ok(state) => Ok(state.encode()?.as_slice() == bytes),
        Err(_) => Ok(true),
    }
}

/// True if, with any one byte changed to `byte`, they are refused or the encoding of another state.
fn all_are_refused_or_spelled(alloc: Global, text: &[u8], bytes: &[u8], byte: u8) -> Option<bool> {
    let config = config(alloc, text)?;
    for at in 0..bytes.len() {
        let bytes = with_byte(alloc, bytes, at, byte).ok()?;
        if !is_refused_or_spelled(alloc, &config, &bytes).ok()? {
            return Some(false);
        }
    }
    Some(true)
}

#[test]
fn one_byte_changed(rt: HostRuntime) {
    for byte in 0..=255 {
        let answer = all_are_refused_or_spelled(rt.alloc(), EXAMPLE, BOOTED, byte);
        assert!(rt; answer == Some(true), "{byte}");
    }
}

#[test]
fn one_byte_changed_in_every_part(rt: HostRuntime) {
    for byte in &[0, 1, 2, 3, 4, 64, 255] {
        let answer = all_are_refused_or_spelled(rt.alloc(), LISTS, FULL, *byte);
        assert!(rt; answer == Some(true), "{byte}");
    }
}

/// The state of node 1 after its boot, with all counters up to the greatest heard.
const MOST: &[u8] =
    b"\x00\x01\x01\x00\x00\x00\x00\x00\x00\x00\x01\x40\x00\x00\x00\x00\x00\x00\x00\x00\x00\x00\x00\
    \x00\x01\x01\x00\x00\x00\x00\x00\x00\x00\x01\x40\x00\x00\x00\x00\x00\x00\x00\x00\x00\x00\x00\
    \x00\x00\x00\x00\x00\x00\x00\x00\
    \x01\x01\x00\x00\x00\x00\x00\x00\x00\x01\x00\
    \x00\x00\
    \x00\x00\x00\x00";

/// True if all 2^62 counters are heard.
fn are_used_up(state: &State) -> bool {
    state.heard().len() == 1 << 62 && state.heard().next(origin(1, 1)).is_none()
}

/// True if `MOST` decodes to that state, which is its own join.
fn is_read(alloc: Global) -> Option<bool> {
    let state = State::decode(alloc, &config(alloc, EXAMPLE)?, MOST).ok()?;
    let joined = state.join(&state).ok()?;
    Some(are_used_up(&state) && joined.equal(&state))
}

#[test]
fn as_many_counters_as_there_can_be(rt: HostRuntime) {
    assert!(rt; is_read(rt.alloc()) == Some(true));
    assert!(rt; is_spelled(rt.alloc(), EXAMPLE, MOST) == Some(true));
}

/// The bytes of a state in version one.
fn in_version_one(alloc: Global, state: &State) -> Result<Vec<u8>, NoMemory> {
    let written = state.write(ByteWriter::new(alloc), Version::One)?;
    Ok(written.into_bytes())
}

/// True if the booted node's bytes of version one decode to the state of those of version two, and are written again.
fn is_read_in_version_one(alloc: Global) -> Option<bool> {
    let config = config(alloc, EXAMPLE)?;
    let state = State::decode_1(alloc, &config, BOOTED_ONE).ok()?;
    let newer = State::decode(alloc, &config, BOOTED).ok()?;
    let bytes = in_version_one(alloc, &state).ok()?;
    Some(state.equal(&newer) && bytes.as_slice() == BOOTED_ONE)
}

#[test]
fn a_node_that_booted_in_version_one(rt: HostRuntime) {
    assert!(rt; is_read_in_version_one(rt.alloc()) == Some(true));
}

/// The fault of the bytes in version one, if they have one.
fn refused_in_version_one(alloc: Global, bytes: &[u8]) -> Option<StateFault> {
    State::decode_1(alloc, &config(alloc, EXAMPLE)?, bytes).err()
}

/// The fault in version one after one byte changed.
fn fault_in_version_one(alloc: Global, place: usize, byte: u8) -> Option<StateFault> {
    let bytes = with_byte(alloc, BOOTED_ONE, place, byte).ok()?;
    refused_in_version_one(alloc, &bytes)
}

/// The fault in version one of drains at the end, an empty list as in version two.
fn fault_of_drains_in_version_one(alloc: Global) -> Option<StateFault> {
    let mut bytes = Vec::from_slice(alloc, BOOTED_ONE).ok()?;
    bytes.extend_from_slice(&[0, 0, 0, 0]).ok()?;
    refused_in_version_one(alloc, &bytes)
}

#[test]
fn faults_in_version_one(rt: HostRuntime) {
    let number = StateFault {
        kind: StateFaultKind::BadNumber,
        at: 52,
    };
    let name = StateFault {
        kind: StateFaultKind::BadName,
        at: 47,
    };
    let trailing = StateFault {
        kind: StateFaultKind::Trailing,
        at: 55,
    };
    assert!(rt; fault_in_version_one(rt.alloc(), 52, 2) == Some(number));
    assert!(rt; fault_in_version_one(rt.alloc(), 47, 3) == Some(name));
    assert!(rt; fault_of_drains_in_version_one(rt.alloc()) == Some(trailing));
}
