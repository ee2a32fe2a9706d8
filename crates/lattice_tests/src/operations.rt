//! Operations: refusals, and the parts that each piece uses.
use crate::sample::dot;
use dac_base::{AppId, NoMemory, NodeId};
use dac_chains::{ClaimAct, How, LifeAct};
use dac_operations::{Act, Op, OpFault};
use dac_origins::Dot;
use dac_wishes::{DotList, Key};
use std::alloc::Global;

const KEY: Key = Key {
    app: AppId(0),
    node: NodeId(1),
    inc: 1,
};

/// An act without the dots that it replaces.
#[derive(Clone, Copy)]
enum Kind {
    Up,
    Down(u8),
    Permit,
    Start,
    Stop,
    Claim,
    Drain(u8),
}

/// The dots of these nodes and counters.
fn dots(alloc: Global, over: &[(u8, u64)]) -> Result<Vec<Dot>, NoMemory> {
    let mut dots = Vec::new(alloc);
    for (node, n) in over {
        dots.push(dot(*node, *n))?;
    }
    Ok(dots)
}

/// The act of a kind that replaces these dots.
fn act(kind: Kind, over: DotList) -> Act {
    let key = KEY;
    match kind {
        Kind::Up => Act::Up,
        Kind::Down(node) => Act::Down {
            node: NodeId(node),
            inc: 4,
        },
        Kind::Permit => Act::Permit {
            key,
            value: true,
            over,
        },
        Kind::Start => Act::Start { key, over },
        Kind::Stop => Act::Stop { key, over },
        Kind::Claim => Act::Claim {
            app: AppId(3),
            term: 7,
            how: How::Takeover,
            from: Some(NodeId(2)),
        },
        Kind::Drain(node) => Act::Drain {
            node: NodeId(node),
            inc: 1,
            value: true,
            over,
        },
    }
}

/// The operation of node 0 with this counter and act.
fn operation(
    alloc: Global,
    n: u64,
    kind: Kind,
    over: &[(u8, u64)],
) -> Result<Result<Op, OpFault>, NoMemory> {
    let over = DotList::new(dots(alloc, over)?);
    Ok(Op::new(dot(0, n), act(kind, over)))
}

/// True if building this operation of node 0 fails with `fault`, or succeeds if it's `None`.
fn is_fault(
    alloc: Global,
    n: u64,
    kind: Kind,
    over: &[(u8, u64)],
    fault: Option<OpFault>,
) -> Result<bool, NoMemory> {
    Ok(operation(alloc, n, kind, over)?.err() == fault)
}

/// Counter, kind and replaced dots of an operation of node 0, and its fault.
const FAULTS: &[(&str, u64, Kind, &[(u8, u64)], Option<OpFault>)] = &[
    ("own", 2, Kind::Start, &[(0, 2)], Some(OpFault::OwnDot)),
    (
        "own first",
        2,
        Kind::Stop,
        &[(1, 2), (0, 2)],
        Some(OpFault::OwnDot),
    ),
    (
        "falling",
        2,
        Kind::Start,
        &[(1, 2), (1, 1)],
        Some(OpFault::BadOver),
    ),
    (
        "twice",
        1,
        Kind::Permit,
        &[(1, 1), (1, 1)],
        Some(OpFault::BadOver),
    ),
    (
        "start first",
        1,
        Kind::Start,
        &[],
        Some(OpFault::BadCounter),
    ),
    ("late up", 2, Kind::Up, &[], Some(OpFault::BadCounter)),
    (
        "down first",
        1,
        Kind::Down(0),
        &[],
        Some(OpFault::BadCounter),
    ),
    (
        "claim first",
        1,
        Kind::Claim,
        &[],
        Some(OpFault::BadCounter),
    ),
    ("self", 2, Kind::Down(0), &[], Some(OpFault::OnSelf)),
    ("other", 2, Kind::Down(1), &[], None),
    ("up", 1, Kind::Up, &[], None),
];

#[test]
fn first_fault_is_told(rt: HostRuntime) {
    for (name, n, kind, over, fault) in FAULTS {
        let answer = is_fault(rt.alloc(), *n, *kind, over, *fault);
        assert!(rt; matches!(answer, Ok(true)), "{name}");
    }
}

/// Counter, node and replaced dots of a drain by node 0, which can drain itself, and its fault.
const DRAINS: &[(&str, u64, u8, &[(u8, u64)], Option<OpFault>)] = &[
    ("own", 2, 1, &[(0, 2)], Some(OpFault::OwnDot)),
    (
        "own, falling",
        2,
        1,
        &[(1, 2), (0, 2)],
        Some(OpFault::OwnDot),
    ),
    ("falling", 2, 1, &[(1, 2), (1, 1)], Some(OpFault::BadOver)),
    ("twice", 2, 1, &[(1, 1), (1, 1)], Some(OpFault::BadOver)),
    (
        "twice, first",
        1,
        1,
        &[(1, 1), (1, 1)],
        Some(OpFault::BadOver),
    ),
    ("first", 1, 1, &[], Some(OpFault::BadCounter)),
    ("first, of itself", 1, 0, &[], Some(OpFault::BadCounter)),
    ("of two", 2, 1, &[(1, 1), (1, 2)], None),
    ("of itself", 2, 0, &[(0, 1), (1, 1)], None),
];

#[test]
fn first_fault_of_a_drain_is_told(rt: HostRuntime) {
    for (name, n, node, over, fault) in DRAINS {
        let answer = is_fault(rt.alloc(), *n, Kind::Drain(*node), over, *fault);
        assert!(rt; matches!(answer, Ok(true)), "{name}");
    }
}

/// True if an operation that replaces `count` dots has this fault.
fn is_fault_of_many(
    alloc: Global,
    kind: Kind,
    count: u64,
    fault: Option<OpFault>,
) -> Result<bool, NoMemory> {
    let mut over = Vec::new(alloc);
    for n in 0..count.min(2_000) {
        over.push((1, n + 1))?;
    }
    is_fault(alloc, 2, kind, &over, fault)
}

/// Kind, number of replaced dots, and fault.
const MANY: &[(Kind, u64, Option<OpFault>)] = &[
    (Kind::Stop, 1_024, None),
    (Kind::Stop, 1_025, Some(OpFault::BadOver)),
    (Kind::Drain(1), 1_024, None),
    (Kind::Drain(1), 1_025, Some(OpFault::BadOver)),
];

#[test]
fn most_replaced(rt: HostRuntime) {
    for (kind, count, fault) in MANY {
        let answer = is_fault_of_many(rt.alloc(), *kind, *count, *fault);
        assert!(rt; matches!(answer, Ok(true)), "{count} dots");
    }
}

/// True if the wish, permit and drain acts replace exactly these dots.
fn is_over(alloc: Global, op: &Op, over: &[Dot]) -> Result<bool, NoMemory> {
    Ok(
        op.act().over() == over
            && op.wish_act(alloc)?.over() == over
            && op.permit_act(alloc)?.over() == over
            && op.drain_act(alloc)?.over() == over,
    )
}

/// True if the copy of an operation still replaces its dot.
fn is_seen_to_replace(alloc: Global, kind: Kind) -> Result<bool, NoMemory> {
    match operation(alloc, 2, kind, &[(1, 1)])? {
        Ok(op) => is_over(alloc, &op.copy()?, &[dot(1, 1)]),
        Err(_) => Ok(false),
    }
}

#[test]
fn replaced_dots_are_seen(rt: HostRuntime) {
    for kind in [Kind::Permit, Kind::Start, Kind::Stop, Kind::Drain(1)] {
        assert!(rt; matches!(is_seen_to_replace(rt.alloc(), kind), Ok(true)));
    }
}

/// True if an operation of node 0 has these acts on lives and claims.
fn is_seen(
    alloc: Global,
    n: u64,
    kind: Kind,
    life: LifeAct,
    claim: ClaimAct,
) -> Result<bool, NoMemory> {
    match operation(alloc, n, kind, &[])? {
        Ok(op) => Ok(sees(&op, life, claim) && op.dot() == dot(0, n)),
        Err(_) => Ok(false),
    }
}

/// True if an operation has these acts on lives and claims.
fn sees(op: &Op, life: LifeAct, claim: ClaimAct) -> bool {
    op.tells_invariant();
    op.life_act() == life
        && op.claim_act() == claim
        && op.act().reports_up() == (life == LifeAct::Up)
}

/// Counter and kind of an operation, and its acts on lives and claims.
const SEEN: &[(u64, Kind, LifeAct, ClaimAct)] = &[
    (1, Kind::Up, LifeAct::Up, ClaimAct::Other),
    (
        2,
        Kind::Down(1),
        LifeAct::Down {
            node: NodeId(1),
            inc: 4,
        },
        ClaimAct::Other,
    ),
    (
        3,
        Kind::Claim,
        LifeAct::Other,
        ClaimAct::Claim {
            app: AppId(3),
            term: 7,
            how: How::Takeover,
            from: Some(NodeId(2)),
        },
    ),
];

#[test]
fn lives_and_claims_are_seen(rt: HostRuntime) {
    for (n, kind, life, claim) in SEEN {
        let answer = is_seen(rt.alloc(), *n, *kind, *life, *claim);
        assert!(rt; matches!(answer, Ok(true)), "by counter {n}");
    }
}
