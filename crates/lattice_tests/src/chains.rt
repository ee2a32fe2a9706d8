//! Lives and claims.
use crate::sample::{dot, is_joined_above, origin};
use dac_base::{AppId, NoMemory, NodeId};
use dac_chains::{Claim, ClaimAct, Claims, How, Life, LifeAct, Lives};
use dac_lattice::pieces::join_deltas;
use dac_lattice::{Bottom, Flag, Lattice, Piece};
use std::alloc::Global;

const APP: AppId = AppId(0);

const A: NodeId = NodeId(0);

const C: NodeId = NodeId(2);

/// A claim by a node's first incarnation.
fn claim(node: u8, term: u64, how: How, from: Option<NodeId>) -> Claim {
    Claim {
        term,
        origin: origin(node),
        how,
        from,
    }
}

/// The claim as an act on `APP`.
fn act(claim: Claim) -> ClaimAct {
    ClaimAct::Claim {
        app: APP,
        term: claim.term,
        how: claim.how,
        from: claim.from,
    }
}

/// The delta of a claim.
fn claims_of(alloc: Global, claim: Claim) -> Result<Claims, NoMemory> {
    Claims::delta(alloc, dot(claim.origin.node.0, 2), &act(claim))
}

/// The claim that remains after the second is joined to the first.
fn greater(alloc: Global, first: Claim, second: Claim) -> Result<Option<Claim>, NoMemory> {
    let both = claims_of(alloc, first)?.join(&claims_of(alloc, second)?)?;
    Ok(both.greatest(APP))
}

/// True if the second claim wins in either order.
fn wins(alloc: Global, low: Claim, high: Claim) -> Result<bool, NoMemory> {
    let wanted = Some(high);
    Ok(greater(alloc, low, high)? == wanted && greater(alloc, high, low)? == wanted)
}

/// Node, term, cause and previous node of two claims, the losing one first.
type Said = (u8, u64, How, Option<NodeId>);

const CLAIMS: &[(Said, Said)] = &[
    ((0, 1, How::Takeover, Some(C)), (2, 1, How::Normal, None)),
    ((2, 1, How::Normal, None), (0, 2, How::Normal, None)),
    ((2, 1, How::Normal, None), (2, 1, How::Failover, None)),
    ((2, 1, How::Failover, Some(C)), (2, 1, How::Takeover, None)),
    ((2, 1, How::Normal, None), (2, 1, How::Normal, Some(A))),
];

#[test]
fn greater_claim_wins(rt: HostRuntime) {
    for (low, high) in CLAIMS {
        let low = claim(low.0, low.1, low.2, low.3);
        let high = claim(high.0, high.1, high.2, high.3);
        assert!(rt; matches!(wins(rt.alloc(), low, high), Ok(true)), "{high:?}");
    }
}

/// True if claims of two applications are both in the join.
fn claims_are_joined(alloc: Global, claim: Claim) -> Result<bool, NoMemory> {
    let first: Claims = join_deltas(alloc, &[(dot(0, 2), act(claim))])?;
    let both = first.join(&Claims::one(alloc, AppId(1), claim)?)?;
    Ok(both.entries().len() == 2 && is_joined_above(alloc, &first, &both)?)
}

#[test]
fn claims_of_two_applications(rt: HostRuntime) {
    assert!(rt;
        matches!(
            claims_are_joined(rt.alloc(), claim(0, 1, How::Normal, None)),
            Ok(true)
        )
    );
}

/// The join of these acts of node 1.
fn lives_after(alloc: Global, acts: &[LifeAct]) -> Result<Lives, NoMemory> {
    let mut lives = Lives::bottom(alloc);
    for act in acts {
        lives = lives.join(&Lives::delta(alloc, dot(1, 2), act)?)?;
    }
    Ok(lives)
}

/// True if the first node is down and the second up.
fn are_down_and_up(lives: &Lives) -> bool {
    lives.life(A) == Some((1, Flag::Down)) && lives.live(NodeId(1)) == Some(1)
}

/// True if a `Down` is above the life that it ends.
fn is_ended(alloc: Global) -> Result<bool, NoMemory> {
    let up = Life {
        inc: 1,
        flag: Flag::Up,
    };
    let down = LifeAct::Down { node: A, inc: 1 };
    let gone = lives_after(alloc, &[down, LifeAct::Up, LifeAct::Other])?;
    let is_above = is_joined_above(alloc, &Lives::one(alloc, A, up)?, &gone)?;
    Ok(is_above && are_down_and_up(&gone) && gone.entries().len() == 2)
}

#[test]
fn down_is_above_up_of_its_incarnation(rt: HostRuntime) {
    assert!(rt; matches!(is_ended(rt.alloc()), Ok(true)));
}
