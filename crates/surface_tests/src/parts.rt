//! `dac_chains`, `dac_wishes` and `dac_state`.
use crate::lattices::{FIRST, ORIGIN, SECOND};
use crate::texts::TWO;
use dac_chains::{Claim, Claims, How, Lives};
use dac_config::{AppId, Config, NoMemory, NodeId, read_config};
use dac_dots::{Context, Dot};
use dac_lattice::{Bottom, Flag, Lattice, Piece};
use dac_state::{Act, DotList, Op, OpFault, State, StateFault, StateFaultKind};
use dac_store::LastStep;
use dac_wishes::{
    AbsorbStanding, DrainAct, Drains, DrainsRef, Key, Permissions, PermissionsRef, PermitAct,
    StandingWrites, WishAct, Wishes, WishesRef,
};
use std::alloc::Global;

/// The first application at the first node.
const KEY: Key = Key {
    app: AppId(0),
    node: NodeId(0),
    inc: 1,
};

/// The delta of an operation, called through the bound.
pub fn delta_of<P: Piece>(alloc: Global, dot: Dot, act: &P::Act) -> Result<P, NoMemory> {
    P::delta(alloc, dot, act)
}

/// The state after the first node came up.
pub fn up(alloc: Global) -> Option<State> {
    let op: Op = Op::new(FIRST, Act::Up).ok()?;
    let op: Op = op.copy().ok()?;
    State::delta_of(alloc, &op).ok()
}

/// True if the pieces say only that the node is up.
fn is_up_alone(
    lives: &Lives,
    claims: &Claims,
    permissions: &PermissionsRef<'_>,
    wishes: &WishesRef<'_>,
) -> bool {
    let life: Option<(u64, Flag)> = lives.life(NodeId(0));
    let claim: Option<Claim> = claims.greatest(AppId(0));
    life == Some((1, Flag::Up))
        && lives.live(NodeId(0)) == Some(1)
        && claim.is_none()
        && permissions.permitted(KEY, true)
        && permissions.dots(KEY).is_empty()
        && !wishes.wished(KEY)
        && wishes.dots(KEY).is_empty()
}

/// True if the node isn't drained.
fn is_not_drained(drains: &DrainsRef<'_>) -> bool {
    !drains.drained(NodeId(0), 1) && drains.dots(NodeId(0), 1).is_empty()
}

/// True if only the node's first operation is heard and known.
fn heard_one(state: &State) -> bool {
    let heard: &Context = state.heard();
    let known: &Context = state.known();
    heard.len() == 1 && known.contains(FIRST)
}

/// True if a state is read from its bytes, and these aren't valid in the older version.
fn is_read(alloc: Global, config: &Config, state: &State) -> Option<bool> {
    let bytes: Vec<u8> = state.encode().ok()?;
    let read: State = State::decode(alloc, config, bytes.as_slice()).ok()?;
    let fault: Option<StateFault> = State::decode_1(alloc, config, bytes.as_slice()).err();
    let kind: Option<StateFaultKind> = fault.map(|fault| fault.kind);
    Some(read.equal(state) && kind.is_some())
}

/// True if all readers of a state agree that one node came up.
fn is_told(alloc: Global) -> Option<bool> {
    let config = read_config(alloc, TWO).ok()?;
    let state = State::bottom(alloc).join(&up(alloc)?).ok()?.copy().ok()?;
    let parts = is_up_alone(
        state.lives(),
        state.claims(),
        &state.permissions(),
        &state.wishes(),
    );
    Some(
        parts
            && is_not_drained(&state.drains())
            && heard_one(&state)
            && is_read(alloc, &config, &state)?,
    )
}

/// True if the least state that absorbs another one equals it, with its parts.
fn is_absorbed(alloc: Global) -> Option<bool> {
    let mut state = State::bottom(alloc);
    let up: State = up(alloc)?;
    state.absorb(&up).ok()?;
    Some(state.equal(&up) && are_pieces_absorbed(alloc).ok()?)
}

/// True if wishes that absorb others equal these, from none.
fn are_wishes_absorbed(alloc: Global, other: &Wishes) -> Result<bool, NoMemory> {
    let mut wishes = Wishes::bottom(alloc);
    let union: Context = wishes.context().union(other.context())?;
    wishes.absorb_with_context(other, union)?;
    Ok(wishes.equal(other))
}

/// The same of permissions.
fn are_permissions_absorbed(alloc: Global, other: &Permissions) -> Result<bool, NoMemory> {
    let mut permissions = Permissions::bottom(alloc);
    let union: Context = permissions.context().union(other.context())?;
    permissions.absorb_with_context(other, union)?;
    Ok(permissions.equal(other))
}

/// The same of drains.
fn are_drains_absorbed(alloc: Global, other: &Drains) -> Result<bool, NoMemory> {
    let mut drains = Drains::bottom(alloc);
    let union: Context = drains.context().union(other.context())?;
    drains.absorb_with_context(other, union)?;
    Ok(drains.equal(other))
}

/// True if each piece of the first operation is absorbed.
fn are_pieces_absorbed(alloc: Global) -> Result<bool, NoMemory> {
    let none = || DotList::new(Vec::new(alloc));
    let wishes: Wishes = delta_of(alloc, FIRST, &WishAct::Other { over: none() })?;
    let permissions: Permissions = delta_of(alloc, FIRST, &PermitAct::Other { over: none() })?;
    let drains: Drains = delta_of(alloc, FIRST, &DrainAct::Other { over: none() })?;
    Ok(
        are_wishes_absorbed(alloc, &wishes)?
            && are_permissions_absorbed(alloc, &permissions)?
            && are_drains_absorbed(alloc, &drains)?,
    )
}

/// True if what stands of a start is absorbed by nothing.
fn is_start_absorbed(alloc: Global) -> Result<bool, NoMemory> {
    let started: StandingWrites = StandingWrites::delta(alloc, FIRST, &[], None, Some(KEY), None)?;
    let mut standing = StandingWrites::nothing(alloc);
    AbsorbStanding { other: &started }.take(&mut standing)?;
    Ok(
        standing.knows_same(&started)
            && standing.equal_with_contexts(&started)
            && standing.wishes().wished(KEY),
    )
}

/// The fault of an act that replaces its own dot.
fn fault_of(alloc: Global) -> Option<OpFault> {
    let over = DotList::new(Vec::from_slice(alloc, &[SECOND]).ok()?);
    Op::new(SECOND, Act::Start { key: KEY, over }).err()
}

/// The acts other than `Up` and `Start`.
fn acts(alloc: Global) -> [Act; 5] {
    let none = || DotList::new(Vec::new(alloc));
    [
        Act::Down {
            node: NodeId(1),
            inc: 1,
        },
        Act::Permit {
            key: KEY,
            value: true,
            over: none(),
        },
        Act::Stop {
            key: KEY,
            over: none(),
        },
        Act::Drain {
            node: NodeId(0),
            inc: 1,
            value: true,
            over: none(),
        },
        Act::Claim {
            app: AppId(0),
            term: 1,
            how: How::Normal,
            from: None,
        },
    ]
}

/// True if each of these acts makes an operation.
fn are_operations(alloc: Global) -> bool {
    let [down, permit, stop, drain, claim] = acts(alloc);
    Op::new(SECOND, down).is_ok()
        && Op::new(SECOND, permit).is_ok()
        && Op::new(SECOND, stop).is_ok()
        && Op::new(SECOND, drain).is_ok()
        && Op::new(SECOND, claim).is_ok()
}

#[test]
fn states(rt: HostRuntime) {
    assert!(rt; is_told(rt.alloc()) == Some(true));
    assert!(rt; is_absorbed(rt.alloc()) == Some(true));
    assert!(rt; is_start_absorbed(rt.alloc()) == Ok(true));
    assert!(rt; ORIGIN == FIRST.origin);
}

#[test]
fn operations(rt: HostRuntime) {
    assert!(rt; fault_of(rt.alloc()) == Some(OpFault::OwnDot));
    assert!(rt; are_operations(rt.alloc()));
}
