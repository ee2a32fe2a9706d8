//! Permissions and wishes of a few operations.
use crate::sample::{context_of, dot, is_joined_above, origin};
use dac_base::{AppId, NoMemory, NodeId};
use dac_lattice::{Bottom, Flag, Lattice, Piece};
use dac_origins::Dot;
use dac_store::{Causal, DotFun, DotMap, DotSet};
use dac_wishes::{DotList, DrainAct, Drains, Key, Permissions, PermitAct, WishAct, Wishes};
use std::alloc::Global;

/// Application 0 at node 1, incarnation 1.
const KEY: Key = Key {
    app: AppId(0),
    node: NodeId(1),
    inc: 1,
};

/// The delta of an operation, called through the bound.
fn delta_of<P: Piece>(alloc: Global, dot: Dot, act: &P::Act) -> Result<P, NoMemory> {
    P::delta(alloc, dot, act)
}

/// The delta of a start.
fn start_of(alloc: Global, dot: Dot) -> Result<Wishes, NoMemory> {
    let over = DotList::new(Vec::new(alloc));
    delta_of(alloc, dot, &WishAct::Start { key: KEY, over })
}

/// The delta of a stop that ends the start of a dot.
fn stop_of(alloc: Global, dot: Dot, start: Dot) -> Result<Wishes, NoMemory> {
    let over = DotList::new(Vec::from_slice(alloc, &[start])?);
    delta_of(alloc, dot, &WishAct::Other { over })
}

/// The delta of a permit.
fn permit_of(alloc: Global, dot: Dot, value: bool) -> Result<Permissions, NoMemory> {
    let over = DotList::new(Vec::new(alloc));
    let key = KEY;
    delta_of(alloc, dot, &PermitAct::Permit { key, value, over })
}

/// True if exactly these starts stand, and `known` dots are known.
fn has(wishes: &Wishes, dots: &[Dot], known: u128) -> bool {
    wishes.dots(KEY) == dots
        && wishes.wished(KEY) != dots.is_empty()
        && wishes.context().len() == known
}

/// True if these starts are left after joining one with a stop of the dot (0, 2).
fn is_left(alloc: Global, start: Dot, dots: &[Dot], known: u128) -> Result<bool, NoMemory> {
    let started = start_of(alloc, start)?;
    let joined = stop_of(alloc, dot(0, 3), dot(0, 2))?.join(&started)?;
    Ok(has(&joined, dots, known) && is_joined_above(alloc, &started, &joined)?)
}

#[test]
fn a_stop_ends_what_it_names(rt: HostRuntime) {
    let answer = is_left(rt.alloc(), dot(0, 2), &[], 2);
    assert!(rt; matches!(answer, Ok(true)));
    let answer = is_left(rt.alloc(), dot(1, 2), &[dot(1, 2)], 3);
    assert!(rt; matches!(answer, Ok(true)));
}

/// True if `false` wins over a concurrent `true`.
fn false_wins(alloc: Global) -> Result<bool, NoMemory> {
    let granted = permit_of(alloc, dot(0, 2), true)?;
    let joined = granted.join(&permit_of(alloc, dot(1, 2), false)?)?;
    Ok(
        !joined.permitted(KEY, true)
            && has_two(&joined)
            && is_joined_above(alloc, &granted, &joined)?,
    )
}

/// True if two permits stand and two dots are known.
fn has_two(permissions: &Permissions) -> bool {
    permissions.dots(KEY).len() == 2 && permissions.context().len() == 2
}

#[test]
fn false_wins_among_permits(rt: HostRuntime) {
    assert!(rt; matches!(false_wins(rt.alloc()), Ok(true)));
}

/// True if a permit overrides the default, which holds without one.
fn is_overruled(alloc: Global) -> Result<bool, NoMemory> {
    let nothing = Permissions::bottom(alloc);
    let granted = permit_of(alloc, dot(0, 2), true)?;
    Ok(
        granted.permitted(KEY, false)
            && nothing.permitted(KEY, true)
            && !nothing.permitted(KEY, false),
    )
}

#[test]
fn a_permit_overrules_the_default(rt: HostRuntime) {
    assert!(rt; matches!(is_overruled(rt.alloc()), Ok(true)));
}

/// The start of the dot (0, 2), built from its store.
fn kept_start(alloc: Global) -> Option<Wishes> {
    let starts = DotSet::one(alloc, dot(0, 2)).ok()?;
    let store = DotMap::one(alloc, KEY, starts).ok()?;
    let causal = Causal::new(store, context_of(alloc, &[2]).ok()?).ok()?;
    Some(Wishes::new(causal))
}

/// The permit of the dot (0, 2), built from its store.
fn kept_permit(alloc: Global) -> Option<Permissions> {
    let permits = DotFun::one(alloc, dot(0, 2), Flag::Up).ok()?;
    let store = DotMap::one(alloc, KEY, permits).ok()?;
    let causal = Causal::new(store, context_of(alloc, &[2]).ok()?).ok()?;
    Some(Permissions::new(causal))
}

/// True if the built start equals the delta of a start.
fn is_start(alloc: Global) -> Option<bool> {
    let kept = kept_start(alloc)?;
    Some(kept.len() == 1 && kept.equal(&start_of(alloc, dot(0, 2)).ok()?))
}

/// True if the built permit equals the delta of a permit.
fn is_permit(alloc: Global) -> Option<bool> {
    let kept = kept_permit(alloc)?;
    Some(kept.len() == 1 && kept.equal(&permit_of(alloc, dot(0, 2), true).ok()?))
}

#[test]
fn starts_and_permits_by_key(rt: HostRuntime) {
    assert!(rt; is_start(rt.alloc()) == Some(true));
    assert!(rt; is_permit(rt.alloc()) == Some(true));
}

/// True if a stop is absorbed as it is joined.
fn a_stop_is_absorbed(alloc: Global) -> Result<bool, NoMemory> {
    let mut wishes = start_of(alloc, dot(0, 2))?;
    let stop = stop_of(alloc, dot(0, 3), dot(0, 2))?;
    let joined = start_of(alloc, dot(0, 2))?.join(&stop)?;
    let union = wishes.context().union(stop.context())?;
    wishes.absorb_with_context(&stop, union)?;
    Ok(wishes.equal(&joined) && has(&wishes, &[], 2))
}

/// True if a permit is absorbed as it is joined.
fn a_permit_is_absorbed(alloc: Global) -> Result<bool, NoMemory> {
    let mut permissions = permit_of(alloc, dot(0, 2), true)?;
    let denied = permit_of(alloc, dot(1, 2), false)?;
    let joined = permit_of(alloc, dot(0, 2), true)?.join(&denied)?;
    let union = permissions.context().union(denied.context())?;
    permissions.absorb_with_context(&denied, union)?;
    Ok(permissions.equal(&joined) && has_two(&permissions))
}

/// The delta of a drain of node 1, which replaces these dots.
fn drain_of(alloc: Global, dot: Dot, value: bool, over: &[Dot]) -> Result<Drains, NoMemory> {
    let over = DotList::new(Vec::from_slice(alloc, over)?);
    let at = origin(1);
    delta_of(alloc, dot, &DrainAct::Drain { at, value, over })
}

/// True if the end of a drain is absorbed as it is joined.
fn a_drain_is_absorbed(alloc: Global) -> Result<bool, NoMemory> {
    let mut drains = drain_of(alloc, dot(0, 2), true, &[])?;
    let ended = drain_of(alloc, dot(0, 3), false, &[dot(0, 2)])?;
    let joined = drain_of(alloc, dot(0, 2), true, &[])?.join(&ended)?;
    let union = drains.context().union(ended.context())?;
    drains.absorb_with_context(&ended, union)?;
    Ok(drains.equal(&joined) && drains.dots(NodeId(1), 1).len() == 1)
}

#[test]
fn deltas_are_absorbed_as_they_are_joined(rt: HostRuntime) {
    assert!(rt; a_stop_is_absorbed(rt.alloc()) == Ok(true));
    assert!(rt; a_permit_is_absorbed(rt.alloc()) == Ok(true));
    assert!(rt; a_drain_is_absorbed(rt.alloc()) == Ok(true));
}

/// True if a list returns its dots, also as a copy.
fn gives_back(alloc: Global, dots: &[Dot]) -> Result<bool, NoMemory> {
    let list = DotList::new(Vec::from_slice(alloc, dots)?);
    let copied = list.copy()?;
    Ok(list.as_slice() == dots && copied.into_vec().as_slice() == dots)
}

#[test]
fn a_list_gives_its_dots_back(rt: HostRuntime) {
    let answer = gives_back(rt.alloc(), &[dot(0, 2), dot(0, 1)]);
    assert!(rt; matches!(answer, Ok(true)));
}
