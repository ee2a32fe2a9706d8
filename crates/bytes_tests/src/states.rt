//! States of a few operations.
use crate::sample::dot;
use dac_base::{AppId, NoMemory, NodeId};
use dac_lattice::{Bottom, Flag, Lattice};
use dac_origins::Dot;
use dac_state::{Act, DotList, How, Key, Op, State};
use std::alloc::Global;

/// Application 0 at node 1, incarnation 1.
const KEY: Key = Key {
    app: AppId(0),
    node: NodeId(1),
    inc: 1,
};

/// An act of node 0.
#[derive(Clone, Copy)]
enum Kind {
    Up,
    Down,
    Permit(bool),
    Start,
    /// Ends the start by its second operation.
    Stop,
    Claim,
    Drain,
}

/// The dots that the act replaces.
fn over(alloc: Global, kind: Kind) -> Result<DotList, NoMemory> {
    let mut dots = Vec::new(alloc);
    if matches!(kind, Kind::Stop) {
        dots.push(dot(0, 1, 2))?;
    }
    Ok(DotList::new(dots))
}

/// The act of a kind.
fn act(kind: Kind, over: DotList) -> Act {
    let key = KEY;
    match kind {
        Kind::Up => Act::Up,
        Kind::Down => Act::Down {
            node: NodeId(1),
            inc: 1,
        },
        Kind::Permit(value) => Act::Permit { key, value, over },
        Kind::Start => Act::Start { key, over },
        Kind::Stop => Act::Stop { key, over },
        Kind::Claim => Act::Claim {
            app: AppId(0),
            term: 1,
            how: How::Normal,
            from: None,
        },
        Kind::Drain => Act::Drain {
            node: NodeId(1),
            inc: 1,
            value: true,
            over,
        },
    }
}

/// The delta of an act of node 0.
fn delta(alloc: Global, n: u64, kind: Kind) -> Option<State> {
    let over = over(alloc, kind).ok()?;
    let op = Op::new(dot(0, 1, n), act(kind, over)).ok()?;
    State::delta_of(alloc, &op).ok()
}

/// A value with a delta.
trait Means: Copy {
    /// The lattice of the deltas.
    type All: Bottom;

    /// The delta, or `None` if an allocation fails.
    fn alone(self, alloc: Global) -> Option<Self::All>;
}

/// The join of several deltas.
fn meaning<M: Means>(alloc: Global, parts: &[M]) -> Option<M::All> {
    let mut all = M::All::bottom(alloc);
    for part in parts {
        all = all.join(&part.alone(alloc)?).ok()?;
    }
    Some(all)
}

impl Means for (u64, Kind) {
    type All = State;

    fn alone(self, alloc: Global) -> Option<State> {
        delta(alloc, self.0, self.1)
    }
}

/// True if exactly these dots are heard, and these known.
fn has_dots(state: &State, heard: &[Dot], known: &[Dot]) -> Result<bool, NoMemory> {
    Ok(state.heard().dots()?.as_slice() == heard && state.known().dots()?.as_slice() == known)
}

/// True if a delta has its dot heard and these dots known.
fn knows(alloc: Global, n: u64, kind: Kind, known: &[Dot]) -> Option<bool> {
    has_dots(&delta(alloc, n, kind)?, &[dot(0, 1, n)], known).ok()
}

#[test]
fn what_is_named_is_known(rt: HostRuntime) {
    let up = knows(rt.alloc(), 1, Kind::Up, &[dot(0, 1, 1)]);
    assert!(rt; up == Some(true));
    let stop = knows(rt.alloc(), 4, Kind::Stop, &[dot(0, 1, 2), dot(0, 1, 4)]);
    assert!(rt; stop == Some(true));
}

/// Two starts and two permits of one key, a claim, a down, and a stop of the first start.
const ACTS: &[(u64, Kind)] = &[
    (2, Kind::Start),
    (3, Kind::Start),
    (5, Kind::Permit(true)),
    (6, Kind::Permit(false)),
    (7, Kind::Claim),
    (8, Kind::Down),
    (4, Kind::Stop),
];

/// The two starts only.
const STARTS: &[(u64, Kind)] = &[(2, Kind::Start), (3, Kind::Start)];

/// True if two permits and the second start stand.
fn has_writes(state: &State) -> bool {
    state.wishes().dots(KEY) == [dot(0, 1, 3)].as_slice()
        && state.permissions().dots(KEY).len() == 2
}

/// True if node 1 is down, and the application claimed.
fn has_chains(state: &State) -> bool {
    state.lives().life(NodeId(1)) == Some((1, Flag::Down))
        && state.claims().greatest(AppId(0)).is_some()
}

/// True if the second value is strictly above the first, and is their join, called through the bound.
fn is_joined_above<L: Lattice>(low: &L, high: &L) -> Result<bool, NoMemory> {
    low.tells_invariant();
    Ok(low.leq(high) && !high.leq(low) && low.join(high)?.equal(&high.copy()?))
}

/// True if the acts have their effects, above the starts alone.
fn is_meaning(alloc: Global) -> Option<bool> {
    let state = meaning(alloc, ACTS)?;
    let is_above = is_joined_above(&meaning(alloc, STARTS)?, &state).ok()?;
    Some(is_above && has_writes(&state) && has_chains(&state))
}

#[test]
fn parts_of_a_state(rt: HostRuntime) {
    assert!(rt; is_meaning(rt.alloc()) == Some(true));
}

/// The acts, and an up and a drain.
const ALL: &[(u64, Kind)] = &[
    (1, Kind::Up),
    (2, Kind::Start),
    (3, Kind::Start),
    (9, Kind::Drain),
    (5, Kind::Permit(true)),
    (6, Kind::Permit(false)),
    (7, Kind::Claim),
    (8, Kind::Down),
    (4, Kind::Stop),
    (2, Kind::Start),
];

/// True if the state absorbs the other one as the second state is joined, which then is that join. The second state is
/// equal to the first, and shares nothing. A copy taken meanwhile, if wanted, is left as it was.
fn is_absorbed(
    state: &mut State,
    equal: &mut State,
    other: &State,
    is_copied: bool,
) -> Result<bool, NoMemory> {
    let kept = if is_copied { Some(state.copy()?) } else { None };
    let joined = equal.join(other)?;
    state.absorb(other)?;
    let is_left = match &kept {
        Some(kept) => kept.equal(equal),
        None => true,
    };
    *equal = joined;
    Ok(is_left && state.equal(equal))
}

/// The counter of the first act whose delta isn't absorbed as it is joined, if any.
fn first_wrong(alloc: Global, is_copied: bool) -> Option<Option<u64>> {
    let mut state = State::bottom(alloc);
    let mut equal = State::bottom(alloc);
    for (n, kind) in ALL {
        let other = delta(alloc, *n, *kind)?;
        if !is_absorbed(&mut state, &mut equal, &other, is_copied).ok()? {
            return Some(Some(*n));
        }
    }
    Some(None)
}

/// True if the state of some acts absorbs that of all, and that of all the state of some, as they are joined.
fn are_absorbed(alloc: Global, some: &[(u64, Kind)], is_copied: bool) -> Option<bool> {
    let mut low = meaning(alloc, some)?;
    let mut equal = meaning(alloc, some)?;
    let all = meaning(alloc, ALL)?;
    let is_risen = is_absorbed(&mut low, &mut equal, &all, is_copied).ok()?;
    let mut high = meaning(alloc, ALL)?;
    let mut equal = meaning(alloc, ALL)?;
    let is_left = is_absorbed(&mut high, &mut equal, &meaning(alloc, some)?, is_copied).ok()?;
    Some(is_risen && is_left && low.equal(&all) && high.equal(&all))
}

#[test]
fn states_absorb_as_they_are_joined(rt: HostRuntime) {
    for is_copied in [false, true] {
        assert!(rt; first_wrong(rt.alloc(), is_copied) == Some(None));
        assert!(rt; are_absorbed(rt.alloc(), STARTS, is_copied) == Some(true));
        assert!(rt; are_absorbed(rt.alloc(), &[], is_copied) == Some(true));
    }
}
