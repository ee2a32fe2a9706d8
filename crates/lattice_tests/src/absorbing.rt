//! Stores joined into others, compared with joins.
use crate::sample::{dot, heard_of};
use dac_base::NoMemory;
use dac_dots::Context;
use dac_lattice::{Flag, Lattice};
use dac_origins::Dot;
use dac_store::{Causal, DotFun, DotMap, DotSet, DotStore};
use std::alloc::Global;

/// A store that can have one dot.
trait OfDot: DotStore {
    /// The store of one dot, with the flag if it stores values.
    fn of_dot(alloc: Global, dot: Dot, flag: Flag) -> Result<Self, NoMemory>;
}

impl OfDot for DotSet {
    fn of_dot(alloc: Global, dot: Dot, _flag: Flag) -> Result<Self, NoMemory> {
        DotSet::one(alloc, dot)
    }
}

impl OfDot for DotFun<Flag> {
    fn of_dot(alloc: Global, dot: Dot, flag: Flag) -> Result<Self, NoMemory> {
        DotFun::one(alloc, dot, flag)
    }
}

/// A store with its context.
#[derive(Drop)]
struct Side<S: DotStore> {
    store: S,
    heard: Context,
}

impl<S: DotStore> Side<S> {
    /// The join of both sides.
    fn join(&self, other: &Self) -> Result<Self, NoMemory> {
        let store = self.store.join_in(&self.heard, &other.store, &other.heard)?;
        let heard = self.heard.union(&other.heard)?;
        Ok(Side { store, heard })
    }

    /// Joins the other side into this one.
    fn absorb(&mut self, other: &Self) -> Result<(), NoMemory> {
        self.store
            .absorb_in(&self.heard, &other.store, &other.heard)?;
        self.heard = self.heard.union(&other.heard)?;
        Ok(())
    }

    /// True if both sides are equal, also by the order.
    fn is_same(&self, other: &Self) -> bool {
        self.store.is_same(&other.store) && self.is_below(other) && other.is_below(self)
    }

    /// True if this side is below the other one.
    fn is_below(&self, other: &Self) -> bool {
        self.heard.is_subset(&other.heard)
            && self.store.leq_in(&self.heard, &other.store, &other.heard)
    }
}

/// What shares entries with the store that absorbs.
#[derive(Clone, Copy, Debug, PartialEq, Eq)]
enum Held {
    Nothing,
    Copy,
    /// A join that shares its blocks only.
    Join,
}

const HELD: [Held; 3] = [Held::Nothing, Held::Copy, Held::Join];

/// A store that is equal and shares entries in this way.
fn hold<S: DotStore>(alloc: Global, store: &S, held: Held) -> Result<Option<S>, NoMemory> {
    let nothing = Context::empty(alloc);
    match held {
        Held::Nothing => Ok(None),
        Held::Copy => Ok(Some(store.copy()?)),
        Held::Join => {
            let joined = store.join_in(&nothing, &S::empty(alloc), &nothing)?;
            Ok(Some(joined))
        }
    }
}

/// True if the store that is held, if any, is the same as this one.
fn is_left_as<S: DotStore>(held: &Option<S>, store: &S) -> bool {
    match held {
        Some(held) => held.is_same(store),
        None => true,
    }
}

/// True if the first side absorbs the other one as it is joined, and leaves what shares its entries. The second side is
/// equal to the first, and shares nothing.
fn is_absorbed<S: DotStore>(
    alloc: Global,
    mut side: Side<S>,
    equal: &Side<S>,
    other: &Side<S>,
    held: Held,
) -> Result<bool, NoMemory> {
    let kept = hold(alloc, &side.store, held)?;
    let joined = equal.join(other)?;
    side.absorb(other)?;
    Ok(side.is_same(&joined) && is_left_as(&kept, &equal.store))
}

/// The dots of node 0 with these counters in a set, which has heard the first five and one that it dropped.
fn set_side(alloc: Global, counters: &[u64]) -> Result<Side<DotSet>, NoMemory> {
    let mut store = DotSet::empty(alloc);
    for n in counters {
        let _pushed = store.push(dot(0, *n))?;
    }
    let heard = heard_of(alloc, FIVE_HEARD)?;
    Ok(Side { store, heard })
}

/// The same with values.
fn fun_side(alloc: Global, counters: &[u64]) -> Result<Side<DotFun<Flag>>, NoMemory> {
    let mut store = DotFun::empty(alloc);
    for n in counters {
        let _pushed = store.push(dot(0, *n), Flag::Up)?;
    }
    let heard = heard_of(alloc, FIVE_HEARD)?;
    Ok(Side { store, heard })
}

/// Five dots of node 0, and one of node 2.
const FIVE_HEARD: &[(u8, u64)] = &[(0, 1), (0, 2), (0, 3), (0, 4), (0, 5), (2, 1)];

/// A side of one dot with `Flag::Down`, which has heard these as well.
fn one_side<S: OfDot>(
    alloc: Global,
    own: (u8, u64),
    heard: &[(u8, u64)],
) -> Result<Side<S>, NoMemory> {
    let store = S::of_dot(alloc, dot(own.0, own.1), Flag::Down)?;
    let mut heard = heard_of(alloc, heard)?;
    heard.insert(dot(own.0, own.1))?;
    Ok(Side { store, heard })
}

/// A dot of the other side, and dots that it has heard beside it.
const ONES: &[((u8, u64), &[(u8, u64)])] = &[
    ((1, 1), &[]),
    ((1, 1), &[(0, 1), (0, 3)]),
    ((1, 1), &[(0, 1), (0, 2), (0, 3), (0, 5)]),
    ((0, 2), &[]),
    ((0, 4), &[(0, 1)]),
    ((2, 1), &[(0, 1), (0, 2)]),
];

/// The first row whose dot a set of three doesn't absorb as it is joined, if any.
fn first_wrong_of_sets(alloc: Global, held: Held) -> Result<Option<usize>, NoMemory> {
    for i in 0..ONES.len() {
        let (own, heard) = ONES[i];
        let side = set_side(alloc, &[1, 2, 5])?;
        let equal = set_side(alloc, &[1, 2, 5])?;
        if !is_absorbed(alloc, side, &equal, &one_side(alloc, own, heard)?, held)? {
            return Ok(Some(i));
        }
    }
    Ok(None)
}

/// The first row whose dot a function of three dots doesn't absorb as it is joined, if any.
fn first_wrong_of_funs(alloc: Global, held: Held) -> Result<Option<usize>, NoMemory> {
    for i in 0..ONES.len() {
        let (own, heard) = ONES[i];
        let side = fun_side(alloc, &[1, 2, 5])?;
        let equal = fun_side(alloc, &[1, 2, 5])?;
        if !is_absorbed(alloc, side, &equal, &one_side(alloc, own, heard)?, held)? {
            return Ok(Some(i));
        }
    }
    Ok(None)
}

#[test]
fn sets_and_functions_absorb_as_they_are_joined(rt: HostRuntime) {
    for held in HELD {
        assert!(rt; first_wrong_of_sets(rt.alloc(), held) == Ok(None));
        assert!(rt; first_wrong_of_funs(rt.alloc(), held) == Ok(None));
    }
}

/// A map with its context.
type MapSide<S> = Side<DotMap<u64, S>>;

/// The map joined with nothing, which puts most entries in blocks.
fn in_blocks<S: DotStore>(alloc: Global, map: &DotMap<u64, S>) -> Result<DotMap<u64, S>, NoMemory> {
    let nothing = Context::empty(alloc);
    map.join_in(&nothing, &DotMap::empty(alloc), &nothing)
}

/// The keys 10, 20 and so on with a dot of node 0 at each, in blocks. A dot of node 2 was heard and dropped.
fn mine<S: OfDot>(alloc: Global, count: u64) -> Result<MapSide<S>, NoMemory> {
    let mut pushed = DotMap::empty(alloc);
    let mut heard = heard_of(alloc, &[(2, 1)])?;
    for number in 1..=count {
        let store = S::of_dot(alloc, dot(0, number), Flag::Up)?;
        let _pushed = pushed.push(number.wrapping_mul(10), store)?;
        heard.insert(dot(0, number))?;
    }
    let store = in_blocks(alloc, &pushed)?;
    Ok(Side { store, heard })
}

/// A map of keys with a dot at each, which has heard these dots as well.
fn theirs<S: OfDot>(
    alloc: Global,
    entries: &[(u64, u8, u64)],
    heard: &[(u8, u64)],
) -> Result<MapSide<S>, NoMemory> {
    let mut store = DotMap::empty(alloc);
    let mut heard = heard_of(alloc, heard)?;
    for (key, node, n) in entries {
        let at_key = S::of_dot(alloc, dot(*node, *n), Flag::Down)?;
        let _pushed = store.push(*key, at_key)?;
        heard.insert(dot(*node, *n))?;
    }
    Ok(Side { store, heard })
}

/// The numbers of keys: with one, and without a block, with as many as fit in none, with one block, two, and seven.
const COUNTS: &[u64] = &[1, 23, 24, 40, 100];

/// The keys of the other side, each with a node and a counter, and the dots that it has heard beside them.
const OTHERS: &[(&[(u64, u8, u64)], &[(u8, u64)])] = &[
    // no key, and dots dropped
    (&[], &[]),
    (&[], &[(1, 1)]),
    (&[], &[(0, 1)]),
    (&[], &[(0, 13), (0, 14), (0, 40)]),
    // a value replaced
    (&[(10, 1, 1)], &[(0, 1)]),
    (&[(120, 1, 1)], &[(0, 12)]),
    (&[(130, 1, 1)], &[(0, 13)]),
    (&[(230, 1, 1)], &[(0, 23)]),
    (&[(400, 1, 1)], &[(0, 40)]),
    (&[(1000, 1, 1)], &[(0, 100)]),
    // another dot beside one, and a dot of both sides
    (&[(10, 1, 1)], &[]),
    (&[(240, 1, 1)], &[]),
    (&[(10, 0, 1)], &[]),
    (&[(990, 0, 99)], &[]),
    // a new key below all, between two, at the border of two blocks, and above all
    (&[(5, 1, 1)], &[]),
    (&[(15, 1, 1)], &[]),
    (&[(125, 1, 1)], &[(1, 2)]),
    (&[(385, 1, 1)], &[]),
    (&[(2000, 1, 1)], &[]),
    // dots dropped at other keys
    (&[(10, 1, 1)], &[(0, 1), (0, 2)]),
    (&[(400, 1, 1)], &[(0, 3)]),
    (&[(15, 1, 1)], &[(0, 100)]),
    // nothing left at the key
    (&[(10, 2, 1)], &[(0, 1)]),
    (&[(230, 2, 1)], &[(0, 23)]),
    (&[(15, 2, 1)], &[]),
    // two keys
    (&[(10, 1, 1), (400, 1, 2)], &[(0, 1), (0, 40)]),
    (&[(5, 1, 1), (15, 1, 2)], &[]),
];

/// True if the map absorbs the other one as it is joined.
fn is_map_absorbed<S: OfDot>(
    alloc: Global,
    count: u64,
    other: &MapSide<S>,
    held: Held,
) -> Result<bool, NoMemory> {
    let equal = mine(alloc, count)?;
    is_absorbed(alloc, mine(alloc, count)?, &equal, other, held)
}

/// The first row whose map isn't absorbed as it is joined, if any.
fn first_wrong<S: OfDot>(alloc: Global, count: u64, held: Held) -> Result<Option<usize>, NoMemory> {
    for i in 0..OTHERS.len() {
        let (entries, heard) = OTHERS[i];
        let other: MapSide<S> = theirs(alloc, entries, heard)?;
        if !is_map_absorbed(alloc, count, &other, held)? {
            return Ok(Some(i));
        }
    }
    Ok(None)
}

#[test]
fn maps_of_sets_absorb_as_they_are_joined(rt: HostRuntime) {
    for count in COUNTS {
        for held in HELD {
            let wrong = first_wrong::<DotSet>(rt.alloc(), *count, held);
            assert!(rt; wrong == Ok(None), "{count} keys");
        }
    }
}

#[test]
fn maps_of_functions_absorb_as_they_are_joined(rt: HostRuntime) {
    for count in COUNTS {
        for held in HELD {
            let wrong = first_wrong::<DotFun<Flag>>(rt.alloc(), *count, held);
            assert!(rt; wrong == Ok(None), "{count} keys");
        }
    }
}

/// True if the map absorbs the other one as the second map is joined, which then is that join. Holds a copy meanwhile if
/// wanted.
fn is_step_absorbed<S: DotStore>(
    alloc: Global,
    side: &mut Side<S>,
    equal: &mut Side<S>,
    other: &Side<S>,
    held: Held,
) -> Result<bool, NoMemory> {
    let kept = hold(alloc, &side.store, held)?;
    let joined = equal.join(other)?;
    side.absorb(other)?;
    let is_left = is_left_as(&kept, &equal.store);
    *equal = joined;
    Ok(is_left && side.is_same(equal))
}

/// The new keys that fill the first block, and a few more.
const NEW_KEYS: &[u64] = &[11, 12, 13, 14, 15, 16, 17, 18, 19, 21, 22, 23, 24, 25, 26];

/// The first new key that isn't absorbed as it is joined, if any. The block of 12 entries fills and then is split.
fn first_wrong_key<S: OfDot>(alloc: Global, count: u64) -> Result<Option<u64>, NoMemory> {
    let mut side: MapSide<S> = mine(alloc, count)?;
    let mut equal: MapSide<S> = mine(alloc, count)?;
    for key in NEW_KEYS {
        let other: MapSide<S> = theirs(alloc, &[(*key, 1, *key)], &[])?;
        if !is_step_absorbed(alloc, &mut side, &mut equal, &other, Held::Nothing)? {
            return Ok(Some(*key));
        }
    }
    Ok(None)
}

/// True if all new keys are there, and nothing else.
fn has_new_keys<S: OfDot>(alloc: Global, count: u64) -> Result<bool, NoMemory> {
    let mut side: MapSide<S> = mine(alloc, count)?;
    let before = side.store.len();
    for key in NEW_KEYS {
        side.absorb(&theirs(alloc, &[(*key, 1, *key)], &[])?)?;
    }
    for key in NEW_KEYS {
        if side.store.get(*key).is_none() {
            return Ok(false);
        }
    }
    Ok(side.store.len().saturating_sub(NEW_KEYS.len()) == before)
}

#[test]
fn full_blocks_are_split(rt: HostRuntime) {
    for count in COUNTS {
        let wrong = first_wrong_key::<DotSet>(rt.alloc(), *count);
        assert!(rt; wrong == Ok(None), "{count} keys");
        let wrong = first_wrong_key::<DotFun<Flag>>(rt.alloc(), *count);
        assert!(rt; wrong == Ok(None), "{count} keys");
        assert!(rt; has_new_keys::<DotSet>(rt.alloc(), *count) == Ok(true));
    }
}

/// The dots that the other side has heard at a step: mostly what the step before at the same key put, sometimes a dot
/// at another key.
fn heard_at(step: u64) -> (u8, u64) {
    if step % 5 == 0 {
        return (1, step.saturating_sub(20));
    }
    (1, step.saturating_sub(50))
}

/// What the other side has at a step: mostly a new dot at one of 50 keys, sometimes no key. The keys repeat after 50
/// steps.
fn other_at<S: OfDot>(alloc: Global, step: u64) -> Result<MapSide<S>, NoMemory> {
    let heard = [heard_at(step)];
    if step % 13 == 0 {
        return theirs(alloc, &[], &heard);
    }
    let key = step.wrapping_mul(37) % 50;
    if step % 3 == 0 {
        return theirs(alloc, &[(key, 1, step)], &[]);
    }
    theirs(alloc, &[(key, 1, step)], &heard)
}

/// What is held at a step.
fn held_at(step: u64) -> Held {
    match step % 7 {
        3 => Held::Copy,
        5 => Held::Join,
        _ => Held::Nothing,
    }
}

/// The first of 300 steps that isn't absorbed as it is joined, if any.
fn first_wrong_step<S: OfDot>(alloc: Global) -> Result<Option<u64>, NoMemory> {
    let mut side: MapSide<S> = mine(alloc, 0)?;
    let mut equal: MapSide<S> = mine(alloc, 0)?;
    for step in 1..301u64 {
        let other = other_at(alloc, step)?;
        if !is_step_absorbed(alloc, &mut side, &mut equal, &other, held_at(step))? {
            return Ok(Some(step));
        }
    }
    Ok(None)
}

#[test]
fn three_hundred_absorbs_are_joins(rt: HostRuntime) {
    assert!(rt; first_wrong_step::<DotSet>(rt.alloc()) == Ok(None));
    assert!(rt; first_wrong_step::<DotFun<Flag>>(rt.alloc()) == Ok(None));
}

/// A map of these entries, paired with their dots and those heard beside them.
fn causal_of(
    alloc: Global,
    entries: &[(u64, u8, u64)],
    heard: &[(u8, u64)],
) -> Option<Causal<DotMap<u64, DotSet>>> {
    let side: MapSide<DotSet> = theirs(alloc, entries, heard).ok()?;
    let Side { store, heard } = side;
    Causal::new(store, heard).ok()
}

/// Two keys of this side, and a dot that it dropped.
fn own_causal(alloc: Global, is_empty: bool) -> Option<Causal<DotMap<u64, DotSet>>> {
    if is_empty {
        return causal_of(alloc, &[], &[(0, 3)]);
    }
    causal_of(alloc, &[(10, 0, 1), (20, 0, 2)], &[(0, 3)])
}

/// True if the first value absorbs the other one as it is joined, and leaves its copy, if there is one. The second
/// value is equal to the first, and shares nothing.
fn is_causal_absorbed<S: DotStore>(
    mut causal: Causal<S>,
    equal: &Causal<S>,
    other: &Causal<S>,
    is_copied: bool,
) -> Result<bool, NoMemory> {
    let kept = if is_copied {
        Some(causal.copy()?)
    } else {
        None
    };
    let union = causal.context().union(other.context())?;
    causal.absorb_with_context(other, union)?;
    let is_left = match &kept {
        Some(kept) => kept.equal(equal),
        None => true,
    };
    Ok(is_left && causal.equal(&equal.join(other)?))
}

/// The first row whose value isn't absorbed as it is joined, if any.
fn first_wrong_causal(alloc: Global, is_empty: bool, is_copied: bool) -> Option<Option<usize>> {
    for i in 0..CAUSALS.len() {
        let (entries, heard) = CAUSALS[i];
        let other = causal_of(alloc, entries, heard)?;
        let equal = own_causal(alloc, is_empty)?;
        let causal = own_causal(alloc, is_empty)?;
        if !is_causal_absorbed(causal, &equal, &other, is_copied).ok()? {
            return Some(Some(i));
        }
    }
    Some(None)
}

/// The other value's keys, each with a node and a counter, and the dots that it has heard beside them.
const CAUSALS: &[(&[(u64, u8, u64)], &[(u8, u64)])] = &[
    (&[], &[]),
    // an empty store that leaves the other one, and two that don't
    (&[], &[(1, 1)]),
    (&[], &[(0, 1)]),
    (&[], &[(0, 1), (0, 2)]),
    // a value replaced, and new keys
    (&[(10, 1, 1)], &[(0, 1)]),
    (&[(15, 1, 1)], &[]),
    (&[(5, 1, 1), (20, 1, 2)], &[(0, 2)]),
    // a dot that was dropped
    (&[(10, 0, 3)], &[]),
    // many more origins
    (&[(10, 1, 1)], &[(0, 1), (2, 1), (3, 1), (4, 1), (5, 1)]),
];

#[test]
fn causal_values_absorb_as_they_are_joined(rt: HostRuntime) {
    for is_empty in [false, true] {
        for is_copied in [false, true] {
            let wrong = first_wrong_causal(rt.alloc(), is_empty, is_copied);
            assert!(rt; wrong == Some(None));
        }
    }
}
