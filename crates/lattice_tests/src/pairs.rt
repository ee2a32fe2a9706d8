//! Stores and contexts that change together.
use crate::sample::{dot, heard_of};
use dac_base::NoMemory;
use dac_lattice::Lattice;
use dac_store::{Causal, CausalRef, DotMap, DotSet, DotStore, absorb_paired};
use std::alloc::Global;

/// Sets of dots by key.
type Map = DotMap<u64, DotSet>;

/// A map of these keys, each with a dot as a node and a counter, paired with these dots and others that were heard.
fn causal_of(
    alloc: Global,
    entries: &[(u64, u8, u64)],
    heard: &[(u8, u64)],
) -> Option<Causal<Map>> {
    let mut store = Map::empty(alloc);
    let mut context = heard_of(alloc, heard).ok()?;
    for (key, node, n) in entries {
        let dots = DotSet::one(alloc, dot(*node, *n)).ok()?;
        let _pushed = store.push(*key, dots).ok()?;
        context.insert(dot(*node, *n)).ok()?;
    }
    Causal::new(store, context).ok()
}

/// Two keys with a dot each, and a dot that was dropped, of one node; and a dot of another node.
fn own(alloc: Global) -> Option<Causal<Map>> {
    causal_of(alloc, &[(10, 0, 1), (20, 0, 2)], &[(0, 3), (1, 1)])
}

/// True if both are equal, by the order of the stores too.
fn is_same<S: DotStore>(one: &CausalRef<'_, S>, other: &CausalRef<'_, S>) -> bool {
    one.has_same_context(other) && one.has_same_store(other)
}

/// A copy, if wanted.
fn copy_if<S: DotStore>(
    causal: &Causal<S>,
    is_copied: bool,
) -> Result<Option<Causal<S>>, NoMemory> {
    if is_copied {
        return Ok(Some(causal.copy()?));
    }
    Ok(None)
}

/// True if there is no copy, or it equals this value.
fn is_left<S: DotStore>(copy: &Option<Causal<S>>, equal: &Causal<S>) -> bool {
    match copy {
        Some(copy) => is_same(&copy.borrowed(), &equal.borrowed()),
        None => true,
    }
}

/// The value whose store and context absorb those of another one. `None` if the store then has a dot that the context
/// lacks.
fn absorbed<S: DotStore>(
    causal: Causal<S>,
    other: &Causal<S>,
) -> Result<Option<Causal<S>>, NoMemory> {
    Lattice::tells_invariant(&causal);
    let (mut store, mut context) = causal.into_parts();
    absorb_paired(&mut store, &mut context, &other.borrowed())?;
    Ok(Causal::new(store, context).ok())
}

/// True if the first value's store and context absorb those of another one as both values are joined, and a copy of
/// them, if there is one, is left. The second value is equal to the first, and shares nothing.
fn is_absorbed<S: DotStore>(
    causal: Causal<S>,
    equal: &Causal<S>,
    other: &Causal<S>,
    is_copied: bool,
) -> Result<bool, NoMemory> {
    let copy = copy_if(&causal, is_copied)?;
    let Some(absorbed) = absorbed(causal, other)? else {
        return Ok(false);
    };
    let joined = equal.join(other)?;
    let store = equal.borrowed().join_stores(&other.borrowed())?;
    Ok(
        is_same(&absorbed.borrowed(), &joined.borrowed())
            && store.is_same(joined.store())
            && is_left(&copy, equal),
    )
}

/// The other value's keys, each with a node and a counter, and the dots that it has heard beside them.
const OTHERS: &[(&[(u64, u8, u64)], &[(u8, u64)])] = &[
    (&[], &[]),
    // new dots that are consecutive: none that stands, one at a new key, one beside another, in place of it, and of all,
    // and two
    (&[], &[(0, 4)]),
    (&[(15, 0, 4)], &[]),
    (&[(10, 0, 4)], &[]),
    (&[(10, 0, 4)], &[(0, 1)]),
    (&[(10, 1, 2)], &[(0, 1), (0, 2)]),
    (&[(10, 0, 4), (20, 0, 5)], &[(0, 1), (0, 2)]),
    // no new dots
    (&[], &[(0, 1)]),
    (&[(20, 0, 2)], &[(0, 1)]),
    // a dot that was dropped, alone and beside a new one
    (&[(10, 0, 3)], &[]),
    (&[(10, 0, 3)], &[(0, 4)]),
    // dots of an origin without others, and of two origins
    (&[(10, 2, 1)], &[(0, 1)]),
    (&[(10, 0, 4)], &[(1, 2)]),
    // many more origins
    (
        &[(10, 2, 1)],
        &[(0, 1), (3, 1), (4, 1), (5, 1), (6, 1), (7, 1)],
    ),
];

/// The first row whose value isn't absorbed as it is joined, if any.
fn first_wrong(alloc: Global, is_copied: bool) -> Option<Option<usize>> {
    for i in 0..OTHERS.len() {
        let (entries, heard) = OTHERS[i];
        let other = causal_of(alloc, entries, heard)?;
        let equal = own(alloc)?;
        if !is_absorbed(own(alloc)?, &equal, &other, is_copied).ok()? {
            return Some(Some(i));
        }
    }
    Some(None)
}

#[test]
fn stores_and_contexts_absorb_as_they_are_joined(rt: HostRuntime) {
    for is_copied in [false, true] {
        assert!(rt; first_wrong(rt.alloc(), is_copied) == Some(None));
    }
}

/// Whether an empty map that has heard these dots is known to leave the keys of `own`.
fn leaves_own(alloc: Global, heard: &[(u8, u64)]) -> Option<bool> {
    let empty = causal_of(alloc, &[], heard)?;
    Some(empty.borrowed().leaves(&own(alloc)?.borrowed()))
}

/// Whether the keys of `own` are known to leave themselves.
fn own_leaves_own(alloc: Global) -> Option<bool> {
    Some(own(alloc)?.borrowed().leaves(&own(alloc)?.borrowed()))
}

#[test]
fn an_empty_store_leaves_what_it_has_not_heard(rt: HostRuntime) {
    assert!(rt; leaves_own(rt.alloc(), &[(0, 3), (0, 4)]) == Some(true));
    assert!(rt; leaves_own(rt.alloc(), &[(0, 2)]) == Some(false));
    assert!(rt; own_leaves_own(rt.alloc()) == Some(false));
}
