//! Joins of stores.
use crate::sample::{context_of, dot, is_joined_above};
use dac_base::NoMemory;
use dac_dots::Context;
use dac_lattice::{Flag, Lattice};
use dac_store::{Causal, DotFun, DotMap, DotSet, DotStore};
use std::alloc::Global;

/// A set of one dot, paired with a context of these counters.
fn one(alloc: Global, n: u64, counters: &[u64]) -> Option<Causal<DotSet>> {
    let set = DotSet::one(alloc, dot(0, n)).ok()?;
    Causal::new(set, context_of(alloc, counters).ok()?).ok()
}

/// True if only the second dot is left, with a context of two dots.
fn is_second(causal: &Causal<DotSet>) -> bool {
    causal.store().dots() == [dot(0, 2)].as_slice() && causal.context().len() == 2
}

/// True if joining both sides, and the first again, leaves only the second dot.
fn is_left(
    alloc: Global,
    first: &Causal<DotSet>,
    second: &Causal<DotSet>,
) -> Result<bool, NoMemory> {
    let joined = first.join(second)?;
    let again = joined.join(first)?;
    Ok(is_second(&joined) && is_second(&again) && is_joined_above(alloc, first, &again)?)
}

/// True if a dot goes that the other side has heard and dropped.
fn is_second_left(alloc: Global) -> Option<bool> {
    let first = one(alloc, 1, &[1])?;
    let second = one(alloc, 2, &[1, 2])?;
    is_left(alloc, &first, &second).ok()
}

#[test]
fn a_dot_heard_and_dropped_goes(rt: HostRuntime) {
    assert!(rt; is_second_left(rt.alloc()) == Some(true));
}

/// True if a store whose dot its context lacks is returned.
fn is_refused(alloc: Global) -> Option<bool> {
    let set = DotSet::one(alloc, dot(0, 2)).ok()?;
    match Causal::new(set, Context::empty(alloc)) {
        Ok(_) => Some(false),
        Err((store, context)) => Some(!store.within(&context)),
    }
}

#[test]
fn a_dot_outside_the_context_is_handed_back(rt: HostRuntime) {
    assert!(rt; is_refused(rt.alloc()) == Some(true));
}

/// True if a store becomes empty because the other side has heard and dropped its dots, called through the bound.
fn is_cleared<S: DotStore>(alloc: Global, store: &S, context: &Context) -> Result<bool, NoMemory> {
    store.tells_invariant();
    let left = store.join_in(context, &S::empty(alloc), context)?;
    Ok(left.is_empty() && store.leq_in(context, &left, context) && left.within(context))
}

/// True if a store keeps its dot because the other side hasn't heard it, called through the bound.
fn is_kept<S: DotStore>(alloc: Global, store: &S, context: &Context) -> Result<bool, NoMemory> {
    let unheard = Context::empty(alloc);
    let nothing = S::empty(store.allocator());
    let kept = store.copy()?.join_in(context, &nothing, &unheard)?;
    Ok(kept.has(dot(0, 1)) && kept.is_same(store) && !nothing.is_same(store))
}

fn is_kept_and_cleared<S: DotStore>(alloc: Global, store: &S) -> Result<bool, NoMemory> {
    let context = context_of(alloc, &[1])?;
    Ok(is_kept(alloc, store, &context)? && is_cleared(alloc, store, &context)?)
}

/// The first dot, with `Flag::Down`.
fn first_denied(alloc: Global) -> Result<DotFun<Flag>, NoMemory> {
    DotFun::one(alloc, dot(0, 1), Flag::Down)
}

/// The first dot, with `Flag::Down`, at a key.
fn denied_at(alloc: Global, key: u64) -> Result<DotMap<u64, DotFun<Flag>>, NoMemory> {
    DotMap::one(alloc, key, first_denied(alloc)?)
}

/// True if a store of the first dot is kept and cleared.
fn is_store<S: DotStore>(alloc: Global, store: Result<S, NoMemory>) -> bool {
    match store {
        Ok(store) => matches!(is_kept_and_cleared(alloc, &store), Ok(true)),
        Err(_) => false,
    }
}

#[test]
fn stores_of_all_kinds(rt: HostRuntime) {
    assert!(rt; is_store(rt.alloc(), DotSet::one(rt.alloc(), dot(0, 1))));
    assert!(rt; is_store(rt.alloc(), first_denied(rt.alloc())));
    assert!(rt; is_store(rt.alloc(), denied_at(rt.alloc(), 7)));
}

/// True if a second dot is appended to values at dots.
fn a_value_is_appended(alloc: Global) -> Result<bool, NoMemory> {
    let mut denied = first_denied(alloc)?;
    let pushed = denied.push(dot(0, 3), Flag::Up)?;
    Ok(pushed && denied.get(dot(0, 3)) == Some(&Flag::Up) && denied.entries().len() == 2)
}

/// True if a set accepts a greater dot, and refuses it the second time.
fn a_dot_is_appended(alloc: Global) -> Result<bool, NoMemory> {
    let mut dots = DotSet::one(alloc, dot(0, 1))?;
    Ok(dots.push(dot(0, 2))? && !dots.push(dot(0, 2))?)
}

/// True if a greater key is appended.
fn a_key_is_appended(alloc: Global) -> Result<bool, NoMemory> {
    let mut map = denied_at(alloc, 7)?;
    let pushed = map.push(9, first_denied(alloc)?)?;
    Ok(pushed && map.get(9).is_some() && map.len() == 2)
}

#[test]
fn what_is_above_is_appended(rt: HostRuntime) {
    assert!(rt; matches!(a_dot_is_appended(rt.alloc()), Ok(true)));
    assert!(rt; matches!(a_value_is_appended(rt.alloc()), Ok(true)));
    assert!(rt; matches!(a_key_is_appended(rt.alloc()), Ok(true)));
}
