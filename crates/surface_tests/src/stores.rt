//! `dac_store` and `dac_deltas`.
use crate::lattices::{FIRST, ORIGIN, SECOND, first_alone};
use dac_config::NoMemory;
use dac_deltas::{Acks, Buffer, Staged};
use dac_dots::Context;
use dac_lattice::{Lattice, Max};
use dac_store::{Causal, CausalRef, DotFun, DotMap, DotSet, DotStore, absorb_paired};
use std::alloc::Global;

/// True if a store keeps its dot when joined with an empty one that heard nothing.
fn stays<S: DotStore>(alloc: Global, store: &S) -> Result<bool, NoMemory> {
    let heard = first_alone(alloc)?;
    let nothing = Context::empty(alloc);
    let joined: S = store.copy()?.join_in(&heard, &S::empty(alloc), &nothing)?;
    Ok(
        joined.has(FIRST)
            && joined.within(&heard)
            && joined.leq_in(&heard, store, &heard)
            && !joined.is_empty(),
    )
}

/// True if a store keeps its dot when it absorbs an empty one that heard nothing.
fn stays_by_absorbing<S: DotStore>(alloc: Global, store: &S) -> Result<bool, NoMemory> {
    let heard = first_alone(alloc)?;
    let mut copy: S = store.copy()?;
    copy.absorb_in(&heard, &S::empty(alloc), &Context::empty(alloc))?;
    Ok(copy.has(FIRST) && copy.within(&heard))
}

/// True if a set, a function and a map keep their dot.
fn all_stay(alloc: Global) -> Result<bool, NoMemory> {
    let set: DotSet = DotSet::one(alloc, FIRST)?;
    let fun: DotFun<Max<u64>> = DotFun::one(alloc, FIRST, Max::new(4u64))?;
    let map: DotMap<u64, DotSet> = DotMap::one(alloc, 9u64, DotSet::one(alloc, FIRST)?)?;
    Ok(stays(alloc, &set)? && stays(alloc, &fun)? && stays(alloc, &map)?)
}

/// True if they keep their dot also when they absorb.
fn all_stay_by_absorbing(alloc: Global) -> Result<bool, NoMemory> {
    let set: DotSet = DotSet::one(alloc, FIRST)?;
    let fun: DotFun<Max<u64>> = DotFun::one(alloc, FIRST, Max::new(4u64))?;
    let map: DotMap<u64, DotSet> = DotMap::one(alloc, 9u64, DotSet::one(alloc, FIRST)?)?;
    Ok(
        stays_by_absorbing(alloc, &set)?
            && stays_by_absorbing(alloc, &fun)?
            && stays_by_absorbing(alloc, &map)?,
    )
}

/// True if a set is refused with a context that lacks its dot, and joined with one that has it.
fn is_causal(alloc: Global) -> Result<bool, NoMemory> {
    let refused = Causal::new(DotSet::one(alloc, SECOND)?, first_alone(alloc)?).is_err();
    match Causal::new(DotSet::one(alloc, FIRST)?, first_alone(alloc)?) {
        Ok(causal) => Ok(refused && causal.join(&causal)?.equal(&causal)),
        Err((_store, _context)) => Ok(false),
    }
}

/// The first dot as a set with its context.
fn first_causal(alloc: Global) -> Option<Causal<DotSet>> {
    Causal::new(DotSet::one(alloc, FIRST).ok()?, first_alone(alloc).ok()?).ok()
}

/// Joins another value into this one.
fn absorb(causal: &mut Causal<DotSet>, other: &Causal<DotSet>) -> Result<(), NoMemory> {
    let union: Context = causal.context().union(other.context())?;
    causal.absorb_with_context(other, union)
}

/// True if a value that absorbs an equal one stays the same.
fn is_absorbed(alloc: Global) -> Option<bool> {
    let mut causal = first_causal(alloc)?;
    let other = first_causal(alloc)?;
    absorb(&mut causal, &other).ok()?;
    Some(causal.equal(&other))
}

/// True if a store and its context that absorb an equal value have its dot.
fn are_absorbed(alloc: Global) -> Option<bool> {
    let causal = first_causal(alloc)?;
    let other = first_causal(alloc)?;
    Lattice::tells_invariant(&causal);
    let (mut store, mut context) = causal.into_parts();
    let borrowed: CausalRef<'_, DotSet> = other.borrowed();
    absorb_paired(&mut store, &mut context, &borrowed).ok()?;
    Some(store.has(FIRST) && context.contains(FIRST) && borrowed.store().has(FIRST))
}

/// True if a log of one delta returns it as its interval and block.
fn is_buffered(alloc: Global) -> Result<bool, NoMemory> {
    let mut buffer: Buffer<Max<u64>> = Buffer::new(alloc);
    buffer.push(Max::new(3u64))?;
    let copy: Buffer<Max<u64>> = buffer.copy()?;
    let interval: Option<Max<u64>> = match copy.count() {
        1 => copy.interval(0)?,
        _more => None,
    };
    let blocks: Option<Vec<(u64, u64)>> = match copy.count() {
        1 => copy.blocks(0)?,
        _more => None,
    };
    buffer.trim(1);
    Ok(interval.is_some() && blocks.is_some() && buffer.base() == 1)
}

/// The number of deltas after one was staged, and then committed or cancelled.
fn count_staged(alloc: Global, is_pushed: bool) -> Option<u64> {
    let buffer: Buffer<Max<u64>> = Buffer::new(alloc);
    if buffer.count() > 0 {
        return None;
    }
    let staged: Staged<Max<u64>> = buffer.stage(Max::new(3u64)).ok()?;
    let delta: &Max<u64> = staged.delta();
    if delta.value != 3 {
        return None;
    }
    let ended: Buffer<Max<u64>> = if is_pushed {
        staged.commit()
    } else {
        staged.cancel()
    };
    Some(ended.count())
}

/// True if the greater of two acknowledgements stays.
fn is_acknowledged(alloc: Global) -> Result<bool, NoMemory> {
    let mut acks = Acks::new(alloc);
    acks.raise(ORIGIN, 3)?;
    acks.raise(ORIGIN, 2)?;
    Ok(acks.copy()?.get(ORIGIN) == Some(3))
}

#[test]
fn stores(rt: HostRuntime) {
    assert!(rt; matches!(all_stay(rt.alloc()), Ok(true)));
    assert!(rt; matches!(all_stay_by_absorbing(rt.alloc()), Ok(true)));
    assert!(rt; matches!(is_causal(rt.alloc()), Ok(true)));
    assert!(rt; is_absorbed(rt.alloc()) == Some(true));
    assert!(rt; are_absorbed(rt.alloc()) == Some(true));
}

#[test]
fn deltas(rt: HostRuntime) {
    assert!(rt; matches!(is_buffered(rt.alloc()), Ok(true)));
    assert!(rt; count_staged(rt.alloc(), true) == Some(1));
    assert!(rt; count_staged(rt.alloc(), false) == Some(0));
    assert!(rt; matches!(is_acknowledged(rt.alloc()), Ok(true)));
}
