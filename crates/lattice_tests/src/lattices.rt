//! Maxima, flags, pairs and maps.
use crate::sample::{is_join, is_joined_above};
use dac_base::{AppId, NoMemory};
use dac_lattice::merging::put_entry;
use dac_lattice::{Flag, Lattice, MapOf, Max, Pair};
use std::alloc::Global;

const A: AppId = AppId(0);

const B: AppId = AppId(1);

type Greatest = MapOf<AppId, Max<u64>>;

/// A map of one value.
fn one(alloc: Global, key: AppId, value: u64) -> Result<Greatest, NoMemory> {
    MapOf::one(alloc, key, Max::new(value))
}

/// A map of 3 at the first key and 2 at the second.
fn both(alloc: Global) -> Result<Greatest, NoMemory> {
    one(alloc, A, 3)?.join(&one(alloc, B, 2)?)
}

/// True if the map has this value at this key.
fn has(map: &Greatest, key: AppId, value: u64) -> bool {
    match map.get(key) {
        Some(greatest) => greatest.value == value,
        None => false,
    }
}

/// True if the join of two maps keeps the greater value of each key.
fn maps_are_joined(alloc: Global) -> Result<bool, NoMemory> {
    let both = both(alloc)?;
    let is_above = is_joined_above(alloc, &one(alloc, A, 1)?, &both)?;
    Ok(is_above && has(&both, A, 3) && has(&both, B, 2) && both.entries().len() == 2)
}

#[test]
fn maps_are_joined_at_each_key(rt: HostRuntime) {
    assert!(rt; matches!(maps_are_joined(rt.alloc()), Ok(true)));
}

fn pair(first: u64, second: u64) -> Pair<Max<u64>, Max<u64>> {
    Pair::new(Max::new(first), Max::new(second))
}

/// True if two values are incomparable and this is their join, called through the bound.
fn are_apart<L: Lattice>(one: &L, other: &L, joined: &L) -> Result<bool, NoMemory> {
    Ok(!one.leq(other) && !other.leq(one) && is_join(one, other, joined)?)
}

#[test]
fn pairs_are_joined_side_by_side(rt: HostRuntime) {
    let answer = are_apart(&pair(1, 5), &pair(2, 4), &pair(2, 5));
    assert!(rt; matches!(answer, Ok(true)));
    let answer = is_joined_above(rt.alloc(), &pair(1, 5), &pair(2, 5));
    assert!(rt; matches!(answer, Ok(true)));
}

#[test]
fn numbers_and_flags_are_chains(rt: HostRuntime) {
    let answer = is_joined_above(rt.alloc(), &Max::new(2), &Max::new(5));
    assert!(rt; matches!(answer, Ok(true)));
    let answer = is_joined_above(rt.alloc(), &Flag::Up, &Flag::Down);
    assert!(rt; matches!(answer, Ok(true)));
}

/// True if a list has an entry for each key after one was put, then a lesser one, then the first again.
fn is_put_twice(alloc: Global) -> Result<bool, NoMemory> {
    let mut entries: Vec<(u64, u64)> = Vec::new(alloc);
    put_entry(&mut entries, 2, 20)?;
    put_entry(&mut entries, 1, 10)?;
    put_entry(&mut entries, 2, 21)?;
    Ok(entries.as_slice() == [(1u64, 10u64), (2, 21)].as_slice())
}

#[test]
fn entries_are_inserted_or_replaced(rt: HostRuntime) {
    assert!(rt; is_put_twice(rt.alloc()) == Ok(true));
}
