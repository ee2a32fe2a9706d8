//! Sorted maps.
use dac_base::NoMemory;
use dac_sorted::{Alter, Combine, Digest, Sharing, SortedMap};
use std::alloc::Global;
use std::mem::swap;

/// A digest that says nothing.
#[derive(Clone, Copy, Debug)]
struct Blank;

impl Digest<u64, u64> for Blank {
    ghost says = { λ _ _ _. Unit {0} };

    fn none() -> Self {
        Blank
    }

    fn put(&mut self, _key: u64, _value: &u64) {}

    fn copy(value: &u64) -> Result<u64, NoMemory> {
        Ok(*value)
    }

    fn least() -> usize {
        4
    }
}

type Map = SortedMap<u64, u64, Blank>;

/// The entries at keys of one map only.
#[derive(Drop)]
struct Unshared;

impl Combine<u64, u64> for Unshared {
    ghost use Rattle.std.specs.Option.{option_xor};

    ghost combined = { λ _ _. option_xor };

    fn left(&self, _key: u64, mine: &u64) -> Result<Option<u64>, NoMemory> {
        Ok(Some(*mine))
    }

    fn right(&self, _key: u64, theirs: &u64) -> Result<Option<u64>, NoMemory> {
        Ok(Some(*theirs))
    }

    fn both(&self, _key: u64, _mine: &u64, _theirs: &u64) -> Result<Option<u64>, NoMemory> {
        Ok(None)
    }
}

impl Sharing<u64, u64, Blank> for Unshared {
    ghost fits = { λ _ _ _. Unit {0} };

    fn stays(&self, _key: u64, _mine: &u64, theirs: Option<&u64>) -> bool {
        theirs.is_none()
    }

    fn leaves(&self, _digest: &Blank) -> bool {
        true
    }

    fn is_same(&self, _mine: &u64, _theirs: &u64) -> bool {
        false
    }
}

/// The second map.
#[derive(Drop)]
struct Second;

impl Combine<u64, u64> for Second {
    ghost combined = { λ _ _ _ theirs. theirs };

    fn left(&self, _key: u64, _mine: &u64) -> Result<Option<u64>, NoMemory> {
        Ok(None)
    }

    fn right(&self, _key: u64, theirs: &u64) -> Result<Option<u64>, NoMemory> {
        Ok(Some(*theirs))
    }

    fn both(&self, _key: u64, _mine: &u64, theirs: &u64) -> Result<Option<u64>, NoMemory> {
        Ok(Some(*theirs))
    }
}

impl Sharing<u64, u64, Blank> for Second {
    ghost fits = { λ _ _ _. Unit {0} };

    fn stays(&self, _key: u64, mine: &u64, theirs: Option<&u64>) -> bool {
        match theirs {
            Some(theirs) => *theirs == *mine,
            None => false,
        }
    }

    fn leaves(&self, _digest: &Blank) -> bool {
        false
    }

    fn is_same(&self, mine: &u64, theirs: &u64) -> bool {
        *theirs == *mine
    }
}

/// The map of these entries, put in this order.
fn map_of(alloc: Global, entries: &[(u64, u64)]) -> Result<Map, NoMemory> {
    let mut map = Map::empty(alloc);
    for (key, value) in entries {
        map.put(*key, *value)?;
    }
    Ok(map)
}

/// True if the map has exactly these entries.
fn has(map: &Map, entries: &[(u64, u64)]) -> bool {
    for (key, value) in entries {
        if map.get(*key) != Some(value) {
            return false;
        }
    }
    map.len() == entries.len()
}

/// Entries, an entry to put, the entries then, and the entries without its key.
const PUTS: &[(&[(u64, u64)], (u64, u64), &[(u64, u64)], &[(u64, u64)])] = &[
    (&[], (1, 10), &[(1, 10)], &[]),
    // one entry: its value replaced, and a key below and above it
    (&[(1, 10)], (1, 11), &[(1, 11)], &[]),
    (&[(2, 20)], (1, 10), &[(1, 10), (2, 20)], &[(2, 20)]),
    (&[(1, 10)], (2, 20), &[(1, 10), (2, 20)], &[(1, 10)]),
    (
        &[(1, 10), (3, 30)],
        (2, 20),
        &[(1, 10), (2, 20), (3, 30)],
        &[(1, 10), (3, 30)],
    ),
];

/// True if the entry is put and its key then removed, twice. A copy is left.
fn is_put(
    alloc: Global,
    entries: &[(u64, u64)],
    entry: (u64, u64),
    put: &[(u64, u64)],
    rest: &[(u64, u64)],
) -> Result<bool, NoMemory> {
    let mut map = map_of(alloc, entries)?;
    let copy = map.copy()?;
    map.put(entry.0, entry.1)?;
    let is_put = has(&map, put) && has(&copy, entries);
    map.remove(entry.0)?;
    let is_removed = has(&map, rest);
    map.remove(entry.0)?;
    Ok(is_put && is_removed && has(&map, rest))
}

/// The first row whose entry isn't put as it says, if any.
fn first_wrong_put(alloc: Global) -> Result<Option<usize>, NoMemory> {
    for i in 0..PUTS.len() {
        let (entries, entry, put, rest) = PUTS[i];
        if !is_put(alloc, entries, entry, put, rest)? {
            return Ok(Some(i));
        }
    }
    Ok(None)
}

#[test]
fn entries_are_put_and_removed(rt: HostRuntime) {
    assert!(rt; first_wrong_put(rt.alloc()) == Ok(None));
}

/// The entries of two maps, and those at keys of one map only.
const MERGES: &[(&[(u64, u64)], &[(u64, u64)], &[(u64, u64)])] = &[
    (&[], &[(1, 10)], &[(1, 10)]),
    (&[(1, 10)], &[], &[(1, 10)]),
    (&[(1, 10)], &[(1, 10)], &[]),
    (&[(1, 10)], &[(1, 11)], &[]),
    (&[(1, 10)], &[(2, 20)], &[(1, 10), (2, 20)]),
    (&[(2, 20)], &[(1, 10)], &[(1, 10), (2, 20)]),
    (&[(1, 10), (2, 20)], &[(1, 10)], &[(2, 20)]),
    (&[(1, 10)], &[(1, 10), (2, 20)], &[(2, 20)]),
];

/// True if the merges of both maps have the entries of one only, and those of the second.
fn is_merged(
    alloc: Global,
    mine: &[(u64, u64)],
    theirs: &[(u64, u64)],
    unshared: &[(u64, u64)],
) -> Result<bool, NoMemory> {
    let map = map_of(alloc, mine)?;
    let other = map_of(alloc, theirs)?;
    Ok(has(&map.merge(&Unshared, &other)?, unshared) && has(&map.merge(&Second, &other)?, theirs))
}

/// The first row whose maps aren't merged as it says, if any.
fn first_wrong_merge(alloc: Global) -> Result<Option<usize>, NoMemory> {
    for i in 0..MERGES.len() {
        let (mine, theirs, unshared) = MERGES[i];
        if !is_merged(alloc, mine, theirs, unshared)? {
            return Ok(Some(i));
        }
    }
    Ok(None)
}

#[test]
fn maps_of_few_entries_are_merged(rt: HostRuntime) {
    assert!(rt; first_wrong_merge(rt.alloc()) == Ok(None));
}

/// Swaps a value and the target, or fails.
#[derive(Clone, Copy, Debug)]
struct Swap {
    is_failing: bool,
}

impl Alter<u64, u64> for Swap {
    ghost use Rattle.std.specs.Prelude.{◌≡◌};

    ghost does = { λ _ value target made after. (made ≡ target) × (after ≡ value) };

    fn alter(&self, value: &mut u64, target: &mut u64) -> Result<(), NoMemory> {
        if self.is_failing {
            return Err(NoMemory);
        }
        swap(value, target);
        Ok(())
    }
}

/// The map of the keys 1 to `count`, each with ten times the key. Many are in blocks.
fn tens(alloc: Global, count: u64) -> Result<Map, NoMemory> {
    let mut map = Map::empty(alloc);
    for key in 1..=count {
        map.put(key, key.wrapping_mul(10))?;
    }
    if count > 2 {
        map = map.merge(&Unshared, &Map::empty(alloc))?;
    }
    Ok(map)
}

/// What a swap of the number 7 with the value at a key answers: whether it is done, the value then, and the number.
fn swapped(map: &mut Map, key: u64) -> Result<(bool, Option<u64>, u64), NoMemory> {
    let mut target = 7;
    let is_done = map.alter(key, &Swap { is_failing: false }, &mut target)?;
    Ok((is_done, map.get(key).copied(), target))
}

/// The number of keys, a key, whether a copy is held, and what a swap answers.
const SWAPS: &[(u64, u64, bool, (bool, Option<u64>, u64))] = &[
    (0, 1, false, (false, None, 7)),
    (1, 1, false, (false, Some(10), 7)),
    (2, 1, false, (true, Some(7), 10)),
    (2, 2, false, (true, Some(7), 20)),
    (2, 3, false, (false, None, 7)),
    (2, 1, true, (false, Some(10), 7)),
    // in a block, and in the last entries
    (21, 1, false, (true, Some(7), 10)),
    (21, 21, false, (true, Some(7), 210)),
    (21, 22, false, (false, None, 7)),
    (21, 1, true, (false, Some(10), 7)),
];

/// True if the swap answers so, and leaves the copy, if there is one.
fn is_swapped(
    alloc: Global,
    count: u64,
    key: u64,
    is_copied: bool,
    answer: (bool, Option<u64>, u64),
) -> Result<bool, NoMemory> {
    let mut map = tens(alloc, count)?;
    if !is_copied {
        return Ok(swapped(&mut map, key)? == answer);
    }
    let copy = map.copy()?;
    Ok(swapped(&mut map, key)? == answer && copy.get(key) == Some(&key.wrapping_mul(10)))
}

/// The first row whose value isn't swapped as it says, if any.
fn first_wrong_swap(alloc: Global) -> Result<Option<usize>, NoMemory> {
    for i in 0..SWAPS.len() {
        let (count, key, is_copied, answer) = SWAPS[i];
        if !is_swapped(alloc, count, key, is_copied, answer)? {
            return Ok(Some(i));
        }
    }
    Ok(None)
}

#[test]
fn a_value_that_none_shares_is_altered(rt: HostRuntime) {
    assert!(rt; first_wrong_swap(rt.alloc()) == Ok(None));
}

/// True if an alteration that fails leaves the map and the target.
fn is_left_by_failure(alloc: Global, count: u64) -> Result<bool, NoMemory> {
    let mut map = tens(alloc, count)?;
    let mut target = 7;
    let is_failed = map
        .alter(1, &Swap { is_failing: true }, &mut target)
        .is_err();
    Ok(is_failed && target == 7 && map.get(1) == Some(&10))
}

#[test]
fn a_failed_alteration_changes_nothing(rt: HostRuntime) {
    assert!(rt; is_left_by_failure(rt.alloc(), 2) == Ok(true));
    assert!(rt; is_left_by_failure(rt.alloc(), 21) == Ok(true));
}
