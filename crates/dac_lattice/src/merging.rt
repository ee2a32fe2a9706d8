//! The merge of two maps that are stored as lists of entries in key order.
ghost use Rattle.std.specs.Prelude.{◌≡◌, ◌++◌, [], length, None, Some, Option, IfOk, IsOkAnd, OnOk, OnErr};
ghost use Rattle.std.specs.List.Sorted.{IsSearchInRange, IsBinarySearchResult};
ghost use Rattle.std.specs.Option.{option_copied};
ghost use Rattle.std.specs.FinMap.{find, put};
ghost use Rattle.dac_lattice.specs.Altered.{IsAlteredIf};
ghost use Rattle.dac_lattice.specs.Entries.{merge_entries, keep};
ghost use Rattle.dac_lattice.specs.Merges.{lowest_of, keep_lowest};
ghost use Rattle.dac_lattice.specs.Search.{IsInOrder, IsPlaceOf, without};

use dac_origins::{MapKey, NoMemory};
use std::alloc::Global;
use std::cmp::Ordering;

/// Combines the values of two maps at a key into the value of their merge.
///
/// Each method returns the value to keep, or `None` to drop the key.
pub trait Combine<K, X> {
    /// The merged value at a key, from the value of each map there.
    ghost combined: { Self → K → Option X → Option X → Option X };

    /// Combines at a key of the first map only.
    fn left(&self, key: K, mine: &X) -> Result<Option<X>, NoMemory>
        ensures { IfOk result (λ made. made ≡ combined self.now key (Some mine.now) None) };

    /// Combines at a key of the second map only.
    fn right(&self, key: K, theirs: &X) -> Result<Option<X>, NoMemory>
        ensures { IfOk result (λ made. made ≡ combined self.now key None (Some theirs.now)) };

    /// Combines at a key of both maps.
    fn both(&self, key: K, mine: &X, theirs: &X) -> Result<Option<X>, NoMemory>
        ensures { IfOk result
            (λ made. made ≡ combined self.now key (Some mine.now) (Some theirs.now)) };
}

/// Appends an entry, if there is a value.
fn push_kept<K: MapKey, X: Drop>(
    merged: &mut Vec<(K, X)>,
    key: K,
    value: Result<Option<X>, NoMemory>,
) -> Result<(), NoMemory>
    ensures { OnOk result
        (IsOkAnd value (λ value. merged.new.items ≡ merged.old.items ++ keep key value [])) }
{
    if let Some(value) = value? {
        merged.push((key, value))?;
    }
    Ok(())
}

/// Among the next entries of two maps those with the lowest key: one of them, or both if their keys are equal.
fn lowest<'a, K: MapKey, X>(
    mine: Option<&'a (K, X)>,
    theirs: Option<&'a (K, X)>,
) -> (Option<&'a (K, X)>, Option<&'a (K, X)>)
    ensures { (option_copied result.0, option_copied result.1)
        ≡ lowest_of K.cmp (option_copied mine.entry) (option_copied theirs.entry) }
{
    let (Some(x), Some(y)) = (mine, theirs) else {
        return (mine, theirs);
    };
    match x.0.cmp(&y.0) {
        Ordering::Less => (mine, None),
        Ordering::Equal => (mine, theirs),
        Ordering::Greater => (None, theirs),
    }
}

/// Appends the combination of the entries at one key.
fn push_lowest<K: MapKey, X: Drop, C: Combine<K, X>>(
    merged: &mut Vec<(K, X)>,
    how: &C,
    mine: Option<&(K, X)>,
    theirs: Option<&(K, X)>,
) -> Result<(), NoMemory>
    ensures { OnOk result (merged.new.items
        ≡ merged.old.items
        ++ keep_lowest (C.combined how.now) (option_copied mine.entry)
        (option_copied theirs.entry) []) }
{
    match (mine, theirs) {
        (Some((key, mine)), Some((_, theirs))) => {
            push_kept(merged, *key, how.both(*key, mine, theirs))
        }
        (Some((key, mine)), None) => push_kept(merged, *key, how.left(*key, mine)),
        (None, Some((key, theirs))) => push_kept(merged, *key, how.right(*key, theirs)),
        (None, None) => Ok(()),
    }
}

/// Merges both lists with `how`, in one pass. If both are in key order, so is the result.
pub fn merge<K: MapKey, X: Drop, C: Combine<K, X>>(
    alloc: Global,
    how: &C,
    mine: &[(K, X)],
    theirs: &[(K, X)],
) -> Result<Vec<(K, X)>, NoMemory>
    ensures { IfOk result
        (λ merged. merged.items ≡ merge_entries K.cmp (C.combined how.now) mine.now theirs.now) }
{
    let mut merged = Vec::with_capacity(alloc, mine.len().max(theirs.len()))?;
    let mut i = 0;
    let mut j = 0;
    'both: while i < mine.len() || j < theirs.len() {
        let (first, second) = lowest(mine.get(i), theirs.get(j));
        push_lowest(&mut merged, how, first, second)?;
        i += usize::from(first.is_some());
        j += usize::from(second.is_some());
    }
    Ok(merged)
}

/// The index of a key, or of its insertion point.
#[inline(always)]
fn place_of<K: MapKey, X>(entries: &[(K, X)], key: K) -> Result<usize, usize>
    requires { IsInOrder K.cmp entries.now }
    ensures bound { IsSearchInRange result (length entries.now) }
    ensures position { IsBinarySearchResult (λ e. K.cmp e.0 key) entries.now result }
    ensures place { IsPlaceOf K.cmp entries.now key result }
{
    entries.binary_search_by_key(&key, |entry| entry.0)
}

/// The index of a key in a sorted list of entries. The search tries index `place` first.
pub(crate) fn place_near<K: MapKey, X>(
    entries: &[(K, X)],
    place: usize,
    key: K,
) -> Result<usize, usize>
    requires { IsInOrder K.cmp entries.now }
    ensures { IsPlaceOf K.cmp entries.now key result }
{
    match entries.get(place) {
        Some((other, _)) if other.cmp(&key).is_eq() => Ok(place),
        _ => place_of(entries, key),
    }
}

/// The value at a key of a sorted list of entries, if any. The search tries index `place` first.
pub fn value_near<K: MapKey, X>(entries: &[(K, X)], place: usize, key: K) -> Option<&X>
    requires { IsInOrder K.cmp entries.now }
    ensures { option_copied result ≡ find K.cmp key entries.now }
{
    match place_near(entries, place, key) {
        Ok(found) => Some(&entries[found].1),
        Err(_) => None,
    }
}

/// The value at a key of a sorted list of entries, if any.
pub fn value_at<K: MapKey, X>(entries: &[(K, X)], key: K) -> Option<&X>
    requires { IsInOrder K.cmp entries.now }
    ensures { option_copied result ≡ find K.cmp key entries.now }
{
    match place_of(entries, key) {
        Ok(place) => Some(&entries[place].1),
        Err(_) => None,
    }
}

/// Inserts an entry into a list in key order, or replaces the value if the key is there. After [`NoMemory`] the list is
/// unchanged.
pub fn put_entry<K: MapKey, X: Drop>(
    entries: &mut Vec<(K, X)>,
    key: K,
    value: X,
) -> Result<(), NoMemory>
    requires { IsInOrder K.cmp entries.old.items }
    ensures in_order { IsInOrder K.cmp entries.new.items }
    ensures ok { OnOk result (entries.new.items ≡ put K.cmp key value entries.old.items) }
    ensures err { OnErr result (entries.new.items ≡ entries.old.items) }
    ensures first { OnErr result (find K.cmp key entries.old.items ≡ None) }
{
    match place_of(entries, key) {
        Ok(place) => entries[place] = (key, value),
        Err(place) => entries.insert(place, (key, value))?,
    }
    Ok(())
}

/// Removes a key's entry, if it is there, from a list in key order.
pub fn remove_entry<K: MapKey, X: Drop>(entries: &mut Vec<(K, X)>, key: K)
    requires { IsInOrder K.cmp entries.old.items }
    ensures { entries.new.items ≡ without K.cmp key entries.old.items }
{
    if let Ok(place) = place_of(entries, key) {
        let _removed = entries.remove(place);
    }
}

/// A change of a value in place, and of a target with it.
pub trait Alter<X, T> {
    /// What the change does to both.
    ghost does: { Self → X → T → X → T → Type 0 };

    /// Changes both. After [`NoMemory`] both are unchanged.
    fn alter(&self, value: &mut X, target: &mut T) -> Result<(), NoMemory>
        ensures ok { OnOk result (does self.now value.old target.old value.new target.new) }
        ensures err { OnErr result ((value.new ≡ value.old) × (target.new ≡ target.old)) };
}

/// Changes the value at a key of a list in key order, and a target with it. Returns false, and changes nothing, if the
/// key is absent. After [`NoMemory`] both are unchanged.
pub fn alter_entry<K: MapKey, X: Drop, T, C: Alter<X, T>>(
    entries: &mut Vec<(K, X)>,
    key: K,
    how: &C,
    target: &mut T,
) -> Result<bool, NoMemory>
    requires { IsInOrder K.cmp entries.old.items }
    ensures ok { IfOk result (IsAlteredIf K.cmp (C.does how.now) key entries.old.items target.old
        entries.new.items target.new) }
    ensures err { OnErr result
        ((entries.new.items ≡ entries.old.items) × (target.new ≡ target.old)) }
{
    match place_of(entries, key) {
        Ok(place) => {
            let entry = &mut entries[place];
            how.alter(&mut entry.1, target)?;
            Ok(true)
        }
        Err(_) => Ok(false),
    }
}
