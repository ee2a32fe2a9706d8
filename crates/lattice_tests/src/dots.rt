//! Contexts, and sorted lists of keys.
use crate::sample::{context_of, dot, origin};
use dac_base::{AppId, NoMemory};
use dac_dots::{Context, FilteredContext, Further};
use dac_origins::keys::{MapKey, holds_key, insert_key, remove_key};
use std::alloc::Global;

/// True if node 0's next dot has this counter, and the context is a version vector or not.
fn goes_on(context: &Context, next: u64, is_vector: bool) -> bool {
    context.next(origin(0)) == Some(dot(0, next)) && context.is_vector() == is_vector
}

/// True if the context is one row of node 0 with these counters.
fn is_row(alloc: Global, context: &Context, upto: u64, further: &[u64]) -> Result<bool, NoMemory> {
    let Some(row) = context.row(0) else {
        return Ok(false);
    };
    let is_own = row.0 == origin(0) && row.1 == upto && context.rows() == 1;
    Ok(is_own && are_listed_as(alloc, &row.2, further)?)
}

/// True if exactly these counters are at their places.
fn are_at_their_places(further: &Further<'_>, counters: &[u64]) -> bool {
    for place in 0..counters.len() {
        if further.get(place) != Some(counters[place]) {
            return false;
        }
    }
    further.get(counters.len()).is_none()
}

/// True if the iterator returns exactly these counters.
fn are_walked_as(further: &Further<'_>, counters: &[u64]) -> bool {
    let mut walk = further.iter();
    for counter in counters {
        if walk.next() != Some(*counter) {
            return false;
        }
    }
    walk.next().is_none()
}

/// True if the row's cloud has exactly these counters.
fn are_listed_as(alloc: Global, further: &Further<'_>, counters: &[u64]) -> Result<bool, NoMemory> {
    let has_length = further.len() == counters.len() as u128;
    let says_empty = further.is_empty() == counters.is_empty();
    let has_each = are_at_their_places(further, counters) && are_walked_as(further, counters);
    Ok(has_length && says_empty && has_each && further.list(alloc)?.as_slice() == counters)
}

/// True if inserting these counters gives this next dot and row.
fn is_kept(
    alloc: Global,
    counters: &[u64],
    next: u64,
    is_vector: bool,
    upto: u64,
    further: &[u64],
) -> Result<bool, NoMemory> {
    let context = context_of(alloc, counters)?;
    Ok(goes_on(&context, next, is_vector) && is_row(alloc, &context, upto, further)?)
}

/// Counters inserted for node 0; the next counter, whether they form a version vector, and their row.
const COUNTERS: &[(&[u64], u64, bool, u64, &[u64])] = &[
    (&[1, 2, 4], 5, false, 2, &[4]),
    (&[1, 2, 4, 3], 5, true, 4, &[]),
    (&[9, 0, 3, 1, 5], 10, false, 1, &[0, 3, 5, 9]),
];

#[test]
fn a_gap_is_closed(rt: HostRuntime) {
    for (counters, next, is_vector, upto, further) in COUNTERS {
        let answer = is_kept(rt.alloc(), counters, *next, *is_vector, *upto, further);
        assert!(rt; matches!(answer, Ok(true)), "with {upto} in a row");
    }
}

/// True if the context's union with itself has the same dots.
fn is_its_union(context: &Context) -> Result<bool, NoMemory> {
    let both = context.union(context)?;
    Ok(both.is_subset(context) && context.copy()?.is_subset(&both))
}

/// True if a context of four dots returns them in order.
fn has_its_dots(alloc: Global) -> Result<bool, NoMemory> {
    let context = context_of(alloc, &[1, 2, 4, 3])?;
    let dots = [dot(0, 1), dot(0, 2), dot(0, 3), dot(0, 4)];
    Ok(
        context.contains(dot(0, 4))
            && context.dots()?.as_slice() == dots.as_slice()
            && is_its_union(&context)?,
    )
}

#[test]
fn dots_of_a_vector(rt: HostRuntime) {
    assert!(rt; matches!(has_its_dots(rt.alloc()), Ok(true)));
}

/// True if a filter for `asked` questions contains the fourth dot of node 0, and not the third.
fn tells_its_dots(context: &Context, asked: usize) -> bool {
    let filtered = FilteredContext::of(context, asked);
    filtered.contains(dot(0, 4)) && !filtered.contains(dot(0, 3)) && filtered.context().len() == 3
}

/// True if filters with and without marks agree with a context of three dots.
fn tells_with_marks(alloc: Global) -> Result<bool, NoMemory> {
    let context = context_of(alloc, &[1, 2, 4])?;
    Ok(tells_its_dots(&context, 100) && tells_its_dots(&context, 1))
}

#[test]
fn dots_are_told_by_marks(rt: HostRuntime) {
    assert!(rt; matches!(tells_with_marks(rt.alloc()), Ok(true)));
}

/// Twenty counters up to 40, each second one.
fn every_second(alloc: Global, rest: u64) -> Result<Context, NoMemory> {
    let mut context = Context::empty(alloc);
    for n in 1..41u64 {
        if n % 2 == rest {
            context.insert(dot(0, n))?;
        }
    }
    Ok(context)
}

/// True if two contexts that fill each other's gaps unite to one row without a gap.
fn are_closed_by_each_other(alloc: Global) -> Result<bool, NoMemory> {
    let odd = every_second(alloc, 1)?;
    let even = every_second(alloc, 0)?;
    let both = odd.union(&even)?;
    let gaps = !odd.is_vector() && !even.is_subset(&odd) && odd.len() == 20;
    Ok(gaps && even.is_subset(&both) && is_row(alloc, &both, 40, &[])?)
}

#[test]
fn gaps_of_many_runs_are_closed(rt: HostRuntime) {
    assert!(rt; matches!(are_closed_by_each_other(rt.alloc()), Ok(true)));
}

/// The number of dots in a context of one row, if the row is accepted.
fn len_after_push(alloc: Global, upto: u64, further: &[u64]) -> Result<Option<u128>, NoMemory> {
    let mut context = Context::empty(alloc);
    if !context.push_row(origin(0), upto, further)? {
        return Ok(None);
    }
    Ok(Some(context.len()))
}

#[test]
fn rows_are_appended(rt: HostRuntime) {
    let most = 1 << 62;
    assert!(rt; len_after_push(rt.alloc(), most, &[]) == Ok(Some(1 << 62)));
    assert!(rt; len_after_push(rt.alloc(), 1, &[2]) == Ok(None));
}

/// True if two keys are listed in order, found, and one is removed.
fn are_listed<K: MapKey>(alloc: Global, low: K, high: K) -> Result<bool, NoMemory> {
    let mut keys = Vec::new(alloc);
    insert_key(&mut keys, high)?;
    insert_key(&mut keys, low)?;
    let found = holds_key(&keys, low) && keys.len() == 2;
    remove_key(&mut keys, low);
    Ok(found && !holds_key(&keys, low) && holds_key(&keys, high))
}

#[test]
fn keys_are_listed(rt: HostRuntime) {
    let answer = are_listed(rt.alloc(), AppId(2), AppId(7));
    assert!(rt; matches!(answer, Ok(true)));
}
