//! Lists of dots with values, which are mostly single.
ghost use Rattle.std.specs.Prelude.{◌≡◌, ◌++◌, [], ◌∷◌, IfOk, OnOk, OnErr};
ghost use Rattle.std.specs.Arc.{arc_value};
ghost use Rattle.std.specs.Option.{option_copied, option_to_list};
ghost use Rattle.dac_origins.specs.Dots.{dot_cmp};
ghost use Rattle.dac_lattice.specs.Entries.{merge_entries, keep};
ghost use Rattle.dac_store.specs.FewEntries.{entries_of};

use dac_lattice::Lattice;
use dac_lattice::merging::{Combine, merge};
use dac_origins::{Dot, NoMemory};
use std::alloc::{AllocError, Global};
use std::cmp::Ordering;
use std::marker::Model;
use std::sync::Arc;

/// Dots with their values, which stores can share. Contracts treat them as a list.
#[derive(Drop)]
pub(crate) struct DotEntries<V: Lattice> {
    entries: Vec<(Dot, V)>,
}

impl<V: Lattice> Model for DotEntries<V> {
    ghost use Rattle.std.specs.Prelude.{List};
    ghost use Rattle.dac_origins.specs.declared.Dot.{Dot};

    ghost Value = { List (Dot × V) };

    ghost view = { λ a. a.entries.items };
}

/// A clone is a copy, which `Arc::make_mut` requires; it shares nothing.
impl<V: Lattice> Clone for DotEntries<V> {
    ghost use Rattle.std.specs.Prelude.{◌≡◌};

    ghost is_clone = { λ list copied. copied ≡ list };

    fn clone(&self) -> Result<Self, AllocError> {
        match copy_each(*self.entries.allocator(), &self.entries) {
            Ok(entries) => Ok(DotEntries { entries }),
            Err(_refused) => Err(AllocError),
        }
    }
}

impl<V: Lattice> DotEntries<V> {
    /// Moves a list into shared memory.
    fn shared(alloc: Global, entries: Vec<(Dot, V)>) -> Result<Arc<Self, Global>, NoMemory>
        ensures { IfOk result (λ shared. arc_value shared ≡ entries.items) }
    {
        let shared = Arc::new(alloc, DotEntries { entries })?;
        Ok(shared)
    }

    /// The dots with their values.
    fn as_slice(&self) -> &[(Dot, V)]
        ensures { result.now ≡ self.now }
    {
        self.entries.as_slice()
    }

    /// Appends a dot with its value. After [`NoMemory`] the list is unchanged.
    fn push(&mut self, dot: Dot, value: V) -> Result<(), NoMemory>
        ensures ok { OnOk result (self.new ≡ self.old ++ (dot, value) ∷ []) }
        ensures err { OnErr result (self.new ≡ self.old) }
    {
        self.entries.push((dot, value))?;
        Ok(())
    }
}

/// The dots of a store with their values, in the order of dots. A single one needs no allocation, and copies share a
/// list of several.
#[derive(Drop)]
pub(crate) enum FewEntries<V: Lattice> {
    /// No dots.
    Empty,
    /// A single dot with its value, stored inline.
    One([(Dot, V); 1]),
    /// A list of dots with their values.
    Sorted(Arc<DotEntries<V>, Global>),
}

impl<V: Lattice> FewEntries<V> {
    /// The dots with their values, in order.
    pub(crate) fn as_slice(&self) -> &[(Dot, V)]
        ensures { result.now ≡ entries_of self.now }
    {
        match self {
            FewEntries::Empty => &[],
            FewEntries::One(single) => single.as_slice(),
            FewEntries::Sorted(entries) => entries.as_slice(),
        }
    }

    /// Equal values at the same dots.
    pub(crate) fn copy(&self) -> Result<Self, NoMemory>
        ensures { IfOk result (λ copied. entries_of copied ≡ entries_of self.now) }
    {
        match self {
            FewEntries::Empty => Ok(FewEntries::Empty),
            FewEntries::One([(dot, value)]) => {
                let copied = value.copy()?;
                Ok(FewEntries::One([(*dot, copied)]))
            }
            FewEntries::Sorted(entries) => {
                let shared = Arc::try_clone(entries)?;
                Ok(FewEntries::Sorted(shared))
            }
        }
    }

    /// Appends a dot with its value. After [`NoMemory`] the entries are unchanged.
    #[inline(always)]
    pub(crate) fn push(&mut self, alloc: Global, dot: Dot, value: V) -> Result<(), NoMemory>
        ensures ok { OnOk result (entries_of self.new ≡ entries_of self.old ++ (dot, value) ∷ []) }
        ensures err { OnErr result (entries_of self.new ≡ entries_of self.old) }
    {
        match self {
            FewEntries::Empty => *self = FewEntries::One([(dot, value)]),
            FewEntries::One(single) => *self = two(alloc, single, dot, value)?,
            FewEntries::Sorted(entries) => Arc::make_mut(entries)?.push(dot, value)?,
        }
        Ok(())
    }
}

/// A copy of a single entry, with another one after it.
fn two<V: Lattice>(
    alloc: Global,
    single: &[(Dot, V); 1],
    dot: Dot,
    value: V,
) -> Result<FewEntries<V>, NoMemory>
    ensures { IfOk result (λ both. entries_of both ≡ single.now ++ (dot, value) ∷ []) }
{
    let [(lower, first)] = single;
    let copied = first.copy()?;
    let mut both = Vec::with_capacity(alloc, 2)?;
    both.push_reserved((*lower, copied));
    both.push_reserved((dot, value));
    let shared = DotEntries::shared(alloc, both)?;
    Ok(FewEntries::Sorted(shared))
}

/// Copies of the values at the dots of a list.
fn copy_each<V: Lattice>(alloc: Global, entries: &[(Dot, V)]) -> Result<Vec<(Dot, V)>, NoMemory>
    ensures { IfOk result (λ copied. copied.items ≡ entries.now) }
{
    let mut copied = Vec::with_capacity(alloc, entries.len())?;
    for (dot, value) in entries {
        copied.push((*dot, value.copy()?))?;
    }
    Ok(copied)
}

/// Merges both lists with `how`. If each has at most one entry, it allocates only for a result of two.
pub(crate) fn merge_few<V: Lattice, C: Combine<Dot, V>>(
    alloc: Global,
    how: &C,
    mine: &[(Dot, V)],
    theirs: &[(Dot, V)],
) -> Result<FewEntries<V>, NoMemory>
    ensures { IfOk result (λ merged. entries_of merged
        ≡ merge_entries dot_cmp (C.combined how.now) mine.now theirs.now) }
{
    if mine.len() <= 1 && theirs.len() <= 1 {
        return merge_singles(alloc, how, mine.first(), theirs.first());
    }
    let merged = merge(alloc, how, mine, theirs)?;
    let shared = DotEntries::shared(alloc, merged)?;
    Ok(FewEntries::Sorted(shared))
}

/// Merges at most one entry of each side.
fn merge_singles<V: Lattice, C: Combine<Dot, V>>(
    alloc: Global,
    how: &C,
    mine: Option<&(Dot, V)>,
    theirs: Option<&(Dot, V)>,
) -> Result<FewEntries<V>, NoMemory>
    ensures { IfOk result (λ merged. entries_of merged
        ≡ merge_entries dot_cmp (C.combined how.now) (option_to_list (option_copied mine.entry))
        (option_to_list (option_copied theirs.entry))) }
{
    match (mine, theirs) {
        (Some(mine), Some(theirs)) => merge_pair(alloc, how, mine, theirs),
        (Some((dot, mine)), None) => Ok(keep_one(*dot, how.left(*dot, mine)?)),
        (None, Some((dot, theirs))) => Ok(keep_one(*dot, how.right(*dot, theirs)?)),
        (None, None) => Ok(FewEntries::Empty),
    }
}

/// Merges one entry of each side.
fn merge_pair<V: Lattice, C: Combine<Dot, V>>(
    alloc: Global,
    how: &C,
    mine: &(Dot, V),
    theirs: &(Dot, V),
) -> Result<FewEntries<V>, NoMemory>
    ensures { IfOk result (λ merged. entries_of merged
        ≡ merge_entries dot_cmp (C.combined how.now) (mine.now ∷ []) (theirs.now ∷ [])) }
{
    let (x, mine) = mine;
    let (y, theirs) = theirs;
    match x.cmp(y) {
        Ordering::Less => keep_both(alloc, *x, how.left(*x, mine)?, *y, how.right(*y, theirs)?),
        Ordering::Equal => Ok(keep_one(*x, how.both(*x, mine, theirs)?)),
        Ordering::Greater => keep_both(alloc, *y, how.right(*y, theirs)?, *x, how.left(*x, mine)?),
    }
}

/// The merged value at one dot, if any.
fn keep_one<V: Lattice>(dot: Dot, value: Option<V>) -> FewEntries<V>
    ensures { entries_of result ≡ keep dot value [] }
{
    match value {
        Some(value) => FewEntries::One([(dot, value)]),
        None => FewEntries::Empty,
    }
}

/// The merged values at two dots, the lower one first.
fn keep_both<V: Lattice>(
    alloc: Global,
    lower: Dot,
    value: Option<V>,
    upper: Dot,
    other: Option<V>,
) -> Result<FewEntries<V>, NoMemory>
    ensures { IfOk result (λ both. entries_of both ≡ keep lower value (keep upper other [])) }
{
    let Some(other) = other else {
        return Ok(keep_one(lower, value));
    };
    let mut both = keep_one(lower, value);
    both.push(alloc, upper, other)?;
    Ok(both)
}
