//! Lists of dots, which are mostly single.
ghost use Rattle.std.specs.Prelude.{◌≡◌, ◌||◌, ◌&&◌, [], ◌∷◌, IfOk, OnErr, OnOk, not, true};
ghost use Rattle.std.specs.Ordering.{eq_by_cmp};
ghost use Rattle.dac_origins.specs.Dots.{dot_cmp};
ghost use Rattle.dac_origins.specs.Keys.{IsRising, has_key};
ghost use Rattle.dac_store.specs.Few.{dots_of};

use dac_origins::keys::{insert_key, remove_key};
use dac_origins::{Dot, NoMemory};
use std::alloc::Global;
use std::cmp::Ordering;
use std::slice::from_ref;

/// The dots of a set in ascending order. A single one needs no allocation.
#[derive(Drop)]
pub(crate) enum FewDots {
    /// No dots.
    Empty,
    /// A single dot, stored inline.
    One(Dot),
    /// A list of dots.
    Sorted(Vec<Dot>),
}

impl FewDots {
    /// The empty list, with room for `most` dots.
    pub(crate) fn with_room(alloc: Global, most: usize) -> Result<Self, NoMemory>
        ensures { IfOk result (λ made. dots_of made ≡ []) }
    {
        if most <= 1 {
            return Ok(FewDots::Empty);
        }
        let dots = Vec::with_capacity(alloc, most)?;
        Ok(FewDots::Sorted(dots))
    }

    /// The dots in ascending order.
    pub(crate) fn as_slice(&self) -> &[Dot]
        ensures { result.now ≡ dots_of self.now }
    {
        match self {
            FewDots::Empty => &[],
            FewDots::One(dot) => from_ref(dot),
            FewDots::Sorted(dots) => dots.as_slice(),
        }
    }

    /// Whether both have the same dots.
    pub(crate) fn is_same(&self, other: &Self) -> bool
        ensures { result ≡ true → dots_of self.now ≡ dots_of other.now }
    {
        // Most sets have a single dot.
        match (self, other) {
            (FewDots::One(mine), FewDots::One(theirs)) => mine == theirs,
            _ => self.as_slice() == other.as_slice(),
        }
    }

    /// A list of equal dots.
    pub(crate) fn copy(&self, alloc: Global) -> Result<Self, NoMemory>
        ensures { IfOk result (λ copied. dots_of copied ≡ dots_of self.now) }
    {
        match self {
            FewDots::Empty => Ok(FewDots::Empty),
            FewDots::One(dot) => Ok(FewDots::One(*dot)),
            FewDots::Sorted(dots) => {
                let copied = Vec::from_slice(alloc, dots)?;
                Ok(FewDots::Sorted(copied))
            }
        }
    }

    /// A list of equal dots, with room for `more` further ones.
    pub(crate) fn copy_with_room(&self, alloc: Global, more: usize) -> Result<Self, NoMemory>
        ensures { IfOk result (λ copied. dots_of copied ≡ dots_of self.now) }
    {
        if more == 0 {
            return self.copy(alloc);
        }
        let dots = self.as_slice();
        let mut copied = Vec::with_capacity(alloc, dots.len().saturating_add(more))?;
        copied.extend_from_slice(dots)?;
        Ok(FewDots::Sorted(copied))
    }

    /// Inserts a dot, unless it is there. After [`NoMemory`] the dots are unchanged.
    pub(crate) fn insert(&mut self, alloc: Global, dot: Dot) -> Result<(), NoMemory>
        requires { IsRising dot_cmp (dots_of self.old) }
        ensures rising { IsRising dot_cmp (dots_of self.new) }
        ensures ok { OnOk result ((q : _)
            → has_key dot_cmp (dots_of self.new) q
            ≡ (eq_by_cmp dot_cmp q dot || has_key dot_cmp (dots_of self.old) q)) }
        ensures err { OnErr result (dots_of self.new ≡ dots_of self.old) }
    {
        match self {
            FewDots::Empty => *self = FewDots::One(dot),
            FewDots::One(single) => *self = one_or_two(alloc, *single, dot)?,
            FewDots::Sorted(dots) => insert_key(dots, dot)?,
        }
        Ok(())
    }

    /// Removes a dot, if it is there.
    pub(crate) fn remove(&mut self, dot: Dot)
        requires { IsRising dot_cmp (dots_of self.old) }
        ensures rising { IsRising dot_cmp (dots_of self.new) }
        ensures value { (q : _)
            → has_key dot_cmp (dots_of self.new) q
            ≡ (not (eq_by_cmp dot_cmp q dot) && has_key dot_cmp (dots_of self.old) q) }
    {
        match self {
            FewDots::Empty => (),
            FewDots::One(single) => {
                let single = *single;
                if single.cmp(&dot).is_eq() {
                    *self = FewDots::Empty;
                }
            }
            FewDots::Sorted(dots) => remove_key(dots, dot),
        }
    }
}

/// A single dot and another one; allocates only if they differ.
fn one_or_two(alloc: Global, single: Dot, dot: Dot) -> Result<FewDots, NoMemory>
    ensures rising { IfOk result (λ both. IsRising dot_cmp (dots_of both)) }
    ensures ok { IfOk result (λ both. (q : _)
        → has_key dot_cmp (dots_of both) q
        ≡ (eq_by_cmp dot_cmp q dot || has_key dot_cmp (single ∷ []) q)) }
{
    match single.cmp(&dot) {
        Ordering::Less => two(alloc, single, dot),
        Ordering::Equal => Ok(FewDots::One(dot)),
        Ordering::Greater => two(alloc, dot, single),
    }
}

/// Two dots, the lower one first.
fn two(alloc: Global, lower: Dot, upper: Dot) -> Result<FewDots, NoMemory>
    ensures { IfOk result (λ both. dots_of both ≡ lower ∷ upper ∷ []) }
{
    let both = Vec::from_slice(alloc, &[lower, upper])?;
    Ok(FewDots::Sorted(both))
}
