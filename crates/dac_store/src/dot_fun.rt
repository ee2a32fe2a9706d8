//! Maps from dots to values of a lattice.
ghost use Rattle.std.specs.Prelude.{◌≡◌, ◌↔◌, [], ◌∷◌, ◌++◌, IsTrue, IfOk, OnErr, Some, true, if◌then◌else◌};
ghost use Rattle.std.specs.FinSet as set;
ghost use Rattle.std.specs.Option.{option_copied};
ghost use Rattle.std.specs.FinMap.{find};
ghost use Rattle.dac_origins.specs.Dots.{dot_cmp};
ghost use Rattle.dac_sorted.specs.Appending.{is_above_entries};
ghost use Rattle.dac_store.specs.AtDot.{StandsBelow};

use crate::DotStore;
use crate::few_entries::{FewEntries, merge_few};
use dac_dots::{Context, DotFilter, FilteredContext};
use dac_lattice::Lattice;
use dac_lattice::merging::{Combine, value_at};
use dac_origins::{Dot, NoMemory};
use dac_sorted::ends_below;
use std::alloc::Global;
use std::marker::Model;

/// A map from dots to values of a lattice. A single entry needs no allocation. Contracts treat it as the list of its
/// entries in the order of dots.
#[derive(Drop)]
pub struct DotFun<V: Lattice> {
    alloc: Global,
    few: FewEntries<V>,
}

impl<V: Lattice> Model for DotFun<V> {
    ghost use Rattle.std.specs.Prelude.{List};
    ghost use Rattle.dac_origins.specs.Dots.{dot_cmp};
    ghost use Rattle.dac_origins.specs.declared.Dot.{Dot};
    ghost use Rattle.dac_lattice.specs.Maps.{IsMap};
    ghost use Rattle.dac_store.specs.FewEntries.{entries_of};

    ghost Value = { List (Dot × V) };

    ghost view = { λ a. entries_of a.few };

    ghost invariant = { λ a. IsMap dot_cmp V.is_value (entries_of a.few) };
}

impl<V: Lattice> DotFun<V> {
    /// The store with one dot and its value.
    pub fn one(alloc: Global, dot: Dot, value: V) -> Result<Self, NoMemory>
        ensures { IfOk result (λ store. store ≡ (dot, value) ∷ []) }
    {
        let mut store = Self::empty(alloc);
        store.push(dot, value)?;
        Ok(store)
    }

    /// Appends a dot with its value if it is above each dot of the store, and returns whether it was. Otherwise, and
    /// after [`NoMemory`], the store is unchanged.
    pub fn push(&mut self, dot: Dot, value: V) -> Result<bool, NoMemory>
        ensures ok { IfOk result (λ pushed. pushed ≡ is_above_entries dot_cmp self.old dot) }
        ensures new { IfOk result
            (λ pushed. self.new ≡ (if pushed then self.old ++ (dot, value) ∷ [] else self.old)) }
        ensures err { OnErr result (self.new ≡ self.old) }
        ensures last { OnErr result (is_above_entries dot_cmp self.old dot ≡ true) }
    {
        value.tells_invariant();
        if !ends_below(self.few.as_slice(), dot) {
            return Ok(false);
        }
        self.few.push(self.alloc, dot, value)?;
        Ok(true)
    }

    /// The value at a dot, if the store has it.
    pub fn get(&self, dot: Dot) -> Option<&V>
        ensures { option_copied result ≡ find dot_cmp dot self.now }
    {
        value_at(self.few.as_slice(), dot)
    }

    /// The dots with their values, in the order of dots.
    pub fn entries(&self) -> &[(Dot, V)]
        ensures { result.now ≡ self.now }
    {
        self.few.as_slice()
    }

    /// Whether the other side's value at a dot is allowed by the order: `heard` lacks the dot, or this side has it with
    /// a value that isn't greater.
    fn lets_stand(&self, heard: &Context, dot: Dot, theirs: &V) -> bool
        ensures { IsTrue result
            ↔ (set.contains heard.now dot ≡ true
            → StandsBelow V.below (find dot_cmp dot self.now) (Some theirs.now)) }
    {
        if !heard.contains(dot) {
            return true;
        }
        match self.get(dot) {
            Some(mine) => mine.leq(theirs),
            None => false,
        }
    }
}

/// Keeps the value of a dot that only one side has if the other's context lacks the dot, and joins the values of a dot
/// that both have.
#[derive(Clone, Copy)]
struct JoinHeard<'a> {
    mine: &'a Context,
    theirs: &'a Context,
}

impl<V: Lattice> Combine<Dot, V> for JoinHeard<'_> {
    ghost use Rattle.std.specs.FinSet as set;
    ghost use Rattle.dac_store.specs.AtDot.{join_at};

    ghost combined = { λ h x. join_at V.join (set.contains h.mine.now x)
        (set.contains h.theirs.now x) };

    #[inline(always)]
    fn left(&self, dot: Dot, mine: &V) -> Result<Option<V>, NoMemory> {
        if self.theirs.contains(dot) {
            return Ok(None);
        }
        Ok(Some(mine.copy()?))
    }

    fn right(&self, dot: Dot, theirs: &V) -> Result<Option<V>, NoMemory> {
        if self.mine.contains(dot) {
            return Ok(None);
        }
        Ok(Some(theirs.copy()?))
    }

    fn both(&self, _dot: Dot, mine: &V, theirs: &V) -> Result<Option<V>, NoMemory> {
        Ok(Some(mine.join(theirs)?))
    }
}

impl<V: Lattice> DotStore for DotFun<V> {
    ghost use Rattle.std.specs.Prelude.{[]};
    ghost use Rattle.dac_origins.specs.Dots.{dot_cmp};
    ghost use Rattle.dac_lattice.specs.Maps.{IsMap};
    ghost use Rattle.dac_store.specs.DotFuns.{has_dot, IsFunBelow, join_funs, is_empty_list};
    ghost use Rattle.dac_store.specs.laws.DotFuns.{fun_laws};

    ghost is_store = { IsMap dot_cmp V.is_value };

    ghost has = { has_dot };

    ghost below = { IsFunBelow V.below };

    ghost join = { join_funs V.join };

    ghost nothing = { [] };

    ghost is_empty = { is_empty_list };

    ghost laws = { fun_laws V.laws };

    fn tells_invariant(&self) {
        let _few = &self.few;
    }

    fn empty(alloc: Global) -> Self {
        let few = FewEntries::Empty;
        DotFun { alloc, few }
    }

    fn allocator(&self) -> Global {
        self.alloc
    }

    fn copy(&self) -> Result<Self, NoMemory> {
        let few = self.few.copy()?;
        Ok(DotFun {
            alloc: self.alloc,
            few,
        })
    }

    fn join_in(
        &self,
        heard: &Context,
        other: &Self,
        other_heard: &Context,
    ) -> Result<Self, NoMemory> {
        let how = JoinHeard {
            mine: heard,
            theirs: other_heard,
        };
        let alloc = self.alloc;
        let few = merge_few(alloc, &how, self.few.as_slice(), other.few.as_slice())?;
        Ok(DotFun { alloc, few })
    }

    fn leq_in(&self, heard: &Context, other: &Self, _other_heard: &Context) -> bool {
        for (dot, theirs) in other.few.as_slice() {
            if !self.lets_stand(heard, *dot, theirs) {
                return false;
            }
        }
        true
    }

    fn has(&self, dot: Dot) -> bool {
        self.get(dot).is_some()
    }

    fn within(&self, context: &Context) -> bool {
        for (dot, _) in self.few.as_slice() {
            if !context.contains(*dot) {
                return false;
            }
        }
        true
    }

    fn is_unheard(&self, heard: &FilteredContext<'_>) -> bool {
        for (dot, _) in self.few.as_slice() {
            if heard.contains(*dot) {
                return false;
            }
        }
        true
    }

    fn is_same(&self, other: &Self) -> bool {
        let mine = self.few.as_slice();
        let theirs = other.few.as_slice();
        if mine.len() != theirs.len() {
            return false;
        }
        for i in 0..mine.len() {
            let (dot, value) = &mine[i];
            let (other_dot, other_value) = &theirs[i];
            if dot != other_dot || !value.equal(other_value) {
                return false;
            }
        }
        true
    }

    fn fill(&self, filter: &mut DotFilter) {
        for (dot, _) in self.few.as_slice() {
            filter.put(*dot);
        }
    }

    fn is_empty(&self) -> bool {
        self.few.as_slice().is_empty()
    }
}
