//! Sets of dots as a dot store.
ghost use Rattle.std.specs.Prelude.{◌≡◌, ◌||◌, ◌&&◌, IfOk, OnErr, OnOk, true, if◌then◌else◌};
ghost use Rattle.std.specs.FinSet as set;
ghost use Rattle.dac_origins.specs.InOrder.{in_order};
ghost use Rattle.dac_store.specs.Appending.{is_above_dots};
ghost use Rattle.dac_store.specs.DotSets.{join_sets, may_stay};

use crate::DotStore;
use crate::few::FewDots;
use dac_dots::{Context, DotFilter, FilteredContext};
use dac_origins::keys::holds_key;
use dac_origins::{Dot, NoMemory};
use std::alloc::Global;
use std::marker::Model;

/// A context is small if the other side's set has this many times as many dots. The factor is high because each removal
/// moves all later dots.
const SMALL_CONTEXT_FACTOR: usize = 32;

/// A set of dots, stored as a sorted list. A single dot needs no allocation. Contracts treat it as a finite set.
#[derive(Drop)]
pub struct DotSet {
    alloc: Global,
    few: FewDots,
}

impl Model for DotSet {
    ghost use Rattle.std.specs.FinSet as set;
    ghost use Rattle.dac_origins.specs.Keys.{IsRising};
    ghost use Rattle.dac_origins.specs.Dots.{dot_cmp, coded_dot};
    ghost use Rattle.dac_store.specs.Few.{dots_of};

    ghost Value = { set.FinSet dot_cmp };

    ghost coded = { set.code coded_dot };

    ghost view = { λ a. set.from_list (dots_of a.few) };

    ghost invariant = { λ a. IsRising dot_cmp (dots_of a.few) };
}

impl DotSet {
    /// The set of one dot. Allocates nothing at present; it returns a `Result` as the other stores do.
    pub fn one(alloc: Global, dot: Dot) -> Result<Self, NoMemory>
        ensures { IfOk result (λ one. one ≡ set.insert set.empty dot) }
    {
        let few = FewDots::One(dot);
        Ok(DotSet { alloc, few })
    }

    /// The dots in ascending order, each once.
    pub fn dots(&self) -> &[Dot]
        ensures { result.now ≡ in_order self.now }
    {
        self.few.as_slice()
    }

    /// Appends a dot if it is above each dot of the set, and returns whether it was. Otherwise, and after [`NoMemory`],
    /// the set is unchanged.
    pub fn push(&mut self, dot: Dot) -> Result<bool, NoMemory>
        ensures ok { IfOk result (λ pushed. pushed ≡ is_above_dots self.old dot) }
        ensures new { IfOk result
            (λ pushed. self.new ≡ (if pushed then set.insert self.old dot else self.old)) }
        ensures err { OnErr result (self.new ≡ self.old) }
        ensures last { OnErr result (is_above_dots self.old dot ≡ true) }
    {
        if !self.ends_below(dot) {
            return Ok(false);
        }
        self.insert(dot)?;
        Ok(true)
    }

    /// The empty set, with room for `most` dots.
    fn with_room(alloc: Global, most: usize) -> Result<Self, NoMemory>
        ensures { IfOk result (λ made. made ≡ set.empty) }
    {
        let few = FewDots::with_room(alloc, most)?;
        Ok(DotSet { alloc, few })
    }

    /// An equal set, with room for `more` further dots.
    fn copy_with_room(&self, more: usize) -> Result<Self, NoMemory>
        ensures { IfOk result (λ copied. copied ≡ self.now) }
    {
        let alloc = self.alloc;
        let few = self.few.copy_with_room(alloc, more)?;
        Ok(DotSet { alloc, few })
    }

    /// Whether each dot of the set is below this one.
    fn ends_below(&self, dot: Dot) -> bool
        ensures { result ≡ is_above_dots self.now dot }
    {
        match self.dots().last() {
            Some(last) => last.cmp(&dot).is_lt(),
            None => true,
        }
    }

    /// Inserts a dot. After [`NoMemory`] the set is unchanged.
    fn insert(&mut self, dot: Dot) -> Result<(), NoMemory>
        ensures ok { OnOk result (self.new ≡ set.insert self.old dot) }
        ensures err { OnErr result (self.new ≡ self.old) }
    {
        self.few.insert(self.alloc, dot)?;
        Ok(())
    }

    /// Removes a dot, if it is there.
    fn remove(&mut self, dot: Dot)
        ensures { self.new ≡ set.remove self.old dot }
    {
        self.few.remove(dot);
    }

    /// Whether the other side's dot stays in a join: this set has it, or `heard` lacks it.
    fn lets_stay(&self, heard: &Context, dot: Dot) -> bool
        ensures { result ≡ may_stay self.now heard.now dot }
    {
        self.has(dot) || !heard.contains(dot)
    }

    /// Inserts the dots of `from` that stay in a join with the set `beside` and its context.
    fn insert_surviving(
        &mut self,
        from: &Self,
        beside: &Self,
        heard: &Context,
    ) -> Result<(), NoMemory>
        ensures { OnOk result ((q : _)
            → set.contains self.new q
            ≡ (set.contains self.old q
            || (set.contains from.now q && may_stay beside.now heard.now q))) }
    {
        for dot in from.dots() {
            if beside.lets_stay(heard, *dot) {
                self.insert(*dot)?;
            }
        }
        Ok(())
    }

    /// Removes the dots that the context of another side has and its set lacks.
    fn remove_replaced(&mut self, beside: &Self, heard: &Context) -> Result<(), NoMemory>
        ensures { OnOk result ((q : _)
            → set.contains self.new q
            ≡ (set.contains self.old q && may_stay beside.now heard.now q)) }
    {
        let known = heard.dots()?;
        for dot in &known {
            if !beside.has(*dot) {
                self.remove(*dot);
            }
        }
        Ok(())
    }

    /// The join with a side whose context is small: removes the dots that it removed, and adds its own.
    fn join_few(&self, heard: &Context, few: &Self, few_heard: &Context) -> Result<Self, NoMemory>
        ensures { IfOk result
            (λ joined. joined ≡ join_sets self.now heard.now few.now few_heard.now) }
    {
        let mut joined = self.copy_with_room(few.dots().len())?;
        joined.remove_replaced(few, few_heard)?;
        joined.insert_surviving(few, self, heard)?;
        Ok(joined)
    }

    /// The join that examines each dot of both sides.
    fn join_each(
        &self,
        heard: &Context,
        other: &Self,
        other_heard: &Context,
    ) -> Result<Self, NoMemory>
        ensures { IfOk result
            (λ joined. joined ≡ join_sets self.now heard.now other.now other_heard.now) }
    {
        let most = self.dots().len().max(other.dots().len());
        let mut joined = DotSet::with_room(self.alloc, most)?;
        joined.insert_surviving(self, other, other_heard)?;
        joined.insert_surviving(other, self, heard)?;
        Ok(joined)
    }
}

impl DotStore for DotSet {
    ghost use Rattle.std.specs.FinSet as set;
    ghost use Rattle.dac_lattice.specs.Chains.{IsAny};
    ghost use Rattle.dac_store.specs.DotSets.{IsSetBelow, join_sets, is_empty_set};
    ghost use Rattle.dac_store.specs.laws.DotSets.{set_laws};

    ghost is_store = { IsAny };

    ghost has = { set.contains };

    ghost below = { IsSetBelow };

    ghost join = { join_sets };

    ghost nothing = { set.empty };

    ghost is_empty = { is_empty_set };

    ghost laws = { set_laws };

    fn tells_invariant(&self) {}

    fn empty(alloc: Global) -> Self {
        let few = FewDots::Empty;
        DotSet { alloc, few }
    }

    fn allocator(&self) -> Global {
        self.alloc
    }

    fn copy(&self) -> Result<Self, NoMemory> {
        let alloc = self.alloc;
        let few = self.few.copy(alloc)?;
        Ok(DotSet { alloc, few })
    }

    fn join_in(
        &self,
        heard: &Context,
        other: &Self,
        other_heard: &Context,
    ) -> Result<Self, NoMemory> {
        // Mostly both sides have the same dots.
        if self.is_same(other) {
            return self.copy();
        }
        if other_heard.has_at_most(self.dots().len() / SMALL_CONTEXT_FACTOR) {
            return self.join_few(heard, other, other_heard);
        }
        if heard.has_at_most(other.dots().len() / SMALL_CONTEXT_FACTOR) {
            return other.join_few(other_heard, self, heard);
        }
        self.join_each(heard, other, other_heard)
    }

    fn leq_in(&self, heard: &Context, other: &Self, _other_heard: &Context) -> bool {
        for dot in other.dots() {
            if !self.lets_stay(heard, *dot) {
                return false;
            }
        }
        true
    }

    fn has(&self, dot: Dot) -> bool {
        holds_key(self.few.as_slice(), dot)
    }

    fn within(&self, context: &Context) -> bool {
        for dot in self.dots() {
            if !context.contains(*dot) {
                return false;
            }
        }
        true
    }

    #[inline(always)]
    fn is_unheard(&self, heard: &FilteredContext<'_>) -> bool {
        // Most sets have a single dot.
        if let FewDots::One(dot) = &self.few {
            return !heard.contains(*dot);
        }
        for dot in self.dots() {
            if heard.contains(*dot) {
                return false;
            }
        }
        true
    }

    fn is_same(&self, other: &Self) -> bool {
        self.few.is_same(&other.few)
    }

    fn fill(&self, filter: &mut DotFilter) {
        for dot in self.dots() {
            filter.put(*dot);
        }
    }

    fn is_empty(&self) -> bool {
        self.dots().is_empty()
    }
}
