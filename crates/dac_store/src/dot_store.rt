//! The trait of dot stores.
ghost use Rattle.std.specs.Prelude.{◌≡◌, ◌↔◌, Bool, true, IsTrue, IfOk, OnOk, OnErr};
ghost use Rattle.dac_origins.specs.Dots.{Dots};
ghost use Rattle.dac_origins.specs.declared.Dot.{Dot};
ghost use Rattle.dac_dots.specs.DotFilters.{may_have};
ghost use Rattle.dac_store.specs.Stores.{IsDotStore, IsHeld, IsUnheard};

use dac_dots::{Context, DotFilter, FilteredContext};
use dac_origins::{Dot, NoMemory};
use std::alloc::Global;

/// Values that contain dots. They are ordered and joined with their causal contexts, the dots that each side has
/// received.
///
/// One ghost member contains the laws. For stores whose dots are in their contexts, the order is a partial order, and
/// the join is the least upper bound, with the union of the contexts. They hold only for values with the type's
/// invariant (`is_store`), which `tells_invariant` yields.
pub trait DotStore: Drop {
    /// The type's invariant, as a predicate of values.
    ghost is_store: { Self → Type 0 };

    /// Whether a store contains a dot.
    ghost has: { Self → Dot → Bool };

    /// The order of two stores with their contexts.
    ghost below: { Self → Dots → Self → Dots → Type 0 };

    /// The join of two stores with their contexts.
    ghost join: { Self → Dots → Self → Dots → Self };

    /// The store without dots.
    ghost nothing: { Self };

    /// Whether a store has no dots.
    ghost is_empty: { Self → Bool };

    /// States the type's invariant for proofs; does nothing at run time.
    fn tells_invariant(&self)
        ensures { is_store self.now };

    /// The store without dots.
    fn empty(alloc: Global) -> Self
        ensures { result ≡ nothing };

    /// The allocator of the store's memory.
    fn allocator(&self) -> Global;

    /// An equal store. It can share immutable memory.
    fn copy(&self) -> Result<Self, NoMemory>
        ensures { IfOk result (λ copied. copied ≡ self.now) };

    /// The join of both stores: `heard` is this side's context, and `other_heard` the other side's.
    fn join_in(
        &self,
        heard: &Context,
        other: &Self,
        other_heard: &Context,
    ) -> Result<Self, NoMemory>
        ensures { IfOk result
            (λ joined. joined ≡ join self.now heard.now other.now other_heard.now) };

    /// Joins the other store into this one, as [`DotStore::join_in`] joins them. After [`NoMemory`] this store is
    /// unchanged. By default it makes the join anew.
    fn absorb_in(
        &mut self,
        heard: &Context,
        other: &Self,
        other_heard: &Context,
    ) -> Result<(), NoMemory>
        ensures ok { OnOk result
            (self.new ≡ join self.old heard.now other.now other_heard.now) }
        ensures err { OnErr result (self.new ≡ self.old) }
    {
        let joined = self.join_in(heard, other, other_heard)?;
        *self = joined;
        Ok(())
    }

    /// Whether this store is below the other one with these contexts: each dot of the other that is in `heard` is in
    /// this store too, with a value that isn't greater.
    fn leq_in(&self, heard: &Context, other: &Self, other_heard: &Context) -> bool
        ensures { IsTrue result ↔ below self.now heard.now other.now other_heard.now };

    /// Whether the store contains the dot.
    fn has(&self, dot: Dot) -> bool
        ensures { result ≡ has self.now dot };

    /// Whether the context contains each dot of the store.
    fn within(&self, context: &Context) -> bool
        ensures { IsTrue result ↔ IsHeld (has self.now) context.now };

    /// Whether the context contains no dot of the store.
    fn is_unheard(&self, heard: &FilteredContext<'_>) -> bool
        ensures { IsTrue result ↔ IsUnheard (has self.now) heard.now };

    /// Whether both stores are known to be equal. By default it returns false, so that joins compare the stores.
    fn is_same(&self, other: &Self) -> bool
        ensures { result ≡ true → self.now ≡ other.now }
    {
        false
    }

    /// Puts each dot of the store into a filter, which keeps the dots that it has. By default it sets every slot, so
    /// that the filter excludes nothing.
    fn fill(&self, filter: &mut DotFilter)
        ensures own { (x : Dot) → has self.now x ≡ true → may_have filter.new.slots x ≡ true }
        ensures more { (x : Dot) → may_have filter.old.slots x ≡ true
            → may_have filter.new.slots x ≡ true }
    {
        *filter = DotFilter::all();
    }

    /// Whether the store has no dots.
    fn is_empty(&self) -> bool
        ensures { result ≡ is_empty self.now };

    /// The order is a partial order for stores within their contexts, and the join is the least upper bound.
    ghost laws: { IsDotStore is_store has below join nothing is_empty };
}
