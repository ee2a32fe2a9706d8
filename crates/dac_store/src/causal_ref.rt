//! A dot store and its causal context, borrowed.
ghost use Rattle.std.specs.Prelude.{◌≡◌, ◌↔◌, true, IsTrue, IfOk, OnOk, OnErr};
ghost use Rattle.std.specs.FinSet as set;
ghost use Rattle.dac_origins.specs.Dots.{IsSubset};
ghost use Rattle.dac_store.specs.Stores.{IsHeld, IsStored, IsStoredBelow, IsUnheard};

use crate::DotStore;
use dac_dots::{Context, FilteredContext, LastStep};
use dac_origins::NoMemory;
use std::marker::Model;

/// The greatest number of dots that a join looks up in the other side's store, to see whether that store is unchanged.
const MOST_LOOKED_UP: usize = 16;

/// A dot store and its causal context, both borrowed. Contracts treat it as the value of a [`Causal`](crate::Causal).
#[derive(Drop)]
pub struct CausalRef<'a, S: DotStore> {
    store: &'a S,
    context: &'a Context,
}

impl<'a, S: DotStore> Model for CausalRef<'a, S> {
    ghost use Rattle.std.specs.Prelude.{refl};
    ghost use Rattle.std.specs.Coded.{code_by, coded×};
    ghost use Rattle.std.specs.FinSet as set;
    ghost use Rattle.dac_origins.specs.Dots.{Dots, coded_dot};
    ghost use Rattle.dac_store.specs.Stores.{IsStoreWithin, Stored};

    ghost Value = { Stored S };

    ghost coded = { code_by (S × Dots) (coded× S.code (set.code coded_dot))
        (λ v. (v.store, v.context)) (λ p. record { store = p.0; context = p.1 }) (λ _. refl) };

    ghost view = { λ a. record { store = a.store.now; context = a.context.now } };

    ghost invariant = { λ a. IsStoreWithin S.is_store S.has a.store.now a.context.now };
}

impl<'a, S: DotStore> CausalRef<'a, S> {
    /// Pairs a store with a context that contains its dots.
    #[inline(always)]
    pub fn of(store: &'a S, context: &'a Context) -> Self
        requires { IsHeld (S.has store.now) context.now }
        ensures { result ≡ record { store = store.now; context = context.now } }
    {
        store.tells_invariant();
        CausalRef { store, context }
    }

    /// States the type's invariant for proofs; does nothing at run time.
    pub fn tells_invariant(&self)
        ensures { IsStored S.is_store S.has self.now }
    {
        let _store = self.store;
    }

    /// The store without its context.
    pub fn store(&self) -> &'a S
        ensures { result.now ≡ self.now.store }
    {
        self.store
    }

    /// The causal context.
    pub fn context(&self) -> &'a Context
        ensures { result.now ≡ self.now.context }
    {
        self.context
    }

    /// Whether this value is below the other one, if this context is a subset of the other.
    pub fn leq_with_contexts(&self, other: &CausalRef<'_, S>) -> bool
        requires { IsSubset self.now.context other.now.context }
        ensures { IsTrue result ↔ IsStoredBelow S.below self.now other.now }
    {
        self.store()
            .leq_in(self.context(), other.store(), other.context())
    }

    /// Whether both contexts are equal.
    pub fn has_same_context(&self, other: &CausalRef<'_, S>) -> bool
        ensures { IsTrue result ↔ (self.now.context ≡ other.now.context) }
    {
        let mine = self.context();
        let theirs = other.context();
        mine.is_subset(theirs) && theirs.is_subset(mine)
    }

    /// Whether both stores are equal, if both contexts are. Tries `is_same` first, which mostly suffices for equal
    /// stores.
    pub fn has_same_store(&self, other: &CausalRef<'_, S>) -> bool
        requires { self.now.context ≡ other.now.context }
        ensures { IsTrue result ↔ (self.now ≡ other.now) }
    {
        self.tells_invariant();
        other.tells_invariant();
        if self.store.is_same(other.store) {
            return true;
        }
        self.leq_with_contexts(other) && other.leq_with_contexts(self)
    }

    /// Whether this side's store is empty and its context is known to contain no dot of the other's store, so that a
    /// join doesn't change that store.
    #[inline(always)]
    pub fn leaves(&self, other: &CausalRef<'_, S>) -> bool
        ensures nothing { result ≡ true → self.now.store ≡ S.nothing }
        ensures unheard { result ≡ true → IsUnheard (S.has other.now.store) self.now.context }
    {
        is_left(other.store, self.store, self.context)
    }

    /// Whether the other context has more than twice as many origins: then its store is much longer, as after a reboot.
    fn is_much_smaller(&self, other: &CausalRef<'_, S>) -> bool {
        self.context().rows() < other.context().rows() / 2
    }

    /// The store of the join. Joins into the longer store, because the result shares most memory with that one.
    #[inline(always)]
    pub fn join_stores(&self, other: &CausalRef<'_, S>) -> Result<S, NoMemory>
        ensures { IfOk result (λ joined. joined
            ≡ S.join self.now.store self.now.context other.now.store other.now.context) }
    {
        self.tells_invariant();
        other.tells_invariant();
        if other.leaves(self) {
            return self.store.copy();
        }
        if self.leaves(other) {
            return other.store.copy();
        }
        if self.is_much_smaller(other) {
            return other.store.join_in(other.context, self.store, self.context);
        }
        self.store.join_in(self.context, other.store, other.context)
    }
}

/// Whether the other side's store is empty and its context, `heard`, is known to contain no dot of this store, so that a
/// join doesn't change this one.
#[inline(always)]
fn is_left<S: DotStore>(store: &S, other: &S, heard: &Context) -> bool
    ensures nothing { result ≡ true → other.now ≡ S.nothing }
    ensures unheard { result ≡ true → IsUnheard (S.has store.now) heard.now }
{
    other.tells_invariant();
    if !other.is_empty() {
        return false;
    }
    store.tells_invariant();
    if store.is_empty() {
        return true;
    }
    if !heard.has_at_most(MOST_LOOKED_UP) {
        return false;
    }
    store.is_unheard(&FilteredContext::filled(heard))
}

/// Whether the context contains no dot of the store, as if most of them are new.
fn has_heard_none_of<S: DotStore>(heard: &Context, store: &S) -> bool
    ensures { IsTrue result ↔ IsUnheard (S.has store.now) heard.now }
{
    let filtered = FilteredContext::of(heard, 1);
    store.is_unheard(&filtered)
}

/// Joins another store into this one, whose context is `heard`, in place where possible. After [`NoMemory`] the store
/// is unchanged.
#[inline(always)]
pub(crate) fn absorb_store<S: DotStore>(
    store: &mut S,
    heard: &Context,
    other: &CausalRef<'_, S>,
) -> Result<(), NoMemory>
    requires { IsHeld (S.has store.old) heard.now }
    ensures ok { OnOk result
        (store.new ≡ S.join store.old heard.now other.now.store other.now.context) }
    ensures err { OnErr result (store.new ≡ store.old) }
{
    store.tells_invariant();
    other.tells_invariant();
    if is_left(&*store, other.store(), other.context()) {
        return Ok(());
    }
    let own = CausalRef::of(&*store, heard);
    if own.leaves(other) || own.is_much_smaller(other) {
        let joined = own.join_stores(other)?;
        *store = joined;
        return Ok(());
    }
    store.absorb_in(heard, other.store(), other.context())
}

/// Joins another store into one, with these contexts.
#[derive(Drop)]
struct AbsorbWith<'a, S: DotStore> {
    other: &'a S,
    heard: &'a Context,
    other_heard: &'a Context,
}

impl<S: DotStore> LastStep<S> for AbsorbWith<'_, S> {
    ghost use Rattle.std.specs.Prelude.{◌≡◌};

    ghost steps = { λ a old new. new ≡ S.join old a.heard.now a.other.now a.other_heard.now };

    #[inline(always)]
    fn take(&self, store: &mut S) -> Result<(), NoMemory> {
        store.tells_invariant();
        self.other.tells_invariant();
        if is_left(&*store, self.other, self.other_heard) {
            return Ok(());
        }
        if is_left(self.other, &*store, self.heard) {
            let copied = self.other.copy()?;
            *store = copied;
            return Ok(());
        }
        store.absorb_in(self.heard, self.other, self.other_heard)
    }
}

/// Joins another store and its context into these, in place where possible. After [`NoMemory`] both are unchanged.
#[inline(always)]
pub fn absorb_paired<S: DotStore>(
    store: &mut S,
    context: &mut Context,
    other: &CausalRef<'_, S>,
) -> Result<(), NoMemory>
    requires { IsHeld (S.has store.old) context.old }
    ensures ok { OnOk result
        ((store.new ≡ S.join store.old context.old other.now.store other.now.context)
        × (context.new ≡ set.union context.old other.now.context)) }
    ensures err { OnErr result ((store.new ≡ store.old) × (context.new ≡ context.old)) }
{
    store.tells_invariant();
    other.tells_invariant();
    if has_heard_none_of(&*context, other.store()) {
        // Then the join of the stores doesn't depend on this context, which can change in place.
        let nothing = Context::empty(context.allocator());
        let step = AbsorbWith {
            other: other.store(),
            heard: &nothing,
            other_heard: other.context(),
        };
        if context.absorb_after(other.context(), &step, store)? {
            return Ok(());
        }
    }
    let union = context.union(other.context())?;
    absorb_store(store, &*context, other)?;
    *context = union;
    Ok(())
}
