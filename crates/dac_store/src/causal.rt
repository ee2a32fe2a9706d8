//! A dot store paired with its causal context.
ghost use Rattle.std.specs.Prelude.{◌≡◌, ◌↔◌, IsTrue, IfOk, IfErr, OnOk, OnErr};
ghost use Rattle.std.specs.FinSet as set;
ghost use Rattle.dac_origins.specs.Dots.{IsSubset};
ghost use Rattle.dac_store.specs.Stores.{IsHeld, IsStoredBelow, join_stored};

use crate::DotStore;
use crate::causal_ref::{CausalRef, absorb_store};
use dac_dots::Context;
use dac_lattice::{Bottom, Lattice};
use dac_origins::NoMemory;
use std::alloc::Global;
use std::marker::Model;

/// A dot store paired with its causal context, which contains all its dots. Ordered by the contexts, and by the stores
/// given the contexts.
///
/// A join copies one side's store if that is known to stay unchanged, because the other's is empty and has a small
/// context. Values with equal contexts can share one, because copies of a context do.
#[derive(Drop)]
pub struct Causal<S: DotStore> {
    store: S,
    context: Context,
}

impl<S: DotStore> Model for Causal<S> {
    ghost use Rattle.std.specs.Prelude.{refl};
    ghost use Rattle.std.specs.Coded.{code_by, coded×};
    ghost use Rattle.std.specs.FinSet as set;
    ghost use Rattle.dac_origins.specs.Dots.{Dots, coded_dot};
    ghost use Rattle.dac_store.specs.Stores.{IsStoreWithin, Stored};

    ghost Value = { Stored S };

    ghost coded = { code_by (S × Dots) (coded× S.code (set.code coded_dot))
        (λ v. (v.store, v.context)) (λ p. record { store = p.0; context = p.1 }) (λ _. refl) };

    ghost view = { λ a. record { store = a.store; context = a.context } };

    ghost invariant = { λ a. IsStoreWithin S.is_store S.has a.store a.context };
}

impl<S: DotStore> Causal<S> {
    /// Pairs a store with a context. Fails, and returns both, if the store has a dot that isn't in the context.
    pub fn new(store: S, context: Context) -> Result<Self, (S, Context)>
        ensures ok { IfOk result (λ causal. (causal ≡ record { store = store; context = context })
            × IsHeld (S.has store) context) }
        ensures err { IfErr result
            (λ back. (back ≡ (store, context)) × ¬ (IsHeld (S.has store) context)) }
    {
        store.tells_invariant();
        if store.within(&context) {
            Ok(Causal { store, context })
        } else {
            Err((store, context))
        }
    }

    /// The store and the context.
    pub fn into_parts(self) -> (S, Context)
        ensures { result ≡ (self.store, self.context) }
    {
        let Causal { store, context } = self;
        (store, context)
    }

    /// The store without its context.
    pub fn store(&self) -> &S
        ensures { result.now ≡ self.now.store }
    {
        &self.store
    }

    /// The causal context.
    pub fn context(&self) -> &Context
        ensures { result.now ≡ self.now.context }
    {
        &self.context
    }

    /// The join with the other value. It shares `union`, the union of both contexts.
    pub fn join_with_context(&self, other: &Self, union: &Context) -> Result<Self, NoMemory>
        requires { union.now ≡ set.union self.now.context other.now.context }
        ensures { IfOk result (λ joined. joined ≡ join_stored S.join self.now other.now) }
    {
        self.tells_invariant();
        other.tells_invariant();
        let store = self.borrowed().join_stores(&other.borrowed())?;
        let context = union.copy()?;
        Ok(Causal { store, context })
    }

    /// Joins the other value into this one, in place where possible. Takes `union`, the union of both contexts. After
    /// [`NoMemory`] this value is unchanged.
    pub fn absorb_with_context(&mut self, other: &Self, union: Context) -> Result<(), NoMemory>
        requires { union ≡ set.union self.old.context other.now.context }
        ensures ok { OnOk result (self.new ≡ join_stored S.join self.old other.now) }
        ensures err { OnErr result (self.new ≡ self.old) }
    {
        self.tells_invariant();
        other.tells_invariant();
        absorb_store(&mut self.store, &self.context, &other.borrowed())?;
        self.context = union;
        Ok(())
    }

    /// Whether this value is below the other one, if this context is a subset of the other.
    pub fn leq_with_contexts(&self, other: &Self) -> bool
        requires { IsSubset self.now.context other.now.context }
        ensures { IsTrue result ↔ IsStoredBelow S.below self.now other.now }
    {
        self.borrowed().leq_with_contexts(&other.borrowed())
    }

    /// The same value, borrowed.
    #[inline(always)]
    pub fn borrowed(&self) -> CausalRef<'_, S>
        ensures { result ≡ self.now }
    {
        self.tells_invariant();
        CausalRef::of(self.store(), self.context())
    }
}

impl<S: DotStore> Lattice for Causal<S> {
    ghost use Rattle.dac_store.specs.Stores.{IsStored, IsStoredBelow, join_stored};
    ghost use Rattle.dac_store.specs.laws.Stores.{causal_laws};

    ghost is_value = { IsStored S.is_store S.has };

    ghost below = { IsStoredBelow S.below };

    ghost join = { join_stored S.join };

    ghost laws = { causal_laws S.laws };

    fn tells_invariant(&self) {
        let _store = &self.store;
    }

    fn join(&self, other: &Self) -> Result<Self, NoMemory> {
        let union = self.context.union(&other.context)?;
        let joined = self.join_with_context(other, &union)?;
        Ok(joined)
    }

    fn leq(&self, other: &Self) -> bool {
        self.context().is_subset(other.context()) && self.leq_with_contexts(other)
    }

    fn equal(&self, other: &Self) -> bool {
        self.borrowed().has_same_context(&other.borrowed())
            && self.borrowed().has_same_store(&other.borrowed())
    }

    fn copy(&self) -> Result<Self, NoMemory> {
        let store = self.store.copy()?;
        let context = self.context.copy()?;
        Ok(Causal { store, context })
    }
}

impl<S: DotStore> Bottom for Causal<S> {
    ghost use Rattle.std.specs.FinSet as set;
    ghost use Rattle.dac_store.specs.laws.Stores.{bottom_least, bottom_within};

    ghost bottom = { record { store = S.nothing; context = set.empty } };

    ghost least = { λ v u. bottom_least S.laws v u };

    ghost bottom_value = { bottom_within S.laws };

    fn bottom(alloc: Global) -> Self {
        Causal {
            store: S::empty(alloc),
            context: Context::empty(alloc),
        }
    }
}
