//! Drains.
ghost use Rattle.std.specs.Prelude.{◌≡◌, ◌↔◌, length, IsTrue, IfOk, OnOk, OnErr};
ghost use Rattle.std.specs.FinSet as set;
ghost use Rattle.dac_origins.specs.Dots.{IsSubset};
ghost use Rattle.std.specs.List.{list_any};
ghost use Rattle.dac_lattice.specs.declared.flags.Flag.{Flag as FlagValue};
ghost use Rattle.dac_origins.specs.declared.dot.Dot.{Dot as DotValue};
ghost use Rattle.dac_wishes.specs.DrainsValue.{join_drains, AreDrainsBelow, origin, says_drained, is_drained, IsDrained, drains_at};
ghost use Rattle.dac_wishes.specs.DrainMeaning.{drain_delta};
ghost use Rattle.dac_wishes.specs.Covering.{drain_act};

use crate::delta::{beside, named_by};
use crate::drain_act::DrainAct;
use crate::drains_ref::DrainsRef;
use crate::votes::stored_delta;
use dac_base::{NoMemory, NodeId};
use dac_lattice::{Bottom, Flag, Lattice, Piece};
use dac_origins::{Dot, Origin};
use dac_store::{Causal, Context, DotFun, DotMap, DotStore, Entries};
use std::alloc::Global;
use std::marker::Model;

/// The standing drains with their values, paired with the known dots. Draining is [`Flag::Down`], undraining
/// [`Flag::Up`]. Contracts see a finite map from origins and dots to flags, and a finite set of dots.
pub struct Drains {
    causal: Causal<DotMap<Origin, DotFun<Flag>>>,
}

/// Explicit, so that a proof treats each drop as one call.
impl Drop for Drains {
    fn drop(self) {
        let Drains { causal: _causal } = self;
    }
}

impl Model for Drains {
    ghost use Rattle.dac_wishes.specs.DrainsValue.{DrainsValue, coded_drains};

    ghost Value = { DrainsValue };

    ghost coded = { coded_drains };

    ghost use Rattle.dac_wishes.specs.StoredDrains.{drains_of, AreStoredDrains};

    ghost view = { λ a. drains_of a.causal };

    ghost invariant = { λ a. AreStoredDrains a.causal };
}

impl Drains {
    ghost use Rattle.std.specs.FinMap as map;
    ghost use Rattle.dac_wishes.specs.StoredDrains.{drains_of, drains_by_origin, AreStoredDrains};

    /// The drains of a stored form: for each origin its drains, by their dots.
    pub fn new(causal: Causal<DotMap<Origin, DotFun<Flag>>>) -> Self
        ensures { result ≡ drains_of causal }
    {
        causal.tells_invariant();
        Drains { causal }
    }

    /// No drains, with these known dots.
    pub fn none(alloc: Global, known: Context) -> Self
        ensures { result ≡ record { known = known; standing = map.empty } }
    {
        Drains {
            causal: beside(DotMap::empty(alloc), known),
        }
    }

    /// The origins with a standing drain, in ascending order, each with the dots of its drains and their values.
    pub fn entries(&self) -> Entries<'_, Origin, DotFun<Flag>>
        ensures { result ≡ drains_by_origin self.now.standing }
    {
        self.borrowed().entries()
    }

    /// The number of origins with a standing drain.
    pub fn len(&self) -> usize
        ensures { result ≡ length (drains_by_origin self.now.standing) }
    {
        self.borrowed().len()
    }

    /// Whether an incarnation of a node is drained: one of its standing drains is true.
    pub fn drained(&self, node: NodeId, inc: u64) -> bool
        ensures value { result ≡ is_drained (origin node inc) self.now }
        ensures cases { IsTrue result ↔ IsDrained (origin node inc) self.now }
    {
        self.borrowed().drained(node, inc)
    }

    /// The dots of the incarnation's standing drains, with their values, in ascending order.
    #[inline(always)]
    pub fn dots(&self, node: NodeId, inc: u64) -> &[(Dot, Flag)]
        ensures { result.now ≡ drains_at (origin node inc) self.now.standing }
    {
        self.borrowed().dots(node, inc)
    }

    /// The same value, borrowed.
    #[inline(always)]
    pub fn borrowed(&self) -> DrainsRef<'_>
        ensures { result ≡ self.now }
    {
        DrainsRef::of(self.causal.borrowed())
    }

    /// Whether the delta of an operation is below this value, so that joining it would change nothing.
    pub fn covers(&self, dot: Dot, drain: Option<(Origin, bool)>, over: &[Dot]) -> bool
        ensures { IsTrue result
            ↔ AreDrainsBelow (drain_delta dot (drain_act drain over.now)) self.now }
    {
        self.borrowed().covers(dot, drain, over)
    }

    /// The store and the known dots.
    pub(crate) fn into_causal(self) -> Causal<DotMap<Origin, DotFun<Flag>>>
        ensures value { drains_of result ≡ self }
        ensures stored { AreStoredDrains result }
    {
        let Drains { causal } = self;
        causal
    }

    /// The known dots: those of the operations, and those that they replace.
    pub fn context(&self) -> &Context
        ensures { result.now ≡ self.now.known }
    {
        self.causal.context()
    }

    /// The join with the other value. It shares `union`, the union of the known dots of both.
    #[inline(always)]
    pub fn join_with_context(&self, other: &Self, union: &Context) -> Result<Self, NoMemory>
        requires { union.now ≡ set.union self.now.known other.now.known }
        ensures { IfOk result (λ joined. joined ≡ join_drains self.now other.now) }
    {
        let causal = self.causal.join_with_context(&other.causal, union)?;
        Ok(Drains { causal })
    }

    /// Joins the other value into this one, in place where possible. Takes `union`, the union of the known dots of both.
    /// After [`NoMemory`] this value is unchanged.
    pub fn absorb_with_context(&mut self, other: &Self, union: Context) -> Result<(), NoMemory>
        requires { union ≡ set.union self.old.known other.now.known }
        ensures ok { OnOk result (self.new ≡ join_drains self.old other.now) }
        ensures err { OnErr result (self.new ≡ self.old) }
    {
        self.causal.absorb_with_context(&other.causal, union)?;
        Ok(())
    }

    /// The delta of one operation. It shares `named`, the dots that the operation names.
    pub fn delta_with_context(
        alloc: Global,
        dot: Dot,
        act: &DrainAct,
        named: &Context,
    ) -> Result<Self, NoMemory>
        requires { named.now ≡ (drain_delta dot act.now).known }
        ensures { IfOk result (λ delta. delta ≡ drain_delta dot act.now) }
    {
        let causal = stored_delta(alloc, dot, act.vote(), named)?;
        Ok(Drains { causal })
    }

    /// Whether this value is below the other one, if the other knows each dot that this one knows.
    pub fn leq_with_contexts(&self, other: &Self) -> bool
        requires { IsSubset self.now.known other.now.known }
        ensures { IsTrue result ↔ AreDrainsBelow self.now other.now }
    {
        self.causal.leq_with_contexts(&other.causal)
    }
}

/// Whether a drain is true.
fn says_drained(flag: Flag) -> bool
    ensures { result ≡ says_drained flag }
{
    match flag {
        Flag::Up => false,
        Flag::Down => true,
    }
}

/// Whether any drain is true.
pub(crate) fn some_says_drained(drains: &[(Dot, Flag)]) -> bool
    ensures { result ≡ list_any (λ (p : DotValue × FlagValue). says_drained p.1) drains.now }
{
    drains.iter().any(|drain| says_drained(drain.1))
}

impl Lattice for Drains {
    ghost use Rattle.dac_wishes.specs.DrainsValue.{AreDrains, AreDrainsBelow, join_drains};
    ghost use Rattle.dac_wishes.specs.laws.DrainsValue.{drains_laws};

    ghost is_value = { AreDrains };

    ghost below = { AreDrainsBelow };

    ghost join = { join_drains };

    ghost laws = { drains_laws };

    fn tells_invariant(&self) {
        let _causal = &self.causal;
    }

    fn join(&self, other: &Self) -> Result<Self, NoMemory> {
        let causal = self.causal.join(&other.causal)?;
        Ok(Drains { causal })
    }

    fn leq(&self, other: &Self) -> bool {
        self.causal.leq(&other.causal)
    }

    fn equal(&self, other: &Self) -> bool {
        self.causal.equal(&other.causal)
    }

    fn copy(&self) -> Result<Self, NoMemory> {
        let causal = self.causal.copy()?;
        Ok(Drains { causal })
    }
}

impl Bottom for Drains {
    ghost use Rattle.dac_wishes.specs.DrainsValue.{no_drains};
    ghost use Rattle.dac_wishes.specs.laws.DrainsValue.{no_drains_value, no_drains_least};

    ghost bottom = { no_drains };

    ghost least = { λ x _. no_drains_least x };

    ghost bottom_value = { no_drains_value };

    fn bottom(alloc: Global) -> Self {
        Drains {
            causal: Causal::bottom(alloc),
        }
    }
}

impl Piece for Drains {
    ghost use Rattle.dac_wishes.specs.Replacing.{ExcludesOwnDot};
    ghost use Rattle.dac_wishes.specs.DrainMeaning.{over_of, drain_delta, IsMeaning};
    ghost use Rattle.dac_wishes.specs.laws.DrainMeaning.{drain_piece};

    type Act = DrainAct;

    ghost fits = { ExcludesOwnDot over_of };

    ghost delta = { drain_delta };

    ghost means = { IsMeaning };

    ghost piece_laws = { drain_piece };

    fn delta(alloc: Global, dot: Dot, act: &DrainAct) -> Result<Self, NoMemory> {
        let named = named_by(alloc, dot, act.over())?;
        let delta = Self::delta_with_context(alloc, dot, act, &named)?;
        Ok(delta)
    }
}
