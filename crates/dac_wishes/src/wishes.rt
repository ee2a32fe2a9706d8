//! Start wishes.
ghost use Rattle.std.specs.Prelude.{◌≡◌, ◌↔◌, length, IsTrue, IfOk, OnOk, OnErr};
ghost use Rattle.std.specs.FinSet as set;
ghost use Rattle.dac_origins.specs.Dots.{IsSubset};
ghost use Rattle.dac_origins.specs.InOrder.{in_order};
ghost use Rattle.dac_wishes.specs.Writes.{dots_at};
ghost use Rattle.dac_wishes.specs.WishesValue.{join_wishes, AreWishesBelow, is_wished, SomeStands};
ghost use Rattle.dac_wishes.specs.StoredDeltas.{start_stored, stored_start};
ghost use Rattle.dac_wishes.specs.WishMeaning.{wish_delta};
ghost use Rattle.dac_wishes.specs.Covering.{wish_act};

use crate::delta::{beside, named_by};
use crate::key::Key;
use crate::wish_act::WishAct;
use crate::wishes_ref::WishesRef;
use dac_base::NoMemory;
use dac_lattice::{Bottom, Lattice, Piece};
use dac_origins::Dot;
use dac_store::{Causal, Context, DotMap, DotSet, DotStore, Entries};
use std::alloc::Global;
use std::marker::Model;

/// The standing start wishes, paired with the known dots. Contracts see both as finite sets.
pub struct Wishes {
    causal: Causal<DotMap<Key, DotSet>>,
}

/// Explicit, so that a proof treats each drop as one call.
impl Drop for Wishes {
    fn drop(self) {
        let Wishes { causal: _causal } = self;
    }
}

impl Model for Wishes {
    ghost use Rattle.dac_wishes.specs.WishesValue.{WishesValue, coded_wishes};

    ghost Value = { WishesValue };

    ghost coded = { coded_wishes };

    ghost use Rattle.dac_wishes.specs.StoredWishes.{wishes_of, AreStoredDots};

    ghost view = { λ a. wishes_of a.causal };

    ghost invariant = { λ a. AreStoredDots a.causal };
}

impl Wishes {
    ghost use Rattle.dac_wishes.specs.StoredWishes.{wishes_of, AreStoredDots};
    ghost use Rattle.dac_wishes.specs.StartsByKey.{starts_by_key};

    /// The wishes of a stored form: for each key the dots of its starts.
    pub fn new(causal: Causal<DotMap<Key, DotSet>>) -> Self
        ensures { result ≡ wishes_of causal }
    {
        causal.tells_invariant();
        Wishes { causal }
    }

    /// The keys with a standing start, in ascending order, each with the dots of its starts.
    pub fn entries(&self) -> Entries<'_, Key, DotSet>
        ensures { result ≡ starts_by_key self.now.standing }
    {
        self.borrowed().entries()
    }

    /// The number of keys with a standing start.
    pub fn len(&self) -> usize
        ensures { result ≡ length (starts_by_key self.now.standing) }
    {
        self.borrowed().len()
    }

    /// Whether any start of the key stands.
    pub fn wished(&self, key: Key) -> bool
        ensures value { result ≡ is_wished key self.now }
        ensures some { IsTrue result ↔ SomeStands key self.now }
    {
        self.borrowed().wished(key)
    }

    /// The dots of the key's standing starts, in ascending order.
    pub fn dots(&self, key: Key) -> &[Dot]
        ensures { result.now ≡ in_order (dots_at key self.now.standing) }
    {
        self.borrowed().dots(key)
    }

    /// The same value, borrowed.
    #[inline(always)]
    pub fn borrowed(&self) -> WishesRef<'_>
        ensures { result ≡ self.now }
    {
        WishesRef::of(self.causal.borrowed())
    }

    /// Whether the delta of an operation is below this value, so that joining it would change nothing.
    pub fn covers(&self, dot: Dot, start: Option<Key>, over: &[Dot]) -> bool
        ensures { IsTrue result
            ↔ AreWishesBelow (wish_delta dot (wish_act start over.now)) self.now }
    {
        self.borrowed().covers(dot, start, over)
    }

    /// The store and the known dots.
    pub(crate) fn into_causal(self) -> Causal<DotMap<Key, DotSet>>
        ensures value { wishes_of result ≡ self }
        ensures stored { AreStoredDots result }
    {
        let Wishes { causal } = self;
        causal
    }

    /// The known dots: those of the operations, and those that they replace.
    pub fn context(&self) -> &Context
        ensures { result.now ≡ self.now.known }
    {
        self.causal.context()
    }

    /// The join with the other value. It shares `union`, the union of the known dots of both.
    pub fn join_with_context(&self, other: &Self, union: &Context) -> Result<Self, NoMemory>
        requires { union.now ≡ set.union self.now.known other.now.known }
        ensures { IfOk result (λ joined. joined ≡ join_wishes self.now other.now) }
    {
        let causal = self.causal.join_with_context(&other.causal, union)?;
        Ok(Wishes { causal })
    }

    /// Joins the other value into this one, in place where possible. Takes `union`, the union of the known dots of both.
    /// After [`NoMemory`] this value is unchanged.
    pub fn absorb_with_context(&mut self, other: &Self, union: Context) -> Result<(), NoMemory>
        requires { union ≡ set.union self.old.known other.now.known }
        ensures ok { OnOk result (self.new ≡ join_wishes self.old other.now) }
        ensures err { OnErr result (self.new ≡ self.old) }
    {
        self.causal.absorb_with_context(&other.causal, union)?;
        Ok(())
    }

    /// The delta of one operation. It shares `named`, the dots that the operation names.
    pub fn delta_with_context(
        alloc: Global,
        dot: Dot,
        act: &WishAct,
        named: &Context,
    ) -> Result<Self, NoMemory>
        requires { named.now ≡ (wish_delta dot act.now).known }
        ensures { IfOk result (λ delta. delta ≡ wish_delta dot act.now) }
    {
        let store = start_in(alloc, dot, act)?;
        let context = named.copy()?;
        let causal = beside(store, context);
        Ok(Wishes { causal })
    }

    /// Whether this value is below the other one, if the other knows each dot that this one knows.
    pub fn leq_with_contexts(&self, other: &Self) -> bool
        requires { IsSubset self.now.known other.now.known }
        ensures { IsTrue result ↔ AreWishesBelow self.now other.now }
    {
        self.causal.leq_with_contexts(&other.causal)
    }
}

/// The stored form of an operation's start, if any.
fn start_in(alloc: Global, dot: Dot, act: &WishAct) -> Result<DotMap<Key, DotSet>, NoMemory>
    ensures { IfOk result (λ store. store ≡ stored_start dot act.now) }
{
    match act {
        WishAct::Start { key, over: _ } => start_at(alloc, dot, Some(*key)),
        WishAct::Other { over: _ } => Ok(DotMap::empty(alloc)),
    }
}

/// The stored form of a start of a key, if any.
pub(crate) fn start_at(
    alloc: Global,
    dot: Dot,
    start: Option<Key>,
) -> Result<DotMap<Key, DotSet>, NoMemory>
    ensures { IfOk result (λ store. store ≡ start_stored dot start) }
{
    match start {
        Some(key) => {
            let dots = DotSet::one(alloc, dot)?;
            let store = DotMap::one(alloc, key, dots)?;
            Ok(store)
        }
        None => Ok(DotMap::empty(alloc)),
    }
}

impl Lattice for Wishes {
    ghost use Rattle.dac_wishes.specs.WishesValue.{AreWishes, AreWishesBelow, join_wishes};
    ghost use Rattle.dac_wishes.specs.laws.WishesValue.{wishes_laws};

    ghost is_value = { AreWishes };

    ghost below = { AreWishesBelow };

    ghost join = { join_wishes };

    ghost laws = { wishes_laws };

    fn tells_invariant(&self) {
        let _causal = &self.causal;
    }

    fn join(&self, other: &Self) -> Result<Self, NoMemory> {
        let causal = self.causal.join(&other.causal)?;
        Ok(Wishes { causal })
    }

    fn leq(&self, other: &Self) -> bool {
        self.causal.leq(&other.causal)
    }

    fn equal(&self, other: &Self) -> bool {
        self.causal.equal(&other.causal)
    }

    fn copy(&self) -> Result<Self, NoMemory> {
        let causal = self.causal.copy()?;
        Ok(Wishes { causal })
    }
}

impl Bottom for Wishes {
    ghost use Rattle.dac_wishes.specs.WishesValue.{no_wishes};
    ghost use Rattle.dac_wishes.specs.laws.WishesValue.{no_wishes_value, no_wishes_least};

    ghost bottom = { no_wishes };

    ghost least = { λ x _. no_wishes_least x };

    ghost bottom_value = { no_wishes_value };

    fn bottom(alloc: Global) -> Self {
        Wishes {
            causal: Causal::bottom(alloc),
        }
    }
}

impl Piece for Wishes {
    ghost use Rattle.dac_wishes.specs.Replacing.{ExcludesOwnDot};
    ghost use Rattle.dac_wishes.specs.WishMeaning.{over_of, wish_delta, IsMeaning};
    ghost use Rattle.dac_wishes.specs.laws.WishMeaning.{wish_piece};

    type Act = WishAct;

    ghost fits = { ExcludesOwnDot over_of };

    ghost delta = { wish_delta };

    ghost means = { IsMeaning };

    ghost piece_laws = { wish_piece };

    fn delta(alloc: Global, dot: Dot, act: &WishAct) -> Result<Self, NoMemory> {
        let named = named_by(alloc, dot, act.over())?;
        let delta = Self::delta_with_context(alloc, dot, act, &named)?;
        Ok(delta)
    }
}
