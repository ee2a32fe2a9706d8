//! Permissions.
ghost use Rattle.std.specs.Prelude.{◌≡◌, ◌↔◌, length, IsTrue, IfOk, OnOk, OnErr};
ghost use Rattle.std.specs.FinSet as set;
ghost use Rattle.dac_origins.specs.Dots.{IsSubset};
ghost use Rattle.std.specs.List.{list_all};
ghost use Rattle.dac_lattice.specs.declared.flags.Flag.{Flag as FlagValue};
ghost use Rattle.dac_origins.specs.declared.dot.Dot.{Dot as DotValue};
ghost use Rattle.dac_wishes.specs.PermissionsValue.{join_permissions, IsPermissionsBelow, is_permitting, is_permitted, is_permitted_by, IsPermitted, permits_at};
ghost use Rattle.dac_wishes.specs.PermitMeaning.{permit_delta};
ghost use Rattle.dac_wishes.specs.Covering.{permit_act};

use crate::delta::named_by;
use crate::key::Key;
use crate::permissions_ref::PermissionsRef;
use crate::permit_act::PermitAct;
use crate::votes::stored_delta;
use dac_base::NoMemory;
use dac_lattice::{Bottom, Flag, Lattice, Piece};
use dac_origins::Dot;
use dac_store::{Causal, Context, DotFun, DotMap, Entries};
use std::alloc::Global;
use std::marker::Model;

/// The standing permits with their values, paired with the known dots. Permitting is [`Flag::Up`], forbidding
/// [`Flag::Down`]. Contracts see a finite map from keys and dots to flags, and a finite set of dots.
pub struct Permissions {
    causal: Causal<DotMap<Key, DotFun<Flag>>>,
}

/// Explicit, so that a proof treats each drop as one call.
impl Drop for Permissions {
    fn drop(self) {
        let Permissions { causal: _causal } = self;
    }
}

impl Model for Permissions {
    ghost use Rattle.dac_wishes.specs.PermissionsValue.{PermissionsValue, coded_permissions};

    ghost Value = { PermissionsValue };

    ghost coded = { coded_permissions };

    ghost use Rattle.dac_wishes.specs.StoredPermits.{permissions_of, AreStoredFlags};

    ghost view = { λ a. permissions_of a.causal };

    ghost invariant = { λ a. AreStoredFlags a.causal };
}

impl Permissions {
    ghost use Rattle.dac_wishes.specs.StoredPermits.{permissions_of, AreStoredFlags};
    ghost use Rattle.dac_wishes.specs.PermitsByKey.{permits_by_key};

    /// The permissions of a stored form: for each key its permits, by their dots.
    pub fn new(causal: Causal<DotMap<Key, DotFun<Flag>>>) -> Self
        ensures { result ≡ permissions_of causal }
    {
        causal.tells_invariant();
        Permissions { causal }
    }

    /// The keys with a standing permit, in ascending order, each with the dots of its permits and their values.
    pub fn entries(&self) -> Entries<'_, Key, DotFun<Flag>>
        ensures { result ≡ permits_by_key self.now.standing }
    {
        self.borrowed().entries()
    }

    /// The number of keys with a standing permit.
    pub fn len(&self) -> usize
        ensures { result ≡ length (permits_by_key self.now.standing) }
    {
        self.borrowed().len()
    }

    /// Whether the key is permitted: the default if no permit of it stands, and otherwise whether all standing ones are
    /// true.
    pub fn permitted(&self, key: Key, default: bool) -> bool
        ensures value { result ≡ is_permitted key default self.now }
        ensures cases { IsTrue result ↔ IsPermitted key default self.now }
    {
        self.borrowed().permitted(key, default)
    }

    /// The dots of the key's standing permits, with their values, in ascending order.
    pub fn dots(&self, key: Key) -> &[(Dot, Flag)]
        ensures { result.now ≡ permits_at key self.now.standing }
    {
        self.borrowed().dots(key)
    }

    /// The same value, borrowed.
    #[inline(always)]
    pub fn borrowed(&self) -> PermissionsRef<'_>
        ensures { result ≡ self.now }
    {
        PermissionsRef::of(self.causal.borrowed())
    }

    /// Whether the delta of an operation is below this value, so that joining it would change nothing.
    pub fn covers(&self, dot: Dot, permit: Option<(Key, bool)>, over: &[Dot]) -> bool
        ensures { IsTrue result
            ↔ IsPermissionsBelow (permit_delta dot (permit_act permit over.now)) self.now }
    {
        self.borrowed().covers(dot, permit, over)
    }

    /// The store and the known dots.
    pub(crate) fn into_causal(self) -> Causal<DotMap<Key, DotFun<Flag>>>
        ensures value { permissions_of result ≡ self }
        ensures stored { AreStoredFlags result }
    {
        let Permissions { causal } = self;
        causal
    }

    /// The known dots: those of the operations, and those that they replace.
    pub fn context(&self) -> &Context
        ensures { result.now ≡ self.now.known }
    {
        self.causal.context()
    }

    /// The join with the other value. It shares `union`, the union of the known dots of both.
    pub fn join_with_context(&self, other: &Self, union: &Context) -> Result<Self, NoMemory>
        requires { union.now ≡ set.union self.now.known other.now.known }
        ensures { IfOk result (λ joined. joined ≡ join_permissions self.now other.now) }
    {
        let causal = self.causal.join_with_context(&other.causal, union)?;
        Ok(Permissions { causal })
    }

    /// Joins the other value into this one, in place where possible. Takes `union`, the union of the known dots of both.
    /// After [`NoMemory`] this value is unchanged.
    pub fn absorb_with_context(&mut self, other: &Self, union: Context) -> Result<(), NoMemory>
        requires { union ≡ set.union self.old.known other.now.known }
        ensures ok { OnOk result (self.new ≡ join_permissions self.old other.now) }
        ensures err { OnErr result (self.new ≡ self.old) }
    {
        self.causal.absorb_with_context(&other.causal, union)?;
        Ok(())
    }

    /// The delta of one operation. It shares `named`, the dots that the operation names.
    pub fn delta_with_context(
        alloc: Global,
        dot: Dot,
        act: &PermitAct,
        named: &Context,
    ) -> Result<Self, NoMemory>
        requires { named.now ≡ (permit_delta dot act.now).known }
        ensures { IfOk result (λ delta. delta ≡ permit_delta dot act.now) }
    {
        let causal = stored_delta(alloc, dot, act.vote(), named)?;
        Ok(Permissions { causal })
    }

    /// Whether this value is below the other one, if the other knows each dot that this one knows.
    pub fn leq_with_contexts(&self, other: &Self) -> bool
        requires { IsSubset self.now.known other.now.known }
        ensures { IsTrue result ↔ IsPermissionsBelow self.now other.now }
    {
        self.causal.leq_with_contexts(&other.causal)
    }
}

/// Whether a permit is true.
fn is_permitting(flag: Flag) -> bool
    ensures { result ≡ is_permitting flag }
{
    match flag {
        Flag::Up => true,
        Flag::Down => false,
    }
}

/// Whether each permit is true, or the default if there is none.
pub(crate) fn permitted_by(default: bool, permits: &[(Dot, Flag)]) -> bool
    ensures { result ≡ is_permitted_by default permits.now }
{
    if permits.is_empty() {
        default
    } else {
        all_say_true(permits)
    }
}

/// Whether each permit is true.
fn all_say_true(permits: &[(Dot, Flag)]) -> bool
    ensures { result ≡ list_all (λ (p : DotValue × FlagValue). is_permitting p.1) permits.now }
{
    permits.iter().all(|permit| is_permitting(permit.1))
}

impl Lattice for Permissions {
    ghost use Rattle.dac_wishes.specs.PermissionsValue.{ArePermissions, IsPermissionsBelow, join_permissions};
    ghost use Rattle.dac_wishes.specs.laws.PermissionsValue.{permissions_laws};

    ghost is_value = { ArePermissions };

    ghost below = { IsPermissionsBelow };

    ghost join = { join_permissions };

    ghost laws = { permissions_laws };

    fn tells_invariant(&self) {
        let _causal = &self.causal;
    }

    fn join(&self, other: &Self) -> Result<Self, NoMemory> {
        let causal = self.causal.join(&other.causal)?;
        Ok(Permissions { causal })
    }

    fn leq(&self, other: &Self) -> bool {
        self.causal.leq(&other.causal)
    }

    fn equal(&self, other: &Self) -> bool {
        self.causal.equal(&other.causal)
    }

    fn copy(&self) -> Result<Self, NoMemory> {
        let causal = self.causal.copy()?;
        Ok(Permissions { causal })
    }
}

impl Bottom for Permissions {
    ghost use Rattle.dac_wishes.specs.PermissionsValue.{no_permissions};
    ghost use Rattle.dac_wishes.specs.laws.PermissionsValue.{no_permissions_value, no_permissions_least};

    ghost bottom = { no_permissions };

    ghost least = { λ x _. no_permissions_least x };

    ghost bottom_value = { no_permissions_value };

    fn bottom(alloc: Global) -> Self {
        Permissions {
            causal: Causal::bottom(alloc),
        }
    }
}

impl Piece for Permissions {
    ghost use Rattle.dac_wishes.specs.Replacing.{ExcludesOwnDot};
    ghost use Rattle.dac_wishes.specs.PermitMeaning.{over_of, permit_delta, IsMeaning};
    ghost use Rattle.dac_wishes.specs.laws.PermitMeaning.{permit_piece};

    type Act = PermitAct;

    ghost fits = { ExcludesOwnDot over_of };

    ghost delta = { permit_delta };

    ghost means = { IsMeaning };

    ghost piece_laws = { permit_piece };

    fn delta(alloc: Global, dot: Dot, act: &PermitAct) -> Result<Self, NoMemory> {
        let named = named_by(alloc, dot, act.over())?;
        let delta = Self::delta_with_context(alloc, dot, act, &named)?;
        Ok(delta)
    }
}
