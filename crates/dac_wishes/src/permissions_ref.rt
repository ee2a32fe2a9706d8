//! Permissions, borrowed.
ghost use Rattle.std.specs.Prelude.{◌≡◌, ◌↔◌, length, IsTrue};
ghost use Rattle.dac_wishes.specs.PermissionsValue.{is_permitted, IsPermitted, permits_at};

use crate::key::Key;
use crate::permissions::permitted_by;
use crate::votes::kept_at;
use dac_lattice::Flag;
use dac_origins::Dot;
use dac_store::{CausalRef, Context, DotFun, DotMap, Entries};
use std::marker::Model;

/// Standing permits and the known dots, both borrowed. Contracts see the value of [`Permissions`](crate::Permissions).
#[derive(Drop)]
pub struct PermissionsRef<'a> {
    causal: CausalRef<'a, DotMap<Key, DotFun<Flag>>>,
}

impl<'a> Model for PermissionsRef<'a> {
    ghost use Rattle.dac_wishes.specs.PermissionsValue.{PermissionsValue, coded_permissions};
    ghost use Rattle.dac_wishes.specs.StoredPermits.{permissions_of, AreStoredFlags};

    ghost Value = { PermissionsValue };

    ghost coded = { coded_permissions };

    ghost view = { λ a. permissions_of a.causal };

    ghost invariant = { λ a. AreStoredFlags a.causal };
}

impl<'a> PermissionsRef<'a> {
    ghost use Rattle.dac_wishes.specs.StoredPermits.{permissions_of};
    ghost use Rattle.dac_wishes.specs.PermitsByKey.{permits_by_key};

    /// The permissions of a stored form.
    #[inline(always)]
    pub(crate) fn of(causal: CausalRef<'a, DotMap<Key, DotFun<Flag>>>) -> Self
        ensures { result ≡ permissions_of causal.entry }
    {
        causal.tells_invariant();
        PermissionsRef { causal }
    }

    /// The keys with a standing permit, in ascending order, each with the dots of its permits and their values.
    pub fn entries(&self) -> Entries<'a, Key, DotFun<Flag>>
        ensures { result ≡ permits_by_key self.now.standing }
    {
        self.causal.store().entries()
    }

    /// The number of keys with a standing permit.
    pub fn len(&self) -> usize
        ensures { result ≡ length (permits_by_key self.now.standing) }
    {
        self.causal.store().len()
    }

    /// Whether the key is permitted: the default if no permit of it stands, and otherwise whether all standing ones are
    /// true.
    pub fn permitted(&self, key: Key, default: bool) -> bool
        ensures value { result ≡ is_permitted key default self.now }
        ensures cases { IsTrue result ↔ IsPermitted key default self.now }
    {
        permitted_by(default, self.dots(key))
    }

    /// The dots of the key's standing permits, with their values, in ascending order.
    pub fn dots(&self, key: Key) -> &'a [(Dot, Flag)]
        ensures { result.now ≡ permits_at key self.now.standing }
    {
        kept_at(&self.causal, key)
    }

    /// The known dots: those of the operations, and those that they replace.
    pub fn context(&self) -> &'a Context
        ensures { result.now ≡ self.now.known }
    {
        self.causal.context()
    }
}
