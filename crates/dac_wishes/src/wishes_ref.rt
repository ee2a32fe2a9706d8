//! Start wishes, borrowed.
ghost use Rattle.std.specs.Prelude.{◌≡◌, ◌↔◌, length, IsTrue};
ghost use Rattle.dac_origins.specs.InOrder.{in_order};
ghost use Rattle.dac_wishes.specs.Writes.{dots_at};
ghost use Rattle.dac_wishes.specs.WishesValue.{is_wished, SomeStands};

use crate::key::Key;
use dac_origins::Dot;
use dac_store::{CausalRef, Context, DotMap, DotSet, Entries};
use std::marker::Model;

/// Standing start wishes and the known dots, both borrowed. Contracts see the value of [`Wishes`](crate::Wishes).
#[derive(Drop)]
pub struct WishesRef<'a> {
    causal: CausalRef<'a, DotMap<Key, DotSet>>,
}

impl<'a> Model for WishesRef<'a> {
    ghost use Rattle.dac_wishes.specs.WishesValue.{WishesValue, coded_wishes};
    ghost use Rattle.dac_wishes.specs.StoredWishes.{wishes_of, AreStoredDots};

    ghost Value = { WishesValue };

    ghost coded = { coded_wishes };

    ghost view = { λ a. wishes_of a.causal };

    ghost invariant = { λ a. AreStoredDots a.causal };
}

impl<'a> WishesRef<'a> {
    ghost use Rattle.dac_wishes.specs.StoredWishes.{wishes_of};
    ghost use Rattle.dac_wishes.specs.StartsByKey.{starts_by_key};

    /// The wishes of a stored form.
    #[inline(always)]
    pub(crate) fn of(causal: CausalRef<'a, DotMap<Key, DotSet>>) -> Self
        ensures { result ≡ wishes_of causal.entry }
    {
        causal.tells_invariant();
        WishesRef { causal }
    }

    /// The keys with a standing start, in ascending order, each with the dots of its starts.
    pub fn entries(&self) -> Entries<'a, Key, DotSet>
        ensures { result ≡ starts_by_key self.now.standing }
    {
        self.causal.store().entries()
    }

    /// The number of keys with a standing start.
    pub fn len(&self) -> usize
        ensures { result ≡ length (starts_by_key self.now.standing) }
    {
        self.causal.store().len()
    }

    /// Whether any start of the key stands.
    pub fn wished(&self, key: Key) -> bool
        ensures value { result ≡ is_wished key self.now }
        ensures some { IsTrue result ↔ SomeStands key self.now }
    {
        self.causal.store().get(key).is_some()
    }

    /// The dots of the key's standing starts, in ascending order.
    pub fn dots(&self, key: Key) -> &'a [Dot]
        ensures { result.now ≡ in_order (dots_at key self.now.standing) }
    {
        match self.causal.store().get(key) {
            Some(dots) => dots.dots(),
            None => &[],
        }
    }

    /// The known dots: those of the operations, and those that they replace.
    pub fn context(&self) -> &'a Context
        ensures { result.now ≡ self.now.known }
    {
        self.causal.context()
    }
}
