//! The maximum of totally ordered values.
ghost use Rattle.std.specs.Prelude.{◌≡◌};

use crate::{Bottom, Lattice};
use dac_origins::{MapKey, NoMemory};
use std::alloc::Global;

/// The greatest value received so far: ordered as its values are, with the maximum as join.
#[derive(Clone, Copy, Debug)]
pub struct Max<T> {
    /// The greatest value received.
    pub value: T,
}

impl<T: MapKey> Max<T> {
    /// The maximum of one value.
    pub fn new(value: T) -> Self
        ensures { result ≡ record { value = value } }
    {
        Max { value }
    }
}

impl<T: MapKey> Lattice for Max<T> {
    ghost use Rattle.std.specs.Prelude.{refl};
    ghost use Rattle.std.specs.Ordering.{ord_max};
    ghost use Rattle.dac_lattice.specs.Chains.{IsAny, IsAtMost};
    ghost use Rattle.dac_lattice.specs.laws.Chains.{chain_laws};
    ghost use Rattle.dac_lattice.specs.laws.Lattices.{wrapped_laws};

    ghost is_value = { IsAny };

    ghost below = { λ x y. IsAtMost T.cmp x.value y.value };

    ghost join = { λ x y. record { value = ord_max T.cmp x.value y.value } };

    ghost laws = { wrapped_laws (λ m. m.value) (λ v. record { value = v }) (λ _. refl) (λ _. refl)
        (chain_laws T.total T.exact) };

    fn tells_invariant(&self) {}

    fn join(&self, other: &Self) -> Result<Self, NoMemory> {
        Ok(Max::new(self.value.max(other.value)))
    }

    fn leq(&self, other: &Self) -> bool {
        self.value.cmp(&other.value).is_le()
    }

    fn equal(&self, other: &Self) -> bool {
        self.value.cmp(&other.value).is_eq()
    }

    fn copy(&self) -> Result<Self, NoMemory> {
        Ok(*self)
    }
}

/// The least number is 0.
impl Bottom for Max<u64> {
    ghost use Rattle.dac_lattice.specs.laws.Chains.{zero_is_least};

    ghost bottom = { record { value = 0 } };

    ghost least = { λ x _. zero_is_least x.value };

    ghost bottom_value = { tt };

    fn bottom(_alloc: Global) -> Self {
        Max::new(0)
    }
}
