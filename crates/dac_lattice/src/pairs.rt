//! The product of two lattices.
ghost use Rattle.std.specs.Prelude.{◌≡◌};

use crate::{Bottom, Lattice};
use dac_origins::NoMemory;
use std::alloc::Global;

/// The product of two lattices, ordered and joined componentwise.
#[derive(Debug, Drop)]
pub struct Pair<A, B> {
    /// The first component.
    pub first: A,
    /// The second component.
    pub second: B,
}

impl<A: Lattice, B: Lattice> Pair<A, B> {
    /// The pair of two values.
    pub fn new(first: A, second: B) -> Self
        ensures { result ≡ record { first = first; second = second } }
    {
        Pair { first, second }
    }
}

impl<A: Lattice, B: Lattice> Lattice for Pair<A, B> {
    ghost use Rattle.std.specs.Prelude.{refl};
    ghost use Rattle.dac_lattice.specs.laws.Lattices.{wrapped_laws, paired_laws};

    ghost is_value = { λ p. A.is_value p.first × B.is_value p.second };

    ghost below = { λ p q. A.below p.first q.first × B.below p.second q.second };

    ghost join = { λ p q. record {
      first = A.join p.first q.first;
      second = B.join p.second q.second;
    } };

    ghost laws = { wrapped_laws (λ p. (p.first, p.second))
        (λ p. record { first = p.0; second = p.1 }) (λ _. refl) (λ _. refl)
        (paired_laws A.laws B.laws) };

    fn tells_invariant(&self) {
        self.first.tells_invariant();
        self.second.tells_invariant();
    }

    fn join(&self, other: &Self) -> Result<Self, NoMemory> {
        let first = self.first.join(&other.first)?;
        let second = self.second.join(&other.second)?;
        Ok(Pair::new(first, second))
    }

    fn leq(&self, other: &Self) -> bool {
        self.first.leq(&other.first) && self.second.leq(&other.second)
    }

    fn equal(&self, other: &Self) -> bool {
        self.first.equal(&other.first) && self.second.equal(&other.second)
    }

    fn copy(&self) -> Result<Self, NoMemory> {
        Ok(Pair::new(self.first.copy()?, self.second.copy()?))
    }
}

impl<A: Bottom, B: Bottom> Bottom for Pair<A, B> {
    ghost bottom = { record { first = A.bottom; second = B.bottom } };

    ghost least = { λ p v. (A.least p.first v.0, B.least p.second v.1) };

    ghost bottom_value = { (A.bottom_value, B.bottom_value) };

    fn bottom(alloc: Global) -> Self {
        Pair::new(A::bottom(alloc), B::bottom(alloc))
    }
}
