//! The traits of lattices.
ghost use Rattle.std.specs.Prelude.{◌≡◌, ◌↔◌, IsTrue, IfOk};
ghost use Rattle.dac_lattice.specs.Lattices.{IsLattice};

use dac_origins::NoMemory;
use std::alloc::Global;

/// Types with an order in which any two values have a least upper bound, their join.
///
/// One ghost member contains the laws: the order is a partial order, and the join is the least upper bound. They hold
/// only for values with the type's invariant (`is_value`), which `tells_invariant` yields.
pub trait Lattice: Drop {
    /// The type's invariant, as a predicate of values.
    ghost is_value: { Self → Type 0 };

    /// The order.
    ghost below: { Self → Self → Type 0 };

    /// The least upper bound.
    ghost join: { Self → Self → Self };

    /// States the type's invariant for proofs; does nothing at run time.
    fn tells_invariant(&self)
        ensures { is_value self.now };

    /// The least upper bound of both.
    fn join(&self, other: &Self) -> Result<Self, NoMemory>
        ensures { IfOk result (λ joined. joined ≡ join self.now other.now) };

    /// Whether this value is less than or equal to the other one.
    fn leq(&self, other: &Self) -> bool
        ensures { IsTrue result ↔ below self.now other.now };

    /// Whether both are equal.
    fn equal(&self, other: &Self) -> bool
        ensures { IsTrue result ↔ (self.now ≡ other.now) };

    /// An equal value. It can share immutable memory.
    fn copy(&self) -> Result<Self, NoMemory>
        ensures { IfOk result (λ copied. copied ≡ self.now) };

    /// The order is a partial order, and the join is the least upper bound.
    ghost laws: { IsLattice is_value below join };
}

/// A lattice with a least value.
pub trait Bottom: Lattice {
    /// The least value.
    ghost bottom: { Self };

    /// The least value.
    fn bottom(alloc: Global) -> Self
        ensures { result ≡ bottom };

    /// The least value is below every value.
    ghost least: { (x : Self) → Self.is_value x → Self.below bottom x };

    /// The least value has the type's invariant.
    ghost bottom_value: { Self.is_value bottom };
}
