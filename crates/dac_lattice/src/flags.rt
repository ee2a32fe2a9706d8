//! A flag that can only go down.

use crate::{Bottom, Lattice};
use dac_origins::{MapKey, NoMemory};
use std::alloc::Global;

/// A two-valued lattice in which up is below down, so that once one replica sets it down, it is down at every replica
/// that merges it. It records that a node went down, that a permission was withdrawn, or that an incarnation is
/// drained.
#[derive(Clone, Copy, Debug, PartialEq, Eq, PartialOrd, Ord, Hash)]
pub enum Flag {
    /// Up, permitted, or not drained.
    Up,
    /// Down, not permitted, or drained.
    Down,
}

impl MapKey for Flag {
    ghost use Rattle.std.specs.Prelude.{refl};
    ghost use Rattle.dac_lattice.specs.laws.Flags.{exact_flags};

    ghost exact = { exact_flags ⟦<Flag as Ord>⟧.cmp refl refl };
}

impl Lattice for Flag {
    ghost use Rattle.dac_lattice.specs.Chains.{IsAny};
    ghost use Rattle.dac_lattice.specs.Flags.{IsFlagBelow, join_flags};
    ghost use Rattle.dac_lattice.specs.laws.Flags.{flag_laws};

    ghost is_value = { IsAny };

    ghost below = { IsFlagBelow };

    ghost join = { join_flags };

    ghost laws = { flag_laws };

    fn tells_invariant(&self) {}

    fn join(&self, other: &Self) -> Result<Self, NoMemory> {
        Ok(match self {
            Flag::Up => *other,
            Flag::Down => Flag::Down,
        })
    }

    fn leq(&self, other: &Self) -> bool {
        match (self, other) {
            (Flag::Down, Flag::Up) => false,
            _ => true,
        }
    }

    fn equal(&self, other: &Self) -> bool {
        self == other
    }

    fn copy(&self) -> Result<Self, NoMemory> {
        Ok(*self)
    }
}

impl Bottom for Flag {
    ghost use Rattle.dac_lattice.specs.declared.flags.Flag.TheVariants.{Up};

    ghost bottom = { Up };

    ghost least = { λ x v. tt };

    ghost bottom_value = { tt };

    fn bottom(_alloc: Global) -> Self {
        Flag::Up
    }
}
