//! A lattice whose joins can be counted.
ghost use Rattle.std.specs.Prelude.{refl};

use dac_base::NoMemory;
use dac_lattice::{Bottom, Lattice};
use std::alloc::Global;
use std::marker::Model;

/// All tokens are equal. A hidden counter, invisible to contracts, counts the joins that produced a token; a copy
/// starts at 0.
#[derive(Drop)]
pub struct Token {
    pub joins: u64,
}

impl Model for Token {
    ghost Value = { Unit {0} };

    ghost view = { λ _. tt };
}

impl Token {
    /// A token produced without joins.
    pub fn new() -> Self {
        Token { joins: 0 }
    }
}

impl Lattice for Token {
    ghost is_value = { λ _. Unit {0} };

    ghost below = { λ _ _. Unit {0} };

    ghost join = { λ _ _. tt };

    ghost laws = { record {
      refl = λ _ _. tt;
      trans = λ _ _ _ _ _ _ _ _. tt;
      antisymm = λ _ _ _ _ _ _. refl;
      closed = λ _ _ _ _. tt;
      left = λ _ _ _ _. tt;
      right = λ _ _ _ _. tt;
      least = λ _ _ _ _ _ _ _ _. tt;
    } };

    fn tells_invariant(&self) {}

    fn join(&self, _other: &Self) -> Result<Self, NoMemory> {
        Ok(Token {
            joins: self.joins.wrapping_add(1),
        })
    }

    fn leq(&self, _other: &Self) -> bool {
        true
    }

    fn equal(&self, _other: &Self) -> bool {
        true
    }

    fn copy(&self) -> Result<Self, NoMemory> {
        Ok(Token::new())
    }
}

impl Bottom for Token {
    ghost bottom = { tt };

    ghost least = { λ _ _. tt };

    ghost bottom_value = { tt };

    fn bottom(_alloc: Global) -> Self {
        Token::new()
    }
}
