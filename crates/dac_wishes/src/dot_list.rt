//! Lists of dots.
ghost use Rattle.std.specs.Prelude.{◌≡◌, ◌↔◌, IfOk, IsTrue};

use dac_base::NoMemory;
use dac_origins::Dot;
use std::marker::Model;

/// A list of dots in any order. Contracts treat it as the list.
#[derive(Debug)]
pub struct DotList {
    dots: Vec<Dot>,
}

/// Explicit, so that a proof treats each drop as one call.
impl Drop for DotList {
    fn drop(self) {
        let DotList { dots: _dots } = self;
    }
}

impl Model for DotList {
    ghost use Rattle.std.specs.Prelude.{List};
    ghost use Rattle.dac_origins.specs.declared.Dot.{Dot};

    ghost Value = { List Dot };

    ghost view = { λ a. a.dots.items };
}

impl DotList {
    /// The dots of a vector, in its order.
    pub fn new(dots: Vec<Dot>) -> Self
        ensures { result ≡ dots.items }
    {
        Self { dots }
    }

    /// The dots as a vector.
    pub fn into_vec(self) -> Vec<Dot>
        ensures { result.items ≡ self }
    {
        let DotList { dots } = self;
        dots
    }

    /// The dots in their order.
    pub fn as_slice(&self) -> &[Dot]
        ensures { result.now ≡ self.now }
    {
        self.dots.as_slice()
    }

    /// Whether both lists are equal.
    pub fn equal(&self, other: &Self) -> bool
        ensures { IsTrue result ↔ (self.now ≡ other.now) }
    {
        self.dots.as_slice() == other.dots.as_slice()
    }

    /// An equal list.
    pub fn copy(&self) -> Result<Self, NoMemory>
        ensures { IfOk result (λ copied. copied ≡ self.now) }
    {
        let dots = Vec::from_slice(*self.dots.allocator(), &self.dots)?;
        Ok(DotList { dots })
    }
}
