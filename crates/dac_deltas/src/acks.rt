//! Acknowledgements.
ghost use Rattle.std.specs.Prelude.{◌≡◌, None, OnOk, OnErr, IfOk};
ghost use Rattle.std.specs.FinMap as map;
ghost use Rattle.dac_deltas.specs.Numbers.{raised};

use crate::entries::Entries;
use dac_base::NoMemory;
use dac_origins::Origin;
use std::alloc::Global;
use std::marker::Model;

/// The greatest number that each origin acknowledged. Contracts treat it as a finite map from origins to numbers.
#[derive(Drop)]
pub struct Acks {
    numbers: Entries<Origin, u64>,
}

impl Model for Acks {
    ghost use Rattle.std.specs.FinMap as map;
    ghost use Rattle.std.specs.Coded.{coded_ℕ};
    ghost use Rattle.dac_origins.specs.Dots.{coded_origin};
    ghost use Rattle.dac_deltas.specs.Numbers.{Numbers};

    ghost Value = { Numbers };

    ghost coded = { map.code coded_origin coded_ℕ };

    ghost view = { λ a. map.from_entries a.numbers };
}

impl Acks {
    /// No acknowledgements.
    pub fn new(alloc: Global) -> Self
        ensures { result ≡ map.empty }
    {
        Acks {
            numbers: Entries::new(alloc),
        }
    }

    /// The greatest number that an origin acknowledged, if any.
    pub fn get(&self, origin: Origin) -> Option<u64>
        ensures { result ≡ map.get self.now origin }
    {
        self.numbers.get(origin)
    }

    /// Records that an origin acknowledged a number. A number that isn't greater changes nothing. Fails with
    /// [`NoMemory`] only at the origin's first acknowledgement, and changes nothing then.
    pub fn raise(&mut self, origin: Origin, number: u64) -> Result<(), NoMemory>
        ensures ok { OnOk result (self.new ≡ raised self.old origin number) }
        ensures err { OnErr result (self.new ≡ self.old) }
        ensures first { OnErr result (map.get self.old origin ≡ None) }
    {
        let greatest = match self.get(origin) {
            Some(before) => before.max(number),
            None => number,
        };
        self.numbers.put(origin, greatest)?;
        Ok(())
    }

    /// An equal table, which shares nothing.
    pub fn copy(&self) -> Result<Self, NoMemory>
        ensures { IfOk result (λ copied. copied ≡ self.now) }
    {
        Ok(Acks {
            numbers: self.numbers.copy()?,
        })
    }
}
