//! A filter that proves most dots absent from a set without searching it.
ghost use Rattle.std.specs.Prelude.{◌≡◌, ◌<◌, false, true};
ghost use Rattle.dac_origins.specs.declared.dot.Dot.{Dot};
ghost use Rattle.dac_dots.specs.DotFilters.{AreApart, may_have, slot_of};

use dac_origins::Dot;

/// The number of words of slots.
const WORDS: usize = 16;

/// A Bloom filter of dots with one hash and 1,024 slots: 128 by counter for each of 8 nodes. Dots share slots, so an
/// unset slot proves its dots absent, but a set one proves nothing.
#[derive(Clone, Copy, Debug)]
pub struct DotFilter {
    pub(crate) slots: [u64; WORDS],
}

/// The slot of a dot.
fn slot_of(dot: Dot) -> u64
    ensures value { result ≡ slot_of dot }
    ensures bound { result < 1024 }
{
    dot.n % 128 * 8 + u64::from(dot.origin.node.0 % 8)
}

impl DotFilter {
    /// The empty filter: no slot is set.
    pub fn none() -> Self {
        DotFilter { slots: [0; WORDS] }
    }

    /// The full filter: each slot is set, so it excludes no dot.
    pub fn all() -> Self
        ensures { (q : Dot) → may_have result.slots q ≡ true }
    {
        DotFilter {
            slots: [u64::MAX; WORDS],
        }
    }

    /// Sets the slot of a dot.
    pub fn put(&mut self, dot: Dot)
        ensures own { may_have self.new.slots dot ≡ true }
        ensures more { (q : Dot) → may_have self.old.slots q ≡ true
            → may_have self.new.slots q ≡ true }
    {
        let slot = slot_of(dot);
        let word = (slot / 64) as usize;
        self.slots[word] |= 1 << (slot % 64);
    }

    /// Whether the slot of a dot is set.
    pub fn has(&self, dot: Dot) -> bool
        ensures { result ≡ may_have self.now.slots dot }
    {
        let slot = slot_of(dot);
        let word = (slot / 64) as usize;
        self.slots[word] >> (slot % 64) & 1 == 1
    }

    /// Whether a slot is set in both. Examines each word, so that a processor can take several at once.
    pub fn meets(&self, other: &Self) -> bool
        ensures { result ≡ false → AreApart self.now.slots other.now.slots }
    {
        let mut both = 0;
        for word in 0..WORDS {
            both |= self.slots[word] & other.slots[word];
        }
        both != 0
    }
}
