//! Acknowledged numbers, with a cache of the latest for each node.
ghost use Rattle.std.specs.Prelude.{◌≡◌, ◌↔◌, ◌<◌, ℕ, length, IsTrue, IfOk, OnOk, OnErr};
ghost use Rattle.std.specs.FinMap as map;
ghost use Rattle.dac_deltas.specs.Numbers.{greater, raised};
ghost use Rattle.dac_peers.specs.Newest.{noted, IsNoted};

use crate::positions::Position;
use dac_base::{NoMemory, NodeId};
use dac_deltas::Acks;
use dac_origins::Origin;
use std::alloc::Global;
use std::marker::Model;

/// The greatest number that each origin acknowledged. Contracts see it as a finite map from origins to numbers.
///
/// Most reads are of a node's present incarnation. So the position that a node acknowledged last is also cached at the
/// node's place, where it is read without a search.
#[derive(Drop)]
pub(crate) struct Acked {
    numbers: Acks,
    latest: Vec<Option<Position>>,
}

impl Model for Acked {
    ghost use Rattle.std.specs.FinMap as map;
    ghost use Rattle.std.specs.Coded.{coded_ℕ};
    ghost use Rattle.dac_origins.specs.Dots.{coded_origin};
    ghost use Rattle.dac_deltas.specs.Numbers.{Numbers};
    ghost use Rattle.dac_peers.specs.Newest.{AreLatest};

    ghost Value = { Numbers };

    ghost coded = { map.code coded_origin coded_ℕ };

    ghost view = { λ a. a.numbers };

    ghost invariant = { λ a. AreLatest a.numbers a.latest.items };
}

/// The greater of a number and the one before it, if there is one.
fn greater(before: Option<u64>, number: u64) -> u64
    ensures { result ≡ greater before number }
{
    match before {
        Some(before) => before.max(number),
        None => number,
    }
}

/// Extends the cache up to a node's place, with empty places. Returns false, with the cache unchanged, if an allocation
/// fails.
fn reach(latest: &mut Vec<Option<Position>>, node: NodeId) -> bool
    ensures same { (q : ℕ) → noted latest.new.items q ≡ noted latest.old.items q }
    ensures there { IsTrue result ↔ (node.0 < length latest.new.items) }
{
    let place = node.0 as usize;
    place < latest.len() || latest.resize(place + 1, None).is_ok()
}

/// Caches a position at a node's place, or nothing if the place is missing and an allocation fails.
fn note(latest: &mut Vec<Option<Position>>, node: NodeId, position: Option<Position>)
    ensures { IsNoted latest.old.items node.0 position latest.new.items }
{
    if reach(latest, node) {
        latest[node.0 as usize] = position;
    }
}

/// The cached position of a node.
fn noted_at(latest: &[Option<Position>], node: NodeId) -> Option<Position>
    ensures { result ≡ noted latest.now node.0 }
{
    let place = node.0 as usize;
    if place < latest.len() {
        latest[place]
    } else {
        None
    }
}

impl Acked {
    /// No acknowledgements.
    pub(crate) fn new(alloc: Global) -> Self
        ensures { result ≡ map.empty }
    {
        Acked {
            numbers: Acks::new(alloc),
            latest: Vec::new(alloc),
        }
    }

    /// The greatest number that an origin acknowledged, if any.
    #[inline(always)]
    pub(crate) fn get(&self, origin: Origin) -> Option<u64>
        ensures { result ≡ map.get self.now origin }
    {
        match noted_at(&self.latest, origin.node) {
            Some(position) if position.inc == origin.inc => Some(position.number),
            _ => self.numbers.get(origin),
        }
    }

    /// Records that an origin acknowledged a number, unless it acknowledged a greater one. `NoMemory` leaves the table
    /// unchanged.
    pub(crate) fn raise(&mut self, origin: Origin, number: u64) -> Result<(), NoMemory>
        ensures ok { OnOk result (self.new ≡ raised self.old origin number) }
        ensures err { OnErr result (self.new ≡ self.old) }
    {
        let greatest = greater(self.get(origin), number);
        self.numbers.raise(origin, number)?;
        let position = Position {
            inc: origin.inc,
            number: greatest,
        };
        note(&mut self.latest, origin.node, Some(position));
        Ok(())
    }

    /// An equal table that shares nothing with this one.
    pub(crate) fn copy(&self) -> Result<Self, NoMemory>
        ensures { IfOk result (λ copied. copied ≡ self.now) }
    {
        let numbers = self.numbers.copy()?;
        let latest = Vec::from_slice(*self.latest.allocator(), &self.latest)?;
        Ok(Acked { numbers, latest })
    }
}
