//! The counters of each origin, as the values of a sorted map.
ghost use Rattle.std.specs.Prelude.{◌≡◌, ◌↔◌, ◌+◌, ◌<◌, length, IsTrue, MatchOption};
ghost use Rattle.dac_dots.specs.Entries.{counted};
ghost use Rattle.dac_dots.specs.Rows.{rises_on};

use crate::counters::Counters;
use dac_base::NoMemory;
use dac_origins::Origin;
use dac_sorted::{Combine, Digest, Predicate, Sharing};

/// The digest of counters, which says nothing of them.
#[derive(Clone, Copy, Debug)]
pub(crate) struct Rows;

impl Digest<Origin, Counters> for Rows {
    ghost says = { λ _ _ _. Unit {0} };

    fn none() -> Self {
        Rows
    }

    fn put(&mut self, _origin: Origin, _counters: &Counters) {}

    fn copy(counters: &Counters) -> Result<Counters, NoMemory> {
        counters.copy()
    }

    fn least() -> usize {
        64
    }
}

/// The union of the counters of each origin.
#[derive(Drop)]
pub(crate) struct Unite;

impl Combine<Origin, Counters> for Unite {
    ghost use Rattle.dac_dots.specs.Entries.{united};

    ghost combined = { λ _ _. united };

    fn left(&self, _origin: Origin, mine: &Counters) -> Result<Option<Counters>, NoMemory> {
        Ok(Some(mine.copy()?))
    }

    fn right(&self, _origin: Origin, theirs: &Counters) -> Result<Option<Counters>, NoMemory> {
        Ok(Some(theirs.copy()?))
    }

    fn both(
        &self,
        _origin: Origin,
        mine: &Counters,
        theirs: &Counters,
    ) -> Result<Option<Counters>, NoMemory> {
        Ok(Some(mine.union(theirs)?))
    }
}

impl Sharing<Origin, Counters, Rows> for Unite {
    ghost fits = { λ _ _ _. Unit {0} };

    fn stays(&self, _origin: Origin, mine: &Counters, theirs: Option<&Counters>) -> bool {
        mine.tells_rising();
        match theirs {
            Some(theirs) => theirs.is_subset(mine),
            None => true,
        }
    }

    fn leaves(&self, _digest: &Rows) -> bool {
        true
    }

    fn is_same(&self, mine: &Counters, theirs: &Counters) -> bool {
        theirs.is_subset(mine)
    }
}

/// Whether an origin's counters have no gap.
#[derive(Drop)]
pub(crate) struct Gapless;

impl Predicate<Origin, Counters, Rows> for Gapless {
    ghost use Rattle.std.specs.Prelude.{◌≡◌, length};
    ghost use Rattle.dac_dots.specs.Rows.{further_of, reach_of};

    ghost holds = { λ _ _ ns. length (further_of (reach_of ns) ns) ≡ 0 };

    fn passes(&self, _origin: Origin, counters: &Counters) -> bool {
        counters.further_at(0).is_none()
    }
}

/// Whether the row of 1 to `upto` and the further counters would be empty.
pub(crate) fn has_no_dots(upto: u64, further: &[u64]) -> bool
    ensures { IsTrue result ↔ (upto ≡ 0) × (length further.now ≡ 0) }
{
    upto == 0 && further.is_empty()
}

/// Whether the numbers ascend strictly from above `upto + 1`.
pub(crate) fn ascends_from(upto: u64, numbers: &[u64]) -> bool
    ensures { result ≡ rises_on (upto + 1) numbers.now }
{
    let Some(mut before) = upto.checked_add(1) else {
        return numbers.is_empty();
    };
    for n in numbers {
        if *n <= before {
            return false;
        }
        before = *n;
    }
    true
}

/// The room that the dots of these entries leave, or `None` if they don't fit.
pub(crate) fn room_after(room: u128, entries: &[(Origin, Counters)]) -> Option<u128>
    ensures { MatchOption result (room < counted entries.now)
        (λ rest. rest + counted entries.now ≡ room) }
{
    let mut rest = room;
    for (_, counters) in entries {
        let len = counters.len();
        if len > rest {
            return None;
        }
        rest -= len;
    }
    Some(rest)
}
