//! Causal contexts: sets of dots.
ghost use Rattle.std.specs.Prelude.{◌≡◌, ◌↔◌, ◌≤◌, ◌<◌, ◌^◌, ◌∷◌, ◌++◌, [], length, slice_get, Some, false, true, if◌then◌else◌, IsTrue, IfOk, OnOk, OnErr, MatchOption};
ghost use Rattle.std.specs.FinSet as set;
ghost use Rattle.dac_origins.specs.Dots.{dot_cmp, IsNext, IsSubset, IsUsedUp, IsVector};
ghost use Rattle.dac_origins.specs.InOrder.{in_order};
ghost use Rattle.dac_origins.specs.Keys.{IsRising};
ghost use Rattle.dac_dots.specs.DotFilters.{MayHaveAll};
ghost use Rattle.dac_dots.specs.News.{AreNews, IsDoneOr};
ghost use Rattle.dac_dots.specs.Rows.{AreRowsOf, CanFollow, rows_of};

use crate::counters::{Counters, PutAfter};
use crate::filter::DotFilter;
use crate::further::Further;
use crate::last_step::LastStep;
use crate::news::News;
use crate::rows::{Gapless, Rows, Unite, ascends_from, has_no_dots, room_after};
use dac_base::{MAX_COUNTER, NoMemory};
use dac_origins::{Dot, Origin};
use dac_sorted::SortedMap;
use std::alloc::Global;
use std::marker::Model;

/// The greatest number of dots that are looked up in two other sets.
const MOST_COMPARED: usize = 64;

/// The greatest number of origins for which a filter is filled.
const MOST_FILLED: usize = 128;

/// A causal context: the set of dots that a replica has received. Contracts treat it as a finite set.
///
/// Dots can arrive in any order, so a context need not be a version vector: it can contain the fourth dot of an origin
/// without the third.
///
/// Copies share memory, so a copy only increments a reference count. The counters of each origin are the values of a
/// sorted map, so a change copies only a block of origins if another context shares it.
pub struct Context {
    rows: SortedMap<Origin, Counters, Rows>,
}

/// Explicit, so that a proof treats each drop as one call.
impl Drop for Context {
    #[inline(always)]
    fn drop(self) {
        let Context { rows: _rows } = self;
    }
}

impl Model for Context {
    ghost use Rattle.std.specs.FinSet as set;
    ghost use Rattle.dac_origins.specs.Dots.{dot_cmp, coded_dot};
    ghost use Rattle.dac_dots.specs.Entries.{AreRows, dots_of};

    ghost Value = { set.FinSet dot_cmp };

    ghost coded = { set.code coded_dot };

    ghost view = { λ a. dots_of a.rows };

    ghost invariant = { λ a. AreRows a.rows };
}

impl Context {
    /// The empty set.
    pub fn empty(alloc: Global) -> Self
        ensures { result ≡ set.empty }
    {
        Context {
            rows: SortedMap::empty(alloc),
        }
    }

    /// An equal set, which shares memory with this one until either changes.
    pub fn copy(&self) -> Result<Self, NoMemory>
        ensures { IfOk result (λ copied. copied ≡ self.now) }
    {
        let rows = self.rows.copy()?;
        Ok(Context { rows })
    }

    /// Whether the set contains the dot.
    pub fn contains(&self, dot: Dot) -> bool
        ensures { result ≡ set.contains self.now dot }
    {
        match self.rows.get(dot.origin) {
            Some(counters) => counters.contains(dot.n),
            None => false,
        }
    }

    /// Inserts a dot. A dot that is in the set changes nothing and allocates nothing.
    #[inline(always)]
    pub fn insert(&mut self, dot: Dot) -> Result<(), NoMemory>
        ensures ok { OnOk result (self.new ≡ set.insert self.old dot) }
        ensures err { OnErr result (self.new ≡ self.old) }
        ensures first { OnErr result (set.contains self.old dot ≡ false) }
    {
        let counters = match self.rows.get(dot.origin) {
            Some(counters) if counters.contains(dot.n) => return Ok(()),
            Some(counters) => counters.with(dot.n)?,
            None => Counters::one(self.rows.allocator(), dot.n),
        };
        self.rows.put(dot.origin, counters)?;
        Ok(())
    }

    /// The allocator of the set's memory.
    pub fn allocator(&self) -> Global {
        self.rows.allocator()
    }

    /// What the other set has that this one lacks.
    fn news_of(&self, other: &Self) -> News
        ensures { AreNews (set.contains self.now) (set.contains other.now) result }
    {
        let mut news = News::Nothing;
        let mut theirs = other.rows.entries();
        while let Some((origin, counters)) = theirs.next() {
            let Some(own) = self.rows.get(*origin) else {
                return News::More;
            };
            let Some(more) = counters.news_beside(own) else {
                return News::More;
            };
            let Some(span) = more else {
                continue;
            };
            let News::Nothing = news else {
                return News::More;
            };
            news = News::Consecutive(*origin, span);
        }
        news
    }

    /// Inserts the other set's dots in place, right after a step. Returns false, and does neither, if other contexts
    /// share this one, or the new dots aren't consecutive dots of an origin that has others. After [`NoMemory`] neither
    /// has happened.
    #[inline(always)]
    pub fn absorb_after<T, S: LastStep<T>>(
        &mut self,
        other: &Self,
        step: &S,
        target: &mut T,
    ) -> Result<bool, NoMemory>
        ensures ok { IfOk result (IsDoneOr
            ((self.new ≡ set.union self.old other.now)
            × S.steps step.now target.old target.new)
            ((self.new ≡ self.old) × (target.new ≡ target.old))) }
        ensures err { OnErr result ((self.new ≡ self.old) × (target.new ≡ target.old)) }
    {
        match self.news_of(other) {
            News::Nothing => {
                step.take(target)?;
                Ok(true)
            }
            News::Consecutive(origin, span) => {
                let how = PutAfter { span, step };
                self.rows.alter(origin, &how, target)
            }
            News::More => Ok(false),
        }
    }

    /// Whether each dot of this set, which has few, is in one of both others. If it has many, this can be false.
    pub fn is_within_both(&self, first: &Self, second: &Self) -> bool
        ensures { result ≡ true → IsSubset self.now (set.union first.now second.now) }
    {
        if !self.has_at_most(MOST_COMPARED) {
            return false;
        }
        let mut entries = self.rows.entries();
        while let Some((origin, counters)) = entries.next() {
            if !counters.is_within_both(*origin, first, second) {
                return false;
            }
        }
        true
    }

    /// The union of both sets.
    #[inline(always)]
    pub fn union(&self, other: &Self) -> Result<Self, NoMemory>
        ensures { IfOk result (λ both. both ≡ set.union self.now other.now) }
    {
        if self.rows.len() == 0 {
            return other.copy();
        }
        if other.rows.len() == 0 {
            return self.copy();
        }
        let rows = self.rows.merge(&Unite, &other.rows)?;
        Ok(Context { rows })
    }

    /// Whether this set is a subset of the other one.
    #[inline(always)]
    pub fn is_subset(&self, other: &Self) -> bool
        ensures { IsTrue result ↔ IsSubset self.now other.now }
    {
        let mut theirs = other.rows.entries();
        let mut mine = self.rows.entries();
        while let Some((origin, counters)) = mine.next() {
            match theirs.seek(*origin) {
                Some(others) if counters.is_subset(others) => {}
                _ => return false,
            }
        }
        true
    }

    /// The dot of the origin's next operation: one above its greatest counter in the set, or 1 if it has none. `None`
    /// if that counter has reached 2^62, the greatest that is issued.
    #[inline(always)]
    pub fn next(&self, origin: Origin) -> Option<Dot>
        ensures { MatchOption result (IsUsedUp self.now origin) (IsNext self.now origin) }
    {
        let last = match self.rows.get(origin) {
            Some(counters) => counters.last(),
            None => 0,
        };
        if last < MAX_COUNTER {
            Some(Dot {
                origin,
                n: last + 1,
            })
        } else {
            None
        }
    }

    /// Whether the set is a version vector: the counters of each origin are 1 to some number, without gaps.
    pub fn is_vector(&self) -> bool
        ensures { IsTrue result ↔ IsVector self.now }
    {
        self.rows.all(&Gapless)
    }

    /// The number of dots.
    pub fn len(&self) -> u128
        ensures { result ≡ set.len self.now }
    {
        if self.rows.len() == 0 {
            return 0;
        }
        let mut len = 0;
        let mut entries = self.rows.entries();
        while let Some((_, counters)) = entries.next() {
            len += counters.len();
        }
        len
    }

    /// Whether the set has at most `most` dots. Its time grows with `most`, not with the number of origins.
    #[inline(always)]
    pub fn has_at_most(&self, most: usize) -> bool
        ensures { IsTrue result ↔ (set.len self.now ≤ most) }
    {
        // Each origin has a dot.
        if self.rows.len() > most {
            return false;
        }
        let mut room = most as u128;
        let mut chunks = self.rows.chunks();
        while let Some(chunk) = chunks.next() {
            match room_after(room, chunk.entries) {
                Some(rest) => room = rest,
                None => return false,
            }
        }
        true
    }

    /// Sets the slot of each dot.
    pub(crate) fn fill(&self, filter: &mut DotFilter)
        ensures { MayHaveAll filter.new.slots self.now }
    {
        if self.rows.len() > MOST_FILLED {
            *filter = DotFilter::all();
            return;
        }
        let mut entries = self.rows.entries();
        while let Some((origin, counters)) = entries.next() {
            counters.fill(*origin, filter);
        }
    }

    /// The dots in ascending order, each once.
    pub fn dots(&self) -> Result<Vec<Dot>, NoMemory>
        ensures value { IfOk result (λ dots. dots.items ≡ in_order self.now) }
        ensures rising { IfOk result (λ dots. IsRising dot_cmp dots.items) }
        ensures same { IfOk result (λ dots. set.from_list dots.items ≡ self.now) }
    {
        let mut dots = Vec::new(self.rows.allocator());
        let mut entries = self.rows.entries();
        while let Some((origin, counters)) = entries.next() {
            counters.put_dots(*origin, &mut dots)?;
        }
        Ok(dots)
    }

    /// The number of origins with dots.
    pub fn rows(&self) -> usize
        ensures { result ≡ length (rows_of self.now) }
    {
        self.rows.len()
    }

    /// The `i`-th origin that has dots, in the order of origins: the origin, the last counter before its first gap, and
    /// its further counters.
    pub fn row(&self, i: usize) -> Option<(Origin, u64, Further<'_>)>
        ensures value { MatchOption result (length (rows_of self.now) ≤ i)
            (λ row. slice_get (rows_of self.now) i
            ≡ Some (record { origin = row.0; upto = row.1; further = row.2 })) }
        // Each index fits a `usize`.
        ensures few { length (rows_of self.now) < 2 ^ 63 }
        // The rows describe the set exactly.
        ensures rows { AreRowsOf self.now (rows_of self.now) }
    {
        if i >= self.rows.len() {
            return None;
        }
        let (origin, counters) = self.rows.nth(i)?;
        Some((*origin, counters.upto(), Further { counters }))
    }

    /// Appends the dots of an origin above all origins in the set: the counters 1 to `upto`, and further ones, which
    /// ascend from above `upto + 1`. Returns false, and changes nothing, unless these conditions hold and there is at
    /// least one dot.
    pub fn push_row(&mut self, origin: Origin, upto: u64, further: &[u64]) -> Result<bool, NoMemory>
        ensures answer { IfOk result (λ pushed. IsTrue pushed
            ↔ CanFollow (rows_of self.old)
            (record { origin = origin; upto = upto; further = further.now })) }
        ensures ok { IfOk result (λ pushed. rows_of self.new
            ≡ (if pushed
            then rows_of self.old
            ++ record { origin = origin; upto = upto; further = further.now } ∷ []
            else rows_of self.old)) }
        ensures same { IfOk result (λ pushed. pushed ≡ false → self.new ≡ self.old) }
        ensures err { OnErr result (self.new ≡ self.old) }
        ensures last { OnErr result (CanFollow (rows_of self.old)
            (record { origin = origin; upto = upto; further = further.now })) }
    {
        if !self.can_follow(origin, upto, further) {
            return Ok(false);
        }
        let counters = Counters::of(self.rows.allocator(), upto, further)?;
        self.rows.push(origin, counters)?;
        Ok(true)
    }

    /// Whether `push_row` accepts these dots of an origin.
    fn can_follow(&self, origin: Origin, upto: u64, further: &[u64]) -> bool
        ensures { IsTrue result
            ↔ CanFollow (rows_of self.now)
            (record { origin = origin; upto = upto; further = further.now }) }
    {
        if has_no_dots(upto, further) {
            return false;
        }
        if !self.rows.ends_below(origin) {
            return false;
        }
        ascends_from(upto, further)
    }
}
