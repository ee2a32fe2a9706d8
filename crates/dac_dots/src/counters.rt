//! Sets of counters, stored as spans of consecutive counters.
ghost use Rattle.std.specs.Prelude.{◌≡◌, ◌↔◌, ◌+◌, ◌^◌, ◌<◌, ◌≤◌, ◌||◌, ◌&&◌, ◌∷◌, ◌++◌, [], false, true, length, map, nat_le, IfOk, IfSome, IsTrue, OnErr, OnOk};
ghost use Rattle.std.specs.Ordering.{eq_by_cmp, nat_cmp};
ghost use Rattle.dac_origins.specs.Dots.{dot};
ghost use Rattle.dac_origins.specs.Keys.{IsRising, has_key};
ghost use Rattle.dac_origins.specs.declared.dot.Dot.{Dot};
ghost use Rattle.std.specs.FinSet as set;
ghost use Rattle.dac_dots.specs.DotFilters.{may_have};
ghost use Rattle.dac_dots.specs.News.{AreWithSpan};
ghost use Rattle.dac_dots.specs.Rows.{IsGreatest, further_of, reach_of};
ghost use Rattle.dac_dots.specs.Spans.{AreSpans, HaveEnded, any_span, are_apart, counters_in, span_has};
ghost use Rattle.std.specs.List.{slice_get};
ghost use Rattle.dac_dots.specs.Walking.{counters_after, counters_along, left_of};

use crate::context::Context;
use crate::filter::DotFilter;
use crate::further::FurtherIter;
use crate::last_step::LastStep;
use crate::spans::{Span, Spans};
use dac_base::NoMemory;
use dac_origins::{Dot, Origin};
use dac_sorted::Alter;
use std::alloc::Global;
use std::marker::Model;

/// Up to this many spans of another set are inserted one by one; more are merged in one pass over both sets.
const FEW: usize = 8;

/// The counter at index `place` among those of the spans.
fn counter_at(spans: &[Span], place: u128) -> Option<u64>
    requires { AreSpans spans.now }
    ensures { result ≡ slice_get (counters_along spans.now) place }
{
    let mut left = place;
    for span in spans {
        let len = span.len();
        if left < len {
            return Some(span.at(left));
        }
        left -= len;
    }
    None
}

/// Sets the slot of each dot of the origin whose counter is in the span.
fn fill_span(origin: Origin, span: Span, filter: &mut DotFilter)
    requires { span.first ≤ span.last }
    ensures own { (n : _) → span_has n span ≡ true → may_have filter.new.slots (dot origin n) ≡ true }
    ensures more { (q : Dot) → may_have filter.old.slots q ≡ true → may_have filter.new.slots q ≡ true }
{
    for n in span.first..span.last {
        filter.put(Dot { origin, n });
    }
    filter.put(Dot {
        origin,
        n: span.last,
    });
}

/// The number of spans that end before a counter. Tries the first span first, because a set without gaps is one span.
fn spans_before(spans: &[Span], n: u64) -> usize
    requires { are_apart 0 spans.now ≡ true }
    ensures { HaveEnded spans.now result n }
{
    match spans.first() {
        Some(first) if n <= first.last => 0,
        _ => spans.partition_point(|span| span.last < n),
    }
}

/// A set of counters. Its cost depends on gaps and not on counters, because each span is maximal.
#[derive(Debug)]
pub(crate) struct Counters {
    alloc: Global,
    spans: Spans,
}

/// Explicit, so that a proof treats each drop as one call.
impl Drop for Counters {
    fn drop(self) {
        let Counters {
            alloc: _alloc,
            spans: _spans,
        } = self;
    }
}

impl Model for Counters {
    ghost use Rattle.std.specs.Prelude.{ℕ, List, ◌≡◌, true};
    ghost use Rattle.std.specs.Coded.{coded_ℕ, coded_list};
    ghost use Rattle.dac_dots.specs.Spans.{are_apart, counters_in, spans_of};

    // The counters in ascending order.
    ghost Value = { List ℕ };

    ghost coded = { coded_list coded_ℕ };

    ghost view = { λ a. counters_in (spans_of a.spans) };

    ghost invariant = { λ a. are_apart 0 (spans_of a.spans) ≡ true };
}

impl Counters {
    /// The empty set.
    pub(crate) fn empty(alloc: Global) -> Self
        ensures { result ≡ [] }
    {
        Counters {
            alloc,
            spans: Spans::Empty,
        }
    }

    /// The set of one counter.
    pub(crate) fn one(alloc: Global, n: u64) -> Self
        ensures { result ≡ n ∷ [] }
    {
        Counters {
            alloc,
            spans: Spans::One(Span { first: n, last: n }),
        }
    }

    /// The spans in ascending order.
    fn spans(&self) -> &[Span]
        ensures value { counters_in result.now ≡ self.now }
        ensures apart { are_apart 0 result.now ≡ true }
        ensures valid { AreSpans result.now }
    {
        self.spans.as_slice()
    }

    /// An equal set. With a gap it reserves room for one more span; without one it allocates nothing.
    #[inline(always)]
    pub(crate) fn copy(&self) -> Result<Self, NoMemory>
        ensures value { IfOk result (λ copied. copied ≡ self.now) }
        ensures rising { IfOk result (λ copied. IsRising nat_cmp copied) }
    {
        let spans = self.spans.copy(self.alloc)?;
        Ok(Counters {
            alloc: self.alloc,
            spans,
        })
    }

    /// The set with a counter inserted, which shares nothing.
    pub(crate) fn with(&self, n: u64) -> Result<Self, NoMemory>
        ensures rising { IfOk result (λ more. IsRising nat_cmp more) }
        ensures has { IfOk result (λ more. (m : _)
            → has_key nat_cmp more m ≡ (eq_by_cmp nat_cmp m n || has_key nat_cmp self.now m)) }
    {
        let mut more = self.copy()?;
        more.insert(n)?;
        Ok(more)
    }

    /// The counters 1 to `upto` and further ones, which ascend from above `upto + 1`.
    pub(crate) fn of(alloc: Global, upto: u64, further: &[u64]) -> Result<Self, NoMemory>
        requires { IsRising nat_cmp ((upto + 1) ∷ further.now) }
        ensures rising { IfOk result (λ counters. IsRising nat_cmp counters) }
        ensures upto { IfOk result (λ counters. reach_of counters ≡ upto) }
        ensures further { IfOk result (λ counters. further_of upto counters ≡ further.now) }
    {
        let mut counters = Counters::empty(alloc);
        counters.insert_upto(upto)?;
        for n in further {
            counters.insert(*n)?;
        }
        Ok(counters)
    }

    /// States that the counters ascend, for proofs; does nothing at run time.
    pub(crate) fn tells_rising(&self)
        ensures { IsRising nat_cmp self.now }
    {
        let _spans = &self.spans;
    }

    /// Whether the set contains each counter of a span.
    fn has_span(&self, span: Span) -> bool
        requires { span.first ≤ span.last }
        ensures { IsTrue result
            ↔ ((n : _) → span_has n span ≡ true → has_key nat_cmp self.now n ≡ true) }
    {
        let spans = self.spans();
        match spans.get(spans_before(spans, span.first)) {
            Some(found) => found.first <= span.first && span.last <= found.last,
            None => false,
        }
    }

    /// Whether the set contains a counter.
    pub(crate) fn contains(&self, n: u64) -> bool
        ensures { result ≡ has_key nat_cmp self.now n }
    {
        self.has_span(Span { first: n, last: n })
    }

    /// Inserts the counters of a span. Allocates nothing if all are there.
    #[inline(always)]
    fn put(&mut self, span: Span) -> Result<(), NoMemory>
        requires { span.first ≤ span.last }
        ensures rising { IsRising nat_cmp self.new }
        ensures ok { OnOk result
            ((n : _) → has_key nat_cmp self.new n ≡ (span_has n span || has_key nat_cmp self.old n)) }
        ensures err { OnErr result (self.new ≡ self.old) }
        ensures first { OnErr result
            ((n : _) → span_has n span ≡ true → has_key nat_cmp self.old n ≡ false) }
    {
        self.spans.put(self.alloc, span)
    }

    /// Inserts a counter. Allocates nothing if it is there.
    pub(crate) fn insert(&mut self, n: u64) -> Result<(), NoMemory>
        ensures rising { IsRising nat_cmp self.new }
        ensures ok { OnOk result ((m : _)
            → has_key nat_cmp self.new m ≡ (eq_by_cmp nat_cmp m n || has_key nat_cmp self.old m)) }
        ensures err { OnErr result (self.new ≡ self.old) }
        ensures first { OnErr result (has_key nat_cmp self.old n ≡ false) }
    {
        self.put(Span { first: n, last: n })
    }

    /// Inserts the counters 1 to `upto`.
    pub(crate) fn insert_upto(&mut self, upto: u64) -> Result<(), NoMemory>
        ensures rising { IsRising nat_cmp self.old → IsRising nat_cmp self.new }
        ensures ok { OnOk result ((n : _)
            → has_key nat_cmp self.new n
            ≡ ((nat_le 1 n && nat_le n upto) || has_key nat_cmp self.old n)) }
    {
        if 0 < upto {
            self.put(Span {
                first: 1,
                last: upto,
            })?;
        }
        Ok(())
    }

    /// Inserts the counters of these spans. After [`NoMemory`] the set can contain some of them.
    fn put_all(&mut self, spans: &[Span]) -> Result<(), NoMemory>
        requires { AreSpans spans.now }
        ensures rising { IsRising nat_cmp self.old → IsRising nat_cmp self.new }
        ensures ok { OnOk result ((n : _)
            → has_key nat_cmp self.new n ≡ (any_span spans.now n || has_key nat_cmp self.old n)) }
        ensures err { OnErr result
            ((n : _) → has_key nat_cmp self.old n ≡ true → has_key nat_cmp self.new n ≡ true) }
    {
        for span in spans {
            self.put(*span)?;
        }
        Ok(())
    }

    /// The union of both sets, which shares nothing.
    pub(crate) fn union(&self, other: &Self) -> Result<Self, NoMemory>
        ensures rising { IfOk result (λ both. IsRising nat_cmp both) }
        ensures has { IfOk result (λ both. (n : _)
            → has_key nat_cmp both n
            ≡ (has_key nat_cmp other.now n || has_key nat_cmp self.now n)) }
    {
        let theirs = other.spans();
        if theirs.len() <= FEW {
            let mut both = self.copy()?;
            both.put_all(theirs)?;
            return Ok(both);
        }
        merge_spans(self.alloc, self.spans(), theirs)
    }

    /// The span of this set that isn't in the other one, or `None` if there is none. `None` instead of both if there are
    /// more.
    pub(crate) fn news_beside(&self, other: &Self) -> Option<Option<Span>>
        ensures { IfSome result
            (AreWithSpan (has_key nat_cmp self.now) (has_key nat_cmp other.now)) }
    {
        let mut news = None;
        for span in self.spans() {
            if other.has_span(*span) {
                continue;
            }
            if news.is_some() {
                return None;
            }
            news = Some(*span);
        }
        Some(news)
    }

    /// Whether each counter of the origin in this set is in one of both contexts.
    pub(crate) fn is_within_both(&self, origin: Origin, first: &Context, second: &Context) -> bool
        ensures { result ≡ true → (n : _) → has_key nat_cmp self.now n ≡ true
            → (set.contains first.now (dot origin n) || set.contains second.now (dot origin n))
            ≡ true }
    {
        for span in self.spans() {
            if !span_within_both(origin, *span, first, second) {
                return false;
            }
        }
        true
    }

    /// Whether this set is a subset of the other one.
    pub(crate) fn is_subset(&self, other: &Self) -> bool
        ensures { IsTrue result
            ↔ ((n : _) → has_key nat_cmp self.now n ≡ true → has_key nat_cmp other.now n ≡ true) }
    {
        for span in self.spans() {
            if !other.has_span(*span) {
                return false;
            }
        }
        true
    }

    /// The greatest counter, or 0 if there is none.
    pub(crate) fn last(&self) -> u64
        ensures { IsGreatest self.now result }
    {
        match self.spans().last() {
            Some(span) => span.last,
            None => 0,
        }
    }

    /// The last counter before the first gap, or 0 if the set lacks 1, and the spans after it.
    fn split_at_gap(&self) -> (u64, &[Span])
        ensures upto { result.0 ≡ reach_of self.now }
        ensures rest { counters_after (has_key nat_cmp self.now 0) result.1.now
            ≡ further_of (reach_of self.now) self.now }
        ensures valid { AreSpans result.1.now }
    {
        let spans = self.spans();
        match spans.split_first() {
            Some((first, rest)) if first.first <= 1 => (first.last, rest),
            _ => (0, spans),
        }
    }

    /// The last counter before the first gap, or 0 if the set lacks 1.
    pub(crate) fn upto(&self) -> u64
        ensures { result ≡ reach_of self.now }
    {
        self.split_at_gap().0
    }

    /// The number of counters.
    pub(crate) fn len(&self) -> u128
        ensures value { result ≡ length self.now }
        ensures bound { result < 2 ^ 65 }
    {
        let mut len = 0;
        for span in self.spans() {
            len += span.len();
        }
        len
    }

    /// Whether the set contains 0, and the spans after the first gap: their counters are those outside 1 to `upto`.
    pub(crate) fn further(&self) -> (bool, &[Span])
        ensures value { counters_after result.0 result.1.now ≡ further_of (reach_of self.now) self.now }
        ensures valid { AreSpans result.1.now }
    {
        (self.contains(0), self.split_at_gap().1)
    }

    /// The counter at index `place` among those outside 1 to `upto`, in ascending order.
    pub(crate) fn further_at(&self, place: u128) -> Option<u64>
        ensures { result ≡ slice_get (further_of (reach_of self.now) self.now) place }
    {
        match self.further() {
            (false, spans) => counter_at(spans, place),
            (true, _) if place == 0 => Some(0),
            (true, spans) => counter_at(spans, place - 1),
        }
    }

    /// Iterates over the counters in ascending order.
    fn iter(&self) -> FurtherIter<'_>
        ensures { left_of result ≡ self.now }
    {
        FurtherIter::of(false, self.spans())
    }

    /// Sets the slot of each dot of the origin whose counter is in the set.
    pub(crate) fn fill(&self, origin: Origin, filter: &mut DotFilter)
        ensures own { (n : _) → has_key nat_cmp self.now n ≡ true
            → may_have filter.new.slots (dot origin n) ≡ true }
        ensures more { (q : Dot) → may_have filter.old.slots q ≡ true
            → may_have filter.new.slots q ≡ true }
    {
        for span in self.spans() {
            fill_span(origin, *span, filter);
        }
    }

    /// Appends the origin's dots with counters in the set, in the order of counters.
    pub(crate) fn put_dots(&self, origin: Origin, dots: &mut Vec<Dot>) -> Result<(), NoMemory>
        ensures { OnOk result (dots.new.items ≡ dots.old.items ++ map (dot origin) self.now) }
    {
        let mut counters = self.iter();
        while let Some(n) = counters.next() {
            dots.push(Dot { origin, n })?;
        }
        Ok(())
    }
}

/// Whether each counter of the origin in a span is in one of both contexts.
fn span_within_both(origin: Origin, span: Span, first: &Context, second: &Context) -> bool
    requires { span.first ≤ span.last }
    ensures { result ≡ true → (n : _) → span_has n span ≡ true
        → (set.contains first.now (dot origin n) || set.contains second.now (dot origin n)) ≡ true }
{
    for n in span.first..span.last {
        if !is_in_either(first, second, Dot { origin, n }) {
            return false;
        }
    }
    let last = Dot {
        origin,
        n: span.last,
    };
    is_in_either(first, second, last)
}

/// Whether a dot is in one of both contexts.
fn is_in_either(first: &Context, second: &Context, dot: Dot) -> bool
    ensures { result ≡ (set.contains first.now dot || set.contains second.now dot) }
{
    first.contains(dot) || second.contains(dot)
}

/// Inserts the counters of a span right after a step.
#[derive(Drop)]
pub(crate) struct PutAfter<'a, S> {
    pub(crate) span: Span,
    pub(crate) step: &'a S,
    ghost valid: { span.first ≤ span.last },
}

impl<T, S: LastStep<T>> Alter<Counters, T> for PutAfter<'_, S> {
    ghost use Rattle.std.specs.Prelude.{◌≡◌, ℕ, ◌||◌};
    ghost use Rattle.std.specs.Ordering.{nat_cmp};
    ghost use Rattle.dac_origins.specs.Keys.{IsRising, has_key};
    ghost use Rattle.dac_dots.specs.Spans.{span_has};

    ghost does = { λ a ns t ms u. IsRising nat_cmp ms
        × (((n : ℕ) → has_key nat_cmp ms n ≡ (span_has n a.span || has_key nat_cmp ns n))
        × S.steps a.step.now t u) };

    #[inline(always)]
    fn alter(&self, counters: &mut Counters, target: &mut T) -> Result<(), NoMemory> {
        let alloc = counters.alloc;
        counters
            .spans
            .put_after(alloc, self.span, self.step, target)
    }
}

/// The union of two lists of spans. If both are sorted, the merge keeps their order, so that each span is appended.
fn merge_spans(alloc: Global, xs: &[Span], ys: &[Span]) -> Result<Counters, NoMemory>
    requires first { AreSpans xs.now }
    requires second { AreSpans ys.now }
    ensures { IfOk result (λ both. IsRising nat_cmp both
        × ((n : _) → has_key nat_cmp both n ≡ (any_span ys.now n || any_span xs.now n))) }
{
    let mut both = Counters::empty(alloc);
    let mut i = 0;
    let mut j = 0;
    'both: while i < xs.len() && j < ys.len() {
        if xs[i].first <= ys[j].first {
            both.put(xs[i])?;
            i += 1;
        } else {
            both.put(ys[j])?;
            j += 1;
        }
    }
    both.put_all(&xs[i..])?;
    both.put_all(&ys[j..])?;
    Ok(both)
}
