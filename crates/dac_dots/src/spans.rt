//! Spans of consecutive counters.
ghost use Rattle.std.specs.Prelude.{◌≡◌, ◌+◌, ◌-◌, ◌^◌, ◌<◌, ◌≤◌, ◌⊎◌, ◌||◌, ◌∷◌, [], false, true, length, nat_le, nat_lt, take, drop, vec_capacity, IfOk, OnErr, OnOk};
ghost use Rattle.dac_dots.specs.Spans.{IsPlaceFor, absorbed, any_span, are_apart, hull, rest_of, span_has, spans_of};

use crate::last_step::LastStep;
use dac_base::NoMemory;
use std::alloc::Global;
use std::slice::from_ref;

/// Consecutive counters, from `first` to `last`, both included.
#[derive(Clone, Copy, Debug)]
pub(crate) struct Span {
    pub(crate) first: u64,
    pub(crate) last: u64,
}

impl Span {
    /// Whether a counter lies between the end of this span and the beginning of the other.
    fn ends_before(self, other: Span) -> bool
        ensures { result ≡ nat_lt (self.last + 1) other.first }
    {
        self.last < other.first && other.first - self.last > 1
    }

    /// Whether the other span begins in this one, before it, or right after it.
    fn reaches(self, other: Span) -> bool
        ensures { result ≡ nat_le other.first (self.last + 1) }
    {
        other.first <= self.last || other.first - self.last == 1
    }

    /// The number of counters.
    pub(crate) fn len(self) -> u128
        requires { self.first ≤ self.last }
        ensures value { result ≡ self.last + 1 - self.first }
        ensures bound { self.last < 2 ^ 64 }
    {
        u128::from(self.last - self.first) + 1
    }

    /// The counter at index `place` of the span.
    pub(crate) fn at(self, place: u128) -> u64
        requires valid { self.first ≤ self.last }
        requires within { place < self.last + 1 - self.first }
        ensures { result ≡ self.first + place }
    {
        self.first + place as u64
    }

    /// The span without its first counter, unless that is the only one.
    pub(crate) fn rest(self) -> Option<Span>
        ensures { result ≡ rest_of self }
    {
        if self.first >= self.last {
            return None;
        }
        Some(Span {
            first: self.first + 1,
            last: self.last,
        })
    }

    /// The least span that contains both.
    fn hull(self, other: Span) -> Span
        ensures { result ≡ hull self other }
    {
        Span {
            first: self.first.min(other.first),
            last: self.last.max(other.last),
        }
    }
}

/// Spans in ascending order with gaps between them. A single one needs no allocation.
#[derive(Debug, Drop)]
pub(crate) enum Spans {
    /// No spans.
    Empty,
    /// A single span.
    One(Span),
    /// A list of spans.
    Listed(Vec<Span>),
}

impl Spans {
    /// The spans in ascending order.
    pub(crate) fn as_slice(&self) -> &[Span]
        ensures { result.now ≡ spans_of self.now }
    {
        match self {
            Spans::Empty => &[],
            Spans::One(span) => from_ref(span),
            Spans::Listed(spans) => spans.as_slice(),
        }
    }

    /// Equal spans. A list reserves room for one more span.
    pub(crate) fn copy(&self, alloc: Global) -> Result<Self, NoMemory>
        ensures { IfOk result (λ copied. spans_of copied ≡ spans_of self.now) }
    {
        match self {
            Spans::Empty => Ok(Spans::Empty),
            Spans::One(span) => Ok(Spans::One(*span)),
            Spans::Listed(spans) => {
                let copied = copy_listed(alloc, spans)?;
                Ok(Spans::Listed(copied))
            }
        }
    }

    /// Inserts the counters of a span. Allocates nothing if all are there.
    pub(crate) fn put(&mut self, alloc: Global, span: Span) -> Result<(), NoMemory>
        requires valid { span.first ≤ span.last }
        requires apart { are_apart 0 (spans_of self.old) ≡ true }
        ensures apart { are_apart 0 (spans_of self.new) ≡ true }
        ensures ok { OnOk result ((n : _)
            → any_span (spans_of self.new) n
            ≡ (span_has n span || any_span (spans_of self.old) n)) }
        ensures err { OnErr result (spans_of self.new ≡ spans_of self.old) }
        ensures first { OnErr result
            ((n : _) → span_has n span ≡ true → any_span (spans_of self.old) n ≡ false) }
    {
        match self {
            Spans::Empty => *self = Spans::One(span),
            Spans::One(single) => *self = one_or_two(alloc, *single, span)?,
            Spans::Listed(spans) => put_among(spans, span)?,
        }
        Ok(())
    }
}

impl Spans {
    /// Inserts the counters of a span right after a step. After [`NoMemory`] neither has happened.
    pub(crate) fn put_after<T, S: LastStep<T>>(
        &mut self,
        alloc: Global,
        span: Span,
        step: &S,
        target: &mut T,
    ) -> Result<(), NoMemory>
        requires valid { span.first ≤ span.last }
        requires apart { are_apart 0 (spans_of self.old) ≡ true }
        ensures apart { are_apart 0 (spans_of self.new) ≡ true }
        ensures ok { OnOk result ((n : _)
            → any_span (spans_of self.new) n
            ≡ (span_has n span || any_span (spans_of self.old) n)) }
        ensures step { OnOk result (S.steps step.now target.old target.new) }
        ensures err { OnErr result
            ((spans_of self.new ≡ spans_of self.old) × (target.new ≡ target.old)) }
    {
        match self {
            Spans::Empty => {
                step.take(target)?;
                *self = Spans::One(span);
            }
            Spans::One(single) => {
                let both = one_or_two(alloc, *single, span)?;
                step.take(target)?;
                *self = both;
            }
            Spans::Listed(spans) => {
                spans.reserve(1)?;
                step.take(target)?;
                put_among(spans, span)?;
            }
        }
        Ok(())
    }
}

/// A list of the same spans, with room for one more.
fn copy_listed(alloc: Global, spans: &[Span]) -> Result<Vec<Span>, NoMemory>
    ensures { IfOk result (λ copied. copied.items ≡ spans.now) }
{
    let mut copied = Vec::with_capacity(alloc, spans.len().saturating_add(1))?;
    copied.extend_from_slice(spans)?;
    Ok(copied)
}

/// The union of two spans: one span, unless a counter lies between them.
fn one_or_two(alloc: Global, single: Span, span: Span) -> Result<Spans, NoMemory>
    requires single { single.first ≤ single.last }
    requires span { span.first ≤ span.last }
    ensures apart { IfOk result (λ both. are_apart 0 (spans_of both) ≡ true) }
    ensures ok { IfOk result (λ both. (n : _)
        → any_span (spans_of both) n ≡ (span_has n span || any_span (single ∷ []) n)) }
    ensures first { OnErr result
        ((n : _) → span_has n span ≡ true → any_span (single ∷ []) n ≡ false) }
{
    if single.ends_before(span) {
        return two(alloc, single, span);
    }
    if span.ends_before(single) {
        return two(alloc, span, single);
    }
    Ok(Spans::One(single.hull(span)))
}

/// The list of two spans, the lower one first.
fn two(alloc: Global, lower: Span, upper: Span) -> Result<Spans, NoMemory>
    ensures { IfOk result (λ both. spans_of both ≡ lower ∷ upper ∷ []) }
{
    let both = Vec::from_slice(alloc, &[lower, upper])?;
    Ok(Spans::Listed(both))
}

/// Inserts the counters of a span into a list of spans. Allocates nothing if all are there, or there is room.
fn put_among(spans: &mut Vec<Span>, span: Span) -> Result<(), NoMemory>
    requires valid { span.first ≤ span.last }
    requires apart { are_apart 0 spans.old.items ≡ true }
    ensures apart { are_apart 0 spans.new.items ≡ true }
    ensures ok { OnOk result ((n : _)
        → any_span spans.new.items n ≡ (span_has n span || any_span spans.old.items n)) }
    ensures err { OnErr result (spans.new.items ≡ spans.old.items) }
    ensures first { OnErr result
        ((n : _) → span_has n span ≡ true → any_span spans.old.items n ≡ false) }
    ensures full { OnErr result (vec_capacity spans.old ≤ length spans.old.items) }
{
    let place = place_for(spans, span);
    let joined = absorb_touching(spans, place, span);
    spans.insert(place, joined)?;
    Ok(())
}

/// Removes the spans from index `place` on that touch this span or each other, and returns the hull of all of them.
fn absorb_touching(spans: &mut Vec<Span>, place: usize, span: Span) -> Span
    ensures front { take place spans.new.items ≡ take place spans.old.items }
    ensures value { absorbed span (drop place spans.old.items) ≡ result ∷ drop place spans.new.items }
    ensures room { ((spans.new.items ≡ spans.old.items) × (result ≡ span))
        ⊎ (length spans.new.items < vec_capacity spans.new) }
    ensures capacity { vec_capacity spans.new ≡ vec_capacity spans.old }
{
    let mut joined = span;
    while place < spans.len() && joined.reaches(spans[place]) {
        joined = joined.hull(spans.remove(place));
    }
    joined
}

/// The insertion index of a span: the number of spans that end so far before it that a counter lies between. Tries the
/// last span first, because most spans are appended or lengthen it.
fn place_for(spans: &[Span], span: Span) -> usize
    requires { are_apart 0 spans.now ≡ true }
    ensures { IsPlaceFor spans.now result span.first }
{
    match spans.last() {
        Some(last) if last.ends_before(span) => spans.len(),
        Some(last) if last.first <= span.first => spans.len() - 1,
        _ => spans.partition_point(|before| before.ends_before(span)),
    }
}
