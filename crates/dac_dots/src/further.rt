//! The further counters of an origin.
ghost use Rattle.std.specs.Prelude.{◌≡◌, ◌↔◌, [], length, IfOk, IsTrue};
ghost use Rattle.std.specs.List.{slice_get};
ghost use Rattle.dac_dots.specs.Walking.{counters_after, left_of};

use crate::counters::Counters;
use crate::spans::Span;
use dac_base::NoMemory;
use std::alloc::Global;
use std::marker::Model;

/// The further counters of an origin: those after the first gap, and 0, in ascending order. Borrowed from a context.
/// Contracts treat it as the list of these counters.
#[derive(Debug, Drop)]
pub struct Further<'a> {
    pub(crate) counters: &'a Counters,
}

impl<'a> Model for Further<'a> {
    ghost use Rattle.std.specs.Prelude.{ℕ, List};
    ghost use Rattle.std.specs.Ordering.{nat_cmp};
    ghost use Rattle.dac_origins.specs.Keys.{IsRising};
    ghost use Rattle.dac_dots.specs.Rows.{further_of, reach_of};

    ghost Value = { List ℕ };

    ghost view = { λ a. further_of (reach_of a.counters.now) a.counters.now };

    ghost invariant = { λ a. IsRising nat_cmp a.counters.now };
}

impl<'a> Further<'a> {
    /// The counters in ascending order.
    pub fn list(&self, alloc: Global) -> Result<Vec<u64>, NoMemory>
        ensures { IfOk result (λ further. further.items ≡ self.now) }
    {
        let mut further = Vec::new(alloc);
        let mut rest = self.iter();
        while let Some(n) = rest.next() {
            further.push(n)?;
        }
        Ok(further)
    }

    /// The counter at index `place`. The time grows with the number of gaps before it.
    pub fn get(&self, place: usize) -> Option<u64>
        ensures { result ≡ slice_get self.now place }
    {
        self.counters.further_at(place as u128)
    }

    /// Iterates over the counters in ascending order. Each step takes the same time, however many gaps there are.
    pub fn iter(&self) -> FurtherIter<'a>
        ensures { left_of result ≡ self.now }
    {
        let (has_zero, spans) = self.counters.further();
        FurtherIter::of(has_zero, spans)
    }

    /// The number of counters.
    pub fn len(&self) -> u128
        ensures { result ≡ length self.now }
    {
        self.counters.len() - u128::from(self.counters.upto())
    }

    /// Whether there are no counters.
    pub fn is_empty(&self) -> bool
        ensures { IsTrue result ↔ (self.now ≡ []) }
    {
        self.len() == 0
    }
}

/// An iterator over the further counters of an origin, in ascending order.
#[derive(Debug, Drop)]
pub struct FurtherIter<'a> {
    /// The rest of the span that was begun.
    span: Option<Span>,
    /// The spans after it.
    spans: &'a [Span],
}

impl<'a> FurtherIter<'a> {
    /// Iterates over 0, if the set has it, and the counters of these spans.
    pub(crate) fn of(has_zero: bool, spans: &'a [Span]) -> Self
        ensures { left_of result ≡ counters_after has_zero spans.now }
    {
        let span = if has_zero {
            Some(Span { first: 0, last: 0 })
        } else {
            None
        };
        FurtherIter { span, spans }
    }
}

impl<'a> Iterator for FurtherIter<'a> {
    type Item = u64;

    ghost use Rattle.std.specs.Iterator.{YieldsFirst, item_count};
    ghost use Rattle.dac_dots.specs.Walking.{left_of};

    ghost next_gives = { YieldsFirst left_of };

    ghost remaining = { item_count left_of };

    fn next(&mut self) -> Option<u64> {
        let span = match self.span {
            Some(span) => span,
            None => {
                let (first, spans) = self.spans.split_first()?;
                self.spans = spans;
                *first
            }
        };
        self.span = span.rest();
        Some(span.first)
    }
}
