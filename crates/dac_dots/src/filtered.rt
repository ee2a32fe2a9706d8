//! Contexts with a filter, for many membership tests.
ghost use Rattle.std.specs.Prelude.{◌≡◌};
ghost use Rattle.std.specs.FinSet as set;
ghost use Rattle.dac_dots.specs.DotFilters.{MayHaveAll};

use crate::context::Context;
use crate::filter::DotFilter;
use dac_origins::Dot;
use std::marker::Model;

/// The greatest number of dots that are put one by one; this many consecutive dots of one origin set every slot of
/// their node.
const MAX_FILTERED_DOTS: usize = 128;

/// The least number of expected tests for which filling a filter pays.
const MIN_TESTS: usize = 3;

/// A context with a filter that makes most negative tests cheap. Contracts treat it as the context.
#[derive(Drop)]
pub struct FilteredContext<'a> {
    context: &'a Context,
    filter: DotFilter,
}

impl<'a> Model for FilteredContext<'a> {
    ghost use Rattle.std.specs.FinSet as set;
    ghost use Rattle.dac_origins.specs.Dots.{dot_cmp, coded_dot};
    ghost use Rattle.dac_dots.specs.DotFilters.{MayHaveAll};

    ghost Value = { set.FinSet dot_cmp };

    ghost coded = { set.code coded_dot };

    ghost view = { λ a. a.context.now };

    ghost invariant = { λ a. MayHaveAll a.filter.slots a.context.now };
}

impl<'a> FilteredContext<'a> {
    /// This context, for about `asked` membership tests. The number affects only the time of the tests.
    #[inline(always)]
    pub fn of(context: &'a Context, asked: usize) -> Self
        ensures { result ≡ context.now }
    {
        if asked >= MIN_TESTS && context.has_at_most(MAX_FILTERED_DOTS) {
            return Self::filled(context);
        }
        FilteredContext {
            context,
            filter: DotFilter::all(),
        }
    }

    /// This context, which has few dots, for several membership tests.
    #[inline(always)]
    pub fn filled(context: &'a Context) -> Self
        ensures { result ≡ context.now }
    {
        let mut filter = DotFilter::none();
        context.fill(&mut filter);
        FilteredContext { context, filter }
    }

    /// The context without its filter.
    pub fn context(&self) -> &Context
        ensures { result.now ≡ self.now }
    {
        self.context
    }

    /// A filter that contains all dots of the context, and maybe others.
    pub fn filter(&self) -> &DotFilter
        ensures { MayHaveAll result.now.slots self.now }
    {
        &self.filter
    }

    /// Whether the context contains the dot.
    #[inline(always)]
    pub fn contains(&self, dot: Dot) -> bool
        ensures { result ≡ set.contains self.now dot }
    {
        self.filter.has(dot) && self.context.contains(dot)
    }
}
