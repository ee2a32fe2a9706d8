//! Contexts that absorb others right after a step.
use crate::sample::heard_of;
use dac_base::NoMemory;
use dac_dots::{Context, LastStep};
use std::alloc::Global;

/// Sets the target to a number, or fails.
#[derive(Clone, Copy, Debug)]
struct Set {
    number: u64,
    is_failing: bool,
}

impl LastStep<u64> for Set {
    ghost use Rattle.std.specs.Prelude.{◌≡◌};

    ghost steps = { λ a _ new. new ≡ a.number };

    fn take(&self, target: &mut u64) -> Result<(), NoMemory> {
        if self.is_failing {
            return Err(NoMemory);
        }
        *target = self.number;
        Ok(())
    }
}

/// True if both contexts have the same dots.
fn is_same(one: &Context, other: &Context) -> bool {
    one.is_subset(other) && other.is_subset(one)
}

/// Dots of two nodes, with a gap.
const OWN: &[(u8, u64)] = &[(0, 1), (0, 2), (0, 4), (1, 1)];

/// The dots of a node alone.
const ALONE: &[(u8, u64)] = &[(0, 1), (0, 2), (0, 4)];

/// A copy of the context, if wanted.
fn copy_if(context: &Context, is_copied: bool) -> Result<Option<Context>, NoMemory> {
    if is_copied {
        return Ok(Some(context.copy()?));
    }
    Ok(None)
}

/// True if there is no copy, or it has these dots.
fn is_left(copy: &Option<Context>, before: &Context) -> bool {
    match copy {
        Some(copy) => is_same(copy, before),
        None => true,
    }
}

/// True if the context absorbs the other dots after a step, or neither happens. Holds a copy meanwhile if wanted.
fn is_done_as(
    alloc: Global,
    own: &[(u8, u64)],
    others: &[(u8, u64)],
    is_copied: bool,
    is_done: bool,
) -> Result<bool, NoMemory> {
    let before = heard_of(alloc, own)?;
    let mut context = heard_of(alloc, own)?;
    let copy = copy_if(&context, is_copied)?;
    let other = heard_of(alloc, others)?;
    let step = Set {
        number: 7,
        is_failing: false,
    };
    let mut target = 0;
    let done = context.absorb_after(&other, &step, &mut target)?;
    let wanted = if done {
        before.union(&other)?
    } else {
        before.copy()?
    };
    let is_taken = target == 7;
    Ok(
        done == is_done
            && is_taken == is_done
            && is_same(&context, &wanted)
            && is_left(&copy, &before),
    )
}

/// The own dots, the other context's, whether a copy is held, and whether the step is taken.
const AFTER: &[(&[(u8, u64)], &[(u8, u64)], bool, bool)] = &[
    // nothing new
    (OWN, &[], false, true),
    (OWN, &[], true, true),
    (OWN, &[(0, 2), (1, 1)], false, true),
    (&[], &[], false, true),
    // consecutive dots, above all, in a gap, and below a gap
    (OWN, &[(0, 5)], false, true),
    (OWN, &[(0, 3)], false, true),
    (OWN, &[(0, 2), (1, 2)], false, true),
    (OWN, &[(0, 7), (0, 8), (0, 9)], false, true),
    (OWN, &[(0, 0)], false, true),
    // a copy shares the dots
    (OWN, &[(0, 5)], true, false),
    // no others of the origin, two of them, and two gaps
    (OWN, &[(2, 1)], false, false),
    (OWN, &[(0, 5), (1, 2)], false, false),
    (OWN, &[(0, 3), (0, 5)], false, false),
    // an origin alone
    (ALONE, &[(0, 5)], false, false),
    (&[], &[(0, 1)], false, false),
];

/// The first row whose context doesn't absorb as it says, if any.
fn first_wrong(alloc: Global) -> Result<Option<usize>, NoMemory> {
    for i in 0..AFTER.len() {
        let (own, others, is_copied, is_done) = AFTER[i];
        if !is_done_as(alloc, own, others, is_copied, is_done)? {
            return Ok(Some(i));
        }
    }
    Ok(None)
}

#[test]
fn consecutive_dots_are_absorbed_after_a_step(rt: HostRuntime) {
    assert!(rt; first_wrong(rt.alloc()) == Ok(None));
}

/// True if a step that fails leaves the context and the target.
fn is_left_by_failure(alloc: Global, others: &[(u8, u64)]) -> Result<bool, NoMemory> {
    let before = heard_of(alloc, OWN)?;
    let mut context = heard_of(alloc, OWN)?;
    let other = heard_of(alloc, others)?;
    let step = Set {
        number: 7,
        is_failing: true,
    };
    let mut target = 0;
    let is_failed = context.absorb_after(&other, &step, &mut target).is_err();
    Ok(is_failed && target == 0 && is_same(&context, &before))
}

#[test]
fn a_failed_step_changes_nothing(rt: HostRuntime) {
    assert!(rt; is_left_by_failure(rt.alloc(), &[]) == Ok(true));
    assert!(rt; is_left_by_failure(rt.alloc(), &[(0, 5)]) == Ok(true));
    assert!(rt; is_left_by_failure(rt.alloc(), &[(0, 3)]) == Ok(true));
}

/// Dots, two other sets of dots, and whether the first are known to be within both.
const WITHIN: &[(&[(u8, u64)], &[(u8, u64)], &[(u8, u64)], bool)] = &[
    (&[], &[], &[], true),
    (ALONE, &[(0, 1), (0, 4)], &[(0, 2)], true),
    (OWN, ALONE, &[(1, 1)], true),
    (OWN, ALONE, &[(1, 2)], false),
    (ALONE, &[(0, 1)], &[(0, 2)], false),
];

/// The first row whose dots aren't within both as it says, if any.
fn first_not_within(alloc: Global) -> Result<Option<usize>, NoMemory> {
    for i in 0..WITHIN.len() {
        let (dots, first, second, is_within) = WITHIN[i];
        let context = heard_of(alloc, dots)?;
        let (first, second) = (heard_of(alloc, first)?, heard_of(alloc, second)?);
        if context.is_within_both(&first, &second) != is_within {
            return Ok(Some(i));
        }
    }
    Ok(None)
}

#[test]
fn dots_within_both(rt: HostRuntime) {
    assert!(rt; first_not_within(rt.alloc()) == Ok(None));
}
