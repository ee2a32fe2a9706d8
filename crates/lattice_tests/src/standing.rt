//! What stands of operations, with one context.
ghost use Rattle.std.specs.Prelude.{◌≡◌, IfSome};

use crate::sample::{context_of, dot, origin};
use dac_base::{AppId, NoMemory, NodeId};
use dac_lattice::Flag;
use dac_origins::Dot;
use dac_store::{Causal, Context, DotMap, DotSet, DotStore, LastStep};
use dac_wishes::{AbsorbStanding, Drains, Key, Permissions, StandingWrites, Wishes};
use std::alloc::Global;

/// Application 0 at node 1, incarnation 1.
const KEY: Key = Key {
    app: AppId(0),
    node: NodeId(1),
    inc: 1,
};

/// What an operation says, of `KEY` or its node.
#[derive(Clone, Copy, Debug, PartialEq, Eq)]
enum Says {
    Nothing,
    Permit(bool),
    Start,
    Drain(bool),
}

/// A dot and the dots that it replaces, each as a node and a counter, and what it says.
type Operation = ((u8, u64), &'static [(u8, u64)], Says);

/// The operations of three nodes. At the end one permit, one start and one drain stand, and each has replaced another.
const OPERATIONS: &[Operation] = &[
    ((0, 1), &[], Says::Start),
    ((1, 1), &[], Says::Permit(false)),
    ((0, 2), &[], Says::Drain(true)),
    ((1, 2), &[(0, 1)], Says::Nothing),
    ((1, 3), &[(1, 1)], Says::Permit(true)),
    ((0, 3), &[], Says::Start),
    ((2, 1), &[], Says::Nothing),
    ((0, 4), &[(0, 2)], Says::Drain(false)),
];

/// The dots of these pairs.
fn dots_of(alloc: Global, pairs: &[(u8, u64)]) -> Result<Vec<Dot>, NoMemory> {
    let mut dots = Vec::new(alloc);
    for (node, n) in pairs {
        dots.push(dot(*node, *n))?;
    }
    Ok(dots)
}

/// What stands of one operation.
fn delta_of(alloc: Global, operation: Operation) -> Result<StandingWrites, NoMemory> {
    let ((node, n), over, says) = operation;
    let over = dots_of(alloc, over)?;
    let permit = match says {
        Says::Permit(value) => Some((KEY, value)),
        _ => None,
    };
    let start = match says {
        Says::Start => Some(KEY),
        _ => None,
    };
    let drain = match says {
        Says::Drain(value) => Some((origin(1), value)),
        _ => None,
    };
    StandingWrites::delta(alloc, dot(node, n), &over, permit, start, drain)
}

/// True if the first is below the other one.
fn is_below(one: &StandingWrites, other: &StandingWrites) -> bool {
    one.known().is_subset(other.known()) && one.leq_with_contexts(other)
}

/// True if both are equal, also by the order.
fn is_same(one: &StandingWrites, other: &StandingWrites) -> bool {
    one.knows_same(other)
        && one.equal_with_contexts(other)
        && is_below(one, other)
        && is_below(other, one)
}

/// A copy, if wanted.
fn copy_if(standing: &StandingWrites, is_copied: bool) -> Result<Option<StandingWrites>, NoMemory> {
    if is_copied {
        return Ok(Some(standing.copy()?));
    }
    Ok(None)
}

/// True if there is no copy, or it is the same as this.
fn is_left(copy: &Option<StandingWrites>, before: &StandingWrites) -> bool {
    match copy {
        Some(copy) => is_same(copy, before),
        None => true,
    }
}

/// The join of both.
fn join(one: &StandingWrites, other: &StandingWrites) -> Result<StandingWrites, NoMemory> {
    let union = one.known().union(other.known())?;
    one.join_with_context(other, union)
}

/// True if the first absorbs the other one as the second is joined, which then is that join. Both are equal at first,
/// and share nothing. Holds a copy of the first meanwhile if wanted.
fn is_absorbed(
    standing: &mut StandingWrites,
    equal: &mut StandingWrites,
    other: &StandingWrites,
    is_copied: bool,
) -> Result<bool, NoMemory> {
    let copy = copy_if(standing, is_copied)?;
    let joined = join(equal, other)?;
    let step = AbsorbStanding { other };
    step.take(standing)?;
    let is_left = is_left(&copy, equal);
    let is_above = is_below(equal, &joined) && is_below(other, &joined);
    *equal = joined;
    Ok(is_left && is_above && is_same(standing, equal))
}

/// The first operation that isn't absorbed as it is joined, if any, and what stands of all.
fn absorb_all(
    alloc: Global,
    operations: &[Operation],
    is_copied: bool,
) -> Result<(Option<usize>, StandingWrites), NoMemory> {
    let mut standing = StandingWrites::nothing(alloc);
    let mut equal = StandingWrites::nothing(alloc);
    for i in 0..operations.len() {
        let other = delta_of(alloc, operations[i])?;
        if !is_absorbed(&mut standing, &mut equal, &other, is_copied)? {
            return Ok((Some(i), standing));
        }
    }
    Ok((None, standing))
}

/// True if one permit and one start stand.
fn is_permitted_and_started(standing: &StandingWrites) -> bool {
    let permissions = standing.permissions();
    let wishes = standing.wishes();
    permissions.permitted(KEY, false)
        && permissions.dots(KEY) == [(dot(1, 3), Flag::Up)].as_slice()
        && permissions.len() == 1
        && wishes.wished(KEY)
        && wishes.dots(KEY) == [dot(0, 3)].as_slice()
        && wishes.len() == 1
}

/// True if the end of a drain stands, and eight dots are known.
fn is_undrained(standing: &StandingWrites) -> bool {
    let drains = standing.drains();
    let known = standing.known();
    !drains.drained(NodeId(1), 1)
        && drains.dots(NodeId(1), 1).len() == 1
        && drains.len() == 1
        && drains.context().is_subset(known)
        && known.len() == 8
}

/// True if all operations are absorbed as they are joined, and what stands is right.
fn all_are_absorbed(alloc: Global, is_copied: bool) -> Result<bool, NoMemory> {
    let (wrong, standing) = absorb_all(alloc, OPERATIONS, is_copied)?;
    Ok(wrong.is_none() && is_permitted_and_started(&standing) && is_undrained(&standing))
}

#[test]
fn operations_are_absorbed_as_they_are_joined(rt: HostRuntime) {
    assert!(rt; all_are_absorbed(rt.alloc(), false) == Ok(true));
    assert!(rt; all_are_absorbed(rt.alloc(), true) == Ok(true));
}

/// True if what stands of the first operations and of the rest are absorbed as they are joined.
fn is_half_absorbed(alloc: Global, count: usize, is_copied: bool) -> Result<bool, NoMemory> {
    if count > OPERATIONS.len() {
        return Ok(false);
    }
    let (_, mut standing) = absorb_all(alloc, &OPERATIONS[..count], false)?;
    let (_, mut equal) = absorb_all(alloc, &OPERATIONS[..count], false)?;
    let (_, rest) = absorb_all(alloc, &OPERATIONS[count..], false)?;
    let is_first = is_absorbed(&mut standing, &mut equal, &rest, is_copied)?;
    // The second time nothing is new.
    Ok(is_first && is_absorbed(&mut standing, &mut equal, &rest, is_copied)?)
}

/// The first number of operations whose rest isn't absorbed as it is joined, if any.
fn first_wrong_half(alloc: Global, is_copied: bool) -> Result<Option<usize>, NoMemory> {
    for count in 0..9usize {
        if !is_half_absorbed(alloc, count, is_copied)? {
            return Ok(Some(count));
        }
    }
    Ok(None)
}

#[test]
fn halves_are_absorbed_as_they_are_joined(rt: HostRuntime) {
    assert!(rt; first_wrong_half(rt.alloc(), false) == Ok(None));
    assert!(rt; first_wrong_half(rt.alloc(), true) == Ok(None));
}

/// True if the second operation's dot isn't known to the first, and both differ.
fn are_told_apart(alloc: Global) -> Result<bool, NoMemory> {
    let first = delta_of(alloc, ((0, 1), &[], Says::Start))?;
    let second = delta_of(alloc, ((0, 2), &[], Says::Start))?;
    let stopped = delta_of(alloc, ((0, 1), &[], Says::Nothing))?;
    Ok(
        !first.knows_same(&second)
            && first.knows_same(&stopped)
            && !first.equal_with_contexts(&stopped)
            && !is_below(&stopped, &first),
    )
}

/// A store paired with this context. `None` if it has a dot that the context lacks.
fn beside<S: DotStore>(store: S, known: &Context) -> Option<Causal<S>>
    ensures { IfSome result (λ causal. causal.context ≡ known.now) }
{
    let Ok(context) = known.copy() else {
        return None;
    };
    match Causal::new(store, context) {
        Ok(causal) => Some(causal),
        Err(_) => None,
    }
}

/// What stands of a start, made of its pieces.
fn of_pieces(alloc: Global) -> Option<StandingWrites> {
    let known = context_of(alloc, &[2]).ok()?;
    let starts = DotMap::one(alloc, KEY, DotSet::one(alloc, dot(0, 2)).ok()?).ok()?;
    let permissions = Permissions::new(beside(DotMap::empty(alloc), &known)?);
    let wishes = Wishes::new(beside(starts, &known)?);
    let drains = Drains::new(beside(DotMap::empty(alloc), &known)?);
    Some(StandingWrites::of(permissions, wishes, drains))
}

/// True if what stands of a start is the same when it is made of its pieces.
fn is_made_of_pieces(alloc: Global) -> Option<bool> {
    let start = delta_of(alloc, ((0, 2), &[], Says::Start)).ok()?;
    Some(is_same(&start, &of_pieces(alloc)?))
}

#[test]
fn a_start_is_made_of_pieces(rt: HostRuntime) {
    assert!(rt; is_made_of_pieces(rt.alloc()) == Some(true));
}

#[test]
fn different_ones_are_told_apart(rt: HostRuntime) {
    assert!(rt; are_told_apart(rt.alloc()) == Ok(true));
}
