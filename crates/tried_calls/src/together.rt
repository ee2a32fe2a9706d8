//! Stores, contexts and what stands of operations, which change together.
use crate::pieces::{FlagMap, context, map_in_blocks};
use crate::sample::{ME, OTHER, dot, key, origin};
use crate::trial::{Fixture, Said, of_any};
use dac_base::{NoMemory, NodeId};
use dac_dots::{Context, LastStep};
use dac_lattice::Flag;
use dac_store::{CausalRef, DotFun, DotMap, DotStore, absorb_paired};
use dac_wishes::StandingWrites;
use std::alloc::Global;

/// A node without dots in the contexts here.
const NEW: NodeId = NodeId(2);

/// Inserts a dot of an origin that has none.
#[derive(Clone, Copy, Debug)]
struct InsertOther;

impl LastStep<Context> for InsertOther {
    ghost steps = { λ _ _ _. Unit {0} };

    fn take(&self, target: &mut Context) -> Result<(), NoMemory> {
        target.insert(dot(OTHER, 1))
    }
}

/// A context that absorbs another one right after a step, with what it and the target equal at first.
#[derive(Drop)]
pub struct StepFixture {
    context: Context,
    equal: Context,
    other: Context,
    target: Context,
    equal_target: Context,
}

/// The fixture of a context whose gap the other one fills in part.
pub fn stepping(alloc: Global) -> Option<StepFixture> {
    let mine = [dot(ME, 1), dot(ME, 5), dot(OTHER, 1)];
    Some(StepFixture {
        context: context(alloc, &mine).ok()?,
        equal: context(alloc, &mine).ok()?,
        other: context(alloc, &[dot(ME, 3)]).ok()?,
        target: Context::empty(alloc),
        equal_target: Context::empty(alloc),
    })
}

/// True if both contexts have the same dots.
fn has_same_dots(one: &Context, other: &Context) -> bool {
    one.is_subset(other) && other.is_subset(one)
}

impl Fixture for StepFixture {
    fn call(&mut self) -> Said {
        let answer = self
            .context
            .absorb_after(&self.other, &InsertOther, &mut self.target);
        match answer {
            Ok(is_done) => Said::Well(u64::from(is_done)),
            Err(_) => Said::NoMemory,
        }
    }

    fn is_as_before(&self) -> bool {
        has_same_dots(&self.context, &self.equal) && has_same_dots(&self.target, &self.equal_target)
    }
}

/// A map in blocks and its context, which absorb the value at a key together, with what they equal at first.
#[derive(Drop)]
pub struct PairFixture {
    store: FlagMap,
    context: Context,
    other: FlagMap,
    other_heard: Context,
    equal: FlagMap,
    equal_context: Context,
}

/// The context of the 40 dots of the map in blocks, and a dot of another origin.
fn context_of_blocks(alloc: Global) -> Option<Context> {
    let mut heard = context(alloc, &[dot(OTHER, 1)]).ok()?;
    for n in 1..41u64 {
        heard.insert(dot(ME, n)).ok()?;
    }
    Some(heard)
}

/// The fixture of a map and its context. The other value replaces one of the map, by the next dot or by one of an origin
/// without others.
pub fn paired(alloc: Global, is_next: bool) -> Option<PairFixture> {
    let new = if is_next { dot(ME, 41) } else { dot(NEW, 1) };
    Some(PairFixture {
        store: map_in_blocks(alloc).ok()?,
        context: context_of_blocks(alloc)?,
        other: DotMap::one(alloc, 5, DotFun::one(alloc, new, Flag::Down).ok()?).ok()?,
        other_heard: context(alloc, &[dot(ME, 5), new]).ok()?,
        equal: map_in_blocks(alloc).ok()?,
        equal_context: context_of_blocks(alloc)?,
    })
}

impl Fixture for PairFixture {
    fn call(&mut self) -> Said {
        if !self.store.within(&self.context) || !self.other.within(&self.other_heard) {
            return Said::Other;
        }
        let other = CausalRef::of(&self.other, &self.other_heard);
        of_any(absorb_paired(&mut self.store, &mut self.context, &other))
    }

    fn is_as_before(&self) -> bool {
        self.store.is_same(&self.equal) && has_same_dots(&self.context, &self.equal_context)
    }
}

/// A call of what stands of operations.
#[derive(Clone, Copy, Debug, PartialEq, Eq)]
pub enum OfStanding {
    Delta,
    Join,
    Absorb,
    AbsorbWithoutPermit,
    Copy,
}

/// What stands of two operations, and what equals the first and shares nothing with it.
#[derive(Drop)]
pub struct StandingFixture {
    alloc: Global,
    asked: OfStanding,
    one: StandingWrites,
    equal: StandingWrites,
    other: StandingWrites,
}

/// What stands of an operation that replaces two dots, with a permit or without.
fn standing_at(alloc: Global, node: NodeId, has_permit: bool) -> Result<StandingWrites, NoMemory> {
    let over = [dot(ME, 1), dot(OTHER, 1)];
    let permit = if has_permit {
        Some((key(node), false))
    } else {
        None
    };
    let start = Some(key(node));
    let drain = Some((origin(node), true));
    StandingWrites::delta(alloc, dot(node, 2), &over, permit, start, drain)
}

/// The fixture of what stands of operations.
pub fn standings(alloc: Global, asked: OfStanding) -> Option<StandingFixture> {
    let has_permit = asked != OfStanding::AbsorbWithoutPermit;
    Some(StandingFixture {
        alloc,
        asked,
        one: standing_at(alloc, ME, true).ok()?,
        equal: standing_at(alloc, ME, true).ok()?,
        other: standing_at(alloc, OTHER, has_permit).ok()?,
    })
}

impl StandingFixture {
    /// The join of both.
    fn join(&self) -> Result<StandingWrites, NoMemory> {
        let union = self.one.known().union(self.other.known())?;
        self.one.join_with_context(&self.other, union)
    }
}

impl Fixture for StandingFixture {
    fn call(&mut self) -> Said {
        match self.asked {
            OfStanding::Delta => of_any(standing_at(self.alloc, ME, true)),
            OfStanding::Join => of_any(self.join()),
            OfStanding::Absorb | OfStanding::AbsorbWithoutPermit => {
                of_any(self.one.absorb(&self.other))
            }
            OfStanding::Copy => of_any(self.one.copy()),
        }
    }

    fn is_as_before(&self) -> bool {
        self.one.knows_same(&self.equal) && self.one.equal_with_contexts(&self.equal)
    }
}
