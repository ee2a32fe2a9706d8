//! Calls of states.
use crate::sample::{ALL, Does, ME, OTHER, meaning, operation};
use crate::trial::{Fixture, Said, short};
use dac_base::NodeId;
use dac_lattice::{Bottom, Lattice};
use dac_state::{Op, State};
use std::alloc::Global;

/// A call of a state.
#[derive(Clone, Copy, Debug, PartialEq, Eq)]
pub enum OfState {
    Join,
    Absorb,
    Copy,
    DeltaOf,
}

/// A state and one that equals it and shares nothing with it, one to join, the least state, and an operation.
#[derive(Drop)]
pub struct StateFixture {
    alloc: Global,
    asked: OfState,
    state: State,
    equal: State,
    least: State,
    other: State,
    op: Op,
}

/// The join of all of a node's operations.
pub fn all_of(alloc: Global, node: NodeId) -> Option<State> {
    let mut all = State::bottom(alloc);
    for i in 0..ALL.len() {
        all = all.join(&meaning(alloc, node, ALL[i])?).ok()?;
    }
    Some(all)
}

/// The fixture of states.
pub fn states(alloc: Global, asked: OfState) -> Option<StateFixture> {
    Some(StateFixture {
        alloc,
        asked,
        state: all_of(alloc, OTHER)?,
        equal: all_of(alloc, OTHER)?,
        least: State::bottom(alloc),
        other: all_of(alloc, ME)?,
        op: operation(alloc, ME, Does::Stop)?,
    })
}

/// The outcome of a call that ends with this state.
fn of_good_state(state: &State) -> Said {
    let heard = short(state.heard().len());
    let known = short(state.known().len());
    Said::Well(heard.wrapping_mul(1_000).wrapping_add(known))
}

/// The outcome of a call that returns a state.
pub fn of_state<E: Drop>(answer: Result<State, E>) -> Said {
    match answer {
        Ok(state) => of_good_state(&state),
        Err(_) => Said::NoMemory,
    }
}

impl StateFixture {
    /// Joins the other state into the first.
    fn absorb(&mut self) -> Said {
        match self.state.absorb(&self.other) {
            Ok(()) => of_good_state(&self.state),
            Err(_) => Said::NoMemory,
        }
    }
}

impl Fixture for StateFixture {
    fn call(&mut self) -> Said {
        match self.asked {
            OfState::Join => of_state(self.state.join(&self.other)),
            OfState::Absorb => self.absorb(),
            // Only a copy of the least state allocates.
            OfState::Copy => of_state(self.least.copy()),
            OfState::DeltaOf => of_state(State::delta_of(self.alloc, &self.op)),
        }
    }

    fn is_as_before(&self) -> bool {
        self.state.equal(&self.equal)
    }
}
