//! Workers of two kinds in one list.

use crate::worker::{Turn, Worker};
use std::sync::Wait;

/// A worker of one of two kinds.
#[derive(Drop)]
pub enum Either<W, V> {
    /// A worker of the first kind.
    One(W),
    /// A worker of the second kind.
    Other(V),
}

impl<W: Worker, V: Worker<Fault = W::Fault>> Worker for Either<W, V> {
    type Fault = W::Fault;

    ghost is_cause = { W.is_cause };

    fn is_cause(fault: &W::Fault) -> bool {
        W::is_cause(fault)
    }

    fn works_in(&self, phase: usize) -> bool {
        match self {
            Either::One(one) => one.works_in(phase),
            Either::Other(other) => other.works_in(phase),
        }
    }

    fn work<R: Wait>(self, rt: &R, phase: usize) -> Result<Self, W::Fault> {
        match self {
            Either::One(one) => match one.work(rt, phase) {
                Ok(one) => Ok(Either::One(one)),
                Err(fault) => Err(fault),
            },
            Either::Other(other) => match other.work(rt, phase) {
                Ok(other) => Ok(Either::Other(other)),
                Err(fault) => Err(fault),
            },
        }
    }

    fn take_turn<R: Wait>(&mut self, rt: &R, turn: Turn) -> Result<(), W::Fault> {
        match self {
            Either::One(one) => one.take_turn(rt, turn),
            Either::Other(other) => other.take_turn(rt, turn),
        }
    }
}
