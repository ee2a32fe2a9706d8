//! The interface between workers and the scheduler.

ghost use Rattle.std.specs.Prelude.{◌≡◌, Bool};

use dac_base::{NoMemory, NodeId};
use std::alloc::AllocFailed;
use std::sync::Wait;

/// The end of a link whose turn it is.
#[derive(Clone, Copy, Debug, PartialEq, Eq)]
pub enum Side {
    /// The end that ships.
    Ship,
    /// The end that hears.
    Hear,
}

/// A turn of the serial round after a phase.
#[derive(Clone, Copy, Debug, PartialEq, Eq)]
pub struct Turn {
    /// The node that ships.
    pub from: NodeId,
    /// The node that hears.
    pub to: NodeId,
    /// The end whose turn it is.
    pub side: Side,
}

/// Why a run stopped.
#[derive(Debug, Drop)]
pub enum Stop<F> {
    /// A thread couldn't be spawned.
    NoThread,
    /// An allocation failed.
    NoMemory,
    /// A worker failed with this fault.
    Fault(F),
}

impl<F> From<NoMemory> for Stop<F> {
    ghost use Rattle.dac_run.specs.declared.worker.Stop.TheVariants.{NoMemory as WantOfMemory};

    ghost from_gives = { λ _ stop. stop ≡ WantOfMemory };

    fn from(_refused: NoMemory) -> Self {
        Stop::NoMemory
    }
}

impl<T: Drop, F> From<AllocFailed<T>> for Stop<F> {
    ghost use Rattle.dac_run.specs.declared.worker.Stop.TheVariants.{NoMemory as WantOfMemory};

    ghost from_gives = { λ _ stop. stop ≡ WantOfMemory };

    fn from(_failed: AllocFailed<T>) -> Self {
        Stop::NoMemory
    }
}

/// A unit of work that runs in a thread of its own.
pub trait Worker: Sized + Drop + Send {
    /// Why a worker fails.
    type Fault: Drop + Send;

    /// Which faults are causes.
    ghost is_cause: { Self.Fault → Bool };

    /// Returns whether a fault is a cause, and not a consequence of another worker's fault. Of several faults a cause
    /// is reported.
    fn is_cause(fault: &Self::Fault) -> bool
        ensures { result ≡ is_cause fault.now };

    /// Returns whether the worker has work in this phase, counted from 0.
    fn works_in(&self, phase: usize) -> bool;

    /// Does the worker's part of a phase, in its own thread. At `Err` the worker is dropped.
    fn work<R: Wait>(self, rt: &R, phase: usize) -> Result<Self, Self::Fault>;

    /// Does the worker's part of a turn after the phase, if it has one.
    fn take_turn<R: Wait>(&mut self, rt: &R, turn: Turn) -> Result<(), Self::Fault>;
}
