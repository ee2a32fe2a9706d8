//! Numbers of nodes and applications, limits, and the out-of-memory error, for all crates of the controller.
//!
//! A configuration numbers its nodes in the byte order of their names, and its applications in file order, both from 0.
//! Each kind of number is a type of its own, so that the two can't be confused.
#![tactic(auto)]

pub use limits::{MAX_APPS, MAX_COUNTER, MAX_INCARNATION, MAX_NODES, MAX_REPLACED};
use std::alloc::{AllocError, AllocFailed};

mod limits;

/// An allocation failed. A call that changes one value leaves it unchanged then.
#[derive(Clone, Copy, Debug, PartialEq, Eq, Hash)]
pub struct NoMemory;

impl From<AllocError> for NoMemory {
    fn from(_error: AllocError) -> Self {
        NoMemory
    }
}

impl<T: Drop> From<AllocFailed<T>> for NoMemory {
    fn from(_failed: AllocFailed<T>) -> Self {
        NoMemory
    }
}

/// A node's number: its index among the names of all nodes in byte order, from 0.
#[derive(Clone, Copy, Debug, PartialEq, Eq, PartialOrd, Ord, Hash)]
pub struct NodeId(pub u8);

/// An application's number: its index in the configuration file, from 0.
#[derive(Clone, Copy, Debug, PartialEq, Eq, PartialOrd, Ord, Hash)]
pub struct AppId(pub u16);
