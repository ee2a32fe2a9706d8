//! The records of a call in a journal and at a seat.

use dac_events::Refusal;
use dac_messages::{Event, Reply};

/// The result of an event: the node's reply or refusal.
pub type Answer = Result<Reply, Refusal>;

/// A record of a journal.
#[derive(Drop)]
pub struct Record {
    /// The seat that called, by its number from 1.
    pub seat: u16,
    /// The event of the call.
    pub event: Event,
    /// The node's reply or refusal.
    pub answer: Result<Reply, Refusal>,
}

/// A seat's copy of one of its own calls.
#[derive(Drop)]
pub struct Call {
    /// The place of the call's record in the journal, from 1.
    pub place: u64,
    /// The event of the call.
    pub event: Event,
    /// The node's reply or refusal.
    pub answer: Result<Reply, Refusal>,
}
