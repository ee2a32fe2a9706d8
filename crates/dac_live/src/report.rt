//! The report of a live run.

use crate::lists::{AnswersByPhase, ClosedList, PageList, ReadsByPhase};
use dac_events::Refusal;
use dac_messages::Reply;

/// The result of a line.
#[derive(Drop)]
pub enum LineAnswer {
    /// The node's reply or refusal to a line that calls.
    Done(Result<Reply, Refusal>),
    /// The page read is at least as new as the caller's last receipt.
    Fresh,
    /// The page read is older, or there was none.
    Stale,
}

/// The report of a live run.
#[derive(Drop)]
pub struct LiveReport {
    /// The result of each line of each phase.
    pub answers: AnswersByPhase,
    /// The page that each line of each phase read, if any.
    pub reads: ReadsByPhase,
    /// The final page of each node, in order of name.
    pub pages: PageList,
    /// The journal of each node, in order of name.
    pub closed: ClosedList,
}
