//! Placement: where each application runs and where it belongs, as pure functions of a configuration and a state.
//! Nothing here allocates.
//!
//! A node is eligible for an application if the application's list names it, and it is live at an incarnation that
//! isn't drained and at which the application is permitted and started. The greatest claim determines the holder; the
//! application runs at its holder if that incarnation is live and eligible. The verdict compares the holder with the
//! first choice: start, fail over, move or take over there, or leave the application alone. So controllers that heard
//! the same operations compute the same verdicts.
//!
//! Every result holds for any state, even one that no operation produced. A verdict loops over all nodes. Only if two
//! eligible nodes share the first group does it also loop over all applications for each eligible node of that group.
#![tactic(auto)]

mod candidates;
mod deciding;
mod eligibility;
mod judging;
pub mod laws;
mod leading;
mod loads;
mod ranking;
mod running;
mod standing;
mod states;
mod verdicts;

pub use candidates::{Candidates, Runs};
pub use dac_state::State;
pub use deciding::{is_earlier, verdict, verdict_by};
pub use eligibility::{eligible, is_allowed, is_drained, is_permitted, is_started};
pub use judging::{settled_verdict, verdict_for, verdict_on};
pub use leading::{Lead, leader};
pub use loads::load_by;
pub use ranking::{Choice, Rank, first_choice_by, lesser};
pub use running::{holder, is_up, load, runner, runs_at};
pub use standing::{Standing, group_held, standing_of};
pub use verdicts::Verdict;
