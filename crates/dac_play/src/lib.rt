//! Runs `distac check` and `distac sim`. The first prints the canonical text of a configuration, the second plays a
//! script in a world of controllers and prints the result of each line.
//!
//! The guarantees are on [`check_source`] and [`simulate_source`]: after [`Ending::Done`] the output is, line by line,
//! that of the input's script in the model world. `Read` is reported only if the source shows a failed read or too many
//! reads, and at most one byte beyond the bound is read. If an allocation or a write fails, only the status 1 is
//! guaranteed.
#![tactic(auto)]

mod answers;
mod checking;
mod ending;
mod pairs;
mod sharing;
mod sim;
mod states;
mod texts;
mod ticks;
mod wires;

pub use answers::{Counts, answer_line};
pub use checking::{canonical, check, check_source};
pub use ending::{Ending, print, refuse};
pub use sim::{Stop, play, simulate, simulate_source};
pub use texts::{
    OUT_OF_MEMORY, booted_line, config_fault_line, crashed_line, failure_line, gave_up_line,
    heard_line, held_line, hex_line, input_fault_line, issued_line, no_message_line,
    no_operation_line, refused_line, same_line, script_fault_line, shared_line, shipped_line,
};
pub use ticks::ticked_lines;
pub use wires::{fed_line, message_line, wire_fault_line, wire_ok_line};
