//! Status of a controller for operators: a summary of its state, and the printed page of a summary.
//!
//! A [`Summary`] is plain data of a fixed size. It agrees with the definitions of lives, claims, permissions, wishes
//! and placement. [`page`] returns its text, and [`header`] the line above it.
//!
//! Functions that don't return `Result<_, NoMemory>` allocate nothing, and `NoMemory` is the only error. A failing
//! `put_` function can leave a part of its output appended.
#![tactic(auto)]

mod apps;
mod chains;
mod facts;
mod kept;
mod labels;
mod marks;
mod nodes;
mod numbers;
mod pages;
mod summary;
mod walk;

pub use apps::{how_text, put_from};
pub use dac_base::{MAX_APPS, MAX_NODES};
pub use marks::{Mark, mark_of};
pub use nodes::put_node;
pub use numbers::put_number;
pub use pages::{header, page};
pub use summary::{AppSummary, Summary};
