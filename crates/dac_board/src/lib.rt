//! The board: a materialized view of the verdicts and loads of a state, maintained incrementally while the state grows.
//!
//! A [`Board`] stores, for each application of a configuration, which nodes are eligible for it and its standing at its
//! holder. When the state merges a delta, the board re-evaluates only the pairs of an application and a node that the
//! delta touches: the node's life changes, or the permits, starts or drains that stand at its live incarnation. It
//! counts these evaluations. Contracts say which states a board shows under a configuration; for these it returns the
//! verdicts and the loads of `dac_placement`.
//!
//! Only [`Board::new`] and [`Board::copy`] allocate. Their only error is `NoMemory`, which leaves their arguments
//! unchanged.
#![tactic(auto)]

mod board;
mod facts;
mod moving;
mod row;
mod spot;
mod touching;

pub use board::Board;
