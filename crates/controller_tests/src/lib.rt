//! Tests of the controller: verdicts, waits and start gates, pages, nodes and worlds.
//!
//! The crates below are proved, so the tests are worked cases in tables, and each public call once with enough memory.
//! What scripts can express is tested by running the program.
#![tactic(auto)]

#[cfg(test)]
mod boards;
#[cfg(test)]
mod callers;
#[cfg(test)]
mod forged;
#[cfg(test)]
mod nodes;
#[cfg(test)]
mod pages;
#[cfg(test)]
mod placement;
#[cfg(test)]
mod settling;
#[cfg(test)]
mod shipping;
#[cfg(test)]
mod steps;
#[cfg(test)]
mod waits;
#[cfg(test)]
mod worlds;
