//! Tests of texts: tokens, shapes and configurations.
//!
//! These crates are proved, so the tests cover what contracts can't: rows and faults of the texts, and each public call
//! once with enough memory.
#![tactic(auto)]

#[cfg(test)]
mod configs;
#[cfg(test)]
mod sample;
#[cfg(test)]
mod shapes;
#[cfg(test)]
mod tokens;
