//! Tests of the lattices and the crates directly above: contexts, stores, delta logs, chains, wishes and operations.
//!
//! These crates are proved, so the tests cover what contracts can't: the test vectors of the formats, and each public
//! call once with enough memory, generic ones at a concrete type through their bound.
//!
//! The tests are proved too, at a cost that grows with the calls and values of one body. Therefore a test asserts the
//! result of a small function, often for each row of a table.
#![tactic(auto)]

#[cfg(test)]
mod absorbing;
#[cfg(test)]
mod chains;
#[cfg(test)]
mod deltas;
#[cfg(test)]
mod dots;
#[cfg(test)]
mod lattices;
#[cfg(test)]
mod laws;
#[cfg(test)]
mod maps;
#[cfg(test)]
mod operations;
#[cfg(test)]
mod pairs;
#[cfg(test)]
mod sample;
#[cfg(test)]
mod standing;
#[cfg(test)]
mod steps;
#[cfg(test)]
mod stores;
#[cfg(test)]
mod tokens;
#[cfg(test)]
mod wishes;
