//! Uses each public name once, from the crate that offers it.
//!
//! Users program against fifteen crates: `dac_config`, `dac_dots`, `dac_lattice`, `dac_store`, `dac_chains`,
//! `dac_wishes`, `dac_state`, `dac_deltas`, `dac_decide`, `dac_wire`, `dac_core`, `dac_status`, `dac_live`, `dac_weave`
//! and the program `distac`. The first fourteen re-export names of internal crates. Here each name is imported from the
//! public crate and used with the types that users rely on, and each enum is matched variant by variant, so that a
//! missing, changed or added name fails the tests. Contracts determine the results, which are asserted only where a
//! test needs an assertion.
#![tactic(auto)]

#[cfg(test)]
mod decisions;
#[cfg(test)]
mod lattices;
#[cfg(test)]
mod live;
#[cfg(test)]
mod parts;
#[cfg(test)]
mod stores;
#[cfg(test)]
mod texts;
#[cfg(test)]
mod variants;
#[cfg(test)]
mod worlds;
