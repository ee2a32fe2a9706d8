//! Tests of the weave: journals of three nodes, equal messages, phases, journals that no run reproduces, and no journals.
#![tactic(auto)]

#[cfg(test)]
mod copies;
#[cfg(test)]
mod journals;
#[cfg(test)]
mod phases;
#[cfg(test)]
mod unwoven;
#[cfg(test)]
mod woven;
