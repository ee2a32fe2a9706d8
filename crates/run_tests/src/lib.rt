//! Tests of runs (concurrent link workers, callers interleaved with links, the order of the last round, counted
//! hearings, five nodes, full journals, pages of callers' lines, reports), of links alone (missing ends, letters
//! without a message, capacity), and of stale pages.
#![tactic(auto)]

#[cfg(test)]
mod counted;
#[cfg(test)]
mod ends;
#[cfg(test)]
mod fresh;
#[cfg(test)]
mod full;
#[cfg(test)]
mod last_round;
#[cfg(test)]
mod own_reads;
#[cfg(test)]
mod runs;
#[cfg(test)]
mod turns;
