//! Tests of sites and links: calls and their places, closing, a full journal, calls of two threads, and a seat's
//! records in a journal.
#![tactic(auto)]

#[cfg(test)]
mod callers;
#[cfg(test)]
mod doing;
#[cfg(test)]
mod links;
#[cfg(test)]
mod matching;
#[cfg(test)]
mod recording;
#[cfg(test)]
mod sites;
