//! Whatever a run issues, holds and ships has bytes that are read again.
//!
//! A value is *in form* if bytes can encode it, by its names, places in lists, numbers, orders and counts; a peer
//! accepts exactly the values in form. Each operation of each run is in form, because events that would issue any other
//! are refused. The meaning of operations in form is also in form, if its counts fit their fields. So the form of bytes
//! isn't too strict for the states and messages of controllers.
#![tactic(auto)]

pub mod laws;
