//! Messages and single operations as bytes.
//!
//! A [`Packet`] is a message from one controller to another, or a single operation. [`encode`] writes it, and
//! [`decode`] reads it. All numbers are big-endian. A packet begins with the format's name, its version and the mark of
//! the configuration, followed by its kind and its fields. The state of a message comes last, as `State::encode` writes
//! it.
//!
//! In version 1 of the format incarnations have four bytes and there are no drains. In version 2 incarnations have
//! eight bytes. [`encode`] writes version 2, and [`decode`] reads both. A packet has one spelling in each version under
//! a configuration. It is well-formed if bytes of the version can spell its names, list places, numbers, orders and
//! counts. [`decode`] returns a packet exactly for the spelling of a well-formed one. For any other bytes it returns
//! the fault and offset of the reading function `packet_at`, which reads fields from left to right.
//!
//! Of this crate's own functions only [`encode`] and [`decode`] allocate. `NoMemory` has offset 0 and carries no
//! information about the bytes. A false count can't reserve more memory than the bytes justify.
#![tactic(auto)]

pub use coding::{decode, encode};
pub use dac_messages::{Body, Message};
pub use fault::{WireFault, WireFaultKind};
pub use packet::{MAX_MESSAGE, Packet};

mod codes;
mod coding;
mod fault;
mod head;
mod packet;
mod reading_messages;
mod reading_operations;
mod writing;
