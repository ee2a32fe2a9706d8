//! The two threads of a link between sites, and the comparison of a link with the journals at its ends.
//!
//! [`links`] contains the bodies of the threads. A shipper calls its site to ship, and sends the bytes of each message
//! through the link. A link worker receives them, and calls its own site to hear each message. With [`fresh_page`] a
//! caller reads its own writes.
//!
//! Functions whose result can't carry `NoMemory` allocate nothing. A failed call keeps the effects that it had before
//! the fault.
#![tactic(auto)]

pub use dac_sites::{
    Answer, CloseFault, Closed, LiveFault, Page, PageReader, Receipt, Record, Seat, Site,
    SiteBlank, SiteName, blank_site, open_site, replay,
};
pub use faults::RunFault;
pub use links::{Gate, Gated, Watch, hear_by, hear_link, ship_last, ship_link};
pub use reading::{Reading, fresh_page};

pub mod compare;
mod faults;
mod letters;
pub mod links;
mod reading;
