//! Sites: a controller behind a mutex, which each thread with a seat can call.
//!
//! A [`Site`] is a node with its journal under a lock. [`blank_site`] makes one without a name. [`open_site`] opens it
//! under its name, with a [`Seat`] for each caller. [`Site::call`] handles an event for a seat, which keeps the place,
//! the event and the result of each of its calls. After each record a page is published, which a [`PageReader`] reads
//! without the lock. [`Site::close`] takes all seats back and returns the journal.
//!
//! The lock hides the journal while the site is open. Therefore a call's contract says only that its record follows
//! some history of the node. Closing reveals the journal: a history of the node that contains the calls of all seats,
//! each once at its place, and nothing else. If the calls don't match it, closing fails with a [`CloseFault`]. Liveness
//! isn't proved: nothing guarantees that a call gets the lock.
//!
//! Functions whose result can't carry `NoMemory` allocate nothing. After a failed allocation everything that they
//! borrow is unchanged as far as contracts see.
//!
//! A caller, in a function over the name `L` of a site, boots the node and reads the page after that. The module
//! `callers` of `live_tests` runs it, under the name `Brand`, for a blank of `blank_site(rt, alloc, &config, node, 0,
//! 1, 1)`.
//!
//! ```
//! let (site, mut seats, mut readers) = open_site::<L, R>(rt, blank).ok()?;
//! let mut place = 0;
//! if let (Some(seat), Some(reader)) = (seats.first_mut(), readers.first_mut()) {
//!     if let Ok(mut receipt) = site.call(rt, seat, Event::Boot { now: 0 }) {
//!         reader.learn(&mut receipt);
//!         if let Some(page) = reader.read() {
//!             place = page.place;
//!         }
//!     }
//! }
//! let closed = site.close(rt, seats).ok()?;
//! Some((place, closed.records().len()))
//! ```
#![tactic(auto)]

pub use blank::{SiteBlank, SiteName, blank_site};
pub use dac_journal::{Answer, Call, Closed, Journal, MAX_RECORDS, Record};
pub use dac_pages::Page;
pub use faults::{CloseFault, LiveFault, OpenFault};
pub use paged::{PagedJournal, page_of};
pub use reader::PageReader;
pub use receipt::Receipt;
pub use replaying::replay;
pub use seat::Seat;
pub use site::{Site, open_site};

mod blank;
mod faults;
pub mod laws;
mod paged;
mod reader;
mod receipt;
mod replaying;
mod same;
mod seat;
mod site;
