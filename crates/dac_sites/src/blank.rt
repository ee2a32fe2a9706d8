//! Names of sites, and sites that aren't named yet.

ghost use Rattle.std.specs.Prelude.{◌≡◌, ◌<◌, [], length, vec_len, IfOk};
ghost use Rattle.dac_journal.specs.Journals.{beginning_of};

use crate::faults::OpenFault;
use crate::paged::PagedJournal;
use dac_base::NodeId;
use dac_config::Config;
use dac_journal::Journal;
use dac_pages::RawReader;
use std::alloc::Global;
use std::marker::Brand;
use std::sync::Wait;
use std::sync::ledger::{Blank, Ledger};

/// A type that names one site. Seats and receipts carry it as a parameter, so those of another site have another type.
pub trait SiteName: Ledger {
    ghost use Rattle.std.specs.Prelude.{ℕ};
    ghost use Rattle.dac_journal.specs.Journals.{Beginning};

    /// The number of the site's seats.
    ghost seats: { ℕ };

    /// The beginning of the site's journal.
    ghost beginning: { Beginning };
}

impl SiteName for Brand {
    ghost use Rattle.dac_journal.specs.Journals.{nowhere};

    ghost seats = { 0 };

    ghost beginning = { nowhere };
}

/// A site that has no name yet, with an empty journal. It can't be dropped: open it with
/// [`open_site`](crate::open_site), or end it with [`SiteBlank::give_up`].
pub struct SiteBlank {
    /// The blank of the ledger of the site's name, with a part for each seat.
    pub blank: Blank,
    /// The journal, with the node and its pages.
    pub paged: PagedJournal,
    /// The number of seats, at least 1.
    pub seats: u16,
    pub(crate) readers: Vec<RawReader>,
    pub(crate) alloc: Global,
    pub ghost parts: { blank.parts ≡ seats },
    pub ghost some: { 0 < seats },
    ghost empty: { length paged.journal.records ≡ 0 },
}

impl SiteBlank {
    /// Keeps only the journal with its pages, for a caller that opens no site.
    pub fn into_paged_journal(self) -> PagedJournal
        ensures { result ≡ self.paged }
    {
        let SiteBlank {
            blank: _,
            paged,
            seats: _,
            readers: _,
            alloc: _,
        } = self;
        paged
    }

    /// Ends a blank that isn't opened.
    pub fn give_up<R: Wait>(self, rt: &R) {
        self.into_paged_journal().end(rt);
    }
}

fn readers_of(alloc: Global, paged: &PagedJournal, count: u16) -> Result<Vec<RawReader>, OpenFault>
    ensures { IfOk result (λ all. vec_len all ≡ count) }
{
    let mut all = Vec::new(alloc);
    for _number in 0..count {
        let Some(reader) = paged.reader() else {
            return Err(OpenFault::NoReader);
        };
        all.push(reader)?;
    }
    Ok(all)
}

/// A blank site of node `me`, which is off and whose last incarnation was `last`, with an empty journal, `seats` seats
/// and `readers` readers.
///
/// Fails with `NoReader` if the page structure refuses a reader. The structure's contract doesn't say when it does, so
/// neither can this one; in the tests it never did. Fails with `NoMemory` if an allocation does.
pub fn blank_site<R: Wait>(
    rt: &R,
    alloc: Global,
    config: &Config,
    me: NodeId,
    last: u64,
    seats: u16,
    readers: u16,
) -> Result<SiteBlank, OpenFault>
    requires { 0 < seats }
    ensures ok { IfOk result (λ b. (b.seats ≡ seats)
        × (b.paged.journal ≡ record { beginning = beginning_of config.now me last; records = [] })) }
    ensures readers { IfOk result (λ b. vec_len b.readers ≡ readers) }
{
    let config = config.copy()?;
    // The page structure needs at least one place.
    let places = usize::from(readers.max(1));
    let paged = PagedJournal::open(alloc, Journal::new(alloc, config, me, last), places)?;
    match readers_of(alloc, &paged, readers) {
        Ok(readers) => Ok(SiteBlank {
            blank: Blank::new(u64::from(seats)),
            paged,
            seats,
            readers,
            alloc,
        }),
        Err(fault) => {
            paged.end(rt);
            Err(fault)
        }
    }
}
