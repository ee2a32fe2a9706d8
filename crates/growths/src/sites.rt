//! Calls of a site, from opening to closing.
ghost use Rattle.dac_sites.specs.Sites.{IsBlankOf};

use crate::nodes::{Happens, all_before, number_of, twice};
use dac_config::Config;
use dac_messages::Event;
use dac_sites::{
    LiveFault, OpenFault, PageReader, Receipt, Seat, Site, SiteBlank, SiteName, blank_site,
    open_site,
};
use std::alloc::Global;
use std::io::Print;
use std::marker::Brand;
use std::sync::Wait;
use tried_calls::sample::{ME, config};
use tried_calls::trial::{Came, Fixture, Said, try_call};

/// The outcome of a site's call.
fn said<L: SiteName>(answer: &Result<Receipt<L>, LiveFault>) -> Said {
    match answer {
        Ok(receipt) => {
            let number = number_of(&receipt.reply);
            Said::Well(number.wrapping_mul(100).wrapping_add(receipt.place))
        }
        Err(LiveFault::NoMemory) => Said::NoMemory,
        Err(_) => Said::Other,
    }
}

/// A site with its seat and reader, and its number of calls.
#[derive(Drop)]
struct SiteFixture<'a, L: SiteName, R: Wait> {
    rt: &'a R,
    site: &'a Site<L>,
    seat: &'a mut Seat<L>,
    reader: &'a mut PageReader<L>,
    events: Vec<Event>,
    calls: usize,
}

/// The place of the page that a reader gets.
fn page_of<L: SiteName>(reader: &mut PageReader<L>) -> Option<u64> {
    match reader.read() {
        Some(page) => Some(page.place),
        None => None,
    }
}

impl<L: SiteName, R: Wait> Fixture for SiteFixture<'_, L, R> {
    fn call(&mut self) -> Said {
        // The page before the call is that of the last record.
        if page_of(self.reader) != Some(self.calls as u64) {
            return Said::Other;
        }
        match self.events.pop() {
            Some(event) => said(&self.site.call(self.rt, self.seat, event)),
            None => Said::Other,
        }
    }

    fn is_as_before(&self) -> bool {
        self.seat.calls().len() == self.calls
    }
}

/// Brings the site to the state before the event, and then tries the call.
fn call_after<L: SiteName, R: Print + Wait>(
    rt: &R,
    alloc: Global,
    site: &Site<L>,
    seat: &mut Seat<L>,
    reader: &mut PageReader<L>,
    happens: Happens,
) -> Option<Came> {
    for event in all_before(alloc, happens)? {
        let _receipt = site.call(rt, seat, event).ok()?;
    }
    let events = twice(alloc, happens)?;
    let calls = seat.calls().len();
    let fixture = SiteFixture {
        rt,
        site,
        seat,
        reader,
        events,
        calls,
    };
    Some(try_call(rt, Some(fixture)))
}

/// Opens a site, tries the call, and closes it. The journal must have a record for each call of the seat.
fn open_and_call<L: SiteName, R: Print + Wait>(
    rt: &R,
    alloc: Global,
    blank: SiteBlank,
    happens: Happens,
) -> Option<Came>
    requires { IsBlankOf blank L.name L.parts L.seats L.beginning }
{
    let (site, mut seats, mut readers) = open_site::<L, R>(rt, blank).ok()?;
    let came = match (seats.first_mut(), readers.first_mut()) {
        (Some(seat), Some(reader)) => call_after(rt, alloc, &site, seat, reader, happens),
        _ => None,
    };
    let calls = match seats.first() {
        Some(seat) => seat.calls().len(),
        None => 0,
    };
    match site.close(rt, seats) {
        Ok(closed) if closed.records().len() == calls => came,
        _ => Some(Came::Wrong),
    }
}

/// Tries a call of a site.
pub fn site_call<R: Print + Wait>(rt: &R, alloc: Global, happens: Happens) -> Came {
    let Some(config) = config(alloc) else {
        return Came::SetUp;
    };
    match blank_site(rt, alloc, &config, ME, 0, 1, 1) {
        Ok(blank) => match open_and_call::<Brand, R>(rt, alloc, blank, happens) {
            Some(came) => came,
            None => Came::SetUp,
        },
        Err(_) => Came::SetUp,
    }
}

/// The opening of a site, or only its first half, `blank_site`.
#[derive(Drop)]
pub struct OpenFixture<'a, R: Wait> {
    rt: &'a R,
    alloc: Global,
    config: Config,
    opens: bool,
}

/// The fixture of opening a site, or of `blank_site` only.
pub fn opening<'a, R: Wait>(rt: &'a R, alloc: Global, opens: bool) -> Option<OpenFixture<'a, R>> {
    Some(OpenFixture {
        rt,
        alloc,
        config: config(alloc)?,
        opens,
    })
}

/// Opens a site and closes it.
fn opens<L: SiteName, R: Wait>(rt: &R, blank: SiteBlank) -> Said
    requires { IsBlankOf blank L.name L.parts L.seats L.beginning }
{
    match open_site::<L, R>(rt, blank) {
        Ok((site, seats, _readers)) => match site.close(rt, seats) {
            Ok(closed) => Said::Well(closed.records().len() as u64),
            Err(_) => Said::Other,
        },
        Err(_) => Said::NoMemory,
    }
}

impl<R: Wait> Fixture for OpenFixture<'_, R> {
    fn call(&mut self) -> Said {
        match blank_site(self.rt, self.alloc, &self.config, ME, 0, 2, 2) {
            Ok(blank) if self.opens => opens::<Brand, R>(self.rt, blank),
            Ok(blank) => {
                blank.give_up(self.rt);
                Said::Well(0)
            }
            // The page structure's refusal of a reader counts as a failed allocation, too.
            Err(OpenFault::NoReader) | Err(OpenFault::NoMemory) => Said::NoMemory,
        }
    }

    fn is_as_before(&self) -> bool {
        true
    }
}
