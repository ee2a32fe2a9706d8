//! Pages read with a receipt: fresh and stale ones.
ghost use Rattle.dac_workers.specs.Sites.{IsBlankOf};

use dac_base::NodeId;
use dac_config::read_config;
use dac_messages::Event;
use dac_workers::{
    PageReader, Reading, Receipt, Seat, Site, SiteBlank, SiteName, blank_site, fresh_page,
    open_site,
};
use std::alloc::Global;
use std::marker::Brand;
use std::sync::Wait;
use std::test::Fail;

/// A reading, reduced to the page's place.
#[derive(Clone, Copy, Debug, PartialEq, Eq)]
enum Read {
    Fresh(u64),
    Stale(Option<u64>),
}

fn in_short(reading: Reading) -> Read {
    match reading {
        Reading::Fresh(page) => Read::Fresh(page.place),
        Reading::Stale(Some(page)) => Read::Stale(Some(page.place)),
        Reading::Stale(None) => Read::Stale(None),
    }
}

/// Reads without a receipt, with a boot's receipt, and with one for a later place than the page's.
fn three_readings<L: SiteName, R: Wait>(
    rt: &R,
    site: &Site<L>,
    seat: &mut Seat<L>,
    reader: &mut PageReader<L>,
) -> Option<[Read; 3]> {
    let mut last: Option<Receipt<L>> = None;
    let first = in_short(fresh_page(&mut last, reader));
    last = Some(site.call(rt, seat, Event::Boot { now: 0 }).ok()?);
    let second = in_short(fresh_page(&mut last, reader));
    let mut later = site.call(rt, seat, Event::Tick { now: 1 }).ok()?;
    later.place = later.place.saturating_add(1);
    last = Some(later);
    let third = in_short(fresh_page(&mut last, reader));
    Some([first, second, third])
}

/// Runs `three_readings` at a new site with one seat and one reader; also the number of journal records.
fn read_at<L: SiteName, R: Wait>(rt: &R, blank: SiteBlank) -> Option<([Read; 3], usize)>
    requires { IsBlankOf blank L.name L.parts L.seats L.beginning }
{
    let (site, mut seats, mut readers) = open_site::<L, R>(rt, blank).ok()?;
    let read = match (seats.first_mut(), readers.first_mut()) {
        (Some(seat), Some(reader)) => three_readings(rt, &site, seat, reader),
        _ => None,
    };
    let closed = site.close(rt, seats).ok()?;
    Some((read?, closed.records().len()))
}

fn readings<R: Wait>(rt: &R, alloc: Global) -> Option<([Read; 3], usize)> {
    let config = read_config(alloc, b"[{kernel,[{distributed,[{shop,[main@h]}]}]}].").ok()?;
    let blank = blank_site(rt, alloc, &config, NodeId(0), 0, 1, 1).ok()?;
    read_at::<Brand, R>(rt, blank)
}

#[test]
fn a_page_before_the_place_of_a_receipt_is_stale(rt: HostRuntime) -> Result<(), Fail> {
    let wanted = [Read::Fresh(0), Read::Fresh(1), Read::Stale(Some(2))];
    assert_eq!(rt; readings(&rt, rt.alloc()), Some((wanted, 2)));
    Ok(())
}

/// Reads the page of a closed site with a boot's receipt, and without one.
fn read_behind<L: SiteName, R: Wait>(rt: &R, blank: SiteBlank) -> Option<[Read; 2]>
    requires { IsBlankOf blank L.name L.parts L.seats L.beginning }
{
    let (site, mut seats, mut readers) = open_site::<L, R>(rt, blank).ok()?;
    let mut last = match seats.first_mut() {
        Some(seat) => site.call(rt, seat, Event::Boot { now: 0 }).ok(),
        None => None,
    };
    let _closed = site.close(rt, seats).ok()?;
    let reader = readers.first_mut()?;
    let first = in_short(fresh_page(&mut last, reader));
    let second = in_short(fresh_page(&mut None, reader));
    Some([first, second])
}

fn readings_behind<R: Wait>(rt: &R, alloc: Global) -> Option<[Read; 2]> {
    let config = read_config(alloc, b"[{kernel,[{distributed,[{shop,[main@h]}]}]}].").ok()?;
    let blank = blank_site(rt, alloc, &config, NodeId(0), 0, 1, 1).ok()?;
    read_behind::<Brand, R>(rt, blank)
}

#[test]
fn a_closed_site_gives_no_fresh_page(rt: HostRuntime) -> Result<(), Fail> {
    let none = Read::Stale(None);
    assert_eq!(rt; readings_behind(&rt, rt.alloc()), Some([none, none]));
    Ok(())
}
