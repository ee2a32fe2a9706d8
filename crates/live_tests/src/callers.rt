//! The caller in the first comment of `dac_sites`.
ghost use Rattle.dac_sites.specs.Sites.{IsBlankOf};

use dac_base::NodeId;
use dac_config::read_config;
use dac_messages::Event;
use dac_sites::{SiteBlank, SiteName, blank_site, open_site};
use std::alloc::Global;
use std::marker::Brand;
use std::sync::Wait;
use std::test::Fail;

/// The place of the page read after a boot at a site with one seat and one reader, and the number of records in its
/// closed journal.
fn boot_at<L: SiteName, R: Wait>(rt: &R, alloc: Global, blank: SiteBlank) -> Option<(u64, usize)>
    requires { IsBlankOf blank L.name L.parts L.seats L.beginning }
{
    let (site, mut seats, mut readers) = open_site::<L, R>(rt, blank).ok()?;
    let mut place = 0;
    if let (Some(seat), Some(reader)) = (seats.first_mut(), readers.first_mut()) {
        if let Ok(mut receipt) = site.call(rt, seat, Event::Boot { now: 0 }) {
            reader.learn(&mut receipt);
            if let Some(page) = reader.read() {
                place = page.place;
            }
        }
    }
    let closed = site.close(rt, seats).ok()?;
    Some((place, closed.records().len()))
}

/// The result of [`boot_at`] for a new site.
fn boot_once<R: Wait>(rt: &R, alloc: Global) -> Option<(u64, usize)> {
    let config = read_config(alloc, b"[{kernel,[{distributed,[{shop,[main@h]}]}]}].").ok()?;
    let blank = blank_site(rt, alloc, &config, NodeId(0), 0, 1, 1).ok()?;
    boot_at::<Brand, R>(rt, alloc, blank)
}

#[test]
fn a_caller_of_a_site(rt: HostRuntime) -> Result<(), Fail> {
    assert_eq!(rt; boot_once(&rt, rt.alloc()), Some((1, 1)));
    Ok(())
}
