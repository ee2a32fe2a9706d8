//! Sites: calls, places, pages, readers, closing, a full journal, and two threads.
ghost use Rattle.std.specs.Prelude.{◌≡◌};
ghost use Rattle.dac_sites.specs.Sites.{IsBlankOf};

use dac_base::NodeId;
use dac_config::{Config, read_config};
use dac_events::Refusal;
use dac_lattice::Bottom;
use dac_messages::{Event, Reply, State};
use dac_origins::{Dot, Origin};
use dac_sites::{
    CloseFault, Closed, LiveFault, OpenFault, Page, PageReader, Receipt, Record, Seat, Site,
    SiteBlank, SiteName, blank_site, open_site,
};
use dac_state::{Act, Op};
use dac_status::Summary;
use std::alloc::Global;
use std::marker::Brand;
use std::sync::Wait;
use std::test::Fail;
use std::thread::{Threads, join};

/// The documented example: three nodes, two of them mandatory.
pub const EXAMPLE: &[u8] =
    b"[{kernel, [{distributed, [{myapp, 5000, [cp1@cave, {cp2@cave, cp3@cave}]}]}, {sync_nodes_mandatory, [cp2@cave, cp3@cave]}, {sync_nodes_timeout, 5000}]}].";

/// A short form of a call's result.
#[derive(Clone, Copy, Debug, PartialEq, Eq)]
enum Told {
    Booted,
    Held,
    Crashed,
    Other,
    Refused(Refusal),
    Fault(LiveFault),
}

fn of_reply(reply: &Reply) -> Told {
    match reply {
        Reply::Booted(_) => Told::Booted,
        Reply::Held => Told::Held,
        Reply::Crashed => Told::Crashed,
        _ => Told::Other,
    }
}

fn in_short<L: SiteName>(answer: Result<Receipt<L>, LiveFault>) -> (u64, Told) {
    match answer {
        Ok(receipt) => (receipt.place, of_reply(&receipt.reply)),
        Err(LiveFault::Refused { place, why }) => (place, Told::Refused(why)),
        Err(fault) => (0, Told::Fault(fault)),
    }
}

/// Five calls of two seats, at a node that boots, waits and crashes.
fn five_calls<L: SiteName, R: Wait>(
    rt: &R,
    site: &Site<L>,
    first: &mut Seat<L>,
    second: &mut Seat<L>,
) -> [(u64, Told); 5] {
    let boot = in_short(site.call(rt, first, Event::Boot { now: 0 }));
    let tick = in_short(site.call(rt, second, Event::Tick { now: 0 }));
    let again = in_short(site.call(rt, first, Event::Boot { now: 1 }));
    let crash = in_short(site.call(rt, second, Event::Crash));
    let off = in_short(site.call(rt, second, Event::Crash));
    [boot, tick, again, crash, off]
}

/// The results of the five calls, and of closing the site with both seats or only the first.
fn work<L: SiteName, R: Wait>(
    rt: &R,
    alloc: Global,
    blank: SiteBlank,
    with_both: bool,
) -> Option<([(u64, Told); 5], Result<Closed, CloseFault>)>
    requires { IsBlankOf blank L.name L.parts L.seats L.beginning }
{
    let (site, seats, _readers) = open_site::<L, R>(rt, blank).ok()?;
    let Some((mut first, mut second)) = first_two(seats) else {
        return closed_with_none(rt, alloc, site);
    };
    let answers = five_calls(rt, &site, &mut first, &mut second);
    let second = if with_both { Some(second) } else { None };
    Some((answers, site.close(rt, given_back(alloc, first, second))))
}

/// Both of two seats.
pub fn first_two<L: SiteName>(mut seats: Vec<Seat<L>>) -> Option<(Seat<L>, Seat<L>)> {
    let second = seats.pop()?;
    let first = seats.pop()?;
    Some((first, second))
}

/// A list of the seats, or of those for which there was memory.
fn given_back<L: SiteName>(alloc: Global, first: Seat<L>, second: Option<Seat<L>>) -> Vec<Seat<L>> {
    let mut back = Vec::new(alloc);
    let _ = back.push(first);
    if let Some(second) = second {
        let _ = back.push(second);
    }
    back
}

/// Closes a site without its seats.
pub fn closed_with_none<L: SiteName, T, R: Wait>(rt: &R, alloc: Global, site: Site<L>) -> Option<T>
    requires { L.seats ≡ L.parts }
{
    let _ = site.close(rt, Vec::new(alloc));
    None
}

/// A site of the first node with two seats, not yet opened.
fn two_seats<R: Wait>(rt: &R, alloc: Global, readers: u16) -> Result<SiteBlank, OpenFault> {
    let Ok(config) = read_config(alloc, EXAMPLE) else {
        return Err(OpenFault::NoMemory);
    };
    blank_site(rt, alloc, &config, NodeId(0), 0, 2, readers)
}

const ANSWERS: [(u64, Told); 5] = [
    (1, Told::Booted),
    (2, Told::Held),
    (3, Told::Refused(Refusal::AlreadyOn)),
    (4, Told::Crashed),
    (5, Told::Refused(Refusal::Off)),
];

/// The seats of the five records, in order.
const SEATS: [u16; 5] = [1, 2, 1, 2, 2];

/// True if the records have these seats and results.
fn are_five(records: &[Record]) -> bool {
    if records.len() != 5 {
        return false;
    }
    for i in 0..5usize {
        let one = &records[i];
        let answer = match &one.answer {
            Ok(reply) => of_reply(reply),
            Err(why) => Told::Refused(*why),
        };
        if one.seat != SEATS[i] || answer != ANSWERS[i].1 {
            return false;
        }
    }
    true
}

/// True if the five calls have their results, and the closed journal their records.
fn five_are_answered<R: Wait>(rt: &R, alloc: Global) -> Option<bool> {
    let blank = two_seats(rt, alloc, 0).ok()?;
    let (answers, closed) = work::<Brand, R>(rt, alloc, blank, true)?;
    let closed = closed.ok()?;
    Some(
        answers == ANSWERS
            && closed.node() == NodeId(0)
            && closed.last() == 0
            && are_five(closed.records()),
    )
}

#[test]
fn five_calls_of_two_seats(rt: HostRuntime) -> Result<(), Fail> {
    assert_eq!(rt; five_are_answered(&rt, rt.alloc()), Some(true));
    Ok(())
}

/// The fault of closing the site with one of two seats.
fn closed_with_one<R: Wait>(rt: &R, alloc: Global) -> Option<CloseFault> {
    let blank = two_seats(rt, alloc, 0).ok()?;
    let (_, closed) = work::<Brand, R>(rt, alloc, blank, false)?;
    closed.err()
}

#[test]
fn a_seat_is_missing(rt: HostRuntime) -> Result<(), Fail> {
    assert_eq!(rt;
        closed_with_one(&rt, rt.alloc()),
        Some(CloseFault::SeatMissing)
    );
    Ok(())
}

/// Passes a call's receipt to the reader, and then reads a page.
fn learn<L: SiteName>(
    reader: &mut PageReader<L>,
    answer: Result<Receipt<L>, LiveFault>,
) -> Option<Page> {
    let mut receipt = answer.ok()?;
    reader.learn(&mut receipt);
    reader.read()
}

/// The pages read after those of five calls that have a receipt.
fn pages_of_calls<L: SiteName, R: Wait>(
    rt: &R,
    site: &Site<L>,
    seat: &mut Seat<L>,
    reader: &mut PageReader<L>,
) -> [Option<Page>; 5] {
    let boot = learn(reader, site.call(rt, seat, Event::Boot { now: 0 }));
    let tick = learn(reader, site.call(rt, seat, Event::Tick { now: 0 }));
    let again = learn(reader, site.call(rt, seat, Event::Boot { now: 1 }));
    let crash = learn(reader, site.call(rt, seat, Event::Crash));
    let off = learn(reader, site.call(rt, seat, Event::Crash));
    [boot, tick, again, crash, off]
}

/// The pages that the only reader of a site reads after each call.
fn watch<L: SiteName, R: Wait>(rt: &R, alloc: Global, blank: SiteBlank) -> Option<[Option<Page>; 5]>
    requires { IsBlankOf blank L.name L.parts L.seats L.beginning }
{
    let (site, seats, mut readers) = open_site::<L, R>(rt, blank).ok()?;
    let (Some((mut first, second)), Some(mut reader)) = (first_two(seats), readers.pop()) else {
        return closed_with_none(rt, alloc, site);
    };
    let pages = pages_of_calls(rt, &site, &mut first, &mut reader);
    let closed = site.close(rt, given_back(alloc, first, Some(second)));
    if closed.is_err() || reader.read().is_some() {
        return None;
    }
    Some(pages)
}

const FIRST: Origin = Origin {
    node: NodeId(0),
    inc: 1,
};

/// The state of the first node after its boot.
fn booted(alloc: Global) -> Option<State> {
    let dot = Dot {
        origin: FIRST,
        n: 1,
    };
    let up = Op::new(dot, Act::Up).ok()?;
    State::delta_of(alloc, &up).ok()
}

/// The page of a node in this state after `place` records; `origin` is `None` if it's off.
fn page_of(config: &Config, place: u64, origin: Option<Origin>, state: &State) -> Page {
    Page {
        place,
        origin,
        summary: Summary::of(config, state),
    }
}

/// The pages to read: those of the booted node, and after the crash that of an empty state. A refused call has no
/// receipt.
fn pages_wanted(alloc: Global) -> Option<[Option<Page>; 5]> {
    let config = read_config(alloc, EXAMPLE).ok()?;
    let known = booted(alloc)?;
    let boot = page_of(&config, 1, Some(FIRST), &known);
    let tick = page_of(&config, 2, Some(FIRST), &known);
    let crash = page_of(&config, 4, None, &State::bottom(alloc));
    Some([Some(boot), Some(tick), None, Some(crash), None])
}

/// True if the pages read are these.
fn pages_are_read<R: Wait>(rt: &R, alloc: Global) -> Option<bool> {
    let blank = two_seats(rt, alloc, 1).ok()?;
    let pages = watch::<Brand, R>(rt, alloc, blank)?;
    Some(pages == pages_wanted(alloc)?)
}

#[test]
fn a_reader_sees_each_receipt(rt: HostRuntime) -> Result<(), Fail> {
    assert_eq!(rt; pages_are_read(&rt, rt.alloc()), Some(true));
    Ok(())
}

/// The place of the page read after a boot, although the receipt's owner changed its place.
fn page_behind<L: SiteName, R: Wait>(rt: &R, alloc: Global, blank: SiteBlank) -> Option<u64>
    requires { IsBlankOf blank L.name L.parts L.seats L.beginning }
{
    let (site, mut seats, mut readers) = open_site::<L, R>(rt, blank).ok()?;
    let mut place = 0;
    if let (Some(seat), Some(reader)) = (seats.first_mut(), readers.first_mut()) {
        if let Ok(mut receipt) = site.call(rt, seat, Event::Boot { now: 0 }) {
            receipt.place = 1 << 62;
            reader.learn(&mut receipt);
            if let Some(page) = reader.read() {
                place = page.place;
            }
        }
    }
    let _closed = site.close(rt, seats).ok()?;
    Some(place)
}

/// The result of [`page_behind`] for a new site.
fn read_behind<R: Wait>(rt: &R, alloc: Global) -> Option<u64> {
    let blank = two_seats(rt, alloc, 1).ok()?;
    page_behind::<Brand, R>(rt, alloc, blank)
}

#[test]
fn an_owner_sets_no_place_for_a_reader(rt: HostRuntime) -> Result<(), Fail> {
    assert_eq!(rt; read_behind(&rt, rt.alloc()), Some(1));
    Ok(())
}

/// True if a site can have this number of readers.
fn has_places<R: Wait>(rt: &R, alloc: Global, readers: u16) -> bool {
    match two_seats(rt, alloc, readers) {
        Ok(blank) => {
            blank.give_up(rt);
            true
        }
        Err(_) => false,
    }
}

/// Numbers of readers. A site of a run has five.
const READERS: &[u16] = &[0, 1, 5, 6, 64, 1_000];

#[test]
fn readers_have_places(rt: HostRuntime) -> Result<(), Fail> {
    for readers in READERS {
        assert!(rt; has_places(&rt, rt.alloc(), *readers));
    }
    Ok(())
}

/// Fills a journal with ticks at a node that is off. True if each is refused at the next place.
fn fills<L: SiteName, R: Wait>(rt: &R, site: &Site<L>, seat: &mut Seat<L>) -> bool {
    for now in 0..65_536u64 {
        let answer = in_short(site.call(rt, seat, Event::Tick { now }));
        if answer != (now + 1, Told::Refused(Refusal::Off)) {
            return false;
        }
    }
    true
}

/// The result of a call at a full journal, the number of the seat's calls, and that of the records.
fn one_more<L: SiteName, R: Wait>(
    rt: &R,
    alloc: Global,
    blank: SiteBlank,
) -> Option<(Told, usize, usize)>
    requires { IsBlankOf blank L.name L.parts L.seats L.beginning }
{
    let (site, seats, _readers) = open_site::<L, R>(rt, blank).ok()?;
    let Some((mut first, second)) = first_two(seats) else {
        return closed_with_none(rt, alloc, site);
    };
    let full = fills(rt, &site, &mut first);
    let (_, last) = in_short(site.call(rt, &mut first, Event::Crash));
    let calls = first.calls().len();
    let closed = site.close(rt, given_back(alloc, first, Some(second))).ok()?;
    if !full {
        return None;
    }
    Some((last, calls, closed.records().len()))
}

/// The result of [`one_more`] for a new site.
fn one_too_many<R: Wait>(rt: &R, alloc: Global) -> Option<(Told, usize, usize)> {
    let blank = two_seats(rt, alloc, 0).ok()?;
    one_more::<Brand, R>(rt, alloc, blank)
}

#[test]
fn a_journal_is_full(rt: HostRuntime) -> Result<(), Fail> {
    assert_eq!(rt;
        one_too_many(&rt, rt.alloc()),
        Some((Told::Fault(LiveFault::JournalFull), 65_536, 65_536))
    );
    Ok(())
}

/// A hundred ticks and boots of one seat.
fn many_calls<L: SiteName, R: Wait>(rt: &R, site: &Site<L>, mut seat: Seat<L>) -> Seat<L> {
    for now in 0..100u64 {
        let event = if now % 10 == 0 {
            Event::Boot { now }
        } else {
            Event::Tick { now }
        };
        let _ = site.call(rt, &mut seat, event);
    }
    seat
}

/// The number of records after two threads made these calls.
fn both<L: SiteName + Send + Sync, R: Threads + Wait + Sync>(
    rt: &R,
    alloc: Global,
    blank: SiteBlank,
) -> Option<usize>
    requires { IsBlankOf blank L.name L.parts L.seats L.beginning }
{
    let (site, seats, _readers) = open_site::<L, R>(rt, blank).ok()?;
    let Some((first, second)) = first_two(seats) else {
        return closed_with_none(rt, alloc, site);
    };
    let lent = &site;
    let (first, second) = join(
        rt,
        move || many_calls(rt, lent, first),
        move || many_calls(rt, lent, second),
    );
    let closed = site.close(rt, given_back(alloc, first, Some(second))).ok()?;
    Some(closed.records().len())
}

/// The result of [`both`] for a new site.
fn both_are_recorded<R: Threads + Wait + Sync>(rt: &R, alloc: Global) -> Option<usize> {
    let blank = two_seats(rt, alloc, 0).ok()?;
    both::<Brand, R>(rt, alloc, blank)
}

#[test]
fn two_threads(rt: HostRuntime) -> Result<(), Fail> {
    assert_eq!(rt; both_are_recorded(&rt, rt.alloc()), Some(200));
    Ok(())
}
