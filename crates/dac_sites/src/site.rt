//! A site: a journal under a lock, and the seats of its callers.

ghost use Rattle.std.specs.Prelude.{◌≡◌, ◌≢◌, ◌↔◌, ◌+◌, ◌<◌, length, Some, Ok, Err, IfOk, IfErr, MatchOption, All, sum_by, vec_len};
ghost use Rattle.dac_journal.specs.declared.limits.TheConstants.{MAX_RECORDS};
ghost use Rattle.dac_journal.specs.Journals.{calls_of};
ghost use Rattle.dac_sites.specs.Behind.{WentOn, NotTaken, SeatDiffers, FirstUnseated, NotClosed};
ghost use Rattle.dac_sites.specs.Paged.{page_after};
ghost use Rattle.dac_sites.specs.Receipts.{note_of};
ghost use Rattle.dac_sites.specs.Added.{Added, AddedRefused, CallAdded, CallRefused};
ghost use Rattle.dac_sites.specs.Seats.{IsOneOf, new_seats};
ghost use Rattle.dac_sites.specs.Sites.{IsBlankOf};

use crate::blank::{SiteBlank, SiteName};
use crate::faults::{CloseFault, LiveFault};
use crate::laws::{record_call, same_calls};
use crate::paged::PagedJournal;
use crate::reader::PageReader;
use crate::receipt::Receipt;
use crate::seat::Seat;
use dac_base::NoMemory;
use dac_journal::{Closed, Record};
use dac_messages::Event;
use dac_pages::RawReader;
use std::alloc::Global;
use std::marker::PhantomData;
use std::sync::ledger::{Blank, Book, Share};
use std::sync::{Mutex, MutexGuard, Wait};

/// The data under the lock: the journal with its pages, and the ledger that sums the seats' shares. It can't be
/// dropped.
pub struct Locked<L: SiteName> {
    paged: PagedJournal,
    book: Book<L>,
    /// The journal has as many records as the seats have calls.
    ghost counted: { length paged.journal.records ≡ book.total },
    /// The journal has the beginning that belongs to the site's name.
    ghost begins: { paged.journal.beginning ≡ L.beginning },
}

impl<L: SiteName> Locked<L> {
    /// Handles a call of this seat. All allocations precede any change, and the page is published before the call
    /// returns.
    fn call<R: Wait>(
        &mut self,
        rt: &R,
        seat: &mut Seat<L>,
        event: Event,
    ) -> Result<Receipt<L>, LiveFault>
        ensures number { seat.new.number ≡ seat.old.number }
        ensures ok { IfOk result (λ r. CallAdded seat.old.calls seat.new.calls r.place event
            (Ok r.reply) × (note_of r ≡ Some r.place)) }
        ensures err { IfErr result (λ e. CallRefused e seat.old.calls seat.new.calls event) }
        // The journal's new record is the call that the seat keeps.
        ensures added { IfOk result (λ r. Added self.old.paged.journal.records
            self.new.paged.journal.records seat.old.number event r.place (Ok r.reply)) }
        ensures refused { IfErr result (λ e. AddedRefused e self.old.paged.journal.records
            self.new.paged.journal.records seat.old.number event) }
        ensures full { (length self.old.paged.journal.records ≡ MAX_RECORDS)
            ↔ (result ≡ Err LiveFault.JournalFull) }
        ensures page { self.new.paged.page ≡ page_after L.beginning self.new.paged.journal.records }
        ensures taken { IfOk result
            (λ r. WentOn L.beginning seat.old.number event r.place (Ok r.reply)) }
        ensures not_taken { IfErr result (λ e. NotTaken e L.beginning seat.old.number event) }
    {
        if self.paged.journal().is_full() {
            return Err(LiveFault::JournalFull);
        }
        if seat.calls.reserve(1).is_err() {
            return Err(LiveFault::NoMemory);
        }
        let Locked { paged, book } = self;
        let Seat {
            number,
            calls,
            share,
        } = seat;
        let Ok((call, answer)) = record_call(rt, paged, *number, event) else {
            return Err(LiveFault::NoMemory);
        };
        let place = call.place;
        book.add(share, 1);
        calls.push_reserved(call);
        match answer {
            Ok(reply) => Ok(Receipt {
                place,
                reply,
                note: Some(place),
                of: PhantomData,
            }),
            Err(why) => Err(LiveFault::Refused { place, why }),
        }
    }
}

/// A node with its journal under one lock, and with pages that are read without it. Each thread with a seat can call
/// it. It can't be dropped: end it with [`Site::close`].
pub struct Site<L: SiteName> {
    locked: Mutex<Locked<L>>,
    seats: usize,
    ghost all: { seats ≡ L.seats },
    ghost some: { 0 < L.seats },
}

fn deal<L: SiteName>(
    alloc: Global,
    blank: Blank,
    count: u16,
) -> Result<(Book<L>, Vec<Seat<L>>), NoMemory>
    requires { (blank.name ≡ L.name) × (blank.parts ≡ L.parts) × (blank.parts ≡ count) }
    ensures { IfOk result (λ r. (r.0.total ≡ 0) × (r.1.items ≡ new_seats count)) }
{
    let (book, mut rest) = blank.open::<L>();
    let mut seats = Vec::new(alloc);
    for number in 0..count {
        let share = rest.split_off(1, 0);
        seats.push(Seat::new(alloc, number + 1, share))?;
    }
    Ok((book, seats))
}

fn name_readers<L: SiteName>(
    alloc: Global,
    mut readers: Vec<RawReader>,
) -> Result<Vec<PageReader<L>>, NoMemory>
    ensures { IfOk result (λ all. vec_len all ≡ vec_len readers) }
{
    let mut all = Vec::new(alloc);
    while let Some(reader) = readers.pop() {
        all.push(PageReader::over(reader))?;
    }
    Ok(all)
}

/// Opens a site under the name `L`. Returns its seats, numbered from 1 and without calls, and its readers, which have
/// read nothing. Call it in a function generic over the name, so that the caller of that function binds the name to
/// this blank. On [`NoMemory`] the blank is dropped.
pub fn open_site<L: SiteName, R: Wait>(
    rt: &R,
    blank: SiteBlank,
) -> Result<(Site<L>, Vec<Seat<L>>, Vec<PageReader<L>>), NoMemory>
    requires { IsBlankOf blank L.name L.parts L.seats L.beginning }
    ensures seats { IfOk result (λ r. r.1.items ≡ new_seats blank.seats) }
    ensures readers { IfOk result (λ r. vec_len r.2 ≡ vec_len blank.readers) }
{
    let SiteBlank {
        blank,
        paged,
        seats,
        readers,
        alloc,
    } = blank;
    let dealt = deal::<L>(alloc, blank, seats);
    let readers = name_readers::<L>(alloc, readers);
    let (Ok((book, all)), Ok(readers)) = (dealt, readers) else {
        paged.end(rt);
        return Err(NoMemory);
    };
    let locked = Mutex::new(Locked { paged, book });
    let site = Site {
        locked,
        seats: usize::from(seats),
    };
    Ok((site, all, readers))
}

/// The place at which the calls of the first seat that doesn't match first differ from its records.
fn mismatch<L: SiteName>(records: &[Record], seats: &[Seat<L>]) -> Option<u64>
    ensures { MatchOption result (All (λ s. calls_of s.number records.now ≡ s.calls) seats.now)
        (λ p. SeatDiffers p records.now seats.now) }
{
    for seat in seats {
        if let Some(place) = same_calls(records, seat.number(), seat.calls()) {
            return Some(place);
        }
    }
    None
}

/// The position among the seats of the one with this number.
fn seat_at<L: SiteName>(seats: &[Seat<L>], number: u16) -> Option<usize>
    ensures { MatchOption result (All (λ s. s.number ≢ number) seats.now)
        (λ _. IsOneOf number (λ s. s.number) seats.now) }
{
    for i in 0..seats.len() {
        let one = &seats[i];
        if one.number() == number {
            return Some(i);
        }
    }
    None
}

/// The place of the first record that belongs to none of these seats.
fn unseated_record<L: SiteName>(records: &[Record], seats: &[Seat<L>]) -> Option<u64>
    ensures { MatchOption result (All (λ r. IsOneOf r.seat (λ s. s.number) seats.now) records.now)
        (λ p. FirstUnseated p 1 seats.now records.now) }
{
    for i in 0..records.len() {
        let one = &records[i];
        match seat_at(seats, one.seat) {
            Some(_) => {}
            None => return Some(i as u64 + 1),
        }
    }
    None
}

fn merge_shares<L: SiteName>(mut seats: Vec<Seat<L>>, mut all: Share<L>) -> Share<L>
    ensures { (result.parts ≡ all.parts + vec_len seats)
        × (result.amount ≡ all.amount + sum_by (λ s. length s.calls) seats.items) }
{
    while let Some(seat) = seats.pop() {
        let Seat {
            number: _,
            calls: _,
            share,
        } = seat;
        all.merge(share);
    }
    all
}

impl<L: SiteName> Site<L> {
    /// Handles an event at the node, for this seat. A reply or a refusal is recorded in the journal and in the seat,
    /// with its place. The page after the record is published before the call returns.
    ///
    /// Fails with `JournalFull` if the journal has [`MAX_RECORDS`](dac_journal::MAX_RECORDS) records; otherwise with
    /// `NoMemory` if an allocation fails, because a refusal needs memory for its record too. Both leave the seat
    /// unchanged. Fails with `Refused` if the node refuses the event.
    ///
    /// Because the lock hides the journal, the clauses speak of some history of the node since the site's beginning. A
    /// history of each length exists, so they can't say when `JournalFull` comes. But under the lock the call runs
    /// [`add_record`](crate::laws::add_record), whose clause `full` says that it comes exactly if the journal is full.
    pub fn call<R: Wait>(
        &self,
        rt: &R,
        seat: &mut Seat<L>,
        event: Event,
    ) -> Result<Receipt<L>, LiveFault>
        ensures number { seat.new.number ≡ seat.old.number }
        ensures ok { IfOk result (λ r. CallAdded seat.old.calls seat.new.calls r.place event
            (Ok r.reply) × (note_of r ≡ Some r.place)) }
        ensures err { IfErr result (λ e. CallRefused e seat.old.calls seat.new.calls event) }
        // The result is that of the model node after some history of the site's node, and the call's record is the next
        // one.
        ensures taken { IfOk result
            (λ r. WentOn L.beginning seat.old.number event r.place (Ok r.reply)) }
        ensures not_taken { IfErr result (λ e. NotTaken e L.beginning seat.old.number event) }
    {
        let mut guard = self.locked.lock(rt);
        let answer = guard.call(rt, seat, event);
        MutexGuard::unlock(guard);
        answer
    }

    /// Closes the site and returns its journal, which contains each seat's calls once, and nothing else.
    ///
    /// Fails with `SeatMissing` if the number of seats isn't the one that the site was opened with; otherwise with
    /// `Mismatch` if a seat's calls aren't its records, or if a record belongs to none of these seats. The place is
    /// that of the first difference of the first such seat, or, if all seats match, that of the first such record. Both
    /// drop the site and its seats.
    pub fn close<R: Wait>(self, rt: &R, mut seats: Vec<Seat<L>>) -> Result<Closed, CloseFault>
        requires { L.seats ≡ L.parts }
        ensures beginning { IfOk result (λ c. c.beginning ≡ L.beginning) }
        // Each seat's calls are its records, with their places and in the journal's order.
        ensures calls { IfOk result
            (λ c. All (λ s. calls_of s.number c.records ≡ s.calls) seats.items) }
        // There are no other records.
        ensures others { IfOk result
            (λ c. All (λ r. IsOneOf r.seat (λ s. s.number) seats.items) c.records) }
        ensures count { IfOk result
            (λ c. length c.records ≡ sum_by (λ s. length s.calls) seats.items) }
        ensures missing { (vec_len seats ≢ L.seats) ↔ (result ≡ Err CloseFault.SeatMissing) }
        ensures mismatch { IfErr result (λ why. NotClosed why L.beginning seats.items) }
    {
        let Site {
            locked,
            seats: count,
        } = self;
        let Locked { paged, mut book } = locked.into_inner();
        let (journal, _page) = paged.end(rt);
        if seats.len() != count {
            return Err(CloseFault::SeatMissing);
        }
        if let Some(place) = mismatch(journal.records(), seats.as_slice()) {
            return Err(CloseFault::Mismatch { place });
        }
        if let Some(place) = unseated_record(journal.records(), seats.as_slice()) {
            return Err(CloseFault::Mismatch { place });
        }
        let none = seats[0].share.empty();
        let mut all = merge_shares(seats, none);
        book.audit(&mut all);
        Ok(journal.close())
    }
}
