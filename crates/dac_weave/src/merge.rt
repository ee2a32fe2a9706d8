//! The merge: the records placed so far, and the search for the next.

ghost use Rattle.std.specs.Prelude.{◌≡◌, ◌<◌, ◌≤◌, ◌++◌, Ok, IfOk, OnOk, IfSome, MatchOption, length};
ghost use Rattle.dac_journal.specs.ModelWorld.{event_of};
ghost use Rattle.dac_weave.specs.Mails.{IsMail, IsProper, PostsAll};
ghost use Rattle.dac_weave.specs.Names.{Names, issued_in, shipped_in};

use crate::cursor::{Cursor, cursors_of};
use crate::indexed_list::IndexedList;
use crate::mail::Mail;
use crate::part::Part;
use crate::unfit::lesser;
use dac_base::{NoMemory, NodeId};
use dac_config::Config;
use dac_events::{What, WorldEvent};
use dac_journal::{Answer, Closed};
use dac_messages::{Event, OpList, Reply};
use dac_operations::Op;
use std::alloc::Global;

/// The cursors, the events placed so far with the seats of their records, and the operations and messages that they
/// issued.
#[derive(Drop)]
pub(crate) struct Merge<'a> {
    pub(crate) cursors: Vec<Cursor>,
    pub(crate) events: Vec<WorldEvent>,
    pub(crate) seats: Vec<u16>,
    pub(crate) operations: IndexedList<'a, Op>,
    pub(crate) mail: Mail<'a>,
}

/// Returns the world event that is `event` at its node. A delivered message or operation has none until it was sent.
fn name_event(operations: &IndexedList<'_, Op>, mail: &Mail<'_>, event: &Event) -> Option<What>
    requires { IsMail mail.now }
    ensures names { Names operations.now mail.now.shipped event.now result }
    ensures proper { IfSome result (IsProper mail.now) }
{
    match event {
        Event::Boot { now } => Some(What::Boot { now: *now }),
        Event::Crash => Some(What::Crash),
        Event::Command(command) => Some(What::Command(*command)),
        Event::Tick { now } => Some(What::Tick { now: *now }),
        Event::Ship { to } => Some(What::Ship { to: *to }),
        Event::Hear(message) => match mail.number(message) {
            Some(number) => Some(What::Deliver(number)),
            None => None,
        },
        Event::HearOp(operation) => match operations.number(operation) {
            Some(number) => Some(What::Hand(number)),
            None => None,
        },
    }
}

/// Returns the world event that is `event` at its node, unless it delivers a message of which no copy waits.
fn name_once(operations: &IndexedList<'_, Op>, mail: &Mail<'_>, event: &Event) -> Option<What>
    requires { IsMail mail.now }
    ensures names { IfSome result
        (λ what. event_of operations.now mail.now.shipped what ≡ Ok event.now) }
    ensures proper { IfSome result (IsProper mail.now) }
{
    match event {
        Event::Hear(message) => match mail.next(message) {
            Some(next) => Some(What::Deliver(next)),
            None => None,
        },
        _ => name_event(operations, mail, event),
    }
}

/// Appends the issued operations.
fn append_issued<'a>(
    operations: &mut IndexedList<'a, Op>,
    issued: &'a OpList,
) -> Result<(), NoMemory>
    ensures { OnOk result (operations.new ≡ operations.old ++ issued.now) }
{
    for operation in issued.as_slice() {
        operations.put(operation)?;
    }
    Ok(())
}

/// Appends the operations and messages of a record's result.
fn append_output<'a>(
    operations: &mut IndexedList<'a, Op>,
    mail: &mut Mail<'a>,
    answer: &'a Answer,
) -> Result<(), NoMemory>
    requires { IsMail mail.old }
    ensures operations { OnOk result (operations.new ≡ operations.old ++ issued_in answer.now) }
    ensures messages { OnOk result (mail.new.shipped ≡ mail.old.shipped ++ shipped_in answer.now) }
    ensures posts { OnOk result (PostsAll mail.old (shipped_in answer.now) mail.new) }
{
    match answer {
        Ok(Reply::Booted(operation) | Reply::Issued(operation)) => operations.put(operation),
        Ok(Reply::Ticked { ops, passed: _ }) => append_issued(operations, ops),
        Ok(Reply::Shipped(message)) => mail.post(message),
        Ok(Reply::Crashed | Reply::Held | Reply::GaveUp | Reply::Heard(_)) | Err(_) => Ok(()),
    }
}

/// The total number of records, or the greatest `usize` if there are more.
fn count_all(journals: &[Closed]) -> usize {
    let mut count = 0usize;
    for journal in journals {
        count = count.saturating_add(journal.records().len());
    }
    count
}

impl<'a> Merge<'a> {
    ghost use Rattle.std.specs.Prelude.{◌<◌, ◌≤◌, IfOk, OnOk, IfSome, MatchOption, length};
    ghost use Rattle.dac_journal.specs.Journals.{JournalValue};
    ghost use Rattle.dac_weave.specs.Mails.{IsMail, Notes, Moves};
    ghost use Rattle.dac_weave.specs.Woven.{AllFit, IsFirst};
    ghost use Rattle.dac_weave.specs.Placing.{HaveCursors, Weaves, CanBePlaced, IsBlocked, AllBlocked, BlockedBetween, Places, IsBegun, Continues, IsLeft, IsLeftAt, AllWhole};

    /// A merge with no record placed.
    pub(crate) fn new(
        alloc: Global,
        config: &Config,
        journals: &'a [Closed],
    ) -> Result<Self, NoMemory>
        ensures { IfOk result (IsBegun config.now journals.now) }
    {
        let cursors = cursors_of(alloc, config, journals)?;
        let room = count_all(journals);
        let operations = IndexedList::new(alloc, room)?;
        let mail = Mail::new(alloc, room)?;
        Ok(Merge {
            cursors,
            events: Vec::new(alloc),
            seats: Vec::new(alloc),
            operations,
            mail,
        })
    }

    /// Returns the world event that places the next record of a journal, if it can be placed.
    fn ready(&self, journals: &[Part<'a>], i: usize) -> Option<What>
        requires fits { HaveCursors journals.now self.now.cursors.items }
        requires mail { IsMail self.now.mail }
        requires within { i < length journals.now }
        ensures { MatchOption result (IsBlocked journals.now self.now i)
            (CanBePlaced journals.now self.now i) }
    {
        let cursor = &self.cursors[i];
        let records = journals[i].records();
        if cursor.placed < cursor.valid.min(records.len()) {
            name_event(&self.operations, &self.mail, &records[cursor.placed].event)
        } else {
            None
        }
    }

    /// Returns a journal in `low..high` whose next record can be placed, with its world event.
    fn find_between(&self, journals: &[Part<'a>], low: usize, high: usize) -> Option<(usize, What)>
        requires fits { HaveCursors journals.now self.now.cursors.items }
        requires mail { IsMail self.now.mail }
        requires within { high ≤ length journals.now }
        ensures { MatchOption result (BlockedBetween journals.now self.now low high)
            (λ found. (found.0 < length journals.now)
            × CanBePlaced journals.now self.now found.0 found.1) }
    {
        for i in low..high {
            match self.ready(journals, i) {
                Some(what) => return Some((i, what)),
                None => {}
            }
        }
        None
    }

    /// Returns the world event that places the next record of a journal, if it can be placed and delivers no message
    /// of which each copy was delivered.
    fn ready_once(&self, journals: &[Part<'a>], i: usize) -> Option<What>
        requires fits { HaveCursors journals.now self.now.cursors.items }
        requires mail { IsMail self.now.mail }
        requires within { i < length journals.now }
        ensures { IfSome result (CanBePlaced journals.now self.now i) }
    {
        let cursor = &self.cursors[i];
        let records = journals[i].records();
        if cursor.placed < cursor.valid.min(records.len()) {
            name_once(&self.operations, &self.mail, &records[cursor.placed].event)
        } else {
            None
        }
    }

    /// Returns a journal in `low..high` as [`Merge::ready_once`] does for one, with its world event.
    fn once_between(&self, journals: &[Part<'a>], low: usize, high: usize) -> Option<(usize, What)>
        requires fits { HaveCursors journals.now self.now.cursors.items }
        requires mail { IsMail self.now.mail }
        requires within { high ≤ length journals.now }
        ensures { IfSome result (λ found. (found.0 < length journals.now)
            × CanBePlaced journals.now self.now found.0 found.1) }
    {
        for i in low..high {
            match self.ready_once(journals, i) {
                Some(what) => return Some((i, what)),
                None => {}
            }
        }
        None
    }

    /// Returns a journal whose next record can be placed, with its world event. The search starts at `from` and wraps
    /// around.
    fn find_any(&self, journals: &[Part<'a>], from: usize) -> Option<(usize, What)>
        requires fits { HaveCursors journals.now self.now.cursors.items }
        requires mail { IsMail self.now.mail }
        requires within { from ≤ length journals.now }
        ensures { MatchOption result (AllBlocked journals.now self.now)
            (λ found. (found.0 < length journals.now)
            × CanBePlaced journals.now self.now found.0 found.1) }
    {
        match self.find_between(journals, from, journals.len()) {
            Some(found) => Some(found),
            None => self.find_between(journals, 0, from),
        }
    }

    /// Returns a journal as [`Merge::find_any`] does, and delivers a copy of a message a second time only if no other
    /// record can be placed.
    fn find(&self, journals: &[Part<'a>], from: usize) -> Option<(usize, What)>
        requires fits { HaveCursors journals.now self.now.cursors.items }
        requires mail { IsMail self.now.mail }
        requires within { from ≤ length journals.now }
        ensures { MatchOption result (AllBlocked journals.now self.now)
            (λ found. (found.0 < length journals.now)
            × CanBePlaced journals.now self.now found.0 found.1) }
    {
        if let Some(found) = self.once_between(journals, from, journals.len()) {
            return Some(found);
        }
        if let Some(found) = self.once_between(journals, 0, from) {
            return Some(found);
        }
        self.find_any(journals, from)
    }

    /// Notes that the copy of a message is delivered.
    fn note(&mut self, what: What)
        requires { IsMail self.old.mail }
        ensures cursors { self.new.cursors ≡ self.old.cursors }
        ensures events { self.new.events ≡ self.old.events }
        ensures seats { self.new.seats ≡ self.old.seats }
        ensures operations { self.new.operations ≡ self.old.operations }
        ensures notes { Notes self.old.mail what self.new.mail }
        ensures messages { self.new.mail.shipped ≡ self.old.mail.shipped }
        ensures mail { IsMail self.new.mail }
    {
        match what {
            What::Deliver(number) => self.mail.take(number),
            What::Boot { now: _ }
            | What::Crash
            | What::Command(_)
            | What::Tick { now: _ }
            | What::Ship { to: _ }
            | What::Hand(_) => {}
        }
    }

    /// Places the next record of a journal.
    fn place(&mut self, journals: &[Part<'a>], i: usize, what: What) -> Result<(), NoMemory>
        requires fits { HaveCursors journals.now self.old.cursors.items }
        requires mail { IsMail self.old.mail }
        requires within { i < length journals.now }
        requires ready { CanBePlaced journals.now self.old i what }
        ensures places { OnOk result (Places journals.now self.old i what self.new) }
        ensures moves { OnOk result (Moves self.old.mail what self.new.mail) }
    {
        let journal = &journals[i];
        let records = journal.records();
        let placed = self.cursors[i].placed;
        let record = &records[placed];
        self.events.push(WorldEvent {
            node: journal.node(),
            what,
        })?;
        self.seats.push(record.seat)?;
        self.note(what);
        append_output(&mut self.operations, &mut self.mail, &record.answer)?;
        self.cursors[i].placed = placed + 1;
        Ok(())
    }

    /// Places every record that can be placed. It stays with one journal as long as possible.
    pub(crate) fn weave(&mut self, config: &Config, journals: &[Part<'a>]) -> Result<(), NoMemory>
        requires fit { AllFit journals.now }
        requires weaves { Weaves config.now journals.now self.old }
        ensures weaves { OnOk result (Weaves config.now journals.now self.new) }
        ensures still { OnOk result (AllBlocked journals.now self.new) }
        ensures continues { OnOk result (Continues self.old self.new) }
    {
        let mut from = 0;
        while let Some((i, what)) = self.find(journals, from) {
            self.place(journals, i, what)?;
            from = i;
        }
        Ok(())
    }

    /// The journal of the least node that isn't placed whole.
    fn least_left(&self, journals: &[Part<'a>]) -> Option<usize>
        requires { length self.now.cursors.items ≡ length journals.now }
        ensures { MatchOption result (AllWhole journals.now self.now.cursors.items)
            (λ i. (j : JournalValue) × IsFirst journals.now (IsLeft self.now.cursors.items) i j) }
    {
        let mut least: Option<usize> = None;
        for i in 0..journals.len() {
            if self.cursors[i].placed < journals[i].records().len() {
                least = Some(lesser(journals, least, i));
            }
        }
        least
    }

    /// The node of [`Merge::least_left`], and the position of its first unplaced record, counted from 1.
    pub(crate) fn first_left(&self, journals: &[Part<'a>]) -> Option<(NodeId, u64)>
        requires { HaveCursors journals.now self.now.cursors.items }
        ensures { MatchOption result (AllWhole journals.now self.now.cursors.items)
            (λ found. IsLeftAt journals.now self.now.cursors.items found.0 found.1) }
    {
        match self.least_left(journals) {
            None => None,
            Some(i) => {
                let journal = &journals[i];
                let records = journal.records();
                let placed = self.cursors[i].placed;
                if placed < records.len() {
                    Some((journal.node(), placed as u64 + 1))
                } else {
                    None
                }
            }
        }
    }
}
