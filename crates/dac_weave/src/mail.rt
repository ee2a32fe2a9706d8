//! The messages shipped so far, and those that wait for a delivery.

ghost use Rattle.std.specs.Prelude.{◌≡◌, ℕ, Some, IfOk, IfSome, OnOk, MatchOption};
ghost use Rattle.dac_journal.specs.ModelWorld.{counted};
ghost use Rattle.dac_weave.specs.Mails.{IsMail, IsNoMail, NoneWaits, IsProperNumber, Posts, Takes};

use crate::buckets::Buckets;
use crate::indexed_list::IndexedList;
use crate::labels::Labelled;
use dac_base::NoMemory;
use dac_messages::Message;
use std::alloc::Global;

/// The messages shipped so far, and the places of those that no delivery names.
#[derive(Drop)]
pub(crate) struct Mail<'a> {
    pub(crate) shipped: IndexedList<'a, Message>,
    pub(crate) waiting: Buckets,
}

impl<'a> Mail<'a> {
    /// No messages, with `room` buckets.
    pub(crate) fn new(alloc: Global, room: usize) -> Result<Self, NoMemory>
        ensures { IfOk result IsNoMail }
    {
        let shipped = IndexedList::new(alloc, room)?;
        let waiting = Buckets::new(alloc, room)?;
        Ok(Mail { shipped, waiting })
    }

    /// The number of the first equal message that waits, counted from 1.
    pub(crate) fn next(&self, message: &Message) -> Option<u64>
        requires { IsMail self.now }
        ensures { MatchOption result (NoneWaits self.now message.now)
            (λ k. (counted self.now.shipped k ≡ Some message.now) × IsProperNumber self.now k) }
    {
        let bucket = self.waiting.bucket(message.label());
        for i in 0..bucket.len() {
            let place = bucket[i];
            if self.shipped.is_at(place, message) {
                return Some(place as u64 + 1);
            }
        }
        None
    }

    /// The number of an equal message: of the first one that waits, or of the first one if none waits.
    pub(crate) fn number(&self, message: &Message) -> Option<u64>
        requires { IsMail self.now }
        ensures named { MatchOption result
            ((k : ℕ) → counted self.now.shipped k ≡ Some message.now → ⊥)
            (λ k. counted self.now.shipped k ≡ Some message.now) }
        ensures proper { IfSome result (IsProperNumber self.now) }
    {
        match self.next(message) {
            Some(waiting) => Some(waiting),
            None => self.shipped.number(message),
        }
    }

    /// The message with this number doesn't wait any more.
    pub(crate) fn take(&mut self, number: u64)
        requires { IsMail self.old }
        ensures { Takes self.old number self.new }
    {
        let place = number.saturating_sub(1) as usize;
        if number == 0 || place >= self.shipped.len() {
            return;
        }
        let label = self.shipped.label_at(place);
        self.waiting.unfile(label, place);
    }

    /// Appends a message, which waits.
    pub(crate) fn post(&mut self, message: &'a Message) -> Result<(), NoMemory>
        requires { IsMail self.old }
        ensures { OnOk result (Posts self.old message.now self.new) }
    {
        let place = self.shipped.len();
        self.shipped.put(message)?;
        self.waiting.file(message.label(), place)?;
        Ok(())
    }
}
