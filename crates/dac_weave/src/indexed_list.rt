//! A list with a hash index.

ghost use Rattle.std.specs.Prelude.{◌≡◌, ◌<◌, ◌↔◌, ℕ, ◌++◌, ◌∷◌, [], Some, IfOk, OnOk, IsTrue, MatchOption, length, slice_get};
ghost use Rattle.dac_journal.specs.ModelWorld.{counted};

use crate::buckets::Buckets;
use crate::labels::Labelled;
use dac_base::NoMemory;
use std::alloc::Global;
use std::marker::Model;

/// Items in the order of insertion, the first of each class of equal ones indexed by label. Contracts see the list.
pub(crate) struct IndexedList<'a, T: Labelled> {
    items: Vec<&'a T>,
    buckets: Buckets,
}

/// Written out so that proofs see each drop as one call.
impl<T: Labelled> Drop for IndexedList<'_, T> {
    fn drop(self) {
        let IndexedList {
            items: _items,
            buckets: _buckets,
        } = self;
    }
}

impl<'a, T: Labelled> Model for IndexedList<'a, T> {
    ghost use Rattle.std.specs.Prelude.{List};
    ghost use Rattle.dac_weave.specs.Labels.{lent};
    ghost use Rattle.dac_weave.specs.Indexing.{Finds};

    ghost Value = { List T };

    ghost view = { λ a. lent a.items.items };

    ghost invariant = { λ a. Finds T.label_of (lent a.items.items) a.buckets.lists.items };
}

impl<'a, T: Labelled> IndexedList<'a, T> {
    /// An empty list with `room` buckets.
    pub(crate) fn new(alloc: Global, room: usize) -> Result<Self, NoMemory>
        ensures { IfOk result (λ made. made ≡ []) }
    {
        let buckets = Buckets::new(alloc, room)?;
        Ok(IndexedList {
            items: Vec::new(alloc),
            buckets,
        })
    }

    pub(crate) fn len(&self) -> usize
        ensures { result ≡ length self.now }
    {
        self.items.len()
    }

    /// The label of the item at this place.
    pub(crate) fn label_at(&self, place: usize) -> u64
        requires { place < length self.now }
        ensures { (x : T) → slice_get self.now place ≡ Some x → result ≡ T.label_of x }
    {
        self.items[place].label()
    }

    /// Returns whether the item at this place equals this one.
    pub(crate) fn is_at(&self, place: usize, item: &T) -> bool
        requires { place < length self.now }
        ensures at { IsTrue result ↔ (slice_get self.now place ≡ Some item.now) }
        ensures within { place < usize.MAX }
    {
        let _count = self.items.len();
        self.items[place].is_same(item)
    }

    /// The number of the first item equal to this one, counted from 1.
    pub(crate) fn number(&self, item: &T) -> Option<u64>
        ensures { MatchOption result ((k : ℕ) → counted self.now k ≡ Some item.now → ⊥)
            (λ k. counted self.now k ≡ Some item.now) }
    {
        let bucket = self.buckets.bucket(item.label());
        for i in 0..bucket.len() {
            let place = bucket[i];
            if self.items[place].is_same(item) {
                return Some(place as u64 + 1);
            }
        }
        None
    }

    /// Appends an item. Of equal items only the first is indexed.
    pub(crate) fn put(&mut self, item: &'a T) -> Result<(), NoMemory>
        ensures { OnOk result (self.new ≡ self.old ++ item.now ∷ []) }
    {
        match self.number(item) {
            Some(_) => {
                self.items.push(item)?;
                Ok(())
            }
            None => self.put_new(item),
        }
    }

    /// Appends an item and indexes it.
    fn put_new(&mut self, item: &'a T) -> Result<(), NoMemory>
        ensures { OnOk result (self.new ≡ self.old ++ item.now ∷ []) }
    {
        let place = self.items.len();
        self.items.reserve(1)?;
        self.buckets.file(item.label(), place)?;
        self.items.push_reserved(item);
        Ok(())
    }
}
