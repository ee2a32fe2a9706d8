//! The readers of pages.

ghost use Rattle.std.specs.Prelude.{◌≡◌, ◌≤◌, max, IfSome, IfNone};

use crate::page::{Page, PageCopy};
use crate::rule::{Rises, Sees};
use left_right::reader::Reader;
use std::marker::Model;

/// A reader of pages, bound to their rule.
pub type RawReader = Reader<PageCopy, u64, Rises>;

/// Reads pages without waiting. Contracts see the least place that its next page can have.
#[derive(Drop)]
pub struct Follower {
    reader: Option<RawReader>,
    learned: u64,
}

impl Model for Follower {
    ghost use Rattle.std.specs.Prelude.{ℕ};
    ghost use Rattle.dac_pages.specs.Published.{IsHere, least_of};

    ghost Value = { ℕ };

    ghost view = { λ r. least_of r.learned r.reader };

    ghost invariant = { λ r. IsHere r.reader };
}

impl Follower {
    /// A follower that reads by this reader.
    pub fn over(reader: RawReader) -> Follower {
        Follower {
            reader: Some(reader),
            learned: 0,
        }
    }

    /// The newest published page. Its place is at least that of each page read before, and at least each place passed
    /// to [`Follower::learn`]. `None` if the reader can't enter the pages, as after [`Pages::end`](crate::Pages::end),
    /// or if the page is older than a learned place.
    pub fn read(&mut self) -> Option<Page>
        ensures some { IfSome result (λ p. (self.old ≤ p.place) × (self.new ≡ p.place)) }
        ensures none { IfNone result (self.new ≡ self.old) }
    {
        let reading = match self.reader.take().unwrap().enter_as::<Sees>() {
            Ok(reading) => reading,
            Err(reader) => {
                self.reader = Some(reader);
                return None;
            }
        };
        let page = *reading.get().page();
        self.reader = Some(reading.leave());
        if page.place < self.learned {
            return None;
        }
        Some(page)
    }

    /// Requires that later pages have at least this place.
    pub fn learn(&mut self, place: u64)
        ensures { self.new ≡ max self.old place }
    {
        self.learned = self.learned.max(place);
    }
}
