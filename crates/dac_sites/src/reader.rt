//! A reader of a site's pages.

ghost use Rattle.std.specs.Prelude.{◌≡◌, ◌≤◌, max, IfSome, IfNone};
ghost use Rattle.dac_sites.specs.Receipts.{note_of, learned};

use crate::blank::SiteName;
use crate::receipt::Receipt;
use dac_pages::{Follower, Page, RawReader};
use std::marker::{Model, PhantomData};

/// Reads the pages of a site without waiting for its lock. Contracts see the least place that the next page can have.
#[derive(Drop)]
pub struct PageReader<L: SiteName> {
    follower: Follower,
    of: PhantomData<L>,
}

impl<L: SiteName> Model for PageReader<L> {
    ghost use Rattle.std.specs.Prelude.{ℕ};

    ghost Value = { ℕ };

    ghost view = { λ r. r.follower };
}

impl<L: SiteName> PageReader<L> {
    /// A reader that has learned no receipt.
    pub(crate) fn over(reader: RawReader) -> Self {
        PageReader {
            follower: Follower::over(reader),
            of: PhantomData,
        }
    }

    /// The newest published page. Its place is at least that of each page that this reader has read, and of each
    /// receipt that it was the first to learn. `None` if the page structure refuses the read, as it can after the site
    /// is closed; then nothing changes.
    pub fn read(&mut self) -> Option<Page>
        ensures some { IfSome result (λ page. (self.old ≤ page.place) × (self.new ≡ page.place)) }
        ensures none { IfNone result (self.new ≡ self.old) }
    {
        self.follower.read()
    }

    /// Makes later reads at least as new as the receipt's record, so that a caller can read its own write. Only the
    /// first reader to learn a receipt gets its place; later ones stay unchanged. A value that the owner has written to
    /// [`Receipt::place`] is ignored.
    pub fn learn(&mut self, receipt: &mut Receipt<L>)
        ensures first { IfSome (note_of receipt.old) (λ place. self.new ≡ max self.old place) }
        ensures later { IfNone (note_of receipt.old) (self.new ≡ self.old) }
        ensures receipt { receipt.new ≡ learned receipt.old }
    {
        let note = receipt.note;
        receipt.note = None;
        match note {
            Some(place) => self.follower.learn(place),
            None => {}
        }
    }
}
